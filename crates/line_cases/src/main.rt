// Runs scripts of calls for a line through the library (N3): for each script its name, and for each call its number, the length and the line that it
// gives. The gate compares what is printed with stored answers. The arguments are two files a script: its calls, and the journal.

#![tactic(auto)]

use report::print_number;
use std::io;
use std::rt::Files;

// The length of a call: two words of four bytes, the scratch's length and how many lines are already given.
const CALL: usize = 8;

// More than any file of a script, and any scratch, is long.
const LONGEST: usize = 131072;

// What stands in a scratch before a call.
const BEFORE: u8 = 0xA5;

// One call, lent a scratch of so many bytes. A byte behind the line that did not keep its value is told in a line that no script's answers have.
fn run_call(rt: &impl Print, journal: &[u8], room: usize, given: usize) -> io::Result<()> {
    let mut buffer = [BEFORE; LONGEST];
    let Some(scratch) = buffer.get_mut(..room) else {
        return rt.write_all(b"no call\n");
    };
    let answer = line_by_line::next_line(journal, given, scratch);
    let (line, unused) = scratch.split_at(answer.unwrap_or(0));
    print_number(rt, report::number_of(answer), b' ')?;
    print_number(rt, line.len() as u64, b' ')?;
    rt.write_all(if line.is_empty() { b"\n" } else { line })?;
    if unused.iter().any(|&byte| byte != BEFORE) {
        return rt.write_all(b"changed\n");
    }
    Ok(())
}

// A script, by the arguments that name its two files.
fn run_script<R: Files + Print>(rt: &R, script: &str, journal_name: &str) -> io::Result<()> {
    report::print_argument(rt, script)?;
    let mut calls = [0u8; LONGEST];
    let calls = report::read_argument(rt, script, &mut calls)?;
    let mut journal = [0u8; LONGEST];
    let journal = report::read_argument(rt, journal_name, &mut journal)?;
    for call in calls.as_chunks::<CALL>().0 {
        let room = words::u32_at(call, 0) as usize;
        let given = words::u32_at(call, 4) as usize;
        run_call(rt, journal, room, given)?;
    }
    Ok(())
}

fn main(rt: HostRuntime) -> io::Result<()> {
    report::run_cases(&rt, |script, journal| run_script(&rt, script, journal))
}
