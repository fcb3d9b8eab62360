// Runs journals through the library: for each file named as an argument its name, its listing, all eight rows after each interval as the control
// reader shows them, and then all of them as the trader's does (N6). A refusal ends each of the three.
// The gate compares what is printed with stored listings, rows and views.

#![tactic(auto)]

use journal::LONGEST_JOURNAL;
use report::{Control, Trader};
use std::rt::Files;
use std::{env, io};

// The listing, with buffers as clampday has them.
fn print_listing<R: Files + Print>(rt: &R, name: &str) -> io::Result<()> {
    let mut input = [0u8; LONGEST_JOURNAL];
    let mut out = [0u8; listing::ROOM];
    let mut file = report::open_argument(rt, name)?;
    listing::print_listing(&mut file, &mut input, &mut out, &mut io::writer(rt))
}

// All eight rows after each interval, opened as clampday opens a journal, by both readers. A byte more than clampday's buffer is read, so that
// what is too long is seen to be.
fn print_all_rows<R: Files + Print>(rt: &R, name: &str) -> io::Result<()> {
    let mut input = [0u8; LONGEST_JOURNAL + 1];
    let journal = report::read_argument(rt, name, &mut input)?;
    report::print_header(rt)?;
    report::print_journal(rt, journal, &Control)?;
    report::print_journal(rt, journal, &Trader)
}

// The journal that an argument names.
fn run_case<R: Files + Print>(rt: &R, name: &str) -> io::Result<()> {
    report::print_argument(rt, name)?;
    print_listing(rt, name)?;
    print_all_rows(rt, name)
}

fn main(rt: HostRuntime) -> io::Result<()> {
    for name in env::args(&rt)?.skip(1) {
        run_case(&rt, name.as_str())?;
    }
    Ok(())
}
