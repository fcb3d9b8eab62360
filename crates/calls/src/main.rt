// Runs scripts of calls through the library, each on one tracker and its kept states (N11): for each script its name, and a line for each call with
// its answer. The gate compares what is printed with stored answers. The arguments are two files a script: its calls, and the records that they refer
// to.

#![tactic(auto)]

ghost use Rattle.std.specs.Prelude.{◌≡◌, ◌<◌, length, slice_range, IfOk, MatchOption};
ghost use Rattle.keeper.specs.Promise.{CameKeeper};
ghost use Rattle.calls.specs.Internal.{call_words, word_of, part_end};

use journal::TRAILER;
use keeper::{Keeper, KeeperAnswer, KeeperSetAnswer};
use report::{SETTINGS, number_of, print_number};
use rules::{Refusal, Settings};
use std::rt::Files;
use std::{array, io};

// The length of a call: 52 words of four bytes.
const CALL: usize = 208;

// More than any script, and any buffer that it writes to, is long.
const LONGEST: usize = 131072;

// A call of the library, with what a script gives to it. The last two are lent a buffer of so many bytes.
#[derive(Clone, Copy)]
enum Call<'a> {
    Open {
        first: u32,
        shares: [u16; 6],
    },
    OpenWithSettings {
        first: u32,
        shares: [u16; 6],
        settings: Settings,
    },
    Interval(&'a [u8]),
    Lent(&'a [u8]),
    Set(&'a [u8]),
    Keep(usize),
    Return(usize),
    Row(usize),
    Read(&'a [u8]),
    Write {
        records: &'a [u8],
        room: usize,
    },
    Survivors {
        journal: &'a [u8],
        room: usize,
    },
}

// Word k of a call.
fn word(call: &[u8; CALL], k: usize) -> u32
    requires { k < call_words }
    ensures { result ≡ word_of call.now k }
{
    words::u32_at(call, 4 * k)
}

// The first two numbers of a call tell a part of the records: AT, where it begins, and LEN, how long it is.
fn part_of<'a>(call: &[u8; CALL], records: &'a [u8]) -> Option<&'a [u8]>
    ensures { MatchOption result (length records.now < part_end call.now) (λ part. part.now ≡ slice_range records.now (word_of call.now 1) (part_end call.now)) }
{
    let at = word(call, 1) as usize;
    let len = word(call, 2) as usize;
    records.get(at..at + len)
}

// The shares of an opening, if each is a u16, as the library takes it.
fn shares_of(call: &[u8; CALL]) -> Option<[u16; 6]> {
    array::try_from_fn(|k| u16::try_from(word(call, 2 + k))).ok()
}

// The settings of an opening: 44 numbers, from word 8 on.
fn settings_of(call: &[u8; CALL]) -> Settings {
    report::settings_in(call.last_chunk::<SETTINGS>().unwrap())
}

impl<'a> Call<'a> {
    // The call of a kind and its numbers; none, if no call of the library can be made of them. A script's file has the kinds by number, and they are
    // read here alone.
    fn parse(call: &[u8; CALL], records: &'a [u8]) -> Option<Call<'a>> {
        match word(call, 0) {
            // open FIRST S0 .. S5
            0 => Some(Call::Open {
                first: word(call, 1),
                shares: shares_of(call)?,
            }),
            // settings FIRST S0 .. S5 and 44 numbers
            1 => Some(Call::OpenWithSettings {
                first: word(call, 1),
                shares: shares_of(call)?,
                settings: settings_of(call),
            }),
            // interval AT LEN
            2 => Some(Call::Interval(part_of(call, records)?)),
            // lent AT LEN
            3 => Some(Call::Lent(part_of(call, records)?)),
            // set AT LEN
            4 => Some(Call::Set(part_of(call, records)?)),
            // keep K
            5 => Some(Call::Keep(word(call, 1) as usize)),
            // return K
            6 => Some(Call::Return(word(call, 1) as usize)),
            // row D
            7 => Some(Call::Row(word(call, 1) as usize)),
            // read AT LEN
            8 => Some(Call::Read(part_of(call, records)?)),
            // write AT LEN ROOM
            9 => Some(Call::Write {
                records: part_of(call, records)?,
                room: word(call, 3) as usize,
            }),
            // survivors AT LEN ROOM
            10 => Some(Call::Survivors {
                journal: part_of(call, records)?,
                room: word(call, 3) as usize,
            }),
            _ => None,
        }
    }
}

// For what no call of the library can be made of; no answer is like it.
fn no_call(rt: &impl Print) -> io::Result<()> {
    rt.write_all(b"no call\n")
}

// What an opening, an interval call, a keep and a return answer. A refused one too goes on with the keeper beside it. `CameKeeper` is what is asked
// of a keeper, here and below, as in crate `keeper`.
fn print_answer(rt: &impl Print, answer: KeeperAnswer) -> io::Result<Keeper>
    requires { CameKeeper answer.keeper }
    ensures { IfOk result CameKeeper }
{
    print_number(rt, number_of(answer.outcome), b'\n')?;
    Ok(answer.keeper)
}

// An interval call on a lent tracker (N14): the one of a keeper in a local.
fn interval_on_lent(rt: &impl Print, now: Keeper, bytes: &[u8]) -> io::Result<Keeper>
    requires { CameKeeper now }
    ensures { IfOk result CameKeeper }
{
    let mut keeper = now;
    let outcome = tracker::interval_on_lent(&mut keeper.tracker, bytes);
    print_answer(rt, KeeperAnswer { outcome, keeper })
}

// What the call of a set answers: the number and the index, 0 0 if accepted.
fn print_set_answer(rt: &impl Print, answer: KeeperSetAnswer) -> io::Result<Keeper>
    requires { CameKeeper answer.keeper }
    ensures { IfOk result CameKeeper }
{
    let refused = answer.outcome.err();
    print_number(
        rt,
        refused.map_or(0, |at| u64::from(u8::from(at.why))),
        b' ',
    )?;
    print_number(rt, refused.map_or(0, |at| at.index as u64), b'\n')?;
    Ok(answer.keeper)
}

fn print_row(rt: &impl Print, keeper: &Keeper, direction: usize) -> io::Result<()>
    requires { CameKeeper keeper.now }
{
    let answer = keeper::row(keeper, direction);
    print_number(rt, number_of(answer.outcome), b',')?;
    report::print_row(rt, answer.row)
}

// Where in a journal its records lie. They are compared byte for byte with what lies before the trailer, since no slice tells its place.
fn place(journal: &[u8], records: &[u8]) -> Option<usize> {
    let end = journal.len().checked_sub(TRAILER)?;
    let before = journal[..end].strip_suffix(records)?;
    Some(before.len())
}

// The place of a journal's records, and their length; an empty part lies nowhere, which is 0.
fn print_place(rt: &impl Print, journal: &[u8]) -> io::Result<()> {
    let records = journal::records(journal);
    if records.is_empty() {
        return rt.write_all(b"0 0\n");
    }
    let Some(at) = place(journal, records) else {
        return rt.write_all(b"other\n");
    };
    print_number(rt, at as u64, b' ')?;
    print_number(rt, records.len() as u64, b'\n')
}

// What a read of a journal finds, and where. A refusal tells no numbers, which are zeros then.
fn print_read(rt: &impl Print, journal: &[u8]) -> io::Result<()> {
    let found = journal::read(journal);
    print_number(rt, number_of(found), b' ')?;
    match found {
        Ok(held) => {
            for n in [held.count, held.first, held.last] {
                print_number(rt, u64::from(n), b' ')?;
            }
        }
        Err(_) => rt.write_all(b"0 0 0 ")?,
    }
    print_place(rt, journal)
}

// The sum of (i + 1) × byte i, modulo 2^32: it tells a changed byte and a moved one.
fn weighted_sum(bytes: &[u8]) -> u32 {
    bytes.iter().zip(1u32..).fold(0u32, |sum, (&byte, weight)| {
        sum.wrapping_add(weight.wrapping_mul(u32::from(byte)))
    })
}

// Lends a call a buffer of so many bytes, and prints what it answers: the number, 0 if accepted, how much it gives, and all bytes of the buffer
// afterwards. Before, they are not zeros, so that those that a call leaves alone are seen.
fn print_with_buffer<F: FnOnce(&mut [u8]) -> Result<usize, Refusal>>(
    rt: &impl Print,
    room: usize,
    call: F,
) -> io::Result<()>
    requires { F.IsAlwaysCallable call }
{
    if LONGEST < room {
        return no_call(rt);
    }
    let mut buffer = [0xA5; LONGEST];
    let out = &mut buffer[..room];
    let given = call(out);
    print_number(rt, number_of(given), b' ')?;
    print_number(rt, given.unwrap_or(0) as u64, b' ')?;
    print_number(rt, u64::from(weighted_sum(out)), b'\n')
}

// One call. What may change the keeper gives the next one.
fn run_call(rt: &impl Print, now: Keeper, call: Call) -> io::Result<Keeper>
    requires { CameKeeper now }
    ensures { IfOk result CameKeeper }
{
    match call {
        Call::Open { first, shares } => return print_answer(rt, keeper::open(first, shares)),
        Call::OpenWithSettings {
            first,
            shares,
            settings,
        } => {
            let opened = keeper::open_with_settings(first, shares, settings);
            return print_answer(rt, opened);
        }
        Call::Interval(bytes) => return print_answer(rt, keeper::interval(now, bytes)),
        Call::Lent(bytes) => return interval_on_lent(rt, now, bytes),
        Call::Set(bytes) => return print_set_answer(rt, keeper::set_of_intervals(now, bytes)),
        Call::Keep(number) => return print_answer(rt, keeper::keep(now, number)),
        Call::Return(number) => return print_answer(rt, keeper::return_to(now, number)),
        Call::Row(direction) => print_row(rt, &now, direction)?,
        Call::Read(journal) => print_read(rt, journal)?,
        Call::Write { records, room } => {
            print_with_buffer(rt, room, |out| journal::write(records, out))?;
        }
        Call::Survivors { journal, room } => {
            print_with_buffer(
                rt,
                room,
                |out| Ok(journal::survivors(journal, out)? as usize),
            )?;
        }
    }
    Ok(now)
}

// The calls of a script in their turn. Before any opening stands the keeper of one at 0 with all shares 0.
fn run(rt: &impl Print, calls: &[u8], records: &[u8]) -> io::Result<()> {
    let mut now = keeper::open(0, [0; 6]).keeper;
    for call in calls.as_chunks::<CALL>().0 {
        match Call::parse(call, records) {
            Some(call) => now = run_call(rt, now, call)?,
            None => no_call(rt)?,
        }
    }
    Ok(())
}

// A script, by the arguments that name its two files.
fn run_script<R: Files + Print>(rt: &R, script: &str, beside: &str) -> io::Result<()> {
    report::print_argument(rt, script)?;
    let mut calls = [0u8; LONGEST];
    let calls = report::read_argument(rt, script, &mut calls)?;
    let mut records = [0u8; LONGEST];
    let records = report::read_argument(rt, beside, &mut records)?;
    run(rt, calls, records)
}

fn main(rt: HostRuntime) -> io::Result<()> {
    report::run_cases(&rt, |script, records| run_script(&rt, script, records))
}
