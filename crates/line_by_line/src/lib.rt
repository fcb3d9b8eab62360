// The listing line by line, for a host that lends room for one line and no more (N3). A call reads the journal and runs a tracker anew, up to the
// record that has the line, and keeps nothing: what it needs beside the scratch is a tracker, and a line's room.

#![tactic(auto)]

ghost use Rattle.std.specs.Prelude.{true, ◌≡◌, ◌≤◌, length, get_or};
ghost use mathlib.Core.List.{[]};
ghost use Rattle.words.specs.Buffer.{Puts};
ghost use Rattle.tracker.specs.Promise.{Came, number};
ghost use Rattle.journal_rules.specs.Journal.{in_order};
ghost use Rattle.journal_rules.specs.Survivors.{survivors};
ghost use Rattle.listing.specs.Listing.{ended_by, opened_lines, record_lines, body_lines, longest_line};
ghost use Rattle.line_by_line.specs.Internal.{lines_shown, Sought};
ghost use Rattle.line_by_line.specs.Promise.{NextLinePromise};

use listing::HEADER;
use rules::{RECORD, Refusal, Tracker};

// The length of the least scratch that is taken.
pub const LEAST_SCRATCH: usize = 96;

// A search for a line among lines that come in turn: it is among these, and has this length, or it is beyond them, and so many are to be passed yet.
#[derive(Clone, Copy)]
enum Search {
    Found(usize),
    Beyond(usize),
}

// Line k among those of a tracker's rows, of those that are printed. A tracker gives a row by its direction's number.
fn shown_line(t: &Tracker, k: usize, out: &mut [u8]) -> Search
    requires { Came t.now × (longest_line ≤ length out.old) }
    ensures { Sought (lines_shown t.now) k out.old result out.new }
{
    let mut to_pass = k;
    for d in 0..8 {
        let row = tracker::row(t, d).row;
        if listing::listed(&row) {
            if to_pass == 0 {
                return Search::Found(listing::line(&row, out));
            }
            to_pass -= 1;
        }
    }
    Search::Beyond(to_pass)
}

// Line k where a refusal ends the listing: its line, or none.
fn refusal_line(why: Refusal, k: usize, out: &mut [u8]) -> usize
    requires { longest_line ≤ length out.old }
    ensures { Puts (get_or (ended_by (number why)) k []) out.old result out.new }
{
    if k == 0 {
        listing::refused(why, out)
    } else {
        0
    }
}

// Line k of the survivors among records end to end, each put in its turn to a tracker that is opened at the first n, up to the one that has the line.
fn run_line(first: u32, records: &[u8], k: usize, out: &mut [u8]) -> usize
    requires { (in_order records.now ≡ true) × (longest_line ≤ length out.old) }
    ensures { Puts (get_or (opened_lines first (survivors records.now)) k []) out.old result out.new }
{
    let opened = tracker::open(first, [500; 6]);
    if let Err(why) = opened.outcome {
        return refusal_line(why, k, out);
    }
    let mut t = opened.tracker;
    let mut to_pass = k;
    for bytes in journal::Surviving::among(records) {
        let answer = tracker::interval(t, bytes);
        if let Err(why) = answer.outcome {
            return refusal_line(why, to_pass, out);
        }
        t = answer.tracker;
        match shown_line(&t, to_pass, out) {
            Search::Found(n) => return n,
            Search::Beyond(more) => to_pass = more,
        }
    }
    0
}

// Line k of what the records of a journal give that starts at the first n.
#[tactic(auto, using(listing::proofs::LinesByCase::no_records, listing::proofs::LinesByCase::some_records, std::proofs::lemmas::List::get_or_past, std::proofs::lemmas::Grind::common_steps))]
fn opened_line(first: u32, records: &[u8], k: usize, out: &mut [u8]) -> usize
    requires { (in_order records.now ≡ true) × (longest_line ≤ length out.old) }
    ensures { Puts (get_or (record_lines first (survivors records.now)) k []) out.old result out.new }
{
    if records.len() < RECORD {
        0
    } else {
        run_line(first, records, k, out)
    }
}

// Line k of what a journal gives.
#[tactic(auto, using(listing::proofs::LinesByCase::read_some, journal_rules::proofs::RunInTurn::read_order, listing::proofs::LinesByCase::read_none))]
fn body_line(journal: &[u8], k: usize, out: &mut [u8]) -> usize
    requires { longest_line ≤ length out.old }
    ensures { Puts (get_or (body_lines journal.now) k []) out.old result out.new }
{
    let found = journal::read(journal);
    match found {
        Ok(contents) => {
            let records = journal::counted_records(journal, found);
            opened_line(contents.first, records, k, out)
        }
        Err(why) => refusal_line(why, k, out),
    }
}

// The next line of a journal's listing, after so many already given, at the scratch's start, and its length: 0 at the end and beyond. The other bytes
// of the scratch keep their values, and on a refusal all do.
pub fn next_line(journal: &[u8], given: usize, scratch: &mut [u8]) -> Result<usize, Refusal>
    ensures { NextLinePromise journal.now given scratch.old result scratch.new }
{
    Refusal::SmallScratch.when(scratch.len() < LEAST_SCRATCH)?;
    Ok(if given == 0 {
        words::put_bytes(HEADER, scratch)
    } else {
        body_line(journal, given - 1, scratch)
    })
}
