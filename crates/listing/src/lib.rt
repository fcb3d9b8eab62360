// The listing of a journal: which rows are printed, each as a line, and all lines in one buffer. A writer has the form of crate `words`: it puts
// its bytes at the start of the slice that it is lent, leaves every other byte as it was, and gives how many they are.

#![tactic(auto)]

ghost use Rattle.std.specs.Prelude.{true, slice_index_or, ◌≡◌, ◌+◌, ◌<◌, ◌≤◌, length, take, IfOk, OnOk, IfSome};
ghost use mathlib.Core.List.{[], flatten, map};
ghost use Rattle.std.specs.Io.{ReadsAtMost};
ghost use Rattle.std.specs.Io.KnownBytes.{Appends, Consumes, IsAtEnd};
ghost use Rattle.words.specs.Buffer.{over, put_before, Puts};
ghost use Rattle.text.specs.Ascii.{ascii};
ghost use Rattle.tracker.specs.Promise.{Came, RowBounds, number};
ghost use Rattle.journal_rules.specs.Journal.{in_order};
ghost use Rattle.journal_rules.specs.Survivors.{survivors};
ghost use Rattle.listing.specs.Line.{names, name_of, amounts_of, line_of, listed_of};
ghost use Rattle.listing.specs.Internal.{row_text, rows_text};
ghost use Rattle.listing.specs.Listing.{ended_by, opened_lines, record_lines, body_lines, input_lines, listing_of, listing_in, longest_listing, IsPrefixLen};

use rules::{MOST_RECORDS, RECORD, Refusal, Row, Tracker};
use std::io;
use std::io::{Read, Write};
use units::{Cents, Hundredths, Quantity};
use words::FromEnd;

// How long the longest line is, `longest_line`, newline included.
const LONGEST_LINE: usize = 95;

// The first line. For `line_by_line` too, as are the functions below that are `pub` and ask for room.
pub const HEADER: &[u8; 62] = b"interval,direction,applies,amount,previous,current,next,clamp\n";

// How long the longest listing is, `longest_listing`: a header and 288 intervals of eight lines. A buffer needs no more.
pub const ROOM: usize = HEADER.len() + MOST_RECORDS * (8 * LONGEST_LINE);

// The directions' names, by the number that document 01 gives each. For `clampbeside` too.
pub const NAMES: [&str; 8] = [
    "NSW1_QLD1",
    "QLD1_NSW1",
    "VIC1_NSW1",
    "NSW1_VIC1",
    "VIC1_SA1",
    "SA1_VIC1",
    "NSW1_SA1",
    "SA1_NSW1",
];

fn name(d: usize) -> &'static str
    requires { d < 8 }
    ensures { result.now ≡ slice_index_or (map ascii names) d [] }
{
    NAMES[d]
}

// A direction's name, and a comma. A row has its direction as document 01 has it, by number, here and below.
#[tactic(auto, using(crate::proofs::LineLength::name_parts, words::proofs::Parts::before))]
fn put_name(d: usize, out: &mut FromEnd)
    requires { (d < 8) × (length (name_of d) ≤ length out.old.free) }
    ensures { out.new ≡ put_before (name_of d) out.old }
{
    out.put_byte(b',');
    out.put_bytes(name(d).as_bytes());
}

// amount,previous,current,next. Each call of `text::quantity` names the type, so that a flow passed for an amount does not compile.
#[tactic(auto, using(crate::proofs::LineLength::amounts_parts, words::proofs::Parts::before))]
fn amounts(row: &Row, out: &mut FromEnd)
    requires { length (amounts_of row.now) ≤ length out.old.free }
    ensures { out.new ≡ put_before (amounts_of row.now) out.old }
{
    text::quantity::<Cents>(row.next, b',', out);
    text::quantity::<Cents>(row.current, b',', out);
    text::quantity::<Cents>(row.previous, b',', out);
    text::quantity::<Cents>(row.amount, b',', out);
}

// A row as a line, put together from its end, as numbers are.
#[tactic(auto, using(crate::proofs::LineLength::line_parts, words::proofs::Parts::before))]
fn line_before(row: &Row, out: &mut FromEnd)
    requires { (row.now.direction < 8) × (length (line_of row.now) ≤ length out.old.free) }
    ensures { out.new ≡ put_before (line_of row.now) out.old }
{
    text::quantity::<Hundredths>(row.clamp, b'\n', out);
    amounts(row, out);
    text::number(u64::from(row.applies), b',', out);
    put_name(row.direction, out);
    text::number(u64::from(row.n), b',', out);
}

// A row as a line: it is put together beside the buffer, since its length is known only then.
#[tactic(auto, using(crate::proofs::LineLength::line_short, words::proofs::Parts::before))]
pub fn line(row: &Row, out: &mut [u8]) -> usize
    requires { RowBounds row.now × (length (line_of row.now) ≤ length out.old) }
    ensures { Puts (line_of row.now) out.old result out.new }
{
    let mut room = [0; LONGEST_LINE];
    let mut text = FromEnd::new(&mut room);
    line_before(row, &mut text);
    words::put_bytes(text.as_slice(), out)
}

// Is the row printed?
#[tactic(auto, unfolding(crate::specs::Line::listed_of))]
pub fn listed(row: &Row) -> bool
    ensures { result ≡ listed_of row.now }
{
    row.amount.is_negative() || row.next.is_negative() || row.applies
}

// A row's line, where it is printed.
fn row_line(row: &Row, out: &mut [u8]) -> usize
    requires { RowBounds row.now × (length (row_text row.now) ≤ length out.old) }
    ensures { Puts (row_text row.now) out.old result out.new }
{
    if listed(row) { line(row, out) } else { 0 }
}

// The lines of a tracker's rows, of those that are printed. A tracker gives a row by its direction's number.
fn rows(t: &Tracker, out: &mut [u8]) -> usize
    requires { Came t.now × (length (rows_text t.now) ≤ length out.old) }
    ensures { Puts (rows_text t.now) out.old result out.new }
{
    let mut n = 0;
    for d in 0..8 {
        n += row_line(&tracker::row(t, d).row, &mut out[n..]);
    }
    n
}

// A refusal's line.
#[tactic(auto, using(crate::proofs::ListingLength::ended_parts, crate::proofs::ListingLength::refusal_short, words::proofs::Parts::chained, words::proofs::Parts::before))]
pub fn refused(why: Refusal, out: &mut [u8]) -> usize
    requires { length (flatten (ended_by (number why))) ≤ length out.old }
    ensures { Puts (flatten (ended_by (number why))) out.old result out.new }
{
    let mut room = [0; 3];
    let mut digits = FromEnd::new(&mut room);
    text::number(u64::from(u8::from(why)), b'\n', &mut digits);
    let n = words::put_bytes(b"refused,", out);
    n + words::put_bytes(digits.as_slice(), &mut out[n..])
}

// The lines of the survivors among records end to end, each put in its turn to a tracker that is opened at the first n; those of the records
// before a refusal stay. A superseded record is passed over, whatever it holds.
fn run(first: u32, records: &[u8], out: &mut [u8]) -> usize
    requires { (in_order records.now ≡ true) × (length (flatten (opened_lines first (survivors records.now))) ≤ length out.old) }
    ensures { Puts (flatten (opened_lines first (survivors records.now))) out.old result out.new }
{
    let opened = tracker::open(first, [500; 6]);
    if let Err(why) = opened.outcome {
        return refused(why, out);
    }
    let mut t = opened.tracker;
    let mut n = 0;
    for bytes in journal::Surviving::among(records) {
        let answer = tracker::interval(t, bytes);
        if let Err(why) = answer.outcome {
            return n + refused(why, &mut out[n..]);
        }
        t = answer.tracker;
        n += rows(&t, &mut out[n..]);
    }
    n
}

// What the records of a journal give that starts at the first n. That they are in order, which a read shows, is asked here and in `run`, as in two
// functions of `journal`: a type for such records would be made in one function of each crate and taken apart in the next.
#[tactic(auto, using(crate::proofs::LinesByCase::no_text, crate::proofs::LinesByCase::some_records, std::proofs::lemmas::Grind::common_steps))]
fn opened(first: u32, records: &[u8], out: &mut [u8]) -> usize
    requires { (in_order records.now ≡ true) × (length (flatten (record_lines first (survivors records.now))) ≤ length out.old) }
    ensures { Puts (flatten (record_lines first (survivors records.now))) out.old result out.new }
{
    if records.len() < RECORD {
        0
    } else {
        run(first, records, out)
    }
}

// What a journal gives.
#[tactic(auto, using(crate::proofs::LinesByCase::read_some, journal_rules::proofs::RunInTurn::read_order, crate::proofs::LinesByCase::read_none))]
fn body(journal: &[u8], out: &mut [u8]) -> usize
    requires { length (flatten (body_lines journal.now)) ≤ length out.old }
    ensures { Puts (flatten (body_lines journal.now)) out.old result out.new }
{
    let found = journal::read(journal);
    match found {
        Ok(contents) => {
            let records = journal::counted_records(journal, found);
            opened(contents.first, records, out)
        }
        Err(why) => refused(why, out),
    }
}

// What follows the header: with input beyond the buffer, nothing that the buffer holds counts.
#[tactic(auto, unfolding(crate::specs::Listing::input_lines))]
fn input_lines(input: &[u8], more: bool, out: &mut [u8]) -> usize
    requires { length (flatten (input_lines input.now more)) ≤ length out.old }
    ensures { Puts (flatten (input_lines input.now more)) out.old result out.new }
{
    if more {
        refused(Refusal::BadLength, out)
    } else {
        body(input, out)
    }
}

// The whole listing of a program's input: what its buffer holds, and whether more follows (a bool beside the bytes, since those are as they are
// either way, and too many of them are refused by number like any other fault). It stands at the start of a buffer that has room for the longest.
pub fn listing(input: &[u8], more: bool, out: &mut [u8]) -> usize
    requires { longest_listing ≤ length out.old }
    ensures prefix_len { IsPrefixLen result out.new }
    ensures value { result ≡ length (listing_of input.now more) }
    ensures out_after { out.new ≡ over (listing_of input.now more) out.old }
{
    let n = words::put_bytes(HEADER, out);
    n + input_lines(input, more, &mut out[n..])
}

// Reads until the buffer is full or the input ends, and gives how many bytes stand at the buffer's start.
pub fn read_full<R: Read>(source: &mut R, buffer: &mut [u8]) -> io::Result<usize>
    ensures bound { ReadsAtMost result buffer.new }
    ensures bytes { IfOk result (λ n. Consumes (R.remaining source.old) (R.remaining source.new) (take n buffer.new)) }
    ensures end { IfOk result (λ n. n < length buffer.new → IsAtEnd (R.remaining source.new)) }
{
    // std has no method for this: `read_exact` takes an input that ends early for an error.
    let mut done = 0;
    while done < buffer.len() {
        let n = source.read(&mut buffer[done..])?;
        if n == 0 {
            return Ok(done);
        }
        done += n;
    }
    Ok(done)
}

// Reads a journal into one lent buffer, and whether more follows; lists it in the other, and prints that. Both are lent, since there is no heap.
pub fn print_listing<R: Read, W: Write>(
    source: &mut R,
    input: &mut [u8],
    out: &mut [u8],
    sink: &mut W,
) -> io::Result<()>
    requires { longest_listing ≤ length out.old }
    ensures { OnOk result (IfSome (R.remaining source.old) (λ xs.
        Appends (W.contents sink.old) (W.contents sink.new) (listing_in (length input.old) xs))) }
{
    let mut beyond = [0u8; 1];
    let n = read_full(source, input)?;
    let more = read_full(source, &mut beyond)? != 0;
    let k = listing(&input[..n], more, out);
    sink.write_all(&out[..k])
}
