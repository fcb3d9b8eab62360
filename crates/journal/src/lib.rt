// The journal: records end to end with a trailer. A read checks all of it and says what it holds; the second call gives the records that survive
// (N7); a write makes a journal. Every call takes any bytes, and refuses what the documents refuse. What they return, for every input, is in
// journal_rules/specs/Promise.

#![tactic(auto)]

ghost use Rattle.std.specs.Prelude.{true, ◌≡◌, ℕ, ◌+◌, ◌≤◌, List, length};
ghost use Rattle.std.specs.Iterator.{YieldsFirstRef, item_count};
ghost use mathlib.Core.List.{flatten};
ghost use Rattle.tracker.specs.Promise.{record_number, issue, records_in};
ghost use Rattle.words.specs.Buffer.{Puts};
ghost use Rattle.journal_rules.specs.Journal.{trailer_length, first_number, last_number, follows, in_order, count, distance, first, last, holding, bad_length, bad_trailer, bad_numbers, records_of, journal_of};
ghost use Rattle.journal_rules.specs.Survivors.{survivors};
ghost use Rattle.journal_rules.specs.Internal.{last_records, counted_records, issued_again, last_of_each, Whole};
ghost use Rattle.journal_rules.specs.Promise.{ReadPromise, SurvivorsPromise, WritePromise};

use journal_rules::Contents;
use rules::{MOST_RECORDS, RECORD, Refusal};
use std::marker::Model;

// The length of a trailer.
pub const TRAILER: usize = 16;

// Where a record has its issue (N7).
const ISSUE: usize = 13;

// The longest preface before a journal's records, and the longest journal.
const LONGEST_PREFACE: usize = 1024;

pub const LONGEST_JOURNAL: usize = 65536;

type RecordBytes = [u8; RECORD];

// What a trailer says: what the journal holds, and how far before the trailer its first record begins.
#[derive(Clone, Copy)]
struct Trailer {
    contents: Contents,
    distance: u32,
}

// Records end to end, one by one; bytes too few for a record are left out.
fn as_records(bytes: &[u8]) -> &[RecordBytes]
    ensures { result.now ≡ records_in bytes.now }
{
    bytes.as_chunks::<RECORD>().0
}

// The n of a record, which it starts with.
fn number_of(bytes: &RecordBytes) -> u32
    ensures { result ≡ record_number bytes.now }
{
    words::u32_at(bytes, 0)
}

// The n of the first record, and below of the last; 0 where there is none. Each is one match: `first().map_or(0, number_of)` was tried, and the check
// does not find its proof.
#[tactic(auto, using(journal_rules::proofs::OneByOne::how_many, journal_rules::proofs::OneByOne::number_in), unfolding(journal_rules::specs::Journal::first_number))]
fn first_number(records: &[u8]) -> u32
    ensures { result ≡ first_number records.now }
{
    match as_records(records) {
        [] => 0,
        [first, ..] => number_of(first),
    }
}

#[tactic(auto, using(journal_rules::proofs::OneByOne::how_many, journal_rules::proofs::OneByOne::number_in), unfolding(journal_rules::specs::Journal::last_number))]
fn last_number(records: &[u8]) -> u32
    ensures { result ≡ last_number records.now }
{
    match as_records(records) {
        [] => 0,
        [.., last] => number_of(last),
    }
}

// May record b stand after record a: of the same n and a higher issue, or of the next n (N7)? The highest n has no next one.
fn follows(a: &RecordBytes, b: &RecordBytes) -> bool
    ensures { result ≡ follows (record_number a.now) (issue a.now) (record_number b.now) (issue b.now) }
{
    let n = number_of(a);
    let m = number_of(b);
    m == n && a[ISSUE] < b[ISSUE] || n.checked_add(1) == Some(m)
}

// For both refusals 14, of a read and of a write.
fn in_order(records: &[u8]) -> bool
    ensures { result ≡ in_order records.now }
{
    let records = as_records(records);
    records.windows(2).all(|pair| follows(&pair[0], &pair[1]))
}

#[tactic(auto, unfolding(journal_rules::specs::Journal::bad_length))]
fn bad_length(journal: &[u8]) -> bool
    ensures { result ≡ bad_length journal.now }
{
    journal.len() < TRAILER || LONGEST_JOURNAL < journal.len()
}

fn read_trailer(journal: &[u8]) -> Trailer
    requires { trailer_length ≤ length journal.now }
    ensures contents { result.contents ≡ holding (count journal.now) (first journal.now) (last journal.now) }
    ensures distance { result.distance ≡ distance journal.now }
{
    let at = journal.len() - TRAILER;
    Trailer {
        contents: Contents {
            count: words::u32_at(journal, at),
            first: words::u32_at(journal, at + 8),
            last: words::u32_at(journal, at + 12),
        },
        distance: words::u32_at(journal, at + 4),
    }
}

// Where the trailer says that the records are.
#[tactic(auto, unfolding(journal_rules::specs::Journal::bad_trailer))]
fn bad_trailer(journal: &[u8]) -> bool
    requires { trailer_length ≤ length journal.now }
    ensures { result ≡ bad_trailer journal.now }
{
    let trailer = read_trailer(journal);
    let count = trailer.contents.count as usize;
    let distance = trailer.distance as usize;
    MOST_RECORDS < count
        || distance != RECORD * count
        || journal.len() < distance + TRAILER
        || LONGEST_PREFACE < journal.len() - TRAILER - distance
}

// What the trailer says of the records, against the records.
#[tactic(auto, unfolding(journal_rules::specs::Journal::bad_numbers))]
fn bad_numbers(contents: Contents, records: &[u8]) -> bool
    ensures { result ≡ bad_numbers contents.first contents.last records.now }
{
    contents.first != first_number(records) || contents.last != last_number(records)
}

// So many records, those that end at the trailer; none where they and a trailer are longer than the journal.
fn last_records(journal: &[u8], count: u32) -> &[u8]
    ensures { result.now ≡ last_records count journal.now }
{
    let distance = RECORD * count as usize;
    if journal.len() < distance + TRAILER {
        return &[];
    }
    let end = journal.len() - TRAILER;
    &journal[end - distance..end]
}

// What a journal holds.
#[tactic(auto, using(journal_rules::proofs::Accept::long_enough))]
pub fn read(journal: &[u8]) -> Result<Contents, Refusal>
    ensures { ReadPromise journal.now result }
{
    Refusal::BadLength.when(bad_length(journal))?;
    Refusal::BadTrailer.when(bad_trailer(journal))?;
    let contents = read_trailer(journal).contents;
    let records = last_records(journal, contents.count);
    Refusal::BadNumbers.when(bad_numbers(contents, records))?;
    Refusal::NotInOrder.when(!in_order(records))?;
    Ok(contents)
}

// The records that a read of the journal counted; none where it was refused. For `listing`, `line_by_line` and `beside`, which have read the
// journal; outside, `records` is offered.
pub fn counted_records(journal: &[u8], found: Result<Contents, Refusal>) -> &[u8]
    ensures { result.now ≡ counted_records found journal.now }
{
    match found {
        Ok(contents) => last_records(journal, contents.count),
        Err(_) => &[],
    }
}

// The records of a journal, as the part of it that holds them; of length 0 where a read is refused.
#[tactic(auto, using(journal_rules::proofs::Accept::counted_records_lem))]
pub fn records(journal: &[u8]) -> &[u8]
    ensures { result.now ≡ records_of journal.now }
{
    counted_records(journal, read(journal))
}

// Is a record issued again: has the first of those after it the same n? In records that are in order just the superseded ones are, so that the
// next record tells, and no other need be looked at.
fn issued_again(bytes: &RecordBytes, others: &[RecordBytes]) -> bool
    ensures { result ≡ issued_again bytes.now others.now }
{
    match others {
        [] => false,
        [next, ..] => number_of(next) == number_of(bytes),
    }
}

// Of records those that the next one does not supersede, one by one: the survivors, where the records are in order. A clause sees the list of those
// that are left. For `listing`, `line_by_line` and `beside` too, which have read the journal.
#[derive(Drop)]
pub struct Surviving<'a> {
    others: &'a [RecordBytes],
}

impl<'a> Model for Surviving<'a> {
    ghost Value = { List (List ℕ) };

    ghost view = { λ s. last_of_each s.others.now };
}

impl<'a> Surviving<'a> {
    // For records in any order.
    #[tactic(auto, using(journal_rules::proofs::OneByOne::last_survive))]
    pub fn among(records: &'a [u8]) -> Self
        ensures each { result ≡ last_of_each (records_in records.now) }
        ensures survivors { in_order records.now ≡ true → result ≡ survivors records.now }
    {
        Surviving {
            others: as_records(records),
        }
    }
}

impl<'a> Iterator for Surviving<'a> {
    type Item = &'a RecordBytes;

    ghost next_gives = { YieldsFirstRef (λ s. s) };

    ghost remaining = { item_count (λ s. s) };

    // Records are passed over until one is a survivor.
    fn next(&mut self) -> Option<&'a RecordBytes> {
        while let [bytes, others @ ..] = self.others {
            self.others = others;
            if !issued_again(bytes, others) {
                return Some(bytes);
            }
        }
        None
    }
}

// How many bytes the survivors have. That the records are in order, which the read has shown, is asked here and below alone.
fn survivors_length(records: &[u8]) -> usize
    requires { in_order records.now ≡ true }
    ensures { result ≡ length (flatten (survivors records.now)) }
{
    RECORD * Surviving::among(records).count()
}

// The survivors, at the start of a buffer that has room for them. A writer, as `fill` below, has the form of crate `words`.
fn put_survivors(records: &[u8], out: &mut [u8]) -> usize
    requires { (in_order records.now ≡ true) × (length (flatten (survivors records.now)) ≤ length out.old) }
    ensures { Puts (flatten (survivors records.now)) out.old result out.new }
{
    let mut n = 0;
    for bytes in Surviving::among(records) {
        n += words::put_bytes(bytes, &mut out[n..]);
    }
    n
}

// For each n its record of highest issue, in order of n, at the start of the buffer (N7); the bytes after them keep their values, and on a refusal
// all do: all is checked before the first byte is written.
pub fn survivors(journal: &[u8], out: &mut [u8]) -> Result<u32, Refusal>
    ensures { SurvivorsPromise journal.now out.old result out.new }
{
    let records = last_records(journal, read(journal)?.count);
    Refusal::NoRoom.when(out.len() < survivors_length(records))?;
    let n = put_survivors(records, out);
    Ok((n / RECORD) as u32)
}

// Records and their trailer, at the start of a buffer that has room for them.
fn fill(records: &[u8], out: &mut [u8]) -> usize
    requires { Whole records.now × (length records.now + 16 ≤ length out.old) }
    ensures { Puts (journal_of records.now) out.old result out.new }
{
    let distance = records.len();
    let mut n = words::put_bytes(records, out);
    n += words::put_u32((distance / RECORD) as u32, &mut out[n..]);
    n += words::put_u32(distance as u32, &mut out[n..]);
    n += words::put_u32(first_number(records), &mut out[n..]);
    n + words::put_u32(last_number(records), &mut out[n..])
}

// A journal of these records, at the start of the buffer; the bytes after it keep their values, and on a refusal all do: all is checked before the
// first byte is written.
pub fn write(records: &[u8], out: &mut [u8]) -> Result<usize, Refusal>
    ensures { WritePromise records.now out.old result out.new }
{
    Refusal::BadRecords.when(rules::bad_records(records))?;
    Refusal::NotInOrder.when(!in_order(records))?;
    Refusal::NoRoom.when(out.len() < records.len() + TRAILER)?;
    Ok(fill(records, out))
}
