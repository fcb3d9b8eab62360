// Callers of the tracker, of a keeper (N11), of the two readers, of a call for a line (N3) and of a comparison (N12), as another crate would write
// them. What they say of their own lists of calls, demand 3 and N8's law, of the views that they were given (N6), of a listing that they print, and of
// a journal beside published entries, they have from what the calls promise, and from nothing else.

#![tactic(auto)]

ghost use Rattle.std.specs.Prelude.{◌≡◌, true, length, OnOk};
ghost use Rattle.std.specs.Io.KnownBytes.{Appends};
ghost use Rattle.tracker.specs.Promise.{opening};
ghost use Rattle.journal_rules.specs.Journal.{longest_journal};
ghost use Rattle.listing.specs.Listing.{listing_in};
ghost use Rattle.comparison.specs.Entries.{entries_in};
ghost use Rattle.beside.specs.Beside.{our_rows};
ghost use Rattle.example.specs.Own.{Own, Tried, Mixed, OnLent, TakenBack, Complete, Read, Told};

use line_by_line::LEAST_SCRATCH;
use readers::{ControlView, TraderView};
use rules::{Refusal, Row, Settings};
use std::io;
use std::io::Write;

// The rows of VIC1_NSW1 and NSW1_VIC1.
#[derive(Clone, Copy)]
pub struct BothWays {
    pub forward: Row,
    pub back: Row,
}

// What both readers show of a row.
#[derive(Clone, Copy)]
pub struct Views {
    pub trader: Option<TraderView>,
    pub control: ControlView,
}

// What both readers show of two rows.
#[derive(Clone, Copy)]
pub struct TwoViews {
    pub one: Views,
    pub other: Views,
}

// The row of VIC1_NSW1 after two records, of any length and content.
pub fn after_two(first: u32, shares: [u16; 6], earlier: &[u8], later: &[u8]) -> Row
    ensures { Own first shares earlier.now later.now result }
{
    let opened = tracker::open(first, shares);
    let one = tracker::interval(opened.tracker, earlier);
    let two = tracker::interval(one.tracker, later);
    tracker::row(&two.tracker, 2).row
}

// The row of VIC1_SA1 after a record, with settings to try.
pub fn tried(first: u32, shares: [u16; 6], settings: Settings, bytes: &[u8]) -> Row
    ensures { Tried first shares settings bytes.now result }
{
    let opened = tracker::open_with_settings(first, shares, settings);
    let one = tracker::interval(opened.tracker, bytes);
    tracker::row(&one.tracker, 4).row
}

// The row of NSW1_SA1 after a record and a set of them, both of any length and content.
pub fn mixed(first: u32, shares: [u16; 6], bytes: &[u8], records: &[u8]) -> Row
    ensures { Mixed first shares bytes.now records.now result }
{
    let opened = tracker::open(first, shares);
    let one = tracker::interval(opened.tracker, bytes);
    let more = tracker::set_of_intervals(one.tracker, records);
    tracker::row(&more.tracker, 6).row
}

// The row of QLD1_NSW1 after a record, one more on a tracker that is lent, and a set of them.
pub fn on_lent(first: u32, shares: [u16; 6], earlier: &[u8], later: &[u8], records: &[u8]) -> Row
    ensures { OnLent first shares earlier.now later.now records.now result }
{
    let opened = tracker::open(first, shares);
    let one = tracker::interval(opened.tracker, earlier);
    let mut own = one.tracker;
    let _ = tracker::interval_on_lent(&mut own, later);
    let more = tracker::set_of_intervals(own, records);
    tracker::row(&more.tracker, 1).row
}

// How a record ended, and a row after it.
#[derive(Clone, Copy)]
pub struct Ended {
    pub outcome: Result<(), Refusal>,
    pub row: Row,
}

// How a record ends, and the row of SA1_VIC1 after it, where another one was tried in its place and taken back.
pub fn taken_back(first: u32, shares: [u16; 6], bytes: &[u8], tried: &[u8], instead: &[u8]) -> Ended
    ensures { TakenBack (opening first shares) bytes.now instead.now result }
{
    let opened = keeper::open(first, shares);
    let one = keeper::interval(opened.keeper, bytes);
    let kept = keeper::keep(one.keeper, 0);
    let trial = keeper::interval(kept.keeper, tried);
    let back = keeper::return_to(trial.keeper, 0);
    let other = keeper::interval(back.keeper, instead);
    Ended {
        outcome: other.outcome,
        row: keeper::row(&other.keeper, 5).row,
    }
}

// The rows of a corridor's two directions after a record.
pub fn both_ways(first: u32, shares: [u16; 6], bytes: &[u8]) -> BothWays
    ensures { Complete first shares bytes.now result }
{
    let opened = tracker::open(first, shares);
    let one = tracker::interval(opened.tracker, bytes);
    BothWays {
        forward: tracker::row(&one.tracker, 2).row,
        back: tracker::row(&one.tracker, 3).row,
    }
}

// A row, by both readers.
fn both_views(row: Row) -> Views
    ensures { Read row result }
{
    Views {
        trader: readers::trader(row),
        control: readers::control(row),
    }
}

// Two rows of any kind, of one tracker or of two, by both readers.
pub fn compared(one: Row, other: Row) -> TwoViews
    ensures { Told one other result }
{
    TwoViews {
        one: both_views(one),
        other: both_views(other),
    }
}

// Prints the listing of a journal, as a host that has room for one line and no more (N3): it asks for the next line until there is none.
pub fn print_line_by_line<W: Write>(journal: &[u8], sink: &mut W) -> io::Result<()>
    ensures { OnOk result (Appends (W.contents sink.old) (W.contents sink.new) (listing_in longest_journal journal.now)) }
{
    let mut scratch = [0; LEAST_SCRATCH];
    let mut given = 0;
    loop {
        let n = line_by_line::next_line(journal, given, &mut scratch).unwrap_or(0);
        if n == 0 {
            return Ok(());
        }
        sink.write_all(&scratch[..n])?;
        given += 1;
    }
}

// Do a journal's rows and the published entries differ nowhere (N12)? Then there are as many entries as rows.
pub fn as_many(journal: &[u8], entries: &[u8]) -> bool
    ensures { result ≡ true → length (entries_in entries.now) ≡ length (our_rows journal.now) }
{
    match beside::compare(journal, entries) {
        Ok(figures) => figures.lowest.is_none(),
        Err(_) => false,
    }
}
