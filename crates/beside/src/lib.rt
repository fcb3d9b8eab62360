// Our record beside the published one (N12): the rows of a journal with a negative amount, and published entries. The journal is run to its end
// before an entry is judged, and its rows go into the merge as they come, so that no list of them is kept. The merge goes over entries that have not
// been judged; where they are refused, nobody sees its figures.

#![tactic(auto)]

ghost use Rattle.std.specs.Prelude.{true, ◌≡◌, ◌+◌, ◌<◌, ◌≤◌, List, [], ◌++◌, Ok};
ghost use Rattle.tracker.specs.Promise.{Came, judged};
ghost use Rattle.journal_rules.specs.Journal.{in_order};
ghost use Rattle.journal_rules.specs.Survivors.{survivors};
ghost use Rattle.journal_rules.specs.Internal.{rows_shown};
ghost use Rattle.journal_rules.specs.Run.{opened_at, opened_conditions, run_conditions, rows_in_turn, rows_of};
ghost use Rattle.comparison.specs.declared.Entry.{Entry};
ghost use Rattle.comparison.specs.Internal.{Rises, with_rows, rows_counted, entries_for, most};
ghost use Rattle.beside.specs.Beside.{as_entry, ours};
ghost use Rattle.beside.specs.Promise.{BesidePromise};

use comparison::{Comparison, Entry, Key, Merge};
use rules::{RECORD, Refusal, Row, Tracker};
use units::Quantity;

// A row as an entry has it: n, direction and amount.
fn as_entry(row: &Row) -> Entry
    ensures { result ≡ as_entry row.now }
{
    Entry {
        key: Key {
            n: row.n,
            direction: row.direction,
        },
        amount: row.amount,
    }
}

// Takes those of a tracker's rows with a negative amount into the merge, by direction. A tracker gives a row by its direction's number.
fn take_rows(t: &Tracker, merge: &mut Merge<'_>)
    requires { Came t.now × (rows_counted merge.old.figures + 8 < most) × (entries_for merge.old < most) }
    ensures figures { (rows : List Entry) → Rises (ours (rows_shown t.now) ++ rows) → Rises merge.old.left
        → (with_rows merge.old (ours (rows_shown t.now) ++ rows) ≡ with_rows merge.new rows) × Rises merge.new.left }
    ensures counted { (rows_counted merge.new.figures ≤ rows_counted merge.old.figures + 8) × (entries_for merge.new ≡ entries_for merge.old) }
{
    for d in 0..8 {
        let row = tracker::row(t, d).row;
        if row.amount.is_negative() {
            merge.take(as_entry(&row));
        }
    }
}

// Puts the survivors among records end to end, each in its turn, to a tracker that is opened at the first n, and its rows to the merge, up to the one
// that is refused. An empty journal is not opened.
fn run(first: u32, records: &[u8], merge: &mut Merge<'_>) -> Result<(), Refusal>
    requires { (in_order records.now ≡ true) × (rows_counted merge.old.figures ≡ 0) × (entries_for merge.old < most) }
    ensures outcome { result ≡ judged (opened_conditions first (survivors records.now)) }
    ensures figures { result ≡ Ok tt → Rises merge.old.left
        → (with_rows merge.old (ours (rows_in_turn (opened_at first) [] (survivors records.now))) ≡ with_rows merge.new []) × Rises merge.new.left }
    ensures counted { (rows_counted merge.new.figures < most) × (entries_for merge.new ≡ entries_for merge.old) }
{
    if records.len() < RECORD {
        return Ok(());
    }
    let opened = tracker::open(first, [500; 6]);
    opened.outcome?;
    let mut t = opened.tracker;
    for bytes in journal::Surviving::among(records) {
        let answer = tracker::interval(t, bytes);
        answer.outcome?;
        t = answer.tracker;
        take_rows(&t, merge);
    }
    Ok(())
}

// The run of a journal: what refuses it, or a merge that has all its rows.
fn run_journal(journal: &[u8], merge: &mut Merge<'_>) -> Result<(), Refusal>
    requires { (rows_counted merge.old.figures ≡ 0) × (entries_for merge.old < most) }
    ensures outcome { result ≡ judged (run_conditions journal.now) }
    ensures figures { result ≡ Ok tt → Rises merge.old.left
        → (with_rows merge.old (ours (rows_of journal.now)) ≡ with_rows merge.new []) × Rises merge.new.left }
    ensures counted { (rows_counted merge.new.figures < most) × (entries_for merge.new ≡ entries_for merge.old) }
{
    let found = journal::read(journal);
    let contents = found?;
    run(
        contents.first,
        journal::counted_records(journal, found),
        merge,
    )
}

// Compares the rows of a journal with published entries, both of any length and content.
pub fn compare(journal: &[u8], entries: &[u8]) -> Result<Comparison, Refusal>
    ensures { BesidePromise journal.now entries.now result }
{
    let mut merge = Merge::new(entries);
    run_journal(journal, &mut merge)?;
    Refusal::BadEntries.when(comparison::bad_entries(entries))?;
    Refusal::EntriesNotRising.when(!comparison::rising(entries))?;
    Ok(merge.end())
}
