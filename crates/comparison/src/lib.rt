// Our rows beside the published entries (N12), as two lists that rise by n, then direction: four figures, counted in one merge. A row comes by
// itself, so that no list of rows is kept; of the entries the merge keeps which are left. What the figures mean is in specs/Comparison.

#![tactic(auto)]

ghost use Rattle.std.specs.Prelude.{true, ◌≡◌, ◌+◌, ◌*◌, ◌<◌, List, [], ◌∷◌, length, map};
ghost use Rattle.comparison.specs.Comparison.{same, compared};
ghost use Rattle.comparison.specs.Entries.{i64_at, entry_of, entries_in, bad_entry, bad_entries, rising};
ghost use Rattle.comparison.specs.Internal.{Rises, followed_by, counted, most, HasRoom, Merging, with_rows, rows_counted, entries_for};

use std::cmp::Ordering;
use std::marker::Model;
use units::{Cents, Quantity};

// The length of an entry.
pub const ENTRY: usize = 16;

type EntryBytes = [u8; ENTRY];

// Where a row or an entry stands in its list: by n, then direction.
#[derive(Clone, Copy, PartialEq, Eq, PartialOrd, Ord)]
pub struct Key {
    pub n: u32,
    pub direction: usize,
}

// n, direction and amount, of a published entry or of a row of ours.
#[derive(Clone, Copy)]
pub struct Entry {
    pub key: Key,
    pub amount: Cents,
}

// Pairs equal, pairs with different amounts, entries only there, rows only here, and the lowest n and direction in the last three
// groups together, or none.
#[derive(Clone, Copy, Default)]
pub struct Comparison {
    pub equal: usize,
    pub different: usize,
    pub only_there: usize,
    pub only_here: usize,
    pub lowest: Option<Key>,
}

impl Comparison {
    // The figures of what comes first in both lists, and of what comes after it: the lowest is in the first part, if that has one.
    fn followed_by(self, next: Comparison) -> Comparison
        requires { (counted self < 2 * most) × (counted next < 2 * most) }
        ensures { result ≡ followed_by self next }
    {
        Comparison {
            equal: self.equal + next.equal,
            different: self.different + next.different,
            only_there: self.only_there + next.only_there,
            only_here: self.only_here + next.only_here,
            lowest: self.lowest.or(next.lowest),
        }
    }
}

// The n and direction of an entry.
#[tactic(auto, unfolding(crate::specs::Entries::entry_of))]
fn key_of(bytes: &EntryBytes) -> Key
    ensures { result ≡ (entry_of bytes.now).key }
{
    Key {
        n: words::u32_at(bytes, 0),
        direction: words::u32_at(bytes, 4) as usize,
    }
}

// The bytes are named, as in crate `words`.
#[tactic(auto, using(std::proofs::lemmas::Int::ints), unfolding(crate::specs::Entries::entry_of, crate::specs::Entries::i64_at, rules::specs::Record::u32_at))]
fn amount_of(b: &EntryBytes) -> Cents
    ensures { result ≡ (entry_of b.now).amount }
{
    Cents(i64::from_le_bytes([b[8], b[9], b[10], b[11], b[12], b[13], b[14], b[15]]))
}

#[tactic(auto, unfolding(crate::specs::Entries::entry_of))]
fn entry_of(bytes: &EntryBytes) -> Entry
    ensures { result ≡ entry_of bytes.now }
{
    Entry {
        key: key_of(bytes),
        amount: amount_of(bytes),
    }
}

// An entry with no row.
#[tactic(auto, using(crate::proofs::Totals::there_one))]
fn there(entry: Entry) -> Comparison
    ensures { result ≡ compared [] (entry ∷ []) }
{
    Comparison {
        only_there: 1,
        lowest: Some(entry.key),
        ..Comparison::default()
    }
}

// A row with no entry.
#[tactic(auto, using(crate::proofs::Totals::here_one))]
fn here(row: Entry) -> Comparison
    ensures { result ≡ compared (row ∷ []) [] }
{
    Comparison {
        only_here: 1,
        lowest: Some(row.key),
        ..Comparison::default()
    }
}

// An entry and a row of the same n and direction.
#[tactic(auto, using(crate::proofs::Totals::pair_same, crate::proofs::Totals::pair_other))]
fn pair(row: Entry, entry: Entry) -> Comparison
    requires { same row.key entry.key ≡ true }
    ensures { result ≡ compared (row ∷ []) (entry ∷ []) }
{
    if entry.amount == row.amount {
        Comparison {
            equal: 1,
            ..Comparison::default()
        }
    } else {
        Comparison {
            different: 1,
            lowest: Some(row.key),
            ..Comparison::default()
        }
    }
}

// A merge on its way: the figures of the rows and entries passed, and the entries that are left.
#[derive(Drop)]
pub struct Merge<'a> {
    figures: Comparison,
    left: &'a [EntryBytes],
}

impl<'a> Model for Merge<'a> {
    ghost Value = { Merging };

    ghost view = { λ m. record { figures = m.figures; left = map entry_of m.left.now } };
}

impl<'a> Merge<'a> {
    // Before the first row. The entries may be any bytes, also such as are refused.
    #[tactic(auto, unfolding(crate::specs::Entries::entries_in))]
    pub fn new(entries: &'a [u8]) -> Self
        ensures left { result.left ≡ entries_in entries.now }
        ensures figures { (rows : List Entry) → with_rows result rows ≡ compared rows (entries_in entries.now) }
        ensures counted { (rows_counted result.figures ≡ 0) × (entries_for result ≡ length (entries_in entries.now)) }
    {
        Merge {
            figures: Comparison::default(),
            left: entries.as_chunks::<ENTRY>().0,
        }
    }

    // Adds the figures of what comes next.
    fn add(&mut self, next: Comparison)
        requires { (counted self.old.figures < 2 * most) × (counted next < 2 * most) }
        ensures { self.new ≡ record { figures = followed_by self.old.figures next; left = self.old.left } }
    {
        self.figures = self.figures.followed_by(next);
    }

    // One row more. Entries that come before it are only there; then comes an entry of its n and direction, or it is only here.
    pub fn take(&mut self, row: Entry)
        requires { HasRoom self.old }
        ensures figures { (rows : List Entry) → Rises (row ∷ rows) → Rises self.old.left
            → (with_rows self.old (row ∷ rows) ≡ with_rows self.new rows) × Rises self.new.left }
        ensures counted { (rows_counted self.new.figures ≡ rows_counted self.old.figures + 1) × (entries_for self.new ≡ entries_for self.old) }
    {
        while let [first, others @ ..] = self.left {
            let entry = entry_of(first);
            match entry.key.cmp(&row.key) {
                Ordering::Less => {
                    self.left = others;
                    self.add(there(entry));
                }
                Ordering::Equal => {
                    self.left = others;
                    self.add(pair(row, entry));
                    return;
                }
                Ordering::Greater => break,
            }
        }
        self.add(here(row));
    }

    // After the last row: the entries that are left are only there.
    pub fn end(&mut self) -> Comparison
        requires { HasRoom self.old }
        ensures { Rises self.old.left → result ≡ with_rows self.old [] }
    {
        while let [first, others @ ..] = self.left {
            self.left = others;
            self.add(there(entry_of(first)));
        }
        self.figures
    }
}

fn bad_entry(entry: Entry) -> bool
    ensures { result ≡ bad_entry entry }
{
    7 < entry.key.direction || !entry.amount.is_negative()
}

// For refusal 24.
#[tactic(auto, unfolding(crate::specs::Entries::bad_entries, crate::specs::Entries::entries_in))]
pub fn bad_entries(entries: &[u8]) -> bool
    ensures { result ≡ bad_entries entries.now }
{
    let (chunks, rest) = entries.as_chunks::<ENTRY>();
    !rest.is_empty() || chunks.iter().any(|bytes| bad_entry(entry_of(bytes)))
}

// For refusal 25: is the n and direction of each entry lower than that of the next?
pub fn rising(entries: &[u8]) -> bool
    ensures { result ≡ rising (entries_in entries.now) }
{
    let mut left = entries.as_chunks::<ENTRY>().0;
    while let [first, next, ..] = left {
        if key_of(next) <= key_of(first) {
            return false;
        }
        left = &left[1..];
    }
    true
}
