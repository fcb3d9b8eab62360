// The types of the tracker, and the numbers that several crates need. Their meaning is in specs/, in document 01's order.

#![tactic(auto)]

ghost use Rattle.std.specs.Prelude.{◌≡◌, [], ◌∷◌, Some};
ghost use Rattle.rules.specs.Interval.{notice_number};
ghost use Rattle.rules.specs.Refusal.{number, ◌when◌, judged, bad_records};

use units::{Cents, Grains, Hundredths};

// The highest interval number.
pub const HIGHEST_NUMBER: u32 = 1_051_199;

// The length of a record in bytes.
pub const RECORD: usize = 168;

// The most records of a journal, and of a set of intervals (N10).
pub const MOST_RECORDS: usize = 288;

// A clamp that limits nothing: document 01's "swamped", of which it gives the number.
pub const SWAMPED: Hundredths = Hundredths(2_000_000);

// The regions, in the order of their prices.
#[derive(Clone, Copy)]
pub enum Region {
    Nsw1,
    Qld1,
    Sa1,
    Vic1,
}

// A corridor: the regions that it runs from and to, and its physical interconnectors, `lines` of them from number `first` on.
#[derive(Clone, Copy)]
pub struct Corridor {
    pub from: Region,
    pub to: Region,
    pub first: usize,
    pub lines: usize,
}

// Document 01's a and b of a physical interconnector.
#[derive(Clone, Copy)]
pub struct Line {
    pub a: Hundredths,
    pub b: Hundredths,
}

// A residue in whole cents, and the part of a cent left over (N8).
#[derive(Clone, Copy, Default)]
pub struct Residue {
    pub cents: Cents,
    pub leftover: Grains,
}

// A corridor's residue, and whether its flow is To_From.
#[derive(Clone, Copy)]
pub struct CorridorResidue {
    pub residue: Residue,
    pub reverse: bool,
}

// Whether a direction's constraint was unbound, bound or violated.
#[derive(Clone, Copy, PartialEq, Eq)]
pub enum Status {
    Unbound,
    Bound,
    Violated,
}

// What an accepted record says of one direction. The target is the corridor's target sum in the sense of the direction; a loop flag of 1
// is true.
#[derive(Clone, Copy)]
pub struct Event {
    pub n: u32,
    pub flag: bool,
    pub residue: Cents,
    pub leftover: Grains,
    pub next: Cents,
    pub review: bool,
    pub status: Status,
    pub blocked: bool,
    pub target: Hundredths,
}

#[derive(Clone, Copy, Default)]
pub struct Sums {
    pub previous: Cents,
    pub current: Cents,
    pub net: Cents,
}

// A management period: none, or first, last and whether extended. It is an enum of its own, and no `Option` of a struct, since document 01 names the
// form: "enum None or Held(first, last, extended) held in each direction's state struct".
#[derive(Clone, Copy, Default)]
pub enum Period {
    #[default]
    None,
    Held {
        first: u32,
        last: u32,
        extended: bool,
    },
}

// A notice: a management period starts, or ends.
#[derive(Clone, Copy, PartialEq, Eq)]
pub enum Notice {
    Start = 1,
    End = 2,
}

impl From<Notice> for u8 {
    ghost from_gives = { λ notice n. n ≡ notice_number (Some notice) };

    fn from(notice: Notice) -> u8 {
        notice as u8
    }
}

// A row's notice: its number, and 0 where there is none.
pub fn notice_number(notice: Option<Notice>) -> u8
    ensures { result ≡ notice_number notice }
{
    notice.map_or(0, u8::from)
}

// What rule 4 leaves: the period, and the notice, if there is one.
#[derive(Clone, Copy)]
pub struct Managed {
    pub period: Period,
    pub notice: Option<Notice>,
}

#[derive(Clone, Copy, Default)]
pub struct Counts {
    pub unbound: u8,
    pub violated: u8,
}

// One direction's state: what the rules keep, and what its row shows of the latest accepted interval.
#[derive(Clone, Copy, Default)]
pub struct Direction {
    pub sums: Sums,
    pub period: Period,
    pub clamp: Hundredths,
    pub counts: Counts,
    pub suspended: bool,
    pub residue: Cents,
    pub leftover: Grains,
    pub next: Cents,
    pub blocked: bool,
    pub flag: bool,
    pub notice: Option<Notice>,
}

// One direction's settings: a step for each of the four bands of net, and the offset (N2).
#[derive(Clone, Copy)]
pub struct DirectionSettings {
    pub steps: [Hundredths; 4],
    pub offset: Hundredths,
}

// The numbers that the operator reviews (N2): the threshold, the edges between the four bands of net, and each direction's own.
#[derive(Clone, Copy)]
pub struct Settings {
    pub threshold: Cents,
    pub edges: [Cents; 3],
    pub directions: [DirectionSettings; 8],
}

// The tracker: the settings and the shares of its opening, the number that its rows show, the awaited number, and the eight directions.
#[derive(Clone, Copy)]
pub struct Tracker {
    pub settings: Settings,
    pub shares: [u16; 6],
    pub shown: u32,
    pub awaited: u32,
    pub directions: [Direction; 8],
}

// A row: document 01's list of fields. The notice stands by its number, as document 01 lists it, and not as the state's enum: the readers (N6) take
// any row, and so one that was kept or sent on, with whatever number it has there.
#[derive(Clone, Copy, Default)]
pub struct Row {
    pub n: u32,
    pub direction: usize,
    pub residue: Cents,
    pub applies: bool,
    pub previous: Cents,
    pub current: Cents,
    pub amount: Cents,
    pub next: Cents,
    pub net: Cents,
    pub period: Period,
    pub counts: Counts,
    pub blocked: bool,
    pub flag: bool,
    pub clamp: Hundredths,
    pub notice: u8,
    pub leftover: Grains,
}

// Why a call is refused, under document 01's numbers; 19 and 20 are N2's, 21 is N3's, 22 and 23 are N11's,
// 24 and 25 are N12's, and 18 is of no call here.
#[derive(Clone, Copy, PartialEq, Eq)]
pub enum Refusal {
    // interval
    NotARecord = 1,
    NumberTooHigh = 2,
    NotAwaited = 3,
    BadFlags = 4,
    BadStatus = 5,
    BadPrice = 6,
    BadFlow = 7,
    BadPreDispatch = 8,
    // opening
    BadFirst = 9,
    BadShare = 10,
    // journal read
    BadLength = 11,
    BadTrailer = 12,
    BadNumbers = 13,
    NotInOrder = 14,
    // journal write
    BadRecords = 15,
    NoRoom = 16,
    // row
    NoDirection = 17,
    // opening with settings (N2)
    OutsideSpan = 19,
    NotRising = 20,
    // the listing line by line (N3)
    SmallScratch = 21,
    // keep and return (N11)
    NoPlace = 22,
    NothingKept = 23,
    // our rows beside the published entries (N12)
    BadEntries = 24,
    EntriesNotRising = 25,
}

impl Refusal {
    // Refuses for this reason if the condition is met.
    pub fn when(self, met: bool) -> Result<(), Refusal>
        ensures { result ≡ judged (self when met ∷ []) }
    {
        if met { Err(self) } else { Ok(()) }
    }
}

impl From<Refusal> for u8 {
    ghost from_gives = { λ refusal n. n ≡ number refusal };

    fn from(refusal: Refusal) -> u8 {
        refusal as u8
    }
}

// Are records end to end refused for their length, by a journal write or as a set of intervals (N10)?
#[tactic(auto, unfolding(crate::specs::Refusal::bad_records))]
pub fn bad_records(records: &[u8]) -> bool
    ensures { result ≡ bad_records records.now }
{
    records.len() % RECORD != 0 || MOST_RECORDS < records.len() / RECORD
}

// The answer of an opening and of an interval call: how it ended, and beside that the tracker to go on with. It is a struct, and no `Result` that
// holds the tracker, since document 01 gives one on a refusal too: "A refusal returns only its number, beside a tracker and buffers as they were".
#[derive(Clone, Copy)]
pub struct Answer {
    pub outcome: Result<(), Refusal>,
    pub tracker: Tracker,
}

// Why a set of intervals is refused, and the index, from 0, of the first record that would not be accepted; with 15, for the set's length, it is 0
// (N10).
#[derive(Clone, Copy, PartialEq, Eq)]
pub struct SetRefusal {
    pub why: Refusal,
    pub index: usize,
}

// The answer of the call of a set: how it ended, and beside that the tracker to go on with, as in an `Answer` (N10).
#[derive(Clone, Copy)]
pub struct SetAnswer {
    pub outcome: Result<(), SetRefusal>,
    pub tracker: Tracker,
}

// The answer of a row call: how it ended, and beside that the row. It is a struct, and no `Result` that holds the row, since document 01 gives one on
// a refusal too: "17 direction above 7; the row is all zeros, period none".
#[derive(Clone, Copy)]
pub struct RowAnswer {
    pub outcome: Result<(), Refusal>,
    pub row: Row,
}
