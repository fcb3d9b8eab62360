// The clamp tracker: two openings, calls of one interval and of a set of them, and a row. What each returns, for every input, is in specs/Promise.

#![tactic(auto)]

ghost use Rattle.std.specs.Prelude.{true, ◌≡◌, ◌<◌, replicate};
ghost use Rattle.rules.specs.Interval.{fresh};
ghost use Rattle.rules.specs.Refusal.{each, share_ok, open_outcome};
ghost use Rattle.rules.specs.Tracker.{tracker, accepts, advanced, row_of};
ghost use Rattle.tracker.specs.Promise.{Came, OpenPromise, IntervalPromise, LentPromise, SetPromise, RowPromise, opening_with, opening};
ghost use Rattle.tracker.specs.Internal.{AllSteppable, all_stepped, after_all};

use record::Record;
use rules::{
    Answer, Direction, Event, HIGHEST_NUMBER, RECORD, Refusal, Row, RowAnswer, SWAMPED, SetAnswer,
    SetRefusal, Settings, Tracker,
};

// Is no share above 1000?
fn shares_ok(shares: [u16; 6]) -> bool
    ensures { result ≡ each 6 (share_ok shares) }
{
    shares.iter().all(|&share| share <= 1000)
}

// The first condition that is met gives the number. The first n, the shares and the settings come one by one, as the call has them: a struct of the
// three would be made for this function and `fresh_tracker` alone.
#[tactic(auto, unfolding(rules::specs::Refusal::open_outcome, rules::specs::Refusal::open_conditions))]
fn open_outcome(first: u32, shares: [u16; 6], settings: Settings) -> Result<(), Refusal>
    ensures { result ≡ open_outcome first shares settings }
{
    Refusal::BadFirst.when(HIGHEST_NUMBER < first || first % 6 != 0)?;
    Refusal::BadShare.when(!shares_ok(shares))?;
    Refusal::OutsideSpan.when(!settings::inside_spans(settings))?;
    Refusal::NotRising.when(!settings::rising(settings.edges))
}

// A direction before any interval.
fn fresh_direction() -> Direction
    ensures { result ≡ fresh }
{
    Direction {
        clamp: SWAMPED,
        flag: true,
        ..Direction::default()
    }
}

fn fresh_tracker(settings: Settings, first: u32, shares: [u16; 6]) -> Tracker
    ensures { result ≡ tracker settings shares first first (replicate 8 fresh) }
{
    Tracker {
        settings,
        shares,
        shown: first,
        awaited: first,
        directions: [fresh_direction(); 8],
    }
}

// Opens a tracker at the first n, with the From loss shares of the six physical interconnectors in thousandths, and with settings (N2). Beside
// a refusal stands a fresh tracker with document 01's settings, at first n 0, with all shares 0.
pub fn open_with_settings(first: u32, shares: [u16; 6], settings: Settings) -> Answer
    ensures { OpenPromise (opening_with first shares settings) result }
{
    let outcome = open_outcome(first, shares, settings);
    let (settings, first, shares) = match outcome {
        Ok(()) => (settings, first, shares),
        Err(_) => (settings::document01(), 0, [0; 6]),
    };
    Answer {
        outcome,
        tracker: fresh_tracker(settings, first, shares),
    }
}

// The same with document 01's settings.
pub fn open(first: u32, shares: [u16; 6]) -> Answer
    ensures { OpenPromise (opening first shares) result }
{
    open_with_settings(first, shares, settings::document01())
}

// One step for each direction. Its event and its state stand at its number: document 01 names an array of eight states, over which one step function
// is mapped.
fn step_all(settings: Settings, events: [Event; 8], directions: [Direction; 8]) -> [Direction; 8]
    requires { AllSteppable settings events directions }
    ensures { result ≡ all_stepped settings events directions }
{
    std::array::from_fn(|d| step::step(&settings, d, events[d], directions[d]))
}

// The tracker after an accepted record.
fn advanced(t: Tracker, r: &Record<'_>) -> Tracker
    requires { Came t × (accepts t.awaited r.now ≡ true) }
    ensures { result ≡ advanced t r.now }
{
    let events = events::events(t.shares, r);
    let directions = step_all(t.settings, events, t.directions);
    let n = r.number();
    Tracker {
        shown: n,
        awaited: n + 1,
        directions,
        ..t
    }
}

// Takes one interval's record, of any length and content. A refused one leaves the tracker as it was: document 01 gives it beside a refusal's
// number, so that each way of it ends in an `Answer`, and `?` has no place. `Came` is what is asked of a tracker, here and in the crates above: a
// rule of the project has it as the one condition of an offered call (crate `keeper` asks the same of a keeper).
pub fn interval(tracker: Tracker, bytes: &[u8]) -> Answer
    requires { Came tracker }
    ensures { IntervalPromise tracker bytes.now result }
{
    match record::accepted(tracker.awaited, bytes) {
        Ok(record) => Answer {
            outcome: Ok(()),
            tracker: advanced(tracker, &record),
        },
        Err(why) => Answer {
            outcome: Err(why),
            tracker,
        },
    }
}

// The same on a tracker that its host lends: it is changed there (N14).
pub fn interval_on_lent(tracker: &mut Tracker, bytes: &[u8]) -> Result<(), Refusal>
    requires { Came tracker.old }
    ensures { LentPromise tracker.old bytes.now result tracker.new }
{
    let answer = interval(*tracker, bytes);
    *tracker = answer.tracker;
    answer.outcome
}

// The tracker after all records of a set, each taken in its turn by a single call; or the number and the index of the first that is refused.
fn after_all(tracker: Tracker, bytes: &[u8]) -> Result<Tracker, SetRefusal>
    requires { Came tracker }
    ensures { result ≡ after_all tracker bytes.now }
{
    if let Err(why) = Refusal::BadRecords.when(rules::bad_records(bytes)) {
        return Err(SetRefusal { why, index: 0 });
    }
    let mut now = tracker;
    let records = bytes.as_chunks::<RECORD>().0;
    for (index, record) in records.iter().enumerate() {
        let answer = interval(now, record);
        if let Err(why) = answer.outcome {
            return Err(SetRefusal { why, index });
        }
        now = answer.tracker;
    }
    Ok(now)
}

// Takes a set of 0 to 288 records end to end, all or none (N10). A refused set leaves the tracker as it was, as a refused interval does.
pub fn set_of_intervals(tracker: Tracker, bytes: &[u8]) -> SetAnswer
    requires { Came tracker }
    ensures { SetPromise tracker bytes.now result }
{
    let (outcome, tracker) = match after_all(tracker, bytes) {
        Ok(now) => (Ok(()), now),
        Err(refused) => (Err(refused), tracker),
    };
    SetAnswer { outcome, tracker }
}

// What direction d shows, a number as in `step`.
fn row_of(t: &Tracker, d: usize) -> Row
    requires { Came t.now × (d < 8) }
    ensures { result ≡ row_of t.now d }
{
    let s = t.directions[d];
    Row {
        n: t.shown,
        direction: d,
        residue: s.residue,
        applies: s.clamp != SWAMPED,
        previous: s.sums.previous,
        current: s.sums.current,
        amount: sums::amount(s.sums),
        next: s.next,
        net: s.sums.net,
        period: s.period,
        counts: s.counts,
        blocked: s.blocked,
        flag: s.flag,
        clamp: s.clamp,
        notice: rules::notice_number(s.notice),
        leftover: s.leftover,
    }
}

// The row of a direction, 0 to 7, as the latest accepted interval left it. Beside a refusal stands a row of zeros, without a period.
pub fn row(tracker: &Tracker, direction: usize) -> RowAnswer
    requires { Came tracker.now }
    ensures { RowPromise tracker.now direction result }
{
    let outcome = Refusal::NoDirection.when(7 < direction);
    let row = match outcome {
        Ok(()) => row_of(tracker, direction),
        Err(_) => Row::default(),
    };
    RowAnswer { outcome, row }
}
