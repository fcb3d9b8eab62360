// Named states to come back to (N11): a tracker, and under each number from 0 to 7 a state of it that was kept, or nothing. The calls on the tracker
// are those of crate `tracker`; what each call returns, for every input, is in specs/Promise.

#![tactic(auto)]

ghost use Rattle.std.specs.Prelude.{◌≡◌, ◌≤◌};
ghost use Rattle.keeper.specs.Keeper.{with_none_kept, with_tracker, with_kept, highest_place};
ghost use Rattle.keeper.specs.Internal.{state_to_return};
ghost use Rattle.keeper.specs.Promise.{CameKeeper, KeeperOpenPromise, KeeperIntervalPromise, KeeperSetPromise, KeepPromise, ReturnPromise, KeeperRowPromise};
ghost use Rattle.tracker.specs.Promise.{opening_with, opening};

use rules::{Answer, Refusal, RowAnswer, SetRefusal, Settings, Tracker};

// The highest number that a state can be kept under.
const HIGHEST_PLACE: usize = 7;

// A tracker, and what is kept under each number. A kept state has no kept states of its own.
#[derive(Clone, Copy)]
pub struct Keeper {
    pub tracker: Tracker,
    pub kept: [Option<Tracker>; 8],
}

// The answer of all calls but a set and a row: how it ended, and beside that the keeper to go on with, on a refusal too, as in an `Answer`.
#[derive(Clone, Copy)]
pub struct KeeperAnswer {
    pub outcome: Result<(), Refusal>,
    pub keeper: Keeper,
}

// The same of the call of a set, whose refusal has an index (N10).
#[derive(Clone, Copy)]
pub struct KeeperSetAnswer {
    pub outcome: Result<(), SetRefusal>,
    pub keeper: Keeper,
}

// An opening's answer, with its tracker and nothing kept.
fn with_none_kept(opened: Answer) -> KeeperAnswer
    ensures { result ≡ with_none_kept opened }
{
    KeeperAnswer {
        outcome: opened.outcome,
        keeper: Keeper {
            tracker: opened.tracker,
            kept: [None; 8],
        },
    }
}

// Opens a tracker with settings (N2), and keeps nothing yet.
pub fn open_with_settings(first: u32, shares: [u16; 6], settings: Settings) -> KeeperAnswer
    ensures { KeeperOpenPromise (opening_with first shares settings) result }
{
    with_none_kept(tracker::open_with_settings(first, shares, settings))
}

// The same with document 01's settings.
pub fn open(first: u32, shares: [u16; 6]) -> KeeperAnswer
    ensures { KeeperOpenPromise (opening first shares) result }
{
    with_none_kept(tracker::open(first, shares))
}

// The keeper with another tracker, and with what it has kept.
fn with_tracker(keeper: Keeper, tracker: Tracker) -> Keeper
    ensures { result ≡ with_tracker keeper tracker }
{
    Keeper { tracker, ..keeper }
}

// Takes one interval's record on the tracker.
pub fn interval(keeper: Keeper, bytes: &[u8]) -> KeeperAnswer
    requires { CameKeeper keeper }
    ensures { KeeperIntervalPromise keeper bytes.now result }
{
    let answer = tracker::interval(keeper.tracker, bytes);
    KeeperAnswer {
        outcome: answer.outcome,
        keeper: with_tracker(keeper, answer.tracker),
    }
}

// Takes a set of intervals on the tracker, all or none (N10).
pub fn set_of_intervals(keeper: Keeper, bytes: &[u8]) -> KeeperSetAnswer
    requires { CameKeeper keeper }
    ensures { KeeperSetPromise keeper bytes.now result }
{
    let set_answer = tracker::set_of_intervals(keeper.tracker, bytes);
    KeeperSetAnswer {
        outcome: set_answer.outcome,
        keeper: with_tracker(keeper, set_answer.tracker),
    }
}

// The row of a direction of the tracker.
pub fn row(keeper: &Keeper, direction: usize) -> RowAnswer
    requires { CameKeeper keeper.now }
    ensures { KeeperRowPromise keeper.now direction result }
{
    tracker::row(&keeper.tracker, direction)
}

// The keeper with its tracker's state under a number. What was kept there is no more.
fn with_kept(keeper: Keeper, number: usize) -> Keeper
    requires { number ≤ highest_place }
    ensures { result ≡ with_kept keeper number }
{
    let mut kept = keeper.kept;
    kept[number] = Some(keeper.tracker);
    Keeper { kept, ..keeper }
}

// Keeps the tracker's state under a number.
pub fn keep(keeper: Keeper, number: usize) -> KeeperAnswer
    requires { CameKeeper keeper }
    ensures { KeepPromise keeper number result }
{
    let outcome = Refusal::NoPlace.when(HIGHEST_PLACE < number);
    let keeper = match outcome {
        Ok(()) => with_kept(keeper, number),
        Err(_) => keeper,
    };
    KeeperAnswer { outcome, keeper }
}

// The state kept under a number, or why there is no return to it.
fn state_to_return(keeper: &Keeper, number: usize) -> Result<Tracker, Refusal>
    ensures { result ≡ state_to_return keeper.now number }
{
    Refusal::NoPlace.when(HIGHEST_PLACE < number)?;
    keeper.kept[number].ok_or(Refusal::NothingKept)
}

// Returns to the state kept under a number, which stays kept.
pub fn return_to(keeper: Keeper, number: usize) -> KeeperAnswer
    requires { CameKeeper keeper }
    ensures { ReturnPromise keeper number result }
{
    let (outcome, keeper) = match state_to_return(&keeper, number) {
        Ok(tracker) => (Ok(()), with_tracker(keeper, tracker)),
        Err(why) => (Err(why), keeper),
    };
    KeeperAnswer { outcome, keeper }
}
