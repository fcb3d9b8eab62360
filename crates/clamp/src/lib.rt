// Rules 5 to 7: the counts of quiet intervals, the suspension, and the clamp of one direction.

#![tactic(auto)]

ghost use Rattle.std.specs.Prelude.{true, cond, ◌&&◌, ◌≡◌, ◌<◌, ◌≤◌, nat_abs};
ghost use Rattle.rules.specs.Settings.{step_for};
ghost use Rattle.rules.specs.Interval.{is_swamped, held, quiet, counted, rule5, rule6, band, clamp_from, rule7};
ghost use Rattle.rules.specs.Refusal.{direction_ok};

use rules::{Counts, Direction, DirectionSettings, Event, Period, SWAMPED, Status, Sums};
use units::{Cents, Hundredths};

// No clamp is above this, unless it is swamped.
const HIGHEST_CLAMP: Hundredths = Hundredths(1_000_000);

// Net below this ends a suspension.
const SUSPENSION_ENDS: Cents = Cents(-100_000);

// A count grows by 1, at most to 3, or starts again.
fn counted(again: bool, count: u8) -> u8
    requires { count ≤ 3 }
    ensures { result ≡ counted again count }
{
    if again { (count + 1).min(3) } else { 0 }
}

// The band of net: below the first edge; from it to below the second; from that to below the third; the third and up. It compares and returns a
// number, since document 01 names the form: "net compared to bands, then a match on the band number picks the step".
fn band(edges: [Cents; 3], net: Cents) -> u8
    ensures is { result ≡ band edges net }
    ensures few { result < 4 }
{
    if net < edges[0] {
        0
    } else if net < edges[1] {
        1
    } else if net < edges[2] {
        2
    } else {
        3
    }
}

// The step for a band: the match on the band's number that document 01 names beside `band`, and no index into the steps.
fn step_for(steps: [Hundredths; 4], band: u8) -> Hundredths
    requires { band < 4 }
    ensures { result ≡ step_for steps band }
{
    match band {
        0 => steps[0],
        1 => steps[1],
        2 => steps[2],
        _ => steps[3],
    }
}

// Base is the clamp for n, or, if that was swamped, the corridor's target sum.
fn base(target: Hundredths, clamp: Hundredths) -> Hundredths
    ensures { result ≡ cond (is_swamped clamp) target clamp }
{
    if clamp == SWAMPED { target } else { clamp }
}

// Base + step, at most 1,000,000, at least the offset.
fn clamp_from(base: Hundredths, step: Hundredths, offset: Hundredths) -> Hundredths
    requires { (nat_abs base.0 ≤ 2000000) × (nat_abs step.0 ≤ 100000) }
    ensures { result ≡ clamp_from base step offset }
{
    (base + step).min(HIGHEST_CLAMP).max(offset)
}

// One interval of one direction as rules 1 to 4 leave it: its event, the state before it, and the sums and the period after it.
#[derive(Clone, Copy)]
pub struct Interval {
    pub event: Event,
    pub state: Direction,
    pub sums: Sums,
    pub period: Period,
}

impl Interval {
    // In a period held before and still.
    fn stays(&self) -> bool
        ensures { result ≡ (held self.now.period && held self.now.state.period) }
    {
        period::held(self.period) && period::held(self.state.period)
    }

    // In such a period, clamp for n not swamped, current 0.
    fn quiet(&self) -> bool
        ensures { result ≡ quiet (held self.now.state.period) self.now.state.clamp self.now.sums.current self.now.period }
    {
        self.stays() && self.state.clamp != SWAMPED && self.sums.current == Cents(0)
    }

    // 5. Counts of quiet intervals with the constraint unbound, and violated.
    pub fn rule5(&self) -> Counts
        requires { (self.now.state.counts.unbound ≤ 3) × (self.now.state.counts.violated ≤ 3) }
        ensures { result ≡ rule5 (held self.now.state.period) self.now.event.status self.now.state.clamp self.now.sums.current self.now.period self.now.state.counts }
    {
        let quiet = self.quiet();
        let status = self.event.status;
        let counts = self.state.counts;
        Counts {
            unbound: counted(quiet && status == Status::Unbound, counts.unbound),
            violated: counted(quiet && status == Status::Violated, counts.violated),
        }
    }

    // 6. Suspended, within a period that did not begin now: until net falls low, from a count of 3 on.
    pub fn rule6(&self, counts: Counts) -> bool
        ensures { result ≡ rule6 (held self.now.state.period) self.now.period self.now.sums.net counts self.now.state.suspended }
    {
        let is_counted = counts.unbound == 3 || counts.violated == 3;
        self.stays() && self.sums.net >= SUSPENSION_ENDS && (is_counted || self.state.suspended)
    }

    // 7. The clamp for n+1: swamped if no period, suspended or blocked.
    #[tactic(auto, using(rules::proofs::AcceptedSettings::step_size))]
    pub fn rule7(&self, edges: [Cents; 3], own: DirectionSettings, suspended: bool) -> Hundredths
        requires { (direction_ok own ≡ true) × ((nat_abs self.now.event.target.0 ≤ 2000000) × (nat_abs self.now.state.clamp.0 ≤ 2000000)) }
        ensures { result ≡ rule7 edges own self.now.event.blocked self.now.event.target self.now.period suspended self.now.sums.net self.now.state.clamp }
    {
        if !period::held(self.period) || suspended || self.event.blocked {
            return SWAMPED;
        }
        let step = step_for(own.steps, band(edges, self.sums.net));
        clamp_from(base(self.event.target, self.state.clamp), step, own.offset)
    }
}
