// One interval of one direction: rules 1 to 7 in turn.

#![tactic(auto)]

ghost use Rattle.std.specs.Prelude.{◌≡◌, ◌<◌};
ghost use Rattle.rules.specs.Interval.{step_of};
ghost use Rattle.step.specs.Internal.{Steppable};

use clamp::Interval;
use rules::{Direction, Event, Managed, Settings};

// One interval of direction d: the seven rules in turn. By d, the number that document 01 gives it, its settings stand.
#[tactic(auto, using(sums::proofs::SumsSize::sizes), unfolding(rules::specs::Interval::step_of))]
pub fn step(settings: &Settings, d: usize, e: Event, s: Direction) -> Direction
    requires { (d < 8) × Steppable settings.now d e s }
    ensures { result ≡ step_of settings.now d e s }
{
    let begun = sums::rule1(e.n, s.sums);
    let sums = sums::rule2(e.flag, sums::clears_at(e.n), e.residue, begun);
    let reach = sums::rule3(settings.threshold, e, sums::amount(sums));
    let Managed { period, notice } = period::rule4(e.n, e.flag, reach, s.period);
    let interval = Interval {
        event: e,
        state: s,
        sums,
        period,
    };
    let counts = interval.rule5();
    let suspended = interval.rule6(counts);
    let clamp = interval.rule7(settings.edges, settings.directions[d], suspended);
    Direction {
        sums,
        period,
        clamp,
        counts,
        suspended,
        residue: e.residue,
        leftover: e.leftover,
        next: e.next,
        blocked: e.blocked,
        flag: e.flag,
        notice,
    }
}
