// Rule 4: the management period of one direction, and the notice.

#![tactic(auto)]

ghost use Rattle.std.specs.Prelude.{◌≡◌, ◌+◌, ◌*◌, ◌≤◌};
ghost use Rattle.rules.specs.Interval.{half_hour, started, extends, continued, ended, rule4, held};
ghost use Rattle.rules.specs.Refusal.{highest_number};
ghost use Rattle.rules.specs.Bounds.{BoundedPeriod};

use rules::{Managed, Notice, Period};

// Interval n of one direction as rule 4 sees it: its loop flag, and whether the threshold is reached.
#[derive(Clone, Copy)]
struct Interval {
    n: u32,
    flag: bool,
    reach: bool,
    ghost numbered: { n ≤ highest_number },
}

impl Interval {
    // The last interval of the half-hour.
    fn half_hour_end(self) -> u32
        ensures { result ≡ 6 * half_hour self.n + 5 }
    {
        6 * (self.n / 6) + 5
    }

    // No period and reached: from the next interval to the end of the next half-hour.
    fn started(self) -> Managed
        ensures { result ≡ started self.n self.reach }
    {
        if self.reach {
            Managed {
                period: Period::Held {
                    first: self.n + 1,
                    last: self.half_hour_end() + 6,
                    extended: false,
                },
                notice: Some(Notice::Start),
            }
        } else {
            Managed {
                period: Period::None,
                notice: None,
            }
        }
    }

    // May a period that is reached again grow: at the end of a half-hour, or, once, in its last half-hour.
    fn extends(self, last: u32, extended: bool) -> bool
        ensures { result ≡ extends self.n last extended }
    {
        self.n % 6 == 5 || last == self.half_hour_end() && !extended
    }

    // In a period with flag 0 it ends with the half-hour; otherwise, if reached, it may grow.
    fn continued(self, first: u32, last: u32, extended: bool) -> Period
        requires { last ≤ self.n + 11 }
        ensures { result ≡ continued self.n self.flag self.reach first last extended }
    {
        let (last, extended) = if !self.flag {
            (last.min(self.half_hour_end()), extended)
        } else if self.reach && self.extends(last, extended) {
            (last + 6, true)
        } else {
            (last, extended)
        };
        Period::Held {
            first,
            last,
            extended,
        }
    }

    // A period held before this interval and now with last = n ends.
    fn ended(self, p: Period) -> Managed
        ensures { result ≡ ended self.n p }
    {
        match p {
            Period::Held { last, .. } if last == self.n => Managed {
                period: Period::None,
                notice: Some(Notice::End),
            },
            _ => Managed {
                period: p,
                notice: None,
            },
        }
    }
}

// 4. The period after the interval, and the notice.
pub fn rule4(n: u32, flag: bool, reach: bool, p: Period) -> Managed
    requires { (n ≤ highest_number) × BoundedPeriod n p }
    ensures { result ≡ rule4 n flag reach p }
{
    let interval = Interval { n, flag, reach };
    match p {
        Period::None => interval.started(),
        Period::Held {
            first,
            last,
            extended,
        } => interval.ended(interval.continued(first, last, extended)),
    }
}

pub fn held(p: Period) -> bool
    ensures { result ≡ held p }
{
    matches!(p, Period::Held { .. })
}
