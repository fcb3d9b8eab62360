// Rules 1 to 3: the sums of one direction, its amount, and whether the threshold is reached.

#![tactic(auto)]

ghost use Rattle.std.specs.Prelude.{◌≡◌, ◌+◌, ◌≤◌, nat_abs};
ghost use Rattle.rules.specs.Interval.{place, clears_at, rule1, grown, cleared_if_zero, rule2, amount, reached};
ghost use Rattle.rules.specs.Bounds.{highest_residue, highest_next, highest_sum};
ghost use Rattle.sums.specs.Internal.{Countable, Growable, Addable};

use rules::{Event, Sums};
use units::Cents;

// 1. If q = 0, previous grows by current; current and net become 0.
pub fn rule1(n: u32, s: Sums) -> Sums
    requires { Countable s }
    ensures { result ≡ rule1 n s }
{
    if n % 6 == 0 {
        Sums {
            previous: s.previous + s.current,
            ..Sums::default()
        }
    } else {
        s
    }
}

// Whether previous becomes 0 for a zero current in interval n: only at the half-hour's close, q = 5 (N4).
#[tactic(auto, unfolding(rules::specs::Interval::clears_at))]
pub fn clears_at(n: u32) -> bool
    ensures { result ≡ clears_at (place n) }
{
    n % 6 == 5
}

// Current grows by the lower of r and 0, net by r.
fn grown(r: Cents, s: Sums) -> Sums
    requires { Growable r s }
    ensures { result ≡ grown r s }
{
    Sums {
        current: s.current + r.lower_of_zero(),
        net: s.net + r,
        ..s
    }
}

// If current is then 0 and the place clears, previous becomes 0.
fn cleared_if_zero(clears: bool, s: Sums) -> Sums
    ensures { result ≡ cleared_if_zero clears s }
{
    if s.current == Cents(0) && clears {
        Sums {
            previous: Cents(0),
            ..s
        }
    } else {
        s
    }
}

// 2. At flag 0 all three become 0.
pub fn rule2(flag: bool, clears: bool, r: Cents, s: Sums) -> Sums
    requires { Growable r s }
    ensures { result ≡ rule2 flag clears r s }
{
    if flag {
        cleared_if_zero(clears, grown(r, s))
    } else {
        Sums::default()
    }
}

// Amount = previous + current.
pub fn amount(s: Sums) -> Cents
    requires { Addable s }
    ensures { result ≡ amount s }
{
    s.previous + s.current
}

// 3. Reached: amount + next is the threshold or less (N2), and no review.
pub fn rule3(threshold: Cents, e: Event, amount: Cents) -> bool
    requires { (nat_abs amount.0 ≤ highest_sum + highest_residue) × (nat_abs e.next.0 ≤ highest_next) }
    ensures { result ≡ reached threshold e amount }
{
    amount + e.next <= threshold && !e.review
}
