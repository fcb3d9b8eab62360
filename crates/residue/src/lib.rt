// The residues of the eight directions with their leftovers, the loop flag and the estimate of one record: document 01's "Residue", rules 2
// and 3, and N8.

#![tactic(auto)]

ghost use Rattle.std.specs.Prelude.{[], ◌≡◌, ℕ, ◌<◌, ◌≤◌, pos, nat_abs, get_or, is_some, unwrap_or};
ghost use Rattle.units.specs.Units.{cents};
ghost use Rattle.rules.specs.Bounds.{highest_next};
ghost use Rattle.rules.specs.Residue.{grains_of, rounded, in_cents, no_residue, price, corridor_residue, residue_of, along};
ghost use Rattle.rules.specs.Interval.{loop_sum, flag_of, next_of};
ghost use Rattle.residue.specs.Internal.{IsCorridor, LineInRange, InRange, highest_corridor_grains};
ghost use Rattle.rules.specs.Market.{of_directions};

use rules::{Corridor, CorridorResidue, Line, Region, Residue};
use units::{Cents, Grains, Hundredths, Quantity};

// From region, to region, and which physical interconnectors.
const CORRIDORS: [Corridor; 4] = [
    Corridor {
        from: Region::Nsw1,
        to: Region::Qld1,
        first: 0,
        lines: 2,
    },
    Corridor {
        from: Region::Vic1,
        to: Region::Nsw1,
        first: 2,
        lines: 1,
    },
    Corridor {
        from: Region::Vic1,
        to: Region::Sa1,
        first: 3,
        lines: 2,
    },
    Corridor {
        from: Region::Nsw1,
        to: Region::Sa1,
        first: 5,
        lines: 1,
    },
];

// A corridor goes by its number, here and below: that of direction d is d / 2, and of a type for it half would be taken again in each use.
pub fn corridor_at(c: usize) -> Corridor
    requires { c < 4 }
    ensures { IsCorridor c result }
{
    CORRIDORS[c]
}

fn price(prices: [Cents; 4], region: Region) -> Cents
    ensures { result ≡ price prices [] [] region }
{
    prices[region as usize]
}

// The grains of one physical interconnector: p is the To price, q the From price, k the From loss share in thousandths.
fn grains(p: Cents, q: Cents, k: u16, l: Line) -> Grains
    requires { LineInRange p q k l }
    ensures { result ≡ grains_of p q k l }
{
    let share = i64::from(k);
    let flow = 1000 * l.a.0;
    let received = flow - (1000 - share) * l.b.0;
    let sent = flow + share * l.b.0;
    let bought = p.0 * received;
    let sold = q.0 * sent;
    Grains(bought - sold)
}

// Half a cent is added on the side of the sign, and the division drops the rest: halves go away from zero.
fn rounded(g: Grains) -> Cents
    requires { nat_abs g.0 ≤ highest_corridor_grains }
    ensures { result ≡ rounded g }
{
    let half_cent = if g.is_negative() {
        -1_200_000
    } else {
        1_200_000
    };
    Cents((g.0 + half_cent) / 2_400_000)
}

// Grains in cents, and the leftover: what the cents leave of them (N8).
fn in_cents(g: Grains) -> Residue
    requires { nat_abs g.0 ≤ highest_corridor_grains }
    ensures { result ≡ in_cents g }
{
    let cents = rounded(g);
    Residue {
        cents,
        leftover: g - cents.in_grains(),
    }
}

// Grains and flow are summed over the corridor's lines first, so that the residue is rounded once. A corridor has its lines by number, and each
// number picks from two arrays: with `shares.iter().zip(&lines).skip(at.first).take(at.lines)` the same would be said no more plainly.
// Prices, shares and lines go together into this function and `residues` alone.
fn corridor(prices: [Cents; 4], shares: [u16; 6], lines: [Line; 6], c: usize) -> CorridorResidue
    requires { (c < 4) × InRange prices shares lines }
    ensures { result ≡ corridor_residue prices shares lines c }
{
    let at = corridor_at(c);
    let to = price(prices, at.to);
    let from = price(prices, at.from);
    let mut sum = Grains(0);
    let mut flow = Hundredths(0);
    for i in at.first..at.first + at.lines {
        sum = sum + grains(to, from, shares[i], lines[i]);
        flow = flow + lines[i].a;
    }
    CorridorResidue {
        residue: in_cents(sum),
        reverse: flow.is_negative(),
    }
}

// A direction has its corridor's residue, with the leftover, if the flow is that way, else 0.
fn along(r: CorridorResidue, reverse: bool) -> Residue
    ensures { result ≡ along reverse r }
{
    if reverse == r.reverse {
        r.residue
    } else {
        Residue::default()
    }
}

// Each corridor's residue is worked out once, for both its directions. They are written out by the corridors' names: `from_fn` is no plainer, since
// it picks corridor and way by d / 2 and d % 2, and with it a busy day takes 4 % more instructions.
#[tactic(auto, unfolding(rules::specs::Residue::residue_of))]
pub fn residues(prices: [Cents; 4], shares: [u16; 6], lines: [Line; 6]) -> [Residue; 8]
    requires { InRange prices shares lines }
    ensures { result ≡ of_directions (residue_of prices shares lines) }
{
    let nsw_qld = corridor(prices, shares, lines, 0);
    let vic_nsw = corridor(prices, shares, lines, 1);
    let vic_sa = corridor(prices, shares, lines, 2);
    let nsw_sa = corridor(prices, shares, lines, 3);
    [
        along(nsw_qld, false),
        along(nsw_qld, true),
        along(vic_nsw, false),
        along(vic_nsw, true),
        along(vic_sa, false),
        along(vic_sa, true),
        along(nsw_sa, false),
        along(nsw_sa, true),
    ]
}

// The sum over directions 2 to 7, the loop's. It is a `for`, and no `sum` or `fold`: that each sum so far fits is what the loop's invariant says.
pub fn loop_sum(residues: [Residue; 8]) -> Cents
    requires { (d : ℕ) → nat_abs (get_or residues d no_residue).cents.0 ≤ highest_next }
    ensures { result ≡ loop_sum (λ d. (get_or residues d no_residue).cents) }
{
    let mut sum = Cents(0);
    for r in &residues[2..] {
        sum = sum + r.cents;
    }
    sum
}

// The loop flag: false for a direction of the loop while the loop operates and its residues sum to zero or more.
#[tactic(auto, unfolding(rules::specs::Interval::flag_of))]
pub fn flag(operating: bool, sum: Cents, d: usize) -> bool
    ensures { result ≡ flag_of operating sum d }
{
    d < 2 || !operating || sum.is_negative()
}

// The estimate for the next half-hour, from the pre-dispatch residue, if there is one: only the last interval of a half-hour looks ahead, and only
// where the flag is up.
#[tactic(auto, unfolding(rules::specs::Interval::next_of))]
pub fn next(flag: bool, n: u32, pre_dispatch: Option<Cents>) -> Cents
    ensures { result ≡ next_of flag n (is_some pre_dispatch) (unwrap_or pre_dispatch (cents (pos 0))) }
{
    match pre_dispatch {
        Some(residue) if flag && n % 6 == 5 => residue.lower_of_zero(),
        _ => Cents(0),
    }
}
