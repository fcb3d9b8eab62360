// What an accepted record says of each direction: residue and leftover, loop flag, estimate, review, status, blocked mark and target sum.

#![tactic(auto)]

ghost use Rattle.std.specs.Prelude.{◌≡◌, ◌<◌};
ghost use Rattle.rules.specs.Market.{of_directions};
ghost use Rattle.rules.specs.Record.{target_sum, event_of};
ghost use Rattle.events.specs.Internal.{Readable, IsTargetOf, pre_dispatch_of, ahead_of, event_from};

use record::{Header, Record};
use rules::{Event, Residue};
use units::{Cents, Hundredths};

// The sum of the targets of a corridor's physical interconnectors, which it has by number: each number picks a target out of the record.
fn corridor_target(r: &Record<'_>, c: usize) -> Hundredths
    requires { c < 4 }
    ensures { IsTargetOf r.now c result }
{
    let corridor = residue::corridor_at(c);
    let mut sum = Hundredths(0);
    for i in corridor.first..corridor.first + corridor.lines {
        sum = sum + r.target(i);
    }
    sum
}

// The target sum of direction d's corridor: an odd direction runs from To to From, and counts it negated. Here and below d is a number, 0 to 7, as
// document 01 calls directions: bytes and arrays stand by it, and a type for it would be turned into its number in each use.
fn target_sum(r: &Record<'_>, d: usize) -> Hundredths
    requires { d < 8 }
    ensures { result ≡ target_sum r.now d }
{
    let sum = corridor_target(r, d / 2);
    if d % 2 == 1 { -sum } else { sum }
}

// The residues of the pre-dispatch half-hour, if pre-dispatch is present.
fn pre_dispatch_residues(shares: [u16; 6], r: &Record<'_>) -> Option<[Residue; 8]>
    requires { Readable shares r.now }
    ensures { result ≡ pre_dispatch_of shares r.now }
{
    if !r.header().present {
        return None;
    }
    Some(residue::residues(r.pre_dispatch_prices(), shares, r.pre_dispatch_lines()))
}

// What is worked out once for the eight directions: the record's header, its residues, those of pre-dispatch, and the sum of the loop's.
#[derive(Drop)]
struct Parts<'a> {
    r: &'a Record<'a>,
    header: Header,
    residues: [Residue; 8],
    pre_dispatch: Option<[Residue; 8]>,
    loop_sum: Cents,
}

impl Parts<'_> {
    // The pre-dispatch residue of direction d, if pre-dispatch is present.
    fn ahead(&self, d: usize) -> Option<Cents>
        requires { d < 8 }
        ensures { result ≡ ahead_of self.now.pre_dispatch d }
    {
        let residues = self.pre_dispatch?;
        Some(residues[d].cents)
    }

    // What the record says of direction d.
    #[tactic(auto, unfolding(crate::specs::Internal::event_from))]
    fn event(&self, d: usize) -> Event
        requires { d < 8 }
        ensures { result ≡ event_from self.now d }
    {
        let header = self.header;
        let own = self.residues[d];
        let flag = residue::flag(header.operating, self.loop_sum, d);
        Event {
            n: header.n,
            flag,
            residue: own.cents,
            leftover: own.leftover,
            next: residue::next(flag, header.n, self.ahead(d)),
            review: header.review,
            status: self.r.status(d),
            blocked: self.r.is_blocked(d),
            target: target_sum(self.r, d),
        }
    }

    // The same of each direction. The numbers are written: with `from_fn` a record takes a fifth more instructions, and so more
    // than in the plain Rust program.
    fn events(&self) -> [Event; 8]
        ensures { result ≡ of_directions (event_from self.now) }
    {
        [
            self.event(0),
            self.event(1),
            self.event(2),
            self.event(3),
            self.event(4),
            self.event(5),
            self.event(6),
            self.event(7),
        ]
    }
}

// What the record says of the eight directions.
pub fn events(shares: [u16; 6], r: &Record<'_>) -> [Event; 8]
    requires { Readable shares r.now }
    ensures { result ≡ of_directions (λ d. event_of shares d r.now) }
{
    let header = r.header();
    let residues = residue::residues(r.prices(), shares, r.lines());
    let parts = Parts {
        r,
        header,
        residues,
        pre_dispatch: pre_dispatch_residues(shares, r),
        loop_sum: residue::loop_sum(residues),
    };
    parts.events()
}
