// Money, megawatts and grains as types of their own: a flow can never be passed for an amount, nor an amount for a flow.

#![tactic(auto)]

ghost use Rattle.std.specs.Prelude.{◌≡◌, ℤ, pos, ◌+ℤ◌, ◌-ℤ◌, ◌*ℤ◌};
ghost use Rattle.std.specs.Int.{w64};
ghost use Rattle.std.proofs.Common.{SFits};
ghost use Rattle.signed.specs.Range.{negative, within};
ghost use Rattle.units.specs.Units.{◌+ᶜ◌, ◌+ʰ◌, ◌×ʰ◌, -ʰ◌, ◌+ᵍ◌, ◌-ᵍ◌, lower_of_zero, in_grains};

use std::ops::{Add, Mul, Neg, Sub};

// A price, a residue or an amount, in cents.
#[derive(Clone, Copy, Default, PartialEq, Eq, PartialOrd, Ord)]
pub struct Cents(pub i64);

// A flow, losses or a clamp, in hundredths of a MW.
#[derive(Clone, Copy, Default, PartialEq, Eq, PartialOrd, Ord)]
pub struct Hundredths(pub i64);

// Parts of a cent, as the residue formula gives them and rounding leaves them over (N8): 2,400,000 grains are one cent.
#[derive(Clone, Copy, Default, PartialEq, Eq, PartialOrd, Ord)]
pub struct Grains(pub i64);

// What the three have in common: each is a whole number of its unit.
pub trait Quantity: Copy {
    ghost whole: { Self → ℤ };

    fn whole(self) -> i64
        ensures { result ≡ whole self };

    fn is_negative(self) -> bool
        ensures { result ≡ negative (whole self) }
    {
        self.whole() < 0
    }
}

// The three `whole`, and the three `+` below, are alike, one for each of the three types that document 01 keeps apart. An impl that a macro of the
// repository's own writes is refused, so each is written out.
impl Quantity for Cents {
    ghost whole = { λ cents. cents.0 };

    fn whole(self) -> i64 {
        self.0 // cents
    }
}

// Written out as for `Cents`.
impl Quantity for Hundredths {
    ghost whole = { λ flow. flow.0 };

    fn whole(self) -> i64 {
        self.0 // hundredths of a MW
    }
}

// Written out as for `Cents`.
impl Quantity for Grains {
    ghost whole = { λ grains. grains.0 };

    fn whole(self) -> i64 {
        self.0 // grains
    }
}

// From the lowest to the highest that a quantity may be, both included.
#[derive(Clone, Copy)]
pub struct Span<Q> {
    pub low: Q,
    pub high: Q,
}

impl<Q: Quantity> Span<Q> {
    pub fn contains(self, x: Q) -> bool
        ensures { result ≡ within (Q.whole self.low) (Q.whole self.high) (Q.whole x) }
    {
        self.low.whole() <= x.whole() && x.whole() <= self.high.whole()
    }
}

// The `+` of one of the three types: each has its own, written out, as with `whole`.
impl Add for Cents {
    type Output = Cents;

    ghost can_add = { λ a b. SFits w64 (a.0 +ℤ b.0) };

    ghost add_gives = { λ a b sum. sum ≡ a +ᶜ b };

    fn add(self, other: Cents) -> Cents {
        Cents(self.0 + other.0)
    }
}

impl Cents {
    // The lower of the amount and 0.
    pub fn lower_of_zero(self) -> Cents
        ensures { result ≡ lower_of_zero self }
    {
        self.min(Cents(0))
    }

    // No `From`, since it asks that the grains fit.
    pub fn in_grains(self) -> Grains
        requires { SFits w64 (pos 2400000 *ℤ self.0) }
        ensures { result ≡ in_grains self }
    {
        Grains(2_400_000 * self.0)
    }
}

// Written out as for `Cents`.
impl Add for Hundredths {
    type Output = Hundredths;

    ghost can_add = { λ a b. SFits w64 (a.0 +ℤ b.0) };

    ghost add_gives = { λ a b sum. sum ≡ a +ʰ b };

    fn add(self, other: Hundredths) -> Hundredths {
        Hundredths(self.0 + other.0)
    }
}

impl Mul<Hundredths> for i64 {
    type Output = Hundredths;

    ghost can_mul = { λ n a. SFits w64 (n *ℤ a.0) };

    ghost mul_gives = { λ n a product. product ≡ n ×ʰ a };

    fn mul(self, a: Hundredths) -> Hundredths {
        Hundredths(self * a.0)
    }
}

impl Neg for Hundredths {
    type Output = Hundredths;

    ghost can_neg = { λ a. SFits w64 (pos 0 -ℤ a.0) };

    ghost neg_gives = { λ a negated. negated ≡ -ʰ a };

    fn neg(self) -> Hundredths {
        Hundredths(-self.0)
    }
}

// Written out as for `Cents`.
impl Add for Grains {
    type Output = Grains;

    ghost can_add = { λ a b. SFits w64 (a.0 +ℤ b.0) };

    ghost add_gives = { λ a b sum. sum ≡ a +ᵍ b };

    fn add(self, other: Grains) -> Grains {
        Grains(self.0 + other.0)
    }
}

impl Sub for Grains {
    type Output = Grains;

    ghost can_sub = { λ a b. SFits w64 (a.0 -ℤ b.0) };

    ghost sub_gives = { λ a b rest. rest ≡ a -ᵍ b };

    fn sub(self, other: Grains) -> Grains {
        Grains(self.0 - other.0)
    }
}
