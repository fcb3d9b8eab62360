// Numbers as decimal text, put from their end on: dividing gives the last digits first. No `write!`, since a writer here cannot fail: of what
// `write!` puts its contract speaks where it gives `Ok`, and it does not say where that is.

#![tactic(auto)]

ghost use Rattle.std.specs.Prelude.{◌≡◌, ◌≤◌, length};
ghost use Rattle.words.specs.Buffer.{put_before};
ghost use Rattle.text.specs.Text.{number_cell, signed_cell};

use units::Quantity;
use words::FromEnd;

// A plain number and the byte that ends it, a comma or a line's end: an interval's number, a refusal's.
#[inline]
#[tactic(auto, using(crate::proofs::Decimal::same_digits, words::proofs::Parts::before), unfolding(crate::specs::Text::number_cell))]
pub fn number(n: u64, ender: u8, out: &mut FromEnd)
    requires { length (number_cell n ender) ≤ length out.old.free }
    ensures { out.new ≡ put_before (number_cell n ender) out.old }
{
    out.put_byte(ender);
    out.put_digits(n);
}

// An amount, a flow or a leftover (N8), without its unit, and the byte that ends it.
#[inline]
#[tactic(auto, using(crate::proofs::Decimal::cell_minus, crate::proofs::Decimal::cell_plain, crate::proofs::Decimal::cell_longer, words::proofs::Parts::before))]
pub fn quantity<Q: Quantity>(z: Q, ender: u8, out: &mut FromEnd)
    requires { length (signed_cell (Q.whole z) ender) ≤ length out.old.free }
    ensures { out.new ≡ put_before (signed_cell (Q.whole z) ender) out.old }
{
    number(z.whole().unsigned_abs(), ender, out);
    if z.is_negative() {
        out.put_byte(b'-');
    }
}
