// Numbers as bytes hold them, the lowest byte first, and bytes put into a buffer. A writer, also of another crate, puts its bytes at the start
// of the slice that it is lent, leaves every other byte as it was, and gives how many they are: the next one is lent what is behind them.
//
// A caller adds up what its writers give: `n += words::put_u32(x, &mut out[n..])`. A struct of the slice and that count would be no plainer: a
// writer that is lent the slice at which it begins says nothing of what stands before, and the functions offered outside, which take a slice
// and give a count, would each make such a struct and give its room back.

#![tactic(auto)]

ghost use Rattle.std.specs.Prelude.{◌≡◌, ◌+◌, ◌≤◌, length};
ghost use Rattle.rules.specs.Record.{u32_at};
ghost use Rattle.words.specs.Buffer.{little_of, Puts};
ghost use Rattle.words.specs.Internal.{IsI32};

pub use from_end::FromEnd;

mod from_end;

// The four bytes are named, here and below: a part of a slice becomes an array by way of an `Option`, which is no plainer where it can't be `None`.
#[inline]
#[tactic(auto, unfolding(rules::specs::Record::u32_at))]
pub fn u32_at(s: &[u8], at: usize) -> u32
    requires { at + 4 ≤ length s.now }
    ensures { result ≡ u32_at s.now at }
{
    u32::from_le_bytes([s[at], s[at + 1], s[at + 2], s[at + 3]])
}

// An i32, as the i64 that is computed with. That it is no larger than an i32 is what lets callers add and multiply what they read.
#[inline]
#[tactic(auto, using(std::proofs::lemmas::Int::ints), unfolding(rules::specs::Record::u32_at, rules::specs::Record::i32_at))]
pub fn i32_at(s: &[u8], at: usize) -> i64
    requires { at + 4 ≤ length s.now }
    ensures { IsI32 s.now at result }
{
    i64::from(i32::from_le_bytes([s[at], s[at + 1], s[at + 2], s[at + 3]]))
}

// Bytes as they stand: names, the header, records.
#[inline]
pub fn put_bytes(src: &[u8], out: &mut [u8]) -> usize
    requires { length src.now ≤ length out.old }
    ensures { Puts src.now out.old result out.new }
{
    out[..src.len()].copy_from_slice(src);
    src.len()
}

// A u32, the lowest byte first: the words of a journal's trailer.
#[inline]
pub fn put_u32(n: u32, out: &mut [u8]) -> usize
    requires { 4 ≤ length out.old }
    ensures { Puts (little_of n) out.old result out.new }
{
    put_bytes(&n.to_le_bytes(), out)
}
