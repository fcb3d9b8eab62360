// What the bytes of a record say, and for which reason they are refused.

#![tactic(auto)]

ghost use Rattle.std.specs.Prelude.{◌≡◌, ◌+◌, ◌*◌, ◌<◌, ◌≤◌, length, Ok};
ghost use Rattle.std.specs.Result.{result_and};
ghost use Rattle.units.specs.Units.{hundredths};
ghost use Rattle.rules.specs.Record.{record_number, i32_at, bit, present, status_number, status, blocked, zero_bytes, target, line_at, pre_dispatch_line_at, prices, lines, pre_dispatch_prices, pre_dispatch_lines};
ghost use Rattle.rules.specs.Refusal.{each, status_ok, bad_flags, bad_status, line_ok, bad_flow, pre_dispatch_zero, pre_dispatch_line_ok, pre_dispatch_inside, bad_pre_dispatch, interval_outcome};
ghost use Rattle.words.specs.Internal.{IsI32};
ghost use Rattle.record.specs.Internal.{IsHundredths, header, pre_dispatch_misplaced, price_from, region_ok};

use rules::{HIGHEST_NUMBER, Line, RECORD, Refusal, Status};
use std::array;
use std::marker::Model;
use units::{Cents, Hundredths, Span};

// Where a record has its flags, a status byte for each direction, and the four prices of the interval and of pre-dispatch.
const FLAGS: usize = 4;

const STATUS: usize = 5;

const PRICES: usize = 16;

const PRE_DISPATCH: usize = 104;

// Where a number of each physical interconnector stands: of the first, and how many bytes it is from one to the next.
#[derive(Clone, Copy)]
struct Column {
    first: usize,
    stride: usize,
}

const METERED: Column = Column {
    first: 32,
    stride: 12,
};

const TARGET: Column = Column {
    first: 36,
    stride: 12,
};

const LOSSES: Column = Column {
    first: 40,
    stride: 12,
};

const PRE_DISPATCH_FLOW: Column = Column {
    first: 120,
    stride: 8,
};

const PRE_DISPATCH_LOSSES: Column = Column {
    first: 124,
    stride: 8,
};

// What a record's prices, flows and losses may be.
const PRICE_SPAN: Span<Cents> = Span {
    low: Cents(-100_000),
    high: Cents(3_000_000),
};

const FLOW_SPAN: Span<Hundredths> = Span {
    low: Hundredths(-500_000),
    high: Hundredths(500_000),
};

const LOSS_SPAN: Span<Hundredths> = Span {
    low: Hundredths(-100_000),
    high: Hundredths(100_000),
};

// The 168 bytes of a record, whatever they say. Clauses see them as their list.
#[derive(Drop)]
pub struct Record<'a> {
    bytes: &'a [u8; RECORD],
}

impl<'a> Model for Record<'a> {
    ghost use Rattle.std.specs.Prelude.{List, ℕ};

    ghost Value = { List ℕ };

    ghost view = { λ r. r.bytes.now };
}

impl<'a> TryFrom<&'a [u8]> for Record<'a> {
    type Error = Refusal;

    ghost use Rattle.std.specs.Prelude.{◌≡◌, ◌==◌, if◌then◌else◌, Ok, Err, length};
    ghost use Rattle.rules.specs.declared.Refusal.TheVariants.{NotARecord};

    ghost try_from_gives = { λ bytes r. r ≡ (if length bytes.now == 168 then Ok bytes.now else Err NotARecord) };

    fn try_from(bytes: &'a [u8]) -> Result<Record<'a>, Refusal> {
        let bytes = <&[u8; RECORD]>::try_from(bytes).map_err(|_| Refusal::NotARecord)?;
        Ok(Record { bytes })
    }
}

// What a record says of all directions alike: n, and the bits of the flags byte, as document 01 names them: the interval is under review, the loop
// is operating, pre-dispatch is present.
#[derive(Clone, Copy)]
pub struct Header {
    pub n: u32,
    pub review: bool,
    pub operating: bool,
    pub present: bool,
}

// Bit k of a byte.
fn bit(x: u8, k: u8) -> bool
    requires { k < 8 }
    ensures { result ≡ bit k x }
{
    x >> k & 1 == 1
}

// 0, 1 or 2, plus 4 if blocked: 3 and 7 stand for nothing.
fn status_ok(x: u8) -> bool
    ensures { result ≡ status_ok x }
{
    x <= 2 || 4 <= x && x <= 6
}

// Where a method lends the bytes on, it copies the reference to them into a local first: proofs do not cover what is lent straight out of a field.
impl Record<'_> {
    // The record's n.
    pub fn number(&self) -> u32
        ensures { result ≡ record_number self.now }
    {
        let bytes = self.bytes;
        words::u32_at(bytes, 0)
    }

    // The number that begins at a byte.
    fn int(&self, at: usize) -> i64
        requires { at + 4 ≤ RECORD }
        ensures { IsI32 self.now at result }
    {
        let bytes = self.bytes;
        words::i32_at(bytes, at)
    }

    // A region's price, of the four from a byte on.
    fn price(&self, first: usize, region: usize) -> Cents
        requires { (first + 16 ≤ RECORD) × (region < 4) }
        ensures { result ≡ price_from self.now first region }
    {
        Cents(self.int(first + 4 * region))
    }

    // The number of physical interconnector i.
    fn hundredths(&self, column: Column, i: usize) -> Hundredths
        requires { column.first + column.stride * i + 4 ≤ RECORD }
        ensures { IsHundredths (hundredths (i32_at self.now (column.first + column.stride * i))) result }
    {
        Hundredths(self.int(column.first + column.stride * i))
    }

    // The target of physical interconnector i. Here and below i is one of the six as document 01 numbers them: an enum would be turned into its
    // number in each use.
    pub fn target(&self, i: usize) -> Hundredths
        requires { i < 6 }
        ensures { IsHundredths (target self.now i) result }
    {
        self.hundredths(TARGET, i)
    }

    // Is pre-dispatch present? A bit of the flags says so.
    fn has_pre_dispatch(&self) -> bool
        ensures { result ≡ present self.now }
    {
        bit(self.bytes[FLAGS], 2)
    }

    pub fn header(&self) -> Header
        ensures { result ≡ header self.now }
    {
        let flags = self.bytes[FLAGS];
        Header {
            n: self.number(),
            review: bit(flags, 0),
            operating: bit(flags, 1),
            present: self.has_pre_dispatch(),
        }
    }

    // A direction's status by number: its byte without the blocked mark. Here and below d is the number that document 01 gives a direction, 0 to 7:
    // its byte stands by it.
    pub fn status_number(&self, d: usize) -> u8
        requires { d < 8 }
        ensures { result ≡ status_number self.now d }
    {
        self.bytes[STATUS + d] & 3
    }

    // The same as what it stands for.
    pub fn status(&self, d: usize) -> Status
        requires { d < 8 }
        ensures { result ≡ status self.now d }
    {
        match self.status_number(d) {
            0 => Status::Unbound,
            2 => Status::Violated,
            // 1; and 3, of bytes such as 3 and 7, which `status_ok` refuses: the specs give it alike.
            _ => Status::Bound,
        }
    }

    // Is a direction blocked? A bit of its status byte says so.
    pub fn is_blocked(&self, d: usize) -> bool
        requires { d < 8 }
        ensures { result ≡ blocked self.now d }
    {
        bit(self.bytes[STATUS + d], 2)
    }

    // Pre-dispatch may come only with the last interval of a half-hour.
    fn pre_dispatch_misplaced(&self) -> bool
        ensures { result ≡ pre_dispatch_misplaced self.now }
    {
        self.has_pre_dispatch() && self.number() % 6 != 5
    }

    // Byte 13, the issue (N7), is not looked at.
    fn zero_bytes(&self) -> bool
        ensures { result ≡ zero_bytes self.now }
    {
        self.bytes[14] == 0 && self.bytes[15] == 0
    }

    // Only the three low bits of the flags have a meaning.
    #[tactic(auto, unfolding(rules::specs::Refusal::bad_flags))]
    fn bad_flags(&self) -> bool
        ensures { result ≡ bad_flags self.now }
    {
        self.bytes[FLAGS] >> 3 != 0 || self.pre_dispatch_misplaced() || !self.zero_bytes()
    }

    #[tactic(auto, unfolding(rules::specs::Refusal::bad_status))]
    fn bad_status(&self) -> bool
        ensures { result ≡ bad_status self.now }
    {
        let bytes = self.bytes;
        !bytes[STATUS..STATUS + 8].iter().all(|x| status_ok(*x))
    }

    // Are the four prices from a byte on in range? The interval and pre-dispatch each have such four. A number picks one of the regions.
    fn prices_ok(&self, first: usize) -> bool
        requires { first + 16 ≤ RECORD }
        ensures { result ≡ each 4 (region_ok self.now first) }
    {
        (0..4).all(|region| PRICE_SPAN.contains(self.price(first, region)))
    }

    fn line_ok(&self, i: usize) -> bool
        requires { i < 6 }
        ensures { result ≡ line_ok self.now i }
    {
        FLOW_SPAN.contains(self.hundredths(METERED, i))
            && FLOW_SPAN.contains(self.hundredths(TARGET, i))
            && LOSS_SPAN.contains(self.hundredths(LOSSES, i))
    }

    // Here and below a number picks one of the physical interconnectors.
    #[tactic(auto, unfolding(rules::specs::Refusal::bad_flow))]
    fn bad_flow(&self) -> bool
        ensures { result ≡ bad_flow self.now }
    {
        !(0..6).all(|i| self.line_ok(i))
    }

    fn pre_dispatch_line_ok(&self, i: usize) -> bool
        requires { i < 6 }
        ensures { result ≡ pre_dispatch_line_ok self.now i }
    {
        FLOW_SPAN.contains(self.hundredths(PRE_DISPATCH_FLOW, i))
            && LOSS_SPAN.contains(self.hundredths(PRE_DISPATCH_LOSSES, i))
    }

    #[tactic(auto, unfolding(rules::specs::Refusal::pre_dispatch_inside))]
    fn pre_dispatch_inside(&self) -> bool
        ensures { result ≡ pre_dispatch_inside self.now }
    {
        self.prices_ok(PRE_DISPATCH) && (0..6).all(|i| self.pre_dispatch_line_ok(i))
    }

    // Absent pre-dispatch is all zero, up to the end of the record.
    #[tactic(auto, unfolding(rules::specs::Refusal::pre_dispatch_zero))]
    fn pre_dispatch_zero(&self) -> bool
        ensures { result ≡ pre_dispatch_zero self.now }
    {
        let bytes = self.bytes;
        bytes[PRE_DISPATCH..].iter().all(|x| *x == 0)
    }

    #[tactic(auto, unfolding(rules::specs::Refusal::bad_pre_dispatch))]
    fn bad_pre_dispatch(&self) -> bool
        ensures { result ≡ bad_pre_dispatch self.now }
    {
        if self.has_pre_dispatch() {
            !self.pre_dispatch_inside()
        } else {
            !self.pre_dispatch_zero()
        }
    }

    // Document 01's a and b of physical interconnector i, of the interval.
    fn line(&self, i: usize) -> Line
        requires { i < 6 }
        ensures { result ≡ line_at self.now i }
    {
        Line {
            a: self.hundredths(METERED, i) + self.hundredths(TARGET, i),
            b: 2 * self.hundredths(LOSSES, i),
        }
    }

    // Document 01's a and b of physical interconnector i, of the pre-dispatch half-hour.
    fn pre_dispatch_line(&self, i: usize) -> Line
        requires { i < 6 }
        ensures { result ≡ pre_dispatch_line_at self.now i }
    {
        Line {
            a: 12 * self.hundredths(PRE_DISPATCH_FLOW, i),
            b: 12 * self.hundredths(PRE_DISPATCH_LOSSES, i),
        }
    }

    // The prices of the four regions, and the a and b of the six physical interconnectors; below, those of pre-dispatch. Each part of a record has
    // functions of its own: document 01 gives the lines of each their own a and b, and one function for the prices of both would be told the byte at
    // which they begin, which is known here alone.
    #[tactic(auto, unfolding(rules::specs::Record::prices))]
    pub fn prices(&self) -> [Cents; 4]
        ensures { result ≡ prices self.now }
    {
        array::from_fn(|region| self.price(PRICES, region))
    }

    #[tactic(auto, unfolding(rules::specs::Record::lines))]
    pub fn lines(&self) -> [Line; 6]
        ensures { result ≡ lines self.now }
    {
        array::from_fn(|i| self.line(i))
    }

    #[tactic(auto, unfolding(rules::specs::Record::pre_dispatch_prices))]
    pub fn pre_dispatch_prices(&self) -> [Cents; 4]
        ensures { result ≡ pre_dispatch_prices self.now }
    {
        array::from_fn(|region| self.price(PRE_DISPATCH, region))
    }

    #[tactic(auto, unfolding(rules::specs::Record::pre_dispatch_lines))]
    pub fn pre_dispatch_lines(&self) -> [Line; 6]
        ensures { result ≡ pre_dispatch_lines self.now }
    {
        array::from_fn(|i| self.pre_dispatch_line(i))
    }
}

// The record, if these bytes are one that is accepted as interval `awaited`; else the first reason against it.
#[tactic(auto, unfolding(rules::specs::Refusal::interval_outcome, rules::specs::Refusal::interval_conditions, rules::specs::Refusal::bad_price))]
pub fn accepted(awaited: u32, bytes: &[u8]) -> Result<Record<'_>, Refusal>
    ensures { result ≡ result_and (interval_outcome awaited bytes.now) (Ok bytes.now) }
{
    let record = Record::try_from(bytes)?;
    let n = record.number();
    Refusal::NumberTooHigh.when(HIGHEST_NUMBER < n)?;
    Refusal::NotAwaited.when(n != awaited)?;
    Refusal::BadFlags.when(record.bad_flags())?;
    Refusal::BadStatus.when(record.bad_status())?;
    Refusal::BadPrice.when(!record.prices_ok(PRICES))?;
    Refusal::BadFlow.when(record.bad_flow())?;
    Refusal::BadPreDispatch.when(record.bad_pre_dispatch())?;
    Ok(record)
}
