// Prints what the readers show of rows (N6), and numbers; reads the files that arguments name, and settings from bytes: for the programs that the
// gate runs.

#![tactic(auto)]

ghost use Rattle.std.specs.Prelude.{◌≡◌, ◌*◌, ◌<◌, ◌≤◌, nat_abs, length, Ok, IfOk};
ghost use Rattle.tracker.specs.Promise.{Answer, Row, Came, RowBounds, WithinHalfCent, highest_sum};
ghost use Rattle.words.specs.Internal.{IsI32};
ghost use Rattle.readers.specs.Views.{row_shown};
ghost use Rattle.journal_rules.specs.declared.Contents.{Contents};
ghost use Rattle.journal_rules.specs.Journal.{read_of};
ghost use Rattle.report.specs.Settings.{edges_in, direction_settings_in, settings_in};

use journal_rules::Contents;
use readers::ControlView;
use rules::{
    Answer, DirectionSettings, MOST_RECORDS, Period, RECORD, Refusal, Row, Settings, Tracker,
};
use std::alloc::Alloc;
use std::array::from_fn;
use std::rt::{Env, Files};
use std::{env, fs, io};
use units::{Cents, Grains, Hundredths, Quantity};
use words::FromEnd;

// No number that is printed is longer, with the byte that ends it.
const CELL: usize = 32;

// A number and the byte that ends it. Crate `text` puts it, as it does the listing's, so that the gate compares its digits here too.
pub fn print_number(rt: &impl Print, n: u64, end: u8) -> io::Result<()> {
    let mut room = [0; CELL];
    let mut cell = FromEnd::new(&mut room);
    text::number(n, end, &mut cell);
    rt.write_all(cell.as_slice())
}

fn print_bool(rt: &impl Print, flag: bool) -> io::Result<()> {
    print_number(rt, u64::from(flag), b',')
}

// An amount, a flow or a leftover, and the byte that ends it. It has a cell of its own, as `print_number` has: one function for both, which is told
// what fills the cell, would ask of that in a clause over a closure.
fn print_quantity<Q: Quantity>(rt: &impl Print, z: Q, end: u8) -> io::Result<()>
    requires { nat_abs (Q.whole z) ≤ highest_sum }
{
    let mut room = [0; CELL];
    let mut cell = FromEnd::new(&mut room);
    text::quantity(z, end, &mut cell);
    rt.write_all(cell.as_slice())
}

// An amount. This and the two below say the type and the bound of what is printed: a flow passed for an amount does not compile.
fn print_cents(rt: &impl Print, z: Cents, end: u8) -> io::Result<()>
    requires { nat_abs z.0 ≤ highest_sum }
{
    print_quantity(rt, z, end)
}

// A clamp.
fn print_hundredths(rt: &impl Print, z: Hundredths) -> io::Result<()>
    requires { nat_abs z.0 ≤ 2000000 }
{
    print_quantity(rt, z, b',')
}

// A leftover, which ends its line.
fn print_grains(rt: &impl Print, z: Grains) -> io::Result<()>
    requires { WithinHalfCent z }
{
    print_quantity(rt, z, b'\n')
}

// Held or not, first, last, extended; no period is four zeros.
fn print_period(rt: &impl Print, period: Period) -> io::Result<()> {
    match period {
        Period::None => rt.write_all(b"0,0,0,0,"),
        Period::Held {
            first,
            last,
            extended,
        } => {
            rt.write_all(b"1,")?;
            print_number(rt, u64::from(first), b',')?;
            print_number(rt, u64::from(last), b',')?;
            print_bool(rt, extended)
        }
    }
}

// Every field of a control view, in one line. What a row call promises of its row, `RowBounds`, is asked for here and below, since a `Row` is document
// 01's list of fields, and has no bounds of its own.
fn print_control(rt: &impl Print, view: ControlView) -> io::Result<()>
    requires { RowBounds (row_shown view) }
{
    let ControlView(shown) = view;
    print_number(rt, u64::from(shown.n), b',')?;
    print_number(rt, shown.direction as u64, b',')?;
    print_cents(rt, shown.residue, b',')?;
    print_bool(rt, shown.applies)?;
    print_cents(rt, shown.previous, b',')?;
    print_cents(rt, shown.current, b',')?;
    print_cents(rt, shown.amount, b',')?;
    print_cents(rt, shown.next, b',')?;
    print_cents(rt, shown.net, b',')?;
    print_period(rt, shown.period)?;
    print_number(rt, u64::from(shown.counts.unbound), b',')?;
    print_number(rt, u64::from(shown.counts.violated), b',')?;
    print_bool(rt, shown.blocked)?;
    print_bool(rt, shown.flag)?;
    print_hundredths(rt, shown.clamp)?;
    print_number(rt, u64::from(shown.notice), b',')?;
    print_grains(rt, shown.leftover)
}

// A row in one line, as the control reader shows it: every field.
pub fn print_row(rt: &impl Print, row: Row) -> io::Result<()>
    requires { RowBounds row }
{
    print_control(rt, readers::control(row))
}

// A row in one line, as the trader's reader shows it: `none`, or the seven fields.
pub fn print_for_trader(rt: &impl Print, row: Row) -> io::Result<()>
    requires { RowBounds row }
{
    let Some(shown) = readers::trader(row) else {
        return rt.write_all(b"none\n");
    };
    print_number(rt, u64::from(shown.n), b',')?;
    print_number(rt, shown.direction as u64, b',')?;
    print_bool(rt, shown.applies)?;
    print_cents(rt, shown.amount, b',')?;
    print_cents(rt, shown.previous, b',')?;
    print_cents(rt, shown.current, b',')?;
    print_cents(rt, shown.next, b'\n')
}

// Who reads rows: what is printed of a row for such a reader. Each of the two shows a row by a function of its own.
pub trait Reader {
    fn print(&self, rt: &impl Print, row: Row) -> io::Result<()>
        requires { RowBounds row };
}

// The control room's reader.
#[derive(Clone, Copy)]
pub struct Control;

impl Reader for Control {
    fn print(&self, rt: &impl Print, row: Row) -> io::Result<()> {
        print_row(rt, row)
    }
}

// The trader's reader.
#[derive(Clone, Copy)]
pub struct Trader;

impl Reader for Trader {
    fn print(&self, rt: &impl Print, row: Row) -> io::Result<()> {
        print_for_trader(rt, row)
    }
}

// The number of a refusal, 0 if accepted.
pub fn number_of<T: Drop>(answer: Result<T, Refusal>) -> u64 {
    answer.err().map_or(0, |why| u64::from(u8::from(why)))
}

// A refusal, or its number.
pub fn print_refusal(rt: &impl Print, why: impl Into<u8>) -> io::Result<()> {
    let number: u8 = why.into();
    rt.write_all(b"refused,")?;
    print_number(rt, u64::from(number), b'\n')
}

// As long as the most records of a journal are.
const MOST_BYTES: usize = MOST_RECORDS * RECORD;

// All eight rows after each surviving record of a journal (N7), which the second call gives, up to a refusal. `Came` is what is asked of a tracker,
// as in crate `tracker`.
fn run_survivors(
    rt: &impl Print,
    t: Tracker,
    journal: &[u8],
    reader: &impl Reader,
) -> io::Result<()>
    requires { Came t }
{
    let mut records = [0u8; MOST_BYTES];
    let count = match journal::survivors(journal, &mut records) {
        Ok(count) => count as usize,
        Err(why) => return print_refusal(rt, why),
    };
    let survivors: &[[u8; RECORD]] = records[..RECORD * count].as_chunks().0;
    let mut now = t;
    for bytes in survivors {
        let answer = tracker::interval(now, bytes);
        if let Err(why) = answer.outcome {
            return print_refusal(rt, why);
        }
        now = answer.tracker;
        // A tracker gives a row by its direction's number.
        for d in 0..8 {
            reader.print(rt, tracker::row(&now, d).row)?;
        }
    }
    Ok(())
}

// The header of rows as the control reader shows them.
pub fn print_header(rt: &impl Print) -> io::Result<()> {
    rt.write_all(
        b"n,direction,r,applies,previous,current,amount,next,net,held,first,last,extended,",
    )?;
    rt.write_all(b"unbound,violated,blocked,flag,clamp,notice,leftover\n")
}

// What an opening answered, and the surviving records of a journal after it: all rows, as a reader shows them, or a refusal.
pub fn print_opened(
    rt: &impl Print,
    opened: Answer,
    journal: &[u8],
    reader: &impl Reader,
) -> io::Result<()>
    requires { Came opened.tracker }
{
    match opened.outcome {
        Ok(()) => run_survivors(rt, opened.tracker, journal, reader),
        Err(why) => print_refusal(rt, why),
    }
}

// What a read finds in a journal: a refusal is printed.
pub fn print_found(rt: &impl Print, journal: &[u8]) -> io::Result<Result<Contents, Refusal>>
    ensures { IfOk result (λ found. found ≡ read_of journal.now) }
{
    let found = journal::read(journal);
    if let Err(why) = found {
        print_refusal(rt, why)?;
    }
    Ok(found)
}

// All eight rows after each interval of a journal, on the tracker that is opened at its first n, or a refusal. The caller says how the tracker
// is opened at that number, and who reads.
pub fn print_opened_at<O: Fn(u32) -> Answer>(
    rt: &impl Print,
    journal: &[u8],
    opened_at: O,
    reader: &impl Reader,
) -> io::Result<()>
    requires opens { (held : Contents) → read_of journal.now ≡ Ok held → O.pre opened_at held.first }
    requires came { (held : Contents) (opened : Answer) → read_of journal.now ≡ Ok held → O.post opened_at held.first opened → Came opened.tracker }
{
    match print_found(rt, journal)? {
        Ok(contents) if contents.count != 0 => {
            print_opened(rt, opened_at(contents.first), journal, reader)
        }
        _ => Ok(()),
    }
}

// The same, opened as clampday opens a journal.
pub fn print_journal(rt: &impl Print, journal: &[u8], reader: &impl Reader) -> io::Result<()> {
    print_opened_at(rt, journal, |first| tracker::open(first, [500; 6]), reader)
}

// The length of settings in bytes: 44 i32.
pub const SETTINGS: usize = 176;

// Number k of settings in bytes.
fn int_at(bytes: &[u8; SETTINGS], k: usize) -> i64
    requires { k < 44 }
    ensures { IsI32 bytes.now (4 * k) result }
{
    words::i32_at(bytes, 4 * k)
}

// The edges between the four bands of net.
#[tactic(auto, unfolding(crate::specs::Settings::edges_in))]
fn edges_in(bytes: &[u8; SETTINGS]) -> [Cents; 3]
    ensures { result ≡ edges_in bytes.now }
{
    from_fn(|edge| Cents(int_at(bytes, 1 + edge)))
}

// What settings in bytes have for direction d, a number as their words stand by it: 32 steps, four for each, stand before the eight offsets.
#[tactic(auto, unfolding(crate::specs::Settings::direction_settings_in))]
fn direction_settings_in(bytes: &[u8; SETTINGS], d: usize) -> DirectionSettings
    requires { d < 8 }
    ensures { result ≡ direction_settings_in bytes.now d }
{
    DirectionSettings {
        steps: from_fn(|band| Hundredths(int_at(bytes, 4 + 4 * d + band))),
        offset: Hundredths(int_at(bytes, 36 + d)),
    }
}

// Settings as 44 i32: the threshold, three edges, the steps by direction, the offsets.
pub fn settings_in(bytes: &[u8; SETTINGS]) -> Settings
    ensures { result ≡ settings_in bytes.now }
{
    Settings {
        threshold: Cents(int_at(bytes, 0)),
        edges: edges_in(bytes),
        directions: from_fn(|d| direction_settings_in(bytes, d)),
    }
}

// An argument of the program, which names a file, in a line of its own.
pub fn print_argument(rt: &impl Print, name: &str) -> io::Result<()> {
    rt.write_all(b"== ")?;
    rt.write_all(name.as_bytes())?;
    rt.write_all(b"\n")
}

// Runs a case for each two arguments of the program, which name its files. One without a second is run with an empty name, which no file has.
// Two are taken at a time by hand: `tuples` of the kit's itertools leaves out one without a second.
pub fn run_cases<R: Env + Alloc, F: Fn(&str, &str) -> io::Result<()>>(
    rt: &R,
    case: F,
) -> io::Result<()>
    requires { F.IsAlwaysCallable case }
{
    let mut names = env::args(rt)?.skip(1);
    while let Some(first) = names.next() {
        let second = names.next();
        let second = second.as_ref().map_or("", |name| name.as_str());
        case(first.as_str(), second)?;
    }
    Ok(())
}

// The file that an argument names, open for reading. Where it is not there, a line that no case has says so, and the error goes up: it must not
// look like an empty file.
pub fn open_argument<R: Files + Print>(rt: &R, name: &str) -> io::Result<R::File> {
    let opened = fs::open(rt, name);
    if opened.is_err() {
        rt.write_all(b"not opened\n")?;
    }
    opened
}

// The bytes of the file that an argument names, which are put at the start of the buffer.
pub fn read_argument<'a, R: Files + Print>(
    rt: &R,
    name: &str,
    buffer: &'a mut [u8],
) -> io::Result<&'a [u8]>
    ensures { IfOk result (λ bytes. length bytes.now ≤ length buffer.old) }
{
    let mut file = open_argument(rt, name)?;
    let n = listing::read_full(&mut file, buffer)?;
    Ok(&buffer[..n])
}
