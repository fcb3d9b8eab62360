// Two readers of one row (N6): the trader's and the control room's. What each shows of a row, and what can be told from it, is in specs/.

#![tactic(auto)]

ghost use Rattle.readers.specs.Promise.{TraderPromise, ControlPromise};

use rules::Row;
use units::{Cents, Quantity};

// What the trader's reader shows of a row, where it shows anything.
#[derive(Clone, Copy)]
pub struct TraderView {
    pub n: u32,
    pub direction: usize,
    pub applies: bool,
    pub amount: Cents,
    pub previous: Cents,
    pub current: Cents,
    pub next: Cents,
}

// What the control reader shows of a row: every field.
#[derive(Clone, Copy)]
pub struct ControlView(pub Row);

// The trader's reader: only if the amount is negative does it show anything, whatever next and the clamp are.
pub fn trader(row: Row) -> Option<TraderView>
    ensures { TraderPromise row result }
{
    if row.amount.is_negative() {
        Some(TraderView {
            n: row.n,
            direction: row.direction,
            applies: row.applies,
            amount: row.amount,
            previous: row.previous,
            current: row.current,
            next: row.next,
        })
    } else {
        None
    }
}

// The control reader.
pub fn control(row: Row) -> ControlView
    ensures { ControlPromise row result }
{
    ControlView(row)
}
