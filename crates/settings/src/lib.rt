// The settings of an opening (N2): document 01's numbers, and what is asked of any others.

#![tactic(auto)]

ghost use Rattle.std.specs.Prelude.{map, ◌≡◌};
ghost use Rattle.std.specs.List.{list_all};
ghost use Rattle.signed.specs.Range.{within};
ghost use Rattle.rules.specs.Settings.{documented_steps, documented_direction, document01};
ghost use Rattle.rules.specs.Refusal.{direction_ok, inside_spans, rising};
ghost use Rattle.settings.specs.Internal.{widened};

use rules::{DirectionSettings, Settings};
use units::{Cents, Hundredths, Quantity, Span};

// Document 01's threshold, -$100,000; its edges, -5000, -1000 and 1000 dollars; its offset, 20 MW.
const THRESHOLD: Cents = Cents(-10_000_000);

const EDGES: [Cents; 3] = [Cents(-500_000), Cents(-100_000), Cents(100_000)];

const OFFSET: Hundredths = Hundredths(2_000);

// The steps in hundredths of a MW (000, table 2): a row for each direction, in it an entry for each band of net. Each fits in 16 bits,
// and `widened` widens it (N5).
const STEPS: [[i16; 4]; 8] = [
    [-10_000, -5_000, 0, 3_000], // NSW1_QLD1
    [-10_000, -5_000, 0, 3_000], // QLD1_NSW1
    [-10_000, -5_000, 0, 3_000], // VIC1_NSW1
    [-10_000, -5_000, 0, 3_000], // NSW1_VIC1
    [-5_000, -3_000, 0, 3_000], // VIC1_SA1
    [-3_000, -2_500, 0, 2_500], // SA1_VIC1
    [-7_500, -4_000, 0, 3_000], // NSW1_SA1
    [-7_500, -4_000, 0, 3_000], // SA1_NSW1
];

// The span of each value (N2).
const THRESHOLD_SPAN: Span<Cents> = Span {
    low: Cents(-1_000_000_000),
    high: Cents(-1),
};

const EDGE_SPAN: Span<Cents> = Span {
    low: Cents(-100_000_000),
    high: Cents(100_000_000),
};

const STEP_SPAN: Span<Hundredths> = Span {
    low: Hundredths(-100_000),
    high: Hundredths(100_000),
};

const OFFSET_SPAN: Span<Hundredths> = Span {
    low: Hundredths(0),
    high: Hundredths(100_000),
};

// The whole table, so that one contract speaks of all 32 entries: widened, they are document 01's (N5).
fn steps() -> [[i16; 4]; 8]
    ensures { map (map widened) result ≡ documented_steps }
{
    STEPS
}

// An entry of the table as a step, widened on reading (N5).
fn widened(entry: i16) -> Hundredths
    ensures { result ≡ widened entry }
{
    Hundredths(i64::from(entry))
}

// A direction's four steps, with the offset.
fn direction_settings(row: [i16; 4]) -> DirectionSettings
    ensures { result ≡ documented_direction (map widened row) }
{
    DirectionSettings {
        steps: row.map(widened),
        offset: OFFSET,
    }
}

// Document 01's numbers.
pub fn document01() -> Settings
    ensures { result ≡ document01 }
{
    Settings {
        threshold: THRESHOLD,
        edges: EDGES,
        directions: steps().map(direction_settings),
    }
}

// Is each of the values inside the span?
fn all_inside<Q: Quantity, const N: usize>(span: Span<Q>, values: [Q; N]) -> bool
    ensures { result ≡ list_all (λ x. within (Q.whole span.low) (Q.whole span.high) (Q.whole x)) values }
{
    values.iter().all(|&x| span.contains(x))
}

// Are a direction's steps and its offset inside their spans?
#[tactic(auto, using(crate::proofs::EachOf::each_of))]
fn direction_inside(own: DirectionSettings) -> bool
    ensures { result ≡ direction_ok own }
{
    all_inside(STEP_SPAN, own.steps) && OFFSET_SPAN.contains(own.offset)
}

fn directions_inside(directions: [DirectionSettings; 8]) -> bool
    ensures { result ≡ list_all direction_ok directions }
{
    directions.iter().all(|&own| direction_inside(own))
}

// Is each of the 44 values inside its span?
#[tactic(auto, using(crate::proofs::EachOf::each_of), unfolding(rules::specs::Refusal::inside_spans))]
pub fn inside_spans(settings: Settings) -> bool
    ensures { result ≡ inside_spans settings }
{
    THRESHOLD_SPAN.contains(settings.threshold)
        && all_inside(EDGE_SPAN, settings.edges)
        && directions_inside(settings.directions)
}

// Do the edges rise strictly?
#[tactic(auto, unfolding(rules::specs::Refusal::each, rules::specs::Refusal::rising))]
pub fn rising(edges: [Cents; 3]) -> bool
    ensures { result ≡ rising edges }
{
    let [first, second, third] = edges;
    first < second && second < third
}
