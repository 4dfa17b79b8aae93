//! The worked figures: one list, computed, and shown to follow from the written rules.
#![tactic(auto)]

ghost use Rattle.std.specs.Prelude.{◌≡◌, neg_ℤ};
ghost use Rattle.std.specs.Int.{int_min};
ghost use Rattle.equations.specs.Capacities.{net_capacity, cut_at_0};
ghost use Rattle.equations.specs.declared.capacity.Direction.TheVariants.{Forward};
ghost use Rattle.figures.specs.Worked.{GivenBy, rules, expected, expected_margins, expected_reserves, expected_settlements, expected_lines, expected_cable, expected_ramp, cable_sheet_lem, wide_sheet_lem, two_capacities_lem, full_source_lem};

use borders::{Border, Over, Ramp, Sheet};
use equations::{Direction, Formula, OneWay, Side, Source, cut, margin, reserve};
use kinds::{Cable, Given, Made, Sheeted};

// The margins of four lists of deviations.
fn margins() -> [i64; 4]
    ensures { result ≡ expected_margins }
{
    [
        i64::from(margin(&[10, 20, 30]).unwrap()),
        i64::from(margin(&[1, 2]).unwrap()),
        i64::from(margin(&[1, 1, 1, -1]).unwrap()),
        i64::from(margin(&[-5, -5]).unwrap()),
    ]
}

// A source that gives reserve in row 100 alone.
fn full_source(power: i32, coefficient: i32) -> Source
    ensures { result ≡ full_source_lem power coefficient }
{
    Source {
        power,
        row100: coefficient,
        row50: 0,
        row0: 0,
    }
}

// The reserves of two lists of sources.
fn reserves() -> [i64; 2]
    ensures { result ≡ expected_reserves }
{
    let both = [full_source(100, 62), full_source(250, 74)];
    let one = [full_source(101, 62)];
    [
        i64::from(reserve(&both, 350).unwrap()),
        i64::from(reserve(&one, 101).unwrap()),
    ]
}

// The side of a sheet with two capacities and nothing else.
fn two_capacities(first: i32, second: i32) -> Side
    ensures { result ≡ two_capacities_lem first second }
{
    Side {
        first,
        second,
        margin: 0,
        reserve: 0,
    }
}

// The net capacity of a settlement border.
fn settled(formula: Formula, first: i32, second: i32) -> i64
    ensures { result ≡ net_capacity formula Forward (two_capacities_lem first second) }
{
    let forward = OneWay {
        formula,
        direction: Direction::Forward,
        side: two_capacities(first, second),
    };
    cut(forward.uncut_ntc())
}

// The net capacities of a settlement border.
fn settlements() -> [i64; 4]
    ensures { result ≡ expected_settlements }
{
    let one = Formula::Settlement(1);
    let two = Formula::Settlement(2);
    [
        settled(two, 500, 500),
        settled(one, 500, 500),
        settled(two, 49, 500),
        settled(two, 50, 500),
    ]
}

// The net capacity of a line, and its available capacity at two power flows.
fn line_figures() -> [i64; 3]
    ensures { result ≡ expected_lines }
{
    let line = OneWay {
        formula: Formula::Line,
        direction: Direction::Forward,
        side: Side {
            first: 700,
            second: 1_000,
            margin: 60,
            reserve: 247,
        },
    };
    [
        cut(line.uncut_ntc()),
        line.atc(300, 350),
        line.atc(300, 200),
    ]
}

// A sheet for a cable.
fn cable_sheet(forward: i32, backward: i32) -> Sheet
    ensures { result ≡ cable_sheet_lem forward backward }
{
    Sheet {
        forward: two_capacities(forward, forward),
        backward: two_capacities(backward, backward),
        power_flow: 0,
        circuits: 0,
    }
}

// A sheet of 20,000 both ways for a given border.
fn wide_sheet() -> Sheet
    ensures { result ≡ wide_sheet_lem }
{
    Sheet {
        forward: two_capacities(20_000, 0),
        backward: two_capacities(20_000, 0),
        power_flow: 0,
        circuits: 0,
    }
}

// What may be traded at a margin: none where it is below 0.
fn tradable(margin: i32) -> i64
    ensures { result ≡ cut_at_0 margin }
{
    cut(i64::from(margin))
}

// How far a flow with these margins lies beyond its limits.
fn beyond(forward: i32, backward: i32) -> i64
    ensures { result ≡ cut_at_0 (neg_ℤ (int_min forward backward)) }
{
    cut(-i64::from(forward.min(backward)))
}

// The overrun of a cable after a sheet below its flow, and what may be traded over it forward and backward.
fn derated_cable() -> [i64; 3]
    ensures { result ≡ expected_cable }
{
    let mut border = Sheeted::<Cable>::make();
    border.reassess(&cable_sheet(500, 500), 1).unwrap();
    border.take(1, 400).unwrap();
    border.reassess(&cable_sheet(300, 500), 1).unwrap();
    let forward = border.margin(Direction::Forward, 1);
    let backward = border.margin(Direction::Backward, 1);
    [
        beyond(forward, backward),
        tradable(forward),
        tradable(backward),
    ]
}

// What may be traded over a ramp beside a period with a take.
fn beside_a_take() -> [i64; 2]
    ensures { result ≡ expected_ramp }
{
    let wide = wide_sheet();
    let mut below = Sheeted::<Given>::make();
    below.reassess(&wide, 4).unwrap();
    below.reassess(&wide, 5).unwrap();
    let mut border = Ramp::new(200, below).unwrap();
    border.take(5, 200).unwrap();
    [
        tradable(border.margin(Direction::Forward, 4)),
        tradable(border.margin(Direction::Backward, 4)),
    ]
}

/// The worked figures, in order.
pub fn worked() -> [i64; 18]
    ensures { GivenBy rules result × (result ≡ expected) }
{
    let [m1, m2, m3, m4] = margins();
    let [r1, r2] = reserves();
    let [s1, s2, s3, s4] = settlements();
    let [l1, l2, l3] = line_figures();
    let [c1, c2, c3] = derated_cable();
    let [b1, b2] = beside_a_take();
    [
        m1, m2, m3, m4, r1, r2, s1, s2, s3, s4, l1, l2, l3, c1, c2, c3, b1, b2,
    ]
}
