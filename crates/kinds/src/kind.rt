//! What a kind makes of a sheet.
ghost use Rattle.std.specs.Prelude.{◌≡◌, Bool, true, ◌&&◌, ℤ, pos, neg_ℤ, int_le};
ghost use Rattle.equations.specs.Capacities.{limit_of};
ghost use Rattle.equations.specs.Ranges.{Near, between};
ghost use Rattle.borders.specs.declared.Sheet.{Sheet as Figures};
ghost use Rattle.borders.specs.Border.{side_of};
ghost use Rattle.borders.specs.Limits.{Limited};
ghost use Rattle.kinds.specs.Kinds.{none, limit_toward, side_within, plain_upper, plain_lower, cable_test, cable_formula, settlement_test, settlement_formula, given_test, given_formula, line_ranges, line_test, line_upper, line_lower};
ghost use Rattle.kinds.specs.Passed.{cable_limited, settlement_limited, given_limited, line_limited};

use crate::limits::lies;
use borders::Sheet;
use equations::{Direction, Formula, OneWay, Side};

/// A kind of border: which sheets pass its test, and the limits that a sheet gives, with the flow at its acceptance.
pub trait Kind {
    ghost test: { Figures → ℤ → Bool };

    ghost highest: { Figures → ℤ → ℤ };

    ghost lowest: { Figures → ℤ → ℤ };

    fn accepts(&self, sheet: &Sheet, flow: i32) -> bool
        ensures { result ≡ test sheet.now flow };

    /// The limit that a sheet gives: the upper one forward, the lower one backward.
    fn limit(&self, direction: Direction, sheet: &Sheet, flow: i32) -> i64
        ensures { result ≡ limit_toward lowest highest direction sheet.now flow };

    // the limits of a sheet that passes lie within bounds
    ghost bounded: { (t : Figures) (a : ℤ) → Near 30000 a → test t a ≡ true → Limited (lowest t a) (highest t a) };
}

// The limit that a formula gives: the flow with what the formula leaves available that way.
fn limit_by(formula: Formula, direction: Direction, sheet: &Sheet, flow: i32) -> i64
    ensures { result ≡ limit_of formula direction (side_of sheet.now direction) flow sheet.now.power_flow }
{
    OneWay {
        formula,
        direction,
        side: sheet.side(direction),
    }
    .limit(flow, sheet.power_flow)
}

// The most of each figure of a side, 0 where a kind does not use it.
const FIRST: Side = Side {
    first: 20_000,
    second: 0,
    margin: 0,
    reserve: 0,
};

const FIRST_AND_SECOND: Side = Side {
    second: 20_000,
    ..FIRST
};

const ALL: Side = Side {
    margin: 2_000,
    reserve: 20_000,
    ..FIRST_AND_SECOND
};

// Whether margin and reserve of a side are 0 to their most.
fn rest_fits(side: &Side, most: &Side) -> bool
    ensures { result ≡ (between (pos 0) side.now.margin most.now.margin && between (pos 0) side.now.reserve most.now.reserve) }
{
    lies(0, side.margin, most.margin) && lies(0, side.reserve, most.reserve)
}

// Whether each figure of a side is 0 to its most.
fn side_fits(side: &Side, most: &Side) -> bool
    ensures { result ≡ side_within most.now side.now }
{
    lies(0, side.first, most.first) && lies(0, side.second, most.second) && rest_fits(side, most)
}

// Whether each figure of both sides is 0 to its most.
fn sides_fit(sheet: &Sheet, most: &Side) -> bool
    ensures { result ≡ (side_within most.now sheet.now.forward && side_within most.now sheet.now.backward) }
{
    side_fits(&sheet.forward, most) && side_fits(&sheet.backward, most)
}

// Whether what a kind does not use is 0.
fn unused(x: i32) -> bool
    ensures { result ≡ none x }
{
    x == 0
}

#[derive(Clone, Copy, Default)]
pub struct Cable;

impl Kind for Cable {
    ghost test = { cable_test };

    ghost highest = { plain_upper cable_formula };

    ghost lowest = { plain_lower cable_formula };

    ghost bounded = { λ t a near pass. cable_limited t a pass };

    fn accepts(&self, sheet: &Sheet, _flow: i32) -> bool {
        sides_fit(sheet, &FIRST_AND_SECOND) && unused(sheet.power_flow) && unused(sheet.circuits)
    }

    fn limit(&self, direction: Direction, sheet: &Sheet, flow: i32) -> i64 {
        limit_by(Formula::Cable, direction, sheet, flow)
    }
}

#[derive(Clone, Copy, Default)]
pub struct Settlement;

impl Kind for Settlement {
    ghost test = { settlement_test };

    ghost highest = { plain_upper settlement_formula };

    ghost lowest = { plain_lower settlement_formula };

    ghost bounded = { λ t a near pass. settlement_limited t a };

    fn accepts(&self, sheet: &Sheet, _flow: i32) -> bool {
        sides_fit(sheet, &FIRST_AND_SECOND)
            && unused(sheet.power_flow)
            && lies(1, sheet.circuits, 2)
    }

    fn limit(&self, direction: Direction, sheet: &Sheet, flow: i32) -> i64 {
        limit_by(Formula::Settlement(sheet.circuits), direction, sheet, flow)
    }
}

#[derive(Clone, Copy, Default)]
pub struct Given;

impl Kind for Given {
    ghost test = { given_test };

    ghost highest = { plain_upper given_formula };

    ghost lowest = { plain_lower given_formula };

    ghost bounded = { λ t a near pass. given_limited t a pass };

    fn accepts(&self, sheet: &Sheet, _flow: i32) -> bool {
        sides_fit(sheet, &FIRST) && unused(sheet.power_flow) && unused(sheet.circuits)
    }

    fn limit(&self, direction: Direction, sheet: &Sheet, flow: i32) -> i64 {
        limit_by(Formula::Given, direction, sheet, flow)
    }
}

#[derive(Clone, Copy, Default)]
pub struct Line;

// The ranges of a line's sheet.
fn line_in_ranges(sheet: &Sheet) -> bool
    ensures { result ≡ line_ranges sheet.now }
{
    sides_fit(sheet, &ALL) && lies(-20_000, sheet.power_flow, 20_000) && unused(sheet.circuits)
}

// Whether the limits of a line's sheet are not above 30,000 and not below −30,000.
fn limits_fit(lower: i64, upper: i64) -> bool
    ensures { result ≡ (int_le upper (pos 30000) && int_le (neg_ℤ (pos 30000)) lower) }
{
    upper <= 30_000 && -30_000 <= lower
}

impl Kind for Line {
    ghost test = { line_test };

    ghost highest = { line_upper };

    ghost lowest = { line_lower };

    ghost bounded = { λ t a near pass. line_limited t a near pass };

    fn accepts(&self, sheet: &Sheet, flow: i32) -> bool {
        let upper = self.limit(Direction::Forward, sheet, flow);
        let lower = self.limit(Direction::Backward, sheet, flow);
        line_in_ranges(sheet) && limits_fit(lower, upper)
    }

    fn limit(&self, direction: Direction, sheet: &Sheet, flow: i32) -> i64 {
        limit_by(Formula::Line, direction, sheet, flow)
    }
}
