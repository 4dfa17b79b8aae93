//! Net and available capacities (NTC and ATC) of the four kinds of border, in one direction.
ghost use Rattle.std.specs.Prelude.{◌≡◌};
ghost use Rattle.equations.specs.Ranges.{Near, Small};
ghost use Rattle.equations.specs.Capacities.{counted, settled_capacity, circuit_cap, uncut_capacity, cut_at_0, net_capacity, line_available, available, limit_of};

/// A direction over a border: forward is from the parent zone to the border's own zone.
#[derive(Clone, Copy, PartialEq, Eq, Debug)]
pub enum Direction {
    Forward,
    Backward,
}

impl Direction {
    // A flow that is given forward, counted in this direction.
    fn counted(self, flow: i32) -> i64
        ensures value { result ≡ counted self flow }
        ensures near { Small result }
    {
        match self {
            Direction::Forward => i64::from(flow),
            Direction::Backward => -i64::from(flow),
        }
    }
}

/// The figures of a sheet for one direction, in MW.
#[derive(Clone, Copy, PartialEq, Eq, Debug)]
pub struct Side {
    pub first: i32,
    pub second: i32,
    pub margin: i32,
    pub reserve: i32,
}

/// How the kinds of border form their capacities.
#[derive(Clone, Copy, PartialEq, Eq, Debug)]
pub enum Formula {
    Cable,
    /// With the number of its circuits in operation.
    Settlement(i32),
    Line,
    Given,
}

// What a capacity counts for at a settlement border: below 50 MW nothing.
fn settled(capacity: i32) -> i32
    ensures { result ≡ settled_capacity capacity }
{
    if capacity < 50 { 0 } else { capacity }
}

// What a settlement border carries at most.
fn cap_of(direction: Direction, circuits: i32) -> i32
    ensures { result ≡ circuit_cap direction circuits }
{
    match direction {
        Direction::Forward => { if circuits == 2 { 488 } else { 485 } }
        Direction::Backward => 492,
    }
}

/// A capacity below 0 becomes 0.
pub fn cut(capacity: i64) -> i64
    ensures { result ≡ cut_at_0 capacity }
{
    capacity.max(0)
}

// What of a line's net capacity is left in a direction, with flow and power flow counted in it.
fn line_left(capacity: i64, margin: i64, flow: i64, power_flow: i64) -> i64
    requires { Small capacity × Small margin × Small flow × Small power_flow }
    ensures value { result ≡ line_available capacity margin flow power_flow }
    ensures near { Near 4000000000000 result }
{
    let left = capacity - power_flow;
    if flow > 0 {
        left.min(capacity - flow + margin)
    } else {
        left
    }
}

/// A border in one direction: the formula of its kind, the direction, and the sheet's figures for it.
#[derive(Clone, Copy, PartialEq, Eq, Debug)]
pub struct OneWay {
    pub formula: Formula,
    pub direction: Direction,
    pub side: Side,
}

impl OneWay {
    // The net capacity, not yet cut at 0, and how far from 0 it lies.
    fn form(&self) -> i64
        ensures value { result ≡ uncut_capacity self.now.formula self.now.direction self.now.side }
        ensures near { Small result }
    {
        let Side {
            first,
            second,
            margin,
            reserve,
        } = self.side;
        match self.formula {
            Formula::Cable => i64::from(first.min(second)),
            Formula::Settlement(circuits) => {
                let cap = cap_of(self.direction, circuits);
                i64::from(settled(first).min(settled(second)).min(cap))
            }
            Formula::Line => {
                let margin = i64::from(margin);
                (i64::from(first) + i64::from(reserve) - margin).min(i64::from(second) - margin)
            }
            Formula::Given => i64::from(first),
        }
    }

    /// The net capacity, not yet cut at 0: what lowers it later comes off before the cut.
    pub fn uncut_ntc(&self) -> i64
        ensures { result ≡ uncut_capacity self.now.formula self.now.direction self.now.side }
    {
        self.form()
    }

    // The net capacity, and how far from 0 it lies.
    fn net(&self) -> i64
        ensures value { result ≡ net_capacity self.now.formula self.now.direction self.now.side }
        ensures near { Small result }
    {
        cut(self.form())
    }

    // What of the net capacity is left, and how far from 0 it lies.
    fn left(&self, flow: i32, power_flow: i32) -> i64
        ensures value { result ≡ available self.now.formula self.now.direction self.now.side flow power_flow }
        ensures near { Near 4000000000000 result }
    {
        let capacity = self.net();
        let flow = self.direction.counted(flow);
        match self.formula {
            Formula::Line => line_left(
                capacity,
                i64::from(self.side.margin),
                flow,
                self.direction.counted(power_flow),
            ),
            Formula::Cable | Formula::Settlement(_) | Formula::Given => capacity - flow,
        }
    }

    /// The available capacity, at a flow and a power flow that are given forward. It may be below 0.
    pub fn atc(&self, flow: i32, power_flow: i32) -> i64
        ensures { result ≡ available self.now.formula self.now.direction self.now.side flow power_flow }
    {
        self.left(flow, power_flow)
    }

    /// The limit: the flow and, forward, its available capacity more, backward, its available capacity less.
    pub fn limit(&self, flow: i32, power_flow: i32) -> i64
        ensures { result ≡ limit_of self.now.formula self.now.direction self.now.side flow power_flow }
    {
        let available = self.left(flow, power_flow);
        match self.direction {
            Direction::Forward => i64::from(flow) + available,
            Direction::Backward => i64::from(flow) - available,
        }
    }
}
