//! The limits that a sheet gave to one period.
ghost use Rattle.std.specs.Prelude.{◌≡◌, ◌&&◌, pos, neg_ℤ};
ghost use Rattle.equations.specs.Ranges.{Near, between};
ghost use Rattle.borders.specs.Limits.{Limited};
ghost use Rattle.kinds.specs.Kinds.{within_of};

use equations::Direction;

/// Whether a number lies from a low one to a high one, both included.
pub(crate) fn lies(low: i32, x: i32, high: i32) -> bool
    ensures { result ≡ between low x high }
{
    (low..=high).contains(&x)
}

/// A lower and an upper limit.
#[derive(Clone, Copy)]
pub(crate) struct Limits {
    pub(crate) lower: i32,
    pub(crate) upper: i32,
    pub ghost limited: { Limited lower upper },
}

impl Limits {
    /// How far a flow lies within the limit of a direction.
    pub(crate) fn margin(&self, direction: Direction, flow: i32) -> i32
        requires { Near 30000 flow }
        ensures { result ≡ within_of self.now.lower self.now.upper direction flow }
    {
        match direction {
            Direction::Forward => self.upper - flow,
            Direction::Backward => flow - self.lower,
        }
    }

    /// Whether a flow lies within ±30,000 and within the limits.
    pub(crate) fn admit(&self, flow: i32) -> bool
        ensures { result ≡ (between (neg_ℤ (pos 30000)) flow (pos 30000) && between self.now.lower flow self.now.upper) }
    {
        lies(-30_000, flow, 30_000) && lies(self.lower, flow, self.upper)
    }
}
