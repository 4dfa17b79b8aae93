//! The way between two zones, kept in place.
ghost use Rattle.std.specs.Prelude.{ℕ, ◌≤◌};

use crate::tree::MOST_ZONES;
use equations::Direction;

mod steps;

/// The most borders that a way crosses.
pub const MOST_BORDERS: usize = MOST_ZONES - 1;

/// A border on a way, and the direction in which it is crossed.
#[derive(Clone, Copy, PartialEq, Eq, Debug)]
pub struct Step {
    pub border: usize,
    pub direction: Direction,
}

// What stands in the memory of a way where it has no step.
pub(crate) const FILLER: Step = Step {
    border: 0,
    direction: Direction::Forward,
};

/// The way between two zones: its steps in order from the seller, in the first places of a memory of its own.
#[derive(Clone, Copy)]
pub struct Way {
    pub(crate) steps: [Step; MOST_BORDERS],
    pub(crate) count: usize,
    ghost within: { count ≤ 15 },
}
