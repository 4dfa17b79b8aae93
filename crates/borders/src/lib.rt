//! Borders: one interface with a meaning and laws, the ramp over any border, and the bank that holds borders of different makes.
#![tactic(auto)]

ghost use Rattle.std.specs.Prelude.{◌≡◌};
ghost use Rattle.borders.specs.Border.{side_of};

pub mod bank;
pub mod border;
pub mod ramp;

pub use bank::{Bank, BankFault, NoBorders, Pair};
pub use border::Border;
use equations::{Direction, Side};
pub use ramp::{Over, Ramp, RateRefused};

/// How many periods a delivery day has.
pub const PERIODS: usize = 24;

/// A sheet for one border and period: the figures of each direction, the power flow (forward positive) and the number of circuits.
#[derive(Clone, Copy, PartialEq, Eq, Debug)]
pub struct Sheet {
    pub forward: Side,
    pub backward: Side,
    pub power_flow: i32,
    pub circuits: i32,
}

impl Sheet {
    /// The figures of a direction.
    pub fn side(&self, direction: Direction) -> Side
        ensures { result ≡ side_of self.now direction }
    {
        match direction {
            Direction::Forward => self.forward,
            Direction::Backward => self.backward,
        }
    }
}

/// The call that a border refused; for a take with the margin that it met.
#[derive(Clone, Copy, PartialEq, Eq, Debug)]
pub enum BorderFault {
    Take(i32),
    Adopt,
    Reassess,
}
