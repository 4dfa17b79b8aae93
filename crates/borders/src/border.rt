//! The interface of a border, its meaning and its laws.
ghost use Rattle.std.specs.Prelude.{◌≡◌, ℤ, pos, IsTrue, ◌↔◌, unsigned_abs};
ghost use Rattle.equations.specs.Ranges.{between};
ghost use Rattle.borders.specs.Border.{Meaning, days_length, flow_of, margin_in, direction_of, passing, Admitted};
ghost use Rattle.borders.specs.Laws.{Known};
ghost use Rattle.borders.specs.Answers.{MayTake, TakeAnswer, AdoptAnswer, ReassessAnswer};

use crate::{BorderFault, Sheet};
use equations::Direction;

// The direction in which a move goes, forward at 0.
fn direction_of(m: i32) -> Direction
    ensures { result ≡ direction_of m }
{
    if m < 0 {
        Direction::Backward
    } else {
        Direction::Forward
    }
}

// Whether a move, of 1 MW or more, is no larger than the margin that it meets.
fn fits(m: i32, margin: i32) -> bool
    ensures { result ≡ between (pos 1) (pos (unsigned_abs m)) margin }
{
    (1..=i64::from(margin)).contains(&i64::from(m.unsigned_abs()))
}

/// A border of some make. Every call is total: any period, any number, any length of a schedule.
pub trait Border {
    ghost meaning: { Self → Meaning };

    /// How many periods its day has.
    fn periods(&self) -> i32
        ensures { result ≡ pos (days_length (meaning self.now)) };

    /// The flow in a period, forward positive.
    fn flow(&self, period: i32) -> i32
        ensures { result ≡ flow_of (meaning self.now) period };

    /// How far the flow lies within the limit of a direction: forward below the upper, backward above the lower.
    fn margin(&self, direction: Direction, period: i32) -> i32
        ensures { result ≡ margin_in (meaning self.now) direction period };

    /// Whether a sheet for a period passes the test now.
    fn passes(&self, sheet: &Sheet, period: i32) -> bool
        ensures { result ≡ passing (meaning self.now) sheet.now period };

    /// Whether a schedule would be adopted.
    fn admits(&self, schedule: &[i32]) -> bool
        ensures { IsTrue result ↔ Admitted (meaning self.now) schedule.now };

    /// Whether m can be taken in a period, or the refusal that a take would meet.
    fn may_take(&self, period: i32, m: i32) -> Result<(), BorderFault>
        ensures { MayTake (meaning self.now) period m result }
    {
        let margin = self.margin(direction_of(m), period);
        if fits(m, margin) {
            Ok(())
        } else {
            Err(BorderFault::Take(margin))
        }
    }

    /// Moves the flow of one period by m.
    fn take(&mut self, period: i32, m: i32) -> Result<(), BorderFault>
        ensures { TakeAnswer (meaning self.old) period m result (meaning self.new) };

    /// Makes a schedule its own.
    fn adopt(&mut self, schedule: &[i32]) -> Result<(), BorderFault>
        ensures { AdoptAnswer (meaning self.old) schedule.now result (meaning self.new) };

    /// Takes over the limits of a sheet for one period.
    fn reassess(&mut self, sheet: &Sheet, period: i32) -> Result<(), BorderFault>
        ensures { ReassessAnswer (meaning self.old) sheet.now period result (meaning self.new) };

    // every make keeps the laws of a border
    ghost known: { (b : Self) → Known (meaning b) };
}
