//! A border of a foreign make: a day of one period in which nothing flows, ever. It states nothing of its sheets and passes none.
ghost use Rattle.std.specs.Prelude.{false, List, [], ◌∷◌, pos};
ghost use Rattle.border_trials.specs.Shut.{closed};
ghost use Rattle.border_trials.specs.Closed.{closed_known};

use borders::{Border, BorderFault, Sheet};
use equations::Direction;

#[derive(Clone, Copy)]
pub struct Shut;

impl Border for Shut {
    ghost meaning = { λ _. closed };

    ghost known = { λ b. closed_known };

    fn periods(&self) -> i32 {
        1
    }

    fn flow(&self, _period: i32) -> i32 {
        0
    }

    fn margin(&self, _direction: Direction, _period: i32) -> i32 {
        0
    }

    fn passes(&self, _sheet: &Sheet, _period: i32) -> bool {
        false
    }

    fn admits(&self, schedule: &[i32]) -> bool {
        schedule.len() == 1 && schedule[0] == 0
    }

    fn take(&mut self, _period: i32, _m: i32) -> Result<(), BorderFault> {
        Err(BorderFault::Take(0))
    }

    fn adopt(&mut self, schedule: &[i32]) -> Result<(), BorderFault> {
        if self.admits(schedule) {
            Ok(())
        } else {
            Err(BorderFault::Adopt)
        }
    }

    fn reassess(&mut self, _sheet: &Sheet, _period: i32) -> Result<(), BorderFault> {
        Err(BorderFault::Reassess)
    }
}
