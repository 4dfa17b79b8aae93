//! The steps of a way.
ghost use Rattle.std.specs.Prelude.{◌≡◌, length};
ghost use Rattle.std.specs.List.{slice_get};
ghost use Rattle.zones.specs.Trees.{steps_of};

use super::{Step, Way};

impl Way {
    /// The steps in order from the seller.
    pub fn steps(&self) -> &[Step]
        ensures { result.now ≡ steps_of self.now }
    {
        &self.steps[..self.count]
    }

    /// How many borders are on the way.
    pub fn length(&self) -> usize
        ensures { result ≡ length (steps_of self.now) }
    {
        self.count
    }

    /// The step with a number from 0, in order from the seller; none past the last.
    pub fn step(&self, number: usize) -> Option<Step>
        ensures { result ≡ slice_get (steps_of self.now) number }
    {
        self.steps().get(number).copied()
    }
}
