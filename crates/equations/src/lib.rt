//! The figures that everything above rests on: margin, reserve, and the capacities of a border. Numbers only.
#![tactic(auto)]

pub mod capacity;
pub mod deviations;
pub mod fault;
pub mod sources;

pub use capacity::{Direction, Formula, OneWay, Side, cut};
pub use deviations::{Sums, margin};
pub use fault::{FigureFault, Told};
pub use sources::{Source, reserve};
