//! The four kinds of border, as one make over a small trait.
#![tactic(auto)]

pub mod kind;
mod limits;
pub mod makes;
pub mod sheeted;

pub use kind::{Cable, Given, Kind, Line, Settlement};
pub use makes::Made;
pub use sheeted::Sheeted;
