//! A region for one delivery day: its tree of zones, its borders, what it keeps of its zones, and the calls on it.
#![tactic(auto)]

mod kept;
pub mod region;
pub mod table;

pub use region::{Region, Unmade};
pub use table::ZoneTable;
