//! The zones of a region as a tree: what lies behind a border, the way between two zones, and the net position that flows leave a zone.
#![tactic(auto)]

pub mod tree;
pub mod way;

pub use tree::{MOST_ZONES, Tree, TreeFault};
pub use way::{Step, Way};
