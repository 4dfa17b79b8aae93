//! What the file formats share: the lines of a file, and numbers in their one written form.
#![tactic(auto)]

mod cut;
mod read;

pub use cut::{Lines, too_long};
pub use read::number;
