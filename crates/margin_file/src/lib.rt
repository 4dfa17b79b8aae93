//! The margin of a file of deviations, one a line, or the refusal of the file.
#![tactic(auto)]

mod enough;
mod fault;
mod line;
mod sample;

pub use enough::most_bytes;
pub use fault::{Refusal, SampleFault};
pub use line::answer;
pub use sample::{Sample, judge};
