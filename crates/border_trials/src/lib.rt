//! Trials of borders, with a make of border that is not ours.
#![tactic(auto)]

#[cfg(test)]
mod borders_at_edges;
pub mod shut;
