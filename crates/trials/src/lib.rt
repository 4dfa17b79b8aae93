//! Trials of the crates at the edges of their ranges, as tables. Expected numbers are worked out by hand from the rules.
#![tactic(auto)]

#[cfg(test)]
mod deviation_files;
#[cfg(test)]
mod figures_at_edges;
#[cfg(test)]
mod lines_and_numbers;
