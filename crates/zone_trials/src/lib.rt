//! Trials of zones, ways and logs, as tables. Expected ways come from a walk over the edges by hand, not from the crates.
#![tactic(auto)]

#[cfg(test)]
mod log_edges;
#[cfg(test)]
mod ways;
