//! Trials of the making of regions, as a table. Expected answers are worked out by hand from the rules.
#![tactic(auto)]

#[cfg(test)]
mod making;
