//! Trials of a region and its calls, as tables. Expected answers are worked out by hand from the rules.
#![tactic(auto)]

#[cfg(test)]
mod answers;
#[cfg(test)]
mod refusals;
#[cfg(test)]
mod setting;
