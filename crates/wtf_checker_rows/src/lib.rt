//! Tests, from outside, of the check of an output.
#![tactic(auto)]

#[cfg(test)]
mod checks;
#[cfg(test)]
mod judged;
