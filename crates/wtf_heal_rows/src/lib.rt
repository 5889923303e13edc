//! Tests, from outside, of the healer.
#![tactic(auto)]

#[cfg(test)]
mod devices;
#[cfg(test)]
mod rows;
