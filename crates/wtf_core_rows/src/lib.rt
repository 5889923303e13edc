//! Tests, from outside, of a core.
#![tactic(auto)]

#[cfg(test)]
mod cores;
