//! Tests, from outside, of scans and collections.
#![tactic(auto)]

#[cfg(test)]
mod scans;
