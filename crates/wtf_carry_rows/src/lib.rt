//! Tests, from outside, of the lines that carry a file.
#![tactic(auto)]

#[cfg(test)]
mod carry;
