//! Tests, from outside, of the machine that says which answers are lawful.
#![tactic(auto)]

#[cfg(test)]
mod asked;
#[cfg(test)]
mod refused;
#[cfg(test)]
mod runs;
