//! Tests, from outside, of whole runs with a journal.
#![tactic(auto)]

#[cfg(test)]
mod disks;
#[cfg(test)]
mod runs;
#[cfg(test)]
mod stops;
