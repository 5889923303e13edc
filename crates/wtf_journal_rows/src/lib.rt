//! Tests, from outside, of a store and a journal over a disk.
#![tactic(auto)]

#[cfg(test)]
mod disks;
#[cfg(test)]
mod journal;
#[cfg(test)]
mod keeper;
#[cfg(test)]
mod opening;
#[cfg(test)]
mod synced;
