//! Tests, from outside, of files and transactions.
#![tactic(auto)]

#[cfg(test)]
mod bench;
#[cfg(test)]
mod index;
#[cfg(test)]
mod ops;
#[cfg(test)]
mod region;
#[cfg(test)]
mod replay;
#[cfg(test)]
mod rw;
#[cfg(test)]
mod slicing;
#[cfg(test)]
mod spilled;
#[cfg(test)]
mod steps;
#[cfg(test)]
mod store;
#[cfg(test)]
mod texts;
