//! Tests, from outside, of servers and devices.
#![tactic(auto)]

#[cfg(test)]
mod dev;
#[cfg(test)]
mod disks;
#[cfg(test)]
mod noted;
#[cfg(test)]
mod real;
#[cfg(test)]
mod real_disk;
#[cfg(test)]
mod replica;
#[cfg(test)]
mod ring;
#[cfg(test)]
mod server;
#[cfg(test)]
mod stores;
#[cfg(test)]
mod summary;
