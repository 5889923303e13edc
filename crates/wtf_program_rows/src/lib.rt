//! Tests, from outside, of whole runs: rows of calls, jobs and scans, devices that fail, folders, images, what is collected.
#![tactic(auto)]

#[cfg(test)]
mod chance;
#[cfg(test)]
mod damage;
#[cfg(test)]
mod faults;
#[cfg(test)]
mod folders;
#[cfg(test)]
mod generated;
#[cfg(test)]
mod images;
#[cfg(test)]
mod named;
#[cfg(test)]
mod quiet;
#[cfg(test)]
mod remembered;
#[cfg(test)]
mod retries;
#[cfg(test)]
mod runs;
#[cfg(test)]
mod scattered;
#[cfg(test)]
mod spilled;
#[cfg(test)]
mod told;
#[cfg(test)]
mod versions;
