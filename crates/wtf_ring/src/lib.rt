//! Where slices go. A ring has 16 points for each server; a region of a file has a position on it, and its
//! slices go to the servers in the order in which they are met from there on (consistent hashing; NSDI 2016,
//! section 2).
//!
//! `Ring::new` makes the ring of so many servers, which follows from their number alone (`IsRing`). `order`
//! gives the place of the slices of a region of a file: all servers in their order, each once (`IsOrder`), and
//! the backing file, 0 to 7, as `place_of` says. It takes no memory, and looks at nothing but the file's inode
//! and the region's number. So every run puts the slices of a region to the same servers, as long as they are
//! up; docs/FORMATS.md has the rule with its hashes.
//!
//! That slices are spread evenly over servers is the reason for all this, and is not proved. The digest is
//! that of the `sha2` crate.
#![tactic(auto)]

mod digest;
mod meet;
mod place;
mod point;
mod ring;

pub use place::Place;
pub use ring::Ring;
