//! Jobs beside the calls of clients: the list of a region is made compact, or written into a slice of its
//! own, and put in the region's place unless that has changed since. No byte of a file moves (NSDI 2016, section
//! 2.8).
//!
//! `plan` makes a job of a region as it stands now, and pins the number of installs. A compaction makes the
//! region's list compact: sorted and disjoint, with no two neighbours that could be one. A spill stores that list
//! once, as a slice at its region's place, which becomes the region's base. Either way each byte of the region has
//! the places that it had, and the job names what the region named, and its own slice (`planned`). A fault
//! leaves the store of versions as it was, and is one of the region's list or, for a spill, `Write`.
//!
//! `put` puts the value in the region's place exactly where neither the path nor the region has a version newer
//! than the job's base; else the job is stale, and nothing is installed (`IsJobPut`). A put is one install, behind
//! which the map stands for the tree for which it stood (`stands`). It reads and stores nothing. Either way the
//! job ends and its pin is undone. Want of memory gives the job back, and leaves what the store shows.
//!
//! `drop_job` ends a job, undoes its pin, and takes no memory.
#![tactic(auto)]

mod job;
mod planning;
mod putting;
mod spilling;
mod target;

pub use job::{Job, drop_job};
pub use planning::plan;
pub use putting::{PutFault, put};
pub use target::Target;
