//! Collection of garbage: scans of the versions that are kept find the extents that are in use, and
//! what two scans did not find is freed (NSDI 2016, section 2.8).
//!
//! `Gc` has the scan that runs, if one does, the last two that finished, and what was freed.
//!
//! `scan_begin` notes the length of each backing file, its mark, and pins the number of installs and each pinned
//! number once more, so that what stands at these goes on to be seen until the scan is done. `scan_piece` does
//! some of its 64 parts: a part finds what the versions of its regions that are kept name, through the lists of
//! their bases too, and drops the versions that no one sees. A scan that is done undoes its pins. A fault of a
//! list leaves the scan as it was.
//!
//! Garbage of a server is what lies below the mark of the older of the last two scans, was found by neither of
//! them, and was not freed. `collect` frees just that, range by range, and answers how many bytes it is
//! (`frees`): where the stores tell, they are zeros then. It punches files of that server alone, changes no
//! length and syncs nothing (`lengths`, `syncs`). Where a punch fails, what was freed before it counts as freed
//! (`fault`).
//!
//! That no garbage is named by a version that is kept, by an open transaction or by a job is said in
//! `wtf_clients`, which knows these.
#![tactic(auto)]

mod extent;
mod extents;
mod garbage;
mod gather;
mod gc;
mod listing;
mod marks;
mod naming;
mod parts;
mod pinning;
mod punching;
mod spans;

pub use gc::Gc;
