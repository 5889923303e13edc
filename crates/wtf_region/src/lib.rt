//! Bytes of ranges of files: as pieces of slices, laid over a file or added at its end, stored and
//! shown. A file's bytes stand in the values of its regions; what a call looks at of them is
//! recorded in its attempt.
//!
//! `Dev` is what a call is lent: the stores, which servers are down, the places of regions, what calls
//! remember, and the settings.
//!
//! Stored. `store_bytes` puts bytes on as many servers as there are replicas, at the place of their region.
//! That makes no change of a file yet: `put_pieces` lays pieces over it, and `add_at` and `add_pieces` add them
//! at its end, where they do not pass the greatest length. No byte is copied to keep a file right.
//!
//! Read. `pieces` tells a range as pieces, of slices and of zeros: their bytes come from the places from which
//! the file's do. `show` reads them: what a copy on a server that is up holds, and zeros for a hole. No other
//! slices are read.
//!
//! Lists. The list under a region's entries lies in a slice, and `base_list` reads it. At most 64 are
//! remembered, the last ones asked for, each as its slice decodes; one that is remembered needs no server.
//!
//! Faults tell what failed: `Read` the server of the last copy of a slice of which no copy could be read,
//! `Damaged` the server of which the bytes that were read are no list or one that names bytes outside the
//! stores, `Write` that too few servers took the bytes. Each leaves what the stores hold.
#![tactic(auto)]

mod added;
mod cache;
mod changing;
mod dev;
mod ends;
mod fetching;
mod list;
mod own;
mod part;
mod reading;
mod store;

pub use added::Added;
pub use cache::{RegionCache, RegionKey};
pub use changing::{add_at, add_pieces, put_pieces};
pub use dev::Dev;
pub use ends::{FileEnd, file_end};
pub use fetching::show;
pub use list::{base_list, region_list};
pub use reading::{file_len, pieces};
pub use store::store_bytes;
pub use wtf_meta::{Handle, Session};
