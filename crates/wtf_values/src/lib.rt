//! What the store holds of files and directories: its keys, their values, and the changes of one
//! value. A change is applied to whatever a key has: where it can do nothing, the value stays as it
//! is.
//!
//! A path's key has what stands there, a directory or the inode of a file; a directory's has its names; an
//! inode's has the number of the file's last region; and a region's has its bytes. Keys are in the order of
//! their kinds, and regions in that of their files and numbers, so those of a file are one range of keys.
//!
//! A region is where it ends, its entries in order, and the list that lies in a slice under them, if there is
//! one (`Spill`). No entry passes the end, and the list under them is seen up to the end at most. A byte below
//! the end that none of these has is 0.
//!
//! A change says what to do, and not what was seen: it is made of the value that the key has then. One kind
//! alone may not fit, pieces at the end of a region (`PushRel`), where they would pass the region's size.
//! `outcome_of` says of each change and each value what comes of it, and `Value`'s `apply` makes just that. A
//! run of entries is laid over a region at once, with the same outcome.
//!
//! A summary is what is told of a value without its parts: the number of a last region, or where a region
//! ends. The summary after a change follows from the one before, so how long a file is needs no list. Names
//! are a set that shares what copies of it have in common; pieces are kept with the number of their bytes.
#![tactic(auto)]

mod apply;
mod cell;
pub mod examples;
mod key;
mod name;
mod name_set;
mod name_tree;
mod pieces;
mod region;
mod store_key;
mod summary;
mod value;

pub use key::Key;
pub use name::Name;
pub use name_set::NameSet;
pub use pieces::Pieces;
pub use region::{RegionValue, Spill};
pub use summary::Summary;
pub use value::{Delta, Node, Value};
