//! Attempts over a store of versions: what a transaction reads and changes on the map at its base, and
//! the install of its changes where no key that it depends on has moved since.
//!
//! An attempt is its base, the keys that it has recorded and its changes, in order. It sees the map at its
//! base with its own changes made over it, so the base has to be pinned in the store.
//!
//! Reading. `read` answers what the attempt sees of a key and records that key. `peek`, `look` and `summary`
//! answer the same, or what is told of it, and record nothing: what rests on them is the caller's to record.
//! What is known of a key with many changes is kept (`settle`), so that later looks cost no walk over them.
//!
//! Changing. `delta`, `deltas` and `cut_range` add changes, and read nothing. An attempt only grows, but for `rewind`,
//! which brings back a marked point of it exactly. Want of memory leaves it as it was in each of these.
//!
//! Installing. `install` finds the key in the way: the first recorded key that has a version above the base,
//! or else the key of the first delta that does not fit the newest map. Where there is none, the newest map
//! is at each recorded key what it was at the base, each change fits, and all changes are made under the next
//! number, over the newest map. Where there is one, it is told with its version at the base and now, which
//! lies above the base, and the store goes on showing the same, as it does for want of memory. Either way the
//! attempt, the pins and the maps at numbers up to the store's are what they were.
#![tactic(auto)]

mod attempt;
pub mod examples;
mod known;
mod runs;
mod tried;
mod values;
mod write_set;

pub use attempt::{Attempt, Mark};
pub use tried::Tried;
