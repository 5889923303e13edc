//! The calls on names, on an attempt: each answers as the definitions' call on the tree for which the map
//! stands that the attempt sees, records the keys that its answer rests on, and makes its changes.
//!
//! `create`, `link`, `unlink`, `mkdir`, `rmdir`, `list` and `rename` are the calls of scripts. `look_up`, `links_at`,
//! `source`, `target` and `make_file` are what other calls need of names.
//!
//! The rule is locality (`step`: `IsNameStep`). On every map that agrees with the one that the attempt sees on
//! the keys that were recorded, and that the changes fit, the call is the definitions' call with this answer,
//! whatever others have changed. So each key that is looked at is recorded, and no other one.
//!
//! `went` says which keys those are and which changes are made, each exactly, for every way through a call.
//! The refusals of a call are tried in the order of the definitions; a call that is refused changes nothing.
//! An answer is one that a log keeps (`logged`). A new file's inode is that of its transaction's next call, so
//! that no other transaction has it.
//!
//! These calls read no byte and no list of a base, store none, and leave handles and slices. Want of memory may
//! leave the attempt grown by some of the keys and changes (`grows`); who calls takes it back to a mark.
#![tactic(auto)]

mod checks;
mod edits;
mod files;
mod folders;
mod links;
mod looks;
mod moves;

pub use checks::{source, target};
pub use edits::make_file;
pub use files::{create, unlink};
pub use folders::{list, mkdir, rmdir};
pub use links::link;
pub use looks::{links_at, look_up};
pub use moves::rename;
