//! The metadata of files as maps from keys to values: what a map stands for, what changes of files and
//! directories make of it, and what a call on it is, whatever others have changed meanwhile.
//!
//! Definitions, for the most part, on which the crates of calls rest; what runs here is `Session`, the
//! handles and slices that a transaction has in hand, by labels below 16.
//!
//! A map stands for a tree (`Stands`) by one relation for each kind of key: what stands at a path, the names
//! in a directory, and the bytes of each file as the stores tell them. A file's bytes are places, found by
//! its regions (`Files`), and a list that lies in a slice is what that slice decodes to (`Lists`).
//!
//! A call is told by what it did (`Did`): the keys that it recorded, its changes, the bytes and lists that it
//! read or stored, and the pieces that it stored itself. It is a call (`IsCall`) where four things hold:
//! its changes fit; all bytes that it names were named by the map, in hand, stored by itself or in a list
//! that it read (`Names`); on *every* map that agrees with the one that it saw on the recorded keys, that its
//! changes fit, and over stores that tell what it read, it is the definitions' call with that answer
//! (`DoneOnEach`); and there its keys belong to items which the definitions' call reads, its changes to
//! those which it writes (`Feet`). So a call is proved without a word on other transactions, and a replay or a
//! commit on a newer map is an instance. The same is said of all calls of a transaction (`IsRun`).
#![tactic(auto)]

pub mod examples;
mod kept;
mod session;

pub use kept::ByteAt;
pub use session::{Handle, Session};
pub use wtf_values::{Delta, Key, Name, NameSet, Node, Pieces, RegionValue, Spill, Summary, Value};
