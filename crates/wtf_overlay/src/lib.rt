//! Lists of entries that overlay one another, shared by the versions of a region: plans of what a range of
//! them holds, lists cut at an end, and compact lists.
//!
//! An entry is a part, a slice or zeros, at an offset of a region. Of two entries that cover a byte the later
//! one has it. That is the definition on which all here rests: the *origin* of byte x of a list is where that
//! byte lies in the last entry that covers x, its places, one for each copy, and none for a hole.
//!
//! `Overlay` is such a list; contracts see its entries, the earliest first. `push` lays one over it, and
//! `push_many` several. `plan` tells a range as consecutive pieces, each of one entry or of a hole, whose bytes
//! come from the same places (`origins`). `clip` drops all bytes from an end on, and `over` lays a list over what
//! is seen of another. `compact` gives a list of the same origins with slices alone, sorted and disjoint, of
//! which no two neighbours could be one; it names no byte that the list did not name. `of_compact` takes
//! entries exactly where they are compact and pass no end.
//!
//! So none of these moves a byte: each keeps origins, and says of which.
//!
//! A list is kept as sorted runs and a short tail, which lists share; that is seen nowhere. What bytes
//! origins have is `meaning` (`specs/Meaning`), given what the stores tell at each place.
#![tactic(auto)]

mod checking;
mod compacting;
mod cuts;
mod error;
mod finding;
pub mod laws;
mod layers;
mod laying;
mod makers;
mod overlay;
mod part;
mod planning;
mod stacks;
mod tails;

pub use error::NotCompact;
pub use overlay::Overlay;
pub use part::{Entry, Part, Piece};
