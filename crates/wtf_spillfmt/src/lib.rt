//! Spilled lists: a compact list as bytes, which stand in a slice of their own, and the list that bytes
//! are of. The codec of entries, slices and pointers is here too, for all that is written with them.
//!
//! `encode` gives the bytes of a compact list, and `decode` the list whose bytes these are, for a region of so
//! many bytes: it takes them exactly where they are those of a compact list that passes no end (`NotAList`
//! else), or answers `Memory`. No memory is set aside for a count that bytes only claim.
//!
//! Four laws are functions that do nothing (`laws`): what was encoded is decoded; what was decoded is encoded
//! to the same bytes, is compact and lies inside the region; a list has some bytes; and no list's bytes are a
//! proper front of another's.
//!
//! The parts have the same two ways: `put_u32`, `put_slice`, `put_entry`, `put_entries` append the text of a
//! number, a slice, an entry, entries, by the definitions of `specs/Texts` of `wtf_overlay` (`Writes`); `u8_at`,
//! `u32_at`, `u64_at`, `slice_of`, `entry_of`, `entries_of` read one at the front of bytes, with what is left
//! (`Parses`). Images and changes are written with them.
#![tactic(auto)]

mod decoding;
mod encoding;
mod entries;
mod error;
pub mod laws;
mod numbers;
mod writer;

pub use decoding::decode;
pub use encoding::{encode, put_entries};
pub use entries::{entries_of, entry_of, slice_of};
pub use error::ListError;
pub use numbers::{u8_at, u32_at, u64_at};
pub use writer::{put_entry, put_slice, put_u32};
