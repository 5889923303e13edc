//! The calls on slices, and those that make a file of others, on an attempt: each answers as the
//! definitions' call on the tree for which the map stands that the attempt sees, records the keys
//! that its answer rests on, and makes its changes. None of them stores a byte: what they keep, lay
//! and join are pointers to slices (NSDI 2016, section 2.5).
//!
//! `call` is all of them: `SliceOp` says which, with its arguments in the order of the script's line. A slice
//! in hand is its pieces, under a label; it goes on to have its bytes whatever becomes of the file that they
//! were taken from.
//!
//! The contract of each is one record (`call`: `SlicingOf`). Where it answers: the attempt grew by the call's
//! own keys and changes and what is in hand is what its definition says, exactly; on every map that agrees
//! on those keys it is the definitions' call; and the lists that it asked for are remembered.
//!
//! `peek` alone reads bytes, and only those that it shows. `yank` and `concat` read the lists of bases under
//! the bytes that they take. The new file of a copy or of a join is of the inode `new`, that of its
//! transaction's next call. A fault (`Read`, `Damaged`) leaves attempt and slices as they were (`err`), and has
//! its cause in this call. What is named behind the call lies inside the stores (`inside`).
#![tactic(auto)]

mod calls;
mod concats;
mod copies;
mod cutting;
mod laying;
mod op;
mod sources;
mod whole;
mod yanks;

pub use calls::call;
pub use op::SliceOp;
