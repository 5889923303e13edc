//! The calls on the bytes of files and on handles, on an attempt: each answers as the definitions'
//! call on the tree for which the map stands that the attempt sees, records the keys that its
//! answer rests on, and makes its changes.
//!
//! `call` is all of them: `RwOp` says which, with its arguments in the order of the script's line. What it
//! writes is bytes that are to be stored, or the slice of a log in which they were stored before (`Given`); its
//! answer comes with the slice that it stored, so that a replay stores nothing.
//!
//! The contract of each is one record (`call`: `RwOf`). Where it answers: the attempt grew by the call's own
//! keys and changes and what is in hand is what its definition says, exactly; on every map that agrees on
//! those keys, over stores that tell what was read and stored, it is the definitions' call; and the lists
//! that it asked for are remembered. So a write at an offset records no key, an append the number of the
//! file's last region alone where its bytes fit there, and a read what tells the length, and the regions in
//! which its bytes lie.
//!
//! Bytes are stored first and the file is changed after that. A fault (`Write`, `Read`, `Damaged`) leaves
//! attempt and handles as they were (`err`), and has its cause in this call. No server that is down is
//! touched, none is synced, and no file grows but the one to which bytes that it is to store go. Where what is
//! in hand lies inside the stores, what is named behind the call does (`inside`).
#![tactic(auto)]

mod appends;
mod calls;
mod handles;
mod op;
mod reads;
mod seeks;
mod sizes;
mod writes;

pub use calls::call;
pub use op::{Done, Given, RwOp};
pub use wtf_steps::{Spot, handle_of};
