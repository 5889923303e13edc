//! Slices on several servers. A slice is stored on as many servers as there are replicas, the first ones of
//! its place that are up and do not fail, and it is read from any of them (NSDI 2016, section 2: several
//! pointers, on different servers, in one entry). No call takes memory.
//!
//! `Replicas` are the settings and which servers are down (`down`, `up`). A server is *out* in a call where it
//! is down, or where its count of faults rose in it; nothing is done to one that is down (`down`).
//!
//! `create` stores bytes once on each of the first servers of a place that are not out, as many as there are
//! replicas, or answers `Write` where there are fewer. What it stored lies inside the stores, and goes on to
//! hold its bytes until something of it is freed. `fetch` reads from the first copy, in ascending order of
//! servers, that is not out, and asks none behind it; `Read` names the last of the copies, where all are out.
//! `free` makes a range of one server zeros, or answers `Punch`. `sync_all` and `sync_up` bring stores to
//! where they last.
//!
//! A *span* is which servers are down, with the stores before a call and after it; all faults are said of one,
//! and so is what a call leaves: only what it must ask is asked, lengths and syncs stay but where bytes are
//! stored or synced. Laws as functions that do nothing stand in `examples`.
#![tactic(auto)]

mod create;
pub mod examples;
mod fetch;
mod free;
mod inside;
mod replicas;
mod sync;

pub use inside::{lies_inside, slice_lies_inside};
pub use replicas::Replicas;
