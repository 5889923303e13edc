//! Lists that versions share. A list is kept in chunks: the full ones are sealed and shared by reference,
//! the last one is open and belongs to its holder alone.
//!
//! Contracts see a list of items, and no chunk. `push` and `extend` put items at its end; after an error the
//! list is as before. `get` gives an item by its place, and `len` how many there are.
//!
//! `share` gives the same list to a second holder, and what one holder pushes is nothing to the other: sealed
//! chunks never change, and the open one is copied. So a share costs a step for each sealed chunk, of which
//! there are about log n, and not a copy of the items.
//!
//! `is_same` says whether two lists are sure to be the same: shared chunks are, and others are looked at item by
//! item. A `false` says nothing.
//!
//! How many chunks there are and how large is not seen, and is no part of any contract.
#![tactic(auto)]

mod chunks;

pub use chunks::{CHUNK, Chunks};
