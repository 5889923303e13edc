//! What all layers speak of: servers, pointers and slices, the settings of a store, and the faults that
//! reach a caller. No call here takes memory.
//!
//! A slice is one to three pointers to the same bytes, one a server, servers ascending. Each pointer has a
//! server, a backing file from 0 to 7, an offset and the slice's length, and ends below 2^63, so that no sum
//! of these wraps. All of that is a fact of the type: `Slice::of` takes pointers exactly where they are such,
//! and nothing else makes a slice. `cut` gives a part of one, and `join` two that lie together as one, exactly
//! where they do; neither asks a server.
//!
//! `Settings` are servers, replicas and the bytes of a region, and exist within their limits alone. An
//! `InodeId` is the number of the transaction that made a file, and that of the call in it which did.
//!
//! `Fault` is why a device failed a caller: `Read` and `Damaged` with the server, `Write`, `Punch` with the
//! server, and `Memory`, which comes only for want of memory. `OutOfMemory` is that alone. `Bytes` is a vector
//! of bytes that contracts see as the bytes.
#![tactic(auto)]

mod bytes;
mod fault;
mod ids;
mod kept;
mod memory;
mod pieces;
mod pointer;
mod settings;
mod slice;

pub use bytes::Bytes;
pub use fault::Fault;
pub use ids::{InodeId, ServerId, TxId};
pub use kept::Kept;
pub use memory::OutOfMemory;
pub use pointer::Pointer;
pub use settings::Settings;
pub use slice::Slice;
