//! Faults of a call over servers.

use crate::ServerId;
use thiserror::Error;

/// Why a call over servers gave no answer.
#[derive(Clone, Copy, Debug, PartialEq, Eq, Error)]
pub enum Fault {
    /// No copy of some bytes could be read; the server is that of their last pointer.
    #[error("no copy could be read, the last of them on server {}", .0.0)]
    Read(ServerId),
    /// Fewer servers than replicas took the bytes.
    #[error("too few servers took the bytes")]
    Write,
    /// A range could not be freed.
    #[error("server {} did not free a range", .0.0)]
    Punch(ServerId),
    /// A list that was read from this server is none.
    #[error("server {} gave a damaged list", .0.0)]
    Damaged(ServerId),
    /// Memory could not be had.
    #[error("out of memory")]
    Memory,
}
