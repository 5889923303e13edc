//! Why a device could not be opened.

use std::io;
use thiserror::Error;

/// Why a device could not be opened. Nothing that stood there is changed.
#[derive(Clone, Copy, Debug, PartialEq, Eq, Error)]
pub enum OpenFault {
    /// The system did not open it.
    #[error("a device could not be opened")]
    Failed,
    /// Memory could not be had.
    #[error("out of memory")]
    Memory,
}

impl From<io::Error> for OpenFault {
    fn from(e: io::Error) -> OpenFault {
        if e.kind() == io::ErrorKind::OutOfMemory {
            OpenFault::Memory
        } else {
            OpenFault::Failed
        }
    }
}
