//! Why a call was not logged.

use thiserror::Error;

/// Why a log did not take a call. The log is as before.
#[derive(Clone, Copy, Debug, PartialEq, Eq, Error)]
pub enum LogError {
    /// The log holds as many calls as it may.
    #[error("the log is full")]
    Full,
    /// Memory could not be had.
    #[error("out of memory")]
    Memory,
}
