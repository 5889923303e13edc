//! Why a text is no path.

use thiserror::Error;

/// Why a text is no path, in the order in which it is tried: of two that hold the earlier is told.
#[derive(Clone, Copy, Debug, PartialEq, Eq, Error)]
pub enum PathError {
    /// The text has no byte.
    #[error("the path is empty")]
    Empty,
    /// The first byte is not `/`.
    #[error("the path does not begin with a slash")]
    NotAbsolute,
    /// A byte is not one of `!` to `~`.
    #[error("a byte of the path is not one of `!` to `~`")]
    BadByte,
    /// The text has more than 1,023 bytes.
    #[error("the path has more than 1,023 bytes")]
    TooLong,
    /// The text has more than 32 names, empty ones counted.
    #[error("the path has more than 32 names")]
    TooDeep,
    /// A name is empty, `.` or `..`.
    #[error("a name of the path is empty, `.` or `..`")]
    DotName,
    /// Memory could not be had; the text is a path.
    #[error("out of memory")]
    Memory,
}
