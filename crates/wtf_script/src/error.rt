//! Why no line is given, and why a line is no event.

ghost use Rattle.std.specs.Prelude.{◌≡◌};
ghost use Rattle.wtf_script.specs.declared.error.LineError.TheVariants as line_error;
ghost use Rattle.wtf_script.specs.declared.error.ReadError.TheVariants as read_error;

use std::alloc::{AllocError, AllocFailed};
use thiserror::Error;
use wtf_base::OutOfMemory;
use wtf_model::Kind;

/// Why the next line of a script could not be given.
#[derive(Clone, Copy, Debug, PartialEq, Eq, Error)]
pub enum ReadError {
    /// The source failed before the end of a line.
    #[error("the script could not be read")]
    Failed,
    /// The script has more than 1,073,741,824 bytes.
    #[error("the script has more than 1,073,741,824 bytes")]
    TooMuch,
    /// Memory could not be had.
    #[error("out of memory")]
    Memory,
}

/// Why a line gives no event.
#[derive(Clone, Copy, Debug, PartialEq, Eq, Error)]
pub enum LineError {
    /// The line has no form of the language, and this is the first thing that is wrong with it.
    #[error("a line of no form")]
    Bad(Kind),
    /// Memory could not be had.
    #[error("out of memory")]
    Memory,
}

impl From<OutOfMemory> for ReadError {
    ghost from_gives = { λ _ e. e ≡ read_error.Memory };

    fn from(_error: OutOfMemory) -> ReadError {
        ReadError::Memory
    }
}

impl From<Kind> for LineError {
    ghost from_gives = { λ kind e. e ≡ line_error.Bad kind };

    fn from(kind: Kind) -> LineError {
        LineError::Bad(kind)
    }
}

impl From<OutOfMemory> for LineError {
    ghost from_gives = { λ _ e. e ≡ line_error.Memory };

    fn from(_error: OutOfMemory) -> LineError {
        LineError::Memory
    }
}

impl From<AllocError> for LineError {
    ghost from_gives = { λ _ e. e ≡ line_error.Memory };

    fn from(_error: AllocError) -> LineError {
        LineError::Memory
    }
}

impl<T: Drop> From<AllocFailed<T>> for LineError {
    ghost from_gives = { λ _ e. e ≡ line_error.Memory };

    fn from(_error: AllocFailed<T>) -> LineError {
        LineError::Memory
    }
}
