//! Why a file is not carried to its end.

ghost use Rattle.std.specs.Prelude.{◌≡◌};
ghost use Rattle.wtf_carry.specs.declared.stop.Stop.TheVariants as stop;

use std::alloc::{AllocError, AllocFailed};
use thiserror::Error;
use wtf_base::OutOfMemory;

/// Why a file is not carried to its end. What was written by then is to be thrown away.
#[derive(Clone, Copy, Debug, PartialEq, Eq, Error)]
pub enum Stop {
    /// The source failed.
    #[error("reading failed")]
    Unread,
    /// The sink failed.
    #[error("writing failed")]
    Unwritten,
    /// There are more bytes than can be carried.
    #[error("too long")]
    TooLong,
    /// The answers are not those to the reads of a file of this length.
    #[error("wrong answers")]
    Wrong,
    /// Memory could not be had.
    #[error("out of memory")]
    Memory,
}

impl From<OutOfMemory> for Stop {
    ghost from_gives = { λ _ e. e ≡ stop.Memory };

    fn from(_error: OutOfMemory) -> Stop {
        Stop::Memory
    }
}

impl From<AllocError> for Stop {
    ghost from_gives = { λ _ e. e ≡ stop.Memory };

    fn from(_error: AllocError) -> Stop {
        Stop::Memory
    }
}

impl<T: Drop> From<AllocFailed<T>> for Stop {
    ghost from_gives = { λ _ e. e ≡ stop.Memory };

    fn from(_error: AllocFailed<T>) -> Stop {
        Stop::Memory
    }
}
