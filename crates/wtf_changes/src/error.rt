//! Why changes were not made in an image.

ghost use Rattle.std.specs.Prelude.{◌≡◌};
ghost use Rattle.wtf_changes.specs.declared.error.ApplyError.TheVariants as error;

use std::alloc::{AllocError, AllocFailed};
use thiserror::Error;
use wtf_base::OutOfMemory;

/// Why changes were not made in an image. `Memory` may come in the place of the other answer.
#[derive(Clone, Copy, Debug, PartialEq, Eq, Error)]
pub enum ApplyError {
    /// The bytes are no changes, or give a region to a file that is not there.
    #[error("not changes of this image")]
    NotChanges,
    /// Memory could not be had.
    #[error("out of memory")]
    Memory,
}

impl From<OutOfMemory> for ApplyError {
    ghost from_gives = { λ _ e. e ≡ error.Memory };

    fn from(_error: OutOfMemory) -> ApplyError {
        ApplyError::Memory
    }
}

impl From<AllocError> for ApplyError {
    ghost from_gives = { λ _ e. e ≡ error.Memory };

    fn from(_error: AllocError) -> ApplyError {
        ApplyError::Memory
    }
}

impl<T: Drop> From<AllocFailed<T>> for ApplyError {
    ghost from_gives = { λ _ e. e ≡ error.Memory };

    fn from(_error: AllocFailed<T>) -> ApplyError {
        ApplyError::Memory
    }
}
