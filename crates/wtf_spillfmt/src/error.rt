//! Why bytes are not taken for a list.

ghost use Rattle.std.specs.Prelude.{◌≡◌};
ghost use Rattle.wtf_spillfmt.specs.declared.error.ListError.TheVariants as error;

use std::alloc::{AllocError, AllocFailed};
use thiserror::Error;
use wtf_base::OutOfMemory;

/// Why no list was read. `Memory` may come in the place of the other answer.
#[derive(Clone, Copy, Debug, PartialEq, Eq, Error)]
pub enum ListError {
    /// The bytes are no list of a region of that size.
    #[error("not a list of entries")]
    NotAList,
    /// Memory could not be had.
    #[error("out of memory")]
    Memory,
}

impl From<OutOfMemory> for ListError {
    ghost from_gives = { λ _ e. e ≡ error.Memory };

    fn from(_error: OutOfMemory) -> ListError {
        ListError::Memory
    }
}

impl From<AllocError> for ListError {
    ghost from_gives = { λ _ e. e ≡ error.Memory };

    fn from(_error: AllocError) -> ListError {
        ListError::Memory
    }
}

impl<T: Drop> From<AllocFailed<T>> for ListError {
    ghost from_gives = { λ _ e. e ≡ error.Memory };

    fn from(_error: AllocFailed<T>) -> ListError {
        ListError::Memory
    }
}
