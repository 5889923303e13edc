//! Why a line is no answer.

ghost use Rattle.std.specs.Prelude.{◌≡◌};
ghost use Rattle.wtf_print.specs.declared.error.TextError.TheVariants as text_error;

use std::alloc::{AllocError, AllocFailed};
use thiserror::Error;
use wtf_base::OutOfMemory;

/// Why a line gives no answer.
#[derive(Clone, Copy, Debug, PartialEq, Eq, Error)]
pub enum TextError {
    /// The line is the text of no answer.
    #[error("the line is the text of no answer")]
    NotAnAnswer,
    /// Memory could not be had.
    #[error("out of memory")]
    Memory,
}

impl From<OutOfMemory> for TextError {
    ghost from_gives = { λ _ e. e ≡ text_error.Memory };

    fn from(_error: OutOfMemory) -> TextError {
        TextError::Memory
    }
}

impl From<AllocError> for TextError {
    ghost from_gives = { λ _ e. e ≡ text_error.Memory };

    fn from(_error: AllocError) -> TextError {
        TextError::Memory
    }
}

impl<T: Drop> From<AllocFailed<T>> for TextError {
    ghost from_gives = { λ _ e. e ≡ text_error.Memory };

    fn from(_error: AllocFailed<T>) -> TextError {
        TextError::Memory
    }
}
