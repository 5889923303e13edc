//! Why a call on a journal failed.

ghost use Rattle.std.specs.Prelude.{◌≡◌};
ghost use Rattle.wtf_journal.specs.declared.fault.JournalFault.TheVariants as fault;

use std::alloc::AllocError;
use thiserror::Error;
use wtf_base::OutOfMemory;
use wtf_dev::Failed;

/// Why a call on a journal failed.
#[derive(Clone, Copy, Debug, PartialEq, Eq, Error)]
pub enum JournalFault {
    /// The disk did not do what it was asked.
    #[error("the disk failed")]
    Failed,
    /// The open record at this offset is not in the format.
    #[error("no journal at {0}")]
    NotAJournal(u64),
    /// Memory could not be had.
    #[error("out of memory")]
    Memory,
}

impl From<Failed> for JournalFault {
    ghost from_gives = { λ _ e. e ≡ fault.Failed };

    fn from(_: Failed) -> Self {
        JournalFault::Failed
    }
}

impl From<AllocError> for JournalFault {
    ghost from_gives = { λ _ e. e ≡ fault.Memory };

    fn from(_: AllocError) -> Self {
        JournalFault::Memory
    }
}

impl From<OutOfMemory> for JournalFault {
    ghost from_gives = { λ _ e. e ≡ fault.Memory };

    fn from(_: OutOfMemory) -> Self {
        JournalFault::Memory
    }
}
