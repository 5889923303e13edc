//! Why entries are not taken for a compact list.

ghost use Rattle.std.specs.Prelude.{◌≡◌};
ghost use Rattle.wtf_overlay.specs.declared.error.NotCompact.TheVariants as cause;

use thiserror::Error;
use wtf_base::OutOfMemory;

/// Why entries are not taken for a compact list. `Memory` may come in the place of any other answer.
#[derive(Clone, Copy, Debug, PartialEq, Eq, Error)]
pub enum NotCompact {
    /// An entry holds zeros.
    #[error("an entry holds zeros")]
    Zeros,
    /// An entry begins before the end of the one before it.
    #[error("entries are out of order")]
    Order,
    /// Two neighbours could be one entry.
    #[error("two neighbours could be one entry")]
    Joins,
    /// An entry passes the end.
    #[error("an entry passes the end")]
    Past,
    /// Memory could not be had.
    #[error("out of memory")]
    Memory,
}

impl From<OutOfMemory> for NotCompact {
    ghost from_gives = { λ _ e. e ≡ cause.Memory };

    fn from(_error: OutOfMemory) -> NotCompact {
        NotCompact::Memory
    }
}
