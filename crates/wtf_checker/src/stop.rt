//! The statuses of a check.

ghost use Rattle.std.specs.Prelude.{◌≡◌};
ghost use Rattle.wtf_checker.specs.Checked.{check_stop_status};
ghost use Rattle.wtf_checker.specs.declared.stop.Stop.TheVariants as stop;

use std::alloc::{AllocError, AllocFailed};
use wtf_base::OutOfMemory;

/// The output is lawful.
pub const LAWFUL: u8 = 0;

/// Some line of the output is refused.
pub const REFUSED: u8 = 1;

pub const SCRIPT_FAILED: u8 = 3;

pub const WRITING_FAILED: u8 = 4;

pub const OUTPUT_FAILED: u8 = 5;

pub const OUT_OF_MEMORY: u8 = 7;

/// The script or the output has more bytes than a script may have.
pub const TOO_LONG: u8 = 9;

/// Why a check ends without a verdict.
#[derive(Clone, Copy, Debug)]
pub enum Stop {
    /// The source of the script failed.
    Unread,
    /// The source of the output failed.
    Unanswered,
    /// The sink failed.
    Unwritten,
    /// The script or the output has more bytes than a script may have.
    TooMuch,
    Memory,
}

impl From<OutOfMemory> for Stop {
    ghost from_gives = { λ _ e. e ≡ stop.Memory };

    fn from(_error: OutOfMemory) -> Stop {
        Stop::Memory
    }
}

impl From<AllocError> for Stop {
    ghost from_gives = { λ _ e. e ≡ stop.Memory };

    fn from(_error: AllocError) -> Stop {
        Stop::Memory
    }
}

impl<T: Drop> From<AllocFailed<T>> for Stop {
    ghost from_gives = { λ _ e. e ≡ stop.Memory };

    fn from(_error: AllocFailed<T>) -> Stop {
        Stop::Memory
    }
}

impl Stop {
    /// The status of a check that ends so.
    pub(crate) fn status(self) -> u8
        ensures { result ≡ check_stop_status self }
    {
        match self {
            Stop::Unread => SCRIPT_FAILED,
            Stop::Unanswered => OUTPUT_FAILED,
            Stop::Unwritten => WRITING_FAILED,
            Stop::TooMuch => TOO_LONG,
            Stop::Memory => OUT_OF_MEMORY,
        }
    }
}
