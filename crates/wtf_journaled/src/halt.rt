//! Why a journaled run ends before the end of its script.

ghost use Rattle.std.specs.Prelude.{◌≡◌};
ghost use Rattle.wtf_journaled.specs.Breaks.{halt_status};

use wtf_serve::{
    OUT_OF_MEMORY, READING_FAILED, SAVING_FAILED, SCRIPT_TOO_LONG, Stop, WRITING_FAILED,
};

/// Why a journaled run ends before the end of its script.
#[derive(Clone, Copy, Debug)]
pub enum Halt {
    /// For a reason that any run may have.
    Stopped(Stop),
    /// The journal could not be written.
    Journal,
}

impl Halt {
    /// The status of a run that ends so.
    pub(crate) fn status(self) -> u8
        ensures { result ≡ halt_status self }
    {
        match self {
            Halt::Stopped(Stop::Unread) => READING_FAILED,
            Halt::Stopped(Stop::Unwritten) => WRITING_FAILED,
            Halt::Stopped(Stop::TooMuch) => SCRIPT_TOO_LONG,
            Halt::Stopped(Stop::Memory) => OUT_OF_MEMORY,
            Halt::Journal => SAVING_FAILED,
        }
    }
}
