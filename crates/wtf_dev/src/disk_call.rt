//! What a disk in memory notes of a call.

ghost use Rattle.std.specs.Prelude.{◌≡◌};
ghost use Rattle.wtf_dev.specs.DiskTape.{call_file};

/// A write that was done, a range that a failed write spoiled, or a sync that was done.
#[derive(Drop)]
pub enum DiskCall {
    Wrote { file: u8, at: usize, bytes: Vec<u8> },
    Spoiled { file: u8, at: usize, len: usize },
    Settled { file: u8 },
}

impl DiskCall {
    /// The file that it was on.
    pub(crate) fn file(&self) -> u8
        ensures { result ≡ call_file self.now }
    {
        match self {
            DiskCall::Wrote { file, .. } => return *file,
            DiskCall::Spoiled { file, .. } => return *file,
            DiskCall::Settled { file } => return *file,
        }
    }
}
