//! The calls of a transaction.

use crate::Paths;
use wtf_path::Path;

/// Where a seek leads, in bytes.
#[derive(Clone, Copy, Debug, PartialEq, Eq)]
pub enum Seek {
    /// To this offset.
    Set(u64),
    /// So many bytes on.
    Fwd(u64),
    /// So many bytes back.
    Back(u64),
    /// To the end of the file.
    End,
}

/// What a job makes of a region's list.
#[derive(Clone, Copy, Debug, PartialEq, Eq)]
pub enum JobKind {
    /// A shorter list of the same bytes.
    Compact,
    /// A list that is stored as a slice.
    Spill,
}

/// A call of a transaction, with its arguments in the order of the script's line. `D` is what written data is.
/// Labels are numbers from 0 to 15, offsets and lengths are in bytes.
#[derive(Debug, Drop, PartialEq)]
pub enum Op<D> {
    Mkdir(Path),
    Rmdir(Path),
    Create(Path),
    Unlink(Path),
    Rename(Path, Path),
    Link(Path, Path),
    List(Path),
    Stat(Path),
    Open(u8, Path),
    Close(u8),
    Seek(u8, Seek),
    Tell(u8),
    Read(u8, u64),
    Write(u8, D),
    Append(u8, D),
    Truncate(u8, u64),
    Punch(u8, u64),
    Yank(u8, u64, u8),
    Peek {
        from: u8,
        off: u64,
        len: u64,
    },
    Cut {
        from: u8,
        off: u64,
        len: u64,
        to: u8,
    },
    Paste(u8, u8),
    Glue(u8, u8),
    Concat(Path, Paths),
    Copy(Path, Path),
}
