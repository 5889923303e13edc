//! The answers to a script's lines.

use crate::{Holder, Names, Rows};
use wtf_base::Bytes;

/// Why a line was refused.
#[derive(Clone, Copy, Debug, PartialEq, Eq)]
pub enum Word {
    /// The target path is there.
    Exists,
    /// The target's parent is missing, or a file.
    NoParent,
    /// The path is not there.
    NoEnt,
    /// A directory was needed, and the path is a file.
    NotDir,
    /// The root cannot be taken out.
    Root,
    /// The directory has entries.
    NotEmpty,
    /// A file was needed, and the path is a directory.
    IsDir,
    /// The transaction has a handle on the path.
    Busy,
    /// The handle label is taken.
    InUse,
    /// The handle label is not open.
    NoHandle,
    /// A seek outside 0 to the greatest length of a file, or a part outside a slice.
    Range,
    /// The file would pass its greatest length.
    TooBig,
    /// The slice label was never set.
    NoSlice,
    /// The transaction is being replayed.
    Replaying,
    /// The log of the transaction is full.
    Full,
    /// The client has a transaction.
    InTx,
    /// The client has no transaction.
    NoTx,
    /// There is no job of that label.
    NoJob,
    /// There is a job of that label.
    JobInUse,
    /// The file has no such region.
    NoRegion,
    /// There is no such server.
    NoServer,
    /// A scan is running.
    ScanBusy,
    /// No scan is running, or fewer than two have finished.
    NoScan,
    /// The transaction is not being replayed.
    Live,
    /// The file is too long to be shown.
    Long,
}

/// What is wrong with a line.
#[derive(Clone, Copy, Debug, PartialEq, Eq)]
pub enum Kind {
    Long,
    Empty,
    Byte,
    Space,
    Actor,
    Verb,
    Count,
    Handle,
    Slice,
    Job,
    Number,
    Limit,
    /// A path, with the number of its refusal, 1 to 6.
    Path(u8),
    DataForm,
    Word,
}

/// The answer to a line. Numbers of bytes, installs and calls are as in the line's verb.
#[derive(Debug, Drop)]
pub enum Answer {
    Okay,
    Begun(u64),
    /// The bytes that a read shows.
    Shown(Bytes),
    At(u64),
    Len(u64),
    Dir,
    /// A file, by its length and how many paths it has.
    File { len: u64, links: u64 },
    Names(Names),
    Committed(u64),
    Retry { base: u64, now: u64 },
    Replayed(u32),
    Aborted(u32, Box<Answer>),
    Planned,
    Installed(u64),
    Stale { base: u64, now: u64 },
    Scanning,
    Held(Holder),
    More(u8),
    Done,
    Collected(u64),
    Saved(u64),
    Tree(Rows),
    Refused(Word),
    FaultRead(u8),
    FaultWrite,
    FaultPunch(u8),
    FaultSave,
    Damaged(u8),
    Bad(Kind),
}
