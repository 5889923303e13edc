//! The calls and what comes of them.

use wtf_base::{Kept, Slice};
use wtf_model::{Answer, Seek};
use wtf_path::Path;

/// Data that a call writes: bytes that are to be stored, or what a log kept of bytes that were.
#[derive(Clone, Copy, Debug)]
pub enum Given<'a> {
    /// These bytes.
    Fresh(&'a [u8]),
    /// The bytes of a log's slice.
    Stored(Kept),
}

/// A call on the bytes of a file or on a handle, with its arguments in the order of the script's
/// line. Labels are numbers from 0 to 15, offsets and lengths are in bytes.
#[derive(Clone, Copy, Debug)]
pub enum RwOp<'a> {
    Open(u8, &'a Path),
    Close(u8),
    Seek(u8, Seek),
    Tell(u8),
    Read(u8, u64),
    Write(u8, Given<'a>),
    Append(u8, Given<'a>),
    Truncate(u8, u64),
    Punch(u8, u64),
    Stat(&'a Path),
}

/// The answer to a call, and the slice of the bytes that it stored, if it stored some.
#[derive(Debug, Drop)]
pub struct Done {
    /// The answer.
    pub answer: Answer,
    /// What was stored in this call.
    pub own: Option<Slice>,
}
