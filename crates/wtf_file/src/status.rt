//! The statuses that the program ends with, and their lines.

ghost use Rattle.std.specs.Prelude.{◌≡◌, option_map};
ghost use Rattle.wtf_file.specs.Program.{IsFileStatus, end_status, status_line};

use wtf_carry::Stop;

const DONE: u8 = 0;

/// The answers are not those to the reads of a file of the length that was asked for.
pub(crate) const WRONG_ANSWERS: u8 = 1;

pub(crate) const WORDS_REFUSED: u8 = 2;

pub(crate) const READING_FAILED: u8 = 3;

pub(crate) const WRITING_FAILED: u8 = 4;

pub(crate) const OUT_OF_MEMORY: u8 = 7;

/// A file or its answers have more bytes than can be carried.
pub(crate) const TOO_LONG: u8 = 9;

/// The line that the program writes on standard error for a status, without its line feed.
pub(crate) fn line_of(status: u8) -> Option<&'static str>
    ensures { option_map (λ line. line.now) result ≡ status_line status }
{
    match status {
        WRONG_ANSWERS => Some("wtf_file: wrong answers"),
        WORDS_REFUSED => Some("wtf_file: words refused: put PATH, reads PATH LEN or get LEN"),
        READING_FAILED => Some("wtf_file: reading failed"),
        WRITING_FAILED => Some("wtf_file: writing failed"),
        OUT_OF_MEMORY => Some("wtf_file: out of memory"),
        TOO_LONG => Some("wtf_file: too long"),
        _ => None,
    }
}

/// The status of a task that ended so.
pub(crate) fn end_status(done: Result<(), Stop>) -> u8
    ensures status { result ≡ end_status done }
    ensures known { IsFileStatus result }
{
    match done {
        Ok(()) => DONE,
        Err(Stop::Wrong) => WRONG_ANSWERS,
        Err(Stop::Unread) => READING_FAILED,
        Err(Stop::Unwritten) => WRITING_FAILED,
        Err(Stop::Memory) => OUT_OF_MEMORY,
        Err(Stop::TooLong) => TOO_LONG,
    }
}
