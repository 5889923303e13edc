//! The lines that the program writes for the statuses that it ends with.

ghost use Rattle.std.specs.Prelude.{◌≡◌, option_map};
ghost use Rattle.wtf_cli.specs.Program.{open_status, status_line};

use wtf_real::OpenFault;
use wtf_serve::{
    BAD_LINES, IMAGE_REFUSED, LOADING_FAILED, OUT_OF_MEMORY, READING_FAILED, SAVING_FAILED,
    SCRIPT_TOO_LONG, WORDS_REFUSED, WRITING_FAILED,
};

/// The directory is missing, or a folder or the image in it could not be opened.
pub(crate) const NO_DIRECTORY: u8 = 10;

/// The line that the program writes on standard error for a status, without its line feed.
pub(crate) fn line_of(status: u8) -> Option<&'static str>
    ensures { option_map (λ line. line.now) result ≡ status_line status }
{
    match status {
        BAD_LINES => Some("wtf: bad lines"),
        WORDS_REFUSED => Some("wtf: words refused"),
        READING_FAILED => Some("wtf: reading failed"),
        WRITING_FAILED => Some("wtf: writing failed"),
        SAVING_FAILED => Some("wtf: save failed"),
        IMAGE_REFUSED => Some("wtf: image refused"),
        OUT_OF_MEMORY => Some("wtf: out of memory"),
        LOADING_FAILED => Some("wtf: load failed"),
        SCRIPT_TOO_LONG => Some("wtf: script too long"),
        NO_DIRECTORY => Some("wtf: no directory"),
        _ => None,
    }
}

/// The status where a device could not be opened.
pub(crate) fn open_status(fault: OpenFault) -> u8
    ensures { result ≡ open_status fault }
{
    match fault {
        OpenFault::Failed => NO_DIRECTORY,
        OpenFault::Memory => OUT_OF_MEMORY,
    }
}
