//! A whole run over any source, sink, stores and keeper: what the words ask for, how a run begins, its lines
//! and its closing save, and the status that it ends with.
//!
//! `wtf` is the run that words ask for, over any devices, and `serve` that of a script with settings. A run
//! loads what the keeper holds, writes its settings and one answer a line, and saves the tree behind the last
//! line, once all of that is out.
//!
//! A line that is no line of the language is answered `bad KIND`, and the status in the end is 1, where it
//! would be 0. Every other status ends a run where it comes, and each has its cause (`status`, `served`): the
//! words, the image, the source, the sink, the limit of a script, the closing save, want of memory. With 2 no
//! store is touched, nothing is read or written, and the keeper is loaded at most.
//!
//! What a run promises is said of its two ends, and is one record (`served`; `specs/Runs`, `specs/Endings`).
//! Where the devices tell: the machine, from the tree with which the run began, accepts the lines with their
//! answers; each line that was answered has one; what is written is these, or a front of them; what the keeper
//! holds in the end is an image of a tree that may have been saved, with which a run can begin; and the stores
//! grew by what was written.
//!
//! Over every device a run leaves alone what it has no business with, line by line (`specs/Sparing`,
//! `specs/Spared`): the store of a server that is down stays as it is, a save alone syncs, and the keeper is
//! handed one image for each line that was answered `saved` and one by the closing save, at most one for each
//! save that failed, and none at the start or by any other line. The stores that the settings do not have are
//! in the end what they were.
//!
//! The loop is proved of an `Engine` (`specs/Engines`), a record of what a run is given of the state that
//! answers its lines, so neither the loop nor what a run promises names a core.
#![tactic(auto)]

pub mod examples;
mod opening;
mod program;
mod service;

pub use opening::{NotOpened, core_of, end};
pub use program::wtf;
pub use service::{
    BAD_LINES, FINISHED, IMAGE_REFUSED, LOADING_FAILED, OUT_OF_MEMORY, READING_FAILED, Reader,
    SAVING_FAILED, SCRIPT_TOO_LONG, Stop, WORDS_REFUSED, WRITING_FAILED, either, ended,
    push_answer, read_line, serve, write_all,
};
