//! Says of a script and of the output of a run whether the output is lawful by the definitions alone. No file
//! system runs.
//!
//! `wtf_check` reads both, steps the machine of the definitions through the lines and their answers, and writes
//! `yes N` where the output is that of a lawful run which began on an empty store, of a script of N lines, or
//! `no K`: K is the first line whose answer is missing, is no text of one, or may not come there, 0 for the line
//! with the settings, and one more than there are lines where answers are left over (`checked`).
//!
//! A script and an output have one verdict at most (`one`), so `yes` and `no` are told apart for certain. Both
//! sources are read a piece at a time, however they cut their bytes, and none is held whole.
//!
//! The statuses say what else came: 3 and 5 that a source failed, 4 that the sink did, 7 want of memory, 9 more
//! than 1,073,741,824 bytes in either. What the checker believes is what `wtf_model` says, the grammar of
//! `wtf_script` and the texts of `wtf_print`.
#![tactic(auto)]

mod check;
mod judge;
mod output;
mod script;
mod settings;
mod stop;
mod verdict;

pub use check::wtf_check;
pub use stop::{
    LAWFUL, OUT_OF_MEMORY, OUTPUT_FAILED, REFUSED, SCRIPT_FAILED, TOO_LONG, WRITING_FAILED,
};
