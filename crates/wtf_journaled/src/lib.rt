//! A whole run with a journal: each line that was answered outlives every later stop, without a save.
//!
//! `wtf_journaled` is the run that words ask for, over any source, sink, stores and disk of a journal. The journal
//! is opened, the settings are written, and then one answer a line; there is no closing save. The line at which the
//! journal fails has no answer: the run ends there, with status 5, and the journal is opened again by the next one.
//!
//! What a run promises is one record (`specs/Runs`): what `wtf_serve` says of its lines, its answers and its ends,
//! and what a stop leaves then: a store that the next run can begin with, where the stores and the disk tell their
//! content. It has the tree behind the lines that were answered, or behind the line that ended the run as well. The
//! stores that the settings do not have are in the end what they were. What a run adds to the journal is counted
//! (`specs/Added`): an image for each line that saved, and changes for each install.
//!
//! The loop's proof is that of `wtf_serve`, for the engine of `specs/Engine`: a durable store with its journal's
//! disk, whose journal stands for the machine as well.
#![tactic(auto)]

mod ends;
mod halt;
mod lines;
mod program;
mod run;

pub use halt::Halt;
pub use program::wtf_journaled;
