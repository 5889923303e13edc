//! The script language, read: a source's bytes as lines, and each line as the event that it asks for or as
//! what is wrong with it. Relies on the paths of `wtf_path` and on the events of `wtf_model`.
//!
//! `Lines::next` gives the next line of a source, however the source cuts its bytes (`told`): up to 65,536 bytes
//! are asked for at a time, and only while no line feed is held. A line that is longer than 65,536 bytes is told
//! as such, and a script of more than 1,073,741,824 bytes ends with `TooMuch`. What is left behind a line stays
//! for the next call, and after a fault the next call goes on behind what was lost. Each call makes progress
//! (`progress`), so a script is read to its end.
//!
//! `parse_line` gives the event that a line asks for exactly where `event_of` (`specs/Grammar`) does, and else
//! the first thing that is wrong with it, of that definition's order, unless memory runs out (`exact`). What it
//! gives is in form (`form`): labels, limits and paths are those of the language, and nothing checks them again.
//!
//! docs/LANGUAGE.md says the same in words.
#![tactic(auto)]

mod args;
mod calls;
mod counts;
mod data;
mod error;
mod events;
mod limits;
mod lines;
mod parse;
mod plain;

pub use error::{LineError, ReadError};
pub use limits::{LINE_BYTES, SCRIPT_BYTES};
pub use lines::{Line, Lines};
pub use parse::parse_line;
