//! The texts of answers: each answer has one text, and a text is read as the answer that has it.
//!
//! `print_answer` appends the one text of an answer (`text_of`), without a line feed. No other answer in form
//! has that text (`one`), so what is printed says just that answer. `print_settings` appends the line with which
//! a run begins.
//!
//! `parse_answer` gives the answer whose text a line is, exactly where it is that of an answer in form, and else
//! says that it is none (`text`, `form`, `back`). It prints what it understood and compares, so that reading is
//! exact both ways. An answer is in form where its numbers have the width of their kind, its names and paths keep
//! their rules, its labels are those of clients and jobs, and `aborted` holds an answer of a call (`IsWritable`).
//!
//! Where memory is wanting while an answer is printed, a front of its text may have been appended.
#![tactic(auto)]

mod answers;
mod error;
mod parse;
mod parts;
mod print;
mod refusals;

pub use error::TextError;
pub use parse::parse_answer;
pub use print::{print_answer, print_settings};
