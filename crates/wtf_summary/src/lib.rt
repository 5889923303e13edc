//! A sink that shows the first line that is written to it on another sink, and of the lines behind it only a
//! summary, once so many of them came: how many there were, by their first words, and the digest of their text.
//! No call here takes memory.
//!
//! `Summarizing` is that sink, over another one that it borrows. It is a sink like any other: it takes bytes as
//! they come, in any pieces, and counts a fault where a write on the other sink failed. `finish` ends it and
//! tells how many writes failed. What it has shown at any time is the front of what is to be shown of the text
//! that it took, all of it where no write failed (`specs/Fronts`).
//!
//! `shown_text` and `summary` (`specs/Summaries`) say what that is: the first line, and behind `lines` more eight
//! lines with the counts and the digest (FIPS 180-4, by the `sha2` crate). `show` shows a text that is at hand.
//!
//! Only proofs read the text that came (`src/trace.rt`): a run keeps counts, a front of a line, and the
//! digest's state.
#![tactic(auto)]

mod counts;
pub mod examples;
mod passing;
mod showing;
mod state;
mod summarizing;
mod tally;
mod text;
mod trace;

pub use showing::show;
pub use summarizing::Summarizing;
