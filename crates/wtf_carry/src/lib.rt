//! A file's way into a store and out of it as lines of a script: the lines that put bytes at a path, the lines
//! that read them, and the bytes in the answers to those. Over any source and sink, a piece at a time.
//!
//! `put` writes the lines that make the directories on the way and the file, and write its bytes, up to 4,000
//! pieces in a transaction, each of 16,384 bytes but the last, however few bytes the source gives at a time.
//! `reads` writes the lines that read a file of so many bytes, and `get` takes the answers to these and writes
//! the bytes in them. Each says exactly what it wrote, over a source and a sink that tell (`put`, `reads`,
//! `gets`), and each way to stop has its cause: `Unread` and `Unwritten` a count that rose, `TooLong` more than
//! 500,000,000 bytes, or more answers than a script may have bytes, `Wrong` answers that are none to such
//! lines. What was written by then is to be thrown away.
//!
//! Three laws are functions that do nothing (`examples`): what is put is got, run alone; the lines that put bytes
//! leave the tree with the file; and what is read is got. They are said by the definitions of `wtf_model`, and
//! name no store.
#![tactic(auto)]

mod examples;
mod getting;
mod lines;
mod putting;
mod reading;
mod stop;
mod stream;

pub use examples::{what_is_put_is_got, what_is_put_is_stored, what_is_read_is_got};
pub use getting::get;
pub use putting::put;
pub use reading::reads;
pub use stop::Stop;

/// The most bytes of a file that is put, which keeps its lines within a script.
pub const MOST_BYTES: u64 = 500_000_000;
