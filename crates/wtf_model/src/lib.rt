//! The words of a script and of its answers, and the definitions of what a run must answer: a tree of files,
//! the calls of a transaction on it, and a machine on which committed transactions run whole, one by one.
//!
//! What runs here is little: types of events, calls and answers (`Event`, `Op`, `Answer`), their limits, copies
//! of them, and whether two answers of a call are the same.
//!
//! The definitions stand in specs/, and know nothing of slices, servers' contents or versions. `Tree` is a map
//! from paths to directories and files with their bytes; `Session` what one transaction sees; `Call` what one
//! call does to a session and what it answers, a row for each; `Transaction` calls one after another. `Machine`
//! is the whole store, `May` (`Lawful`) what it may answer to an event, `after` (`Steps`) what it is then, and
//! `Accepts` that it may give these answers to these events. A transaction is replayed or aborted only for what
//! others have changed since, which `Items` tells of each call: what it reads, and what it changes.
//!
//! Two transactions never mix: a commit is lawful only where all its calls, run on the tree then, give what was
//! shown. So the answers of a run are those of one tree on which committed transactions ran whole.
//!
//! `examples` and the other modules of that name are worked examples: contracts of functions that do nothing,
//! which say what some calls answer, so that the definitions can be looked at from outside.
#![tactic(auto)]

mod answer;
pub mod byte_examples;
mod copies;
mod event;
pub mod examples;
mod item;
pub mod item_examples;
pub mod job_examples;
pub mod limits;
mod lists;
pub mod machine_examples;
pub mod name_examples;
mod op;
mod same;
pub mod scan_examples;
pub mod shared_examples;
pub mod slice_examples;

pub use answer::{Answer, Kind, Word};
pub use copies::copy_op;
pub use event::{Event, Holder, Verb};
pub use item::Item;
pub use lists::{Names, Paths, Row, Rows};
pub use op::{JobKind, Op, Seek};
pub use same::is_same_answer;
