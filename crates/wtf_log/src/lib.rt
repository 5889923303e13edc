//! What a transaction logs: its calls, each with the answer that was shown of it. A transaction
//! that has met a conflict is replayed from its log (NSDI 2016, section 2.6). Of written data the
//! log keeps the slice where they are stored, and never the bytes.
//!
//! `Log` is calls and answers, the same number of each, and at most 4,096 (`MAX_LOGGED`): that is a fact of the
//! type. `push` puts a call with its answer at the end, and is `Full` exactly where the log is; after an error
//! the log is as before. `op`, `shown` and `own` give the I-th call, from 1 on, its answer, and the slice that it
//! has stored, if it stored one.
//!
//! A logged call *stands for* a call of the definitions (`specs/Standing`): it is that call, with the slice in the
//! place of the bytes which the stores tell there. So a replay makes the same calls and stores nothing.
#![tactic(auto)]

mod error;
pub mod examples;
mod log;

pub use error::LogError;
pub use log::Log;
