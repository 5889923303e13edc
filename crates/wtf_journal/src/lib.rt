//! A store over a disk, and a journal on one. What they answer `Ok` to outlives a stop at any moment, and what a stop may
//! leave is told for each moment of a call. Both are this project's own: NSDI 2016 has no such journal.
#![tactic(auto)]

mod body;
mod fault;
mod held;
mod journal;
mod keeper;
mod open;
mod opened;
mod scan;
mod synced;
mod through;

pub use body::Record;
pub use fault::JournalFault;
pub use journal::Journal;
pub use keeper::JournalKeeper;
pub use opened::Opened;
pub use scan::Meaning;
pub use synced::Synced;
