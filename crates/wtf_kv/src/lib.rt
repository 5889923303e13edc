//! A store of versions: maps from keys to values, one at each install number, of which the newest and
//! those at pinned numbers can be read. Changes are made ready first, which takes all memory that an
//! install needs, and are then installed together under the next number.
//!
//! A version of a key is what an install made of it, a value or none. `read_at` gives what a map shows of a key,
//! and `version_at` the number of the install that set it; `rows` walks the keys of a map in order. A pinned
//! number's map stays what it was as long as it is pinned (`pin`, `unpin`), whatever is installed meanwhile.
//!
//! `reserve_install` makes changes ready over the newest map, in order, and names the first key whose change does
//! not fit its value there. Whatever comes of it the store shows what it showed. `install` can then not fail: it
//! puts all of them in under the next number, and each key has its versions as before, with the new one where a
//! change touched it.
//!
//! `next_changed` walks the keys whose version lies above a number. From a `mark` on the store notes the keys that
//! installs change, and it then looks only at these where the mark is at most that number.
//!
//! What is kept is what can be read: `prune` drops each version that neither the newest number nor a pinned one
//! sees, and looks only at keys that may have one. `prune_when_due` does so once it is worth its time.
//!
//! Keys have a total order in which those that compare as equal are the same (`StoreKey`); what a change makes
//! of a value is that of the `Cell`. Both are given by who makes a store.
#![tactic(auto)]

mod calls;
mod cell;
mod cells;
mod changes;
pub mod examples;
mod history;
mod ready;
mod recent;
mod rows;
mod store;
mod walk;

pub use calls::{Call, run};
pub use cell::{Applied, Cell, StoreKey, Summarized};
pub use changes::{Change, Changes};
pub use ready::{NotReady, Ready};
pub use rows::Versions;
pub use store::Kv;
pub use walk::Rows;
