//! What the crates of calls share: where a handle stands, what a call does on an attempt beside the
//! definitions' call, the keys that calls at a handle record, when a fault may come in place of an
//! answer, and the laws of calls that write at a handle or add to its file.
//!
//! Little runs here: `handle_of`, which tells where a handle stands, and the numbers of a range. The rest are
//! definitions and laws on which `wtf_rw`, `wtf_slicing` and `wtf_replay` rest.
//!
//! A call is a step of an attempt and of what is in hand with it (`Steps`): what it did is the definitions'
//! call on all maps that agree on what it recorded, and more may be said of what it did. Its scene is what it
//! is lent and leaves, and the map that it sees (`Scenes`); `AreInside` says that all bytes which a map and
//! slices in hand name lie inside the stores.
//!
//! `Recorded` says which keys calls at a handle record, `Made` what the changes of a range of a file are, and
//! `Faults` why bytes were not shown, and when a fault may come in place of the answer that is due. `Holding`
//! says what a call leaves in hand, `Recalling` which lists it asked for, and `Leaving` what it leaves alone of
//! the stores: those that are down, files to which it does not write, and syncs.
#![tactic(auto)]

mod adding;
mod finding;
mod handles;

pub use adding::{answer_to, ends_within};
pub use finding::{found_len, range_start};
pub use handles::{Spot, handle_of};
