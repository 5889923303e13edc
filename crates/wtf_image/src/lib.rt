//! Images: the metadata of a store as bytes, from which it is loaded again.
//!
//! `save` gives the image of a store as it stands, with the settings and the number of the transaction that
//! begins next. `check` gives the settings of an image, `load` its metadata over stores, and `load_without` the
//! same where some servers are lost, whose stores are not looked at. No stored byte is read in any of them.
//!
//! An image of the first version and one of the second are read, each by its own rule of how many paths may
//! name a file, and the second is written.
//!
//! An image is refused by the first rule that it breaks, in the order of `LoadError` (`cause`, by
//! `specs/Rules`), and nothing else is refused, unless memory runs out. What it names has to lie inside the
//! stores; what its spilled lists name is not looked at.
//!
//! What is loaded is what was saved (`examples`): the same map at the same number, with the same settings and
//! the same next transaction; each key has that number as its version, and nothing is pinned. What was loaded
//! is what the bytes are the image of. Metadata that stand for a tree of files can be saved. Bytes are one
//! image at most, and no image is a proper front of another. These are functions that do nothing, whose
//! contracts are the laws.
//!
//! A store whose paths, files or entries of a region are 2^32 or more has no image, which comes as want of
//! memory.
#![tactic(auto)]

mod counts;
mod error;
pub mod examples;
mod inside;
mod loads;
mod names;
mod parse;
mod saving;
mod seeding;
mod settings;
mod tree;

pub use error::LoadError;
pub use loads::{Loaded, check, load, load_without};
pub use saving::save;
