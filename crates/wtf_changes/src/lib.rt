//! What installs changed in a store, as bytes, and an image with such changes made in it.
//!
//! `changes` gives those of a store since a number that is pinned: each path, file and region that has a
//! version above that number, with what it is now, or that it is gone; and the number of installs and of the
//! transaction that begins next (`IsChangesOf`). `write` gives the text of changes, and `read` takes bytes
//! exactly where they are the text of some.
//!
//! `apply` makes changes in an image, and gives the bytes of the image that comes of it (`HasApplied`). It
//! refuses bytes that are no changes, and changes which give a region to a file that is not there behind them;
//! nothing else but want of memory (`refused`).
//!
//! Two laws are functions that do nothing (`laws`). Bytes are one list of changes at most, and no changes are a
//! proper front of others. And the image of a store at a pinned number, with the changes since then made in it,
//! is the image at the store's number, where both can be saved: so an image and the changes behind it are worth
//! the later image.
#![tactic(auto)]

mod applying;
mod draft;
mod error;
pub mod laws;
mod order;
mod parser;
mod reading;
mod records;
mod since;
mod writer;

pub use applying::apply;
pub use draft::Draft;
pub use error::ApplyError;
pub use reading::read;
pub use records::{Changes, FileChange, PathChange, RegionChange};
pub use since::changes;
pub use writer::write;
