//! Paths of files and directories, checked once where a text comes in.
//!
//! `/` alone is the root. Any other path is names, each behind a slash: of the bytes `!` to `~` but the slash,
//! none of them `.` or `..`, at most 32 of them and 1,023 bytes together. `specs/Grammar` says so.
//!
//! `Path::parse` takes a text exactly where it is a path. Any other is refused by the first rule that it
//! breaks, in the order of `PathError`, which takes no memory; so does `first_refusal`, which makes no path. So
//! whoever has a `Path` has one that keeps the rules (`well_formed`), and nothing checks it again.
//!
//! `name` is the last name, none for the root, and `parent` the path of the directory that the path stands in,
//! none exactly for the root. A parent is a path too, is shorter, and with the name makes the path (`joined`),
//! so parents end at the root. These take no memory. `copy` is the same path in memory of its own.
#![tactic(auto)]

mod error;
mod order;
mod path;
mod rules;
mod slashes;

pub use error::PathError;
pub use path::Path;
