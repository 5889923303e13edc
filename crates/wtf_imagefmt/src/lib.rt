//! The format of images: what an image holds, record by record, its text, and what a store has of it.
//!
//! An image is its version, a header with the settings and two numbers, what stands at each path, and each file
//! with its regions. The two versions have other first bytes and the same form else. `specs/Rows` has these as
//! rows, `specs/Texts` the bytes of each, and docs/FORMATS.md the same in words.
//!
//! `write` gives the text of an image (`text`), and `image_of` reads one: it gives just the rows that the
//! definition of the same name in `specs/Reading` gives of the bytes, and none where that gives none (`Parses`).
//! The parts have such pairs too, `put_value` and `value_of`, `put_inode` and `inode_of`, `put_name` and
//! `name_of`; the text of changes is made of the same.
//!
//! `paths_now` and `files_now` are what a store of versions has of an image: what stands at each path, and each
//! file with its regions, as the store shows them now, in order and nothing else (`ArePathsOf`, `AreFilesOf`).
//!
//! `specs/Saving` and `specs/Savable` say which stores can be saved and what their rows are, and
//! `specs/Shown` what a store shows. By which rules images are refused is said in `wtf_image`.
#![tactic(auto)]

mod gather;
mod order;
mod parser;
mod reader;
mod records;
mod writer;

pub use gather::{files_now, paths_now};
pub use parser::{image_of, inode_of, name_of, value_of};
pub use reader::u16_at;
pub use records::{FileRecord, Header, Image, PathRecord, RegionRecord, Version};
pub use writer::{put_inode, put_name, put_node, put_value, write};
