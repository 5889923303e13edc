//! The devices over the system: standard streams, a file that is read, a folder of eight files for each
//! server or disk, and the file of an image, in a folder that is locked.
//! Each counts its errors, and tells nothing of what a file or a stream holds. What it asks of its files, and
//! in which order, is said over traits of files, which those of the system tell nothing of.
//!
//! `InSource` and `OutSink` are streams, held together by `streams`, so that answers are out before more is
//! read; `FileSource` is a file. `DirStore` is a store and `DirDisk` a disk in a folder, `ImageKeeper` the keeper
//! of an image. Each error of the system raises the count by one, and nothing else does.
//!
//! A folder is held by `FolderLock`: stores, disks and images are opened from one, so that a run has it before
//! it opens anything in it. `StandIns` take the numbers of standard streams that are closed, so that no file of
//! a store gets one, and calls on them fail.
//!
//! An image is written to `image.new`, synced, renamed, and the folder synced, in that order (`ImageFiles`); a
//! store's read asks its file for the bytes of a slice and a write for its end. That the adapters hand these
//! calls to the system, and that the system does them, is tested and not proved.
#![tactic(auto)]

mod answers;
mod counts;
mod disk;
mod fault;
mod file;
mod files;
mod folder;
mod gathered;
mod image;
mod image_files;
mod lock;
mod parts;
mod sink;
mod source;
mod standing;

pub use answers::{Answers, Shared};
pub use disk::DirDisk;
pub use fault::OpenFault;
pub use file::FileSource;
pub use files::SliceFile;
pub use folder::DirStore;
pub use image::{FileKeeper, ImageKeeper};
pub use image_files::{ImageFiles, ImageName, SystemImage};
pub use lock::{FolderLock, Lockable};
pub use sink::{AnswerSink, OutSink};
pub use source::{AnswerSource, InSource, streams};
pub use standing::StandIns;
