//! What a job is of.

use wtf_base::InodeId;
use wtf_model::JobKind;

/// A region of a file, and what a job makes of its list.
#[derive(Clone, Copy, Debug, PartialEq, Eq)]
pub struct Target {
    /// The file.
    pub inode: InodeId,
    /// The region's number.
    pub region: u16,
    /// What becomes of its list.
    pub kind: JobKind,
}
