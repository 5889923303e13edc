//! What changes hold, record by record.

use wtf_base::InodeId;
use wtf_path::Path;
use wtf_values::{Node, RegionValue};

/// What stands at a path that changed, if anything does.
#[derive(Drop)]
pub struct PathChange {
    pub path: Path,
    pub node: Option<Node>,
}

/// The number of the last region of a file that changed; none where the file is gone.
#[derive(Clone, Copy)]
pub struct FileChange {
    pub inode: InodeId,
    pub last: Option<u16>,
}

/// A region that changed, by its file and its number; no value where it is gone.
#[derive(Drop)]
pub struct RegionChange {
    pub inode: InodeId,
    pub number: u16,
    pub value: Option<RegionValue>,
}

/// Changes that were read, or are to be written, with the two numbers as they are behind them.
#[derive(Drop)]
pub struct Changes {
    /// The number of installs.
    pub installs: u64,
    /// The number of the transaction that begins next.
    pub next_tx: u64,
    pub paths: Vec<PathChange>,
    pub files: Vec<FileChange>,
    pub regions: Vec<RegionChange>,
}
