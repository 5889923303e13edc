//! What an image holds, record by record.

use wtf_base::InodeId;
use wtf_path::Path;
use wtf_values::{Node, RegionValue};

/// Which rule the names of files keep: in the first version a file has one path, in the second it may
/// have several. All else is the same.
#[derive(Clone, Copy)]
pub enum Version {
    One,
    Two,
}

/// The settings as they stand in the image, and its two numbers.
#[derive(Clone, Copy)]
pub struct Header {
    pub servers: u8,
    pub replicas: u8,
    /// The size of a region, in bytes.
    pub region: u32,
    /// The number of installs.
    pub installs: u64,
    /// The number of the transaction that begins next.
    pub next_tx: u64,
}

/// What stands at a path.
#[derive(Drop)]
pub struct PathRecord {
    pub path: Path,
    pub node: Node,
}

/// A region of a file, by its number.
#[derive(Drop)]
pub struct RegionRecord {
    pub number: u16,
    pub value: RegionValue,
}

/// A file: its inode, the number of its last region, and its regions.
#[derive(Drop)]
pub struct FileRecord {
    pub inode: InodeId,
    pub last: u16,
    pub regions: Vec<RegionRecord>,
}

/// An image that was read, or is to be written.
#[derive(Drop)]
pub struct Image {
    pub version: Version,
    pub header: Header,
    pub paths: Vec<PathRecord>,
    pub files: Vec<FileRecord>,
}
