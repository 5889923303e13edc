//! Disks in memory, some of whose calls fail.

use std::alloc::Global;
use wtf_base::OutOfMemory;
use wtf_dev::{Disk, MemDisk};

/// A disk whose calls fail from a number on.
pub(crate) fn disk(alloc: Global, fuse: u64) -> Result<MemDisk, OutOfMemory> {
    MemDisk::new(alloc, Vec::new(alloc), fuse)
}

/// A disk that never fails, with these bytes in file 0, none of them pending.
pub(crate) fn disk_of(alloc: Global, bytes: &[u8]) -> Option<MemDisk> {
    let mut disk = disk(alloc, u64::MAX).ok()?;
    if disk.write(0, 0, bytes).is_err() || disk.sync(0).is_err() {
        return None;
    }
    Some(disk)
}

/// What a stop leaves of a disk, by choice of 0 to 2.
pub(crate) fn left(alloc: Global, disk: &MemDisk, pick: u8) -> Option<MemDisk> {
    if pick > 2 {
        return None;
    }
    disk.stopped(alloc, pick).ok()
}
