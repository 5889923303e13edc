//! A disk in memory: which of its calls fail, and what a stop leaves of it.

use std::alloc::Global;
use wtf_base::OutOfMemory;
use wtf_dev::{Disk, Failed, MemDisk};

/// The file of the rows of one disk.
const FILE: u8 = 3;

/// Behind the number of each call of a row.
const NO_FUSE: u64 = 100;

/// A disk whose calls of these numbers fail, and every call from a number on.
fn disk(alloc: Global, fails: &[u64], fuse: u64) -> Result<MemDisk, OutOfMemory> {
    MemDisk::new(alloc, Vec::from_slice(alloc, fails)?, fuse)
}

/// Whether bytes are written from a place on, or fail to be.
fn writes(disk: &mut MemDisk, at: u64, bytes: &[u8], want: Result<(), Failed>) -> bool {
    at <= disk.length(FILE) && disk.write(FILE, at, bytes) == want
}

/// Whether the file is brought to where it lasts, or fails to be.
fn syncs(disk: &mut MemDisk, want: Result<(), Failed>) -> bool {
    disk.sync(FILE) == want
}

/// Whether these are all bytes of the file.
fn holds(disk: &mut MemDisk, want: &[u8]) -> bool {
    let mut out = [0; 8];
    let len = want.len().min(8);
    disk.length(FILE) == len as u64
        && disk.read(FILE, 0, &mut out[..len]) == Ok(())
        && &out[..len] == want
}

/// Whether a stop leaves these bytes of the file, by this choice.
fn leaves(alloc: Global, disk: &MemDisk, pick: u8, want: &[u8]) -> bool {
    if pick > 2 {
        return false;
    }
    match disk.stopped(alloc, pick) {
        Ok(mut left) => holds(&mut left, want),
        Err(_) => false,
    }
}

/// Whether a stop leaves the bytes of the last sync, those that a read gives, or with every pending byte 1.
fn leaves_each(alloc: Global, disk: &MemDisk, synced: &[u8], seen: &[u8], ones: &[u8]) -> bool {
    leaves(alloc, disk, 0, synced) && leaves(alloc, disk, 1, seen) && leaves(alloc, disk, 2, ones)
}

/// Whether four bytes were written, and last.
fn begins(disk: &mut MemDisk) -> bool {
    writes(disk, 0, b"abcd", Ok(())) && syncs(disk, Ok(()))
}

/// Whether a write over the end is pending until it is synced.
fn pends(alloc: Global) -> bool {
    let Ok(mut disk) = disk(alloc, &[], NO_FUSE) else {
        return false;
    };
    begins(&mut disk)
        && writes(&mut disk, 3, b"XY", Ok(()))
        && leaves_each(alloc, &disk, b"abcd", b"abcXY", b"abc\x01\x01")
        && syncs(&mut disk, Ok(()))
        && leaves_each(alloc, &disk, b"abcXY", b"abcXY", b"abcXY")
}

#[test]
fn a_write_is_pending_until_a_sync(rt: HostRuntime) {
    assert!(rt; pends(rt.alloc()));
}

/// Whether a write that failed leaves its range pending, and a read gives what it gave.
fn spoils(alloc: Global) -> bool {
    let Ok(mut disk) = disk(alloc, &[2], NO_FUSE) else {
        return false;
    };
    begins(&mut disk)
        && writes(&mut disk, 3, b"XY", Err(Failed))
        && leaves_each(alloc, &disk, b"abcd", b"abcd", b"abc\x01\x01")
        && syncs(&mut disk, Ok(()))
        && leaves_each(alloc, &disk, b"abcd", b"abcd", b"abcd")
}

#[test]
fn a_failed_write_leaves_its_range_pending(rt: HostRuntime) {
    assert!(rt; spoils(rt.alloc()));
}

/// Whether a sync that failed, and that of another file, leave what is pending.
fn stays_pending(alloc: Global) -> bool {
    let Ok(mut disk) = disk(alloc, &[1], NO_FUSE) else {
        return false;
    };
    writes(&mut disk, 0, b"ab", Ok(()))
        && syncs(&mut disk, Err(Failed))
        && disk.sync(FILE + 1) == Ok(())
        && leaves_each(alloc, &disk, b"", b"ab", b"\x01\x01")
}

#[test]
fn a_failed_sync_leaves_what_is_pending(rt: HostRuntime) {
    assert!(rt; stays_pending(rt.alloc()));
}

/// Whether each call of a disk fails, and none for want of memory.
fn fails_each(disk: &mut MemDisk) -> bool {
    writes(disk, 0, b"x", Err(Failed))
        && syncs(disk, Err(Failed))
        && disk.read(FILE, 0, &mut []) == Err(Failed)
        && disk.short() == 0
}

/// Whether a disk fails from call 2 on, and what a stop leaves of it does not.
fn burns(alloc: Global) -> bool {
    let Ok(mut disk) = disk(alloc, &[], 2) else {
        return false;
    };
    begins(&mut disk) && fails_each(&mut disk) && goes_on(alloc, &disk)
}

/// Whether what a stop leaves of a disk takes bytes, behind those that last.
fn goes_on(alloc: Global, disk: &MemDisk) -> bool {
    let Ok(mut left) = disk.stopped(alloc, 0) else {
        return false;
    };
    writes(&mut left, 4, b"ef", Ok(()))
        && leaves_each(alloc, &left, b"abcd", b"abcdef", b"abcd\x01\x01")
}

#[test]
fn a_disk_fails_from_its_fuse_on(rt: HostRuntime) {
    assert!(rt; burns(rt.alloc()));
}
