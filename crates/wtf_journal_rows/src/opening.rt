//! A journal of images and changes that is opened, with each call that fails, and what each stop leaves of it.

use crate::disks::{disk, disk_of, left};
use std::alloc::Global;
use wtf_dev::{Disk, MemDisk};
use wtf_journal::{Journal, JournalFault};

/// An image of 4 servers, 2 replicas, regions of 65,536 bytes, no install and next transaction 1: the root alone.
pub(crate) const ROOT: [u8; 42] = [
    87, 84, 70, 73, 77, 71, 48, 50, 4, 2, 0, 1, 0, 0, 0, 0, 0, 0, 0, 0, 0, 0, 0, 0, 0, 0, 0, 0, 0,
    1, 0, 0, 0, 1, 0, 1, 47, 0, 0, 0, 0, 0,
];

/// The same with 1 install, next transaction 2 and `/a`, a file whose last region is 0, of which nothing is there.
pub(crate) const MADE: [u8; 75] = [
    87, 84, 70, 73, 77, 71, 48, 50, 4, 2, 0, 1, 0, 0, 0, 0, 0, 0, 0, 0, 0, 1, 0, 0, 0, 0, 0, 0, 0,
    2, 0, 0, 0, 2, 0, 1, 47, 0, 0, 2, 47, 97, 1, 0, 0, 0, 0, 0, 0, 0, 1, 0, 0, 0, 1, 0, 0, 0, 1, 0,
    0, 0, 0, 0, 0, 0, 1, 0, 0, 0, 1, 0, 0, 0, 0,
];

/// A journal of a record with the first image.
const ONE: [u8; 53] = [
    1, 0, 0, 0, 0, 0, 0, 0, 43, 0, 87, 84, 70, 73, 77, 71, 48, 50, 4, 2, 0, 1, 0, 0, 0, 0, 0, 0, 0,
    0, 0, 0, 0, 0, 0, 0, 0, 0, 0, 1, 0, 0, 0, 1, 0, 1, 47, 0, 0, 0, 0, 0, 0,
];

/// And behind it a record of the changes that make the second one of it.
const TWO: [u8; 123] = [
    1, 0, 0, 0, 0, 0, 0, 0, 43, 0, 87, 84, 70, 73, 77, 71, 48, 50, 4, 2, 0, 1, 0, 0, 0, 0, 0, 0, 0,
    0, 0, 0, 0, 0, 0, 0, 0, 0, 0, 1, 0, 0, 0, 1, 0, 1, 47, 0, 0, 0, 0, 0, 1, 0, 0, 0, 0, 0, 0, 0,
    61, 1, 0, 0, 0, 0, 0, 0, 0, 1, 0, 0, 0, 0, 0, 0, 0, 2, 0, 0, 0, 1, 0, 2, 47, 97, 1, 0, 0, 0, 0,
    0, 0, 0, 1, 0, 0, 0, 1, 0, 0, 0, 1, 0, 0, 0, 0, 0, 0, 0, 1, 0, 0, 0, 1, 1, 0, 0, 0, 0, 0, 0, 0,
];

/// Those two records where the first image is of the first version: the changes make the same of it.
const OLD: [u8; 123] = [
    1, 0, 0, 0, 0, 0, 0, 0, 43, 0, 87, 84, 70, 73, 77, 71, 48, 49, 4, 2, 0, 1, 0, 0, 0, 0, 0, 0, 0,
    0, 0, 0, 0, 0, 0, 0, 0, 0, 0, 1, 0, 0, 0, 1, 0, 1, 47, 0, 0, 0, 0, 0, 1, 0, 0, 0, 0, 0, 0, 0,
    61, 1, 0, 0, 0, 0, 0, 0, 0, 1, 0, 0, 0, 0, 0, 0, 0, 2, 0, 0, 0, 1, 0, 2, 47, 97, 1, 0, 0, 0, 0,
    0, 0, 0, 1, 0, 0, 0, 1, 0, 0, 0, 1, 0, 0, 0, 0, 0, 0, 0, 1, 0, 0, 0, 1, 1, 0, 0, 0, 0, 0, 0, 0,
];

/// And in place of that one of changes that give a region to a file that is not there.
const LOST: [u8; 135] = [
    1, 0, 0, 0, 0, 0, 0, 0, 43, 0, 87, 84, 70, 73, 77, 71, 48, 50, 4, 2, 0, 1, 0, 0, 0, 0, 0, 0, 0,
    0, 0, 0, 0, 0, 0, 0, 0, 0, 0, 1, 0, 0, 0, 1, 0, 1, 47, 0, 0, 0, 0, 0, 1, 0, 0, 0, 0, 0, 0, 0,
    73, 1, 0, 0, 0, 0, 0, 0, 0, 3, 0, 0, 0, 0, 0, 0, 0, 4, 0, 0, 0, 0, 0, 0, 0, 0, 0, 0, 0, 1, 0,
    0, 0, 0, 0, 0, 0, 1, 0, 0, 0, 1, 0, 0, 1, 0, 0, 0, 6, 0, 0, 0, 0, 1, 0, 0, 0, 0, 0, 0, 0, 6, 1,
    1, 0, 0, 0, 0, 0, 0, 0, 0, 0, 0, 0,
];

/// Whether a journal of these bytes gives this image, has this length behind it, and then gives the same again.
fn gives(alloc: Global, bytes: &[u8], image: &[u8], length: u64) -> bool {
    let Some(mut disk) = disk_of(alloc, bytes) else {
        return false;
    };
    opens(alloc, &mut disk, image)
        && disk.length(0) == length
        && opens(alloc, &mut disk, image)
        && disk.length(0) == length
}

/// Whether a journal on a disk is opened and gives this image.
pub(crate) fn opens(alloc: Global, disk: &mut MemDisk, image: &[u8]) -> bool {
    match Journal::open(alloc, disk) {
        Ok(opened) => opened.image.as_slice() == image,
        Err(_) => false,
    }
}

#[test]
fn the_last_image_is_given_with_the_changes_after_it(rt: HostRuntime) {
    assert!(rt; gives(rt.alloc(), b"", b"", 1));
    assert!(rt; gives(rt.alloc(), b"\x01", b"", 1));
    assert!(rt; gives(rt.alloc(), b"\x02\x01", b"", 2));
    assert!(rt; gives(rt.alloc(), &ONE, &ROOT, 53));
    assert!(rt; gives(rt.alloc(), &TWO, &MADE, 208));
    assert!(rt; gives(rt.alloc(), &OLD, &MADE, 208));
}

/// Whether a journal of these bytes is refused at this offset.
fn refuses(alloc: Global, bytes: &[u8], at: u64) -> bool {
    let Some(mut disk) = disk_of(alloc, bytes) else {
        return false;
    };
    match Journal::open(alloc, &mut disk) {
        Ok(_) => false,
        Err(why) => why == JournalFault::NotAJournal(at),
    }
}

/// Whether file 0 of a disk has these bytes, and no others.
fn has(alloc: Global, disk: &mut MemDisk, bytes: &[u8]) -> bool {
    let Ok(mut read) = vec![in alloc; 0u8; disk.length(0) as usize] else {
        return false;
    };
    disk.read(0, 0, &mut read).is_ok() && read.as_slice() == bytes
}

/// Whether a journal of these bytes has them when it was refused, as has what each stop leaves of it.
fn keeps_bytes(alloc: Global, bytes: &[u8]) -> bool {
    let Some(mut disk) = disk_of(alloc, bytes) else {
        return false;
    };
    if Journal::open(alloc, &mut disk).is_ok() || !has(alloc, &mut disk, bytes) {
        return false;
    }
    for pick in 0..3 {
        let Some(mut stopped) = left(alloc, &disk, pick) else {
            return false;
        };
        if !has(alloc, &mut stopped, bytes) {
            return false;
        }
    }
    true
}

#[test]
fn a_record_that_is_not_in_the_format_is_refused(rt: HostRuntime) {
    assert!(rt; refuses(rt.alloc(), b"\x01\0\0\0\0\0\0\0\0\0", 0));
    assert!(rt; refuses(rt.alloc(), b"\x01\0\0\0\0\0\0\0\x01\x02\0", 0));
    assert!(rt; refuses(rt.alloc(), b"\x01\0\0\0\0\0\0\0\x01\0\0", 0));
    assert!(rt; refuses(rt.alloc(), b"\x01\0\0\0\0\0\0\0\x01\x01\0", 0));
    assert!(rt; refuses(rt.alloc(), &ONE[..52], 0));
    assert!(rt; refuses(rt.alloc(), &TWO[..122], 52));
    assert!(rt; refuses(rt.alloc(), &LOST, 52));
}

#[test]
fn a_journal_that_is_refused_keeps_its_bytes(rt: HostRuntime) {
    assert!(rt; keeps_bytes(rt.alloc(), &TWO[..122]));
    assert!(rt; keeps_bytes(rt.alloc(), &LOST));
}

/// A disk with the journal of two records, whose calls fail from this number on, counted from then.
fn failing(alloc: Global, fuse: u64) -> Option<MemDisk> {
    let mut disk = disk(alloc, fuse.saturating_add(2)).ok()?;
    if disk.write(0, 0, &TWO).is_err() || disk.sync(0).is_err() {
        return None;
    }
    Some(disk)
}

/// Whether each stop leaves a journal that gives the second image.
fn keeps(alloc: Global, disk: &MemDisk) -> bool {
    for pick in 0..3 {
        let Some(mut stopped) = left(alloc, disk, pick) else {
            return false;
        };
        if !opens(alloc, &mut stopped, &MADE) {
            return false;
        }
    }
    true
}

/// Whether it is opened where the calls from a number on fail, if each stop keeps it.
fn kept(alloc: Global, fuse: u64) -> Option<bool> {
    let mut disk = failing(alloc, fuse)?;
    let is_open = opens(alloc, &mut disk, &MADE);
    if !keeps(alloc, &disk) {
        return None;
    }
    Some(is_open)
}

#[test]
fn each_stop_leaves_a_journal_of_the_same_image(rt: HostRuntime) {
    for fuse in 0..6 {
        assert!(rt; kept(rt.alloc(), fuse) == Some(false));
    }
    assert!(rt; kept(rt.alloc(), 6) == Some(true));
}
