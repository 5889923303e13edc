//! A journal as a keeper of images, with each call that fails, and what each stop leaves of it.

use crate::disks::{disk, left};
use crate::opening::{MADE, ROOT, opens};
use std::alloc::Global;
use wtf_dev::{Disk, Keeper, MemDisk};
use wtf_journal::{Journal, JournalKeeper};

/// Whether a keeper over the journal on a disk holds an image, and how often it was short.
fn holds(alloc: Global, disk: &mut MemDisk, image: &[u8]) -> bool {
    let Ok(mut opened) = Journal::open(alloc, disk) else {
        return false;
    };
    let mut keeper = JournalKeeper {
        journal: &mut opened.journal,
        disk,
        short: 0,
    };
    match keeper.load(alloc) {
        Ok(bytes) => bytes.as_slice() == image && keeper.short == 0,
        Err(_) => false,
    }
}

/// Whether a keeper over the journal on a disk takes an image, and holds it then.
fn keeps(alloc: Global, disk: &mut MemDisk, image: &[u8]) -> bool {
    let Ok(mut opened) = Journal::open(alloc, disk) else {
        return false;
    };
    let mut keeper = JournalKeeper {
        journal: &mut opened.journal,
        disk,
        short: 0,
    };
    if keeper.replace(image).is_err() {
        return false;
    }
    match keeper.load(alloc) {
        Ok(bytes) => bytes.as_slice() == image && keeper.short == 0,
        Err(_) => false,
    }
}

/// Whether what is no image is refused, is counted, and leaves what was held.
fn refuses(alloc: Global, disk: &mut MemDisk, image: &[u8]) -> bool {
    let Ok(mut opened) = Journal::open(alloc, disk) else {
        return false;
    };
    let mut keeper = JournalKeeper {
        journal: &mut opened.journal,
        disk,
        short: 0,
    };
    keeper.replace(b"no image").is_err()
        && keeper.short == 1
        && !opened.journal.failed()
        && holds(alloc, disk, image)
}

/// Whether a fresh journal holds nothing, and then each image that it is handed.
fn is_kept(alloc: Global) -> bool {
    let Ok(mut disk) = disk(alloc, u64::MAX) else {
        return false;
    };
    holds(alloc, &mut disk, b"")
        && keeps(alloc, &mut disk, &ROOT)
        && keeps(alloc, &mut disk, &MADE)
        && disk.length(0) == 138
        && holds(alloc, &mut disk, &MADE)
        && refuses(alloc, &mut disk, &MADE)
}

#[test]
fn a_journal_holds_the_last_image(rt: HostRuntime) {
    assert!(rt; is_kept(rt.alloc()));
}

/// How many of two images are taken by a keeper over the journal on a disk. None where it failed for another reason than
/// the disk.
fn taken(alloc: Global, disk: &mut MemDisk) -> Option<u8> {
    let Ok(mut opened) = Journal::open(alloc, disk) else {
        return Some(0);
    };
    let mut keeper = JournalKeeper {
        journal: &mut opened.journal,
        disk,
        short: 0,
    };
    let count = if keeper.replace(&ROOT).is_err() {
        0
    } else if keeper.replace(&MADE).is_err() {
        1
    } else {
        2
    };
    if keeper.short != 0 {
        return None;
    }
    Some(count)
}

/// Whether a stop leaves a journal of the image that was taken last, or of the next one.
fn leaves(alloc: Global, disk: &MemDisk, pick: u8, count: u8) -> bool {
    let images = [&b""[..], &ROOT[..], &MADE[..]];
    for k in 0..3 {
        if k < count || k - count > 1 {
            continue;
        }
        let Some(mut stopped) = left(alloc, disk, pick) else {
            return false;
        };
        if opens(alloc, &mut stopped, images[k as usize]) {
            return true;
        }
    }
    false
}

/// How many images are taken where the calls from a number on fail, if each stop keeps them.
fn kept(alloc: Global, fuse: u64) -> Option<u8> {
    let mut disk = disk(alloc, fuse).ok()?;
    let count = taken(alloc, &mut disk)?;
    for pick in 0..3 {
        if !leaves(alloc, &disk, pick, count) {
            return None;
        }
    }
    Some(count)
}

#[test]
fn each_stop_leaves_the_image_that_was_taken(rt: HostRuntime) {
    for fuse in 0..7 {
        assert!(rt; kept(rt.alloc(), fuse) == Some(0));
    }
    for fuse in 7..11 {
        assert!(rt; kept(rt.alloc(), fuse) == Some(1));
    }
    assert!(rt; kept(rt.alloc(), 11) == Some(2));
}
