//! A store over a disk, with each call that fails, and what each stop leaves of it.

use crate::disks::{disk, left};
use std::alloc::Global;
use wtf_dev::{Disk, MemDisk, SliceStore};
use wtf_journal::Synced;

/// How many of two appends of two bytes and a punch of one byte of the first were answered `Ok`.
fn answered(store: &mut Synced<MemDisk>) -> u8 {
    if store.append(3, b"ab").is_err() {
        return 0;
    }
    if store.append(3, b"cd").is_err() {
        return 1;
    }
    if store.length(3) < 1 || store.punch(3, 0, 1).is_err() {
        return 2;
    }
    3
}

/// The bytes of file 3 of a disk from a place on, as many as `out` takes.
fn reads(disk: &mut MemDisk, at: u64, out: &mut [u8; 2]) -> bool {
    let length = disk.length(3);
    if length < 2 || at > length - 2 {
        return false;
    }
    disk.read(3, at, out).is_ok()
}

/// Whether these two bytes stand there in what a stop leaves, the first of which may be another where it is punched.
fn stands(disk: &mut MemDisk, at: u64, want: &[u8; 2], punched: bool) -> bool {
    let mut out = [0; 2];
    reads(disk, at, &mut out) && out[1] == want[1] && (punched || out[0] == want[0])
}

/// Whether a stop leaves the bytes that were answered, outside of a punch.
fn keeps(disk: &mut MemDisk, known: u8) -> bool {
    (known < 1 || stands(disk, 0, b"ab", known >= 2))
        && (known < 2 || stands(disk, 2, b"cd", false))
        && (known < 3 || stands(disk, 0, b"\0b", false))
}

/// Whether each stop does.
fn keeps_each(alloc: Global, disk: &MemDisk, known: u8) -> bool {
    for pick in 0..3 {
        let Some(mut stopped) = left(alloc, disk, pick) else {
            return false;
        };
        if !keeps(&mut stopped, known) {
            return false;
        }
    }
    true
}

/// How much was answered where the calls from a number on fail, if each stop keeps it.
fn kept(alloc: Global, fuse: u64) -> Option<u8> {
    let mut store = Synced::new(disk(alloc, fuse).ok()?);
    let known = answered(&mut store);
    if !keeps_each(alloc, store.disk(), known) {
        return None;
    }
    Some(known)
}

/// Whether each call takes a write and a sync.
fn is_kept_at_each_fuse(alloc: Global) -> bool {
    let known = [0, 0, 1, 1, 2, 2, 3];
    for fuse in 0..7 {
        if kept(alloc, fuse) != Some(known[fuse as usize]) {
            return false;
        }
    }
    true
}

#[test]
fn each_stop_leaves_what_was_answered(rt: HostRuntime) {
    assert!(rt; is_kept_at_each_fuse(rt.alloc()));
}

/// Whether a store syncs where the calls from a number on fail.
fn syncs(alloc: Global, fuse: u64) -> Option<bool> {
    let mut store = Synced::new(disk(alloc, fuse).ok()?);
    Some(store.sync().is_ok())
}

#[test]
fn a_sync_syncs_eight_files(rt: HostRuntime) {
    assert!(rt; syncs(rt.alloc(), 7) == Some(false));
    assert!(rt; syncs(rt.alloc(), 8) == Some(true));
}
