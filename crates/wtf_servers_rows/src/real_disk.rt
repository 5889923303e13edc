//! A disk over a folder, and over files that note what they are asked.

use crate::noted::noted_file;
use crate::real::{Log, clears, fresh, hold, is_noted, new_log};
use std::fs::File;
use wtf_dev::{Disk, Failed};
use wtf_real::{DirDisk, FolderLock, SliceFile};

/// Whether bytes of a file are written from a place on, or fail to be.
fn writes<F: SliceFile + Drop>(disk: &mut DirDisk<F>, file: u8, at: u64, bytes: &[u8]) -> bool {
    file < 8 && at <= disk.length(file) && disk.write(file, at, bytes) == Ok(())
}

/// Whether a file is brought to where it lasts, or fails to be.
fn syncs<F: SliceFile + Drop>(disk: &mut DirDisk<F>, file: u8, want: Result<(), Failed>) -> bool {
    file < 8 && disk.sync(file) == want
}

/// Whether these are all bytes of a file.
fn holds(disk: &mut DirDisk<File>, file: u8, want: &[u8; 5]) -> bool {
    let mut out = [0; 5];
    file < 8 && disk.length(file) == 5 && disk.read(file, 0, &mut out) == Ok(()) && out == *want
}

/// Whether a disk takes bytes over others and past the end.
fn takes(disk: &mut DirDisk<File>) -> bool {
    writes(disk, 0, 0, b"abcd")
        && writes(disk, 0, 3, b"XY")
        && holds(disk, 0, b"abcXY")
        && syncs(disk, 0, Ok(()))
}

/// Whether another disk of the folder finds what one wrote.
fn finds(rt: &HostRuntime, lock: &FolderLock<File>) -> bool {
    let Ok(mut disk) = DirDisk::open(rt, lock, "journal") else {
        return false;
    };
    holds(&mut disk, 0, b"abcXY") && disk.length(7) == 0
}

/// Whether the disk of a folder holds what was written.
fn is_kept(rt: &HostRuntime, path: &str) -> bool {
    let Ok(lock) = hold(rt, path) else {
        return false;
    };
    let Ok(mut disk) = DirDisk::open(rt, &lock, "journal") else {
        return false;
    };
    takes(&mut disk) && finds(rt, &lock)
}

/// Whether it does so in a fresh folder.
fn is_kept_in(rt: &HostRuntime, name: &str) -> bool {
    let Ok(path) = fresh(rt, name) else {
        return false;
    };
    let kept = is_kept(rt, path.as_str());
    clears(rt, path.as_str()) && kept
}

#[test]
fn a_disk_is_written_in_place(rt: HostRuntime) {
    assert!(rt; is_kept_in(&rt, "disk"));
}

/// Whether a disk over files that note asks one file at a time, at the place that it is told.
fn asks(log: &Log) -> bool {
    let mut disk = DirDisk::of_empty([
        noted_file(log, 0, 2),
        noted_file(log, 1, 2),
        noted_file(log, 2, 2),
        noted_file(log, 3, 2),
        noted_file(log, 4, 2),
        noted_file(log, 5, 2),
        noted_file(log, 6, 2),
        noted_file(log, 7, 2),
    ]);
    writes(&mut disk, 3, 0, b"abcd")
        && writes(&mut disk, 3, 1, b"x")
        && syncs(&mut disk, 3, Ok(()))
        && syncs(&mut disk, 2, Err(Failed))
        && is_noted(log, b"3w0abcd3w1x3s02s0")
}

#[test]
fn a_disk_asks_one_file_at_a_time(rt: HostRuntime) {
    assert!(rt; asks(&new_log(rt.alloc())));
}
