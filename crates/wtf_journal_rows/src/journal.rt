//! A journal that is appended to and opened with each call that fails, and what each stop leaves of it.

ghost use Rattle.std.specs.Prelude.{nat_eq, length, slice_index_or, if◌then◌else◌, Some, None};

use crate::disks::{disk, disk_of, left};
use std::alloc::Global;
use wtf_base::OutOfMemory;
use wtf_dev::{Disk, MemDisk};
use wtf_journal::{Journal, JournalFault, Meaning, Record};

/// The byte of the last body, where each is of an image or of changes of one byte.
#[derive(Drop)]
struct Last {
    byte: u8,
}

impl Meaning for Last {
    ghost makes = { λ last body. if nat_eq (length body) 2 then Some (record { byte = slice_index_or body 1 0 }) else None };

    fn take(&mut self, body: &[u8]) -> Result<bool, OutOfMemory> {
        if body.len() != 2 {
            return Ok(false);
        }
        self.byte = body[1];
        Ok(true)
    }
}

/// How many of the bytes 1, 2 and 3 were acknowledged by a journal that is opened on a disk.
fn acknowledged(alloc: Global, disk: &mut MemDisk) -> u8 {
    let mut last = Last { byte: 0 };
    let Ok(mut journal) = Journal::open_with(alloc, &mut last, disk) else {
        return 0;
    };
    if journal.append(disk, Record::Image(&[1])).is_err() {
        return 0;
    }
    if journal.append(disk, Record::Changes(&[2])).is_err() {
        return 1;
    }
    if journal.append(disk, Record::Changes(&[3])).is_err() {
        return 2;
    }
    3
}

/// The last byte of a journal on a disk, or why it is not opened.
fn last_body(alloc: Global, disk: &mut MemDisk) -> Result<u8, JournalFault> {
    let mut last = Last { byte: 0 };
    Journal::open_with(alloc, &mut last, disk)?;
    Ok(last.byte)
}

/// The last byte of the journal that a stop leaves.
fn last_left(alloc: Global, disk: &MemDisk, pick: u8) -> Option<u8> {
    let mut stopped = left(alloc, disk, pick)?;
    last_body(alloc, &mut stopped).ok()
}

/// Whether each stop leaves what was acknowledged, or one record more.
fn keeps(alloc: Global, disk: &MemDisk, known: u8) -> bool {
    for pick in 0..3 {
        let Some(byte) = last_left(alloc, disk, pick) else {
            return false;
        };
        if byte != known && (known == u8::MAX || byte != known + 1) {
            return false;
        }
    }
    true
}

/// How many were acknowledged where the calls from a number on fail, if each stop keeps them.
fn kept(alloc: Global, fuse: u64) -> Option<u8> {
    let mut disk = disk(alloc, fuse).ok()?;
    let known = acknowledged(alloc, &mut disk);
    if !keeps(alloc, &disk, known) {
        return None;
    }
    Some(known)
}

/// Whether opening takes three calls and each record four.
fn is_kept_at_each_fuse(alloc: Global) -> bool {
    let known = [0, 0, 0, 0, 0, 0, 0, 1, 1, 1, 1, 2, 2, 2, 2, 3];
    for fuse in 0..16 {
        if kept(alloc, fuse) != Some(known[fuse as usize]) {
            return false;
        }
    }
    true
}

#[test]
fn each_stop_leaves_what_was_acknowledged(rt: HostRuntime) {
    assert!(rt; is_kept_at_each_fuse(rt.alloc()));
}

/// Whether a journal of these bytes has this last byte, or is refused so.
fn opens(alloc: Global, bytes: &[u8], want: Result<u8, JournalFault>) -> bool {
    let Some(mut disk) = disk_of(alloc, bytes) else {
        return false;
    };
    last_body(alloc, &mut disk) == want
}

#[test]
fn a_journal_of_at_most_one_byte_has_no_record(rt: HostRuntime) {
    assert!(rt; opens(rt.alloc(), b"", Ok(0)));
    assert!(rt; opens(rt.alloc(), b"\x01", Ok(0)));
    assert!(rt; opens(rt.alloc(), b"\x09", Ok(0)));
}

#[test]
fn records_are_read_up_to_a_closed_gate(rt: HostRuntime) {
    assert!(rt; opens(rt.alloc(), b"\x01\0\0\0\0\0\0\0\x02\0\x07\0\x01", Ok(7)));
    assert!(rt; opens(rt.alloc(), b"\x02\x01", Ok(0)));
}

#[test]
fn a_record_that_is_not_in_the_format_is_refused(rt: HostRuntime) {
    let cut = b"\x01\0\0\0\0\0\0\0\x02\0\x07";
    assert!(rt; opens(rt.alloc(), cut, Err(JournalFault::NotAJournal(0))));
    let second = b"\x01\0\0\0\0\0\0\0\x02\0\x07\x01\0\0\0\0\0\0\0\x03\0\x08\x09\0";
    assert!(rt; opens(rt.alloc(), second, Err(JournalFault::NotAJournal(11))));
}
