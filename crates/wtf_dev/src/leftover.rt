//! What a stop leaves of a file of a disk in memory, told from its calls.

ghost use Rattle.std.specs.Prelude.{◌≡◌, [], length, replicate, if◌then◌else◌, IfOk, OnOk};
ghost use Rattle.wtf_dev.specs.Disk.{overwritten};
ghost use Rattle.wtf_dev.specs.DiskTape.{disk_file, FileState, IsLeftover, file_after, file_settled};

use crate::DiskCall;
use crate::files::over;
use std::alloc::Global;
use wtf_base::OutOfMemory;

// A file as it was behind some of the calls, and what a stop then left of it: the bytes of the last sync, or with every
// pending byte 1 at the greatest length.
#[derive(Drop)]
struct Leftover {
    file: u8,
    ones: bool,
    seen: Vec<u8>,
    left: Vec<u8>,
}

/// What a stop behind these calls leaves of a file: the bytes of its last sync, or with every pending byte 1 at the
/// greatest length.
pub(crate) fn left_of(
    alloc: Global,
    calls: &[DiskCall],
    file: u8,
    ones: bool,
) -> Result<Vec<u8>, OutOfMemory>
    ensures { IfOk result (λ v. v.items ≡ (if ones then (disk_file calls.now file).ones
        else (disk_file calls.now file).synced)) }
{
    let mut leftover = Leftover::new(alloc, file, ones);
    for call in calls {
        leftover.redo(alloc, call)?;
    }
    Ok(leftover.left)
}

impl Leftover {
    // An empty file.
    fn new(alloc: Global, file: u8, ones: bool) -> Leftover
        ensures file { result.file ≡ file }
        ensures ones { result.ones ≡ ones }
        ensures empty { IsLeftover ones result.seen.items result.left.items (file_settled []) }
    {
        Leftover {
            file,
            ones,
            seen: Vec::new(alloc),
            left: Vec::new(alloc),
        }
    }

    // Does a call again, where it is on this file.
    fn redo(&mut self, alloc: Global, call: &DiskCall) -> Result<(), OutOfMemory>
        ensures file { self.new.file ≡ self.old.file }
        ensures ones { self.new.ones ≡ self.old.ones }
        ensures redone { OnOk result ((s : FileState) →
            IsLeftover self.old.ones self.old.seen.items self.old.left.items s →
            IsLeftover self.old.ones self.new.seen.items self.new.left.items
            (file_after self.old.file s call.now)) }
    {
        if call.file() != self.file {
            return Ok(());
        }
        match call {
            DiskCall::Wrote { at, bytes, .. } => return self.write(alloc, *at, bytes),
            DiskCall::Spoiled { at, len, .. } => return self.spoil(alloc, *at, *len),
            DiskCall::Settled { .. } => return self.settle(alloc),
        }
    }

    // Writes bytes from a place on.
    fn write(&mut self, alloc: Global, at: usize, bytes: &[u8]) -> Result<(), OutOfMemory>
        ensures file { self.new.file ≡ self.old.file }
        ensures ones { self.new.ones ≡ self.old.ones }
        ensures seen { OnOk result (self.new.seen.items ≡
            overwritten self.old.seen.items at bytes.now) }
        ensures left { OnOk result (self.new.left.items ≡ (if self.old.ones
            then overwritten self.old.left.items at (replicate (length bytes.now) 1)
            else self.old.left.items)) }
    {
        if !over(&mut self.seen, at, bytes) {
            return Err(OutOfMemory);
        }
        self.spoil(alloc, at, bytes.len())
    }

    // Makes so many bytes from a place on pending.
    fn spoil(&mut self, alloc: Global, at: usize, len: usize) -> Result<(), OutOfMemory>
        ensures file { self.new.file ≡ self.old.file }
        ensures ones { self.new.ones ≡ self.old.ones }
        ensures seen { self.new.seen.items ≡ self.old.seen.items }
        ensures left { OnOk result (self.new.left.items ≡ (if self.old.ones
            then overwritten self.old.left.items at (replicate len 1)
            else self.old.left.items)) }
    {
        if !self.ones {
            return Ok(());
        }
        let ones = Vec::from_elem(alloc, 1u8, len)?;
        if !over(&mut self.left, at, &ones) {
            return Err(OutOfMemory);
        }
        Ok(())
    }

    // Brings the file to where it lasts.
    fn settle(&mut self, alloc: Global) -> Result<(), OutOfMemory>
        ensures file { self.new.file ≡ self.old.file }
        ensures ones { self.new.ones ≡ self.old.ones }
        ensures seen { self.new.seen.items ≡ self.old.seen.items }
        ensures left { OnOk result (self.new.left.items ≡ self.old.seen.items) }
    {
        self.left = self.seen.to_vec(alloc)?;
        Ok(())
    }
}
