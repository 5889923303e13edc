//! A disk in memory, whose calls fail where it is told to. It keeps a list of its writes and syncs, from which each of
//! its moments is told.

ghost use Rattle.std.specs.Prelude.{◌≡◌, ◌<◌, ◌≤◌, ◌+◌, ◌-◌, ◌^◌, ℕ, [], true, false, length, max, take, drop, IfOk, Ok, OnOk, OnErr};
ghost use Rattle.std.specs.Result.{is_err};
ghost use Rattle.wtf_dev.specs.Calls.{uncalled};
ghost use Rattle.wtf_dev.specs.Counts.{Rose};
ghost use Rattle.wtf_dev.specs.Disk.{DiskReads, DiskSyncs, DiskWrites, IsSettled, MayLeave, Remains, overwritten};
ghost use Rattle.wtf_dev.specs.DiskTape.{disk_file, disk_view, file_settled, mem_disk, picked, FailsToWrite, IsDiskGrowth, IsDiskRead, NotesSync, NotesWrite, IsEntered, IsNoted};
ghost use Rattle.wtf_dev.specs.DiskTapeLaws.{mem_disk_laws};

use crate::tape::Tape;
use crate::turns::Turns;
use crate::{Disk, Failed};
use std::alloc::Global;
use std::marker::Model;
use wtf_base::OutOfMemory;

/// A disk in memory. It tells its content.
#[derive(Drop)]
pub struct MemDisk {
    alloc: Global,
    tape: Tape,
    turns: Turns,
    fuse: u64,
}

impl Model for MemDisk {
    ghost use Rattle.wtf_dev.specs.DiskTape.{DiskState};

    ghost Value = { DiskState };

    ghost view = { λ m. record { noted = m.tape; counts = m.turns; fuse = m.fuse } };
}

impl MemDisk {
    /// A disk of eight empty files, whose calls with the numbers `fails` fail, and every call from number `fuse` on. All
    /// calls that can fail are counted, from 0. The count stands still at the greatest u64, which is below no fuse.
    pub fn new(alloc: Global, fails: Vec<u64>, fuse: u64) -> Result<MemDisk, OutOfMemory>
        ensures { result ≡ Ok (record {
          noted = [];
          counts = uncalled fails.items;
          fuse = fuse;
        }) }
    {
        Ok(MemDisk {
            alloc,
            tape: Tape::new(alloc),
            turns: Turns::new(fails),
            fuse,
        })
    }

    /// How often a growth found no memory, or would have made a file too long.
    pub fn short(&self) -> u64
        ensures { result ≡ self.now.counts.short }
    {
        self.turns.short()
    }

    /// What a stop now may leave, all of it synced, as a disk that never fails. With 0 pending bytes are as they were at the
    /// last sync, with 1 as a read gives them, with 2 each is 1 and the length is the greatest.
    pub fn stopped(&self, alloc: Global, pick: u8) -> Result<MemDisk, OutOfMemory>
        requires { pick ≤ 2 }
        ensures left { IfOk result (λ d.
            MayLeave (disk_view self.now) (λ f. (disk_file d.noted f).seen)) }
        ensures picked { IfOk result (λ d. (f : ℕ) → f < 8 →
            disk_file d.noted f ≡ file_settled (picked pick (disk_file self.now.noted f))) }
        ensures fresh { IfOk result (λ d.
            (d.counts ≡ uncalled []) × (d.fuse ≡ 2 ^ 64 - 1)) }
    {
        let _held = self.tape.bytes(0);
        let mut tape = Tape::new(alloc);
        for file in 0..8u8 {
            let bytes = self.tape.left(alloc, file, pick)?;
            tape.restore(alloc, file, &bytes)?;
        }
        Ok(MemDisk {
            alloc,
            tape,
            turns: Turns::new(Vec::new(alloc)),
            fuse: u64::MAX,
        })
    }
}

// Writes into a file, or spoils the range where the call is due to fail; false where there is no room, and then nothing
// changes.
fn entered(tape: &mut Tape, alloc: Global, due: bool, file: u8, at: usize, bytes: &[u8]) -> bool
    requires file { file < 8 }
    requires inside { at ≤ length (disk_file tape.old file).seen }
    ensures entered { IsEntered due result file at bytes.now tape.old tape.new }
    ensures fits { result ≡ true → due ≡ false → at + length bytes.now < 2 ^ 61 }
{
    if due {
        // The length of the file shows that the place is below the limit.
        let _held = tape.bytes(file);
        return tape.spoil(file, at, bytes.len());
    }
    tape.write(alloc, file, at, bytes)
}

// Notes a sync where it is not due to fail; false where there is no room, and then nothing changes.
fn noted(tape: &mut Tape, due: bool, file: u8) -> bool
    ensures noted { IsNoted due result file tape.old tape.new }
    ensures due { due ≡ true → result ≡ true }
{
    if due {
        return true;
    }
    tape.settle(file)
}

impl Disk for MemDisk {
    ghost kind = { mem_disk };

    ghost laws = { mem_disk_laws };

    fn length(&self, file: u8) -> u64 {
        self.tape.bytes(file).len() as u64
    }

    fn read(&mut self, file: u8, at: u64, out: &mut [u8]) -> Result<(), Failed>
        requires file { file < 8 }
        requires inside { at + length out.old ≤ (disk_view self.old).size file }
        ensures bytes { OnOk result ((disk_view self.old).tells ≡ true →
            out.new ≡ take (length out.old) (drop at ((disk_view self.old).file file).seen)) }
        ensures kept { DiskReads mem_disk self.old self.new }
        ensures cause { OnErr result
            (Rose (disk_view self.old).faults (disk_view self.new).faults) }

        // It notes nothing.
        ensures call { IsDiskRead (is_err result) self.old self.new }
    {
        let due = self.turns.is_due(self.fuse);
        if !due {
            let from = at as usize;
            out.copy_from_slice(&self.tape.bytes(file)[from..from + out.len()]);
        }
        self.turns.counted(due, true)
    }

    fn write(&mut self, file: u8, at: u64, bytes: &[u8]) -> Result<(), Failed>
        requires file { file < 8 }
        requires inside { at ≤ (disk_view self.old).size file }
        ensures length { OnOk result ((disk_view self.new).size file ≡
            max ((disk_view self.old).size file) (at + length bytes.now)) }
        ensures fits { OnOk result (at + length bytes.now < 2 ^ 61) }
        ensures written { OnOk result ((disk_view self.old).tells ≡ true →
            ((disk_view self.new).file file).seen ≡
            overwritten ((disk_view self.old).file file).seen at bytes.now) }
        ensures kept { DiskWrites mem_disk file at (length bytes.now) self.old self.new }
        ensures cause { OnErr result
            (Rose (disk_view self.old).faults (disk_view self.new).faults) }

        // It notes the write, or that its range is spoiled.
        ensures noted { OnOk result (NotesWrite file at bytes.now self.old.noted self.new.noted) }
        ensures spoiled { OnErr result
            (FailsToWrite file at (length bytes.now) self.old self.new) }
        ensures call { IsDiskGrowth (is_err result) self.old self.new }
    {
        let due = self.turns.is_due(self.fuse);
        let _held = self.tape.bytes(file);
        let room = entered(&mut self.tape, self.alloc, due, file, at as usize, bytes);
        self.turns.counted(due, room)
    }

    fn sync(&mut self, file: u8) -> Result<(), Failed>
        requires { file < 8 }
        ensures settled { OnOk result ((disk_view self.old).tells ≡ true →
            IsSettled ((disk_view self.old).file file).seen ((disk_view self.new).file file)) }
        ensures remains { OnErr result ((disk_view self.old).tells ≡ true →
            Remains ((disk_view self.old).file file) ((disk_view self.new).file file)) }
        ensures kept { DiskSyncs mem_disk file self.old self.new }
        ensures cause { OnErr result
            (Rose (disk_view self.old).faults (disk_view self.new).faults) }

        // It notes the sync of this file, or changes nothing.
        ensures noted { OnOk result (NotesSync file self.old.noted self.new.noted) }
        ensures same { OnErr result (self.new.noted ≡ self.old.noted) }
        ensures call { IsDiskGrowth (is_err result) self.old self.new }
    {
        let due = self.turns.is_due(self.fuse);
        let room = noted(&mut self.tape, due, file);
        self.turns.counted(due, room)
    }
}
