//! A store of slices over a disk. What it answers `Ok` to outlives a stop.

ghost use Rattle.std.specs.Prelude.{◌≡◌, ◌<◌, ◌≤◌, ℕ, [], true, OnOk, OnErr};
ghost use Rattle.wtf_dev.specs.Counts.{Rose};
ghost use Rattle.wtf_dev.specs.Disk.{IsSettled};
ghost use Rattle.wtf_dev.specs.Store.{SameSizes};
ghost use Rattle.wtf_journal.specs.Follows.{synced_view, synced_kind, synced_laws, SyncedFollows};

use crate::through::{write_through, write_zeros};
use std::marker::Model;
use wtf_dev::{Disk, Failed, SliceStore};

/// A store over a disk. It tells the bytes that are not pending, and shows what a read of the disk gives.
#[derive(Drop)]
pub struct Synced<D> {
    disk: D,
    syncs: u64,
}

impl<D> Model for Synced<D> {
    ghost use Rattle.wtf_journal.specs.Follows.{SyncedState};

    ghost Value = { SyncedState D };

    ghost view = { λ s. record { disk = s.disk; syncs = s.syncs } };
}

impl<D> Synced<D> {
    /// The files of a disk as those of a store.
    pub fn new(disk: D) -> Synced<D>
        ensures { result ≡ record { disk = disk; syncs = 0 } }
    {
        Synced { disk, syncs: 0 }
    }

    /// The disk.
    pub fn disk(&self) -> &D
        ensures { result.now ≡ self.now.disk }
    {
        &self.disk
    }
}

impl<D: Disk> SliceStore for Synced<D> {
    ghost kind = { synced_kind D.kind };

    ghost laws = { synced_laws D.kind D.laws };

    fn length(&self, file: u8) -> u64 {
        self.disk.length(file)
    }

    fn append(&mut self, file: u8, bytes: &[u8]) -> Result<u64, Failed> {
        let at = self.disk.length(file);
        write_through(&mut self.disk, file, at, bytes)?;
        Ok(at)
    }

    fn read(&mut self, file: u8, at: u64, out: &mut [u8]) -> Result<(), Failed> {
        self.disk.read(file, at, out)
    }

    fn punch(&mut self, file: u8, at: u64, len: u64) -> Result<(), Failed> {
        write_zeros(&mut self.disk, file, at, len)?;
        self.disk.sync(file)
    }

    fn sync(&mut self) -> Result<(), Failed>
        ensures synced { OnOk result (Rose (synced_view (D.kind.view self.old.disk) self.old.syncs).syncs
            (synced_view (D.kind.view self.new.disk) self.new.syncs).syncs) }
        ensures unsynced { OnErr result ((synced_view (D.kind.view self.new.disk) self.new.syncs).syncs ≡
            (synced_view (D.kind.view self.old.disk) self.old.syncs).syncs) }
        ensures sizes { SameSizes (synced_view (D.kind.view self.old.disk) self.old.syncs)
            (synced_view (D.kind.view self.new.disk) self.new.syncs) }
        ensures follows { SyncedFollows D.kind self.old self.new [] }
        ensures cause { OnErr result
            (Rose (D.kind.view self.old.disk).faults (D.kind.view self.new.disk).faults) }

        // Nothing of the eight files is pending behind it.
        ensures settled { OnOk result ((D.kind.view self.old.disk).tells ≡ true → (f : ℕ) → f < 8 →
            IsSettled ((D.kind.view self.old.disk).file f).seen
            ((D.kind.view self.new.disk).file f)) }
    {
        sync_all(&mut self.disk)?;
        self.syncs = self.syncs.saturating_add(1);
        Ok(())
    }
}

// Brings the bytes of all files to where they last.
fn sync_all<D: Disk>(disk: &mut D) -> Result<(), Failed>
    ensures settled { OnOk result ((D.kind.view disk.old).tells ≡ true → (f : ℕ) → f < 8 →
        IsSettled ((D.kind.view disk.old).file f).seen ((D.kind.view disk.new).file f)) }
    ensures sizes { (f : ℕ) → (D.kind.view disk.new).size f ≡ (D.kind.view disk.old).size f }
    ensures follows { (s t : ℕ) → s ≤ t → SyncedFollows D.kind
        (record { disk = disk.old; syncs = s }) (record { disk = disk.new; syncs = t }) [] }
    ensures cause { OnErr result
        (Rose (D.kind.view disk.old).faults (D.kind.view disk.new).faults) }
{
    for file in 0..8u8 {
        disk.sync(file)?;
    }
    Ok(())
}
