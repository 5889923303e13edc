//! The files of a disk in memory, and the list of what was done to them.

ghost use Rattle.std.specs.Prelude.{◌≡◌, ◌<◌, ◌≤◌, ◌+◌, ◌-◌, ◌^◌, ◌++◌, ◌∷◌, [], ℕ, ◌≢◌, true, false, length, IfOk, OnOk};
ghost use Rattle.wtf_dev.specs.DiskTape.{disk_file, file_settled, picked, NotesSpoil, NotesSync, NotesWrite};

use crate::DiskCall;
use crate::files::Files;
use crate::leftover::left_of;
use std::alloc::Global;
use std::marker::Model;
use wtf_base::OutOfMemory;

// No file is longer than this, in bytes.
const MOST: usize = (1 << 61) - 1;

/// The writes and syncs since the eight files were made, and what a read of each gives now.
#[derive(Drop)]
pub(crate) struct Tape {
    held: Files,
    noted: Vec<DiskCall>,
}

impl Model for Tape {
    ghost use Rattle.std.specs.Prelude.{List};
    ghost use Rattle.wtf_dev.specs.DiskTape.{HoldsNow};
    ghost use Rattle.wtf_dev.specs.declared.disk_call.DiskCall.{DiskCall};

    ghost Value = { List DiskCall };

    ghost view = { λ t. t.noted.items };

    ghost invariant = { λ t. HoldsNow t.noted.items t.held };
}

impl Tape {
    /// Eight empty files.
    pub(crate) fn new(alloc: Global) -> Tape
        ensures { result ≡ [] }
    {
        Tape {
            held: Files::new(alloc),
            noted: Vec::new(alloc),
        }
    }

    /// What a read of a file gives.
    pub(crate) fn bytes(&self, file: u8) -> &[u8]
        requires { file < 8 }
        ensures value { result.now ≡ (disk_file self.now file).seen }
        ensures fits { length result.now < 2 ^ 61 }
        ensures past { (f : ℕ) → 8 ≤ f → (disk_file self.now f).seen ≡ [] }
    {
        self.held.bytes(file)
    }

    /// What a stop now may leave of a file: with 0 the bytes of its last sync, with 1 those that a read gives, else with
    /// every pending byte 1 at the greatest length.
    pub(crate) fn left(&self, alloc: Global, file: u8, pick: u8) -> Result<Vec<u8>, OutOfMemory>
        requires { file < 8 }
        ensures { IfOk result (λ v. v.items ≡ picked pick (disk_file self.now file)) }
    {
        if pick == 1 {
            return Ok(self.held.bytes(file).to_vec(alloc)?);
        }
        left_of(alloc, &self.noted, file, pick != 0)
    }

    /// Fills an empty file, and brings it to where it lasts.
    pub(crate) fn restore(
        &mut self,
        alloc: Global,
        file: u8,
        bytes: &[u8],
    ) -> Result<(), OutOfMemory>
        requires file { file < 8 }
        requires empty { disk_file self.old file ≡ file_settled [] }
        ensures restored { OnOk result (disk_file self.new file ≡ file_settled bytes.now) }
        ensures others { OnOk result ((f : ℕ) → f ≢ file →
            disk_file self.new f ≡ disk_file self.old f) }
    {
        if self.write(alloc, file, 0, bytes) && self.settle(file) {
            return Ok(());
        }
        Err(OutOfMemory)
    }

    /// Writes into a file; false where there is no room, and then nothing changes.
    pub(crate) fn write(&mut self, alloc: Global, file: u8, at: usize, bytes: &[u8]) -> bool
        requires file { file < 8 }
        requires inside { at ≤ length (disk_file self.old file).seen }
        ensures noted { result ≡ true → NotesWrite file at bytes.now self.old self.new }
        ensures room { result ≡ true → at + length bytes.now < 2 ^ 61 }
        ensures same { result ≡ false → self.new ≡ self.old }
    {
        let Ok(copy) = bytes.to_vec(alloc) else {
            return false;
        };
        if !note(
            &mut self.noted,
            DiskCall::Wrote {
                file,
                at,
                bytes: copy,
            },
        ) {
            return false;
        }
        if !self.held.over(file, at, bytes) {
            let _undone = self.noted.pop();
            return false;
        }
        true
    }

    /// Spoils a range of a file, as far as a file can reach; false where there is no room to note it, and then nothing changes.
    pub(crate) fn spoil(&mut self, file: u8, at: usize, len: usize) -> bool
        requires { at < 2 ^ 61 }
        ensures noted { result ≡ true → NotesSpoil file at len self.old self.new }
        ensures same { result ≡ false → self.new ≡ self.old }
    {
        let reach = len.min(MOST - at);
        note(
            &mut self.noted,
            DiskCall::Spoiled {
                file,
                at,
                len: reach,
            },
        )
    }

    /// Brings a file to where it lasts; false where there is no room to note it, and then nothing changes.
    pub(crate) fn settle(&mut self, file: u8) -> bool
        ensures noted { result ≡ true → NotesSync file self.old self.new }
        ensures same { result ≡ false → self.new ≡ self.old }
    {
        note(&mut self.noted, DiskCall::Settled { file })
    }
}

// Notes a call; false where there is no room for it.
fn note(noted: &mut Vec<DiskCall>, next: DiskCall) -> bool
    ensures noted { result ≡ true → noted.new.items ≡ noted.old.items ++ next ∷ [] }
    ensures same { result ≡ false → noted.new.items ≡ noted.old.items }
{
    noted.push(next).is_ok()
}
