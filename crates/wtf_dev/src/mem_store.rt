//! A store in memory, whose calls fail where it is told to.

ghost use Rattle.std.specs.Prelude.{◌≡◌, ◌≢◌, ◌<◌, ◌≤◌, ◌+◌, ◌^◌, ◌++◌, ℕ, [], ◌∷◌, true, Some, length, take, drop, replicate, slice_set, IfOk, OnOk, OnErr};
ghost use Rattle.std.specs.Result.{is_err};
ghost use Rattle.wtf_dev.specs.Counts.{Rose, risen};
ghost use Rattle.wtf_dev.specs.Calls.{uncalled, IsCall, IsGrowth};
ghost use Rattle.wtf_dev.specs.Store.{Appended, Agrees, SameSizes};
ghost use Rattle.wtf_dev.specs.Memory.{file_bytes, ZeroedIn, store_view, StoreFollows, mem_store};
ghost use Rattle.wtf_dev.specs.MemoryLaws.{mem_store_laws};

use crate::files::Files;
use crate::turns::Turns;
use crate::{Failed, SliceStore};
use std::alloc::Global;
use std::marker::Model;

/// A store in memory. It tells its content.
#[derive(Drop)]
pub struct MemStore {
    files: Files,
    turns: Turns,
    syncs: u64,
}

impl Model for MemStore {
    ghost use Rattle.wtf_dev.specs.Memory.{StoreState};

    ghost Value = { StoreState };

    ghost view = { λ m. record { files = m.files; calls = m.turns; syncs = m.syncs } };
}

impl MemStore {
    /// A store of eight empty files, whose calls with the numbers `fails` fail. All calls that can fail are
    /// counted, from 0.
    pub fn new(alloc: Global, fails: Vec<u64>) -> MemStore
        ensures value { result ≡ record {
          files = replicate 8 [];
          calls = uncalled fails.items;
          syncs = 0;
        } }
        ensures tells { (store_view result).tells ≡ true }
    {
        MemStore {
            files: Files::new(alloc),
            turns: Turns::new(fails),
            syncs: 0,
        }
    }

    /// How often a growth found no memory, or would have made a file too long.
    pub fn short(&self) -> u64
        ensures { result ≡ self.now.calls.short }
    {
        self.turns.short()
    }
}

impl SliceStore for MemStore {
    ghost kind = { mem_store };

    ghost laws = { mem_store_laws };

    fn length(&self, file: u8) -> u64 {
        self.files.bytes(file).len() as u64
    }

    fn append(&mut self, file: u8, bytes: &[u8]) -> Result<u64, Failed>
        requires { file < 8 }
        ensures done { IfOk result
            (Appended (store_view self.old) (store_view self.new) file bytes.now) }
        ensures fits { IfOk result (λ at. at + length bytes.now < 2 ^ 61) }
        ensures others { (f : ℕ) → f ≢ file →
            (store_view self.new).size f ≡ (store_view self.old).size f }
        ensures syncs { (store_view self.new).syncs ≡ (store_view self.old).syncs }
        ensures follows { StoreFollows self.old self.new [] }
        ensures cause { OnErr result
            (Rose (store_view self.old).faults (store_view self.new).faults) }

        // It adds all bytes, or none.
        ensures grown { OnOk result (self.new.files ≡
            slice_set self.old.files file (file_bytes self.old file ++ bytes.now)) }
        ensures same { OnErr result (self.new.files ≡ self.old.files) }
        ensures call { IsGrowth (is_err result) self.old.calls self.new.calls }
    {
        self.turns.next()?;
        let at = self.files.bytes(file).len();
        if !self.files.grow(file, bytes) {
            return Err(self.turns.lack());
        }
        Ok(at as u64)
    }

    fn read(&mut self, file: u8, at: u64, out: &mut [u8]) -> Result<(), Failed>
        requires file { file < 8 }
        requires inside { at + length out.old ≤ (store_view self.old).size file }
        ensures bytes { OnOk result (Agrees (store_view self.old) file at out.new) }
        ensures sizes { SameSizes (store_view self.old) (store_view self.new) }
        ensures syncs { (store_view self.new).syncs ≡ (store_view self.old).syncs }
        ensures follows { StoreFollows self.old self.new [] }
        ensures cause { OnErr result
            (Rose (store_view self.old).faults (store_view self.new).faults) }

        // It gives the bytes there, and changes none.
        ensures gives { OnOk result (out.new ≡
            take (length out.old) (drop at (file_bytes self.old file))) }
        ensures files { self.new.files ≡ self.old.files }
        ensures call { IsCall (is_err result) self.old.calls self.new.calls }
    {
        self.turns.next()?;
        let from = at as usize;
        out.copy_from_slice(&self.files.bytes(file)[from..from + out.len()]);
        Ok(())
    }

    fn punch(&mut self, file: u8, at: u64, len: u64) -> Result<(), Failed>
        requires file { file < 8 }
        requires inside { at + len ≤ (store_view self.old).size file }
        ensures zeros { OnOk result ((store_view self.old).tells ≡ true → (i : ℕ) → at ≤ i →
            i < at + len →
            (store_view self.new).told file i ≡ Some 0) }
        ensures elsewhere { (f i b : ℕ) → f ≢ file → (store_view self.old).told f i ≡ Some b →
            (store_view self.new).told f i ≡ Some b }
        ensures before { (i b : ℕ) → i < at → (store_view self.old).told file i ≡ Some b →
            (store_view self.new).told file i ≡ Some b }
        ensures behind { (i b : ℕ) → at + len ≤ i → (store_view self.old).told file i ≡ Some b →
            (store_view self.new).told file i ≡ Some b }
        ensures sizes { SameSizes (store_view self.old) (store_view self.new) }
        ensures syncs { (store_view self.new).syncs ≡ (store_view self.old).syncs }
        ensures follows { StoreFollows self.old self.new
            (record { file = file; at = at; len = len } ∷ []) }
        ensures cause { OnErr result
            (Rose (store_view self.old).faults (store_view self.new).faults) }

        // It zeroes these bytes, or none.
        ensures punched { OnOk result (ZeroedIn self.old.files self.new.files file at (at + len)) }
        ensures same { OnErr result (self.new.files ≡ self.old.files) }
        ensures call { IsCall (is_err result) self.old.calls self.new.calls }
    {
        self.turns.next()?;
        // The length of the file shows that the end of the range is a `usize`.
        let _held = self.files.bytes(file);
        let from = at as usize;
        self.files.zero(file, from, from + len as usize);
        Ok(())
    }

    fn sync(&mut self) -> Result<(), Failed>
        ensures synced { OnOk result
            (Rose (store_view self.old).syncs (store_view self.new).syncs) }
        ensures unsynced { OnErr result ((store_view self.new).syncs ≡
            (store_view self.old).syncs) }
        ensures sizes { SameSizes (store_view self.old) (store_view self.new) }
        ensures follows { StoreFollows self.old self.new [] }
        ensures cause { OnErr result
            (Rose (store_view self.old).faults (store_view self.new).faults) }

        // It changes no byte.
        ensures files { self.new.files ≡ self.old.files }
        ensures counts { OnOk result (self.new.syncs ≡ risen self.old.syncs) }
        ensures call { IsCall (is_err result) self.old.calls self.new.calls }
    {
        self.turns.next()?;
        self.syncs = self.syncs.saturating_add(1);
        Ok(())
    }
}
