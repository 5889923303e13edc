//! A store of which calls fail, or that takes only so many bytes, or that gives zeros in place of what it holds.

ghost use Rattle.std.specs.Prelude.{◌≡◌, ◌≢◌, ◌<◌, ◌≤◌, ◌+◌, ◌^◌, ℕ, true, Some, [], ◌∷◌, length, IfOk, OnOk, OnErr};
ghost use Rattle.wtf_dev.specs.Counts.{Rose};
ghost use Rattle.wtf_dev.specs.Store.{Appended, Agrees, SameSizes, Kept};
ghost use Rattle.wtf_hostile.specs.Odd.{odd_view, odd_store, odd_laws};

use crate::fault::{Fault, How, NONE};
use std::alloc::Global;
use std::marker::Model;
use wtf_dev::{Failed, MemStore, SliceStore};

/// A store over one in memory, which never fails but where the fault says so.
#[derive(Drop)]
pub struct OddStore {
    store: MemStore,
    fault: Fault,
    calls: u64,
    taken: u64,
    faults: u64,
}

impl Model for OddStore {
    ghost use Rattle.wtf_hostile.specs.Odd.{OddState};

    ghost Value = { OddState };

    ghost view = { λ s. record { store = s.store; faults = s.faults } };
}

impl OddStore {
    /// An empty store, which is odd where the fault says so.
    pub fn new(alloc: Global, fault: Fault) -> OddStore {
        OddStore {
            store: MemStore::new(alloc, Vec::new(alloc)),
            fault,
            calls: 0,
            taken: 0,
            faults: 0,
        }
    }

    /// How often it failed. No call fails any more, but for want of room.
    pub fn settle(&mut self) -> u64 {
        if let How::Calls(_) = self.fault.how {
            self.fault = NONE;
        }
        self.faults
    }

    /// Whether it gives zeros.
    fn gives_zeros(&self) -> bool {
        match self.fault.how {
            How::Zeros => true,
            _ => false,
        }
    }

    /// Counts a failure.
    fn raise(&mut self) -> Failed
        ensures store { self.new.store ≡ self.old.store }
        ensures faults { Rose self.old.faults self.new.faults }
        ensures grown { self.old.faults ≤ self.new.faults }
    {
        self.faults = self.faults.saturating_add(1);
        Failed
    }
}

impl SliceStore for OddStore {
    ghost kind = { odd_store };

    ghost laws = { odd_laws };

    fn length(&self, file: u8) -> u64 {
        self.store.length(file)
    }

    fn append(&mut self, file: u8, bytes: &[u8]) -> Result<u64, Failed>
        requires { file < 8 }
        ensures done { IfOk result
            (Appended (odd_view self.old) (odd_view self.new) file bytes.now) }
        ensures fits { IfOk result (λ at. at + length bytes.now < 2 ^ 61) }
        ensures others { (f : ℕ) → f ≢ file →
            (odd_view self.new).size f ≡ (odd_view self.old).size f }
        ensures syncs { (odd_view self.new).syncs ≡ (odd_view self.old).syncs }
        ensures follows { Kept (odd_view self.old) (odd_view self.new) [] }
        ensures cause { OnErr result (Rose (odd_view self.old).faults (odd_view self.new).faults) }
    {
        let sum = self.taken.saturating_add(bytes.len() as u64);
        let due = self.fault.is_due(self.calls, sum);
        self.calls = self.calls.saturating_add(1);
        if due {
            return Err(self.raise());
        }
        let Ok(at) = self.store.append(file, bytes) else {
            return Err(self.raise());
        };
        self.taken = sum;
        Ok(at)
    }

    fn read(&mut self, file: u8, at: u64, out: &mut [u8]) -> Result<(), Failed>
        requires file { file < 8 }
        requires inside { at + length out.old ≤ (odd_view self.old).size file }
        ensures bytes { OnOk result (Agrees (odd_view self.old) file at out.new) }
        ensures sizes { SameSizes (odd_view self.old) (odd_view self.new) }
        ensures syncs { (odd_view self.new).syncs ≡ (odd_view self.old).syncs }
        ensures follows { Kept (odd_view self.old) (odd_view self.new) [] }
        ensures cause { OnErr result (Rose (odd_view self.old).faults (odd_view self.new).faults) }
    {
        let due = self.fault.is_due(self.calls, self.taken);
        self.calls = self.calls.saturating_add(1);
        if due {
            return Err(self.raise());
        }
        let Ok(()) = self.store.read(file, at, out) else {
            return Err(self.raise());
        };
        if self.gives_zeros() {
            out.fill(0);
        }
        Ok(())
    }

    fn punch(&mut self, file: u8, at: u64, len: u64) -> Result<(), Failed>
        requires file { file < 8 }
        requires inside { at + len ≤ (odd_view self.old).size file }
        ensures zeros { OnOk result ((odd_view self.old).tells ≡ true → (i : ℕ) → at ≤ i →
            i < at + len →
            (odd_view self.new).told file i ≡ Some 0) }
        ensures elsewhere { (f i b : ℕ) → f ≢ file → (odd_view self.old).told f i ≡ Some b →
            (odd_view self.new).told f i ≡ Some b }
        ensures before { (i b : ℕ) → i < at → (odd_view self.old).told file i ≡ Some b →
            (odd_view self.new).told file i ≡ Some b }
        ensures behind { (i b : ℕ) → at + len ≤ i → (odd_view self.old).told file i ≡ Some b →
            (odd_view self.new).told file i ≡ Some b }
        ensures sizes { SameSizes (odd_view self.old) (odd_view self.new) }
        ensures syncs { (odd_view self.new).syncs ≡ (odd_view self.old).syncs }
        ensures follows { Kept (odd_view self.old) (odd_view self.new)
            (record { file = file; at = at; len = len } ∷ []) }
        ensures cause { OnErr result (Rose (odd_view self.old).faults (odd_view self.new).faults) }
    {
        let due = self.fault.is_due(self.calls, self.taken);
        self.calls = self.calls.saturating_add(1);
        if due {
            return Err(self.raise());
        }
        let Ok(()) = self.store.punch(file, at, len) else {
            return Err(self.raise());
        };
        Ok(())
    }

    fn sync(&mut self) -> Result<(), Failed>
        ensures synced { OnOk result (Rose (odd_view self.old).syncs (odd_view self.new).syncs) }
        ensures unsynced { OnErr result ((odd_view self.new).syncs ≡
            (odd_view self.old).syncs) }
        ensures sizes { SameSizes (odd_view self.old) (odd_view self.new) }
        ensures follows { Kept (odd_view self.old) (odd_view self.new) [] }
        ensures cause { OnErr result (Rose (odd_view self.old).faults (odd_view self.new).faults) }
    {
        let due = self.fault.is_due(self.calls, self.taken);
        self.calls = self.calls.saturating_add(1);
        if due {
            return Err(self.raise());
        }
        let Ok(()) = self.store.sync() else {
            return Err(self.raise());
        };
        Ok(())
    }
}
