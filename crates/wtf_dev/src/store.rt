//! The files of one server.

ghost use Rattle.std.specs.Prelude.{◌≡◌, ◌≢◌, ◌<◌, ◌≤◌, ◌+◌, ◌^◌, ℕ, true, Some, [], ◌∷◌, length, IfOk, OnOk, OnErr};
ghost use Rattle.wtf_dev.specs.Counts.{Rose};
ghost use Rattle.wtf_dev.specs.Store.{Appended, Agrees, SameSizes, StoreKind, KindLaws};

use crate::Failed;

/// A store of slices in eight backing files, 0 to 7. A file only grows, and none is longer than 2^61 - 1
/// bytes (NSDI 2016, section 2.1).
pub trait SliceStore {
    /// What contracts see of such a store, and when a later state of it follows an earlier one.
    ghost kind: { StoreKind Self };

    /// The length of a file, in bytes.
    fn length(&self, file: u8) -> u64
        requires { file < 8 }
        ensures value { result ≡ (kind.view self.now).size file }
        ensures fits { result < 2 ^ 61 };

    /// Adds bytes at the end of a file, and answers its length before. After `Failed` the file may be
    /// longer, and what it held it still holds.
    fn append(&mut self, file: u8, bytes: &[u8]) -> Result<u64, Failed>
        requires { file < 8 }
        ensures done { IfOk result
            (Appended (kind.view self.old) (kind.view self.new) file bytes.now) }
        ensures fits { IfOk result (λ at. at + length bytes.now < 2 ^ 61) }
        ensures others { (f : ℕ) → f ≢ file →
            (kind.view self.new).size f ≡ (kind.view self.old).size f }
        ensures syncs { (kind.view self.new).syncs ≡ (kind.view self.old).syncs }
        ensures follows { kind.follows self.old self.new [] }
        ensures cause { OnErr result
            (Rose (kind.view self.old).faults (kind.view self.new).faults) };

    /// Puts the bytes of a file from offset `at` on into `out`. After `Failed` nothing is known of `out`.
    fn read(&mut self, file: u8, at: u64, out: &mut [u8]) -> Result<(), Failed>
        requires file { file < 8 }
        requires inside { at + length out.old ≤ (kind.view self.old).size file }
        ensures bytes { OnOk result (Agrees (kind.view self.old) file at out.new) }
        ensures sizes { SameSizes (kind.view self.old) (kind.view self.new) }
        ensures syncs { (kind.view self.new).syncs ≡ (kind.view self.old).syncs }
        ensures follows { kind.follows self.old self.new [] }
        ensures cause { OnErr result
            (Rose (kind.view self.old).faults (kind.view self.new).faults) };

    /// Makes `len` bytes of a file from offset `at` on read as zeros. After `Failed` these bytes are not
    /// known, and all others are as they were.
    fn punch(&mut self, file: u8, at: u64, len: u64) -> Result<(), Failed>
        requires file { file < 8 }
        requires inside { at + len ≤ (kind.view self.old).size file }
        ensures zeros { OnOk result ((kind.view self.old).tells ≡ true → (i : ℕ) → at ≤ i →
            i < at + len →
            (kind.view self.new).told file i ≡ Some 0) }
        ensures elsewhere { (f i b : ℕ) → f ≢ file → (kind.view self.old).told f i ≡ Some b →
            (kind.view self.new).told f i ≡ Some b }
        ensures before { (i b : ℕ) → i < at → (kind.view self.old).told file i ≡ Some b →
            (kind.view self.new).told file i ≡ Some b }
        ensures behind { (i b : ℕ) → at + len ≤ i → (kind.view self.old).told file i ≡ Some b →
            (kind.view self.new).told file i ≡ Some b }
        ensures sizes { SameSizes (kind.view self.old) (kind.view self.new) }
        ensures syncs { (kind.view self.new).syncs ≡ (kind.view self.old).syncs }
        ensures follows { kind.follows self.old self.new
            (record { file = file; at = at; len = len } ∷ []) }
        ensures cause { OnErr result
            (Rose (kind.view self.old).faults (kind.view self.new).faults) };

    /// Brings all bytes to where they last. The count of syncs rises where this answers `Ok`, and nowhere
    /// else.
    fn sync(&mut self) -> Result<(), Failed>
        ensures synced { OnOk result (Rose (kind.view self.old).syncs (kind.view self.new).syncs) }
        ensures unsynced { OnErr result ((kind.view self.new).syncs ≡ (kind.view self.old).syncs) }
        ensures sizes { SameSizes (kind.view self.old) (kind.view self.new) }
        ensures follows { kind.follows self.old self.new [] }
        ensures cause { OnErr result
            (Rose (kind.view self.old).faults (kind.view self.new).faults) };

    /// Such a store keeps to the laws of all stores.
    ghost laws: { KindLaws kind };
}
