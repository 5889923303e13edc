//! Freeing a range of one server.

ghost use Rattle.std.specs.Prelude.{◌≡◌, ◌≢◌, ◌<◌, ◌≤◌, ◌+◌, ℕ, true, false, Some, length, slice_index_or, OnOk, IfErr};
ghost use Rattle.wtf_base.specs.Places.{Place};
ghost use Rattle.wtf_dev.specs.Each.{EachFollows};
ghost use Rattle.wtf_replica.specs.Downs.{is_down, during};
ghost use Rattle.wtf_replica.specs.Bytes.{byte_at};
ghost use Rattle.wtf_replica.specs.Outs.{IsOut, SameLengths, SameSyncs};
ghost use Rattle.wtf_replica.specs.Faults.{IsPunchFault, punched_on};

use crate::Replicas;
use wtf_base::{Fault, ServerId};
use wtf_dev::{Shelf, SliceStore};

impl Replicas {
    /// Makes a range of a backing file of server `k` read as zeros. `Punch` where the server is down, and the range is as
    /// it was, or its store failed, and the range is not known. Every byte outside the range stays,
    /// and so do the stores of all other servers.
    pub fn free<S: SliceStore>(
        &self,
        shelf: &mut Shelf<S>,
        k: u8,
        file: u8,
        at: u64,
        len: u64,
    ) -> Result<(), Fault>
        requires server { k < length shelf.old }
        requires file { file < 8 }
        requires inside { (d : S) →
            at + len ≤ (S.kind.view (slice_index_or shelf.old k d)).size file }
        ensures zeros { OnOk result ((d : S) →
            (S.kind.view (slice_index_or shelf.old k d)).tells ≡ true →
            (i : ℕ) → at ≤ i → i < at + len →
            (S.kind.view (slice_index_or shelf.new k d)).told file i ≡ Some 0) }
        ensures servers { (p : Place) (b : ℕ) → p.server ≢ k →
            byte_at S.kind shelf.old p ≡ Some b → byte_at S.kind shelf.new p ≡ Some b }
        ensures files { (p : Place) (b : ℕ) → p.file ≢ file →
            byte_at S.kind shelf.old p ≡ Some b → byte_at S.kind shelf.new p ≡ Some b }
        ensures before { (p : Place) (b : ℕ) → p.at < at →
            byte_at S.kind shelf.old p ≡ Some b → byte_at S.kind shelf.new p ≡ Some b }
        ensures behind { (p : Place) (b : ℕ) → at + len ≤ p.at →
            byte_at S.kind shelf.old p ≡ Some b → byte_at S.kind shelf.new p ≡ Some b }
        ensures fault { IfErr result (IsPunchFault S.kind (during self.now shelf.old shelf.new) k) }
        ensures up { OnOk result (is_down self.now k ≡ false) }
        ensures down { is_down self.now k ≡ true → shelf.new ≡ shelf.old }
        ensures elsewhere { (j : ℕ) (d : S) → j ≢ k →
            slice_index_or shelf.new j d ≡ slice_index_or shelf.old j d }
        ensures lengths { SameLengths S.kind shelf.old shelf.new }
        ensures syncs { SameSyncs S.kind shelf.old shelf.new }
        ensures follows { EachFollows S.kind shelf.old shelf.new
            (punched_on (is_down self.now k) k (record { file = file; at = at; len = len })) }
    {
        if !self.try_free(shelf, k, file, at, len) {
            return Err(Fault::Punch(ServerId(k)));
        }
        Ok(())
    }

    /// Makes the range read as zeros. False where the server is out.
    fn try_free<S: SliceStore>(
        &self,
        shelf: &mut Shelf<S>,
        k: u8,
        file: u8,
        at: u64,
        len: u64,
    ) -> bool
        requires server { k < length shelf.old }
        requires file { file < 8 }
        requires inside { (d : S) →
            at + len ≤ (S.kind.view (slice_index_or shelf.old k d)).size file }
        ensures zeros { result ≡ true → (d : S) →
            (S.kind.view (slice_index_or shelf.old k d)).tells ≡ true →
            (i : ℕ) → at ≤ i → i < at + len →
            (S.kind.view (slice_index_or shelf.new k d)).told file i ≡ Some 0 }
        ensures out { result ≡ false → IsOut S.kind (during self.now shelf.old shelf.new) k }
        ensures up { result ≡ true → is_down self.now k ≡ false }
        ensures down { is_down self.now k ≡ true → shelf.new ≡ shelf.old }
        ensures elsewhere { (j : ℕ) (d : S) → j ≢ k →
            slice_index_or shelf.new j d ≡ slice_index_or shelf.old j d }
        ensures lengths { SameLengths S.kind shelf.old shelf.new }
        ensures syncs { SameSyncs S.kind shelf.old shelf.new }
        ensures follows { EachFollows S.kind shelf.old shelf.new
            (punched_on (is_down self.now k) k (record { file = file; at = at; len = len })) }
    {
        if self.is_down(k) {
            return false;
        }
        wtf_server::free(shelf.store(k), file, at, len).is_ok()
    }
}
