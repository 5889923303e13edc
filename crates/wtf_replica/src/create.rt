//! Storing a slice on several servers.

ghost use Rattle.std.specs.Prelude.{◌≡◌, ◌≢◌, ℕ, ◌+◌, ◌<◌, ◌≤◌, ◌^◌, true, [], length, slice_index_or, IsTrue, IfOk, IfErr, IfSome, OnSome, IfNone};
ghost use Rattle.arrayvec.specs.ArrayVec.{array_vec_len};
ghost use Rattle.wtf_base.specs.Pointers.{is_slice};
ghost use Rattle.wtf_base.specs.Slices.{pointers_of};
ghost use Rattle.wtf_dev.specs.Each.{EachFollows};
ghost use Rattle.wtf_dev.specs.Sums.{TellsAll, all_stored};
ghost use Rattle.wtf_replica.specs.Downs.{settings_of, is_down, during};
ghost use Rattle.wtf_replica.specs.Outs.{IsLeftDown, IsOut, SameSyncs};
ghost use Rattle.wtf_replica.specs.Bytes.{byte_at, HoldsSlice};
ghost use Rattle.wtf_replica.specs.Copies.{IsStored, IsInside, IsNewCopy, GrowsOnce};
ghost use Rattle.wtf_replica.specs.Faults.{IsWriteFault};
ghost use Rattle.wtf_replica.specs.Placed.{placed};

use crate::Replicas;
use arrayvec::ArrayVec;
use std::marker::Model;
use wtf_base::{Fault, Pointer, ServerId, Slice};
use wtf_dev::{Shelf, SliceStore};
use wtf_ring::Place;

/// The pointer to a copy that was made, seen by contracts as the pointer.
#[derive(Debug, Drop)]
struct Made {
    pointer: Pointer,
}

impl Model for Made {
    ghost use Rattle.wtf_base.specs.declared.pointer.Pointer.{Pointer};

    ghost Value = { Pointer };

    ghost view = { λ m. m.pointer };
}

/// What stands in a place of a list that is not in use.
impl Default for Made {
    fn default() -> Made {
        Made {
            pointer: Pointer {
                server: ServerId(0),
                file: 0,
                at: 0,
                len: 0,
            },
        }
    }
}

impl Replicas {
    /// Stores bytes as a slice, with one copy on each of as many servers as there are replicas: the first ones of the
    /// place that are up and do not fail. `Write` where there are fewer of them: the place's file may then be longer by
    /// these bytes on some servers, and what it held it still holds. Nothing is done to a server that is down.
    pub fn create<S: SliceStore>(
        &self,
        shelf: &mut Shelf<S>,
        place: &Place,
        bytes: &[u8],
    ) -> Result<Slice, Fault>
        requires shelf { (settings_of self.now).servers ≤ length shelf.old }
        requires place { length place.now.servers ≡ (settings_of self.now).servers }
        requires some { 0 < length bytes.now }
        requires few { length bytes.now < 2 ^ 32 }
        ensures stored { IfOk result
            (IsStored S.kind (during self.now shelf.old shelf.new) (settings_of self.now).replicas
            place.now bytes.now) }
        ensures holds { IfOk result (λ s. TellsAll S.kind shelf.old →
            HoldsSlice (byte_at S.kind shelf.new) s bytes.now) }
        ensures inside { IfOk result (IsInside S.kind shelf.new) }
        ensures fault { IfErr result
            (IsWriteFault S.kind (during self.now shelf.old shelf.new) (settings_of self.now)) }
        ensures down { IsLeftDown (during self.now shelf.old shelf.new) }
        ensures grows { GrowsOnce S.kind (during self.now shelf.old shelf.new) place.now (length bytes.now) }
        ensures syncs { SameSyncs S.kind shelf.old shelf.new }
        ensures follows { EachFollows S.kind shelf.old shelf.new [] }
    {
        let mut found: ArrayVec<Made, 3> = ArrayVec::new();
        let file = place.file();
        for i in 0..place.count() {
            let server = place.server(i);
            match self.try_copy(shelf, server, file, bytes) {
                None => {}
                Some(copy) => {
                    put_in_order(&mut found, copy);
                    if found.len() == self.settings.replicas as usize {
                        return Ok(slice_of(&found));
                    }
                }
            }
        }
        Err(Fault::Write)
    }

    /// Stores bytes on server `k`, if it is up. `None` where it is down, or where its store failed.
    fn try_copy<S: SliceStore>(
        &self,
        shelf: &mut Shelf<S>,
        k: ServerId,
        file: u8,
        bytes: &[u8],
    ) -> Option<Pointer>
        requires server { k.0 < length shelf.old }
        requires file { file < 8 }
        requires some { 0 < length bytes.now }
        requires few { length bytes.now < 2 ^ 32 }
        ensures server { IfSome result (λ p. p.server.0 ≡ k.0) }
        ensures made { IfSome result
            (IsNewCopy S.kind (during self.now shelf.old shelf.new) file bytes.now) }
        ensures stored { OnSome result (all_stored S.kind shelf.new ≡
            all_stored S.kind shelf.old + length bytes.now) }
        ensures out { IfNone result (IsOut S.kind (during self.now shelf.old shelf.new) k.0) }
        ensures down { is_down self.now k.0 ≡ true → shelf.new ≡ shelf.old }
        ensures others { (f : ℕ) (d : S) → f ≢ file →
            (S.kind.view (slice_index_or shelf.new k.0 d)).size f ≡
            (S.kind.view (slice_index_or shelf.old k.0 d)).size f }
        ensures elsewhere { (j : ℕ) (d : S) → j ≢ k.0 →
            slice_index_or shelf.new j d ≡ slice_index_or shelf.old j d }
        ensures syncs { SameSyncs S.kind shelf.old shelf.new }
        ensures follows { EachFollows S.kind shelf.old shelf.new [] }
    {
        if self.is_down(k.0) {
            return None;
        }
        match wtf_server::create(shelf.store(k.0), k, file, bytes) {
            Ok(copy) => Some(copy),
            Err(_) => None,
        }
    }
}

/// Puts a pointer before the first one of a later server.
fn put_in_order(found: &mut ArrayVec<Made, 3>, copy: Pointer)
    requires { array_vec_len found.old < 3 }
    ensures { found.new.items ≡ placed copy found.old.items }
{
    let at = match found.as_slice() {
        [a] if copy.server < a.pointer.server => 0,
        [a, _] if copy.server < a.pointer.server => 0,
        [_, b] if copy.server < b.pointer.server => 1,
        all => all.len(),
    };
    found.insert(at, Made { pointer: copy });
}

/// The slice of pointers that are those of one.
fn slice_of(pointers: &ArrayVec<Made, 3>) -> Slice
    requires { IsTrue (is_slice pointers.now.items) }
    ensures { pointers_of result ≡ pointers.now.items }
{
    let made = match pointers.as_slice() {
        [a] => Slice::of(&[a.pointer]),
        [a, b] => Slice::of(&[a.pointer, b.pointer]),
        [a, b, c] => Slice::of(&[a.pointer, b.pointer, c.pointer]),
        _ => None,
    };
    made.unwrap()
}
