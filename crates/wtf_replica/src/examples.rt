//! Worked examples of the definitions, each proved for every kind of store.

ghost use Rattle.std.specs.Prelude.{◌≡◌, ◌<◌, ◌≤◌, ◌-◌, ◌^◌, ℕ, Bool, true, List, [], Some, length, slice_get, slice_index_or};
ghost use Rattle.wtf_base.specs.declared.pointer.Pointer.{Pointer};
ghost use Rattle.wtf_base.specs.declared.slice.Slice.{Slice};
ghost use Rattle.wtf_base.specs.Slices.{pointers_of};
ghost use Rattle.wtf_dev.specs.Each.{EachFollows};
ghost use Rattle.wtf_replica.specs.Bytes.{byte_at, HoldsSlice};
ghost use Rattle.wtf_replica.specs.Spans.{Span};
ghost use Rattle.wtf_replica.specs.Outs.{IsOut, SameSyncs, HasSynced};
ghost use Rattle.wtf_replica.specs.Copies.{IsFetched, IsReadable};
ghost use Rattle.wtf_replica.specs.Inside.{size_in, slice_lies_inside};

use wtf_dev::SliceStore;

/// Where no store was synced none counts as synced, as long as its count can rise.
pub fn a_sync_is_counted<S: SliceStore>()
    ensures { (old new : List S) (k : ℕ) (d : S) →
        (S.kind.view (slice_index_or old k d)).syncs < 2 ^ 64 - 1 →
        SameSyncs S.kind old new → HasSynced S.kind old new k → ⊥ }
{}

/// A slice whose first copy lies on a server that is not out is read from that one.
pub fn a_slice_is_read_from_its_first_copy<S: SliceStore>()
    ensures { (t : Span S) (s : Slice) (off : ℕ) (out : List ℕ) (k : ℕ) (p : Pointer) →
        slice_get (pointers_of s) 0 ≡ Some p → (IsOut S.kind t p.server.0 → ⊥) →
        IsFetched S.kind t s off out k → k ≡ p.server.0 }
{}

/// A slice that lies inside the stores can be read, whichever servers are down.
pub fn a_slice_inside_the_stores_can_be_read<S: SliceStore>()
    ensures { (servers : ℕ) (shelf : List S) (down : ℕ → Bool) (s : Slice) →
        servers ≤ length shelf → slice_lies_inside servers (size_in S.kind shelf) s ≡ true →
        IsReadable S.kind down shelf s }
{}

/// A slice of which every copy holds its bytes goes on to hold them through all later calls in which nothing is freed.
pub fn a_slice_goes_on_to_hold_its_bytes<S: SliceStore>()
    ensures { (old new : List S) (s : Slice) (bytes : List ℕ) → EachFollows S.kind old new [] →
        HoldsSlice (byte_at S.kind old) s bytes → HoldsSlice (byte_at S.kind new) s bytes }
{}
