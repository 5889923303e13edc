//! Reading a slice from one of its copies.

ghost use Rattle.std.specs.Prelude.{◌≡◌, ◌≢◌, ◌<◌, ◌≤◌, ◌+◌, ◌^◌, ◌⊎◌, ℕ, true, false, [], length, slice_index_or, IfOk, OnOk, IfErr};
ghost use Rattle.wtf_base.specs.Slices.{pointers_of, len_of};
ghost use Rattle.wtf_dev.specs.Each.{EachFollows};
ghost use Rattle.wtf_dev.specs.Store.{Agrees};
ghost use Rattle.wtf_replica.specs.Downs.{is_down, during};
ghost use Rattle.wtf_replica.specs.Outs.{IsLeftDown, IsOut, SameFrom, SameLengths, SameSyncs};
ghost use Rattle.wtf_replica.specs.Bytes.{byte_at, ShowsSlice, ShowsUp};
ghost use Rattle.wtf_replica.specs.Copies.{IsCopyInside, IsReadable, IsFetched, SameBeside};
ghost use Rattle.wtf_replica.specs.Faults.{IsReadFault};

use crate::Replicas;
use wtf_base::{Fault, Pointer, ServerId, Slice};
use wtf_dev::{Shelf, SliceStore};

impl Replicas {
    /// Puts bytes of a slice, from its byte `off` on, into `out`, from the first copy that can be read, in ascending order
    /// of servers and without those that are down, and answers that copy's server. `Read` where no copy can be read, with
    /// the server of the last one: then nothing is known of `out`. Nothing is done to a server that is down, that has no
    /// copy, or that comes behind the one that is answered.
    pub fn fetch<S: SliceStore>(
        &self,
        shelf: &mut Shelf<S>,
        slice: &Slice,
        off: u32,
        out: &mut [u8],
    ) -> Result<ServerId, Fault>
        requires some { 0 < length out.old }
        requires within { off + length out.old ≤ len_of slice.now }
        requires inside { IsReadable S.kind (is_down self.now) shelf.old slice.now }
        ensures fetched { IfOk result (λ k.
            IsFetched S.kind (during self.now shelf.old shelf.new) slice.now off out.new k.0) }
        ensures shows { OnOk result (ShowsSlice (byte_at S.kind shelf.old) slice.now off out.new) }
        ensures shows_up { OnOk result
            (ShowsUp (is_down self.now) (byte_at S.kind shelf.old) slice.now off out.new) }
        ensures fault { IfErr result
            (IsReadFault S.kind (during self.now shelf.old shelf.new) slice.now) }
        ensures down { IsLeftDown (during self.now shelf.old shelf.new) }
        ensures beside { SameBeside (pointers_of slice.now) shelf.old shelf.new }
        ensures past { IfOk result (λ k. SameFrom (k.0 + 1) shelf.old shelf.new) }
        ensures lengths { SameLengths S.kind shelf.old shelf.new }
        ensures syncs { SameSyncs S.kind shelf.old shelf.new }
        ensures follows { EachFollows S.kind shelf.old shelf.new [] }
    {
        let mut last = ServerId(0);
        for i in 0..slice.width() {
            let copy = slice.pointer(i);
            if self.read_copy(shelf, copy, off, out) {
                return Ok(copy.server);
            }
            last = copy.server;
        }
        Err(Fault::Read(last))
    }

    /// Reads from one copy of a slice, from its byte `off` on. False where its server is out.
    fn read_copy<S: SliceStore>(
        &self,
        shelf: &mut Shelf<S>,
        copy: Pointer,
        off: u32,
        out: &mut [u8],
    ) -> bool
        requires within { off + length out.old ≤ copy.len }
        requires ends { copy.at + copy.len < 2 ^ 63 }
        requires inside { (is_down self.now copy.server.0 ≡ true) ⊎
            IsCopyInside S.kind shelf.old copy }
        ensures up { result ≡ true → is_down self.now copy.server.0 ≡ false }
        ensures bytes { result ≡ true → (d : S) →
            Agrees (S.kind.view (slice_index_or shelf.old copy.server.0 d)) copy.file
            (copy.at + off) out.new }
        ensures out { result ≡ false →
            IsOut S.kind (during self.now shelf.old shelf.new) copy.server.0 }
        ensures down { is_down self.now copy.server.0 ≡ true → shelf.new ≡ shelf.old }
        ensures elsewhere { (j : ℕ) (d : S) → j ≢ copy.server.0 →
            slice_index_or shelf.new j d ≡ slice_index_or shelf.old j d }
        ensures lengths { SameLengths S.kind shelf.old shelf.new }
        ensures syncs { SameSyncs S.kind shelf.old shelf.new }
        ensures follows { EachFollows S.kind shelf.old shelf.new [] }
    {
        let k = copy.server.0;
        if self.is_down(k) {
            return false;
        }
        let part = Pointer {
            server: copy.server,
            file: copy.file,
            at: copy.at + off as u64,
            len: out.len() as u32,
        };
        wtf_server::retrieve(shelf.store(k), part, out).is_ok()
    }
}
