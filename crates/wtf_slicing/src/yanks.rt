//! The call that takes a slice out of a file.

ghost use Rattle.std.specs.Prelude.{◌≡◌, ◌++◌, IfOk, IfErr, OnOk, IsTrue};
ghost use Rattle.wtf_kv.specs.Stores.{is_pinned};
ghost use Rattle.wtf_base.specs.declared.ids.InodeId.{InodeId};
ghost use Rattle.wtf_model.specs.Form.{IsHandle, IsSlice};
ghost use Rattle.wtf_meta.specs.Maps.{seen};
ghost use Rattle.wtf_meta.specs.Sessions.{handle_in};
ghost use Rattle.wtf_meta.specs.Calls.{Caller};
ghost use Rattle.wtf_region.specs.Devs.{IsSoundDev, stores};
ghost use Rattle.wtf_region.specs.Inside.{IsStoredInside};
ghost use Rattle.wtf_steps.specs.Faults.{MayFault};
ghost use Rattle.wtf_steps.specs.Recorded.{read_keys};
ghost use Rattle.wtf_steps.specs.Steps.{in_hand, IsStepWith};
ghost use Rattle.wtf_slicing.specs.declared.op.SliceOp.TheVariants.{Yank};
ghost use Rattle.wtf_slicing.specs.Called.{TakesSlice};
ghost use Rattle.wtf_slicing.specs.Held.{SliceDone};
ghost use Rattle.wtf_slicing.specs.Ops.{IsYankFault};
ghost use Rattle.wtf_slicing.specs.Shown.{TellsLists};

use std::alloc::Global;
use wtf_base::Fault;
use wtf_dev::SliceStore;
use wtf_kv::Kv;
use wtf_meta::Session;
use wtf_model::{Answer, Op, Word};
use wtf_occ::Attempt;
use wtf_region::{Dev, file_len, pieces};
use wtf_steps::{found_len, handle_of, range_start};
use wtf_values::{Key, Value};

/// What a yank takes: bytes of the file of a handle, for a slice.
#[derive(Clone, Copy, Debug)]
pub(crate) struct Take {
    /// The label of the handle.
    pub(crate) handle: u8,
    /// How many bytes, where there are so many.
    pub(crate) len: u64,
    /// The label of the slice.
    pub(crate) slice: u8,
}

/// Keeps the next `len` bytes of the file of a handle, or those that are left, as a slice: as pieces,
/// so that none of these bytes is read, but the lists of the bases under them are. The handle's
/// offset grows by their number, which is the answer. It is refused for a handle that is not open;
/// then nothing changes. `Read` where no copy of a list could be read, and `Damaged` where what was
/// read is none. A fault leaves the session, and may leave the attempt grown.
pub(crate) fn yank<S: SliceStore>(
    alloc: Global,
    dev: &mut Dev<'_, S>,
    kv: &Kv<Key, Value>,
    at: &mut Attempt<Key, Value>,
    s: &mut Session,
    take: Take,
) -> Result<Answer, Fault>
    requires sound { IsSoundDev S.kind dev.old }
    requires pinned { IsTrue (is_pinned kv.now at.old.base) }
    requires inside { IsStoredInside S.kind (stores dev.old) dev.old.settings (seen kv.now at.old) }
    requires handle { IsHandle take.handle }
    requires slice { IsSlice take.slice }
    ensures keys { OnOk result (at.new.reads ≡ at.old.reads ++ read_keys dev.old.settings.region
        (seen kv.now at.old) (handle_in s.old take.handle) take.len) }
    ensures step { IfOk result (λ a. (x : Caller) → x.size ≡ dev.old.settings.region →
        IsStepWith (TellsLists S.kind dev.old dev.new (seen kv.now at.old)) x
        (seen kv.now at.old) (in_hand at.old s.old) (in_hand at.new s.new)
        (Op.Yank take.handle take.len take.slice) a) }
    ensures done { IfOk result (λ a. (made : InodeId) → SliceDone (record {
      kind = S.kind;
      before = dev.old;
      after = dev.new;
      map = seen kv.now at.old;
    }) made (Yank take.handle take.len take.slice) a (in_hand at.old s.old)
        (in_hand at.new s.new)) }
    ensures fault { IfErr result (IsYankFault S.kind dev.old dev.new (seen kv.now at.old)
        (handle_in s.old take.handle) take.len) }
    ensures due { IfErr result (MayFault dev.old.settings (seen kv.now at.old) s.old
        (Op.Yank take.handle take.len take.slice)) }
    ensures takes { TakesSlice S.kind dev.old dev.new (in_hand at.old s.old) (in_hand at.new s.new)
        result }
{
    let Some(spot) = handle_of(s, take.handle) else {
        return Ok(Answer::Refused(Word::NoHandle));
    };
    let settings = dev.settings;
    let len = match file_len(kv, at, spot.inode, settings) {
        Ok(len) => len,
        Err(_) => return Err(Fault::Memory),
    };
    let k = found_len(spot.off, take.len, len, settings.cap());
    let begin = range_start(spot.off, k);
    let found = match pieces(alloc, dev, kv, at, spot.inode, begin, k) {
        Ok(found) => found,
        Err(why) => return Err(why),
    };
    s.put_slice(take.slice, found);
    s.move_handle(take.handle, spot.off + k);
    Ok(Answer::Len(k))
}
