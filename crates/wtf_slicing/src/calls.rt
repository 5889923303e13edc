//! Any of the calls.

ghost use Rattle.std.specs.Prelude.{◌≡◌, ◌≤◌, OnErr, IsTrue};
ghost use Rattle.wtf_kv.specs.Stores.{is_pinned};
ghost use Rattle.wtf_meta.specs.Maps.{seen};
ghost use Rattle.wtf_region.specs.Devs.{IsSoundDev, stores};
ghost use Rattle.wtf_steps.specs.Scenes.{AreInside};
ghost use Rattle.wtf_steps.specs.Steps.{in_hand};
ghost use Rattle.wtf_slicing.specs.Called.{SlicingOf, plain_of};
ghost use Rattle.wtf_slicing.specs.Ops.{IsFormSlice};

use crate::SliceOp;
use crate::concats::concat;
use crate::copies::copy;
use crate::cutting::{cut, peek};
use crate::laying::{glue, paste};
use crate::yanks::{Take, yank};
use std::alloc::Global;
use wtf_base::{Fault, InodeId, OutOfMemory};
use wtf_dev::SliceStore;
use wtf_kv::Kv;
use wtf_meta::Session;
use wtf_model::Answer;
use wtf_occ::Attempt;
use wtf_region::Dev;
use wtf_values::{Key, Value};

/// The outcome of a call that is lent no store.
fn plain(answer: Result<Answer, OutOfMemory>) -> Result<Answer, Fault>
    ensures { result ≡ plain_of answer }
{
    match answer {
        Ok(answer) => Ok(answer),
        Err(_) => Err(Fault::Memory),
    }
}

/// The call itself. A fault leaves the session, and may leave the attempt grown.
fn run<S: SliceStore>(
    alloc: Global,
    dev: &mut Dev<'_, S>,
    kv: &Kv<Key, Value>,
    at: &mut Attempt<Key, Value>,
    s: &mut Session,
    new: InodeId,
    op: &SliceOp<'_>,
) -> Result<Answer, Fault>
    requires sound { IsSoundDev S.kind dev.old }
    requires pinned { IsTrue (is_pinned kv.now at.old.base) }
    requires form { IsFormSlice op.now }
    requires inside { AreInside S.kind (stores dev.old) dev.old.settings (seen kv.now at.old) s.old }
    ensures { SlicingOf (record {
      kind = S.kind;
      before = dev.old;
      after = dev.new;
      map = seen kv.now at.old;
    }) new (in_hand at.old s.old) (in_hand at.new s.new) op.now result }
{
    let settings = dev.settings;
    match op {
        SliceOp::Yank(f, n, label) => {
            let take = Take {
                handle: *f,
                len: *n,
                slice: *label,
            };
            return yank(alloc, dev, kv, at, s, take);
        }
        SliceOp::Peek { from, off, len } => return peek(alloc, dev, s, *from, *off, *len),
        SliceOp::Cut { from, off, len, to } => return plain(cut(alloc, s, *from, *off, *len, *to)),
        SliceOp::Paste(f, label) => return plain(paste(at, s, *f, *label, settings)),
        SliceOp::Glue(f, label) => return plain(glue(alloc, kv, at, s, *f, *label, settings)),
        SliceOp::Concat(q, paths) => return concat(alloc, dev, kv, at, new, q, paths),
        SliceOp::Copy(p, q) => return plain(copy(alloc, kv, at, new, p, q)),
    }
}

/// A call on slices, or one that makes a file of others, of the inode `new`, which is that of its
/// transaction's next call. It answers as the definitions' call, records the keys that its answer
/// rests on, and makes its changes. It stores no byte; only `peek` reads some: `Read` where no copy
/// of bytes that it was to show could be read. `yank` and `concat` read the lists of bases: `Read`
/// where no copy of one could be read, and `Damaged` where what was read is none. A fault leaves
/// session and attempt as they were.
pub fn call<S: SliceStore>(
    alloc: Global,
    dev: &mut Dev<'_, S>,
    kv: &Kv<Key, Value>,
    at: &mut Attempt<Key, Value>,
    s: &mut Session,
    new: InodeId,
    op: &SliceOp<'_>,
) -> Result<Answer, Fault>
    requires sound { IsSoundDev S.kind dev.old }
    requires pinned { IsTrue (is_pinned kv.now at.old.base) }
    requires form { IsFormSlice op.now }
    requires inside { AreInside S.kind (stores dev.old) dev.old.settings (seen kv.now at.old) s.old }
    ensures call { SlicingOf (record {
      kind = S.kind;
      before = dev.old;
      after = dev.new;
      map = seen kv.now at.old;
    }) new (in_hand at.old s.old) (in_hand at.new s.new) op.now result }
    ensures inside { 1 ≤ new.index →
        AreInside S.kind (stores dev.new) dev.old.settings (seen kv.now at.new) s.new }
    ensures err { OnErr result ((at.new ≡ at.old) × (s.new ≡ s.old)) }
{
    let mark = at.mark();
    match run(alloc, dev, kv, at, s, new, op) {
        Ok(answer) => return Ok(answer),
        Err(why) => {
            at.rewind(mark);
            return Err(why);
        }
    }
}
