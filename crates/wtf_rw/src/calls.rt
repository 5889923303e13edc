//! Any of the calls.

ghost use Rattle.std.specs.Prelude.{◌≡◌, OnErr, IsTrue};
ghost use Rattle.wtf_kv.specs.Stores.{is_pinned};
ghost use Rattle.wtf_meta.specs.Maps.{seen};
ghost use Rattle.wtf_meta.specs.Sessions.{SessionBytes};
ghost use Rattle.wtf_region.specs.Devs.{IsSoundDev, stores};
ghost use Rattle.wtf_region.specs.Inside.{is_inside, IsStoredInside};
ghost use Rattle.wtf_rw.specs.Called.{RwOf, plain_of};
ghost use Rattle.wtf_rw.specs.Ops.{IsFormRw, IsWhole, RwBytes};
ghost use Rattle.wtf_steps.specs.Scenes.{AreInside};
ghost use Rattle.wtf_steps.specs.Steps.{in_hand};

use crate::appends::{append_fresh, append_stored};
use crate::handles::{close, open, tell};
use crate::reads::read;
use crate::seeks::{seek, stat};
use crate::sizes::{punch, truncate};
use crate::writes::{only, write_fresh, write_stored};
use crate::{Done, Given, RwOp};
use std::alloc::Global;
use wtf_base::{Fault, OutOfMemory};
use wtf_dev::SliceStore;
use wtf_kv::Kv;
use wtf_meta::Session;
use wtf_model::Answer;
use wtf_occ::Attempt;
use wtf_region::Dev;
use wtf_values::{Key, Value};

/// The outcome of a call that is lent no store.
fn plain(answer: Result<Answer, OutOfMemory>) -> Result<Done, Fault>
    ensures { result ≡ plain_of answer }
{
    match answer {
        Ok(answer) => Ok(Done { answer, own: None }),
        Err(_) => Err(Fault::Memory),
    }
}

/// The call itself. A fault leaves the session, and may leave the attempt grown.
fn run<S: SliceStore>(
    alloc: Global,
    dev: &mut Dev<'_, S>,
    kv: &Kv<Key, Value>,
    at: &mut Attempt<Key, Value>,
    s: &mut Session,
    op: &RwOp<'_>,
) -> Result<Done, Fault>
    requires sound { IsSoundDev S.kind dev.old }
    requires pinned { IsTrue (is_pinned kv.now at.old.base) }
    requires form { IsFormRw op.now }
    requires inside { IsStoredInside S.kind (stores dev.old) dev.old.settings (seen kv.now at.old) }
    ensures { RwOf (record {
      kind = S.kind;
      before = dev.old;
      after = dev.new;
      map = seen kv.now at.old;
    }) (in_hand at.old s.old) (in_hand at.new s.new) op.now result }
{
    let settings = dev.settings;
    match op {
        RwOp::Open(f, p) => return plain(open(alloc, kv, at, s, *f, p)),
        RwOp::Close(f) => {
            let answer = close(s, *f);
            return Ok(only(answer));
        }
        RwOp::Seek(f, place) => return plain(seek(kv, at, s, *f, *place, settings)),
        RwOp::Tell(f) => {
            let answer = tell(s, *f);
            return Ok(only(answer));
        }
        RwOp::Read(f, n) => return read(alloc, dev, kv, at, s, *f, *n),
        RwOp::Write(f, data) => match data {
            Given::Fresh(bytes) => return write_fresh(dev, at, s, *f, bytes),
            Given::Stored(kept) => return plain(write_stored(at, s, *f, *kept, settings)),
        },
        RwOp::Append(f, data) => match data {
            Given::Fresh(bytes) => return append_fresh(alloc, dev, kv, at, s, *f, bytes),
            Given::Stored(kept) => {
                return plain(append_stored(alloc, kv, at, s, *f, *kept, settings));
            }
        },
        RwOp::Truncate(f, n) => return plain(truncate(at, s, *f, *n, settings)),
        RwOp::Punch(f, n) => return plain(punch(at, s, *f, *n, settings)),
        RwOp::Stat(p) => return plain(stat(alloc, kv, at, p, settings)),
    }
}

/// A call on the bytes of a file or on a handle. It answers as the definitions' call, records the
/// keys that its answer rests on, makes its changes, and leaves in hand what its definition says.
/// `Write` where too few servers took the bytes that it was to store, and `Read` where no copy of
/// bytes that it was to show could be read, or of the list of a base under them; `Damaged` where
/// what was read of that is no list, or one that names bytes outside the stores. A fault leaves
/// session and attempt as they were. Servers that are down are left alone, none is synced, and no
/// file grows but the one to which bytes that it is to store go.
pub fn call<S: SliceStore>(
    alloc: Global,
    dev: &mut Dev<'_, S>,
    kv: &Kv<Key, Value>,
    at: &mut Attempt<Key, Value>,
    s: &mut Session,
    op: &RwOp<'_>,
) -> Result<Done, Fault>
    requires sound { IsSoundDev S.kind dev.old }
    requires pinned { IsTrue (is_pinned kv.now at.old.base) }
    requires form { IsFormRw op.now }
    requires inside { IsStoredInside S.kind (stores dev.old) dev.old.settings (seen kv.now at.old) }
    ensures call { RwOf (record {
      kind = S.kind;
      before = dev.old;
      after = dev.new;
      map = seen kv.now at.old;
    }) (in_hand at.old s.old) (in_hand at.new s.new) op.now result }
    ensures inside { IsWhole op.now →
        RwBytes (is_inside S.kind (stores dev.old) dev.old.settings) op.now →
        SessionBytes (is_inside S.kind (stores dev.old) dev.old.settings) s.old →
        AreInside S.kind (stores dev.new) dev.old.settings (seen kv.now at.new) s.new }
    ensures err { OnErr result ((at.new ≡ at.old) × (s.new ≡ s.old)) }
{
    let mark = at.mark();
    match run(alloc, dev, kv, at, s, op) {
        Ok(done) => return Ok(done),
        Err(why) => {
            at.rewind(mark);
            return Err(why);
        }
    }
}
