//! The call that makes a file of others.

ghost use Rattle.std.specs.Prelude.{◌≡◌, ◌++◌, IsTrue, IfOk, IfErr, OnOk};
ghost use Rattle.wtf_kv.specs.Stores.{is_pinned};
ghost use Rattle.wtf_meta.specs.Maps.{seen};
ghost use Rattle.wtf_meta.specs.Sessions.{SessionView};
ghost use Rattle.wtf_meta.specs.Calls.{Caller};
ghost use Rattle.wtf_region.specs.Devs.{IsSoundDev, stores};
ghost use Rattle.wtf_region.specs.Inside.{IsStoredInside};
ghost use Rattle.wtf_steps.specs.Faults.{MayFault};
ghost use Rattle.wtf_steps.specs.Steps.{in_hand, IsStepWith};
ghost use Rattle.wtf_slicing.specs.declared.op.SliceOp.TheVariants.{Concat};
ghost use Rattle.wtf_slicing.specs.Called.{SliceLeft};
ghost use Rattle.wtf_slicing.specs.Held.{SliceDone};
ghost use Rattle.wtf_slicing.specs.Ops.{IsConcatFault};
ghost use Rattle.wtf_slicing.specs.Recorded.{concat_keys};
ghost use Rattle.wtf_slicing.specs.Shown.{TellsLists};
ghost use Rattle.wtf_slicing.specs.Steps.{IsNewFor};

use crate::sources::sources;
use crate::whole::{all_pieces, total_len};
use std::alloc::Global;
use wtf_base::{Fault, InodeId};
use wtf_dev::SliceStore;
use wtf_index::{make_file, target};
use wtf_kv::Kv;
use wtf_model::{Answer, Op, Paths, Word};
use wtf_occ::Attempt;
use wtf_path::Path;
use wtf_region::{Dev, put_pieces};
use wtf_values::{Key, Value};

/// Makes a file at `q`, of the inode `new`, with all bytes of other files, in order: as pieces, so
/// that none of these bytes is read, but the lists of the bases under them are. It is refused for
/// the root as its target, for one whose parent is no directory, and for one at which something
/// stands; then for the first of the files that is not there or a directory; then where the file
/// would pass the greatest length. Nothing changes then. `Read` where no copy of a list could be
/// read, and `Damaged` where what was read is none. A fault may leave the attempt grown.
pub(crate) fn concat<S: SliceStore>(
    alloc: Global,
    dev: &mut Dev<'_, S>,
    kv: &Kv<Key, Value>,
    at: &mut Attempt<Key, Value>,
    new: InodeId,
    q: &Path,
    paths: &Paths,
) -> Result<Answer, Fault>
    requires sound { IsSoundDev S.kind dev.old }
    requires pinned { IsTrue (is_pinned kv.now at.old.base) }
    requires inside { IsStoredInside S.kind (stores dev.old) dev.old.settings (seen kv.now at.old) }
    ensures keys { OnOk result (at.new.reads ≡
        at.old.reads ++ concat_keys (seen kv.now at.old) q.now paths.now) }
    ensures step { IfOk result (λ a. (x : Caller) (s : SessionView) →
        x.size ≡ dev.old.settings.region → IsNewFor x new →
        IsStepWith (TellsLists S.kind dev.old dev.new (seen kv.now at.old)) x
        (seen kv.now at.old) (in_hand at.old s) (in_hand at.new s)
        (Op.Concat q.now paths.now) a) }
    ensures done { IfOk result (λ a. (s : SessionView) → SliceDone (record {
      kind = S.kind;
      before = dev.old;
      after = dev.new;
      map = seen kv.now at.old;
    }) new (Concat q.entry paths.entry) a (in_hand at.old s) (in_hand at.new s)) }
    ensures fault { IfErr result
        (IsConcatFault S.kind dev.old dev.new (seen kv.now at.old) paths.now) }
    ensures due { IfErr result (λ why. (s : SessionView) →
        MayFault dev.old.settings (seen kv.now at.old) s (Op.Concat q.now paths.now) why) }
    ensures left { SliceLeft S.kind dev.old dev.new at.old at.new result }
{
    let settings = dev.settings;
    let dir = match target(alloc, kv, at, q) {
        Ok(Ok(dir)) => dir,
        Ok(Err(word)) => return Ok(Answer::Refused(word)),
        Err(_) => return Err(Fault::Memory),
    };
    let inodes = match sources(alloc, kv, at, paths.as_slice()) {
        Ok(Ok(inodes)) => inodes,
        Ok(Err(word)) => return Ok(Answer::Refused(word)),
        Err(_) => return Err(Fault::Memory),
    };
    let len = match total_len(alloc, kv, at, inodes.as_slice(), settings) {
        Ok(len) => len,
        Err(_) => return Err(Fault::Memory),
    };
    if len > settings.cap() {
        return Ok(Answer::Refused(Word::TooBig));
    }
    let found = match all_pieces(alloc, dev, kv, at, inodes.as_slice()) {
        Ok(found) => found,
        Err(why) => return Err(why),
    };
    match make_file(alloc, at, &dir, q, new) {
        Ok(()) => {}
        Err(_) => return Err(Fault::Memory),
    }
    match put_pieces(at, new, 0, found.as_slice(), settings) {
        Ok(()) => return Ok(Answer::Okay),
        Err(_) => return Err(Fault::Memory),
    }
}
