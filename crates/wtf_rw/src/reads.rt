//! The call that shows bytes of a file.

ghost use Rattle.std.specs.Prelude.{◌≡◌, ◌⊎◌, ◌<◌, ◌≤◌, [], IfOk, IfErr, IsTrue, Some};
ghost use Rattle.wtf_kv.specs.Stores.{is_pinned};
ghost use Rattle.wtf_model.specs.declared.limits.TheConstants.{MAX_HANDLES, MAX_SHOWN};
ghost use Rattle.wtf_meta.specs.declared.session.Handle as handle;
ghost use Rattle.wtf_meta.specs.Maps.{seen};
ghost use Rattle.wtf_meta.specs.FileEdits.{file_of};
ghost use Rattle.wtf_meta.specs.Sessions.{handle_in};
ghost use Rattle.wtf_meta.specs.Calls.{Caller};
ghost use Rattle.wtf_region.specs.Devs.{IsSoundDev, GoesOn, stores};
ghost use Rattle.wtf_region.specs.Inside.{IsStoredInside};
ghost use Rattle.wtf_steps.specs.Recorded.{read_keys, found_in};
ghost use Rattle.wtf_rw.specs.Called.{ReadsBytes};
ghost use Rattle.wtf_rw.specs.Reads.{TellsRead, RwReads, LacksRead};
ghost use Rattle.wtf_steps.specs.Faults.{MayFault};
ghost use Rattle.wtf_steps.specs.Holding.{LeavesHand, MovesOn};
ghost use Rattle.wtf_steps.specs.Recalling.{RecallsFor};
ghost use Rattle.wtf_steps.specs.Steps.{in_hand, IsStepWith};

use crate::{Done, RwOp};
use std::alloc::Global;
use wtf_base::{Bytes, Fault};
use wtf_dev::SliceStore;
use wtf_kv::Kv;
use wtf_meta::Session;
use wtf_model::{Answer, Op, Word};
use wtf_occ::Attempt;
use wtf_region::{Dev, file_len, pieces, show};
use wtf_steps::{found_len, handle_of, range_start};
use wtf_values::{Key, Value};

/// Shows the next `n` bytes of the file of a handle, or those that are left; its offset grows by
/// their number. It is refused for a handle that is not open; then nothing changes. `Read` where no
/// copy of some of the bytes could be read, or of the list of a base under them, and `Damaged` where
/// what was read of that is no list, or one that names bytes outside the stores. A fault leaves the
/// session, and may leave the attempt grown.
pub(crate) fn read<S: SliceStore>(
    alloc: Global,
    dev: &mut Dev<'_, S>,
    kv: &Kv<Key, Value>,
    at: &mut Attempt<Key, Value>,
    s: &mut Session,
    f: u8,
    n: u64,
) -> Result<Done, Fault>
    requires sound { IsSoundDev S.kind dev.old }
    requires pinned { IsTrue (is_pinned kv.now at.old.base) }
    requires inside { IsStoredInside S.kind (stores dev.old) dev.old.settings (seen kv.now at.old) }
    requires label { f < MAX_HANDLES }
    requires few { n ≤ MAX_SHOWN }
    ensures step { IfOk result (λ d. (x : Caller) → x.size ≡ dev.old.settings.region →
        IsStepWith (TellsRead S.kind dev.old dev.new (seen kv.now at.old)) x (seen kv.now at.old)
        (in_hand at.old s.old) (in_hand at.new s.new) (Op.Read f n) d.answer) }
    ensures holds { IfOk result (λ d. LeavesHand d.answer (MovesOn f
        (λ h. found_in dev.old.settings.region (seen kv.now at.old) h n)) s.old s.new) }
    ensures recalls { IfOk result (λ d. RecallsFor S.kind d.answer
        (RwReads dev.old.settings.region (seen kv.now at.old) s.old (RwOp.Read f n))
        dev.old dev.new) }
    ensures fault { IfErr result (λ why. (why ≡ Fault.Memory) ⊎ ((h : handle.Handle) ×
        (handle_in s.old f ≡ Some h) × LacksRead S.kind dev.old dev.new
        (file_of h.inode (seen kv.now at.old)) h.off
        (found_in dev.old.settings.region (seen kv.now at.old) h n) why)) }
    ensures due { IfErr result
        (MayFault dev.old.settings (seen kv.now at.old) s.old (Op.Read f n)) }
    ensures reads { ReadsBytes (record { kind = S.kind; before = dev.old; after = dev.new })
        (read_keys dev.old.settings.region (seen kv.now at.old) (handle_in s.old f) n)
        (in_hand at.old s.old) (in_hand at.new s.new) result }
    ensures dev { GoesOn S.kind dev.old dev.new [] }
{
    let Some(spot) = handle_of(s, f) else {
        return Ok(Done {
            answer: Answer::Refused(Word::NoHandle),
            own: None,
        });
    };
    let settings = dev.settings;
    let len = match file_len(kv, at, spot.inode, settings) {
        Ok(len) => len,
        Err(_) => return Err(Fault::Memory),
    };
    let k = found_len(spot.off, n, len, settings.cap());
    let from = range_start(spot.off, k);
    let found = match pieces(alloc, dev, kv, at, spot.inode, from, k) {
        Ok(found) => found,
        Err(why) => return Err(why),
    };
    let mut out = Vec::new(alloc);
    match show(dev, found.as_slice(), 0, k, &mut out) {
        Ok(()) => {}
        Err(why) => return Err(why),
    }
    s.move_handle(f, spot.off + k);
    Ok(Done {
        answer: Answer::Shown(Bytes::of(out)),
        own: None,
    })
}
