//! The call that adds bytes at a file's end.

ghost use Rattle.std.specs.Prelude.{◌≡◌, ◌<◌, ◌≤◌, ◌++◌, length, Some, None, IfOk, IfErr, IfSome, OnOk, IsTrue, IsSome};
ghost use Rattle.std.specs.Option.{option_map};
ghost use Rattle.wtf_kv.specs.Stores.{is_pinned};
ghost use Rattle.wtf_model.specs.declared.limits.TheConstants.{MAX_HANDLES, MAX_WRITTEN};
ghost use Rattle.wtf_meta.specs.declared.session.Handle as handle;
ghost use Rattle.wtf_meta.specs.Maps.{seen};
ghost use Rattle.wtf_meta.specs.Files.{FileView};
ghost use Rattle.wtf_meta.specs.Sessions.{handle_in};
ghost use Rattle.wtf_meta.specs.Calls.{Caller};
ghost use Rattle.wtf_region.specs.Devs.{IsSoundDev, stores, between};
ghost use Rattle.wtf_region.specs.Edited.{IsFileEnd, LacksRoom};
ghost use Rattle.wtf_steps.specs.Recorded.{append_keys};
ghost use Rattle.wtf_steps.specs.Steps.{in_hand, IsStepWith};
ghost use Rattle.wtf_steps.specs.Made.{Makes, AddsAt};
ghost use Rattle.wtf_rw.specs.Called.{PutsBytes, Alters};
ghost use Rattle.wtf_rw.specs.Ops.{IsPlainStep, IsBareAnswer, place_at_end};
ghost use Rattle.wtf_rw.specs.Stored.{TellsOwn, IsOwn, HasRoom, end_place};
ghost use Rattle.wtf_rw.specs.Changed.{OfSlice};
ghost use Rattle.wtf_steps.specs.Faults.{MayFault};
ghost use Rattle.wtf_steps.specs.Leaving.{LeavesStores};

use crate::writes::{only, piece_of};
use crate::{Done, Given, RwOp};
use std::alloc::Global;
use wtf_base::{Fault, Kept, OutOfMemory, Settings};
use wtf_dev::SliceStore;
use wtf_kv::Kv;
use wtf_meta::Session;
use wtf_model::{Answer, Op, Word};
use wtf_occ::{Attempt, Mark};
use wtf_overlay::{Part, Piece};
use wtf_region::{Dev, FileEnd, add_at, add_pieces, file_end, file_len, store_bytes};
use wtf_steps::{answer_to, handle_of};
use wtf_values::{Key, Value};

/// Where so many bytes go that are to be added to a file that ends there; `None` where they find no
/// room in its last region, nor below the greatest length.
fn room(end: FileEnd, len: u64, settings: Settings) -> Option<u64>
    requires { len ≤ MAX_WRITTEN }
    ensures place { (v : FileView) → IsFileEnd v end →
        IfSome result (λ off. off ≡ end_place settings.region v) }
    ensures room { (v : FileView) → IsFileEnd v end →
        IsSome result → HasRoom settings.region v len }
    ensures full { (v : FileView) → IsFileEnd v end →
        result ≡ None → LacksRoom settings.region v len }
{
    let size = settings.region as u64;
    let cap = settings.cap();
    let off = end.region as u64 * size + end.off as u64;
    let place = off.min(cap - 1);
    if end.off as u64 + len <= size {
        return Some(place);
    }
    if off + len <= cap {
        return Some(place);
    }
    None
}

/// Stores bytes and adds them at the end of the file of a handle. It is refused for a handle that
/// is not open, and where the file would pass the greatest length; then nothing changes. `Write`
/// where fewer servers than replicas took the bytes. A fault may leave the attempt grown.
pub(crate) fn append_fresh<S: SliceStore>(
    alloc: Global,
    dev: &mut Dev<'_, S>,
    kv: &Kv<Key, Value>,
    at: &mut Attempt<Key, Value>,
    s: &Session,
    f: u8,
    bytes: &[u8],
) -> Result<Done, Fault>
    requires sound { IsSoundDev S.kind dev.old }
    requires pinned { IsTrue (is_pinned kv.now at.old.base) }
    requires label { f < MAX_HANDLES }
    requires few { length bytes.now ≤ MAX_WRITTEN }
    ensures keys { OnOk result (at.new.reads ≡ at.old.reads ++ append_keys
        dev.old.settings.region (seen kv.now at.old) (handle_in s.now f) (length bytes.now)) }
    ensures step { IfOk result (λ d. (x : Caller) → x.size ≡ dev.old.settings.region →
        IsStepWith (TellsOwn S.kind (stores dev.old) (stores dev.new) d.own) x
        (seen kv.now at.old) (in_hand at.old s.now) (in_hand at.new s.now)
        (Op.Append f bytes.now) d.answer) }
    ensures made { IfOk result (λ d. Makes d.answer (OfSlice d.own (AddsAt
        dev.old.settings.region (seen kv.now at.old) (handle_in s.now f))) at.old at.new) }
    ensures own { IfOk result (λ d. (h : handle.Handle) → handle_in s.now f ≡ Some h →
        IsOwn S.kind dev.old dev.new (place_at_end dev.old (seen kv.now at.old) h)
        bytes.now d.own) }
    ensures due { IfErr result (MayFault dev.old.settings (seen kv.now at.old) s.now
        (Op.Append f bytes.now)) }
    ensures leaves { LeavesStores S.kind
        (option_map (place_at_end dev.old (seen kv.now at.old)) (handle_in s.now f))
        (length bytes.now) (between dev.old dev.new) }
    ensures puts { PutsBytes (record { kind = S.kind; before = dev.old; after = dev.new })
        (in_hand at.old s.now) (in_hand at.new s.now) (handle_in s.now f) bytes.now result }
{
    let Some(spot) = handle_of(s, f) else {
        return Ok(only(Answer::Refused(Word::NoHandle)));
    };
    let len = bytes.len() as u64;
    if len == 0 {
        return Ok(only(Answer::Okay));
    }
    let settings = dev.settings;
    let end = file_end(kv, at, spot.inode);
    let Some(off) = room(end, len, settings) else {
        match file_len(kv, at, spot.inode, settings) {
            Ok(_) => return Ok(only(Answer::Refused(Word::TooBig))),
            Err(_) => return Err(Fault::Memory),
        }
    };
    let slice = match store_bytes(dev, spot.inode, off, bytes) {
        Ok(slice) => slice,
        Err(why) => return Err(why),
    };
    match add_at(alloc, at, spot.inode, end, &[piece_of(slice)], settings) {
        Ok(_) => {
            return Ok(Done {
                answer: Answer::Okay,
                own: Some(slice),
            });
        }
        Err(_) => return Err(Fault::Memory),
    }
}

/// Adds bytes that were stored before at the end of the file of a handle. It is refused as
/// `append_fresh` is. Without a slice for them the keys are recorded and nothing else is changed,
/// and the answer alone is due. Want of memory may leave the attempt grown.
pub(crate) fn append_stored(
    alloc: Global,
    kv: &Kv<Key, Value>,
    at: &mut Attempt<Key, Value>,
    s: &Session,
    f: u8,
    kept: Kept,
    settings: Settings,
) -> Result<Answer, OutOfMemory>
    requires pinned { IsTrue (is_pinned kv.now at.old.base) }
    requires label { f < MAX_HANDLES }
    ensures keys { OnOk result (at.new.reads ≡ at.old.reads ++ append_keys
        settings.region (seen kv.now at.old) (handle_in s.now f) kept.len) }
    ensures step { IfOk result (λ a. IsPlainStep settings.region (seen kv.now at.old)
        (in_hand at.old s.now) (in_hand at.new s.now) (RwOp.Append f (Given.Stored kept)) a) }
    ensures made { IfOk result (λ a. Makes a (OfSlice kept.slice (AddsAt
        settings.region (seen kv.now at.old) (handle_in s.now f))) at.old at.new) }
    ensures answers { IfOk result (λ a. IsBareAnswer settings.region (seen kv.now at.old) s.now
        (RwOp.Append f (Given.Stored kept)) a) }
    ensures bare { OnOk result (kept.slice ≡ None → at.new.changes ≡ at.old.changes) }
    ensures alters { Alters (in_hand at.old s.now) (in_hand at.new s.now) result }
{
    let Some(spot) = handle_of(s, f) else {
        return Ok(Answer::Refused(Word::NoHandle));
    };
    if kept.len == 0 {
        return Ok(Answer::Okay);
    }
    let Some(slice) = kept.slice else {
        let before = at.mark();
        let hole = Piece::of(kept.len as u64, Part::Zero);
        let added = add_pieces(alloc, kv, at, spot.inode, &[hole], settings)?;
        let after = at.mark();
        at.rewind(Mark {
            reads: after.reads,
            changes: before.changes,
        });
        return Ok(answer_to(added));
    };
    let added = add_pieces(alloc, kv, at, spot.inode, &[piece_of(slice)], settings)?;
    Ok(answer_to(added))
}
