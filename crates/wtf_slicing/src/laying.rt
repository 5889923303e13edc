//! The calls that lay a slice over a file, and add one at its end.

ghost use Rattle.std.specs.Prelude.{◌≡◌, ◌+◌, ◌++◌, IsTrue, IfOk, OnOk};
ghost use Rattle.wtf_kv.specs.Stores.{is_pinned};
ghost use Rattle.wtf_model.specs.Form.{IsHandle, IsSlice};
ghost use Rattle.wtf_meta.specs.Maps.{Map, seen};
ghost use Rattle.wtf_meta.specs.Sessions.{handle_in, slice_in};
ghost use Rattle.wtf_meta.specs.Calls.{Caller};
ghost use Rattle.wtf_steps.specs.Steps.{in_hand, IsStepWith, NeedsNoBytes};
ghost use Rattle.wtf_steps.specs.Made.{Makes, LaysAt, AddsAt};
ghost use Rattle.wtf_steps.specs.Holding.{LeavesHand};
ghost use Rattle.wtf_slicing.specs.Called.{LaysSlice};
ghost use Rattle.wtf_slicing.specs.Recorded.{glue_keys};
ghost use Rattle.wtf_slicing.specs.Changed.{kept_pieces};
ghost use Rattle.wtf_slicing.specs.Held.{Pastes};

use crate::cutting::bytes_of;
use std::alloc::Global;
use wtf_base::{OutOfMemory, Settings};
use wtf_kv::Kv;
use wtf_meta::Session;
use wtf_model::{Answer, Op, Word};
use wtf_occ::Attempt;
use wtf_region::{add_pieces, put_pieces};
use wtf_steps::{answer_to, ends_within, handle_of};
use wtf_values::{Key, Value};

/// Lays a slice over the file of a handle at its offset, which grows by the number of its bytes. It
/// is refused for a handle that is not open, for a slice that was never set, and where the bytes
/// would pass the greatest length; then nothing changes, and so for no byte. Want of memory leaves
/// the session, and may leave the attempt grown.
pub(crate) fn paste(
    at: &mut Attempt<Key, Value>,
    s: &mut Session,
    f: u8,
    label: u8,
    settings: Settings,
) -> Result<Answer, OutOfMemory>
    requires handle { IsHandle f }
    requires slice { IsSlice label }
    ensures keys { OnOk result (at.new.reads ≡ at.old.reads) }
    ensures step { IfOk result (λ a. (x : Caller) (b : Map) → x.size ≡ settings.region →
        IsStepWith NeedsNoBytes x b (in_hand at.old s.old) (in_hand at.new s.new)
        (Op.Paste f label) a) }
    ensures made { IfOk result (λ a. Makes a (LaysAt settings.region (handle_in s.old f)
        (kept_pieces s.old label)) at.old at.new) }
    ensures holds { IfOk result (λ a. LeavesHand a (Pastes f label) s.old s.new) }
    ensures lays { LaysSlice (in_hand at.old s.old) (in_hand at.new s.new) result }
{
    let Some(spot) = handle_of(s, f) else {
        return Ok(Answer::Refused(Word::NoHandle));
    };
    let Some(pieces) = s.slice(label) else {
        return Ok(Answer::Refused(Word::NoSlice));
    };
    let len = bytes_of(pieces);
    if len == 0 {
        return Ok(Answer::Okay);
    }
    if !ends_within(spot.off, len, settings.cap()) {
        return Ok(Answer::Refused(Word::TooBig));
    }
    put_pieces(at, spot.inode, spot.off, pieces, settings)?;
    s.move_handle(f, spot.off + len);
    Ok(Answer::Okay)
}

/// Adds a slice at the end of the file of a handle. It is refused as `paste` is, here where the file
/// would pass the greatest length. Want of memory may leave the attempt grown.
pub(crate) fn glue(
    alloc: Global,
    kv: &Kv<Key, Value>,
    at: &mut Attempt<Key, Value>,
    s: &Session,
    f: u8,
    label: u8,
    settings: Settings,
) -> Result<Answer, OutOfMemory>
    requires pinned { IsTrue (is_pinned kv.now at.old.base) }
    requires handle { IsHandle f }
    requires slice { IsSlice label }
    ensures keys { OnOk result (at.new.reads ≡ at.old.reads ++ glue_keys settings.region
        (seen kv.now at.old) (handle_in s.now f) (slice_in s.now label)) }
    ensures step { IfOk result (λ a. (x : Caller) → x.size ≡ settings.region →
        IsStepWith NeedsNoBytes x (seen kv.now at.old) (in_hand at.old s.now)
        (in_hand at.new s.now) (Op.Glue f label) a) }
    ensures made { IfOk result (λ a. Makes a (AddsAt settings.region (seen kv.now at.old)
        (handle_in s.now f) (kept_pieces s.now label)) at.old at.new) }
    ensures lays { LaysSlice (in_hand at.old s.now) (in_hand at.new s.now) result }
{
    let Some(spot) = handle_of(s, f) else {
        return Ok(Answer::Refused(Word::NoHandle));
    };
    let Some(pieces) = s.slice(label) else {
        return Ok(Answer::Refused(Word::NoSlice));
    };
    let added = add_pieces(alloc, kv, at, spot.inode, pieces, settings)?;
    Ok(answer_to(added))
}
