//! The call that writes bytes at a handle's offset.

ghost use Rattle.std.specs.Prelude.{◌≡◌, ◌<◌, ◌≤◌, ◌+◌, ◌*◌, ◌∷◌, [], length, Some, None, IfOk, IfErr, OnOk, OnErr, IsSome};
ghost use Rattle.std.specs.Option.{option_map};
ghost use Rattle.wtf_base.specs.Slices.{len_of};
ghost use Rattle.wtf_occ.specs.Attempts.{Grows};
ghost use Rattle.wtf_model.specs.declared.limits.TheConstants.{MAX_HANDLES, MAX_REGIONS, MAX_WRITTEN};
ghost use Rattle.wtf_meta.specs.declared.session.Handle as handle;
ghost use Rattle.wtf_meta.specs.Maps.{Map};
ghost use Rattle.wtf_meta.specs.Sessions.{handle_in, SetsHandle, moved_to};
ghost use Rattle.wtf_meta.specs.Calls.{Caller};
ghost use Rattle.wtf_region.specs.Devs.{IsSoundDev, stores, between};
ghost use Rattle.wtf_region.specs.Edited.{Edited, LaysPieces};
ghost use Rattle.wtf_steps.specs.Steps.{in_hand, IsStepWith};
ghost use Rattle.wtf_steps.specs.Made.{Makes, LaysAt};
ghost use Rattle.wtf_rw.specs.Called.{PutsBytes, Alters};
ghost use Rattle.wtf_rw.specs.Held.{held_len};
ghost use Rattle.wtf_rw.specs.Ops.{IsPlainStep, IsBareAnswer, place_at};
ghost use Rattle.wtf_rw.specs.Stored.{TellsOwn, IsOwn};
ghost use Rattle.wtf_rw.specs.Changed.{OfSlice};
ghost use Rattle.wtf_steps.specs.Faults.{MayFault};
ghost use Rattle.wtf_steps.specs.Holding.{LeavesHand, MovesOn};
ghost use Rattle.wtf_steps.specs.Leaving.{LeavesStores};

use crate::{Done, Given, RwOp};
use wtf_base::{Fault, Kept, OutOfMemory, Settings, Slice};
use wtf_dev::SliceStore;
use wtf_meta::Session;
use wtf_model::{Answer, Op, Word};
use wtf_occ::Attempt;
use wtf_overlay::{Part, Piece};
use wtf_region::{Dev, put_pieces, store_bytes};
use wtf_steps::{Spot, ends_within, handle_of};
use wtf_values::{Key, Value};

/// The piece that is a slice.
pub(crate) fn piece_of(slice: Slice) -> Piece
    ensures len { result.len ≡ len_of slice }
    ensures part { result.part ≡ Part.Held slice }
{
    Piece::of(slice.len() as u64, Part::Held(slice))
}

/// An answer without a slice.
pub(crate) fn only(answer: Answer) -> Done
    ensures answer { result.answer ≡ answer }
    ensures own { result.own ≡ None }
{
    Done { answer, own: None }
}

/// Lays a piece over the file of an open handle at the handle's offset, which grows by the piece's
/// length.
fn lay(
    at: &mut Attempt<Key, Value>,
    s: &mut Session,
    f: u8,
    spot: Spot,
    piece: Piece,
    settings: Settings,
) -> Result<(), OutOfMemory>
    requires label { f < MAX_HANDLES }
    requires open { IsSome (handle_in s.old f) }
    requires cap { spot.off + piece.len ≤ MAX_REGIONS * settings.region }
    ensures laid { OnOk result (Edited spot.inode []
        (LaysPieces settings.region spot.off spot.inode (piece ∷ [])) at.old at.new) }
    ensures moved { OnOk result (SetsHandle f
        (option_map (moved_to (spot.off + piece.len)) (handle_in s.old f)) s.old s.new) }
    ensures err { OnErr result (s.new ≡ s.old) }
    ensures grows { Grows at.old at.new }
{
    let len = piece.len;
    put_pieces(at, spot.inode, spot.off, &[piece], settings)?;
    s.move_handle(f, spot.off + len);
    Ok(())
}

/// Stores bytes and lays them over the file of a handle at its offset, which grows by their number.
/// It is refused for a handle that is not open, and where the bytes would pass the greatest length;
/// then nothing changes, and so for no byte. `Write` where fewer servers than replicas took the
/// bytes. A fault leaves the session, and may leave the attempt grown.
pub(crate) fn write_fresh<S: SliceStore>(
    dev: &mut Dev<'_, S>,
    at: &mut Attempt<Key, Value>,
    s: &mut Session,
    f: u8,
    bytes: &[u8],
) -> Result<Done, Fault>
    requires sound { IsSoundDev S.kind dev.old }
    requires label { f < MAX_HANDLES }
    requires few { length bytes.now ≤ MAX_WRITTEN }
    ensures keys { OnOk result (at.new.reads ≡ at.old.reads) }
    ensures step { IfOk result (λ d. (x : Caller) (b : Map) → x.size ≡ dev.old.settings.region →
        IsStepWith (TellsOwn S.kind (stores dev.old) (stores dev.new) d.own) x b
        (in_hand at.old s.old) (in_hand at.new s.new) (Op.Write f bytes.now) d.answer) }
    ensures made { IfOk result (λ d. Makes d.answer
        (OfSlice d.own (LaysAt dev.old.settings.region (handle_in s.old f))) at.old at.new) }
    ensures holds { IfOk result (λ d.
        LeavesHand d.answer (MovesOn f (λ h. length bytes.now)) s.old s.new) }
    ensures own { IfOk result (λ d. (h : handle.Handle) → handle_in s.old f ≡ Some h →
        IsOwn S.kind dev.old dev.new (place_at dev.old h) bytes.now d.own) }
    ensures due { IfErr result (λ why. (b : Map) →
        MayFault dev.old.settings b s.old (Op.Write f bytes.now) why) }
    ensures leaves { LeavesStores S.kind (option_map (place_at dev.old) (handle_in s.old f))
        (length bytes.now) (between dev.old dev.new) }
    ensures puts { PutsBytes (record { kind = S.kind; before = dev.old; after = dev.new })
        (in_hand at.old s.old) (in_hand at.new s.new) (handle_in s.old f) bytes.now result }
{
    let Some(spot) = handle_of(s, f) else {
        return Ok(only(Answer::Refused(Word::NoHandle)));
    };
    let len = bytes.len() as u64;
    if len == 0 {
        return Ok(only(Answer::Okay));
    }
    let settings = dev.settings;
    if !ends_within(spot.off, len, settings.cap()) {
        return Ok(only(Answer::Refused(Word::TooBig)));
    }
    let slice = match store_bytes(dev, spot.inode, spot.off, bytes) {
        Ok(slice) => slice,
        Err(why) => return Err(why),
    };
    match lay(at, s, f, spot, piece_of(slice), settings) {
        Ok(()) => {
            return Ok(Done {
                answer: Answer::Okay,
                own: Some(slice),
            });
        }
        Err(_) => return Err(Fault::Memory),
    }
}

/// Lays bytes that were stored before over the file of a handle at its offset, which grows by their
/// number. It is refused as `write_fresh` is. Without a slice for them nothing changes, and the
/// answer alone is due. Want of memory leaves the session, and may leave the attempt grown.
pub(crate) fn write_stored(
    at: &mut Attempt<Key, Value>,
    s: &mut Session,
    f: u8,
    kept: Kept,
    settings: Settings,
) -> Result<Answer, OutOfMemory>
    requires label { f < MAX_HANDLES }
    ensures keys { OnOk result (at.new.reads ≡ at.old.reads) }
    ensures step { (w : Map) → IfOk result (λ a. IsPlainStep settings.region w
        (in_hand at.old s.old) (in_hand at.new s.new) (RwOp.Write f (Given.Stored kept)) a) }
    ensures made { IfOk result (λ a. Makes a
        (OfSlice kept.slice (LaysAt settings.region (handle_in s.old f))) at.old at.new) }
    ensures holds { IfOk result (λ a. LeavesHand a
        (MovesOn f (λ h. held_len kept.slice)) s.old s.new) }
    ensures answers { (w : Map) → IfOk result (λ a. IsBareAnswer settings.region w s.old
        (RwOp.Write f (Given.Stored kept)) a) }
    ensures bare { OnOk result (kept.slice ≡ None → (at.new ≡ at.old) × (s.new ≡ s.old)) }
    ensures alters { Alters (in_hand at.old s.old) (in_hand at.new s.new) result }
{
    let Some(spot) = handle_of(s, f) else {
        return Ok(Answer::Refused(Word::NoHandle));
    };
    if kept.len == 0 {
        return Ok(Answer::Okay);
    }
    if !ends_within(spot.off, kept.len as u64, settings.cap()) {
        return Ok(Answer::Refused(Word::TooBig));
    }
    let Some(slice) = kept.slice else {
        return Ok(Answer::Okay);
    };
    lay(at, s, f, spot, piece_of(slice), settings)?;
    Ok(Answer::Okay)
}
