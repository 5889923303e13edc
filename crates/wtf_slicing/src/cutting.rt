//! The calls that show a part of a slice, and keep one as another slice.

ghost use Rattle.std.specs.Prelude.{◌≡◌, ◌<◌, ◌≤◌, ◌+◌, ◌-◌, ◌^◌, ℕ, min, true, false, IfOk, IfErr, IfSome, OnErr};
ghost use Rattle.wtf_overlay.specs.declared.part.Piece as piece;
ghost use Rattle.wtf_overlay.specs.Origin.{part_origin, pieces_len, pieces_origin, Plans};
ghost use Rattle.wtf_model.specs.Form.{IsSlice, IsNumber, IsShowable};
ghost use Rattle.wtf_model.specs.Steps.{IsLogged};
ghost use Rattle.wtf_meta.specs.Maps.{Map};
ghost use Rattle.wtf_meta.specs.Sessions.{SessionBytes, slice_in};
ghost use Rattle.wtf_meta.specs.Calls.{Caller, InHand};
ghost use Rattle.wtf_region.specs.Devs.{IsSoundDev, stores};
ghost use Rattle.wtf_region.specs.Inside.{is_inside};
ghost use Rattle.wtf_steps.specs.Steps.{in_hand, IsStepWith, NeedsNoBytes};
ghost use Rattle.wtf_steps.specs.Faults.{MayFault};
ghost use Rattle.wtf_steps.specs.Holding.{LeavesHand};
ghost use Rattle.wtf_slicing.specs.Called.{ShowsPart};
ghost use Rattle.wtf_slicing.specs.Held.{Cuts};
ghost use Rattle.wtf_slicing.specs.Shown.{TellsSlices, LacksSlice};

use std::alloc::Global;
use wtf_base::{Bytes, Fault, OutOfMemory};
use wtf_dev::SliceStore;
use wtf_meta::Session;
use wtf_model::{Answer, Op, Word};
use wtf_overlay::{Part, Piece};
use wtf_region::{Dev, show};

/// The number of bytes of pieces; 2^64 - 1 where there are more.
pub(crate) fn bytes_of(pieces: &[Piece]) -> u64
    ensures { result ≡ min (pieces_len pieces.now) (2 ^ 64 - 1) }
{
    let mut sum = 0u64;
    for piece in pieces {
        sum = sum.saturating_add(piece.len);
    }
    sum
}

/// Whether a part lies inside so many bytes.
fn is_part(whole: u64, off: u64, len: u64) -> bool
    ensures inside { result ≡ true → off + len ≤ whole }
    ensures past { result ≡ false → whole < off + len }
{
    off <= whole && len <= whole - off
}

/// The `len` bytes of a piece from its byte `off` on.
fn part_of(piece: &Piece, off: u64, len: u64) -> Piece
    requires some { 0 < len }
    requires within { off + len ≤ piece.now.len }
    ensures len { result.len ≡ len }
    ensures origin { (i : ℕ) →
        part_origin result.part i ≡ part_origin piece.now.part (off + i) }
{
    match piece.part {
        Part::Zero => Piece::of(len, Part::Zero),
        Part::Held(slice) => {
            let _whole = slice.len();
            Piece::of(len, Part::Held(slice.cut(off as u32, len as u32)))
        }
    }
}

/// How many of the pieces hold the first `end` bytes.
fn count_upto(pieces: &[Piece], end: u64) -> usize {
    let mut count = 0;
    let mut left = end;
    for piece in pieces {
        if left == 0 {
            return count;
        }
        left = left.saturating_sub(piece.len);
        count += 1;
    }
    count
}

/// The `len` bytes of pieces from their byte `off` on, as pieces. Those behind them are not looked at.
fn copy_part(alloc: Global, pieces: &[Piece], off: u64, len: u64) -> Result<Vec<Piece>, OutOfMemory>
    requires off { IsNumber off }
    requires len { IsNumber len }
    requires within { off + len ≤ pieces_len pieces.now }
    ensures { IfOk result (λ v. Plans v.items len (λ i. pieces_origin pieces.now (off + i))) }
{
    let mut out = Vec::with_capacity(alloc, count_upto(pieces, off + len))?;
    let mut skip = off;
    let mut left = len;
    for piece in pieces {
        if left == 0 {
            return Ok(out);
        }
        if skip >= piece.len {
            skip -= piece.len;
            continue;
        }
        let n = left.min(piece.len - skip);
        out.push(part_of(piece, skip, n))?;
        skip = 0;
        left -= n;
    }
    Ok(out)
}

/// The `len` bytes of the slice `from` from its byte `off` on, as pieces. No server is asked. The first
/// of its pieces is found by where they end, so that this costs what the part has.
fn cut_pieces(
    alloc: Global,
    s: &mut Session,
    from: u8,
    off: u64,
    len: u64,
) -> Result<Vec<Piece>, OutOfMemory>
    requires from { IsSlice from }
    requires off { IsNumber off }
    requires len { IsNumber len }
    requires within { IfSome (slice_in s.old from) (λ ps. off + len ≤ pieces_len ps) }
    ensures part { IfOk result (λ v. IfSome (slice_in s.old from)
        (λ ps. Plans v.items len (λ i. pieces_origin ps (off + i)))) }
    ensures same { s.new ≡ s.old }
{
    s.index(alloc, from)?;
    let Some(begin) = s.find(from, off) else {
        return Ok(Vec::new(alloc));
    };
    let Some(pieces) = s.slice(from) else {
        return Ok(Vec::new(alloc));
    };
    let part = copy_part(alloc, &pieces[begin.piece..], begin.skip, len)?;
    Ok(part)
}

/// Keeps the part of the slice `from` as the slice `to`, which may be the same one. It is refused
/// for a slice that was never set, and for a part that passes its end; then nothing changes, and so
/// for want of memory.
pub(crate) fn cut(
    alloc: Global,
    s: &mut Session,
    from: u8,
    off: u64,
    len: u64,
    to: u8,
) -> Result<Answer, OutOfMemory>
    requires from { IsSlice from }
    requires off { IsNumber off }
    requires len { IsNumber len }
    requires to { IsSlice to }
    ensures step { IfOk result (λ a. (x : Caller) (b : Map) (now : InHand) → now.session ≡ s.old →
        IsStepWith NeedsNoBytes x b now (in_hand now.at s.new) (Op.Cut from off len to) a) }
    ensures holds { IfOk result (λ a. LeavesHand a (Cuts from off len to) s.old s.new) }
    ensures logged { IfOk result (λ a. IsLogged a) }
    ensures err { OnErr result (s.new ≡ s.old) }
{
    let Some(whole) = s.slice_len(from) else {
        return Ok(Answer::Refused(Word::NoSlice));
    };
    if !is_part(whole, off, len) {
        return Ok(Answer::Refused(Word::Range));
    }
    let part = cut_pieces(alloc, s, from, off, len)?;
    s.put_slice(to, part);
    Ok(Answer::Okay)
}

/// Shows the part of a slice. It is refused as `cut` is. `Read` where no copy of some of the bytes
/// could be read. Nothing changes.
pub(crate) fn peek<S: SliceStore>(
    alloc: Global,
    dev: &mut Dev<'_, S>,
    s: &mut Session,
    from: u8,
    off: u64,
    len: u64,
) -> Result<Answer, Fault>
    requires sound { IsSoundDev S.kind dev.old }
    requires inside { SessionBytes (is_inside S.kind (stores dev.old) dev.old.settings) s.old }
    requires from { IsSlice from }
    requires off { IsNumber off }
    requires len { IsShowable len }
    ensures step { IfOk result (λ a. (x : Caller) (b : Map) (now : InHand) → now.session ≡ s.old →
        IsStepWith (TellsSlices S.kind (stores dev.old) (stores dev.new) s.old) x b now now
        (Op.Peek from off len) a) }
    ensures fault { IfErr result
        (LacksSlice S.kind dev.old dev.new (slice_in s.old from) off len) }
    ensures due { IfErr result (λ why. (b : Map) →
        MayFault dev.old.settings b s.old (Op.Peek from off len) why) }
    ensures shows { ShowsPart S.kind dev.old dev.new s.old s.new result }
{
    let Some(whole) = s.slice_len(from) else {
        return Ok(Answer::Refused(Word::NoSlice));
    };
    if !is_part(whole, off, len) {
        return Ok(Answer::Refused(Word::Range));
    }
    let part = match cut_pieces(alloc, s, from, off, len) {
        Ok(part) => part,
        Err(_) => return Err(Fault::Memory),
    };
    let mut out = Vec::new(alloc);
    match show(dev, part.as_slice(), 0, len, &mut out) {
        Ok(()) => {}
        Err(why) => return Err(why),
    }
    Ok(Answer::Shown(Bytes::of(out)))
}
