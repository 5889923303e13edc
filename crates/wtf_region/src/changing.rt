//! Pieces that are laid over a file, or added at its end.

ghost use Rattle.std.specs.Prelude.{◌≡◌, ℕ, ◌+◌, ◌-◌, ◌*◌, ◌<◌, ◌≤◌, ◌^◌, min, true, false, IfOk, OnOk, IsTrue, [], ◌∷◌, ◌++◌};
ghost use Rattle.wtf_kv.specs.Stores.{is_pinned};
ghost use Rattle.wtf_occ.specs.Attempts.{Grows};
ghost use Rattle.wtf_overlay.specs.Origin.{part_origin, pieces_len};
ghost use Rattle.wtf_overlay.specs.Lengths.{HasLength};
ghost use Rattle.wtf_model.specs.declared.limits.TheConstants.{MAX_REGIONS};
ghost use Rattle.wtf_meta.specs.Maps.{seen};
ghost use Rattle.wtf_meta.specs.Files.{FileView};
ghost use Rattle.wtf_meta.specs.FileEdits.{file_of, edit_of, Push, RaiseLast};
ghost use Rattle.wtf_region.specs.Holding.{held_over};
ghost use Rattle.wtf_region.specs.Edited.{Edited, CoversPart, LaysPieces, LacksRoom, IsAdded, IsFileEnd};

use crate::Added;
use crate::ends::{FileEnd, file_end, record_last, record_length};
use crate::part::part_at;
use std::alloc::Global;
use std::mem;
use wtf_base::{InodeId, OutOfMemory, Settings};
use wtf_kv::Kv;
use wtf_meta::{Delta, Key, Pieces, Value};
use wtf_occ::Attempt;
use wtf_overlay::{Entry, Part, Piece};

/// The bytes of a piece from its byte `off` on.
fn part_of(piece: &Piece, off: u64, len: u32) -> Part
    requires some { 0 < len }
    requires within { off + len ≤ piece.now.len }
    ensures held { HasLength len result }
    ensures origin { (i : ℕ) → part_origin result i ≡ part_origin piece.now.part (off + i) }
{
    match piece.part {
        Part::Zero => Part::Zero,
        Part::Held(slice) => {
            let _whole = slice.len();
            Part::Held(slice.cut(off as u32, len))
        }
    }
}

/// Entries of one region that are to be laid.
#[derive(Drop)]
struct Held {
    region: u16,
    pushes: Vec<Delta>,
}

/// Lays entries that were held.
fn lay(at: &mut Attempt<Key, Value>, inode: InodeId, held: Held) -> Result<(), OutOfMemory>
    ensures ok { OnOk result (at.new ≡ held_over inode held at.old) }
    ensures grows { Grows at.old at.new }
{
    let Held { region, pushes } = held;
    at.deltas(&Key::Region(inode, region), pushes)
}

/// Holds entries of a region from now on. Those of another one that are held are laid.
fn turn_to(
    at: &mut Attempt<Key, Value>,
    inode: InodeId,
    held: &mut Held,
    region: u16,
) -> Result<(), OutOfMemory>
    ensures region { OnOk result (held.new.region ≡ region) }
    ensures ok { OnOk result (held_over inode held.new at.new ≡ held_over inode held.old at.old) }
    ensures grows { Grows at.old at.new }
{
    if region == held.region {
        return Ok(());
    }
    let pushes = Vec::new(at.alloc());
    let full = mem::replace(held, Held { region, pushes });
    lay(at, inode, full)
}

/// Holds one entry more. Those of another region that are held are laid.
fn hold(
    at: &mut Attempt<Key, Value>,
    inode: InodeId,
    held: &mut Held,
    region: u16,
    entry: Entry,
) -> Result<(), OutOfMemory>
    ensures ok { OnOk result (held_over inode held.new at.new ≡
        record (held_over inode held.old at.old) {
          changes =
              (held_over inode held.old at.old).changes ++ edit_of inode (Push region entry) ∷ [];
        }) }
    ensures grows { Grows at.old at.new }
{
    turn_to(at, inode, held, region)?;
    held.pushes.push(Delta::Push(entry))?;
    Ok(())
}

/// Lays a piece over the regions of a file at an offset. Some of its entries may be held.
fn put_piece(
    at: &mut Attempt<Key, Value>,
    inode: InodeId,
    held: &mut Held,
    off: u64,
    piece: &Piece,
    size: u32,
) -> Result<(), OutOfMemory>
    requires size { 0 < size }
    requires small { size < 2 ^ 32 - 1 }
    requires cap { off + piece.now.len ≤ MAX_REGIONS * size }
    ensures ok { OnOk result
        (Edited inode [] (CoversPart size off inode piece.now piece.now.len)
        (held_over inode held.old at.old) (held_over inode held.new at.new)) }
    ensures grows { Grows at.old at.new }
{
    let mut done = 0;
    while done < piece.len {
        let part = part_at(off, piece.len, done, size);
        let within = part_of(piece, done, part.len);
        let entry = Entry::of(part.off, part.len, within);
        hold(at, inode, held, part.region, entry)?;
        done += part.len as u64;
    }
    Ok(())
}

/// Lays consecutive pieces over a file from an offset on, which makes it at least so long. Nothing
/// is recorded, and no byte is moved. No piece changes nothing. After an error some of the changes
/// may be made.
pub fn put_pieces(
    at: &mut Attempt<Key, Value>,
    inode: InodeId,
    off: u64,
    pieces: &[Piece],
    settings: Settings,
) -> Result<(), OutOfMemory>
    requires cap { off + pieces_len pieces.now ≤ MAX_REGIONS * settings.region }
    ensures ok { OnOk result
        (Edited inode [] (LaysPieces settings.region off inode pieces.now) at.old at.new) }
    ensures grows { Grows at.old at.new }
{
    let mut done = 0;
    let mut held = Held {
        region: 0,
        pushes: Vec::new(at.alloc()),
    };
    for piece in pieces {
        put_piece(at, inode, &mut held, off + done, piece, settings.region)?;
        done += piece.len;
    }
    lay(at, inode, held)?;
    if done > 0 {
        let last = (off + done - 1) / settings.region as u64;
        at.delta(Key::Inode(inode), Delta::RaiseLast(last as u16))?;
    }
    Ok(())
}

/// The number of bytes of pieces; 2^64 - 1 where there are more.
fn bytes_of(pieces: &[Piece]) -> u64
    ensures { result ≡ min (pieces_len pieces.now) (2 ^ 64 - 1) }
{
    let mut sum = 0u64;
    for piece in pieces {
        sum = sum.saturating_add(piece.len);
    }
    sum
}

/// Whether so many bytes fit behind the end of a region.
fn has_room(end: u32, len: u64, size: u32) -> bool
    ensures room { result ≡ true → end + len ≤ size }
    ensures full { result ≡ false → size < end + len }
{
    end <= size && len <= (size - end) as u64
}

/// Adds consecutive pieces at the end of a file that was seen to end there, unless it would pass the
/// greatest length. No piece changes nothing and records nothing. Where they fit into its last region,
/// whatever others add there meanwhile, only that region's number is recorded; else its value is
/// recorded too, and they are laid at the end that was seen. After an error some keys may be recorded
/// and some of the changes made.
pub fn add_at(
    alloc: Global,
    at: &mut Attempt<Key, Value>,
    inode: InodeId,
    end: FileEnd,
    pieces: &[Piece],
    settings: Settings,
) -> Result<Added, OutOfMemory>
    ensures added { (v : FileView) → IsFileEnd v end →
        IfOk result (IsAdded settings.region inode v pieces.now at.old at.new) }
    ensures full { (v : FileView) → IsFileEnd v end → IfOk result
        (λ a. a ≡ Added.TooBig → LacksRoom settings.region v (pieces_len pieces.now)) }
    ensures grows { Grows at.old at.new }
{
    let len = bytes_of(pieces);
    if len == 0 {
        return Ok(Added::Done);
    }
    let size = settings.region;
    if has_room(end.off, len, size) {
        record_last(at, inode)?;
        let pieces = Pieces::of(alloc, pieces)?;
        at.delta(Key::Region(inode, end.region), Delta::PushRel(pieces, size))?;
        return Ok(Added::Done);
    }
    record_length(at, inode, end)?;
    let off = end.region as u64 * size as u64 + end.off as u64;
    let cap = settings.cap();
    if off > cap || len > cap - off {
        return Ok(Added::TooBig);
    }
    put_pieces(at, inode, off, pieces, settings)?;
    Ok(Added::Done)
}

/// The same at the end that the attempt sees.
pub fn add_pieces(
    alloc: Global,
    kv: &Kv<Key, Value>,
    at: &mut Attempt<Key, Value>,
    inode: InodeId,
    pieces: &[Piece],
    settings: Settings,
) -> Result<Added, OutOfMemory>
    requires { IsTrue (is_pinned kv.now at.old.base) }
    ensures added { IfOk result (IsAdded settings.region inode
        (file_of inode (seen kv.now at.old)) pieces.now at.old at.new) }
    ensures full { IfOk result (λ a. a ≡ Added.TooBig → LacksRoom settings.region
        (file_of inode (seen kv.now at.old)) (pieces_len pieces.now)) }
    ensures grows { Grows at.old at.new }
{
    let end = file_end(kv, at, inode);
    add_at(alloc, at, inode, end, pieces, settings)
}
