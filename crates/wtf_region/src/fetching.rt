//! Bytes of pieces, read from the servers.

ghost use Rattle.std.specs.Prelude.{◌<◌, ◌≤◌, ◌+◌, [], OnOk, IfErr};
ghost use Rattle.wtf_overlay.specs.Origin.{part_origin, pieces_len, pieces_origin};
ghost use Rattle.wtf_replica.specs.Bytes.{byte_at};
ghost use Rattle.wtf_region.specs.Called.{Appends, ShowsBytesOf};
ghost use Rattle.wtf_region.specs.Devs.{IsSoundDev, GoesOn, stores, is_down_in, between};
ghost use Rattle.wtf_region.specs.Showing.{IsReadablePart, AreReadable, IsUpPart, ShownBoth, pieces_in, IsPartFault, IsShowFault};

use crate::Dev;
use wtf_base::Fault;
use wtf_dev::SliceStore;
use wtf_overlay::{Part, Piece};

/// Appends the `len` bytes of a piece from its byte `off` on. The faults are those of `show`; `out`
/// then begins with what it had.
fn show_part<S: SliceStore>(
    dev: &mut Dev<'_, S>,
    piece: &Piece,
    off: u64,
    len: u64,
    out: &mut Vec<u8>,
) -> Result<(), Fault>
    requires sound { IsSoundDev S.kind dev.old }
    requires some { 0 < len }
    requires within { off + len ≤ piece.now.len }
    requires readable { IsReadablePart S.kind dev.old piece.now.part }
    ensures shown { OnOk result (ShownBoth (is_down_in dev.old) (byte_at S.kind (stores dev.old))
        len (λ i. part_origin piece.now.part (off + i)) out.old.items out.new.items) }
    ensures up { OnOk result (IsUpPart (is_down_in dev.old) piece.now.part) }
    ensures fault { IfErr result (IsPartFault S.kind (between dev.old dev.new) piece.now.part) }
    ensures appends { Appends S.kind dev.old dev.new out.old.items out.new.items }
    ensures dev { GoesOn S.kind dev.old dev.new [] }
{
    let from = out.len();
    let Some(end) = from.checked_add(len as usize) else {
        return Err(Fault::Memory);
    };
    if out.resize(end, 0).is_err() {
        return Err(Fault::Memory);
    }
    let Part::Held(slice) = piece.part else {
        return Ok(());
    };
    let _whole = slice.len();
    if let Err(why) = dev
        .replicas
        .fetch(dev.shelf, &slice, off as u32, &mut out[from..])
    {
        return Err(why);
    }
    Ok(())
}

/// The same of consecutive pieces.
fn show_all<S: SliceStore>(
    dev: &mut Dev<'_, S>,
    pieces: &[Piece],
    off: u64,
    len: u64,
    out: &mut Vec<u8>,
) -> Result<(), Fault>
    requires sound { IsSoundDev S.kind dev.old }
    requires within { off + len ≤ pieces_len pieces.now }
    requires readable { AreReadable S.kind dev.old pieces.now }
    ensures shown { OnOk result (ShownBoth (is_down_in dev.old) (byte_at S.kind (stores dev.old))
        len (λ i. pieces_origin pieces.now (off + i)) out.old.items out.new.items) }
    ensures fault { IfErr result
        (IsShowFault S.kind (between dev.old dev.new) (pieces_in off len pieces.now)) }
    ensures appends { Appends S.kind dev.old dev.new out.old.items out.new.items }
    ensures dev { GoesOn S.kind dev.old dev.new [] }
{
    let mut skip = off;
    let mut left = len;
    for piece in pieces {
        if left == 0 {
            return Ok(());
        }
        if skip >= piece.len {
            skip -= piece.len;
            continue;
        }
        let n = left.min(piece.len - skip);
        if let Err(why) = show_part(dev, piece, skip, n, out) {
            return Err(why);
        }
        skip = 0;
        left -= n;
    }
    Ok(())
}

/// Appends `len` bytes of consecutive pieces, from their byte `off` on, to `out`: zeros for a hole,
/// and for a slice what a copy of it holds that is on a server that is up. `Read` with the server of the last
/// copy of the first slice of which no copy could be read, in the order of the bytes, and `Memory` where
/// memory could not be had: `out` is then as it was. Only the slices of these bytes are read, and only of
/// these bytes. The lists that are remembered stay.
pub fn show<S: SliceStore>(
    dev: &mut Dev<'_, S>,
    pieces: &[Piece],
    off: u64,
    len: u64,
    out: &mut Vec<u8>,
) -> Result<(), Fault>
    requires sound { IsSoundDev S.kind dev.old }
    requires within { off + len ≤ pieces_len pieces.now }
    requires readable { AreReadable S.kind dev.old pieces.now }
    ensures { ShowsBytesOf S.kind dev.old dev.new
        (record { pieces = pieces.now; off = off; len = len }) out.old.items out.new.items result }
{
    let from = out.len();
    if let Err(why) = show_all(dev, pieces, off, len, out) {
        out.truncate(from);
        return Err(why);
    }
    Ok(())
}
