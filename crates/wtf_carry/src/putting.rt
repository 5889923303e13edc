//! The lines that put a file's bytes at a path.

ghost use Rattle.std.specs.Prelude.{◌≡◌, ◌≢◌, ◌≤◌, ◌<◌, ◌+◌, ◌++◌, ◌∷◌, ℕ, List, [], Some, Err, length, take, OnOk, IfOk, IfSome};
ghost use Rattle.wtf_dev.specs.Counts.{Rose};
ghost use Rattle.hex.specs.Hex.{IsBytes};
ghost use Rattle.wtf_carry.specs.Asked.{asked_text, turn, try_line, write_line};
ghost use Rattle.wtf_carry.specs.Puts.{Puts, HasHead, CarriesTo, passage};

use crate::lines::{push_line, push_turn, push_ways, push_write};
use crate::stream::{fill, write_all};
use crate::{MOST_BYTES, Stop};
use std::alloc::Global;
use wtf_base::OutOfMemory;
use wtf_dev::{Sink, Source};
use wtf_path::Path;

/// The most bytes of a write.
const PIECE_BYTES: usize = 16_384;

/// Turns the bytes of a source into the lines that put them at a path, a piece at a time: directories on the way are made,
/// the file is created, and its bytes are written, up to 4,000 pieces in a transaction. Each piece but the last has 16,384
/// bytes, also where the source gives a few at a time, and all lines have at most the bytes of a script. A file of more than
/// 500,000,000 bytes is `TooLong`; the lines of a file that was not carried to its end are to be thrown away.
pub fn put<I: Source, O: Sink>(
    alloc: Global,
    path: &Path,
    from: &mut I,
    out: &mut O,
) -> Result<(), Stop>
    ensures put { OnOk result ((all old : List ℕ) → (I.view from.old).rest ≡ Some all →
        (O.view out.old).taken ≡ Some old → Puts path.now all old (O.view out.new).taken) }
    ensures unread { result ≡ Err Stop.Unread →
        Rose (I.view from.old).faults (I.view from.new).faults }
    ensures unwritten { result ≡ Err Stop.Unwritten →
        Rose (O.view out.old).faults (O.view out.new).faults }
    ensures too_long { result ≡ Err Stop.TooLong → (all old : List ℕ) →
        (I.view from.old).rest ≡ Some all → (O.view out.old).taken ≡ Some old →
        MOST_BYTES < length all }
    ensures no_answer { result ≢ Err Stop.Wrong }
{
    let mut text = Vec::new(alloc);
    push_head(alloc, &mut text, path)?;
    let Ok(()) = write_all(out, text.as_slice()) else {
        return Err(Stop::Unwritten);
    };
    let mut piece = [0u8; PIECE_BYTES];
    let mut i = 0;
    let mut at = 0;
    while let Some(n) = carry(path, i, at, &mut piece, &mut text, from, out)? {
        i += 1;
        at += n;
    }
    match write_all(out, b"c0 try\n") {
        Ok(()) => Ok(()),
        Err(_) => Err(Stop::Unwritten),
    }
}

/// Appends the lines before the first piece.
fn push_head(alloc: Global, text: &mut Vec<u8>, path: &Path) -> Result<(), OutOfMemory>
    ensures { OnOk result (HasHead path.now text.old.items text.new.items) }
{
    push_line(text, b"c0 begin", b"")?;
    push_ways(alloc, text, path)?;
    push_line(text, b"c0 create ", path.as_bytes())?;
    push_line(text, b"c0 open f0 ", path.as_bytes())?;
    Ok(())
}

/// Reads a piece, a full one or the last, and writes its lines, for which `text` is room: how many bytes it has. `None` is
/// the end.
fn carry<I: Source, O: Sink>(
    path: &Path,
    i: u64,
    at: u64,
    piece: &mut [u8],
    text: &mut Vec<u8>,
    from: &mut I,
    out: &mut O,
) -> Result<Option<u64>, Stop>
    requires within { at ≤ MOST_BYTES }
    requires room { length piece.old ≡ PIECE_BYTES }
    ensures carried { (rest old : List ℕ) → (I.view from.old).rest ≡ Some rest →
        (O.view out.old).taken ≡ Some old → CarriesTo path.now i at
        (passage rest old (I.view from.new).rest (O.view out.new).taken) result }
    ensures some { IfOk result (λ came. IfSome came (λ n. 1 ≤ n)) }
    ensures within { IfOk result (λ came. IfSome came (λ n. at + n ≤ MOST_BYTES)) }
    ensures from_faults { (I.view from.old).faults ≤ (I.view from.new).faults }
    ensures out_faults { (O.view out.old).faults ≤ (O.view out.new).faults }
    ensures unread { result ≡ Err Stop.Unread →
        Rose (I.view from.old).faults (I.view from.new).faults }
    ensures unwritten { result ≡ Err Stop.Unwritten →
        Rose (O.view out.old).faults (O.view out.new).faults }
    ensures no_answer { result ≢ Err Stop.Wrong }
{
    let n = match fill(from, piece) {
        Ok(n) => n,
        Err(_) => return Err(Stop::Unread),
    };
    if n == 0 {
        return Ok(None);
    }
    if n as u64 > MOST_BYTES - at {
        return Err(Stop::TooLong);
    }
    text.clear();
    push_piece(text, path, i, at, front(piece, n))?;
    match write_all(out, text.as_slice()) {
        Ok(()) => Ok(Some(n as u64)),
        Err(_) => Err(Stop::Unwritten),
    }
}

/// The first `n` bytes.
fn front(bytes: &[u8], n: usize) -> &[u8]
    requires { n ≤ length bytes.now }
    ensures { result.now ≡ take n bytes.now }
{
    &bytes[..n]
}

/// Appends the lines of a piece, piece `i` of a file, which begins at byte `at`.
fn push_piece(
    text: &mut Vec<u8>,
    path: &Path,
    i: u64,
    at: u64,
    piece: &[u8],
) -> Result<(), OutOfMemory>
    ensures text { OnOk result (text.new.items ≡ text.old.items ++
        asked_text (turn try_line path.now i at ++ write_line piece.now ∷ [])) }
    ensures bytes { OnOk result (IsBytes piece.now) }
{
    push_turn(text, b"c0 try", path, i, at)?;
    push_write(text, piece)?;
    Ok(())
}
