//! The lines that carry a file, each with its line feed, appended to a text.

ghost use Rattle.std.specs.Prelude.{◌≡◌, ◌++◌, ◌∷◌, [], decimal, OnOk};
ghost use Rattle.hex.specs.Hex.{encode_lower, IsBytes};
ghost use Rattle.wtf_script.specs.ScriptLines.{line_feed};
ghost use Rattle.wtf_carry.specs.Asked.{Asked, begin_line, open_line, seek_line, is_turn, turn, write_line, asked_text};
ghost use Rattle.wtf_carry.specs.Ways.{HasWays};

use itoa::Buffer;
use std::alloc::Global;
use wtf_base::OutOfMemory;
use wtf_path::{Path, PathError};

/// How many writes or reads of one file stand in a transaction, which logs 4,096 calls at most.
pub(crate) const PIECES: u64 = 4_000;

/// Appends a line of two parts.
pub(crate) fn push_line(text: &mut Vec<u8>, front: &[u8], back: &[u8]) -> Result<(), OutOfMemory>
    ensures { OnOk result (text.new.items ≡
        text.old.items ++ ((front.now ++ back.now) ++ line_feed ∷ [])) }
{
    text.extend_from_slice(front)?;
    text.extend_from_slice(back)?;
    text.push(b'\n')?;
    Ok(())
}

/// Appends a line that ends with a number.
pub(crate) fn push_number(text: &mut Vec<u8>, front: &[u8], n: u64) -> Result<(), OutOfMemory>
    ensures { OnOk result (text.new.items ≡
        text.old.items ++ ((front.now ++ decimal n) ++ line_feed ∷ [])) }
{
    let mut buffer = Buffer::new();
    push_line(text, front, buffer.format(n).as_bytes())
}

/// Appends bytes as hexadecimal digits, which are written in place.
fn push_hex(text: &mut Vec<u8>, bytes: &[u8]) -> Result<(), OutOfMemory>
    ensures { OnOk result (text.new.items ≡ text.old.items ++ encode_lower bytes.now) }
{
    let start = text.len();
    let Some(room) = bytes.len().checked_mul(2) else {
        return Err(OutOfMemory);
    };
    let Some(end) = start.checked_add(room) else {
        return Err(OutOfMemory);
    };
    text.resize(end, 0)?;
    let (_, digits) = text.as_mut_slice().split_at_mut(start);
    hex::encode_to_slice(bytes, digits).unwrap();
    Ok(())
}

/// Appends the line that writes a piece.
pub(crate) fn push_write(text: &mut Vec<u8>, piece: &[u8]) -> Result<(), OutOfMemory>
    ensures text { OnOk result (text.new.items ≡
        text.old.items ++ ((write_line piece.now).line ++ line_feed ∷ [])) }
    ensures bytes { IsBytes piece.now }
{
    text.extend_from_slice(b"c0 write f0 x:")?;
    push_hex(text, piece)?;
    text.push(b'\n')?;
    Ok(())
}

/// Whether a transaction has all its pieces before piece `i` of a file.
fn is_turn(i: u64) -> bool
    ensures { result ≡ is_turn i }
{
    i > 0 && i % PIECES == 0
}

/// Appends the lines before piece `i` of a file, which begins at byte `at`: where a transaction has its pieces, it ends, and
/// the next one goes on there.
pub(crate) fn push_turn(
    text: &mut Vec<u8>,
    end: &[u8],
    path: &Path,
    i: u64,
    at: u64,
) -> Result<(), OutOfMemory>
    ensures { OnOk result ((last : Asked) → last.line ≡ end.now → text.new.items ≡
        text.old.items ++ asked_text (turn last path.now i at)) }
{
    if !is_turn(i) {
        return Ok(());
    }
    go_on(text, end, path, at)
}

/// Appends the lines that end a transaction and begin the next one, at byte `at` of the file.
fn go_on(text: &mut Vec<u8>, end: &[u8], path: &Path, at: u64) -> Result<(), OutOfMemory>
    ensures { OnOk result ((last : Asked) → last.line ≡ end.now → text.new.items ≡
        text.old.items ++ asked_text (last ∷ begin_line ∷ open_line path.now ∷ seek_line at ∷ [])) }
{
    push_line(text, end, b"")?;
    push_line(text, b"c0 begin", b"")?;
    push_line(text, b"c0 open f0 ", path.as_bytes())?;
    push_number(text, b"c0 seek f0 set ", at)?;
    Ok(())
}

/// Appends the lines that make the directories on the way to a path, from the root down.
pub(crate) fn push_ways(alloc: Global, text: &mut Vec<u8>, path: &Path) -> Result<(), OutOfMemory>
    ensures { OnOk result (HasWays path.now text.old.items text.new.items) }
{
    let Some(parent) = path.parent() else {
        return Ok(());
    };
    if parent.len() == 1 {
        return Ok(());
    }
    let parent = match Path::parse(alloc, parent) {
        Ok(parent) => parent,
        Err(_) => return Err(OutOfMemory),
    };
    push_ways(alloc, text, &parent)?;
    push_line(text, b"c0 mkdir ", parent.as_bytes())?;
    Ok(())
}
