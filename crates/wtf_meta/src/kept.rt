//! The pieces of a slice, and where each of them ends.

ghost use Rattle.std.specs.Prelude.{◌≡◌, ◌<◌, ◌≤◌, ◌-◌, ◌^◌, length, take, None, IfOk, IfSome};
ghost use Rattle.std.specs.Option.{ForSome};
ghost use Rattle.wtf_overlay.specs.Origin.{pieces_len};
ghost use Rattle.wtf_meta.specs.Slices.{bytes_in, AreEnds, EndsBefore, HoldsByte};

use std::alloc::Global;
use wtf_base::OutOfMemory;
use wtf_overlay::Piece;

/// Where a slice holds a byte.
#[derive(Clone, Copy, Debug)]
pub struct ByteAt {
    /// The index of the piece that holds it.
    pub piece: usize,
    /// The byte's place in that piece.
    pub skip: u64,
}

/// The pieces of a slice. Where each of them ends is found once it is asked for, so that a byte of
/// a long slice is found by a binary search.
#[derive(Debug, Drop)]
pub(crate) struct Kept {
    pub(crate) pieces: Vec<Piece>,
    ends: Option<Vec<u64>>,
    ghost known: { ForSome ends (λ e. AreEnds pieces.items e.items) },
}

impl Kept {
    /// Pieces, of which no end is known.
    pub(crate) fn of(pieces: Vec<Piece>) -> Kept
        ensures { result.pieces ≡ pieces }
    {
        Kept { pieces, ends: None }
    }

    /// The same pieces, in memory of their own. Their ends are found anew.
    pub(crate) fn copy(&self, alloc: Global) -> Result<Kept, OutOfMemory>
        ensures { IfOk result (λ k. k.pieces.items ≡ self.now.pieces.items) }
    {
        let pieces = Vec::from_slice(alloc, self.pieces.as_slice())?;
        Ok(Kept::of(pieces))
    }

    /// Finds where each piece ends, if that is not known.
    pub(crate) fn index(&mut self, alloc: Global) -> Result<(), OutOfMemory>
        ensures { self.new.pieces ≡ self.old.pieces }
    {
        if self.ends.is_some() {
            return Ok(());
        }
        let ends = ends_of(alloc, self.pieces.as_slice())?;
        self.ends = Some(ends);
        Ok(())
    }

    /// The number of bytes; 2^64 - 1 where there are more.
    pub(crate) fn len(&self) -> u64
        ensures { result ≡ bytes_in self.now.pieces.items }
    {
        match &self.ends {
            Some(ends) => return last_end(self.pieces.as_slice(), ends.as_slice()),
            None => return bytes_of(self.pieces.as_slice()),
        }
    }

    /// The piece that holds a byte, if there are so many bytes.
    pub(crate) fn find(&self, off: u64) -> Option<ByteAt>
        requires { off < 2 ^ 64 - 1 }
        ensures found { IfSome result (λ at. HoldsByte self.now.pieces.items off at.piece at.skip) }
        ensures past { result ≡ None → pieces_len self.now.pieces.items ≤ off }
    {
        let (piece, start) = self.passed(off);
        if piece == self.pieces.len() {
            return None;
        }
        Some(ByteAt {
            piece,
            skip: off - start,
        })
    }

    /// How many pieces end at or before a byte, and where the last of these ends.
    fn passed(&self, off: u64) -> (usize, u64)
        requires { off < 2 ^ 64 - 1 }
        ensures { EndsBefore self.now.pieces.items off result.0 result.1 }
    {
        match &self.ends {
            Some(ends) => return search(self.pieces.as_slice(), ends.as_slice(), off),
            None => return walk(self.pieces.as_slice(), off),
        }
    }
}

/// The number of bytes of pieces; 2^64 - 1 where there are more.
fn bytes_of(pieces: &[Piece]) -> u64
    ensures { result ≡ bytes_in pieces.now }
{
    let mut sum = 0u64;
    for piece in pieces {
        sum = sum.saturating_add(piece.len);
    }
    sum
}

/// Where each of the pieces ends.
fn ends_of(alloc: Global, pieces: &[Piece]) -> Result<Vec<u64>, OutOfMemory>
    ensures { IfOk result (λ ends. AreEnds pieces.now ends.items) }
{
    let mut ends = Vec::with_capacity(alloc, pieces.len())?;
    let mut sum = 0u64;
    for piece in pieces {
        sum = sum.saturating_add(piece.len);
        ends.push(sum)?;
    }
    Ok(ends)
}

/// Where the last of the pieces ends.
fn last_end(pieces: &[Piece], ends: &[u64]) -> u64
    requires { AreEnds pieces.now ends.now }
    ensures { result ≡ bytes_in pieces.now }
{
    end_before(pieces, ends, ends.len())
}

/// Where the first `count` pieces end.
fn end_before(pieces: &[Piece], ends: &[u64], count: usize) -> u64
    requires ends { AreEnds pieces.now ends.now }
    requires within { count ≤ length pieces.now }
    ensures { result ≡ bytes_in (take count pieces.now) }
{
    if count == 0 {
        return 0;
    }
    ends[count - 1]
}

/// How many pieces end at or before a byte, and where the last of these ends, by their ends.
fn search(pieces: &[Piece], ends: &[u64], off: u64) -> (usize, u64)
    requires ends { AreEnds pieces.now ends.now }
    requires off { off < 2 ^ 64 - 1 }
    ensures { EndsBefore pieces.now off result.0 result.1 }
{
    let count = ends.partition_point(|end| *end <= off);
    let start = end_before(pieces, ends, count);
    (count, start)
}

/// The same by the pieces.
fn walk(pieces: &[Piece], off: u64) -> (usize, u64)
    ensures { EndsBefore pieces.now off result.0 result.1 }
{
    let mut count = 0;
    let mut left = off;
    for piece in pieces {
        if left < piece.len {
            return (count, off - left);
        }
        left -= piece.len;
        count += 1;
    }
    (count, off - left)
}
