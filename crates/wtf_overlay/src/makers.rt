//! Entries and pieces made from their fields, and parts of parts.

ghost use Rattle.std.specs.Prelude.{◌≡◌, ℕ, ◌+◌, ◌<◌, ◌^◌};
ghost use Rattle.wtf_overlay.specs.Lengths.{HasLength, Reaches};
ghost use Rattle.wtf_overlay.specs.Origin.{part_origin};
ghost use Rattle.wtf_overlay.specs.Parts.{IsCut};

use crate::{Entry, Part, Piece};

impl Entry {
    /// The entry of `len` bytes from offset `off` on that hold `part`.
    pub fn of(off: u32, len: u32, part: Part) -> Entry
        requires some { 0 < len }
        requires fits { off + len < 2 ^ 32 }
        requires held { HasLength len part }
        ensures off { result.off ≡ off }
        ensures len { result.len ≡ len }
        ensures part { result.part ≡ part }
    {
        Entry { off, len, part }
    }

    /// Where the entry ends: the offset of the first byte after it.
    pub fn end(&self) -> u32
        ensures { result ≡ self.now.off + self.now.len }
    {
        self.off + self.len
    }
}

impl Piece {
    /// The piece of `len` bytes that hold `part`.
    pub fn of(len: u64, part: Part) -> Piece
        requires some { 0 < len }
        requires held { HasLength len part }
        ensures len { result.len ≡ len }
        ensures part { result.part ≡ part }
    {
        Piece { len, part }
    }
}

impl Part {
    /// The part of `len` bytes from byte `off` on. No server is asked.
    pub fn cut(&self, off: u32, len: u32) -> Part
        requires some { 0 < len }
        requires within { Reaches (off + len) self.now }
        ensures held { HasLength len result }
        ensures cut { IsCut off len self.now result }
        ensures origin { (i : ℕ) → part_origin result i ≡ part_origin self.now (off + i) }
    {
        match self {
            Part::Zero => Part::Zero,
            Part::Held(slice) => Part::Held(slice.cut(off, len)),
        }
    }
}
