//! What the entries of a list and the pieces of a plan hold.
ghost use Rattle.std.specs.Prelude.{◌+◌, ◌<◌, ◌^◌};
ghost use Rattle.wtf_overlay.specs.Lengths.{HasLength, HasLength_prop};

use wtf_base::Slice;

/// Bytes that are zeros, or those of a slice.
#[derive(Clone, Copy, Debug, PartialEq, Eq)]
pub enum Part {
    /// Zeros that no slice holds.
    Zero,
    /// The bytes of this slice.
    Held(Slice),
}

/// An entry of a list: `len` bytes, at least 1, from offset `off` on. It ends at 2^32 - 1 at most, and a
/// slice in it has its length. Later entries overlay earlier ones (NSDI 2016, section 2.1).
#[derive(Clone, Copy, Debug, PartialEq, Eq)]
pub struct Entry {
    /// The offset in the list's bytes.
    pub off: u32,
    /// The number of bytes.
    pub len: u32,
    /// What it holds there.
    pub part: Part,
    pub ghost positive: { 0 < len },
    pub ghost fits: { off + len < 2 ^ 32 },
    pub ghost held: { HasLength len part } by { HasLength_prop len part },
}

/// A piece of a plan: the next `len` bytes, at least 1. A slice in it has its length.
#[derive(Clone, Copy, Debug, PartialEq, Eq)]
pub struct Piece {
    /// The number of bytes.
    pub len: u64,
    /// What it holds.
    pub part: Part,
    pub ghost positive: { 0 < len },
    pub ghost held: { HasLength len part } by { HasLength_prop len part },
}
