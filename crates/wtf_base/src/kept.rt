//! What a log keeps of written data.
ghost use Rattle.wtf_base.specs.Slices.{HasLength, HasLength_prop};

use crate::Slice;

/// The number of bytes that a call was given, and their slice where one was stored.
#[derive(Clone, Copy, Debug, PartialEq, Eq)]
pub struct Kept {
    pub len: u32,
    pub slice: Option<Slice>,
    ghost held: { HasLength len slice } by { HasLength_prop len slice },
}
