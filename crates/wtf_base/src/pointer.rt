//! Where one copy of a slice lies.

ghost use Rattle.std.specs.Prelude.{◌≡◌};
ghost use Rattle.wtf_base.specs.Pointers.{is_sound_pointer, may_follow};

use crate::ServerId;

/// One copy of some bytes: `len` bytes from offset `at` on, in a backing file of a server.
/// It names the bytes by itself, with no other table (NSDI 2016, section 2.1).
#[derive(Clone, Copy, Debug, PartialEq, Eq, Hash)]
pub struct Pointer {
    pub server: ServerId,
    pub file: u8,
    /// The offset in the file, in bytes.
    pub at: u64,
    /// The number of bytes.
    pub len: u32,
}

impl Pointer {
    pub(crate) fn is_sound(&self) -> bool
        ensures { result ≡ is_sound_pointer self.now }
    {
        self.len > 0 && self.at <= (1 << 63) - 1 - self.len as u64
    }

    pub(crate) fn is_before(&self, next: &Pointer) -> bool
        ensures { result ≡ may_follow self.now next.now }
    {
        self.server.0 < next.server.0 && self.len == next.len
    }
}
