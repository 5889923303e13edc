//! The lines of a text so far: how many began with each word, and the digest of their bytes.

ghost use Rattle.std.specs.Prelude.{◌≡◌, ℕ, ◌-◌, ◌^◌, ◌++◌, ◌∷◌, [], List};
ghost use Rattle.wtf_summary.specs.Counted.{AreBelow};

use crate::counts::Counts;
use arrayvec::ArrayVec;
use sha2::{Digest, Sha256};

/// What is kept of the lines of a text.
#[derive(Drop)]
pub(crate) struct Tally {
    pub counts: Counts,
    /// The front of the line that is not complete: no more than tells its first word.
    pub head: ArrayVec<u8, 10>,
    pub digest: Sha256,
}

impl Tally {
    ghost use Rattle.wtf_summary.specs.Tallies.{Tallies};

    /// The tally of no bytes.
    pub(crate) fn new() -> Tally
        ensures { Tallies result [] }
    {
        Tally {
            counts: Counts::new(),
            head: ArrayVec::new(),
            digest: Sha256::new(),
        }
    }

    /// Takes a byte.
    pub(crate) fn take(&mut self, byte: u8)
        requires { AreBelow (2 ^ 64 - 1) self.old.counts }
        ensures { (text : List ℕ) → Tallies self.old text → Tallies self.new (text ++ byte ∷ []) }
    {
        let bytes = [byte];
        self.digest.update(bytes.as_slice());
        if byte == b'\n' {
            self.counts = self.counts.and(self.head.as_slice());
            self.head = ArrayVec::new();
        } else if self.head.len() < 10 {
            self.head.push(byte);
        }
    }
}
