//! The parts of a scan.

ghost use Rattle.std.specs.Prelude.{◌≡◌, ◌<◌};
ghost use Rattle.wtf_gc.specs.Parts.{part_of, stands_in};

use wtf_base::InodeId;

/// How many parts a scan has.
pub(crate) const PARTS: u8 = 64;

/// Parts of a scan, from the first one up to and without an end.
#[derive(Clone, Copy, Debug)]
pub(crate) struct Parts {
    pub(crate) first: u8,
    pub(crate) end: u8,
}

/// The part that the regions of a file stand in.
pub(crate) fn part_of(inode: InodeId) -> u8
    ensures { result ≡ part_of inode }
{
    (inode.tx.0 % PARTS as u64) as u8
}

impl Parts {
    /// Whether the regions of a file stand in one of them.
    pub(crate) fn has(&self, inode: InodeId) -> bool
        ensures { result ≡ stands_in self.now inode }
    {
        let part = part_of(inode);
        self.first <= part && part < self.end
    }
}
