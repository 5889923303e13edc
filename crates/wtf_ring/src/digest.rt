//! Digests of the ring's texts.

ghost use Rattle.std.specs.Prelude.{◌≡◌, ◌++◌, codes, decimal};
ghost use Rattle.sha2.specs.Sha256.{sha256};
ghost use Rattle.wtf_ring.specs.Points.{head_of, region_digest};

use itoa::Buffer;
use sha2::{Digest, Sha256};
use wtf_base::InodeId;

/// The digest of the text `k/v`.
pub(crate) fn of_node(server: u8, node: u8) -> [u8; 32]
    ensures { result ≡ sha256 (decimal server ++ codes "/" ++ decimal node) }
{
    let mut hasher = Sha256::new();
    let mut first = Buffer::new();
    hasher.update(first.format(server));
    hasher.update("/");
    let mut second = Buffer::new();
    hasher.update(second.format(node));
    hasher.finalize()
}

/// The digest of the text `T.I/R`.
pub(crate) fn of_region(inode: InodeId, region: u16) -> [u8; 32]
    ensures { result ≡ region_digest inode region }
{
    let mut hasher = Sha256::new();
    let mut first = Buffer::new();
    hasher.update(first.format(inode.tx.0));
    hasher.update(".");
    let mut second = Buffer::new();
    hasher.update(second.format(inode.index));
    hasher.update("/");
    let mut third = Buffer::new();
    hasher.update(third.format(region));
    hasher.finalize()
}

/// The first 8 bytes, as a big-endian number.
pub(crate) fn head(d: [u8; 32]) -> u64
    ensures { result ≡ head_of d }
{
    u64::from_be_bytes([d[0], d[1], d[2], d[3], d[4], d[5], d[6], d[7]])
}
