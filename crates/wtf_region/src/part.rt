//! Ranges of a file, cut at the borders of its regions.

ghost use Rattle.std.specs.Prelude.{◌≡◌, ◌⊎◌, ◌+◌, ◌*◌, ◌<◌, ◌≤◌};
ghost use Rattle.wtf_model.specs.declared.limits.TheConstants.{MAX_REGIONS};

/// A part of a range that lies in one region.
#[derive(Clone, Copy, Debug)]
pub(crate) struct RegionPart {
    /// The region.
    pub(crate) region: u16,
    /// The offset in the region, in bytes.
    pub(crate) off: u32,
    /// The number of bytes.
    pub(crate) len: u32,
}

/// The first part of the bytes of a range from its byte `done` on, up to the region's end or the
/// range's.
pub(crate) fn part_at(off: u64, len: u64, done: u64, size: u32) -> RegionPart
    requires size { 0 < size }
    requires some { done < len }
    requires cap { off + len ≤ MAX_REGIONS * size }
    ensures place { result.region * size + result.off ≡ off + done }
    ensures within { result.off + result.len ≤ size }
    ensures some { 0 < result.len }
    ensures inside { done + result.len ≤ len }
    ensures whole { (done + result.len ≡ len) ⊎ (result.off + result.len ≡ size) }
    ensures region { result.region < MAX_REGIONS }
{
    let from = off + done;
    let region = from / size as u64;
    let start = from % size as u64;
    let room = size as u64 - start;
    let left = len - done;
    RegionPart {
        region: region as u16,
        off: start as u32,
        len: room.min(left) as u32,
    }
}
