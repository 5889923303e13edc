//! Storing bytes of a file.

ghost use Rattle.std.specs.Prelude.{◌<◌, ◌*◌, ◌^◌, length};
ghost use Rattle.wtf_model.specs.declared.limits.TheConstants.{MAX_REGIONS};
ghost use Rattle.wtf_region.specs.Called.{StoresBytes};
ghost use Rattle.wtf_region.specs.Devs.{IsSoundDev, place_in};

use crate::{Dev, RegionKey};
use wtf_base::{Fault, InodeId, Slice};
use wtf_dev::SliceStore;

/// Stores bytes that are to stand at offset `off` of a file, at the place of the region of `off`.
/// `Write` where fewer servers than replicas took them: files may then be longer on some servers,
/// and what they held they still hold. No byte is copied on the way, no memory is needed, and the lists
/// that are remembered stay.
pub fn store_bytes<S: SliceStore>(
    dev: &mut Dev<'_, S>,
    inode: InodeId,
    off: u64,
    bytes: &[u8],
) -> Result<Slice, Fault>
    requires sound { IsSoundDev S.kind dev.old }
    requires cap { off < MAX_REGIONS * dev.old.settings.region }
    requires some { 0 < length bytes.now }
    requires few { length bytes.now < 2 ^ 32 }
    ensures { StoresBytes S.kind dev.old dev.new (place_in dev.old inode off) bytes.now result }
{
    let key = RegionKey {
        inode,
        region: (off / dev.settings.region as u64) as u16,
    };
    let place = dev.cache.place(dev.ring, key);
    dev.replicas.create(dev.shelf, place, bytes)
}
