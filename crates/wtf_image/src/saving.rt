//! The image of a store.

ghost use Rattle.std.specs.Prelude.{◌≤◌, ◌^◌, IfOk};
ghost use Rattle.wtf_image.specs.Tables.{shown};
ghost use Rattle.wtf_imagefmt.specs.Saving.{IsSaveOf};
ghost use Rattle.wtf_image.specs.Savable.{IsSavable};
ghost use Rattle.wtf_image.specs.Kept.{IsKept};

use std::alloc::Global;
use wtf_base::{OutOfMemory, Settings};
use wtf_imagefmt::{Header, Image, Version, files_now, paths_now, write};
use wtf_kv::Kv;
use wtf_values::{Key, Value};

/// The image of a store as it stands, of the second version, with the settings and the number of the
/// transaction that begins next. A store whose paths, files or entries of one region are 2^32 or more
/// has no image: the counts of the format are want of memory. No stored byte is read.
pub fn save(
    alloc: Global,
    kv: &Kv<Key, Value>,
    settings: Settings,
    next_tx: u64,
) -> Result<Vec<u8>, OutOfMemory>
    ensures image { IfOk result (λ v. IsSaveOf kv.now settings next_tx v.items) }
    ensures kept { IfOk result (λ v. kv.now.number ≤ 2 ^ 62 → next_tx ≤ 2 ^ 62 →
        IsSavable settings.region next_tx (shown kv.now) →
        IsKept kv.now settings next_tx v.items) }
{
    let header = Header {
        servers: settings.servers,
        replicas: settings.replicas,
        region: settings.region,
        installs: kv.number(),
        next_tx,
    };
    let paths = paths_now(alloc, kv)?;
    let files = files_now(alloc, kv)?;
    let image = Image {
        version: Version::Two,
        header,
        paths,
        files,
    };
    let bytes = write(alloc, &image)?;
    Ok(bytes)
}
