//! The keys of a store, given their first values.

ghost use Rattle.std.specs.Prelude.{◌≡◌, ℕ, List, [], true, OnOk};
ghost use Rattle.std.specs.List.{flat_map};
ghost use Rattle.wtf_kv.specs.Stores.{versions_of};
ghost use Rattle.wtf_values.specs.Keys.{key_cmp};
ghost use Rattle.wtf_values.specs.declared.key.Key.TheVariants as keys;
ghost use Rattle.wtf_base.specs.declared.ids.InodeId.{InodeId};
ghost use Rattle.wtf_imagefmt.specs.Rows.{region_row, region_rows, file_row, file_rows};
ghost use Rattle.wtf_imagefmt.specs.Shapes.{ascends, path_before, file_before, region_before};
ghost use Rattle.wtf_image.specs.Seeds.{Adds, path_seed, last_seed, region_seed, file_seeds, AreRegionsAscending};

use std::alloc::Global;
use wtf_base::{InodeId, OutOfMemory};
use wtf_imagefmt::{FileRecord, PathRecord, RegionRecord};
use wtf_kv::Kv;
use wtf_values::{Key, Value};

/// What stands at each path.
pub(crate) fn seed_paths(
    alloc: Global,
    kv: &mut Kv<Key, Value>,
    paths: &[PathRecord],
) -> Result<(), OutOfMemory>
    requires pins { kv.old.pins ≡ [] }
    requires ascend { ascends path_before paths.now ≡ true }
    requires fresh { (p : List ℕ) → versions_of key_cmp kv.old (keys.Path p) ≡ [] }
    ensures { OnOk result (Adds kv.old kv.new (flat_map path_seed paths.now)) }
{
    for record in paths {
        seed_path(alloc, kv, record)?;
    }
    Ok(())
}

/// Gives a path what stands there. The store has nothing at it yet.
fn seed_path(alloc: Global, kv: &mut Kv<Key, Value>, entry: &PathRecord) -> Result<(), OutOfMemory>
    requires pins { kv.old.pins ≡ [] }
    requires fresh { versions_of key_cmp kv.old (keys.Path entry.now.path) ≡ [] }
    ensures { OnOk result (Adds kv.old kv.new (path_seed entry.now)) }
{
    let path = entry.path.copy(alloc)?;
    kv.seed(Key::Path(path), Value::Node(entry.node))?;
    Ok(())
}

/// The last region of each file, and all regions.
pub(crate) fn seed_files(kv: &mut Kv<Key, Value>, files: &[FileRecord]) -> Result<(), OutOfMemory>
    requires pins { kv.old.pins ≡ [] }
    requires ascend { ascends file_before (file_rows files.now) ≡ true }
    requires regions { AreRegionsAscending (file_rows files.now) }
    requires inodes { (i : InodeId) → versions_of key_cmp kv.old (keys.Inode i) ≡ [] }
    requires fresh { (i : InodeId) (r : ℕ) → versions_of key_cmp kv.old (keys.Region i r) ≡ [] }
    ensures { OnOk result (Adds kv.old kv.new (flat_map file_seeds (file_rows files.now))) }
{
    for file in files {
        seed_file(kv, file)?;
    }
    Ok(())
}

/// Gives a file its last region and its regions, which ascend. The store has nothing of it yet.
fn seed_file(kv: &mut Kv<Key, Value>, file: &FileRecord) -> Result<(), OutOfMemory>
    requires pins { kv.old.pins ≡ [] }
    requires ascend { ascends region_before (region_rows file.now.regions.items) ≡ true }
    requires inode { versions_of key_cmp kv.old (keys.Inode file.now.inode) ≡ [] }
    requires fresh { (r : ℕ) → versions_of key_cmp kv.old (keys.Region file.now.inode r) ≡ [] }
    ensures { OnOk result (Adds kv.old kv.new (file_seeds (file_row file.now))) }
{
    seed_last(kv, file.inode, file.last)?;
    seed_regions(kv, file.inode, file.regions.as_slice())?;
    Ok(())
}

/// Gives a file the number of its last region. The store has none yet.
fn seed_last(kv: &mut Kv<Key, Value>, inode: InodeId, last: u16) -> Result<(), OutOfMemory>
    requires pins { kv.old.pins ≡ [] }
    requires fresh { versions_of key_cmp kv.old (keys.Inode inode) ≡ [] }
    ensures { OnOk result (Adds kv.old kv.new (last_seed inode last)) }
{
    kv.seed(Key::Inode(inode), Value::Last(last))
}

/// Gives a file its regions, which ascend. The store has none of them yet.
fn seed_regions(
    kv: &mut Kv<Key, Value>,
    inode: InodeId,
    regions: &[RegionRecord],
) -> Result<(), OutOfMemory>
    requires pins { kv.old.pins ≡ [] }
    requires ascend { ascends region_before (region_rows regions.now) ≡ true }
    requires fresh { (r : ℕ) → versions_of key_cmp kv.old (keys.Region inode r) ≡ [] }
    ensures { OnOk result (Adds kv.old kv.new
        (flat_map (region_seed inode) (region_rows regions.now))) }
{
    for region in regions {
        seed_region(kv, inode, region)?;
    }
    Ok(())
}

/// Gives a file a region that the store does not have yet.
fn seed_region(
    kv: &mut Kv<Key, Value>,
    inode: InodeId,
    region: &RegionRecord,
) -> Result<(), OutOfMemory>
    requires pins { kv.old.pins ≡ [] }
    requires fresh { versions_of key_cmp kv.old (keys.Region inode region.now.number) ≡ [] }
    ensures { OnOk result (Adds kv.old kv.new (region_seed inode (region_row region.now))) }
{
    let value = region.value.copy()?;
    kv.seed(Key::Region(inode, region.number), Value::Region(value))?;
    Ok(())
}
