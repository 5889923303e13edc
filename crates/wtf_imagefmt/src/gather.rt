//! The records of a store as it stands, in the order of their keys.

ghost use Rattle.std.specs.Prelude.{◌≡◌, ◌+◌, IfOk, OnOk};
ghost use Rattle.wtf_base.specs.declared.ids.InodeId.{InodeId};
ghost use Rattle.wtf_values.specs.declared.value.Value.TheVariants as values;
ghost use Rattle.wtf_imagefmt.specs.Rows.{region_row, region_rows, file_row, file_rows};
ghost use Rattle.wtf_imagefmt.specs.Lookups.{plain};
ghost use Rattle.wtf_imagefmt.specs.Shown.{shown};
ghost use Rattle.wtf_imagefmt.specs.Saving.{region_now, region_in, with_one, file_with, path_due, file_due, ArePathsOf, AreFilesOf};

use crate::records::{FileRecord, PathRecord, RegionRecord};
use std::alloc::Global;
use std::ops::Bound;
use wtf_base::{InodeId, OutOfMemory, TxId};
use wtf_kv::Kv;
use wtf_path::Path;
use wtf_values::{Key, Node, RegionValue, Value};

/// What stands at each path, in the order of paths: paths are the first of the keys.
pub fn paths_now(alloc: Global, kv: &Kv<Key, Value>) -> Result<Vec<PathRecord>, OutOfMemory>
    ensures { IfOk result (λ v. ArePathsOf (shown kv.now) v.items) }
{
    let mut paths = Vec::new(alloc);
    for (key, value) in kv.rows(kv.number(), Bound::Unbounded) {
        let Key::Path(path) = key else {
            return Ok(paths);
        };
        add_path(alloc, path, value, &mut paths)?;
    }
    Ok(paths)
}

/// Adds what stands at a path.
fn add_path(
    alloc: Global,
    path: &Path,
    value: &Value,
    paths: &mut Vec<PathRecord>,
) -> Result<(), OutOfMemory>
    ensures { OnOk result (paths.new.items ≡
        with_one paths.old.items (path_due path.now value.now)) }
{
    let Value::Node(node) = value else {
        return Ok(());
    };
    let path = path.copy(alloc)?;
    paths.push(PathRecord { path, node: *node })?;
    Ok(())
}

/// The files, in the order of inodes, behind which only regions and numbers of paths come.
pub fn files_now(alloc: Global, kv: &Kv<Key, Value>) -> Result<Vec<FileRecord>, OutOfMemory>
    ensures { IfOk result (λ v. AreFilesOf (shown kv.now) (file_rows v.items)) }
{
    let first = Key::Inode(InodeId {
        tx: TxId(0),
        index: 0,
    });
    let mut files = Vec::new(alloc);
    for (key, value) in kv.rows(kv.number(), Bound::Included(&first)) {
        let Key::Inode(inode) = key else {
            return Ok(files);
        };
        add_file(alloc, kv, *inode, value, &mut files)?;
    }
    Ok(files)
}

/// Adds a file.
fn add_file(
    alloc: Global,
    kv: &Kv<Key, Value>,
    inode: InodeId,
    value: &Value,
    files: &mut Vec<FileRecord>,
) -> Result<(), OutOfMemory>
    ensures { OnOk result (file_rows files.new.items ≡
        with_one (file_rows files.old.items) (file_due (shown kv.now) inode value.now)) }
{
    let Value::Last(last) = value else {
        return Ok(());
    };
    let file = file_of(alloc, kv, inode, *last)?;
    files.push(file)?;
    Ok(())
}

/// A file with its regions up to the last one. It takes the time of a search for each number up to it.
fn file_of(
    alloc: Global,
    kv: &Kv<Key, Value>,
    inode: InodeId,
    last: u16,
) -> Result<FileRecord, OutOfMemory>
    ensures { IfOk result (λ f. file_row f ≡ file_with (shown kv.now) inode last) }
{
    let mut regions = Vec::new(alloc);
    for r in 0..last as u32 + 1 {
        add_region(kv, inode, r as u16, &mut regions)?;
    }
    Ok(FileRecord {
        inode,
        last,
        regions,
    })
}

/// Adds a region, if it is there.
fn add_region(
    kv: &Kv<Key, Value>,
    inode: InodeId,
    number: u16,
    regions: &mut Vec<RegionRecord>,
) -> Result<(), OutOfMemory>
    ensures { OnOk result (region_rows regions.new.items ≡
        with_one (region_rows regions.old.items) (region_in (shown kv.now) inode number)) }
{
    match kv.read_at(kv.number(), &Key::Region(inode, number)) {
        Some(Value::Region(value)) => {
            let region = region_of(number, value)?;
            regions.push(region)?;
            return Ok(());
        }
        _ => return Ok(()),
    }
}

/// The record of a region, which shares the entries.
fn region_of(number: u16, value: &RegionValue) -> Result<RegionRecord, OutOfMemory>
    ensures { IfOk result (λ r. Some (region_row r) ≡
        region_now number (Some (plain (values.Region value.now)))) }
{
    let value = value.copy()?;
    Ok(RegionRecord { number, value })
}
