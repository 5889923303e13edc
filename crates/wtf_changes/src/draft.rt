//! An image that is changed: its paths, its files and their regions as maps, taken from the image once
//! and written once.

ghost use Rattle.std.specs.Prelude.{◌≡◌, [], map, IfOk, OnOk};
ghost use Rattle.std.specs.Option.{option_map};
ghost use Rattle.std.specs.Ordering.{nat_cmp};
ghost use Rattle.std.specs.Cmp.Lexicographic.{slice_cmp};
ghost use Rattle.wtf_values.specs.Keys.{inode_cmp};
ghost use Rattle.wtf_imagefmt.specs.Rows.{value_row, region_rows as image_regions, file_rows, image_rows};
ghost use Rattle.wtf_changes.specs.Rows.{region_row, region_rows, change_rows};
ghost use Rattle.wtf_changes.specs.Drafts.{set, set_all, node_taken, regions_taken, file_taken, taken, node_change, regions_kept, file_set, files_set, region_set, regions_set, changed, path_written, file_written, region_written, written};
ghost use Rattle.wtf_changes.specs.Kept.{seen, file_entry};
ghost use Rattle.wtf_changes.specs.Applying.{IsApplied};

use crate::ApplyError;
use crate::records::{Changes, FileChange, PathChange, RegionChange};
use std::alloc::Global;
use std::collections::BTreeMap;
use std::marker::Model;
use wtf_base::{InodeId, OutOfMemory};
use wtf_imagefmt::{FileRecord, Header, Image, PathRecord, RegionRecord, Version};
use wtf_path::Path;
use wtf_values::{Node, RegionValue};

/// The number of a file's last region, and its regions by their numbers.
#[derive(Drop)]
pub(crate) struct FileDraft {
    last: u16,
    regions: BTreeMap<u16, RegionValue>,
}

/// An image that is changed again and again: what it has of each path and of each file, as maps. Contracts see
/// their entries, in the order of their keys.
#[derive(Drop)]
pub struct Draft {
    header: Header,
    paths: BTreeMap<Path, Node>,
    files: BTreeMap<InodeId, FileDraft>,
}

impl Model for Draft {
    ghost use Rattle.wtf_changes.specs.Drafts.{DraftRows};
    ghost use Rattle.wtf_changes.specs.Kept.{seen, file_entry};

    ghost Value = { DraftRows };

    ghost view = { λ d. record { header = d.header; paths = d.paths.entries; files = seen file_entry d.files.entries } };
}

/// What stands at each path.
fn take_paths(alloc: Global, paths: &[PathRecord]) -> Result<BTreeMap<Path, Node>, OutOfMemory>
    ensures { IfOk result (λ m. m.entries ≡
        set_all (slice_cmp nat_cmp) [] (map node_taken paths.now)) }
{
    let mut made = BTreeMap::new(alloc);
    for entry in paths {
        let path = entry.path.copy(alloc)?;
        let _ = made.insert(path, entry.node)?;
    }
    Ok(made)
}

/// The regions of a file.
fn take_regions(
    alloc: Global,
    regions: &[RegionRecord],
) -> Result<BTreeMap<u16, RegionValue>, OutOfMemory>
    ensures { IfOk result (λ m. seen value_row m.entries ≡
        regions_taken (image_regions regions.now)) }
{
    let mut made = BTreeMap::new(alloc);
    for region in regions {
        let value = region.value.copy()?;
        let _ = made.insert(region.number, value)?;
    }
    Ok(made)
}

/// The files with their regions.
fn take_files(
    alloc: Global,
    files: &[FileRecord],
) -> Result<BTreeMap<InodeId, FileDraft>, OutOfMemory>
    ensures { IfOk result (λ m. seen file_entry m.entries ≡
        set_all inode_cmp [] (map file_taken (file_rows files.now))) }
{
    let mut made = BTreeMap::new(alloc);
    for file in files {
        let regions = take_regions(alloc, file.regions.as_slice())?;
        let last = file.last;
        let _ = made.insert(file.inode, FileDraft { last, regions })?;
    }
    Ok(made)
}

/// Gives a path what stands there from now on.
fn set_path(
    alloc: Global,
    paths: &mut BTreeMap<Path, Node>,
    change: &PathChange,
) -> Result<(), OutOfMemory>
    ensures { OnOk result (paths.new.entries ≡
        set (slice_cmp nat_cmp) paths.old.entries change.now.path change.now.node) }
{
    let Some(node) = change.node else {
        let _ = paths.remove(&change.path);
        return Ok(());
    };
    let path = change.path.copy(alloc)?;
    let _ = paths.insert(path, node)?;
    Ok(())
}

/// Gives the paths what stands there from now on.
fn set_paths(
    alloc: Global,
    paths: &mut BTreeMap<Path, Node>,
    changes: &[PathChange],
) -> Result<(), OutOfMemory>
    ensures { OnOk result (paths.new.entries ≡
        set_all (slice_cmp nat_cmp) paths.old.entries (map node_change changes.now)) }
{
    for change in changes {
        set_path(alloc, paths, change)?;
    }
    Ok(())
}

/// The regions that a file keeps, none where it was not there.
fn kept(alloc: Global, found: Option<FileDraft>) -> BTreeMap<u16, RegionValue>
    ensures { seen value_row result.entries ≡ regions_kept (option_map file_entry found) }
{
    match found {
        Some(FileDraft { last: _, regions }) => regions,
        None => BTreeMap::new(alloc),
    }
}

/// Gives a file its last region, or takes it out with all of its regions.
fn set_file(
    alloc: Global,
    files: &mut BTreeMap<InodeId, FileDraft>,
    change: FileChange,
) -> Result<(), OutOfMemory>
    ensures { OnOk result (seen file_entry files.new.entries ≡
        file_set (seen file_entry files.old.entries) change.inode change.last) }
{
    let found = files.remove(&change.inode);
    let Some(last) = change.last else {
        return Ok(());
    };
    let regions = kept(alloc, found);
    let _ = files.insert(change.inode, FileDraft { last, regions })?;
    Ok(())
}

/// Gives the files their last regions, or takes them out.
fn set_files(
    alloc: Global,
    files: &mut BTreeMap<InodeId, FileDraft>,
    changes: &[FileChange],
) -> Result<(), OutOfMemory>
    ensures { OnOk result (seen file_entry files.new.entries ≡
        files_set (seen file_entry files.old.entries) changes.now) }
{
    for change in changes {
        set_file(alloc, files, *change)?;
    }
    Ok(())
}

/// Gives a region of a file its value, or takes it out.
fn set_value(
    regions: &mut BTreeMap<u16, RegionValue>,
    number: u16,
    value: &Option<RegionValue>,
) -> Result<(), OutOfMemory>
    ensures { OnOk result (seen value_row regions.new.entries ≡
        set nat_cmp (seen value_row regions.old.entries) number (option_map value_row value.now)) }
{
    let Some(value) = value else {
        let _ = regions.remove(&number);
        return Ok(());
    };
    let value = value.copy()?;
    let _ = regions.insert(number, value)?;
    Ok(())
}

/// Gives a region its value, or takes it out. Its file is there, unless the region is gone with it.
fn set_region(
    files: &mut BTreeMap<InodeId, FileDraft>,
    change: &RegionChange,
) -> Result<(), ApplyError>
    ensures { IsApplied (region_set (seen file_entry files.old.entries) (region_row change.now))
        (seen file_entry files.new.entries) result }
{
    let Some(mut file) = files.remove(&change.inode) else {
        if change.value.is_some() {
            return Err(ApplyError::NotChanges);
        }
        return Ok(());
    };
    set_value(&mut file.regions, change.number, &change.value)?;
    let _ = files.insert(change.inode, file)?;
    Ok(())
}

/// Gives regions their values, or takes them out.
fn set_regions(
    files: &mut BTreeMap<InodeId, FileDraft>,
    changes: &[RegionChange],
) -> Result<(), ApplyError>
    ensures { IsApplied (regions_set (seen file_entry files.old.entries) (region_rows changes.now))
        (seen file_entry files.new.entries) result }
{
    for change in changes {
        match set_region(files, change) {
            Ok(()) => {}
            Err(why) => return Err(why),
        }
    }
    Ok(())
}

/// What stands at each path, in order.
fn write_paths(alloc: Global, paths: &BTreeMap<Path, Node>) -> Result<Vec<PathRecord>, OutOfMemory>
    ensures { IfOk result (λ v. v.items ≡ map path_written paths.now.entries) }
{
    let mut made = Vec::new(alloc);
    let mut rest = paths.iter();
    while let Some((path, node)) = rest.next() {
        let path = path.copy(alloc)?;
        made.push(PathRecord { path, node: *node })?;
    }
    Ok(made)
}

/// The regions of a file, in order.
fn write_regions(
    alloc: Global,
    regions: &BTreeMap<u16, RegionValue>,
) -> Result<Vec<RegionRecord>, OutOfMemory>
    ensures { IfOk result (λ v. image_regions v.items ≡
        map region_written (seen value_row regions.now.entries)) }
{
    let mut made = Vec::new(alloc);
    let mut rest = regions.iter();
    while let Some((number, value)) = rest.next() {
        let value = value.copy()?;
        made.push(RegionRecord {
            number: *number,
            value,
        })?;
    }
    Ok(made)
}

/// The files with their regions, in order.
fn write_files(
    alloc: Global,
    files: &BTreeMap<InodeId, FileDraft>,
) -> Result<Vec<FileRecord>, OutOfMemory>
    ensures { IfOk result (λ v. file_rows v.items ≡
        map file_written (seen file_entry files.now.entries)) }
{
    let mut made = Vec::new(alloc);
    let mut rest = files.iter();
    while let Some((inode, file)) = rest.next() {
        let regions = write_regions(alloc, &file.regions)?;
        made.push(FileRecord {
            inode: *inode,
            last: file.last,
            regions,
        })?;
    }
    Ok(made)
}

impl Draft {
    /// The draft of an image.
    pub fn of(alloc: Global, image: &Image) -> Result<Draft, OutOfMemory>
        ensures { IfOk result (λ d. d ≡ taken (image_rows image.now)) }
    {
        let paths = take_paths(alloc, image.paths.as_slice())?;
        let files = take_files(alloc, image.files.as_slice())?;
        Ok(Draft {
            header: image.header,
            paths,
            files,
        })
    }

    /// Makes changes. They are refused where they give a region to a file that is not there; after an
    /// error the draft is good for nothing.
    pub fn change(&mut self, alloc: Global, changes: &Changes) -> Result<(), ApplyError>
        ensures { IsApplied (changed self.old (change_rows changes.now)) self.new result }
    {
        set_paths(alloc, &mut self.paths, changes.paths.as_slice())?;
        set_files(alloc, &mut self.files, changes.files.as_slice())?;
        match set_regions(&mut self.files, changes.regions.as_slice()) {
            Ok(()) => {}
            Err(why) => return Err(why),
        }
        self.header.installs = changes.installs;
        self.header.next_tx = changes.next_tx;
        Ok(())
    }

    /// The image, with its records in order.
    pub fn image(&self, alloc: Global) -> Result<Image, OutOfMemory>
        ensures { IfOk result (λ x. image_rows x ≡ written self.now) }
    {
        let paths = write_paths(alloc, &self.paths)?;
        let files = write_files(alloc, &self.files)?;
        Ok(Image {
            version: Version::Two,
            header: self.header,
            paths,
            files,
        })
    }
}
