//! The text of changes, record by record. What was written has the widths of its fields; where a count
//! is too great for its width, it is refused as want of memory.

ghost use Rattle.std.specs.Prelude.{◌≡◌, OnOk, IfOk};
ghost use Rattle.std.specs.Option.{option_map};
ghost use Rattle.wtf_spillfmt.specs.Writing.{Writes};
ghost use Rattle.wtf_imagefmt.specs.Rows.{value_row};
ghost use Rattle.wtf_changes.specs.Rows.{region_row, region_rows, change_rows};
ghost use Rattle.wtf_changes.specs.Texts.{stands_text, path_text, paths_text, last_text, file_text, files_text, held_text, region_text, regions_text, changes_text};
ghost use Rattle.wtf_changes.specs.Shapes.{IsStanding, IsLast, IsValueHeld, IsPathRow, IsFileRow, IsRegionRow};
ghost use Rattle.wtf_changes.specs.Writing.{AreWidePaths, AreWideFiles, AreWideRegions, AreWide};

use crate::records::{Changes, FileChange, PathChange, RegionChange};
use std::alloc::Global;
use wtf_base::OutOfMemory;
use wtf_imagefmt::{put_inode, put_name, put_node, put_value};
use wtf_spillfmt::put_u32;
use wtf_values::{Node, RegionValue};

/// What stands at a path, 2 where nothing does.
#[tactic(auto, unfolding(crate::specs::Texts::stands_text))]
fn put_standing(out: &mut Vec<u8>, node: Option<Node>) -> Result<(), OutOfMemory>
    ensures { OnOk result (Writes out.old.items out.new.items (stands_text node)
        (IsStanding node)) }
{
    match node {
        None => {
            out.push(2)?;
            return Ok(());
        }
        Some(node) => return put_node(out, node),
    }
}

/// A path behind its length, and what stands there.
#[tactic(auto, unfolding(crate::specs::Texts::path_text))]
fn put_path(out: &mut Vec<u8>, entry: &PathChange) -> Result<(), OutOfMemory>
    ensures { OnOk result (Writes out.old.items out.new.items (path_text entry.now)
        (IsPathRow entry.now)) }
{
    put_name(out, &entry.path)?;
    put_standing(out, entry.node)?;
    Ok(())
}

/// The paths, behind their number.
#[tactic(auto, unfolding(crate::specs::Texts::paths_text))]
fn put_paths(out: &mut Vec<u8>, paths: &[PathChange]) -> Result<(), OutOfMemory>
    ensures { OnOk result (Writes out.old.items out.new.items
        (paths_text paths.now) (AreWidePaths paths.now)) }
{
    put_u32(out, paths.len())?;
    for path in paths {
        put_path(out, path)?;
    }
    Ok(())
}

/// The last region of a file, 0 where the file is gone.
#[tactic(auto, unfolding(crate::specs::Texts::last_text))]
fn put_last(out: &mut Vec<u8>, last: Option<u16>) -> Result<(), OutOfMemory>
    ensures { OnOk result (Writes out.old.items out.new.items (last_text last) (IsLast last)) }
{
    match last {
        None => {
            out.push(0)?;
            return Ok(());
        }
        Some(last) => {
            out.push(1)?;
            out.extend_from_slice(&last.to_be_bytes())?;
            return Ok(());
        }
    }
}

/// A file, and its last region.
#[tactic(auto, unfolding(crate::specs::Texts::file_text))]
fn put_file(out: &mut Vec<u8>, file: FileChange) -> Result<(), OutOfMemory>
    ensures { OnOk result (Writes out.old.items out.new.items (file_text file)
        (IsFileRow file)) }
{
    put_inode(out, file.inode)?;
    put_last(out, file.last)?;
    Ok(())
}

/// The files, behind their number.
#[tactic(auto, unfolding(crate::specs::Texts::files_text))]
fn put_files(out: &mut Vec<u8>, files: &[FileChange]) -> Result<(), OutOfMemory>
    ensures { OnOk result (Writes out.old.items out.new.items
        (files_text files.now) (AreWideFiles files.now)) }
{
    put_u32(out, files.len())?;
    for file in files {
        put_file(out, *file)?;
    }
    Ok(())
}

/// The value of a region, 0 where the region is gone.
#[tactic(auto, unfolding(crate::specs::Texts::held_text))]
fn put_held(out: &mut Vec<u8>, value: &Option<RegionValue>) -> Result<(), OutOfMemory>
    ensures { OnOk result (Writes out.old.items out.new.items
        (held_text (option_map value_row value.now)) (IsValueHeld (option_map value_row value.now))) }
{
    match value {
        None => {
            out.push(0)?;
            return Ok(());
        }
        Some(value) => {
            out.push(1)?;
            put_value(out, value)?;
            return Ok(());
        }
    }
}

/// A region: its file, its number, and its value.
#[tactic(auto, unfolding(crate::specs::Texts::region_text))]
fn put_region(out: &mut Vec<u8>, region: &RegionChange) -> Result<(), OutOfMemory>
    ensures { OnOk result (Writes out.old.items out.new.items (region_text (region_row region.now))
        (IsRegionRow (region_row region.now))) }
{
    put_inode(out, region.inode)?;
    out.extend_from_slice(&region.number.to_be_bytes())?;
    put_held(out, &region.value)?;
    Ok(())
}

/// The regions, behind their number.
#[tactic(auto, unfolding(crate::specs::Texts::regions_text))]
fn put_regions(out: &mut Vec<u8>, regions: &[RegionChange]) -> Result<(), OutOfMemory>
    ensures { OnOk result (Writes out.old.items out.new.items
        (regions_text (region_rows regions.now)) (AreWideRegions (region_rows regions.now))) }
{
    put_u32(out, regions.len())?;
    for region in regions {
        put_region(out, region)?;
    }
    Ok(())
}

/// The text of changes. Where there are too many records to be counted it answers want of memory.
#[tactic(auto, unfolding(crate::specs::Texts::changes_text))]
pub fn write(alloc: Global, changes: &Changes) -> Result<Vec<u8>, OutOfMemory>
    ensures text { IfOk result (λ v. v.items ≡ changes_text (change_rows changes.now)) }
    ensures wide { OnOk result (AreWide (change_rows changes.now)) }
{
    let mut out = Vec::new(alloc);
    out.extend_from_slice(&changes.installs.to_be_bytes())?;
    out.extend_from_slice(&changes.next_tx.to_be_bytes())?;
    put_paths(&mut out, changes.paths.as_slice())?;
    put_files(&mut out, changes.files.as_slice())?;
    put_regions(&mut out, changes.regions.as_slice())?;
    Ok(out)
}
