//! The text of an image, record by record. What was written has the widths of its fields; where a
//! count is too great for its width, it is refused as want of memory.

ghost use Rattle.std.specs.Prelude.{◌≡◌, ◌<◌, ◌^◌, ⊤, Some, OnOk, IfOk};
ghost use Rattle.std.specs.Int.{w16, to_be_bytes};
ghost use Rattle.wtf_path.specs.Grammar.{IsPath};
ghost use Rattle.wtf_overlay.specs.Clips.{Within};
ghost use Rattle.wtf_overlay.specs.Texts.{entries_text};
ghost use Rattle.wtf_overlay.specs.Shapes.{AreEntries};
ghost use Rattle.wtf_spillfmt.specs.Writing.{Writes};
ghost use Rattle.wtf_values.specs.Bases.{IsBelow};
ghost use Rattle.wtf_imagefmt.specs.Rows.{entry_rows, spill_row, base_row, value_row, region_row, region_rows, file_row, file_rows, image_rows};
ghost use Rattle.wtf_imagefmt.specs.Texts.{spill_text, base_text, value_text, region_text, regions_text, inode_text, file_text, files_text, node_text, name_text, path_text, paths_text, magic_of, header_text, image_text};
ghost use Rattle.wtf_imagefmt.specs.Shapes.{IsSpill, IsBase, IsValue, IsRegion, IsInode, IsNode, IsPathRow, IsHeader};
ghost use Rattle.wtf_imagefmt.specs.Writing.{AreRegions, IsWideFile, AreWideFiles, AreWidePaths, IsWide};

use crate::records::{FileRecord, Header, Image, PathRecord, RegionRecord, Version};
use std::alloc::Global;
use wtf_base::{InodeId, OutOfMemory};
use wtf_overlay::Overlay;
use wtf_path::Path;
use wtf_spillfmt::{put_entries, put_slice, put_u32};
use wtf_values::{Node, RegionValue, Spill};

/// A number of things, in two bytes.
fn put_u16(out: &mut Vec<u8>, count: usize) -> Result<(), OutOfMemory>
    ensures { OnOk result (Writes out.old.items out.new.items
        (to_be_bytes w16 count) (count < 2 ^ 16)) }
{
    if count > 65_535 {
        return Err(OutOfMemory);
    }
    out.extend_from_slice(&(count as u16).to_be_bytes())?;
    Ok(())
}

/// The entries of a region that ends at `end`, behind their number.
fn put_list(out: &mut Vec<u8>, end: u32, list: &Overlay) -> Result<(), OutOfMemory>
    requires { Within end list.now }
    ensures { OnOk result (Writes out.old.items out.new.items (entries_text (entry_rows list.now))
        (AreEntries end (entry_rows list.now))) }
{
    put_entries(out, list)?;
    Ok(())
}

/// A spilled list of a region that ends at `end`: something of it is seen, and nothing past the end.
#[tactic(auto, unfolding(crate::specs::Texts::spill_text))]
fn put_spill(out: &mut Vec<u8>, end: u32, spill: Spill) -> Result<(), OutOfMemory>
    requires { IsBelow end (Some spill) }
    ensures { OnOk result (Writes out.old.items out.new.items (spill_text (spill_row spill))
        (IsSpill end (spill_row spill))) }
{
    out.extend_from_slice(&spill.visible.to_be_bytes())?;
    out.extend_from_slice(&spill.slice.len().to_be_bytes())?;
    put_slice(out, &spill.slice)?;
    Ok(())
}

/// The spilled list of a region that ends at `end`, if it has one.
#[tactic(auto, unfolding(crate::specs::Texts::base_text))]
fn put_base(out: &mut Vec<u8>, end: u32, base: Option<Spill>) -> Result<(), OutOfMemory>
    requires { IsBelow end base }
    ensures { OnOk result (Writes out.old.items out.new.items (base_text (base_row base))
        (IsBase end (base_row base))) }
{
    match base {
        None => {
            out.push(0)?;
            return Ok(());
        }
        Some(spill) => {
            out.push(1)?;
            put_spill(out, end, spill)?;
            return Ok(());
        }
    }
}

/// The value of a region: its end, its spilled list, and its entries, which lie inside it.
#[tactic(auto, unfolding(crate::specs::Texts::value_text))]
pub fn put_value(out: &mut Vec<u8>, value: &RegionValue) -> Result<(), OutOfMemory>
    ensures { OnOk result (Writes out.old.items out.new.items (value_text (value_row value.now))
        (IsValue (value_row value.now))) }
{
    out.extend_from_slice(&value.end.to_be_bytes())?;
    put_base(out, value.end, value.base)?;
    put_list(out, value.end, &value.list)?;
    Ok(())
}

/// A region: its number, and its value.
#[tactic(auto, unfolding(crate::specs::Texts::region_text, crate::specs::Texts::value_text))]
fn put_region(out: &mut Vec<u8>, region: &RegionRecord) -> Result<(), OutOfMemory>
    ensures { OnOk result (Writes out.old.items out.new.items (region_text (region_row region.now))
        (IsRegion (region_row region.now))) }
{
    out.extend_from_slice(&region.number.to_be_bytes())?;
    put_value(out, &region.value)?;
    Ok(())
}

/// The regions of a file, behind their number.
#[tactic(auto, unfolding(crate::specs::Texts::regions_text))]
fn put_regions(out: &mut Vec<u8>, regions: &[RegionRecord]) -> Result<(), OutOfMemory>
    ensures { OnOk result (Writes out.old.items out.new.items
        (regions_text (region_rows regions.now)) (AreRegions (region_rows regions.now))) }
{
    put_u16(out, regions.len())?;
    for region in regions {
        put_region(out, region)?;
    }
    Ok(())
}

/// An inode: its transaction, and its index.
#[tactic(auto, unfolding(crate::specs::Texts::inode_text))]
pub fn put_inode(out: &mut Vec<u8>, inode: InodeId) -> Result<(), OutOfMemory>
    ensures { OnOk result (Writes out.old.items out.new.items (inode_text inode) (IsInode inode)) }
{
    out.extend_from_slice(&inode.tx.0.to_be_bytes())?;
    out.extend_from_slice(&inode.index.to_be_bytes())?;
    Ok(())
}

/// A file: its inode, the number of its last region, and its regions, in whatever order they stand.
#[tactic(auto, unfolding(crate::specs::Texts::file_text))]
fn put_file(out: &mut Vec<u8>, file: &FileRecord) -> Result<(), OutOfMemory>
    ensures { OnOk result (Writes out.old.items out.new.items (file_text (file_row file.now))
        (IsWideFile (file_row file.now))) }
{
    put_inode(out, file.inode)?;
    out.extend_from_slice(&file.last.to_be_bytes())?;
    put_regions(out, file.regions.as_slice())?;
    Ok(())
}

/// The files, behind their number.
#[tactic(auto, unfolding(crate::specs::Texts::files_text))]
fn put_files(out: &mut Vec<u8>, files: &[FileRecord]) -> Result<(), OutOfMemory>
    ensures { OnOk result (Writes out.old.items out.new.items
        (files_text (file_rows files.now)) (AreWideFiles (file_rows files.now))) }
{
    put_u32(out, files.len())?;
    for file in files {
        put_file(out, file)?;
    }
    Ok(())
}

/// What stands at a path: 0 for a directory, 1 and the inode for a file.
#[tactic(auto, unfolding(crate::specs::Texts::node_text))]
pub fn put_node(out: &mut Vec<u8>, node: Node) -> Result<(), OutOfMemory>
    ensures { OnOk result (Writes out.old.items out.new.items (node_text node) (IsNode node)) }
{
    match node {
        Node::Folder => {
            out.push(0)?;
            return Ok(());
        }
        Node::File(inode) => {
            out.push(1)?;
            put_inode(out, inode)?;
            return Ok(());
        }
    }
}

/// A path behind its length.
#[tactic(auto, unfolding(crate::specs::Texts::name_text))]
pub fn put_name(out: &mut Vec<u8>, path: &Path) -> Result<(), OutOfMemory>
    ensures { OnOk result (Writes out.old.items out.new.items (name_text path.now) (IsPath path.now)) }
{
    let path = path.as_bytes();
    put_u16(out, path.len())?;
    out.extend_from_slice(path)?;
    Ok(())
}

/// A path behind its length, and what stands there.
#[tactic(auto, unfolding(crate::specs::Texts::path_text))]
fn put_path(out: &mut Vec<u8>, entry: &PathRecord) -> Result<(), OutOfMemory>
    ensures { OnOk result (Writes out.old.items out.new.items (path_text entry.now)
        (IsPathRow entry.now)) }
{
    put_name(out, &entry.path)?;
    put_node(out, entry.node)?;
    Ok(())
}

/// What stands at each path, behind the number of paths.
#[tactic(auto, unfolding(crate::specs::Texts::paths_text))]
fn put_paths(out: &mut Vec<u8>, paths: &[PathRecord]) -> Result<(), OutOfMemory>
    ensures { OnOk result (Writes out.old.items out.new.items
        (paths_text paths.now) (AreWidePaths paths.now)) }
{
    put_u32(out, paths.len())?;
    for path in paths {
        put_path(out, path)?;
    }
    Ok(())
}

/// The settings and the two numbers, whether or not they keep their limits.
#[tactic(auto, unfolding(crate::specs::Texts::header_text))]
fn put_header(out: &mut Vec<u8>, header: Header) -> Result<(), OutOfMemory>
    ensures { OnOk result (Writes out.old.items out.new.items (header_text header)
        (IsHeader header)) }
{
    out.push(header.servers)?;
    out.push(header.replicas)?;
    out.extend_from_slice(&header.region.to_be_bytes())?;
    out.extend_from_slice(&header.installs.to_be_bytes())?;
    out.extend_from_slice(&header.next_tx.to_be_bytes())?;
    Ok(())
}

/// The first bytes of an image of a version.
fn put_version(out: &mut Vec<u8>, version: Version) -> Result<(), OutOfMemory>
    ensures { OnOk result (Writes out.old.items out.new.items (magic_of version) ⊤) }
{
    match version {
        Version::One => {
            out.extend_from_slice(b"WTFIMG01")?;
            return Ok(());
        }
        Version::Two => {
            out.extend_from_slice(b"WTFIMG02")?;
            return Ok(());
        }
    }
}

/// The text of an image. Where there are too many records to be counted it answers want of memory.
#[tactic(auto, unfolding(crate::specs::Texts::image_text))]
pub fn write(alloc: Global, image: &Image) -> Result<Vec<u8>, OutOfMemory>
    ensures text { IfOk result (λ v. v.items ≡ image_text (image_rows image.now)) }
    ensures wide { OnOk result (IsWide (image_rows image.now)) }
{
    let mut out = Vec::new(alloc);
    put_version(&mut out, image.version)?;
    put_header(&mut out, image.header)?;
    put_paths(&mut out, image.paths.as_slice())?;
    put_files(&mut out, image.files.as_slice())?;
    Ok(out)
}
