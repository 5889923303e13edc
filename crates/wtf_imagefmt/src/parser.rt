//! The records of an image, read from left to right. No memory is set aside for a count that the
//! bytes only claim: a vector grows as its records come. What cannot be read is `NotAList`, as in the
//! lists of its regions: `parse` answers with the errors of a load.

ghost use Rattle.std.specs.Prelude.{◌≡◌, Some, IfOk, MatchOption};
ghost use Rattle.wtf_path.specs.Refusals.{number_of as path_number};
ghost use Rattle.wtf_spillfmt.specs.Parses.{Parses};
ghost use Rattle.wtf_overlay.specs.Reading.{many_at, text_at};
ghost use Rattle.wtf_values.specs.Bases.{IsBelow};
ghost use Rattle.wtf_imagefmt.specs.Rows.{spill_row, base_row, value_row, region_row, region_rows, file_row, file_rows, image_rows};
ghost use Rattle.wtf_imagefmt.specs.Reading.{spill_at, base_at, value_at, region_at, inode_at, file_at, node_at, name_at, path_by, path_at, path_records_at, files_at, version_at, header_at, image_of};

use crate::order::{files_ascend, paths_ascend, regions_ascend};
use crate::reader::{list_of, u16_at};
use crate::records::{FileRecord, Header, Image, PathRecord, RegionRecord, Version};
use std::alloc::Global;
use wtf_base::{InodeId, TxId};
use wtf_path::{Path, PathError};
use wtf_spillfmt::{ListError, slice_of, u8_at, u32_at, u64_at};
use wtf_values::{Node, RegionValue, Spill};

/// The spilled list of a region that ends at `end`: something of it is seen, and nothing past the end.
#[tactic(auto, unfolding(crate::specs::Reading::spill_at))]
fn spill_of(end: u32, bytes: &[u8]) -> Result<(Spill, &[u8]), ListError>
    ensures value { Parses (λ x. (spill_row x.0, x.1.now)) result (spill_at end bytes.now) }
    ensures below { IfOk result (λ x. IsBelow end (Some x.0)) }
{
    let (visible, rest) = u32_at(bytes)?;
    let (len, rest) = u32_at(rest)?;
    let (slice, rest) = slice_of(len, rest)?;
    if visible == 0 || visible > end {
        return Err(ListError::NotAList);
    }
    Ok((Spill { slice, visible }, rest))
}

/// The spilled list of a region that ends at `end`, if it has one.
#[tactic(auto, unfolding(crate::specs::Reading::base_at))]
fn base_of(end: u32, bytes: &[u8]) -> Result<(Option<Spill>, &[u8]), ListError>
    ensures value { Parses (λ x. (base_row x.0, x.1.now)) result (base_at end bytes.now) }
    ensures below { IfOk result (λ x. IsBelow end x.0) }
{
    let (kind, rest) = u8_at(bytes)?;
    match kind {
        0 => Ok((None, rest)),
        1 => {
            let (spill, rest) = spill_of(end, rest)?;
            Ok((Some(spill), rest))
        }
        _ => Err(ListError::NotAList),
    }
}

/// The value of a region, whose entries lie inside it.
#[tactic(auto, unfolding(crate::specs::Reading::value_at))]
pub fn value_of(alloc: Global, bytes: &[u8]) -> Result<(RegionValue, &[u8]), ListError>
    ensures { Parses (λ x. (value_row x.0, x.1.now)) result (value_at bytes.now) }
{
    let (end, rest) = u32_at(bytes)?;
    let (base, rest) = base_of(end, rest)?;
    let (count, rest) = u32_at(rest)?;
    let (list, rest) = list_of(alloc, end, count, rest)?;
    Ok((RegionValue { end, base, list }, rest))
}

/// A region behind its number.
#[tactic(auto, unfolding(crate::specs::Reading::region_at))]
fn region_of(alloc: Global, bytes: &[u8]) -> Result<(RegionRecord, &[u8]), ListError>
    ensures { Parses (λ x. (region_row x.0, x.1.now)) result (region_at bytes.now) }
{
    let (number, rest) = u16_at(bytes)?;
    let (value, rest) = value_of(alloc, rest)?;
    Ok((RegionRecord { number, value }, rest))
}

/// So many regions, in whatever order they stand.
fn regions_of(
    alloc: Global,
    count: u16,
    bytes: &[u8],
) -> Result<(Vec<RegionRecord>, &[u8]), ListError>
    ensures { Parses (λ x. (region_rows x.0.items, x.1.now)) result
        (many_at region_at count bytes.now) }
{
    // Most files have one region at most.
    let mut regions = Vec::with_capacity(alloc, count.min(1) as usize)?;
    let mut rest = bytes;
    for _ in 0..count {
        let (region, after) = region_of(alloc, rest)?;
        regions.push(region)?;
        rest = after;
    }
    Ok((regions, rest))
}

/// An inode: its transaction, and its index.
#[tactic(auto, unfolding(crate::specs::Reading::inode_at))]
pub fn inode_of(bytes: &[u8]) -> Result<(InodeId, &[u8]), ListError>
    ensures { Parses (λ x. (x.0, x.1.now)) result (inode_at bytes.now) }
{
    let (tx, rest) = u64_at(bytes)?;
    let (index, rest) = u32_at(rest)?;
    let inode = InodeId {
        tx: TxId(tx),
        index,
    };
    Ok((inode, rest))
}

/// A file, whose regions ascend.
#[tactic(auto, unfolding(crate::specs::Reading::file_at))]
fn file_of(alloc: Global, bytes: &[u8]) -> Result<(FileRecord, &[u8]), ListError>
    ensures { Parses (λ x. (file_row x.0, x.1.now)) result (file_at bytes.now) }
{
    let (inode, rest) = inode_of(bytes)?;
    let (last, rest) = u16_at(rest)?;
    let (count, rest) = u16_at(rest)?;
    let (regions, rest) = regions_of(alloc, count, rest)?;
    if !regions_ascend(regions.as_slice()) {
        return Err(ListError::NotAList);
    }
    let file = FileRecord {
        inode,
        last,
        regions,
    };
    Ok((file, rest))
}

/// So many files, in whatever order they stand.
fn some_files_of(
    alloc: Global,
    count: u32,
    bytes: &[u8],
) -> Result<(Vec<FileRecord>, &[u8]), ListError>
    ensures { Parses (λ x. (file_rows x.0.items, x.1.now)) result
        (many_at file_at count bytes.now) }
{
    let mut files = Vec::new(alloc);
    let mut rest = bytes;
    for _ in 0..count {
        let (file, after) = file_of(alloc, rest)?;
        files.push(file)?;
        rest = after;
    }
    Ok((files, rest))
}

/// The files, which ascend, behind their number.
#[tactic(auto, unfolding(crate::specs::Reading::files_at))]
fn files_of(alloc: Global, bytes: &[u8]) -> Result<(Vec<FileRecord>, &[u8]), ListError>
    ensures { Parses (λ x. (file_rows x.0.items, x.1.now)) result (files_at bytes.now) }
{
    let (count, rest) = u32_at(bytes)?;
    let (files, rest) = some_files_of(alloc, count, rest)?;
    if !files_ascend(files.as_slice()) {
        return Err(ListError::NotAList);
    }
    Ok((files, rest))
}

/// What stands at a path: 0 for a directory, 1 and the inode for a file.
#[tactic(auto, unfolding(crate::specs::Reading::node_at))]
fn node_of(bytes: &[u8]) -> Result<(Node, &[u8]), ListError>
    ensures { Parses (λ x. (x.0, x.1.now)) result (node_at bytes.now) }
{
    let (kind, rest) = u8_at(bytes)?;
    match kind {
        0 => Ok((Node::Folder, rest)),
        1 => {
            let (inode, rest) = inode_of(rest)?;
            Ok((Node::File(inode), rest))
        }
        _ => Err(ListError::NotAList),
    }
}

/// So many bytes.
#[tactic(auto, unfolding(wtf_overlay::specs::Reading::text_at))]
fn text_of(len: u16, bytes: &[u8]) -> Result<(&[u8], &[u8]), ListError>
    ensures { Parses (λ x. (x.0.now, x.1.now)) result (text_at len bytes.now) }
{
    let len = len as usize;
    if bytes.len() < len {
        return Err(ListError::NotAList);
    }
    Ok(bytes.split_at(len))
}

/// The path that a text spells.
fn path_by(alloc: Global, text: &[u8]) -> Result<Path, ListError>
    ensures { Parses (λ path. path) result (path_by text.now) }
{
    match Path::parse(alloc, text) {
        Ok(path) => Ok(path),
        Err(why) => Err(no_path(why)),
    }
}

/// Why a text gives no path.
fn no_path(why: PathError) -> ListError
    ensures { MatchOption (path_number why) (result ≡ ListError.Memory)
        (λ n. result ≡ ListError.NotAList) }
{
    match why.number() {
        Some(_) => ListError::NotAList,
        None => ListError::Memory,
    }
}

/// A path behind its length.
#[tactic(auto, unfolding(crate::specs::Reading::name_at))]
pub fn name_of(alloc: Global, bytes: &[u8]) -> Result<(Path, &[u8]), ListError>
    ensures { Parses (λ x. (x.0, x.1.now)) result (name_at bytes.now) }
{
    let (len, rest) = u16_at(bytes)?;
    let (text, rest) = text_of(len, rest)?;
    let path = path_by(alloc, text)?;
    Ok((path, rest))
}

/// A path, and what stands there.
#[tactic(auto, unfolding(crate::specs::Reading::path_at))]
fn path_of(alloc: Global, bytes: &[u8]) -> Result<(PathRecord, &[u8]), ListError>
    ensures { Parses (λ x. (x.0, x.1.now)) result (path_at bytes.now) }
{
    let (path, rest) = name_of(alloc, bytes)?;
    let (node, rest) = node_of(rest)?;
    Ok((PathRecord { path, node }, rest))
}

/// So many paths, in whatever order they stand.
fn some_paths_of(
    alloc: Global,
    count: u32,
    bytes: &[u8],
) -> Result<(Vec<PathRecord>, &[u8]), ListError>
    ensures { Parses (λ x. (x.0.items, x.1.now)) result (many_at path_at count bytes.now) }
{
    let mut paths = Vec::new(alloc);
    let mut rest = bytes;
    for _ in 0..count {
        let (path, after) = path_of(alloc, rest)?;
        paths.push(path)?;
        rest = after;
    }
    Ok((paths, rest))
}

/// The paths, which ascend, behind their number.
#[tactic(auto, unfolding(crate::specs::Reading::path_records_at))]
fn paths_of(alloc: Global, bytes: &[u8]) -> Result<(Vec<PathRecord>, &[u8]), ListError>
    ensures { Parses (λ x. (x.0.items, x.1.now)) result (path_records_at bytes.now) }
{
    let (count, rest) = u32_at(bytes)?;
    let (paths, rest) = some_paths_of(alloc, count, rest)?;
    if !paths_ascend(paths.as_slice()) {
        return Err(ListError::NotAList);
    }
    Ok((paths, rest))
}

/// The version of an image, by its first bytes.
#[tactic(auto, unfolding(crate::specs::Reading::version_at))]
fn version_of(bytes: &[u8]) -> Result<(Version, &[u8]), ListError>
    ensures { Parses (λ x. (x.0, x.1.now)) result (version_at bytes.now) }
{
    let (front, rest) = text_of(8, bytes)?;
    if front == b"WTFIMG01".as_slice() {
        return Ok((Version::One, rest));
    }
    if front == b"WTFIMG02".as_slice() {
        return Ok((Version::Two, rest));
    }
    Err(ListError::NotAList)
}

/// The settings and the two numbers, whether or not they keep their limits.
#[tactic(auto, unfolding(crate::specs::Reading::header_at))]
fn header_of(bytes: &[u8]) -> Result<(Header, &[u8]), ListError>
    ensures { Parses (λ x. (x.0, x.1.now)) result (header_at bytes.now) }
{
    let (servers, rest) = u8_at(bytes)?;
    let (replicas, rest) = u8_at(rest)?;
    let (region, rest) = u32_at(rest)?;
    let (installs, rest) = u64_at(rest)?;
    let (next_tx, rest) = u64_at(rest)?;
    let header = Header {
        servers,
        replicas,
        region,
        installs,
        next_tx,
    };
    Ok((header, rest))
}

/// An image, with no byte behind it.
#[tactic(auto, unfolding(crate::specs::Reading::image_of, crate::specs::Reading::image_at))]
pub fn image_of(alloc: Global, bytes: &[u8]) -> Result<Image, ListError>
    ensures { Parses image_rows result (image_of bytes.now) }
{
    let (version, rest) = version_of(bytes)?;
    let (header, rest) = header_of(rest)?;
    let (paths, rest) = paths_of(alloc, rest)?;
    let (files, rest) = files_of(alloc, rest)?;
    if !rest.is_empty() {
        return Err(ListError::NotAList);
    }
    Ok(Image {
        version,
        header,
        paths,
        files,
    })
}
