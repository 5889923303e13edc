//! The records of changes, read from left to right. No memory is set aside for a count that the bytes
//! only claim: a vector grows as its records come. What cannot be read is `NotAList`, as in the lists of
//! regions.

ghost use Rattle.std.specs.Option.{option_map};
ghost use Rattle.wtf_overlay.specs.Reading.{many_at};
ghost use Rattle.wtf_spillfmt.specs.Parses.{Parses};
ghost use Rattle.wtf_imagefmt.specs.Rows.{value_row};
ghost use Rattle.wtf_changes.specs.Rows.{region_row, region_rows, change_rows};
ghost use Rattle.wtf_changes.specs.Reading.{stands_at, path_at, last_at, file_at, held_at, region_change_at, path_changes_at, files_at, regions_at, changes_of};

use crate::order::{files_ascend, paths_ascend, regions_ascend};
use crate::records::{Changes, FileChange, PathChange, RegionChange};
use std::alloc::Global;
use wtf_imagefmt::{inode_of, name_of, u16_at, value_of};
use wtf_spillfmt::{ListError, u8_at, u32_at, u64_at};
use wtf_values::{Node, RegionValue};

/// What stands at a path: 0 for a directory, 1 and the inode for a file, 2 for nothing.
#[tactic(auto, unfolding(crate::specs::Reading::stands_at))]
fn stands_of(bytes: &[u8]) -> Result<(Option<Node>, &[u8]), ListError>
    ensures { Parses (λ x. (x.0, x.1.now)) result (stands_at bytes.now) }
{
    let (kind, rest) = u8_at(bytes)?;
    match kind {
        0 => Ok((Some(Node::Folder), rest)),
        1 => {
            let (inode, rest) = inode_of(rest)?;
            Ok((Some(Node::File(inode)), rest))
        }
        2 => Ok((None, rest)),
        _ => Err(ListError::NotAList),
    }
}

/// A path, and what stands there.
#[tactic(auto, unfolding(crate::specs::Reading::path_at))]
fn path_of(alloc: Global, bytes: &[u8]) -> Result<(PathChange, &[u8]), ListError>
    ensures { Parses (λ x. (x.0, x.1.now)) result (path_at bytes.now) }
{
    let (path, rest) = name_of(alloc, bytes)?;
    let (node, rest) = stands_of(rest)?;
    Ok((PathChange { path, node }, rest))
}

/// So many paths, in whatever order they stand.
fn some_paths_of(
    alloc: Global,
    count: u32,
    bytes: &[u8],
) -> Result<(Vec<PathChange>, &[u8]), ListError>
    ensures { Parses (λ x. (x.0.items, x.1.now)) result (many_at path_at count bytes.now) }
{
    let mut paths = Vec::new(alloc);
    let mut rest = bytes;
    for _ in 0..count {
        let (path, after) = path_of(alloc, rest)?;
        paths.push(path)?;
        rest = after;
    }
    Ok((paths, rest))
}

/// The paths, which ascend, behind their number.
#[tactic(auto, unfolding(crate::specs::Reading::path_changes_at))]
fn paths_of(alloc: Global, bytes: &[u8]) -> Result<(Vec<PathChange>, &[u8]), ListError>
    ensures { Parses (λ x. (x.0.items, x.1.now)) result (path_changes_at bytes.now) }
{
    let (count, rest) = u32_at(bytes)?;
    let (paths, rest) = some_paths_of(alloc, count, rest)?;
    if !paths_ascend(paths.as_slice()) {
        return Err(ListError::NotAList);
    }
    Ok((paths, rest))
}

/// The last region of a file: 0 for a file that is gone, 1 and the number.
#[tactic(auto, unfolding(crate::specs::Reading::last_at))]
fn last_of(bytes: &[u8]) -> Result<(Option<u16>, &[u8]), ListError>
    ensures { Parses (λ x. (x.0, x.1.now)) result (last_at bytes.now) }
{
    let (kind, rest) = u8_at(bytes)?;
    match kind {
        0 => Ok((None, rest)),
        1 => {
            let (last, rest) = u16_at(rest)?;
            Ok((Some(last), rest))
        }
        _ => Err(ListError::NotAList),
    }
}

/// A file, and its last region.
#[tactic(auto, unfolding(crate::specs::Reading::file_at))]
fn file_of(bytes: &[u8]) -> Result<(FileChange, &[u8]), ListError>
    ensures { Parses (λ x. (x.0, x.1.now)) result (file_at bytes.now) }
{
    let (inode, rest) = inode_of(bytes)?;
    let (last, rest) = last_of(rest)?;
    Ok((FileChange { inode, last }, rest))
}

/// So many files, in whatever order they stand.
fn some_files_of(
    alloc: Global,
    count: u32,
    bytes: &[u8],
) -> Result<(Vec<FileChange>, &[u8]), ListError>
    ensures { Parses (λ x. (x.0.items, x.1.now)) result (many_at file_at count bytes.now) }
{
    let mut files = Vec::new(alloc);
    let mut rest = bytes;
    for _ in 0..count {
        let (file, after) = file_of(rest)?;
        files.push(file)?;
        rest = after;
    }
    Ok((files, rest))
}

/// The files, which ascend, behind their number.
#[tactic(auto, unfolding(crate::specs::Reading::files_at))]
fn files_of(alloc: Global, bytes: &[u8]) -> Result<(Vec<FileChange>, &[u8]), ListError>
    ensures { Parses (λ x. (x.0.items, x.1.now)) result (files_at bytes.now) }
{
    let (count, rest) = u32_at(bytes)?;
    let (files, rest) = some_files_of(alloc, count, rest)?;
    if !files_ascend(files.as_slice()) {
        return Err(ListError::NotAList);
    }
    Ok((files, rest))
}

/// The value of a region: 0 for one that is gone, 1 and the value.
#[tactic(auto, unfolding(crate::specs::Reading::held_at))]
fn held_of(alloc: Global, bytes: &[u8]) -> Result<(Option<RegionValue>, &[u8]), ListError>
    ensures { Parses (λ x. (option_map value_row x.0, x.1.now)) result (held_at bytes.now) }
{
    let (kind, rest) = u8_at(bytes)?;
    match kind {
        0 => Ok((None, rest)),
        1 => {
            let (value, rest) = value_of(alloc, rest)?;
            Ok((Some(value), rest))
        }
        _ => Err(ListError::NotAList),
    }
}

/// A region behind its file and its number.
#[tactic(auto, unfolding(crate::specs::Reading::region_change_at))]
fn region_of(alloc: Global, bytes: &[u8]) -> Result<(RegionChange, &[u8]), ListError>
    ensures { Parses (λ x. (region_row x.0, x.1.now)) result (region_change_at bytes.now) }
{
    let (inode, rest) = inode_of(bytes)?;
    let (number, rest) = u16_at(rest)?;
    let (value, rest) = held_of(alloc, rest)?;
    let region = RegionChange {
        inode,
        number,
        value,
    };
    Ok((region, rest))
}

/// So many regions, in whatever order they stand.
fn some_regions_of(
    alloc: Global,
    count: u32,
    bytes: &[u8],
) -> Result<(Vec<RegionChange>, &[u8]), ListError>
    ensures { Parses (λ x. (region_rows x.0.items, x.1.now)) result
        (many_at region_change_at count bytes.now) }
{
    let mut regions = Vec::new(alloc);
    let mut rest = bytes;
    for _ in 0..count {
        let (region, after) = region_of(alloc, rest)?;
        regions.push(region)?;
        rest = after;
    }
    Ok((regions, rest))
}

/// The regions, which ascend, behind their number.
#[tactic(auto, unfolding(crate::specs::Reading::regions_at))]
fn regions_of(alloc: Global, bytes: &[u8]) -> Result<(Vec<RegionChange>, &[u8]), ListError>
    ensures { Parses (λ x. (region_rows x.0.items, x.1.now)) result (regions_at bytes.now) }
{
    let (count, rest) = u32_at(bytes)?;
    let (regions, rest) = some_regions_of(alloc, count, rest)?;
    if !regions_ascend(regions.as_slice()) {
        return Err(ListError::NotAList);
    }
    Ok((regions, rest))
}

/// Changes, with no byte behind them.
#[tactic(auto, unfolding(crate::specs::Reading::changes_of, crate::specs::Reading::changes_at))]
pub(crate) fn changes_of(alloc: Global, bytes: &[u8]) -> Result<Changes, ListError>
    ensures { Parses change_rows result (changes_of bytes.now) }
{
    let (installs, rest) = u64_at(bytes)?;
    let (next_tx, rest) = u64_at(rest)?;
    let (paths, rest) = paths_of(alloc, rest)?;
    let (files, rest) = files_of(alloc, rest)?;
    let (regions, rest) = regions_of(alloc, rest)?;
    if !rest.is_empty() {
        return Err(ListError::NotAList);
    }
    Ok(Changes {
        installs,
        next_tx,
        paths,
        files,
        regions,
    })
}
