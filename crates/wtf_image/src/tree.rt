//! The rules of a tree: paths stand in directories, and each file is named by paths.

ghost use Rattle.std.specs.Prelude.{◌≡◌, IfOk, MatchBool};
ghost use Rattle.std.specs.List.{list_all, list_any};
ghost use Rattle.wtf_path.specs.Grammar.{IsPath};
ghost use Rattle.wtf_values.specs.declared.key.Key.TheVariants as keys;
ghost use Rattle.wtf_imagefmt.specs.Rows.{region_rows, file_row, file_rows, image_rows};
ghost use Rattle.wtf_image.specs.Rules.{is_named_times, is_good_region, is_last, is_good_file, IsGoodTree};
ghost use Rattle.wtf_image.specs.Tables.{AreCounts, count_in, shown, ShowsRows, is_shown_folder, has_shown_parent, is_shown_node};

use crate::counts::count_now;
use std::alloc::Global;
use std::collections::BTreeMap;
use wtf_base::{InodeId, OutOfMemory};
use wtf_imagefmt::{FileRecord, Image, PathRecord, RegionRecord, Version};
use wtf_kv::Kv;
use wtf_path::Path;
use wtf_values::{Key, Node, Value};

/// Whether the paths and files of an image, which the store has, make a tree, where the table has how
/// often each inode is named. Each path takes the time of a few searches among the keys.
pub(crate) fn is_tree(
    alloc: Global,
    kv: &Kv<Key, Value>,
    image: &Image,
    counts: &BTreeMap<InodeId, u64>,
) -> Result<bool, OutOfMemory>
    requires shows { ShowsRows (shown kv.now) image.now.paths.items
        (file_rows image.now.files.items) }
    requires counts { AreCounts counts.now.entries image.now.paths.items }
    ensures { IfOk result (λ b. MatchBool b (IsGoodTree (image_rows image.now))
        (IsGoodTree (image_rows image.now) → ⊥)) }
{
    let paths = image.paths.as_slice();
    let files = image.files.as_slice();
    if !is_folder(alloc, kv, b"/")? {
        return Ok(false);
    }
    if !have_parents(alloc, kv, paths)? {
        return Ok(false);
    }
    if !are_recorded(kv, paths) {
        return Ok(false);
    }
    if !are_named(image.version, counts, files) {
        return Ok(false);
    }
    Ok(are_good_files(image.header.region, files))
}

/// Whether a directory stands at a path.
fn is_folder(alloc: Global, kv: &Kv<Key, Value>, path: &[u8]) -> Result<bool, OutOfMemory>
    requires { IsPath path.now }
    ensures { IfOk result (λ b. b ≡ is_shown_folder (shown kv.now (keys.Path path.now))) }
{
    let key = match Path::parse(alloc, path) {
        Ok(path) => Key::Path(path),
        Err(_) => return Err(OutOfMemory),
    };
    match kv.read_at(kv.number(), &key) {
        Some(Value::Node(Node::Folder)) => Ok(true),
        _ => Ok(false),
    }
}

/// Whether each path but the root stands in a directory.
fn have_parents(
    alloc: Global,
    kv: &Kv<Key, Value>,
    paths: &[PathRecord],
) -> Result<bool, OutOfMemory>
    ensures { IfOk result (λ b. b ≡ list_all (has_shown_parent (shown kv.now)) paths.now) }
{
    for record in paths {
        if !has_parent(alloc, kv, record)? {
            return Ok(false);
        }
    }
    Ok(true)
}

/// Whether a path is the root or stands in a directory.
fn has_parent(alloc: Global, kv: &Kv<Key, Value>, entry: &PathRecord) -> Result<bool, OutOfMemory>
    ensures { IfOk result (λ b. b ≡ has_shown_parent (shown kv.now) entry.now) }
{
    match entry.path.parent() {
        None => Ok(true),
        Some(parent) => is_folder(alloc, kv, parent),
    }
}

/// Whether each inode that a path names has a record.
fn are_recorded(kv: &Kv<Key, Value>, paths: &[PathRecord]) -> bool
    ensures { result ≡ list_all (λ r. is_shown_node (shown kv.now) r.node) paths.now }
{
    for record in paths {
        if !is_recorded(kv, record.node) {
            return false;
        }
    }
    true
}

/// Whether a directory stands there, or a file whose inode has a record.
fn is_recorded(kv: &Kv<Key, Value>, node: Node) -> bool
    ensures { result ≡ is_shown_node (shown kv.now) node }
{
    match node {
        Node::Folder => true,
        Node::File(inode) => kv.read_at(kv.number(), &Key::Inode(inode)).is_some(),
    }
}

/// Whether each file is named as often as a version lets it be.
fn are_named(version: Version, counts: &BTreeMap<InodeId, u64>, files: &[FileRecord]) -> bool
    ensures { result ≡ list_all (λ f. is_named_times version (count_in counts.now.entries f.inode))
        (file_rows files.now) }
{
    for file in files {
        if !is_named(version, count_now(counts, file.inode)) {
            return false;
        }
    }
    true
}

/// Whether a file may be named so often: in the first version by one path, in the second by one or more.
fn is_named(version: Version, times: u64) -> bool
    ensures { result ≡ is_named_times version times }
{
    match version {
        Version::One => times == 1,
        Version::Two => times >= 1,
    }
}

/// Whether the regions of each file are good, where a region has at most so many bytes.
fn are_good_files(region: u32, files: &[FileRecord]) -> bool
    ensures { result ≡ list_all (is_good_file region) (file_rows files.now) }
{
    for file in files {
        if !is_good_file(region, file) {
            return false;
        }
    }
    true
}

/// Whether a file has at most 4,096 regions, all good, and the last has bytes unless it is the first.
fn is_good_file(region: u32, file: &FileRecord) -> bool
    ensures { result ≡ is_good_file region (file_row file.now) }
{
    let regions = file.regions.as_slice();
    if file.last > 4_095 {
        return false;
    }
    if !are_good_regions(region, file.last, regions) {
        return false;
    }
    if file.last == 0 {
        return true;
    }
    has_last(file.last, regions)
}

/// Whether regions lie up to the last one, and none is too long.
fn are_good_regions(region: u32, last: u16, regions: &[RegionRecord]) -> bool
    ensures { result ≡ list_all (is_good_region region last) (region_rows regions.now) }
{
    for r in regions {
        if r.number > last || r.value.end > region {
            return false;
        }
    }
    true
}

/// Whether the last region is there, and has bytes.
fn has_last(last: u16, regions: &[RegionRecord]) -> bool
    ensures { result ≡ list_any (is_last last) (region_rows regions.now) }
{
    for r in regions {
        if r.number == last && r.value.end > 0 {
            return true;
        }
    }
    false
}
