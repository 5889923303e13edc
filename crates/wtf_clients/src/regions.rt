//! The region that a job is to be of.

ghost use Rattle.std.specs.Prelude.{◌≡◌, IfOk};
ghost use Rattle.wtf_meta.specs.Files.{end_of};
ghost use Rattle.wtf_meta.specs.FileEdits.{last_of};
ghost use Rattle.wtf_index.specs.Checks.{stands_at};
ghost use Rattle.wtf_compact.specs.Jobs.{region_in_map};
ghost use Rattle.wtf_clients.specs.Views.{metadata_now};
ghost use Rattle.wtf_clients.specs.Planning.{has_region, refusal_at};

use std::alloc::Global;
use wtf_base::{InodeId, OutOfMemory, Settings};
use wtf_kv::Kv;
use wtf_model::Word;
use wtf_model::limits::MAX_REGIONS;
use wtf_path::Path;
use wtf_values::{Key, Node, Value};

/// What stands at a path now.
fn node_now(alloc: Global, kv: &Kv<Key, Value>, p: &Path) -> Result<Option<Node>, OutOfMemory>
    ensures { IfOk result (λ node. node ≡ stands_at (metadata_now kv.now) p.now) }
{
    let path = match p.copy(alloc) {
        Ok(path) => path,
        Err(_) => return Err(OutOfMemory),
    };
    let key = Key::Path(path);
    match kv.read_at(kv.number(), &key) {
        Some(Value::Node(node)) => Ok(Some(*node)),
        _ => Ok(None),
    }
}

/// The number of a file's last region now.
fn last_region(kv: &Kv<Key, Value>, inode: InodeId) -> u16
    ensures { result ≡ last_of (metadata_now kv.now (Key.Inode inode)) }
{
    let key = Key::Inode(inode);
    match kv.read_at(kv.number(), &key) {
        Some(Value::Last(last)) => *last,
        _ => 0,
    }
}

/// Where a region of a file ends now.
fn region_end(kv: &Kv<Key, Value>, inode: InodeId, region: u16) -> u32
    ensures { result ≡ end_of (region_in_map (metadata_now kv.now) inode region) }
{
    let key = Key::Region(inode, region);
    match kv.read_at(kv.number(), &key) {
        Some(Value::Region(v)) => v.end,
        _ => 0,
    }
}

/// Whether a file has a region of this number now. That none lies past the greatest, and that none ends past its
/// size, holds of each file that is a tree's; it is asked all the same, of maps that are none's.
fn has_region(kv: &Kv<Key, Value>, inode: InodeId, region: u64, settings: Settings) -> bool
    ensures { result ≡ has_region settings.region (metadata_now kv.now) inode region }
{
    if region > last_region(kv, inode) as u64 {
        return false;
    }
    if region >= MAX_REGIONS as u64 {
        return false;
    }
    region_end(kv, inode, region as u16) <= settings.region
}

/// Why no job may be of a region of the file at a path as it stands now; none where one may.
pub(crate) fn plan_refusal(
    alloc: Global,
    kv: &Kv<Key, Value>,
    p: &Path,
    region: u64,
    settings: Settings,
) -> Result<Option<Word>, OutOfMemory>
    ensures { IfOk result (λ w. w ≡ refusal_at settings.region (metadata_now kv.now) region
        (stands_at (metadata_now kv.now) p.now)) }
{
    let node = node_now(alloc, kv, p)?;
    match node {
        None => Ok(Some(Word::NoEnt)),
        Some(Node::Folder) => Ok(Some(Word::IsDir)),
        Some(Node::File(inode)) => {
            if has_region(kv, inode, region, settings) {
                return Ok(None);
            }
            Ok(Some(Word::NoRegion))
        }
    }
}
