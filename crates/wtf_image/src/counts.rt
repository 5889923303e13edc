//! How many paths name each file, counted once over all paths.

ghost use Rattle.std.specs.Prelude.{◌≡◌, ◌+◌, ◌<◌, ◌^◌, if◌then◌else◌, [], true, IfOk, OnOk};
ghost use Rattle.std.specs.List.{flat_map};
ghost use Rattle.wtf_base.specs.declared.ids.InodeId.{InodeId};
ghost use Rattle.wtf_kv.specs.Stores.{versions_of};
ghost use Rattle.wtf_values.specs.Keys.{key_cmp};
ghost use Rattle.wtf_values.specs.declared.key.Key.TheVariants as keys;
ghost use Rattle.wtf_imagefmt.specs.Rows.{file_rows};
ghost use Rattle.wtf_imagefmt.specs.Shapes.{ascends, file_before};
ghost use Rattle.wtf_imagefmt.specs.Lookups.{is_name_of, count_row};
ghost use Rattle.wtf_image.specs.Seeds.{Adds, count_seed, count_seed_by};
ghost use Rattle.wtf_image.specs.Tables.{AreCounts, count_in};

use std::alloc::Global;
use std::collections::BTreeMap;
use wtf_base::{InodeId, OutOfMemory};
use wtf_imagefmt::{FileRecord, PathRecord};
use wtf_kv::Kv;
use wtf_values::{Key, Node, Value};

/// How often each inode is named by a path.
pub(crate) fn counts_of(
    alloc: Global,
    paths: &[PathRecord],
) -> Result<BTreeMap<InodeId, u64>, OutOfMemory>
    ensures { IfOk result (λ counts. AreCounts counts.entries paths.now) }
{
    let mut counts = BTreeMap::new(alloc);
    for record in paths {
        count(&mut counts, record.node)?;
    }
    Ok(counts)
}

/// Counts the inode that a path names once more.
fn count(counts: &mut BTreeMap<InodeId, u64>, node: Node) -> Result<(), OutOfMemory>
    requires { (i : InodeId) → count_in counts.old.entries i + 1 < 2 ^ 64 }
    ensures { OnOk result ((i : InodeId) → count_in counts.new.entries i ≡
        count_in counts.old.entries i + (if is_name_of i node then 1 else 0)) }
{
    let inode = match node {
        Node::Folder => return Ok(()),
        Node::File(inode) => inode,
    };
    let had = count_now(counts, inode);
    let _ = counts.insert(inode, had + 1)?;
    Ok(())
}

/// How often an inode is named, by a table that lacks those that are not.
pub(crate) fn count_now(counts: &BTreeMap<InodeId, u64>, inode: InodeId) -> u64
    ensures { result ≡ count_in counts.now.entries inode }
{
    match counts.get(&inode) {
        Some(n) => *n,
        None => 0,
    }
}

/// The number of its paths is given to each file that several name.
pub(crate) fn seed_counts(
    kv: &mut Kv<Key, Value>,
    counts: &BTreeMap<InodeId, u64>,
    files: &[FileRecord],
) -> Result<(), OutOfMemory>
    requires pins { kv.old.pins ≡ [] }
    requires ascend { ascends file_before (file_rows files.now) ≡ true }
    requires fresh { (i : InodeId) → versions_of key_cmp kv.old (keys.Links i) ≡ [] }
    ensures { OnOk result (Adds kv.old kv.new
        (flat_map (count_seed (count_in counts.now.entries)) (file_rows files.now))) }
{
    for file in files {
        seed_count(kv, file.inode, count_now(counts, file.inode))?;
    }
    Ok(())
}

/// Gives a file the number of its paths, if it has several. The store has none yet.
fn seed_count(kv: &mut Kv<Key, Value>, inode: InodeId, times: u64) -> Result<(), OutOfMemory>
    requires pins { kv.old.pins ≡ [] }
    requires fresh { versions_of key_cmp kv.old (keys.Links inode) ≡ [] }
    ensures { OnOk result (Adds kv.old kv.new (count_seed_by inode (count_row times))) }
{
    if times < 2 {
        return Ok(());
    }
    kv.seed(Key::Links(inode), Value::Count(times))?;
    Ok(())
}
