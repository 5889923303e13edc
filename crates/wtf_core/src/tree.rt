//! The tree of files as it stands now: a walk over the paths of a store in their order.

ghost use Rattle.std.specs.Prelude.{◌≡◌, ℕ, IfOk, OnOk};
ghost use Rattle.std.specs.Option.{option_copied};
ghost use Rattle.wtf_model.specs.Tree.{Tree, rows_of};
ghost use Rattle.wtf_model.specs.declared.answer.Answer.TheVariants as answer;
ghost use Rattle.wtf_values.specs.declared.key.Key.TheVariants as keys;
ghost use Rattle.wtf_meta.specs.Maps.{metadata_at};
ghost use Rattle.wtf_meta.specs.Files.{end_of, file_len as file_length};
ghost use Rattle.wtf_meta.specs.FileEdits.{file_of};
ghost use Rattle.wtf_meta.specs.Contents.{Told};
ghost use Rattle.wtf_meta.specs.Trees.{Stands};
ghost use Rattle.wtf_core.specs.Turns.{IsTreeAnswer};
ghost use Rattle.wtf_core.specs.Rows.{map_now, shown_node, shown_at, with_row, IsShown};

use std::alloc::Global;
use wtf_base::{InodeId, OutOfMemory, Settings};
use wtf_kv::Kv;
use wtf_meta::{Key, Node, Value};
use wtf_model::{Answer, Row, Rows};
use wtf_path::Path;

/// Each path as it stands now, in order, with the length of each file. No bytes of files are read:
/// each path takes the time of a few searches among the keys.
pub(crate) fn tree_now(
    alloc: Global,
    kv: &Kv<Key, Value>,
    settings: Settings,
) -> Result<Answer, OutOfMemory>
    ensures rows { IfOk result (λ a. (told : Told) (tx k : ℕ) (t : Tree) →
        Stands settings.region told tx k (metadata_at kv.now kv.now.number) t →
        a ≡ answer.Tree (rows_of t)) }
    ensures tree { IfOk result IsTreeAnswer }
{
    let rows = rows_now(alloc, kv, settings)?;
    Ok(Answer::Tree(Rows::of(rows)))
}

/// The rows of all paths as they stand now, in order.
fn rows_now(alloc: Global, kv: &Kv<Key, Value>, settings: Settings) -> Result<Vec<Row>, OutOfMemory>
    ensures { IfOk result
        (λ rows. IsShown (shown_at settings.region (map_now kv.now)) rows.items) }
{
    let mut rows = Vec::new(alloc);
    let mut at = kv.next_key(None);
    while let Some(key) = at {
        let Key::Path(path) = key else {
            return Ok(rows);
        };
        add_row(alloc, kv, settings, path, key, &mut rows)?;
        at = kv.next_key(Some(key));
    }
    Ok(rows)
}

/// Adds the row of what stands at a path now; none where nothing does.
fn add_row(
    alloc: Global,
    kv: &Kv<Key, Value>,
    settings: Settings,
    path: &Path,
    key: &Key,
    rows: &mut Vec<Row>,
) -> Result<(), OutOfMemory>
    requires { key.now ≡ keys.Path path.now }
    ensures { OnOk result (rows.new.items ≡ with_row rows.old.items path.now
        (shown_at settings.region (map_now kv.now) path.now)) }
{
    let Some(Value::Node(node)) = value_now(kv, key) else {
        return Ok(());
    };
    let len = shown_len(kv, settings, *node);
    let path = path.copy(alloc)?;
    rows.push(Row { path, len })?;
    Ok(())
}

/// What is shown behind a path: the length of a file, and nothing for a directory.
fn shown_len(kv: &Kv<Key, Value>, settings: Settings, node: Node) -> Option<u64>
    ensures { result ≡ shown_node settings.region (map_now kv.now) node }
{
    match node {
        Node::Folder => None,
        Node::File(inode) => Some(len_now(kv, settings, inode)),
    }
}

/// The length of a file as it stands now, in bytes: that of the regions before its last one, and
/// where that one ends.
fn len_now(kv: &Kv<Key, Value>, settings: Settings, inode: InodeId) -> u64
    ensures { result ≡ file_length settings.region (file_of inode (map_now kv.now)) }
{
    let last = last_now(kv, inode);
    let end = end_now(kv, inode, last);
    last as u64 * settings.region as u64 + end as u64
}

/// The number of a file's last region, 0 where it is missing.
fn last_now(kv: &Kv<Key, Value>, inode: InodeId) -> u16
    ensures { result ≡ (file_of inode (map_now kv.now)).last }
{
    match value_now(kv, &Key::Inode(inode)) {
        Some(Value::Last(n)) => *n,
        _ => 0,
    }
}

/// Where a region of a file ends, 0 where it is missing.
fn end_now(kv: &Kv<Key, Value>, inode: InodeId, r: u16) -> u32
    ensures { result ≡ end_of ((file_of inode (map_now kv.now)).region r) }
{
    match value_now(kv, &Key::Region(inode, r)) {
        Some(Value::Region(v)) => v.end,
        _ => 0,
    }
}

/// The value that a key has now.
fn value_now<'a>(kv: &'a Kv<Key, Value>, key: &Key) -> Option<&'a Value>
    ensures { option_copied result ≡ map_now kv.now key.now }
{
    kv.read_at(kv.number(), key)
}
