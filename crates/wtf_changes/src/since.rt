//! What changed in a store since a number.

ghost use Rattle.std.specs.Prelude.{◌≡◌, IsTrue, IfOk, OnOk};
ghost use Rattle.std.specs.Option.{option_copied, option_map};
ghost use Rattle.wtf_kv.specs.Stores.{is_pinned};
ghost use Rattle.wtf_imagefmt.specs.Lookups.{plain};
ghost use Rattle.wtf_imagefmt.specs.Rows.{value_row};
ghost use Rattle.wtf_imagefmt.specs.Saving.{node_now, last_now};
ghost use Rattle.wtf_imagefmt.specs.Shown.{shown};
ghost use Rattle.wtf_changes.specs.Counted.{CanBeCounted};
ghost use Rattle.wtf_changes.specs.Rows.{change_rows};
ghost use Rattle.wtf_values.specs.declared.key.Key.TheVariants as keys;
ghost use Rattle.wtf_changes.specs.Since.{value_now, IsChangesOf};
ghost use Rattle.wtf_changes.specs.Walk.{AreInOrder, with_key, none_yet};

use crate::records::{Changes, FileChange, PathChange, RegionChange};
use crate::writer::write;
use std::alloc::Global;
use wtf_base::{InodeId, OutOfMemory};
use wtf_kv::Kv;
use wtf_path::Path;
use wtf_values::{Key, Node, RegionValue, Value};

/// What a path's value says that stands there.
fn node_of(value: Option<&Value>) -> Option<Node>
    ensures { result ≡ node_now (option_map plain (option_copied value.entry)) }
{
    match value {
        Some(Value::Node(node)) => Some(*node),
        _ => None,
    }
}

/// The last region that an inode's value tells.
fn last_of(value: Option<&Value>) -> Option<u16>
    ensures { result ≡ last_now (option_map plain (option_copied value.entry)) }
{
    match value {
        Some(Value::Last(last)) => Some(*last),
        _ => None,
    }
}

/// The value of a region, which shares the entries.
fn held_of(value: Option<&Value>) -> Result<Option<RegionValue>, OutOfMemory>
    ensures { IfOk result (λ v. option_map value_row v ≡
        value_now (option_map plain (option_copied value.entry))) }
{
    match value {
        Some(Value::Region(value)) => Ok(Some(value.copy()?)),
        _ => Ok(None),
    }
}

/// Adds what stands at a path now.
fn add_path(
    alloc: Global,
    path: &Path,
    value: Option<&Value>,
    made: &mut Changes,
) -> Result<(), OutOfMemory>
    ensures { OnOk result (change_rows made.new ≡
        with_key (change_rows made.old) (keys.Path path.now) (option_map plain (option_copied value.entry))) }
{
    let path = path.copy(alloc)?;
    let node = node_of(value);
    made.paths.push(PathChange { path, node })?;
    Ok(())
}

/// Adds what the last region of a file is now.
fn add_file(inode: InodeId, value: Option<&Value>, made: &mut Changes) -> Result<(), OutOfMemory>
    ensures { OnOk result (change_rows made.new ≡
        with_key (change_rows made.old) (keys.Inode inode) (option_map plain (option_copied value.entry))) }
{
    let last = last_of(value);
    made.files.push(FileChange { inode, last })?;
    Ok(())
}

/// Adds what a region of a file is now.
fn add_region(
    inode: InodeId,
    number: u16,
    value: Option<&Value>,
    made: &mut Changes,
) -> Result<(), OutOfMemory>
    ensures { OnOk result (change_rows made.new ≡ with_key (change_rows made.old)
        (keys.Region inode number) (option_map plain (option_copied value.entry))) }
{
    let value = held_of(value)?;
    made.regions.push(RegionChange {
        inode,
        number,
        value,
    })?;
    Ok(())
}

/// Adds what a key is now. Directories have the names of the paths.
fn add_now(
    alloc: Global,
    key: &Key,
    value: Option<&Value>,
    made: &mut Changes,
) -> Result<(), OutOfMemory>
    ensures { OnOk result (change_rows made.new ≡
        with_key (change_rows made.old) key.now (option_map plain (option_copied value.entry))) }
{
    match key {
        Key::Path(path) => return add_path(alloc, path, value, made),
        Key::Dir(_) => return Ok(()),
        Key::Links(_) => return Ok(()),
        Key::Inode(inode) => return add_file(*inode, value, made),
        Key::Region(inode, number) => return add_region(*inode, *number, value, made),
    }
}

/// Adds what a key is now.
fn add_key(
    alloc: Global,
    kv: &Kv<Key, Value>,
    key: &Key,
    made: &mut Changes,
) -> Result<(), OutOfMemory>
    ensures { OnOk result (change_rows made.new ≡
        with_key (change_rows made.old) key.now (shown kv.now key.now)) }
{
    let now = kv.read_at(kv.number(), key);
    add_now(alloc, key, now, made)?;
    Ok(())
}

/// No change yet, with the two numbers.
fn none_yet(alloc: Global, installs: u64, next_tx: u64) -> Changes
    ensures { change_rows result ≡ none_yet installs next_tx }
{
    Changes {
        installs,
        next_tx,
        paths: Vec::new(alloc),
        files: Vec::new(alloc),
        regions: Vec::new(alloc),
    }
}

/// The changes of a store since a number, in order.
fn changes_since(
    alloc: Global,
    kv: &Kv<Key, Value>,
    since: u64,
    next_tx: u64,
) -> Result<Changes, OutOfMemory>
    ensures { IfOk result (λ made. AreInOrder kv.now since next_tx (change_rows made)) }
{
    let mut made = none_yet(alloc, kv.number(), next_tx);
    let mut at = kv.next_changed(since, None);
    while let Some(key) = at {
        add_key(alloc, kv, key, &mut made)?;
        at = kv.next_changed(since, Some(key));
    }
    Ok(made)
}

/// Refuses a store that holds more keys than an image can count, as want of memory.
fn can_count(kv: &Kv<Key, Value>) -> Result<(), OutOfMemory>
    ensures { OnOk result (CanBeCounted (shown kv.now)) }
{
    if kv.most_rows() >= 1 << 32 {
        return Err(OutOfMemory);
    }
    Ok(())
}

/// The changes of a store since a number that is pinned: each path, file and region whose version lies
/// above it, with what it is now. Where they are too many to be counted, or the store holds more keys than
/// an image can count, it answers want of memory. It looks at the keys that changed since the last mark of
/// the store (`Kv::mark`), each in the time of a few searches, where that mark is at most the number, and
/// else at all keys.
pub fn changes(
    alloc: Global,
    kv: &Kv<Key, Value>,
    since: u64,
    next_tx: u64,
) -> Result<Vec<u8>, OutOfMemory>
    requires { IsTrue (is_pinned kv.now since) }
    ensures told { IfOk result (λ v. IsChangesOf kv.now since next_tx v.items) }
    // An image can count the paths and the files of the store.
    ensures counted { OnOk result (CanBeCounted (shown kv.now)) }
{
    can_count(kv)?;
    let changes = changes_since(alloc, kv, since, next_tx)?;
    let bytes = write(alloc, &changes)?;
    Ok(bytes)
}
