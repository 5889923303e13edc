//! The changes that the calls make of an attempt. Want of memory may leave some of them made.

ghost use Rattle.std.specs.Prelude.{[], ◌∷◌, OnOk};
ghost use Rattle.wtf_occ.specs.Attempts.{Grows, GrowsBy};
ghost use Rattle.wtf_meta.specs.NameEdits.{put_at, take_at, add_to, drop_from, mkdir_edits, rmdir_edits, create_edits, unlink_edits, unlink_one_edits, rename_edits, link_edits};
ghost use Rattle.wtf_meta.specs.FileEdits.{LAST_REGION};
ghost use Rattle.wtf_values.specs.Names.{no_names};
ghost use Rattle.wtf_index.specs.Changed.{unlink_by};

use std::alloc::Global;
use wtf_base::{InodeId, OutOfMemory};
use wtf_kv::Change;
use wtf_occ::Attempt;
use wtf_path::Path;
use wtf_values::{Delta, Key, Name, NameSet, Node, Value};

/// Puts a node at a path.
fn put_at(
    alloc: Global,
    at: &mut Attempt<Key, Value>,
    p: &Path,
    node: Node,
) -> Result<(), OutOfMemory>
    ensures went { OnOk result (GrowsBy at.old at.new [] (put_at p.now node ∷ [])) }
    ensures grows { Grows at.old at.new }
{
    let key = Key::Path(p.copy(alloc)?);
    at.delta(key, Delta::Put(Value::Node(node)))
}

/// Takes out what stands at a path.
fn take_at(alloc: Global, at: &mut Attempt<Key, Value>, p: &Path) -> Result<(), OutOfMemory>
    ensures went { OnOk result (GrowsBy at.old at.new [] (take_at p.now ∷ [])) }
    ensures grows { Grows at.old at.new }
{
    let key = Key::Path(p.copy(alloc)?);
    at.delta(key, Delta::Remove)
}

/// Adds the name of a path to a directory.
fn add_to(
    alloc: Global,
    at: &mut Attempt<Key, Value>,
    dir: &Path,
    p: &Path,
) -> Result<(), OutOfMemory>
    ensures went { OnOk result (GrowsBy at.old at.new [] (add_to dir.now p.now ∷ [])) }
    ensures grows { Grows at.old at.new }
{
    let key = Key::Dir(dir.copy(alloc)?);
    let name = Name::of(alloc, p)?;
    at.delta(key, Delta::DirAdd(name))
}

/// Takes the name of a path out of a directory.
fn drop_from(
    alloc: Global,
    at: &mut Attempt<Key, Value>,
    dir: &Path,
    p: &Path,
) -> Result<(), OutOfMemory>
    ensures went { OnOk result (GrowsBy at.old at.new [] (drop_from dir.now p.now ∷ [])) }
    ensures grows { Grows at.old at.new }
{
    let key = Key::Dir(dir.copy(alloc)?);
    let name = Name::of(alloc, p)?;
    at.delta(key, Delta::DirDel(name))
}

/// Gives a directory no names.
fn put_no_names(alloc: Global, at: &mut Attempt<Key, Value>, p: &Path) -> Result<(), OutOfMemory>
    ensures went { OnOk result (GrowsBy at.old at.new []
        (Change.Delta (Key.Dir p.now) (Delta.Put (Value.Names no_names)) ∷ [])) }
    ensures grows { Grows at.old at.new }
{
    let key = Key::Dir(p.copy(alloc)?);
    at.delta(key, Delta::Put(Value::Names(NameSet::new(alloc))))
}

/// Takes out the names of a directory.
fn take_names(alloc: Global, at: &mut Attempt<Key, Value>, p: &Path) -> Result<(), OutOfMemory>
    ensures went { OnOk result
        (GrowsBy at.old at.new [] (Change.Delta (Key.Dir p.now) Delta.Remove ∷ [])) }
    ensures grows { Grows at.old at.new }
{
    let key = Key::Dir(p.copy(alloc)?);
    at.delta(key, Delta::Remove)
}

/// Sets the last region of a file to its first.
fn put_first(at: &mut Attempt<Key, Value>, inode: InodeId) -> Result<(), OutOfMemory>
    ensures went { OnOk result (GrowsBy at.old at.new []
        (Change.Delta (Key.Inode inode) (Delta.Put (Value.Last 0)) ∷ [])) }
    ensures grows { Grows at.old at.new }
{
    at.delta(Key::Inode(inode), Delta::Put(Value::Last(0)))
}

/// Takes out the record of a file.
fn take_inode(at: &mut Attempt<Key, Value>, inode: InodeId) -> Result<(), OutOfMemory>
    ensures went { OnOk result
        (GrowsBy at.old at.new [] (Change.Delta (Key.Inode inode) Delta.Remove ∷ [])) }
    ensures grows { Grows at.old at.new }
{
    at.delta(Key::Inode(inode), Delta::Remove)
}

/// Takes out all regions of a file.
fn cut_regions(at: &mut Attempt<Key, Value>, inode: InodeId) -> Result<(), OutOfMemory>
    ensures went { OnOk result (GrowsBy at.old at.new []
        (Change.Cut (Key.Region inode 0) (Key.Region inode LAST_REGION) ∷ [])) }
    ensures grows { Grows at.old at.new }
{
    at.cut_range(Key::Region(inode, 0), Key::Region(inode, u16::MAX))
}

/// One path less of a file.
fn sub_link(at: &mut Attempt<Key, Value>, inode: InodeId) -> Result<(), OutOfMemory>
    ensures went { OnOk result
        (GrowsBy at.old at.new [] (Change.Delta (Key.Links inode) Delta.LinkSub ∷ [])) }
    ensures grows { Grows at.old at.new }
{
    at.delta(Key::Links(inode), Delta::LinkSub)
}

/// Makes a directory at `p`, in the directory `dir`.
pub fn make_folder(
    alloc: Global,
    at: &mut Attempt<Key, Value>,
    dir: &Path,
    p: &Path,
) -> Result<(), OutOfMemory>
    ensures went { OnOk result (GrowsBy at.old at.new [] (mkdir_edits dir.now p.now)) }
    ensures grows { Grows at.old at.new }
{
    put_at(alloc, at, p, Node::Folder)?;
    put_no_names(alloc, at, p)?;
    add_to(alloc, at, dir, p)?;
    Ok(())
}

/// Takes out the directory `p` of the directory `dir`.
pub fn take_folder(
    alloc: Global,
    at: &mut Attempt<Key, Value>,
    dir: &Path,
    p: &Path,
) -> Result<(), OutOfMemory>
    ensures went { OnOk result (GrowsBy at.old at.new [] (rmdir_edits dir.now p.now)) }
    ensures grows { Grows at.old at.new }
{
    take_at(alloc, at, p)?;
    take_names(alloc, at, p)?;
    drop_from(alloc, at, dir, p)?;
    Ok(())
}

/// Makes a file without a byte at `p`, in the directory `dir`.
pub fn make_file(
    alloc: Global,
    at: &mut Attempt<Key, Value>,
    dir: &Path,
    p: &Path,
    new: InodeId,
) -> Result<(), OutOfMemory>
    ensures went { OnOk result (GrowsBy at.old at.new [] (create_edits dir.now p.now new)) }
    ensures grows { Grows at.old at.new }
{
    put_at(alloc, at, p, Node::File(new))?;
    put_first(at, new)?;
    add_to(alloc, at, dir, p)?;
    Ok(())
}

/// Takes out the file `p` of the directory `dir`, with all its regions.
fn take_file(
    alloc: Global,
    at: &mut Attempt<Key, Value>,
    dir: &Path,
    p: &Path,
    inode: InodeId,
) -> Result<(), OutOfMemory>
    ensures went { OnOk result (GrowsBy at.old at.new [] (unlink_edits dir.now p.now inode)) }
    ensures grows { Grows at.old at.new }
{
    cut_regions(at, inode)?;
    take_inode(at, inode)?;
    take_at(alloc, at, p)?;
    drop_from(alloc, at, dir, p)?;
    Ok(())
}

/// Takes out the path `p`, in the directory `dir`, of a file that has others.
fn take_name(
    alloc: Global,
    at: &mut Attempt<Key, Value>,
    dir: &Path,
    p: &Path,
    inode: InodeId,
) -> Result<(), OutOfMemory>
    ensures went { OnOk result (GrowsBy at.old at.new [] (unlink_one_edits dir.now p.now inode)) }
    ensures grows { Grows at.old at.new }
{
    take_at(alloc, at, p)?;
    drop_from(alloc, at, dir, p)?;
    sub_link(at, inode)?;
    Ok(())
}

/// Takes out the path `p`, in the directory `dir`, of a file of so many paths; with the last one the file.
pub fn take_path(
    alloc: Global,
    at: &mut Attempt<Key, Value>,
    dir: &Path,
    p: &Path,
    inode: InodeId,
    links: u64,
) -> Result<(), OutOfMemory>
    ensures went { OnOk result (GrowsBy at.old at.new [] (unlink_by links dir.now p.now inode)) }
    ensures grows { Grows at.old at.new }
{
    if links < 2 {
        return take_file(alloc, at, dir, p, inode);
    }
    take_name(alloc, at, dir, p, inode)
}

/// Moves the file `p` of the directory `up` to `q`, in the directory `dir`.
pub fn move_file(
    alloc: Global,
    at: &mut Attempt<Key, Value>,
    up: &Path,
    p: &Path,
    dir: &Path,
    q: &Path,
    inode: InodeId,
) -> Result<(), OutOfMemory>
    ensures went { OnOk result
        (GrowsBy at.old at.new [] (rename_edits up.now p.now dir.now q.now inode)) }
    ensures grows { Grows at.old at.new }
{
    take_at(alloc, at, p)?;
    drop_from(alloc, at, up, p)?;
    put_at(alloc, at, q, Node::File(inode))?;
    add_to(alloc, at, dir, q)?;
    Ok(())
}

/// One path more of a file.
fn add_link(at: &mut Attempt<Key, Value>, inode: InodeId) -> Result<(), OutOfMemory>
    ensures went { OnOk result
        (GrowsBy at.old at.new [] (Change.Delta (Key.Links inode) Delta.LinkAdd ∷ [])) }
    ensures grows { Grows at.old at.new }
{
    at.delta(Key::Links(inode), Delta::LinkAdd)
}

/// Makes `q`, in the directory `dir`, one more path of a file.
pub fn link_file(
    alloc: Global,
    at: &mut Attempt<Key, Value>,
    dir: &Path,
    q: &Path,
    inode: InodeId,
) -> Result<(), OutOfMemory>
    ensures went { OnOk result (GrowsBy at.old at.new [] (link_edits dir.now q.now inode)) }
    ensures grows { Grows at.old at.new }
{
    put_at(alloc, at, q, Node::File(inode))?;
    add_to(alloc, at, dir, q)?;
    add_link(at, inode)?;
    Ok(())
}
