//! The call that copies a file.

ghost use Rattle.std.specs.Prelude.{◌≡◌, ◌+◌, ◌++◌, [], length, IsTrue, IfOk, OnOk};
ghost use Rattle.wtf_kv.specs.Stores.{is_pinned};
ghost use Rattle.wtf_occ.specs.Attempts.{Grows, GrowsBy};
ghost use Rattle.wtf_model.specs.Steps.{IsLogged};
ghost use Rattle.wtf_meta.specs.Maps.{seen};
ghost use Rattle.wtf_meta.specs.Sessions.{SessionView};
ghost use Rattle.wtf_meta.specs.Calls.{Caller};
ghost use Rattle.wtf_steps.specs.Steps.{in_hand, IsStepWith, NeedsNoBytes, IsRefusal};
ghost use Rattle.wtf_steps.specs.Made.{Makes};
ghost use Rattle.wtf_slicing.specs.Recorded.{copy_keys};
ghost use Rattle.wtf_slicing.specs.Changed.{IsCopied};
ghost use Rattle.wtf_slicing.specs.Copies.{put_region, put_regions, fill_edits};
ghost use Rattle.wtf_slicing.specs.Steps.{IsNewFor};

use crate::whole::{Whole, whole_file};
use std::alloc::Global;
use wtf_base::{InodeId, OutOfMemory};
use wtf_index::{make_file, source, target};
use wtf_kv::Kv;
use wtf_model::{Answer, Op};
use wtf_occ::Attempt;
use wtf_path::Path;
use wtf_values::{Delta, Key, RegionValue, Value};

/// Gives a file the value of a region, if it is there.
fn put_region(
    at: &mut Attempt<Key, Value>,
    inode: InodeId,
    r: u16,
    value: &Option<RegionValue>,
) -> Result<(), OutOfMemory>
    ensures went { OnOk result (GrowsBy at.old at.new [] (put_region inode r value.now)) }
    ensures grows { Grows at.old at.new }
{
    let Some(v) = value else {
        return Ok(());
    };
    let copy = v.copy()?;
    at.delta(Key::Region(inode, r), Delta::Put(Value::Region(copy)))
}

/// Gives a file the values of regions, from its first one to its last.
fn put_regions(
    at: &mut Attempt<Key, Value>,
    inode: InodeId,
    last: u16,
    regions: &[Option<RegionValue>],
) -> Result<(), OutOfMemory>
    requires { length regions.now ≡ last + 1 }
    ensures went { OnOk result (GrowsBy at.old at.new [] (put_regions inode 0 regions.now)) }
    ensures grows { Grows at.old at.new }
{
    let mut r = 0u32;
    for value in regions {
        put_region(at, inode, r as u16, value)?;
        r += 1;
    }
    Ok(())
}

/// Gives a file all regions of another, and the number of its last one.
fn fill(at: &mut Attempt<Key, Value>, inode: InodeId, whole: &Whole) -> Result<(), OutOfMemory>
    requires { length whole.now.regions.items ≡ whole.now.last + 1 }
    ensures went { OnOk result
        (GrowsBy at.old at.new [] (fill_edits inode whole.now.last whole.now.regions.items)) }
    ensures grows { Grows at.old at.new }
{
    let last = whole.last;
    put_regions(at, inode, last, whole.regions.as_slice())?;
    at.delta(Key::Inode(inode), Delta::Put(Value::Last(last)))
}

/// Makes a file at `q`, of the inode `new`, with the bytes of the file `p`: it shares the values of
/// its regions, so that no byte and no list is read. It is refused for what is not there or a
/// directory, then for the root as its target, for one whose parent is no directory, and for one at
/// which something stands; then nothing changes. Want of memory may leave the attempt grown.
pub(crate) fn copy(
    alloc: Global,
    kv: &Kv<Key, Value>,
    at: &mut Attempt<Key, Value>,
    new: InodeId,
    p: &Path,
    q: &Path,
) -> Result<Answer, OutOfMemory>
    requires pinned { IsTrue (is_pinned kv.now at.old.base) }
    ensures keys { OnOk result
        (at.new.reads ≡ at.old.reads ++ copy_keys (seen kv.now at.old) p.now q.now) }
    ensures step { IfOk result (λ a. (x : Caller) (s : SessionView) → IsNewFor x new →
        IsStepWith NeedsNoBytes x (seen kv.now at.old) (in_hand at.old s) (in_hand at.new s)
        (Op.Copy p.now q.now) a) }
    ensures made { IfOk result (λ a. Makes a (IsCopied (seen kv.now at.old) p.now q.now new)
        at.old at.new) }
    ensures logged { IfOk result (λ a. IsLogged a) }
    ensures refused { IfOk result (λ a. IsRefusal a → at.new.changes ≡ at.old.changes) }
    ensures grows { Grows at.old at.new }
{
    let inode = match source(alloc, kv, at, p)? {
        Ok(inode) => inode,
        Err(word) => return Ok(Answer::Refused(word)),
    };
    let dir = match target(alloc, kv, at, q)? {
        Ok(dir) => dir,
        Err(word) => return Ok(Answer::Refused(word)),
    };
    let whole = whole_file(alloc, kv, at, inode)?;
    make_file(alloc, at, &dir, q, new)?;
    fill(at, new, &whole)?;
    Ok(Answer::Okay)
}
