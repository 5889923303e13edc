//! The calls that make a file and take it out.

ghost use Rattle.std.specs.Prelude.{◌≡◌, ◌+◌, IsTrue, IfOk, OnOk};
ghost use Rattle.wtf_kv.specs.Stores.{is_pinned};
ghost use Rattle.wtf_occ.specs.Attempts.{Grows, GrowsBy};
ghost use Rattle.wtf_model.specs.Steps.{IsLogged};
ghost use Rattle.wtf_meta.specs.Maps.{seen};
ghost use Rattle.wtf_meta.specs.Calls.{Caller, IsNameStep};
ghost use Rattle.wtf_index.specs.Recorded.{target_keys, unlink_keys};
ghost use Rattle.wtf_index.specs.Changed.{create_changes, unlink_changes};

use crate::checks::{parent_path, source, target};
use crate::edits::{make_file, take_path};
use crate::looks::links_at;
use std::alloc::Global;
use wtf_base::{InodeId, OutOfMemory};
use wtf_kv::Kv;
use wtf_model::{Answer, Op, Word};
use wtf_occ::Attempt;
use wtf_path::Path;
use wtf_values::{Key, Value};

/// Makes an empty file at `p`, of the inode `new`, which is that of its transaction's next call. It is
/// refused for the root, where the parent is no directory, and where something stands at `p`; then nothing
/// changes. Want of memory may leave the attempt grown.
pub fn create(
    alloc: Global,
    kv: &Kv<Key, Value>,
    at: &mut Attempt<Key, Value>,
    p: &Path,
    new: InodeId,
) -> Result<Answer, OutOfMemory>
    requires { IsTrue (is_pinned kv.now at.old.base) }
    ensures went { OnOk result (GrowsBy at.old at.new (target_keys (seen kv.now at.old) p.now)
        (create_changes (seen kv.now at.old) p.now new)) }
    ensures step { IfOk result (λ a. (x : Caller) → new.tx.0 ≡ x.tx → new.index ≡ x.calls + 1 →
        IsNameStep x (seen kv.now at.old) at.old at.new (Op.Create p.now) a) }
    ensures logged { IfOk result (λ a. IsLogged a) }
    ensures grows { Grows at.old at.new }
{
    let dir = match target(alloc, kv, at, p)? {
        Ok(dir) => dir,
        Err(word) => return Ok(Answer::Refused(word)),
    };
    make_file(alloc, at, &dir, p, new)?;
    Ok(Answer::Okay)
}

/// Takes out the path `p` of a file, on which no handle is open; with its last path the file is gone. It is
/// refused for what is not there or a directory; then nothing changes. Want of memory may leave the attempt grown.
pub fn unlink(
    alloc: Global,
    kv: &Kv<Key, Value>,
    at: &mut Attempt<Key, Value>,
    p: &Path,
) -> Result<Answer, OutOfMemory>
    requires { IsTrue (is_pinned kv.now at.old.base) }
    ensures went { OnOk result (GrowsBy at.old at.new (unlink_keys (seen kv.now at.old) p.now)
        (unlink_changes (seen kv.now at.old) p.now)) }
    ensures step { IfOk result (λ a. (x : Caller) →
        IsNameStep x (seen kv.now at.old) at.old at.new (Op.Unlink p.now) a) }
    ensures logged { IfOk result (λ a. IsLogged a) }
    ensures grows { Grows at.old at.new }
{
    let inode = match source(alloc, kv, at, p)? {
        Ok(inode) => inode,
        Err(word) => return Ok(Answer::Refused(word)),
    };
    let links = links_at(kv, at, inode)?;
    // A file is not the root, so it has a parent.
    let Some(dir) = parent_path(alloc, p)? else {
        return Ok(Answer::Refused(Word::IsDir));
    };
    take_path(alloc, at, &dir, p, inode, links)?;
    Ok(Answer::Okay)
}
