//! The call that gives a file another path in place of one.

ghost use Rattle.std.specs.Prelude.{IsTrue, IfOk, OnOk};
ghost use Rattle.wtf_kv.specs.Stores.{is_pinned};
ghost use Rattle.wtf_occ.specs.Attempts.{Grows, GrowsBy};
ghost use Rattle.wtf_model.specs.Steps.{IsLogged};
ghost use Rattle.wtf_meta.specs.Maps.{seen};
ghost use Rattle.wtf_meta.specs.Calls.{Caller, IsNameStep};
ghost use Rattle.wtf_index.specs.Recorded.{rename_keys};
ghost use Rattle.wtf_index.specs.Changed.{rename_changes};

use crate::checks::{parent_path, source, target};
use crate::edits::move_file;
use std::alloc::Global;
use wtf_base::OutOfMemory;
use wtf_kv::Kv;
use wtf_model::{Answer, Op, Word};
use wtf_occ::Attempt;
use wtf_path::Path;
use wtf_values::{Key, Value};

/// Moves the file `p`, on which no handle is open, to `q`. It is refused for what is not there or a
/// directory, then for the root as its target, for one whose parent is no directory, and for one at which
/// something stands; then nothing changes. Want of memory may leave the attempt grown.
pub fn rename(
    alloc: Global,
    kv: &Kv<Key, Value>,
    at: &mut Attempt<Key, Value>,
    p: &Path,
    q: &Path,
) -> Result<Answer, OutOfMemory>
    requires { IsTrue (is_pinned kv.now at.old.base) }
    ensures went { OnOk result (GrowsBy at.old at.new
        (rename_keys (seen kv.now at.old) p.now q.now)
        (rename_changes (seen kv.now at.old) p.now q.now)) }
    ensures step { IfOk result (λ a. (x : Caller) →
        IsNameStep x (seen kv.now at.old) at.old at.new (Op.Rename p.now q.now) a) }
    ensures logged { IfOk result (λ a. IsLogged a) }
    ensures grows { Grows at.old at.new }
{
    let inode = match source(alloc, kv, at, p)? {
        Ok(inode) => inode,
        Err(word) => return Ok(Answer::Refused(word)),
    };
    let dir = match target(alloc, kv, at, q)? {
        Ok(dir) => dir,
        Err(word) => return Ok(Answer::Refused(word)),
    };
    // A file is not the root, so it has a parent.
    let Some(up) = parent_path(alloc, p)? else {
        return Ok(Answer::Refused(Word::IsDir));
    };
    move_file(alloc, at, &up, p, &dir, q, inode)?;
    Ok(Answer::Okay)
}
