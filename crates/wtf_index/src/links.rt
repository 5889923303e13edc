//! The call that gives a file one path more, beside those that it has.

ghost use Rattle.std.specs.Prelude.{◌^◌, ◌<◌, IsTrue, IfOk, OnOk};
ghost use Rattle.wtf_kv.specs.Stores.{is_pinned};
ghost use Rattle.wtf_occ.specs.Attempts.{Grows, GrowsBy};
ghost use Rattle.wtf_model.specs.Steps.{IsLogged};
ghost use Rattle.wtf_meta.specs.Maps.{seen};
ghost use Rattle.wtf_meta.specs.Calls.{Caller, IsNameStep};
ghost use Rattle.wtf_index.specs.Recorded.{rename_keys};
ghost use Rattle.wtf_index.specs.Changed.{link_changes};

use crate::checks::{source, target};
use crate::edits::link_file;
use std::alloc::Global;
use wtf_base::OutOfMemory;
use wtf_kv::Kv;
use wtf_model::{Answer, Op};
use wtf_occ::Attempt;
use wtf_path::Path;
use wtf_values::{Key, Value};

/// Makes `q` one more path of the file `p`. It is refused for what is not there or a directory, then for a target
/// as `rename` is; then nothing changes. Want of memory may leave the attempt grown.
pub fn link(
    alloc: Global,
    kv: &Kv<Key, Value>,
    at: &mut Attempt<Key, Value>,
    p: &Path,
    q: &Path,
) -> Result<Answer, OutOfMemory>
    requires { IsTrue (is_pinned kv.now at.old.base) }
    ensures went { OnOk result (GrowsBy at.old at.new
        (rename_keys (seen kv.now at.old) p.now q.now)
        (link_changes (seen kv.now at.old) p.now q.now)) }
    ensures step { IfOk result (λ a. (x : Caller) → x.calls < 2 ^ 32 →
        IsNameStep x (seen kv.now at.old) at.old at.new (Op.Link p.now q.now) a) }
    ensures logged { IfOk result (λ a. IsLogged a) }
    ensures grows { Grows at.old at.new }
{
    let inode = match source(alloc, kv, at, p)? {
        Ok(inode) => inode,
        Err(refusal) => return Ok(Answer::Refused(refusal)),
    };
    let dir = match target(alloc, kv, at, q)? {
        Ok(dir) => dir,
        Err(word) => return Ok(Answer::Refused(word)),
    };
    link_file(alloc, at, &dir, q, inode)?;
    Ok(Answer::Okay)
}
