//! The calls on directories.

ghost use Rattle.std.specs.Prelude.{◌≡◌, [], List, IsTrue, IfOk, OnOk};
ghost use Rattle.wtf_kv.specs.Stores.{is_pinned};
ghost use Rattle.wtf_occ.specs.Attempts.{Grows, GrowsBy};
ghost use Rattle.wtf_values.specs.Names.{names_in};
ghost use Rattle.wtf_model.specs.Steps.{IsLogged};
ghost use Rattle.wtf_meta.specs.Maps.{seen};
ghost use Rattle.wtf_meta.specs.Calls.{Caller, IsNameStep};
ghost use Rattle.wtf_index.specs.Recorded.{target_keys, directory_keys, rmdir_keys};
ghost use Rattle.wtf_index.specs.Changed.{mkdir_changes, rmdir_changes};

use crate::checks::{directory, parent_path, target};
use crate::edits::{make_folder, take_folder};
use std::alloc::Global;
use wtf_base::{Bytes, OutOfMemory};
use wtf_kv::Kv;
use wtf_model::{Answer, Names, Op, Word};
use wtf_occ::Attempt;
use wtf_path::Path;
use wtf_values::{Key, NameSet, Value};

/// Makes an empty directory at `p`. It is refused for the root, where the parent is no directory, and where
/// something stands at `p`; then nothing changes. Want of memory may leave the attempt grown.
pub fn mkdir(
    alloc: Global,
    kv: &Kv<Key, Value>,
    at: &mut Attempt<Key, Value>,
    p: &Path,
) -> Result<Answer, OutOfMemory>
    requires { IsTrue (is_pinned kv.now at.old.base) }
    ensures went { OnOk result (GrowsBy at.old at.new (target_keys (seen kv.now at.old) p.now)
        (mkdir_changes (seen kv.now at.old) p.now)) }
    ensures step { IfOk result (λ a. (x : Caller) →
        IsNameStep x (seen kv.now at.old) at.old at.new (Op.Mkdir p.now) a) }
    ensures logged { IfOk result (λ a. IsLogged a) }
    ensures grows { Grows at.old at.new }
{
    let dir = match target(alloc, kv, at, p)? {
        Ok(dir) => dir,
        Err(word) => return Ok(Answer::Refused(word)),
    };
    make_folder(alloc, at, &dir, p)?;
    Ok(Answer::Okay)
}

/// Takes out the directory `p`. It is refused for the root, for what is not there or no directory, and for
/// a directory with entries; then nothing changes. Want of memory may leave the attempt grown.
pub fn rmdir(
    alloc: Global,
    kv: &Kv<Key, Value>,
    at: &mut Attempt<Key, Value>,
    p: &Path,
) -> Result<Answer, OutOfMemory>
    requires { IsTrue (is_pinned kv.now at.old.base) }
    ensures went { OnOk result (GrowsBy at.old at.new (rmdir_keys (seen kv.now at.old) p.now)
        (rmdir_changes (seen kv.now at.old) p.now)) }
    ensures step { IfOk result (λ a. (x : Caller) →
        IsNameStep x (seen kv.now at.old) at.old at.new (Op.Rmdir p.now) a) }
    ensures logged { IfOk result (λ a. IsLogged a) }
    ensures grows { Grows at.old at.new }
{
    let Some(dir) = parent_path(alloc, p)? else {
        return Ok(Answer::Refused(Word::Root));
    };
    let names = match directory(alloc, kv, at, p)? {
        Ok(names) => names,
        Err(word) => return Ok(Answer::Refused(word)),
    };
    if names.count() > 0 {
        return Ok(Answer::Refused(Word::NotEmpty));
    }
    take_folder(alloc, at, &dir, p)?;
    Ok(Answer::Okay)
}

/// The names in the directory `p`, in the order of their bytes. It is refused for what is not there or no
/// directory. Nothing changes. Want of memory may leave the attempt grown.
pub fn list(
    alloc: Global,
    kv: &Kv<Key, Value>,
    at: &mut Attempt<Key, Value>,
    p: &Path,
) -> Result<Answer, OutOfMemory>
    requires { IsTrue (is_pinned kv.now at.old.base) }
    ensures went { OnOk result
        (GrowsBy at.old at.new (directory_keys (seen kv.now at.old) p.now) []) }
    ensures step { IfOk result (λ a. (x : Caller) →
        IsNameStep x (seen kv.now at.old) at.old at.new (Op.List p.now) a) }
    ensures logged { IfOk result (λ a. IsLogged a) }
    ensures grows { Grows at.old at.new }
{
    let names = match directory(alloc, kv, at, p)? {
        Ok(names) => names,
        Err(word) => return Ok(Answer::Refused(word)),
    };
    let shown = shown_names(alloc, &names)?;
    Ok(Answer::Names(shown))
}

/// The names of a set, as an answer has them.
fn shown_names(alloc: Global, names: &NameSet) -> Result<Names, OutOfMemory>
    ensures { IfOk result (λ shown. shown ≡ names_in names.now) }
{
    let mut shown = Vec::with_capacity(alloc, names.count())?;
    for i in 0..names.count() {
        let name = Vec::from_slice(alloc, names.name(i))?;
        shown.push(Bytes::of(name))?;
    }
    Ok(Names::of(shown))
}
