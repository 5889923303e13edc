//! What a call needs of the paths that it names, or why it is refused. Refusals are tried in their order,
//! and only the keys that are looked at are recorded.

ghost use Rattle.std.specs.Prelude.{◌≡◌, [], IsTrue, IfOk, OnOk, IfErr, true};
ghost use Rattle.wtf_path.specs.Grammar.{IsPath};
ghost use Rattle.wtf_path.specs.Parts.{parent_of};
ghost use Rattle.wtf_kv.specs.Stores.{is_pinned};
ghost use Rattle.wtf_occ.specs.Attempts.{Grows, GrowsBy};
ghost use Rattle.wtf_meta.specs.Maps.{seen};
ghost use Rattle.wtf_model.specs.Steps.{is_call_refusal};
ghost use Rattle.wtf_index.specs.Checks.{target_of, source_of, directory_of};
ghost use Rattle.wtf_index.specs.Recorded.{target_keys, source_keys, directory_keys};

use crate::looks::{look_up, names_at};
use std::alloc::Global;
use wtf_base::{InodeId, OutOfMemory};
use wtf_kv::Kv;
use wtf_model::Word;
use wtf_occ::Attempt;
use wtf_path::Path;
use wtf_values::{Key, NameSet, Node, Value};

/// The path of the directory that a path stands in; none for the root.
pub fn parent_path(alloc: Global, p: &Path) -> Result<Option<Path>, OutOfMemory>
    ensures value { IfOk result (λ dir. dir ≡ parent_of p.now) }
    ensures path { IsPath p.now }
{
    let _text = p.as_bytes();
    let Some(dir) = p.parent() else {
        return Ok(None);
    };
    match Path::parse(alloc, dir) {
        Ok(dir) => Ok(Some(dir)),
        Err(_) => Err(OutOfMemory),
    }
}

/// The directory in which a new path comes to stand, or why it may not come.
pub fn target(
    alloc: Global,
    kv: &Kv<Key, Value>,
    at: &mut Attempt<Key, Value>,
    p: &Path,
) -> Result<Result<Path, Word>, OutOfMemory>
    requires { IsTrue (is_pinned kv.now at.old.base) }
    ensures value { IfOk result (λ r. r ≡ target_of (seen kv.now at.old) p.now) }
    ensures refusal { IfOk result (λ r. IfErr r (λ w. is_call_refusal w ≡ true)) }
    ensures went { OnOk result
        (GrowsBy at.old at.new (target_keys (seen kv.now at.old) p.now) []) }
    ensures path { IsPath p.now }
    ensures grows { Grows at.old at.new }
{
    let Some(dir) = parent_path(alloc, p)? else {
        return Ok(Err(Word::Exists));
    };
    let Some(Node::Folder) = look_up(alloc, kv, at, &dir)? else {
        return Ok(Err(Word::NoParent));
    };
    let None = look_up(alloc, kv, at, p)? else {
        return Ok(Err(Word::Exists));
    };
    Ok(Ok(dir))
}

/// The inode of a file, or why a path is none.
pub fn source(
    alloc: Global,
    kv: &Kv<Key, Value>,
    at: &mut Attempt<Key, Value>,
    p: &Path,
) -> Result<Result<InodeId, Word>, OutOfMemory>
    requires { IsTrue (is_pinned kv.now at.old.base) }
    ensures value { IfOk result (λ r. r ≡ source_of (seen kv.now at.old) p.now) }
    ensures refusal { IfOk result (λ r. IfErr r (λ w. is_call_refusal w ≡ true)) }
    ensures went { OnOk result (GrowsBy at.old at.new (source_keys p.now) []) }
    ensures grows { Grows at.old at.new }
{
    match look_up(alloc, kv, at, p)? {
        Some(Node::File(inode)) => Ok(Ok(inode)),
        Some(Node::Folder) => Ok(Err(Word::IsDir)),
        None => Ok(Err(Word::NoEnt)),
    }
}

/// The names of a directory, or why a path is none.
pub fn directory(
    alloc: Global,
    kv: &Kv<Key, Value>,
    at: &mut Attempt<Key, Value>,
    p: &Path,
) -> Result<Result<NameSet, Word>, OutOfMemory>
    requires { IsTrue (is_pinned kv.now at.old.base) }
    ensures value { IfOk result (λ r. r ≡ directory_of (seen kv.now at.old) p.now) }
    ensures refusal { IfOk result (λ r. IfErr r (λ w. is_call_refusal w ≡ true)) }
    ensures went { OnOk result
        (GrowsBy at.old at.new (directory_keys (seen kv.now at.old) p.now) []) }
    ensures grows { Grows at.old at.new }
{
    match look_up(alloc, kv, at, p)? {
        Some(Node::Folder) => {
            let names = names_at(alloc, kv, at, p)?;
            return Ok(Ok(names));
        }
        Some(Node::File(_)) => return Ok(Err(Word::NotDir)),
        None => return Ok(Err(Word::NoEnt)),
    }
}
