//! What an attempt sees of a path. Each look at a key records it.

ghost use Rattle.std.specs.Prelude.{◌≡◌, [], ◌∷◌, IsTrue, IfOk, OnOk};
ghost use Rattle.wtf_kv.specs.Stores.{is_pinned};
ghost use Rattle.wtf_occ.specs.Attempts.{Grows, GrowsBy};
ghost use Rattle.wtf_meta.specs.Maps.{seen};
ghost use Rattle.wtf_meta.specs.NameEdits.{link_count};
ghost use Rattle.wtf_index.specs.Checks.{stands_at, names_of_dir};

use std::alloc::Global;
use wtf_base::{InodeId, OutOfMemory};
use wtf_kv::Kv;
use wtf_occ::Attempt;
use wtf_path::Path;
use wtf_values::{Key, NameSet, Node, Value};

/// What stands at a path, if anything. The path is recorded, and no other key. Want of memory may leave
/// the attempt grown.
pub fn look_up(
    alloc: Global,
    kv: &Kv<Key, Value>,
    at: &mut Attempt<Key, Value>,
    p: &Path,
) -> Result<Option<Node>, OutOfMemory>
    requires { IsTrue (is_pinned kv.now at.old.base) }
    ensures value { IfOk result (λ node. node ≡ stands_at (seen kv.now at.old) p.now) }
    ensures went { OnOk result (GrowsBy at.old at.new (Key.Path p.now ∷ []) []) }
    ensures grows { Grows at.old at.new }
{
    let path = Key::Path(p.copy(alloc)?);
    match at.read(kv, &path)? {
        Some(Value::Node(node)) => Ok(Some(node)),
        Some(Value::Names(_)) => Ok(None),
        Some(Value::Last(_)) => Ok(None),
        Some(Value::Region(_)) => Ok(None),
        Some(Value::Count(_)) => Ok(None),
        None => Ok(None),
    }
}

/// The names in a directory; none where the map tells none. The directory is recorded.
pub fn names_at(
    alloc: Global,
    kv: &Kv<Key, Value>,
    at: &mut Attempt<Key, Value>,
    p: &Path,
) -> Result<NameSet, OutOfMemory>
    requires { IsTrue (is_pinned kv.now at.old.base) }
    ensures value { IfOk result (λ names. names ≡ names_of_dir (seen kv.now at.old) p.now) }
    ensures went { OnOk result (GrowsBy at.old at.new (Key.Dir p.now ∷ []) []) }
    ensures grows { Grows at.old at.new }
{
    let dir = Key::Dir(p.copy(alloc)?);
    match at.read(kv, &dir)? {
        Some(Value::Names(names)) => Ok(names),
        Some(Value::Node(_)) => Ok(NameSet::new(alloc)),
        Some(Value::Last(_)) => Ok(NameSet::new(alloc)),
        Some(Value::Region(_)) => Ok(NameSet::new(alloc)),
        Some(Value::Count(_)) => Ok(NameSet::new(alloc)),
        None => Ok(NameSet::new(alloc)),
    }
}

/// How many paths the file of an inode has. The key of their number is recorded.
pub fn links_at(
    kv: &Kv<Key, Value>,
    at: &mut Attempt<Key, Value>,
    inode: InodeId,
) -> Result<u64, OutOfMemory>
    requires { IsTrue (is_pinned kv.now at.old.base) }
    ensures value { IfOk result (λ n. n ≡ link_count (seen kv.now at.old (Key.Links inode))) }
    ensures went { OnOk result (GrowsBy at.old at.new (Key.Links inode ∷ []) []) }
    ensures grows { Grows at.old at.new }
{
    let links = Key::Links(inode);
    match at.read(kv, &links)? {
        Some(Value::Count(n)) => Ok(n),
        Some(Value::Node(_)) => Ok(1),
        Some(Value::Names(_)) => Ok(1),
        Some(Value::Last(_)) => Ok(1),
        Some(Value::Region(_)) => Ok(1),
        None => Ok(1),
    }
}
