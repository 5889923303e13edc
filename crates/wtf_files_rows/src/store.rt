//! What calls are lent: two servers with two copies of a slice, and regions of 64 bytes.

ghost use Rattle.std.specs.Prelude.{◌≡◌, [], ◌∷◌, ◌+◌, length, IfOk, OnOk};
ghost use Rattle.wtf_dev.specs.Memory.{mem_store};
ghost use Rattle.wtf_kv.specs.Stores.{Store};
ghost use Rattle.wtf_meta.specs.Bytes.{SliceBytes};
ghost use Rattle.wtf_meta.specs.Maps.{seen};
ghost use Rattle.wtf_region.specs.Devs.{IsSoundDev, GoesOn, stores, inside_of};
ghost use Rattle.wtf_replica.specs.Copies.{IsInside};
ghost use Rattle.wtf_replica.specs.Downs.{settings_of};
ghost use Rattle.wtf_files_rows.specs.Benches.{IsBareMap};

use std::alloc::Global;
use std::test::Fail;
use wtf_base::{InodeId, Settings, Slice, TxId};
use wtf_dev::{MemStore, Shelf};
use wtf_kv::Kv;
use wtf_occ::Attempt;
use wtf_path::Path;
use wtf_region::{Dev, RegionCache, store_bytes};
use wtf_replica::Replicas;
use wtf_ring::Ring;
use wtf_values::{Delta, Key, NameSet, Node, Value};

/// A number that no call of a store reaches.
pub(crate) const NEVER: u64 = u64::MAX;

/// The file `/a`.
pub(crate) const FILE: InodeId = InodeId {
    tx: TxId(1),
    index: 1,
};

/// What a `Dev` is made of.
#[derive(Drop)]
pub(crate) struct Parts {
    pub(crate) shelf: Shelf<MemStore>,
    pub(crate) replicas: Replicas,
    pub(crate) ring: Ring,
    pub(crate) cache: RegionCache,
    pub(crate) settings: Settings,
}

pub(crate) fn settings() -> Result<Settings, Fail>
    ensures { IfOk result (λ s. s.servers ≡ 2) }
{
    let settings = Settings::new(2, 2, 64).ok_or("settings")?;
    Ok(settings)
}

/// Adds a store that fails in the call with this number.
fn add_store(alloc: Global, stores: &mut Vec<MemStore>, fails: u64) -> Result<(), Fail>
    ensures { OnOk result (length stores.new.items ≡ length stores.old.items + 1) }
{
    let calls = vec![in alloc; fails]?;
    stores.push(MemStore::new(alloc, calls))?;
    Ok(())
}

/// The stores of two servers, of which each fails in the call with this number.
fn two_stores(alloc: Global, fails: u64) -> Result<Shelf<MemStore>, Fail>
    ensures { IfOk result (λ shelf. length shelf ≡ 2) }
{
    let mut stores = Vec::new(alloc);
    add_store(alloc, &mut stores, fails)?;
    add_store(alloc, &mut stores, fails)?;
    Ok(Shelf::new(alloc, stores))
}

/// Two servers, of which the second is down where only one is to be up.
fn servers(settings: Settings, up: u8) -> Replicas
    requires { settings.servers ≡ 2 }
    ensures { settings_of result ≡ settings }
{
    let mut replicas = Replicas::new(settings);
    if up < 2 {
        replicas.down(1);
        return replicas;
    }
    replicas
}

/// The parts, with each store failing in the call `fails`, and the servers from `up` on down.
pub(crate) fn made_parts(alloc: Global, fails: u64, up: u8) -> Result<Parts, Fail>
    ensures settings { IfOk result (λ p. p.settings.servers ≡ 2) }
    ensures replicas { IfOk result (λ p. settings_of p.replicas ≡ p.settings) }
    ensures ring { IfOk result (λ p. p.ring.servers ≡ p.settings.servers) }
    ensures shelf { IfOk result (λ p. length p.shelf ≡ 2) }
    ensures places { IfOk result (λ p. p.cache.places ≡ []) }
    ensures lists { IfOk result (λ p. p.cache.lists ≡ []) }
{
    let settings = settings()?;
    let shelf = two_stores(alloc, fails)?;
    let ring = Ring::new(alloc, settings.servers)?;
    let cache = RegionCache::new(alloc)?;
    let replicas = servers(settings, up);
    Ok(Parts {
        shelf,
        replicas,
        ring,
        cache,
        settings,
    })
}

/// Stores bytes that are to stand at an offset of the file.
pub(crate) fn stored(dev: &mut Dev<'_, MemStore>, off: u64, bytes: &[u8]) -> Result<Slice, Fail>
    requires { IsSoundDev mem_store dev.old }
    ensures dev { OnOk result (GoesOn mem_store dev.old dev.new []) }
    ensures inside { IfOk result (IsInside mem_store (stores dev.new)) }
    ensures bytes { IfOk result (SliceBytes (inside_of mem_store dev.new)) }
{
    if off >= dev.settings.cap() || bytes.is_empty() || bytes.len() > 1000 {
        return Err(Fail::from("an offset past the greatest length, or too few bytes"));
    }
    let slice = store_bytes(dev, FILE, off, bytes)?;
    Ok(slice)
}

pub(crate) fn path(alloc: Global, text: &str) -> Result<Path, Fail> {
    Ok(Path::parse(alloc, text.as_bytes())?)
}

/// Makes the root, the directory `/d` and the file `/a`.
fn tree_made(alloc: Global, at: &mut Attempt<Key, Value>) -> Result<(), Fail>
    ensures { OnOk result
        ((kv : Store Key Value) → IsBareMap (seen kv at.old) → IsBareMap (seen kv at.new)) }
{
    let root = path(alloc, "/")?;
    at.delta(Key::Path(root), Delta::Put(Value::Node(Node::Folder)))?;
    let root = path(alloc, "/")?;
    let names = NameSet::new(alloc);
    at.delta(Key::Dir(root), Delta::Put(Value::Names(names)))?;
    let file = path(alloc, "/a")?;
    at.delta(Key::Path(file), Delta::Put(Value::Node(Node::File(FILE))))?;
    at.delta(Key::Inode(FILE), Delta::Put(Value::Last(0)))?;
    let dir = path(alloc, "/d")?;
    at.delta(Key::Path(dir), Delta::Put(Value::Node(Node::Folder)))?;
    Ok(())
}

/// A store with nothing in it, whose number 0 is pinned.
pub(crate) fn pinned(alloc: Global) -> Result<Kv<Key, Value>, Fail>
    ensures { IfOk result (λ kv. kv ≡ record { number = 0; pins = 0 ∷ []; cells = [] }) }
{
    let mut kv: Kv<Key, Value> = Kv::new(alloc)?;
    kv.pin(0)?;
    Ok(kv)
}

/// An attempt that has made the root, the directory `/d` and the file `/a`.
pub(crate) fn begun(alloc: Global) -> Result<(Kv<Key, Value>, Attempt<Key, Value>), Fail>
    ensures bare { IfOk result (λ r. IsBareMap (seen r.0 r.1)) }
{
    let mut at: Attempt<Key, Value> = Attempt::new(alloc, 0)?;
    tree_made(alloc, &mut at)?;
    let kv = pinned(alloc)?;
    Ok((kv, at))
}
