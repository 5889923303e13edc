//! Stores in memory, some of whose calls fail, and places on rings.

ghost use Rattle.std.specs.Prelude.{◌≡◌, length, IfSome};

use std::alloc::Global;
use wtf_base::{InodeId, OutOfMemory, TxId};
use wtf_dev::{MemStore, Shelf};
use wtf_ring::{Place, Ring};

/// A store whose calls with these numbers fail.
pub(crate) fn store(alloc: Global, fails: &[u64]) -> Result<MemStore, OutOfMemory> {
    Ok(MemStore::new(alloc, Vec::from_slice(alloc, fails)?))
}

/// Puts a store for each of these calls behind others, of which the call with that number fails, if any.
fn put_stores(
    stores: &mut Vec<MemStore>,
    alloc: Global,
    fails: &[Option<u64>],
) -> Result<(), OutOfMemory> {
    for number in fails {
        stores.push(store(alloc, number.as_slice())?)?;
    }
    Ok(())
}

/// A store for each server, of which the call with this number fails, if any.
pub(crate) fn shelf(alloc: Global, fails: &[Option<u64>]) -> Option<Shelf<MemStore>>
    ensures { IfSome result (λ shelf. length shelf ≡ length fails.now) }
{
    let mut stores = Vec::new(alloc);
    if put_stores(&mut stores, alloc, fails).is_err()
        || stores.is_empty()
        || stores.len() > 16
        || stores.len() != fails.len()
    {
        return None;
    }
    Some(Shelf::new(alloc, stores))
}

/// The place, on a ring of so many servers, of a region of the file that a call of a transaction made.
pub(crate) fn place(
    alloc: Global,
    servers: u8,
    (tx, index, region): (u64, u32, u16),
) -> Option<Place> {
    if servers < 1 || servers > 16 {
        return None;
    }
    let inode = InodeId {
        tx: TxId(tx),
        index,
    };
    Some(Ring::new(alloc, servers).ok()?.order(inode, region))
}
