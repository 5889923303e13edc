//! The stores and the keeper of a run: in memory, or in a folder.

ghost use Rattle.std.specs.Prelude.{◌≡◌, replicate, IfOk};
ghost use Rattle.wtf_heal.specs.Program.{empty_store, empty_keeper, folders, folders_of};

use std::alloc::Global;
use std::fs::File;
use wtf_base::OutOfMemory;
use wtf_dev::{MemKeeper, MemStore, Shelf};
use wtf_real::{DirStore, FileKeeper, FolderLock, OpenFault};

/// How many stores there are.
const STORES: u8 = 16;

/// The stores and the keeper of a run.
#[derive(Drop)]
pub(crate) struct Opened<S, K> {
    pub(crate) shelf: Shelf<S>,
    pub(crate) keeper: K,
}

/// Stores and a keeper in memory.
pub(crate) fn in_memory(alloc: Global) -> Result<Opened<MemStore, MemKeeper>, OpenFault>
    ensures shelf { IfOk result (λ opened. opened.shelf ≡ replicate 16 empty_store) }
    ensures keeper { IfOk result (λ opened. opened.keeper ≡ empty_keeper) }
{
    let Ok(stores) = empty_stores(alloc) else {
        return Err(OpenFault::Memory);
    };
    Ok(Opened {
        shelf: Shelf::new(alloc, stores),
        keeper: MemKeeper::new(alloc, Vec::new(alloc), Vec::new(alloc)),
    })
}

/// The stores and the image in a folder that is held: store K is that of server K.
pub(crate) fn in_folder(
    rt: &HostRuntime,
    lock: &FolderLock<File>,
) -> Result<Opened<DirStore<File>, FileKeeper<HostRuntime>>, OpenFault>
    ensures { IfOk result (λ opened. folders opened.shelf ≡ folders_of lock.now.dir 16) }
{
    let stores = open_stores(rt, lock)?;
    let keeper = FileKeeper::open(rt, lock)?;
    Ok(Opened {
        shelf: Shelf::new(rt.alloc(), stores),
        keeper,
    })
}

/// Empty stores, which fail only for want of memory.
fn empty_stores(alloc: Global) -> Result<Vec<MemStore>, OutOfMemory>
    ensures { IfOk result (λ stores. stores.items ≡ replicate 16 empty_store) }
{
    let mut stores = Vec::new(alloc);
    for _ in 0..STORES {
        stores.push(MemStore::new(alloc, Vec::new(alloc)))?;
    }
    Ok(stores)
}

/// The stores of all servers in a folder that is held, in order.
fn open_stores(rt: &HostRuntime, lock: &FolderLock<File>) -> Result<Vec<DirStore<File>>, OpenFault>
    ensures { IfOk result (λ stores. folders stores.items ≡ folders_of lock.now.dir 16) }
{
    let mut stores = Vec::new(rt.alloc());
    for k in 0..STORES {
        let store = DirStore::open(rt, lock, k)?;
        let Ok(()) = stores.push(store) else {
            return Err(OpenFault::Memory);
        };
    }
    Ok(stores)
}
