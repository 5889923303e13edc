//! The stores of a run, and its keeper or the disk of its journal: in memory, or in a folder.

ghost use Rattle.std.specs.Prelude.{◌≡◌, ◌++◌, codes, replicate, IfOk};
ghost use Rattle.wtf_real.specs.Folders.{folder_of};
ghost use Rattle.wtf_cli.specs.Program.{disk_folders, empty_disk, empty_keeper, empty_store, folders, folders_of, unsynced};

use std::alloc::Global;
use std::fs::File;
use wtf_base::OutOfMemory;
use wtf_dev::{MemDisk, MemKeeper, MemStore, Shelf};
use wtf_journal::Synced;
use wtf_real::{DirDisk, DirStore, FileKeeper, FolderLock, OpenFault, StandIns};

/// How many stores there are.
const STORES: u8 = 16;

/// The stores and the keeper of a run.
#[derive(Drop)]
pub(crate) struct Opened<S, K> {
    pub(crate) shelf: Shelf<S>,
    pub(crate) keeper: K,
}

/// The stores of a run, each over a disk, and the disk of its journal.
#[derive(Drop)]
pub(crate) struct Journaled<S, D> {
    pub(crate) shelf: Shelf<Synced<S>>,
    pub(crate) disk: D,
}

/// Stores and a keeper in memory.
pub(crate) fn in_memory(alloc: Global) -> Result<Opened<MemStore, MemKeeper>, OpenFault>
    ensures shelf { IfOk result (λ opened. opened.shelf ≡ replicate 16 empty_store) }
    ensures keeper { IfOk result (λ opened. opened.keeper ≡ empty_keeper) }
{
    let Ok(stores) = empty_stores(alloc) else {
        return Err(OpenFault::Memory);
    };
    Ok(Opened {
        shelf: Shelf::new(alloc, stores),
        keeper: MemKeeper::new(alloc, Vec::new(alloc), Vec::new(alloc)),
    })
}

/// The stores and the image in a folder that is held: store K is that of server K.
fn in_folder(
    rt: &HostRuntime,
    lock: &FolderLock<File>,
) -> Result<Opened<DirStore<File>, FileKeeper<HostRuntime>>, OpenFault>
    ensures { IfOk result (λ opened. folders opened.shelf ≡ folders_of lock.now.dir 16) }
{
    let stores = open_stores(rt, lock)?;
    let keeper = FileKeeper::open(rt, lock)?;
    Ok(Opened {
        shelf: Shelf::new(rt.alloc(), stores),
        keeper,
    })
}

/// The same in the folder that a word names, with the lock by which that folder is held.
pub(crate) fn opened_at(
    rt: &HostRuntime,
    standing: &StandIns<File>,
    dir: &str,
) -> Result<
    (
        Opened<DirStore<File>, FileKeeper<HostRuntime>>,
        FolderLock<File>,
    ),
    OpenFault,
>
    ensures shelf { IfOk result (λ held. folders held.0.shelf ≡ folders_of dir.now 16) }
    ensures lock { IfOk result (λ held. held.1.dir ≡ dir.now) }
{
    let lock = FolderLock::open(rt, standing, dir)?;
    let opened = in_folder(rt, &lock)?;
    Ok((opened, lock))
}

/// Empty stores, which fail only for want of memory.
fn empty_stores(alloc: Global) -> Result<Vec<MemStore>, OutOfMemory>
    ensures { IfOk result (λ stores. stores.items ≡ replicate 16 empty_store) }
{
    let mut stores = Vec::new(alloc);
    for _ in 0..STORES {
        stores.push(MemStore::new(alloc, Vec::new(alloc)))?;
    }
    Ok(stores)
}

/// The stores of all servers in a folder that is held, in order.
fn open_stores(rt: &HostRuntime, lock: &FolderLock<File>) -> Result<Vec<DirStore<File>>, OpenFault>
    ensures { IfOk result (λ stores. folders stores.items ≡ folders_of lock.now.dir 16) }
{
    let mut stores = Vec::new(rt.alloc());
    for k in 0..STORES {
        let store = DirStore::open(rt, lock, k)?;
        let Ok(()) = stores.push(store) else {
            return Err(OpenFault::Memory);
        };
    }
    Ok(stores)
}

/// Stores over disks in memory, and the disk of a journal there.
pub(crate) fn journaled_in_memory(alloc: Global) -> Result<Journaled<MemDisk, MemDisk>, OpenFault>
    ensures shelf { IfOk result (λ opened. opened.shelf ≡ replicate 16 (unsynced empty_disk)) }
    ensures disk { IfOk result (λ opened. opened.disk ≡ empty_disk) }
{
    let Ok(stores) = empty_disks(alloc) else {
        return Err(OpenFault::Memory);
    };
    let Ok(disk) = MemDisk::new(alloc, Vec::new(alloc), u64::MAX) else {
        return Err(OpenFault::Memory);
    };
    Ok(Journaled {
        shelf: Shelf::new(alloc, stores),
        disk,
    })
}

/// Stores over the disks in a folder that is held, and the disk of the journal there: the store of server K is over the disk in `sK`, and
/// that of the journal is in `journal`.
fn journaled_in_folder(
    rt: &HostRuntime,
    lock: &FolderLock<File>,
) -> Result<Journaled<DirDisk<File>, DirDisk<File>>, OpenFault>
    ensures shelf { IfOk result (λ opened. disk_folders opened.shelf ≡ folders_of lock.now.dir 16) }
    ensures disk { IfOk result (λ opened. opened.disk.folder ≡ lock.now.dir ++ codes "/journal") }
{
    let stores = open_disks(rt, lock)?;
    let disk = DirDisk::open(rt, lock, "journal")?;
    Ok(Journaled {
        shelf: Shelf::new(rt.alloc(), stores),
        disk,
    })
}

/// The same in the folder that a word names, with the lock by which that folder is held.
pub(crate) fn journaled_at(
    rt: &HostRuntime,
    standing: &StandIns<File>,
    dir: &str,
) -> Result<(Journaled<DirDisk<File>, DirDisk<File>>, FolderLock<File>), OpenFault>
    ensures shelf { IfOk result (λ held. disk_folders held.0.shelf ≡ folders_of dir.now 16) }
    ensures disk { IfOk result (λ held. held.0.disk.folder ≡ dir.now ++ codes "/journal") }
    ensures lock { IfOk result (λ held. held.1.dir ≡ dir.now) }
{
    let lock = FolderLock::open(rt, standing, dir)?;
    let opened = journaled_in_folder(rt, &lock)?;
    Ok((opened, lock))
}

/// Stores over empty disks, which fail only for want of memory.
fn empty_disks(alloc: Global) -> Result<Vec<Synced<MemDisk>>, OutOfMemory>
    ensures { IfOk result (λ stores. stores.items ≡ replicate 16 (unsynced empty_disk)) }
{
    let mut stores = Vec::new(alloc);
    for _ in 0..STORES {
        let disk = MemDisk::new(alloc, Vec::new(alloc), u64::MAX)?;
        stores.push(Synced::new(disk))?;
    }
    Ok(stores)
}

/// The stores of all servers in a folder that is held, each over its disk, in order.
fn open_disks(
    rt: &HostRuntime,
    lock: &FolderLock<File>,
) -> Result<Vec<Synced<DirDisk<File>>>, OpenFault>
    ensures { IfOk result (λ stores. disk_folders stores.items ≡ folders_of lock.now.dir 16) }
{
    let mut stores = Vec::new(rt.alloc());
    for k in 0..STORES {
        let store = open_disk(rt, lock, k)?;
        let Ok(()) = stores.push(store) else {
            return Err(OpenFault::Memory);
        };
    }
    Ok(stores)
}

/// The store of a server in a folder that is held, over its disk.
fn open_disk(
    rt: &HostRuntime,
    lock: &FolderLock<File>,
    k: u8,
) -> Result<Synced<DirDisk<File>>, OpenFault>
    ensures { IfOk result (λ store. store.disk.folder ≡ folder_of lock.now.dir k) }
{
    let Ok(folder) = format!(in rt.alloc(); "s{k}") else {
        return Err(OpenFault::Memory);
    };
    let disk = DirDisk::open(rt, lock, folder.as_str())?;
    Ok(Synced::new(disk))
}
