//! Disks in memory, and journaled runs over them.

use std::alloc::Global;
use std::test::Fail;
use wtf_base::OutOfMemory;
use wtf_dev::{Disk, MemDisk, MemSink, MemSource, Shelf, SliceStore};
use wtf_journal::Synced;
use wtf_journaled::wtf_journaled;

/// The disks of a run: those of its stores, and that of its journal.
#[derive(Drop)]
pub(crate) struct Disks {
    pub(crate) shelf: Shelf<Synced<MemDisk>>,
    pub(crate) journal: MemDisk,
}

/// A disk of a run.
#[derive(Clone, Copy, PartialEq, Eq)]
pub(crate) enum Device {
    Journal,
    /// The store of this server.
    Store(u8),
}

/// All calls of a disk fail, from this one on.
#[derive(Clone, Copy)]
pub(crate) struct Fuse {
    pub(crate) device: Device,
    pub(crate) call: u64,
}

/// No call fails.
pub(crate) const NONE: Fuse = Fuse {
    device: Device::Journal,
    call: u64::MAX,
};

impl Fuse {
    /// An empty disk, which fails where this says so.
    fn disk(&self, alloc: Global, device: Device) -> Result<MemDisk, OutOfMemory> {
        let fuse = if device == self.device {
            self.call
        } else {
            u64::MAX
        };
        MemDisk::new(alloc, Vec::new(alloc), fuse)
    }
}

/// What a run came to: its status and its output.
#[derive(Drop)]
pub(crate) struct Ended {
    pub(crate) status: u8,
    pub(crate) output: Vec<u8>,
}

/// The shelf of 1 to 16 stores.
fn shelf_of(alloc: Global, stores: Vec<Synced<MemDisk>>) -> Result<Shelf<Synced<MemDisk>>, Fail> {
    if stores.len() < 1 || stores.len() > 16 {
        return Err(Fail::from("stores"));
    }
    Ok(Shelf::new(alloc, stores))
}

/// So many empty stores, and an empty journal.
pub(crate) fn fresh(alloc: Global, servers: u8, fuse: Fuse) -> Result<Disks, Fail> {
    let mut stores = Vec::new(alloc);
    for k in 0..servers {
        stores.push(Synced::new(fuse.disk(alloc, Device::Store(k))?))?;
    }
    Ok(Disks {
        shelf: shelf_of(alloc, stores)?,
        journal: fuse.disk(alloc, Device::Journal)?,
    })
}

/// What a stop leaves of a disk, by choice of 0 to 2.
fn left(alloc: Global, disk: &MemDisk, pick: u8) -> Result<MemDisk, Fail> {
    if pick > 2 {
        return Err(Fail::from("pick"));
    }
    Ok(disk.stopped(alloc, pick)?)
}

/// What it leaves of the disk of a server.
fn left_of(
    alloc: Global,
    shelf: &mut Shelf<Synced<MemDisk>>,
    k: u8,
    pick: u8,
) -> Result<MemDisk, Fail> {
    if k >= shelf.len() {
        return Err(Fail::from("server"));
    }
    left(alloc, shelf.store(k).disk(), pick)
}

/// What it leaves of all disks. Then no call fails.
pub(crate) fn stopped(alloc: Global, disks: &mut Disks, pick: u8) -> Result<Disks, Fail> {
    let mut stores = Vec::new(alloc);
    for k in 0..disks.shelf.len() {
        let disk = left_of(alloc, &mut disks.shelf, k, pick)?;
        stores.push(Synced::new(disk))?;
    }
    Ok(Disks {
        shelf: shelf_of(alloc, stores)?,
        journal: left(alloc, &disks.journal, pick)?,
    })
}

/// Whether a store answers one more call.
fn answers(shelf: &mut Shelf<Synced<MemDisk>>, k: u8) -> bool {
    k < shelf.len() && shelf.store(k).read(0, 0, &mut []).is_ok()
}

/// Whether a disk answers one more call: then none failed before.
pub(crate) fn is_whole(disks: &mut Disks, device: Device) -> bool {
    match device {
        Device::Journal => disks.journal.read(0, 0, &mut []).is_ok(),
        Device::Store(k) => answers(&mut disks.shelf, k),
    }
}

/// Writes bytes at the beginning of the journal.
pub(crate) fn overwrite(disks: &mut Disks, bytes: &[u8]) -> Result<(), Fail> {
    if disks.journal.write(0, 0, bytes).is_err() || disks.journal.sync(0).is_err() {
        return Err(Fail::from("write"));
    }
    Ok(())
}

/// The bytes of the journal.
pub(crate) fn journal(alloc: Global, disks: &mut Disks) -> Result<Vec<u8>, Fail> {
    let mut bytes = vec![in alloc; 0; disks.journal.length(0) as usize]?;
    if disks.journal.read(0, 0, &mut bytes).is_err() {
        return Err(Fail::from("read"));
    }
    Ok(bytes)
}

/// The words of a line, which stand apart by single spaces.
fn words_of(alloc: Global, line: &str) -> Result<Vec<String>, Fail> {
    let mut words = Vec::new(alloc);
    for word in line.split(' ').filter(|word| !word.is_empty()) {
        words.push(word.to_string(alloc)?)?;
    }
    Ok(words)
}

/// The status of a run.
fn status_of(
    alloc: Global,
    words: &[String],
    script: &mut MemSource,
    out: &mut MemSink,
    disks: &mut Disks,
) -> u8 {
    wtf_journaled(
        alloc,
        words,
        script,
        out,
        &mut disks.shelf,
        &mut disks.journal,
    )
}

/// A run of a script over these disks.
pub(crate) fn run_with(
    alloc: Global,
    words: &str,
    script: &[u8],
    disks: &mut Disks,
) -> Result<Ended, Fail> {
    let words = words_of(alloc, words)?;
    let mut script = MemSource::new(alloc, script.to_vec(alloc)?, Vec::new(alloc));
    let mut out = MemSink::new(alloc, Vec::new(alloc));
    let status = status_of(alloc, words.as_slice(), &mut script, &mut out, disks);
    Ok(Ended {
        status,
        output: out.taken().to_vec(alloc)?,
    })
}

/// The same, which uses all stores.
pub(crate) fn run(alloc: Global, script: &[u8], disks: &mut Disks) -> Result<Ended, Fail> {
    let words = format!(in alloc; "--servers {}", disks.shelf.len())?;
    run_with(alloc, words.as_str(), script, disks)
}
