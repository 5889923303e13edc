//! What it costs to tell the changes of a commit of one file, by the number of files.

use crate::figures::{Laps, ROUNDS, key_at, keys_of, least, memory, show};
use std::alloc::Global;
use std::io;
use wtf_base::{InodeId, OutOfMemory, TxId};
use wtf_changes::changes;
use wtf_kv::{Changes, Kv};
use wtf_values::{Delta, Key, Value};

/// A round makes this many commits, each of another file, and tells the changes of each.
const COMMITS: u64 = 100;

const HEAD: &str = "  files  install         changes         mark\n";

type Store = Kv<Key, Value>;

type Edits = Changes<Key, Value>;

/// Prints the table of changes.
pub fn table(rt: &HostRuntime) -> io::Result<()> {
    rt.print(HEAD)?;
    let mut first = None;
    for size in 0..3 {
        let files = keys_of(size);
        let costs = measure(rt, files)?;
        let base = first.unwrap_or(costs);
        first = Some(base);
        print!(rt; "{files:>7}")?;
        for i in 0..3 {
            show(rt, costs[i], base[i], COMMITS)?;
        }
        println!(rt; "")?;
    }
    Ok(())
}

/// The nanoseconds of the installs, of the changes told and of the marks of a round, each the least of all rounds.
fn measure(rt: &HostRuntime, files: u64) -> io::Result<[u64; 4]> {
    let mut kv = filled(rt.alloc(), files).map_err(memory)?;
    let batch = batch_of(rt.alloc(), files).map_err(memory)?;
    let mut costs = [u64::MAX; 4];
    for _ in 0..ROUNDS {
        costs = least(costs, round(rt, &mut kv, batch.as_slice())?);
        kv.prune();
    }
    Ok(costs)
}

/// The same of one round.
fn round(rt: &HostRuntime, kv: &mut Store, batch: &[Edits]) -> io::Result<[u64; 4]> {
    let mut all = [0u64; 4];
    let mut clock = Laps::start(rt)?;
    for edits in batch {
        let watched = kv.number();
        install(kv, edits).map_err(memory)?;
        all[0] = all[0].saturating_add(clock.lap(rt)?);
        let bytes = told(rt.alloc(), kv, watched).map_err(memory)?;
        all[1] = all[1].saturating_add(clock.lap(rt)?);
        watch(kv, watched).map_err(memory)?;
        all[2] = all[2].saturating_add(clock.lap(rt)?);
        // The bytes are used, so that no compiler leaves the call out.
        all[3] = all[3].saturating_add(bytes);
    }
    Ok(all)
}

/// How many bytes tell what changed since a number, which is pinned.
pub fn told(alloc: Global, kv: &Store, since: u64) -> Result<u64, OutOfMemory> {
    if !kv.is_pinned(since) {
        return Err(OutOfMemory);
    }
    let bytes = changes(alloc, kv, since, 1)?;
    Ok(bytes.len() as u64)
}

/// Pins the number in place of one that was pinned, and marks it.
fn watch(kv: &mut Store, before: u64) -> Result<(), OutOfMemory> {
    kv.pin(kv.number())?;
    if kv.is_pinned(before) {
        kv.unpin(before);
    }
    kv.mark();
    Ok(())
}

/// Installs changes under the next number; a store with no further number is taken for want of memory.
pub fn install(kv: &mut Store, edits: &Edits) -> Result<(), OutOfMemory> {
    if kv.number() >= 1 << 63 {
        return Err(OutOfMemory);
    }
    let ready = kv.reserve_install(edits).map_err(|_why| OutOfMemory)?;
    kv.install(ready);
    Ok(())
}

/// A change that makes a file, or gives it one more region.
pub fn set(alloc: Global, id: u64, last: u16) -> Result<Edits, OutOfMemory> {
    let inode = InodeId {
        tx: TxId(id),
        index: 0,
    };
    let mut edits = Changes::new(alloc);
    edits.delta(Key::Inode(inode), Delta::Put(Value::Last(last)))?;
    Ok(edits)
}

/// The changes of a round.
fn batch_of(alloc: Global, files: u64) -> Result<Vec<Edits>, OutOfMemory> {
    let mut batch = Vec::new(alloc);
    for i in 0..COMMITS {
        batch.push(set(alloc, key_at(i, files), 1)?)?;
    }
    Ok(batch)
}

/// A store of so many files, whose number is pinned and marked.
pub fn filled(alloc: Global, files: u64) -> Result<Store, OutOfMemory> {
    let mut kv = Kv::new(alloc)?;
    for id in 0..files {
        install(&mut kv, &set(alloc, id, 0)?)?;
    }
    kv.prune();
    kv.pin(kv.number())?;
    kv.mark();
    Ok(kv)
}
