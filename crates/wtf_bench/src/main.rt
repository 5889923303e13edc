//! Prints what calls cost on this machine: those of `wtf_kv`, by the numbers of keys and of pins, those on
//! slices, by the numbers of servers and of replicas and by the length of a slice, those on lists of entries, by
//! their number, those on hexadecimal data, by its length, and those by which changes are told, by the number of files.
#![tactic(auto)]

ghost use Rattle.std.specs.Prelude.{◌≡◌, ◌+◌, OnOk, IsTrue};
ghost use Rattle.wtf_kv.specs.Stores.{is_live};

mod changes;
mod counts;
mod entries;
mod figures;
mod lists;
mod slices;
mod texts;

use crate::entries::{Count, Name};
use crate::figures::{Laps, ROUNDS, key_at, keys_of, least, memory, pins_of, show};
use std::alloc::Global;
use std::{env, io};
use wtf_base::OutOfMemory;
use wtf_kv::{Changes, Kv};

/// A round reads this many values and as many versions, installs `BATCH` changes, one at a time and each
/// of another key, and prunes once.
const READS: u64 = 10_000;

const BATCH: u64 = 100;
/// How many calls of a round each column stands for.
const CALLS: [u64; 4] = [READS, READS, BATCH, 1];

const HEAD: &str = "  keys pins  read_at         version_at      install         prune\n";

const HELP: &str =
    "wtf_bench prints the nanoseconds of a call, in the best of 20 rounds, and the ratio to the first row.
The first table is of a store of versions, by its keys and its pinned numbers.
Reads are at the oldest pinned number. An install makes one change ready, and installs it.
A prune follows 100 installs, each of another key.
The second table is of slices on servers in memory, by the servers, the copies of a slice and its bytes.
A ring is made once a round. An order asks it for the place of one file.
A create stores one of 20 slices at one place, in files that begin empty. A fetch reads the last of them whole.
The third table is of lists of entries of one byte, four bytes apart and laid in a scattered order, by their number.
A push, and a compact, stands for one entry. A plan is of 64 bytes, and the last column says how many pieces it has.
The fourth table is of hexadecimal data: a line that writes it is copied, its answer printed, the line read.
Its ratios are to the copy in the same row.
The fifth table is of a store of files of which each commit is told as changes, by the files. An install makes one file
longer. Changes tells what changed since the number before it, and a mark takes its place.
";

type Map = Kv<Name, Count>;

type Sets = Changes<Name, Count>;

/// Prints the tables; with the word `counts` what their calls give, without a clock, and with any other what they show.
fn main(rt: HostRuntime) -> io::Result<()> {
    if let Some(word) = env::args(&rt)?.nth(1) {
        if word.as_str() == "counts" {
            return counts::print(&rt);
        }
        return rt.print(HELP);
    }
    table(&rt)?;
    rt.print("\n")?;
    slices::table(&rt)?;
    rt.print("\n")?;
    lists::table(&rt)?;
    rt.print("\n")?;
    texts::table(&rt)?;
    rt.print("\n")?;
    changes::table(&rt)
}

/// Prints the table of a store of versions.
fn table(rt: &HostRuntime) -> io::Result<()> {
    rt.print(HEAD)?;
    let mut first = None;
    for size in 0..3 {
        for column in 0..2 {
            let (keys, pins) = (keys_of(size), pins_of(column));
            let costs = measure(rt, keys, pins)?;
            let base = first.unwrap_or(costs);
            first = Some(base);
            print!(rt; "{keys:>6}{pins:>5}")?;
            for i in 0..4 {
                show(rt, costs[i], base[i], CALLS[i])?;
            }
            println!(rt; "")?;
        }
    }
    Ok(())
}

/// The nanoseconds of the reads of values and of versions, the installs and the prune of a round, each
/// the least of all rounds: so other work on the machine counts little.
fn measure(rt: &HostRuntime, keys: u64, pins: u64) -> io::Result<[u64; 4]> {
    let mut kv = filled(rt.alloc(), keys, pins).map_err(memory)?;
    let batch = batch_of(rt.alloc(), keys).map_err(memory)?;
    let mut costs = [u64::MAX; 4];
    for _ in 0..ROUNDS {
        costs = least(costs, round(rt, &mut kv, batch.as_slice(), keys)?);
    }
    Ok(costs)
}

/// The changes of a round.
fn batch_of(alloc: Global, keys: u64) -> Result<Vec<Sets>, OutOfMemory> {
    let mut batch = Vec::new(alloc);
    for i in 0..BATCH {
        batch.push(set(alloc, key_at(i, keys), i)?)?;
    }
    Ok(batch)
}

/// The same of one round.
fn round(rt: &HostRuntime, kv: &mut Map, batch: &[Sets], keys: u64) -> io::Result<[u64; 4]> {
    let mut clock = Laps::start(rt)?;
    let values = reads(kv, keys, false);
    let read = clock.lap(rt)?;
    let versions = reads(kv, keys, true);
    let told = clock.lap(rt)?;
    install_all(kv, batch).map_err(memory)?;
    let installed = clock.lap(rt)?;
    kv.prune();
    let pruned = clock.lap(rt)?;
    // The sums are used, so that no compiler leaves the reads out.
    if values == u64::MAX || versions == u64::MAX {
        return Err(io::Error::from(io::ErrorKind::InvalidData));
    }
    Ok([read, told, installed, pruned])
}

/// Installs changes one at a time.
fn install_all(kv: &mut Map, batch: &[Sets]) -> Result<(), OutOfMemory> {
    for changes in batch {
        install(kv, changes)?;
    }
    Ok(())
}

/// A change that gives a key a value.
fn set(alloc: Global, id: u64, value: u64) -> Result<Sets, OutOfMemory> {
    let mut changes = Changes::new(alloc);
    changes.delta(Name { id }, value)?;
    Ok(changes)
}

/// A store where each key has a value, with numbers pinned, before an install of one change each.
fn filled(alloc: Global, keys: u64, pins: u64) -> Result<Map, OutOfMemory> {
    let mut kv = Kv::new(alloc)?;
    for id in 0..keys {
        install(&mut kv, &set(alloc, id, id)?)?;
    }
    for i in 0..pins {
        kv.pin(kv.number())?;
        install(&mut kv, &set(alloc, i % keys.max(1), i)?)?;
    }
    Ok(kv)
}

/// Installs changes under the next number; a store with no further number is taken for want of memory.
fn install(kv: &mut Map, changes: &Sets) -> Result<(), OutOfMemory>
    ensures { OnOk result (kv.new.number ≡ kv.old.number + 1) }
{
    if kv.number() >= 1 << 63 {
        return Err(OutOfMemory);
    }
    let ready = kv.reserve_install(changes).map_err(|_why| OutOfMemory)?;
    kv.install(ready);
    Ok(())
}

/// The oldest pinned number, or else the number of the store.
fn oldest(kv: &Map) -> u64
    ensures { IsTrue (is_live kv.now result) }
{
    match kv.next_pinned(None) {
        Some(n) if kv.is_pinned(n) => n,
        _ => kv.number(),
    }
}

/// Adds up what `READS` keys show at the oldest number: their values, or their versions.
fn reads(kv: &Map, keys: u64, versions: bool) -> u64 {
    let n = oldest(kv);
    let mut sum = 0u64;
    for i in 0..READS {
        let name = Name {
            id: key_at(i, keys),
        };
        let shown = if versions {
            kv.version_at(n, &name)
        } else {
            kv.read_at(n, &name).map_or(0, |c| c.n)
        };
        sum = sum.wrapping_add(shown);
    }
    sum
}
