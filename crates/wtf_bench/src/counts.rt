//! What the calls of the tables give at small sizes, without a clock: numbers that are the same in each run.

ghost use Rattle.std.specs.Prelude.{◌<◌, length};

use crate::changes;
use crate::figures::{memory, pins_of, settings_at};
use crate::lists::{PLANS, compact_len, filled, plans};
use crate::slices::{create, failed, inode, shelf_of};
use crate::texts::{answer_of, line_of, prints, reads, unread};
use std::io;
use wtf_dev::{MemStore, Shelf};
use wtf_replica::Replicas;
use wtf_ring::Ring;

/// How many keys and entries there are.
const SIZE: u32 = 100;

/// Prints the numbers, a line a table.
pub fn print(rt: &HostRuntime) -> io::Result<()> {
    versions(rt)?;
    slices(rt)?;
    lists(rt)?;
    texts(rt)?;
    told(rt)
}

/// Of a store of versions: its number, the oldest pinned one, and the sums of what the keys show there.
fn versions(rt: &HostRuntime) -> io::Result<()> {
    let keys = SIZE as u64;
    let kv = crate::filled(rt.alloc(), keys, pins_of(0)).map_err(memory)?;
    let (number, oldest) = (kv.number(), crate::oldest(&kv));
    let values = crate::reads(&kv, keys, false);
    let versions = crate::reads(&kv, keys, true);
    println!(rt; "versions: number {number} oldest {oldest} values {values} versions {versions}")
}

/// Of slices: the copies of each, and the bytes that all stores have taken.
fn slices(rt: &HostRuntime) -> io::Result<()> {
    let (settings, bytes) = (settings_at(1), [7; 64]);
    let replicas = Replicas::new(settings);
    let mut shelf = shelf_of(rt.alloc(), settings.servers).map_err(memory)?;
    let ring = Ring::new(rt.alloc(), settings.servers).map_err(memory)?;
    let place = ring.order(inode(0), 0);
    create(&replicas, &mut shelf, &place, &bytes).map_err(failed)?;
    let (copies, stored) = (settings.replicas, stored(&shelf));
    println!(rt; "slices: copies {copies} bytes {stored}")
}

/// The lengths of all files of all stores.
fn stored(shelf: &Shelf<MemStore>) -> u64 {
    let mut sum = 0u64;
    for k in 0..shelf.len() {
        for file in 0..8 {
            sum = sum.wrapping_add(shelf.length(k, file));
        }
    }
    sum
}

/// Of lists of entries: the entries, the pieces of all plans, and the entries of the compact list.
fn lists(rt: &HostRuntime) -> io::Result<()> {
    let list = filled(rt.alloc(), SIZE).map_err(memory)?;
    let (entries, plans, pieces) = (list.len(), PLANS, plans(&list, SIZE).map_err(memory)?);
    let compact = compact_len(&list).map_err(memory)?;
    println!(rt; "lists: entries {entries} plans {plans} pieces {pieces} compact {compact}")
}

/// Of hexadecimal data: the bytes of all texts that were printed, and those that were read.
fn texts(rt: &HostRuntime) -> io::Result<()> {
    let answer = answer_of(rt.alloc(), SIZE).map_err(memory)?;
    let printed = prints(&mut Vec::new(rt.alloc()), &answer).map_err(memory)?;
    let line = line_of(rt.alloc(), SIZE).map_err(memory)?;
    let read = reads(rt.alloc(), line.as_slice()).map_err(unread)?;
    println!(rt; "texts: printed {printed} read {read}")
}

/// Of changes: the bytes that tell a commit of one file, and those that tell that nothing changed.
fn told(rt: &HostRuntime) -> io::Result<()> {
    let mut kv = changes::filled(rt.alloc(), SIZE as u64).map_err(memory)?;
    let watched = kv.number();
    let none = changes::told(rt.alloc(), &kv, watched).map_err(memory)?;
    let edits = changes::set(rt.alloc(), 7, 1).map_err(memory)?;
    changes::install(&mut kv, &edits).map_err(memory)?;
    let one = changes::told(rt.alloc(), &kv, watched).map_err(memory)?;
    println!(rt; "changes: none {none} one {one}")
}
