//! What calls on slices cost, over stores in memory, by the numbers of servers and of replicas and by the
//! length of a slice.

ghost use Rattle.std.specs.Prelude.{◌≡◌, ◌<◌, ◌≤◌, length, IfOk};
ghost use Rattle.wtf_base.specs.Slices.{len_of};
ghost use Rattle.wtf_dev.specs.Memory.{mem_store};
ghost use Rattle.wtf_replica.specs.Copies.{IsInside};
ghost use Rattle.wtf_replica.specs.Downs.{settings_of};

use crate::figures::{Laps, ROUNDS, least, len_at, memory, settings_at, show};
use std::alloc::{AllocError, Global};
use std::io;
use wtf_base::{Fault, InodeId, OutOfMemory, Settings, Slice, TxId};
use wtf_dev::{MemStore, Shelf};
use wtf_replica::Replicas;
use wtf_ring::{Place, Ring};

/// A round makes one ring, asks for this many places, and stores and fetches `BATCH` slices.
const ORDERS: u32 = 1_000;

const BATCH: u64 = 20;
/// How many calls of a round each column stands for.
const CALLS: [u64; 4] = [1, ORDERS as u64, BATCH, BATCH];

const HEAD: &str = "servers copies bytes  ring            order           create          fetch\n";

/// Prints the table of slices.
pub fn table(rt: &HostRuntime) -> io::Result<()> {
    rt.print(HEAD)?;
    let mut first = None;
    for size in 0..3 {
        for column in 0..2 {
            let (settings, len) = (settings_at(size), len_at(column));
            let costs = measure(rt, settings, len)?;
            let base = first.unwrap_or(costs);
            first = Some(base);
            let (servers, copies) = (settings.servers, settings.replicas);
            print!(rt; "{servers:>7}{copies:>7}{len:>6}")?;
            for i in 0..4 {
                show(rt, costs[i], base[i], CALLS[i])?;
            }
            println!(rt; "")?;
        }
    }
    Ok(())
}

/// The nanoseconds of the ring, the places, the slices stored and the slices fetched of a round, each the
/// least of all rounds.
fn measure(rt: &HostRuntime, settings: Settings, len: usize) -> io::Result<[u64; 4]>
    requires some { 0 < len }
    requires few { len ≤ 16_384 }
{
    let mut costs = [u64::MAX; 4];
    for _ in 0..ROUNDS {
        costs = least(costs, round(rt, settings, len)?);
    }
    Ok(costs)
}

/// The nanoseconds of one round, on empty stores.
fn round(rt: &HostRuntime, settings: Settings, len: usize) -> io::Result<[u64; 4]>
    requires some { 0 < len }
    requires few { len ≤ 16_384 }
{
    let mut clock = Laps::start(rt)?;
    let ring = Ring::new(rt.alloc(), settings.servers).map_err(memory)?;
    let made = clock.lap(rt)?;
    let sum = orders(&ring);
    let ordered = clock.lap(rt)?;
    // The sum is used, so that no compiler leaves the calls out.
    if sum == u64::MAX {
        return Err(io::Error::from(io::ErrorKind::InvalidData));
    }
    let (created, fetched) = stored(rt, settings, &ring.order(inode(0), 0), len)?;
    Ok([made, ordered, created, fetched])
}

/// The nanoseconds of the slices stored at a place, and of those fetched.
fn stored(rt: &HostRuntime, settings: Settings, place: &Place, len: usize) -> io::Result<(u64, u64)>
    requires place { length place.now.servers ≡ settings.servers }
    requires some { 0 < len }
    requires few { len ≤ 16_384 }
{
    let (bytes, mut out) = ([7; 16_384], [0; 16_384]);
    let replicas = Replicas::new(settings);
    let mut shelf = shelf_of(rt.alloc(), settings.servers).map_err(memory)?;
    let mut clock = Laps::start(rt)?;
    let slice = create(&replicas, &mut shelf, place, &bytes[..len]).map_err(failed)?;
    let created = clock.lap(rt)?;
    fetch(&replicas, &mut shelf, &slice, &mut out[..len]).map_err(failed)?;
    let fetched = clock.lap(rt)?;
    if out[..len] != bytes[..len] {
        return Err(io::Error::from(io::ErrorKind::InvalidData));
    }
    Ok((created, fetched))
}

/// A store in memory fails only where memory is short.
pub fn failed(_why: Fault) -> io::Error {
    io::Error::from(AllocError)
}

/// The file that call `index` of the first transaction made.
pub fn inode(index: u32) -> InodeId {
    InodeId { tx: TxId(1), index }
}

/// Empty stores of so many servers.
pub fn shelf_of(alloc: Global, servers: u8) -> Result<Shelf<MemStore>, OutOfMemory>
    requires some { 1 ≤ servers }
    requires few { servers ≤ 16 }
    ensures { IfOk result (λ shelf. length shelf ≡ servers) }
{
    let mut stores = Vec::new(alloc);
    for _ in 0..servers {
        stores.push(MemStore::new(alloc, Vec::new(alloc)))?;
    }
    Ok(Shelf::new(alloc, stores))
}

/// Asks for the places of `ORDERS` files, and adds up the last server of each.
fn orders(ring: &Ring) -> u64 {
    let mut sum = 0u64;
    for index in 0..ORDERS {
        let place = ring.order(inode(index), 0);
        let count = place.count();
        if count > 0 {
            sum = sum.wrapping_add(place.server(count - 1).0 as u64);
        }
    }
    sum
}

/// Stores the bytes `BATCH` times at a place, and answers the last slice.
pub fn create(
    replicas: &Replicas,
    shelf: &mut Shelf<MemStore>,
    place: &Place,
    bytes: &[u8],
) -> Result<Slice, Fault>
    requires shelf { (settings_of replicas.now).servers ≤ length shelf.old }
    requires place { length place.now.servers ≡ (settings_of replicas.now).servers }
    requires some { 0 < length bytes.now }
    requires few { length bytes.now ≤ 16_384 }
    ensures inside { IfOk result (IsInside mem_store shelf.new) }
    ensures len { IfOk result (λ s. len_of s ≡ length bytes.now) }
{
    for _ in 1..BATCH {
        replicas.create(shelf, place, bytes)?;
    }
    replicas.create(shelf, place, bytes)
}

/// Reads a whole slice `BATCH` times.
fn fetch(
    replicas: &Replicas,
    shelf: &mut Shelf<MemStore>,
    slice: &Slice,
    out: &mut [u8],
) -> Result<(), Fault>
    requires some { 0 < length out.old }
    requires whole { length out.old ≡ len_of slice.now }
    requires inside { IsInside mem_store shelf.old slice.now }
{
    for _ in 0..BATCH {
        replicas.fetch(shelf, slice, 0, out)?;
    }
    Ok(())
}
