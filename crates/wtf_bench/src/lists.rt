//! What calls on lists of entries cost, by the number of entries.

ghost use Rattle.std.specs.Prelude.{◌+◌, ◌^◌, ◌<◌};

use crate::figures::{Laps, ROUNDS, key_at, least, memory, show};
use std::alloc::Global;
use std::io;
use wtf_base::{OutOfMemory, Pointer, ServerId, Slice};
use wtf_overlay::{Entry, Overlay, Part};

/// How many entries the rows have.
const SIZES: [u32; 6] = [10, 64, 100, 1_000, 10_000, 64_000];

/// A round pushes all entries, plans this many ranges, and compacts and shares the list this many times.
pub const PLANS: u32 = 1_000;

const SHARES: u32 = 20;
/// The costs of pushes and of a compact are told for so many entries.
const THOUSAND: u64 = 1_000;
/// How many bytes a range has, and how far apart the entries of one byte each lie.
const RANGE: u32 = 64;

const STEP: u32 = 4;

const HEAD: &str =
    "entries  push            plan            compact         share           pieces\n";

/// The costs of a round, and how many pieces a plan had.
#[derive(Clone, Copy)]
struct Costs {
    nanos: [u64; 4],
    pieces: u64,
}

/// Prints the table of lists of entries. A compact stands for one step for each entry.
pub fn table(rt: &HostRuntime) -> io::Result<()> {
    rt.print(HEAD)?;
    let mut first = None;
    for n in SIZES {
        let calls = [THOUSAND, PLANS as u64, THOUSAND, SHARES as u64];
        let round = measure(rt, n)?;
        let costs = round.nanos;
        let base = first.unwrap_or(costs);
        first = Some(base);
        print!(rt; "{n:>7}")?;
        for i in 0..4 {
            show(rt, costs[i], base[i], calls[i])?;
        }
        let pieces = round.pieces / PLANS as u64;
        println!(rt; "{pieces:>8}")?;
    }
    Ok(())
}

/// The nanoseconds of the pushes, the plans, a compact and the shares, each the least of all rounds.
fn measure(rt: &HostRuntime, n: u32) -> io::Result<Costs> {
    let mut all = Costs {
        nanos: [u64::MAX; 4],
        pieces: 0,
    };
    for _ in 0..ROUNDS {
        let now = round(rt, n)?;
        all = Costs {
            nanos: least(all.nanos, now.nanos),
            pieces: now.pieces,
        };
    }
    Ok(all)
}

/// The same of one round.
fn round(rt: &HostRuntime, n: u32) -> io::Result<Costs> {
    let mut clock = Laps::start(rt)?;
    let list = filled(rt.alloc(), n).map_err(memory)?;
    let pushed = clock.lap(rt)?;
    let pieces = plans(&list, n).map_err(memory)?;
    let planned = clock.lap(rt)?;
    let compact = compact_len(&list).map_err(memory)?;
    let compacted = clock.lap(rt)?;
    let shared = shares(&list).map_err(memory)?;
    let done = clock.lap(rt)?;
    // The lengths are used, so that no compiler leaves the calls out.
    if compact.wrapping_add(shared) == u64::MAX {
        return Err(io::Error::from(io::ErrorKind::InvalidData));
    }
    Ok(Costs {
        nanos: [
            of_thousand(pushed, n),
            planned,
            of_thousand(compacted, n),
            done,
        ],
        pieces,
    })
}

/// How many entries the compact list has.
pub fn compact_len(list: &Overlay) -> Result<u64, OutOfMemory> {
    Ok(list.compact()?.len() as u64)
}

/// What `THOUSAND` entries cost, where `n` cost this.
fn of_thousand(nanos: u64, n: u32) -> u64 {
    nanos.min(1 << 53) * THOUSAND / n.max(1) as u64
}

/// A list of `n` entries of one byte, `STEP` bytes apart, laid in a scattered order.
pub fn filled(alloc: Global, n: u32) -> Result<Overlay, OutOfMemory> {
    let mut list = Overlay::new(alloc)?;
    for i in 0..n {
        list.push(entry(i, place(i, n)))?;
    }
    Ok(list)
}

/// Where the entry of step `i` lies.
fn place(i: u32, n: u32) -> u32
    ensures { result + 1 < 2 ^ 32 }
{
    let slot = u32::try_from(key_at(i as u64, n as u64)).unwrap_or(0);
    slot.saturating_mul(STEP).min(u32::MAX - RANGE)
}

/// The entry of one byte at `off`; its slice begins at `i`.
fn entry(i: u32, off: u32) -> Entry
    requires { off + 1 < 2 ^ 32 }
{
    let byte = Pointer {
        server: ServerId(0),
        file: 0,
        at: i as u64,
        len: 1,
    };
    let Some(slice) = Slice::of(&[byte]) else {
        return Entry::of(off, 1, Part::Zero);
    };
    if slice.len() != 1 {
        return Entry::of(off, 1, Part::Zero);
    }
    Entry::of(off, 1, Part::Held(slice))
}

/// How many pieces the plans of ranges all over the list have.
pub fn plans(list: &Overlay, n: u32) -> Result<u64, OutOfMemory> {
    let mut pieces = 0u64;
    for i in 0..PLANS {
        let found = list.plan(place(i, n), RANGE)?;
        pieces = pieces.wrapping_add(found.len() as u64);
    }
    Ok(pieces)
}

/// How many entries the shares of a list have.
fn shares(list: &Overlay) -> Result<u64, OutOfMemory> {
    let mut entries = 0u64;
    for _ in 0..SHARES {
        let shared = list.share()?;
        entries = entries.wrapping_add(shared.len() as u64);
    }
    Ok(entries)
}
