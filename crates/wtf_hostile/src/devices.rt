//! Devices in memory, of which one is odd, and runs over them.

use crate::fault::{Device, Fault};
use crate::odd::OddStore;
use crate::scripts::Script;
use crate::streams::{Drip, Sip};
use std::alloc::Global;
use std::io;
use wtf_dev::{Keeper, MemKeeper, Shelf, Sink, SliceStore, Source};
use wtf_serve::wtf;

/// What a run came to: its status, how many calls of devices failed, the sink and the keeper.
#[derive(Drop)]
pub struct Ended {
    pub status: u8,
    pub rose: u64,
    pub sink: Sip,
    keeper: MemKeeper,
}

impl Ended {
    /// The devices of a run that is to begin, with a keeper that holds these bytes.
    pub fn new(alloc: Global, fault: &Fault, kept: &[u8]) -> io::Result<Ended> {
        let keeper = keeper_of(alloc, &fault.on(Device::Keeper), kept)?;
        Ok(Ended {
            status: 0,
            rose: 0,
            sink: Sip::new(alloc, fault.on(Device::Sink)),
            keeper,
        })
    }

    /// What it wrote.
    pub fn output(&self) -> &[u8] {
        self.sink.taken()
    }

    /// What the keeper then holds.
    pub fn kept(&self) -> &[u8] {
        self.keeper.held()
    }
}

/// A keeper that holds these bytes, of which calls fail where the fault says so.
fn keeper_of(alloc: Global, fault: &Fault, kept: &[u8]) -> io::Result<MemKeeper> {
    let mut calls = Vec::new(alloc);
    for i in 0..fault.count() {
        calls.push(fault.at.saturating_add(i))?;
    }
    Ok(MemKeeper::new(alloc, kept.to_vec(alloc)?, calls))
}

/// How many calls of a keeper failed, which makes all that were to fail and were not made.
fn failed_in(alloc: Global, fault: &Fault, keeper: &mut MemKeeper) -> u64 {
    let count = fault.count();
    if count == 0 {
        return 0;
    }
    let mut failed = count;
    for _ in 0..fault.at.saturating_add(count) {
        if keeper.load(alloc).is_err() {
            failed = failed.saturating_sub(1);
        }
    }
    failed
}

/// The shelf of 1 to 16 stores.
pub fn shelf_of<S: Drop>(alloc: Global, stores: Vec<S>) -> io::Result<Shelf<S>> {
    if stores.len() < 1 || stores.len() > 16 {
        return Err(io::Error::from(io::ErrorKind::InvalidInput));
    }
    Ok(Shelf::new(alloc, stores))
}

/// Sixteen empty stores, which are odd where the fault says so.
pub fn stores(alloc: Global, fault: &Fault) -> io::Result<Shelf<OddStore>> {
    let mut stores = Vec::new(alloc);
    for k in 0..16u8 {
        stores.push(OddStore::new(alloc, fault.on_store(k)))?;
    }
    shelf_of(alloc, stores)
}

/// How often the store of a server failed; its calls fail no more.
pub fn settled(shelf: &mut Shelf<OddStore>, k: u8) -> u64 {
    if k < shelf.len() {
        return shelf.store(k).settle();
    }
    0
}

/// How often all stores failed; their calls fail no more.
fn all_settled(shelf: &mut Shelf<OddStore>) -> u64 {
    let mut sum = 0u64;
    for k in 0..16u8 {
        sum = sum.saturating_add(settled(shelf, k));
    }
    sum
}

/// The words of the program that ask for the store of a script.
pub fn words_of(alloc: Global, script: &Script) -> io::Result<Vec<String>> {
    let (servers, replicas) = (u32::from(script.servers), u32::from(script.replicas));
    let settings = [
        ("servers", servers),
        ("replicas", replicas),
        ("region", script.region),
    ];
    let mut words = Vec::new(alloc);
    for (name, value) in settings.iter() {
        words.push(format!(in alloc; "--{name}={value}")?)?;
    }
    Ok(words)
}

/// The status of the program's run.
fn answer<I: Source, O: Sink, S: SliceStore, K: Keeper>(
    alloc: Global,
    words: &[String],
    source: &mut I,
    sink: &mut O,
    shelf: &mut Shelf<S>,
    keeper: &mut K,
) -> u8 {
    wtf(alloc, words, source, sink, shelf, keeper)
}

/// Runs a script over these stores, and a keeper that holds these bytes. Then no call fails any more.
pub fn run(
    alloc: Global,
    script: &Script,
    fault: &Fault,
    shelf: &mut Shelf<OddStore>,
    kept: &[u8],
) -> io::Result<Ended> {
    let words = words_of(alloc, script)?;
    let mut source = Drip::new([script.lines, &[], &[]], fault.on(Device::Source));
    let mut ended = Ended::new(alloc, fault, kept)?;
    let (sink, keeper) = (&mut ended.sink, &mut ended.keeper);
    ended.status = answer(alloc, words.as_slice(), &mut source, sink, shelf, keeper);
    let streams = source.faults().saturating_add(ended.sink.faults());
    let kept = failed_in(alloc, &fault.on(Device::Keeper), &mut ended.keeper);
    let rose = streams.saturating_add(kept);
    ended.rose = rose.saturating_add(all_settled(shelf));
    Ok(ended)
}
