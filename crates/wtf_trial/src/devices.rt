//! Runs over devices in memory.

use crate::texts::SCRIPT;
use std::alloc::Global;
use std::test::Fail;
use wtf_dev::{Keeper, MemKeeper, MemSink, MemSource, MemStore, Shelf, SliceStore};
use wtf_serve::wtf;

/// No calls, or the one with this number.
pub fn calls(alloc: Global, number: Option<u64>) -> Result<Vec<u64>, Fail> {
    let mut calls = Vec::new(alloc);
    if let Some(number) = number {
        calls.push(number)?;
    }
    Ok(calls)
}

/// The shelf of 1 to 16 stores.
pub fn shelf_of<S: Drop>(alloc: Global, stores: Vec<S>) -> Result<Shelf<S>, Fail> {
    if stores.len() < 1 || stores.len() > 16 {
        return Err(Fail::from("stores"));
    }
    Ok(Shelf::new(alloc, stores))
}

/// So many stores, of which the one of this server fails at this call.
pub fn stores(
    alloc: Global,
    count: u8,
    server: u8,
    call: Option<u64>,
) -> Result<Shelf<MemStore>, Fail> {
    let mut stores = Vec::new(alloc);
    for k in 0..count {
        let fails = if k == server { call } else { None };
        stores.push(MemStore::new(alloc, calls(alloc, fails)?))?;
    }
    shelf_of(alloc, stores)
}

/// How many bytes a file of a server holds.
fn length(shelf: &Shelf<MemStore>, server: u8, file: u8) -> u64 {
    if server < shelf.len() && file < 8 {
        return shelf.length(server, file);
    }
    0
}

/// How many bytes all stores hold.
pub fn stored(shelf: &Shelf<MemStore>) -> u64 {
    let mut sum = 0u64;
    for k in 0..16u8 {
        for file in 0..8u8 {
            sum = sum.saturating_add(length(shelf, k, file));
        }
    }
    sum
}

/// What a run came to: its status, its output, and what the keeper holds then.
#[derive(Drop)]
pub struct Ended {
    pub status: u8,
    pub output: Vec<u8>,
    pub kept: Vec<u8>,
}

impl Ended {
    /// Whether it has this status and this output.
    pub fn has(&self, status: u8, output: &[u8]) -> bool {
        self.status == status && self.output.as_slice() == output
    }

    /// How many lines the output has.
    pub fn lines(&self) -> u64 {
        self.output.iter().filter(|b| **b == b'\n').count() as u64
    }

    /// What the keeper holds, where the run ended well with this output.
    pub fn kept_behind(self, output: &[u8]) -> Result<Vec<u8>, Fail> {
        if self.has(0, output) {
            return Ok(self.kept);
        }
        Err(Fail::from("another status or output"))
    }
}

/// Which call of each device fails.
#[derive(Clone, Copy)]
pub struct Failing {
    pub source: Option<u64>,
    pub sink: Option<u64>,
    pub keeper: Option<u64>,
}

pub const NONE: Failing = Failing {
    source: None,
    sink: None,
    keeper: None,
};

/// The words of a line, which stand apart by single spaces.
fn words_of(alloc: Global, line: &str) -> Result<Vec<String>, Fail> {
    let mut words = Vec::new(alloc);
    for word in line.split(' ').filter(|word| !word.is_empty()) {
        words.push(word.to_string(alloc)?)?;
    }
    Ok(words)
}

/// The status of a run.
fn status_of(
    alloc: Global,
    words: &[String],
    script: &mut MemSource,
    out: &mut MemSink,
    shelf: &mut Shelf<MemStore>,
    keeper: &mut MemKeeper,
) -> u8 {
    wtf(alloc, words, script, out, shelf, keeper)
}

/// The script as a source.
fn source_of(alloc: Global, script: &[u8], call: Option<u64>) -> Result<MemSource, Fail> {
    let calls = calls(alloc, call)?;
    Ok(MemSource::new(alloc, script.to_vec(alloc)?, calls))
}

/// The keeper that holds these bytes.
fn keeper_of(alloc: Global, kept: &[u8], call: Option<u64>) -> Result<MemKeeper, Fail> {
    let calls = calls(alloc, call)?;
    Ok(MemKeeper::new(alloc, kept.to_vec(alloc)?, calls))
}

/// What a run of this status came to.
fn outcome_of(alloc: Global, status: u8, out: &MemSink, keeper: &MemKeeper) -> Result<Ended, Fail> {
    let output = out.taken().to_vec(alloc)?;
    Ok(Ended {
        status,
        output,
        kept: keeper.held().to_vec(alloc)?,
    })
}

/// A run from this source over these stores and this keeper, whose sink fails at this call.
fn run_from(
    alloc: Global,
    words: &[String],
    script: &mut MemSource,
    sink: Option<u64>,
    shelf: &mut Shelf<MemStore>,
    keeper: &mut MemKeeper,
) -> Result<Ended, Fail> {
    let mut out = MemSink::new(alloc, calls(alloc, sink)?);
    let status = status_of(alloc, words, script, &mut out, shelf, keeper);
    outcome_of(alloc, status, &out, keeper)
}

/// A run over these stores and a keeper that holds these bytes.
pub fn run_on(
    alloc: Global,
    words: &str,
    script: &[u8],
    failing: Failing,
    shelf: &mut Shelf<MemStore>,
    kept: &[u8],
) -> Result<Ended, Fail> {
    let words = words_of(alloc, words)?;
    let mut source = source_of(alloc, script, failing.source)?;
    let mut keeper = keeper_of(alloc, kept, failing.keeper)?;
    let (words, sink) = (words.as_slice(), failing.sink);
    run_from(alloc, words, &mut source, sink, shelf, &mut keeper)
}

/// A run of a script over sixteen empty stores which never fail, and an empty keeper.
pub fn run_script(
    alloc: Global,
    words: &str,
    script: &[u8],
    failing: Failing,
) -> Result<Ended, Fail> {
    let mut shelf = stores(alloc, 16, 0, None)?;
    run_on(alloc, words, script, failing, &mut shelf, &[])
}

/// The same of the first script.
pub fn run(alloc: Global, words: &str, failing: Failing) -> Result<Ended, Fail> {
    run_script(alloc, words, SCRIPT, failing)
}
