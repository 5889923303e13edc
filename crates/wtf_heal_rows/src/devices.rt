//! Stores that a run made, what is left of them, and what the healer does with them.

use std::alloc::Global;
use std::test::Fail;
use wtf_dev::{MemKeeper, MemSink, MemStore, Shelf, SliceStore};
use wtf_healer::wtf_heal;
use wtf_trial::devices::{Ended, NONE, calls, run_on, shelf_of, stores};

/// The stores and the image that a run left.
#[derive(Drop)]
pub struct Kept {
    pub shelf: Shelf<MemStore>,
    pub image: Vec<u8>,
}

/// What a run of this script over so many new stores leaves.
pub fn made(alloc: Global, count: u8, words: &str, script: &str) -> Result<Kept, Fail> {
    let mut shelf = stores(alloc, count, 0, None)?;
    let ended = run_on(alloc, words, script.as_bytes(), NONE, &mut shelf, &[])?;
    if ended.status != 0 {
        return Err(Fail::from("the script did not end well"));
    }
    Ok(Kept {
        shelf,
        image: ended.kept,
    })
}

/// The bytes of a file of a store.
fn file_of(
    alloc: Global,
    shelf: &mut Shelf<MemStore>,
    server: u8,
    file: u8,
) -> Result<Vec<u8>, Fail> {
    let mut bytes = Vec::new(alloc);
    if server >= shelf.len() || file >= 8 {
        return Ok(bytes);
    }
    let len = shelf.length(server, file);
    bytes.resize(len as usize, 0)?;
    if shelf.store(server).read(file, 0, &mut bytes[..]).is_err() {
        return Err(Fail::from("a store that fails"));
    }
    Ok(bytes)
}

/// Adds bytes to a file of a store, if there are some; how many calls it took.
fn add(store: &mut MemStore, file: u8, bytes: &[u8]) -> Result<u64, Fail> {
    if bytes.is_empty() || file >= 8 {
        return Ok(0);
    }
    match store.append(file, bytes) {
        Ok(_) => Ok(1),
        Err(_) => Err(Fail::from("a store that fails")),
    }
}

/// The numbers of many calls, from this one on.
fn calls_from(alloc: Global, first: u64) -> Result<Vec<u64>, Fail> {
    let mut calls = Vec::new(alloc);
    for n in 0..64u64 {
        calls.push(first.saturating_add(n))?;
    }
    Ok(calls)
}

/// How a server's store is left.
#[derive(Clone, Copy, PartialEq, Eq)]
pub enum State {
    /// As it was.
    Whole,
    /// A new one stands in its place.
    Empty,
    /// Each call of it fails.
    Failing,
    /// Each `W` in its files is another byte.
    Spoiled,
}

/// How many files of a store have bytes.
fn filled(shelf: &Shelf<MemStore>, server: u8) -> u64 {
    let mut count = 0u64;
    for file in 0..8u8 {
        if server < shelf.len() && shelf.length(server, file) > 0 {
            count = count.saturating_add(1);
        }
    }
    count
}

/// A store that is left of one.
fn left_of(
    alloc: Global,
    shelf: &mut Shelf<MemStore>,
    server: u8,
    left: State,
) -> Result<MemStore, Fail> {
    let fails = match left {
        State::Failing => calls_from(alloc, filled(&*shelf, server))?,
        _ => Vec::new(alloc),
    };
    let mut store = MemStore::new(alloc, fails);
    if left == State::Empty {
        return Ok(store);
    }
    for file in 0..8u8 {
        let mut bytes = file_of(alloc, shelf, server, file)?;
        if left == State::Spoiled {
            spoil(&mut bytes[..]);
        }
        let _ = add(&mut store, file, bytes.as_slice())?;
    }
    Ok(store)
}

/// Makes each `W` another byte.
fn spoil(bytes: &mut [u8]) {
    for b in bytes.iter_mut() {
        if *b == b'W' {
            *b = b'V';
        }
    }
}

/// The stores that are left of those of a run, where one server's is left so.
pub fn left(
    alloc: Global,
    shelf: &mut Shelf<MemStore>,
    server: u8,
    how: State,
) -> Result<Shelf<MemStore>, Fail> {
    let mut stores = Vec::new(alloc);
    for k in 0..shelf.len() {
        let how = if k == server { how } else { State::Whole };
        stores.push(left_of(alloc, shelf, k, how)?)?;
    }
    shelf_of(alloc, stores)
}

/// The words of a line, which stand apart by single spaces.
fn words_of(alloc: Global, line: &str) -> Result<Vec<String>, Fail> {
    let mut words = Vec::new(alloc);
    for word in line.split(' ').filter(|word| !word.is_empty()) {
        words.push(word.to_string(alloc)?)?;
    }
    Ok(words)
}

/// The status of the healer.
fn status_of(
    alloc: Global,
    words: &[String],
    out: &mut MemSink,
    shelf: &mut Shelf<MemStore>,
    keeper: &mut MemKeeper,
) -> u8 {
    let mut progress = MemSink::new(alloc, Vec::new(alloc));
    wtf_heal(alloc, words, out, shelf, keeper, &mut progress)
}

/// Which call of the sink and of the keeper fails.
#[derive(Clone, Copy)]
pub struct Failing {
    pub sink: Option<u64>,
    pub keeper: Option<u64>,
}

pub const NO_CALL: Failing = Failing {
    sink: None,
    keeper: None,
};

/// What the healer comes to over these stores and a keeper that holds these bytes.
pub fn heal(
    alloc: Global,
    words: &str,
    shelf: &mut Shelf<MemStore>,
    kept: &[u8],
    failing: Failing,
) -> Result<Ended, Fail> {
    let words = words_of(alloc, words)?;
    let mut out = MemSink::new(alloc, calls(alloc, failing.sink)?);
    let mut keeper = MemKeeper::new(alloc, kept.to_vec(alloc)?, calls(alloc, failing.keeper)?);
    let status = status_of(alloc, words.as_slice(), &mut out, shelf, &mut keeper);
    Ok(Ended {
        status,
        output: out.taken().to_vec(alloc)?,
        kept: keeper.held().to_vec(alloc)?,
    })
}
