//! The devices in memory, each call once.

use crate::stores::{shelf, store};
use std::alloc::Global;
use wtf_base::OutOfMemory;
use wtf_dev::{
    Failed, Keeper, MemKeeper, MemSink, MemSource, MemStore, Shelf, Sink, SliceStore, Source,
};

/// The backing file of the rows of one store.
const FILE: u8 = 3;

/// Whether bytes are put behind the file from this place on, or fail to be.
fn appends(store: &mut MemStore, bytes: &[u8], want: Result<u64, Failed>) -> bool {
    store.append(FILE, bytes) == want
}

/// Whether these are the first two bytes of the file.
fn begins(store: &mut MemStore, want: &[u8; 2]) -> bool {
    let mut out = [0; 2];
    store.length(FILE) >= 2 && store.read(FILE, 0, &mut out) == Ok(()) && out == *want
}

/// Whether the second byte of the file is freed.
fn frees_second(store: &mut MemStore) -> bool {
    store.length(FILE) >= 2 && store.punch(FILE, 1, 1) == Ok(())
}

/// Whether a store keeps what it took when a call fails, and frees a part of it.
fn keeps_old_bytes(store: &mut MemStore) -> bool {
    appends(store, b"ab", Ok(0))
        && appends(store, b"cd", Err(Failed))
        && begins(store, b"ab")
        && frees_second(store)
        && store.sync() == Ok(())
        && begins(store, b"a\0")
        && store.short() == 0
}

/// Whether a store whose call 1 fails does so.
fn is_kept(alloc: Global) -> bool {
    let Ok(mut store) = store(alloc, &[1]) else {
        return false;
    };
    keeps_old_bytes(&mut store)
}

#[test]
fn a_failed_append_keeps_old_bytes(rt: HostRuntime) {
    assert!(rt; is_kept(rt.alloc()));
}

/// A keeper of these bytes, whose call 2 fails.
fn keeper(alloc: Global, bytes: &[u8]) -> Result<MemKeeper, OutOfMemory> {
    let fails = vec![in alloc; 2]?;
    Ok(MemKeeper::new(alloc, Vec::from_slice(alloc, bytes)?, fails))
}

/// Whether these are the bytes that a keeper gives.
fn loads(alloc: Global, keeper: &mut MemKeeper, want: &[u8]) -> bool {
    match keeper.load(alloc) {
        Ok(bytes) => bytes.as_slice() == want,
        Err(_) => false,
    }
}

fn replaces(keeper: &mut MemKeeper, bytes: &[u8], want: Result<(), Failed>) -> bool {
    keeper.replace(bytes) == want
}

/// Whether a keeper holds one image after another, and finds memory for all that it is handed.
fn holds_in_turn(alloc: Global, keeper: &mut MemKeeper) -> bool {
    loads(alloc, keeper, b"old")
        && replaces(keeper, b"new", Ok(()))
        && replaces(keeper, b"lost", Err(Failed))
        && keeper.held() == b"new".as_slice()
        && keeper.short() == 0
}

/// Whether a keeper whose call 2 fails does so.
fn is_held(alloc: Global) -> bool {
    let Ok(mut keeper) = keeper(alloc, b"old") else {
        return false;
    };
    holds_in_turn(alloc, &mut keeper)
}

#[test]
fn a_keeper_answers_its_bytes(rt: HostRuntime) {
    assert!(rt; is_held(rt.alloc()));
}

/// Whether three bytes at the end of file 7 of the store of a server lie there from byte 0 on.
fn appends_on(shelf: &mut Shelf<MemStore>, server: u8) -> bool {
    server < shelf.len() && shelf.store(server).append(7, b"xyz") == Ok(0)
}

/// Whether there are two stores, and these are the lengths of their files 7.
fn has_lengths(shelf: &Shelf<MemStore>, first: u64, second: u64) -> bool {
    shelf.len() == 2 && shelf.length(0, 7) == first && shelf.length(1, 7) == second
}

/// Whether the second of two stores has what was appended to it.
fn has_its_stores(alloc: Global) -> bool {
    let Some(mut shelf) = shelf(alloc, &[None, None]) else {
        return false;
    };
    appends_on(&mut shelf, 1) && has_lengths(&shelf, 0, 3)
}

#[test]
fn a_shelf_has_its_stores(rt: HostRuntime) {
    assert!(rt; has_its_stores(rt.alloc()));
}

/// A source of these bytes, whose call 1 fails.
fn source(alloc: Global, bytes: &[u8]) -> Result<MemSource, OutOfMemory> {
    let fails = vec![in alloc; 1]?;
    Ok(MemSource::new(alloc, Vec::from_slice(alloc, bytes)?, fails))
}

/// Whether a source that is asked for three bytes gives these.
fn gives(source: &mut MemSource, want: &[u8]) -> bool {
    let mut out = [0; 3];
    match source.read(&mut out) {
        Ok(n) => &out[..n] == want,
        Err(_) => false,
    }
}

/// Whether a source gives five bytes in order, whatever fails.
fn gives_all(source: &mut MemSource) -> bool {
    gives(source, b"abc")
        && source.read(&mut [0; 3]) == Err(Failed)
        && gives(source, b"de")
        && gives(source, b"")
}

/// Whether a source whose call 1 fails does so.
fn is_given(alloc: Global) -> bool {
    let Ok(mut source) = source(alloc, b"abcde") else {
        return false;
    };
    gives_all(&mut source)
}

#[test]
fn a_source_gives_its_bytes_in_order(rt: HostRuntime) {
    assert!(rt; is_given(rt.alloc()));
}

/// Whether a sink takes so many of these bytes, or fails.
fn takes(sink: &mut MemSink, bytes: &[u8], want: Result<usize, Failed>) -> bool {
    sink.write(bytes) == want
}

/// Whether a sink whose first call fails takes the bytes of the others, and finds memory for all of them.
fn takes_in_order(sink: &mut MemSink) -> bool {
    takes(sink, b"abc", Err(Failed))
        && takes(sink, b"abc", Ok(3))
        && takes(sink, b"de", Ok(2))
        && has_taken(sink, b"abcde")
}

/// Whether a sink has these bytes, and found memory for all of them.
fn has_taken(sink: &MemSink, bytes: &[u8]) -> bool {
    sink.taken() == bytes && sink.short() == 0
}

/// Whether a sink whose call 0 fails does so.
fn is_taken(alloc: Global) -> bool {
    let Ok(fails) = vec![in alloc; 0] else {
        return false;
    };
    takes_in_order(&mut MemSink::new(alloc, fails))
}

#[test]
fn a_sink_takes_bytes_in_order(rt: HostRuntime) {
    assert!(rt; is_taken(rt.alloc()));
}
