//! The slices of one server in memory, each call once.

use crate::stores::store;
use std::alloc::Global;
use wtf_base::{Pointer, ServerId};
use wtf_dev::{Failed, MemStore, SliceStore};

/// `len` bytes of a backing file of a server, from `at` on.
fn pointer(server: u8, file: u8, at: u64, len: u32) -> Pointer {
    Pointer {
        server: ServerId(server),
        file,
        at,
        len,
    }
}

/// Whether one to three bytes that are stored in a backing file of a server get this pointer, or fail.
fn creates(
    store: &mut MemStore,
    server: u8,
    file: u8,
    bytes: &[u8],
    want: Result<Pointer, Failed>,
) -> bool {
    if file >= 8 || bytes.is_empty() || bytes.len() > 3 {
        return false;
    }
    wtf_server::create(store, ServerId(server), file, bytes) == want
}

/// Whether these are the two bytes of a pointer, or reading them fails where none are told.
fn gives(store: &mut MemStore, p: Pointer, want: Option<&[u8; 2]>) -> bool {
    if p.file >= 8 || p.len != 2 {
        return false;
    }
    let length = store.length(p.file);
    if length < 2 || p.at > length - 2 {
        return false;
    }
    let mut out = [0; 2];
    match (wtf_server::retrieve(store, p, &mut out), want) {
        (Ok(()), Some(bytes)) => out == *bytes,
        (Err(_), None) => true,
        _ => false,
    }
}

/// Whether a range of a backing file is freed, or fails to be.
fn frees(store: &mut MemStore, file: u8, at: u64, len: u64, want: Result<(), Failed>) -> bool {
    if file >= 8 {
        return false;
    }
    let length = store.length(file);
    if length < len || at > length - len {
        return false;
    }
    wtf_server::free(store, file, at, len) == want
}

/// Whether bytes are created, retrieved and freed where no call fails.
fn keeps_a_slice(store: &mut MemStore) -> bool {
    let part = pointer(5, 2, 1, 2);
    creates(store, 5, 2, b"abc", Ok(pointer(5, 2, 0, 3)))
        && gives(store, part, Some(b"bc"))
        && frees(store, 2, 1, 1, Ok(()))
        && gives(store, part, Some(b"\0c"))
        && store.short() == 0
}

/// Whether that holds of a store none of whose calls fails.
fn slice_is_kept(alloc: Global) -> bool {
    let Ok(mut store) = store(alloc, &[]) else {
        return false;
    };
    keeps_a_slice(&mut store)
}

#[test]
fn bytes_are_created_retrieved_and_freed(rt: HostRuntime) {
    assert!(rt; slice_is_kept(rt.alloc()));
}

/// Whether calls 1 to 3 fail, and nothing else.
fn fails_three_times(store: &mut MemStore) -> bool {
    let all = pointer(0, 7, 0, 2);
    creates(store, 0, 7, b"ab", Ok(all))
        && creates(store, 0, 7, b"cd", Err(Failed))
        && gives(store, all, None)
        && frees(store, 7, 0, 2, Err(Failed))
        && gives(store, all, Some(b"ab"))
}

/// Whether that holds of a store whose calls with these numbers fail.
fn failures_are_told(alloc: Global) -> bool {
    let Ok(mut store) = store(alloc, &[1, 2, 3]) else {
        return false;
    };
    fails_three_times(&mut store)
}

#[test]
fn a_store_that_fails_gives_failed(rt: HostRuntime) {
    assert!(rt; failures_are_told(rt.alloc()));
}
