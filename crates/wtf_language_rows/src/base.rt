//! Slices cut and joined, the limits of the settings, and each call once.

use crate::texts::bytes;
use std::alloc::{AllocError, AllocFailed, Global};
use wtf_base::{InodeId, OutOfMemory, Pointer, ServerId, Settings, Slice, TxId};

/// `len` bytes of file 0 of server 0, from `at` on.
fn pointer(at: u64, len: u32) -> Pointer {
    Pointer {
        server: ServerId(0),
        file: 0,
        at,
        len,
    }
}

/// The slice of one such pointer.
fn slice(at: u64, len: u32) -> Option<Slice> {
    Slice::of(&[pointer(at, len)])
}

/// Whether a slice has one copy, and that is `len` bytes from `at` on.
fn is_one(slice: &Slice, at: u64, len: u32) -> bool {
    slice.width() == 1 && slice.len() == len && slice.pointer(0) == pointer(at, len)
}

/// Whether a part of a slice that has it is `len` bytes from `at` on.
fn is_cut(slice: &Slice, off: u32, len: u32, at: u64) -> bool {
    if len < 1 || off > slice.len() || len > slice.len() - off {
        return false;
    }
    is_one(&slice.cut(off, len), at, len)
}

/// The length of two slices as one, where they are one.
fn joined_len(first: &Slice, second: &Slice) -> Option<u32> {
    Some(first.join(second)?.len())
}

/// Whether two pointers of one server are refused.
fn refuses_one_server_twice() -> bool {
    Slice::of(&[pointer(0, 6), pointer(9, 6)]).is_none()
}

/// Whether six bytes are cut, and joined with two behind them, but not the other way round.
fn are_cut_and_joined() -> bool {
    let (Some(a), Some(x)) = (slice(0, 6), slice(6, 2)) else {
        return false;
    };
    is_one(&a, 0, 6)
        && is_cut(&a, 2, 3, 2)
        && joined_len(&a, &x) == Some(8)
        && joined_len(&x, &a).is_none()
}

#[test]
fn cuts_and_joins(rt: HostRuntime) {
    assert!(rt; are_cut_and_joined() && refuses_one_server_twice());
}

/// The greatest length of a file, where four servers hold two copies.
fn cap(region: u32) -> Option<u64> {
    Some(Settings::new(4, 2, region)?.cap())
}

/// The servers, the replicas and the bytes of a region, and whether they are inside the limits.
type Asked = (u8, u8, u32, bool);

const ASKED: [Asked; 10] = [
    (1, 1, 64, true),
    (16, 3, 1_048_576, true),
    (3, 3, 65_536, true),
    (0, 1, 64, false),
    (17, 1, 64, false),
    (4, 0, 64, false),
    (4, 4, 64, false),
    (2, 3, 64, false),
    (4, 2, 63, false),
    (4, 2, 1_048_577, false),
];

/// Whether each row holds.
fn are_settings(rows: &[Asked]) -> bool {
    for (servers, replicas, region, inside) in rows {
        if Settings::new(*servers, *replicas, *region).is_some() != *inside {
            return false;
        }
    }
    true
}

#[test]
fn settings_keep_the_limits(rt: HostRuntime) {
    assert!(rt; are_settings(&ASKED) && cap(65_536) == Some(268_435_456));
}

fn inode(tx: u64, index: u32) -> InodeId {
    InodeId {
        tx: TxId(tx),
        index,
    }
}

fn is_before(first: InodeId, second: InodeId) -> bool {
    first < second
}

/// Whether bytes are shown and given back as they came.
fn are_kept(alloc: Global, text: &[u8]) -> bool {
    let Ok(shown) = bytes(alloc, text) else {
        return false;
    };
    let same = shown.as_slice() == text;
    same && shown.into_vec().as_slice() == text
}

/// Whether texts are equal as bytes, or not.
fn are_equal(alloc: Global, first: &[u8], second: &[u8], want: bool) -> bool {
    let Ok(first) = bytes(alloc, first) else {
        return false;
    };
    let Ok(second) = bytes(alloc, second) else {
        return false;
    };
    (first == second) == want
}

#[test]
fn orders_inodes_and_compares_bytes(rt: HostRuntime) {
    let alloc = rt.alloc();
    assert!(rt;
        is_before(inode(1, 2), inode(2, 1))
            && are_kept(alloc, &[1, 2])
            && are_equal(alloc, &[1, 2], &[1, 2], true)
            && are_equal(alloc, &[1, 2], &[1, 3], false)
    );
}

fn lacks() -> bool {
    OutOfMemory::from(AllocError) == OutOfMemory
        && OutOfMemory::from(AllocFailed { value: 7 }) == OutOfMemory
}

#[test]
fn want_of_memory_is_told(rt: HostRuntime) {
    assert!(rt; lacks());
}
