//! Copies made, read, freed and synced on servers in memory, of which some are down and some fail.

ghost use Rattle.std.specs.Prelude.{◌≡◌, length, IfSome};
ghost use Rattle.wtf_base.specs.Slices.{len_of};
ghost use Rattle.wtf_dev.specs.Memory.{mem_store};
ghost use Rattle.wtf_replica.specs.Downs.{settings_of};
ghost use Rattle.wtf_replica.specs.Copies.{IsInside};

use crate::stores::{place, shelf};
use std::alloc::Global;
use wtf_base::{Fault, Pointer, ServerId, Settings, Slice};
use wtf_dev::{Failed, MemStore, Shelf, SliceStore};
use wtf_replica::{Replicas, lies_inside, slice_lies_inside};
use wtf_ring::Place;

/// The backing file of both copies.
const FILE: u8 = 3;

/// So many servers with two copies of a slice, of which these are down.
fn replicas(servers: u8, down: &[u8]) -> Option<Replicas>
    ensures { IfSome result (λ r. (settings_of r).servers ≡ servers) }
{
    let settings = Settings::new(servers, 2, 64)?;
    let mut replicas = Replicas::new(settings);
    for k in down {
        if *k < servers {
            replicas.down(*k);
        }
    }
    Some(replicas)
}

/// A slice of four bytes with a copy on each of two servers, made by the first call on each store. So that tests see
/// which copy is read, the copies differ.
fn two_copies(shelf: &mut Shelf<MemStore>) -> Option<Slice>
    requires two { length shelf.old ≡ 2 }
    ensures two { length shelf.new ≡ 2 }
    ensures inside { IfSome result (IsInside mem_store shelf.new) }
    ensures len { IfSome result (λ s. len_of s ≡ 4) }
{
    let Ok(first) = wtf_server::create(shelf.store(0), ServerId(0), FILE, b"abcd") else {
        return None;
    };
    let Ok(second) = wtf_server::create(shelf.store(1), ServerId(1), FILE, b"efgh") else {
        return None;
    };
    Slice::of(&[first, second])
}

/// The servers that are down, the call of each store that fails, if any, and the bytes that are read with their server,
/// or the fault.
type Fetch = (
    &'static [u8],
    (Option<u64>, Option<u64>),
    Result<(ServerId, [u8; 2]), Fault>,
);

/// Whether this is what is read from byte 1 on of a slice.
fn gives(
    replicas: &Replicas,
    shelf: &mut Shelf<MemStore>,
    want: Result<(ServerId, [u8; 2]), Fault>,
) -> bool
    requires { length shelf.old ≡ 2 }
{
    let Some(slice) = two_copies(shelf) else {
        return false;
    };
    let mut out = [0; 2];
    match replicas.fetch(shelf, &slice, 1, &mut out) {
        Ok(server) => want == Ok((server, out)),
        Err(fault) => want == Err(fault),
    }
}

/// Whether that is read on two stores.
fn is_fetched(alloc: Global, row: &Fetch) -> bool {
    let (down, fails, want) = row;
    let Some(replicas) = replicas(2, down) else {
        return false;
    };
    let Some(mut shelf) = shelf(alloc, &[fails.0, fails.1]) else {
        return false;
    };
    gives(&replicas, &mut shelf, *want)
}

const FIRST: Result<(ServerId, [u8; 2]), Fault> = Ok((ServerId(0), *b"bc"));

const SECOND: Result<(ServerId, [u8; 2]), Fault> = Ok((ServerId(1), *b"fg"));

const UNREAD: Result<(ServerId, [u8; 2]), Fault> = Err(Fault::Read(ServerId(1)));

const FETCHES: [Fetch; 9] = [
    (&[], (None, None), FIRST),
    (&[0], (None, None), SECOND),
    (&[1], (None, None), FIRST),
    (&[0, 1], (None, None), UNREAD),
    (&[], (Some(1), None), SECOND),
    (&[], (None, Some(1)), FIRST),
    (&[], (Some(1), Some(1)), UNREAD),
    (&[0], (None, Some(1)), UNREAD),
    (&[1], (Some(1), None), UNREAD),
];

/// Whether each row holds.
fn are_fetched(alloc: Global, rows: &[Fetch]) -> bool {
    for row in rows {
        if !is_fetched(alloc, row) {
            return false;
        }
    }
    true
}

#[test]
fn the_first_copy_that_can_be_read_is_read(rt: HostRuntime) {
    assert!(rt; are_fetched(rt.alloc(), &FETCHES));
}

/// The servers that are down, the call of the first store that fails, if any, a range, the answer, and what the copy then
/// holds.
type Freed = (
    &'static [u8],
    Option<u64>,
    (u64, u64),
    Result<(), Fault>,
    [u8; 4],
);

/// Whether this is the answer when a range of the copy on server 0 is freed.
fn frees(
    replicas: &Replicas,
    shelf: &mut Shelf<MemStore>,
    range: (u64, u64),
    want: Result<(), Fault>,
) -> bool {
    let (at, len) = range;
    if shelf.len() == 0 || shelf.length(0, FILE) != 4 || len > 4 || at > 4 - len {
        return false;
    }
    replicas.free(shelf, 0, FILE, at, len) == want
}

/// Whether the copy on server 0 holds these bytes.
fn holds(shelf: &mut Shelf<MemStore>, want: &[u8; 4]) -> bool {
    let mut held = [0; 4];
    if shelf.len() == 0 || shelf.length(0, FILE) != 4 {
        return false;
    }
    shelf.store(0).read(FILE, 0, &mut held) == Ok(()) && held == *want
}

/// Whether this is the answer when a range of a copy is freed, and what it then holds.
fn is_freed(alloc: Global, row: &Freed) -> bool {
    let (down, fails, range, want, held) = row;
    let Some(replicas) = replicas(2, down) else {
        return false;
    };
    let Some(mut shelf) = shelf(alloc, &[*fails, None]) else {
        return false;
    };
    two_copies(&mut shelf).is_some()
        && frees(&replicas, &mut shelf, *range, *want)
        && holds(&mut shelf, held)
}

const NOT_FREED: Result<(), Fault> = Err(Fault::Punch(ServerId(0)));

const FREED: [Freed; 5] = [
    (&[], None, (1, 2), Ok(()), *b"a\0\0d"),
    (&[1], None, (1, 2), Ok(()), *b"a\0\0d"),
    (&[0], None, (1, 2), NOT_FREED, *b"abcd"),
    (&[], Some(1), (1, 2), NOT_FREED, *b"abcd"),
    (&[0, 1], None, (0, 4), NOT_FREED, *b"abcd"),
];

/// Whether each row holds.
fn are_freed(alloc: Global, rows: &[Freed]) -> bool {
    for row in rows {
        if !is_freed(alloc, row) {
            return false;
        }
    }
    true
}

#[test]
fn a_range_is_freed_on_a_server_that_is_up(rt: HostRuntime) {
    assert!(rt; are_freed(rt.alloc(), &FREED));
}

/// Whether the four bytes of a slice whose copy on server 0 was freed are read from there, as zeros.
fn zeros_are_fetched(shelf: &mut Shelf<MemStore>) -> bool
    requires { length shelf.old ≡ 2 }
{
    let Some(replicas) = replicas(2, &[]) else {
        return false;
    };
    let Some(slice) = two_copies(shelf) else {
        return false;
    };
    if shelf.length(0, FILE) != 4 || replicas.free(shelf, 0, FILE, 0, 4) != Ok(()) {
        return false;
    }
    let mut out = [1; 4];
    replicas.fetch(shelf, &slice, 0, &mut out) == Ok(ServerId(0)) && out == [0; 4]
}

/// Whether that holds on two stores.
fn freed_copy_is_read(alloc: Global) -> bool {
    let Some(mut shelf) = shelf(alloc, &[None, None]) else {
        return false;
    };
    zeros_are_fetched(&mut shelf)
}

#[test]
fn a_freed_copy_is_read_as_zeros(rt: HostRuntime) {
    assert!(rt; freed_copy_is_read(rt.alloc()));
}

/// Whether the stores of all servers are synced, or of those that are up; the servers that are down, the call of each store
/// that fails, if any, and the answer.
type Sync = (
    bool,
    &'static [u8],
    (Option<u64>, Option<u64>),
    Result<(), Failed>,
);

/// Whether this is the answer of a sync of two stores.
fn is_synced(alloc: Global, row: &Sync) -> bool {
    let (all, down, fails, want) = row;
    let Some(replicas) = replicas(2, down) else {
        return false;
    };
    let Some(mut shelf) = shelf(alloc, &[fails.0, fails.1]) else {
        return false;
    };
    if *all {
        return replicas.sync_all(&mut shelf) == *want;
    }
    replicas.sync_up(&mut shelf) == *want
}

/// Whether each row holds.
fn are_synced(alloc: Global, rows: &[Sync]) -> bool {
    for row in rows {
        if !is_synced(alloc, row) {
            return false;
        }
    }
    true
}

const SYNCED: [Sync; 5] = [
    (true, &[], (None, None), Ok(())),
    (true, &[0], (None, None), Err(Failed)),
    (true, &[1], (None, None), Err(Failed)),
    (true, &[], (Some(0), None), Err(Failed)),
    (true, &[], (None, Some(0)), Err(Failed)),
];

#[test]
fn all_stores_are_synced_where_all_are_up(rt: HostRuntime) {
    assert!(rt; are_synced(rt.alloc(), &SYNCED));
}

const SYNCED_UP: [Sync; 8] = [
    (false, &[], (None, None), Ok(())),
    (false, &[0], (None, None), Ok(())),
    (false, &[0], (Some(0), None), Ok(())),
    (false, &[1], (None, Some(0)), Ok(())),
    (false, &[0, 1], (Some(0), Some(0)), Ok(())),
    (false, &[], (None, Some(0)), Err(Failed)),
    (false, &[1], (Some(0), None), Err(Failed)),
    (false, &[0], (None, Some(0)), Err(Failed)),
];

#[test]
fn stores_of_servers_that_are_up_are_synced(rt: HostRuntime) {
    assert!(rt; are_synced(rt.alloc(), &SYNCED_UP));
}

/// How many servers there are, an extent, and whether it lies inside two stores whose files 3 have four bytes each.
type Extent = (u8, u8, u8, u64, u32, bool);

/// Whether an extent lies inside the stores, or not.
fn lies(shelf: &Shelf<MemStore>, row: &Extent) -> bool {
    let (servers, server, file, at, len, want) = row;
    if *servers > shelf.len() {
        return false;
    }
    let extent = Pointer {
        server: ServerId(*server),
        file: *file,
        at: *at,
        len: *len,
    };
    lies_inside(*servers, shelf, extent) == *want
}

/// Whether each row holds.
fn lie(shelf: &Shelf<MemStore>, rows: &[Extent]) -> bool {
    for row in rows {
        if !lies(shelf, row) {
            return false;
        }
    }
    true
}

const EXTENTS: [Extent; 6] = [
    (2, 1, FILE, 0, 4, true),
    (2, 1, FILE, 3, 1, true),
    (1, 1, FILE, 0, 4, false),
    (2, 1, 8, 0, 4, false),
    (2, 1, FILE, 0, 5, false),
    (2, 1, FILE, 5, 1, false),
];

/// Whether extents lie inside the stores or not, and a slice with copies on two servers inside those of both, but not of
/// one.
fn are_inside(shelf: &mut Shelf<MemStore>, rows: &[Extent]) -> bool
    requires { length shelf.old ≡ 2 }
{
    let Some(slice) = two_copies(shelf) else {
        return false;
    };
    lie(shelf, rows) && slice_lies_inside(2, shelf, &slice) && !slice_lies_inside(1, shelf, &slice)
}

/// Whether that holds on two stores.
fn lie_on_two_stores(alloc: Global, rows: &[Extent]) -> bool {
    let Some(mut shelf) = shelf(alloc, &[None, None]) else {
        return false;
    };
    are_inside(&mut shelf, rows)
}

#[test]
fn extents_and_slices_lie_inside_the_stores_or_not(rt: HostRuntime) {
    assert!(rt; lie_on_two_stores(rt.alloc(), &EXTENTS));
}

/// The first region of the first file of the first transaction. On a ring of three servers its place is 1, 2 and 0.
const REGION: (u64, u32, u16) = (1, 1, 0);

/// The servers that are down, the call of each store that fails, if any, and the servers of the copies of the slice that
/// is stored, or the fault.
type Created = (
    &'static [u8],
    (Option<u64>, Option<u64>, Option<u64>),
    Result<(u8, u8), Fault>,
);

/// Whether a slice has two copies on these servers, and its bytes are read back from the first.
fn is_read_back(
    replicas: &Replicas,
    shelf: &mut Shelf<MemStore>,
    slice: &Slice,
    want: Result<(u8, u8), Fault>,
) -> bool
    requires { IsInside mem_store shelf.old slice.now }
{
    let Ok((first, second)) = want else {
        return false;
    };
    if slice.width() != 2 || slice.len() != 3 {
        return false;
    }
    let servers = slice.pointer(0).server.0 == first && slice.pointer(1).server.0 == second;
    let mut out = [0; 2];
    let read = replicas.fetch(shelf, slice, 1, &mut out);
    servers && read == Ok(ServerId(first)) && out == *b"bc"
}

/// Whether these are the servers of the copies of a slice that is stored at a place on three servers, and its bytes are
/// read back from the first.
fn is_created(alloc: Global, place: &Place, row: &Created) -> bool {
    let (down, fails, want) = row;
    let Some(replicas) = replicas(3, down) else {
        return false;
    };
    if place.count() != 3 {
        return false;
    }
    let Some(mut shelf) = shelf(alloc, &[fails.0, fails.1, fails.2]) else {
        return false;
    };
    match replicas.create(&mut shelf, place, b"abc") {
        Ok(slice) => is_read_back(&replicas, &mut shelf, &slice, *want),
        Err(fault) => *want == Err(fault),
    }
}

const NONE: Result<(u8, u8), Fault> = Err(Fault::Write);

const CREATED: [Created; 10] = [
    (&[], (None, None, None), Ok((1, 2))),
    (&[1], (None, None, None), Ok((0, 2))),
    (&[2], (None, None, None), Ok((0, 1))),
    (&[0], (None, None, None), Ok((1, 2))),
    (&[1, 2], (None, None, None), NONE),
    (&[], (None, Some(0), None), Ok((0, 2))),
    (&[], (None, None, Some(0)), Ok((0, 1))),
    (&[], (Some(0), None, None), Ok((1, 2))),
    (&[], (None, Some(0), Some(0)), NONE),
    (&[0], (None, Some(0), None), NONE),
];

/// Whether each row holds.
fn are_created(alloc: Global, place: &Place, rows: &[Created]) -> bool {
    for row in rows {
        if !is_created(alloc, place, row) {
            return false;
        }
    }
    true
}

/// Whether each row holds on three servers.
fn are_stored(alloc: Global, rows: &[Created]) -> bool {
    let Some(place) = place(alloc, 3, REGION) else {
        return false;
    };
    are_created(alloc, &place, rows)
}

#[test]
fn a_slice_is_stored_on_the_first_servers_that_take_it(rt: HostRuntime) {
    assert!(rt; are_stored(rt.alloc(), &CREATED));
}

/// The servers that go down once a slice is stored, and the server that its bytes are read from, or the fault.
type Later = (&'static [u8], Result<ServerId, Fault>);

const LATER: [Later; 2] = [
    (&[0], Ok(ServerId(1))),
    (&[0, 1], Err(Fault::Read(ServerId(1)))),
];

/// A slice of four bytes that is stored at a place on two servers that are up.
fn stored(place: &Place, shelf: &mut Shelf<MemStore>) -> Option<Slice>
    requires { length shelf.old ≡ 2 }
    ensures inside { IfSome result (IsInside mem_store shelf.new) }
{
    let replicas = replicas(2, &[])?;
    if place.count() != 2 {
        return None;
    }
    match replicas.create(shelf, place, b"abcd") {
        Ok(slice) => Some(slice),
        Err(_) => None,
    }
}

/// Whether this is what is read of such a slice, where servers are down.
fn is_read(shelf: &mut Shelf<MemStore>, slice: &Slice, row: &Later) -> bool
    requires { IsInside mem_store shelf.old slice.now }
{
    let (down, want) = row;
    let Some(replicas) = replicas(2, down) else {
        return false;
    };
    if shelf.len() == 0 || shelf.length(0, FILE) != 4 {
        return false;
    }
    if slice.width() != 2 || slice.len() != 4 {
        return false;
    }
    let mut out = [0; 4];
    let read = replicas.fetch(shelf, slice, 0, &mut out);
    read == *want && (read.is_err() || out == *b"abcd")
}

/// Whether that is read of a slice which was stored before the servers went down.
fn is_read_later(alloc: Global, place: &Place, row: &Later) -> bool {
    let Some(mut shelf) = shelf(alloc, &[None, None]) else {
        return false;
    };
    let Some(slice) = stored(place, &mut shelf) else {
        return false;
    };
    is_read(&mut shelf, &slice, row)
}

/// Whether both rows hold.
fn are_read_later(alloc: Global, rows: &[Later; 2]) -> bool {
    let Some(place) = place(alloc, 2, REGION) else {
        return false;
    };
    is_read_later(alloc, &place, &rows[0]) && is_read_later(alloc, &place, &rows[1])
}

#[test]
fn what_was_stored_is_read_until_all_servers_are_down(rt: HostRuntime) {
    assert!(rt; are_read_later(rt.alloc(), &LATER));
}

/// Whether server 2 of three alone is down where it is told to be, and comes up again.
fn goes_down_and_comes_up(down: &[u8]) -> bool {
    let Some(mut replicas) = replicas(3, down) else {
        return false;
    };
    if replicas.is_down(1) || !replicas.is_down(2) {
        return false;
    }
    replicas.up(2);
    !replicas.is_down(2)
}

#[test]
fn servers_go_down_and_come_up(rt: HostRuntime) {
    assert!(rt; goes_down_and_comes_up(&[2]));
}
