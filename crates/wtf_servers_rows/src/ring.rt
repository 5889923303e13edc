//! Places on rings of 1, 3, 4 and 16 servers. The expected files and orders were computed apart, with Python's hashlib,
//! by the definition of the ring.

use crate::stores::place;
use std::alloc::Global;
use wtf_ring::Place;

/// The servers of a ring; a region of the file that a call of a transaction made, as transaction, call and region; its
/// backing file, and its servers in order. The last row of 4 servers lies above every point, so its order begins with
/// the first of them.
const ROWS: [Row; 10] = [
    (1, (1, 1, 0), 3, &[0]),
    (1, (7, 3, 4095), 5, &[0]),
    (3, (1, 1, 0), 3, &[1, 2, 0]),
    (3, (1, 2, 0), 0, &[1, 2, 0]),
    (3, (7, 3, 4095), 5, &[1, 2, 0]),
    (4, (1, 1, 0), 3, &[1, 2, 0, 3]),
    (4, (1, 2, 0), 0, &[3, 1, 2, 0]),
    (4, (2, 1, 29), 1, &[1, 3, 2, 0]),
    (
        16,
        (1, 2, 0),
        0,
        &[15, 4, 12, 13, 6, 3, 5, 10, 11, 1, 2, 0, 7, 14, 9, 8],
    ),
    (
        16,
        (7, 3, 4095),
        5,
        &[1, 13, 2, 0, 7, 4, 14, 10, 12, 9, 11, 3, 8, 6, 15, 5],
    ),
];

type Row = (u8, (u64, u32, u16), u8, &'static [u8]);

/// Whether these are the servers of a place, in order.
fn has_servers(place: &Place, order: &[u8]) -> bool {
    if order.len() != place.count() as usize {
        return false;
    }
    for i in 0..place.count() {
        if place.server(i).0 != order[i as usize] {
            return false;
        }
    }
    true
}

/// Whether a region has this file and these servers.
fn has_place(alloc: Global, row: &Row) -> bool {
    let (servers, region, file, order) = row;
    let Some(place) = place(alloc, *servers, *region) else {
        return false;
    };
    place.file() == *file && has_servers(&place, order)
}

/// Whether each row holds.
fn have_places(alloc: Global, rows: &[Row]) -> bool {
    for row in rows {
        if !has_place(alloc, row) {
            return false;
        }
    }
    true
}

#[test]
fn a_region_has_its_place(rt: HostRuntime) {
    assert!(rt; have_places(rt.alloc(), &ROWS));
}
