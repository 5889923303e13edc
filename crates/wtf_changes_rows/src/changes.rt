//! Changes both ways: bytes that are read, and written again.

use std::alloc::Global;
use std::test::Fail;
use wtf_changes::{Changes, PathChange, read, write};
use wtf_spillfmt::ListError;
use wtf_values::Node;

/// 1 install, next transaction 2: `/a`, a file; its inode, with the last region 0; no region.
const MADE: [u8; 60] = [
    0, 0, 0, 0, 0, 0, 0, 1, 0, 0, 0, 0, 0, 0, 0, 2, 0, 0, 0, 1, 0, 2, 47, 97, 1, 0, 0, 0, 0, 0, 0,
    0, 1, 0, 0, 0, 1, 0, 0, 0, 1, 0, 0, 0, 0, 0, 0, 0, 1, 0, 0, 0, 1, 1, 0, 0, 0, 0, 0, 0,
];

/// 2 installs, next transaction 3: the path, the file and a region 7 are gone.
const GONE: [u8; 61] = [
    0, 0, 0, 0, 0, 0, 0, 2, 0, 0, 0, 0, 0, 0, 0, 3, 0, 0, 0, 1, 0, 2, 47, 97, 2, 0, 0, 0, 1, 0, 0,
    0, 0, 0, 0, 0, 1, 0, 0, 0, 1, 0, 0, 0, 0, 1, 0, 0, 0, 0, 0, 0, 0, 1, 0, 0, 0, 1, 0, 7, 0,
];

/// 3 installs, next transaction 4: region 0 of a file is 6 bytes of server 0, file 0, from offset 0 on.
const GIVEN: [u8; 72] = [
    0, 0, 0, 0, 0, 0, 0, 3, 0, 0, 0, 0, 0, 0, 0, 4, 0, 0, 0, 0, 0, 0, 0, 0, 0, 0, 0, 1, 0, 0, 0, 0,
    0, 0, 0, 1, 0, 0, 0, 1, 0, 0, 1, 0, 0, 0, 6, 0, 0, 0, 0, 1, 0, 0, 0, 0, 0, 0, 0, 6, 1, 1, 0, 0,
    0, 0, 0, 0, 0, 0, 0, 0,
];

/// The numbers that were read, and how many paths, files and regions.
fn numbers(changes: &Changes) -> (u64, u64, usize, usize, usize) {
    (
        changes.installs,
        changes.next_tx,
        changes.paths.len(),
        changes.files.len(),
        changes.regions.len(),
    )
}

/// The bytes that are written of what was read.
fn again(alloc: Global, changes: &Changes) -> Result<Vec<u8>, Fail> {
    Ok(write(alloc, changes)?)
}

fn refusal(alloc: Global, bytes: &[u8]) -> Option<ListError> {
    read(alloc, bytes).err()
}

/// The last region of the first file, none where it is gone.
fn last(changes: &Changes) -> Option<u16> {
    changes.files.first()?.last
}

/// Whether a file stands at the first path.
fn is_file(changes: &Changes) -> bool {
    match changes.paths.first() {
        Some(
            PathChange {
                path: _,
                node: Some(Node::File(_)),
            },
        ) => true,
        _ => false,
    }
}

/// The number of the first region, and where it ends.
fn region(changes: &Changes) -> Option<(u16, u32)> {
    let region = changes.regions.first()?;
    match &region.value {
        Some(value) => Some((region.number, value.end)),
        None => None,
    }
}

#[test]
fn changes_are_read_and_written_again(rt: HostRuntime) -> Result<(), Fail> {
    for (bytes, want) in [
        (MADE.as_slice(), (1, 2, 1, 1, 0)),
        (&GONE, (2, 3, 1, 1, 1)),
        (&GIVEN, (3, 4, 0, 0, 1)),
    ] {
        let changes = read(rt.alloc(), bytes)?;
        assert_eq!(rt; numbers(&changes), want);
        let written = again(rt.alloc(), &changes)?;
        assert_eq!(rt; written.as_slice(), bytes);
    }
    Ok(())
}

#[test]
fn what_changed_is_told(rt: HostRuntime) -> Result<(), Fail> {
    let made = read(rt.alloc(), &MADE)?;
    assert!(rt; is_file(&made));
    assert_eq!(rt; last(&made), Some(0));
    let gone = read(rt.alloc(), &GONE)?;
    assert!(rt; !is_file(&gone));
    assert_eq!(rt; last(&gone), None);
    assert_eq!(rt; region(&gone), None);
    let given = read(rt.alloc(), &GIVEN)?;
    assert_eq!(rt; region(&given), Some((0, 6)));
    Ok(())
}

#[test]
fn other_bytes_are_no_changes(rt: HostRuntime) -> Result<(), Fail> {
    for n in 0..MADE.len() {
        assert_eq!(rt;
            refusal(rt.alloc(), &MADE[..n]),
            Some(ListError::NotAList),
            "{n}"
        );
    }
    Ok(())
}
