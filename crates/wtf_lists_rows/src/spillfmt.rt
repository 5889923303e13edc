//! Lists as bytes: the worked row both ways, lists of two entries, and bytes that are no list.

use crate::parts::{Row, holds, list_of};
use std::alloc::Global;
use std::test::Fail;
use wtf_overlay::Overlay;
use wtf_spillfmt::{ListError, decode, encode};

/// The bytes of one entry: at offset 2, of length 4, on server 0, file 3, from offset 16 on.
const ONE: [u8; 28] = [
    0x57, 0x54, 0x46, 0x4c, 0, 0, 0, 1, 0, 0, 0, 2, 0, 0, 0, 4, 1, 1, 0, 3, 0, 0, 0, 0, 0, 0, 0, 16,
];

/// Two that do not join: after that one comes an entry of 2 bytes from offset 24 on.
const TWO: [u8; 48] = [
    0x57, 0x54, 0x46, 0x4c, 0, 0, 0, 2, 0, 0, 0, 2, 0, 0, 0, 4, 1, 1, 0, 3, 0, 0, 0, 0, 0, 0, 0,
    16, 0, 0, 0, 6, 0, 0, 0, 2, 1, 1, 0, 3, 0, 0, 0, 0, 0, 0, 0, 24,
];

/// The bytes of no entry.
const NONE: [u8; 8] = [0x57, 0x54, 0x46, 0x4c, 0, 0, 0, 0];

/// An entry of zeros.
const ZEROS: [u8; 17] = [
    0x57, 0x54, 0x46, 0x4c, 0, 0, 0, 1, 0, 0, 0, 2, 0, 0, 0, 4, 0,
];

/// Rows, the bytes of their list, and where it ends.
const LISTS: [(&[Row], &[u8], u32); 3] = [
    (&[(2, Some(16), 4)], &ONE, 6),
    (&[(2, Some(16), 4), (6, Some(24), 2)], &TWO, 8),
    (&[], &NONE, 0),
];

/// A byte of the one entry's list and what it is changed to, so that no list is left: the first bytes, the
/// count, the length, the kind, the width, and an offset past 2^63 - 1.
const CHANGES: [(usize, u8); 9] = [
    (0, 0x58),
    (7, 0),
    (7, 2),
    (15, 0),
    (16, 0),
    (16, 2),
    (17, 0),
    (17, 4),
    (20, 0x80),
];

/// A byte of the list of two entries and what it is changed to: the second one joins the first, begins before
/// the end of it, or passes the end.
const CHANGES_OF_TWO: [(usize, u8); 3] = [(47, 20), (31, 5), (35, 3)];

/// Whether the compact list has these bytes.
fn is_encoded(alloc: Global, list: &Overlay, bytes: &[u8]) -> Result<bool, Fail> {
    let compact = list.compact()?;
    Ok(encode(alloc, &compact)?.as_slice() == bytes)
}

/// Whether the compact list of these rows has these bytes.
fn has_bytes(alloc: Global, rows: &[Row], bytes: &[u8]) -> Result<bool, Fail> {
    let list = list_of(alloc, rows)?;
    is_encoded(alloc, &list, bytes)
}

/// Whether these bytes are the list of these rows.
fn gives(alloc: Global, bytes: &[u8], region: u32, rows: &[Row]) -> Result<bool, ListError> {
    Ok(holds(&decode(alloc, bytes, region)?, rows))
}

/// Whether these bytes are no list for a region of that size.
fn is_no_list(alloc: Global, bytes: &[u8], region: u32) -> bool {
    match decode(alloc, bytes, region) {
        Ok(_) => false,
        Err(why) => why == ListError::NotAList,
    }
}

/// Whether the bytes with one of them changed are no list.
fn is_none_with(
    alloc: Global,
    bytes: &[u8],
    region: u32,
    (i, value): (usize, u8),
) -> Result<bool, Fail> {
    let mut changed = bytes.to_vec(alloc)?;
    if let Some(byte) = changed.get_mut(i) {
        *byte = value;
    }
    Ok(is_no_list(alloc, changed.as_slice(), region))
}

/// Whether the bytes without the last one are no list.
fn is_none_shorter(alloc: Global, bytes: &[u8], region: u32) -> bool {
    let Some((_, front)) = bytes.split_last() else {
        return false;
    };
    is_no_list(alloc, front, region)
}

/// Whether the bytes with one more behind them are no list.
fn is_none_longer(alloc: Global, bytes: &[u8], region: u32) -> Result<bool, Fail> {
    let mut longer = bytes.to_vec(alloc)?;
    longer.push(0)?;
    Ok(is_no_list(alloc, longer.as_slice(), region))
}

/// Whether each list is written and read.
fn go_both_ways(alloc: Global) -> Result<bool, Fail> {
    for (rows, bytes, region) in &LISTS {
        if !has_bytes(alloc, rows, bytes)? || !gives(alloc, bytes, *region, rows)? {
            return Ok(false);
        }
    }
    Ok(true)
}

#[test]
fn lists_are_written_and_read(rt: HostRuntime) -> Result<(), Fail> {
    assert!(rt; go_both_ways(rt.alloc())?);
    Ok(())
}

/// Whether each list is none where a byte is cut off or left over.
fn are_exact(alloc: Global) -> Result<bool, Fail> {
    for (_, bytes, region) in &LISTS {
        if !is_none_shorter(alloc, bytes, *region) || !is_none_longer(alloc, bytes, *region)? {
            return Ok(false);
        }
    }
    Ok(true)
}

#[test]
fn what_is_cut_off_or_left_over_is_no_list(rt: HostRuntime) -> Result<(), Fail> {
    assert!(rt; are_exact(rt.alloc())?);
    Ok(())
}

/// Whether the bytes are no list with any of these changes.
fn is_none_with_any(
    alloc: Global,
    bytes: &[u8],
    region: u32,
    changes: &[(usize, u8)],
) -> Result<bool, Fail> {
    for change in changes {
        if !is_none_with(alloc, bytes, region, *change)? {
            return Ok(false);
        }
    }
    Ok(true)
}

#[test]
fn what_is_not_a_compact_list_is_no_list(rt: HostRuntime) -> Result<(), Fail> {
    let alloc = rt.alloc();
    assert!(rt;
        is_none_with_any(alloc, &ONE, 6, &CHANGES)?
            && is_none_with_any(alloc, &TWO, 8, &CHANGES_OF_TWO)?
    );
    Ok(())
}

#[test]
fn zeros_and_what_passes_the_region_are_no_list(rt: HostRuntime) -> Result<(), Fail> {
    assert!(rt; is_no_list(rt.alloc(), &ZEROS, 6) && is_no_list(rt.alloc(), &ONE, 5));
    Ok(())
}
