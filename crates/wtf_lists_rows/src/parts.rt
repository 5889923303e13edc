//! Slices, entries, lists and pieces made from plain numbers.

use std::alloc::Global;
use std::test::Fail;
use wtf_base::{InodeId, OutOfMemory, Pointer, ServerId, Slice, TxId};
use wtf_overlay::{Entry, Overlay, Part, Piece};

/// An entry: its offset, where its bytes begin in file 3 of server 0 (none: zeros), and how many they are.
pub(crate) type Row = (u32, Option<u64>, u32);

/// The slice of the `len` bytes at `at`, in file 3 of server 0: A is the 6 bytes at 0, X the 2 at 6.
pub(crate) fn slice(at: u64, len: u32) -> Option<Slice> {
    Slice::of(&[Pointer {
        server: ServerId(0),
        file: 3,
        at,
        len,
    }])
}

/// The entry at `off` of the `len` bytes at `at`.
fn held(off: u32, at: u64, len: u32) -> Option<Entry> {
    let slice = slice(at, len)?;
    let _end = off.checked_add(slice.len())?;
    Some(Entry::of(off, slice.len(), Part::Held(slice)))
}

/// Zeros of `len` bytes at `off`.
fn zeros(off: u32, len: u32) -> Option<Entry> {
    let _end = off.checked_add(len)?;
    if len == 0 {
        return None;
    }
    Some(Entry::of(off, len, Part::Zero))
}

/// The entry of a row.
pub(crate) fn entry(row: Row) -> Option<Entry> {
    match row {
        (off, Some(at), len) => held(off, at, len),
        (off, None, len) => zeros(off, len),
    }
}

/// Pushes the entry of a row.
pub(crate) fn push(list: &mut Overlay, row: Row) -> Result<(), Fail> {
    list.push(entry(row).ok_or("no entry")?)?;
    Ok(())
}

fn push_all(list: &mut Overlay, rows: &[Row]) -> Result<(), Fail> {
    for row in rows {
        push(list, *row)?;
    }
    Ok(())
}

/// The list of the entries of some rows.
pub(crate) fn list_of(alloc: Global, rows: &[Row]) -> Result<Overlay, Fail> {
    let mut list = Overlay::new(alloc)?;
    push_all(&mut list, rows)?;
    Ok(list)
}

/// Whether a list holds the entries of these rows.
pub(crate) fn holds(list: &Overlay, rows: &[Row]) -> bool {
    for i in 0..list.len() {
        let Some(row) = rows.get(i) else {
            return false;
        };
        if entry(*row) != Some(list.get(i)) {
            return false;
        }
    }
    list.len() == rows.len()
}

/// Where the bytes of a part begin in file 3 of server 0.
pub(crate) fn place(part: Part) -> Option<u64> {
    match part {
        Part::Zero => None,
        Part::Held(slice) => Some(slice.pointer(0).at),
    }
}

fn put_all(pieces: &mut Vec<Piece>, lens: &[u64]) -> Result<(), OutOfMemory> {
    for len in lens {
        if *len > 0 {
            pieces.push(Piece::of(*len, Part::Zero))?;
        }
    }
    Ok(())
}

/// Pieces of zeros, of so many bytes each.
pub(crate) fn pieces(alloc: Global, lens: &[u64]) -> Result<Vec<Piece>, OutOfMemory> {
    let mut pieces = Vec::new(alloc);
    put_all(&mut pieces, lens)?;
    Ok(pieces)
}

/// An inode.
pub(crate) fn inode() -> InodeId {
    InodeId {
        tx: TxId(1),
        index: 2,
    }
}
