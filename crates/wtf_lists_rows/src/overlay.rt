//! Plans, clipped and compact lists of worked rows, each call once, and lists that are shared and pushed on.

use crate::parts::{Row, entry, holds, list_of, place, push, slice};
use std::alloc::Global;
use std::mem::size_of;
use std::test::Fail;
use wtf_base::OutOfMemory;
use wtf_overlay::{Entry, NotCompact, Overlay, Part, Piece};

/// A piece of a plan: where its bytes begin, and how many they are.
type Told = (Option<u64>, u64);

/// How many bytes the lists that are shared reach over.
const SPAN: u32 = 256;

const A: Row = (0, Some(0), 6);

const X: Row = (2, Some(6), 2);

/// The bytes of X at the end of an entry whose bytes end elsewhere.
const X_NEXT: Row = (4, Some(6), 2);

/// An offset, a length, and the pieces of that plan of the list of A and X.
const PLANS: [(u32, u32, &[Told]); 4] = [
    (0, 6, &[(Some(0), 2), (Some(6), 2), (Some(4), 2)]),
    (3, 5, &[(Some(7), 1), (Some(4), 2), (None, 2)]),
    (4_294_967_295, 2, &[(None, 2)]),
    (0, 0, &[]),
];

/// Rows, and those of the compact list of them.
const COMPACT: [(&[Row], &[Row]); 2] = [
    (
        &[A, X],
        &[(0, Some(0), 2), (2, Some(6), 2), (4, Some(4), 2)],
    ),
    (
        &[
            A,
            (8, Some(8), 4),
            (6, Some(6), 2),
            (2, None, 1),
            (20, Some(6), 2),
            (30, None, 9),
        ],
        &[(0, Some(0), 2), (3, Some(3), 9), (20, Some(6), 2)],
    ),
];

/// Rows, an end, and why they are not taken for a compact list that ends there; none: they are.
type Taking = (&'static [Row], u32, Option<NotCompact>);

const TAKEN: [Taking; 3] = [
    (&[], 0, None),
    (&[A], 6, None),
    (&[(2, Some(0), 2), X_NEXT, (9, Some(8), 1)], 10, None),
];

const REFUSED: [Taking; 5] = [
    (&[A, (8, None, 2)], 10, Some(NotCompact::Zeros)),
    (&[A, X], 6, Some(NotCompact::Order)),
    (&[(8, Some(0), 2), X], 10, Some(NotCompact::Order)),
    (&[A, (6, Some(6), 2)], 8, Some(NotCompact::Joins)),
    (&[A], 5, Some(NotCompact::Past)),
];

/// Whether these are the pieces.
fn are_pieces(pieces: &[Piece], want: &[Told]) -> bool {
    for (piece, (at, len)) in pieces.iter().zip(want) {
        if place(piece.part) != *at || piece.len != *len {
            return false;
        }
    }
    pieces.len() == want.len()
}

/// Whether the plan of the `len` bytes from `off` on is of these pieces.
fn plans(list: &Overlay, off: u32, len: u32, want: &[Told]) -> Result<bool, OutOfMemory> {
    Ok(are_pieces(list.plan(off, len)?.as_slice(), want))
}

fn plans_all(list: &Overlay) -> Result<bool, OutOfMemory> {
    for (off, len, want) in &PLANS {
        if !plans(list, *off, *len, want)? {
            return Ok(false);
        }
    }
    Ok(true)
}

/// Whether the compact list holds these rows.
fn compacts(list: &Overlay, want: &[Row]) -> Result<bool, OutOfMemory> {
    Ok(holds(&list.compact()?, want))
}

fn compacts_all(alloc: Global) -> Result<bool, Fail> {
    for (rows, want) in &COMPACT {
        if !compacts(&list_of(alloc, rows)?, want)? {
            return Ok(false);
        }
    }
    Ok(true)
}

fn add_all(entries: &mut Vec<Entry>, rows: &[Row]) -> Result<(), Fail> {
    for row in rows {
        entries.push(entry(*row).ok_or("no entry")?)?;
    }
    Ok(())
}

/// The entries of some rows.
fn entries_of(alloc: Global, rows: &[Row]) -> Result<Vec<Entry>, Fail> {
    let mut entries = Vec::new(alloc);
    add_all(&mut entries, rows)?;
    Ok(entries)
}

/// Whether the entries of some rows are taken for a compact list that ends at `end`, or refused for this.
fn is_taken(alloc: Global, rows: &[Row], end: u32, why: Option<NotCompact>) -> Result<bool, Fail> {
    match Overlay::of_compact(alloc, entries_of(alloc, rows)?, end) {
        Ok(list) => Ok(why.is_none() && holds(&list, rows)),
        Err(refused) => Ok(why == Some(refused)),
    }
}

fn are_taken(alloc: Global, table: &[Taking]) -> Result<bool, Fail> {
    for (rows, end, why) in table {
        if !is_taken(alloc, rows, *end, *why)? {
            return Ok(false);
        }
    }
    Ok(true)
}

/// The list of X over what that of A holds below `visible`.
fn over(alloc: Global, visible: u32) -> Result<Overlay, Fail> {
    let base = list_of(alloc, &[A])?;
    let top = list_of(alloc, &[X])?;
    Ok(Overlay::over(&base, visible, &top)?)
}

/// Whether the plan of a list with the entries of some rows over it is of these pieces.
fn plans_with(
    alloc: Global,
    list: &Overlay,
    more: &[Row],
    off: u32,
    want: &[Told],
) -> Result<bool, Fail> {
    let more = entries_of(alloc, more)?;
    Ok(are_pieces(list.plan_with(more.as_slice(), off, 6)?.as_slice(), want))
}

/// Whether the entries of some rows that are laid at once make a list of `want`.
fn lays(alloc: Global, list: &mut Overlay, rows: &[Row], want: &[Row]) -> Result<bool, Fail> {
    let more = entries_of(alloc, rows)?;
    list.push_many(more.as_slice())?;
    Ok(holds(list, want))
}

/// Cuts a list of A and X to three bytes, and tells whether the plan and the entries are those.
fn is_cut(list: &mut Overlay) -> Result<bool, OutOfMemory> {
    list.clip(3)?;
    let planned = plans(list, 0, 3, &[(Some(0), 2), (Some(6), 1)])?;
    Ok(planned && holds(list, &[(0, Some(0), 3), (2, Some(6), 1)]))
}

/// Whether a list is sure to be the same as that of some rows.
fn is_same(alloc: Global, list: &Overlay, rows: &[Row]) -> Result<bool, Fail> {
    Ok(list.is_same(&list_of(alloc, rows)?))
}

/// Whether a list of A and X is the same as another one, and not as that of A.
fn is_told_apart(alloc: Global, list: &Overlay) -> Result<bool, Fail> {
    Ok(is_same(alloc, list, &[A, X])? && !is_same(alloc, list, &[A])?)
}

/// Where the part of `len` bytes from byte `from` of A begins.
fn cut(from: u32, len: u32) -> Option<u64> {
    let slice = slice(0, 6)?;
    if len == 0 {
        return None;
    }
    if from.checked_add(len)? > slice.len() {
        return None;
    }
    place(Part::Held(slice).cut(from, len))
}

/// Where the entry of a row ends.
fn end(row: Row) -> Option<u32> {
    Some(entry(row)?.end())
}

/// The row of step `i`: up to 16 bytes, now and then of zeros, at places that come again and again.
fn scattered(i: u32) -> Row {
    let off = (i % 97).saturating_mul(5) % (SPAN - 16);
    let len = 1 + i % 16;
    let zeros = i % 11 == 0;
    (off, if zeros { None } else { Some(i as u64 * 16) }, len)
}

/// The row of step `i` of those that are appended.
fn appended(i: u32) -> Row {
    (i.saturating_mul(5), Some(i as u64 * 16), 1 + i % 5)
}

/// The row of step `i`.
fn step(appends: bool, i: u32) -> Row {
    if appends { appended(i) } else { scattered(i) }
}

/// The place of the byte that lies `i` bytes after the first.
fn later(begin: Option<u64>, i: u64) -> Option<u64> {
    Some(begin?.saturating_add(i))
}

/// What the byte at `at` holds after so many steps: what the last one that reaches it has there.
fn held(appends: bool, steps: u32, at: u32) -> Option<u64> {
    for before in 1..steps.saturating_add(1) {
        let (off, begin, len) = step(appends, steps.saturating_sub(before));
        let i = at.wrapping_sub(off);
        if i < len {
            return later(begin, i as u64);
        }
    }
    None
}

/// Whether the bytes of the pieces are what the span holds after so many steps.
fn are_bytes(pieces: &[Piece], appends: bool, steps: u32) -> bool {
    let mut at = 0u32;
    for piece in pieces {
        for i in 0..piece.len {
            if later(place(piece.part), i) != held(appends, steps, at) {
                return false;
            }
            at = at.saturating_add(1);
        }
    }
    at == SPAN
}

/// Whether the plan of a list tells of each byte of the span what it holds after so many steps.
fn tells(list: &Overlay, appends: bool, steps: u32) -> Result<bool, OutOfMemory> {
    Ok(are_bytes(list.plan(0, SPAN)?.as_slice(), appends, steps))
}

/// Whether the compact list tells it.
fn tells_compact(list: &Overlay, appends: bool, steps: u32) -> Result<bool, OutOfMemory> {
    let compact = list.compact()?;
    tells(&compact, appends, steps)
}

/// Whether a list tells after each of its pushes what each byte holds.
fn tells_each(list: &mut Overlay, appends: bool, steps: u32) -> Result<bool, Fail> {
    for i in 0..steps {
        push(list, step(appends, i))?;
        if !tells(list, appends, i.saturating_add(1))? {
            return Ok(false);
        }
    }
    Ok(true)
}

/// Pushes a hundred entries.
fn push_block(list: &mut Overlay, block: u32) -> Result<(), Fail> {
    for i in 0..100u32 {
        push(list, scattered(block.saturating_mul(100).saturating_add(i)))?;
    }
    Ok(())
}

/// Pushes forty blocks of a hundred entries, and shares the list after each of the first 31.
fn push_blocks(list: &mut Overlay, shares: &mut Vec<Overlay>) -> Result<(), Fail> {
    for block in 0..40u32 {
        push_block(list, block)?;
        if block < 31 {
            shares.push(list.share()?)?;
        }
    }
    Ok(())
}

/// Whether there are so many entries, which tell what each byte holds, compact too.
fn tells_of(list: &Overlay, steps: u32) -> Result<bool, OutOfMemory> {
    Ok(
        list.len() == steps as usize
            && tells(list, false, steps)?
            && tells_compact(list, false, steps)?,
    )
}

/// Whether each list tells of a hundred entries more than the one before it.
fn tell_of_hundreds(lists: &[Overlay]) -> Result<bool, OutOfMemory> {
    let mut steps = 0u32;
    for list in lists {
        steps = steps.wrapping_add(100);
        if !tells_of(list, steps)? {
            return Ok(false);
        }
    }
    Ok(true)
}

/// Whether the shares of a list tell what they did, once it was pushed to, and the list all that was pushed.
fn shares_stay(alloc: Global, list: &mut Overlay) -> Result<bool, Fail> {
    let mut shares = Vec::new(alloc);
    push_blocks(list, &mut shares)?;
    Ok(tells_of(list, 4_000)? && tell_of_hundreds(shares.as_slice())?)
}

#[test]
fn a_list_takes_one_word(rt: HostRuntime) -> Result<(), Fail> {
    assert!(rt; size_of::<Overlay>() == size_of::<usize>());
    Ok(())
}

#[test]
fn later_entries_hide_earlier_ones(rt: HostRuntime) -> Result<(), Fail> {
    let list = list_of(rt.alloc(), &[A, X])?;
    assert!(rt; plans_all(&list)?);
    Ok(())
}

#[test]
fn a_plan_takes_entries_that_no_list_has(rt: HostRuntime) -> Result<(), Fail> {
    let alloc = rt.alloc();
    let list = list_of(alloc, &[A])?;
    assert!(rt; plans_with(alloc, &list, &[X], 0, PLANS[0].2)?);
    assert!(rt; holds(&list, &[A]));
    Ok(())
}

#[test]
fn entries_are_laid_at_once(rt: HostRuntime) -> Result<(), Fail> {
    let alloc = rt.alloc();
    let mut list = list_of(alloc, &[A])?;
    assert!(rt; lays(alloc, &mut list, &[X, (8, None, 2)], &[A, X, (8, None, 2)])?);
    assert!(rt; lays(alloc, &mut list, &[X, A], &[A, X, (8, None, 2), X, A])?);
    Ok(())
}

#[test]
fn lists_are_laid_over_one_another(rt: HostRuntime) -> Result<(), Fail> {
    let list = over(rt.alloc(), 2)?;
    assert!(rt; plans(&list, 0, 4, &[(Some(0), 2), (Some(6), 2)])?);
    Ok(())
}

#[test]
fn lists_are_cut(rt: HostRuntime) -> Result<(), Fail> {
    let mut list = over(rt.alloc(), 6)?;
    assert!(rt; is_cut(&mut list)?);
    Ok(())
}

#[test]
fn lists_are_made_compact(rt: HostRuntime) -> Result<(), Fail> {
    assert!(rt; compacts_all(rt.alloc())?);
    Ok(())
}

#[test]
fn compact_lists_are_taken_as_they_stand(rt: HostRuntime) -> Result<(), Fail> {
    assert!(rt; are_taken(rt.alloc(), &TAKEN)?);
    Ok(())
}

#[test]
fn others_are_refused_for_what_is_not_so(rt: HostRuntime) -> Result<(), Fail> {
    assert!(rt; are_taken(rt.alloc(), &REFUSED)?);
    Ok(())
}

#[test]
fn lists_are_compared_and_parts_are_cut(rt: HostRuntime) -> Result<(), Fail> {
    let list = list_of(rt.alloc(), &[A, X])?;
    assert!(rt; is_told_apart(rt.alloc(), &list)? && cut(2, 3) == Some(2) && end(X) == Some(4));
    Ok(())
}

#[test]
fn each_push_shows_whether_merged_or_not(rt: HostRuntime) -> Result<(), Fail> {
    let mut list = Overlay::new(rt.alloc())?;
    assert!(rt; tells_each(&mut list, false, 70)?);
    Ok(())
}

#[test]
fn each_appended_entry_shows_whether_merged_or_not(rt: HostRuntime) -> Result<(), Fail> {
    let mut list = Overlay::new(rt.alloc())?;
    assert!(rt; tells_each(&mut list, true, 50)?);
    Ok(())
}

#[test]
fn shared_lists_stay_as_they_were(rt: HostRuntime) -> Result<(), Fail> {
    let mut list = Overlay::new(rt.alloc())?;
    assert!(rt; shares_stay(rt.alloc(), &mut list)?);
    Ok(())
}
