//! What comes of changes of worked rows, and keys in order.

use crate::parts::{Row, entry, inode, pieces, slice};
use std::alloc::Global;
use std::test::Fail;
use wtf_base::OutOfMemory;
use wtf_kv::{Cell, Kv, StoreKey, Summarized};
use wtf_occ::Attempt;
use wtf_overlay::{Overlay, Piece};
use wtf_path::Path;
use wtf_values::{Delta, Key, Name, NameSet, Pieces, RegionValue, Summary, Value};

/// What came of a change: a region by its end, how far its base is seen, and the number of its
/// entries; names and paths by their number.
#[derive(Clone, Copy)]
enum Shape {
    Gone,
    Region(u32, Option<u32>, usize),
    Last(u16),
    Names(usize),
    Count(u64),
}

/// A change in plain numbers and texts.
#[derive(Clone, Copy)]
enum Edit {
    Push(Row),
    /// Zeros of these lengths, in a region of 64 bytes.
    Add(&'static [u64]),
    Clip(u32),
    Zero(u32, u32),
    Raise(u16),
    SetLast(u16),
    PutLast(u16),
    AddName(&'static [u8]),
    DropName(&'static [u8]),
    AddLink,
    SubLink,
    Remove,
}

/// Changes of a region of 60 bytes, all of them in its base.
const OF_REGION: [(Edit, Shape); 8] = [
    (Edit::Add(&[]), Shape::Region(60, Some(60), 0)),
    (Edit::Add(&[4]), Shape::Region(64, Some(60), 1)),
    (Edit::Add(&[1, 3]), Shape::Region(64, Some(60), 2)),
    (Edit::Clip(0), Shape::Region(0, None, 0)),
    (Edit::Clip(7), Shape::Region(7, Some(7), 0)),
    (Edit::Clip(64), Shape::Region(64, Some(60), 0)),
    (Edit::Zero(59, 90), Shape::Region(60, Some(60), 1)),
    (Edit::Zero(60, 90), Shape::Region(60, Some(60), 0)),
];

/// Changes where there is no value.
const OF_NONE: [(Edit, Shape); 6] = [
    (Edit::AddLink, Shape::Count(2)),
    (Edit::SubLink, Shape::Gone),
    (Edit::Zero(0, 9), Shape::Gone),
    (Edit::Raise(1), Shape::Gone),
    (Edit::PutLast(5), Shape::Last(5)),
    (Edit::Push((2, Some(6), 2)), Shape::Region(4, None, 1)),
];

/// Changes of a last region 5.
const OF_LAST: [(Edit, Shape); 5] = [
    (Edit::Raise(3), Shape::Last(5)),
    (Edit::Raise(7), Shape::Last(7)),
    (Edit::SetLast(3), Shape::Last(3)),
    (Edit::Clip(3), Shape::Last(5)),
    (Edit::Remove, Shape::Gone),
];

/// Changes of the name of /a.
const OF_NAMES: [(Edit, Shape); 3] = [
    (Edit::AddName(b"/d"), Shape::Names(2)),
    (Edit::AddName(b"/a"), Shape::Names(1)),
    (Edit::DropName(b"/a"), Shape::Names(0)),
];

/// Changes of a number of two paths.
const OF_COUNT: [(Edit, Shape); 4] = [
    (Edit::AddLink, Shape::Count(3)),
    (Edit::SubLink, Shape::Gone),
    (Edit::Raise(7), Shape::Count(2)),
    (Edit::Remove, Shape::Gone),
];

/// Edits of the last region of a file that had none, and what its summary is then.
const SUMMARIES: [(&[Edit], Summary); 3] = [
    (&[], Summary::Missing),
    (&[Edit::PutLast(5)], Summary::Last(5)),
    (&[Edit::PutLast(5), Edit::Raise(7)], Summary::Last(7)),
];

/// Lengths of pieces, and how many bytes they have.
const PIECES: [(&[u64], u64); 4] = [(&[], 0), (&[4], 4), (&[1, 3], 4), (&[65], 65)];

/// The same three names.
const ORDERS: [&[&[u8]]; 5] = [
    &[b"/b", b"/a", b"/c"],
    &[b"/a", b"/b", b"/c"],
    &[b"/c", b"/a", b"/b"],
    &[b"/a", b"/a", b"/b", b"/c", b"/c"],
    &[b"/b", b"/c", b"/b", b"/a"],
];

fn name(alloc: Global, path: &[u8]) -> Result<Name, Fail> {
    Ok(Name::of(alloc, &Path::parse(alloc, path)?)?)
}

/// Pieces of zeros of these lengths.
fn zeros(alloc: Global, lens: &[u64]) -> Result<Pieces, Fail> {
    Ok(Pieces::of(alloc, pieces(alloc, lens)?.as_slice())?)
}

/// The change of a store that an edit stands for.
fn delta(alloc: Global, edit: Edit) -> Result<Delta, Fail> {
    match edit {
        Edit::Push(row) => Ok(Delta::Push(entry(row).ok_or("no entry")?)),
        Edit::Add(lens) => Ok(Delta::PushRel(zeros(alloc, lens)?, 64)),
        Edit::Clip(end) => Ok(Delta::Clip(end)),
        Edit::Zero(from, upto) => Ok(Delta::ZeroWithin(from, upto)),
        Edit::Raise(n) => Ok(Delta::RaiseLast(n)),
        Edit::SetLast(n) => Ok(Delta::SetLast(n)),
        Edit::PutLast(n) => Ok(Delta::Put(Value::Last(n))),
        Edit::AddName(path) => Ok(Delta::DirAdd(name(alloc, path)?)),
        Edit::DropName(path) => Ok(Delta::DirDel(name(alloc, path)?)),
        Edit::AddLink => Ok(Delta::LinkAdd),
        Edit::SubLink => Ok(Delta::LinkSub),
        Edit::Remove => Ok(Delta::Remove),
    }
}

/// Whether a region is of this shape.
fn is_region(v: &RegionValue, (end, base, entries): (u32, Option<u32>, usize)) -> bool {
    v.end == end && visible(v) == base && v.list.len() == entries
}

/// Whether a value is of this shape.
fn is_of(value: Option<&Value>, shape: Shape) -> bool {
    match (value, shape) {
        (None, Shape::Gone) => true,
        (Some(Value::Names(names)), Shape::Names(count)) => names.count() == count,
        (Some(Value::Last(n)), Shape::Last(last)) => *n == last,
        (Some(Value::Count(n)), Shape::Count(count)) => *n == count,
        (Some(Value::Region(v)), Shape::Region(end, base, entries)) => {
            is_region(v, (end, base, entries))
        }
        _ => false,
    }
}

/// How far the base of a region is seen.
fn visible(v: &RegionValue) -> Option<u32> {
    Some(v.base?.visible)
}

fn summary_of(value: Option<&Value>) -> Summary {
    match value {
        None => Value::no_summary(),
        Some(value) => value.summary(),
    }
}

/// Whether the summary of a value after a change is the one that is told by that before it.
fn is_summed(before: Option<&Value>, delta: &Delta, after: Option<&Value>) -> bool {
    Value::same_summary(
        summary_of(after),
        Value::summary_after(summary_of(before), delta),
    )
}

fn copied(alloc: Global, value: Option<&Value>) -> Result<Option<Value>, OutOfMemory> {
    match value {
        Some(value) => Ok(Some(value.copy(alloc)?)),
        None => Ok(None),
    }
}

/// Whether a change of a copy of the value fits or not, and leaves this shape and the summary that is told.
fn leaves(
    alloc: Global,
    now: Option<&Value>,
    delta: &Delta,
    fits: bool,
    want: Shape,
) -> Result<bool, OutOfMemory> {
    let mut value = copied(alloc, now)?;
    let fit = Value::apply(alloc, &mut value, delta)?;
    Ok(fit == fits && is_of(value.as_ref(), want) && is_summed(now, delta, value.as_ref()))
}

/// Whether an edit of the value fits or not, and leaves this shape.
fn makes(
    alloc: Global,
    now: Option<&Value>,
    edit: Edit,
    fits: bool,
    want: Shape,
) -> Result<bool, Fail> {
    let delta = delta(alloc, edit)?;
    Ok(leaves(alloc, now, &delta, fits, want)?)
}

/// Whether each edit makes of the value what stands beside it.
fn makes_all(alloc: Global, now: Option<&Value>, rows: &[(Edit, Shape)]) -> Result<bool, Fail> {
    for (edit, want) in rows {
        if !makes(alloc, now, *edit, true, *want)? {
            return Ok(false);
        }
    }
    Ok(true)
}

/// A region of 60 bytes, all of them in its base.
fn spilled(alloc: Global) -> Result<Value, Fail> {
    let slice = slice(0, 9).ok_or("no slice")?;
    Ok(Value::Region(RegionValue::of_slice(alloc, slice, 60)?))
}

fn add_all(alloc: Global, set: &mut NameSet, paths: &[&[u8]]) -> Result<(), Fail> {
    for path in paths {
        set.add(name(alloc, path)?)?;
    }
    Ok(())
}

/// The names of these paths, added one by one.
fn added(alloc: Global, paths: &[&[u8]]) -> Result<NameSet, Fail> {
    let mut set = NameSet::new(alloc);
    add_all(alloc, &mut set, paths)?;
    Ok(set)
}

/// Whether the names of these paths are sure to be a value's, by three looks.
fn same_names(alloc: Global, paths: &[&[u8]], value: &Value) -> Result<bool, Fail> {
    Ok(names(alloc, paths)?.is_same(value, 3))
}

/// The value of the names of these paths.
fn names(alloc: Global, paths: &[&[u8]]) -> Result<Value, Fail> {
    Ok(Value::Names(added(alloc, paths)?.copy()?))
}

#[test]
fn regions_change_as_asked(rt: HostRuntime) -> Result<(), Fail> {
    let region = spilled(rt.alloc())?;
    assert!(rt; makes_all(rt.alloc(), Some(&region), &OF_REGION)?);
    Ok(())
}

#[test]
fn missing_values_change_as_asked(rt: HostRuntime) -> Result<(), Fail> {
    let alloc = rt.alloc();
    let unfit = makes(alloc, None, Edit::Add(&[65]), false, Shape::Gone)?;
    assert!(rt; unfit && makes_all(alloc, None, &OF_NONE)?);
    Ok(())
}

#[test]
fn other_values_change_as_asked(rt: HostRuntime) -> Result<(), Fail> {
    assert!(rt; makes_all(rt.alloc(), Some(&Value::Last(5)), &OF_LAST)?);
    Ok(())
}

#[test]
fn numbers_of_paths_change_as_asked(rt: HostRuntime) -> Result<(), Fail> {
    let alloc = rt.alloc();
    let fewer = makes(
        alloc,
        Some(&Value::Count(3)),
        Edit::SubLink,
        true,
        Shape::Count(2),
    )?;
    assert!(rt; fewer && makes_all(alloc, Some(&Value::Count(2)), &OF_COUNT)?);
    Ok(())
}

#[test]
fn names_change_as_asked(rt: HostRuntime) -> Result<(), Fail> {
    let names = names(rt.alloc(), &[b"/a"])?;
    assert!(rt; makes_all(rt.alloc(), Some(&names), &OF_NAMES)?);
    Ok(())
}

/// Whether pieces are kept, with so many bytes.
fn are_kept(alloc: Global, parts: &[Piece], bytes: u64) -> Result<bool, OutOfMemory> {
    let kept = Pieces::of(alloc, parts)?;
    Ok(kept.as_slice() == parts && kept.bytes() == bytes)
}

/// Whether pieces of zeros are read back, with so many bytes.
fn are_read_back(alloc: Global, lens: &[u64], bytes: u64) -> Result<bool, OutOfMemory> {
    let parts = pieces(alloc, lens)?;
    are_kept(alloc, parts.as_slice(), bytes)
}

fn all_read_back(alloc: Global) -> Result<bool, OutOfMemory> {
    for (lens, bytes) in &PIECES {
        if !are_read_back(alloc, lens, *bytes)? {
            return Ok(false);
        }
    }
    Ok(true)
}

#[test]
fn pieces_are_read_back(rt: HostRuntime) -> Result<(), Fail> {
    assert!(rt; all_read_back(rt.alloc())?);
    Ok(())
}

/// Whether the copy of a region without entries and base ends here.
fn copy_ends(region: &RegionValue, end: u32) -> Result<bool, OutOfMemory> {
    Ok(is_region(&region.copy()?, (end, None, 0)))
}

/// Whether an empty region is copied.
fn copies_empty(alloc: Global) -> Result<bool, OutOfMemory> {
    let region = RegionValue::empty(alloc)?;
    copy_ends(&region, 0)
}

/// Whether the region of a list of no entry is copied.
fn copies_listed(alloc: Global) -> Result<bool, OutOfMemory> {
    let region = RegionValue::of_list(Overlay::new(alloc)?, 4);
    copy_ends(&region, 4)
}

#[test]
fn regions_are_made_and_copied(rt: HostRuntime) -> Result<(), Fail> {
    assert!(rt; copies_empty(rt.alloc())? && copies_listed(rt.alloc())?);
    Ok(())
}

/// Whether the names of each order are a value's.
fn all_same_names(alloc: Global, value: &Value) -> Result<bool, Fail> {
    for paths in &ORDERS {
        if !same_names(alloc, paths, value)? {
            return Ok(false);
        }
    }
    Ok(true)
}

#[test]
fn names_are_added_in_any_order(rt: HostRuntime) -> Result<(), Fail> {
    let want = names(rt.alloc(), &[b"/b", b"/a", b"/c"])?;
    assert!(rt; all_same_names(rt.alloc(), &want)?);
    Ok(())
}

/// Whether these are the names, in order.
fn are_names(set: &NameSet, want: &[&[u8]]) -> bool {
    for (i, name) in want.iter().enumerate() {
        if i >= set.count() {
            return false;
        }
        if set.name(i) != *name {
            return false;
        }
    }
    set.count() == want.len()
}

/// Takes c out of the names a, b and c: whether the others are left.
fn leaves_others(set: &mut NameSet) -> Result<bool, OutOfMemory> {
    set.remove(b"c")?;
    Ok(set.contains(b"a") && !set.contains(b"c") && are_names(set, &[b"a", b"b"]))
}

#[test]
fn names_stand_in_order(rt: HostRuntime) -> Result<(), Fail> {
    let mut set = added(rt.alloc(), &[b"/b", b"/a", b"/c"])?;
    assert!(rt; leaves_others(&mut set)?);
    Ok(())
}

/// Whether a name has these bytes, and its share too.
fn is_named(name: &Name, bytes: &[u8]) -> Result<bool, OutOfMemory> {
    let shared = name.share()?;
    Ok(name.as_bytes() == bytes && shared.compare(bytes).is_eq())
}

/// Whether the name of a path has these bytes.
fn is_last(alloc: Global, path: &[u8], want: &[u8]) -> Result<bool, Fail> {
    Ok(is_named(&name(alloc, path)?, want)?)
}

#[test]
fn a_name_is_the_last_of_its_path(rt: HostRuntime) -> Result<(), Fail> {
    let alloc = rt.alloc();
    let root = is_last(alloc, b"/", b"")?;
    assert!(rt; root && is_last(alloc, b"/a", b"a")? && is_last(alloc, b"/a/bc", b"bc")?);
    Ok(())
}

/// A key of each kind, in order.
fn put_keys(alloc: Global, keys: &mut Vec<Key>) -> Result<(), Fail> {
    keys.push(Key::Path(Path::parse(alloc, b"/a")?))?;
    keys.push(Key::Dir(Path::parse(alloc, b"/")?))?;
    keys.push(Key::Inode(inode()))?;
    keys.push(Key::Region(inode(), 3))?;
    keys.push(Key::Links(inode()))?;
    Ok(())
}

/// Whether a key stands before another one, and is the same as its copy.
fn stands_before(alloc: Global, key: &Key, next: &Key) -> Result<bool, Fail> {
    Ok(key < next && key.copy(alloc)? == *key)
}

/// Whether each of the five keys stands before the next one.
fn are_in_order(alloc: Global, keys: &[Key]) -> Result<bool, Fail> {
    for pair in keys.windows(2) {
        if !stands_before(alloc, &pair[0], &pair[1])? {
            return Ok(false);
        }
    }
    Ok(keys.len() == 5)
}

/// Whether keys of each kind stand in order.
fn kinds_stand_in_order(alloc: Global) -> Result<bool, Fail> {
    let mut keys = Vec::new(alloc);
    put_keys(alloc, &mut keys)?;
    are_in_order(alloc, keys.as_slice())
}

#[test]
fn keys_stand_in_order(rt: HostRuntime) -> Result<(), Fail> {
    assert!(rt; kinds_stand_in_order(rt.alloc())?);
    Ok(())
}

type Editing = Attempt<Key, Value>;

/// Makes edits of the last region of a file.
fn edit_all(alloc: Global, attempt: &mut Editing, edits: &[Edit]) -> Result<(), Fail> {
    for edit in edits {
        let delta = delta(alloc, *edit)?;
        attempt.delta(Key::Inode(inode()), delta)?;
    }
    Ok(())
}

/// Whether this is the summary of the last region of a file, as told and as settled.
fn is_summary(attempt: &mut Editing, kv: &Kv<Key, Value>, want: Summary) -> bool {
    if !kv.is_pinned(attempt.base()) {
        return false;
    }
    let key = Key::Inode(inode());
    attempt.summary(kv, &key) == want && attempt.settled_summary(kv, &key) == want
}

/// Whether this is the summary of the last region of a file that an attempt on a new store edits.
fn sums_to(
    alloc: Global,
    kv: &Kv<Key, Value>,
    edits: &[Edit],
    want: Summary,
) -> Result<bool, Fail> {
    let mut attempt = Attempt::new(alloc, 0)?;
    edit_all(alloc, &mut attempt, edits)?;
    Ok(is_summary(&mut attempt, kv, want))
}

fn sum_all(alloc: Global, kv: &Kv<Key, Value>) -> Result<bool, Fail> {
    for (edits, want) in &SUMMARIES {
        if !sums_to(alloc, kv, edits, *want)? {
            return Ok(false);
        }
    }
    Ok(true)
}

#[test]
fn summaries_follow_changes(rt: HostRuntime) -> Result<(), Fail> {
    let mut kv = Kv::new(rt.alloc())?;
    kv.pin(0)?;
    assert!(rt; sum_all(rt.alloc(), &kv)?);
    Ok(())
}
