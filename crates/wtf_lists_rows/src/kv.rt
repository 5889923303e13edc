//! A store of numbers under small keys, row by row.

ghost use Rattle.std.specs.Prelude.{◌≡◌};
ghost use Rattle.wtf_kv.specs.Stores.{is_live};

use crate::counts::{Count, Counts, Name, number};
use std::alloc::Global;
use std::ops::Bound;
use std::test::Fail;
use wtf_base::OutOfMemory;
use wtf_kv::{Call, Change, Changes, Kv, NotReady, run};

type Edits = Changes<Name, Count>;

/// Deltas of two keys, of which the second does not fit 60.
const EDITS: [(u64, u64); 3] = [(4, 5), (3, 5), (4, 64)];

fn add_all(edits: &mut Edits, rows: &[(u64, u64)]) -> Result<(), OutOfMemory> {
    for (id, by) in rows {
        edits.delta(Name { id: *id }, *by)?;
    }
    Ok(())
}

/// The deltas of these keys and numbers, in order.
fn deltas(alloc: Global, rows: &[(u64, u64)]) -> Result<Edits, OutOfMemory> {
    let mut edits = Changes::new(alloc);
    add_all(&mut edits, rows)?;
    Ok(edits)
}

/// Whether there is one change, which adds 5 to key 4.
fn is_one(edits: &Edits) -> bool {
    matches!(edits.as_slice(), [Change::Delta(Name { id: 4 }, 5)]) && !edits.is_empty()
}

/// The removal of the keys from one up to and with another.
fn cut(alloc: Global, from: u64, to: u64) -> Result<Edits, OutOfMemory> {
    let mut edits = Changes::new(alloc);
    edits.cut_range(Name { id: from }, Name { id: to })?;
    Ok(edits)
}

/// A store that starts at a number, with one key's value.
fn seeded(alloc: Global, number: u64, id: u64, n: u64) -> Result<Counts, OutOfMemory> {
    let mut kv: Counts = Kv::start(alloc, number)?;
    kv.seed(Name { id }, Count { n })?;
    Ok(kv)
}

/// Installs changes, and answers the number.
fn install(kv: &mut Counts, edits: &Edits) -> Option<u64> {
    if kv.number() >= 1 << 63 {
        return None;
    }
    let Ok(ready) = kv.reserve_install(edits) else {
        return None;
    };
    Some(kv.install(ready))
}

/// Installs changes, under this number.
fn install_as(kv: &mut Counts, edits: &Edits, n: u64) -> Result<(), Fail> {
    if install(kv, edits) != Some(n) {
        return Err("another number was installed, or none".into());
    }
    Ok(())
}

/// The key whose delta does not fit.
fn unfit(kv: &mut Counts, edits: &Edits) -> Option<u64> {
    if kv.number() >= 1 << 63 {
        return None;
    }
    match kv.reserve_install(edits) {
        Err(NotReady::Unfit(key)) => Some(key.id),
        _ => None,
    }
}

/// Whether a number can be read.
fn is_live(kv: &Counts, n: u64) -> bool
    ensures { result ≡ is_live kv.now n }
{
    n == kv.number() || kv.is_pinned(n)
}

/// Whether a number sees this of a key: its value, 0 for none, and its version.
fn sees(kv: &Counts, n: u64, id: u64, (value, version): (u64, u64)) -> bool {
    if !is_live(kv, n) {
        return false;
    }
    let key = Name { id };
    number(kv.read_at(n, &key)) == value && kv.version_at(n, &key) == version
}

fn pin(kv: &mut Counts, n: u64) -> Result<(), Fail> {
    if !is_live(kv, n) {
        return Err("the number can't be pinned".into());
    }
    kv.pin(n)?;
    Ok(())
}

fn unpin_and_prune(kv: &mut Counts, n: u64) -> bool {
    if !kv.is_pinned(n) {
        return false;
    }
    kv.unpin(n);
    kv.prune();
    true
}

/// The number of a version, none for a removal.
fn version(value: Option<&Count>) -> Option<u64> {
    Some(value?.n)
}

/// Whether a version is that of a row.
fn is_row((n, value): (u64, Option<&Count>), row: Option<&(u64, Option<u64>)>) -> bool {
    let Some((at, was)) = row else {
        return false;
    };
    n == *at && version(value) == *was
}

/// Whether these are the versions of a key, none for a removal.
fn keeps(kv: &Counts, id: u64, want: &[(u64, Option<u64>)]) -> bool {
    let mut rows = want.iter();
    for version in kv.kept(&Name { id }) {
        if !is_row(version, rows.next()) {
            return false;
        }
    }
    rows.next().is_none()
}

fn first_key(kv: &Counts) -> Option<u64> {
    Some(kv.next_key(None)?.id)
}

fn is_pinned_once(kv: &Counts, n: u64) -> bool {
    kv.is_pinned(n) && kv.times_pinned(n) == 1
}

/// Sets keys to numbers at 1, and pins that.
fn set_and_pin(alloc: Global, kv: &mut Counts, rows: &[(u64, u64)]) -> Result<(), Fail> {
    let edits = deltas(alloc, rows)?;
    install_as(kv, &edits, 1)?;
    pin(kv, 1)
}

/// A store in which install 1 set key 7 to a number; 1 is pinned.
pub(crate) fn store(alloc: Global, n: u64) -> Result<Counts, Fail> {
    let mut kv: Counts = Kv::new(alloc)?;
    set_and_pin(alloc, &mut kv, &[(7, n)])?;
    Ok(kv)
}

/// Removes the keys from one up to and with another at 2.
fn remove(alloc: Global, kv: &mut Counts, from: u64, to: u64) -> Result<(), Fail> {
    let edits = cut(alloc, from, to)?;
    install_as(kv, &edits, 2)
}

/// A store in which key 7 was set at 1, which is pinned, and removed at 2.
fn removed(alloc: Global) -> Result<Counts, Fail> {
    let mut kv = store(alloc, 5)?;
    remove(alloc, &mut kv, 7, 9)?;
    Ok(kv)
}

/// Whether 1 sees key 7, and 2 its removal.
fn sees_both(kv: &Counts) -> bool {
    sees(kv, 1, 7, (5, 1)) && sees(kv, 2, 7, (0, 2))
}

/// Whether both versions of key 7 and the pin are there.
fn shows_both(kv: &Counts) -> bool {
    sees_both(kv)
        && keeps(kv, 7, &[(1, Some(5)), (2, None)])
        && kv.next_pinned(Some(0)) == Some(1)
        && first_key(kv) == Some(7)
}

#[test]
fn removes_under_a_pin(rt: HostRuntime) -> Result<(), Fail> {
    let kv = removed(rt.alloc())?;
    assert!(rt; shows_both(&kv));
    Ok(())
}

/// Whether nothing is left of key 7 and the pin.
fn is_bare(kv: &Counts) -> bool {
    sees(kv, 2, 7, (0, 0))
        && keeps(kv, 7, &[])
        && kv.next_pinned(None).is_none()
        && first_key(kv).is_none()
}

#[test]
fn drops_what_no_pin_sees(rt: HostRuntime) -> Result<(), Fail> {
    let mut kv = removed(rt.alloc())?;
    assert!(rt; unpin_and_prune(&mut kv, 1) && is_bare(&kv));
    Ok(())
}

#[test]
fn a_pinned_map_stays_where_a_prune_is_due(rt: HostRuntime) -> Result<(), Fail> {
    let mut kv = removed(rt.alloc())?;
    kv.prune_when_due();
    assert!(rt; sees_both(&kv));
    Ok(())
}

/// Whether a store shows its seed, also where changes do not fit.
fn is_seeded(alloc: Global, kv: &mut Counts) -> Result<bool, OutOfMemory> {
    let edits = deltas(alloc, &EDITS)?;
    Ok(
        kv.number() == 5
            && sees(kv, 5, 3, (60, 5))
            && unfit(kv, &edits) == Some(3)
            && keeps(kv, 4, &[]),
    )
}

#[test]
fn starts_with_a_seed(rt: HostRuntime) -> Result<(), Fail> {
    let mut kv = seeded(rt.alloc(), 5, 3, 60)?;
    assert!(rt; is_seeded(rt.alloc(), &mut kv)?);
    Ok(())
}

/// Leaves the first `n` of the changes.
fn shorten(edits: &mut Edits, n: usize) -> bool {
    if n > edits.len() {
        return false;
    }
    edits.shorten(n);
    true
}

#[test]
fn changes_are_shortened(rt: HostRuntime) -> Result<(), Fail> {
    let mut edits = deltas(rt.alloc(), &EDITS)?;
    assert!(rt; edits.len() == 3 && shorten(&mut edits, 1) && is_one(&edits));
    Ok(())
}

/// Makes these calls, of which none takes the last pin of `n`.
fn run_all(kv: &mut Counts, calls: &[Call<Name, Count>], n: u64) -> bool {
    if !kv.is_pinned(n) {
        return false;
    }
    run(kv, calls, n).is_ok()
}

/// Makes one list of changes ready, installs the other, and leaves the pins of 5 as they are.
fn put_calls(
    calls: &mut Vec<Call<Name, Count>>,
    reserved: Edits,
    installed: Edits,
) -> Result<(), Fail> {
    calls.push(Call::Reserve(reserved))?;
    calls.push(Call::Install(installed))?;
    calls.push(Call::Pin(5))?;
    calls.push(Call::Unpin(5))?;
    calls.push(Call::Prune)?;
    Ok(())
}

/// Puts calls that make ready a set of a further key, and remove the key 3.
fn put_all(alloc: Global, calls: &mut Vec<Call<Name, Count>>) -> Result<(), Fail> {
    let set = deltas(alloc, &[(9, 1)])?;
    let removal = deltas(alloc, &[(3, 0)])?;
    put_calls(calls, set, removal)
}

/// Makes the calls, which change nothing of a map pinned at 5.
fn call_all(alloc: Global, kv: &mut Counts) -> Result<bool, Fail> {
    let mut calls = Vec::new(alloc);
    put_all(alloc, &mut calls)?;
    Ok(run_all(kv, calls.as_slice(), 5))
}

/// Whether the pinned map at 5 is as it was, and the one at 6 has neither key.
fn keeps_five(kv: &Counts) -> bool {
    is_pinned_once(kv, 5)
        && kv.number() == 6
        && sees(kv, 5, 3, (60, 5))
        && sees(kv, 6, 3, (0, 6))
        && keeps(kv, 9, &[])
}

fn keeps_over_calls(alloc: Global, kv: &mut Counts) -> Result<bool, Fail> {
    pin(kv, 5)?;
    Ok(call_all(alloc, kv)? && keeps_five(kv))
}

#[test]
fn keeps_a_pinned_map_over_calls(rt: HostRuntime) -> Result<(), Fail> {
    let mut kv = seeded(rt.alloc(), 5, 3, 60)?;
    assert!(rt; keeps_over_calls(rt.alloc(), &mut kv)?);
    Ok(())
}

/// Sets three keys at 1, and removes the second of them at 2.
fn put_three(alloc: Global, kv: &mut Counts) -> Result<(), Fail> {
    set_and_pin(alloc, kv, &[(3, 30), (5, 50), (7, 7)])?;
    remove(alloc, kv, 5, 6)
}

/// A store in which three keys were set at 1, which is pinned, and the second was removed at 2.
fn three(alloc: Global) -> Result<Counts, Fail> {
    let mut kv: Counts = Kv::new(alloc)?;
    put_three(alloc, &mut kv)?;
    Ok(kv)
}

/// Whether a key and its value are those of a row.
fn is_pair(key: &Name, value: &Count, row: Option<&(u64, u64)>) -> bool {
    let Some((id, n)) = row else {
        return false;
    };
    key.id == *id && value.n == *n
}

/// Whether a number shows these keys with their values, from a start on.
fn walks(kv: &Counts, n: u64, start: Bound<&Name>, want: &[(u64, u64)]) -> bool {
    if !is_live(kv, n) {
        return false;
    }
    let mut rows = want.iter();
    for (key, value) in kv.rows(n, start) {
        if !is_pair(key, value, rows.next()) {
            return false;
        }
    }
    rows.next().is_none()
}

/// Whether 1 shows all three keys, and 2 those that are left.
fn walks_both(kv: &Counts) -> bool {
    let five = Name { id: 5 };
    walks(kv, 1, Bound::Unbounded, &[(3, 30), (5, 50), (7, 7)])
        && walks(kv, 1, Bound::Included(&five), &[(5, 50), (7, 7)])
        && walks(kv, 1, Bound::Excluded(&five), &[(7, 7)])
        && walks(kv, 2, Bound::Unbounded, &[(3, 30), (7, 7)])
        && walks(kv, 2, Bound::Included(&five), &[(7, 7)])
}

#[test]
fn walks_show_the_keys_of_their_number(rt: HostRuntime) -> Result<(), Fail> {
    let kv = three(rt.alloc())?;
    assert!(rt; walks_both(&kv));
    Ok(())
}

/// The least key above another whose version lies above a number.
fn changed(kv: &Counts, since: u64, after: u64) -> Option<u64> {
    let after = Name { id: after };
    Some(kv.next_changed(since, Some(&after))?.id)
}

/// Whether the removal of 5 is all that changed since 1, and all three keys changed since 0.
fn tells_what_changed(kv: &Counts) -> bool {
    changed(kv, 1, 0) == Some(5)
        && changed(kv, 1, 5).is_none()
        && changed(kv, 0, 0) == Some(3)
        && changed(kv, 0, 5) == Some(7)
        && kv.most_rows() >= 3
}

#[test]
fn a_marked_store_tells_what_changed(rt: HostRuntime) -> Result<(), Fail> {
    let mut kv = Kv::new(rt.alloc())?;
    set_and_pin(rt.alloc(), &mut kv, &[(3, 30), (5, 50), (7, 7)])?;
    kv.mark();
    remove(rt.alloc(), &mut kv, 5, 6)?;
    assert!(rt; tells_what_changed(&kv));
    Ok(())
}
