//! The cells of a store: the versions of each key, in the order of the keys.

ghost use Rattle.std.specs.Prelude.{◌≡◌, ◌+◌, ◌<◌, true, false, ◌^◌, not, cond, ◌&&◌, is_some, take, ◌∷◌, [], IfOk, OnOk, OnErr};
ghost use Rattle.std.specs.Option.{option_copied};
ghost use Rattle.std.specs.BTreeMap.{is_at};
ghost use Rattle.std.specs.BTreeMap.Range.{is_from_start};
ghost use Rattle.wtf_kv.specs.Seen.{last_seen, value_seen, number_seen, reported, kept_versions, upto, ascends, is_settled};
ghost use Rattle.wtf_kv.specs.Stores.{listed, versions_in, names};
ghost use Rattle.wtf_kv.specs.Inside.{AllGood, Noted, Listed};
ghost use Rattle.wtf_kv.specs.Edits.{is_between};
ghost use Rattle.wtf_kv.specs.Staging.{value_next};
ghost use Rattle.std.specs.Range.Bound.{bound_map};
ghost use Rattle.wtf_kv.specs.Order.{IsFirstFrom, IsLeastKey, is_past};
ghost use Rattle.wtf_kv.specs.Recents.{is_among, is_due};

use crate::StoreKey;
use crate::rows::{
    begins_by, count_upto, find_version, has_value, keep_upto, prune_versions, settles, tells,
};
use std::alloc::Global;
use std::collections::BTreeMap;
use std::ops::Bound;
use wtf_base::OutOfMemory;

/// The versions of each key.
pub(crate) type Cells<K, C> = BTreeMap<K, Vec<(u64, Option<C>)>>;

/// The last version of a key that is at most `n`.
fn find_in<'a, K: StoreKey, C>(
    cells: &'a Cells<K, C>,
    n: u64,
    key: &K,
) -> Option<&'a (u64, Option<C>)>
    requires { ascends (versions_in K.cmp (listed cells.now.entries) key.now) }
    ensures { option_copied result ≡
        last_seen n (versions_in K.cmp (listed cells.now.entries) key.now) }
{
    let versions = cells.get(key)?;
    find_version(versions.as_slice(), n)
}

/// The value of a key that `n` sees.
pub(crate) fn value_in<'a, K: StoreKey, C>(cells: &'a Cells<K, C>, n: u64, key: &K) -> Option<&'a C>
    requires { ascends (versions_in K.cmp (listed cells.now.entries) key.now) }
    ensures { option_copied result ≡ value_seen
        (last_seen n (versions_in K.cmp (listed cells.now.entries) key.now)) }
{
    let (_, value) = find_in(cells, n, key)?;
    value.as_ref()
}

/// The version of a key that `n` sees, 0 where none is reported.
pub(crate) fn version_in<K: StoreKey, C>(cells: &Cells<K, C>, pins: &[u64], n: u64, key: &K) -> u64
    requires { ascends (versions_in K.cmp (listed cells.now.entries) key.now) }
    ensures { result ≡ number_seen (reported pins.now
        (last_seen n (versions_in K.cmp (listed cells.now.entries) key.now))) }
{
    let Some(version) = find_in(cells, n, key) else {
        return 0;
    };
    if tells(version, pins) { version.0 } else { 0 }
}

/// The versions of a key that are at most `number`.
pub(crate) fn shown_in<'a, K: StoreKey, C>(
    cells: &'a Cells<K, C>,
    number: u64,
    key: &K,
) -> &'a [(u64, Option<C>)]
    requires { ascends (versions_in K.cmp (listed cells.now.entries) key.now) }
    ensures { result.now ≡ upto number (versions_in K.cmp (listed cells.now.entries) key.now) }
{
    let Some(versions) = cells.get(key) else {
        return &[];
    };
    let all = versions.as_slice();
    let count = count_upto(all, number);
    &all[..count]
}

/// Gives a key one version with a value.
pub(crate) fn seed_cell<K: StoreKey, C: Drop>(
    alloc: Global,
    cells: &mut Cells<K, C>,
    number: u64,
    key: K,
    value: C,
) -> Result<(), OutOfMemory>
    ensures ok { OnOk result ((q : K) → versions_in K.cmp (listed cells.new.entries) q ≡
        cond (is_at (K.cmp key) q) ((number, Some value) ∷ [])
        (versions_in K.cmp (listed cells.old.entries) q)) }
    ensures err { OnErr result (cells.new.entries ≡ cells.old.entries) }
{
    let mut versions = Vec::with_capacity(alloc, 1)?;
    versions.push((number, Some(value)))?;
    match cells.insert(key, versions) {
        Ok(_) => Ok(()),
        Err(_) => Err(OutOfMemory),
    }
}

/// The keys from `from` up to and with `to` of which the next number sees a value, in order.
pub(crate) fn valued_keys<K: StoreKey, C>(
    alloc: Global,
    cells: &Cells<K, C>,
    number: u64,
    from: &K,
    to: &K,
) -> Result<Vec<K>, OutOfMemory>
    requires room { number < 2 ^ 63 }
    requires good { AllGood K.cmp number (listed cells.now.entries) }
    ensures { IfOk result (λ keys. (q : K) → names K.cmp keys.items q ≡
        (is_between K.cmp from.now to.now q && is_some
        (value_next number (versions_in K.cmp (listed cells.now.entries) q)))) }
{
    let mut keys = Vec::new(alloc);
    if from.cmp(to).is_gt() {
        return Ok(keys);
    }
    for (key, versions) in cells.range((Bound::Included(from), Bound::Included(to))) {
        if has_value(versions.as_slice(), number + 1) {
            keys.push(key.copy(alloc)?)?;
        }
    }
    Ok(keys)
}

/// Where the keys above `after` start.
pub(crate) fn start_past<'a, K: StoreKey>(after: Option<&'a K>) -> Bound<&'a K>
    ensures { (q : K) → is_from_start K.cmp (bound_map (λ k. k.now) result) q ≡
        is_past K.cmp (option_copied after.entry) q }
{
    match after {
        Some(key) => Bound::Excluded(key),
        None => Bound::Unbounded,
    }
}

/// The first key from `start` on that has a version that is at most `number`.
pub(crate) fn first_key<'a, K: StoreKey, C>(
    cells: &'a Cells<K, C>,
    start: Bound<&K>,
    number: u64,
) -> Option<&'a K>
    ensures { IsFirstFrom K.cmp (bound_map (λ k. k.now) start.entry) number
        (listed cells.now.entries)
        (option_copied result) }
{
    for (key, versions) in cells.range((start, Bound::Unbounded)) {
        if begins_by(versions.as_slice(), number) {
            return Some(key);
        }
    }
    None
}

/// Whether the version of a key that `number` sees lies above `since`.
fn is_due<K: StoreKey, C>(
    cells: &Cells<K, C>,
    pins: &[u64],
    number: u64,
    since: u64,
    key: &K,
) -> bool
    requires { ascends (versions_in K.cmp (listed cells.now.entries) key.now) }
    ensures { result ≡ is_due pins.now number since
        (versions_in K.cmp (listed cells.now.entries) key.now) }
{
    since < version_in(cells, pins, number, key)
}

/// The first of the keys from `start` on whose version that `number` sees lies above `since`.
pub(crate) fn first_due<'a, K: StoreKey, X, C>(
    keys: &'a BTreeMap<K, X>,
    cells: &Cells<K, C>,
    pins: &[u64],
    number: u64,
    since: u64,
    start: Bound<&K>,
) -> Option<&'a K>
    requires { (q : K) → ascends (versions_in K.cmp (listed cells.now.entries) q) }
    ensures { IsLeastKey K.cmp (is_from_start K.cmp (bound_map (λ k. k.now) start.entry))
        (λ q. is_among K.cmp keys.now.entries q &&
        is_due pins.now number since (versions_in K.cmp (listed cells.now.entries) q))
        (option_copied result) }
{
    for (key, _) in keys.range((start, Bound::Unbounded)) {
        if is_due(cells, pins, number, since, key) {
            return Some(key);
        }
    }
    None
}

/// Drops what is made ready for a key.
fn clear_key<K: StoreKey, C: Drop>(cells: &mut Cells<K, C>, number: u64, key: &K)
    requires { AllGood K.cmp number (listed cells.old.entries) }
    ensures { (q : K) → versions_in K.cmp (listed cells.new.entries) q ≡
        cond (is_at (K.cmp key.now) q) (upto number
        (versions_in K.cmp (listed cells.old.entries) q))
        (versions_in K.cmp (listed cells.old.entries) q) }
{
    let Some(versions) = cells.get_mut(key) else {
        return;
    };
    keep_upto(versions, number);
    if versions.is_empty() {
        cells.remove(key);
    }
}

/// Drops all that was made ready before: its keys are those from `fresh` on.
pub(crate) fn clear_cells<K: StoreKey, C: Drop>(
    cells: &mut Cells<K, C>,
    touched: &mut Vec<K>,
    number: u64,
    fresh: usize,
)
    requires good { AllGood K.cmp number (listed cells.old.entries) }
    requires noted { Noted K.cmp number fresh touched.old.items (listed cells.old.entries) }
    ensures touched { touched.new.items ≡ take fresh touched.old.items }
    ensures versions { (q : K) → versions_in K.cmp (listed cells.new.entries) q ≡
        upto number (versions_in K.cmp (listed cells.old.entries) q) }
{
    while touched.len() > fresh {
        let Some(key) = touched.pop() else {
            return;
        };
        clear_key(cells, number, &key);
    }
}

/// Drops what is not kept of a key, and answers whether something may be dropped later.
fn prune_key<K: StoreKey, C: Drop>(cells: &mut Cells<K, C>, pins: &[u64], key: &K) -> bool
    ensures versions { (q : K) → versions_in K.cmp (listed cells.new.entries) q ≡
        cond (is_at (K.cmp key.now) q) (kept_versions pins.now
        (versions_in K.cmp (listed cells.old.entries) q))
        (versions_in K.cmp (listed cells.old.entries) q) }
    ensures loose { result ≡ not
        (is_settled (versions_in K.cmp (listed cells.new.entries) key.now)) }
{
    let Some(versions) = cells.get_mut(key) else {
        return false;
    };
    prune_versions(versions, pins);
    if versions.is_empty() {
        cells.remove(key);
        return false;
    }
    !settles(versions.as_slice())
}

/// Drops what is not kept of the touched keys, and forgets those of which nothing is left to drop.
fn prune_cells<K: StoreKey, C: Drop>(cells: &mut Cells<K, C>, touched: &mut Vec<K>, pins: &[u64])
    requires order { (q : K) → ascends (versions_in K.cmp (listed cells.old.entries) q) }
    requires loose { (q : K) → names K.cmp touched.old.items q ≡ false →
        is_settled (versions_in K.cmp (listed cells.old.entries) q) ≡ true }
    ensures loose { (q : K) → names K.cmp touched.new.items q ≡ false →
        is_settled (versions_in K.cmp (listed cells.new.entries) q) ≡ true }
    ensures versions { (q : K) → versions_in K.cmp (listed cells.new.entries) q ≡
        kept_versions pins.now (versions_in K.cmp (listed cells.old.entries) q) }
{
    let mut i = touched.len();
    while i > 0 {
        i -= 1;
        let loose = prune_key(cells, pins, &touched[i]);
        if !loose {
            touched.swap_remove(i);
        }
    }
}

/// Leaves each key once.
fn keep_once<K: StoreKey>(keys: &mut Vec<K>)
    ensures { (q : K) → names K.cmp keys.new.items q ≡ names K.cmp keys.old.items q }
{
    keys.sort_unstable();
    keys.dedup();
}

/// Drops what was made ready, and what is not kept of each key. Of most keys nothing is left to drop then, so
/// only the few others are sorted.
pub(crate) fn prune_all<K: StoreKey, C: Drop>(
    cells: &mut Cells<K, C>,
    touched: &mut Vec<K>,
    number: u64,
    fresh: usize,
    pins: &[u64],
)
    requires good { AllGood K.cmp number (listed cells.old.entries) }
    requires noted { Noted K.cmp number fresh touched.old.items (listed cells.old.entries) }
    requires loose { Listed K.cmp number fresh touched.old.items (listed cells.old.entries) }
    ensures loose { (q : K) → names K.cmp touched.new.items q ≡ false →
        is_settled (versions_in K.cmp (listed cells.new.entries) q) ≡ true }
    ensures versions { (q : K) → versions_in K.cmp (listed cells.new.entries) q ≡
        kept_versions pins.now (upto number (versions_in K.cmp (listed cells.old.entries) q)) }
{
    clear_cells(cells, touched, number, fresh);
    prune_cells(cells, touched, pins);
    keep_once(touched);
}
