//! The versions of one key: each a number and a value, the oldest first. A removal has no value.

ghost use Rattle.std.specs.Prelude.{◌≡◌, ◌+◌, ◌<◌, ◌≤◌, true, ◌^◌, IfOk, OnErr, OnOk, nat_le, is_some, length, drop, take};
ghost use Rattle.std.specs.Option.{option_copied};
ghost use Rattle.std.specs.Map.Iter.{TakesFirst};
ghost use Rattle.std.specs.Iterator.{at_most};
ghost use Rattle.std.specs.List.{AllWithin};
ghost use Rattle.wtf_kv.specs.Seen.{last_seen, value_seen, any_below, any_between, is_reported, kept_head, kept_versions, upto, ascends, within, is_settled, has_upto};
ghost use Rattle.wtf_kv.specs.Staging.{staged, value_next, ends_above, IsKeptOrCut, run_made, run_fits};

use crate::{Cell, Change};
use std::alloc::Global;
use std::marker::{Model, PhantomData};
use wtf_base::OutOfMemory;

fn has_below(pins: &[u64], version: u64) -> bool
    ensures { result ≡ any_below pins.now version }
{
    pins.iter().any(|p| *p < version)
}

/// Whether a pinned number is `from` or above, and below `to`.
fn has_between(pins: &[u64], from: u64, to: u64) -> bool
    ensures { result ≡ any_between pins.now from to }
{
    pins.iter().any(|p| from <= *p && *p < to)
}

/// Whether a version is reported: a removal only while a pinned number lies below it.
pub(crate) fn tells<C>(version: &(u64, Option<C>), pins: &[u64]) -> bool
    ensures { result ≡ is_reported pins.now version.now }
{
    version.1.is_some() || has_below(pins, version.0)
}

/// Whether the version at `i` is kept.
fn keeps<C>(versions: &[(u64, Option<C>)], i: usize, pins: &[u64]) -> bool
    requires { i < length versions.now }
    ensures { result ≡ kept_head pins.now (drop i versions.now) }
{
    let version = &versions[i];
    if !tells(version, pins) {
        return false;
    }
    if i + 1 == versions.len() {
        return true;
    }
    let next = &versions[i + 1];
    has_between(pins, version.0, next.0)
}

/// Drops the versions that are not kept.
pub(crate) fn prune_versions<C: Drop>(versions: &mut Vec<(u64, Option<C>)>, pins: &[u64])
    ensures { versions.new.items ≡ kept_versions pins.now versions.old.items }
{
    let mut kept = 0;
    for i in 0..versions.len() {
        if !keeps(versions.as_slice(), i, pins) {
            continue;
        }
        versions.swap(kept, i);
        kept += 1;
    }
    versions.truncate(kept);
}

/// How many versions are at most `n`.
pub(crate) fn count_upto<C>(versions: &[(u64, Option<C>)], n: u64) -> usize
    requires { ascends versions.now }
    ensures bound { result ≤ length versions.now }
    ensures front { take result versions.now ≡ upto n versions.now }
    ensures holds { AllWithin (λ v. nat_le v.0 n ≡ true) versions.now 0 result }
{
    versions.partition_point(|v| v.0 <= n)
}

/// The last version that is at most `n`.
pub(crate) fn find_version<C>(versions: &[(u64, Option<C>)], n: u64) -> Option<&(u64, Option<C>)>
    requires { ascends versions.now }
    ensures { option_copied result ≡ last_seen n versions.now }
{
    let count = count_upto(versions, n);
    if count == 0 {
        return None;
    }
    Some(&versions[count - 1])
}

/// Whether `n` sees a value.
pub(crate) fn has_value<C>(versions: &[(u64, Option<C>)], n: u64) -> bool
    requires { ascends versions.now }
    ensures { result ≡ is_some (value_seen (last_seen n versions.now)) }
{
    match find_version(versions, n) {
        Some((_, value)) => value.is_some(),
        None => false,
    }
}

/// Whether some version is at most `n`.
pub(crate) fn begins_by<C>(versions: &[(u64, Option<C>)], n: u64) -> bool
    ensures { result ≡ has_upto n versions.now }
{
    match versions {
        [] => false,
        [first, ..] => first.0 <= n,
    }
}

/// Whether nothing will ever be dropped of these versions.
pub(crate) fn settles<C>(versions: &[(u64, Option<C>)]) -> bool
    ensures { result ≡ is_settled versions.now }
{
    match versions {
        [] => true,
        [only] => only.1.is_some(),
        _ => false,
    }
}

/// Keeps the versions that are at most `number`.
pub(crate) fn keep_upto<C: Drop>(versions: &mut Vec<(u64, Option<C>)>, number: u64)
    requires { ascends versions.old.items }
    ensures { versions.new.items ≡ upto number versions.old.items }
{
    let count = count_upto(versions.as_slice(), number);
    versions.truncate(count);
}

/// Whether the last version lies above `number`.
fn ends_above<C>(versions: &[(u64, Option<C>)], number: u64) -> bool
    ensures { result ≡ ends_above number versions.now }
{
    match versions.last() {
        Some(version) => version.0 > number,
        None => false,
    }
}

/// A copy of the value that `n` sees.
fn copy_seen<C: Cell>(
    alloc: Global,
    versions: &[(u64, Option<C>)],
    n: u64,
) -> Result<Option<C>, OutOfMemory>
    requires { ascends versions.now }
    ensures { IfOk result (λ value. value ≡ value_seen (last_seen n versions.now)) }
{
    match find_version(versions, n) {
        Some((_, Some(value))) => Ok(Some(value.copy(alloc)?)),
        _ => Ok(None),
    }
}

/// Takes the value that the next number sees: the one that is made ready, which goes, or else a copy.
fn take_next<C: Cell>(
    alloc: Global,
    versions: &mut Vec<(u64, Option<C>)>,
    number: u64,
) -> Result<Option<C>, OutOfMemory>
    requires room { number < 2 ^ 63 }
    requires order { ascends versions.old.items }
    requires next { within (number + 1) versions.old.items }
    ensures value { IfOk result (λ value. value ≡ value_next number versions.old.items) }
    ensures kept { IsKeptOrCut number versions.old.items versions.new.items }
{
    if !ends_above(versions.as_slice(), number) {
        return copy_seen(alloc, versions.as_slice(), number + 1);
    }
    match versions.pop() {
        Some((_, value)) => Ok(value),
        None => Ok(None),
    }
}

/// Makes the next version ready among those of a key.
pub(crate) fn stage_in<C: Drop>(
    versions: &mut Vec<(u64, Option<C>)>,
    number: u64,
    value: Option<C>,
) -> Result<(), OutOfMemory>
    requires room { number < 2 ^ 63 }
    requires order { ascends versions.old.items }
    ensures ok { OnOk result (versions.new.items ≡ staged number value versions.old.items) }
    ensures err { OnErr result (versions.new.items ≡ upto number versions.old.items) }
{
    keep_upto(versions, number);
    let counts = value.is_some() || !versions.is_empty() && has_value(versions.as_slice(), number);
    if !counts {
        return Ok(());
    }
    match versions.push((number + 1, value)) {
        Ok(()) => Ok(()),
        Err(_) => Err(OutOfMemory),
    }
}

/// Makes what deltas make of a key's value ready among its versions. Answers whether they fit; the first that
/// does not leaves the value, which is put back.
pub(crate) fn stage_run_in<K, C: Cell>(
    alloc: Global,
    versions: &mut Vec<(u64, Option<C>)>,
    number: u64,
    run: &[Change<K, C::Delta>],
) -> Result<bool, OutOfMemory>
    requires room { number < 2 ^ 63 }
    requires order { ascends versions.old.items }
    requires next { within (number + 1) versions.old.items }
    ensures fit { IfOk result
        (λ fit. fit ≡ run_fits C.outcome run.now (value_next number versions.old.items)) }
    ensures ok { let now = value_next number versions.old.items in
        OnOk result (versions.new.items ≡
        staged number (run_made C.outcome run.now now) versions.old.items) }
    ensures err { OnErr result (IsKeptOrCut number versions.old.items versions.new.items) }
{
    let mut value = take_next(alloc, versions, number)?;
    let fit = C::apply_all::<K>(alloc, &mut value, run)?;
    stage_in(versions, number, value)?;
    Ok(fit)
}

/// The versions of a key, the oldest first: the number of each with its value, none for a removal.
/// Contracts see the versions that are left.
#[derive(Drop)]
pub struct Versions<'a, K, C> {
    pub(crate) left: &'a [(u64, Option<C>)],
    pub(crate) key: PhantomData<K>,
}

impl<'a, K, C> Model for Versions<'a, K, C> {
    ghost use Rattle.std.specs.Prelude.{List, ℕ, Option};

    ghost Value = { List (ℕ × Option C) };

    ghost view = { λ v. v.left.now };
}

impl<'a, K, C> Iterator for Versions<'a, K, C> {
    type Item = (u64, Option<&'a C>);

    ghost next_gives = { TakesFirst (λ v. (v.0, option_copied v.1)) };

    ghost remaining = { λ s. at_most (length s) };

    fn next(&mut self) -> Option<(u64, Option<&'a C>)> {
        match self.left {
            [] => None,
            [first, rest @ ..] => {
                self.left = rest;
                Some((first.0, first.1.as_ref()))
            }
        }
    }
}
