//! What an attempt's changes make of a key's value.

ghost use Rattle.std.specs.Prelude.{◌≡◌, None, IfOk, OnOk, Option, cond, nat_eq, length};
ghost use Rattle.std.specs.Option.{option_copied};
ghost use Rattle.wtf_kv.specs.Edits.{after_change};
ghost use Rattle.wtf_occ.specs.Positions.{AllBelow, covers, past_cover, after_positions};

use crate::known::copied;
use std::alloc::Global;
use wtf_base::OutOfMemory;
use wtf_kv::{Cell, Change, StoreKey, Summarized};

/// Makes a change of a key's value. Want of memory may leave anything.
pub(crate) fn change_value<K: StoreKey, C: Cell>(
    alloc: Global,
    change: &Change<K, C::Delta>,
    key: &K,
    now: &mut Option<C>,
) -> Result<(), OutOfMemory>
    ensures { OnOk result
        (now.new ≡ after_change K.cmp C.outcome change.now key.now now.old) }
{
    match change {
        Change::Delta(at, delta) => {
            if at.cmp(key).is_eq() {
                C::apply(alloc, now, delta)?;
            }
        }
        Change::Cut(from, to) => {
            if from.cmp(key).is_le() && key.cmp(to).is_le() {
                *now = None;
            }
        }
    }
    Ok(())
}

/// One past the position of the last cut that covers a key, 0 where none does.
pub(crate) fn past_cuts<K: StoreKey, D>(changes: &[Change<K, D>], cuts: &[usize], key: &K) -> usize
    requires { AllBelow (length changes.now) cuts.now }
    ensures { result ≡ past_cover K.cmp changes.now key.now cuts.now 0 }
{
    let mut past = 0;
    for position in cuts {
        if is_covered(&changes[*position], key) {
            past = *position + 1;
        }
    }
    past
}

/// Whether a change is a cut of a range in which a key lies.
fn is_covered<K: StoreKey, D>(change: &Change<K, D>, key: &K) -> bool
    ensures { result ≡ covers K.cmp key.now change.now }
{
    match change {
        Change::Delta(..) => false,
        Change::Cut(from, to) => from.cmp(key).is_le() && key.cmp(to).is_le(),
    }
}

/// The value from which the changes at `from` and past it start: the one at the base, or none where a
/// cut stands before them.
pub(crate) fn value_before<C: Cell>(
    alloc: Global,
    at_base: Option<&C>,
    from: usize,
) -> Result<Option<C>, OutOfMemory>
    ensures { IfOk result (λ value. value ≡
        cond (nat_eq from 0) (option_copied at_base.entry) None) }
{
    if from != 0 {
        return Ok(None);
    }
    copied(alloc, at_base)
}

/// What the changes at those of the positions that are at least `from` make of a key's value.
pub(crate) fn value_after<K: StoreKey, C: Cell>(
    alloc: Global,
    changes: &[Change<K, C::Delta>],
    positions: &[usize],
    from: usize,
    key: &K,
    before: Option<C>,
) -> Result<Option<C>, OutOfMemory>
    requires { AllBelow (length changes.now) positions.now }
    ensures { IfOk result (λ value. value ≡ after_positions K.cmp C.outcome changes.now key.now from
        positions.now before) }
{
    let mut now = before;
    for position in positions {
        if from <= *position {
            change_value::<K, C>(alloc, &changes[*position], key, &mut now)?;
        }
    }
    Ok(now)
}

/// The summary of a value, where there is one.
pub(crate) fn summarized<C: Summarized>(value: Option<&C>) -> C::Summary
    ensures { result ≡ C.summary_of (option_copied value.entry) }
{
    match value {
        Some(value) => value.summary(),
        None => C::no_summary(),
    }
}

/// The summary of what the changes at those of the positions that are at least `from` make of a key's
/// value, told by the summary before them.
pub(crate) fn summary_after<K: StoreKey, C: Summarized>(
    changes: &[Change<K, C::Delta>],
    positions: &[usize],
    from: usize,
    key: &K,
    before: C::Summary,
) -> C::Summary
    requires { AllBelow (length changes.now) positions.now }
    ensures { (now : Option C) → before ≡ C.summary_of now → result ≡ C.summary_of
        (after_positions K.cmp C.outcome changes.now key.now from positions.now now) }
{
    let mut summary = before;
    for position in positions {
        if *position >= from {
            summary = changed_summary::<K, C>(&changes[*position], key, summary);
        }
    }
    summary
}

/// The summary of what a change makes of a key's value, told by the summary before it.
pub(crate) fn changed_summary<K: StoreKey, C: Summarized>(
    change: &Change<K, C::Delta>,
    key: &K,
    before: C::Summary,
) -> C::Summary
    ensures { (now : Option C) → before ≡ C.summary_of now →
        result ≡ C.summary_of (after_change K.cmp C.outcome change.now key.now now) }
{
    match change {
        Change::Delta(at, delta) => {
            if !at.cmp(key).is_eq() {
                return before;
            }
            C::summary_after(before, delta)
        }
        Change::Cut(from, to) => {
            if from.cmp(key).is_gt() || key.cmp(to).is_gt() {
                before
            } else {
                C::no_summary()
            }
        }
    }
}
