//! What is known of the values of keys that were looked at, so that a later look costs no walk over their
//! changes.

ghost use Rattle.std.specs.Prelude.{◌≡◌, ◌++◌, ◌∷◌, [], List, IfOk, OnOk, IsTrue};
ghost use Rattle.std.specs.Option.{option_copied};
ghost use Rattle.wtf_kv.specs.Edits.{after_change};
ghost use Rattle.wtf_occ.specs.Known.{AreMade, AreSummed, IsPlaced, Forgets};

use crate::values::{change_value, changed_summary};
use std::alloc::Global;
use std::collections::BTreeMap;
use wtf_base::OutOfMemory;
use wtf_kv::{Cell, Change, StoreKey, Summarized};

/// A value at the base, and what the changes make of it.
#[derive(Drop)]
pub(crate) struct Known<C> {
    pub(crate) before: Option<C>,
    pub(crate) after: Option<C>,
}

/// What is known, by key.
pub(crate) type KnownValues<K, C> = BTreeMap<K, Known<C>>;

/// The summary of a value at the base, and of what the changes make of it.
#[derive(Clone, Copy, Drop)]
pub(crate) struct Summed<S> {
    pub(crate) before: S,
    pub(crate) after: S,
}

/// Places for summaries, by key, and in them those that are known.
pub(crate) type KnownSummaries<K, S> = BTreeMap<K, Option<Summed<S>>>;

impl<C: Cell> Known<C> {
    /// Makes a further change of the value. Want of memory may leave any value.
    fn follow<K: StoreKey>(
        &mut self,
        alloc: Global,
        change: &Change<K, C::Delta>,
        key: &K,
    ) -> Result<(), OutOfMemory>
        ensures { OnOk result (self.new ≡ record self.old
            { after = after_change K.cmp C.outcome change.now key.now self.old.after }) }
    {
        change_value::<K, C>(alloc, change, key, &mut self.after)
    }
}

/// Makes a further change of the values that are known. A cut leaves none of them, and a value for whose
/// change there is no memory is known no more.
pub(crate) fn follow<K: StoreKey, C: Cell>(
    alloc: Global,
    known: &mut KnownValues<K, C>,
    change: &Change<K, C::Delta>,
)
    ensures { (cs : List (Change K C.Delta)) → AreMade K.cmp C.outcome cs known.old.entries →
        AreMade K.cmp C.outcome (cs ++ change.now ∷ []) known.new.entries }
{
    let Change::Delta(key, _) = change else {
        known.clear();
        return;
    };
    let Some(value) = known.get_mut(key) else {
        return;
    };
    match value.follow(alloc, change, key) {
        Ok(()) => {}
        Err(_) => {
            known.remove(key);
        }
    }
}

/// Makes a further change of the summaries that are known. A cut leaves none of them. Where the key had a
/// delta before, there is a place for its summary then, if there is memory for one.
pub(crate) fn follow_place<K: StoreKey, C: Summarized>(
    alloc: Global,
    known: &mut KnownSummaries<K, C::Summary>,
    change: &Change<K, C::Delta>,
    again: bool,
)
    ensures { (cs : List (Change K C.Delta)) →
        AreSummed K.cmp C.outcome C.summary_of cs known.old.entries →
        AreSummed K.cmp C.outcome C.summary_of (cs ++ change.now ∷ []) known.new.entries }
{
    let placed = follow_summary::<K, C>(known, change);
    if placed || !again {
        return;
    }
    make_place::<K, C>(alloc, known, change);
}

/// Makes a place for the summary of a change's key, where there is memory for one.
fn make_place<K: StoreKey, C: Summarized>(
    alloc: Global,
    known: &mut KnownSummaries<K, C::Summary>,
    change: &Change<K, C::Delta>,
)
    ensures { (cs : List (Change K C.Delta)) →
        AreSummed K.cmp C.outcome C.summary_of cs known.old.entries →
        AreSummed K.cmp C.outcome C.summary_of cs known.new.entries }
{
    let Change::Delta(key, _) = change else {
        return;
    };
    place_for::<K, C>(alloc, known, key);
}

/// Makes a place for the summary of a key, where there is memory for one. What is known of it is forgotten.
pub(crate) fn place_for<K: StoreKey, C: Summarized>(
    alloc: Global,
    known: &mut KnownSummaries<K, C::Summary>,
    key: &K,
)
    ensures { (cs : List (Change K C.Delta)) →
        AreSummed K.cmp C.outcome C.summary_of cs known.old.entries →
        AreSummed K.cmp C.outcome C.summary_of cs known.new.entries }
{
    let Ok(own) = key.copy(alloc) else {
        return;
    };
    let _made = known.insert(own, None);
}

/// Makes a further change of the summaries that are known. A cut leaves none of them. Answers whether there
/// is a place for the summary of its key.
fn follow_summary<K: StoreKey, C: Summarized>(
    known: &mut KnownSummaries<K, C::Summary>,
    change: &Change<K, C::Delta>,
) -> bool
    ensures { (cs : List (Change K C.Delta)) →
        AreSummed K.cmp C.outcome C.summary_of cs known.old.entries →
        AreSummed K.cmp C.outcome C.summary_of (cs ++ change.now ∷ []) known.new.entries }
{
    let Change::Delta(key, _) = change else {
        known.clear();
        return false;
    };
    let Some(place) = known.get_mut(key) else {
        return false;
    };
    *place = followed::<K, C>(*place, change, key);
    true
}

/// What becomes of a summary by a further change of its key, where it is known.
fn followed<K: StoreKey, C: Summarized>(
    summed: Option<Summed<C::Summary>>,
    change: &Change<K, C::Delta>,
    key: &K,
) -> Option<Summed<C::Summary>>
    ensures { (cs : List (Change K C.Delta)) →
        IsPlaced K.cmp C.outcome C.summary_of cs key.now summed →
        IsPlaced K.cmp C.outcome C.summary_of (cs ++ change.now ∷ []) key.now result }
{
    let mut summed = summed?;
    summed.after = changed_summary::<K, C>(change, key, summed.after);
    Some(summed)
}

/// Drops what is known of the values that the last change may have made.
pub(crate) fn unlearn<K: StoreKey, X: Drop, D>(known: &mut BTreeMap<K, X>, change: &Change<K, D>)
    ensures { Forgets K.cmp change.now known.old.entries known.new.entries }
{
    match change {
        Change::Delta(key, _) => {
            known.remove(key);
        }
        Change::Cut(..) => known.clear(),
    }
}

/// A copy of a value, where there is one.
pub(crate) fn copied<C: Cell>(alloc: Global, value: Option<&C>) -> Result<Option<C>, OutOfMemory>
    ensures { IfOk result (λ made. made ≡ option_copied value.entry) }
{
    match value {
        Some(value) => Ok(Some(value.copy(alloc)?)),
        None => Ok(None),
    }
}

/// Whether two values are sure to be the same, where both may be missing.
pub(crate) fn are_same<C: Cell>(a: Option<&C>, b: Option<&C>, looks: usize) -> bool
    ensures { IsTrue result → option_copied a.entry ≡ option_copied b.entry }
{
    match (a, b) {
        (Some(a), Some(b)) => a.is_same(b, looks),
        (None, None) => true,
        _ => false,
    }
}
