//! The history of a map: the versions of each key, and those that are made ready for the next install, which no
//! number that can be read sees. The keys that get one are noted first, so that it can be undone.

ghost use Rattle.std.specs.Prelude.{◌≡◌, ℕ, ◌+◌, ◌<◌, ◌≤◌, ◌∷◌, [], ◌++◌, ◌^◌, true, false, OnErr, OnOk, IfOk, IfErr, cond, length, take, None, Some};
ghost use Rattle.std.specs.Option.{option_copied};
ghost use Rattle.std.specs.BTreeMap.{is_at};
ghost use Rattle.wtf_kv.specs.Seen.{ascends, within, kept_versions};
ghost use Rattle.wtf_kv.specs.Stores.{listed, versions_in, versions_of, map_at, version_of, names, AllAscend, ShowsSame};
ghost use Rattle.wtf_kv.specs.Inside.{AllGood};
ghost use Rattle.wtf_kv.specs.Edits.{Fits, first_unfit};
ghost use Rattle.wtf_kv.specs.Causes.{IsCause};
ghost use Rattle.wtf_kv.specs.Installs.{Planned, IsReady};
ghost use Rattle.wtf_kv.specs.Order.{IsNextKey, IsNextChanged};
ghost use Rattle.wtf_kv.specs.Recents.{may_change, NotesMore};
ghost use Rattle.std.specs.Range.Bound.{bound_map};
ghost use Rattle.std.specs.declared.ops.Bound.{Bound};
ghost use Rattle.wtf_kv.specs.Walks.{AreRowsFrom, HasRowsUpto};
ghost use Rattle.wtf_kv.specs.Staging.{staged, value_next, next_value, is_taken, IsKeptOrCut, IsStaged, IsStagedBy, IsStagedByAll, AreDeltasOf, run_made, run_fits};

use crate::cells::{
    Cells, clear_cells, first_due, first_key, prune_all, seed_cell, shown_in, start_past, value_in,
    valued_keys, version_in,
};
use crate::recent::Recent;
use crate::rows::{stage_in, stage_run_in};
use crate::walk::{most_rows, rows_in};
use crate::{Cell, Change, NotReady, Rows, StoreKey};
use std::alloc::Global;
use std::collections::BTreeMap;
use std::marker::Model;
use std::ops::Bound;
use wtf_base::OutOfMemory;

/// Versions of keys. Contracts see it as a store with no pins: its number, and the versions of each key.
#[derive(Drop)]
pub(crate) struct History<K: StoreKey, C: Drop> {
    alloc: Global,
    number: u64,
    cells: Cells<K, C>,
    // The keys of which something may be dropped, and from `fresh` on those with a version made ready.
    touched: Vec<K>,
    fresh: usize,
    // How many keys had something left to drop after the last time.
    left: usize,
    recent: Recent<K>,
}

impl<K: StoreKey, C: Drop> Model for History<K, C> {
    ghost use Rattle.std.specs.Prelude.{[]};
    ghost use Rattle.wtf_kv.specs.Stores.{Store, listed};
    ghost use Rattle.wtf_kv.specs.Inside.{Sound};

    ghost Value = { Store K C };

    ghost view = { λ h. record { number = h.number; pins = []; cells = listed h.cells.entries } };

    ghost invariant = { λ h. Sound K.cmp h.number h.fresh h.recent h.touched.items (listed h.cells.entries) };
}

impl<K: StoreKey, C: Drop> History<K, C> {
    /// No versions, at a number.
    pub(crate) fn new(alloc: Global, number: u64) -> History<K, C>
        ensures { result ≡ record { number = number; pins = []; cells = [] } }
    {
        History {
            alloc,
            number,
            cells: BTreeMap::new(alloc),
            touched: Vec::new(alloc),
            fresh: 0,
            left: 0,
            recent: Recent::new(alloc),
        }
    }

    /// The number of the last install.
    pub(crate) fn number(&self) -> u64
        ensures { result ≡ self.now.number }
    {
        self.number
    }

    /// Gives a key its first value, with the number as its version.
    pub(crate) fn seed(&mut self, key: K, value: C) -> Result<(), OutOfMemory>
        requires { versions_of K.cmp self.old key ≡ [] }
        ensures number { self.new.number ≡ self.old.number }
        ensures ok { OnOk result
            ((q : K) → versions_of K.cmp self.new q ≡
            cond (is_at (K.cmp key) q) ((self.old.number, Some value) ∷ [])
            (versions_of K.cmp self.old q)) }
        ensures err { OnErr result (ShowsSame K.cmp self.old self.new) }
    {
        self.recent.forget();
        seed_cell(self.alloc, &mut self.cells, self.number, key, value)
    }

    /// The value of a key that `n` sees.
    pub(crate) fn value(&self, n: u64, key: &K) -> Option<&C>
        requires { n ≤ self.now.number }
        ensures { option_copied result ≡ map_at K.cmp self.now n key.now }
    {
        value_in(&self.cells, n, key)
    }

    /// The version of a key that `n` sees under these pins.
    pub(crate) fn version(&self, pins: &[u64], n: u64, key: &K) -> u64
        requires { n ≤ self.now.number }
        ensures { result ≡ version_of K.cmp (record self.now { pins = pins.now }) n key.now }
    {
        version_in(&self.cells, pins, n, key)
    }

    /// The versions of a key, the oldest first.
    pub(crate) fn versions(&self, key: &K) -> &[(u64, Option<C>)]
        ensures versions { result.now ≡ versions_of K.cmp self.now key.now }
        ensures order { ascends result.now }
    {
        shown_in(&self.cells, self.number, key)
    }

    /// The least key above `after` that has a version.
    pub(crate) fn next_key<'a>(&'a self, after: Option<&'a K>) -> Option<&'a K>
        ensures { IsNextKey K.cmp self.now (option_copied after.entry) (option_copied result) }
    {
        let start = start_past(after);
        first_key(&self.cells, start, self.number)
    }

    /// Notes the keys that change from now on. Where an install is made ready, an earlier mark stays.
    pub(crate) fn mark(&mut self)
        ensures { self.new ≡ self.old }
    {
        if self.fresh >= self.touched.len() {
            self.recent.mark(self.number);
        }
    }

    /// The least key above `after` whose last version under these pins lies above `since`.
    pub(crate) fn next_changed<'a>(
        &'a self,
        pins: &[u64],
        since: u64,
        after: Option<&'a K>,
    ) -> Option<&'a K>
        ensures { IsNextChanged K.cmp (record self.now { pins = pins.now }) since
            (option_copied after.entry) (option_copied result) }
    {
        let start = start_past(after);
        if self.recent.has_since(since) {
            let keys = &self.recent.keys;
            return first_due(keys, &self.cells, pins, self.number, since, start);
        }
        first_due(&self.cells, &self.cells, pins, self.number, since, start)
    }

    /// The keys from `start` on of which `n` sees a value.
    pub(crate) fn rows(&self, n: u64, start: Bound<&K>) -> Rows<'_, K, C>
        requires { n ≤ self.now.number }
        ensures { AreRowsFrom K.cmp (bound_map (λ k. k.now) start.entry)
            (map_at K.cmp self.now n) result }
    {
        rows_in(&self.cells, n, start)
    }

    /// How many keys are held, which no walk has more rows than.
    pub(crate) fn most_rows(&self) -> usize
        ensures { (n : ℕ) → n ≤ self.now.number → (start : Bound K) →
            HasRowsUpto K.cmp start (map_at K.cmp self.now n) result }
    {
        most_rows(&self.cells)
    }

    /// Drops what was made ready, and the versions that are not kept under these pins.
    pub(crate) fn prune(&mut self, pins: &[u64])
        ensures number { self.new.number ≡ self.old.number }
        ensures order { AllAscend K.cmp self.old }
        ensures kept { (q : K) → versions_of K.cmp self.new q ≡
            kept_versions pins.now (versions_of K.cmp self.old q) }
    {
        prune_all(
            &mut self.cells,
            &mut self.touched,
            self.number,
            self.fresh,
            pins,
        );
        self.fresh = self.touched.len();
        self.left = self.touched.len();
    }

    /// Whether the keys to look at are twice those that were left the last time, and not few.
    pub(crate) fn is_due(&self) -> bool {
        self.touched.len() / 2 >= self.left.max(32)
    }

    /// Shows what was made ready under the next number.
    pub(crate) fn install(&mut self)
        requires { self.old.number < 2 ^ 63 }
        ensures number { self.new.number ≡ self.old.number + 1 }
        ensures versions { (q : K) → versions_of K.cmp self.new q ≡
            versions_in K.cmp self.old.cells q }
    {
        self.number += 1;
        self.fresh = self.touched.len();
    }

    /// Drops what was made ready before.
    fn clear(&mut self)
        ensures number { self.new.number ≡ self.old.number }
        ensures pins { self.new.pins ≡ self.old.pins }
        ensures versions { (q : K) → versions_in K.cmp self.new.cells q ≡
            versions_of K.cmp self.old q }
    {
        clear_cells(&mut self.cells, &mut self.touched, self.number, self.fresh);
    }

    /// Notes a key, and makes its next version ready.
    fn stage_key(&mut self, key: &K, value: Option<C>) -> Result<(), OutOfMemory>
        requires { self.old.number < 2 ^ 63 }
        ensures same { ShowsSame K.cmp self.old self.new }
        ensures ok { OnOk result (IsStaged K.cmp (is_at (K.cmp key.now)) value self.old self.new) }
    {
        note(self.alloc, &mut self.touched, &mut self.recent, key)?;
        stage_cell(self.alloc, &mut self.cells, self.number, key, value)
    }

    /// Makes a removal of each of the keys ready.
    fn stage_removals(&mut self, keys: &[K]) -> Result<(), OutOfMemory>
        requires { self.old.number < 2 ^ 63 }
        ensures same { ShowsSame K.cmp self.old self.new }
        ensures ok { OnOk result (IsStaged K.cmp (names K.cmp keys.now) None self.old self.new) }
    {
        for key in keys {
            self.stage_key(key, None)?;
        }
        Ok(())
    }

    /// The keys that a cut takes out.
    fn taken(&self, from: &K, to: &K) -> Result<Vec<K>, OutOfMemory>
        requires { self.now.number < 2 ^ 63 }
        ensures { IfOk result
            (λ keys. (q : K) →
            names K.cmp keys.items q ≡ is_taken K.cmp from.now to.now self.now q) }
    {
        valued_keys(self.alloc, &self.cells, self.number, from, to)
    }

    /// Makes a cut ready.
    fn stage_cut(&mut self, from: &K, to: &K) -> Result<(), OutOfMemory>
        requires { self.old.number < 2 ^ 63 }
        ensures same { ShowsSame K.cmp self.old self.new }
        ensures ok { OnOk result
            (IsStaged K.cmp (is_taken K.cmp from.now to.now self.old) None self.old self.new) }
    {
        let keys = self.taken(from, to)?;
        self.stage_removals(keys.as_slice())
    }
}

impl<K: StoreKey, C: Cell> History<K, C> {
    /// Notes a key, and makes what deltas make of its value ready. Answers whether they fit.
    fn stage_made(&mut self, key: &K, run: &[Change<K, C::Delta>]) -> Result<bool, OutOfMemory>
        requires { self.old.number < 2 ^ 63 }
        ensures same { ShowsSame K.cmp self.old self.new }
        ensures ok { let now = next_value K.cmp self.old key.now in
            OnOk result
            (IsStaged K.cmp (is_at (K.cmp key.now))
            (run_made C.outcome run.now now) self.old self.new) }
        ensures fit { IfOk result
            (λ fit. fit ≡ run_fits C.outcome run.now (next_value K.cmp self.old key.now)) }
    {
        note(self.alloc, &mut self.touched, &mut self.recent, key)?;
        stage_run_cell(self.alloc, &mut self.cells, self.number, key, run)
    }

    /// Makes deltas of one key ready, where they fit.
    fn stage_run(&mut self, key: &K, run: &[Change<K, C::Delta>]) -> Result<(), NotReady<K>>
        requires { self.old.number < 2 ^ 63 }
        ensures same { ShowsSame K.cmp self.old self.new }
        ensures ok { let now = next_value K.cmp self.old key.now in
            OnOk result
            (IsStaged K.cmp (is_at (K.cmp key.now))
            (run_made C.outcome run.now now) self.old self.new) }
        ensures fit { OnOk result
            (run_fits C.outcome run.now (next_value K.cmp self.old key.now) ≡ true) }
        ensures cause { let fit = run_fits C.outcome run.now (next_value K.cmp self.old key.now) in
            IfErr result (λ why. IsCause why (cond fit None (Some key.now))) }
    {
        match self.stage_made(key, run) {
            Ok(true) => Ok(()),
            Ok(false) => Err(unfit(self.alloc, key)),
            Err(_) => Err(NotReady::Memory),
        }
    }

    /// Makes the first of the changes ready, and with a delta those of the same key that follow it, by one
    /// search. Answers how many.
    fn stage_first(&mut self, changes: &[Change<K, C::Delta>]) -> Result<usize, NotReady<K>>
        requires room { self.old.number < 2 ^ 63 }
        requires some { 0 < length changes.now }
        ensures some { IfOk result (λ n. (0 < n) × (n ≤ length changes.now)) }
        ensures same { ShowsSame K.cmp self.old self.new }
        ensures ok { IfOk result (λ n.
            IsStagedBy K.cmp C.outcome (take n changes.now) self.old self.new) }
        ensures fit { IfOk result (λ n.
            Fits K.cmp C.outcome (take n changes.now) (next_value K.cmp self.old)) }
        ensures cause { IfErr result (λ why. IsCause why
            (first_unfit K.cmp C.outcome changes.now (next_value K.cmp self.old))) }
    {
        match &changes[0] {
            Change::Cut(from, to) => match self.stage_cut(from, to) {
                Ok(()) => Ok(1),
                Err(_) => Err(NotReady::Memory),
            },
            Change::Delta(key, _) => {
                let count = run_len(&changes[1..], key) + 1;
                match self.stage_run(key, &changes[..count]) {
                    Ok(()) => Ok(count),
                    Err(why) => Err(why),
                }
            }
        }
    }

    /// Makes changes ready, in order, where nothing is made ready.
    fn stage_all(&mut self, changes: &[Change<K, C::Delta>]) -> Result<(), NotReady<K>>
        requires room { self.old.number < 2 ^ 63 }
        requires clean { (q : K) → within self.old.number (versions_in K.cmp self.old.cells q) }
        ensures same { ShowsSame K.cmp self.old self.new }
        ensures ok { OnOk result (IsStagedByAll K.cmp C.outcome changes.now self.old self.new) }
        ensures fit { OnOk result (Fits K.cmp C.outcome changes.now (next_value K.cmp self.old)) }
        ensures cause { IfErr result (λ why. IsCause why
            (first_unfit K.cmp C.outcome changes.now (next_value K.cmp self.old))) }
    {
        let mut i = 0;
        while i < changes.len() {
            match self.stage_first(&changes[i..]) {
                Ok(count) => i += count,
                Err(why) => return Err(why),
            }
        }
        Ok(())
    }

    /// Makes changes ready, in order, in place of what was made ready before.
    pub(crate) fn stage(&mut self, changes: &[Change<K, C::Delta>]) -> Result<(), NotReady<K>>
        requires { self.old.number < 2 ^ 63 }
        ensures same { ShowsSame K.cmp self.old self.new }
        ensures ready { let plan : Planned K C.Delta =
            record { number = self.old.number + 1; changes = changes.now } in
            OnOk result (IsReady K.cmp C.outcome self.new plan) }
        ensures fit { OnOk result
            (Fits K.cmp C.outcome changes.now (map_at K.cmp self.old self.old.number)) }
        ensures cause { let now = map_at K.cmp self.old self.old.number in
            IfErr result (λ why. IsCause why (first_unfit K.cmp C.outcome changes.now now)) }
    {
        self.clear();
        self.stage_all(changes)
    }
}

/// Makes the next version of a key ready.
fn stage_cell<K: StoreKey, C: Drop>(
    alloc: Global,
    cells: &mut Cells<K, C>,
    number: u64,
    key: &K,
    value: Option<C>,
) -> Result<(), OutOfMemory>
    requires room { number < 2 ^ 63 }
    requires good { AllGood K.cmp number (listed cells.old.entries) }
    ensures others { (q : K) → is_at (K.cmp key.now) q ≡ false →
        versions_in K.cmp (listed cells.new.entries) q ≡
        versions_in K.cmp (listed cells.old.entries) q }
    ensures ok { OnOk result ((q : K) → is_at (K.cmp key.now) q ≡ true →
        versions_in K.cmp (listed cells.new.entries) q ≡
        staged number value (versions_in K.cmp (listed cells.old.entries) q)) }
    ensures err { OnErr result ((q : K) → is_at (K.cmp key.now) q ≡ true →
        IsKeptOrCut number (versions_in K.cmp (listed cells.old.entries) q)
        (versions_in K.cmp (listed cells.new.entries) q)) }
{
    if let Some(versions) = cells.get_mut(key) {
        return stage_in(versions, number, value);
    }
    add_cell(alloc, cells, number, key, value)
}

/// Makes what deltas make of a key's value ready, with one search where the key has versions. Answers
/// whether they fit.
fn stage_run_cell<K: StoreKey, C: Cell>(
    alloc: Global,
    cells: &mut Cells<K, C>,
    number: u64,
    key: &K,
    run: &[Change<K, C::Delta>],
) -> Result<bool, OutOfMemory>
    requires room { number < 2 ^ 63 }
    requires good { AllGood K.cmp number (listed cells.old.entries) }
    ensures others { (q : K) → is_at (K.cmp key.now) q ≡ false →
        versions_in K.cmp (listed cells.new.entries) q ≡
        versions_in K.cmp (listed cells.old.entries) q }
    ensures fit { let now = value_next number
        (versions_in K.cmp (listed cells.old.entries) key.now) in
        IfOk result (λ fit. fit ≡ run_fits C.outcome run.now now) }
    ensures ok { let now = value_next number
        (versions_in K.cmp (listed cells.old.entries) key.now) in
        OnOk result ((q : K) → is_at (K.cmp key.now) q ≡ true →
        versions_in K.cmp (listed cells.new.entries) q ≡
        staged number (run_made C.outcome run.now now)
        (versions_in K.cmp (listed cells.old.entries) q)) }
    ensures err { OnErr result ((q : K) → is_at (K.cmp key.now) q ≡ true →
        IsKeptOrCut number (versions_in K.cmp (listed cells.old.entries) q)
        (versions_in K.cmp (listed cells.new.entries) q)) }
{
    if let Some(versions) = cells.get_mut(key) {
        return stage_run_in(alloc, versions, number, run);
    }
    let mut value = None;
    let fit = C::apply_all::<K>(alloc, &mut value, run)?;
    add_cell(alloc, cells, number, key, value)?;
    Ok(fit)
}

/// How many of the changes from the first on are deltas of a key.
fn run_len<K: StoreKey, D>(changes: &[Change<K, D>], key: &K) -> usize
    ensures bound { result ≤ length changes.now }
    ensures run { AreDeltasOf key.now (take result changes.now) }
{
    let mut count = 0;
    for change in changes {
        let Change::Delta(next, _) = change else {
            return count;
        };
        if *next != *key {
            return count;
        }
        count += 1;
    }
    count
}

/// Adds a key that has no versions, with its next version made ready.
fn add_cell<K: StoreKey, C: Drop>(
    alloc: Global,
    cells: &mut Cells<K, C>,
    number: u64,
    key: &K,
    value: Option<C>,
) -> Result<(), OutOfMemory>
    requires room { number < 2 ^ 63 }
    requires none { versions_in K.cmp (listed cells.old.entries) key.now ≡ [] }
    ensures others { (q : K) → is_at (K.cmp key.now) q ≡ false →
        versions_in K.cmp (listed cells.new.entries) q ≡
        versions_in K.cmp (listed cells.old.entries) q }
    ensures ok { OnOk result ((q : K) → is_at (K.cmp key.now) q ≡ true →
        versions_in K.cmp (listed cells.new.entries) q ≡
        staged number value (versions_in K.cmp (listed cells.old.entries) q)) }
    ensures err { OnErr result (cells.new.entries ≡ cells.old.entries) }
{
    let mut versions = Vec::with_capacity(alloc, 1)?;
    stage_in(&mut versions, number, value)?;
    let own = key.copy(alloc)?;
    match cells.insert(own, versions) {
        Ok(_) => Ok(()),
        Err(_) => Err(OutOfMemory),
    }
}

/// Notes a key before a version of it is made ready.
fn note<K: StoreKey>(
    alloc: Global,
    touched: &mut Vec<K>,
    recent: &mut Recent<K>,
    key: &K,
) -> Result<(), OutOfMemory>
    ensures ok { OnOk result (touched.new.items ≡ touched.old.items ++ key.now ∷ []) }
    ensures err { OnErr result (touched.new.items ≡ touched.old.items) }
    ensures kept { NotesMore K.cmp recent.old recent.new }
    ensures noted { OnOk result ((q : K) → is_at (K.cmp key.now) q ≡ true →
        may_change K.cmp recent.new q ≡ true) }
{
    recent.note(alloc, key)?;
    let noted = key.copy(alloc)?;
    touched.push(noted)?;
    Ok(())
}

/// Names a key whose delta does not fit.
fn unfit<K: StoreKey>(alloc: Global, key: &K) -> NotReady<K>
    ensures { IsCause result (Some key.now) }
{
    match key.copy(alloc) {
        Ok(key) => NotReady::Unfit(key),
        Err(_) => NotReady::Memory,
    }
}
