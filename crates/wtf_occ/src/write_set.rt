//! The changes of an attempt, in order, with an index of the positions at which those of a key stand. A read
//! walks the changes of its key and the cuts by it, and not all changes. Where the key is settled, it walks
//! none.

ghost use Rattle.std.specs.Prelude.{◌≡◌, Option, ◌-◌, ◌<◌, ◌≤◌, ◌∷◌, [], ◌++◌, IsTrue, IfOk, IfSome, IfNone, OnErr, OnOk, false, cond, length, map, take};
ghost use Rattle.std.specs.BTreeMap.{is_at};
ghost use Rattle.std.specs.Option.{option_copied};
ghost use Rattle.wtf_kv.specs.Edits.{over, after_changes};
ghost use Rattle.wtf_kv.specs.Stores.{map_at, is_pinned};
ghost use Rattle.wtf_occ.specs.Positions.{AllBelow, after_positions, listed_positions, positions_of, front, is_cut, is_delta_of, has_delta};

use crate::known::{
    Known, KnownSummaries, KnownValues, Summed, are_same, copied, follow, follow_place, place_for,
    unlearn,
};
use crate::runs::{add_all, has_summary, note_added};
use crate::values::{past_cuts, summarized, summary_after, value_after, value_before};
use std::alloc::Global;
use std::collections::BTreeMap;
use std::marker::Model;
use wtf_base::OutOfMemory;
use wtf_kv::{Cell, Change, Changes, Kv, StoreKey, Summarized};

/// The positions of each key's deltas in a list of changes, ascending.
pub(crate) type Positions<K> = BTreeMap<K, Vec<usize>>;

/// So many looks at parts of a value cost no more than the application of one change.
const LOOKS: usize = 128;

/// Changes, in order, with their index, and the values that are known. Contracts see the list of changes.
#[derive(Drop)]
pub(crate) struct WriteSet<K: StoreKey, C: Summarized> {
    alloc: Global,
    changes: Changes<K, C>,
    positions: Positions<K>,
    cuts: Vec<usize>,
    known: KnownValues<K, C>,
    summaries: KnownSummaries<K, C::Summary>,
}

impl<K: StoreKey, C: Summarized> Model for WriteSet<K, C> {
    ghost use Rattle.std.specs.Prelude.{List};
    ghost use Rattle.wtf_kv.specs.declared.changes.Change.{Change};
    ghost use Rattle.wtf_occ.specs.Positions.{IsIndex, listed_positions};
    ghost use Rattle.wtf_occ.specs.Known.{AreMade, AreSummed};

    ghost Value = { List (Change K C.Delta) };

    ghost view = { λ w. w.changes };

    ghost invariant = { λ w.
        IsIndex K.cmp w.changes (listed_positions w.positions.entries) w.cuts.items
        × AreMade K.cmp C.outcome w.changes w.known.entries
        × AreSummed K.cmp C.outcome C.summary_of w.changes w.summaries.entries };
}

impl<K: StoreKey, C: Summarized> WriteSet<K, C> {
    /// No changes.
    pub(crate) fn new(alloc: Global) -> WriteSet<K, C>
        ensures { result ≡ [] }
    {
        WriteSet {
            alloc,
            changes: Changes::new(alloc),
            positions: BTreeMap::new(alloc),
            cuts: Vec::new(alloc),
            known: BTreeMap::new(alloc),
            summaries: BTreeMap::new(alloc),
        }
    }

    /// How many changes there are.
    pub(crate) fn len(&self) -> usize
        ensures { result ≡ length self.now }
    {
        self.changes.len()
    }

    /// The changes, without the index.
    pub(crate) fn changes(&self) -> &Changes<K, C>
        ensures { result.now ≡ self.now }
    {
        &self.changes
    }

    /// What the changes make of a key's value in the map at `base`.
    pub(crate) fn value(&self, kv: &Kv<K, C>, base: u64, key: &K) -> Result<Option<C>, OutOfMemory>
        requires { IsTrue (is_pinned kv.now base) }
        ensures { IfOk result
            (λ value. value ≡ over K.cmp C.outcome self.now (map_at K.cmp kv.now base) key.now) }
    {
        let at_base = kv.read_at(base, key);
        match self.known_from(at_base, key) {
            Some(known) => copied(self.alloc, known.after.as_ref()),
            None => self.made_of(at_base, key),
        }
    }

    /// The same without a copy, where it stands somewhere.
    pub(crate) fn look<'a>(&'a self, kv: &'a Kv<K, C>, base: u64, key: &K) -> Option<Option<&'a C>>
        requires { IsTrue (is_pinned kv.now base) }
        ensures value { IfSome result (λ value. option_copied value ≡
            over K.cmp C.outcome self.now (map_at K.cmp kv.now base) key.now) }
        ensures none { IfNone result (IsTrue (has_delta K.cmp self.now key.now)) }
    {
        let at_base = kv.read_at(base, key);
        if !self.has_delta(key) {
            return Some(self.uncut(at_base, key));
        }
        let known = self.known_from(at_base, key)?;
        Some(known.after.as_ref())
    }

    /// The positions of a key's deltas, where these alone make its value: no change is a cut then.
    pub(crate) fn deltas_of(&self, key: &K) -> Option<&[usize]>
        ensures below { IfSome result (λ at. AllBelow (length self.now) at.now) }
        ensures value { IfSome result (λ at. (now : Option C) →
            after_positions K.cmp C.outcome self.now key.now 0 at.now now ≡
            after_changes K.cmp C.outcome self.now key.now now) }
    {
        if !self.cuts.is_empty() {
            return None;
        }
        Some(positions_in(&self.positions, key))
    }

    /// Whether one of the changes is a delta of this key.
    fn has_delta(&self, key: &K) -> bool
        ensures { result ≡ has_delta K.cmp self.now key.now }
    {
        !positions_in(&self.positions, key).is_empty()
    }

    /// What the changes make of a value of a key of which none is a delta: nothing where a cut covers it.
    fn uncut<'a>(&self, at_base: Option<&'a C>, key: &K) -> Option<&'a C>
        requires { has_delta K.cmp self.now key.now ≡ false }
        ensures { option_copied result ≡
            after_changes K.cmp C.outcome self.now key.now (option_copied at_base.entry) }
    {
        let changes = self.changes.as_slice();
        let from = past_cuts(changes, self.cuts.as_slice(), key);
        if from == 0 { at_base } else { None }
    }

    /// What is known of a key, where that is sure to start from this value.
    fn known_from(&self, at_base: Option<&C>, key: &K) -> Option<&Known<C>>
        ensures { IfSome result (λ known. known.now.after ≡
            after_changes K.cmp C.outcome self.now key.now (option_copied at_base.entry)) }
    {
        let known = self.known.get(key)?;
        let changes = positions_in(&self.positions, key).len();
        let looks = changes.saturating_mul(LOOKS);
        if are_same(known.before.as_ref(), at_base, looks) {
            Some(known)
        } else {
            None
        }
    }

    /// What the changes make of a value of a key, by a walk over those of the key and the cuts.
    fn made_of(&self, at_base: Option<&C>, key: &K) -> Result<Option<C>, OutOfMemory>
        ensures { IfOk result (λ value. value ≡
            after_changes K.cmp C.outcome self.now key.now (option_copied at_base.entry)) }
    {
        let changes = self.changes.as_slice();
        let from = past_cuts(changes, self.cuts.as_slice(), key);
        let before = value_before(self.alloc, at_base, from)?;
        let positions = positions_in(&self.positions, key);
        value_after(self.alloc, changes, positions, from, key, before)
    }

    /// Makes the value of a key known, unless it is or no delta is of this key.
    pub(crate) fn settle(&mut self, kv: &Kv<K, C>, base: u64, key: &K) -> Result<(), OutOfMemory>
        requires { IsTrue (is_pinned kv.now base) }
        ensures { self.new ≡ self.old }
    {
        if !self.has_delta(key) || self.known.contains_key(key) {
            return Ok(());
        }
        let at_base = kv.read_at(base, key);
        let before = copied(self.alloc, at_base)?;
        let after = self.made_of(at_base, key)?;
        let own = key.copy(self.alloc)?;
        match self.known.insert(own, Known { before, after }) {
            Ok(_) => Ok(()),
            Err(_) => Err(OutOfMemory),
        }
    }

    /// The summary of what the changes make of a key's value in the map at `base`.
    pub(crate) fn summary(&self, kv: &Kv<K, C>, base: u64, key: &K) -> C::Summary
        requires { IsTrue (is_pinned kv.now base) }
        ensures { result ≡ C.summary_of
            (over K.cmp C.outcome self.now (map_at K.cmp kv.now base) key.now) }
    {
        let before = summarized(kv.read_at(base, key));
        match self.known_summary(before, key) {
            Some(after) => after,
            None => self.summary_made_of(before, key),
        }
    }

    /// The same, which is known then, where there is a place for it.
    pub(crate) fn settled_summary(&mut self, kv: &Kv<K, C>, base: u64, key: &K) -> C::Summary
        requires { IsTrue (is_pinned kv.now base) }
        ensures value { result ≡ C.summary_of
            (over K.cmp C.outcome self.old (map_at K.cmp kv.now base) key.now) }
        ensures same { self.new ≡ self.old }
    {
        let before = summarized(kv.read_at(base, key));
        if let Some(after) = self.known_summary(before, key) {
            return after;
        }
        let after = self.summary_made_of(before, key);
        self.keep_summary(key, before, after);
        after
    }

    /// What is known of the summary of a key, where that is sure to start from this one.
    fn known_summary(&self, before: C::Summary, key: &K) -> Option<C::Summary>
        ensures { IfSome result (λ after. (now : Option C) → before ≡ C.summary_of now →
            after ≡ C.summary_of (after_changes K.cmp C.outcome self.now key.now now)) }
    {
        match self.summaries.get(key) {
            Some(Some(summed)) if C::same_summary(summed.before, before) => Some(summed.after),
            _ => None,
        }
    }

    /// Makes a summary known, where there is a place for it.
    fn keep_summary(&mut self, key: &K, before: C::Summary, after: C::Summary)
        requires { (now : Option C) → before ≡ C.summary_of now →
            after ≡ C.summary_of (after_changes K.cmp C.outcome self.old key.now now) }
        ensures { self.new ≡ self.old }
    {
        if let Some(place) = self.summaries.get_mut(key) {
            *place = Some(Summed { before, after });
        }
    }

    /// The summary of what the changes make of a key's value, by a walk over those of the key and the cuts.
    fn summary_made_of(&self, before: C::Summary, key: &K) -> C::Summary
        ensures { (now : Option C) → before ≡ C.summary_of now →
            result ≡ C.summary_of (after_changes K.cmp C.outcome self.now key.now now) }
    {
        let changes = self.changes.as_slice();
        let from = past_cuts(changes, self.cuts.as_slice(), key);
        let start = if from == 0 { before } else { C::no_summary() };
        let positions = positions_in(&self.positions, key);
        summary_after::<K, C>(changes, positions, from, key, start)
    }

    /// Adds a change of a key's value, with its position. Want of memory leaves the list as it was. A key
    /// that is changed once more may be changed often: then a place is made for its summary.
    pub(crate) fn delta(&mut self, key: K, d: C::Delta) -> Result<(), OutOfMemory>
        ensures ok { OnOk result (self.new ≡ self.old ++ Change.Delta key d ∷ []) }
        ensures err { OnErr result (self.new ≡ self.old) }
    {
        let position = self.changes.len();
        if let Err(why) = self.changes.delta(key, d) {
            return Err(why);
        }
        let all = self.changes.as_slice();
        let change = &all[position];
        let again = match note_delta(self.alloc, &mut self.positions, change, position) {
            Ok(again) => again,
            Err(why) => {
                self.changes.shorten(position);
                return Err(why);
            }
        };
        follow(self.alloc, &mut self.known, change);
        follow_place::<K, C>(self.alloc, &mut self.summaries, change, again);
        Ok(())
    }

    /// Adds changes of a key's value, in order. Want of memory leaves the list as it was.
    pub(crate) fn deltas(&mut self, key: &K, ds: Vec<C::Delta>) -> Result<(), OutOfMemory>
        ensures ok { OnOk result (self.new ≡ self.old ++ map (Change.Delta key.now) ds.items) }
        ensures err { OnErr result (self.new ≡ self.old) }
    {
        match self.added(key, ds)? {
            Some(left) => self.each_delta(key, left),
            None => Ok(()),
        }
    }

    /// Adds changes of a key's value at once. They are left, and nothing is changed, where what is known of
    /// the key has to follow each of them, and where they are too few.
    fn added(&mut self, key: &K, ds: Vec<C::Delta>) -> Result<Option<Vec<C::Delta>>, OutOfMemory>
        ensures added { IfOk result (λ left. IfNone left
            (self.new ≡ self.old ++ map (Change.Delta key.now) ds.items)) }
        ensures left { IfOk result (λ left. IfSome left
            (λ same. (same.items ≡ ds.items) × (self.new ≡ self.old))) }
        ensures err { OnErr result (self.new ≡ self.old) }
    {
        if ds.len() < 2 || self.known.contains_key(key) || has_summary(&self.summaries, key) {
            return Ok(Some(ds));
        }
        let from = self.changes.len();
        add_all(self.alloc, &mut self.changes, key, ds)?;
        let to = self.changes.len();
        if let Err(why) = note_added(self.alloc, &mut self.positions, key, from, to) {
            self.changes.shorten(from);
            return Err(why);
        }
        place_for::<K, C>(self.alloc, &mut self.summaries, key);
        Ok(None)
    }

    /// The same one by one, where what is known of the key follows each.
    fn each_delta(&mut self, key: &K, ds: Vec<C::Delta>) -> Result<(), OutOfMemory>
        ensures ok { OnOk result (self.new ≡ self.old ++ map (Change.Delta key.now) ds.items) }
        ensures err { OnErr result (self.new ≡ self.old) }
    {
        let from = self.len();
        for d in ds {
            if let Err(why) = self.delta_at(key, d) {
                self.shorten(from);
                return Err(why);
            }
        }
        Ok(())
    }

    /// Adds a change of the value of a key that is copied.
    fn delta_at(&mut self, key: &K, d: C::Delta) -> Result<(), OutOfMemory>
        ensures ok { OnOk result (self.new ≡ self.old ++ Change.Delta key.now d ∷ []) }
        ensures err { OnErr result (self.new ≡ self.old) }
    {
        let own = key.copy(self.alloc)?;
        self.delta(own, d)
    }

    /// Adds the removal of the keys from `from` up to and with `to` that have a value. Want of memory
    /// leaves the list as it was.
    pub(crate) fn cut_range(&mut self, from: K, to: K) -> Result<(), OutOfMemory>
        ensures ok { OnOk result (self.new ≡ self.old ++ Change.Cut from to ∷ []) }
        ensures err { OnErr result (self.new ≡ self.old) }
    {
        let position = self.changes.len();
        if let Err(why) = self.changes.cut_range(from, to) {
            return Err(why);
        }
        if let Err(why) = push_position(&mut self.cuts, position) {
            self.changes.shorten(position);
            return Err(why);
        }
        self.known.clear();
        self.summaries.clear();
        Ok(())
    }

    /// Drops the last change with its position.
    fn drop_last(&mut self)
        requires { 0 < length self.old }
        ensures { self.new ≡ take (length self.old - 1) self.old }
    {
        let last = self.changes.len() - 1;
        let all = self.changes.as_slice();
        let change = &all[last];
        forget(&mut self.positions, &mut self.cuts, change);
        unlearn(&mut self.known, change);
        unlearn(&mut self.summaries, change);
        self.changes.shorten(last);
    }

    /// Keeps the first `n` changes.
    pub(crate) fn shorten(&mut self, n: usize)
        requires { n ≤ length self.old }
        ensures { self.new ≡ take n self.old }
    {
        while self.len() > n {
            self.drop_last();
        }
    }
}

/// Notes the position of a change that is a delta, which is above those noted before. Answers whether its key
/// had one.
fn note_delta<K: StoreKey, D>(
    alloc: Global,
    positions: &mut Positions<K>,
    change: &Change<K, D>,
    position: usize,
) -> Result<bool, OutOfMemory>
    ensures ok { OnOk result ((q : K) →
        positions_of K.cmp (listed_positions positions.new.entries) q ≡
        cond (is_delta_of K.cmp q change.now) (positions_of K.cmp
        (listed_positions positions.old.entries) q ++ position ∷ [])
        (positions_of K.cmp (listed_positions positions.old.entries) q)) }
    ensures err { OnErr result
        ((q : K) → positions_of K.cmp (listed_positions positions.new.entries) q ≡
        positions_of K.cmp (listed_positions positions.old.entries) q) }
{
    let Change::Delta(key, _) = change else {
        return Ok(false);
    };
    note(alloc, positions, key, position)
}

/// Notes the position of a delta of a key. The key is copied where it has no positions yet. Answers whether
/// it had some.
fn note<K: StoreKey>(
    alloc: Global,
    positions: &mut Positions<K>,
    key: &K,
    position: usize,
) -> Result<bool, OutOfMemory>
    ensures ok { OnOk result ((q : K) →
        positions_of K.cmp (listed_positions positions.new.entries) q ≡
        cond (is_at (K.cmp key.now) q) (positions_of K.cmp
        (listed_positions positions.old.entries) q ++ position ∷ [])
        (positions_of K.cmp (listed_positions positions.old.entries) q)) }
    ensures err { OnErr result
        ((q : K) → positions_of K.cmp (listed_positions positions.new.entries) q ≡
        positions_of K.cmp (listed_positions positions.old.entries) q) }
{
    if let Some(known) = positions.get_mut(key) {
        push_position(known, position)?;
        return Ok(true);
    }
    let own = key.copy(alloc)?;
    let mut fresh = Vec::new(alloc);
    push_position(&mut fresh, position)?;
    match positions.insert(own, fresh) {
        Ok(_) => Ok(false),
        Err(_) => Err(OutOfMemory),
    }
}

/// The positions of a key.
fn positions_in<'a, K: StoreKey>(positions: &'a Positions<K>, key: &K) -> &'a [usize]
    ensures { result.now ≡ positions_of K.cmp (listed_positions positions.now.entries) key.now }
{
    let Some(known) = positions.get(key) else {
        return &[];
    };
    known.as_slice()
}

/// Adds a position to a list.
fn push_position(list: &mut Vec<usize>, position: usize) -> Result<(), OutOfMemory>
    ensures ok { OnOk result (list.new.items ≡ list.old.items ++ position ∷ []) }
    ensures err { OnErr result (list.new.items ≡ list.old.items) }
{
    match list.push(position) {
        Ok(()) => Ok(()),
        Err(_) => Err(OutOfMemory),
    }
}

/// Drops the last position of a key, and the key where none is left.
fn drop_position<K: StoreKey>(positions: &mut Positions<K>, key: &K)
    ensures { (q : K) → positions_of K.cmp (listed_positions positions.new.entries) q ≡
        cond (is_at (K.cmp key.now) q) (front
        (positions_of K.cmp (listed_positions positions.old.entries) q))
        (positions_of K.cmp (listed_positions positions.old.entries) q) }
{
    let Some(known) = positions.get_mut(key) else {
        return;
    };
    known.pop();
    if known.is_empty() {
        positions.remove(key);
    }
}

/// Drops the position of a change, which is the last one.
fn forget<K: StoreKey, D>(
    positions: &mut Positions<K>,
    cuts: &mut Vec<usize>,
    change: &Change<K, D>,
)
    ensures deltas { (q : K) → positions_of K.cmp (listed_positions positions.new.entries) q ≡
        cond (is_delta_of K.cmp q change.now)
        (front (positions_of K.cmp (listed_positions positions.old.entries) q))
        (positions_of K.cmp (listed_positions positions.old.entries) q) }
    ensures cuts { cuts.new.items ≡ cond (is_cut change.now) (front cuts.old.items) cuts.old.items }
{
    match change {
        Change::Delta(key, _) => drop_position(positions, key),
        Change::Cut(..) => {
            cuts.pop();
        }
    }
}
