//! An attempt: its base, the keys that it has recorded, and its changes.

ghost use Rattle.std.specs.Prelude.{◌≡◌, ℕ, Option, Some, ◌^◌, ◌<◌, ◌≤◌, ◌∷◌, [], ◌++◌, IsTrue, OnErr, OnOk, IfOk, IfSome, IfNone, length, map, take};
ghost use Rattle.std.specs.Option.{option_copied};
ghost use Rattle.wtf_kv.specs.Stores.{map_at, version_of, is_pinned};
ghost use Rattle.wtf_kv.specs.Edits.{Fits, after_changes};
ghost use Rattle.wtf_occ.specs.Attempts.{Attempted, Grows, map_seen};
ghost use Rattle.wtf_occ.specs.Positions.{AllBelow, after_positions, has_delta};
ghost use Rattle.wtf_occ.specs.Tries.{IsTried, Stays, first_moved};

use crate::Tried;
use crate::known::copied;
use crate::write_set::WriteSet;
use std::alloc::Global;
use std::marker::Model;
use wtf_base::OutOfMemory;
use wtf_kv::{Cell, Change, Kv, NotReady, StoreKey, Summarized};

/// An attempt at a set of changes over the map at its base. Contracts see its base, the keys that it
/// has recorded, and its changes.
#[derive(Drop)]
pub struct Attempt<K: StoreKey, C: Summarized> {
    alloc: Global,
    base: u64,
    reads: Vec<K>,
    changes: WriteSet<K, C>,
}

impl<K: StoreKey, C: Summarized> Model for Attempt<K, C> {
    ghost use Rattle.wtf_occ.specs.Attempts.{Attempted};

    ghost Value = { Attempted K C.Delta };

    ghost view = { λ a. record { base = a.base; reads = a.reads.items; changes = a.changes } };
}

/// A point in the life of an attempt, to which it can go back.
#[derive(Clone, Copy, Debug, PartialEq, Eq)]
pub struct Mark {
    /// How many keys the attempt had recorded.
    pub reads: usize,
    /// How many changes it had.
    pub changes: usize,
}

impl<K: StoreKey, C: Summarized> Attempt<K, C> {
    /// An attempt over the map at `base`, with no recorded key and no change.
    pub fn new(alloc: Global, base: u64) -> Result<Attempt<K, C>, OutOfMemory>
        ensures { result ≡ Ok (record { base = base; reads = []; changes = [] }) }
    {
        Ok(Attempt {
            alloc,
            base,
            reads: Vec::new(alloc),
            changes: WriteSet::new(alloc),
        })
    }

    /// The number at whose map the attempt began.
    pub fn base(&self) -> u64
        ensures { result ≡ self.now.base }
    {
        self.base
    }

    /// The value of a key at the base, with the attempt's own changes applied in order. The key is
    /// recorded. Want of memory leaves the attempt as it was.
    pub fn read(&mut self, kv: &Kv<K, C>, key: &K) -> Result<Option<C>, OutOfMemory>
        requires { IsTrue (is_pinned kv.now self.old.base) }
        ensures value { IfOk result
            (λ value. value ≡ map_seen K.cmp C.outcome kv.now self.old key.now) }
        ensures ok { OnOk result (self.new ≡
            record self.old { reads = self.old.reads ++ key.now ∷ [] }) }
        ensures err { OnErr result (self.new ≡ self.old) }
        ensures grows { Grows self.old self.new }
    {
        let value = self.shown(kv, key)?;
        self.record(key)?;
        Ok(value)
    }

    /// A copy of what `peek` would show. A key of which the attempt has a delta is settled.
    fn shown(&mut self, kv: &Kv<K, C>, key: &K) -> Result<Option<C>, OutOfMemory>
        requires { IsTrue (is_pinned kv.now self.old.base) }
        ensures value { IfOk result
            (λ value. value ≡ map_seen K.cmp C.outcome kv.now self.old key.now) }
        ensures same { self.new ≡ self.old }
    {
        if let Some(value) = self.look(kv, key) {
            return copied(self.alloc, value);
        }
        self.settle(kv, key)?;
        self.peek(kv, key)
    }

    /// The value of a key at the base, with the attempt's own changes applied in order. Nothing is
    /// recorded. It takes the time of a read of the base and a walk over the attempt's changes of this
    /// key and its cuts; where the key is settled, no walk but looks at the value at the base.
    pub fn peek(&self, kv: &Kv<K, C>, key: &K) -> Result<Option<C>, OutOfMemory>
        requires { IsTrue (is_pinned kv.now self.now.base) }
        ensures { IfOk result (λ value. value ≡ map_seen K.cmp C.outcome kv.now self.now key.now) }
    {
        self.changes.value(kv, self.base, key)
    }

    /// The same without a copy: the value where it stands, in the map at the base or where the key is
    /// settled. `None` where it may stand nowhere, which is so only for a key of which the attempt has a
    /// delta, and says nothing of the value. Nothing is recorded. It takes the time of a read of the base,
    /// of a walk over the attempt's cuts where it has no delta of this key, and else of looks at the value
    /// at the base.
    pub fn look<'a>(&'a self, kv: &'a Kv<K, C>, key: &K) -> Option<Option<&'a C>>
        requires { IsTrue (is_pinned kv.now self.now.base) }
        ensures value { IfSome result (λ value. option_copied value ≡
            map_seen K.cmp C.outcome kv.now self.now key.now) }
        ensures none { IfNone result (IsTrue (has_delta K.cmp self.now.changes key.now)) }
    {
        self.changes.look(kv, self.base, key)
    }

    /// The changes, in order.
    pub fn changes(&self) -> &[Change<K, C::Delta>]
        ensures { result.now ≡ self.now.changes }
    {
        self.changes.changes().as_slice()
    }

    /// Where the deltas of a key stand among the changes, if these alone make its value of that at the base.
    /// `None` where some change is a cut.
    pub fn deltas_of(&self, key: &K) -> Option<&[usize]>
        ensures below { IfSome result (λ at. AllBelow (length self.now.changes) at.now) }
        ensures value { IfSome result (λ at. (now : Option C) →
            after_positions K.cmp C.outcome self.now.changes key.now 0 at.now now ≡
            after_changes K.cmp C.outcome self.now.changes key.now now) }
    {
        self.changes.deltas_of(key)
    }

    /// Makes later looks at a key cost no walk over the attempt's changes of it, up to the next cut. It
    /// takes the time of a `peek`, and none where the key is settled or the attempt has no change of it.
    pub fn settle(&mut self, kv: &Kv<K, C>, key: &K) -> Result<(), OutOfMemory>
        requires { IsTrue (is_pinned kv.now self.old.base) }
        ensures { self.new ≡ self.old }
    {
        self.changes.settle(kv, self.base, key)
    }

    /// The summary of what `peek` would show. Nothing is recorded, and no memory is needed. It takes the
    /// time of a read of the base and a walk over the attempt's changes of this key and its cuts; where its
    /// summary is settled, no walk.
    pub fn summary(&self, kv: &Kv<K, C>, key: &K) -> C::Summary
        requires { IsTrue (is_pinned kv.now self.now.base) }
        ensures { result ≡ C.summary_of (map_seen K.cmp C.outcome kv.now self.now key.now) }
    {
        self.changes.summary(kv, self.base, key)
    }

    /// The same, which costs no walk over the changes of this key from then on, up to the next cut, where
    /// there is a place to keep it: `delta` makes one for a key that it changes once more. No memory is
    /// needed here.
    pub fn settled_summary(&mut self, kv: &Kv<K, C>, key: &K) -> C::Summary
        requires { IsTrue (is_pinned kv.now self.old.base) }
        ensures value { result ≡ C.summary_of (map_seen K.cmp C.outcome kv.now self.old key.now) }
        ensures same { self.new ≡ self.old }
    {
        self.changes.settled_summary(kv, self.base, key)
    }

    /// Records a key, whatever its value. Want of memory leaves the attempt as it was.
    pub fn record(&mut self, key: &K) -> Result<(), OutOfMemory>
        ensures ok { OnOk result (self.new ≡
            record self.old { reads = self.old.reads ++ key.now ∷ [] }) }
        ensures err { OnErr result (self.new ≡ self.old) }
        ensures grows { Grows self.old self.new }
    {
        let key = key.copy(self.alloc)?;
        match self.reads.push(key) {
            Ok(()) => Ok(()),
            Err(_) => Err(OutOfMemory),
        }
    }

    /// Adds a change of a key's value. Want of memory leaves the attempt as it was.
    pub fn delta(&mut self, key: K, d: C::Delta) -> Result<(), OutOfMemory>
        ensures ok { OnOk result (self.new ≡ record self.old
            { changes = self.old.changes ++ Change.Delta key d ∷ [] }) }
        ensures err { OnErr result (self.new ≡ self.old) }
        ensures grows { Grows self.old self.new }
    {
        self.changes.delta(key, d)
    }

    /// Adds changes of a key's value, in order: so many cost one search among the changed keys, where the
    /// key is not settled. Want of memory leaves the attempt as it was.
    pub fn deltas(&mut self, key: &K, ds: Vec<C::Delta>) -> Result<(), OutOfMemory>
        ensures ok { OnOk result (self.new ≡ record self.old
            { changes = self.old.changes ++ map (Change.Delta key.now) ds.items }) }
        ensures err { OnErr result (self.new ≡ self.old) }
        ensures grows { Grows self.old self.new }
    {
        self.changes.deltas(key, ds)
    }

    /// Where the attempt takes its memory.
    pub fn alloc(&self) -> Global {
        self.alloc
    }

    /// Adds the removal of the keys from `from` up to and with `to` that have a value. Want of memory
    /// leaves the attempt as it was.
    pub fn cut_range(&mut self, from: K, to: K) -> Result<(), OutOfMemory>
        ensures ok { OnOk result (self.new ≡ record self.old
            { changes = self.old.changes ++ Change.Cut from to ∷ [] }) }
        ensures err { OnErr result (self.new ≡ self.old) }
        ensures grows { Grows self.old self.new }
    {
        self.changes.cut_range(from, to)
    }

    /// Notes how many recorded keys and changes there are.
    pub fn mark(&self) -> Mark
        ensures { result ≡ record
            { reads = length self.now.reads; changes = length self.now.changes } }
    {
        Mark {
            reads: self.reads.len(),
            changes: self.changes.len(),
        }
    }

    /// Drops the recorded keys and the changes that came after a mark. An attempt that only grew since
    /// the mark was made is again what it was then. Each change that goes takes the time of a search
    /// among the changed keys.
    pub fn rewind(&mut self, to: Mark)
        requires reads { to.reads ≤ length self.old.reads }
        requires changes { to.changes ≤ length self.old.changes }
        ensures cut { self.new ≡ record self.old {
          reads = take to.reads self.old.reads;
          changes = take
              to.changes self.old.changes;
        } }
        ensures back { (then : Attempted K C.Delta) → Grows then self.old → to ≡
            record { reads = length then.reads; changes = length then.changes } → self.new ≡
            then }
    {
        self.reads.truncate(to.reads);
        self.changes.shorten(to.changes);
    }

    /// Installs all changes in order, or names the key that is in the way: the first recorded key with a
    /// version above the base, or else the key of the first delta that does not fit now, which has one
    /// too. Want of memory leaves all that the store shows as it was, and so does a conflict. The attempt
    /// stays as it was.
    pub fn install(&mut self, kv: &mut Kv<K, C>) -> Result<Tried<K>, OutOfMemory>
        requires room { kv.old.number < 2 ^ 63 }
        requires pinned { IsTrue (is_pinned kv.old self.old.base) }
        requires fits { Fits K.cmp C.outcome self.old.changes (map_at K.cmp kv.old self.old.base) }
        ensures tried { IfOk result
            (λ tried. IsTried K.cmp C.outcome self.old kv.old kv.new tried) }
        ensures err { OnErr result (Stays K.cmp kv.old kv.new) }
        ensures pins { kv.new.pins ≡ kv.old.pins }
        ensures maps { (n : ℕ) → n ≤ kv.old.number → map_at K.cmp kv.new n ≡ map_at K.cmp kv.old n }
        ensures attempt { self.new ≡ self.old }
    {
        let number = kv.number();
        if let Some(key) = find_moved(kv, number, self.base, self.reads.as_slice()) {
            let now = kv.version_at(number, key);
            let seen = kv.version_at(self.base, key);
            let key = key.copy(self.alloc)?;
            return Ok(Tried::Conflict { key, seen, now });
        }
        let ready = match kv.reserve_install(self.changes.changes()) {
            Ok(ready) => ready,
            Err(NotReady::Memory) => return Err(OutOfMemory),
            Err(NotReady::Unfit(key)) => {
                let now = kv.version_at(number, &key);
                let seen = kv.version_at(self.base, &key);
                return Ok(Tried::Conflict { key, seen, now });
            }
        };
        Ok(Tried::Installed(kv.install(ready)))
    }
}

/// The first of the keys that has a version above `base`. A key that follows itself is looked at once: an
/// attempt that appends records the same key each time.
fn find_moved<'a, K: StoreKey, C: Cell>(
    kv: &Kv<K, C>,
    number: u64,
    base: u64,
    keys: &'a [K],
) -> Option<&'a K>
    requires { kv.now.number ≡ number }
    ensures first { option_copied result ≡ first_moved K.cmp base keys.now kv.now }
    ensures moved { IfSome result (λ key. base < version_of K.cmp kv.now number key.now) }
{
    // No version lies above the number.
    if number <= base {
        return None;
    }
    let mut last = None;
    for key in keys {
        if is_again(last, key) {
            continue;
        }
        if base < kv.version_at(number, key) {
            return Some(key);
        }
        last = Some(key);
    }
    None
}

/// Whether a key is the one before it.
fn is_again<K: StoreKey>(last: Option<&K>, key: &K) -> bool
    ensures { IsTrue result → option_copied last.entry ≡ Some key.now }
{
    let Some(last) = last else {
        return false;
    };
    last == key
}
