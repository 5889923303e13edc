//! The store.

ghost use Rattle.std.specs.Prelude.{◌≡◌, ℕ, ◌+◌, ◌<◌, ◌≤◌, ◌⊎◌, ◌∷◌, [], ◌++◌, ◌^◌, IsTrue, OnErr, OnOk, IfOk, IfErr, nat_eq, cond};
ghost use Rattle.std.specs.Option.{option_copied};
ghost use Rattle.std.specs.Set.{remove_key};
ghost use Rattle.std.specs.BTreeMap.{is_at};
ghost use Rattle.wtf_kv.specs.Seen.{kept_versions, ascends};
ghost use Rattle.wtf_kv.specs.Stores.{versions_of, map_at, version_of, is_pinned, is_live, times_pinned, IsPinnedOnceMore, AllAscend, ShowsSame};
ghost use Rattle.wtf_kv.specs.Edits.{over, Fits, first_unfit, versions_with, version_with};
ghost use Rattle.wtf_kv.specs.Causes.{IsCause};
ghost use Rattle.wtf_kv.specs.Installs.{IsReady};
ghost use Rattle.std.specs.Range.Bound.{bound_map};
ghost use Rattle.std.specs.declared.ops.Bound.{Bound};
ghost use Rattle.wtf_kv.specs.Walks.{AreRowsFrom, HasRowsUpto};
ghost use Rattle.wtf_kv.specs.Order.{IsNextKey, IsNextChanged, IsNextPinned, IsLeastAbove, is_above, least_of};

use crate::history::History;
use crate::{Cell, Changes, NotReady, Ready, Rows, StoreKey, Versions};
use std::alloc::Global;
use std::marker::{Model, PhantomData};
use std::ops::Bound;
use wtf_base::OutOfMemory;

/// Maps from keys to values at install numbers. Contracts see the number of the last install, the
/// pinned numbers, each as often as it is pinned, and the versions of each key.
#[derive(Drop)]
pub struct Kv<K: StoreKey, C: Cell> {
    pins: Vec<u64>,
    history: History<K, C>,
}

impl<K: StoreKey, C: Cell> Model for Kv<K, C> {
    ghost use Rattle.wtf_kv.specs.Stores.{Store, ArePinsUpto};

    ghost Value = { Store K C };

    ghost view = { λ s. record s.history { pins = s.pins.items } };

    ghost invariant = { λ s. ArePinsUpto s.pins.items s.history.number };
}

impl<K: StoreKey, C: Cell> Kv<K, C> {
    /// An empty store with the number 0, with no number pinned.
    pub fn new(alloc: Global) -> Result<Kv<K, C>, OutOfMemory>
        ensures { result ≡ Ok (record { number = 0; pins = []; cells = [] }) }
    {
        Kv::start(alloc, 0)
    }

    /// An empty store with a given number, with no number pinned.
    pub fn start(alloc: Global, number: u64) -> Result<Kv<K, C>, OutOfMemory>
        ensures { result ≡ Ok (record { number = number; pins = []; cells = [] }) }
    {
        Ok(Kv {
            pins: Vec::new(alloc),
            history: History::new(alloc, number),
        })
    }

    /// The number of the last install. Each pinned number is at most that.
    pub fn number(&self) -> u64
        ensures number { result ≡ self.now.number }
        ensures pins { (p : ℕ) → IsTrue (is_pinned self.now p) → p ≤ result }
    {
        self.history.number()
    }

    /// Gives a key its first value, with the number as its version, before a number is pinned. Want of
    /// memory leaves what the store shows as it was.
    pub fn seed(&mut self, key: K, value: C) -> Result<(), OutOfMemory>
        requires pins { self.old.pins ≡ [] }
        requires fresh { versions_of K.cmp self.old key ≡ [] }
        ensures number { self.new.number ≡ self.old.number }
        ensures pins { self.new.pins ≡ [] }
        ensures ok { OnOk result ((q : K) → versions_of K.cmp self.new q ≡
            cond (is_at (K.cmp key) q) ((self.old.number, Some value) ∷ [])
            (versions_of K.cmp self.old q)) }
        ensures err { OnErr result (ShowsSame K.cmp self.old self.new) }
    {
        self.history.seed(key, value)
    }

    /// The value of a key in the map at `n`, which is pinned or is the number. It takes the time of two
    /// binary searches, among the keys and among the versions of this one.
    pub fn read_at(&self, n: u64, key: &K) -> Option<&C>
        requires { IsTrue (is_live self.now n) }
        ensures { option_copied result ≡ map_at K.cmp self.now n key.now }
    {
        self.history.value(n, key)
    }

    /// The install that set what `n` sees of a key, 0 where none did; `n` is pinned or is the number. A
    /// removal is a version while a pinned number lies below it.
    pub fn version_at(&self, n: u64, key: &K) -> u64
        requires { IsTrue (is_live self.now n) }
        ensures version { result ≡ version_of K.cmp self.now n key.now }
        ensures bound { result ≤ n }
        // A key that has no version above a pinned number is in the map what it was there.
        ensures unmoved { (b : ℕ) → IsTrue (is_pinned self.now b) → b ≤ n → result ≤ b →
            map_at K.cmp self.now b key.now ≡ map_at K.cmp self.now n key.now }
    {
        self.history.version(self.pins.as_slice(), n, key)
    }

    /// Pins a number once more, so that its map stays; it is pinned already, or is the number. Want of
    /// memory leaves the store as it was.
    pub fn pin(&mut self, n: u64) -> Result<(), OutOfMemory>
        requires { IsTrue (is_live self.old n) }
        ensures ok { OnOk result (self.new ≡ record self.old { pins = self.old.pins ++ n ∷ [] }) }
        ensures once { OnOk result (IsPinnedOnceMore n self.old self.new) }
        ensures err { OnErr result (self.new ≡ self.old) }
    {
        match self.pins.push(n) {
            Ok(()) => Ok(()),
            Err(_) => Err(OutOfMemory),
        }
    }

    /// Undoes one pin of a number.
    pub fn unpin(&mut self, n: u64)
        requires { IsTrue (is_pinned self.old n) }
        ensures rest { self.new ≡ record self.old { pins = remove_key (nat_eq n) self.old.pins } }
        ensures once { IsPinnedOnceMore n self.new self.old }
    {
        remove_one(&mut self.pins, n);
    }

    /// Whether a number is pinned.
    pub fn is_pinned(&self, n: u64) -> bool
        ensures { result ≡ is_pinned self.now n }
    {
        self.pins.iter().any(|p| n == *p)
    }

    /// How often a number is pinned.
    pub fn times_pinned(&self, n: u64) -> usize
        ensures { result ≡ times_pinned self.now n }
    {
        self.pins.iter().filter(|p| n == **p).count()
    }

    /// Drops the versions that are not kept. What is seen at the number and at each pinned number stays.
    /// It looks only at keys that were installed since the last time, or had something left to drop then.
    pub fn prune(&mut self)
        ensures number { self.new.number ≡ self.old.number }
        ensures pins { self.new.pins ≡ self.old.pins }
        ensures order { AllAscend K.cmp self.old }
        ensures kept { (q : K) → versions_of K.cmp self.new q ≡
            kept_versions self.old.pins (versions_of K.cmp self.old q) }
        ensures ascends { AllAscend K.cmp self.new }
        ensures maps { (n : ℕ) → IsTrue (is_live self.old n) → map_at K.cmp self.new n ≡
            map_at K.cmp self.old n }
        ensures versions { (n : ℕ) → IsTrue (is_live self.old n) → version_of K.cmp self.new n ≡
            version_of K.cmp self.old n }
    {
        self.history.prune(self.pins.as_slice());
    }

    /// Prunes, once there are twice as many keys to look at as had something left the last time: over
    /// many installs that takes the time of a search among the keys for each change.
    pub fn prune_when_due(&mut self)
        ensures number { self.new.number ≡ self.old.number }
        ensures pins { self.new.pins ≡ self.old.pins }
        ensures kept { (q : K) → (versions_of K.cmp self.new q ≡ versions_of K.cmp self.old q) ⊎
            (versions_of K.cmp self.new q ≡
            kept_versions self.old.pins (versions_of K.cmp self.old q)) }
        ensures maps { (n : ℕ) → IsTrue (is_live self.old n) → map_at K.cmp self.new n ≡
            map_at K.cmp self.old n }
        ensures versions { (n : ℕ) → IsTrue (is_live self.old n) → version_of K.cmp self.new n ≡
            version_of K.cmp self.old n }
    {
        if !self.history.is_due() {
            return;
        }
        self.prune();
    }

    /// Makes an install of the changes ready, with all memory that it takes. The first key whose delta
    /// does not fit its value, after the changes before it, is named. Whatever comes of it, the store
    /// shows what it showed; what was made ready before is dropped. Each change takes the time of a
    /// search among the keys, and a cut that of each key that it removes.
    pub fn reserve_install<'a>(
        &mut self,
        changes: &'a Changes<K, C>,
    ) -> Result<Ready<'a, K, C>, NotReady<K>>
        requires { self.old.number < 2 ^ 63 }
        ensures same { ShowsSame K.cmp self.old self.new }
        ensures maps { (n : ℕ) → map_at K.cmp self.new n ≡ map_at K.cmp self.old n }
        ensures versions { (n : ℕ) → version_of K.cmp self.new n ≡ version_of K.cmp self.old n }
        ensures ready { IfOk result (λ ready. IsReady K.cmp C.outcome self.new ready) }
        ensures changes { IfOk result (λ ready. ready.changes ≡ changes.now) }
        ensures fit { OnOk result
            (Fits K.cmp C.outcome changes.now (map_at K.cmp self.old self.old.number)) }
        ensures cause { IfErr result (λ why. IsCause why
            (first_unfit K.cmp C.outcome changes.now (map_at K.cmp self.old self.old.number))) }
    {
        if let Err(why) = self.history.stage(changes.as_slice()) {
            return Err(why);
        }
        Ok(Ready {
            number: self.history.number() + 1,
            changes,
        })
    }

    /// Installs what was made ready, and answers its number. It came from this store, and only calls by
    /// `&self` came since.
    pub fn install(&mut self, ready: Ready<K, C>) -> u64
        requires room { self.old.number < 2 ^ 63 }
        requires ready { IsReady K.cmp C.outcome self.old ready }
        ensures answer { result ≡ self.new.number }
        ensures number { self.new.number ≡ self.old.number + 1 }
        ensures pins { self.new.pins ≡ self.old.pins }
        ensures versions { (q : K) → versions_of K.cmp self.new q ≡
            versions_with K.cmp C.outcome ready.entry.changes self.new.number q
            (map_at K.cmp self.old self.old.number q) (versions_of K.cmp self.old q) }
        ensures version { (q : K) → version_of K.cmp self.new self.new.number q ≡
            version_with K.cmp C.outcome self.old.pins ready.entry.changes self.new.number q
            (map_at K.cmp self.old self.old.number q)
            (version_of K.cmp self.old self.old.number q) }
        ensures map { map_at K.cmp self.new self.new.number ≡
            over K.cmp C.outcome ready.entry.changes (map_at K.cmp self.old self.old.number) }
        ensures maps { (n : ℕ) → n ≤ self.old.number → map_at K.cmp self.new n ≡
            map_at K.cmp self.old n }
    {
        let Ready {
            number: _,
            changes: _,
        } = ready;
        self.history.install();
        self.history.number()
    }

    /// The versions of a key with their values, the oldest first. Right after `prune` these are the
    /// versions that are kept; before it others may stand beside them.
    pub fn kept(&self, key: &K) -> Versions<'_, K, C>
        ensures versions { result ≡ versions_of K.cmp self.now key.now }
        ensures order { ascends result }
    {
        Versions {
            left: self.history.versions(key),
            key: PhantomData,
        }
    }

    /// The least key above `after` that has a version, none exactly where there is no such key. It takes
    /// the time of a search among the keys.
    pub fn next_key<'a>(&'a self, after: Option<&'a K>) -> Option<&'a K>
        ensures { IsNextKey K.cmp self.now (option_copied after.entry) (option_copied result) }
    {
        self.history.next_key(after)
    }

    /// Notes from now on the keys that installs change, so that `next_changed` finds them. What is noted is no
    /// part of what the store shows. Where an install is made ready, an earlier mark stays.
    pub fn mark(&mut self)
        ensures { self.new ≡ self.old }
    {
        self.history.mark();
    }

    /// The least key above `after` whose version lies above `since`, none exactly where there is no such key.
    /// Where the last mark is at most `since`, it takes the time of a search among the keys that changed since the
    /// mark, and of one among all keys for each of them that it passes; else it passes all keys.
    pub fn next_changed<'a>(&'a self, since: u64, after: Option<&'a K>) -> Option<&'a K>
        ensures { IsNextChanged K.cmp self.now since (option_copied after.entry)
            (option_copied result) }
    {
        self.history
            .next_changed(self.pins.as_slice(), since, after)
    }

    /// The keys from `start` on that have a value in the map at `n`, each with it, in order; `n` is pinned or is
    /// the number. It takes the time of a search among the keys, and a step takes that of a search among the
    /// versions of each key that it passes.
    pub fn rows(&self, n: u64, start: Bound<&K>) -> Rows<'_, K, C>
        requires { IsTrue (is_live self.now n) }
        ensures { AreRowsFrom K.cmp (bound_map (λ k. k.now) start.entry)
            (map_at K.cmp self.now n) result }
    {
        self.history.rows(n, start)
    }

    /// How many keys are held. No map at a number has more of them. It takes no walk.
    pub fn most_rows(&self) -> usize
        ensures { (n : ℕ) → n ≤ self.now.number → (start : Bound K) →
            HasRowsUpto K.cmp start (map_at K.cmp self.now n) result }
    {
        self.history.most_rows()
    }

    /// The least pinned number above `after`, none exactly where there is no such number.
    pub fn next_pinned(&self, after: Option<u64>) -> Option<u64>
        ensures { IsNextPinned self.now after result }
    {
        least_above(self.pins.as_slice(), after)
    }
}

/// Takes the first `n` out.
fn remove_one(pins: &mut Vec<u64>, n: u64)
    ensures { pins.new.items ≡ remove_key (nat_eq n) pins.old.items }
{
    let mut i = 0;
    while i < pins.len() {
        if pins[i] == n {
            pins.remove(i);
            return;
        }
        i += 1;
    }
}

/// The least of the numbers above `after`.
fn least_above(numbers: &[u64], after: Option<u64>) -> Option<u64>
    ensures { IsLeastAbove numbers.now after result }
{
    let mut least: Option<u64> = None;
    for n in numbers {
        if is_above(after, *n) {
            least = Some(lesser(least, *n));
        }
    }
    least
}

/// Whether `n` lies above `after`, or above none.
fn is_above(after: Option<u64>, n: u64) -> bool
    ensures { result ≡ is_above after n }
{
    match after {
        Some(m) => m < n,
        None => true,
    }
}

/// The less of two numbers, where there are two.
fn lesser(least: Option<u64>, n: u64) -> u64
    ensures { result ≡ least_of least n }
{
    match least {
        Some(m) if m <= n => m,
        _ => n,
    }
}
