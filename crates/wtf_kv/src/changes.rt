//! A list of changes of a map.

ghost use Rattle.std.specs.Prelude.{◌≡◌, ◌+◌, ◌<◌, ◌≤◌, ◌∷◌, [], ◌++◌, OnErr, OnOk, IsTrue, ◌↔◌, length, take};

use crate::{Cell, StoreKey};
use std::alloc::Global;
use std::marker::Model;
use wtf_base::OutOfMemory;

/// A change of a map.
#[derive(Debug, Drop)]
pub enum Change<K, D> {
    /// Changes the value of a key.
    Delta(K, D),
    /// Removes the keys from the first up to and with the second that have a value.
    Cut(K, K),
}

/// Changes of a map, in order. Contracts see the list of them.
#[derive(Drop)]
pub struct Changes<K: StoreKey, C: Cell> {
    list: Vec<Change<K, C::Delta>>,
}

impl<K: StoreKey, C: Cell> Model for Changes<K, C> {
    ghost use Rattle.std.specs.Prelude.{List};
    ghost use Rattle.wtf_kv.specs.declared.changes.Change.{Change};

    ghost Value = { List (Change K C.Delta) };

    ghost view = { λ c. c.list.items };
}

impl<K: StoreKey, C: Cell> Changes<K, C> {
    /// No changes.
    pub fn new(alloc: Global) -> Changes<K, C>
        ensures { result ≡ [] }
    {
        Changes {
            list: Vec::new(alloc),
        }
    }

    /// Adds a change of a key's value. Want of memory leaves the list as it was.
    pub fn delta(&mut self, key: K, d: C::Delta) -> Result<(), OutOfMemory>
        ensures ok { OnOk result (self.new ≡ self.old ++ Change.Delta key d ∷ []) }
        ensures err { OnErr result (self.new ≡ self.old) }
    {
        self.push(Change::Delta(key, d))
    }

    /// Adds the removal of the keys from `from` up to and with `to` that have a value. Want of memory
    /// leaves the list as it was.
    pub fn cut_range(&mut self, from: K, to: K) -> Result<(), OutOfMemory>
        ensures ok { OnOk result (self.new ≡ self.old ++ Change.Cut from to ∷ []) }
        ensures err { OnErr result (self.new ≡ self.old) }
    {
        self.push(Change::Cut(from, to))
    }

    fn push(&mut self, change: Change<K, C::Delta>) -> Result<(), OutOfMemory>
        ensures ok { OnOk result (self.new ≡ self.old ++ change ∷ []) }
        ensures err { OnErr result (self.new ≡ self.old) }
    {
        match self.list.push(change) {
            Ok(()) => Ok(()),
            Err(_) => Err(OutOfMemory),
        }
    }

    /// How many changes there are.
    pub fn len(&self) -> usize
        ensures { result ≡ length self.now }
    {
        self.list.len()
    }

    /// Whether there is no change.
    pub fn is_empty(&self) -> bool
        ensures { IsTrue result ↔ (self.now ≡ []) }
    {
        self.list.is_empty()
    }

    /// Keeps the first `n` changes.
    pub fn shorten(&mut self, n: usize)
        requires { n ≤ length self.old }
        ensures { self.new ≡ take n self.old }
    {
        self.list.truncate(n);
    }

    /// The changes, in order.
    pub fn as_slice(&self) -> &[Change<K, C::Delta>]
        ensures { result.now ≡ self.now }
    {
        self.list.as_slice()
    }
}
