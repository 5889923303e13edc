//! The keys that changed since a mark: a hint by which they are found without a walk over all keys.

ghost use Rattle.std.specs.Prelude.{◌≡◌, true, OnOk, Some};
ghost use Rattle.std.specs.BTreeMap.{is_at};
ghost use Rattle.wtf_kv.specs.Recents.{is_upto, may_change, NotesMore};

use crate::StoreKey;
use std::alloc::Global;
use std::collections::BTreeMap;
use wtf_base::OutOfMemory;

/// The keys of which a version above the mark was made ready; where there is no mark, none is noted.
#[derive(Drop)]
pub(crate) struct Recent<K: StoreKey> {
    pub(crate) since: Option<u64>,
    pub(crate) keys: BTreeMap<K, ()>,
}

impl<K: StoreKey> Recent<K> {
    /// No mark.
    pub(crate) fn new(alloc: Global) -> Recent<K>
        ensures { (q : K) → may_change K.cmp result q ≡ true }
    {
        Recent {
            since: None,
            keys: BTreeMap::new(alloc),
        }
    }

    /// Drops the mark.
    pub(crate) fn forget(&mut self)
        ensures { (q : K) → may_change K.cmp self.new q ≡ true }
    {
        self.since = None;
        self.keys.clear();
    }

    /// Marks a number.
    pub(crate) fn mark(&mut self, number: u64)
        ensures { self.new.since ≡ Some number }
    {
        self.since = Some(number);
        self.keys.clear();
    }

    /// Whether all keys that changed since a number are noted.
    pub(crate) fn has_since(&self, number: u64) -> bool
        ensures { result ≡ is_upto self.now.since number }
    {
        match self.since {
            Some(mark) => mark <= number,
            None => false,
        }
    }

    /// Notes a key, where there is a mark.
    pub(crate) fn note(&mut self, alloc: Global, key: &K) -> Result<(), OutOfMemory>
        ensures kept { NotesMore K.cmp self.old self.new }
        ensures ok { OnOk result ((q : K) → is_at (K.cmp key.now) q ≡ true →
            may_change K.cmp self.new q ≡ true) }
    {
        if self.since.is_none() {
            return Ok(());
        }
        let noted = key.copy(alloc)?;
        match self.keys.insert(noted, ()) {
            Ok(_) => Ok(()),
            Err(_) => Err(OutOfMemory),
        }
    }
}
