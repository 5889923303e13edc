//! The servers that are down.

ghost use Rattle.std.specs.Prelude.{◌≡◌, OnOk, OnErr};
ghost use Rattle.std.specs.FinSet as set;

use std::alloc::Global;
use std::collections::BTreeSet;
use std::marker::Model;
use wtf_base::OutOfMemory;

/// The numbers of servers that are down, which contracts see as a set.
#[derive(Drop)]
pub(crate) struct Downs {
    items: BTreeSet<u64>,
}

impl Model for Downs {
    ghost use Rattle.std.specs.FinSet.{FinSet, from_list, code};
    ghost use Rattle.std.specs.Ordering.{nat_cmp};
    ghost use Rattle.std.specs.Coded.{coded_ℕ};

    ghost Value = { FinSet nat_cmp };

    ghost coded = { code coded_ℕ };

    ghost view = { λ a. from_list a.items.keys };
}

impl Downs {
    /// All servers are up.
    pub(crate) fn new(alloc: Global) -> Downs
        ensures { result ≡ set.empty }
    {
        Downs {
            items: BTreeSet::new(alloc),
        }
    }

    /// Whether a server is down.
    pub(crate) fn has(&self, k: u64) -> bool
        ensures { result ≡ set.contains self.now k }
    {
        self.items.contains(&k)
    }

    /// A server goes down. After an error all is as before.
    pub(crate) fn add(&mut self, k: u64) -> Result<(), OutOfMemory>
        ensures ok { OnOk result (self.new ≡ set.insert self.old k) }
        ensures err { OnErr result (self.new ≡ self.old) }
    {
        match self.items.insert(k) {
            Ok(_) => return Ok(()),
            Err(_) => return Err(OutOfMemory),
        }
    }

    /// A server comes up. No memory is taken.
    pub(crate) fn take(&mut self, k: u64)
        ensures { self.new ≡ set.remove self.old k }
    {
        let _ = self.items.remove(&k);
    }
}
