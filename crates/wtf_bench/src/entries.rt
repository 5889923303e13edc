//! Numbers as keys and as values, whose changes set the value.

use std::alloc::Global;
use wtf_base::OutOfMemory;
use wtf_kv::{Cell, StoreKey};

#[derive(Drop, PartialEq, Eq, PartialOrd, Ord)]
pub struct Name {
    pub id: u64,
}

impl StoreKey for Name {
    fn copy(&self, _alloc: Global) -> Result<Name, OutOfMemory> {
        Ok(Name { id: self.id })
    }

    ghost use Rattle.std.specs.Prelude.{ℕ};
    ghost use Rattle.std.proofs.Common.{ap};
    ghost use Rattle.std.proofs.lemmas.Map.Lookups.{exact_unsigned};

    ghost exact = { λ x y same. ap (λ (n : ℕ). record { id = n }) (exact_unsigned x.id y.id same) };
}

#[derive(Drop)]
pub struct Count {
    pub n: u64,
}

impl Cell for Count {
    type Delta = u64;

    ghost use Rattle.wtf_kv.specs.declared.cell.Applied.TheVariants.{Is};

    ghost outcome = { λ _now to. Is (record { n = to }) };

    fn apply(_alloc: Global, now: &mut Option<Count>, delta: &u64) -> Result<bool, OutOfMemory> {
        *now = Some(Count { n: *delta });
        Ok(true)
    }

    fn copy(&self, _alloc: Global) -> Result<Count, OutOfMemory> {
        Ok(Count { n: self.n })
    }

    fn is_same(&self, other: &Count, _looks: usize) -> bool {
        self.n == other.n
    }
}
