//! A store of numbers under small keys.

use std::alloc::Global;
use wtf_base::OutOfMemory;
use wtf_kv::{Cell, Kv, StoreKey, Summarized};

/// The store.
pub(crate) type Counts = Kv<Name, Count>;

/// A key.
#[derive(Clone, Copy, PartialEq, Eq, PartialOrd, Ord)]
pub(crate) struct Name {
    pub(crate) id: u64,
}

/// A number; a delta adds to it, at most to 64, and a delta of 0 removes it.
#[derive(Clone, Copy)]
pub(crate) struct Count {
    pub(crate) n: u64,
}

/// The number of a value; 0 stands for none.
pub(crate) fn number(value: Option<&Count>) -> u64 {
    match value {
        Some(count) => count.n,
        None => 0,
    }
}

impl StoreKey for Name {
    fn copy(&self, _alloc: Global) -> Result<Name, OutOfMemory> {
        Ok(Name { id: self.id })
    }

    ghost use Rattle.std.specs.Prelude.{ℕ};
    ghost use Rattle.std.proofs.Common.{ap};
    ghost use Rattle.std.proofs.lemmas.Map.Lookups.{exact_unsigned};

    ghost exact = { λ x y same. ap (λ (n : ℕ). record { id = n }) (exact_unsigned x.id y.id same) };
}

impl Cell for Count {
    type Delta = u64;

    ghost use Rattle.std.specs.Prelude.{◌+◌, cond, nat_eq, nat_le};
    ghost use Rattle.std.specs.Option.{option_map, unwrap_or};
    ghost use Rattle.wtf_kv.specs.declared.cell.Applied.TheVariants.{Is, Gone, Unfit};

    ghost outcome = { λ now by. cond (nat_eq by 0) Gone (unwrap_or (option_map (λ c. cond (nat_le (c.n + by) 64) (Is (record { n = c.n + by })) Unfit) now) (Is (record { n = by }))) };

    fn apply(_alloc: Global, now: &mut Option<Count>, delta: &u64) -> Result<bool, OutOfMemory> {
        if *delta == 0 {
            *now = None;
            return Ok(true);
        }
        let Some(count) = now else {
            *now = Some(Count { n: *delta });
            return Ok(true);
        };
        if *delta > 64 || count.n > 64 - *delta {
            return Ok(false);
        }
        count.n += *delta;
        Ok(true)
    }

    fn copy(&self, _alloc: Global) -> Result<Count, OutOfMemory> {
        Ok(Count { n: self.n })
    }

    fn is_same(&self, other: &Count, _looks: usize) -> bool {
        self.n == other.n
    }
}

impl Summarized for Count {
    type Summary = ();

    ghost summary_of = { λ _now. tt };

    fn summary(&self) {}

    fn no_summary() {}

    fn summary_after(_before: (), _delta: &u64) {}

    fn same_summary(_a: (), _b: ()) -> bool {
        true
    }
}
