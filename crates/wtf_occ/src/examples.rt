//! Worked examples of the definitions, each proved.

ghost use Rattle.std.specs.Prelude.{◌≡◌, ℕ, ◌+◌, ◌<◌, Option};
ghost use Rattle.std.specs.Ordering.{nat_cmp};
ghost use Rattle.wtf_kv.specs.declared.cell.Applied.{Applied};
ghost use Rattle.wtf_kv.specs.Stores.{Store};
ghost use Rattle.wtf_occ.specs.Attempts.{Attempted};
ghost use Rattle.wtf_occ.specs.Tries.{IsTried, IsInstalled, IsConflict};
ghost use Rattle.wtf_occ.specs.declared.tried.Tried.TheVariants.{Installed, Conflict};

/// An install that was tried took the next number, or met a key that moved past the base, and never both.
pub fn tries_end_in_one_way()
    ensures installed { (outcome : Option ℕ → ℕ → Applied ℕ) (a : Attempted ℕ ℕ)
        (old new : Store ℕ ℕ) (n : ℕ) →
        IsTried nat_cmp outcome a old new (Installed n) → n ≡ old.number + 1 }
    ensures conflict { (outcome : Option ℕ → ℕ → Applied ℕ) (a : Attempted ℕ ℕ)
        (old new : Store ℕ ℕ)
        (key seen now : ℕ) →
        IsTried nat_cmp outcome a old new (Conflict key seen now) → a.base < now }
    ensures one { (outcome : Option ℕ → ℕ → Applied ℕ) (a : Attempted ℕ ℕ) (old new : Store ℕ ℕ)
        (n key seen now : ℕ) →
        IsInstalled nat_cmp outcome a old new n →
        IsConflict nat_cmp outcome a old new key seen now → ⊥ }
{}
