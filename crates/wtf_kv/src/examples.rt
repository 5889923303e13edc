//! Worked examples of the definitions, each proved.

ghost use Rattle.std.specs.Prelude.{◌≡◌, ℕ, ◌<◌, [], ◌∷◌, Option, Some, None};
ghost use Rattle.std.specs.Ordering.{nat_cmp};
ghost use Rattle.std.specs.Option.{option_copied};
ghost use Rattle.wtf_kv.specs.Stores.{Store};
ghost use Rattle.wtf_kv.specs.Order.{IsNextKey, IsNextPinned, IsLeastAbove};

use crate::{Cell, Kv, StoreKey};

/// Of two keys that are next neither is greater, the next key lies past the one before, and where there is one
/// it is not told that there is none.
pub fn next_key_is_one()
    ensures least { (s : Store ℕ ℕ) (after : Option ℕ) (k m : ℕ) →
        IsNextKey nat_cmp s after (Some k) → IsNextKey nat_cmp s after (Some m) → k ≡ m }
    ensures past { (s : Store ℕ ℕ) (n k : ℕ) → IsNextKey nat_cmp s (Some n) (Some k) → n < k }
    ensures none { (s : Store ℕ ℕ) (after : Option ℕ) (k : ℕ) →
        IsNextKey nat_cmp s after None → IsNextKey nat_cmp s after (Some k) → ⊥ }
{}

/// The next pinned number is one of the pins, above the number before it, and no other is less.
pub fn next_pinned_is_one()
    ensures pinned { (k : ℕ) → IsLeastAbove [] None (Some k) → ⊥ }
    ensures above { (s : Store ℕ ℕ) (n k : ℕ) → IsNextPinned s (Some n) (Some k) → n < k }
    ensures least { (s : Store ℕ ℕ) (after : Option ℕ) (k m : ℕ) →
        IsNextPinned s after (Some k) → IsNextPinned s after (Some m) → k ≡ m }
    ensures none { IsLeastAbove (5 ∷ []) (Some 4) None → ⊥ }
{}

/// The last key that has a version, by a walk over all keys, each found from the one before.
pub fn last_key<'a, K: StoreKey, C: Cell>(kv: &'a Kv<K, C>) -> Option<&'a K>
    ensures { IsNextKey K.cmp kv.now (option_copied result) None }
{
    let mut last = None;
    let mut at = kv.next_key(None);
    while let Some(key) = at {
        last = Some(key);
        at = kv.next_key(Some(key));
    }
    last
}
