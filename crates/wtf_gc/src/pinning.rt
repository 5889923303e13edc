//! The pins of a scan.

ghost use Rattle.std.specs.Prelude.{◌≡◌, ◌+◌, ◌≤◌, ℕ, [], IsTrue, nat_eq, count_by, IfOk, OnOk, OnErr, true};
ghost use Rattle.std.specs.List.{list_any};
ghost use Rattle.wtf_kv.specs.Stores.{is_live, times_pinned};
ghost use Rattle.wtf_gc.specs.Pinning.{IsPinnedFor};

use std::alloc::Global;
use wtf_base::OutOfMemory;
use wtf_kv::Kv;
use wtf_meta::{Key, Value};

/// The number and each pinned number.
pub(crate) fn live_numbers(alloc: Global, kv: &Kv<Key, Value>) -> Result<Vec<u64>, OutOfMemory>
    ensures { IfOk result (λ ns. (n : ℕ) → list_any (nat_eq n) ns.items ≡ is_live kv.now n) }
{
    let mut numbers = Vec::new(alloc);
    numbers.push(kv.number())?;
    let mut at = kv.next_pinned(None);
    while let Some(n) = at {
        numbers.push(n)?;
        at = kv.next_pinned(Some(n));
    }
    Ok(numbers)
}

/// Pins each of the numbers once more, or none where memory is short.
pub(crate) fn pin_each(kv: &mut Kv<Key, Value>, numbers: &[u64]) -> Result<(), OutOfMemory>
    requires { (n : ℕ) → list_any (nat_eq n) numbers.now ≡ true → IsTrue (is_live kv.old n) }
    ensures ok { OnOk result (IsPinnedFor numbers.now kv.old kv.new) }
    ensures err { OnErr result (IsPinnedFor [] kv.old kv.new) }
{
    let mut i = 0;
    while i < numbers.len() {
        if let Err(why) = kv.pin(numbers[i]) {
            unpin_each(kv, &numbers[..i]);
            return Err(why);
        }
        i += 1;
    }
    Ok(())
}

/// Undoes one pin of each of the numbers.
pub(crate) fn unpin_each(kv: &mut Kv<Key, Value>, numbers: &[u64])
    requires { (n : ℕ) → count_by (nat_eq n) numbers.now ≤ times_pinned kv.old n }
    ensures { IsPinnedFor numbers.now kv.new kv.old }
{
    for number in numbers {
        kv.unpin(*number);
    }
}
