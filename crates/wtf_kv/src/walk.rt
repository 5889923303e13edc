//! Walks over the keys of a map that have a value.

ghost use Rattle.std.specs.Prelude.{◌≡◌, ℕ, length};
ghost use Rattle.std.specs.Option.{option_copied};
ghost use Rattle.std.specs.Iterator.{at_most};
ghost use Rattle.std.specs.List.{AllByRecursion};
ghost use Rattle.std.specs.Map.Iter.{TakesFirst, deref_pair};
ghost use Rattle.std.specs.Range.Bound.{bound_map};
ghost use Rattle.std.specs.declared.ops.Bound.{Bound};
ghost use Rattle.wtf_kv.specs.Seen.{last_seen, value_seen, ascends};
ghost use Rattle.wtf_kv.specs.Stores.{listed, versions_in};
ghost use Rattle.wtf_kv.specs.Walks.{rows_seen, AreRowsFrom, HasRowsUpto};

use crate::StoreKey;
use crate::cells::Cells;
use crate::rows::find_version;
use std::collections::btree_map::Range;
use std::marker::Model;
use std::ops::Bound;

/// The keys that have a value at a number, each with it, in the order of keys. Contracts see the rows that are left.
#[derive(Drop)]
pub struct Rows<'a, K, C> {
    left: Range<'a, K, Vec<(u64, Option<C>)>>,
    number: u64,
}

impl<'a, K, C> Model for Rows<'a, K, C> {
    ghost use Rattle.std.specs.Prelude.{List};
    ghost use Rattle.std.specs.List.{AllByRecursion};
    ghost use Rattle.wtf_kv.specs.Seen.{ascends};
    ghost use Rattle.wtf_kv.specs.Stores.{listed};
    ghost use Rattle.wtf_kv.specs.Walks.{rows_seen};

    ghost Value = { List (K × C) };

    ghost view = { λ r. rows_seen r.number (listed r.left) };

    ghost invariant = { λ r. AllByRecursion (λ e. ascends e.1.items) r.left };
}

impl<'a, K, C> Iterator for Rows<'a, K, C> {
    type Item = (&'a K, &'a C);

    ghost next_gives = { TakesFirst deref_pair };

    ghost remaining = { λ s. at_most (length s) };

    fn next(&mut self) -> Option<(&'a K, &'a C)> {
        next_row(&mut self.left, self.number)
    }
}

/// Goes on to the next key of which `number` sees a value.
fn next_row<'a, K, C>(
    left: &mut Range<'a, K, Vec<(u64, Option<C>)>>,
    number: u64,
) -> Option<(&'a K, &'a C)>
    requires { AllByRecursion (λ e. ascends e.1.items) left.old }
    ensures row { TakesFirst deref_pair (rows_seen number (listed left.old)) result
        (rows_seen number (listed left.new)) }
    ensures order { AllByRecursion (λ e. ascends e.1.items) left.new }
{
    while let Some((key, versions)) = left.next() {
        if let Some(value) = value_at(versions.as_slice(), number) {
            return Some((key, value));
        }
    }
    None
}

/// The value that `n` sees.
fn value_at<C>(versions: &[(u64, Option<C>)], n: u64) -> Option<&C>
    requires { ascends versions.now }
    ensures { option_copied result ≡ value_seen (last_seen n versions.now) }
{
    let (_, value) = find_version(versions, n)?;
    value.as_ref()
}

/// The keys from `start` on of which `n` sees a value.
pub(crate) fn rows_in<'a, K: StoreKey, C>(
    cells: &'a Cells<K, C>,
    n: u64,
    start: Bound<&K>,
) -> Rows<'a, K, C>
    requires { (q : K) → ascends (versions_in K.cmp (listed cells.now.entries) q) }
    ensures { AreRowsFrom K.cmp (bound_map (λ k. k.now) start.entry)
        (λ q. value_seen (last_seen n (versions_in K.cmp (listed cells.now.entries) q))) result }
{
    Rows {
        left: cells.range((start, Bound::Unbounded)),
        number: n,
    }
}

/// How many keys are held, which no walk has more rows than.
pub(crate) fn most_rows<K: StoreKey, C>(cells: &Cells<K, C>) -> usize
    ensures { (n : ℕ) (start : Bound K) → HasRowsUpto K.cmp start
        (λ q. value_seen (last_seen n (versions_in K.cmp (listed cells.now.entries) q))) result }
{
    cells.len()
}
