//! What the store asks of its keys and values.

ghost use Rattle.std.specs.Prelude.{◌≡◌, Option, None, Some, IfOk, OnOk, IsTrue};
ghost use Rattle.std.specs.declared.cmp.Ordering.TheVariants.{Equal};
ghost use Rattle.wtf_kv.specs.Edits.{value_made, fits};
ghost use Rattle.wtf_kv.specs.declared.cell.Applied.{Applied};
ghost use Rattle.wtf_kv.specs.Edits.{value_made};
ghost use Rattle.wtf_kv.specs.Staging.{run_made, run_fits};

use crate::Change;
use std::alloc::Global;
use wtf_base::OutOfMemory;

/// What comes of a delta.
#[derive(Debug, Drop)]
pub enum Applied<C> {
    /// The key has this value.
    Is(C),
    /// The key has no value.
    Gone,
    /// The delta does not fit the value.
    Unfit,
}

/// A value that deltas change.
pub trait Cell: Drop {
    /// A change of one value.
    type Delta: Drop;

    /// What comes of a delta, by the value that the key has.
    ghost outcome: { Option Self → Self.Delta → Applied Self };

    /// Applies a delta to a value, or to none, and answers whether it fits; one that does not leaves the
    /// value. Want of memory may leave anything.
    fn apply(
        alloc: Global,
        now: &mut Option<Self>,
        delta: &Self::Delta,
    ) -> Result<bool, OutOfMemory>
        ensures fit { IfOk result (λ fit. fit ≡ fits (outcome now.old delta.now)) }
        ensures value { OnOk result (now.new ≡ value_made (outcome now.old delta.now) now.old) };

    /// Applies the deltas of a run to a value, or to none, in order, up to the first that does not fit.
    /// Answers whether all do. Want of memory may leave anything.
    fn apply_all<K>(
        alloc: Global,
        now: &mut Option<Self>,
        run: &[Change<K, Self::Delta>],
    ) -> Result<bool, OutOfMemory>
        ensures fit { IfOk result (λ fit. fit ≡ run_fits outcome run.now now.old) }
        ensures value { OnOk result (now.new ≡ run_made outcome run.now now.old) }
    {
        for change in run {
            let Change::Delta(_, delta) = change else {
                continue;
            };
            let fit = Self::apply(alloc, now, delta)?;
            if !fit {
                return Ok(false);
            }
        }
        Ok(true)
    }

    /// A value that is equal to this one.
    fn copy(&self, alloc: Global) -> Result<Self, OutOfMemory>
        ensures { IfOk result (λ made. made ≡ self.now) };

    /// Whether two values are sure to be the same, by about `looks` looks at their parts at most.
    /// `false` says nothing.
    fn is_same(&self, other: &Self, looks: usize) -> bool
        ensures { IsTrue result → self.now ≡ other.now };
}

/// A value of which a summary tells something without a look at its parts, and follows deltas.
pub trait Summarized: Cell {
    /// What is told of a value, or of none.
    type Summary: Copy + Drop;

    /// The summary of a value, or of none.
    ghost summary_of: { Option Self → Self.Summary };

    /// The summary of a value.
    fn summary(&self) -> Self::Summary
        ensures { result ≡ summary_of (Some self.now) };

    /// The summary of none.
    fn no_summary() -> Self::Summary
        ensures { result ≡ summary_of None };

    /// The summary after a delta, told by the one before it.
    fn summary_after(before: Self::Summary, delta: &Self::Delta) -> Self::Summary
        ensures { (now : Option Self) → before ≡ summary_of now →
            result ≡ summary_of (value_made (Self.outcome now delta.now) now) };

    /// Whether two summaries are sure to be the same.
    fn same_summary(a: Self::Summary, b: Self::Summary) -> bool
        ensures { IsTrue result → a ≡ b };
}

/// A key of the store, in order.
pub trait StoreKey: Ord + Drop {
    /// A key that is the same as this one.
    fn copy(&self, alloc: Global) -> Result<Self, OutOfMemory>
        ensures { IfOk result (λ made. made ≡ self.now) };

    /// Keys that compare as equal are the same.
    ghost exact: { (x y : Self) → Self.cmp x y ≡ Equal → x ≡ y };
}
