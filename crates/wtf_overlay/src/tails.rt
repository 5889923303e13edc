//! The tail of a list: its newest entries, which are in no run yet. They are merged many at a time, so that a
//! push mostly costs a copy of the entry alone.

ghost use Rattle.std.specs.Prelude.{◌≡◌, ℕ, ◌<◌, ◌≤◌, ◌^◌, [], ◌∷◌, Bool, List, IfOk, IsTrue};
ghost use Rattle.std.specs.Bool.{OnFalse};
ghost use Rattle.wtf_overlay.specs.Edges.{EdgesIn};
ghost use Rattle.wtf_overlay.specs.Origin.{Place, origin_from};
ghost use Rattle.wtf_overlay.specs.Runs.{IsRun, SameWithin, Misses, Shows, laid_over};

use crate::Entry;
use crate::laying::{LIMIT, merge};
use std::alloc::Global;
use wtf_base::OutOfMemory;

/// How many entries a tail has when it is full.
pub(crate) const FULL: usize = 16;

impl Entry {
    /// Whether the entry shows something from `from` up to `to`.
    fn meets(&self, from: u64, to: u64) -> bool
        ensures { OnFalse result (Misses from to self.now) }
    {
        (self.off as u64) < to && from < self.end() as u64
    }
}

/// What the entries show from `from` up to `to`, as one run. The newest comes first, and an entry that shows
/// nothing there costs a comparison alone.
pub(crate) fn laid(
    alloc: Global,
    tail: &[Entry],
    from: u64,
    to: u64,
) -> Result<Vec<Entry>, OutOfMemory>
    ensures run { IfOk result (λ v. IsRun v.items) }
    ensures same { IfOk result (λ v. SameWithin from to tail.now v.items) }
    ensures edges { IfOk result (λ v. (p : ℕ → Bool) → EdgesIn p tail.now → EdgesIn p v.items) }
{
    laid_under(Vec::new(alloc), tail, from, to)
}

/// The same with the run `over` laid over them.
pub(crate) fn laid_under(
    over: Vec<Entry>,
    tail: &[Entry],
    from: u64,
    to: u64,
) -> Result<Vec<Entry>, OutOfMemory>
    requires { IsRun over.items }
    ensures run { IfOk result (λ v. IsRun v.items) }
    ensures same { IfOk result (λ v. (b : List Place) (y : ℕ) → from ≤ y → y < to
        → origin_from (origin_from b tail.now y) over.items y ≡ origin_from b v.items y) }
    ensures edges { IfOk result (λ v. (p : ℕ → Bool)
        → EdgesIn p over.items → EdgesIn p tail.now → EdgesIn p v.items) }
{
    let mut run = over;
    let mut rest = tail;
    while let Some((e, before)) = rest.split_last() {
        if e.meets(from, to) {
            run = with_below(run, e)?;
        }
        rest = before;
    }
    Ok(run)
}

/// The run laid over an entry. The first entry of a run is put there as it is.
fn with_below(run: Vec<Entry>, e: &Entry) -> Result<Vec<Entry>, OutOfMemory>
    requires { IsRun run.items }
    ensures run { IfOk result (λ v. IsRun v.items) }
    ensures shows { IfOk result (λ v. Shows v.items (laid_over run.items (e.now ∷ []))) }
    ensures edges { IfOk result (λ v. (p : ℕ → Bool)
        → EdgesIn p run.items → EdgesIn p (e.now ∷ []) → EdgesIn p v.items) }
{
    if !run.is_empty() {
        return merge(*run.allocator(), run.as_slice(), &[*e]);
    }
    let mut first = run;
    first.push(*e)?;
    Ok(first)
}

/// Whether each entry begins at the end of the one before it or later.
pub(crate) fn is_run(entries: &[Entry]) -> bool
    ensures { IsTrue result → IsRun entries.now }
{
    let mut end = 0;
    for e in entries {
        if e.off < end {
            return false;
        }
        end = e.end();
    }
    true
}

/// What the entries show, as one run. Where they are a run already, as with entries that are appended, it
/// costs a copy alone.
pub(crate) fn whole_tail(alloc: Global, tail: &[Entry]) -> Result<Vec<Entry>, OutOfMemory>
    ensures run { IfOk result (λ v. IsRun v.items) }
    ensures same { IfOk result (λ v. SameWithin 0 (2 ^ 32) tail.now v.items) }
    ensures edges { IfOk result (λ v. (p : ℕ → Bool) → EdgesIn p tail.now → EdgesIn p v.items) }
{
    if is_run(tail) {
        let run = Vec::from_slice(alloc, tail)?;
        return Ok(run);
    }
    laid(alloc, tail, 0, LIMIT)
}

/// The run laid over the run below it.
pub(crate) fn with_above(below: Vec<Entry>, run: &[Entry]) -> Result<Vec<Entry>, OutOfMemory>
    requires below { IsRun below.items }
    requires run { IsRun run.now }
    ensures run { IfOk result (λ v. IsRun v.items) }
    ensures shows { IfOk result (λ v. Shows v.items (laid_over run.now below.items)) }
    ensures edges { IfOk result (λ v. (p : ℕ → Bool)
        → EdgesIn p run.now → EdgesIn p below.items → EdgesIn p v.items) }
{
    if run.is_empty() {
        return Ok(below);
    }
    merge(*below.allocator(), run, below.as_slice())
}
