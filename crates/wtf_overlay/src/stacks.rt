//! Runs that lie over one another. Their lengths at least double from the newest to the oldest, so that a
//! list of n entries has about log n of them, and each entry is merged about log n times.

ghost use Rattle.std.specs.Prelude.{◌≡◌, ℕ, ◌*◌, ◌+◌, ◌<◌, ◌≤◌, ◌++◌, ◌∷◌, Bool, [], length, IfOk, List, take, drop, vec_len};
ghost use Rattle.std.specs.Vec.{vec_capacity};
ghost use Rattle.wtf_overlay.specs.Origin.{Place, origin_from};
ghost use Rattle.wtf_overlay.specs.declared.part.Entry.{Entry};
ghost use Rattle.wtf_overlay.specs.Runs.{IsRun, Shows};
ghost use Rattle.wtf_overlay.specs.Edges.{EdgesIn};
ghost use Rattle.wtf_overlay.specs.Stacks.{stack, AreRuns, EdgesOf};

use crate::Entry;
use crate::finding::entries_within;
use crate::laying::merge;
use std::alloc::Global;
use std::rc::RcSlice;
use wtf_base::OutOfMemory;

/// A run that the holders of a list share.
pub(crate) type Run = RcSlice<Entry, Global>;

/// What the runs show from `from` up to `to` with `newest` over them, as one run. The newest run comes
/// first, and a run that shows nothing there costs its search alone.
pub(crate) fn shown(
    newest: Vec<Entry>,
    runs: &[Run],
    from: u64,
    to: u64,
) -> Result<Vec<Entry>, OutOfMemory>
    requires newest { IsRun newest.items }
    requires runs { AreRuns runs.now }
    ensures run { IfOk result (λ v. IsRun v.items) }
    ensures shows { IfOk result (λ v. (b : List Place) (y : ℕ) → from ≤ y → y < to
        → origin_from b v.items y ≡ origin_from (stack runs.now b y) newest.items y) }
    ensures edges { IfOk result (λ v. (p : ℕ → Bool)
        → EdgesIn p newest.items → EdgesOf p runs.now → EdgesIn p v.items) }
{
    let alloc = *newest.allocator();
    let mut all = newest;
    let mut n = runs.len();
    while n > 0 {
        n -= 1;
        let part = entries_within(runs[n].as_slice(), from, to);
        if !part.is_empty() {
            all = merge(alloc, all.as_slice(), part)?;
        }
    }
    Ok(all)
}

/// A run to be put on a stack, in place of the runs from `below` on.
#[derive(Drop)]
pub(crate) struct Top {
    pub(crate) run: Vec<Entry>,
    pub(crate) below: usize,
}

/// `newest` laid over the newest runs, down to one that is at least twice as long as what came together so
/// far.
pub(crate) fn top_with(newest: Vec<Entry>, runs: &[Run]) -> Result<Top, OutOfMemory>
    requires newest { IsRun newest.items }
    requires runs { AreRuns runs.now }
    ensures below { IfOk result (λ t. t.below ≤ length runs.now) }
    ensures run { IfOk result (λ t. IsRun t.run.items) }
    ensures shows { IfOk result (λ t. Shows t.run.items
        (λ b y. origin_from (stack (drop t.below runs.now) b y) newest.items y)) }
    ensures edges { IfOk result (λ t. (p : ℕ → Bool)
        → EdgesIn p newest.items → EdgesOf p runs.now → EdgesIn p t.run.items) }
{
    let alloc = *newest.allocator();
    let mut run = newest;
    let mut n = runs.len();
    while n > 0 {
        let next = &runs[n - 1];
        if next.len() / 2 >= run.len() {
            break;
        }
        run = merge(alloc, run.as_slice(), next.as_slice())?;
        n -= 1;
    }
    Ok(Top { run, below: n })
}

/// Puts the run in place of those from `below` on.
pub(crate) fn replace_top(runs: &mut Vec<Run>, below: usize, run: Run)
    requires within { below ≤ length runs.old.items }
    requires room { vec_len runs.old < vec_capacity runs.old }
    ensures { runs.new.items ≡ take below runs.old.items ++ run ∷ [] }
{
    runs.truncate(below);
    let _room = runs.push(run);
}
