//! One run laid over another, from left to right.

ghost use Rattle.std.specs.Prelude.{◌≡◌, ℕ, ◌*◌, ◌+◌, ◌-◌, ◌<◌, ◌≤◌, ◌^◌, ◌++◌, IfOk, IsTrue, List, Bool, true, ◌⊎◌};
ghost use Rattle.wtf_overlay.specs.Edges.{EdgesIn};
ghost use Rattle.wtf_overlay.specs.Origin.{Place, part_origin};
ghost use Rattle.wtf_overlay.specs.Runs.{IsRun, laid_over, Shows, SameFrom, Tells, Built};

use crate::Entry;
use std::alloc::Global;
use wtf_base::OutOfMemory;

/// The first place that no entry reaches.
pub(crate) const LIMIT: u64 = 1 << 32;

impl Entry {
    /// What the entry holds from `x` up to `stop`.
    pub(crate) fn between(&self, x: u64, stop: u64) -> Entry
        requires from { self.now.off ≤ x }
        requires some { x < stop }
        requires within { stop ≤ self.now.off + self.now.len }
        ensures off { result.off ≡ x }
        ensures end { result.off + result.len ≡ stop }
        ensures origin { (i : ℕ)
            → part_origin result.part i ≡ part_origin self.now.part (x - self.now.off + i) }
    {
        let off = (x - self.off as u64) as u32;
        let len = (stop - x) as u32;
        Entry::of(x as u32, len, self.part.cut(off, len))
    }
}

/// Lays what the run shows from `from` up to `to` after what was built up to `from`. It answers the
/// entries that may show something from `to` on.
pub(crate) fn lay_part<'a>(
    out: &mut Vec<Entry>,
    run: &'a [Entry],
    from: u64,
    to: u64,
) -> Result<&'a [Entry], OutOfMemory>
    requires order { from ≤ to }
    requires run { IsRun run.now }
    ensures built { IfOk result (λ _. (f : List Place → ℕ → List Place)
        → Built out.old.items from f → Tells from to f run.now → Built out.new.items to f) }
    ensures rest { IfOk result (λ r. IsRun r.now) }
    ensures same { IfOk result (λ r. SameFrom to run.now r.now) }
    ensures edges { IfOk result (λ r. (p : ℕ → Bool) → (p from ≡ true) ⊎ (from ≡ 0)
        → (p to ≡ true) ⊎ (2 ^ 32 ≤ to) → EdgesIn p out.old.items → EdgesIn p run.now
        → EdgesIn p out.new.items × EdgesIn p r.now) }
{
    let mut x = from;
    let mut rest = run;
    while let Some((e, after)) = rest.split_first() {
        let start = e.off as u64;
        let stop = e.end() as u64;
        if to <= start {
            return Ok(rest);
        }
        if to < stop {
            let begin = x.max(start);
            if begin < to {
                out.push(e.between(begin, to))?;
            }
            return Ok(rest);
        }
        if x < stop {
            out.push(e.between(x.max(start), stop))?;
            x = stop;
        }
        rest = after;
    }
    Ok(rest)
}

/// `newer` laid over `older`, entry by entry.
fn interleaved(alloc: Global, newer: &[Entry], older: &[Entry]) -> Result<Vec<Entry>, OutOfMemory>
    requires newer { IsRun newer.now }
    requires older { IsRun older.now }
    ensures run { IfOk result (λ v. IsRun v.items) }
    ensures shows { IfOk result (λ v. Shows v.items (laid_over newer.now older.now)) }
    ensures edges { IfOk result (λ v. (p : ℕ → Bool)
        → EdgesIn p newer.now → EdgesIn p older.now → EdgesIn p v.items) }
{
    let mut out = Vec::with_capacity(alloc, newer.len().saturating_add(older.len()))?;
    let mut x: u64 = 0;
    let mut rest = older;
    let mut over = newer;
    while let Some((e, after)) = over.split_first() {
        rest = lay_part(&mut out, rest, x, e.off as u64)?;
        out.push(*e)?;
        x = e.end() as u64;
        over = after;
    }
    let _last = lay_part(&mut out, rest, x, LIMIT)?;
    Ok(out)
}

/// Whether `first` ends before `second` begins, or one of them is empty.
fn lies_before(first: &[Entry], second: &[Entry]) -> bool
    requires first { IsRun first.now }
    requires second { IsRun second.now }
    ensures { IsTrue result → IsRun (first.now ++ second.now) }
{
    let Some((last, _)) = first.split_last() else {
        return true;
    };
    let Some((next, _)) = second.split_first() else {
        return true;
    };
    last.end() <= next.off
}

/// The entries of `first` and then those of `second`, copied as they are.
fn joined(alloc: Global, first: &[Entry], second: &[Entry]) -> Result<Vec<Entry>, OutOfMemory>
    ensures { IfOk result (λ v. v.items ≡ first.now ++ second.now) }
{
    let mut out = Vec::with_capacity(alloc, first.len().saturating_add(second.len()))?;
    out.extend_from_slice(first)?;
    out.extend_from_slice(second)?;
    Ok(out)
}

/// `newer` laid over `older`. Where one of them lies wholly before the other, as with entries that are
/// appended, it costs a copy alone.
pub(crate) fn merge(
    alloc: Global,
    newer: &[Entry],
    older: &[Entry],
) -> Result<Vec<Entry>, OutOfMemory>
    requires newer { IsRun newer.now }
    requires older { IsRun older.now }
    ensures run { IfOk result (λ v. IsRun v.items) }
    ensures shows { IfOk result (λ v. Shows v.items (laid_over newer.now older.now)) }
    ensures edges { IfOk result (λ v. (p : ℕ → Bool)
        → EdgesIn p newer.now → EdgesIn p older.now → EdgesIn p v.items) }
{
    if lies_before(older, newer) {
        return joined(alloc, older, newer);
    }
    if lies_before(newer, older) {
        return joined(alloc, newer, older);
    }
    interleaved(alloc, newer, older)
}
