//! The entries of a run that may show something in a range, found by binary search.

ghost use Rattle.std.specs.Prelude.{ℕ, ◌+◌, ◌<◌, ◌≤◌, length, take, Bool};
ghost use Rattle.wtf_overlay.specs.Edges.{EdgesIn};
ghost use Rattle.wtf_overlay.specs.Runs.{IsRun, SameFrom, SameUpTo, SameWithin};

use crate::Entry;

/// The entries of the run that end past `x`.
fn entries_from(run: &[Entry], x: u64) -> &[Entry]
    requires run { IsRun run.now }
    ensures run { IsRun result.now }
    ensures same { SameFrom x run.now result.now }
    ensures edges { (p : ℕ → Bool) → EdgesIn p run.now → EdgesIn p result.now }
{
    let mut low = 0;
    let mut high = run.len();
    while low < high {
        let mid = low + (high - low) / 2;
        if run[mid].end() as u64 <= x {
            low = mid + 1;
        } else {
            high = mid;
        }
    }
    &run[low..]
}

/// The entries of the run that begin before `x`.
fn entries_up_to(run: &[Entry], x: u64) -> &[Entry]
    requires run { IsRun run.now }
    ensures run { IsRun result.now }
    ensures same { SameUpTo x run.now result.now }
    ensures edges { (p : ℕ → Bool) → EdgesIn p run.now → EdgesIn p result.now }
{
    let mut low = 0;
    let mut high = run.len();
    while low < high {
        let mid = low + (high - low) / 2;
        if x > run[mid].off as u64 {
            low = mid + 1;
        } else {
            high = mid;
        }
    }
    &run[..high]
}

/// How many entries to search for the last one that begins before `x`. They grow from a few on, since a
/// range mostly holds few entries of a long run.
fn first_few(run: &[Entry], x: u64) -> usize
    requires run { IsRun run.now }
    ensures within { result ≤ length run.now }
    ensures same { SameUpTo x run.now (take result run.now) }
{
    let mut many = 8;
    while many < run.len() {
        if x <= run[many].off as u64 {
            return many;
        }
        many = many.saturating_add(many);
    }
    run.len()
}

/// The entries of the run that may show something from `from` up to `to`.
pub(crate) fn entries_within(run: &[Entry], from: u64, to: u64) -> &[Entry]
    requires run { IsRun run.now }
    ensures run { IsRun result.now }
    ensures same { SameWithin from to run.now result.now }
    ensures edges { (p : ℕ → Bool) → EdgesIn p run.now → EdgesIn p result.now }
{
    let found = entries_from(run, from);
    let few = &found[..first_few(found, to)];
    entries_up_to(few, to)
}
