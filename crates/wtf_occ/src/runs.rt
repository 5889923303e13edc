//! Several deltas of one key at once. The maps of the changed keys are searched once for all of them.

ghost use Rattle.std.specs.Prelude.{◌≡◌, ◌-◌, ◌≤◌, None, false, OnErr, OnOk, IfOk, cond, map, ◌∷◌, [], ◌++◌};
ghost use Rattle.std.specs.Map.{lookup};
ghost use Rattle.std.specs.BTreeMap.{is_at};
ghost use Rattle.std.specs.Option.{unwrap_or};
ghost use Rattle.wtf_occ.specs.Positions.{listed_positions, positions_of, upto};

use crate::known::KnownSummaries;
use crate::write_set::Positions;
use std::alloc::Global;
use wtf_base::OutOfMemory;
use wtf_kv::{Cell, Change, Changes, StoreKey};

/// Adds deltas of a key to a list of changes. Want of memory leaves the list as it was.
pub(crate) fn add_all<K: StoreKey, C: Cell>(
    alloc: Global,
    changes: &mut Changes<K, C>,
    key: &K,
    ds: Vec<C::Delta>,
) -> Result<(), OutOfMemory>
    ensures ok { OnOk result (changes.new ≡ changes.old ++ map (Change.Delta key.now) ds.items) }
    ensures err { OnErr result (changes.new ≡ changes.old) }
{
    let from = changes.len();
    for d in ds {
        if let Err(why) = add_one(alloc, changes, key, d) {
            changes.shorten(from);
            return Err(why);
        }
    }
    Ok(())
}

/// Adds a delta of a key to a list of changes. Want of memory leaves the list as it was.
fn add_one<K: StoreKey, C: Cell>(
    alloc: Global,
    changes: &mut Changes<K, C>,
    key: &K,
    d: C::Delta,
) -> Result<(), OutOfMemory>
    ensures ok { OnOk result (changes.new ≡ changes.old ++ Change.Delta key.now d ∷ []) }
    ensures err { OnErr result (changes.new ≡ changes.old) }
{
    let own = key.copy(alloc)?;
    changes.delta(own, d)
}

/// Notes the positions from one up to another as those of deltas of a key, which are above those noted before.
pub(crate) fn note_added<K: StoreKey>(
    alloc: Global,
    positions: &mut Positions<K>,
    key: &K,
    from: usize,
    to: usize,
) -> Result<(), OutOfMemory>
    requires { from ≤ to }
    ensures ok { OnOk result ((q : K) →
        positions_of K.cmp (listed_positions positions.new.entries) q ≡
        cond (is_at (K.cmp key.now) q) (positions_of K.cmp
        (listed_positions positions.old.entries) q ++ upto from (to - from))
        (positions_of K.cmp (listed_positions positions.old.entries) q)) }
    ensures err { OnErr result
        ((q : K) → positions_of K.cmp (listed_positions positions.new.entries) q ≡
        positions_of K.cmp (listed_positions positions.old.entries) q) }
{
    let run = run_of(alloc, from, to)?;
    note_run(alloc, positions, key, run)
}

/// The positions from one up to another.
fn run_of(alloc: Global, from: usize, to: usize) -> Result<Vec<usize>, OutOfMemory>
    requires { from ≤ to }
    ensures { IfOk result (λ run. run.items ≡ upto from (to - from)) }
{
    let mut run = Vec::with_capacity(alloc, to - from)?;
    for i in from..to {
        run.push(i)?;
    }
    Ok(run)
}

/// Notes further positions of deltas of a key.
fn note_run<K: StoreKey>(
    alloc: Global,
    positions: &mut Positions<K>,
    key: &K,
    run: Vec<usize>,
) -> Result<(), OutOfMemory>
    ensures ok { OnOk result ((q : K) →
        positions_of K.cmp (listed_positions positions.new.entries) q ≡
        cond (is_at (K.cmp key.now) q) (positions_of K.cmp
        (listed_positions positions.old.entries) q ++ run.items)
        (positions_of K.cmp (listed_positions positions.old.entries) q)) }
    ensures err { OnErr result
        ((q : K) → positions_of K.cmp (listed_positions positions.new.entries) q ≡
        positions_of K.cmp (listed_positions positions.old.entries) q) }
{
    if let Some(known) = positions.get_mut(key) {
        return append_run(known, run);
    }
    let own = key.copy(alloc)?;
    match positions.insert(own, run) {
        Ok(_) => Ok(()),
        Err(_) => Err(OutOfMemory),
    }
}

/// Adds positions to a list.
fn append_run(list: &mut Vec<usize>, run: Vec<usize>) -> Result<(), OutOfMemory>
    ensures ok { OnOk result (list.new.items ≡ list.old.items ++ run.items) }
    ensures err { OnErr result (list.new.items ≡ list.old.items) }
{
    let mut run = run;
    match list.append(&mut run) {
        Ok(()) => Ok(()),
        Err(_) => Err(OutOfMemory),
    }
}

/// Whether the summary of a key is known.
pub(crate) fn has_summary<K: StoreKey, S: Copy>(summaries: &KnownSummaries<K, S>, key: &K) -> bool
    ensures { result ≡ false →
        unwrap_or (lookup (is_at (K.cmp key.now)) summaries.now.entries) None ≡ None }
{
    matches!(summaries.get(key), Some(Some(_)))
}
