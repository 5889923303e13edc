//! What an attempt's own changes lay over a region: where they are few, a look at the region lays them over
//! its list, and its value need not be made.

ghost use Rattle.std.specs.Prelude.{IfOk, IfSome, IsTrue, length};
ghost use Rattle.wtf_kv.specs.Stores.{is_pinned};
ghost use Rattle.wtf_occ.specs.Positions.{AllBelow};
ghost use Rattle.wtf_meta.specs.FileEdits.{region_of};
ghost use Rattle.wtf_meta.specs.Maps.{seen};
ghost use Rattle.wtf_region.specs.Own.{IsOwnPlan, LayAll, LayAt, LaysOne};

use crate::part::RegionPart;
use std::alloc::Global;
use wtf_base::OutOfMemory;
use wtf_kv::{Change, Kv};
use wtf_meta::{Delta, Key, Value};
use wtf_occ::Attempt;
use wtf_overlay::{Entry, Piece};

/// How many changes of a region are laid over its list at each look.
const FEW: usize = 32;

/// The entry that a change lays over the region at a key, if it does.
fn entry_of<'a>(change: &'a Change<Key, Delta>, key: &Key) -> Option<&'a Entry>
    ensures { IfSome result (λ e. LaysOne change.now key.now e.now) }
{
    let Change::Delta(at, Delta::Push(e)) = change else {
        return None;
    };
    if at.cmp(key).is_eq() { Some(e) } else { None }
}

/// The entries that the changes at these positions lay over the region at a key, where they do no more.
fn entries_at(
    alloc: Global,
    changes: &[Change<Key, Delta>],
    positions: &[usize],
    key: &Key,
) -> Result<Option<Vec<Entry>>, OutOfMemory>
    requires { AllBelow (length changes.now) positions.now }
    ensures { IfOk result (λ found. IfSome found (λ es. LayAt changes.now key.now positions.now es.items)) }
{
    let mut entries = Vec::with_capacity(alloc, positions.len())?;
    for position in positions {
        let Some(e) = entry_of(&changes[*position], key) else {
            return Ok(None);
        };
        entries.push(*e)?;
    }
    Ok(Some(entries))
}

/// The entries that an attempt lays over the region at a key, where its changes are few and do no more.
fn own_entries(
    alloc: Global,
    at: &Attempt<Key, Value>,
    key: &Key,
) -> Result<Option<Vec<Entry>>, OutOfMemory>
    ensures { IfOk result (λ found. IfSome found (λ es. LayAll at.now.changes key.now es.items)) }
{
    let Some(positions) = at.deltas_of(key) else {
        return Ok(None);
    };
    if positions.len() > FEW {
        return Ok(None);
    }
    entries_at(alloc, at.changes(), positions, key)
}

/// A part of the region that an attempt sees at a key as pieces, where it has no base and the attempt only
/// lays a few entries over it.
pub(crate) fn own_pieces(
    alloc: Global,
    kv: &Kv<Key, Value>,
    at: &Attempt<Key, Value>,
    key: &Key,
    part: RegionPart,
) -> Result<Option<Vec<Piece>>, OutOfMemory>
    requires { IsTrue (is_pinned kv.now at.now.base) }
    ensures { IfOk result (λ found. IfSome found (λ v.
        IsOwnPlan (region_of (seen kv.now at.now key.now)) part.off part.len v.items)) }
{
    let Some(Value::Region(region)) = kv.read_at(at.base(), key) else {
        return Ok(None);
    };
    if region.base.is_some() {
        return Ok(None);
    }
    let Some(entries) = own_entries(alloc, at, key)? else {
        return Ok(None);
    };
    let pieces = region
        .list
        .plan_with(entries.as_slice(), part.off, part.len)?;
    Ok(Some(pieces))
}
