//! A walk over the versions of the regions of some parts: what they name themselves, and their bases.

ghost use Rattle.std.specs.Prelude.{◌≡◌, ◌||◌, ◌&&◌, ◌++◌, None, OnOk, IfOk};
ghost use Rattle.std.specs.Option.{option_copied};
ghost use Rattle.wtf_base.specs.Places.{Place};
ghost use Rattle.wtf_kv.specs.Stores.{versions_of};
ghost use Rattle.wtf_values.specs.Keys.{key_cmp};
ghost use Rattle.wtf_gc.specs.Extents.{extents_cover};
ghost use Rattle.wtf_gc.specs.Named.{base_has, own_has};
ghost use Rattle.wtf_gc.specs.Parts.{bases_of, value_has, value_bases, versions_have, versions_bases, key_stands_in, key_bases, GathersUpto};

use crate::extents::Extents;
use crate::naming::{add_list, add_slice};
use crate::parts::{Parts, part_of};
use std::alloc::Global;
use wtf_base::{InodeId, OutOfMemory, Slice, TxId};
use wtf_kv::{Kv, Versions};
use wtf_meta::{Key, RegionValue, Spill, Value};

/// A slice with the list of a region, and the part that the region stands in.
#[derive(Clone, Copy, Debug)]
pub(crate) struct Base {
    pub(crate) part: u8,
    pub(crate) slice: Slice,
}

/// The extents that values name themselves, and the slices of their bases in the order of the keys.
#[derive(Debug, Drop)]
pub(crate) struct Gathered {
    pub(crate) found: Extents,
    pub(crate) bases: Vec<Base>,
}

/// Adds the base of a region.
fn add_base(
    alloc: Global,
    base: Option<Spill>,
    part: u8,
    to: &mut Gathered,
) -> Result<(), OutOfMemory>
    ensures found { OnOk result ((p : Place) →
        extents_cover to.new.found p ≡ (extents_cover to.old.found p || base_has base p)) }
    ensures bases { OnOk result (to.new.bases.items ≡ to.old.bases.items ++ bases_of part base) }
{
    let Some(base) = base else {
        return Ok(());
    };
    add_slice(alloc, &base.slice, &mut to.found)?;
    to.bases.push(Base {
        part,
        slice: base.slice,
    })?;
    Ok(())
}

/// Adds what a region names itself.
fn add_region(
    alloc: Global,
    v: &RegionValue,
    part: u8,
    to: &mut Gathered,
) -> Result<(), OutOfMemory>
    ensures found { OnOk result ((p : Place) →
        extents_cover to.new.found p ≡ (extents_cover to.old.found p || own_has v.now p)) }
    ensures bases { OnOk result (to.new.bases.items ≡ to.old.bases.items ++ bases_of part v.now.base) }
{
    add_base(alloc, v.base, part, to)?;
    add_list(alloc, &v.list, &mut to.found)
}

/// Adds what the value of a version names itself. A removal names nothing.
fn add_value(
    alloc: Global,
    value: Option<&Value>,
    part: u8,
    to: &mut Gathered,
) -> Result<(), OutOfMemory>
    ensures found { OnOk result ((p : Place) →
        extents_cover to.new.found p ≡ (extents_cover to.old.found p || value_has (option_copied value.entry) p)) }
    ensures bases { OnOk result
        (to.new.bases.items ≡ to.old.bases.items ++ value_bases part (option_copied value.entry)) }
{
    let Some(Value::Region(v)) = value else {
        return Ok(());
    };
    add_region(alloc, v, part, to)
}

/// Adds what versions name themselves, the oldest first.
fn add_versions(
    alloc: Global,
    versions: Versions<'_, Key, Value>,
    part: u8,
    to: &mut Gathered,
) -> Result<(), OutOfMemory>
    ensures found { OnOk result ((p : Place) →
        extents_cover to.new.found p ≡ (extents_cover to.old.found p || versions_have versions.entry p)) }
    ensures bases { OnOk result
        (to.new.bases.items ≡ to.old.bases.items ++ versions_bases part versions.entry) }
{
    for version in versions {
        add_value(alloc, version.1, part, to)?;
    }
    Ok(())
}

/// Adds what the versions of a key name themselves, where it is a region's of these parts.
fn add_key(
    alloc: Global,
    kv: &Kv<Key, Value>,
    key: &Key,
    parts: Parts,
    to: &mut Gathered,
) -> Result<(), OutOfMemory>
    ensures found { OnOk result ((p : Place) → extents_cover to.new.found p ≡ (extents_cover to.old.found p ||
        (key_stands_in parts key.now && versions_have (versions_of key_cmp kv.now key.now) p))) }
    ensures bases { OnOk result (to.new.bases.items ≡ to.old.bases.items ++
        key_bases kv.now parts key.now) }
{
    let Key::Region(inode, _) = key else {
        return Ok(());
    };
    if !parts.has(*inode) {
        return Ok(());
    }
    add_versions(alloc, kv.kept(key), part_of(*inode), to)
}

/// What the versions of the regions of these parts name themselves, in one walk over the keys of
/// regions.
pub(crate) fn gather(
    alloc: Global,
    kv: &Kv<Key, Value>,
    parts: Parts,
) -> Result<Gathered, OutOfMemory>
    ensures { IfOk result (λ g. GathersUpto kv.now parts None g.found g.bases.items) }
{
    let mut to = Gathered {
        found: Extents::new(alloc),
        bases: Vec::new(alloc),
    };
    // the keys of regions are the last ones, behind those of inodes
    let last = Key::Inode(InodeId {
        tx: TxId(u64::MAX),
        index: u32::MAX,
    });
    let mut at = kv.next_key(Some(&last));
    while let Some(key) = at {
        add_key(alloc, kv, key, parts, &mut to)?;
        at = kv.next_key(Some(key));
    }
    Ok(to)
}
