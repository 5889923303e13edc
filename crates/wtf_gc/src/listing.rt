//! What the lists in the slices of bases name.

ghost use Rattle.std.specs.Prelude.{◌≡◌, ◌⊎◌, Some, IsTrue, [], ◌∷◌, map, OnOk, IfOk, IfErr};
ghost use Rattle.std.specs.List.{All};
ghost use Rattle.wtf_values.specs.declared.region.RegionValue as region;
ghost use Rattle.wtf_meta.specs.Bytes.{SliceBytes, BaseBytes, any_slice};
ghost use Rattle.wtf_region.specs.Devs.{IsSoundDev, GoesOn, between, inside_of, remembered};
ghost use Rattle.wtf_region.specs.Showing.{OnlyRead};
ghost use Rattle.wtf_region.specs.Reads.{IsSliceFault};
ghost use Rattle.wtf_gc.specs.Extents.{extents_cover, no_places};
ghost use Rattle.wtf_gc.specs.Parts.{IsIn};
ghost use Rattle.wtf_gc.specs.Reading.{ListsRead, IsBasesFault, PartsRead, IsPartsFault};

use crate::extents::Extents;
use crate::gather::{Base, gather};
use crate::naming::add_list;
use crate::parts::Parts;
use std::alloc::Global;
use wtf_base::{Fault, Slice};
use wtf_dev::SliceStore;
use wtf_kv::Kv;
use wtf_meta::{Key, Value};
use wtf_region::{Dev, base_list};

/// Adds what the list in a slice names.
fn add_base_list<S: SliceStore>(
    alloc: Global,
    dev: &mut Dev<'_, S>,
    slice: &Slice,
    found: &mut Extents,
) -> Result<(), Fault>
    requires sound { IsSoundDev S.kind dev.old }
    requires inside { SliceBytes (inside_of S.kind dev.old) slice.now }
    ensures read { OnOk result (ListsRead S.kind dev.old dev.new (slice.now ∷ []) found.old found.new) }
    ensures fault { IfErr result (λ why. (why ≡ Fault.Memory) ⊎
        (IsSliceFault S.kind dev.old dev.new slice.now why × (remembered dev.new ≡ remembered dev.old))) }
    ensures reads { OnlyRead S.kind (between dev.old dev.new) }
    ensures dev { GoesOn S.kind dev.old dev.new [] }
{
    let list = base_list(alloc, dev, slice)?;
    match add_list(alloc, &list, found) {
        Ok(()) => Ok(()),
        Err(_) => Err(Fault::Memory),
    }
}

/// Whether a slice is the last one.
fn is_again(last: Option<Slice>, slice: &Slice) -> bool
    ensures { IsTrue result → last ≡ Some slice.now }
{
    let Some(last) = last else {
        return false;
    };
    last == *slice
}

/// Adds what the lists of all bases name, one after another; that of equal neighbours once.
fn add_lists<S: SliceStore>(
    alloc: Global,
    dev: &mut Dev<'_, S>,
    bases: &[Base],
    found: &mut Extents,
) -> Result<(), Fault>
    requires sound { IsSoundDev S.kind dev.old }
    requires inside { All (λ b. SliceBytes (inside_of S.kind dev.old) b.slice) bases.now }
    ensures read { OnOk result
        (ListsRead S.kind dev.old dev.new (map (λ b. b.slice) bases.now) found.old found.new) }
    ensures fault { IfErr result (IsBasesFault S.kind dev.old dev.new bases.now) }
    ensures reads { OnlyRead S.kind (between dev.old dev.new) }
    ensures dev { GoesOn S.kind dev.old dev.new [] }
{
    let mut last = None;
    for base in bases {
        // versions of a region often have one base
        if is_again(last, &base.slice) {
            continue;
        }
        add_base_list(alloc, dev, &base.slice, found)?;
        last = Some(base.slice);
    }
    Ok(())
}

/// What the versions of the regions of these parts name. The lists of bases are read part by part, in a
/// part by inode, then by region, then by version, the oldest first.
pub(crate) fn found_in<S: SliceStore>(
    alloc: Global,
    dev: &mut Dev<'_, S>,
    kv: &Kv<Key, Value>,
    parts: Parts,
) -> Result<Extents, Fault>
    requires sound { IsSoundDev S.kind dev.old }
    requires inside { (v : region.RegionValue) → IsIn kv.now parts v →
        BaseBytes (inside_of S.kind dev.old) any_slice v.base }
    ensures read { IfOk result (λ found. PartsRead S.kind dev.old dev.new kv.now parts
        no_places (extents_cover found)) }
    ensures fault { IfErr result (IsPartsFault S.kind dev.old dev.new kv.now parts) }
    ensures reads { OnlyRead S.kind (between dev.old dev.new) }
    ensures dev { GoesOn S.kind dev.old dev.new [] }
{
    let mut all = match gather(alloc, kv, parts) {
        Ok(all) => all,
        Err(_) => return Err(Fault::Memory),
    };
    if let Err(_) = all.bases.sort_by_key(|b| b.part) {
        return Err(Fault::Memory);
    }
    match add_lists(alloc, dev, all.bases.as_slice(), &mut all.found) {
        Ok(()) => Ok(all.found),
        Err(why) => Err(why),
    }
}
