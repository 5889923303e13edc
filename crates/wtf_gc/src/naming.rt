//! The extents that slices and lists name.

ghost use Rattle.std.specs.Prelude.{◌≡◌, ◌+◌, ◌<◌, ◌^◌, ◌||◌, OnOk};
ghost use Rattle.wtf_base.specs.Places.{Place};
ghost use Rattle.wtf_gc.specs.Extents.{has, extents_cover};
ghost use Rattle.wtf_gc.specs.Named.{pointer_has, slice_has, part_has, list_has};

use crate::extent::Extent;
use crate::extents::Extents;
use std::alloc::Global;
use wtf_base::{OutOfMemory, Pointer, Slice};
use wtf_overlay::{Overlay, Part};

/// The extent of a pointer.
fn extent_of(pointer: Pointer) -> Extent
    requires { pointer.at + pointer.len < 2 ^ 63 }
    ensures { (p : Place) → has result p ≡ pointer_has pointer p }
{
    Extent {
        server: pointer.server.0,
        file: pointer.file,
        from: pointer.at,
        to: pointer.at + pointer.len as u64,
    }
}

/// Adds the extents of a slice's copies.
pub(crate) fn add_slice(
    alloc: Global,
    slice: &Slice,
    found: &mut Extents,
) -> Result<(), OutOfMemory>
    ensures { OnOk result ((p : Place) →
        extents_cover found.new p ≡ (extents_cover found.old p || slice_has slice.now p)) }
{
    for i in 0..slice.width() {
        found.add(alloc, extent_of(slice.pointer(i)))?;
    }
    Ok(())
}

/// Adds the extents of what a list's entry holds.
fn add_part(alloc: Global, part: &Part, found: &mut Extents) -> Result<(), OutOfMemory>
    ensures { OnOk result ((p : Place) →
        extents_cover found.new p ≡ (extents_cover found.old p || part_has part.now p)) }
{
    match part {
        Part::Zero => Ok(()),
        Part::Held(slice) => add_slice(alloc, slice, found),
    }
}

/// Adds the extents of all entries of a list, also of those that later ones hide.
pub(crate) fn add_list(
    alloc: Global,
    list: &Overlay,
    found: &mut Extents,
) -> Result<(), OutOfMemory>
    ensures { OnOk result ((p : Place) →
        extents_cover found.new p ≡ (extents_cover found.old p || list_has list.now p)) }
{
    for i in 0..list.len() {
        let e = list.get(i);
        add_part(alloc, &e.part, found)?;
    }
    Ok(())
}
