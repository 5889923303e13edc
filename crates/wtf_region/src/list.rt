//! The lists of slices and of regions.

ghost use Rattle.std.specs.Prelude.{◌≡◌, ◌≤◌, ◌++◌, None, true, [], length, IfOk, IfErr, OnOk, OnErr};
ghost use Rattle.wtf_base.specs.Slices.{len_of};
ghost use Rattle.wtf_overlay.specs.Clips.{clip_list};
ghost use Rattle.wtf_replica.specs.Copies.{IsFetched};
ghost use Rattle.wtf_replica.specs.Faults.{IsReadFault};
ghost use Rattle.wtf_replica.specs.Inside.{size_in};
ghost use Rattle.wtf_meta.specs.Bytes.{SliceBytes, BaseBytes, any_slice};
ghost use Rattle.wtf_region.specs.Bases.{base_slices};
ghost use Rattle.wtf_region.specs.Cached.{RemembersOnly, cached, list_fact, looked_up, recalled_one};
ghost use Rattle.wtf_region.specs.Inside.{part_lies_inside, list_lies_inside};
ghost use Rattle.wtf_region.specs.Devs.{IsSoundDev, GoesOn, remembered, inside_of, between};
ghost use Rattle.wtf_region.specs.Reads.{IsTrueList, IsOfBase, IsListFetched, IsSliceRead, IsListRead, IsSliceFault, IsBaseFault, LeavesLists};
ghost use Rattle.wtf_region.specs.Showing.{OnlyRead};

use crate::Dev;
use std::alloc::Global;
use wtf_base::{Fault, ServerId, Slice};
use wtf_dev::{Shelf, SliceStore};
use wtf_meta::{RegionValue, Spill};
use wtf_overlay::{Overlay, Part};
use wtf_replica::slice_lies_inside;
use wtf_spillfmt::{ListError, decode};

/// Whether what a part holds lies inside the stores.
fn part_lies_inside<S: SliceStore>(servers: u8, shelf: &Shelf<S>, part: &Part) -> bool
    requires { servers ≤ length shelf.now }
    ensures { result ≡ part_lies_inside servers (size_in S.kind shelf.now) part.now }
{
    match part {
        Part::Zero => true,
        Part::Held(slice) => slice_lies_inside(servers, shelf, slice),
    }
}

/// Whether all that a list names lies inside the stores.
fn list_lies_inside<S: SliceStore>(servers: u8, shelf: &Shelf<S>, list: &Overlay) -> bool
    requires { servers ≤ length shelf.now }
    ensures { result ≡ list_lies_inside servers (size_in S.kind shelf.now) list.now }
{
    for i in 0..list.len() {
        let e = list.get(i);
        if !part_lies_inside(servers, shelf, &e.part) {
            return false;
        }
    }
    true
}

/// So many zeros.
fn zeros(alloc: Global, n: usize) -> Result<Vec<u8>, Fault>
    ensures zeros { IfOk result (λ v. length v.items ≡ n) }
    ensures fault { IfErr result (λ why. why ≡ Fault.Memory) }
{
    let mut out = Vec::new(alloc);
    match out.resize(n, 0) {
        Ok(()) => Ok(out),
        Err(_) => Err(Fault::Memory),
    }
}

/// Reads all bytes of a slice, and answers the server of the copy that was read.
fn fetch_all<S: SliceStore>(
    dev: &mut Dev<'_, S>,
    slice: &Slice,
    out: &mut [u8],
) -> Result<ServerId, Fault>
    requires sound { IsSoundDev S.kind dev.old }
    requires inside { SliceBytes (inside_of S.kind dev.old) slice.now }
    requires whole { length out.old ≡ len_of slice.now }
    ensures fetched { IfOk result (λ k.
        IsFetched S.kind (between dev.old dev.new) slice.now 0 out.new k.0) }
    ensures whole { length out.new ≡ len_of slice.now }
    ensures fault { IfErr result (IsReadFault S.kind (between dev.old dev.new) slice.now) }
    ensures cache { dev.new.cache ≡ dev.old.cache }
    ensures reads { OnlyRead S.kind (between dev.old dev.new) }
    ensures dev { GoesOn S.kind dev.old dev.new [] }
{
    let _some = slice.len();
    dev.replicas.fetch(dev.shelf, slice, 0, out)
}

/// Reads the list of a slice from the stores.
fn read_list<S: SliceStore>(
    alloc: Global,
    dev: &mut Dev<'_, S>,
    slice: &Slice,
) -> Result<Overlay, Fault>
    requires sound { IsSoundDev S.kind dev.old }
    requires inside { SliceBytes (inside_of S.kind dev.old) slice.now }
    requires uncached { cached (remembered dev.old) slice.now ≡ None }
    ensures read { IfOk result (IsTrueList S.kind dev.new slice.now) }
    ensures fetched { IfOk result (IsListFetched S.kind (between dev.old dev.new)
        dev.old.settings.region (remembered dev.old) slice.now) }
    ensures fault { IfErr result (IsSliceFault S.kind dev.old dev.new slice.now) }
    ensures cache { dev.new.cache ≡ dev.old.cache }
    ensures reads { OnlyRead S.kind (between dev.old dev.new) }
    ensures dev { GoesOn S.kind dev.old dev.new [] }
{
    let mut out = match zeros(alloc, slice.len() as usize) {
        Ok(out) => out,
        Err(why) => return Err(why),
    };
    let from = match fetch_all(dev, slice, &mut out[..]) {
        Ok(from) => from,
        Err(why) => return Err(why),
    };
    let list = match decode(alloc, &out[..], dev.settings.region) {
        Ok(list) => list,
        Err(ListError::NotAList) => return Err(Fault::Damaged(from)),
        Err(ListError::Memory) => return Err(Fault::Memory),
    };
    if !list_lies_inside(dev.settings.servers, &*dev.shelf, &list) {
        return Err(Fault::Damaged(from));
    }
    Ok(list)
}

/// The list that is remembered of a slice, if one is. It is the last one to be forgotten then.
fn recall<S: SliceStore>(dev: &mut Dev<'_, S>, slice: &Slice) -> Result<Option<Overlay>, Fault>
    requires sound { IsSoundDev S.kind dev.old }
    ensures value { IfOk result (λ o. o ≡ cached (remembered dev.old) slice.now) }
    ensures ok { IfOk result
        (λ o. remembered dev.new ≡ looked_up slice.now o (remembered dev.old)) }
    ensures err { OnErr result (remembered dev.new ≡ remembered dev.old) }
    ensures shelf { dev.new.shelf ≡ dev.old.shelf }
    ensures fault { IfErr result (λ why. why ≡ Fault.Memory) }
    ensures dev { GoesOn S.kind dev.old dev.new [] }
{
    match dev.cache.look_up(slice) {
        Ok(known) => Ok(known),
        Err(_) => Err(Fault::Memory),
    }
}

/// Remembers the list of a slice.
fn remember<S: SliceStore>(dev: &mut Dev<'_, S>, slice: &Slice, list: &Overlay) -> Result<(), Fault>
    requires sound { IsSoundDev S.kind dev.old }
    requires is_true { IsTrueList S.kind dev.old slice.now list.now }
    ensures ok { OnOk result
        (remembered dev.new ≡ recalled_one (list_fact slice.now list.now) (remembered dev.old)) }
    ensures err { OnErr result (remembered dev.new ≡ remembered dev.old) }
    ensures shelf { dev.new.shelf ≡ dev.old.shelf }
    ensures fault { IfErr result (λ why. why ≡ Fault.Memory) }
    ensures dev { GoesOn S.kind dev.old dev.new [] }
{
    match dev.cache.keep(*slice, list) {
        Ok(()) => Ok(()),
        Err(_) => Err(Fault::Memory),
    }
}

/// The whole list of a slice, also what no region sees of it: the one that is remembered, else what a
/// server has, which is remembered then. `Read` with the server of the last copy where no copy could be
/// read, and `Damaged` with the server of the copy that was read where its bytes are no list, or one
/// that names bytes outside the stores. A list that is remembered needs no server. No other slice's list
/// comes to be remembered, and after a fault the same lists are.
pub fn base_list<S: SliceStore>(
    alloc: Global,
    dev: &mut Dev<'_, S>,
    slice: &Slice,
) -> Result<Overlay, Fault>
    requires sound { IsSoundDev S.kind dev.old }
    requires inside { SliceBytes (inside_of S.kind dev.old) slice.now }
    ensures read { IfOk result (IsSliceRead S.kind dev.old dev.new slice.now) }
    ensures fault { IfErr result (IsSliceFault S.kind dev.old dev.new slice.now) }
    ensures err { OnErr result (remembered dev.new ≡ remembered dev.old) }
    ensures only { RemembersOnly (λ s. s ≡ slice.now) (remembered dev.old) (remembered dev.new) }
    ensures reads { OnlyRead S.kind (between dev.old dev.new) }
    ensures dev { GoesOn S.kind dev.old dev.new [] }
{
    let known = match recall(dev, slice) {
        Ok(known) => known,
        Err(why) => return Err(why),
    };
    if let Some(list) = known {
        return Ok(list);
    }
    let list = match read_list(alloc, dev, slice) {
        Ok(list) => list,
        Err(why) => return Err(why),
    };
    match remember(dev, slice, &list) {
        Ok(()) => Ok(list),
        Err(why) => Err(why),
    }
}

/// What is seen of a base's list, with the entries of a region over it.
fn list_over(under: &Overlay, base: Spill, list: &Overlay) -> Result<Overlay, Fault>
    ensures list { IfOk result (λ l. l ≡ clip_list base.visible under.now ++ list.now) }
    ensures fault { IfErr result (λ why. why ≡ Fault.Memory) }
{
    match Overlay::over(under, base.visible, list) {
        Ok(whole) => Ok(whole),
        Err(_) => Err(Fault::Memory),
    }
}

/// The list of a region: that of its base as far as it is seen, with its entries over it. A region
/// without a base has its entries alone, and no server is asked. The faults are those of `base_list`. No
/// list but that of its base comes to be remembered.
pub fn region_list<S: SliceStore>(
    alloc: Global,
    dev: &mut Dev<'_, S>,
    value: &RegionValue,
) -> Result<Overlay, Fault>
    requires sound { IsSoundDev S.kind dev.old }
    requires inside { BaseBytes (inside_of S.kind dev.old) any_slice value.now.base }
    ensures read { IfOk result (IsListRead S.kind dev.old dev.new value.now) }
    ensures fault { IfErr result (IsBaseFault S.kind dev.old dev.new value.now.base) }
    ensures left { IfErr result (LeavesLists S.kind (base_slices value.now.base) dev.old dev.new) }
    ensures only { RemembersOnly (IsOfBase value.now.base) (remembered dev.old) (remembered dev.new) }
    ensures reads { OnlyRead S.kind (between dev.old dev.new) }
    ensures dev { GoesOn S.kind dev.old dev.new [] }
{
    let Some(base) = value.base else {
        match value.list.share() {
            Ok(list) => return Ok(list),
            Err(_) => return Err(Fault::Memory),
        }
    };
    let under = match base_list(alloc, dev, &base.slice) {
        Ok(under) => under,
        Err(why) => return Err(why),
    };
    list_over(&under, base, &value.list)
}
