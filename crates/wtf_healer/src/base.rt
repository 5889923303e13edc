//! The lists in the bases of regions, read from servers that are left.

ghost use Rattle.std.specs.Prelude.{◌≡◌, ◌≤◌, [], length, IfOk, IfErr};
ghost use Rattle.wtf_base.specs.Slices.{len_of};
ghost use Rattle.wtf_replica.specs.Copies.{IsFetched};
ghost use Rattle.wtf_replica.specs.Downs.{is_down};
ghost use Rattle.wtf_replica.specs.Faults.{IsReadFault};
ghost use Rattle.wtf_replica.specs.Inside.{size_in};
ghost use Rattle.wtf_meta.specs.Bytes.{BaseBytes, SliceBytes, any_slice};
ghost use Rattle.wtf_image.specs.Rules.{lies_inside_without};
ghost use Rattle.wtf_overlay.specs.Spilled.{decoded};
ghost use Rattle.wtf_region.specs.Devs.{IsSoundDev, GoesOn, stores, is_down_in, between};
ghost use Rattle.wtf_region.specs.Showing.{OnlyRead};
ghost use Rattle.wtf_healer.specs.Bases.{slice_lies, part_lies, list_lies, list_lies_lent, inside_left, IsListIn, IsNoListIn, IsListRead, IsBaseRead, IsListFault, IsBaseFault};

use std::alloc::Global;
use wtf_base::{Fault, Pointer, ServerId, Slice};
use wtf_dev::{Shelf, SliceStore};
use wtf_overlay::{Overlay, Part};
use wtf_region::Dev;
use wtf_replica::{Replicas, lies_inside};
use wtf_spillfmt::{ListError, decode};
use wtf_values::Spill;

/// Whether an extent lies inside the stores of so many servers: on a server that is down only its server and its file are looked
/// at.
fn copy_lies<S: SliceStore>(
    replicas: &Replicas,
    servers: u8,
    shelf: &Shelf<S>,
    copy: Pointer,
) -> bool
    requires { servers ≤ length shelf.now }
    ensures { result ≡
        lies_inside_without (is_down replicas.now) servers (size_in S.kind shelf.now) copy }
{
    if replicas.is_down(copy.server.0) {
        return copy.server.0 < servers && copy.file < 8;
    }
    lies_inside(servers, shelf, copy)
}

/// Whether each copy of a slice does.
fn slice_lies<S: SliceStore>(
    replicas: &Replicas,
    servers: u8,
    shelf: &Shelf<S>,
    slice: &Slice,
) -> bool
    requires { servers ≤ length shelf.now }
    ensures { result ≡
        slice_lies (is_down replicas.now) servers (size_in S.kind shelf.now) slice.now }
{
    for i in 0..slice.width() {
        if !copy_lies(replicas, servers, shelf, slice.pointer(i)) {
            return false;
        }
    }
    true
}

/// Whether what a part holds does.
fn part_lies<S: SliceStore>(replicas: &Replicas, servers: u8, shelf: &Shelf<S>, part: &Part) -> bool
    requires { servers ≤ length shelf.now }
    ensures { result ≡
        part_lies (is_down replicas.now) servers (size_in S.kind shelf.now) part.now }
{
    match part {
        Part::Zero => true,
        Part::Held(slice) => slice_lies(replicas, servers, shelf, slice),
    }
}

/// Whether all that a list names does.
fn list_lies<S: SliceStore>(
    replicas: &Replicas,
    servers: u8,
    shelf: &Shelf<S>,
    list: &Overlay,
) -> bool
    requires { servers ≤ length shelf.now }
    ensures { result ≡
        list_lies (is_down replicas.now) servers (size_in S.kind shelf.now) list.now }
{
    for i in 0..list.len() {
        let e = list.get(i);
        if !part_lies(replicas, servers, shelf, &e.part) {
            return false;
        }
    }
    true
}

/// So many zeros.
fn zeros(alloc: Global, n: usize) -> Result<Vec<u8>, Fault>
    ensures zeros { IfOk result (λ v. length v.items ≡ n) }
    ensures fault { IfErr result (λ why. why ≡ Fault.Memory) }
{
    let mut out = Vec::new(alloc);
    match out.resize(n, 0) {
        Ok(()) => Ok(out),
        Err(_) => Err(Fault::Memory),
    }
}

/// Reads all bytes of a slice, and answers the server of the copy that was read.
fn fetch_all<S: SliceStore>(
    dev: &mut Dev<'_, S>,
    slice: &Slice,
    out: &mut [u8],
) -> Result<ServerId, Fault>
    requires sound { IsSoundDev S.kind dev.old }
    requires inside { SliceBytes (inside_left S.kind dev.old) slice.now }
    requires whole { length out.old ≡ len_of slice.now }
    ensures fetched { IfOk result (λ k.
        IsFetched S.kind (between dev.old dev.new) slice.now 0 out.new k.0) }
    ensures whole { length out.new ≡ len_of slice.now }
    ensures fault { IfErr result (IsReadFault S.kind (between dev.old dev.new) slice.now) }
    ensures reads { OnlyRead S.kind (between dev.old dev.new) }
    ensures dev { GoesOn S.kind dev.old dev.new [] }
{
    let _some = slice.len();
    dev.replicas.fetch(dev.shelf, slice, 0, out)
}

/// The list that bytes are, which were read from a server.
fn list_of<S: SliceStore>(
    alloc: Global,
    dev: &Dev<'_, S>,
    bytes: &[u8],
    from: ServerId,
) -> Result<Overlay, Fault>
    requires { IsSoundDev S.kind dev.now }
    ensures list { IfOk result (IsListIn S.kind dev.now bytes.now) }
    ensures fault { IfErr result (IsNoListIn S.kind dev.now bytes.now from.0) }
{
    let list = match decode(alloc, bytes, dev.settings.region) {
        Ok(list) => list,
        Err(ListError::NotAList) => return Err(Fault::Damaged(from)),
        Err(ListError::Memory) => return Err(Fault::Memory),
    };
    if !list_lies(dev.replicas, dev.settings.servers, &*dev.shelf, &list) {
        return Err(Fault::Damaged(from));
    }
    Ok(list)
}

/// The whole list in a slice, read from a copy of it on a server that is up. `Read` with the server of the last copy where none
/// could be read, and `Damaged` with the server of the copy that was read where its bytes are no list, or one that names bytes
/// outside the stores.
fn list_in<S: SliceStore>(
    alloc: Global,
    dev: &mut Dev<'_, S>,
    slice: &Slice,
) -> Result<Overlay, Fault>
    requires sound { IsSoundDev S.kind dev.old }
    requires inside { SliceBytes (inside_left S.kind dev.old) slice.now }
    ensures read { IfOk result (IsListRead S.kind dev.old dev.new slice.now) }
    ensures fault { IfErr result (IsListFault S.kind dev.old dev.new slice.now) }
    ensures reads { OnlyRead S.kind (between dev.old dev.new) }
    ensures dev { GoesOn S.kind dev.old dev.new [] }
{
    let mut bytes = match zeros(alloc, slice.len() as usize) {
        Ok(bytes) => bytes,
        Err(why) => return Err(why),
    };
    let from = match fetch_all(dev, slice, &mut bytes[..]) {
        Ok(from) => from,
        Err(why) => return Err(why),
    };
    list_of(alloc, &*dev, &bytes[..], from)
}

/// The list of a base, whole, and one with no entry where there is no base.
pub(crate) fn base_list<S: SliceStore>(
    alloc: Global,
    dev: &mut Dev<'_, S>,
    base: Option<Spill>,
) -> Result<Overlay, Fault>
    requires sound { IsSoundDev S.kind dev.old }
    requires inside { BaseBytes (inside_left S.kind dev.old) any_slice base }
    ensures read { IfOk result (IsBaseRead S.kind dev.old dev.new base) }
    ensures fault { IfErr result (IsBaseFault S.kind dev.old dev.new base) }
    ensures reads { OnlyRead S.kind (between dev.old dev.new) }
    ensures dev { GoesOn S.kind dev.old dev.new [] }
{
    let Some(spill) = base else {
        match Overlay::new(alloc) {
            Ok(list) => return Ok(list),
            Err(_) => return Err(Fault::Memory),
        }
    };
    let list = list_in(alloc, dev, &spill.slice);
    list
}
