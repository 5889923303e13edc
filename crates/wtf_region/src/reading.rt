//! What an attempt sees of a file: its length, and ranges of it as pieces.

ghost use Rattle.std.specs.Prelude.{◌≡◌, ◌+◌, ◌*◌, ◌<◌, ◌≤◌, ◌++◌, [], ◌∷◌, IfOk, IfErr, OnOk, OnErr, IsTrue};
ghost use Rattle.std.specs.Option.{option_copied};
ghost use Rattle.wtf_kv.specs.Stores.{is_pinned};
ghost use Rattle.wtf_occ.specs.Attempts.{Grows};
ghost use Rattle.wtf_overlay.specs.Origin.{Plans, origin};
ghost use Rattle.wtf_model.specs.declared.limits.TheConstants.{MAX_REGIONS};
ghost use Rattle.wtf_meta.specs.Maps.{seen};
ghost use Rattle.wtf_meta.specs.Bytes.{MaybeBytes, FileBytes, any_slice};
ghost use Rattle.wtf_meta.specs.Files.{file_len as file_length};
ghost use Rattle.wtf_meta.specs.FileEdits.{file_of, region_of};
ghost use Rattle.wtf_meta.specs.Appends.{OfRegion, length_keys, region_keys, touched};
ghost use Rattle.wtf_region.specs.Devs.{IsSoundDev, GoesOn, between, inside_of};
ghost use Rattle.wtf_region.specs.Reads.{IsPartRead, IsFileRead, LeavesRegion, IsFileFault, RecallsFirst};
ghost use Rattle.wtf_region.specs.Showing.{OnlyRead};
ghost use Rattle.wtf_region.specs.Edited.{Recorded};

use crate::ends::{file_end, record_length, record_region};
use crate::own::own_pieces;
use crate::part::{RegionPart, part_at};
use crate::{Dev, region_list};
use std::alloc::Global;
use wtf_base::{Fault, InodeId, OutOfMemory, Settings};
use wtf_dev::SliceStore;
use wtf_kv::Kv;
use wtf_meta::{Key, RegionValue, Value};
use wtf_occ::Attempt;
use wtf_overlay::{Overlay, Part, Piece};

/// The length of a file, in bytes: that of the regions before its last one, and where that one
/// ends. A missing file has none. The last region's number and its value are recorded. After an
/// error some of them may be.
pub fn file_len(
    kv: &Kv<Key, Value>,
    at: &mut Attempt<Key, Value>,
    inode: InodeId,
    settings: Settings,
) -> Result<u64, OutOfMemory>
    requires { IsTrue (is_pinned kv.now at.old.base) }
    ensures value { IfOk result
        (λ n. n ≡ file_length settings.region (file_of inode (seen kv.now at.old))) }
    ensures recorded { OnOk result
        (Recorded inode (length_keys (file_of inode (seen kv.now at.old))) at.old at.new) }
    ensures grows { Grows at.old at.new }
{
    let end = file_end(kv, at, inode);
    record_length(at, inode, end)?;
    Ok(end.region as u64 * settings.region as u64 + end.off as u64)
}

/// The region that a value is, if it is one.
fn region_in(value: Option<&Value>) -> Option<&RegionValue>
    ensures { option_copied result ≡ region_of (option_copied value.entry) }
{
    let Some(Value::Region(v)) = value else {
        return None;
    };
    Some(v)
}

/// A part of a region as pieces; a hole where it is missing.
fn value_pieces<S: SliceStore>(
    alloc: Global,
    dev: &mut Dev<'_, S>,
    value: Option<&RegionValue>,
    off: u32,
    len: u32,
) -> Result<Vec<Piece>, Fault>
    requires sound { IsSoundDev S.kind dev.old }
    requires inside { MaybeBytes (inside_of S.kind dev.old) any_slice (option_copied value) }
    requires some { 0 < len }
    ensures read { IfOk result (λ v.
        IsPartRead S.kind dev.old dev.new (option_copied value.entry) off len v.items) }
    ensures fault { IfErr result (LeavesRegion S.kind dev.old dev.new (option_copied value.entry)) }
    ensures reads { OnlyRead S.kind (between dev.old dev.new) }
    ensures dev { GoesOn S.kind dev.old dev.new [] }
{
    let v = match value {
        Some(v) => v,
        None => return hole(alloc, len),
    };
    if v.base.is_none() {
        return plan_of(&v.list, off, len);
    }
    let list = match region_list(alloc, dev, v) {
        Ok(list) => list,
        Err(why) => return Err(why),
    };
    plan_of(&list, off, len)
}

/// A part of a list as pieces.
fn plan_of(list: &Overlay, off: u32, len: u32) -> Result<Vec<Piece>, Fault>
    ensures plans { IfOk result (λ v. Plans v.items len (λ i. origin list.now (off + i))) }
    ensures fault { IfErr result (λ why. why ≡ Fault.Memory) }
{
    match list.plan(off, len) {
        Ok(pieces) => Ok(pieces),
        Err(_) => Err(Fault::Memory),
    }
}

/// A hole of so many bytes.
fn hole(alloc: Global, len: u32) -> Result<Vec<Piece>, Fault>
    requires { 0 < len }
    ensures plans { IfOk result (λ v. Plans v.items len (λ i. [])) }
    ensures fault { IfErr result (λ why. why ≡ Fault.Memory) }
{
    let mut pieces = Vec::new(alloc);
    match pieces.push(Piece::of(len as u64, Part::Zero)) {
        Ok(()) => Ok(pieces),
        Err(_) => Err(Fault::Memory),
    }
}

/// A part of the region that an attempt sees at a key as pieces, where its value may stand nowhere. The
/// attempt's few entries are laid over the list at the base, and else the value is made, and known then.
fn made_pieces<S: SliceStore>(
    alloc: Global,
    dev: &mut Dev<'_, S>,
    kv: &Kv<Key, Value>,
    at: &mut Attempt<Key, Value>,
    key: &Key,
    part: RegionPart,
) -> Result<Vec<Piece>, Fault>
    requires sound { IsSoundDev S.kind dev.old }
    requires pinned { IsTrue (is_pinned kv.now at.old.base) }
    requires inside { MaybeBytes (inside_of S.kind dev.old) any_slice
        (region_of (seen kv.now at.old key.now)) }
    requires some { 0 < part.len }
    ensures read { IfOk result (λ v. IsPartRead S.kind dev.old dev.new
        (region_of (seen kv.now at.old key.now)) part.off part.len v.items) }
    ensures fault { IfErr result (LeavesRegion S.kind dev.old dev.new
        (region_of (seen kv.now at.old key.now))) }
    ensures same { at.new ≡ at.old }
    ensures reads { OnlyRead S.kind (between dev.old dev.new) }
    ensures dev { GoesOn S.kind dev.old dev.new [] }
{
    match own_pieces(alloc, kv, at, key, part) {
        Ok(Some(pieces)) => return Ok(pieces),
        Ok(None) => {}
        Err(_) => return Err(Fault::Memory),
    }
    let value = match settled(kv, at, key) {
        Ok(value) => value,
        Err(_) => return Err(Fault::Memory),
    };
    value_pieces(alloc, dev, region_in(value.as_ref()), part.off, part.len)
}

/// The value that an attempt sees at a key, which is known then.
fn settled(
    kv: &Kv<Key, Value>,
    at: &mut Attempt<Key, Value>,
    key: &Key,
) -> Result<Option<Value>, OutOfMemory>
    requires { IsTrue (is_pinned kv.now at.old.base) }
    ensures value { IfOk result (λ value. value ≡ seen kv.now at.old key.now) }
    ensures same { at.new ≡ at.old }
{
    at.settle(kv, key)?;
    at.peek(kv, key)
}

/// A part of the region that an attempt sees at a key as pieces; a hole where it is missing. Nothing is
/// recorded. The value is copied only where it stands nowhere.
fn seen_pieces<S: SliceStore>(
    alloc: Global,
    dev: &mut Dev<'_, S>,
    kv: &Kv<Key, Value>,
    at: &mut Attempt<Key, Value>,
    key: &Key,
    part: RegionPart,
) -> Result<Vec<Piece>, Fault>
    requires sound { IsSoundDev S.kind dev.old }
    requires pinned { IsTrue (is_pinned kv.now at.old.base) }
    requires inside { MaybeBytes (inside_of S.kind dev.old) any_slice
        (region_of (seen kv.now at.old key.now)) }
    requires some { 0 < part.len }
    ensures read { IfOk result (λ v. IsPartRead S.kind dev.old dev.new
        (region_of (seen kv.now at.old key.now)) part.off part.len v.items) }
    ensures fault { IfErr result (LeavesRegion S.kind dev.old dev.new
        (region_of (seen kv.now at.old key.now))) }
    ensures same { at.new ≡ at.old }
    ensures reads { OnlyRead S.kind (between dev.old dev.new) }
    ensures dev { GoesOn S.kind dev.old dev.new [] }
{
    if let Some(value) = at.look(kv, key) {
        return value_pieces(alloc, dev, region_in(value), part.off, part.len);
    }
    made_pieces(alloc, dev, kv, at, key, part)
}

/// A part of a region of a file as pieces; a hole where it is missing. The region is recorded.
fn region_pieces<S: SliceStore>(
    alloc: Global,
    dev: &mut Dev<'_, S>,
    kv: &Kv<Key, Value>,
    at: &mut Attempt<Key, Value>,
    inode: InodeId,
    part: RegionPart,
) -> Result<Vec<Piece>, Fault>
    requires sound { IsSoundDev S.kind dev.old }
    requires pinned { IsTrue (is_pinned kv.now at.old.base) }
    requires inside { FileBytes (inside_of S.kind dev.old) any_slice (file_of inode (seen kv.now at.old)) }
    requires some { 0 < part.len }
    ensures read { IfOk result (λ v. IsPartRead S.kind dev.old dev.new
        ((file_of inode (seen kv.now at.old)).region part.region) part.off part.len v.items) }
    ensures recorded { OnOk result (Recorded inode (OfRegion part.region ∷ []) at.old at.new) }
    ensures grows { Grows at.old at.new }
    ensures fault { IfErr result (LeavesRegion S.kind dev.old dev.new
        ((file_of inode (seen kv.now at.old)).region part.region)) }
    ensures reads { OnlyRead S.kind (between dev.old dev.new) }
    ensures dev { GoesOn S.kind dev.old dev.new [] }
{
    match record_region(at, inode, part.region) {
        Ok(()) => {}
        Err(_) => return Err(Fault::Memory),
    }
    seen_pieces(alloc, dev, kv, at, &Key::Region(inode, part.region), part)
}

/// The `len` bytes of a file from offset `off` on as consecutive pieces, each of one slice or of
/// zeros. A missing region, and all past a region's end, reads as zeros. The regions in which the
/// bytes lie are recorded, each once, and the lists of their bases are read, in order: `Read` and
/// `Damaged` are those of the first list that was not read. After a fault, also for want of memory, some
/// regions may be recorded, and the lists that were read are remembered, and no others.
pub fn pieces<S: SliceStore>(
    alloc: Global,
    dev: &mut Dev<'_, S>,
    kv: &Kv<Key, Value>,
    at: &mut Attempt<Key, Value>,
    inode: InodeId,
    off: u64,
    len: u64,
) -> Result<Vec<Piece>, Fault>
    requires sound { IsSoundDev S.kind dev.old }
    requires inside { FileBytes (inside_of S.kind dev.old) any_slice (file_of inode (seen kv.now at.old)) }
    requires cap { off + len ≤ MAX_REGIONS * dev.old.settings.region }
    requires pinned { IsTrue (is_pinned kv.now at.old.base) }
    ensures read { IfOk result (λ v.
        IsFileRead S.kind dev.old dev.new (file_of inode (seen kv.now at.old)) off len v.items) }
    ensures recorded { OnOk result
        (Recorded inode (region_keys (touched dev.old.settings.region off len)) at.old at.new) }
    ensures grows { Grows at.old at.new }
    ensures fault { IfErr result
        (IsFileFault S.kind dev.old dev.new (file_of inode (seen kv.now at.old)) off len) }
    ensures err { OnErr result
        (RecallsFirst S.kind dev.old dev.new (file_of inode (seen kv.now at.old)) off len) }
    ensures reads { OnlyRead S.kind (between dev.old dev.new) }
    ensures dev { GoesOn S.kind dev.old dev.new [] }
{
    let size = dev.settings.region;
    let mut out = Vec::new(alloc);
    let mut done = 0;
    while done < len {
        let part = part_at(off, len, done, size);
        let more = match region_pieces(alloc, dev, kv, at, inode, part) {
            Ok(more) => more,
            Err(why) => return Err(why),
        };
        match append(&mut out, more.as_slice()) {
            Ok(()) => {}
            Err(why) => return Err(why),
        }
        done += part.len as u64;
    }
    Ok(out)
}

/// Appends pieces.
fn append(out: &mut Vec<Piece>, more: &[Piece]) -> Result<(), Fault>
    ensures ok { OnOk result (out.new.items ≡ out.old.items ++ more.now) }
    ensures fault { IfErr result (λ why. why ≡ Fault.Memory) }
{
    match out.extend_from_slice(more) {
        Ok(()) => Ok(()),
        Err(_) => Err(Fault::Memory),
    }
}
