//! Whole files: the values of all regions of one, and the pieces of several, one after another.

ghost use Rattle.std.specs.Prelude.{◌≡◌, ◌⊎◌, ◌<◌, ◌≤◌, ◌+◌, ◌-◌, ◌*◌, ◌^◌, min, [], ◌∷◌, ◌++◌, IsTrue, IfOk, IfErr, OnOk};
ghost use Rattle.wtf_kv.specs.Stores.{is_pinned};
ghost use Rattle.wtf_occ.specs.Attempts.{Grows, GrowsBy};
ghost use Rattle.wtf_model.specs.declared.limits.TheConstants.{MAX_REGIONS};
ghost use Rattle.wtf_meta.specs.Maps.{seen};
ghost use Rattle.wtf_meta.specs.Bytes.{FileBytes, any_slice};
ghost use Rattle.wtf_meta.specs.Files.{end_of, file_len as file_length};
ghost use Rattle.wtf_meta.specs.FileEdits.{file_of};
ghost use Rattle.wtf_meta.specs.Appends.{OfLast, OfRegion};
ghost use Rattle.wtf_region.specs.Devs.{IsSoundDev, GoesOn, stores, inside_of, between};
ghost use Rattle.wtf_region.specs.Edited.{Recorded};
ghost use Rattle.wtf_region.specs.Inside.{IsStoredInside};
ghost use Rattle.wtf_region.specs.Reads.{IsFileRead, IsFileFault};
ghost use Rattle.wtf_region.specs.Showing.{OnlyRead};
ghost use Rattle.wtf_slicing.specs.Recorded.{whole_keys, files_keys};
ghost use Rattle.wtf_slicing.specs.Sources.{lens_of, AreFilesRead, LacksFile};
ghost use Rattle.wtf_slicing.specs.Copies.{regions_of};

use std::alloc::Global;
use wtf_base::{Fault, InodeId, OutOfMemory, Settings};
use wtf_dev::SliceStore;
use wtf_kv::Kv;
use wtf_occ::Attempt;
use wtf_overlay::Piece;
use wtf_region::{Dev, file_len, pieces};
use wtf_values::{Key, RegionValue, Value};

/// A whole file, as the values of its regions.
#[derive(Drop)]
pub(crate) struct Whole {
    /// The number of its last region.
    pub(crate) last: u16,
    /// Where that one ends.
    pub(crate) end: u32,
    /// The values of its regions up to the last one, of which some may be missing.
    pub(crate) regions: Vec<Option<RegionValue>>,
}

/// The number of a file's last region, 0 where it is missing. It is recorded.
fn last_region(
    kv: &Kv<Key, Value>,
    at: &mut Attempt<Key, Value>,
    inode: InodeId,
) -> Result<u16, OutOfMemory>
    requires { IsTrue (is_pinned kv.now at.old.base) }
    ensures value { IfOk result (λ r. r ≡ (file_of inode (seen kv.now at.old)).last) }
    ensures recorded { OnOk result (Recorded inode (OfLast ∷ []) at.old at.new) }
    ensures grows { Grows at.old at.new }
{
    match at.read(kv, &Key::Inode(inode))? {
        Some(Value::Last(n)) => Ok(n),
        _ => Ok(0),
    }
}

/// The value of a region of a file, if it is there. It is recorded.
fn region_at(
    kv: &Kv<Key, Value>,
    at: &mut Attempt<Key, Value>,
    inode: InodeId,
    r: u16,
) -> Result<Option<RegionValue>, OutOfMemory>
    requires { IsTrue (is_pinned kv.now at.old.base) }
    ensures value { IfOk result (λ v. v ≡ (file_of inode (seen kv.now at.old)).region r) }
    ensures recorded { OnOk result (Recorded inode (OfRegion r ∷ []) at.old at.new) }
    ensures grows { Grows at.old at.new }
{
    match at.read(kv, &Key::Region(inode, r))? {
        Some(Value::Region(v)) => Ok(Some(v)),
        _ => Ok(None),
    }
}

/// Where a region ends, 0 where it is missing.
fn end_in(value: &Option<RegionValue>) -> u32
    ensures { result ≡ end_of value.now }
{
    match value {
        Some(v) => v.end,
        None => 0,
    }
}

/// A whole file, as the values of its regions: no byte of it is read, and no list. The last region's
/// number and all regions up to it are recorded.
pub(crate) fn whole_file(
    alloc: Global,
    kv: &Kv<Key, Value>,
    at: &mut Attempt<Key, Value>,
    inode: InodeId,
) -> Result<Whole, OutOfMemory>
    requires { IsTrue (is_pinned kv.now at.old.base) }
    ensures last { IfOk result (λ f. f.last ≡ (file_of inode (seen kv.now at.old)).last) }
    ensures end { IfOk result (λ f. f.end ≡
        end_of ((file_of inode (seen kv.now at.old)).region f.last)) }
    ensures regions { IfOk result (λ f. f.regions.items ≡
        regions_of (file_of inode (seen kv.now at.old))) }
    ensures recorded { OnOk result
        (Recorded inode (whole_keys (file_of inode (seen kv.now at.old))) at.old at.new) }
    ensures grows { Grows at.old at.new }
{
    let last = last_region(kv, at, inode)?;
    let mut regions = Vec::new(alloc);
    let mut end = 0;
    for r in 0..last as u32 + 1 {
        let value = region_at(kv, at, inode, r as u16)?;
        end = end_in(&value);
        regions.push(value)?;
    }
    Ok(Whole { last, end, regions })
}

/// The number of bytes of files together; 2^64 - 1 where there are more. The last region's number
/// and all regions of each are recorded, in order.
pub(crate) fn total_len(
    alloc: Global,
    kv: &Kv<Key, Value>,
    at: &mut Attempt<Key, Value>,
    inodes: &[InodeId],
    settings: Settings,
) -> Result<u64, OutOfMemory>
    requires { IsTrue (is_pinned kv.now at.old.base) }
    ensures value { IfOk result (λ n. n ≡
        min (lens_of settings.region (seen kv.now at.old) inodes.now) (2 ^ 64 - 1)) }
    ensures went { OnOk result
        (GrowsBy at.old at.new (files_keys (seen kv.now at.old) inodes.now) []) }
    ensures grows { Grows at.old at.new }
{
    let mut sum = 0u64;
    for inode in inodes {
        let whole = whole_file(alloc, kv, at, *inode)?;
        let len = whole.last as u64 * settings.region as u64 + whole.end as u64;
        sum = sum.saturating_add(len);
    }
    Ok(sum)
}

/// The bytes of a whole file as pieces, for which the lists of its bases are read. What is looked at
/// is recorded.
fn file_pieces<S: SliceStore>(
    alloc: Global,
    dev: &mut Dev<'_, S>,
    kv: &Kv<Key, Value>,
    at: &mut Attempt<Key, Value>,
    inode: InodeId,
) -> Result<Vec<Piece>, Fault>
    requires sound { IsSoundDev S.kind dev.old }
    requires pinned { IsTrue (is_pinned kv.now at.old.base) }
    requires inside { FileBytes (inside_of S.kind dev.old) any_slice
        (file_of inode (seen kv.now at.old)) }
    requires cap { lens_of dev.old.settings.region (seen kv.now at.old) (inode ∷ []) ≤
        MAX_REGIONS * dev.old.settings.region }
    ensures read { IfOk result (λ v.
        IsFileRead S.kind dev.old dev.new (file_of inode (seen kv.now at.old)) 0
        (file_length dev.old.settings.region (file_of inode (seen kv.now at.old))) v.items) }
    ensures same { OnOk result (seen kv.now at.new ≡ seen kv.now at.old) }
    ensures grows { Grows at.old at.new }
    ensures fault { IfErr result
        (IsFileFault S.kind dev.old dev.new (file_of inode (seen kv.now at.old)) 0
        (file_length dev.old.settings.region (file_of inode (seen kv.now at.old)))) }
    ensures reads { OnlyRead S.kind (between dev.old dev.new) }
    ensures dev { GoesOn S.kind dev.old dev.new [] }
{
    let settings = dev.settings;
    let len = match file_len(kv, at, inode, settings) {
        Ok(len) => len,
        Err(_) => return Err(Fault::Memory),
    };
    match pieces(alloc, dev, kv, at, inode, 0, len) {
        Ok(found) => return Ok(found),
        Err(why) => return Err(why),
    }
}

/// Appends pieces.
fn append(out: &mut Vec<Piece>, more: &[Piece]) -> Result<(), Fault>
    ensures ok { OnOk result (out.new.items ≡ out.old.items ++ more.now) }
    ensures fault { IfErr result (λ why. why ≡ Fault.Memory) }
{
    match out.extend_from_slice(more) {
        Ok(()) => Ok(()),
        Err(_) => Err(Fault::Memory),
    }
}

/// The bytes of files, one after another, as pieces, for which the lists of their bases are read, in
/// order. Nothing is recorded, since the whole files were before.
pub(crate) fn all_pieces<S: SliceStore>(
    alloc: Global,
    dev: &mut Dev<'_, S>,
    kv: &Kv<Key, Value>,
    at: &mut Attempt<Key, Value>,
    inodes: &[InodeId],
) -> Result<Vec<Piece>, Fault>
    requires sound { IsSoundDev S.kind dev.old }
    requires pinned { IsTrue (is_pinned kv.now at.old.base) }
    requires inside { IsStoredInside S.kind (stores dev.old) dev.old.settings (seen kv.now at.old) }
    requires cap { lens_of dev.old.settings.region (seen kv.now at.old) inodes.now ≤
        MAX_REGIONS * dev.old.settings.region }
    ensures read { IfOk result (λ v.
        AreFilesRead S.kind dev.old dev.new (seen kv.now at.old) inodes.now v.items) }
    ensures same { OnOk result (at.new ≡ at.old) }
    ensures grows { Grows at.old at.new }
    ensures fault { IfErr result (λ why. (why ≡ Fault.Memory) ⊎
        LacksFile S.kind dev.old dev.new (seen kv.now at.old) inodes.now why) }
    ensures reads { OnlyRead S.kind (between dev.old dev.new) }
    ensures dev { GoesOn S.kind dev.old dev.new [] }
{
    let mark = at.mark();
    let mut out = Vec::new(alloc);
    for inode in inodes {
        let more = match file_pieces(alloc, dev, kv, at, *inode) {
            Ok(more) => more,
            Err(why) => return Err(why),
        };
        match append(&mut out, more.as_slice()) {
            Ok(()) => {}
            Err(why) => return Err(why),
        }
    }
    at.rewind(mark);
    Ok(out)
}
