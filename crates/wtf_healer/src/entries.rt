//! Entries whose slices have too few copies are stored anew.

ghost use Rattle.std.specs.Prelude.{◌≡◌, ◌≢◌, ◌+◌, ◌*◌, ◌<◌, ◌≤◌, ◌^◌, ◌++◌, ◌∷◌, ℕ, List, [], true, length, Ok, IfOk, IfErr, OnOk, if◌then◌else◌};
ghost use Rattle.std.specs.List.{All};
ghost use Rattle.wtf_overlay.specs.Origin.{part_origin};
ghost use Rattle.wtf_overlay.specs.Clips.{Within};
ghost use Rattle.wtf_overlay.specs.declared.part.Entry as entry_type;
ghost use Rattle.wtf_model.specs.declared.limits.TheConstants.{MAX_REGIONS};
ghost use Rattle.wtf_replica.specs.Bytes.{byte_at};
ghost use Rattle.wtf_replica.specs.Downs.{is_down};
ghost use Rattle.wtf_meta.specs.Bytes.{EntryBytes};
ghost use Rattle.wtf_region.specs.Devs.{IsSoundDev, GoesOn, stores, is_down_in, between};
ghost use Rattle.wtf_region.specs.Showing.{ShownLive, OnlyRead};
ghost use Rattle.wtf_healer.specs.Bases.{inside_left};
ghost use Rattle.wtf_healer.specs.Sparse.{sparse_bytes};
ghost use Rattle.wtf_healer.specs.Restored.{AreRestored, Grew, IsRestored, IsStoredFor, IsEntryFault, IsAnewFault, IsRestoreFault, OnlyStored};

use crate::sparse::is_sparse_part;
use std::alloc::Global;
use wtf_base::{Fault, Slice};
use wtf_dev::SliceStore;
use wtf_overlay::{Entry, Overlay, Part, Piece};
use wtf_region::{Dev, RegionKey, show, store_bytes};

/// The bytes of an entry.
fn bytes_of<S: SliceStore>(alloc: Global, dev: &mut Dev<'_, S>, e: Entry) -> Result<Vec<u8>, Fault>
    requires sound { IsSoundDev S.kind dev.old }
    requires inside { EntryBytes (inside_left S.kind dev.old) e }
    ensures live { IfOk result (λ v. ShownLive (is_down_in dev.old)
        (byte_at S.kind (stores dev.old)) e.len (part_origin e.part) [] v.items) }
    ensures fault { IfErr result (IsEntryFault S.kind (between dev.old dev.new) e) }
    ensures reads { OnlyRead S.kind (between dev.old dev.new) }
    ensures dev { GoesOn S.kind dev.old dev.new [] }
{
    let mut bytes = Vec::new(alloc);
    let piece = [Piece::of(e.len as u64, e.part)];
    match show(dev, &piece, 0, e.len as u64, &mut bytes) {
        Ok(()) => Ok(bytes),
        Err(why) => Err(why),
    }
}

/// A slice of the bytes of an entry of a region, stored anew.
fn stored<S: SliceStore>(
    alloc: Global,
    dev: &mut Dev<'_, S>,
    key: RegionKey,
    e: Entry,
) -> Result<Slice, Fault>
    requires sound { IsSoundDev S.kind dev.old }
    requires inside { EntryBytes (inside_left S.kind dev.old) e }
    requires region { key.region < MAX_REGIONS }
    requires within { e.off + e.len ≤ dev.old.settings.region }
    ensures stored { IfOk result (IsStoredFor S.kind dev.old dev.new key e) }
    ensures fault { IfErr result (IsAnewFault S.kind dev.old dev.new e) }
    ensures stores { OnlyStored S.kind (between dev.old dev.new) }
    ensures dev { GoesOn S.kind dev.old dev.new [] }
{
    let bytes = match bytes_of(alloc, dev, e) {
        Ok(bytes) => bytes,
        Err(why) => return Err(why),
    };
    let off = key.region as u64 * dev.settings.region as u64 + e.off as u64;
    let made = store_bytes(dev, key.inode, off, bytes.as_slice());
    made
}

/// An entry of a region, with a slice of its own where its slice is sparse.
fn restore_one<S: SliceStore>(
    alloc: Global,
    dev: &mut Dev<'_, S>,
    key: RegionKey,
    e: Entry,
) -> Result<Entry, Fault>
    requires sound { IsSoundDev S.kind dev.old }
    requires inside { EntryBytes (inside_left S.kind dev.old) e }
    requires region { key.region < MAX_REGIONS }
    requires within { e.off + e.len ≤ dev.old.settings.region }
    ensures restored { IfOk result (IsRestored S.kind dev.old dev.new key e) }
    ensures fault { IfErr result (IsRestoreFault S.kind dev.old dev.new (e ∷ [])) }
    ensures stores { OnlyStored S.kind (between dev.old dev.new) }
    ensures dev { GoesOn S.kind dev.old dev.new [] }
{
    if !is_sparse_part(dev.replicas, dev.settings.replicas, &e.part) {
        return Ok(e);
    }
    match stored(alloc, dev, key, e) {
        Ok(slice) => Ok(Entry::of(e.off, e.len, Part::Held(slice))),
        Err(why) => Err(why),
    }
}

/// A list of which no slice is sparse, and how many of its bytes were stored anew.
#[derive(Drop)]
pub(crate) struct Restored {
    pub(crate) list: Overlay,
    pub(crate) bytes: u64,
}

/// The list with each entry restored.
pub(crate) fn restore<S: SliceStore>(
    alloc: Global,
    dev: &mut Dev<'_, S>,
    key: RegionKey,
    list: &Overlay,
) -> Result<Restored, Fault>
    requires sound { IsSoundDev S.kind dev.old }
    requires inside { All (EntryBytes (inside_left S.kind dev.old)) list.now }
    requires region { key.region < MAX_REGIONS }
    requires within { Within dev.old.settings.region list.now }
    requires few { length list.now < 2 ^ 31 }
    ensures restored { IfOk result (λ made.
        AreRestored S.kind dev.old dev.new key list.now made.list made.bytes) }
    ensures grew { IfOk result (λ made. Grew S.kind dev.old dev.new made.bytes) }
    ensures fault { IfErr result (IsRestoreFault S.kind dev.old dev.new list.now) }
    ensures stores { OnlyStored S.kind (between dev.old dev.new) }
    ensures dev { GoesOn S.kind dev.old dev.new [] }
{
    let mut made = match empty(alloc) {
        Ok(made) => made,
        Err(why) => return Err(why),
    };
    let mut bytes = 0u64;
    for i in 0..list.len() {
        let more = match add(alloc, dev, key, list.get(i), &mut made) {
            Ok(more) => more,
            Err(why) => return Err(why),
        };
        bytes += more as u64;
    }
    Ok(Restored { list: made, bytes })
}

/// A list with no entry.
fn empty(alloc: Global) -> Result<Overlay, Fault>
    ensures list { IfOk result (λ list. list ≡ []) }
    ensures fault { IfErr result (λ why. why ≡ Fault.Memory) }
{
    match Overlay::new(alloc) {
        Ok(list) => Ok(list),
        Err(_) => Err(Fault::Memory),
    }
}

/// How many bytes of an entry are stored anew: all of a sparse one.
fn anew(sparse: bool, e: Entry) -> u32
    ensures { result ≡ (if sparse then e.len else 0) }
{
    if sparse { e.len } else { 0 }
}

/// Lays an entry over a list, restored, and answers how many bytes of it were stored anew.
fn add<S: SliceStore>(
    alloc: Global,
    dev: &mut Dev<'_, S>,
    key: RegionKey,
    e: Entry,
    list: &mut Overlay,
) -> Result<u32, Fault>
    requires sound { IsSoundDev S.kind dev.old }
    requires inside { EntryBytes (inside_left S.kind dev.old) e }
    requires region { key.region < MAX_REGIONS }
    requires within { e.off + e.len ≤ dev.old.settings.region }
    ensures added { OnOk result ((made : entry_type.Entry) ×
        IsRestored S.kind dev.old dev.new key e made × (list.new ≡ list.old ++ made ∷ [])) }
    ensures bytes { IfOk result (λ n.
        n ≡ sparse_bytes (is_down_in dev.old) dev.old.settings.replicas (e ∷ [])) }
    ensures fault { IfErr result (IsRestoreFault S.kind dev.old dev.new (e ∷ [])) }
    ensures stores { OnlyStored S.kind (between dev.old dev.new) }
    ensures dev { GoesOn S.kind dev.old dev.new [] }
{
    let more = anew(
        is_sparse_part(dev.replicas, dev.settings.replicas, &e.part),
        e,
    );
    let made = match restore_one(alloc, dev, key, e) {
        Ok(made) => made,
        Err(why) => return Err(why),
    };
    match list.push(made) {
        Ok(()) => Ok(more),
        Err(_) => Err(Fault::Memory),
    }
}
