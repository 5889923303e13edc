//! The regions of a store are healed, one after another.

ghost use Rattle.std.specs.Prelude.{◌≡◌, ◌+◌, ◌*◌, ◌<◌, ◌≤◌, ◌^◌, ◌++◌, ◌∷◌, ℕ, [], Some, length, IfOk, IfErr, OnOk, OnErr};
ghost use Rattle.wtf_kv.specs.Stores.{is_live};
ghost use Rattle.wtf_overlay.specs.Clips.{Within};
ghost use Rattle.wtf_model.specs.declared.limits.TheConstants.{MAX_REGIONS};
ghost use Rattle.wtf_meta.specs.Bytes.{RegionBytes, any_slice};
ghost use Rattle.wtf_meta.specs.Maps.{metadata_at};
ghost use Rattle.wtf_region.specs.Devs.{IsSoundDev, GoesOn, between};
ghost use Rattle.wtf_healer.specs.Bases.{inside_left};
ghost use Rattle.wtf_healer.specs.Progress.{IsProgress, TellsProgress};
ghost use Rattle.wtf_healer.specs.Restored.{Grew, OnlyStored};
ghost use Rattle.wtf_healer.specs.Regions.{Put, change_of, IsPutOf, bytes_restored, list_over, IsCompacted, IsHealedOr, IsRegionFault, CanHeal, IsHealedAt, IsFaultAt, AreHealed, IsHealFault};
ghost use Rattle.std.specs.Option.{option_copied};
ghost use Rattle.wtf_meta.specs.FileEdits.{region_of};

use crate::base::base_list;
use crate::entries::{Restored, restore};
use crate::lines::{done, write_all};
use crate::sparse::is_to_heal;
use std::alloc::Global;
use wtf_base::Fault;
use wtf_dev::{Sink, SliceStore};
use wtf_kv::{Changes, Kv};
use wtf_overlay::Overlay;
use wtf_region::{Dev, RegionKey};
use wtf_values::{Delta, Key, RegionValue, Spill, Value};

/// How many regions are healed from one word of progress to the next.
const REGIONS_TOLD: usize = 256;

/// What is put in the place of regions, and how many of their bytes were stored anew.
#[derive(Drop)]
pub(crate) struct Healed {
    /// One change for each region.
    pub(crate) changes: Changes<Key, Value>,
    pub(crate) bytes: u64,
}

/// What a region shows of the list under it and of its own entries, as a compact list.
fn short_list(under: &Overlay, value: &RegionValue) -> Result<Overlay, Fault>
    ensures short { IfOk result (IsCompacted value.now under.now) }
    ensures fault { IfErr result (λ why. why ≡ Fault.Memory) }
{
    let whole = match whole_list(under, value.base, &value.list) {
        Ok(whole) => whole,
        Err(why) => return Err(why),
    };
    match whole.compact() {
        Ok(list) => Ok(list),
        Err(_) => Err(Fault::Memory),
    }
}

/// The entries of a region over what is seen of the list of its base.
fn whole_list(under: &Overlay, base: Option<Spill>, list: &Overlay) -> Result<Overlay, Fault>
    ensures list { IfOk result (λ whole. whole ≡ list_over base under.now list.now) }
    ensures fault { IfErr result (λ why. why ≡ Fault.Memory) }
{
    let Some(spill) = base else {
        match list.share() {
            Ok(whole) => return Ok(whole),
            Err(_) => return Err(Fault::Memory),
        }
    };
    match Overlay::over(under, spill.visible, list) {
        Ok(whole) => Ok(whole),
        Err(_) => Err(Fault::Memory),
    }
}

/// The list of a region without a base of which no slice is sparse; `None` where nothing of the region is.
fn healed_list<S: SliceStore>(
    alloc: Global,
    dev: &mut Dev<'_, S>,
    key: RegionKey,
    value: &RegionValue,
) -> Result<Option<Restored>, Fault>
    requires sound { IsSoundDev S.kind dev.old }
    requires inside { RegionBytes (inside_left S.kind dev.old) any_slice value.now }
    requires region { key.region < MAX_REGIONS }
    requires size { value.now.end ≤ dev.old.settings.region }
    ensures healed { IfOk result (IsHealedOr S.kind dev.old dev.new key value.now) }
    ensures grew { IfOk result (λ made. Grew S.kind dev.old dev.new (bytes_restored made)) }
    ensures fault { IfErr result (IsRegionFault S.kind dev.old dev.new value.now) }
    ensures stores { OnlyStored S.kind (between dev.old dev.new) }
    ensures dev { GoesOn S.kind dev.old dev.new [] }
{
    let under = match base_list(alloc, dev, value.base) {
        Ok(under) => under,
        Err(why) => return Err(why),
    };
    if !is_to_heal(dev.replicas, dev.settings.replicas, value, &under) {
        return Ok(None);
    }
    let list = match short_list(&under, value) {
        Ok(list) => list,
        Err(why) => return Err(why),
    };
    match restore(alloc, dev, key, &list) {
        Ok(made) => Ok(Some(made)),
        Err(why) => Err(why),
    }
}

impl Healed {
    /// No region.
    fn none(alloc: Global) -> Healed
        ensures changes { result.changes ≡ [] }
        ensures bytes { result.bytes ≡ 0 }
    {
        Healed {
            changes: Changes::new(alloc),
            bytes: 0,
        }
    }

    /// Adds a region that ends at `end`, with the list that is put in its place.
    fn add(&mut self, key: RegionKey, end: u32, made: Restored) -> Result<(), Fault>
        requires { Within end made.list }
        ensures put { OnOk result ((p : Put) × IsPutOf key end made p ×
            (self.new.changes ≡ self.old.changes ++ change_of p ∷ [])) }
        ensures bytes { OnOk result (self.new.bytes ≡ self.old.bytes + made.bytes) }
        ensures fault { IfErr result (λ why. why ≡ Fault.Memory) }
    {
        let Some(bytes) = self.bytes.checked_add(made.bytes) else {
            return Err(Fault::Memory);
        };
        let value = RegionValue::of_list(made.list, end);
        let key = Key::Region(key.inode, key.region);
        match self.changes.delta(key, Delta::Put(Value::Region(value))) {
            Ok(()) => {}
            Err(_) => return Err(Fault::Memory),
        }
        self.bytes = bytes;
        Ok(())
    }
}

/// The region that a value is, if it is one.
fn region_in(value: Option<&Value>) -> Option<&RegionValue>
    ensures { option_copied result ≡ region_of (option_copied value.entry) }
{
    let Some(Value::Region(v)) = value else {
        return None;
    };
    Some(v)
}

/// Writes the two lines of a pass for what is healed so far, each time another 256 regions are. Where that fails no more is said of it.
fn tell_progress<P: Sink>(alloc: Global, progress: &mut P, healed: &Healed)
    ensures { (n : ℕ) → n < length healed.now.changes →
        IsProgress n (length healed.now.changes) (P.view progress.old) (P.view progress.new) }
{
    if healed.changes.len() % REGIONS_TOLD != 0 {
        return;
    }
    let Ok(lines) = done(alloc, healed.changes.len() as u64, healed.bytes) else {
        return;
    };
    let Ok(()) = write_all(progress, lines.as_slice()) else {
        return;
    };
    // what the sink holds back is to be seen now
    let _shown = progress.write(&[]);
}

/// Heals the region at a key, if there is one and it is to be healed.
fn heal_at<P: Sink, S: SliceStore>(
    alloc: Global,
    dev: &mut Dev<'_, S>,
    kv: &Kv<Key, Value>,
    key: &Key,
    healed: &mut Healed,
    progress: &mut P,
) -> Result<(), Fault>
    requires sound { IsSoundDev S.kind dev.old }
    requires can { CanHeal S.kind dev.old (metadata_at kv.now kv.now.number) }
    ensures at { OnOk result (IsHealedAt S.kind (dev.old, dev.new)
        (metadata_at kv.now kv.now.number) key.now healed.old healed.new) }
    ensures progress { OnOk result (IsProgress (length healed.old.changes)
        (length healed.new.changes) (P.view progress.old) (P.view progress.new)) }
    ensures silent { OnErr result (progress.new ≡ progress.old) }
    ensures fault { IfErr result (IsFaultAt S.kind (dev.old, dev.new)
        (metadata_at kv.now kv.now.number) key.now) }
    ensures stores { OnlyStored S.kind (between dev.old dev.new) }
    ensures dev { GoesOn S.kind dev.old dev.new [] }
{
    let Key::Region(inode, region) = key else {
        return Ok(());
    };
    let Some(value) = region_in(kv.read_at(kv.number(), key)) else {
        return Ok(());
    };
    let at = RegionKey {
        inode: *inode,
        region: *region,
    };
    let made = match healed_list(alloc, dev, at, value) {
        Ok(made) => made,
        Err(why) => return Err(why),
    };
    let Some(made) = made else {
        return Ok(());
    };
    match healed.add(at, value.end, made) {
        Ok(()) => {}
        Err(why) => return Err(why),
    }
    tell_progress(alloc, progress, healed);
    Ok(())
}

/// Heals all regions, in the order of their files and then of their numbers. The first fault ends it.
pub(crate) fn heal_all<P: Sink, S: SliceStore>(
    alloc: Global,
    dev: &mut Dev<'_, S>,
    kv: &Kv<Key, Value>,
    progress: &mut P,
) -> Result<Healed, Fault>
    requires sound { IsSoundDev S.kind dev.old }
    requires can { CanHeal S.kind dev.old (metadata_at kv.now kv.now.number) }
    ensures healed { IfOk result
        (AreHealed S.kind dev.old dev.new (metadata_at kv.now kv.now.number)) }
    ensures progress { TellsProgress (P.view progress.old) (P.view progress.new) }
    ensures fault { IfErr result
        (IsHealFault S.kind dev.old dev.new (metadata_at kv.now kv.now.number)) }
    ensures stores { OnlyStored S.kind (between dev.old dev.new) }
    ensures dev { GoesOn S.kind dev.old dev.new [] }
{
    let mut healed = Healed::none(alloc);
    let mut at = kv.next_key(None);
    while let Some(key) = at {
        match heal_at(alloc, dev, kv, key, &mut healed, progress) {
            Ok(()) => {}
            Err(why) => return Err(why),
        }
        at = kv.next_key(Some(key));
    }
    Ok(healed)
}
