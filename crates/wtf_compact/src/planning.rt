//! Planning a job.

ghost use Rattle.std.specs.Prelude.{◌≡◌, ◌≤◌, ◌<◌, ◌++◌, ◌∷◌, ℕ, List, [], Some, IfOk, IfErr, OnOk, OnErr, IsTrue};
ghost use Rattle.std.specs.Option.{option_copied};
ghost use Rattle.wtf_base.specs.declared.ids.InodeId as inode_id;
ghost use Rattle.wtf_dev.specs.Store.{Range};
ghost use Rattle.wtf_kv.specs.Stores.{is_live, IsPinnedOnceMore};
ghost use Rattle.wtf_model.specs.declared.limits.TheConstants.{MAX_REGIONS};
ghost use Rattle.wtf_meta.specs.Maps.{metadata_at};
ghost use Rattle.wtf_meta.specs.Files.{end_of};
ghost use Rattle.wtf_meta.specs.FileEdits.{region_of};
ghost use Rattle.wtf_meta.specs.Bytes.{MaybeBytes, RegionBytes, any_slice};
ghost use Rattle.wtf_meta.specs.Trees.{LeadsTo};
ghost use Rattle.wtf_region.specs.Devs.{IsSoundDev, GoesOn, stores, told_in, inside_of};
ghost use Rattle.wtf_region.specs.Inside.{IsStoredInside};
ghost use Rattle.wtf_compact.specs.Jobs.{HasRegion, IsFileAt, IsJobOf, job_target, region_in_map, target_region};
ghost use Rattle.wtf_compact.specs.Planned.{IsPlanned, IsPlanFault, KeepsRegion, RemembersItsBase, SparesStores, TellsRegion, spills};

use crate::spilling::{short_list, store_list};
use crate::{Job, Target};
use std::alloc::Global;
use wtf_base::{Fault, InodeId};
use wtf_dev::SliceStore;
use wtf_kv::Kv;
use wtf_meta::{Key, Node, RegionValue, Value};
use wtf_model::JobKind;
use wtf_path::Path;
use wtf_region::Dev;

/// The file to which a path leads now.
fn file_at(alloc: Global, kv: &Kv<Key, Value>, p: &Path) -> Result<InodeId, Fault>
    requires { IsFileAt (metadata_at kv.now kv.now.number) p.now }
    ensures leads { IfOk result (LeadsTo (metadata_at kv.now kv.now.number) p.now) }
    ensures fault { IfErr result (λ why. why ≡ Fault.Memory) }
{
    let path = match p.copy(alloc) {
        Ok(path) => path,
        Err(_) => return Err(Fault::Memory),
    };
    let key = Key::Path(path);
    match kv.read_at(kv.number(), &key) {
        Some(Value::Node(Node::File(inode))) => return Ok(*inode),
        _ => unreachable!(),
    }
}

/// The region that a value is, if it is one.
fn region_in(value: Option<&Value>) -> Option<&RegionValue>
    ensures { option_copied result ≡ region_of (option_copied value.entry) }
{
    let Some(Value::Region(v)) = value else {
        return None;
    };
    Some(v)
}

/// Whether a job of a region that ends there stores its list.
fn spills(kind: JobKind, end: u32) -> bool
    ensures { result ≡ spills kind end }
{
    match kind {
        JobKind::Compact => false,
        JobKind::Spill => end > 0,
    }
}

/// What is put in the place of a region that has a value. After the list was read, a spill stores the compact
/// one, of a region that has bytes.
fn planned_value<S: SliceStore>(
    alloc: Global,
    dev: &mut Dev<'_, S>,
    target: Target,
    value: &RegionValue,
) -> Result<RegionValue, Fault>
    requires sound { IsSoundDev S.kind dev.old }
    requires inside { RegionBytes (inside_of S.kind dev.old) any_slice value.now }
    requires cap { target.region < MAX_REGIONS }
    requires size { value.now.end ≤ dev.old.settings.region }
    ensures planned { IfOk result (λ x.
        IsPlanned S.kind dev.old dev.new target (Some value.now) (Some x)) }
    ensures inside { IfOk result (RegionBytes (inside_of S.kind dev.new) any_slice) }
    ensures fault { IfErr result
        (IsPlanFault S.kind dev.old dev.new target (Some value.now)) }
    ensures only { RemembersItsBase dev.old dev.new (Some value.now) }
    ensures spares { SparesStores S.kind dev.old dev.new target (Some value.now) }
    ensures dev { GoesOn S.kind dev.old dev.new [] }
{
    let list = match short_list(alloc, dev, value) {
        Ok(list) => list,
        Err(why) => return Err(why),
    };
    if !spills(target.kind, value.end) {
        return Ok(RegionValue::of_list(list, value.end));
    }
    let slice = match store_list(alloc, dev, target, &list) {
        Ok(slice) => slice,
        Err(why) => return Err(why),
    };
    match RegionValue::of_slice(alloc, slice, value.end) {
        Ok(planned) => Ok(planned),
        Err(_) => Err(Fault::Memory),
    }
}

/// What is put in the place of a region, as it stands now. Of one without a value that is nothing.
fn planned<S: SliceStore>(
    alloc: Global,
    dev: &mut Dev<'_, S>,
    kv: &Kv<Key, Value>,
    target: Target,
) -> Result<Option<RegionValue>, Fault>
    requires sound { IsSoundDev S.kind dev.old }
    requires inside { MaybeBytes (inside_of S.kind dev.old) any_slice
        (target_region (metadata_at kv.now kv.now.number) target) }
    requires cap { target.region < MAX_REGIONS }
    requires size { end_of (target_region (metadata_at kv.now kv.now.number) target) ≤
        dev.old.settings.region }
    ensures planned { IfOk result (IsPlanned S.kind dev.old dev.new target
        (target_region (metadata_at kv.now kv.now.number) target)) }
    ensures inside { IfOk result (MaybeBytes (inside_of S.kind dev.new) any_slice) }
    ensures fault { IfErr result (IsPlanFault S.kind dev.old dev.new target
        (target_region (metadata_at kv.now kv.now.number) target)) }
    ensures only { RemembersItsBase dev.old dev.new
        (target_region (metadata_at kv.now kv.now.number) target) }
    ensures spares { SparesStores S.kind dev.old dev.new target
        (target_region (metadata_at kv.now kv.now.number) target) }
    ensures dev { GoesOn S.kind dev.old dev.new [] }
{
    let key = Key::Region(target.inode, target.region);
    let Some(value) = region_in(kv.read_at(kv.number(), &key)) else {
        return Ok(None);
    };
    match planned_value(alloc, dev, target, value) {
        Ok(planned) => Ok(Some(planned)),
        Err(why) => Err(why),
    }
}

/// The job, whose base is not pinned yet.
fn made<S: SliceStore>(
    alloc: Global,
    dev: &mut Dev<'_, S>,
    kv: &Kv<Key, Value>,
    p: &Path,
    region: u16,
    kind: JobKind,
) -> Result<Job, Fault>
    requires sound { IsSoundDev S.kind dev.old }
    requires inside { IsStoredInside S.kind (stores dev.old) dev.old.settings
        (metadata_at kv.now kv.now.number) }
    requires there { HasRegion dev.old.settings.region
        (metadata_at kv.now kv.now.number) p.now region }
    ensures job { IfOk result
        (IsJobOf (metadata_at kv.now kv.now.number) p.now region kind) }
    ensures base { IfOk result (λ job. job.base ≡ kv.now.number) }
    ensures planned { IfOk result (λ job. IsPlanned S.kind dev.old dev.new job.target
        (target_region (metadata_at kv.now kv.now.number) job.target) job.value) }
    ensures inside { IfOk result (λ job. MaybeBytes (inside_of S.kind dev.new) any_slice job.value) }
    ensures fault { IfErr result (λ why. (i : inode_id.InodeId) →
        LeadsTo (metadata_at kv.now kv.now.number) p.now i →
        IsPlanFault S.kind dev.old dev.new (job_target i region kind)
        (region_in_map (metadata_at kv.now kv.now.number) i region) why) }
    ensures only { (i : inode_id.InodeId) →
        LeadsTo (metadata_at kv.now kv.now.number) p.now i →
        RemembersItsBase dev.old dev.new
        (region_in_map (metadata_at kv.now kv.now.number) i region) }
    ensures spares { (i : inode_id.InodeId) →
        LeadsTo (metadata_at kv.now kv.now.number) p.now i →
        SparesStores S.kind dev.old dev.new (job_target i region kind)
        (region_in_map (metadata_at kv.now kv.now.number) i region) }
    ensures dev { GoesOn S.kind dev.old dev.new [] }
{
    let path = match p.copy(alloc) {
        Ok(path) => path,
        Err(_) => return Err(Fault::Memory),
    };
    let inode = match file_at(alloc, kv, p) {
        Ok(inode) => inode,
        Err(why) => return Err(why),
    };
    let target = Target {
        inode,
        region,
        kind,
    };
    match planned(alloc, dev, kv, target) {
        Ok(value) => Ok(Job::of(alloc, path, target, kv.number(), value)),
        Err(why) => Err(why),
    }
}

/// Pins the number of a job.
fn pin(kv: &mut Kv<Key, Value>, n: u64) -> Result<(), Fault>
    requires { IsTrue (is_live kv.old n) }
    ensures ok { OnOk result (kv.new ≡ record kv.old { pins = kv.old.pins ++ n ∷ [] }) }
    ensures once { OnOk result (IsPinnedOnceMore n kv.old kv.new) }
    ensures err { OnErr result (kv.new ≡ kv.old) }
    ensures fault { IfErr result (λ why. why ≡ Fault.Memory) }
{
    match kv.pin(n) {
        Ok(()) => Ok(()),
        Err(_) => Err(Fault::Memory),
    }
}

/// Plans a job of a region as it stands now, and pins the number. A compaction makes the region's list
/// compact: slices alone, sorted and disjoint, no two neighbours of which could be one; a spill of a region
/// that has bytes stores that list once, as a slice that is placed by the file and the region, and makes it
/// the region's base. No byte of the file moves. No list comes to be remembered but that of the base that the
/// region had, so what was spilled is read anew when it is asked for. The faults are those of the region's
/// list, and for a spill also `Write`. A fault leaves the store of versions as it was, and changes nothing but
/// what a slice leaves that was not stored, or for which memory was short.
pub fn plan<S: SliceStore>(
    alloc: Global,
    dev: &mut Dev<'_, S>,
    kv: &mut Kv<Key, Value>,
    p: &Path,
    region: u16,
    kind: JobKind,
) -> Result<Job, Fault>
    requires sound { IsSoundDev S.kind dev.old }
    requires inside { IsStoredInside S.kind (stores dev.old) dev.old.settings
        (metadata_at kv.old kv.old.number) }
    requires there { HasRegion dev.old.settings.region
        (metadata_at kv.old kv.old.number) p.now region }
    ensures job { IfOk result
        (IsJobOf (metadata_at kv.old kv.old.number) p.now region kind) }
    ensures base { IfOk result (λ job. job.base ≡ kv.old.number) }
    ensures planned { IfOk result (λ job. IsPlanned S.kind dev.old dev.new job.target
        (target_region (metadata_at kv.old kv.old.number) job.target) job.value) }
    ensures keeps { IfOk result (λ job. (ranges : List (ℕ × Range)) →
        TellsRegion S.kind dev.old ranges
        (target_region (metadata_at kv.old kv.old.number) job.target) →
        KeepsRegion dev.new.settings.region (told_in S.kind dev.new)
        (target_region (metadata_at kv.old kv.old.number) job.target) job.value) }
    ensures inside { IfOk result (λ job. MaybeBytes (inside_of S.kind dev.new) any_slice job.value) }
    ensures pin { OnOk result
        (kv.new ≡ record kv.old { pins = kv.old.pins ++ kv.old.number ∷ [] }) }
    ensures once { OnOk result (IsPinnedOnceMore kv.old.number kv.old kv.new) }
    ensures err { OnErr result (kv.new ≡ kv.old) }
    ensures fault { IfErr result (λ why. (i : inode_id.InodeId) →
        LeadsTo (metadata_at kv.old kv.old.number) p.now i →
        IsPlanFault S.kind dev.old dev.new (job_target i region kind)
        (region_in_map (metadata_at kv.old kv.old.number) i region) why) }
    ensures only { (i : inode_id.InodeId) →
        LeadsTo (metadata_at kv.old kv.old.number) p.now i →
        RemembersItsBase dev.old dev.new
        (region_in_map (metadata_at kv.old kv.old.number) i region) }
    ensures spares { (i : inode_id.InodeId) →
        LeadsTo (metadata_at kv.old kv.old.number) p.now i →
        SparesStores S.kind dev.old dev.new (job_target i region kind)
        (region_in_map (metadata_at kv.old kv.old.number) i region) }
    ensures dev { GoesOn S.kind dev.old dev.new [] }
{
    let job = match made(alloc, dev, &*kv, p, region, kind) {
        Ok(job) => job,
        Err(why) => return Err(why),
    };
    match pin(kv, job.base()) {
        Ok(()) => Ok(job),
        Err(why) => Err(why),
    }
}
