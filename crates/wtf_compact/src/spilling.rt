//! Short lists of regions, and those that are stored.

ghost use Rattle.std.specs.Prelude.{◌≡◌, ◌⊎◌, ◌*◌, ◌<◌, [], length, Some, IfOk, IfErr};
ghost use Rattle.wtf_dev.specs.Sums.{TellsAll};
ghost use Rattle.wtf_overlay.specs.Clips.{Within};
ghost use Rattle.wtf_overlay.specs.Compact.{IsCompact};
ghost use Rattle.wtf_overlay.specs.Spilled.{encoded};
ghost use Rattle.wtf_model.specs.declared.limits.TheConstants.{MAX_REGIONS};
ghost use Rattle.wtf_replica.specs.Copies.{IsStored, GrowsOnce};
ghost use Rattle.wtf_replica.specs.Faults.{IsWriteFault};
ghost use Rattle.wtf_replica.specs.Outs.{IsLeftDown, SameSyncs};
ghost use Rattle.wtf_ring.specs.Orders.{IsOrder};
ghost use Rattle.wtf_meta.specs.Bytes.{BaseBytes, SliceBytes, any_slice};
ghost use Rattle.wtf_meta.specs.Contents.{lists_in};
ghost use Rattle.wtf_region.specs.Cached.{RemembersOnly};
ghost use Rattle.wtf_region.specs.Devs.{IsSoundDev, GoesOn, stores, remembered, told_in, inside_of, between, place_in};
ghost use Rattle.wtf_region.specs.Bases.{base_slices};
ghost use Rattle.wtf_region.specs.Reads.{IsOfBase, IsBaseFault, LeavesLists};
ghost use Rattle.wtf_region.specs.Showing.{OnlyRead};
ghost use Rattle.wtf_compact.specs.Planned.{IsShortList};

use crate::Target;
use std::alloc::Global;
use wtf_base::{Fault, Slice};
use wtf_dev::SliceStore;
use wtf_meta::RegionValue;
use wtf_overlay::Overlay;
use wtf_region::{Dev, region_list, store_bytes};
use wtf_spillfmt::encode;

/// The compact list of a region. The list of its base is read where it has one.
pub(crate) fn short_list<S: SliceStore>(
    alloc: Global,
    dev: &mut Dev<'_, S>,
    value: &RegionValue,
) -> Result<Overlay, Fault>
    requires sound { IsSoundDev S.kind dev.old }
    requires inside { BaseBytes (inside_of S.kind dev.old) any_slice value.now.base }
    ensures list { IfOk result (IsShortList S.kind dev.old dev.new value.now) }
    ensures fault { IfErr result (IsBaseFault S.kind dev.old dev.new value.now.base) }
    ensures left { IfErr result (LeavesLists S.kind (base_slices value.now.base) dev.old dev.new) }
    ensures only { RemembersOnly (IsOfBase value.now.base) (remembered dev.old) (remembered dev.new) }
    ensures reads { OnlyRead S.kind (between dev.old dev.new) }
    ensures dev { GoesOn S.kind dev.old dev.new [] }
{
    let whole = match region_list(alloc, dev, value) {
        Ok(whole) => whole,
        Err(why) => return Err(why),
    };
    match whole.compact() {
        Ok(list) => Ok(list),
        Err(_) => Err(Fault::Memory),
    }
}

/// Stores the bytes of a compact list, at the place of the region that it is of.
pub(crate) fn store_list<S: SliceStore>(
    alloc: Global,
    dev: &mut Dev<'_, S>,
    target: Target,
    list: &Overlay,
) -> Result<Slice, Fault>
    requires sound { IsSoundDev S.kind dev.old }
    requires cap { target.region < MAX_REGIONS }
    requires compact { IsCompact list.now }
    requires within { Within dev.old.settings.region list.now }
    ensures stored { IfOk result (IsStored S.kind (between dev.old dev.new)
        dev.old.settings.replicas
        (place_in dev.old target.inode (target.region * dev.old.settings.region))
        (encoded list.now)) }
    ensures told { IfOk result (λ s. TellsAll S.kind (stores dev.old) →
        lists_in dev.new.settings.region (told_in S.kind dev.new) s ≡ Some list.now) }
    ensures inside { IfOk result (SliceBytes (inside_of S.kind dev.new)) }
    ensures fault { IfErr result (λ why. (why ≡ Fault.Memory) ⊎
        IsWriteFault S.kind (between dev.old dev.new) dev.old.settings why) }
    ensures down { IsLeftDown (between dev.old dev.new) }
    ensures grows { GrowsOnce S.kind (between dev.old dev.new)
        (place_in dev.old target.inode (target.region * dev.old.settings.region))
        (length (encoded list.now)) }
    ensures order { (stores dev.new ≡ stores dev.old) ⊎ IsOrder dev.old.settings.servers
        (place_in dev.old target.inode (target.region * dev.old.settings.region)).servers }
    ensures syncs { SameSyncs S.kind (stores dev.old) (stores dev.new) }
    ensures lists { remembered dev.new ≡ remembered dev.old }
    ensures dev { GoesOn S.kind dev.old dev.new [] }
{
    let bytes = match encode(alloc, list) {
        Ok(bytes) => bytes,
        Err(_) => return Err(Fault::Memory),
    };
    let off = target.region as u64 * dev.settings.region as u64;
    match store_bytes(dev, target.inode, off, bytes.as_slice()) {
        Ok(slice) => Ok(slice),
        Err(why) => Err(why),
    }
}
