//! Freeing extents, one after another.

ghost use Rattle.std.specs.Prelude.{◌≡◌, ◌≢◌, ℕ, true, [], ◌∷◌, slice_index_or, OnOk, OnErr, IfErr};
ghost use Rattle.std.specs.List.{All};
ghost use Rattle.wtf_replica.specs.Inside.{size_in};
ghost use Rattle.wtf_replica.specs.Faults.{IsPunchFault};
ghost use Rattle.wtf_replica.specs.Outs.{IsLeftDown, SameLengths, SameSyncs};
ghost use Rattle.wtf_region.specs.Devs.{IsSoundDev, GoesOn, between, stores, remembered, is_down_in};
ghost use Rattle.wtf_gc.specs.Frees.{AreZeroed, LiesOn, range_of, ranges_of, tried_on, StopsAt};

use crate::extent::Extent;
use wtf_base::Fault;
use wtf_dev::SliceStore;
use wtf_region::Dev;

/// Frees an extent.
fn free<S: SliceStore>(dev: &mut Dev<'_, S>, e: &Extent) -> Result<(), Fault>
    requires sound { IsSoundDev S.kind dev.old }
    requires inside { LiesOn (size_in S.kind (stores dev.old)) dev.old.settings.servers (range_of e.now) }
    ensures ok { OnOk result (GoesOn S.kind dev.old dev.new (range_of e.now ∷ [])) }
    ensures zeroed { OnOk result (AreZeroed S.kind dev.old dev.new (range_of e.now ∷ [])) }
    ensures fault { IfErr result (IsPunchFault S.kind (between dev.old dev.new) e.now.server) }
    ensures tried { OnErr result (GoesOn S.kind dev.old dev.new (tried_on dev.old (range_of e.now))) }
    ensures down { is_down_in dev.old e.now.server ≡ true → stores dev.new ≡ stores dev.old }
    ensures elsewhere { (j : ℕ) (d : S) → j ≢ e.now.server →
        slice_index_or (stores dev.new) j d ≡ slice_index_or (stores dev.old) j d }
    ensures lists { remembered dev.new ≡ remembered dev.old }
    ensures lengths { SameLengths S.kind (stores dev.old) (stores dev.new) }
    ensures syncs { SameSyncs S.kind (stores dev.old) (stores dev.new) }
{
    dev.replicas
        .free(dev.shelf, e.server, e.file, e.from, e.to - e.from)
}

/// Frees extents one after another, up to one where that fails; its index is answered then.
pub(crate) fn free_each<S: SliceStore>(
    dev: &mut Dev<'_, S>,
    extents: &[Extent],
) -> Result<(), Stopped>
    requires sound { IsSoundDev S.kind dev.old }
    requires inside { All (LiesOn (size_in S.kind (stores dev.old)) dev.old.settings.servers)
        (ranges_of extents.now) }
    ensures ok { OnOk result (GoesOn S.kind dev.old dev.new (ranges_of extents.now)) }
    ensures zeroed { OnOk result (AreZeroed S.kind dev.old dev.new (ranges_of extents.now)) }
    ensures err { IfErr result (λ s. StopsAt S.kind dev.old dev.new (ranges_of extents.now) s.done s.why) }
    ensures down { IsLeftDown (between dev.old dev.new) }
    ensures lists { remembered dev.new ≡ remembered dev.old }
    ensures lengths { SameLengths S.kind (stores dev.old) (stores dev.new) }
    ensures syncs { SameSyncs S.kind (stores dev.old) (stores dev.new) }
{
    let mut done = 0;
    while done < extents.len() {
        if let Err(why) = free(dev, &extents[done]) {
            return Err(Stopped { done, why });
        }
        done += 1;
    }
    Ok(())
}

/// So many extents were freed before one that was not.
#[derive(Debug, Drop)]
pub(crate) struct Stopped {
    pub(crate) done: usize,
    pub(crate) why: Fault,
}
