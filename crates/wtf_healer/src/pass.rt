//! A pass over all regions of a store that was loaded, and how its outcome is kept.

ghost use Rattle.std.specs.Prelude.{◌≡◌, ◌<◌, ◌≤◌, ◌^◌, ◌⊎◌, ◌∷◌, [], true, false, Some, length, IfOk, IfErr, OnOk};
ghost use Rattle.wtf_dev.specs.Each.{EachFollows};
ghost use Rattle.wtf_image.specs.Kept.{IsKept};
ghost use Rattle.wtf_image.specs.Savable.{IsSavable};
ghost use Rattle.wtf_image.specs.Saving.{IsSaveOf};
ghost use Rattle.wtf_image.specs.Tables.{shown};
ghost use Rattle.wtf_meta.specs.Maps.{metadata_at};
ghost use Rattle.wtf_replica.specs.Downs.{settings_of, during};
ghost use Rattle.wtf_replica.specs.Outs.{IsLeftDown, SameFrom, SameLengths};
ghost use Rattle.wtf_healer.specs.Ends.{run_span, OnlyHealed, WasMade, IsMakeStop, WasKept, IsPassStop};
ghost use Rattle.wtf_healer.specs.Lines.{done_lines};
ghost use Rattle.wtf_healer.specs.Progress.{TellsProgress};
ghost use Rattle.wtf_healer.specs.Regions.{AreHealed, IsHealFault};
ghost use Rattle.wtf_healer.specs.Steps.{IsPutIn, AreUpSynced, IsKeepFault, CanHealOver, Passed};

use crate::ends::Stop;
use crate::lines::done;
use crate::regions::{Healed, heal_all};
use std::alloc::Global;
use wtf_base::{Fault, OutOfMemory};
use wtf_dev::{Keeper, Shelf, Sink, SliceStore};
use wtf_image::{Loaded, save};
use wtf_kv::{Changes, Kv, NotReady};
use wtf_region::{Dev, RegionCache};
use wtf_replica::Replicas;
use wtf_ring::Ring;
use wtf_values::{Key, Value};

/// Installs what is put in the place of regions, all of it at once; nothing where there is none.
fn install(kv: &mut Kv<Key, Value>, changes: &Changes<Key, Value>) -> Result<(), OutOfMemory>
    requires { kv.old.number < 2 ^ 63 }
    ensures { OnOk result (IsPutIn changes.now kv.old kv.new) }
{
    if changes.is_empty() {
        return Ok(());
    }
    let ready = match kv.reserve_install(changes) {
        Ok(ready) => ready,
        Err(NotReady::Memory) => return Err(OutOfMemory),
        Err(NotReady::Unfit(_key)) => return Err(OutOfMemory),
    };
    kv.install(ready);
    Ok(())
}

/// What is kept of a pass: the image, and the lines.
#[derive(Drop)]
struct Kept {
    image: Vec<u8>,
    lines: Vec<u8>,
}

/// What is kept, all of whose memory is had now.
fn kept_of(alloc: Global, loaded: &mut Loaded, healed: Healed) -> Result<Kept, OutOfMemory>
    requires { loaded.old.kv.number < 2 ^ 63 }
    ensures put { OnOk result (IsPutIn healed.changes loaded.old.kv loaded.new.kv) }
    ensures settings { loaded.new.settings ≡ loaded.old.settings }
    ensures next_tx { loaded.new.next_tx ≡ loaded.old.next_tx }
    ensures image { IfOk result (λ k. IsSaveOf loaded.new.kv loaded.new.settings
        loaded.new.next_tx k.image.items) }
    ensures kept { IfOk result (λ k. loaded.new.kv.number ≤ 2 ^ 62 →
        loaded.new.next_tx ≤ 2 ^ 62 →
        IsSavable loaded.new.settings.region loaded.new.next_tx (shown loaded.new.kv) →
        IsKept loaded.new.kv loaded.new.settings loaded.new.next_tx k.image.items) }
    ensures lines { IfOk result (λ k. k.lines.items ≡
        done_lines (length healed.changes) healed.bytes) }
{
    match install(&mut loaded.kv, &healed.changes) {
        Ok(()) => {}
        Err(why) => return Err(why),
    }
    let image = match save(alloc, &loaded.kv, loaded.settings, loaded.next_tx) {
        Ok(image) => image,
        Err(why) => return Err(why),
    };
    let lines = match done(alloc, healed.changes.len() as u64, healed.bytes) {
        Ok(lines) => lines,
        Err(why) => return Err(why),
    };
    Ok(Kept { image, lines })
}

/// Brings the stores that are left to where they last, and hands the image to the keeper. False where one of them failed.
fn keep<S: SliceStore, K: Keeper>(
    replicas: &Replicas,
    shelf: &mut Shelf<S>,
    keeper: &mut K,
    image: &[u8],
) -> bool
    requires { (settings_of replicas.now).servers ≤ length shelf.old }
    ensures synced { result ≡ true → AreUpSynced S.kind replicas.now shelf.old shelf.new }
    ensures handed { result ≡ true → K.follows keeper.old keeper.new (image.now ∷ []) }
    ensures held { result ≡ true → (K.view keeper.old).tells ≡ true →
        (K.view keeper.new).held ≡ Some image.now }
    ensures cause { result ≡ false →
        IsKeepFault S.kind K.view K.follows replicas.now image.now (shelf.old, keeper.old)
        (shelf.new, keeper.new) }
    ensures down { IsLeftDown (during replicas.now shelf.old shelf.new) }
    ensures past { SameFrom (settings_of replicas.now).servers shelf.old shelf.new }
    ensures lengths { SameLengths S.kind shelf.old shelf.new }
    ensures follows { EachFollows S.kind shelf.old shelf.new [] }
{
    match replicas.sync_up(shelf) {
        Ok(()) => {}
        Err(_) => return false,
    }
    match keeper.replace(image) {
        Ok(()) => true,
        Err(_) => false,
    }
}

/// Heals all regions of what was loaded, with a ring of its servers and a cache of nothing.
fn heal_over<P: Sink, S: SliceStore>(
    alloc: Global,
    replicas: &Replicas,
    ring: &Ring,
    cache: &mut RegionCache,
    loaded: &Loaded,
    shelf: &mut Shelf<S>,
    progress: &mut P,
) -> Result<Healed, Fault>
    requires settings { settings_of replicas.now ≡ loaded.now.settings }
    requires ring { ring.now.servers ≡ loaded.now.settings.servers }
    requires places { cache.old.places ≡ [] }
    requires lists { cache.old.lists ≡ [] }
    requires shelf { loaded.now.settings.servers ≤ length shelf.old }
    requires can { CanHealOver S.kind shelf.old replicas.now loaded.now.settings
        (metadata_at loaded.now.kv loaded.now.kv.number) }
    ensures progress { TellsProgress (P.view progress.old) (P.view progress.new) }
    ensures healed { IfOk result (λ healed. Passed S.kind replicas.now loaded.now.settings
        shelf.old shelf.new (λ before after. AreHealed S.kind before after
        (metadata_at loaded.now.kv loaded.now.kv.number) healed)) }
    ensures fault { IfErr result (λ why. Passed S.kind replicas.now loaded.now.settings
        shelf.old shelf.new (λ before after. IsHealFault S.kind before after
        (metadata_at loaded.now.kv loaded.now.kv.number) why)) }
{
    let mut dev = Dev {
        shelf,
        replicas,
        ring,
        cache,
        settings: loaded.settings,
    };
    match heal_all(alloc, &mut dev, &loaded.kv, progress) {
        Ok(healed) => return Ok(healed),
        Err(why) => return Err(why),
    }
}

/// Heals all regions of what was loaded.
fn heal_loaded<P: Sink, S: SliceStore>(
    alloc: Global,
    replicas: &Replicas,
    loaded: &Loaded,
    shelf: &mut Shelf<S>,
    progress: &mut P,
) -> Result<Healed, Fault>
    requires settings { settings_of replicas.now ≡ loaded.now.settings }
    requires some { 1 ≤ loaded.now.settings.servers }
    requires few { loaded.now.settings.servers ≤ 16 }
    requires shelf { loaded.now.settings.servers ≤ length shelf.old }
    requires can { CanHealOver S.kind shelf.old replicas.now loaded.now.settings
        (metadata_at loaded.now.kv loaded.now.kv.number) }
    ensures progress { TellsProgress (P.view progress.old) (P.view progress.new) }
    ensures healed { IfOk result (λ healed. Passed S.kind replicas.now loaded.now.settings
        shelf.old shelf.new (λ before after. AreHealed S.kind before after
        (metadata_at loaded.now.kv loaded.now.kv.number) healed)) }
    ensures fault { IfErr result (λ why. ((why ≡ Fault.Memory) × (shelf.new ≡ shelf.old)) ⊎
        Passed S.kind replicas.now loaded.now.settings shelf.old shelf.new
        (λ before after. IsHealFault S.kind before after
        (metadata_at loaded.now.kv loaded.now.kv.number) why)) }
{
    let Ok(ring) = Ring::new(alloc, loaded.settings.servers) else {
        return Err(Fault::Memory);
    };
    let Ok(mut cache) = RegionCache::new(alloc) else {
        return Err(Fault::Memory);
    };
    match heal_over(alloc, replicas, &ring, &mut cache, loaded, shelf, progress) {
        Ok(healed) => return Ok(healed),
        Err(why) => return Err(why),
    }
}

/// Heals what was loaded. The answer is what is to be kept.
fn made_of<P: Sink, S: SliceStore>(
    alloc: Global,
    replicas: &Replicas,
    loaded: &mut Loaded,
    shelf: &mut Shelf<S>,
    progress: &mut P,
) -> Result<Kept, Stop>
    requires settings { settings_of replicas.now ≡ loaded.old.settings }
    requires some { 1 ≤ loaded.old.settings.servers }
    requires few { loaded.old.settings.servers ≤ 16 }
    requires shelf { loaded.old.settings.servers ≤ length shelf.old }
    requires room { loaded.old.kv.number < 2 ^ 63 }
    requires can { CanHealOver S.kind shelf.old replicas.now loaded.old.settings
        (metadata_at loaded.old.kv loaded.old.kv.number) }
    ensures made { IfOk result (λ kept. WasMade S.kind replicas.now loaded.old shelf.old shelf.new
        kept.image.items kept.lines.items) }
    ensures stopped { IfErr result (IsMakeStop S.kind replicas.now loaded.old shelf.old shelf.new) }
    ensures only { OnlyHealed S.kind replicas.now shelf.old shelf.new }
    ensures progress { TellsProgress (P.view progress.old) (P.view progress.new) }
{
    let healed = match heal_loaded(alloc, replicas, &*loaded, shelf, progress) {
        Ok(healed) => healed,
        Err(why) => return Err(Stop::unhealed(why)),
    };
    match kept_of(alloc, loaded, healed) {
        Ok(kept) => return Ok(kept),
        Err(_) => return Err(Stop::Memory),
    }
}

/// Heals what was loaded and keeps the image of that. The answer is the lines that say how much it was.
pub(crate) fn run_on<P: Sink, S: SliceStore, K: Keeper>(
    alloc: Global,
    replicas: &Replicas,
    loaded: &mut Loaded,
    shelf: &mut Shelf<S>,
    keeper: &mut K,
    progress: &mut P,
) -> Result<Vec<u8>, Stop>
    requires settings { settings_of replicas.now ≡ loaded.old.settings }
    requires some { 1 ≤ loaded.old.settings.servers }
    requires few { loaded.old.settings.servers ≤ 16 }
    requires shelf { loaded.old.settings.servers ≤ length shelf.old }
    requires room { loaded.old.kv.number < 2 ^ 63 }
    requires can { CanHealOver S.kind shelf.old replicas.now loaded.old.settings
        (metadata_at loaded.old.kv loaded.old.kv.number) }
    ensures kept { IfOk result (λ lines. WasKept S.kind replicas.now loaded.old
        (run_span K.view K.follows (shelf.old, keeper.old) (shelf.new, keeper.new)) lines.items) }
    ensures stopped { IfErr result (IsPassStop S.kind replicas.now loaded.old
        (run_span K.view K.follows (shelf.old, keeper.old) (shelf.new, keeper.new))) }
    ensures only { OnlyHealed S.kind replicas.now shelf.old shelf.new }
    ensures progress { TellsProgress (P.view progress.old) (P.view progress.new) }
{
    let kept = match made_of(alloc, replicas, loaded, shelf, progress) {
        Ok(kept) => kept,
        Err(why) => return Err(why),
    };
    if !keep(replicas, shelf, keeper, kept.image.as_slice()) {
        return Err(Stop::Save);
    }
    Ok(kept.lines)
}
