//! The healer's run over any sink, stores and keeper.

ghost use Rattle.std.specs.Prelude.{◌≡◌, ◌≢◌, ◌⊎◌, ◌↔◌, ◌++◌, ℕ, List, [], None, Some, length, map, string_bytes, IfOk, IfErr};
ghost use Rattle.wtf_base.specs.declared.fault.Fault as fault_type;
ghost use Rattle.wtf_dev.specs.Counts.{Rose};
ghost use Rattle.wtf_dev.specs.Each.{EachFollows};
ghost use Rattle.wtf_image.specs.Rules.{size_in};
ghost use Rattle.wtf_model.specs.Tree.{Tree};
ghost use Rattle.wtf_replica.specs.Bytes.{byte_at};
ghost use Rattle.wtf_healer.specs.Ends.{AreLostSame, GoesBy, HandsOne, run_span, sink_span, IsHealOver, IsLoadedFor, IsLoadStop, WasHealed, IsStop, HasHealed, IsEarly, IsEnd};
ghost use Rattle.wtf_healer.specs.Heals.{Heals};
ghost use Rattle.wtf_healer.specs.Lines.{done_lines, fault_line};
ghost use Rattle.wtf_healer.specs.Live.{IsLiveTree};
ghost use Rattle.wtf_healer.specs.Progress.{TellsProgress};
ghost use Rattle.wtf_healer.specs.Runs.{IsHealStatus, IsQuiet, IsUnkept, IsUntouched, WroteReport, AreRefused, IsRefusedImage, IsSaveFault, AreSynced, HasFault, HasNextNumber, AreTelling, NoFaultRose, IsLiveTreeIn};
ghost use Rattle.wtf_healer.specs.Spared.{IsLostOf};
ghost use Rattle.wtf_healer.specs.Words.{lost_in, is_server_in};
ghost use Rattle.wtf_healer.specs.declared.ends.Stop.TheVariants as stop;

use crate::ends::{Stop, tell};
use crate::lines::done;
use crate::lost::{Lost, replicas_without};
use crate::pass::run_on;
use crate::words::lost_by;
use std::alloc::Global;
use wtf_dev::{Keeper, LoadFault, Shelf, Sink, SliceStore};
use wtf_image::{Loaded, check, load_without};

/// Loads an image without the lost servers, of which the store has to be one that can do without them.
fn load_spared<S: SliceStore>(
    alloc: Global,
    lost: Lost,
    image: &[u8],
    shelf: &Shelf<S>,
) -> Result<Loaded, Stop>
    requires { (ks : List ℕ) × IsLostOf ks lost }
    ensures loaded { (ks : List ℕ) → IsLostOf ks lost →
        IfOk result (IsLoadedFor S.kind ks image.now shelf.now) }
    ensures stopped { (ks : List ℕ) → IsLostOf ks lost →
        IfErr result (IsLoadStop S.kind ks image.now shelf.now) }
{
    let settings = match check(alloc, image) {
        Ok(settings) => settings,
        Err(why) => return Err(Stop::refused(why)),
    };
    if !lost.are_spared(settings, shelf.len()) {
        return Err(Stop::Words);
    }
    match load_without(alloc, image, shelf, lost.mask) {
        Ok(loaded) => return Ok(loaded),
        Err(why) => return Err(Stop::refused(why)),
    }
}

/// Heals the store of an image. The answer is the lines that say how much it was.
fn run_of<P: Sink, S: SliceStore, K: Keeper>(
    alloc: Global,
    lost: Lost,
    image: &[u8],
    shelf: &mut Shelf<S>,
    keeper: &mut K,
    progress: &mut P,
) -> Result<Vec<u8>, Stop>
    requires { (ks : List ℕ) × IsLostOf ks lost }
    ensures done { (ks : List ℕ) → IsLostOf ks lost → IfOk result (λ lines. WasHealed S.kind ks image.now
        (run_span K.view K.follows (shelf.old, keeper.old) (shelf.new, keeper.new)) lines.items) }
    ensures stopped { (ks : List ℕ) → IsLostOf ks lost → IfErr result (IsStop S.kind ks image.now
        (run_span K.view K.follows (shelf.old, keeper.old) (shelf.new, keeper.new))) }
    ensures goes { (ks : List ℕ) → IsLostOf ks lost → GoesBy S.kind (Some ks)
        (run_span K.view K.follows (shelf.old, keeper.old) (shelf.new, keeper.new)) }
    ensures progress { TellsProgress (P.view progress.old) (P.view progress.new) }
    ensures early { IfErr result (λ why. IsEarly why → progress.new ≡ progress.old) }
{
    let mut loaded = match load_spared(alloc, lost, image, &*shelf) {
        Ok(loaded) => loaded,
        Err(why) => return Err(why),
    };
    let replicas = replicas_without(loaded.settings, lost);
    let ended = run_on(alloc, &replicas, &mut loaded, shelf, keeper, progress);
    drop(loaded);
    ended
}

/// The lines of a pass over nothing.
fn nothing_done(alloc: Global) -> Result<Vec<u8>, Stop>
    ensures done { IfOk result (λ lines. lines.items ≡ done_lines 0 0) }
    ensures stopped { IfErr result (λ why. why ≡ stop.Memory) }
{
    match done(alloc, 0, 0) {
        Ok(lines) => return Ok(lines),
        Err(_) => return Err(Stop::Memory),
    }
}

/// Heals the store whose image the keeper has, without the servers that the words name. The answer is the lines that say how
/// much it was.
fn run<P: Sink, S: SliceStore, K: Keeper>(
    alloc: Global,
    words: &[String],
    shelf: &mut Shelf<S>,
    keeper: &mut K,
    progress: &mut P,
) -> Result<Vec<u8>, Stop>
    ensures done { IfOk result (λ lines. HasHealed S.kind (lost_in (map string_bytes words.now))
        (run_span K.view K.follows (shelf.old, keeper.old) (shelf.new, keeper.new)) lines.items) }
    ensures stopped { IfErr result (IsEnd S.kind (lost_in (map string_bytes words.now))
        (run_span K.view K.follows (shelf.old, keeper.old) (shelf.new, keeper.new))) }
    ensures goes { GoesBy S.kind (lost_in (map string_bytes words.now))
        (run_span K.view K.follows (shelf.old, keeper.old) (shelf.new, keeper.new)) }
    ensures progress { TellsProgress (P.view progress.old) (P.view progress.new) }
    ensures early { IfErr result (λ why. IsEarly why → progress.new ≡ progress.old) }
    ensures idle { (K.view keeper.old).held ≡ Some [] → progress.new ≡ progress.old }
{
    let Some(lost) = lost_by(words) else {
        return Err(Stop::Words);
    };
    let image = match keeper.load(alloc) {
        Ok(image) => image,
        Err(LoadFault::Failed) => return Err(Stop::Load),
        Err(LoadFault::Memory) => return Err(Stop::Memory),
    };
    if image.is_empty() {
        let none = nothing_done(alloc);
        return none;
    }
    let ended = run_of(alloc, lost, image.as_slice(), shelf, keeper, progress);
    ended
}

/// As `wtf_heal`, by what is known of its status.
fn heal_and_tell<O: Sink, P: Sink, S: SliceStore, K: Keeper>(
    alloc: Global,
    words: &[String],
    out: &mut O,
    shelf: &mut Shelf<S>,
    keeper: &mut K,
    progress: &mut P,
) -> u8
    ensures over { IsHealOver S.kind (lost_in (map string_bytes words.now))
        (run_span K.view K.follows (shelf.old, keeper.old) (shelf.new, keeper.new))
        (sink_span O.view out.old out.new) result }
    ensures goes { GoesBy S.kind (lost_in (map string_bytes words.now))
        (run_span K.view K.follows (shelf.old, keeper.old) (shelf.new, keeper.new)) }
    ensures progress { TellsProgress (P.view progress.old) (P.view progress.new) }
    ensures silent { IsUntouched result → progress.new ≡ progress.old }
    ensures idle { (K.view keeper.old).held ≡ Some [] → progress.new ≡ progress.old }
{
    let ended = run(alloc, words, shelf, keeper, progress);
    let status = tell(alloc, out, ended);
    status
}

/// Makes copies again of what lay on lost servers, 1 to 16 different ones from 0 to 15 which the words name, while no other run has
/// the stores and the keeper. Nothing is read from a lost server, whose store may be empty. A region of which some slice lies on a
/// lost server, or has fewer copies than the settings ask for, becomes a compact list of which no slice does: only what has too few
/// copies is stored anew. The image of that is handed to the keeper once all stores that are left are synced. The tree stays, and no
/// stored byte is changed.
///
/// Behind that two lines are written: how many regions were healed, and how many bytes were stored anew, each counted once. The status
/// is 0 then; 2 where the words name no servers that the image's settings can do without, or there are fewer stores than servers; 4
/// where writing failed; 5 where a store or the keeper failed as the image was kept; 6 where the image is refused, by a line that says
/// why; 7 for want of memory; 8 where the keeper could not be loaded; and 11 where bytes could not be read or stored, or a list was
/// damaged, by a line that says which. An empty keeper has nothing to heal.
///
/// `progress` is given the two lines of what is healed so far, each time another 256 regions are. Where it takes none, nothing is made
/// of that.
pub fn wtf_heal<O: Sink, P: Sink, S: SliceStore, K: Keeper>(
    alloc: Global,
    words: &[String],
    out: &mut O,
    shelf: &mut Shelf<S>,
    keeper: &mut K,
    progress: &mut P,
) -> u8
    ensures over { IsHealOver S.kind (lost_in (map string_bytes words.now))
        (run_span K.view K.follows (shelf.old, keeper.old) (shelf.new, keeper.new))
        (sink_span O.view out.old out.new) result }
    ensures statuses { IsHealStatus result }
    ensures words { lost_in (map string_bytes words.now) ≡ None → result ≡ 2 }
    ensures refused { (held : List ℕ) → (K.view keeper.old).held ≡ Some held →
        (result ≡ 2) ↔ ((result ≢ 7) × (result ≢ 8) ×
        AreRefused (lost_in (map string_bytes words.now)) held (length shelf.old)) }
    ensures image { (held ks : List ℕ) → (K.view keeper.old).held ≡ Some held →
        lost_in (map string_bytes words.now) ≡ Some ks →
        (result ≡ 6) ↔ ((result ≢ 2) × (result ≢ 4) × (result ≢ 7) × (result ≢ 8) ×
        IsRefusedImage ks (size_in S.kind shelf.old) held) }
    ensures wrote { (text : List ℕ) → (O.view out.old).taken ≡ Some text →
        WroteReport result text (O.view out.new).taken }
    ensures quiet { IsQuiet result → out.new ≡ out.old }
    ensures still { result ≢ 4 → (O.view out.new).faults ≡ (O.view out.old).faults }
    ensures untouched { IsUntouched result → shelf.new ≡ shelf.old }
    ensures unkept { IsUnkept result → K.follows keeper.old keeper.new [] }
    ensures handed { HandsOne S.kind (lost_in (map string_bytes words.now))
        (run_span K.view K.follows (shelf.old, keeper.old) (shelf.new, keeper.new)) }
    ensures empty { (K.view keeper.old).held ≡ Some [] →
        (result ≢ 5) × (result ≢ 6) × (result ≢ 11) × (shelf.new ≡ shelf.old) ×
        K.follows keeper.old keeper.new [] }
    ensures nothing { (K.view keeper.old).held ≡ Some [] → result ≡ 0 → (text : List ℕ) →
        (O.view out.old).taken ≡ Some text →
        (O.view out.new).taken ≡ Some (text ++ done_lines 0 0) }
    ensures synced { (held ks : List ℕ) → (K.view keeper.old).held ≡ Some held → held ≢ [] →
        lost_in (map string_bytes words.now) ≡ Some ks → result ≡ 0 →
        AreSynced S.kind ks shelf.old shelf.new held }
    ensures sink_cause { result ≡ 4 → Rose (O.view out.old).faults (O.view out.new).faults }
    ensures keeper_cause { result ≡ 8 →
        Rose (K.view keeper.old).faults (K.view keeper.new).faults }
    ensures save_cause { result ≡ 5 → (ks : List ℕ) ×
        (lost_in (map string_bytes words.now) ≡ Some ks) ×
        IsSaveFault S.kind (K.follows keeper.old keeper.new) ks shelf.old shelf.new
        (K.view keeper.old, K.view keeper.new) }
    ensures fault_cause { result ≡ 11 → (held ks : List ℕ) →
        (K.view keeper.old).held ≡ Some held →
        lost_in (map string_bytes words.now) ≡ Some ks → (text : List ℕ) →
        (O.view out.old).taken ≡ Some text → (why : fault_type.Fault) ×
        ((O.view out.new).taken ≡ Some (text ++ fault_line why)) ×
        HasFault S.kind ks shelf.old shelf.new held why }
    ensures follows { EachFollows S.kind shelf.old shelf.new [] }
    ensures lost { (ks : List ℕ) → lost_in (map string_bytes words.now) ≡ Some ks →
        AreLostSame ks shelf.old shelf.new }
    ensures healed { (held ks : List ℕ) (t : Tree) →
        lost_in (map string_bytes words.now) ≡ Some ks → held ≢ [] →
        AreTelling S.kind ks shelf.old (K.view keeper.old) held → HasNextNumber held →
        IsLiveTree (byte_at S.kind shelf.old) (is_server_in ks) held t → result ≡ 0 →
        Heals S.kind ks
        (run_span K.view K.follows (shelf.old, keeper.old) (shelf.new, keeper.new))
        (sink_span O.view out.old out.new) t held }
    ensures complete { (held ks : List ℕ) (t : Tree) →
        lost_in (map string_bytes words.now) ≡ Some ks → held ≢ [] →
        AreTelling S.kind ks shelf.old (K.view keeper.old) held →
        IsLiveTreeIn S.kind shelf.old (is_server_in ks) held t →
        NoFaultRose S.kind (O.view out.old, shelf.old, K.view keeper.old)
        (O.view out.new, shelf.new, K.view keeper.new) →
        (result ≡ 0) ⊎ (result ≡ 2) ⊎ (result ≡ 6) ⊎ (result ≡ 7) }
    ensures progress { TellsProgress (P.view progress.old) (P.view progress.new) }
    ensures silent { IsUntouched result → progress.new ≡ progress.old }
    ensures idle { (K.view keeper.old).held ≡ Some [] → progress.new ≡ progress.old }
{
    let status = heal_and_tell(alloc, words, out, shelf, keeper, progress);
    status
}
