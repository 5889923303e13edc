//! The durable store.

ghost use Rattle.std.specs.Prelude.{◌≡◌, ◌≢◌, ◌⊎◌, ◌<◌, ◌≤◌, ◌+◌, ◌^◌, ℕ, [], length, true, false, None, Some, Ok, Err, IfOk, IfErr, IsErr, IsOk, IsSome, OnOk, OnErr, IsErrOf};
ghost use Rattle.wtf_dev.specs.Counts.{Rose};
ghost use Rattle.wtf_dev.specs.Disk.{DiskGoesOn, SameElsewhere};
ghost use Rattle.wtf_dev.specs.Each.{EachFollows};
ghost use Rattle.wtf_journal.specs.Follows.{synced_kind};
ghost use Rattle.wtf_journal.specs.Held.{held_by};
ghost use Rattle.wtf_journal.specs.Scan.{IsBadAt};
ghost use Rattle.wtf_model.specs.Form.{IsFormEvent};
ghost use Rattle.wtf_core.specs.Named.{IsInside};
ghost use Rattle.wtf_core.specs.Promises.{Watches};
ghost use Rattle.wtf_replica.specs.Downs.{is_down};
ghost use Rattle.wtf_replica.specs.Outs.{HasRisen, SameFrom, SameLengths};
ghost use Rattle.wtf_replica.specs.Spans.{span};
ghost use Rattle.wtf_model.specs.declared.answer.Answer.{Answer};
ghost use Rattle.wtf_model.specs.declared.answer.Answer.TheVariants as answer;
ghost use Rattle.wtf_durable.specs.declared.fault.Unopened.TheVariants as unopened;
ghost use Rattle.wtf_durable.specs.declared.fault.DurableFault.TheVariants as fault;
ghost use Rattle.wtf_durable.specs.Found.{IsBegun};
ghost use Rattle.wtf_durable.specs.Handled.{Handled, HandlesNot, HandsImages, Noted, Notes};
ghost use Rattle.wtf_durable.specs.Opened.{OpeningSurvives, OpensDurable, UnopenedFor};
ghost use Rattle.wtf_durable.specs.Promises.{DurableDoes, Lasts, LeavesStores, Survives};
ghost use Rattle.wtf_durable.specs.Sound.{IsSoundDurable};
ghost use Rattle.wtf_durable.specs.Stops.{Leftover, StoresLeft};
ghost use Rattle.wtf_durable.specs.Views.{durable_scene, ReachesGate};

use crate::opening::found;
use crate::{DurableFault, Unopened};
use std::alloc::Global;
use std::marker::Model;
use wtf_base::{OutOfMemory, Settings};
use wtf_core::Core;
use wtf_dev::{Disk, Shelf};
use wtf_journal::{Journal, JournalFault, JournalKeeper, Record, Synced};
use wtf_model::{Answer, Event};

/// A store whose acknowledged commits outlive a stop. Contracts see its core and its journal.
#[derive(Drop)]
pub struct Durable {
    core: Core,
    journal: Journal,
}

impl Model for Durable {
    ghost use Rattle.wtf_durable.specs.Views.{DurableView};

    ghost Value = { DurableView };

    ghost use Rattle.std.specs.Coded.{codes};
    ghost use Rattle.wtf_core.specs.contracts.store.Core as core_type;

    ghost coded = { Prim.hlevel (codes, core_type.the_row.coded) };

    ghost view = { λ d. record { core = d.core; journal = d.journal } };
}

impl Durable {
    /// Opens the journal on a disk, over stores that have the bytes which its image names. A journal without a record begins with these
    /// settings, and the image of the root alone is saved to it at once. No file of a store grows, and no store is touched that the settings do
    /// not have. A stop at any moment leaves a journal that stands for what it could stand for before, and for nothing else, or that has this
    /// image in the place of no record. One that stands for nothing keeps its bytes.
    pub fn open<S: Disk, D: Disk>(
        alloc: Global,
        settings: Settings,
        shelf: &mut Shelf<Synced<S>>,
        disk: &mut D,
    ) -> Result<Durable, Unopened>
        ensures opened { IfOk result (λ d. OpensDurable S.kind D.kind settings disk.old
            (durable_scene shelf.new disk.new d)) }
        ensures unopened { IfErr result
            (UnopenedFor S.kind D.kind settings shelf.old shelf.new disk.old disk.new) }
        ensures exact { OnOk result ((D.kind.view disk.old).tells ≡ true → (n : ℕ) →
            IsBadAt held_by None ((D.kind.view disk.old).file 0).seen n → ⊥) }
        ensures any_moment { (D.kind.view disk.old).tells ≡ true → (left : Leftover) →
            StoresLeft S.kind shelf.old shelf.new left.stores →
            D.kind.left_since disk.new (D.kind.view disk.old).moment left.journal →
            OpeningSurvives S.kind D.kind settings shelf.old disk.old left }
        ensures follows { EachFollows (synced_kind S.kind) shelf.old shelf.new [] }
        ensures lengths { SameLengths (synced_kind S.kind) shelf.old shelf.new }
        ensures past { IfOk result (λ d. SameFrom d.core.settings.servers shelf.old shelf.new) }
        ensures unused { OnErr result (SameFrom settings.servers shelf.old shelf.new) }
        ensures goes_on { DiskGoesOn D.kind disk.old disk.new }
        ensures elsewhere { (D.kind.view disk.old).tells ≡ true →
            SameElsewhere 0 (D.kind.view disk.old) (D.kind.view disk.new) }
    {
        let found = match found(alloc, settings, shelf, disk) {
            Ok(found) => found,
            Err(why) => return Err(why),
        };
        let mut durable = Durable {
            core: found.core,
            journal: found.journal,
        };
        match durable.begin(found.fresh, shelf, disk) {
            Ok(()) => {}
            Err(why) => return Err(why),
        }
        match durable.watch() {
            Ok(()) => return Ok(durable),
            Err(why) => return Err(why),
        }
    }

    // Saves the tree of a fresh store, so that its journal has a record.
    fn begin<S: Disk, D: Disk>(
        &mut self,
        fresh: bool,
        shelf: &mut Shelf<Synced<S>>,
        disk: &mut D,
    ) -> Result<(), Unopened>
        requires open { self.old.core.closed ≡ false }
        requires servers { self.old.core.settings.servers ≤ length shelf.old }
        requires inside { IsInside (synced_kind S.kind) shelf.old self.old.core }
        requires up { (k : ℕ) → is_down self.old.core.replicas k ≡ false }
        requires whole { self.old.journal.failed ≡ false }
        requires reach { ReachesGate D.kind disk.old self.old }
        ensures begun { OnOk result (IsBegun S.kind D.kind fresh
            (durable_scene shelf.old disk.old self.old)
            (durable_scene shelf.new disk.new self.new)) }
        ensures hands { HandsImages D.kind disk.old disk.new self.old.journal.end self.old.core }
        ensures fresh { fresh ≡ false → disk.new ≡ disk.old }
        ensures untouched { fresh ≡ false → shelf.new ≡ shelf.old }
        ensures past { SameFrom self.old.core.settings.servers shelf.old shelf.new }
        ensures follows { EachFollows (synced_kind S.kind) shelf.old shelf.new [] }
        ensures lengths { SameLengths (synced_kind S.kind) shelf.old shelf.new }
        ensures saving { IsErr result → fresh ≡ true }
        ensures cause { IsErrOf result unopened.Save →
            ((k : ℕ) × HasRisen (synced_kind S.kind) shelf.old shelf.new k) ⊎
            Rose (D.kind.view disk.old).faults (D.kind.view disk.new).faults }
        ensures only { IfErr result (λ why. (why ≡ unopened.Save) ⊎ (why ≡ unopened.Memory)) }
    {
        if !fresh {
            return Ok(());
        }
        let mut keeper = JournalKeeper {
            journal: &mut self.journal,
            disk,
            short: 0,
        };
        let saved = self.core.save(shelf, &mut keeper);
        let short = keeper.short;
        first_saved(judged(saved, short, self.journal.failed()))
    }

    // Watches the number of installs, of which the journal has all.
    fn watch(&mut self) -> Result<(), Unopened>
        requires { self.old.core.closed ≡ false }
        ensures watches { OnOk result (Watches self.old.core self.new.core) }
        ensures journal { self.new.journal ≡ self.old.journal }
        ensures only { IfErr result (λ why. why ≡ unopened.Memory) }
    {
        match self.core.watch() {
            Ok(()) => Ok(()),
            Err(_) => Err(Unopened::Memory),
        }
    }

    /// The settings.
    pub fn settings(&self) -> Settings
        ensures { result ≡ self.now.core.settings }
    {
        self.core.settings()
    }

    /// The number of installs.
    pub fn number(&self) -> u64
        ensures { result ≡ self.now.core.tables.kv.number }
    {
        self.core.number()
    }

    /// The number of the transaction that begins next.
    pub fn next_tx(&self) -> u64
        ensures { result ≡ self.now.core.tables.next_tx }
    {
        self.core.next_tx()
    }

    /// Answers one line as the core does, and then adds to the journal what was installed: at `Ok` it outlives every later stop. A stop at any
    /// moment of the call leaves a store that can be opened again, with the tree before the line, or the one behind it, and the bytes that it
    /// names. After a fault no other event follows: the journal is opened again.
    pub fn event<S: Disk, D: Disk>(
        &mut self,
        shelf: &mut Shelf<Synced<S>>,
        disk: &mut D,
        event: &Event,
    ) -> Result<Answer, DurableFault>
        requires sound { IsSoundDurable (synced_kind S.kind) shelf.old self.old }
        requires form { IsFormEvent event.now }
        requires number { self.old.core.tables.kv.number < 2 ^ 63 }
        requires next_tx { self.old.core.tables.next_tx < 2 ^ 63 }
        requires reach { ReachesGate D.kind disk.old self.old }
        ensures does { IfOk result (DurableDoes S.kind D.kind
            (durable_scene shelf.old disk.old self.old) (durable_scene shelf.new disk.new self.new)
            event.now) }
        ensures survives { Survives S.kind D.kind
            (durable_scene shelf.old disk.old self.old) (durable_scene shelf.new disk.new self.new)
            event.now result }
        ensures lasts { IfOk result (Lasts S.kind D.kind
            (durable_scene shelf.old disk.old self.old) (durable_scene shelf.new disk.new self.new)
            event.now) }
        ensures numbers { OnErr result
            ((self.new.core.tables.kv.number ≤ self.old.core.tables.kv.number + 1) ×
            (self.new.core.tables.next_tx ≤ self.old.core.tables.next_tx + 1)) }
        ensures follows { OnErr result (EachFollows (synced_kind S.kind) shelf.old shelf.new []) }
        ensures leaves { OnErr result (LeavesStores (synced_kind S.kind)
            (span (is_down self.old.core.replicas) shelf.old shelf.new) self.old.core event.now) }
        ensures goes_on { DiskGoesOn D.kind disk.old disk.new }
        ensures elsewhere { (D.kind.view disk.old).tells ≡ true →
            SameElsewhere 0 (D.kind.view disk.old) (D.kind.view disk.new) }
        ensures cause { IsErrOf result fault.Journal →
            Rose (D.kind.view disk.old).faults (D.kind.view disk.new).faults }
    {
        let answer = match self.handled(shelf, disk, event) {
            Ok(answer) => answer,
            Err(why) => return Err(why),
        };
        match self.noted(disk) {
            Ok(()) => return Ok(answer),
            Err(why) => return Err(why),
        }
    }

    // Gives the event to the core, which has the journal for a keeper of its images.
    fn handled<S: Disk, D: Disk>(
        &mut self,
        shelf: &mut Shelf<Synced<S>>,
        disk: &mut D,
        event: &Event,
    ) -> Result<Answer, DurableFault>
        requires sound { IsSoundDurable (synced_kind S.kind) shelf.old self.old }
        requires form { IsFormEvent event.now }
        requires number { self.old.core.tables.kv.number < 2 ^ 63 }
        requires next_tx { self.old.core.tables.next_tx < 2 ^ 63 }
        requires reach { ReachesGate D.kind disk.old self.old }
        ensures handled { IfOk result (Handled S.kind D.kind
            (durable_scene shelf.old disk.old self.old) (durable_scene shelf.new disk.new self.new)
            event.now) }
        ensures lost { OnErr result (HandlesNot S.kind D.kind
            (durable_scene shelf.old disk.old self.old)
            (durable_scene shelf.new disk.new self.new) event.now) }
        ensures goes_on { DiskGoesOn D.kind disk.old disk.new }
        ensures cause { IsErrOf result fault.Journal →
            Rose (D.kind.view disk.old).faults (D.kind.view disk.new).faults }
    {
        let mut keeper = JournalKeeper {
            journal: &mut self.journal,
            disk,
            short: 0,
        };
        let answered = self.core.event(shelf, &mut keeper, event);
        let short = keeper.short;
        judged(answered, short, self.journal.failed())
    }

    // Adds to the journal what was installed.
    fn noted<D: Disk>(&mut self, disk: &mut D) -> Result<(), DurableFault>
        requires open { self.old.core.closed ≡ false }
        requires watched { IsSome self.old.core.tables.beside.watched }
        requires whole { self.old.journal.failed ≡ false }
        requires reach { ReachesGate D.kind disk.old self.old }
        ensures noted { OnOk result (Noted D.kind disk.old disk.new self.old self.new) }
        ensures cut { OnErr result (Notes D.kind disk.old disk.new self.old.journal.end
            self.old.core self.new.core) }
        ensures sure { self.old.core.tables.beside.watched ≡ Some self.old.core.tables.kv.number →
            IsOk result }
        ensures goes_on { DiskGoesOn D.kind disk.old disk.new }
        ensures cause { IsErrOf result fault.Journal →
            Rose (D.kind.view disk.old).faults (D.kind.view disk.new).faults }
    {
        let recorded = match self.core.record() {
            Ok(recorded) => recorded,
            Err(_) => return Err(DurableFault::Memory),
        };
        let Some(changes) = recorded else {
            return Ok(());
        };
        match self.journal.append(disk, Record::Changes(&changes)) {
            Ok(()) => return Ok(()),
            Err(JournalFault::Failed) => return Err(DurableFault::Journal),
            Err(_) => return Err(DurableFault::Memory),
        }
    }
}

// The answer of the core, unless the keeper could not take an image: for want of memory, or as the journal failed.
fn judged(
    answered: Result<Answer, OutOfMemory>,
    short: u64,
    failed: bool,
) -> Result<Answer, DurableFault>
    ensures answered { IfOk result (λ a. (answered ≡ Ok a) × ((short ≡ 0) × (failed ≡ false))) }
    ensures flagged { OnErr result (IsErr answered ⊎ ((0 < short) ⊎ (failed ≡ true))) }
    ensures journal { IsErrOf result fault.Journal → IsOk answered × ((short ≡ 0) × (failed ≡ true)) }
{
    let Ok(answer) = answered else {
        return Err(DurableFault::Memory);
    };
    if short > 0 {
        return Err(DurableFault::Memory);
    }
    if failed {
        return Err(DurableFault::Journal);
    }
    Ok(answer)
}

// Whether the first save was done.
fn first_saved(answered: Result<Answer, DurableFault>) -> Result<(), Unopened>
    ensures saved { OnOk result ((n : ℕ) × (answered ≡ Ok (answer.Saved n))) }
    ensures other { IsErrOf result unopened.Save → (answered ≡ Err fault.Journal) ⊎
        ((a : Answer) × (answered ≡ Ok a) × ((n : ℕ) → a ≢ answer.Saved n)) }
    ensures only { IfErr result (λ why. (why ≡ unopened.Save) ⊎ (why ≡ unopened.Memory)) }
{
    match answered {
        Ok(Answer::Saved(_)) => Ok(()),
        Ok(_) => Err(Unopened::Save),
        Err(DurableFault::Journal) => Err(Unopened::Save),
        Err(DurableFault::Memory) => Err(Unopened::Memory),
    }
}
