//! The core.

ghost use Rattle.std.specs.Prelude.{◌≡◌, ◌≢◌, ◌<◌, ◌≤◌, ◌^◌, ℕ, Bool, List, [], true, false, IsTrue, IsOk, IfOk, IfErr, OnOk, OnErr, length};
ghost use Rattle.wtf_dev.specs.Each.{EachFollows};
ghost use Rattle.wtf_dev.specs.Sums.{TellsAll};
ghost use Rattle.wtf_base.specs.Limits.{AreSettings};
ghost use Rattle.wtf_base.specs.declared.slice.Slice as slice_type;
ghost use Rattle.wtf_overlay.specs.Origin.{Place};
ghost use Rattle.wtf_replica.specs.Bytes.{byte_at};
ghost use Rattle.wtf_replica.specs.Downs.{is_down};
ghost use Rattle.wtf_replica.specs.Spans.{span};
ghost use Rattle.wtf_model.specs.Form.{IsFormEvent};
ghost use Rattle.wtf_model.specs.declared.event.Event.TheVariants as event;
ghost use Rattle.wtf_model.specs.declared.event.Event.TheVariants.{Save};
ghost use Rattle.wtf_model.specs.Machines.{start};
ghost use Rattle.wtf_model.specs.Tree.{Tree, root_alone};
ghost use Rattle.wtf_meta.specs.Contents.{Told};
ghost use Rattle.wtf_image.specs.Rows.{ImageRows};
ghost use Rattle.wtf_image.specs.Images.{HasText};
ghost use Rattle.wtf_image.specs.Rules.{AreGoodSettings, size_in};
ghost use Rattle.wtf_image.specs.Loading.{IsLoadRefusal};
ghost use Rattle.wtf_image.specs.Outcome.{IsLoadOf};
ghost use Rattle.wtf_clients.specs.Views.{unsaved};
ghost use Rattle.wtf_clients.specs.Sounds.{AreSound};
ghost use Rattle.wtf_core.specs.Standing.{StandsFor};
ghost use Rattle.wtf_core.specs.Turns.{takes_no_memory, ServerTurn, ShowsTree, IsTreeAnswer};
ghost use Rattle.wtf_core.specs.Named.{CoreBytes, IsInside, IsBareCore};
ghost use Rattle.wtf_core.specs.Telling.{TellsCore, IsWithin, stores_of};
ghost use Rattle.wtf_clients.specs.Serves.{ServesLine, ServesEvent};
ghost use Rattle.wtf_core.specs.Views.{lent_of};
ghost use Rattle.wtf_clients.specs.Keeping.{KeeperTurn, IsHeldBy, keeper_span};
ghost use Rattle.wtf_core.specs.Pictured.{IsImageOfTree, IsBareImage};
ghost use Rattle.wtf_core.specs.Ended.{LineEnds};
ghost use Rattle.wtf_core.specs.Lent.{is_of_tables};
ghost use Rattle.wtf_core.specs.Promises.{scene, CoreDoes, CoreFails, CoreStays};
ghost use Rattle.wtf_dev.specs.Counts.{Rose};
ghost use Rattle.wtf_replica.specs.Outs.{SameLengths};
ghost use Rattle.wtf_core.specs.Loading.{IsCoreOf};

use crate::tree::tree_now;
use crate::verbs::tables_line;
use std::alloc::Global;
use std::marker::Model;
use wtf_base::{OutOfMemory, Settings};
use wtf_clients::Tables;
use wtf_dev::{Keeper, Shelf, SliceStore};
use wtf_image::{LoadError, Loaded};
use wtf_model::{Answer, Event, Word};
use wtf_region::{Dev, RegionCache};
use wtf_replica::Replicas;
use wtf_ring::Ring;

/// The store with all transactions and jobs that are open. Contracts see the settings, the metadata with
/// these, the servers that are down, whether it is closed, and the lists of slices that it
/// remembers.
#[derive(Drop)]
pub struct Core {
    pub(crate) alloc: Global,
    settings: Settings,
    pub(crate) tables: Tables,
    replicas: Replicas,
    ring: Ring,
    cache: RegionCache,
    pub(crate) closed: bool,
}

impl Model for Core {
    ghost use Rattle.wtf_core.specs.Views.{CoreView};
    ghost use Rattle.wtf_core.specs.Made.{IsCoreMade};

    ghost Value = { CoreView };

    ghost use Rattle.std.specs.Coded.{codes};
    ghost use Rattle.wtf_values.specs.contracts.key.Key as key;
    ghost use Rattle.wtf_values.specs.contracts.value.Value as value;
    ghost use Rattle.wtf_replay.specs.contracts.txn.Txn as txn;
    ghost use Rattle.wtf_compact.specs.contracts.job.Job as job;
    ghost use Rattle.wtf_base.specs.contracts.slice.Slice as slice;
    ghost use Rattle.wtf_overlay.specs.contracts.part.Entry as entry;

    ghost coded = { Prim.hlevel (
      codes,
      key.the_row.coded,
      value.the_row.coded,
      txn.the_row.coded,
      job.the_row.coded,
      slice.the_row.coded,
      entry.the_row.coded,
    ) };

    ghost view = { λ c. record {
      settings = c.settings;
      tables = c.tables;
      replicas = c.replicas;
      closed = c.closed;
      lists = c.cache.lists;
    } };

    ghost invariant = { λ c. IsCoreMade c.settings c.tables c.replicas c.ring c.cache };
}

impl Core {
    /// The root alone, no transaction, all servers up, and nothing saved.
    pub fn new(alloc: Global, settings: Settings) -> Result<Core, OutOfMemory>
        requires settings { AreSettings settings.servers settings.replicas settings.region }
        ensures settings { IfOk result (λ core. core.settings ≡ settings) }
        ensures open { IfOk result (λ core. core.closed ≡ false) }
        ensures number { IfOk result (λ core. core.tables.kv.number ≡ 0) }
        ensures next_tx { IfOk result (λ core. core.tables.next_tx ≡ 1) }
        ensures unsaved { IfOk result (λ core. core.tables.beside ≡ unsaved) }
        ensures sound { IfOk result (λ core. AreSound core.tables) }
        ensures stands { IfOk result (λ core. (told : Told) →
            StandsFor told core (start settings 0 root_alone)) }
        ensures inside { IfOk result (λ core. (P : List Place → Bool) (Q : slice_type.Slice → Bool) →
            CoreBytes P Q core) }
        ensures lists { IfOk result (λ core. core.lists ≡ []) }
        ensures up { IfOk result (λ core. (k : ℕ) → is_down core.replicas k ≡ false) }
    {
        let tables = match Tables::new(alloc) {
            Ok(tables) => tables,
            Err(why) => return Err(why),
        };
        match Core::over(alloc, settings, tables) {
            Ok(core) => return Ok(core),
            Err(why) => return Err(why),
        }
    }

    /// The core that an image says, over stores that have as many servers as its settings: the
    /// metadata at its number, no transaction, and all servers up. Bytes are refused by the first rule
    /// that they break, in the order of `LoadError`.
    pub fn load<S: SliceStore>(
        alloc: Global,
        bytes: &[u8],
        shelf: &Shelf<S>,
    ) -> Result<Core, LoadError>
        requires { (x : ImageRows) → HasText x bytes.now → AreGoodSettings x →
            x.header.servers ≤ length shelf.now }
        ensures loaded { IfOk result (IsCoreOf (size_in S.kind shelf.now) bytes.now) }
        ensures open { IfOk result (λ core. core.closed ≡ false) }
        ensures sound { IfOk result (λ core. AreSound core.tables) }
        ensures up { IfOk result (λ core. (k : ℕ) → is_down core.replicas k ≡ false) }
        ensures inside { IfOk result (IsInside S.kind shelf.now) }
        ensures bare { IfOk result (λ core. IsBareImage bytes.now → IsBareCore core) }
        ensures stands { IfOk result (λ core. (told : Told) (t : Tree) →
            IsImageOfTree told bytes.now t →
            StandsFor told core (start core.settings core.tables.kv.number t)) }
        ensures told { IfOk result (λ core. TellsAll S.kind shelf.now → (t : Tree) →
            IsImageOfTree (byte_at S.kind shelf.now) bytes.now t →
            TellsCore S.kind shelf.now core) }
        ensures within { IfOk result (λ core. IsBareImage bytes.now →
            IsWithin S.kind shelf.now core) }
        ensures within_told { IfOk result (λ core. (t : Tree) →
            IsImageOfTree (byte_at S.kind (stores_of core.settings shelf.now)) bytes.now t →
            IsWithin S.kind shelf.now core) }
        ensures held { IfOk result (λ core. IsHeldBy core.tables core.settings bytes.now) }
        ensures cause { IfErr result (IsLoadRefusal (size_in S.kind shelf.now) bytes.now) }
    {
        let loaded = match wtf_image::load(alloc, bytes, shelf) {
            Ok(loaded) => loaded,
            Err(refusal) => return Err(refusal),
        };
        match Core::restored(alloc, loaded) {
            Ok(core) => return Ok(core),
            Err(_) => return Err(LoadError::Memory),
        }
    }

    /// The core over what was loaded of the keeper's image.
    fn restored(alloc: Global, loaded: Loaded) -> Result<Core, OutOfMemory>
        requires pins { loaded.kv.pins ≡ [] }
        requires begun { 0 < loaded.next_tx }
        ensures loaded { IfOk result (λ core. (size : ℕ → ℕ → ℕ) (bytes : List ℕ) →
            IsLoadOf size bytes loaded → IsCoreOf size bytes core) }
        ensures closed { IfOk result (λ core. core.closed ≡ false) }
        ensures sound { IfOk result (λ core. AreSound core.tables) }
        ensures up { IfOk result (λ core. (k : ℕ) → is_down core.replicas k ≡ false) }
    {
        let settings = loaded.settings;
        let tables = match Tables::of_image(alloc, loaded) {
            Ok(tables) => tables,
            Err(why) => return Err(why),
        };
        match Core::over(alloc, settings, tables) {
            Ok(core) => return Ok(core),
            Err(why) => return Err(why),
        }
    }

    /// A core over tables, with all servers up.
    fn over(alloc: Global, settings: Settings, tables: Tables) -> Result<Core, OutOfMemory>
        requires settings { AreSettings settings.servers settings.replicas settings.region }
        requires sound { AreSound tables }
        ensures settings { IfOk result (λ core. core.settings ≡ settings) }
        ensures tables { IfOk result (λ core. core.tables ≡ tables) }
        ensures closed { IfOk result (λ core. core.closed ≡ false) }
        ensures lists { IfOk result (λ core. core.lists ≡ []) }
        ensures up { IfOk result (λ core. (k : ℕ) → is_down core.replicas k ≡ false) }
    {
        let ring = match Ring::new(alloc, settings.servers) {
            Ok(ring) => ring,
            Err(why) => return Err(why),
        };
        let cache = match RegionCache::new(alloc) {
            Ok(cache) => cache,
            Err(why) => return Err(why),
        };
        Ok(Core {
            alloc,
            settings,
            tables,
            replicas: Replicas::new(settings),
            ring,
            cache,
            closed: false,
        })
    }

    /// The settings.
    pub fn settings(&self) -> Settings
        ensures { result ≡ self.now.settings }
    {
        self.settings
    }

    /// The number of installs.
    pub fn number(&self) -> u64
        ensures { result ≡ self.now.tables.kv.number }
    {
        self.tables.number()
    }

    /// The number of the transaction that begins next.
    pub fn next_tx(&self) -> u64
        ensures { result ≡ self.now.tables.next_tx }
    {
        self.tables.next_tx()
    }

    /// Whether it is closed, for want of memory.
    pub fn closed(&self) -> bool
        ensures { result ≡ self.now.closed }
    {
        self.closed
    }

    /// Answers one line. The answer is that of the machine, which the core goes on to stand for, while
    /// its tree is small. What a keeper tells that it holds goes on being the image at a number that is
    /// kept for it, of a tree that the machine may have saved, and one that a run can begin with; a
    /// save alone hands it something. Stores that tell all that the core names go on to do so, also
    /// where a list was spilled; and where each byte had as many copies as there are replicas each has.
    /// A collection alone punches, and only what nothing names: no map that can be read, no image that
    /// may be on the keeper, no open transaction and no job. No line names a byte again that lay there
    /// while nothing named it. After want of memory the metadata now are as they were, and the core is
    /// closed.
    pub fn take<S: SliceStore, K: Keeper>(
        &mut self,
        shelf: &mut Shelf<S>,
        keeper: &mut K,
        event: Event,
    ) -> Result<Answer, OutOfMemory>
        requires open { self.old.closed ≡ false }
        requires shelf { self.old.settings.servers ≤ length shelf.old }
        requires form { IsFormEvent event }
        requires number { event ≢ Save → self.old.tables.kv.number < 2 ^ 63 }
        requires next_tx { event ≢ Save → self.old.tables.next_tx < 2 ^ 63 }
        requires inside { IsInside S.kind shelf.old self.old }
        ensures does { IfOk result (CoreDoes S.kind
            (keeper_span K.view K.follows K.refused keeper.old keeper.new)
            (scene shelf.old (K.view keeper.old) self.old)
            (scene shelf.new (K.view keeper.new) self.new) event) }
        ensures fails { OnErr result (CoreFails S.kind
            (keeper_span K.view K.follows K.refused keeper.old keeper.new)
            (scene shelf.old (K.view keeper.old) self.old)
            (scene shelf.new (K.view keeper.new) self.new) event) }
        ensures stays { CoreStays S.kind
            (scene shelf.old (K.view keeper.old) self.old)
            (scene shelf.new (K.view keeper.new) self.new) event }
        ensures sure { IsTrue (takes_no_memory event) → IsOk result }
    {
        let _number = self.tables.number();
        match self.answer(shelf, keeper, event) {
            Ok(answer) => {
                self.tables.tidy();
                return Ok(answer);
            }
            Err(why) => {
                self.closed = true;
                return Err(why);
            }
        }
    }

    /// Saves the tree as it stands, as the line `save` does: the bytes of all stores are brought to
    /// where they last, and then the keeper is handed the image of the metadata. `FaultSave` where a
    /// server is down, a store failed or the keeper did.
    pub fn save<S: SliceStore, K: Keeper>(
        &mut self,
        shelf: &mut Shelf<S>,
        keeper: &mut K,
    ) -> Result<Answer, OutOfMemory>
        requires open { self.old.closed ≡ false }
        requires shelf { self.old.settings.servers ≤ length shelf.old }
        requires inside { IsInside S.kind shelf.old self.old }
        ensures does { IfOk result (CoreDoes S.kind
            (keeper_span K.view K.follows K.refused keeper.old keeper.new)
            (scene shelf.old (K.view keeper.old) self.old)
            (scene shelf.new (K.view keeper.new) self.new) event.Save) }
        ensures fails { OnErr result (CoreFails S.kind
            (keeper_span K.view K.follows K.refused keeper.old keeper.new)
            (scene shelf.old (K.view keeper.old) self.old)
            (scene shelf.new (K.view keeper.new) self.new) event.Save) }
        ensures stays { CoreStays S.kind
            (scene shelf.old (K.view keeper.old) self.old)
            (scene shelf.new (K.view keeper.new) self.new) event.Save }
        ensures follows { EachFollows S.kind shelf.old shelf.new [] }
        ensures lengths { OnOk result (SameLengths S.kind shelf.old shelf.new) }
    {
        self.take(shelf, keeper, Event::Save)
    }

    /// Answers one line; versions that no one sees any more are not dropped yet.
    fn answer<S: SliceStore, K: Keeper>(
        &mut self,
        shelf: &mut Shelf<S>,
        keeper: &mut K,
        event: Event,
    ) -> Result<Answer, OutOfMemory>
        requires shelf { self.old.settings.servers ≤ length shelf.old }
        requires inside { IsInside S.kind shelf.old self.old }
        requires sound { AreSound self.old.tables }
        requires form { IsFormEvent event }
        requires number { event ≢ Save → self.old.tables.kv.number < 2 ^ 63 }
        requires next_tx { event ≢ Save → self.old.tables.next_tx < 2 ^ 63 }
        ensures ends { LineEnds S.kind (span (is_down self.old.replicas) shelf.old shelf.new)
            self.old self.new event result }
        ensures serves { IfOk result (ServesEvent S.kind
            (span (is_down self.old.replicas) shelf.old shelf.new) (lent_of self.old self.new)
            (Rose (K.view keeper.old).faults (K.view keeper.new).faults)
            (self.old.tables, self.new.tables) event) }
        ensures keeper { IfOk result (KeeperTurn S.kind
            (span (is_down self.old.replicas) shelf.old shelf.new)
            (keeper_span K.view K.follows K.refused keeper.old keeper.new) self.old.settings
            self.old.tables self.new.tables event) }
        ensures untouched { OnErr result (keeper.new ≡ keeper.old) }
    {
        match event {
            Event::Down(k) => return Ok(self.server(k, true)),
            Event::Up(k) => return Ok(self.server(k, false)),
            Event::Tree => return self.show(),
            Event::Save => {
                let saved = self
                    .tables
                    .save(&self.replicas, self.settings, shelf, keeper);
                // all tables are sound, so these are
                let _number = self.tables.number();
                return saved;
            }
            _ => return self.by_tables(shelf, event),
        }
    }

    /// Answers a line of the tables, which are lent the stores and what is remembered of them.
    fn by_tables<S: SliceStore>(
        &mut self,
        shelf: &mut Shelf<S>,
        event: Event,
    ) -> Result<Answer, OutOfMemory>
        requires shelf { self.old.settings.servers ≤ length shelf.old }
        requires inside { IsInside S.kind shelf.old self.old }
        requires asked { is_of_tables event ≡ true }
        requires form { IsFormEvent event }
        requires number { self.old.tables.kv.number < 2 ^ 63 }
        requires next_tx { self.old.tables.next_tx < 2 ^ 63 }
        ensures ends { LineEnds S.kind (span (is_down self.old.replicas) shelf.old shelf.new)
            self.old self.new event result }
        ensures serves { IfOk result (ServesLine S.kind
            (span (is_down self.old.replicas) shelf.old shelf.new) (lent_of self.old self.new)
            self.old.tables self.new.tables event) }
    {
        let mut dev = Dev {
            shelf,
            replicas: &self.replicas,
            ring: &self.ring,
            cache: &mut self.cache,
            settings: self.settings,
        };
        let result = tables_line(&mut self.tables, &mut dev, event);
        // all tables are sound, so these are
        let _number = self.tables.number();
        result
    }

    /// Shows the tree now.
    fn show(&self) -> Result<Answer, OutOfMemory>
        ensures shows { IfOk result (λ a. ShowsTree self.now.settings.region self.now.tables.kv a) }
        ensures tree { IfOk result IsTreeAnswer }
    {
        tree_now(self.alloc, self.tables.kv(), self.settings)
    }

    /// A server goes down, or comes up, where there is such a server.
    fn server(&mut self, k: u64, down: bool) -> Answer
        ensures { ServerTurn self.old self.new k down result }
    {
        if k >= self.settings.servers as u64 {
            return Answer::Refused(Word::NoServer);
        }
        if down {
            self.replicas.down(k as u8);
            return Answer::Okay;
        }
        self.replicas.up(k as u8);
        Answer::Okay
    }
}
