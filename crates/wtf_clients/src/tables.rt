//! The metadata with the open transactions and jobs, and what a line makes of them.

ghost use Rattle.std.specs.Prelude.{◌≡◌, ◌+◌, ◌<◌, ◌^◌, ℕ, [], ◌∷◌, None, Some, Ok, IsTrue, IfOk, OnOk, OnErr, IfSome, MatchOption};
ghost use Rattle.std.specs.Set.{remove_key};
ghost use Rattle.std.specs.Prelude.{◌≤◌, nat_eq, count_by, length};
ghost use Rattle.wtf_ring.specs.Points.{IsRing};
ghost use Rattle.wtf_kv.specs.Stores.{is_pinned, times_pinned, IsPinnedOnceMore};
ghost use Rattle.wtf_model.specs.Form.{IsFormOp, IsData};
ghost use Rattle.wtf_model.specs.declared.answer.Word.TheVariants.{InTx, NoTx};
ghost use Rattle.wtf_model.specs.declared.event.Event.TheVariants as event;
ghost use Rattle.wtf_model.specs.declared.event.Verb.TheVariants as verb;
ghost use Rattle.wtf_region.specs.Devs.{IsSoundDev, GoesOn, stores, remembered, between};
ghost use Rattle.wtf_region.specs.Inside.{is_inside};
ghost use Rattle.wtf_meta.specs.Bytes.{any_slice};
ghost use Rattle.wtf_meta.specs.Trees.{IsFirst};
ghost use Rattle.wtf_clients.specs.Views.{BesideView, of_client, metadata_now, unsaved, watching};
ghost use Rattle.wtf_clients.specs.Sounds.{AreSound, Sets, IsAlike, IsTidied, all_kept, all_watched};
ghost use Rattle.wtf_clients.specs.Saves.{with_image, only_image, HasImage, Saves};
ghost use Rattle.wtf_image.specs.Saving.{IsSaveOf};
ghost use Rattle.wtf_model.specs.declared.limits.TheConstants.{MAX_JOBS};
ghost use Rattle.wtf_clients.specs.Turns.{Refuses, Begins, TryTurn, Drops};
ghost use Rattle.wtf_clients.specs.JobTurns.{PutTurn, DropTurn};
ghost use Rattle.wtf_clients.specs.ScanTurns.{ScanTurn, PieceTurn, CollectTurn, IsPruned, NoneOld, HoldsBack, SeesUpto};
ghost use Rattle.wtf_clients.specs.Safe.{LieIn};
ghost use Rattle.wtf_replica.specs.Inside.{size_in};
ghost use Rattle.wtf_replica.specs.Outs.{SameLengths};
ghost use Rattle.wtf_clients.specs.Named.{TablesBytes};
ghost use Rattle.wtf_clients.specs.Asked.{lent_by};
ghost use Rattle.wtf_clients.specs.Leaving.{LeavesAlone};
ghost use Rattle.wtf_clients.specs.Lines.{line, LineOf};
ghost use Rattle.wtf_clients.specs.Serves.{ServesLine};
ghost use Rattle.wtf_clients.specs.Telling.{TellsTables, ReadsTold};

use crate::beside::Beside;
use crate::dump::dump_now;
use crate::faults::answer_to;
use crate::regions::plan_refusal;
use indexmap::IndexMap;
use std::alloc::Global;
use std::marker::Model;
use wtf_base::{Bytes, OutOfMemory, Settings, TxId};
use wtf_compact::{PutFault, drop_job, plan, put};
use wtf_dev::{Shelf, SliceStore};
use wtf_image::{Loaded, save};
use wtf_kv::Kv;
use wtf_model::{Answer, Holder, JobKind, Op, Word};
use wtf_path::Path;
use wtf_region::Dev;
use wtf_replay::Txn;
use wtf_values::{Key, NameSet, Node, Value};

/// The store of the metadata, the number of the transaction that begins next, the open transactions
/// by client, in the order of their begin, and, beside them, which images may be on the keeper, which
/// number is watched, the jobs by label and the scans.
#[derive(Drop)]
pub struct Tables {
    alloc: Global,
    kv: Kv<Key, Value>,
    next_tx: u64,
    clients: IndexMap<u8, Txn>,
    beside: Beside,
}

impl Model for Tables {
    ghost use Rattle.wtf_clients.specs.Sounds.{AreSound};
    ghost use Rattle.wtf_clients.specs.Views.{TablesView};

    ghost Value = { TablesView };

    ghost use Rattle.std.specs.Coded.{codes};
    ghost use Rattle.wtf_values.specs.contracts.key.Key as key;
    ghost use Rattle.wtf_values.specs.contracts.value.Value as value;
    ghost use Rattle.wtf_replay.specs.contracts.txn.Txn as txn;
    ghost use Rattle.wtf_compact.specs.contracts.job.Job as job;

    ghost coded = { Prim.hlevel (
      codes,
      key.the_row.coded,
      value.the_row.coded,
      txn.the_row.coded,
      job.the_row.coded,
    ) };

    ghost view = { λ t. record {
      kv = t.kv;
      next_tx = t.next_tx;
      clients = t.clients.entries;
      beside = t.beside;
    } };

    ghost invariant = { λ t. AreSound (record {
      kv = t.kv;
      next_tx = t.next_tx;
      clients = t.clients.entries;
      beside = t.beside;
    }) };
}

impl Tables {
    /// The root alone, no transaction, and nothing saved.
    pub fn new(alloc: Global) -> Result<Tables, OutOfMemory>
        ensures number { IfOk result (λ t. t.kv.number ≡ 0) }
        ensures next { IfOk result (λ t. t.next_tx ≡ 1) }
        ensures clients { IfOk result (λ t. t.clients ≡ []) }
        ensures beside { IfOk result (λ t. t.beside ≡ unsaved) }
        ensures first { IfOk result (λ t. IsFirst (metadata_now t.kv)) }
        ensures sound { IfOk result (λ t. AreSound t) }
    {
        let mut kv: Kv<Key, Value> = Kv::new(alloc)?;
        let root = match Path::parse(alloc, b"/") {
            Ok(root) => root,
            Err(_) => return Err(OutOfMemory),
        };
        let top = root.copy(alloc)?;
        kv.seed(Key::Path(root), Value::Node(Node::Folder))?;
        kv.seed(Key::Dir(top), Value::Names(NameSet::new(alloc)))?;
        let beside = Beside::new(alloc)?;
        Ok(Tables {
            alloc,
            kv,
            next_tx: 1,
            clients: IndexMap::new(alloc),
            beside,
        })
    }

    /// What was loaded of the keeper's image, and no transaction. The number is pinned for the image.
    pub fn of_image(alloc: Global, loaded: Loaded) -> Result<Tables, OutOfMemory>
        requires pins { loaded.kv.pins ≡ [] }
        requires begun { 0 < loaded.next_tx }
        ensures kv { IfOk result
            (λ t. t.kv ≡ record loaded.kv { pins = loaded.kv.number ∷ [] }) }
        ensures next { IfOk result (λ t. t.next_tx ≡ loaded.next_tx) }
        ensures clients { IfOk result (λ t. t.clients ≡ []) }
        ensures beside { IfOk result (λ t. t.beside ≡ only_image unsaved loaded.kv.number) }
        ensures sound { IfOk result (λ t. AreSound t) }
    {
        let mut kv = loaded.kv;
        let number = kv.number();
        kv.pin(number)?;
        let beside = Beside::of(alloc, number)?;
        Ok(Tables {
            alloc,
            kv,
            next_tx: loaded.next_tx,
            clients: IndexMap::new(alloc),
            beside,
        })
    }

    /// The number of installs. All tables are sound.
    pub fn number(&self) -> u64
        ensures number { result ≡ self.now.kv.number }
        ensures sound { AreSound self.now }
    {
        self.kv.number()
    }

    /// The number of the transaction that begins next.
    pub fn next_tx(&self) -> u64
        ensures { result ≡ self.now.next_tx }
    {
        self.next_tx
    }

    /// The store of the metadata.
    pub fn kv(&self) -> &Kv<Key, Value>
        ensures { result.now ≡ self.now.kv }
    {
        &self.kv
    }

    /// A transaction begins for a client that has none.
    pub fn begin(&mut self, c: u8) -> Result<Answer, OutOfMemory>
        requires room { self.old.next_tx < 2 ^ 63 }
        ensures turn { IfOk result (λ a. MatchOption (of_client self.old.clients c)
            (Begins self.old self.new c a) (λ x. Refuses self.old self.new c InTx a)) }
        ensures err { OnErr result (IsAlike self.old self.new) }
    {
        if self.clients.contains_key(&c) {
            return Ok(Answer::Refused(Word::InTx));
        }
        if let Err(_) = self.clients.reserve(1) {
            return Err(OutOfMemory);
        }
        let number = self.kv.number();
        let txn = match Txn::begin(self.alloc, &mut self.kv, TxId(self.next_tx)) {
            Ok(txn) => txn,
            Err(why) => return Err(why),
        };
        match self.clients.insert(c, txn) {
            Ok(_) => {
                self.next_tx = self.next_tx + 1;
                return Ok(Answer::Begun(number));
            }
            Err(_) => unreachable!(),
        }
    }

    /// A call of a client.
    pub fn call<S: SliceStore>(
        &mut self,
        dev: &mut Dev<'_, S>,
        c: u8,
        op: Op<Bytes>,
    ) -> Result<Answer, OutOfMemory>
        requires dev { IsSoundDev S.kind dev.old }
        requires ring { IsRing dev.old.settings.servers dev.old.ring.now.points }
        requires inside { TablesBytes (is_inside S.kind (stores dev.old) dev.old.settings)
            any_slice self.old }
        requires form { IsFormOp IsData op }
        ensures { LineOf (line S.kind dev.old dev.new self.old self.new)
            (event.Client c (verb.Call op)) result }
    {
        let Some(txn) = self.clients.get_mut(&c) else {
            return Ok(Answer::Refused(Word::NoTx));
        };
        let answer = match txn.call(dev, &self.kv, op) {
            Ok(answer) => answer,
            Err(why) => return answer_to(why),
        };
        Ok(answer)
    }

    /// A client's attempt to commit.
    pub fn attempt(&mut self, c: u8) -> Result<Answer, OutOfMemory>
        requires room { self.old.kv.number < 2 ^ 63 }
        ensures turn { IfOk result (λ a. MatchOption (of_client self.old.clients c)
            (Refuses self.old self.new c NoTx a) (λ x. TryTurn self.old self.new c x a)) }
        ensures err { OnErr result (IsAlike self.old self.new) }
    {
        let Some(txn) = self.clients.get_mut(&c) else {
            return Ok(Answer::Refused(Word::NoTx));
        };
        let answer = match txn.attempt(&mut self.kv) {
            Ok(answer) => answer,
            Err(why) => return Err(why),
        };
        if !txn.ended() {
            return Ok(answer);
        }
        end(&mut self.clients, &mut self.kv, c);
        Ok(answer)
    }

    /// A client's next call is replayed.
    pub fn step<S: SliceStore>(
        &mut self,
        dev: &mut Dev<'_, S>,
        c: u8,
    ) -> Result<Answer, OutOfMemory>
        requires dev { IsSoundDev S.kind dev.old }
        requires ring { IsRing dev.old.settings.servers dev.old.ring.now.points }
        requires inside { TablesBytes (is_inside S.kind (stores dev.old) dev.old.settings)
            any_slice self.old }
        ensures { LineOf (line S.kind dev.old dev.new self.old self.new)
            (event.Client c verb.Step) result }
    {
        let Some(txn) = self.clients.get_mut(&c) else {
            return Ok(Answer::Refused(Word::NoTx));
        };
        let answer = match txn.step(dev, &self.kv) {
            Ok(answer) => answer,
            Err(why) => return answer_to(why),
        };
        if !txn.ended() {
            return Ok(answer);
        }
        end(&mut self.clients, &mut self.kv, c);
        Ok(answer)
    }

    /// A client's commit, by an attempt or by a replay of all calls.
    pub fn commit<S: SliceStore>(
        &mut self,
        dev: &mut Dev<'_, S>,
        c: u8,
    ) -> Result<Answer, OutOfMemory>
        requires dev { IsSoundDev S.kind dev.old }
        requires ring { IsRing dev.old.settings.servers dev.old.ring.now.points }
        requires inside { TablesBytes (is_inside S.kind (stores dev.old) dev.old.settings)
            any_slice self.old }
        requires room { self.old.kv.number < 2 ^ 63 }
        ensures { LineOf (line S.kind dev.old dev.new self.old self.new)
            (event.Client c verb.Commit) result }
    {
        let Some(txn) = self.clients.get_mut(&c) else {
            return Ok(Answer::Refused(Word::NoTx));
        };
        let answer = match txn.commit(dev, &mut self.kv) {
            Ok(answer) => answer,
            Err(why) => return answer_to(why),
        };
        end(&mut self.clients, &mut self.kv, c);
        Ok(answer)
    }

    /// Shows all bytes of the file at a path as it stands now.
    pub fn dump<S: SliceStore>(
        &mut self,
        dev: &mut Dev<'_, S>,
        p: &Path,
    ) -> Result<Answer, OutOfMemory>
        requires dev { IsSoundDev S.kind dev.old }
        requires ring { IsRing dev.old.settings.servers dev.old.ring.now.points }
        requires inside { TablesBytes (is_inside S.kind (stores dev.old) dev.old.settings)
            any_slice self.old }
        ensures { LineOf (line S.kind dev.old dev.new self.old self.new)
            (event.Dump p.now) result }
    {
        match dump_now(self.alloc, dev, &mut self.kv, p) {
            Ok(answer) => return Ok(answer),
            Err(why) => return answer_to(why),
        }
    }

    /// A client gives its transaction up.
    pub fn abort(&mut self, c: u8) -> Answer
        ensures turn { MatchOption (of_client self.old.clients c)
            (Refuses self.old self.new c NoTx result)
            (λ x. Drops self.old self.new c x result) }
    {
        if !self.clients.contains_key(&c) {
            return Answer::Refused(Word::NoTx);
        }
        end(&mut self.clients, &mut self.kv, c);
        Answer::Okay
    }

    /// Plans a job of a region of the file at a path as it stands now, under label `j`: `Planned`.
    /// Refused, in this order: `JobInUse` where the label has a job, `NoEnt`, `IsDir`, and `NoRegion`
    /// above the file's last region. `FaultRead` and `Damaged` come of the region's list, `FaultWrite` of
    /// a spill; the label has no job then.
    pub fn plan<S: SliceStore>(
        &mut self,
        dev: &mut Dev<'_, S>,
        j: u8,
        kind: JobKind,
        p: &Path,
        region: u64,
    ) -> Result<Answer, OutOfMemory>
        requires dev { IsSoundDev S.kind dev.old }
        requires ring { IsRing dev.old.settings.servers dev.old.ring.now.points }
        requires inside { TablesBytes (is_inside S.kind (stores dev.old) dev.old.settings)
            any_slice self.old }
        requires label { j < MAX_JOBS }
        ensures { LineOf (line S.kind dev.old dev.new self.old self.new)
            (event.Plan j kind p.now region) result }
    {
        if self.beside.has_job(j) {
            return Ok(Answer::Refused(Word::JobInUse));
        }
        let refusal = match plan_refusal(self.alloc, &self.kv, p, region, dev.settings) {
            Ok(refusal) => refusal,
            Err(why) => return Err(why),
        };
        if let Some(word) = refusal {
            return Ok(Answer::Refused(word));
        }
        // a file has at most 4,096 regions, so the number fits
        let job = match plan(self.alloc, dev, &mut self.kv, p, region as u16, kind) {
            Ok(job) => job,
            Err(why) => return answer_to(why),
        };
        self.beside.plan_job(j, job);
        Ok(Answer::Planned)
    }

    /// Puts what job `j` planned in its region's place: `Installed` with the new number, or `Stale` where
    /// the path or the region has a newer version. Either ends the job. Refused `NoJob` where the label
    /// has none. Want of memory leaves the job.
    pub fn put_job(&mut self, j: u8) -> Result<Answer, OutOfMemory>
        requires room { self.old.kv.number < 2 ^ 63 }
        requires label { j < MAX_JOBS }
        ensures turn { IfOk result (PutTurn self.old self.new j) }
        ensures err { OnErr result (IsAlike self.old self.new) }
    {
        let Some(job) = self.beside.take_job(j) else {
            return Ok(Answer::Refused(Word::NoJob));
        };
        match put(job, &mut self.kv) {
            Ok(answer) => Ok(answer),
            Err(PutFault::Memory(back)) => {
                self.beside.set_job(j, back);
                Err(OutOfMemory)
            }
        }
    }

    /// Drops job `j` and the pin of its base; refused `NoJob` where the label has none. It takes no memory.
    pub fn drop_job(&mut self, j: u8) -> Answer
        requires label { j < MAX_JOBS }
        ensures turn { DropTurn self.old self.new j result }
    {
        let Some(job) = self.beside.take_job(j) else {
            return Answer::Refused(Word::NoJob);
        };
        drop_job(job, &mut self.kv);
        Answer::Okay
    }

    /// Starts a scan of what is in use. It is refused while one runs, and held back while a transaction or
    /// a job is open that was open when the last one began. Want of memory starts nothing.
    pub fn scan<S: SliceStore>(&mut self, shelf: &Shelf<S>) -> Result<Answer, OutOfMemory>
        ensures turn { IfOk result (ScanTurn S.kind shelf.now self.old self.new) }
        ensures err { OnErr result (IsAlike self.old self.new) }
    {
        if self.beside.scans() {
            return Ok(Answer::Refused(Word::ScanBusy));
        }
        if let Some(c) = self.first_old() {
            return Ok(Answer::Held(Holder::Client(c)));
        }
        if let Some(j) = self.beside.lowest_old() {
            return Ok(Answer::Held(Holder::Job(j)));
        }
        self.beside.begin_scan(&mut self.kv, shelf, self.next_tx)?;
        Ok(Answer::Scanning)
    }

    /// Does the next parts of the scan that runs, so many or all that are left. A fault leaves the scan
    /// as it was.
    pub fn piece<S: SliceStore>(
        &mut self,
        dev: &mut Dev<'_, S>,
        parts: u8,
    ) -> Result<Answer, OutOfMemory>
        requires dev { IsSoundDev S.kind dev.old }
        requires ring { IsRing dev.old.settings.servers dev.old.ring.now.points }
        requires inside { TablesBytes (is_inside S.kind (stores dev.old) dev.old.settings)
            any_slice self.old }
        ensures turn { IfOk result
            (PieceTurn S.kind dev.old dev.new self.old self.new parts) }
        ensures serves { IfOk result (ServesLine S.kind (between dev.old dev.new)
            (lent_by dev.old dev.new) self.old self.new (event.Piece parts)) }
        ensures leaves { LeavesAlone S.kind (between dev.old dev.new) (lent_by dev.old dev.new)
            self.old (event.Piece parts) }
        ensures unread { IfOk result (λ a. TellsTables S.kind (stores dev.old) dev.old.settings
            (remembered dev.old) self.old → ReadsTold S.kind (between dev.old dev.new)
            dev.old.settings self.old a) }
        ensures err { OnErr result (IsPruned self.old self.new) }
        ensures dev { GoesOn S.kind dev.old dev.new [] }
    {
        if !self.beside.scans() {
            return Ok(Answer::Refused(Word::NoScan));
        }
        let done = self.beside.do_parts(dev, &mut self.kv, parts);
        match done {
            Ok(left) => {
                if left > 0 {
                    return Ok(Answer::More(left));
                }
                return Ok(Answer::Done);
            }
            Err(why) => return answer_to(why),
        }
    }

    /// Frees what is garbage of server `k`, once two scans have finished.
    pub fn collect<S: SliceStore>(
        &mut self,
        dev: &mut Dev<'_, S>,
        k: u64,
    ) -> Result<Answer, OutOfMemory>
        requires dev { IsSoundDev S.kind dev.old }
        requires ring { IsRing dev.old.settings.servers dev.old.ring.now.points }
        requires inside { TablesBytes (is_inside S.kind (stores dev.old) dev.old.settings)
            any_slice self.old }
        requires lie { LieIn self.old.beside.gc (size_in S.kind (stores dev.old)) }
        ensures turn { IfOk result
            (CollectTurn S.kind dev.old dev.new self.old self.new k) }
        ensures serves { IfOk result (ServesLine S.kind (between dev.old dev.new)
            (lent_by dev.old dev.new) self.old self.new (event.Collect k)) }
        ensures leaves { LeavesAlone S.kind (between dev.old dev.new) (lent_by dev.old dev.new)
            self.old (event.Collect k) }
        ensures err { OnErr result (self.new ≡ self.old) }
        ensures dev_err { OnErr result (GoesOn S.kind dev.old dev.new []) }
        ensures lengths { SameLengths S.kind (stores dev.old) (stores dev.new) }
    {
        let servers = dev.settings.servers;
        if k >= servers as u64 {
            return Ok(Answer::Refused(Word::NoServer));
        }
        if self.beside.finished() < 2 {
            return Ok(Answer::Refused(Word::NoScan));
        }
        match self.beside.free(dev, k as u8) {
            Ok(bytes) => return Ok(Answer::Collected(bytes)),
            Err(why) => return answer_to(why),
        }
    }

    /// The client whose transaction began first of those that were open when the last scan began, if one
    /// is open still.
    fn first_old(&self) -> Option<u8>
        ensures { MatchOption result (NoneOld self.now) (HoldsBack self.now) }
    {
        let mut first = None;
        let mut least = self.beside.scan_tx();
        let mut i = 0;
        while i < self.clients.len() {
            let (client, number) = self.older_of(i, first, least);
            first = client;
            least = number;
            i += 1;
        }
        first
    }

    /// Of the client that was found so far, with the number of its transaction, and that of an entry the
    /// one whose transaction began first.
    fn older_of(&self, i: usize, first: Option<u8>, least: u64) -> (Option<u8>, u64)
        requires { SeesUpto self.now.clients self.now.beside.scan_tx first least i }
        ensures { SeesUpto self.now.clients self.now.beside.scan_tx result.0 result.1 (i + 1) }
    {
        let Some((c, txn)) = self.clients.get_index(i) else {
            return (first, least);
        };
        let number = txn.number();
        if number < least {
            return (Some(*c), number);
        }
        (first, least)
    }

    /// Drops versions that no one sees any more, once there are enough of them.
    pub fn tidy(&mut self)
        ensures tidied { IsTidied self.old self.new }
        ensures sound { AreSound self.new }
    {
        self.kv.prune_when_due();
    }

    /// The number that is watched, if there is one. It is pinned, so that what changed since can be told.
    pub fn watched(&self) -> Option<u64>
        ensures { result ≡ self.now.beside.watched }
    {
        self.beside.watched()
    }

    /// Watches the number of installs, in place of the number that was watched before, and marks it, so that
    /// what changes from now on is found without a walk over all keys. Want of memory leaves all as it was.
    pub fn watch(&mut self) -> Result<(), OutOfMemory>
        ensures ok { OnOk result (Saves self.old self.new
            (watching self.old.beside self.old.kv.number)) }
        ensures err { OnErr result (self.new ≡ self.old) }
    {
        let number = self.kv.number();
        // the new pin first: want of memory leaves nothing to undo
        self.kv.pin(number)?;
        let before = self.beside.watch(number);
        unpin_and_mark(&mut self.kv, before);
        Ok(())
    }

    /// The image of the store as it stands, with the settings.
    pub(crate) fn image(&self, settings: Settings) -> Result<Vec<u8>, OutOfMemory>
        ensures { IfOk result
            (λ v. IsSaveOf self.now.kv settings self.now.next_tx v.items) }
    {
        save(self.alloc, &self.kv, settings, self.next_tx)
    }

    /// The image of the number may be on the keeper from now on, beside the others. Want of memory
    /// leaves all as it was.
    pub(crate) fn keep_image(&mut self) -> Result<(), OutOfMemory>
        ensures ok { OnOk result (Saves self.old self.new
            (with_image self.old.beside self.old.kv.number)) }
        ensures pinned { OnOk result (IsTrue (is_pinned self.new.kv self.old.kv.number)) }
        ensures err { OnErr result (self.new ≡ self.old) }
    {
        let number = self.kv.number();
        self.beside.add(number)?;
        if let Err(why) = self.kv.pin(number) {
            self.beside.drop_last();
            return Err(why);
        }
        Ok(())
    }

    /// The image that was kept last was not handed to the keeper.
    pub(crate) fn forget_image(&mut self)
        requires pinned { IsTrue (is_pinned self.old.kv self.old.kv.number) }
        requires some { 0 < length self.old.beside.images }
        requires last { HasImage self.old }
        ensures { (before : BesideView) →
            self.old.beside ≡ with_image before self.old.kv.number →
            Saves self.old self.new before }
    {
        let number = self.kv.number();
        self.beside.drop_last();
        self.kv.unpin(number);
    }

    /// The image that was kept last is the only one that may be on the keeper.
    pub(crate) fn settle_image(&mut self)
        requires pinned { (n : ℕ) → all_kept n self.old.beside ≤ times_pinned self.old.kv n }
        requires some { 0 < length self.old.beside.images }
        requires last { HasImage self.old }
        ensures { (before : BesideView) →
            self.old.beside ≡ with_image before self.old.kv.number →
            Saves self.old self.new (only_image before self.old.kv.number) }
    {
        let number = self.kv.number();
        unpin_all(&mut self.kv, self.beside.others());
        self.beside.settle(number);
    }
}

/// The transaction of a client goes, with the pin of its base.
fn end(clients: &mut IndexMap<u8, Txn>, kv: &mut Kv<Key, Value>, c: u8)
    requires pinned { IfSome (of_client clients.old.entries c)
        (λ x. IsTrue (is_pinned kv.old x.at.base)) }
    ensures clients { Sets c None clients.old.entries clients.new.entries }
    ensures kv { IfSome (of_client clients.old.entries c) (λ x. kv.new ≡
        record kv.old { pins = remove_key (nat_eq x.at.base) kv.old.pins }) }
    ensures unpinned { IfSome (of_client clients.old.entries c)
        (λ x. IsPinnedOnceMore x.at.base kv.new kv.old) }
{
    match clients.shift_remove(&c) {
        Some(txn) => txn.drop_all(kv),
        None => {}
    }
}

/// Undoes the pin of a number that was watched, if there is one. The keys that change from now on are noted.
fn unpin_and_mark(kv: &mut Kv<Key, Value>, watched: Option<u64>)
    requires { (n : ℕ) → all_watched n watched ≤ times_pinned kv.old n }
    ensures pins { (n : ℕ) → times_pinned kv.new n + all_watched n watched ≡
        times_pinned kv.old n }
    ensures rest { kv.new ≡ record kv.old { pins = kv.new.pins } }
{
    match watched {
        Some(n) => kv.unpin(n),
        None => {}
    }
    kv.mark();
}

/// Undoes one pin of each of these numbers.
fn unpin_all(kv: &mut Kv<Key, Value>, numbers: &[u64])
    requires { (n : ℕ) → count_by (nat_eq n) numbers.now ≤ times_pinned kv.old n }
    ensures pins { (n : ℕ) → times_pinned kv.new n + count_by (nat_eq n) numbers.now ≡
        times_pinned kv.old n }
    ensures rest { kv.new ≡ record kv.old { pins = kv.new.pins } }
{
    for number in numbers {
        kv.unpin(*number);
    }
}
