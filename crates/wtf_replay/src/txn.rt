//! Transactions.

ghost use Rattle.std.specs.Prelude.{◌≡◌, ◌≢◌, ◌+◌, ◌<◌, ◌^◌, ℕ, [], ◌∷◌, ◌++◌, false, Ok, IsTrue, IfOk, OnOk, OnErr, length, nat_eq};
ghost use Rattle.std.specs.Set.{remove_key};
ghost use Rattle.wtf_kv.specs.Stores.{is_pinned, IsPinnedOnceMore};
ghost use Rattle.wtf_model.specs.declared.limits.TheConstants.{MAX_LOGGED};
ghost use Rattle.wtf_model.specs.Form.{IsFormOp, IsData};
ghost use Rattle.wtf_meta.specs.Contents.{Told};
ghost use Rattle.wtf_meta.specs.Maps.{metadata_at};
ghost use Rattle.wtf_region.specs.Devs.{IsSoundDev, stores};
ghost use Rattle.wtf_region.specs.Inside.{IsStoredInside};
ghost use Rattle.wtf_meta.specs.Sessions.{nothing_open};
ghost use Rattle.wtf_replay.specs.Views.{TxnView, untouched, begun, rebased, is_txn_live};
ghost use Rattle.wtf_replay.specs.Fits.{IsFit};
ghost use Rattle.wtf_replay.specs.Sounds.{LogStands};
ghost use Rattle.wtf_replay.specs.Insides.{IsInsideTxn};
ghost use Rattle.wtf_replay.specs.Tried.{commit_from};
ghost use Rattle.wtf_replay.specs.Verbs.{turn, AttemptOf, RestartOf, CallOf, StepOf, CommitOf, CanCommit, ended_by};

use crate::commit::finish;
use crate::ops::kept_of;
use crate::replay::{make_again, make_fresh, note};
use std::alloc::Global;
use std::marker::Model;
use wtf_base::{Bytes, Fault, InodeId, OutOfMemory, TxId};
use wtf_dev::SliceStore;
use wtf_kv::Kv;
use wtf_log::Log;
use wtf_meta::Session;
use wtf_model::{Answer, Op, Word};
use wtf_occ::{Attempt, Tried};
use wtf_region::Dev;
use wtf_values::{Key, Value};

/// A transaction. Contracts see its number, its attempt, its handles and slices, its log, how many
/// of its calls are done at its base, and whether it has ended. It keeps its base pinned until it
/// is dropped, also after it has ended.
#[derive(Drop)]
pub struct Txn {
    alloc: Global,
    tx: TxId,
    at: Attempt<Key, Value>,
    session: Session,
    log: Log,
    replayed: u32,
    ended: bool,
}

impl Model for Txn {
    ghost use Rattle.wtf_replay.specs.Views.{TxnView};

    ghost Value = { TxnView };

    ghost use Rattle.std.specs.Coded.{codes};
    ghost use Rattle.wtf_base.specs.contracts.kept.Kept as kept;
    ghost use Rattle.wtf_overlay.specs.contracts.part.Piece as piece;
    ghost use Rattle.wtf_kv.specs.contracts.changes.Change as change;
    ghost use Rattle.wtf_model.specs.contracts.op.Op as op;
    ghost use Rattle.wtf_model.specs.contracts.answer.Answer as answer;
    ghost use Rattle.wtf_values.specs.contracts.key.Key as key;
    ghost use Rattle.wtf_values.specs.contracts.value.Delta as delta;

    ghost coded = { Prim.hlevel (
      codes,
      piece.the_row.coded,
      key.the_row.coded,
      answer.the_row.coded,
      (op.the_row kept.the_row).coded,
      (change.the_row key.the_row delta.the_row).coded,
    ) };

    ghost view = { λ x. record {
      tx = x.tx.0;
      at = x.at;
      session = x.session;
      log = x.log;
      replayed = x.replayed;
      ended = x.ended;
    } };
}

/// An attempt at the number of installs, which it pins, with nothing in hand. Want of memory leaves
/// the store as it was.
fn start(
    alloc: Global,
    kv: &mut Kv<Key, Value>,
) -> Result<(Attempt<Key, Value>, Session), OutOfMemory>
    ensures hand { IfOk result (λ p. (p.0 ≡ untouched kv.old.number) × (p.1 ≡ nothing_open)) }
    ensures ok { OnOk result (kv.new ≡ record kv.old { pins = kv.old.pins ++ kv.old.number ∷ [] }) }
    ensures pinned { OnOk result (IsPinnedOnceMore kv.old.number kv.old kv.new) }
    ensures err { OnErr result (kv.new ≡ kv.old) }
{
    let number = kv.number();
    let at = Attempt::new(alloc, number)?;
    let session = Session::new(alloc)?;
    kv.pin(number)?;
    Ok((at, session))
}

impl Txn {
    /// A transaction of this number at the number of installs, which it pins. Want of memory leaves
    /// the store as it was.
    pub fn begin(alloc: Global, kv: &mut Kv<Key, Value>, tx: TxId) -> Result<Txn, OutOfMemory>
        ensures value { IfOk result (λ x. x ≡ begun tx.0 kv.old.number) }
        ensures ok { OnOk result (kv.new ≡
            record kv.old { pins = kv.old.pins ++ kv.old.number ∷ [] }) }
        ensures pinned { OnOk result (IsPinnedOnceMore kv.old.number kv.old kv.new) }
        ensures err { OnErr result (kv.new ≡ kv.old) }
        ensures fit { IfOk result (λ x. IsFit kv.new x) }
        ensures sound { IfOk result
            (λ x. (size : ℕ) (told : Told) → LogStands size kv.new told x []) }
    {
        let log = Log::new(alloc)?;
        let (at, session) = start(alloc, kv)?;
        Ok(Txn {
            alloc,
            tx,
            at,
            session,
            log,
            replayed: 0,
            ended: false,
        })
    }

    /// Its number.
    pub fn number(&self) -> u64
        ensures { result ≡ self.now.tx }
    {
        self.tx.0
    }

    /// Whether it has ended.
    pub fn ended(&self) -> bool
        ensures { result ≡ self.now.ended }
    {
        self.ended
    }

    /// Whether all of its calls are done at its base.
    fn is_live(&self) -> bool
        ensures { result ≡ is_txn_live self.now }
    {
        self.replayed == self.log.len()
    }

    /// Makes a call, and logs it with its answer and with the slice that was stored of its data.
    /// Instead it is refused as `Replaying` while a replay runs, and as `Full` where the log is full:
    /// these log nothing and leave all as it was. After a fault the transaction is as it was; where
    /// memory was short, handles may have moved.
    pub fn call<S: SliceStore>(
        &mut self,
        dev: &mut Dev<'_, S>,
        kv: &Kv<Key, Value>,
        op: Op<Bytes>,
    ) -> Result<Answer, Fault>
        requires going { self.old.ended ≡ false }
        requires sound { IsSoundDev S.kind dev.old }
        requires fit { IsFit kv.now self.old }
        requires inside { IsInsideTxn S.kind (stores dev.old) dev.old.settings kv.now self.old }
        requires form { IsFormOp IsData op }
        ensures call { CallOf (turn S.kind dev.old dev.new kv.now kv.now self.old self.new) op
            result }
    {
        if !self.is_live() {
            return Ok(Answer::Refused(Word::Replaying));
        }
        if self.log.is_full() {
            return Ok(Answer::Refused(Word::Full));
        }
        self.call_live(dev, kv, op)
    }

    /// Makes a call, where all others are done and the log has room.
    fn call_live<S: SliceStore>(
        &mut self,
        dev: &mut Dev<'_, S>,
        kv: &Kv<Key, Value>,
        op: Op<Bytes>,
    ) -> Result<Answer, Fault>
        requires going { self.old.ended ≡ false }
        requires sound { IsSoundDev S.kind dev.old }
        requires fit { IsFit kv.now self.old }
        requires inside { IsInsideTxn S.kind (stores dev.old) dev.old.settings kv.now self.old }
        requires live { self.old.replayed ≡ length self.old.log.ops }
        requires room { length self.old.log.ops ≢ MAX_LOGGED }
        requires form { IsFormOp IsData op }
        ensures call { CallOf (turn S.kind dev.old dev.new kv.now kv.now self.old self.new) op
            result }
    {
        let mark = self.at.mark();
        let _few = self.log.len();
        let new = InodeId {
            tx: self.tx,
            index: self.replayed + 1,
        };
        let done = match make_fresh(
            self.alloc,
            dev,
            kv,
            &mut self.at,
            &mut self.session,
            new,
            &op,
        ) {
            Ok(done) => done,
            Err(why) => return Err(why),
        };
        let kept = kept_of(op, done.own);
        let answer = done.answer;
        if let Err(why) = note(self.alloc, &mut self.log, kept, &answer) {
            self.at.rewind(mark);
            return Err(why);
        }
        self.replayed = self.replayed + 1;
        Ok(answer)
    }

    /// Installs the changes where no key is in the way, and ends. Else it begins again at the
    /// number, with all calls to be replayed: a recorded key has then changed since the base, or a
    /// change does not fit. It is refused as `Replaying` while a replay runs. Want of memory leaves
    /// the transaction, and what the store shows, as they were.
    pub fn attempt(&mut self, kv: &mut Kv<Key, Value>) -> Result<Answer, OutOfMemory>
        requires going { self.old.ended ≡ false }
        requires fit { IsFit kv.old self.old }
        requires room { kv.old.number < 2 ^ 63 }
        ensures { AttemptOf kv.old kv.new self.old self.new result }
    {
        if !self.is_live() {
            return Ok(Answer::Refused(Word::Replaying));
        }
        self.attempt_live(kv)
    }

    /// Installs the changes where no key is in the way, else begins again.
    fn attempt_live(&mut self, kv: &mut Kv<Key, Value>) -> Result<Answer, OutOfMemory>
        requires going { self.old.ended ≡ false }
        requires fit { IsFit kv.old self.old }
        requires live { self.old.replayed ≡ length self.old.log.ops }
        requires room { kv.old.number < 2 ^ 63 }
        ensures { AttemptOf kv.old kv.new self.old self.new result }
    {
        let _number = kv.number();
        let tried = match self.at.install(kv) {
            Ok(tried) => tried,
            Err(why) => return Err(why),
        };
        match tried {
            Tried::Installed(n) => {
                self.ended = true;
                return Ok(Answer::Committed(n));
            }
            Tried::Conflict { .. } => {
                let base = self.at.base();
                let number = kv.number();
                if let Err(why) = self.restart(kv) {
                    return Err(why);
                }
                return Ok(Answer::Retry { base, now: number });
            }
        }
    }

    /// Begins again at the number.
    fn restart(&mut self, kv: &mut Kv<Key, Value>) -> Result<(), OutOfMemory>
        requires { IsTrue (is_pinned kv.old self.old.at.base) }
        ensures { RestartOf kv.old kv.new self.old self.new result }
    {
        let (at, session) = start(self.alloc, kv)?;
        let base = self.at.base();
        kv.unpin(base);
        self.at = at;
        self.session = session;
        self.replayed = 0;
        Ok(())
    }

    /// Replays the next call. Where its answer is what was shown, it answers `Replayed`, else
    /// `Aborted`, and ends. It is refused as `Live` where no replay runs. It stores nothing. After
    /// a fault the transaction is as it was.
    pub fn step<S: SliceStore>(
        &mut self,
        dev: &mut Dev<'_, S>,
        kv: &Kv<Key, Value>,
    ) -> Result<Answer, Fault>
        requires going { self.old.ended ≡ false }
        requires sound { IsSoundDev S.kind dev.old }
        requires fit { IsFit kv.now self.old }
        requires inside { IsInsideTxn S.kind (stores dev.old) dev.old.settings kv.now self.old }
        ensures step { StepOf (turn S.kind dev.old dev.new kv.now kv.now self.old self.new)
            result }
    {
        if self.is_live() {
            return Ok(Answer::Refused(Word::Live));
        }
        self.step_next(dev, kv)
    }

    /// Replays the next call. The answer that ends a transaction has its memory before the call is
    /// made, since a handle that has moved is not moved back.
    fn step_next<S: SliceStore>(
        &mut self,
        dev: &mut Dev<'_, S>,
        kv: &Kv<Key, Value>,
    ) -> Result<Answer, Fault>
        requires going { self.old.ended ≡ false }
        requires sound { IsSoundDev S.kind dev.old }
        requires fit { IsFit kv.now self.old }
        requires inside { IsInsideTxn S.kind (stores dev.old) dev.old.settings kv.now self.old }
        requires left { self.old.replayed < length self.old.log.ops }
        ensures step { StepOf (turn S.kind dev.old dev.new kv.now kv.now self.old self.new)
            result }
    {
        let k = self.replayed;
        let mut held = match Box::new(self.alloc, Answer::Okay) {
            Ok(held) => held,
            Err(_) => return Err(Fault::Memory),
        };
        let (answer, same) = match make_again(
            self.alloc,
            dev,
            kv,
            &mut self.at,
            &mut self.session,
            self.tx,
            &self.log,
            k,
        ) {
            Ok(both) => both,
            Err(why) => return Err(why),
        };
        let _few = self.log.len();
        if same {
            self.replayed = k + 1;
            return Ok(Answer::Replayed(k + 1));
        }
        *held = answer;
        self.ended = true;
        Ok(Answer::Aborted(k + 1, held))
    }

    /// Commits, or aborts, and ends. A live transaction is installed where no key is in the way.
    /// Else, and where a replay runs, its calls are made once more on the map now, all of them or
    /// those that are left of a replay that runs there, and installed where each answers what was
    /// shown. It stores nothing. After a fault the transaction is as it was, and the store shows
    /// what it showed.
    pub fn commit<S: SliceStore>(
        &mut self,
        dev: &mut Dev<'_, S>,
        kv: &mut Kv<Key, Value>,
    ) -> Result<Answer, Fault>
        requires going { self.old.ended ≡ false }
        requires sound { IsSoundDev S.kind dev.old }
        requires fit { IsFit kv.old self.old }
        requires inside { IsInsideTxn S.kind (stores dev.old) dev.old.settings kv.old self.old }
        requires inside_now { IsStoredInside S.kind (stores dev.old) dev.old.settings
            (metadata_at kv.old kv.old.number) }
        requires room { kv.old.number < 2 ^ 63 }
        ensures commit { CommitOf (turn S.kind dev.old dev.new kv.old kv.new self.old self.new)
            result }
    {
        if self.is_live() {
            return self.commit_live(dev, kv);
        }
        if self.at.base() == kv.number() {
            return self.go_on(dev, kv);
        }
        self.start_over(dev, kv)
    }

    /// Installs the changes where no key is in the way, else makes all calls once more at the
    /// number.
    fn commit_live<S: SliceStore>(
        &mut self,
        dev: &mut Dev<'_, S>,
        kv: &mut Kv<Key, Value>,
    ) -> Result<Answer, Fault>
        requires ready { CanCommit S.kind dev.old kv.old self.old }
        requires live { self.old.replayed ≡ length self.old.log.ops }
        ensures commit { CommitOf (turn S.kind dev.old dev.new kv.old kv.new self.old self.new)
            result }
    {
        // The base is pinned, so it is no greater than the number.
        let _number = kv.number();
        let tried = match self.at.install(kv) {
            Ok(tried) => tried,
            Err(_) => return Err(Fault::Memory),
        };
        match tried {
            Tried::Installed(n) => {
                self.ended = true;
                return Ok(Answer::Committed(n));
            }
            Tried::Conflict { .. } => return self.start_over(dev, kv),
        }
    }

    /// Goes on with a replay that runs at the number, and installs what was done. The calls are
    /// made with a copy of what is in hand, and the attempt is put back.
    fn go_on<S: SliceStore>(
        &mut self,
        dev: &mut Dev<'_, S>,
        kv: &mut Kv<Key, Value>,
    ) -> Result<Answer, Fault>
        requires ready { CanCommit S.kind dev.old kv.old self.old }
        requires base { self.old.at.base ≡ kv.old.number }
        requires from { commit_from kv.old self.old ≡ self.old }
        ensures commit { CommitOf (turn S.kind dev.old dev.new kv.old kv.new self.old self.new)
            result }
    {
        let mark = self.at.mark();
        let mut hand = match self.session.copy(self.alloc) {
            Ok(session) => session,
            Err(_) => return Err(Fault::Memory),
        };
        let at = &mut self.at;
        let from = self.replayed;
        let ended = finish(self.alloc, dev, kv, at, &mut hand, self.tx, &self.log, from);
        self.at.rewind(mark);
        self.end(ended)
    }

    /// Makes all calls once more at the number, which is pinned as long as that takes, and installs
    /// what they did.
    fn start_over<S: SliceStore>(
        &mut self,
        dev: &mut Dev<'_, S>,
        kv: &mut Kv<Key, Value>,
    ) -> Result<Answer, Fault>
        requires ready { CanCommit S.kind dev.old kv.old self.old }
        requires from { commit_from kv.old self.old ≡ rebased self.old kv.old.number }
        ensures commit { CommitOf (turn S.kind dev.old dev.new kv.old kv.new self.old self.new)
            result }
    {
        let number = kv.number();
        let (mut at, mut session) = match start(self.alloc, kv) {
            Ok(both) => both,
            Err(_) => return Err(Fault::Memory),
        };
        let ended = finish(
            self.alloc,
            dev,
            kv,
            &mut at,
            &mut session,
            self.tx,
            &self.log,
            0,
        );
        kv.unpin(number);
        self.end(ended)
    }

    /// Hands on what a replay came to. An answer ends the transaction.
    fn end(&mut self, ended: Result<Answer, Fault>) -> Result<Answer, Fault>
        ensures result { result ≡ ended }
        ensures new { self.new ≡ ended_by self.old ended }
    {
        match ended {
            Ok(answer) => {
                self.ended = true;
                return Ok(answer);
            }
            Err(why) => return Err(why),
        }
    }

    /// Drops the transaction, and undoes the pin of its base. It takes no memory.
    pub fn drop_all(self, kv: &mut Kv<Key, Value>)
        requires { IsTrue (is_pinned kv.old self.at.base) }
        ensures rest { kv.new ≡
            record kv.old { pins = remove_key (nat_eq self.at.base) kv.old.pins } }
        ensures once { IsPinnedOnceMore self.at.base kv.new kv.old }
    {
        kv.unpin(self.at.base());
    }
}
