//! Open transactions: what a client's line may be answered, and what it leaves.

ghost use Rattle.std.specs.Prelude.{◌≡◌, ◌≢◌, ◌↔◌, ◌+◌, ◌++◌, ◌∷◌, ◌<◌, ◌≤◌, List, length, take, slice_get, false, Some, IsTrue, IfOk, OnOk, OnErr, []};
ghost use Rattle.std.specs.Prelude.{vec_len};
ghost use Rattle.std.specs.Vec.{vec_capacity};
ghost use Rattle.wtf_model.specs.Call.{call};
ghost use Rattle.wtf_model.specs.Examples.{IsStoreFault};
ghost use Rattle.wtf_model.specs.Transaction.{session_after, answers_of};
ghost use Rattle.wtf_model.specs.declared.answer.Answer.{Answer};
ghost use Rattle.wtf_model.specs.declared.item.Item.{Item};
ghost use Rattle.wtf_model.specs.Faults.{IsReadFault};
ghost use Rattle.wtf_model.specs.Lawful.{Deviates, IsDone, MayInstall, MayFail, MayCall, MayStep, MayTry, MayCommit};
ghost use Rattle.wtf_model.specs.Machines.{Machine, cap_of, due, is_live, is_full};
ghost use Rattle.wtf_model.specs.Steps.{IsLogged, logged};
ghost use Rattle.wtf_machine.specs.Logs.{ops_of, shown_of, IsWarm, IsWarm_prop};
ghost use Rattle.wtf_machine.specs.Sessions.{session_in};

use crate::faults::{is_read_fault, is_store_fault, may_fail};
use crate::log::{Logged, Outcome, replay, rerun};
use crate::path_map::PathMap;
use crate::runs::{changed_by, reads_one};
use crate::workspace::Workspace;
use std::alloc::Global;
use wtf_base::{Bytes, OutOfMemory};
use wtf_model::limits::MAX_LOGGED;
use wtf_model::{Answer, Item, Op, copy_op, is_same_answer};

/// An open transaction. It keeps the session that its replayed calls have left, so that one more costs its own work alone; where
/// it is not at hand, it is made anew. `since` is how many items had been changed when it began.
#[derive(Drop)]
pub(crate) struct Begun {
    pub(crate) alloc: Global,
    pub(crate) cap: u64,
    pub(crate) stamp: u64,
    pub(crate) base: u64,
    pub(crate) since: usize,
    pub(crate) tree: PathMap,
    pub(crate) calls: Vec<Logged>,
    pub(crate) replayed: u32,
    pub(crate) warm: Option<Workspace>,
    ghost counted: { replayed ≤ length calls.items },
    ghost bounded: { length calls.items ≤ 4096 },
    ghost warm_is: { IsWarm cap tree (ops_of calls.items) replayed warm } by { IsWarm_prop cap tree (ops_of calls.items) replayed warm },
}

/// What a line of a transaction comes to, where it can't install.
#[derive(Drop)]
pub(crate) enum Verdict {
    /// The answer is not lawful.
    Unlawful,
    /// It is, and the transaction goes on.
    Goes,
    /// It is, and the transaction has ended.
    Ends,
}

/// What an attempt to commit comes to.
#[derive(Drop)]
pub(crate) enum Fate {
    /// The answer is not lawful.
    Unlawful,
    /// It is, and leaves all as it is.
    Stays,
    /// It is, and the transaction has ended with no install.
    Ends,
    /// It is, and the transaction begins anew on the tree now.
    Rebases,
    /// It is, and this is the tree from now on, where these items are changed.
    Installs(PathMap, Vec<Item>),
}

/// Whether a call that is due an answer would not be refused.
fn is_done(due: &Answer) -> bool
    ensures { IsTrue result ↔ IsDone (Some due.now) }
{
    match due {
        Answer::Refused(_) => false,
        _ => true,
    }
}

/// Adds a call to a log that has room for it.
fn add(calls: &mut Vec<Logged>, entry: Logged)
    requires room { vec_len calls.old + 1 ≤ vec_capacity calls.old }
    ensures { calls.new.items ≡ calls.old.items ++ entry ∷ [] }
{
    let room = calls.push(entry);
    drop(room);
}

impl Begun {
    ghost use Rattle.wtf_machine.specs.Verdicts.{transaction_in, seen_in, RunsWith, called_on, IsVerdict, IsFate};

    /// The session that the replayed calls have left, made anew.
    fn anew(&self) -> Result<Workspace, OutOfMemory>
        ensures { IfOk result (λ w. session_in w ≡
            session_after self.now.cap self.now.tree (take self.now.replayed (ops_of self.now.calls.items))) }
    {
        rerun(
            self.alloc,
            self.cap,
            &self.tree,
            &self.calls[..self.replayed as usize],
        )
    }

    /// The session that the replayed calls have left. It is taken out, or made anew where it is not at hand.
    fn session(&mut self) -> Result<Workspace, OutOfMemory>
        ensures left { IfOk result (λ w. session_in w ≡
            session_after self.old.cap self.old.tree (take self.old.replayed (ops_of self.old.calls.items))) }
        ensures stays { transaction_in self.new ≡ transaction_in self.old }
        ensures calls { self.new.calls ≡ self.old.calls }
        ensures cap { self.new.cap ≡ self.old.cap }
        ensures since { self.new.since ≡ self.old.since }
    {
        match self.warm.take() {
            Some(session) => Ok(session),
            None => self.anew(),
        }
    }

    /// What a call on the session is due. It is made on a second copy, and the transaction stays.
    fn due(&self, op: &Op<Bytes>) -> Result<Answer, OutOfMemory>
        ensures { IfOk result (λ a. a ≡ (call self.now.cap
            (session_after self.now.cap self.now.tree (take self.now.replayed (ops_of self.now.calls.items))) op.now).answer) }
    {
        let Some(session) = &self.warm else {
            let mut session = self.anew()?;
            return session.call(self.cap, op);
        };
        session.due(self.cap, op)
    }

    /// Room in memory for one more call in the log. All is as before.
    fn make_room(&mut self) -> Result<(), OutOfMemory>
        ensures room { OnOk result (vec_len self.new.calls + 1 ≤ vec_capacity self.new.calls) }
        ensures items { self.new.calls.items ≡ self.old.calls.items }
        ensures stays { transaction_in self.new ≡ transaction_in self.old }
        ensures cap { self.new.cap ≡ self.old.cap }
        ensures since { self.new.since ≡ self.old.since }
    {
        self.calls.reserve(1)?;
        Ok(())
    }

    /// Makes one more call: the session that it leaves, and what it answers.
    fn make(&mut self, op: &Op<Bytes>) -> Result<(Workspace, Answer), OutOfMemory>
        requires live { self.old.replayed ≡ length self.old.calls.items }
        ensures left { IfOk result (λ made. session_in made.0 ≡
            session_after self.new.cap self.new.tree (ops_of self.new.calls.items ++ op.now ∷ [])) }
        ensures due { IfOk result (λ made. (m : Machine) → cap_of m ≡ self.old.cap
            → due m (transaction_in self.old) op.now ≡ made.1) }
        ensures logged { IfOk result (λ made. IsLogged made.1) }
        ensures stays { transaction_in self.new ≡ transaction_in self.old }
        ensures calls { self.new.calls ≡ self.old.calls }
        ensures cap { self.new.cap ≡ self.old.cap }
        ensures since { self.new.since ≡ self.old.since }
    {
        let mut session = self.session()?;
        let due = session.call(self.cap, op)?;
        Ok((session, due))
    }

    /// Logs a call with its answer where there is room, and keeps the session that it has left. No memory is taken.
    fn log(&mut self, op: Op<Bytes>, shown: Answer, session: Workspace)
        requires live { self.old.replayed ≡ length self.old.calls.items }
        requires few { length self.old.calls.items < 4096 }
        requires room { vec_len self.old.calls + 1 ≤ vec_capacity self.old.calls }
        requires left { session_in session ≡
            session_after self.old.cap self.old.tree (ops_of self.old.calls.items ++ op ∷ []) }
        ensures is { transaction_in self.new ≡ logged (transaction_in self.old) op shown }
        ensures cap { self.new.cap ≡ self.old.cap }
        ensures since { self.new.since ≡ self.old.since }
    {
        add(&mut self.calls, Logged { op, shown });
        self.replayed += 1;
        self.warm = Some(session);
    }

    /// A transaction on a tree, after so many installs that have changed so many items.
    pub(crate) fn new(
        alloc: Global,
        cap: u64,
        stamp: u64,
        base: u64,
        since: usize,
        tree: PathMap,
    ) -> Begun
        ensures is { transaction_in result ≡ record {
          stamp = stamp;
          base = base;
          tree = tree;
          ops = [];
          shown = [];
          replayed = 0;
          touched = [];
        } }
        ensures cap { result.cap ≡ cap }
        ensures since { result.since ≡ since }
    {
        Begun {
            alloc,
            cap,
            stamp,
            base,
            since,
            tree,
            calls: Vec::new(alloc),
            replayed: 0,
            warm: None,
        }
    }

    /// Whether all of its calls were replayed.
    pub(crate) fn is_live(&self) -> bool
        ensures { result ≡ is_live (transaction_in self.now) }
    {
        self.replayed as usize == self.calls.len()
    }

    /// Whether its log is full.
    pub(crate) fn is_full(&self) -> bool
        ensures { result ≡ is_full (transaction_in self.now) }
    {
        self.calls.len() >= MAX_LOGGED as usize
    }

    /// Whether a store may fail in place of what a call is due.
    fn may_fail(&self, servers: u8, op: &Op<Bytes>, answer: &Answer) -> Result<bool, OutOfMemory>
        requires live { self.now.replayed ≡ length self.now.calls.items }
        ensures { IfOk result (λ yes. (m : Machine) → cap_of m ≡ self.now.cap
            → (IsTrue yes ↔ MayFail servers op.now (due m (transaction_in self.now) op.now) answer.now)) }
    {
        let due = self.due(op)?;
        let may = may_fail(servers, op, &due, answer);
        drop(due);
        Ok(may)
    }

    /// A call, where its answer is no fault and the log has room for it in memory.
    fn accept(&mut self, op: Op<Bytes>, answer: &Answer) -> Result<bool, OutOfMemory>
        requires live { self.old.replayed ≡ length self.old.calls.items }
        requires few { length self.old.calls.items < 4096 }
        requires room { vec_len self.old.calls + 1 ≤ vec_capacity self.old.calls }
        requires sound { IsStoreFault answer.now → ⊥ }
        ensures lawful { IfOk result (λ yes. (m : Machine) → cap_of m ≡ self.old.cap
            → (IsTrue yes ↔ MayCall m (transaction_in self.old) op answer.now)) }
        ensures next { IfOk result (λ yes. IsTrue yes →
            transaction_in self.new ≡ called_on (transaction_in self.old) op answer.now) }
        ensures stays { IfOk result (λ yes. yes ≡ false → transaction_in self.new ≡ transaction_in self.old) }
        ensures err { OnErr result (transaction_in self.new ≡ transaction_in self.old) }
        ensures cap { self.new.cap ≡ self.old.cap }
        ensures since { self.new.since ≡ self.old.since }
    {
        let (session, due) = self.make(&op)?;
        if !is_same_answer(&due, answer) {
            drop(op);
            drop(session);
            drop(due);
            return Ok(false);
        }
        self.log(op, due, session);
        Ok(true)
    }

    /// A call of a transaction that is live, whose log has room. An answer that is not lawful leaves the transaction.
    pub(crate) fn call(
        &mut self,
        servers: u8,
        op: &Op<Bytes>,
        answer: &Answer,
    ) -> Result<bool, OutOfMemory>
        requires live { self.old.replayed ≡ length self.old.calls.items }
        requires room { length self.old.calls.items < 4096 }
        ensures lawful { IfOk result (λ yes. (m : Machine) → RunsWith self.old.cap servers m
            → (IsTrue yes ↔ MayCall m (transaction_in self.old) op.now answer.now)) }
        ensures next { IfOk result (λ yes. IsTrue yes →
            transaction_in self.new ≡ called_on (transaction_in self.old) op.now answer.now) }
        ensures stays { IfOk result (λ yes. yes ≡ false → transaction_in self.new ≡ transaction_in self.old) }
        ensures err { OnErr result (transaction_in self.new ≡ transaction_in self.old) }
        ensures cap { self.new.cap ≡ self.old.cap }
        ensures since { self.new.since ≡ self.old.since }
    {
        if is_store_fault(answer) {
            return self.may_fail(servers, op, answer);
        }
        self.make_room()?;
        let own = copy_op(self.alloc, op)?;
        self.accept(own, answer)
    }

    /// Replays the next call on the base: the session that it leaves, and what it answers.
    fn replay_next(&mut self) -> Result<(Workspace, Answer), OutOfMemory>
        requires behind { self.old.replayed < length self.old.calls.items }
        ensures left { IfOk result (λ made. session_in made.0 ≡
            session_after self.old.cap self.old.tree (take (self.old.replayed + 1) (ops_of self.old.calls.items))) }
        ensures answers { IfOk result (λ made. slice_get
            (answers_of self.old.cap self.old.tree (ops_of self.old.calls.items)) self.old.replayed ≡ Some made.1) }
        ensures logged { IfOk result (λ made. IsLogged made.1) }
        ensures stays { transaction_in self.new ≡ transaction_in self.old }
        ensures calls { self.new.calls ≡ self.old.calls }
        ensures cap { self.new.cap ≡ self.old.cap }
        ensures since { self.new.since ≡ self.old.since }
    {
        let mut session = self.session()?;
        let at = self.replayed as usize;
        let due = session.call(self.cap, &self.calls[at].op)?;
        Ok((session, due))
    }

    /// Whether the next call was shown to answer so.
    fn was_shown(&self, due: &Answer) -> bool
        requires behind { self.now.replayed < length self.now.calls.items }
        requires logged { IsLogged due.now }
        ensures { IsTrue result ↔
            (slice_get (shown_of self.now.calls.items) self.now.replayed ≡ Some due.now) }
    {
        let at = self.replayed as usize;
        is_same_answer(due, &self.calls[at].shown)
    }

    /// Goes on by the next call, which has left this session, where it was shown to answer what is due.
    fn step_on(&mut self, session: Workspace, due: &Answer, number: u32) -> Verdict
        requires behind { self.old.replayed < length self.old.calls.items }
        requires left { session_in session ≡
            session_after self.old.cap self.old.tree (take (self.old.replayed + 1) (ops_of self.old.calls.items)) }
        requires due { slice_get (answers_of self.old.cap self.old.tree (ops_of self.old.calls.items))
            self.old.replayed ≡ Some due.now }
        requires logged { IsLogged due.now }
        ensures verdict { (m : Machine) → cap_of m ≡ self.old.cap
            → IsVerdict (MayStep m (transaction_in self.old) (Answer.Replayed number)) (transaction_in self.old)
            (transaction_in self.new) (Answer.Replayed number) result }
        ensures cap { self.new.cap ≡ self.old.cap }
        ensures since { self.new.since ≡ self.old.since }
    {
        if number != self.replayed + 1 || !self.was_shown(due) {
            drop(session);
            return Verdict::Unlawful;
        }
        self.replayed = number;
        self.warm = Some(session);
        Verdict::Goes
    }

    /// Goes on by the next call, where it answers as was shown.
    fn go_on(&mut self, number: u32) -> Result<Verdict, OutOfMemory>
        requires behind { self.old.replayed < length self.old.calls.items }
        ensures verdict { IfOk result (λ v. (m : Machine) → cap_of m ≡ self.old.cap
            → IsVerdict (MayStep m (transaction_in self.old) (Answer.Replayed number)) (transaction_in self.old)
            (transaction_in self.new) (Answer.Replayed number) v) }
        ensures err { OnErr result (transaction_in self.new ≡ transaction_in self.old) }
        ensures cap { self.new.cap ≡ self.old.cap }
        ensures since { self.new.since ≡ self.old.since }
    {
        let (session, due) = self.replay_next()?;
        let verdict = self.step_on(session, &due, number);
        drop(due);
        Ok(verdict)
    }

    /// What the next call is due. The transaction stays.
    fn due_next(&self) -> Result<Answer, OutOfMemory>
        requires behind { self.now.replayed < length self.now.calls.items }
        ensures { IfOk result (λ a. slice_get
            (answers_of self.now.cap self.now.tree (ops_of self.now.calls.items)) self.now.replayed ≡ Some a) }
    {
        let at = self.replayed as usize;
        self.due(&self.calls[at].op)
    }

    /// Whether the next call, which is due an answer, deviates from what was shown, and answers so.
    fn is_other(&self, due: &Answer, number: u32, told: &Answer) -> bool
        requires behind { self.now.replayed < length self.now.calls.items }
        requires logged { IsLogged due.now }
        ensures { IsTrue result ↔ ((number ≡ self.now.replayed + 1) × (due.now ≡ told.now)
            × (slice_get (shown_of self.now.calls.items) self.now.replayed ≢ Some told.now)) }
    {
        number == self.replayed + 1 && is_same_answer(due, told) && !self.was_shown(due)
    }

    /// Whether the next call deviates from what was shown, and answers so.
    fn deviates(&self, number: u32, told: &Answer) -> Result<bool, OutOfMemory>
        requires behind { self.now.replayed < length self.now.calls.items }
        ensures { IfOk result (λ yes. IsTrue yes ↔ ((number ≡ self.now.replayed + 1)
            × (slice_get (answers_of self.now.cap self.now.tree (ops_of self.now.calls.items)) self.now.replayed ≡ Some told.now)
            × (slice_get (shown_of self.now.calls.items) self.now.replayed ≢ Some told.now))) }
    {
        let due = self.due_next()?;
        let is_other = self.is_other(&due, number, told);
        drop(due);
        Ok(is_other)
    }

    /// Whether the next call would not be refused.
    fn is_next_done(&self) -> Result<bool, OutOfMemory>
        requires behind { self.now.replayed < length self.now.calls.items }
        ensures { IfOk result (λ yes. IsTrue yes ↔ IsDone (slice_get
            (answers_of self.now.cap self.now.tree (ops_of self.now.calls.items)) self.now.replayed)) }
    {
        let due = self.due_next()?;
        let done = is_done(&due);
        drop(due);
        Ok(done)
    }

    /// What a read that failed comes to in place of the next call's step.
    fn step_fault(&self) -> Result<Verdict, OutOfMemory>
        requires behind { self.now.replayed < length self.now.calls.items }
        ensures { IfOk result (λ v. (m : Machine) (a : Answer) → cap_of m ≡ self.now.cap → IsReadFault m.settings.servers a
            → IsVerdict (MayStep m (transaction_in self.now) a) (transaction_in self.now) (transaction_in self.now) a v) }
    {
        if self.is_next_done()? {
            return Ok(Verdict::Goes);
        }
        Ok(Verdict::Unlawful)
    }

    /// A step of a replay that has not come to its end.
    pub(crate) fn step(&mut self, servers: u8, answer: &Answer) -> Result<Verdict, OutOfMemory>
        requires behind { self.old.replayed < length self.old.calls.items }
        ensures verdict { IfOk result (λ v. (m : Machine) → RunsWith self.old.cap servers m
            → IsVerdict (MayStep m (transaction_in self.old) answer.now) (transaction_in self.old)
            (transaction_in self.new) answer.now v) }
        ensures err { OnErr result (transaction_in self.new ≡ transaction_in self.old) }
        ensures cap { self.new.cap ≡ self.old.cap }
        ensures since { self.new.since ≡ self.old.since }
    {
        if is_read_fault(servers, answer) {
            return self.step_fault();
        }
        match answer {
            Answer::Replayed(i) => self.go_on(*i),
            Answer::Aborted(i, told) => {
                let deviates = self.deviates(*i, told)?;
                Ok(if deviates {
                    Verdict::Ends
                } else {
                    Verdict::Unlawful
                })
            }
            _ => Ok(Verdict::Unlawful),
        }
    }

    /// What a commit of this number comes to on the tree now, after so many installs, whatever others have changed.
    fn install(&self, number: u64, now: &PathMap, named: u64) -> Result<Fate, OutOfMemory>
        ensures { IfOk result (λ f. (m : Machine) (items : List Item) → cap_of m ≡ self.now.cap → m.number ≡ number
            → m.now ≡ now.now
            → IsFate (MayInstall m (seen_in items self.now) named) m (seen_in items self.now)
            (Answer.Committed named) f) }
    {
        if number.checked_add(1) != Some(named) {
            return Ok(Fate::Unlawful);
        }
        let changed = changed_by(self.alloc, self.cap, now, &self.calls)?;
        match replay(self.alloc, self.cap, now, &self.calls)? {
            Outcome::Same(session) => Ok(Fate::Installs(session.tree, changed)),
            Outcome::Differs(_, _) => Ok(Fate::Unlawful),
        }
    }

    /// What a retry with these numbers comes to after so many installs, where others have changed these items since.
    fn retry(&self, number: u64, base: u64, now: u64, touched: &[Item]) -> Result<Fate, OutOfMemory>
        ensures { IfOk result (λ f. (m : Machine) → cap_of m ≡ self.now.cap → m.number ≡ number
            → IsFate (MayTry m (seen_in touched.now self.now) (Answer.Retry base now)) m
            (seen_in touched.now self.now) (Answer.Retry base now) f) }
    {
        if base != self.base || now != number || base >= now {
            return Ok(Fate::Unlawful);
        }
        let read = reads_one(self.alloc, self.cap, &self.tree, &self.calls, touched)?;
        if !read {
            return Ok(Fate::Unlawful);
        }
        Ok(Fate::Rebases)
    }

    /// Whether the calls, run on the tree now, deviate first at the one of this number, which answers so.
    fn deviates_on(&self, now: &PathMap, number: u32, told: &Answer) -> Result<bool, OutOfMemory>
        ensures { IfOk result (λ yes. IsTrue yes ↔
            Deviates (answers_of self.now.cap now.now (ops_of self.now.calls.items))
            (shown_of self.now.calls.items) number told.now) }
    {
        match replay(self.alloc, self.cap, now, &self.calls)? {
            Outcome::Differs(i, due) => Ok(i == number && is_same_answer(&due, told)),
            Outcome::Same(_) => Ok(false),
        }
    }

    /// What an attempt comes to on the tree now, after so many installs, where others have changed these items since.
    pub(crate) fn attempt(
        &self,
        number: u64,
        now: &PathMap,
        touched: &[Item],
        answer: &Answer,
    ) -> Result<Fate, OutOfMemory>
        ensures { IfOk result (λ f. (m : Machine) → cap_of m ≡ self.now.cap → m.number ≡ number
            → m.now ≡ now.now
            → IsFate (MayTry m (seen_in touched.now self.now) answer.now) m
            (seen_in touched.now self.now) answer.now f) }
    {
        match answer {
            Answer::Committed(n) => self.install(number, now, *n),
            Answer::Retry { base, now: at } => self.retry(number, *base, *at, touched),
            _ => Ok(Fate::Unlawful),
        }
    }

    /// What a commit by replay comes to on the tree now, after so many installs, whatever others have changed.
    pub(crate) fn commit(
        &self,
        servers: u8,
        number: u64,
        now: &PathMap,
        answer: &Answer,
    ) -> Result<Fate, OutOfMemory>
        ensures { IfOk result (λ f. (m : Machine) (items : List Item) → RunsWith self.now.cap servers m
            → m.number ≡ number → m.now ≡ now.now
            → IsFate (MayCommit m (seen_in items self.now) answer.now) m (seen_in items self.now) answer.now f) }
    {
        match answer {
            Answer::Committed(n) => self.install(number, now, *n),
            Answer::Aborted(i, told) => {
                let deviates = self.deviates_on(now, *i, told)?;
                Ok(if deviates { Fate::Ends } else { Fate::Unlawful })
            }
            _ if is_read_fault(servers, answer) => Ok(Fate::Stays),
            _ => Ok(Fate::Unlawful),
        }
    }

    /// Begins anew on another tree, after so many installs that have changed so many items, with none of its calls replayed. No
    /// memory is taken.
    pub(crate) fn rebase(&mut self, number: u64, since: usize, now: PathMap)
        ensures is { transaction_in self.new ≡
            record (transaction_in self.old) { base = number; tree = now; replayed = 0; touched = [] } }
        ensures cap { self.new.cap ≡ self.old.cap }
        ensures since { self.new.since ≡ since }
    {
        self.warm = None;
        self.replayed = 0;
        self.base = number;
        self.since = since;
        self.tree = now;
    }
}
