//! One call, and calls made once more.

ghost use Rattle.std.specs.Prelude.{◌≡◌, ◌≢◌, ◌<◌, ◌≤◌, false, IsTrue, IfOk, IfErr, OnOk, OnErr, length, ⊤};
ghost use Rattle.wtf_kv.specs.Stores.{is_pinned};
ghost use Rattle.wtf_occ.specs.Attempts.{Grows};
ghost use Rattle.wtf_model.specs.declared.limits.TheConstants.{MAX_LOGGED};
ghost use Rattle.wtf_model.specs.Form.{IsFormOp, IsData, IsKeptData};
ghost use Rattle.wtf_model.specs.Steps.{IsLogged};
ghost use Rattle.wtf_log.specs.Calls.{with_call};
ghost use Rattle.wtf_meta.specs.Maps.{seen, AllFit, metadata_at};
ghost use Rattle.wtf_region.specs.Devs.{IsSoundDev, stores};
ghost use Rattle.wtf_replay.specs.Views.{in_hand, replaying};
ghost use Rattle.wtf_replay.specs.Built.{is_rw_op, is_slice_op};
ghost use Rattle.wtf_replay.specs.Fits.{IsLog};
ghost use Rattle.wtf_replay.specs.Insides.{IsHandInside, IsLogInside};
ghost use Rattle.wtf_replay.specs.Looked.{IsNamed};
ghost use Rattle.wtf_replay.specs.Works.{work, PlainOf, FreshOf, AgainOf, NextOf, ReplayOf};

use crate::names::name_call;
use crate::ops::{fresh_of, slice_of, stored_of};
use std::alloc::Global;
use wtf_base::{Bytes, Fault, InodeId, Kept, TxId};
use wtf_dev::SliceStore;
use wtf_kv::Kv;
use wtf_log::Log;
use wtf_meta::Session;
use wtf_model::{Answer, Op, is_same_answer};
use wtf_occ::Attempt;
use wtf_region::Dev;
use wtf_rw::Done;
use wtf_values::{Key, Value};

/// Makes a call on names. After a fault the attempt is as it was.
fn make_name<D>(
    alloc: Global,
    kv: &Kv<Key, Value>,
    at: &mut Attempt<Key, Value>,
    session: &Session,
    new: InodeId,
    op: &Op<D>,
) -> Result<Answer, Fault>
    requires pinned { IsTrue (is_pinned kv.now at.old.base) }
    requires plain { is_rw_op op.now ≡ false }
    requires names { is_slice_op op.now ≡ false }
    ensures named { IfOk result
        (λ a. IsNamed (seen kv.now at.old) session.now new op.now at.old at.new a) }
    ensures grows { Grows at.old at.new }
    ensures err { OnErr result (at.new ≡ at.old) }
    ensures fault { IfErr result (λ why. why ≡ Fault.Memory) }
{
    let mark = at.mark();
    match name_call(alloc, kv, at, session, new, op) {
        Ok(answer) => return Ok(answer),
        Err(_) => {
            at.rewind(mark);
            return Err(Fault::Memory);
        }
    }
}

/// Makes a call that has no data: one on names, on slices, or one that makes a file of others. After
/// a fault the attempt and what is in hand are as they were.
fn make_plain<S: SliceStore, D>(
    alloc: Global,
    dev: &mut Dev<'_, S>,
    kv: &Kv<Key, Value>,
    at: &mut Attempt<Key, Value>,
    session: &mut Session,
    new: InodeId,
    op: &Op<D>,
) -> Result<Answer, Fault>
    requires sound { IsSoundDev S.kind dev.old }
    requires pinned { IsTrue (is_pinned kv.now at.old.base) }
    requires plain { is_rw_op op.now ≡ false }
    requires form { IsFormOp (λ d. ⊤) op.now }
    requires inside { IsHandInside S.kind (stores dev.old) dev.old.settings kv.now
        (in_hand at.old session.old) }
    ensures made { PlainOf (work S.kind dev.old dev.new kv.now (in_hand at.old session.old)
        (in_hand at.new session.new)) new op.now result }
{
    match slice_of(op) {
        Some(made) => return wtf_slicing::call(alloc, dev, kv, at, session, new, &made),
        None => return make_name(alloc, kv, at, session, new, op),
    }
}

/// Makes a call for the first time, and stores what it writes. After a fault the attempt and what
/// is in hand are as they were.
pub(crate) fn make_fresh<S: SliceStore>(
    alloc: Global,
    dev: &mut Dev<'_, S>,
    kv: &Kv<Key, Value>,
    at: &mut Attempt<Key, Value>,
    session: &mut Session,
    new: InodeId,
    op: &Op<Bytes>,
) -> Result<Done, Fault>
    requires sound { IsSoundDev S.kind dev.old }
    requires pinned { IsTrue (is_pinned kv.now at.old.base) }
    requires form { IsFormOp IsData op.now }
    requires inside { IsHandInside S.kind (stores dev.old) dev.old.settings kv.now
        (in_hand at.old session.old) }
    ensures made { FreshOf (work S.kind dev.old dev.new kv.now (in_hand at.old session.old)
        (in_hand at.new session.new)) new op.now result }
{
    match fresh_of(op) {
        Some(made) => match wtf_rw::call(alloc, dev, kv, at, session, &made) {
            Ok(done) => return Ok(done),
            Err(why) => return Err(why),
        },
        None => match make_plain(alloc, dev, kv, at, session, new, op) {
            Ok(answer) => return Ok(Done { answer, own: None }),
            Err(why) => return Err(why),
        },
    }
}

/// Makes a call of a log once more, on what the log kept of its bytes, and stores nothing. Where
/// the log kept no slice of them the answer alone is due. After a fault the attempt and what is in
/// hand are as they were.
pub(crate) fn make_stored<S: SliceStore>(
    alloc: Global,
    dev: &mut Dev<'_, S>,
    kv: &Kv<Key, Value>,
    at: &mut Attempt<Key, Value>,
    session: &mut Session,
    new: InodeId,
    op: &Op<Kept>,
) -> Result<Answer, Fault>
    requires sound { IsSoundDev S.kind dev.old }
    requires pinned { IsTrue (is_pinned kv.now at.old.base) }
    requires form { IsFormOp IsKeptData op.now }
    requires inside { IsHandInside S.kind (stores dev.old) dev.old.settings kv.now
        (in_hand at.old session.old) }
    ensures made { AgainOf (work S.kind dev.old dev.new kv.now (in_hand at.old session.old)
        (in_hand at.new session.new)) new op.now result }
{
    match stored_of(op) {
        Some(made) => match wtf_rw::call(alloc, dev, kv, at, session, &made) {
            Ok(done) => return Ok(done.answer),
            Err(why) => return Err(why),
        },
        None => match make_plain(alloc, dev, kv, at, session, new, op) {
            Ok(answer) => return Ok(answer),
            Err(why) => return Err(why),
        },
    }
}

/// Logs a call with a copy of its answer. After a fault the log is as it was.
pub(crate) fn note(alloc: Global, log: &mut Log, op: Op<Kept>, answer: &Answer) -> Result<(), Fault>
    requires logged { IsLogged answer.now }
    requires room { length log.old.ops ≢ MAX_LOGGED }
    ensures ok { OnOk result (log.new ≡ with_call log.old op answer.now) }
    ensures err { OnErr result (log.new ≡ log.old) }
    ensures fault { IfErr result (λ why. why ≡ Fault.Memory) }
{
    let copy = match answer.copy(alloc) {
        Ok(copy) => copy,
        Err(_) => return Err(Fault::Memory),
    };
    match log.push(op, copy) {
        Ok(()) => return Ok(()),
        Err(_) => return Err(Fault::Memory),
    }
}

/// Makes call `k` of a log, from 0 on, once more, and says whether its answer is what was shown.
/// After a fault the attempt and what is in hand are as they were.
pub(crate) fn make_again<S: SliceStore>(
    alloc: Global,
    dev: &mut Dev<'_, S>,
    kv: &Kv<Key, Value>,
    at: &mut Attempt<Key, Value>,
    session: &mut Session,
    tx: TxId,
    log: &Log,
    k: u32,
) -> Result<(Answer, bool), Fault>
    requires sound { IsSoundDev S.kind dev.old }
    requires pinned { IsTrue (is_pinned kv.now at.old.base) }
    requires log { IsLog log.now }
    requires left { k < length log.now.ops }
    requires inside { IsHandInside S.kind (stores dev.old) dev.old.settings kv.now
        (in_hand at.old session.old) }
    ensures made { NextOf (work S.kind dev.old dev.new kv.now (in_hand at.old session.old)
        (in_hand at.new session.new)) tx.0 log.now k result }
{
    // A log has few calls, so `k + 1` is a number.
    let _few = log.len();
    let new = InodeId { tx, index: k + 1 };
    let op = log.op(k + 1);
    let answer = match make_stored(alloc, dev, kv, at, session, new, op) {
        Ok(answer) => answer,
        Err(why) => return Err(why),
    };
    let same = is_same_answer(log.shown(k + 1), &answer);
    Ok((answer, same))
}

/// Makes the calls of a log from `from` on once more. None where each answers what was shown, else
/// the first that does not, counted from 1, with its answer.
pub(crate) fn replay_from<S: SliceStore>(
    alloc: Global,
    dev: &mut Dev<'_, S>,
    kv: &Kv<Key, Value>,
    at: &mut Attempt<Key, Value>,
    session: &mut Session,
    tx: TxId,
    log: &Log,
    from: u32,
) -> Result<Option<(u32, Answer)>, Fault>
    requires sound { IsSoundDev S.kind dev.old }
    requires pinned { IsTrue (is_pinned kv.now at.old.base) }
    requires fits { AllFit at.old.changes (metadata_at kv.now at.old.base) }
    requires log { IsLog log.now }
    requires from { from ≤ length log.now.ops }
    requires inside { IsHandInside S.kind (stores dev.old) dev.old.settings kv.now
        (in_hand at.old session.old) }
    requires logged { IsLogInside S.kind (stores dev.old) dev.old.settings log.now }
    ensures made { ReplayOf (work S.kind dev.old dev.new kv.now (in_hand at.old session.old)
        (in_hand at.new session.new)) (replaying tx.0 at.old session.old log.now from) result }
{
    for k in from..log.len() {
        let (answer, same) = match make_again(alloc, dev, kv, at, session, tx, log, k) {
            Ok(both) => both,
            Err(why) => return Err(why),
        };
        if !same {
            return Ok(Some((k + 1, answer)));
        }
    }
    Ok(None)
}
