//! Commits by a replay.

ghost use Rattle.std.specs.Prelude.{◌≡◌, ◌<◌, ◌≤◌, ◌^◌, IsTrue, IfOk, IfErr, length};
ghost use Rattle.wtf_kv.specs.Stores.{is_pinned};
ghost use Rattle.wtf_occ.specs.Tries.{IsInstalled};
ghost use Rattle.wtf_values.specs.Keys.{key_cmp};
ghost use Rattle.wtf_values.specs.Outcomes.{outcome_of};
ghost use Rattle.wtf_model.specs.Same.{IsAbortedAt};
ghost use Rattle.wtf_occ.specs.Attempts.{Grows};
ghost use Rattle.wtf_meta.specs.Maps.{AllFit, metadata_at};
ghost use Rattle.wtf_region.specs.Devs.{IsSoundDev, stores};
ghost use Rattle.wtf_replay.specs.Views.{in_hand, replaying};
ghost use Rattle.wtf_replay.specs.Fits.{IsLog};
ghost use Rattle.wtf_replay.specs.Insides.{IsHandInside, IsLogInside};
ghost use Rattle.wtf_replay.specs.Tried.{LeavesStore};
ghost use Rattle.wtf_replay.specs.Verbs.{turn, FinishOf};

use crate::replay::replay_from;
use std::alloc::Global;
use wtf_base::{Fault, TxId};
use wtf_dev::SliceStore;
use wtf_kv::Kv;
use wtf_log::Log;
use wtf_meta::Session;
use wtf_model::Answer;
use wtf_occ::{Attempt, Tried};
use wtf_region::Dev;
use wtf_values::{Key, Value};

/// The answer that calls deviate at call `i`, counted from 1, which answers this.
pub(crate) fn aborted(alloc: Global, i: u32, answer: Answer) -> Result<Answer, Fault>
    ensures made { IfOk result (λ made. IsAbortedAt made i answer) }
    ensures fault { IfErr result (λ why. why ≡ Fault.Memory) }
{
    match Box::new(alloc, answer) {
        Ok(held) => return Ok(Answer::Aborted(i, held)),
        Err(_) => return Err(Fault::Memory),
    }
}

/// Installs an attempt at the number, at which no key is ever in the way.
fn install_now(at: &mut Attempt<Key, Value>, kv: &mut Kv<Key, Value>) -> Result<u64, Fault>
    requires base { at.old.base ≡ kv.old.number }
    requires room { kv.old.number < 2 ^ 63 }
    requires pinned { IsTrue (is_pinned kv.old at.old.base) }
    requires fits { AllFit at.old.changes (metadata_at kv.old at.old.base) }
    ensures installed { IfOk result (λ n. IsInstalled key_cmp outcome_of at.old kv.old kv.new n) }
    ensures same { at.new ≡ at.old }
    ensures leaves { LeavesStore kv.old kv.new result }
    ensures fault { IfErr result (λ why. why ≡ Fault.Memory) }
{
    let tried = match at.install(kv) {
        Ok(tried) => tried,
        Err(_) => return Err(Fault::Memory),
    };
    match tried {
        Tried::Installed(n) => return Ok(n),
        Tried::Conflict { .. } => unreachable!(),
    }
}

/// Makes the calls of a log from `from` on once more on an attempt at the number, and installs it
/// where each answers what was shown. After a fault the store shows what it showed.
pub(crate) fn finish<S: SliceStore>(
    alloc: Global,
    dev: &mut Dev<'_, S>,
    kv: &mut Kv<Key, Value>,
    at: &mut Attempt<Key, Value>,
    session: &mut Session,
    tx: TxId,
    log: &Log,
    from: u32,
) -> Result<Answer, Fault>
    requires sound { IsSoundDev S.kind dev.old }
    requires base { at.old.base ≡ kv.old.number }
    requires room { kv.old.number < 2 ^ 63 }
    requires pinned { IsTrue (is_pinned kv.old at.old.base) }
    requires fits { AllFit at.old.changes (metadata_at kv.old at.old.base) }
    requires log { IsLog log.now }
    requires from { from ≤ length log.now.ops }
    requires inside { IsHandInside S.kind (stores dev.old) dev.old.settings kv.old
        (in_hand at.old session.old) }
    requires logged { IsLogInside S.kind (stores dev.old) dev.old.settings log.now }
    ensures made { FinishOf (turn S.kind dev.old dev.new kv.old kv.new
        (replaying tx.0 at.old session.old log.now from)
        (replaying tx.0 at.old session.old log.now from)) result }
    ensures grows { Grows at.old at.new }
{
    let other = match replay_from(alloc, dev, kv, at, session, tx, log, from) {
        Ok(other) => other,
        Err(why) => return Err(why),
    };
    if let Some(both) = other {
        return aborted(alloc, both.0, both.1);
    }
    match install_now(at, kv) {
        Ok(n) => return Ok(Answer::Committed(n)),
        Err(why) => return Err(why),
    }
}
