//! Logged calls, and how they are run anew on a tree.

ghost use Rattle.std.specs.Prelude.{◌≡◌, ◌≤◌, length, IfOk};
ghost use Rattle.wtf_model.specs.Transaction.{session_after};
ghost use Rattle.wtf_machine.specs.Sessions.{session_in};
ghost use Rattle.wtf_machine.specs.Logs.{ops_of, shown_of, IsOutcome};

use crate::path_map::PathMap;
use crate::workspace::Workspace;
use std::alloc::Global;
use wtf_base::{Bytes, OutOfMemory};
use wtf_model::{Answer, Op, is_same_answer};

/// A call of a transaction, and what was shown of it.
#[derive(Drop)]
pub(crate) struct Logged {
    pub(crate) op: Op<Bytes>,
    pub(crate) shown: Answer,
}

/// What running logged calls anew comes to.
#[derive(Drop)]
pub(crate) enum Outcome {
    /// They answer what was shown, and leave this session.
    Same(Workspace),
    /// The call of this number, from 1, is the first one that answers otherwise, and answers this.
    Differs(u32, Answer),
}

/// Runs calls on a tree.
pub(crate) fn rerun(
    alloc: Global,
    cap: u64,
    tree: &PathMap,
    calls: &[Logged],
) -> Result<Workspace, OutOfMemory>
    ensures { IfOk result (λ w. session_in w ≡ session_after cap tree.now (ops_of calls.now)) }
{
    let tree = tree.share()?;
    let mut session = Workspace::on(alloc, tree);
    for logged in calls {
        let _ = session.call(cap, &logged.op)?;
    }
    Ok(session)
}

/// Runs calls on a tree up to the first one that answers otherwise than was shown.
pub(crate) fn replay(
    alloc: Global,
    cap: u64,
    tree: &PathMap,
    calls: &[Logged],
) -> Result<Outcome, OutOfMemory>
    requires bounded { length calls.now ≤ 4096 }
    ensures { IfOk result (IsOutcome cap tree.now (ops_of calls.now) (shown_of calls.now)) }
{
    let tree = tree.share()?;
    let mut session = Workspace::on(alloc, tree);
    let mut number: u32 = 0;
    for logged in calls {
        number += 1;
        let due = session.call(cap, &logged.op)?;
        if !is_same_answer(&due, &logged.shown) {
            drop(session);
            return Ok(Outcome::Differs(number, due));
        }
        drop(due);
    }
    Ok(Outcome::Same(session))
}
