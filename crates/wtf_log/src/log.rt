//! The log of a transaction.

ghost use Rattle.std.specs.Prelude.{◌≡◌, ◌-◌, ◌≤◌, ◌↔◌, Ok, Some, IsTrue, IsErrOf, OnOk, OnErr, length, slice_get};
ghost use Rattle.std.specs.Option.{option_and_then};
ghost use Rattle.wtf_model.specs.declared.limits.TheConstants.{MAX_LOGGED};
ghost use Rattle.wtf_log.specs.Calls.{no_calls, with_call, own_of};

use crate::LogError;
use std::alloc::Global;
use std::marker::Model;
use wtf_base::{Kept, OutOfMemory, Slice};
use wtf_model::limits::MAX_LOGGED;
use wtf_model::{Answer, Op};

/// A call, and what was shown of it.
#[derive(Debug, Drop)]
struct Call {
    op: Op<Kept>,
    shown: Answer,
}

/// The calls of a transaction with the answers that were shown, in order, at most `MAX_LOGGED` of
/// them. They are counted from 1. Contracts see the list of the calls and that of the answers.
#[derive(Debug, Drop)]
pub struct Log {
    calls: Vec<Call>,
}

impl Model for Log {
    ghost use Rattle.std.specs.Prelude.{◌≤◌, length, map};
    ghost use Rattle.wtf_model.specs.declared.limits.TheConstants.{MAX_LOGGED};
    ghost use Rattle.wtf_log.specs.Calls.{Calls};

    ghost Value = { Calls };

    ghost use Rattle.std.specs.Prelude.{List, refl};
    ghost use Rattle.std.specs.Coded.{code_by, coded×, coded_list};
    ghost use Rattle.wtf_base.specs.contracts.kept.Kept as kept;
    ghost use Rattle.wtf_base.specs.declared.kept.Kept.{Kept};
    ghost use Rattle.wtf_model.specs.contracts.op.Op as op;
    ghost use Rattle.wtf_model.specs.declared.op.Op.{Op};
    ghost use Rattle.wtf_model.specs.contracts.answer.Answer as answer;
    ghost use Rattle.wtf_model.specs.declared.answer.Answer.{Answer};

    ghost coded = { code_by (List (Op Kept) × List Answer)
        (coded× (coded_list (op.the_row kept.the_row).coded) (coded_list answer.the_row.coded))
        (λ log. (log.ops, log.shown)) (λ p. record { ops = p.0; shown = p.1 }) (λ _. refl) };

    ghost view = { λ log. record {
      ops = map (λ c. c.op) log.calls.items;
      shown = map (λ c. c.shown) log.calls.items;
    } };

    ghost invariant = { λ log. length log.calls.items ≤ MAX_LOGGED };
}

impl Log {
    /// A log with no call. It takes no memory yet.
    pub fn new(alloc: Global) -> Result<Log, OutOfMemory>
        ensures { result ≡ Ok no_calls }
    {
        Ok(Log {
            calls: Vec::new(alloc),
        })
    }

    /// The number of calls.
    pub fn len(&self) -> u32
        ensures ops { result ≡ length self.now.ops }
        ensures shown { result ≡ length self.now.shown }
        ensures few { result ≤ MAX_LOGGED }
    {
        self.calls.len() as u32
    }

    /// Whether there is no call.
    pub fn is_empty(&self) -> bool
        ensures { IsTrue result ↔ (self.now ≡ no_calls) }
    {
        self.calls.is_empty()
    }

    /// Whether the log takes no more calls.
    pub fn is_full(&self) -> bool
        ensures { IsTrue result ↔ (length self.now.ops ≡ MAX_LOGGED) }
    {
        self.len() == MAX_LOGGED
    }

    /// Puts a call and what was shown of it at the end, each as it is given. It is `Full` exactly
    /// where the log is full. After an error the log is as before.
    pub fn push(&mut self, op: Op<Kept>, answer: Answer) -> Result<(), LogError>
        ensures ok { OnOk result (self.new ≡ with_call self.old op answer) }
        ensures err { OnErr result (self.new ≡ self.old) }
        ensures full { IsErrOf result LogError.Full ↔ (length self.old.ops ≡ MAX_LOGGED) }
    {
        if self.is_full() {
            return Err(LogError::Full);
        }
        match self.calls.push(Call { op, shown: answer }) {
            Ok(()) => Ok(()),
            Err(_) => Err(LogError::Memory),
        }
    }

    /// The `i`-th call, from 1 on.
    pub fn op(&self, i: u32) -> &Op<Kept>
        requires counted { 1 ≤ i }
        requires logged { i ≤ length self.now.ops }
        ensures { slice_get self.now.ops (i - 1) ≡ Some result.now }
    {
        &self.calls[(i - 1) as usize].op
    }

    /// What was shown of the `i`-th call, from 1 on.
    pub fn shown(&self, i: u32) -> &Answer
        requires counted { 1 ≤ i }
        requires logged { i ≤ length self.now.ops }
        ensures { slice_get self.now.shown (i - 1) ≡ Some result.now }
    {
        &self.calls[(i - 1) as usize].shown
    }

    /// The slice that the `i`-th call, from 1 on, has stored: that of a write or an append which
    /// stored one.
    pub fn own(&self, i: u32) -> Option<Slice>
        requires counted { 1 ≤ i }
        requires logged { i ≤ length self.now.ops }
        ensures { result ≡ option_and_then own_of (slice_get self.now.ops (i - 1)) }
    {
        match self.op(i) {
            Op::Write(_, kept) => kept.slice,
            Op::Append(_, kept) => kept.slice,
            _ => None,
        }
    }
}
