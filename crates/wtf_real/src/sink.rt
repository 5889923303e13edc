//! A sink whose answers are held back.

ghost use Rattle.std.specs.Prelude.{◌≡◌, ◌≤◌, ◌<◌, ℕ, List, [], Some, length, take, IfOk, OnOk, OnErr, if◌then◌else◌};
ghost use Rattle.std.specs.Result.{is_err};
ghost use Rattle.wtf_dev.specs.Counts.{Rose, risen};
ghost use Rattle.std.specs.Io.KnownBytes.{Appends};
ghost use Rattle.wtf_dev.specs.Streams.{Takes};
ghost use Rattle.wtf_real.specs.Streamed.{sink_view, IsWritten};

use crate::counts::Faults;
use crate::{Answers, Shared};
use std::marker::Model;
use wtf_dev::{Failed, Sink};

/// A sink of answers, which counts. What it takes is held back, up to 64 KiB, until its source asks for more, there is no more
/// room, no byte is written, or it is finished. It tells nothing of what it took, but what its answers tell.
#[derive(Drop)]
pub struct AnswerSink<A: Answers> {
    answers: A,
    faults: Faults,
}

/// The sink over a writer, beside the source of its script.
pub type OutSink<W> = AnswerSink<Shared<W>>;

impl<A: Answers> Model for AnswerSink<A> {
    ghost use Rattle.wtf_real.specs.Streamed.{SinkState};

    ghost Value = { SinkState };

    ghost view = { λ o. record { faults = o.faults; answers = A.told o.answers } };
}

impl<A: Answers> AnswerSink<A> {
    pub(crate) fn new(answers: A) -> AnswerSink<A>
        ensures { result ≡ record { faults = 0; answers = A.told answers } }
    {
        AnswerSink {
            answers,
            faults: Faults::new(),
        }
    }

    /// Writes what is held back, at the end of a run. `Failed` where it, or a write before it, failed.
    pub fn finish(&mut self) -> Result<(), Failed>
        ensures written { OnOk result (IsWritten self.old.answers self.new.answers) }
        ensures counted { self.new.faults ≡
            (if is_err result then risen self.old.faults else self.old.faults) }
    {
        match self.answers.flush() {
            Ok(()) => Ok(()),
            Err(_) => Err(self.faults.raise()),
        }
    }
}

impl<A: Answers> Sink for AnswerSink<A> {
    ghost view = { sink_view };

    fn write(&mut self, bytes: &[u8]) -> Result<usize, Failed>
        ensures count { IfOk result (λ n. n ≤ length bytes.now) }
        ensures some { IfOk result (λ n. 0 < length bytes.now → 0 < n) }
        ensures told { (old : List ℕ) → (sink_view self.old).taken ≡ Some old →
            Takes result bytes.now old (sink_view self.new).taken }
        ensures faults { self.old.faults ≤ self.new.faults }
        ensures cause { OnErr result (Rose self.old.faults self.new.faults) }
        ensures steady { OnOk result (self.new.faults ≡ self.old.faults) }

        // It adds what it takes to its answers.
        ensures held { IfOk result (λ n.
            Appends self.old.answers.all self.new.answers.all (take n bytes.now)) }

        // A write of no byte brings out what is held back.
        ensures out { OnOk result (bytes.now ≡ [] →
            IsWritten self.old.answers self.new.answers) }

        // It counts each error, and nothing else.
        ensures counted { self.new.faults ≡
            (if is_err result then risen self.old.faults else self.old.faults) }
    {
        match self.answers.put(bytes) {
            Ok(n) => Ok(n),
            Err(_) => Err(self.faults.raise()),
        }
    }
}
