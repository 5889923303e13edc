//! A reader as a source, beside answers that are out before the reader is asked.

ghost use Rattle.std.specs.Prelude.{◌≡◌, ◌≤◌, ◌<◌, ℕ, List, Some, length, IfOk, OnOk, OnErr, None, if◌then◌else◌};
ghost use Rattle.std.specs.Result.{is_err};
ghost use Rattle.wtf_dev.specs.Counts.{Rose, risen};
ghost use Rattle.wtf_dev.specs.Streams.{given_after, Gives};
ghost use Rattle.wtf_real.specs.Streamed.{source_view, IsWritten};

use crate::counts::Faults;
use crate::gathered::Gathered;
use crate::{AnswerSink, Answers, OpenFault, OutSink, Shared};
use std::alloc::Global;
use std::cell::RefCell;
use std::io::{Read, Write};
use std::marker::Model;
use std::rc::Rc;
use wtf_dev::{Failed, Source};

/// A reader beside answers, which counts. It tells the bytes that the reader tells. The count of bytes stands still at the
/// greatest u64.
#[derive(Drop)]
pub struct AnswerSource<R: Read, A: Answers> {
    from: R,
    answers: A,
    given: u64,
    faults: Faults,
}

/// The source over a reader, beside the sink of its answers.
pub type InSource<R, W> = AnswerSource<R, Shared<W>>;

impl<R: Read, A: Answers> Model for AnswerSource<R, A> {
    ghost use Rattle.wtf_real.specs.Streamed.{SourceState};

    ghost Value = { SourceState };

    ghost view = { λ i. record {
      faults = i.faults;
      given = i.given;
      rest = R.remaining i.from;
      answers = A.told i.answers;
    } };
}

/// A source over a reader and a sink over a writer. The sink holds up to 64 KiB of answers back, and they are out before
/// the source asks its reader: whoever waits at the other end of both has every answer to what was read. Fails for want
/// of memory alone.
pub fn streams<R: Read + Drop, W: Write + Drop>(
    alloc: Global,
    from: R,
    to: W,
) -> Result<(InSource<R, W>, OutSink<W>), OpenFault>
    ensures source { IfOk result (λ both. both.0 ≡ record {
      faults = 0;
      given = 0;
      rest = R.remaining from;
      answers = record { held = None; all = None };
    }) }
    ensures sink { IfOk result (λ both. both.1 ≡ record {
      faults = 0;
      answers = record { held = None; all = None };
    }) }
{
    let gathered = Gathered::new(alloc, to)?;
    let Ok(answers) = Rc::new(alloc, RefCell::new(gathered)) else {
        return Err(OpenFault::Memory);
    };
    let Ok(same) = answers.clone() else {
        return Err(OpenFault::Memory);
    };
    let source = AnswerSource {
        from,
        answers: Shared::new(same),
        given: 0,
        faults: Faults::new(),
    };
    Ok((source, AnswerSink::new(Shared::new(answers))))
}

impl<R: Read, A: Answers> Source for AnswerSource<R, A> {
    ghost view = { source_view };

    /// While answers cannot be written nothing is read: a script is not answered on where no one hears it. The count rises
    /// then too, and the sink answers its own failure at its next call.
    fn read(&mut self, out: &mut [u8]) -> Result<usize, Failed>
        ensures count { IfOk result (λ n. n ≤ length out.old) }
        ensures told { (all : List ℕ) → self.old.rest ≡ Some all →
            Gives result (length out.old) out.new all self.new.rest }
        ensures given { self.new.given ≡ given_after result self.old.given }
        ensures faults { self.old.faults ≤ self.new.faults }
        ensures cause { OnErr result (Rose self.old.faults self.new.faults) }

        // All answers are out.
        ensures written { OnOk result (IsWritten self.old.answers self.new.answers) }

        // It counts each error, and nothing else.
        ensures counted { self.new.faults ≡
            (if is_err result then risen self.old.faults else self.old.faults) }
    {
        if self.answers.flush().is_err() {
            return Err(self.faults.raise());
        }
        match self.from.read(out) {
            Ok(n) => {
                self.given = self.given.saturating_add(n as u64);
                Ok(n)
            }
            Err(_) => Err(self.faults.raise()),
        }
    }
}
