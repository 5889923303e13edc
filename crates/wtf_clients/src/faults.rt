//! Faults of the stores as answers.

ghost use Rattle.std.specs.Prelude.{◌≡◌, Some, IfOk, OnErr};
ghost use Rattle.wtf_replay.specs.Causes.{fault_answer};

use wtf_base::{Fault, OutOfMemory};
use wtf_model::Answer;

/// The answer to a fault; want of memory has none.
pub(crate) fn answer_to(why: Fault) -> Result<Answer, OutOfMemory>
    ensures answer { IfOk result (λ a. fault_answer why ≡ Some a) }
    ensures memory { OnErr result (why ≡ Fault.Memory) }
{
    match why {
        Fault::Read(k) => Ok(Answer::FaultRead(k.0)),
        Fault::Write => Ok(Answer::FaultWrite),
        Fault::Punch(k) => Ok(Answer::FaultPunch(k.0)),
        Fault::Damaged(k) => Ok(Answer::Damaged(k.0)),
        Fault::Memory => Err(OutOfMemory),
    }
}
