//! How a journaled run ends without a line: where its journal is not opened, and at the end of its script.

ghost use Rattle.std.specs.Prelude.{◌≡◌, ◌≤◌, ◌⊎◌, ℕ, List, Some};
ghost use Rattle.wtf_dev.specs.Counts.{Rose};
ghost use Rattle.wtf_serve.specs.Scripts.{end_status};
ghost use Rattle.wtf_journaled.specs.Refusals.{EndsUnopened, RefusesJournal};

use wtf_dev::Sink;
use wtf_durable::Unopened;
use wtf_journal::JournalFault;
use wtf_serve::{
    IMAGE_REFUSED, LOADING_FAILED, NotOpened, OUT_OF_MEMORY, SAVING_FAILED, WORDS_REFUSED,
    WRITING_FAILED, end, ended, write_all,
};

/// The line of a journal that is none.
const JOURNAL_LINE: &[u8] = b"journal refused\n";

/// Writes that a journal is none, and answers the status.
fn refuse<O: Sink>(out: &mut O) -> u8
    ensures { RefusesJournal result (O.view out.old) (O.view out.new) }
{
    match write_all(out, JOURNAL_LINE) {
        Ok(()) => IMAGE_REFUSED,
        Err(_) => WRITING_FAILED,
    }
}

/// Ends a run whose journal was not opened: writes why its image is refused, or that it is no journal, and answers the status.
pub(crate) fn unopened<O: Sink>(out: &mut O, why: Unopened) -> u8
    ensures { EndsUnopened why result (O.view out.old) (O.view out.new) }
{
    match why {
        Unopened::Journal(JournalFault::Failed) => LOADING_FAILED,
        Unopened::Journal(JournalFault::NotAJournal(_)) => refuse(out),
        Unopened::Journal(JournalFault::Memory) => OUT_OF_MEMORY,
        Unopened::Image(refusal) => end(out, NotOpened::Image(refusal)),
        Unopened::Small => WORDS_REFUSED,
        Unopened::Save => SAVING_FAILED,
        Unopened::Memory => OUT_OF_MEMORY,
    }
}

/// Ends a run at the end of its script: what the sink held back is brought out.
pub(crate) fn finish<O: Sink>(out: &mut O, bad: bool) -> u8
    ensures told { (old : List ℕ) → (O.view out.old).taken ≡ Some old →
        (O.view out.new).taken ≡ Some old }
    ensures faults { (O.view out.old).faults ≤ (O.view out.new).faults }
    ensures ends { ((result ≡ end_status bad) × ((O.view out.new).faults ≡ (O.view out.old).faults)) ⊎
        ((result ≡ 4) × Rose (O.view out.old).faults (O.view out.new).faults) }
{
    match out.write(&[]) {
        Ok(_) => ended(bad),
        Err(_) => WRITING_FAILED,
    }
}
