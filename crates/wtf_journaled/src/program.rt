//! The program's run with a journal, over any source, sink, stores and disk.

ghost use Rattle.std.specs.Prelude.{map, string_bytes};
ghost use Rattle.wtf_words.specs.Words.{asked_of};
ghost use Rattle.wtf_journaled.specs.Runs.{IsProgramRun, on_devices};

use crate::run::run;
use std::alloc::Global;
use wtf_dev::{Disk, Shelf, Sink, Source};
use wtf_journal::Synced;
use wtf_serve::{OUT_OF_MEMORY, WORDS_REFUSED};
use wtf_words::{Script, WordsError, read_words};

/// Answers a script with a journal over the servers that the words ask for, as `wtf` does with a keeper, but for the closing save: each line that
/// was answered is in the journal. A script is not made from a number here: with `--gen` the status is 2. What the journal holds has settings of
/// its own, which win over these. The status is 0 at the end of the script, 1 there where a line is bad, 2 where the words are refused or there
/// are fewer stores than servers, 3 where reading failed, 4 where writing failed, 5 where the journal failed at a line, whose answer is not
/// written, or where the first save of an empty journal failed, 6 where the journal or its image is refused, 7 for want of memory, 8 where the
/// journal could not be read, and 9 for a script that is too long.
pub fn wtf_journaled<I: Source, O: Sink, S: Disk, D: Disk>(
    alloc: Global,
    words: &[String],
    script: &mut I,
    out: &mut O,
    shelf: &mut Shelf<Synced<S>>,
    disk: &mut D,
) -> u8
    ensures ran { IsProgramRun S.kind D.kind (asked_of (map string_bytes words.now)) result
        (on_devices (I.view script.old) (O.view out.old) shelf.old disk.old)
        (on_devices (I.view script.new) (O.view out.new) shelf.new disk.new) }
{
    let asked = match read_words(alloc, words) {
        Ok(asked) => asked,
        Err(WordsError::Refused) => return WORDS_REFUSED,
        Err(WordsError::Memory) => return OUT_OF_MEMORY,
    };
    match asked.script {
        Script::Read => {
            let status = run(alloc, asked.settings, script, out, shelf, disk);
            return status;
        }
        Script::Generated(_) => return WORDS_REFUSED,
    }
}
