//! What stands behind the first word.

ghost use Rattle.std.specs.Prelude.{◌≡◌, if◌then◌else◌, IfOk, IsErrOf};
ghost use Rattle.std.specs.declared.env.FillError.TheVariants.{NotPresent, TooLong};
ghost use Rattle.wtf_cli.specs.FirstWord.{is_journal, is_nothing, asks_journal};
ghost use Rattle.wtf_cli.specs.declared.second_word.Second.TheVariants as second;

use std::env::FillError;

/// What stands behind the first word.
#[derive(Clone, Copy, PartialEq, Eq)]
pub(crate) enum Second {
    /// No word.
    Nothing,
    /// The word that asks for a run with a journal.
    Journal,
    /// Another word.
    Other,
}

/// The word that asks for a run with a journal, and how many bytes it has.
const JOURNAL: &[u8] = b"--journal";

pub(crate) const JOURNAL_BYTES: usize = 9;

/// What the second word is, by what the system gave of it: one that is longer than `--journal` is another.
pub(crate) fn second_of(given: Result<&[u8], FillError>) -> Second
    ensures word { IfOk given.entry (λ word. result ≡
        if is_journal word.now then second.Journal else second.Other) }
    ensures none { IsErrOf given.entry NotPresent → result ≡ second.Nothing }
    ensures long { IsErrOf given.entry TooLong → result ≡ second.Other }
{
    match given {
        Ok(word) => {
            if word == JOURNAL {
                return Second::Journal;
            }
            Second::Other
        }
        Err(FillError::NotPresent) => Second::Nothing,
        Err(FillError::TooLong) => Second::Other,
    }
}

/// Whether no word stands there.
pub(crate) fn is_none(what: Second) -> bool
    ensures { result ≡ is_nothing what }
{
    match what {
        Second::Nothing => true,
        Second::Journal => false,
        Second::Other => false,
    }
}

/// Whether the word there asks for a run with a journal.
pub(crate) fn asks_journal(what: Second) -> bool
    ensures { result ≡ asks_journal what }
{
    match what {
        Second::Nothing => false,
        Second::Journal => true,
        Second::Other => false,
    }
}
