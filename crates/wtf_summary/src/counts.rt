//! How many lines began with each word.

ghost use Rattle.std.specs.Prelude.{◌≡◌, ◌+◌, ◌-◌, ◌^◌, ◌<◌, cond};
ghost use Rattle.wtf_summary.specs.Summaries.{has_word};

/// How many lines there were, and how many of them began with each word.
#[derive(Clone, Copy)]
pub(crate) struct Counts {
    pub lines: u64,
    pub committed: u64,
    pub retry: u64,
    pub aborted: u64,
    pub installed: u64,
    pub refused: u64,
    /// The lines with another first word.
    pub other: u64,
}

/// The line is the word, or goes on behind it with a space.
fn has_word(word: &[u8], line: &[u8]) -> bool
    ensures { result ≡ has_word word.now line.now }
{
    match word {
        [] => match line {
            [] => true,
            [next, ..] => *next == b' ',
        },
        [w, word @ ..] => match line {
            [] => false,
            [b, line @ ..] => w == b && has_word(word, line),
        },
    }
}

/// The count, and one more where it is so.
fn count_if(count: u64, is: bool) -> u64
    requires { count < 2 ^ 64 - 1 }
    ensures { result ≡ count + cond is 1 0 }
{
    if is { count + 1 } else { count }
}

impl Counts {
    ghost use Rattle.wtf_summary.specs.Counted.{AreBelow, counted, counts_of};
    ghost use Rattle.std.specs.Prelude.{[]};

    /// No lines.
    pub(crate) fn new() -> Counts
        ensures { result ≡ counts_of [] }
    {
        Counts {
            lines: 0,
            committed: 0,
            retry: 0,
            aborted: 0,
            installed: 0,
            refused: 0,
            other: 0,
        }
    }

    /// The counts with one line more, of which this is the front.
    pub(crate) fn and(self, line: &[u8]) -> Counts
        requires { AreBelow (2 ^ 64 - 1) self }
        ensures { result ≡ counted self line.now }
    {
        let committed = has_word(b"committed", line);
        let retry = has_word(b"retry", line);
        let aborted = has_word(b"aborted", line);
        let installed = has_word(b"installed", line);
        let refused = has_word(b"refused", line);
        let other = !(committed || retry || aborted || installed || refused);
        Counts {
            lines: self.lines + 1,
            committed: count_if(self.committed, committed),
            retry: count_if(self.retry, retry),
            aborted: count_if(self.aborted, aborted),
            installed: count_if(self.installed, installed),
            refused: count_if(self.refused, refused),
            other: count_if(self.other, other),
        }
    }
}
