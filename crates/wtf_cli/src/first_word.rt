//! What the program's first word asks for.

ghost use Rattle.std.specs.Prelude.{◌≡◌};
ghost use Rattle.wtf_cli.specs.FirstWord.{first_of, is_name};

/// What the first word asks for.
#[derive(Clone, Copy, PartialEq, Eq)]
pub(crate) enum First {
    /// A run over the folder that it names.
    Folder,
    /// A run over stores in memory.
    Memory,
    /// What the program's words and statuses are.
    Help,
    /// Which program it is.
    Version,
    /// Nothing: it is no DIR.
    NoFolder,
}

/// What the first word asks for, where it is `alone` and where others are behind it.
pub(crate) fn first_of(word: &str, alone: bool) -> First
    ensures { result ≡ first_of word.now alone }
{
    if word == "-" {
        return First::Memory;
    }
    if alone && word == "--help" {
        return First::Help;
    }
    if alone && word == "--version" {
        return First::Version;
    }
    if is_name(word.as_bytes()) {
        return First::Folder;
    }
    First::NoFolder
}

/// Whether a word names a folder: it has a byte, and does not look like an option.
fn is_name(word: &[u8]) -> bool
    ensures { result ≡ is_name word.now }
{
    match word.first() {
        Some(first) => *first != b'-',
        None => false,
    }
}

/// What `--version` shows.
pub(crate) const VERSION: &str = "wtf 0.1.0-dev\n";

/// What `--help` shows.
pub(crate) const USAGE: &str = "\
usage: wtf DIR [--servers N] [--replicas N] [--region N] < SCRIPT
       wtf DIR [--servers N] [--replicas N] [--region N] --gen N --lines N
       wtf DIR --journal [--servers N] [--replicas N] [--region N] < SCRIPT
       wtf --help | --version

Answers each line of the script by one line on standard output.

DIR           the folder of the store, made where it is missing; one run at a
              time has it. - is a store in memory, which ends with the run
--servers N   how many servers are used, 1 to 16; 4 without it
--replicas N  copies of each slice, 1 to 3, at most one a server; 2 without it
--region N    bytes of a region, 64 to 1048576; 65536 without it
--gen N       no script is read: one is made from the number N, at most
              18446744073709551615, and the settings are followed not by its
              answers but by a summary of them
--lines N     how many lines that script has, 1 to 1000000
--journal     each answered commit outlives a stop, without a save: it is
              written to the folder journal in DIR before it is answered.
              A DIR is one or the other: always run it with this word, or never

A store that is saved keeps the numbers that it began with.

status 0  all is well              6  the image is refused
       1  some line is bad         7  memory could not be had
       2  words behind DIR wrong   8  the image could not be read
       3  reading failed           9  the script is too long
       4  writing failed          10  DIR is missing, held by another run,
       5  the tree is not saved       or cannot be opened

The guide is docs/GUIDE.md of the repository, the language docs/LANGUAGE.md.
";
