//! What only proofs read of a sink: bytes that came and went. It takes no memory, and does nothing when it runs.

ghost use Rattle.std.specs.Prelude.{◌≡◌, [], ◌++◌};
ghost use Rattle.wtf_summary.specs.Traces.{numbers_of};

use boxcar::tag::{Names, Tag};
use wtf_dev::Sink;

/// The bytes of a run, as numbers.
#[derive(Drop)]
pub(crate) struct Trace {
    /// What the other sink showed when the run began.
    pub first: Tag,
    /// All that was taken.
    pub text: Tag,
    /// All that the other sink took since.
    pub seen: Tag,
    /// What is missing on the other sink, after a fault.
    pub rest: Tag,
    /// The bytes with which all would be shown, after a fault.
    pub more: Tag,
}

impl Trace {
    /// The trace of a run that begins.
    pub(crate) fn of<O: Sink>(out: &O) -> Trace
        ensures first { result.first.numbers ≡ numbers_of (O.view out.now) }
        ensures text { result.text.numbers ≡ [] }
        ensures seen { result.seen.numbers ≡ [] }
        ensures rest { result.rest.numbers ≡ [] }
        ensures more { result.more.numbers ≡ [] }
    {
        Trace {
            first: Tag::of::<O, Shows>(out),
            text: Tag::empty(),
            seen: Tag::empty(),
            rest: Tag::empty(),
            more: Tag::empty(),
        }
    }
}

/// The numbers of what a sink shows.
struct Shows;

impl<O: Sink> Names<O> for Shows {
    ghost numbers = { λ out. numbers_of (O.view out) };
}

/// Numbers, and bytes behind them.
#[derive(Drop)]
struct Joined<'a> {
    before: &'a Tag,
    bytes: &'a [u8],
}

/// The numbers of both.
struct Joins;

impl<'a> Names<Joined<'a>> for Joins {
    ghost numbers = { λ both. both.before.now.numbers ++ both.bytes.now };
}

/// The numbers with these bytes behind them.
pub(crate) fn and(before: &Tag, bytes: &[u8]) -> Tag
    ensures { result.numbers ≡ before.now.numbers ++ bytes.now }
{
    let both = Joined { before, bytes };
    Tag::of::<Joined<'_>, Joins>(&both)
}
