//! What a client's line asks for.

ghost use Rattle.std.specs.Prelude.{◌≡◌};
ghost use Rattle.wtf_gen.specs.Lines.{verb_of};

/// The verb of a client's line.
#[derive(Clone, Copy)]
pub(crate) enum Verb {
    Begin,
    Attempt,
    Commit,
    Step,
    Abandon,
    Create,
    Open,
    Write,
    Append,
    Read,
    Seek,
    Yank,
    Paste,
    Glue,
    Punch,
    Truncate,
    Peek,
    Stat,
    Copy,
    Unlink,
}

/// The verb of a number below 23. Some verbs have two numbers, and are drawn more often.
#[tactic(auto, unfolding(crate::specs::Lines::verb_of))]
pub(crate) fn verb_of(v: u64) -> Verb
    ensures { result ≡ verb_of v }
{
    match v {
        0 | 1 => Verb::Begin,
        2 => Verb::Attempt,
        3 => Verb::Commit,
        4 => Verb::Step,
        5 => Verb::Abandon,
        6 => Verb::Create,
        7 | 8 => Verb::Open,
        9 | 10 => Verb::Write,
        11 => Verb::Append,
        12 => Verb::Read,
        13 => Verb::Seek,
        14 => Verb::Yank,
        15 => Verb::Paste,
        16 => Verb::Glue,
        17 => Verb::Punch,
        18 => Verb::Truncate,
        19 => Verb::Peek,
        20 => Verb::Stat,
        21 => Verb::Copy,
        _ => Verb::Unlink,
    }
}
