//! Whether bytes fit into a file, and the answer to an append.

ghost use Rattle.std.specs.Prelude.{◌≡◌, ◌<◌, ◌≤◌, ◌+◌, true, false};
ghost use Rattle.wtf_model.specs.Steps.{IsLogged};
ghost use Rattle.wtf_steps.specs.Steps.{answer_of};

use wtf_model::{Answer, Word};
use wtf_region::Added;

/// Whether `len` bytes from an offset on end below the greatest length, `cap`.
pub fn ends_within(off: u64, len: u64, cap: u64) -> bool
    ensures within { result ≡ true → off + len ≤ cap }
    ensures past { result ≡ false → cap < off + len }
{
    off <= cap && len <= cap - off
}

/// The answer to a call that adds pieces to a file, of which this came.
pub fn answer_to(added: Added) -> Answer
    ensures value { result ≡ answer_of added }
    ensures logged { IsLogged result }
{
    match added {
        Added::Done => return Answer::Okay,
        Added::TooBig => return Answer::Refused(Word::TooBig),
    }
}
