//! What an answer is.

ghost use Rattle.std.specs.Prelude.{◌≡◌, ◌↔◌, IsTrue};
ghost use Rattle.wtf_model.specs.declared.answer.Answer.TheVariants as says;

use wtf_model::{Answer, Word};

/// Whether it is this refusal.
pub(crate) fn is_refused(it: &Answer, why: Word) -> bool
    ensures { IsTrue result ↔ (it.now ≡ says.Refused why) }
{
    match it {
        Answer::Refused(word) => *word == why,
        _ => false,
    }
}

/// Whether it is `ok`.
pub(crate) fn is_okay(it: &Answer) -> bool
    ensures { IsTrue result ↔ (it.now ≡ says.Okay) }
{
    match it {
        Answer::Okay => true,
        _ => false,
    }
}
