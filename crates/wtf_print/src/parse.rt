//! A line, read as the answer that has it for its text. What was read is printed and compared:
//! a line that is not written as answers are, with an upper-case digit, say, is the text of none.

ghost use Rattle.std.specs.Prelude.{◌≡◌, ◌↔◌, IsTrue, IfOk};
ghost use Rattle.wtf_model.specs.declared.answer.Answer.{Answer};
ghost use Rattle.wtf_print.specs.Texts.{text_of};
ghost use Rattle.wtf_print.specs.Forms.{IsWritable, GivesBack};
ghost use Rattle.wtf_lex.specs.Words.{words_behind};
ghost use Rattle.wtf_print.specs.Reading.{ReadsAnswer, aborted_of, said_by, meant_of};

use crate::TextError;
use crate::answers::{call_answer_of, plain_answer_of};
use crate::print::print_answer;
use std::alloc::Global;
use wtf_base::OutOfMemory;
use wtf_lex::{is_word, next_word, number_within, split_word};
use wtf_model::Answer;

/// `aborted I A`, by the words behind the first.
#[tactic(auto, unfolding(crate::specs::Reading::aborted_of))]
fn aborted_of(alloc: Global, args: &[u8]) -> Result<Answer, TextError>
    ensures { ReadsAnswer result (aborted_of (words_behind args.now)) }
{
    let Some((i, args)) = next_word(args) else {
        return Err(TextError::NotAnAnswer);
    };
    let Some((word, args)) = next_word(args) else {
        return Err(TextError::NotAnAnswer);
    };
    let call = number_within(u64::from(u32::MAX), i).ok_or(TextError::NotAnAnswer)?;
    let answer = call_answer_of(alloc, word, args)?;
    Ok(Answer::Aborted(call as u32, Box::new(alloc, answer)?))
}

/// The answer that the words of a line spell, with hexadecimal digits of either case.
#[tactic(auto, unfolding(crate::specs::Reading::said_by))]
fn said_by(alloc: Global, line: &[u8]) -> Result<Answer, TextError>
    ensures { ReadsAnswer result (meant_of line.now) }
{
    let (word, args) = split_word(line);
    if is_word(word, b"aborted") {
        return aborted_of(alloc, args);
    }
    plain_answer_of(alloc, word, args)
}

/// Whether a line is the text of an answer.
fn is_text_of(alloc: Global, answer: &Answer, line: &[u8]) -> Result<bool, OutOfMemory>
    ensures { IfOk result (λ b. IsTrue b ↔ (text_of answer.now ≡ line.now)) }
{
    let mut text = Vec::with_capacity(alloc, line.len())?;
    print_answer(answer, &mut text)?;
    Ok(text.as_slice() == line)
}

/// The answer whose text the line is, without its line feed. A line that is the text of no answer
/// in form is `NotAnAnswer`: there, a number has the width of its kind, a name is one that a path
/// may have, a path keeps the rules of paths, a label is one of a client or a job, and `aborted`
/// holds the answer of a call.
pub fn parse_answer(alloc: Global, line: &[u8]) -> Result<Answer, TextError>
    ensures text { IfOk result (λ a. text_of a ≡ line.now) }
    ensures form { IfOk result IsWritable }
    ensures back { (a : Answer) → IsWritable a → text_of a ≡ line.now → GivesBack a result }
{
    let answer = said_by(alloc, line)?;
    if !is_text_of(alloc, &answer, line)? {
        return Err(TextError::NotAnAnswer);
    }
    Ok(answer)
}
