//! The answers that the words of a line spell: one row an answer.

ghost use Rattle.std.specs.Prelude.{◌-◌, ◌^◌};
ghost use Rattle.wtf_lex.specs.Words.{words_behind};
ghost use Rattle.wtf_print.specs.Pieces.{ReadsAs, number_word};
ghost use Rattle.wtf_print.specs.Reading.{path_kind_of, bad_of, fault_of, alone, call_refused_of, refused_of, links_of, file_of, call_answer_of, scanning_of, scan_answer_of, wrong_answer_of, plain_answer_of};

use crate::TextError;
use crate::parts::{
    bytes_of, holder_of, names_of, no_word, number_of, numbers_of, one_word, rows_of,
};
use crate::refusals::{call_word_of, kind_of, word_of};
use std::alloc::Global;
use wtf_lex::{is_word, next_word, number_within};
use wtf_model::{Answer, Kind};

/// `path 1` to `path 6`, by the words behind the first.
#[tactic(auto, unfolding(crate::specs::Reading::path_kind_of))]
fn path_kind_of(args: &[u8]) -> Result<Kind, TextError>
    ensures { ReadsAs result (path_kind_of (words_behind args.now)) }
{
    let n = number_of(6, args)?;
    if n < 1 {
        return Err(TextError::NotAnAnswer);
    }
    Ok(Kind::Path(n as u8))
}

/// What is wrong with a line.
#[tactic(auto, unfolding(crate::specs::Reading::bad_of))]
fn bad_of(args: &[u8]) -> Result<Answer, TextError>
    ensures { ReadsAs result (bad_of (words_behind args.now)) }
{
    let Some((word, args)) = next_word(args) else {
        return Err(TextError::NotAnAnswer);
    };
    if is_word(word, b"path") {
        return Ok(Answer::Bad(path_kind_of(args)?));
    }
    no_word(args)?;
    let kind = kind_of(word).ok_or(TextError::NotAnAnswer)?;
    Ok(Answer::Bad(kind))
}

/// An answer that is one word.
fn alone(answer: Answer, args: &[u8]) -> Result<Answer, TextError>
    ensures { ReadsAs result (alone answer (words_behind args.now)) }
{
    no_word(args)?;
    Ok(answer)
}

/// A number of 64 bits.
fn number(args: &[u8]) -> Result<u64, TextError>
    ensures { ReadsAs result (number_word (2 ^ 64 - 1) (words_behind args.now)) }
{
    number_of(u64::MAX, args)
}

/// The number of a call.
fn call_number(args: &[u8]) -> Result<u32, TextError>
    ensures { ReadsAs result (number_word (2 ^ 32 - 1) (words_behind args.now)) }
{
    let n = number_of(u64::from(u32::MAX), args)?;
    Ok(n as u32)
}

/// A number of 8 bits.
fn small_number(args: &[u8]) -> Result<u8, TextError>
    ensures { ReadsAs result (number_word (2 ^ 8 - 1) (words_behind args.now)) }
{
    let n = number_of(u64::from(u8::MAX), args)?;
    Ok(n as u8)
}

/// The faults of servers and of the image.
#[tactic(auto, unfolding(crate::specs::Reading::fault_of))]
fn fault_of(args: &[u8]) -> Result<Answer, TextError>
    ensures { ReadsAs result (fault_of (words_behind args.now)) }
{
    let Some((word, args)) = next_word(args) else {
        return Err(TextError::NotAnAnswer);
    };
    if is_word(word, b"read") {
        return Ok(Answer::FaultRead(small_number(args)?));
    }
    if is_word(word, b"write") {
        return alone(Answer::FaultWrite, args);
    }
    if is_word(word, b"punch") {
        return Ok(Answer::FaultPunch(small_number(args)?));
    }
    if is_word(word, b"save") {
        return alone(Answer::FaultSave, args);
    }
    Err(TextError::NotAnAnswer)
}

/// The refusals of a call.
fn call_refused_of(args: &[u8]) -> Result<Answer, TextError>
    ensures { ReadsAs result (call_refused_of (words_behind args.now)) }
{
    let word = one_word(args)?;
    let refusal = call_word_of(word).ok_or(TextError::NotAnAnswer)?;
    Ok(Answer::Refused(refusal))
}

/// Any refusal.
fn refused_of(args: &[u8]) -> Result<Answer, TextError>
    ensures { ReadsAs result (refused_of (words_behind args.now)) }
{
    let word = one_word(args)?;
    let refusal = word_of(word).ok_or(TextError::NotAnAnswer)?;
    Ok(Answer::Refused(refusal))
}

/// `links C`, where a file has two or more paths. One that says nothing of them has one.
#[tactic(auto, unfolding(crate::specs::Reading::links_of))]
fn links_of(args: &[u8]) -> Result<u64, TextError>
    ensures { ReadsAs result (links_of (words_behind args.now)) }
{
    let Some((word, args)) = next_word(args) else {
        return Ok(1);
    };
    if !is_word(word, b"links") {
        return Err(TextError::NotAnAnswer);
    }
    let links = number(args)?;
    if links < 2 {
        return Err(TextError::NotAnAnswer);
    }
    Ok(links)
}

/// A file: its length, and how many paths it has.
#[tactic(auto, unfolding(crate::specs::Reading::file_of))]
fn file_of(args: &[u8]) -> Result<Answer, TextError>
    ensures { ReadsAs result (file_of (words_behind args.now)) }
{
    let Some((word, args)) = next_word(args) else {
        return Err(TextError::NotAnAnswer);
    };
    let len = number_within(u64::MAX, word).ok_or(TextError::NotAnAnswer)?;
    let links = links_of(args)?;
    Ok(Answer::File { len, links })
}

/// The answers of a call, by the first word and those behind it.
#[tactic(auto, unfolding(crate::specs::Reading::call_answer_of))]
pub(crate) fn call_answer_of(alloc: Global, word: &[u8], args: &[u8]) -> Result<Answer, TextError>
    ensures { ReadsAs result (call_answer_of word.now (words_behind args.now)) }
{
    if is_word(word, b"ok") {
        return alone(Answer::Okay, args);
    }
    if is_word(word, b"data") {
        return Ok(Answer::Shown(bytes_of(alloc, args)?));
    }
    if is_word(word, b"at") {
        return Ok(Answer::At(number(args)?));
    }
    if is_word(word, b"len") {
        return Ok(Answer::Len(number(args)?));
    }
    if is_word(word, b"dir") {
        return alone(Answer::Dir, args);
    }
    if is_word(word, b"file") {
        return file_of(args);
    }
    if is_word(word, b"names") {
        return Ok(Answer::Names(names_of(alloc, args)?));
    }
    if is_word(word, b"refused") {
        return call_refused_of(args);
    }
    Err(TextError::NotAnAnswer)
}

/// `scanning 64`, by the words behind the first.
#[tactic(auto, unfolding(crate::specs::Reading::scanning_of))]
fn scanning_of(args: &[u8]) -> Result<Answer, TextError>
    ensures { ReadsAs result (scanning_of (words_behind args.now)) }
{
    let word = one_word(args)?;
    if !is_word(word, b"64") {
        return Err(TextError::NotAnAnswer);
    }
    Ok(Answer::Scanning)
}

/// The answers to what is asked of all files; any other word begins the answer of a call.
#[tactic(auto, unfolding(crate::specs::Reading::scan_answer_of))]
fn scan_answer_of(alloc: Global, word: &[u8], args: &[u8]) -> Result<Answer, TextError>
    ensures { ReadsAs result (scan_answer_of word.now (words_behind args.now)) }
{
    if is_word(word, b"scanning") {
        return scanning_of(args);
    }
    if is_word(word, b"held") {
        return Ok(Answer::Held(holder_of(args)?));
    }
    if is_word(word, b"more") {
        return Ok(Answer::More(small_number(args)?));
    }
    if is_word(word, b"done") {
        return alone(Answer::Done, args);
    }
    if is_word(word, b"collected") {
        return Ok(Answer::Collected(number(args)?));
    }
    if is_word(word, b"saved") {
        return Ok(Answer::Saved(number(args)?));
    }
    if is_word(word, b"tree") {
        return Ok(Answer::Tree(rows_of(alloc, args)?));
    }
    call_answer_of(alloc, word, args)
}

/// Refusals, faults and what is wrong with a line; other words begin the answers above.
#[tactic(auto, unfolding(crate::specs::Reading::wrong_answer_of))]
fn wrong_answer_of(alloc: Global, word: &[u8], args: &[u8]) -> Result<Answer, TextError>
    ensures { ReadsAs result (wrong_answer_of word.now (words_behind args.now)) }
{
    if is_word(word, b"refused") {
        return refused_of(args);
    }
    if is_word(word, b"fault") {
        return fault_of(args);
    }
    if is_word(word, b"damaged") {
        return Ok(Answer::Damaged(small_number(args)?));
    }
    if is_word(word, b"bad") {
        return bad_of(args);
    }
    scan_answer_of(alloc, word, args)
}

/// Any answer that holds no other, by the first word and those behind it.
#[tactic(auto, unfolding(crate::specs::Reading::plain_answer_of))]
pub(crate) fn plain_answer_of(alloc: Global, word: &[u8], args: &[u8]) -> Result<Answer, TextError>
    ensures { ReadsAs result (plain_answer_of word.now (words_behind args.now)) }
{
    if is_word(word, b"begun") {
        return Ok(Answer::Begun(number(args)?));
    }
    if is_word(word, b"committed") {
        return Ok(Answer::Committed(number(args)?));
    }
    if is_word(word, b"retry") {
        let (base, now) = numbers_of(u64::MAX, args)?;
        return Ok(Answer::Retry { base, now });
    }
    if is_word(word, b"replayed") {
        return Ok(Answer::Replayed(call_number(args)?));
    }
    if is_word(word, b"planned") {
        return alone(Answer::Planned, args);
    }
    if is_word(word, b"installed") {
        return Ok(Answer::Installed(number(args)?));
    }
    if is_word(word, b"stale") {
        let (base, now) = numbers_of(u64::MAX, args)?;
        return Ok(Answer::Stale { base, now });
    }
    wrong_answer_of(alloc, word, args)
}
