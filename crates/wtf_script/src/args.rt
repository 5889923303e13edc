//! The arguments of verbs, each from its word.

ghost use Rattle.std.specs.Prelude.{◌≡◌, ◌<◌, ◌≤◌, IfOk, MatchOption};
ghost use Rattle.wtf_path.specs.Refusals.{number_of};
ghost use Rattle.wtf_lex.specs.Words.{words_behind};
ghost use Rattle.wtf_script.specs.Arguments.{AnswersAs, number_of_word, number_from_to, label_of, client_of, handle_of, slice_of, job_of, path_of, paths_of};

use crate::LineError;
use std::alloc::Global;
use wtf_lex::{is_word, next_word, number_within};
use wtf_model::limits::{MAX_CLIENTS, MAX_HANDLES, MAX_JOBS, MAX_NUMBER, MAX_SLICES};
use wtf_model::{Kind, Paths};
use wtf_path::{Path, PathError};

/// A number.
#[tactic(auto, unfolding(crate::specs::Arguments::number_of_word))]
pub(crate) fn number_of_word(word: &[u8]) -> Result<u64, Kind>
    ensures { result ≡ number_of_word word.now }
{
    number_within(MAX_NUMBER, word).ok_or(Kind::Number)
}

/// A number within the limits of its verb.
#[tactic(auto, unfolding(crate::specs::Arguments::number_from_to))]
pub(crate) fn number_from_to(least: u64, most: u64, word: &[u8]) -> Result<u64, Kind>
    ensures value { result ≡ number_from_to least most word.now }
    ensures within { IfOk result (λ n. n ≤ most) }
{
    let n = number_of_word(word)?;
    if n < least || n > most {
        return Err(Kind::Limit);
    }
    Ok(n)
}

/// The number of a label behind its letter, where it is one of so many.
fn label_of(letter: &[u8], count: u8, word: &[u8]) -> Option<u8>
    requires { 0 < count }
    ensures { result ≡ label_of letter.now count word.now }
{
    let (first, digits) = word.split_at(word.len().min(1));
    if !is_word(first, letter) {
        return None;
    }
    let n = number_within(u64::from(count - 1), digits)?;
    Some(n as u8)
}

/// `c0` to `c31`.
#[tactic(auto, unfolding(crate::specs::Arguments::client_of))]
pub(crate) fn client_of(word: &[u8]) -> Result<u8, Kind>
    ensures { result ≡ client_of word.now }
{
    label_of(b"c", MAX_CLIENTS, word).ok_or(Kind::Actor)
}

/// `f0` to `f15`.
#[tactic(auto, unfolding(crate::specs::Arguments::handle_of))]
pub(crate) fn handle_of(word: &[u8]) -> Result<u8, Kind>
    ensures { result ≡ handle_of word.now }
{
    label_of(b"f", MAX_HANDLES, word).ok_or(Kind::Handle)
}

/// `s0` to `s15`.
#[tactic(auto, unfolding(crate::specs::Arguments::slice_of))]
pub(crate) fn slice_of(word: &[u8]) -> Result<u8, Kind>
    ensures { result ≡ slice_of word.now }
{
    label_of(b"s", MAX_SLICES, word).ok_or(Kind::Slice)
}

/// `j0` to `j7`.
#[tactic(auto, unfolding(crate::specs::Arguments::job_of))]
pub(crate) fn job_of(word: &[u8]) -> Result<u8, Kind>
    ensures { result ≡ job_of word.now }
{
    label_of(b"j", MAX_JOBS, word).ok_or(Kind::Job)
}

/// A path.
#[tactic(auto, unfolding(crate::specs::Arguments::path_of))]
pub(crate) fn path_of(alloc: Global, word: &[u8]) -> Result<Path, LineError>
    ensures { AnswersAs result (path_of word.now) }
{
    match Path::parse(alloc, word) {
        Ok(path) => Ok(path),
        Err(why) => Err(path_error(why)),
    }
}

/// What is wrong with a line whose path was refused.
fn path_error(why: PathError) -> LineError
    ensures { MatchOption (number_of why) (result ≡ LineError.Memory)
        (λ n. result ≡ LineError.Bad (Kind.Path n)) }
{
    match why.number() {
        Some(number) => LineError::Bad(Kind::Path(number)),
        None => LineError::Memory,
    }
}

/// The paths of all words.
pub(crate) fn paths_of(alloc: Global, words: &[u8]) -> Result<Paths, LineError>
    ensures { AnswersAs result (paths_of (words_behind words.now)) }
{
    let mut paths = Vec::new(alloc);
    let mut behind = words;
    while let Some((word, more)) = next_word(behind) {
        paths.push(path_of(alloc, word)?)?;
        behind = more;
    }
    Ok(Paths::of(paths))
}
