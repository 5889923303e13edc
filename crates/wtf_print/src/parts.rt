//! The pieces of an answer's text, read: numbers, bytes, labels, names and the rows of a tree.

ghost use Rattle.std.specs.Prelude.{◌≡◌, ◌≤◌, IfOk, MatchOption, take, drop};
ghost use Rattle.std.specs.List.{list_all};
ghost use Rattle.hex.specs.Hex.{decode_of};
ghost use Rattle.wtf_path.specs.Refusals.{is_dot_name, number_of as path_number};
ghost use Rattle.wtf_lex.specs.Words.{words_behind};
ghost use Rattle.wtf_print.specs.Pieces.{ReadsAs, TellsAs, none_of, one_of, two_of, number_word, numbers_of, data_word, holder_of, is_name_byte, name_of, path_of, cut_last, file_row_of, row_of, each_of, hex_decoded};

use crate::TextError;
use hex::FromHexError;
use std::alloc::Global;
use wtf_base::Bytes;
use wtf_lex::{is_word, next_word, number_within};
use wtf_model::limits::{MAX_CLIENTS, MAX_JOBS};
use wtf_model::{Holder, Names, Row, Rows};
use wtf_path::{Path, PathError};

/// That there is no word more.
pub(crate) fn no_word(words: &[u8]) -> Result<(), TextError>
    ensures { TellsAs (λ x. x) result (none_of (words_behind words.now)) }
{
    if next_word(words).is_some() {
        return Err(TextError::NotAnAnswer);
    }
    Ok(())
}

/// The word, where there is just one.
pub(crate) fn one_word(words: &[u8]) -> Result<&[u8], TextError>
    ensures { TellsAs (λ p. p.now) result (one_of (words_behind words.now)) }
{
    let Some((a, behind)) = next_word(words) else {
        return Err(TextError::NotAnAnswer);
    };
    if next_word(behind).is_some() {
        return Err(TextError::NotAnAnswer);
    }
    Ok(a)
}

/// The words, where there are just two.
fn two_words(words: &[u8]) -> Result<(&[u8], &[u8]), TextError>
    ensures { TellsAs (λ p. (p.0.now, p.1.now)) result (two_of (words_behind words.now)) }
{
    let Some((a, behind)) = next_word(words) else {
        return Err(TextError::NotAnAnswer);
    };
    let b = one_word(behind)?;
    Ok((a, b))
}

/// A number of at most `most`, where it is the one word.
#[tactic(auto, unfolding(crate::specs::Pieces::number_word))]
pub(crate) fn number_of(most: u64, words: &[u8]) -> Result<u64, TextError>
    ensures value { ReadsAs result (number_word most (words_behind words.now)) }
    ensures within { IfOk result (λ n. n ≤ most) }
{
    let word = one_word(words)?;
    number_within(most, word).ok_or(TextError::NotAnAnswer)
}

/// Two numbers of at most `most` each, where they are the two words.
#[tactic(auto, unfolding(crate::specs::Pieces::numbers_of))]
pub(crate) fn numbers_of(most: u64, words: &[u8]) -> Result<(u64, u64), TextError>
    ensures { ReadsAs result (numbers_of most (words_behind words.now)) }
{
    let (a, b) = two_words(words)?;
    let a = number_within(most, a).ok_or(TextError::NotAnAnswer)?;
    let b = number_within(most, b).ok_or(TextError::NotAnAnswer)?;
    Ok((a, b))
}

/// The bytes of an even number of hexadecimal digits, of either case.
fn from_hex(alloc: Global, digits: &[u8]) -> Result<Bytes, TextError>
    ensures { ReadsAs result (hex_decoded (decode_of digits.now)) }
{
    match hex::decode(alloc, digits) {
        Ok(bytes) => Ok(Bytes::of(bytes)),
        Err(why) => match why {
            FromHexError::OutOfMemory => Err(TextError::Memory),
            _ => Err(TextError::NotAnAnswer),
        },
    }
}

/// The first bytes of a word, as many as asked for, and those behind them.
fn split_front(word: &[u8], count: usize) -> (&[u8], &[u8])
    ensures front { result.0.now ≡ take count word.now }
    ensures behind { result.1.now ≡ drop count word.now }
{
    word.split_at(word.len().min(count))
}

/// `x:` and two digits for each byte, where they are the one word.
#[tactic(auto, unfolding(crate::specs::Pieces::data_word))]
pub(crate) fn bytes_of(alloc: Global, words: &[u8]) -> Result<Bytes, TextError>
    ensures { ReadsAs result (data_word (words_behind words.now)) }
{
    let word = one_word(words)?;
    let (form, digits) = split_front(word, 2);
    if !is_word(form, b"x:") {
        return Err(TextError::NotAnAnswer);
    }
    from_hex(alloc, digits)
}

/// `c0` to `c31`, `j0` to `j7`, where it is the one word.
#[tactic(auto, unfolding(crate::specs::Pieces::holder_of))]
pub(crate) fn holder_of(words: &[u8]) -> Result<Holder, TextError>
    ensures { ReadsAs result (holder_of (words_behind words.now)) }
{
    let word = one_word(words)?;
    let (letter, digits) = split_front(word, 1);
    if is_word(letter, b"c") {
        let client = number_within(u64::from(MAX_CLIENTS - 1), digits);
        return Ok(Holder::Client(client.ok_or(TextError::NotAnAnswer)? as u8));
    }
    if is_word(letter, b"j") {
        let job = number_within(u64::from(MAX_JOBS - 1), digits);
        return Ok(Holder::Job(job.ok_or(TextError::NotAnAnswer)? as u8));
    }
    Err(TextError::NotAnAnswer)
}

/// Whether a word is empty, `.` or `..`.
fn is_dot_name(word: &[u8]) -> bool
    ensures { result ≡ is_dot_name word.now }
{
    match word {
        [] => true,
        [a] => *a == b'.',
        [a, b] => *a == b'.' && *b == b'.',
        _ => false,
    }
}

/// Whether each byte may stand in a name.
fn are_name_bytes(word: &[u8]) -> bool
    ensures { result ≡ list_all is_name_byte word.now }
{
    word.iter().all(|b| b.is_ascii_graphic() && *b != b'/')
}

/// A name that a path may have.
#[tactic(auto, unfolding(crate::specs::Pieces::name_of))]
fn name_of(alloc: Global, word: &[u8]) -> Result<Bytes, TextError>
    ensures { ReadsAs result (name_of word.now) }
{
    if is_dot_name(word) || !are_name_bytes(word) {
        return Err(TextError::NotAnAnswer);
    }
    Ok(Bytes::of(Vec::from_slice(alloc, word)?))
}

/// The names that all words are.
pub(crate) fn names_of(alloc: Global, words: &[u8]) -> Result<Names, TextError>
    ensures { ReadsAs result (each_of name_of (words_behind words.now)) }
{
    let mut names = Vec::new(alloc);
    let mut behind = words;
    while let Some((word, more)) = next_word(behind) {
        names.push(name_of(alloc, word)?)?;
        behind = more;
    }
    Ok(Names::of(names))
}

/// A path.
#[tactic(auto, unfolding(crate::specs::Pieces::path_of))]
fn path_of(alloc: Global, word: &[u8]) -> Result<Path, TextError>
    ensures { ReadsAs result (path_of word.now) }
{
    match Path::parse(alloc, word) {
        Ok(path) => Ok(path),
        Err(why) => Err(path_error(why)),
    }
}

/// Why a word gives no path.
fn path_error(why: PathError) -> TextError
    ensures { MatchOption (path_number why) (result ≡ TextError.Memory)
        (λ n. result ≡ TextError.NotAnAnswer) }
{
    match why.number() {
        Some(_) => TextError::NotAnAnswer,
        None => TextError::Memory,
    }
}

/// What stands before the last `:` of a text, and what stands behind it.
fn cut_last(text: &[u8]) -> Result<(&[u8], &[u8]), TextError>
    ensures { TellsAs (λ p. (p.0.now, p.1.now)) result (cut_last text.now) }
{
    let mut at = text.len();
    while at > 0 {
        at -= 1;
        if text[at] == b':' {
            return Ok((&text[..at], &text[at + 1..]));
        }
    }
    Err(TextError::NotAnAnswer)
}

/// `PATH:LEN`.
#[tactic(auto, unfolding(crate::specs::Pieces::file_row_of))]
fn file_row_of(alloc: Global, text: &[u8]) -> Result<Row, TextError>
    ensures { ReadsAs result (file_row_of text.now) }
{
    let (path, len) = cut_last(text)?;
    let path = path_of(alloc, path)?;
    let len = number_within(u64::MAX, len).ok_or(TextError::NotAnAnswer)?;
    Ok(Row {
        path,
        len: Some(len),
    })
}

/// `d:PATH`, `f:PATH:LEN`.
#[tactic(auto, unfolding(crate::specs::Pieces::row_of))]
fn row_of(alloc: Global, word: &[u8]) -> Result<Row, TextError>
    ensures { ReadsAs result (row_of word.now) }
{
    let (form, text) = split_front(word, 2);
    if is_word(form, b"d:") {
        let path = path_of(alloc, text)?;
        return Ok(Row { path, len: None });
    }
    if is_word(form, b"f:") {
        return file_row_of(alloc, text);
    }
    Err(TextError::NotAnAnswer)
}

/// The rows that all words are.
pub(crate) fn rows_of(alloc: Global, words: &[u8]) -> Result<Rows, TextError>
    ensures { ReadsAs result (each_of row_of (words_behind words.now)) }
{
    let mut rows = Vec::new(alloc);
    let mut behind = words;
    while let Some((word, more)) = next_word(behind) {
        rows.push(row_of(alloc, word)?)?;
        behind = more;
    }
    Ok(Rows::of(rows))
}
