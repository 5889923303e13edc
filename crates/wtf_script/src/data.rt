//! Bytes that stand in a line.

ghost use Rattle.std.specs.Prelude.{◌≡◌, take, drop};
ghost use Rattle.wtf_script.specs.Hex.{hex_bytes};
ghost use Rattle.wtf_script.specs.Arguments.{AnswersAs, or_wrong, data_form, data_of};

use crate::LineError;
use hex::FromHexError;
use std::alloc::Global;
use wtf_base::Bytes;
use wtf_lex::is_word;
use wtf_model::Kind;
use wtf_model::limits::MAX_WRITTEN;

/// The first two bytes of a word, and those behind them.
fn split_form(word: &[u8]) -> (&[u8], &[u8])
    ensures form { result.0.now ≡ take 2 word.now }
    ensures behind { result.1.now ≡ drop 2 word.now }
{
    word.split_at(word.len().min(2))
}

/// The bytes of an even number of hexadecimal digits of either case.
#[tactic(auto, unfolding(crate::specs::Hex::hex_bytes))]
fn from_hex(alloc: Global, digits: &[u8]) -> Result<Bytes, LineError>
    ensures { AnswersAs result (or_wrong Kind.DataForm (hex_bytes digits.now)) }
{
    match hex::decode(alloc, digits) {
        Ok(bytes) => Ok(Bytes::of(bytes)),
        Err(why) => match why {
            FromHexError::OutOfMemory => Err(LineError::Memory),
            _ => Err(LineError::Bad(Kind::DataForm)),
        },
    }
}

/// `x:` and two digits for each byte, or `t:` and the bytes themselves.
fn data_form(alloc: Global, word: &[u8]) -> Result<Bytes, LineError>
    ensures { AnswersAs result
        (or_wrong Kind.DataForm (data_form (take 2 word.now) (drop 2 word.now))) }
{
    let (form, behind) = split_form(word);
    if is_word(form, b"x:") {
        return from_hex(alloc, behind);
    }
    if is_word(form, b"t:") {
        return Ok(Bytes::of(Vec::from_slice(alloc, behind)?));
    }
    Err(LineError::Bad(Kind::DataForm))
}

/// Bytes to be written.
#[tactic(auto, unfolding(crate::specs::Arguments::data_of))]
pub(crate) fn data_of(alloc: Global, word: &[u8]) -> Result<Bytes, LineError>
    ensures { AnswersAs result (data_of word.now) }
{
    let bytes = data_form(alloc, word)?;
    if bytes.as_slice().len() as u64 > MAX_WRITTEN {
        return Err(LineError::Bad(Kind::Limit));
    }
    Ok(bytes)
}
