//! The words of refusals and of what is wrong with a line, read.

ghost use Rattle.std.specs.Prelude.{◌≡◌};
ghost use Rattle.wtf_print.specs.Reading.{call_word_of, other_word_of, word_of, kind_of};

use wtf_lex::is_word;
use wtf_model::{Kind, Word};

/// The refusal of a call that a word names.
#[tactic(auto, unfolding(crate::specs::Reading::call_word_of))]
pub(crate) fn call_word_of(word: &[u8]) -> Option<Word>
    ensures { result ≡ call_word_of word.now }
{
    if is_word(word, b"exists") {
        return Some(Word::Exists);
    }
    if is_word(word, b"noparent") {
        return Some(Word::NoParent);
    }
    if is_word(word, b"noent") {
        return Some(Word::NoEnt);
    }
    if is_word(word, b"notdir") {
        return Some(Word::NotDir);
    }
    if is_word(word, b"root") {
        return Some(Word::Root);
    }
    if is_word(word, b"notempty") {
        return Some(Word::NotEmpty);
    }
    if is_word(word, b"isdir") {
        return Some(Word::IsDir);
    }
    if is_word(word, b"busy") {
        return Some(Word::Busy);
    }
    if is_word(word, b"inuse") {
        return Some(Word::InUse);
    }
    if is_word(word, b"nohandle") {
        return Some(Word::NoHandle);
    }
    if is_word(word, b"range") {
        return Some(Word::Range);
    }
    if is_word(word, b"toobig") {
        return Some(Word::TooBig);
    }
    if is_word(word, b"noslice") {
        return Some(Word::NoSlice);
    }
    None
}

/// Any other refusal that a word names.
#[tactic(auto, unfolding(crate::specs::Reading::other_word_of))]
fn other_word_of(word: &[u8]) -> Option<Word>
    ensures { result ≡ other_word_of word.now }
{
    if is_word(word, b"replaying") {
        return Some(Word::Replaying);
    }
    if is_word(word, b"full") {
        return Some(Word::Full);
    }
    if is_word(word, b"intx") {
        return Some(Word::InTx);
    }
    if is_word(word, b"notx") {
        return Some(Word::NoTx);
    }
    if is_word(word, b"nojob") {
        return Some(Word::NoJob);
    }
    if is_word(word, b"jobinuse") {
        return Some(Word::JobInUse);
    }
    if is_word(word, b"noregion") {
        return Some(Word::NoRegion);
    }
    if is_word(word, b"noserver") {
        return Some(Word::NoServer);
    }
    if is_word(word, b"scanbusy") {
        return Some(Word::ScanBusy);
    }
    if is_word(word, b"noscan") {
        return Some(Word::NoScan);
    }
    if is_word(word, b"live") {
        return Some(Word::Live);
    }
    if is_word(word, b"long") {
        return Some(Word::Long);
    }
    None
}

/// The refusal that a word names.
#[tactic(auto, unfolding(crate::specs::Reading::word_of))]
pub(crate) fn word_of(word: &[u8]) -> Option<Word>
    ensures { result ≡ word_of word.now }
{
    let Some(refusal) = call_word_of(word) else {
        return other_word_of(word);
    };
    Some(refusal)
}

/// What a word says is wrong with a line.
#[tactic(auto, unfolding(crate::specs::Reading::kind_of))]
pub(crate) fn kind_of(word: &[u8]) -> Option<Kind>
    ensures { result ≡ kind_of word.now }
{
    if is_word(word, b"long") {
        return Some(Kind::Long);
    }
    if is_word(word, b"empty") {
        return Some(Kind::Empty);
    }
    if is_word(word, b"byte") {
        return Some(Kind::Byte);
    }
    if is_word(word, b"space") {
        return Some(Kind::Space);
    }
    if is_word(word, b"actor") {
        return Some(Kind::Actor);
    }
    if is_word(word, b"verb") {
        return Some(Kind::Verb);
    }
    if is_word(word, b"count") {
        return Some(Kind::Count);
    }
    if is_word(word, b"handle") {
        return Some(Kind::Handle);
    }
    if is_word(word, b"slice") {
        return Some(Kind::Slice);
    }
    if is_word(word, b"job") {
        return Some(Kind::Job);
    }
    if is_word(word, b"number") {
        return Some(Kind::Number);
    }
    if is_word(word, b"limit") {
        return Some(Kind::Limit);
    }
    if is_word(word, b"data") {
        return Some(Kind::DataForm);
    }
    if is_word(word, b"word") {
        return Some(Kind::Word);
    }
    None
}
