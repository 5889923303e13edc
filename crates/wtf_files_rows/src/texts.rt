//! Answers and faults as the script's answers are written; bytes as characters, zeros as dots.

use std::alloc::Global;
use std::test::Fail;
use wtf_base::Fault;
use wtf_model::{Answer, Names, Word};

/// Whether what came of a call is written so.
pub(crate) fn is_text(
    alloc: Global,
    came: Result<Answer, Fault>,
    want: &str,
) -> Result<bool, Fail> {
    is_written(alloc, &came, want)
}

fn is_written(alloc: Global, came: &Result<Answer, Fault>, want: &str) -> Result<bool, Fail> {
    let mut shown = String::new(alloc);
    put_came(&mut shown, came)?;
    Ok(shown.as_str() == want)
}

fn put_came(shown: &mut String, came: &Result<Answer, Fault>) -> Result<(), Fail> {
    match came {
        Ok(answer) => put_answer(shown, answer),
        Err(why) => put_fault(shown, *why),
    }
}

pub(crate) fn put(shown: &mut String, text: &str) -> Result<(), Fail> {
    Ok(shown.push_str(text)?)
}

/// A word and a number.
pub(crate) fn put_number(shown: &mut String, text: &str, n: u64) -> Result<(), Fail> {
    Ok(write!(shown, "{text}{n}")?)
}

pub(crate) fn put_fault(shown: &mut String, why: Fault) -> Result<(), Fail> {
    match why {
        Fault::Read(k) => put_number(shown, "fault read ", k.0 as u64),
        Fault::Damaged(k) => put_number(shown, "damaged ", k.0 as u64),
        Fault::Write => put(shown, "fault write"),
        _ => put(shown, "another fault"),
    }
}

pub(crate) fn put_answer(shown: &mut String, answer: &Answer) -> Result<(), Fail> {
    match answer {
        Answer::Committed(n) => put_number(shown, "committed ", *n),
        Answer::Retry { base, now } => {
            put_number(shown, "retry ", *base)?;
            put_number(shown, " ", *now)
        }
        Answer::Replayed(i) => put_number(shown, "replayed ", *i as u64),
        Answer::Aborted(i, held) => {
            put_number(shown, "aborted ", *i as u64)?;
            put(shown, " ")?;
            put_call(shown, held)
        }
        other => put_call(shown, other),
    }
}

/// The answer to a call.
fn put_call(shown: &mut String, answer: &Answer) -> Result<(), Fail> {
    match answer {
        Answer::Okay => put(shown, "ok"),
        Answer::Dir => put(shown, "dir"),
        Answer::At(off) => put_number(shown, "at ", *off),
        Answer::Len(n) => put_number(shown, "len ", *n),
        Answer::File { len, links } => put_file(shown, *len, *links),
        Answer::Refused(word) => put_word(shown, *word),
        Answer::Shown(bytes) => put_bytes(shown, bytes.as_slice()),
        Answer::Names(names) => put_names(shown, names),
        _ => put(shown, "another answer"),
    }
}

/// A file, and how many paths it has where it has more than one.
fn put_file(shown: &mut String, len: u64, links: u64) -> Result<(), Fail> {
    put_number(shown, "file ", len)?;
    if links < 2 {
        return Ok(());
    }
    put_number(shown, " links ", links)
}

fn put_bytes(shown: &mut String, bytes: &[u8]) -> Result<(), Fail> {
    put(shown, "data ")?;
    for byte in bytes {
        shown.push(if *byte == 0 { '.' } else { char::from(*byte) })?;
    }
    Ok(())
}

/// Bytes as characters.
pub(crate) fn put_name(shown: &mut String, name: &[u8]) -> Result<(), Fail> {
    for byte in name {
        shown.push(char::from(*byte))?;
    }
    Ok(())
}

fn put_names(shown: &mut String, names: &Names) -> Result<(), Fail> {
    put(shown, "names")?;
    for name in names.as_slice() {
        put(shown, " ")?;
        put_name(shown, name.as_slice())?;
    }
    Ok(())
}

pub(crate) fn put_word(shown: &mut String, word: Word) -> Result<(), Fail> {
    put(shown, "refused ")?;
    put(shown, word_text(word))
}

fn word_text(word: Word) -> &'static str {
    match word {
        Word::Exists => "exists",
        Word::NoParent => "noparent",
        Word::NoEnt => "noent",
        Word::NotDir => "notdir",
        Word::Root => "root",
        Word::NotEmpty => "notempty",
        Word::IsDir => "isdir",
        Word::Busy => "busy",
        Word::InUse => "inuse",
        Word::NoHandle => "nohandle",
        Word::Range => "range",
        Word::TooBig => "toobig",
        Word::NoSlice => "noslice",
        Word::Replaying => "replaying",
        Word::Live => "live",
        _ => "another word",
    }
}
