//! Copies of answers, and when answers and their lists are the same.

use crate::texts::{names, path, rows, shown};
use std::alloc::{AllocError, Global};
use wtf_model::{Answer, Names, Paths, Rows, Word, is_same_answer};

fn text(alloc: Global, answer: &Answer) -> Result<String, AllocError> {
    format!(in alloc; "{answer:?}")
}

/// Whether two answers have the same text.
fn have_one_text(alloc: Global, first: &Answer, second: &Answer) -> bool {
    let Ok(first) = text(alloc, first) else {
        return false;
    };
    let Ok(second) = text(alloc, second) else {
        return false;
    };
    first.as_str() == second.as_str()
}

/// Whether the copy of an answer has the same text.
fn is_copied(alloc: Global, answer: Answer) -> bool {
    let Ok(copied) = answer.copy(alloc) else {
        return false;
    };
    have_one_text(alloc, &answer, &copied)
}

/// Whether the copy of each plain answer has the same text.
fn plain_are_copied(alloc: Global) -> bool {
    is_copied(alloc, Answer::Okay)
        && is_copied(alloc, Answer::At(3))
        && is_copied(alloc, Answer::Len(3))
        && is_copied(alloc, Answer::Dir)
        && is_copied(alloc, Answer::File { len: 3, links: 2 })
        && is_copied(alloc, Answer::Refused(Word::NoEnt))
}

#[test]
fn copies_of_plain_answers_are_the_same(rt: HostRuntime) {
    assert!(rt; plain_are_copied(rt.alloc()));
}

/// Whether an answer that shows these bytes is copied.
fn bytes_are_copied(alloc: Global, text: &[u8]) -> bool {
    let Ok(answer) = shown(alloc, text) else {
        return false;
    };
    is_copied(alloc, answer)
}

/// Whether an answer of these names is copied.
fn names_are_copied(alloc: Global, texts: &[&[u8]]) -> bool {
    let Ok(names) = names(alloc, texts) else {
        return false;
    };
    is_copied(alloc, Answer::Names(names))
}

#[test]
fn copies_of_bytes_and_names_are_the_same(rt: HostRuntime) {
    let alloc = rt.alloc();
    assert!(rt;
        bytes_are_copied(alloc, b"ab")
            && bytes_are_copied(alloc, b"abc")
            && names_are_copied(alloc, &[b"mon"])
    );
}

/// Whether names are equal to their copy.
fn is_copy_of_names(alloc: Global, all: &Names) -> bool {
    let Ok(copied) = all.copy(alloc) else {
        return false;
    };
    copied == *all
}

/// Whether names are equal to their copy, and to no fewer names.
fn names_are_compared(alloc: Global, texts: &[&[u8]]) -> bool {
    let Ok(all) = names(alloc, texts) else {
        return false;
    };
    let Ok(none) = names(alloc, &[]) else {
        return false;
    };
    is_copy_of_names(alloc, &all) && all != none && all.as_slice().len() == texts.len()
}

/// Whether rows are equal to their copy.
fn is_copy_of_rows(alloc: Global, all: &Rows) -> bool {
    let Ok(copied) = all.copy(alloc) else {
        return false;
    };
    copied == *all
}

/// Whether rows are equal to their copy, and not to those of another file.
fn rows_are_compared(alloc: Global) -> bool {
    let Some(two) = rows(alloc, b"/a", b"/a/b") else {
        return false;
    };
    let Some(others) = rows(alloc, b"/a", b"/a/c") else {
        return false;
    };
    is_copy_of_rows(alloc, &two) && two != others && two.as_slice().len() == 2
}

/// The list of one path.
fn one_path(alloc: Global, text: &[u8]) -> Option<Paths> {
    let mut paths = Vec::new(alloc);
    if paths.push(path(alloc, text).ok()?).is_err() {
        return None;
    }
    Some(Paths::of(paths))
}

/// Whether lists of one path are equal, or not.
fn paths_are_compared(alloc: Global, first: &[u8], second: &[u8], want: bool) -> bool {
    let Some(first) = one_path(alloc, first) else {
        return false;
    };
    let Some(second) = one_path(alloc, second) else {
        return false;
    };
    (first == second) == want
}

#[test]
fn lists_are_compared(rt: HostRuntime) {
    let alloc = rt.alloc();
    assert!(rt;
        names_are_compared(alloc, &[b"a", b"b"])
            && rows_are_compared(alloc)
            && paths_are_compared(alloc, b"/a", b"/a", true)
            && paths_are_compared(alloc, b"/a", b"/b", false)
    );
}

fn is_same_place(shown: u64, now: u64) -> bool {
    is_same_answer(&Answer::At(shown), &Answer::At(now))
}

#[test]
fn a_call_answers_as_before_or_not(rt: HostRuntime) {
    assert!(rt; is_same_place(3, 3) && !is_same_place(3, 4));
}
