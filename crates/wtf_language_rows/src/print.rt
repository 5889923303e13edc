//! The texts of answers, printed and read.

use crate::texts::{names, rows, shown};
use std::alloc::Global;
use wtf_base::Settings;
use wtf_model::{Answer, Holder, Kind, Word};
use wtf_print::{TextError, parse_answer, print_answer, print_settings};

/// Whether this is a line behind what stood there.
fn is_behind(out: &[u8], line: &[u8]) -> bool {
    !out.is_empty() && out[0] == b'>' && &out[1..] == line
}

/// Whether an answer is printed as this line, behind what stands there.
fn is_printed(alloc: Global, answer: &Answer, line: &[u8]) -> bool {
    let Ok(mut out) = Vec::from_slice(alloc, b">") else {
        return false;
    };
    print_answer(answer, &mut out).is_ok() && is_behind(out.as_slice(), line)
}

/// Whether a line is read as an answer that is printed as this line.
fn is_read(alloc: Global, line: &[u8]) -> bool {
    let Ok(answer) = parse_answer(alloc, line) else {
        return false;
    };
    is_printed(alloc, &answer, line)
}

/// Whether an answer has this text.
fn has_text(alloc: Global, answer: Answer, line: &[u8]) -> bool {
    is_printed(alloc, &answer, line) && is_read(alloc, line)
}

/// Whether an answer that shows these bytes has this text.
fn bytes_have_text(alloc: Global, bytes: &[u8], line: &[u8]) -> bool {
    let Ok(answer) = shown(alloc, bytes) else {
        return false;
    };
    has_text(alloc, answer, line)
}

/// Whether an answer of two names has its text.
fn names_have_text(alloc: Global) -> bool {
    let Ok(names) = names(alloc, &[b"b", b"c:"]) else {
        return false;
    };
    has_text(alloc, Answer::Names(names), b"names b c:")
}

/// Whether an answer of two rows has its text.
fn rows_have_text(alloc: Global) -> bool {
    let Some(rows) = rows(alloc, b"/a", b"/a/b:4") else {
        return false;
    };
    has_text(alloc, Answer::Tree(rows), b"tree d:/a f:/a/b:4:3")
}

#[test]
fn bytes_and_lists_have_their_texts(rt: HostRuntime) {
    let alloc = rt.alloc();
    assert!(rt;
        bytes_have_text(alloc, b"abc\xff", b"data x:616263ff")
            && bytes_have_text(alloc, b"", b"data x:")
            && names_have_text(alloc)
            && rows_have_text(alloc)
    );
}

/// Whether the answer that a file has three bytes, of call 1, which ended a transaction, has this text.
fn aborted_has_text(alloc: Global, line: &[u8]) -> bool {
    let Ok(inner) = Box::new(alloc, Answer::File { len: 3, links: 1 }) else {
        return false;
    };
    has_text(alloc, Answer::Aborted(1, inner), line)
}

/// Whether this is that answer.
fn is_aborted(answer: &Answer) -> bool {
    match answer {
        Answer::Aborted(1, inner) => matches!(&**inner, Answer::File { len: 3, links: 1 }),
        _ => false,
    }
}

/// Whether a text is read as that answer.
fn is_read_as_aborted(alloc: Global, line: &[u8]) -> bool {
    match parse_answer(alloc, line) {
        Ok(answer) => is_aborted(&answer),
        Err(_) => false,
    }
}

#[test]
fn an_answer_that_ended_a_transaction_has_its_text(rt: HostRuntime) {
    assert!(rt;
        aborted_has_text(rt.alloc(), b"aborted 1 file 3")
            && is_read_as_aborted(rt.alloc(), b"aborted 1 file 3")
    );
}

/// Whether this is the text of the settings of one server, before any commit.
fn is_settings_text(alloc: Global, want: &[u8]) -> bool {
    let Some(settings) = Settings::new(1, 1, 65_536) else {
        return false;
    };
    let mut out = Vec::new(alloc);
    print_settings(settings, 0, &mut out).is_ok() && out.as_slice() == want
}

#[test]
fn settings_have_their_text(rt: HostRuntime) {
    let want = b"wtf servers 1 replicas 1 region 65536 number 0".as_slice();
    assert!(rt; is_settings_text(rt.alloc(), want));
}

/// Whether each answer of a call has its text.
fn answers_of_calls_have_texts(alloc: Global) -> bool {
    has_text(alloc, Answer::Okay, b"ok")
        && has_text(alloc, Answer::Begun(0), b"begun 0")
        && has_text(alloc, Answer::At(4_294_967_296), b"at 4294967296")
        && has_text(alloc, Answer::Len(u64::MAX), b"len 18446744073709551615")
        && has_text(alloc, Answer::Dir, b"dir")
        && has_text(alloc, Answer::File { len: 6, links: 1 }, b"file 6")
        && has_text(alloc, Answer::File { len: 0, links: 2 }, b"file 0 links 2")
        && has_text(alloc, Answer::Committed(1), b"committed 1")
        && has_text(alloc, Answer::Retry { base: 1, now: 2 }, b"retry 1 2")
        && has_text(alloc, Answer::Replayed(7), b"replayed 7")
}

#[test]
fn answers_of_calls_have_their_texts(rt: HostRuntime) {
    assert!(rt; answers_of_calls_have_texts(rt.alloc()));
}

/// Whether each answer on a job, a scan or a save has its text.
fn answers_on_jobs_and_scans_have_texts(alloc: Global) -> bool {
    has_text(alloc, Answer::Planned, b"planned")
        && has_text(alloc, Answer::Installed(4), b"installed 4")
        && has_text(alloc, Answer::Stale { base: 3, now: 10 }, b"stale 3 10")
        && has_text(alloc, Answer::Scanning, b"scanning 64")
        && has_text(alloc, Answer::Held(Holder::Client(31)), b"held c31")
        && has_text(alloc, Answer::Held(Holder::Job(7)), b"held j7")
        && has_text(alloc, Answer::More(63), b"more 63")
        && has_text(alloc, Answer::Done, b"done")
        && has_text(alloc, Answer::Collected(5), b"collected 5")
        && has_text(alloc, Answer::Saved(42), b"saved 42")
}

#[test]
fn answers_on_jobs_and_scans_have_their_texts(rt: HostRuntime) {
    assert!(rt; answers_on_jobs_and_scans_have_texts(rt.alloc()));
}

/// Whether each refusal and each fault has its text.
fn refusals_and_faults_have_texts(alloc: Global) -> bool {
    has_text(alloc, Answer::Refused(Word::NoEnt), b"refused noent")
        && has_text(alloc, Answer::Refused(Word::NotEmpty), b"refused notempty")
        && has_text(alloc, Answer::Refused(Word::ScanBusy), b"refused scanbusy")
        && has_text(alloc, Answer::FaultRead(0), b"fault read 0")
        && has_text(alloc, Answer::FaultWrite, b"fault write")
        && has_text(alloc, Answer::FaultPunch(15), b"fault punch 15")
        && has_text(alloc, Answer::FaultSave, b"fault save")
        && has_text(alloc, Answer::Damaged(1), b"damaged 1")
}

#[test]
fn refusals_and_faults_have_their_texts(rt: HostRuntime) {
    assert!(rt; refusals_and_faults_have_texts(rt.alloc()));
}

/// Whether each answer to a line of no form has its text.
fn answers_to_other_lines_have_texts(alloc: Global) -> bool {
    has_text(alloc, Answer::Bad(Kind::Path(1)), b"bad path 1")
        && has_text(alloc, Answer::Bad(Kind::Path(6)), b"bad path 6")
        && has_text(alloc, Answer::Bad(Kind::DataForm), b"bad data")
        && has_text(alloc, Answer::Bad(Kind::Word), b"bad word")
}

#[test]
fn answers_to_other_lines_have_their_texts(rt: HostRuntime) {
    assert!(rt; answers_to_other_lines_have_texts(rt.alloc()));
}

#[test]
fn empty_lists_are_read(rt: HostRuntime) {
    assert!(rt; is_read(rt.alloc(), b"names") && is_read(rt.alloc(), b"tree"));
}

/// Whether a line is no answer's text.
fn is_none(alloc: Global, line: &[u8]) -> bool {
    matches!(parse_answer(alloc, line), Err(TextError::NotAnAnswer))
}

const NO_TEXTS: [&[u8]; 44] = [
    b"",
    b" ok",
    b"ok ",
    b"Ok",
    b"ok 1",
    b"aborted 1 ",
    b"aborted 1",
    b"aborted 1 at",
    b"aborted 1 committed 2",
    b"aborted 1 refused full",
    b"aborted 1 aborted 1 ok",
    b"aborted 4294967296 ok",
    b"data",
    b"data x:6G",
    b"data x:6A",
    b"data x:6",
    b"data t:a",
    b"at 01",
    b"at +1",
    b"at 18446744073709551616",
    b"retry 1  2",
    b"retry 1",
    b"names a ",
    b"names ..",
    b"names a/b",
    b"tree d:a",
    b"file",
    b"file 3 links",
    b"file 3 links 0",
    b"file 3 links 1",
    b"file 3 links 02",
    b"file 3 links 2 2",
    b"file 3 link 2",
    b"file 3 2",
    b"tree f:/a",
    b"tree f:/a:",
    b"tree f:/a:00",
    b"scanning 63",
    b"held c32",
    b"held j8",
    b"fault read",
    b"fault read 256",
    b"bad path 7",
    b"bad path 0",
];

/// Whether each line is no answer's text.
fn are_none(alloc: Global, lines: &[&[u8]]) -> bool {
    for line in lines {
        if !is_none(alloc, line) {
            return false;
        }
    }
    true
}

#[test]
fn refuses_what_is_no_text(rt: HostRuntime) {
    assert!(rt; are_none(rt.alloc(), &NO_TEXTS));
}
