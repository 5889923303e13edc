//! What runs leave of a journal, byte for byte.

use crate::disks::{Ended, NONE, fresh, journal, overwrite, run, run_with, stopped};
use std::alloc::Global;
use std::test::Fail;

/// The record of the first save, of 4 servers: the image of the root alone. A closed gate ends it.
const ROOT: [u8; 53] = [
    1, 0, 0, 0, 0, 0, 0, 0, 43, 0, 87, 84, 70, 73, 77, 71, 48, 50, 4, 2, 0, 1, 0, 0, 0, 0, 0, 0, 0,
    0, 0, 0, 0, 0, 0, 0, 0, 0, 0, 1, 0, 0, 0, 1, 0, 1, 47, 0, 0, 0, 0, 0, 0,
];

/// And behind it the record of a commit that makes `/a`.
const MADE: [u8; 123] = [
    1, 0, 0, 0, 0, 0, 0, 0, 43, 0, 87, 84, 70, 73, 77, 71, 48, 50, 4, 2, 0, 1, 0, 0, 0, 0, 0, 0, 0,
    0, 0, 0, 0, 0, 0, 0, 0, 0, 0, 1, 0, 0, 0, 1, 0, 1, 47, 0, 0, 0, 0, 0, 1, 0, 0, 0, 0, 0, 0, 0,
    61, 1, 0, 0, 0, 0, 0, 0, 0, 1, 0, 0, 0, 0, 0, 0, 0, 2, 0, 0, 0, 1, 0, 2, 47, 97, 1, 0, 0, 0, 0,
    0, 0, 0, 1, 0, 0, 0, 1, 0, 0, 0, 1, 0, 0, 0, 0, 0, 0, 0, 1, 0, 0, 0, 1, 1, 0, 0, 0, 0, 0, 0, 0,
];

/// And behind that the record of a commit that gives the file a second path: it names the path alone.
const SHARED: [u8; 178] = [
    1, 0, 0, 0, 0, 0, 0, 0, 43, 0, 87, 84, 70, 73, 77, 71, 48, 50, 4, 2, 0, 1, 0, 0, 0, 0, 0, 0, 0,
    0, 0, 0, 0, 0, 0, 0, 0, 0, 0, 1, 0, 0, 0, 1, 0, 1, 47, 0, 0, 0, 0, 0, 1, 0, 0, 0, 0, 0, 0, 0,
    61, 1, 0, 0, 0, 0, 0, 0, 0, 1, 0, 0, 0, 0, 0, 0, 0, 2, 0, 0, 0, 1, 0, 2, 47, 97, 1, 0, 0, 0, 0,
    0, 0, 0, 1, 0, 0, 0, 1, 0, 0, 0, 1, 0, 0, 0, 0, 0, 0, 0, 1, 0, 0, 0, 1, 1, 0, 0, 0, 0, 0, 0, 1,
    0, 0, 0, 0, 0, 0, 0, 46, 1, 0, 0, 0, 0, 0, 0, 0, 2, 0, 0, 0, 0, 0, 0, 0, 3, 0, 0, 0, 1, 0, 2,
    47, 98, 1, 0, 0, 0, 0, 0, 0, 0, 1, 0, 0, 0, 1, 0, 0, 0, 0, 0, 0, 0, 0, 0,
];

/// Makes `/a`.
const MAKES: &[u8] = b"c0 begin\nc0 create /a\nc0 commit\n";

/// Makes `/a`, and gives it a second path.
const SHARES: &[u8] = b"c0 begin\nc0 create /a\nc0 commit\nc0 begin\nc0 link /a /b\nc0 commit\n";

/// Scripts, what they are answered, and the journal that they leave.
const RUNS: [(&[u8], &[u8], &[u8]); 4] = [
    (
        b"",
        b"wtf servers 4 replicas 2 region 65536 number 0\n",
        &ROOT,
    ),
    (
        MAKES,
        b"wtf servers 4 replicas 2 region 65536 number 0\nbegun 0\nok\ncommitted 1\n",
        &MADE,
    ),
    (
        SHARES,
        b"wtf servers 4 replicas 2 region 65536 number 0\nbegun 0\nok\ncommitted 1\nbegun 1\nok\ncommitted 2\n",
        &SHARED,
    ),
    (
        b"c0 begin\nc0 create /a\n",
        b"wtf servers 4 replicas 2 region 65536 number 0\nbegun 0\nok\n",
        &ROOT,
    ),
];

/// Whether a script is answered so over empty disks, and leaves this journal.
fn leaves(alloc: Global, script: &[u8], output: &[u8], wanted: &[u8]) -> Result<bool, Fail> {
    let mut disks = fresh(alloc, 4, NONE)?;
    let ended = run(alloc, script, &mut disks)?;
    let bytes = journal(alloc, &mut disks)?;
    Ok(ended.status == 0 && ended.output.as_slice() == output && bytes.as_slice() == wanted)
}

#[test]
fn each_commit_is_a_record(rt: HostRuntime) -> Result<(), Fail> {
    for (script, output, wanted) in RUNS {
        assert!(rt; leaves(rt.alloc(), script, output, wanted)?);
    }
    Ok(())
}

/// A script, one behind a stop of its run, and what that one is answered: the tree, and how many installs there were. The number
/// of a file's paths is counted from them.
const LATER: [(&[u8], &[u8], &[u8]); 2] = [
    (
        MAKES,
        b"sys tree\nc0 begin\n",
        b"wtf servers 4 replicas 2 region 65536 number 1\ntree d:/ f:/a:0\nbegun 1\n",
    ),
    (
        SHARES,
        b"sys tree\nc0 begin\nc0 stat /a\nc0 unlink /a\nc0 stat /b\n",
        b"wtf servers 4 replicas 2 region 65536 number 2\ntree d:/ f:/a:0 f:/b:0\nbegun 2\nfile 0 links 2\nok\nfile 0\n",
    ),
];

/// What a script is answered behind a stop of another one's run.
fn shown_behind(alloc: Global, first: &[u8], script: &[u8]) -> Result<Vec<u8>, Fail> {
    let mut disks = fresh(alloc, 4, NONE)?;
    let _ = run(alloc, first, &mut disks)?;
    let mut left = stopped(alloc, &mut disks, 1)?;
    Ok(run(alloc, script, &mut left)?.output)
}

#[test]
fn the_next_run_goes_on(rt: HostRuntime) -> Result<(), Fail> {
    for (first, script, wanted) in LATER {
        let shown = shown_behind(rt.alloc(), first, script)?;
        assert_eq!(rt; shown.as_slice(), wanted);
    }
    Ok(())
}

/// Where the byte lies that tells the version of the first image, where the records end, and where an image begins behind them.
const VERSION: usize = 17;

const RECORDS_END: usize = 122;

const NEXT_IMAGE: usize = 132;

/// The first image is made one of the first version.
fn aged(alloc: Global) -> Result<Vec<u8>, Fail> {
    let mut old = MADE.to_vec(alloc)?;
    if let Some(version) = old.get_mut(VERSION) {
        *version = b'1';
    }
    Ok(old)
}

/// Whether an image of the second version begins there.
fn is_new_image(bytes: &[u8], at: usize) -> bool {
    at < bytes.len() && bytes[at..].starts_with(b"WTFIMG02")
}

/// Whether so many bytes of one journal stand at the front of another.
fn has_front(bytes: &[u8], old: &[u8], len: usize) -> bool {
    len <= old.len() && bytes.starts_with(&old[..len])
}

/// The image that is added behind the changes is of the second version.
#[test]
fn a_journal_with_an_old_image_goes_on(rt: HostRuntime) -> Result<(), Fail> {
    let old = aged(rt.alloc())?;
    let (ended, left) = run_on(rt.alloc(), "", old.as_slice())?;
    let want = b"wtf servers 4 replicas 2 region 65536 number 1\ntree d:/ f:/a:0\n".as_slice();
    assert_eq!(rt; (ended.status, ended.output.as_slice()), (0, want));
    assert!(rt; has_front(left.as_slice(), old.as_slice(), RECORDS_END));
    assert!(rt; is_new_image(left.as_slice(), NEXT_IMAGE));
    Ok(())
}

/// A record that is no image, and one that is cut.
const NO_IMAGE: &[u8] = b"\x01\0\0\0\0\0\0\0\x02\x01\0\0";

const CUT: &[u8] = b"\x01\0\0\0\0\0\0\0\0\0";

/// Words for four servers, what the journal holds before and behind a run that answers no line, and the status and output.
const REFUSED: [(&str, &[u8], &[u8], u8, &[u8]); 5] = [
    ("--gen 7 --lines 20", b"", b"", 2, b""),
    ("--journal", b"", b"", 2, b""),
    ("--servers 5", b"", b"\0", 2, b""),
    ("", CUT, CUT, 6, b"journal refused\n"),
    ("", NO_IMAGE, NO_IMAGE, 6, b"journal refused\n"),
];

/// A run over four servers whose journal holds these bytes.
fn run_on(alloc: Global, words: &str, held: &[u8]) -> Result<(Ended, Vec<u8>), Fail> {
    let mut disks = fresh(alloc, 4, NONE)?;
    overwrite(&mut disks, held)?;
    let ended = run_with(alloc, words, b"sys tree\n", &mut disks)?;
    Ok((ended, journal(alloc, &mut disks)?))
}

#[test]
fn a_run_that_is_refused_leaves_the_journal(rt: HostRuntime) -> Result<(), Fail> {
    for (words, held, want, status, output) in REFUSED {
        let (ended, left) = run_on(rt.alloc(), words, held)?;
        assert_eq!(rt;
            (ended.status, ended.output.as_slice()),
            (status, output),
            "{words}"
        );
        assert_eq!(rt; left.as_slice(), want, "{words}");
    }
    Ok(())
}
