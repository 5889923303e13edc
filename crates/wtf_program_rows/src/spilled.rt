//! Runs over an image of which a file's list lies in a slice.

use crate::damage::spoiled;
use crate::images::{SPILLED_IMAGE, SPILLED_STORE, holding};
use std::alloc::Global;
use std::test::Fail;
use wtf_trial::devices::{NONE, run_on};

/// The line of the settings.
const SETTINGS: &[u8] = b"wtf servers 1 replicas 1 region 64 number 3\n";

/// A place of the store and the byte that stands there, a script, and its answers. Of the list, what lies past its
/// visible part is not seen, and an entry of the region lies over it. A list that is remembered is not read again; one
/// that is not wants its server, also where the range has no byte of it. What is no list is damaged, and no line but
/// those that read it; nor is a list that names bytes past the store.
const RUNS: [(usize, u8, &[u8], &[u8]); 6] = [
    (
        0,
        b'a',
        b"c0 begin\nc0 open f0 /a\nc0 read f0 9\nc0 try\nsys dump /a\n",
        b"begun 3\nok\ndata x:6600616263000000\ncommitted 4\ndata x:6600616263000000\n",
    ),
    (
        0,
        b'a',
        b"c0 begin\nc0 open f0 /a\nsys down 0\nc0 seek f0 set 5\nc0 read f0 3\nc0 stat /a\nsys up 0\nc0 read f0 3\nsys down 0\nc0 seek f0 set 5\nc0 read f0 3\nc0 seek f0 set 0\nc0 read f0 1\nsys up 0\nc0 try\n",
        b"begun 3\nok\nok\nok\nfault read 0\nfile 8\nok\ndata x:000000\nok\nok\ndata x:000000\nok\nfault read 0\nok\ncommitted 4\n",
    ),
    (
        0,
        b'a',
        b"c0 begin\nc0 open f0 /a\nc0 write f0 t:AB\nc0 try\nsys down 0\nsys dump /a\nsys up 0\nsys dump /a\n",
        b"begun 3\nok\nok\ncommitted 4\nok\nfault read 0\nok\ndata x:4142616263000000\n",
    ),
    (
        6,
        b'V',
        b"c0 begin\nc0 open f0 /a\nc0 read f0 9\nc0 yank f0 1 s0\nc0 stat /a\nc0 copy /a /b\nc0 try\nsys dump /b\nc0 begin\nc0 concat /c /a\n",
        b"begun 3\nok\ndamaged 0\ndamaged 0\nfile 8\nok\ncommitted 4\ndamaged 0\nbegun 4\ndamaged 0\n",
    ),
    (
        33,
        31,
        b"c0 begin\nc0 open f0 /a\nc0 read f0 9\n",
        b"begun 3\nok\ndamaged 0\n",
    ),
    (
        0,
        b'a',
        b"c0 begin\nc0 concat /c /a /a\nc0 open f0 /c\nc0 seek f0 set 2\nc0 yank f0 9 s0\nc0 glue f0 s0\nc0 try\nsys dump /c\n",
        b"begun 3\nok\nok\nok\nlen 9\nok\ncommitted 4\ndata x:66006162630000006600616263000000616263000000660061\n",
    ),
];

/// Whether a run over the image, and a store with these bytes, ends well with these answers.
fn is_answered_over(
    alloc: Global,
    stored: &[u8],
    script: &[u8],
    answers: &[u8],
) -> Result<bool, Fail> {
    let mut shelf = holding(alloc, stored)?;
    let ended = run_on(alloc, "", script, NONE, &mut shelf, &SPILLED_IMAGE)?;
    let got = ended.output.as_slice();
    Ok(ended.status == 0 && got.strip_prefix(SETTINGS) == Some(answers))
}

/// The same where the store has another byte at one place.
fn is_answered(alloc: Global, row: &(usize, u8, &[u8], &[u8])) -> Result<bool, Fail> {
    let stored = spoiled(alloc, SPILLED_STORE, row.0, row.1)?;
    is_answered_over(alloc, stored.as_slice(), row.2, row.3)
}

#[test]
fn lists_in_slices_are_read(rt: HostRuntime) -> Result<(), Fail> {
    for row in RUNS.iter() {
        assert!(rt; is_answered(rt.alloc(), row)?, "{}", row.0);
    }
    Ok(())
}
