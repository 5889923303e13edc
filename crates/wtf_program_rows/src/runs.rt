//! Whole runs over devices that never fail.

use crate::told::answers_on;
use std::alloc::Global;
use std::test::Fail;
use wtf_dev::{MemStore, Shelf};
use wtf_rows::clients::CLIENTS;
use wtf_rows::examples::EXAMPLES;
use wtf_rows::files::{FILES, LONG_FILE};
use wtf_rows::jobs::{JOBS, MORE_JOBS};
use wtf_rows::links::LINKS;
use wtf_rows::row::DEFAULTS;
use wtf_rows::scans::SCANS;
use wtf_rows::slices::SLICES;
use wtf_trial::devices::{NONE, run, run_on, stores};
use wtf_trial::rows::{check_rows, is_answered};
use wtf_trial::texts::*;
use wtf_trial::wanted::Wanted;

/// Words, the status of a run of the first script with them, and what its output begins with.
const WORDS: [(&str, u8, &str); 21] = [
    ("", 0, ""),
    ("--servers 2", 0, ""),
    ("--servers=16 --replicas=3 --region=1048576", 0, ""),
    ("--region 64 --replicas 1 --servers 1", 0, ""),
    (
        "--servers=5 --replicas=3 --region=64",
        0,
        "wtf servers 5 replicas 3 region 64 number 0\n",
    ),
    ("--servers 17", 2, ""),
    ("--servers 0", 2, ""),
    ("--region 63", 2, ""),
    ("--region 1048577", 2, ""),
    ("--replicas 4", 2, ""),
    ("--servers 2 --replicas 3", 2, ""),
    ("--servers 3 --servers 3", 2, ""),
    ("--servers", 2, ""),
    ("--servers +3", 2, ""),
    ("--servers 03", 2, ""),
    (
        "--gen 1 --lines 1",
        0,
        "wtf servers 4 replicas 2 region 65536 number 0\nlines 1\n",
    ),
    ("--gen 1 --lines 0", 2, ""),
    ("--gen 1", 2, ""),
    ("--lines 1", 2, ""),
    ("--help", 2, ""),
    ("3", 2, ""),
];

/// A script over so many stores, and what it comes to. With one of three servers down both others are needed for a write.
struct Shelved {
    servers: u8,
    stores: u8,
    script: &'static [u8],
    status: u8,
    output: &'static [u8],
}

const SETTINGS: [Shelved; 4] = [
    Shelved {
        servers: 4,
        stores: 3,
        script: SCRIPT,
        status: 2,
        output: b"",
    },
    Shelved {
        servers: 4,
        stores: 4,
        script: SCRIPT,
        status: 0,
        output: OUTPUT,
    },
    Shelved {
        servers: 4,
        stores: 16,
        script: SCRIPT,
        status: 0,
        output: OUTPUT,
    },
    Shelved {
        servers: 3,
        stores: 16,
        script: THREE_SCRIPT,
        status: 0,
        output: THREE_OUTPUT,
    },
];

/// Words, a script, the output, and what the keeper then holds, where it is told here. Each run goes on where the one
/// before it ended, whatever its words ask for.
const LATER: [(&str, &[u8], &[u8], &[u8]); 3] = [
    ("", b"", FIRST_LINE, EMPTY_IMAGE),
    ("", SCRIPT, OUTPUT, b""),
    ("--region 64", LATER_SCRIPT, AFTER_FIRST, b""),
];

/// Runs the first script with words. Where it comes to something else than they should, the failure has them; refused words
/// write nothing.
fn check_words(alloc: Global, row: &(&'static str, u8, &str)) -> Result<(), Fail> {
    let refused = row.1 == 2;
    let ended = run(alloc, row.0, NONE)?;
    let nothing = ended.output.is_empty() == refused && ended.kept.is_empty() == refused;
    if ended.status == row.1 && nothing && ended.output.starts_with(row.2.as_bytes()) {
        return Ok(());
    }
    Err(Fail::from(row.0))
}

/// Whether a script over so many stores comes to what it should; one that is refused leaves no image.
fn is_as_shelved(alloc: Global, row: &Shelved) -> Result<bool, Fail> {
    let ended = answers_on(alloc, row.servers, row.stores, row.script)?;
    Ok(ended.has(row.status, row.output) && ended.kept.is_empty() == (row.status == 2))
}

/// Adds more calls than a log has room for, refused ones counted.
fn add_calls(calls: &mut Wanted) -> Result<(), Fail> {
    calls.add_line("c0 begin", "begun 0")?;
    for _ in 0..4_096u16 {
        calls.add_line("c0 tell f0", "refused nohandle")?;
    }
    calls.add_line("c0 tell f0", "refused full")?;
    calls.add_line("c0 try", "committed 1")
}

fn are_calls_counted(alloc: Global) -> Result<bool, Fail> {
    let mut calls = Wanted::new(alloc, DEFAULTS.line)?;
    add_calls(&mut calls)?;
    is_answered(alloc, "", &calls)
}

/// Adds the longest file that is shown, which was one byte longer before.
fn add_long_file(long: &mut Wanted) -> Result<(), Fail> {
    long.add(LONG_FILE)?;
    long.script.extend_from_slice(b"sys dump /a\n")?;
    long.output.extend_from_slice(b"data x:")?;
    for _ in 0..2_097_152u32 {
        long.output.push(b'0')?;
    }
    long.output.push(b'\n')?;
    Ok(())
}

fn is_long_file_shown(alloc: Global) -> Result<bool, Fail> {
    let mut long = Wanted::new(alloc, DEFAULTS.line)?;
    add_long_file(&mut long)?;
    is_answered(alloc, "", &long)
}

/// Adds lines with each kind of fault.
fn add_bad_lines(script: &mut Vec<u8>) -> Result<(), Fail> {
    script.extend_from_slice(BAD_FRONT)?;
    for _ in 0..65_537u32 {
        script.push(b'a')?;
    }
    script.extend_from_slice(BAD_BACK)?;
    Ok(())
}

fn are_bad_lines_told(alloc: Global) -> Result<bool, Fail> {
    let mut script = Vec::new(alloc);
    add_bad_lines(&mut script)?;
    let ended = answers_on(alloc, 4, 4, script.as_slice())?;
    Ok(ended.has(1, BAD_OUTPUT))
}

/// The image that a later run leaves, which begins with this one.
fn image_after(
    alloc: Global,
    row: &(&'static str, &[u8], &[u8], &[u8]),
    shelf: &mut Shelf<MemStore>,
    kept: &[u8],
) -> Result<Vec<u8>, Fail> {
    let ended = run_on(alloc, row.0, row.1, NONE, shelf, kept)?;
    let kept = ended.kept_behind(row.2)?;
    if row.3.is_empty() || kept.as_slice() == row.3 {
        return Ok(kept);
    }
    Err(Fail::from("another image"))
}

/// The image that all of them leave.
fn later_image(alloc: Global) -> Result<Vec<u8>, Fail> {
    let mut shelf = stores(alloc, 16, 0, None)?;
    let mut kept = Vec::new(alloc);
    for row in LATER.iter() {
        kept = image_after(alloc, row, &mut shelf, kept.as_slice())?;
    }
    Ok(kept)
}

/// Whether an image is refused where there are too few stores for its settings: then no pointer is looked at.
fn is_refused_on_few(alloc: Global, image: &[u8]) -> Result<bool, Fail> {
    let mut few = stores(alloc, 3, 0, None)?;
    let refused = run_on(alloc, "--servers 3", &[], NONE, &mut few, image)?;
    Ok(refused.has(2, b""))
}

#[test]
fn words_have_their_status(rt: HostRuntime) -> Result<(), Fail> {
    for row in WORDS.iter() {
        check_words(rt.alloc(), row)?;
    }
    Ok(())
}

/// With three stores for four servers the run is refused before anything is written.
#[test]
fn settings_are_answered(rt: HostRuntime) -> Result<(), Fail> {
    for row in SETTINGS.iter() {
        assert!(rt; is_as_shelved(rt.alloc(), row)?);
    }
    Ok(())
}

#[test]
fn rows_are_answered(rt: HostRuntime) -> Result<(), Fail> {
    check_rows(rt.alloc(), &FILES)
}

#[test]
fn more_rows_are_answered(rt: HostRuntime) -> Result<(), Fail> {
    check_rows(rt.alloc(), &CLIENTS)
}

#[test]
fn further_rows_are_answered(rt: HostRuntime) -> Result<(), Fail> {
    check_rows(rt.alloc(), &SLICES)
}

#[test]
fn rows_of_links_are_answered(rt: HostRuntime) -> Result<(), Fail> {
    check_rows(rt.alloc(), &LINKS)
}

#[test]
fn last_rows_are_answered(rt: HostRuntime) -> Result<(), Fail> {
    check_rows(rt.alloc(), &EXAMPLES)
}

#[test]
fn rows_of_jobs_are_answered(rt: HostRuntime) -> Result<(), Fail> {
    check_rows(rt.alloc(), &JOBS)
}

#[test]
fn more_rows_of_jobs_are_answered(rt: HostRuntime) -> Result<(), Fail> {
    check_rows(rt.alloc(), &MORE_JOBS)
}

#[test]
fn rows_of_scans_are_answered(rt: HostRuntime) -> Result<(), Fail> {
    check_rows(rt.alloc(), &SCANS)
}

/// A log has room for 4,096 calls, refused ones counted, and a file of 1,048,576 bytes is shown, but no longer one.
#[test]
fn limits_are_kept(rt: HostRuntime) -> Result<(), Fail> {
    assert!(rt; are_calls_counted(rt.alloc())?);
    assert!(rt; is_long_file_shown(rt.alloc())?);
    Ok(())
}

#[test]
fn ill_formed_lines_are_told(rt: HostRuntime) -> Result<(), Fail> {
    assert!(rt; are_bad_lines_told(rt.alloc())?);
    Ok(())
}

/// At last there are too few stores for the settings of the image.
#[test]
fn a_run_goes_on_where_one_ended(rt: HostRuntime) -> Result<(), Fail> {
    let image = later_image(rt.alloc())?;
    assert!(rt; is_refused_on_few(rt.alloc(), image.as_slice())?);
    Ok(())
}
