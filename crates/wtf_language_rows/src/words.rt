//! Words and what they ask for.

use std::alloc::Global;
use wtf_base::OutOfMemory;
use wtf_words::{Asked, Script, WordsError, read_words};

/// Puts the words of a line behind others. They stand apart by single spaces.
fn put_words(words: &mut Vec<String>, alloc: Global, line: &str) -> Result<(), OutOfMemory> {
    for word in line.split(' ') {
        if !word.is_empty() {
            words.push(word.to_string(alloc)?)?;
        }
    }
    Ok(())
}

/// What the words of a line ask for.
fn read(alloc: Global, line: &str) -> Result<Asked, WordsError> {
    let mut words = Vec::new(alloc);
    if put_words(&mut words, alloc, line).is_err() {
        return Err(WordsError::Memory);
    }
    read_words(alloc, words.as_slice())
}

/// Words, and the servers, the replicas and the bytes of a region that they ask for, and the number and the lines of a
/// generated script, where they ask for one.
type Asking = (&'static str, (u8, u8, u32), Option<(u64, u64)>);

/// Whether this is what is asked for.
fn is_asked(asked: Asked, row: &Asking) -> bool {
    let settings = asked.settings;
    let script = match asked.script {
        Script::Read => None,
        Script::Generated(recipe) => Some((recipe.number, recipe.lines)),
    };
    (settings.servers, settings.replicas, settings.region) == row.1 && script == row.2
}

/// Whether each row holds.
fn are_asked(alloc: Global, rows: &[Asking]) -> bool {
    for row in rows {
        let Ok(asked) = read(alloc, row.0) else {
            return false;
        };
        if !is_asked(asked, row) {
            return false;
        }
    }
    true
}

const ASKED: [Asking; 5] = [
    ("", (4, 2, 65_536), None),
    ("--servers 3", (3, 2, 65_536), None),
    (
        "--servers=16 --replicas=3 --region=1048576",
        (16, 3, 1_048_576),
        None,
    ),
    ("--region 64 --replicas 1 --servers 1", (1, 1, 64), None),
    ("--servers 2 --replicas 2", (2, 2, 65_536), None),
];

#[test]
fn words_ask_for_settings(rt: HostRuntime) {
    assert!(rt; are_asked(rt.alloc(), &ASKED));
}

const GENERATED: [Asking; 4] = [
    ("--gen 7 --lines 20000", (4, 2, 65_536), Some((7, 20_000))),
    ("--gen=0 --lines=1", (4, 2, 65_536), Some((0, 1))),
    (
        "--lines 1000000 --servers 3 --gen 18446744073709551615",
        (3, 2, 65_536),
        Some((u64::MAX, 1_000_000)),
    ),
    (
        "--gen 1000001 --lines 2 --region 64",
        (4, 2, 64),
        Some((1_000_001, 2)),
    ),
];

#[test]
fn words_ask_for_generated_scripts(rt: HostRuntime) {
    assert!(rt; are_asked(rt.alloc(), &GENERATED));
}

const REFUSED: [&str; 31] = [
    "--servers 17",
    "--servers 0",
    "--region 63",
    "--region 1048577",
    "--replicas 4",
    "--replicas 0",
    "--servers 2 --replicas 3",
    "--servers 1",
    "--servers 3 --servers 3",
    "--servers=3 --region 64 --servers 4",
    "--servers +3",
    "--servers=+3",
    "--servers -3",
    "--servers 03",
    "--servers 3x",
    "--servers",
    "--servers=",
    "--servers 18446744073709551619",
    "--gen 1",
    "--lines 1",
    "--gen 1 --lines 0",
    "--gen 1 --lines 1000001",
    "--gen 18446744073709551616 --lines 1",
    "--gen 01 --lines 1",
    "--gen 1 --lines 1 --gen 1",
    "--gen 1 --lines",
    "--help",
    "-h",
    "--serv 3",
    "help",
    "3",
];

/// Whether each line is refused.
fn are_refused(alloc: Global, lines: &[&str]) -> bool {
    for line in lines {
        if !matches!(read(alloc, line), Err(WordsError::Refused)) {
            return false;
        }
    }
    true
}

#[test]
fn words_are_refused(rt: HostRuntime) {
    assert!(rt; are_refused(rt.alloc(), &REFUSED));
}
