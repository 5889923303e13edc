//! What each stop leaves, where the calls of one disk fail from a number on.

use crate::disks::{Device, Disks, Ended, Fuse, fresh, is_whole, run, stopped};
use std::alloc::Global;
use std::process::Abort;
use std::test::Fail;
use wtf_checker::{LAWFUL, wtf_check};
use wtf_dev::{MemSink, MemSource};
use wtf_serve::{FINISHED, SAVING_FAILED};

/// The lines of a script, each with what it is answered where nothing fails.
const LINES: [(&str, &str); 17] = [
    ("c0 begin", "begun 0"),
    ("c0 create /a", "ok"),
    ("c0 open f0 /a", "ok"),
    ("c0 write f0 t:0123456789", "ok"),
    ("c0 try", "committed 1"),
    ("c0 begin", "begun 1"),
    ("c0 open f0 /a", "ok"),
    ("c0 write f0 t:abcdefghij", "ok"),
    ("c0 try", "committed 2"),
    ("sys plan j0 compact /a 0", "planned"),
    ("sys put j0", "installed 3"),
    ("sys scan", "scanning 64"),
    ("sys piece 64", "done"),
    ("sys scan", "scanning 64"),
    ("sys piece 64", "done"),
    ("sys collect 0", "collected 10"),
    ("sys collect 1", "collected 10"),
];

/// The lines that look at what is left: the tree, the bytes of its file, and the number of installs.
const LOOKS: &[u8] = b"sys tree\nsys dump /a\nc31 begin\n";

/// The first lines of the script, so many of them.
fn lines_of(alloc: Global, count: usize) -> Result<Vec<u8>, Fail> {
    let mut lines = Vec::new(alloc);
    for (line, _) in LINES.iter().take(count) {
        lines.extend_from_slice(line.as_bytes())?;
        lines.push(b'\n')?;
    }
    Ok(lines)
}

/// How many lines an output answers.
fn answered(output: &[u8]) -> usize {
    let feeds = output.iter().filter(|byte| **byte == b'\n').count();
    feeds.saturating_sub(1)
}

/// The answers of an output, without the line of the settings.
fn answers_in(output: &[u8]) -> &str {
    match str::from_utf8(output).unwrap_or("").split_once('\n') {
        Some((_, answers)) => answers,
        None => "",
    }
}

/// The status of the checker.
fn verdict(alloc: Global, lines: &mut MemSource, output: &mut MemSource, out: &mut MemSink) -> u8 {
    wtf_check(alloc, lines, output, out)
}

/// Whether the definitions allow what is shown behind the first lines of the script, so many of them, and this output of theirs.
fn is_lawful(alloc: Global, count: usize, output: &[u8], shown: &[u8]) -> Result<bool, Fail> {
    let mut told = Vec::new(alloc);
    if output.is_empty() {
        told.extend_from_slice(shown)?;
    } else {
        told.extend_from_slice(output)?;
        told.extend_from_slice(answers_in(shown).as_bytes())?;
    }
    let mut lines = lines_of(alloc, count)?;
    lines.extend_from_slice(LOOKS)?;
    let mut lines = MemSource::new(alloc, lines, Vec::new(alloc));
    let mut told = MemSource::new(alloc, told, Vec::new(alloc));
    let mut out = MemSink::new(alloc, Vec::new(alloc));
    Ok(verdict(alloc, &mut lines, &mut told, &mut out) == LAWFUL)
}

/// Whether a stop behind a run may leave what is shown: the tree behind the lines that were answered, or, where the journal
/// failed, the one behind the next line.
fn is_allowed(alloc: Global, ended: &Ended, shown: &[u8]) -> Result<bool, Fail> {
    let output = ended.output.as_slice();
    let count = answered(output);
    if is_lawful(alloc, count, output, shown)? {
        return Ok(true);
    }
    let Some((_, answer)) = LINES.get(count) else {
        return Ok(false);
    };
    if ended.status != SAVING_FAILED || output.is_empty() {
        return Ok(false);
    }
    let mut next = output.to_vec(alloc)?;
    next.extend_from_slice(answer.as_bytes())?;
    next.push(b'\n')?;
    is_lawful(alloc, count.saturating_add(1), next.as_slice(), shown)
}

/// Whether each stop leaves what it may: another run goes on with it.
fn are_allowed(alloc: Global, ended: &Ended, disks: &mut Disks) -> Result<bool, Fail> {
    for pick in 0..3 {
        let mut left = stopped(alloc, disks, pick)?;
        let looked = run(alloc, LOOKS, &mut left)?;
        if looked.status != FINISHED || !is_allowed(alloc, ended, looked.output.as_slice())? {
            return Ok(false);
        }
    }
    Ok(true)
}

/// How a run came out that is stopped.
#[derive(Clone, Copy, Debug, PartialEq, Eq)]
struct Stopped {
    status: u8,
    /// How many lines it answered.
    lines: usize,
    /// Whether the disk answers one more call.
    whole: bool,
    /// Whether each stop leaves what it may.
    allowed: bool,
}

/// Runs the script over two servers, with a fuse, and stops it.
fn stopped_run(alloc: Global, fuse: Fuse) -> Result<Stopped, Fail> {
    let script = lines_of(alloc, LINES.len())?;
    let mut disks = fresh(alloc, 2, fuse)?;
    let ended = run(alloc, script.as_slice(), &mut disks)?;
    Ok(Stopped {
        status: ended.status,
        lines: answered(ended.output.as_slice()),
        allowed: are_allowed(alloc, &ended, &mut disks)?,
        whole: is_whole(&mut disks, fuse.device),
    })
}

/// All calls of a disk fail from one of these on, from the first number up to one below the second: the status then, how many lines
/// are answered, and whether no call failed, and one more does not.
type Part = (u64, u64, u8, usize, bool);

/// Opening the journal takes three calls, and each record four: that of the first save, and those of three installs.
const JOURNAL: [Part; 7] = [
    (0, 3, 8, 0, false),
    (3, 7, 5, 0, false),
    (7, 11, 5, 4, false),
    (11, 15, 5, 8, false),
    (15, 19, 5, 10, false),
    (19, 20, 0, 17, false),
    (20, 21, 0, 17, true),
];

/// The first save takes eight calls, two appends and a punch two each.
const STORE: [Part; 3] = [
    (0, 8, 5, 0, false),
    (8, 15, 0, 17, false),
    (15, 16, 0, 17, true),
];

/// Sets the fuse of a disk to each number of a part in turn.
fn check(rt: &impl Abort, alloc: Global, device: Device, part: Part) -> Result<(), Fail> {
    let (first, end, status, lines, whole) = part;
    for call in first..end {
        let want = Stopped {
            status,
            lines,
            whole,
            allowed: true,
        };
        let fuse = Fuse { device, call };
        assert_eq!(rt; stopped_run(alloc, fuse)?, want, "from call {call} on");
    }
    Ok(())
}

#[test]
fn each_stop_keeps_what_was_answered_where_the_journal_fails(rt: HostRuntime) -> Result<(), Fail> {
    for part in JOURNAL {
        check(&rt, rt.alloc(), Device::Journal, part)?;
    }
    Ok(())
}

#[test]
fn each_stop_keeps_what_was_answered_where_a_store_fails(rt: HostRuntime) -> Result<(), Fail> {
    for part in STORE {
        check(&rt, rt.alloc(), Device::Store(0), part)?;
        check(&rt, rt.alloc(), Device::Store(1), part)?;
    }
    Ok(())
}
