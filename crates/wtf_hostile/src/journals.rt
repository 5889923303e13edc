//! Runs with a journal of which one disk fails for good, and what each stop leaves behind them.

use crate::devices::{Ended, shelf_of, words_of};
use crate::fault::{Device, Fault, NONE};
use crate::judge::is_lawful;
use crate::report::{Counts, Wrong, told};
use crate::scripts::Script;
use crate::streams::{Drip, Sip, texts};
use crate::texts::{behind_lines, feed_behind, feeds, first_lines};
use std::alloc::Global;
use std::io;
use wtf_base::OutOfMemory;
use wtf_dev::{Disk, MemDisk, Shelf, SliceStore};
use wtf_journal::Synced;
use wtf_journaled::wtf_journaled;
use wtf_serve::{FINISHED, SAVING_FAILED};

/// The disks of a run: those of its stores, and that of its journal.
#[derive(Drop)]
struct Disks {
    shelf: Shelf<Synced<MemDisk>>,
    journal: MemDisk,
}

/// No disk fails.
const NO_STOP: Fault = Fault {
    at: u64::MAX,
    ..NONE
};

/// A disk for which memory was found.
fn found(disk: Result<MemDisk, OutOfMemory>) -> io::Result<MemDisk> {
    match disk {
        Ok(disk) => Ok(disk),
        Err(_) => Err(io::Error::from(io::ErrorKind::OutOfMemory)),
    }
}

/// An empty disk of a device. All its calls fail, from the one on that the fault says.
fn disk_of(alloc: Global, fault: &Fault, device: Device) -> io::Result<MemDisk> {
    let call = if fault.device.number() == device.number() {
        fault.at
    } else {
        u64::MAX
    };
    found(MemDisk::new(alloc, Vec::new(alloc), call))
}

/// The empty disks of a script.
fn fresh(alloc: Global, script: &Script, fault: &Fault) -> io::Result<Disks> {
    let mut stores = Vec::new(alloc);
    for k in 0..script.servers {
        stores.push(Synced::new(disk_of(alloc, fault, Device::Store(k))?))?;
    }
    disks_of(alloc, stores, disk_of(alloc, fault, Device::Keeper)?)
}

/// The disks of these stores and this journal.
fn disks_of(alloc: Global, stores: Vec<Synced<MemDisk>>, journal: MemDisk) -> io::Result<Disks> {
    let shelf = shelf_of(alloc, stores)?;
    Ok(Disks { shelf, journal })
}

/// What a stop leaves of a disk, by choice of 0 to 2.
fn left(alloc: Global, disk: &MemDisk, pick: u8) -> io::Result<MemDisk> {
    found(disk.stopped(alloc, pick.min(2)))
}

/// What it leaves of the disk of a server.
fn left_of(
    alloc: Global,
    shelf: &mut Shelf<Synced<MemDisk>>,
    k: u8,
    pick: u8,
) -> io::Result<MemDisk> {
    if k >= shelf.len() {
        return Err(io::Error::from(io::ErrorKind::InvalidInput));
    }
    left(alloc, shelf.store(k).disk(), pick)
}

/// What it leaves of all disks, of which none fails any more.
fn stopped(alloc: Global, disks: &mut Disks, pick: u8) -> io::Result<Disks> {
    let mut stores = Vec::new(alloc);
    for k in 0..disks.shelf.len() {
        stores.push(Synced::new(left_of(alloc, &mut disks.shelf, k, pick)?))?;
    }
    disks_of(alloc, stores, left(alloc, &disks.journal, pick)?)
}

/// Whether the store of a server answers one more call.
fn answers(shelf: &mut Shelf<Synced<MemDisk>>, k: u8) -> bool {
    k < shelf.len() && shelf.store(k).read(0, 0, &mut []).is_ok()
}

/// Whether the disk of a device answers one more call: then none of it failed.
fn is_whole(disks: &mut Disks, device: Device) -> bool {
    match device {
        Device::Store(k) => answers(&mut disks.shelf, k),
        _ => disks.journal.read(0, 0, &mut []).is_ok(),
    }
}

/// The status of the program's run.
fn status_of(
    alloc: Global,
    words: &[String],
    source: &mut Drip,
    sink: &mut Sip,
    disks: &mut Disks,
) -> u8 {
    let (shelf, journal) = (&mut disks.shelf, &mut disks.journal);
    wtf_journaled(alloc, words, source, sink, shelf, journal)
}

/// Runs a script over these disks.
fn run(alloc: Global, script: &Script, disks: &mut Disks) -> io::Result<Ended> {
    let words = words_of(alloc, script)?;
    let mut source = Drip::new([script.lines, &[], &[]], NONE);
    let mut ended = Ended::new(alloc, &NONE, &[])?;
    ended.status = status_of(alloc, words.as_slice(), &mut source, &mut ended.sink, disks);
    Ok(ended)
}

/// The run of a script in which no disk fails.
pub fn whole_run(alloc: Global, script: &Script) -> io::Result<Ended> {
    let mut disks = fresh(alloc, script, &NO_STOP)?;
    run(alloc, script, &mut disks)
}

/// Whether the definitions allow what is shown behind the first lines of a script, so many of them, and this output of theirs.
fn is_shown(alloc: Global, script: &Script, count: usize, output: &[u8], shown: &[u8]) -> bool {
    let lines = first_lines(script.lines, count);
    let answers = behind_lines(shown, feeds(output).min(1));
    let lines = texts(lines, feed_behind(lines), script.looks);
    is_lawful(alloc, lines, texts(output, answers, &[]))
}

/// Whether a stop behind a run may leave what is shown: the tree behind the lines that were answered, or, where the journal failed,
/// the one behind the next line, which had been answered as in the whole output.
fn is_allowed(alloc: Global, script: &Script, whole: &[u8], ended: &Ended, shown: &[u8]) -> bool {
    let output = ended.output();
    let count = feeds(output);
    if is_shown(alloc, script, count.saturating_sub(1), output, shown) {
        return true;
    }
    if ended.status != SAVING_FAILED || count == 0 {
        return false;
    }
    let next = first_lines(whole, count.saturating_add(1));
    is_shown(alloc, script, count, next, shown)
}

/// Whether each stop leaves what it may.
fn are_allowed(
    alloc: Global,
    script: &Script,
    whole: &[u8],
    ended: &Ended,
    disks: &mut Disks,
) -> io::Result<bool> {
    let mut allowed = true;
    for pick in 0..3u8 {
        let mut left = stopped(alloc, disks, pick)?;
        allowed = goes_on(alloc, script, whole, ended, &mut left)? && allowed;
    }
    Ok(allowed)
}

/// Whether another run goes on with what a stop left, and shows what it may.
fn goes_on(
    alloc: Global,
    script: &Script,
    whole: &[u8],
    ended: &Ended,
    left: &mut Disks,
) -> io::Result<bool> {
    let looked = run(alloc, &script.with_lines(script.looks), left)?;
    let shown = looked.output();
    Ok(looked.status == FINISHED && is_allowed(alloc, script, whole, ended, shown))
}

/// Runs a script over disks of which one fails, and stops it. Says whether a call failed.
pub fn try_fault(
    rt: &HostRuntime,
    script: &Script,
    whole: &[u8],
    fault: &Fault,
    counts: &mut Counts,
) -> io::Result<bool> {
    let alloc = rt.alloc();
    let mut disks = fresh(alloc, script, fault)?;
    let ended = run(alloc, script, &mut disks)?;
    let allowed = are_allowed(alloc, script, whole, &ended, &mut disks)?;
    let found = if allowed { None } else { Some(Wrong::Tree) };
    told(rt, script, fault, found, &ended, counts)?;
    Ok(!is_whole(&mut disks, fault.device))
}
