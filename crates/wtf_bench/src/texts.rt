//! What hexadecimal data costs to be printed and read, beside a plain copy of as many bytes.

use crate::figures::{Laps, ROUNDS, least, memory, show};
use std::alloc::Global;
use std::io;
use wtf_base::{Bytes, OutOfMemory};
use wtf_model::{Answer, Event, Op, Verb};
use wtf_print::print_answer;
use wtf_script::{LineError, parse_line};

/// How many bytes the data of the rows has: the last is the most that a line shows.
const SIZES: [u32; 3] = [64, 1_024, 8_192];

/// A round makes each call so often.
const CALLS: u64 = 100;

const HEAD: &str = "  bytes  copy            print           read\n";

/// Prints the table of data: the ratios are to the copy of the line in the same row.
pub fn table(rt: &HostRuntime) -> io::Result<()> {
    rt.print(HEAD)?;
    for n in SIZES {
        let costs = measure(rt, n)?;
        print!(rt; "{n:>7}")?;
        for cost in costs {
            show(rt, cost, costs[0], CALLS)?;
        }
        println!(rt; "")?;
    }
    Ok(())
}

/// The nanoseconds of the copies, of the prints and of the reads, each the least of all rounds.
fn measure(rt: &HostRuntime, n: u32) -> io::Result<[u64; 3]> {
    let line = line_of(rt.alloc(), n).map_err(memory)?;
    let answer = answer_of(rt.alloc(), n).map_err(memory)?;
    let mut costs = [u64::MAX; 4];
    for _ in 0..ROUNDS {
        costs = least(costs, round(rt, line.as_slice(), &answer)?);
    }
    Ok([costs[0], costs[1], costs[2]])
}

/// The same of one round, and 0 behind them.
fn round(rt: &HostRuntime, line: &[u8], answer: &Answer) -> io::Result<[u64; 4]> {
    let mut out = Vec::new(rt.alloc());
    // The buffer has its room before the clock starts.
    copies(&mut out, line).map_err(memory)?;
    let mut clock = Laps::start(rt)?;
    let copied = copies(&mut out, line).map_err(memory)?;
    let copying = clock.lap(rt)?;
    let printed = prints(&mut out, answer).map_err(memory)?;
    let printing = clock.lap(rt)?;
    let read = reads(rt.alloc(), line).map_err(unread)?;
    let reading = clock.lap(rt)?;
    // The lengths are used, so that no compiler leaves the calls out.
    if copied.wrapping_add(printed).wrapping_add(read) == u64::MAX {
        return Err(io::Error::from(io::ErrorKind::InvalidData));
    }
    Ok([copying, printing, reading, 0])
}

/// A line of the tables has its form.
pub fn unread(_why: LineError) -> io::Error {
    io::Error::from(io::ErrorKind::InvalidData)
}

/// The line that writes `n` bytes.
pub fn line_of(alloc: Global, n: u32) -> Result<Vec<u8>, OutOfMemory> {
    let mut line = b"c0 write f0 x:".to_vec(alloc)?;
    for _ in 0..n {
        line.extend_from_slice(b"5a")?;
    }
    Ok(line)
}

/// The answer that shows `n` bytes.
pub fn answer_of(alloc: Global, n: u32) -> Result<Answer, OutOfMemory> {
    Ok(Answer::Shown(Bytes::of(vec![in alloc; 90; n as usize]?)))
}

/// How many bytes the copies of a line have.
fn copies(out: &mut Vec<u8>, line: &[u8]) -> Result<u64, OutOfMemory> {
    let mut count = 0u64;
    for _ in 0..CALLS {
        out.clear();
        out.extend_from_slice(line)?;
        count = count.wrapping_add(out.len() as u64);
    }
    Ok(count)
}

/// How many bytes the texts of an answer have.
pub fn prints(out: &mut Vec<u8>, answer: &Answer) -> Result<u64, OutOfMemory> {
    let mut count = 0u64;
    for _ in 0..CALLS {
        out.clear();
        print_answer(answer, out)?;
        count = count.wrapping_add(out.len() as u64);
    }
    Ok(count)
}

/// How many bytes are written by the events that a line gives.
pub fn reads(alloc: Global, line: &[u8]) -> Result<u64, LineError> {
    let mut count = 0u64;
    for _ in 0..CALLS {
        let event = parse_line(alloc, line)?;
        count = count.wrapping_add(written(&event));
    }
    Ok(count)
}

/// How many bytes an event writes.
fn written(event: &Event) -> u64 {
    match event {
        Event::Client(_, Verb::Call(Op::Write(_, bytes))) => bytes.as_slice().len() as u64,
        _ => 0,
    }
}
