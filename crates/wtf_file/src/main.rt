//! The program that carries files in and out of a store, as lines of a script.
#![tactic(auto)]

ghost use Rattle.std.specs.Prelude.{◌≡◌, drop, map, string_bytes, IfErr};
ghost use Rattle.std.specs.Process.{exit_status};
ghost use Rattle.wtf_file.specs.Program.{IsBroughtOut, IsCarryOver, IsFileStatus, IsOutcome, IsRunOver, streams};
ghost use Rattle.wtf_file.specs.Words.{HasNamedLength, task_asked};

mod status;
mod task;

use crate::status::{OUT_OF_MEMORY, WORDS_REFUSED, WRITING_FAILED, end_status, line_of};
use crate::task::{Task, task_of};
use std::alloc::Global;
use std::process::ExitCode;
use std::{env, io};
use wtf_carry::{Stop, get, put, reads};
use wtf_dev::{Sink, Source};
use wtf_real::streams;

/// `wtf_file put PATH` turns the bytes on standard input into the lines that put them at PATH; `wtf_file reads PATH LEN`
/// writes the lines that read a file of LEN bytes; `wtf_file get LEN` turns the answers to these into the bytes. For each
/// status but 0 one line is written on standard error.
fn main(rt: HostRuntime) -> ExitCode {
    told(&rt, status_of(&rt))
}

/// The exit code of a status, whose line is written on standard error where it has one.
fn told(rt: &HostRuntime, status: u8) -> ExitCode
    ensures { exit_status result ≡ status }
{
    if let Some(line) = line_of(status) {
        // There is nowhere to say that standard error takes no line.
        let _ = eprintln!(rt; "{line}");
    }
    ExitCode::from(status)
}

/// Does what the words ask, and answers the status.
fn status_of(rt: &HostRuntime) -> u8
    ensures { IsFileStatus result }
{
    let args = match args_of(rt) {
        Ok(args) => args,
        Err(status) => return status,
    };
    let Ok((mut from, mut out)) = streams(rt.alloc(), rt.stdin(), rt.stdout()) else {
        return OUT_OF_MEMORY;
    };
    carry_over(
        rt.alloc(),
        behind_name(args.as_slice()),
        &mut from,
        &mut out,
    )
}

/// Does what the words behind the program's name ask over any source and sink, and answers the status. What `out` holds back
/// is brought out then; where that fails writing failed, however the task ended. Where the words ask for nothing, no byte is
/// read or written.
pub fn carry_over<I: Source, O: Sink>(
    alloc: Global,
    words: &[String],
    from: &mut I,
    out: &mut O,
) -> u8
    ensures known { IsFileStatus result }
    ensures over { IsCarryOver (task_asked (map string_bytes words.now)) result
        (streams (I.view from.old) (O.view out.old))
        (streams (I.view from.new) (O.view out.new)) }
{
    match task_of(alloc, words) {
        Ok(Some(task)) => run_over(alloc, &task, from, out),
        Ok(None) => WORDS_REFUSED,
        Err(_) => OUT_OF_MEMORY,
    }
}

/// Does a task, brings out what `out` holds back, and answers the status.
fn run_over<I: Source, O: Sink>(alloc: Global, task: &Task, from: &mut I, out: &mut O) -> u8
    requires { HasNamedLength task.now }
    ensures known { IsFileStatus result }
    ensures over { IsRunOver task.now result
        (streams (I.view from.old) (O.view out.old))
        (streams (I.view from.new) (O.view out.new)) }
{
    let done = run(alloc, task, from, out);
    brought_out(out, end_status(done))
}

/// Brings out what the sink holds back where a task ended with this status, and answers the status then.
fn brought_out<O: Sink>(out: &mut O, status: u8) -> u8
    ensures out { IsBroughtOut status result (O.view out.old) (O.view out.new) }
    ensures known { IsFileStatus status → IsFileStatus result }
{
    match out.write(&[]) {
        Ok(_) => status,
        Err(_) => WRITING_FAILED,
    }
}

/// Does a task.
fn run<I: Source, O: Sink>(
    alloc: Global,
    task: &Task,
    from: &mut I,
    out: &mut O,
) -> Result<(), Stop>
    requires { HasNamedLength task.now }
    ensures { IsOutcome task.now result
        (streams (I.view from.old) (O.view out.old))
        (streams (I.view from.new) (O.view out.new)) }
{
    match task {
        Task::Put(path) => put(alloc, path, from, out),
        Task::Reads(path, len) => reads(alloc, path, *len, out),
        Task::Get(len) => get(alloc, *len, from, out),
    }
}

/// The words behind the program's name.
fn behind_name(args: &[String]) -> &[String]
    ensures { result.now ≡ drop 1 args.now }
{
    if args.is_empty() {
        return &[];
    }
    &args[1..]
}

/// The program's name and the words after it, or the status where they cannot be had: words that are no text are refused.
fn args_of(rt: &HostRuntime) -> Result<Vec<String>, u8>
    ensures { IfErr result IsFileStatus }
{
    let all = match env::args(rt) {
        Ok(all) => all,
        Err(e) if e.kind() == io::ErrorKind::InvalidData => return Err(WORDS_REFUSED),
        Err(_) => return Err(OUT_OF_MEMORY),
    };
    match all.collect(rt.alloc()) {
        Ok(args) => Ok(args),
        Err(_) => Err(OUT_OF_MEMORY),
    }
}
