//! The program.
#![tactic(auto)]

ghost use Rattle.std.specs.Prelude.{◌≡◌, drop, map, string_bytes, IfErr, IfOk, IfSome, IsOkAnd, IsSomeAnd, IsUtf8, OnOk};
ghost use Rattle.std.specs.Process.{exit_status};
ghost use Rattle.std.specs.Io.KnownBytes.{Appends};
ghost use Rattle.wtf_serve.specs.Endings.{devices};
ghost use Rattle.wtf_cli.specs.Program.{IsBroughtOut, IsProgramStatus, IsRunOver, open_status, error_text};

mod devices;
mod first_word;
mod journaled;
mod second_word;
mod status;

use crate::devices::{Opened, in_memory, journaled_at, journaled_in_memory, opened_at};
use crate::first_word::{First, USAGE, VERSION, first_of};
use crate::journaled::run_journaled;
use crate::second_word::{JOURNAL_BYTES, Second, asks_journal, is_none, second_of};
use crate::status::{NO_DIRECTORY, line_of, open_status};
use std::alloc::Global;
use std::env::{self, Env, FillError};
use std::fs::File;
use std::io::{self, Write};
use std::process::ExitCode;
use wtf_dev::{Keeper, Shelf, Sink, SliceStore, Source};
use wtf_real::{OpenFault, StandIns, streams};
use wtf_serve::{FINISHED, OUT_OF_MEMORY, WORDS_REFUSED, WRITING_FAILED, wtf};

/// The greatest length of a path, in bytes: the system opens no longer one.
const PATH_BYTES: usize = 4_096;

/// `wtf DIR WORDS..` answers the script on standard input on standard output; where the words ask for a script that is made
/// from a number, standard input is not read. DIR holds a folder for each server, `s0` to `s15`, the file `image` and the
/// file `lock`; what is missing of these but the image is made. For the DIR `-` stores and keeper are in memory and end
/// with the run. `wtf DIR --journal WORDS..` is a run with a journal: the stores are over disks in the same folders, the
/// journal is in the folder `journal` of DIR, and the file `image` is not used. A DIR that is missing, empty or begins with `-`, one that another run holds, or one where something cannot
/// be opened, ends with status 10 before the words are read. Else the status is that of the run, and of the words before
/// it; for each status but 0 its line is written on standard error. `--help` and `--version` alone show what they say.
fn main(rt: HostRuntime) -> ExitCode {
    told(&rt, status_of(&rt))
}

/// The exit code of a status, whose line is written on standard error where it has one.
fn told(rt: &HostRuntime, status: u8) -> ExitCode
    ensures { exit_status result ≡ status }
{
    // There is nowhere to say that standard error takes no line.
    let _ = write_line(&mut rt.stderr(), status);
    ExitCode::from(status)
}

/// Writes the line of a status, where it has one.
fn write_line<W: Write>(to: &mut W, status: u8) -> io::Result<()>
    ensures { OnOk result (Appends (W.contents to.old) (W.contents to.new) (error_text status)) }
{
    let Some(line) = line_of(status) else {
        return Ok(());
    };
    to.write_all(line.as_bytes())?;
    to.write_all(b"\n")?;
    Ok(())
}

/// Does what the words ask for, and answers its status. The standard streams are all open before any other file is.
fn status_of(rt: &HostRuntime) -> u8
    ensures { IsProgramStatus result }
{
    let standing = match StandIns::open(rt) {
        Ok(standing) => standing,
        Err(fault) => return open_status(fault),
    };
    let mut bytes = [0u8; PATH_BYTES];
    let Some(word) = text_of(word_given(rt, 1, &mut bytes)) else {
        return NO_DIRECTORY;
    };
    let mut behind = [0u8; JOURNAL_BYTES];
    let second = second_of(word_given(rt, 2, &mut behind));
    match first_of(word, is_none(second)) {
        First::Folder => return run_in(rt, &standing, word, second),
        First::Memory => return run_in_memory(rt, second),
        First::Help => return show(rt, USAGE),
        First::Version => return show(rt, VERSION),
        First::NoFolder => return NO_DIRECTORY,
    }
}

/// The word at a place behind the program's name, which is place 0, where it fits. No contract says which words the system
/// gives; what they ask for is said of what this answers.
fn word_given<'a>(
    rt: &HostRuntime,
    place: usize,
    bytes: &'a mut [u8],
) -> Result<&'a [u8], FillError> {
    match rt.arg(place, bytes) {
        Ok(n) => Ok(&bytes[..n]),
        Err(why) => Err(why),
    }
}

/// A word that was given, where it is text.
fn text_of<'a>(given: Result<&'a [u8], FillError>) -> Option<&'a str>
    ensures text { IfOk given.entry (λ word. IsUtf8 word.now → IsSomeAnd result (λ text. text.now ≡ word.now)) }
    ensures other { IfSome result (λ text. IsOkAnd given.entry (λ word. text.now ≡ word.now)) }
{
    let Ok(word) = given else {
        return None;
    };
    match str::from_utf8(word) {
        Ok(text) => Some(text),
        Err(_) => None,
    }
}

/// Writes a text on standard output.
fn show(rt: &HostRuntime, text: &str) -> u8
    ensures { IsProgramStatus result }
{
    match print!(rt; "{text}") {
        Ok(()) => FINISHED,
        Err(_) => WRITING_FAILED,
    }
}

/// Runs the script over the folder of a store, and holds the folder until the run is over.
fn run_in(rt: &HostRuntime, standing: &StandIns<File>, dir: &str, second: Second) -> u8
    ensures { IsProgramStatus result }
{
    if asks_journal(second) {
        let (opened, lock) = match journaled_at(rt, standing, dir) {
            Ok(held) => held,
            Err(fault) => return open_status(fault),
        };
        let status = run_journaled(rt, Ok(opened));
        drop(lock);
        return status;
    }
    let (opened, lock) = match opened_at(rt, standing, dir) {
        Ok(held) => held,
        Err(fault) => return open_status(fault),
    };
    let status = run(rt, Ok(opened));
    drop(lock);
    status
}

/// Runs the script over devices in memory.
fn run_in_memory(rt: &HostRuntime, second: Second) -> u8
    ensures { IsProgramStatus result }
{
    if asks_journal(second) {
        return run_journaled(rt, journaled_in_memory(rt.alloc()));
    }
    run(rt, in_memory(rt.alloc()))
}

/// Runs the script on standard input over the devices, where they could be opened: else no word is read.
fn run<S: SliceStore + Drop, K: Keeper + Drop>(
    rt: &HostRuntime,
    opened: Result<Opened<S, K>, OpenFault>,
) -> u8
    ensures status { IsProgramStatus result }
    ensures unopened { IfErr opened (λ fault. result ≡ open_status fault) }
{
    let mut opened = match opened {
        Ok(opened) => opened,
        Err(unopened) => return open_status(unopened),
    };
    let args = match args_of(rt) {
        Ok(args) => args,
        Err(status) => return status,
    };
    let alloc = rt.alloc();
    let Ok((mut script, mut out)) = streams(alloc, rt.stdin(), rt.stdout()) else {
        return OUT_OF_MEMORY;
    };
    let shelf = &mut opened.shelf;
    let keeper = &mut opened.keeper;
    let args = args.as_slice();
    let status = run_over(alloc, args, &mut script, &mut out, shelf, keeper);
    status
}

/// Runs a script over devices, as the words behind the program's name and DIR ask, and answers the status. What `out` holds
/// back then is brought out; where that fails writing failed, however the run ended.
pub fn run_over<I: Source, O: Sink, S: SliceStore, K: Keeper>(
    alloc: Global,
    args: &[String],
    script: &mut I,
    out: &mut O,
    shelf: &mut Shelf<S>,
    keeper: &mut K,
) -> u8
    ensures status { IsProgramStatus result }
    ensures ran { IsRunOver S.kind (K.follows keeper.old keeper.new)
        (map string_bytes (drop 2 args.now)) result
        (devices (I.view script.old) (O.view out.old) shelf.old (K.view keeper.old))
        (devices (I.view script.new) (O.view out.new) shelf.new (K.view keeper.new)) }
{
    let words = behind(args, 2);
    let status = wtf(alloc, words, script, out, shelf, keeper);
    brought_out(out, status)
}

/// Brings out what the sink of a run holds back that ended with this status, and answers the status then.
fn brought_out<O: Sink>(out: &mut O, status: u8) -> u8
    ensures out { IsBroughtOut status result (O.view out.old) (O.view out.new) }
    ensures known { IsProgramStatus status → IsProgramStatus result }
{
    match out.write(&[]) {
        Ok(_) => status,
        Err(_) => WRITING_FAILED,
    }
}

/// The words behind the first ones, so many of them.
fn behind(args: &[String], count: usize) -> &[String]
    ensures { result.now ≡ drop count args.now }
{
    if args.len() < count {
        return &[];
    }
    &args[count..]
}

/// The program's name and the words after it, or the status where they cannot be had: words that are no text are refused.
fn args_of(rt: &HostRuntime) -> Result<Vec<String>, u8>
    ensures { IfErr result IsProgramStatus }
{
    let all = match env::args(rt) {
        Ok(all) => all,
        Err(e) if e.kind() == io::ErrorKind::InvalidData => return Err(WORDS_REFUSED),
        Err(_) => return Err(OUT_OF_MEMORY),
    };
    match all.collect(rt.alloc()) {
        Ok(args) => Ok(args),
        Err(_) => Err(OUT_OF_MEMORY),
    }
}
