//! The program that says whether the output of a run is lawful.
#![tactic(auto)]

ghost use Rattle.std.specs.Prelude.{◌≡◌};
ghost use Rattle.wtf_check.specs.Program.{check_open_status, IsCheckOver};
ghost use Rattle.wtf_checker.specs.Checked.{streams};

use std::alloc::Global;
use std::env::{self, Env, FillError};
use std::fs::File;
use std::process::ExitCode;
use wtf_checker::{OUT_OF_MEMORY, WRITING_FAILED, wtf_check};
use wtf_dev::{Sink, Source};
use wtf_real::{FileSource, OpenFault, streams};

/// The greatest length of a path, in bytes: the system opens no longer one.
const PATH_BYTES: usize = 4_096;

/// There are not two words, or a file cannot be opened.
const NO_FILES: u8 = 10;

/// `wtf_check SCRIPT OUTPUT` says on standard output whether the output is what a run may answer to the script: `yes N` for a
/// script of N lines, with status 0, else `no K` with the first refused line, and status 1. It ends with status 10 where there
/// are not exactly two words, or a file cannot be opened. Nothing is written on standard error.
fn main(rt: HostRuntime) -> ExitCode {
    ExitCode::from(status_of(&rt))
}

/// The word at a place behind the program's name, where there is one that is text.
fn word_at<'a>(rt: &HostRuntime, at: usize, bytes: &'a mut [u8]) -> Option<&'a str> {
    let Ok(n) = rt.arg(at, bytes) else {
        return None;
    };
    match str::from_utf8(&bytes[..n]) {
        Ok(word) => Some(word),
        Err(_) => None,
    }
}

/// Whether there is no third word.
fn are_two(rt: &HostRuntime) -> bool {
    matches!(rt.arg(3, &mut []), Err(FillError::NotPresent))
}

/// The status of files that could not be opened.
fn open_status(fault: OpenFault) -> u8
    ensures { result ≡ check_open_status fault }
{
    match fault {
        OpenFault::Failed => NO_FILES,
        OpenFault::Memory => OUT_OF_MEMORY,
    }
}

/// The file that a word names.
fn file_at(rt: &HostRuntime, at: usize) -> Result<FileSource<File>, u8> {
    let mut bytes = [0u8; PATH_BYTES];
    let Some(path) = word_at(rt, at, &mut bytes) else {
        return Err(NO_FILES);
    };
    match FileSource::open(rt, path) {
        Ok(file) => Ok(file),
        Err(fault) => Err(open_status(fault)),
    }
}

/// Checks the files that the words name, and answers the status.
fn status_of(rt: &HostRuntime) -> u8 {
    if !are_two(rt) {
        return NO_FILES;
    }
    let mut script = match file_at(rt, 1) {
        Ok(file) => file,
        Err(status) => return status,
    };
    let mut output = match file_at(rt, 2) {
        Ok(file) => file,
        Err(status) => return status,
    };
    let Ok((_, mut out)) = streams(rt.alloc(), rt.stdin(), rt.stdout()) else {
        return OUT_OF_MEMORY;
    };
    check_over(rt.alloc(), &mut script, &mut output, &mut out)
}

/// Checks an output against its script, says on `out` whether it is lawful, and answers the status. What `out` holds back is
/// brought out then; where that fails writing failed, whatever the verdict is.
pub fn check_over<I: Source, T: Source, O: Sink>(
    alloc: Global,
    script: &mut I,
    output: &mut T,
    out: &mut O,
) -> u8
    ensures { IsCheckOver result
        (streams (I.view script.old) (T.view output.old) (O.view out.old))
        (streams (I.view script.new) (T.view output.new) (O.view out.new)) }
{
    let status = wtf_check(alloc, script, output, out);
    match out.write(&[]) {
        Ok(_) => status,
        Err(_) => WRITING_FAILED,
    }
}
