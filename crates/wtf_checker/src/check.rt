//! The check of a script and an output.

ghost use Rattle.std.specs.Prelude.{◌≡◌, ◌≤◌, ◌++◌, ◌∷◌, [], ℕ, List, Some, IfOk, OnErr, decimal};
ghost use Rattle.wtf_dev.specs.Counts.{Rose};
ghost use Rattle.wtf_script.specs.ScriptLines.{line_feed};
ghost use Rattle.wtf_checker.specs.Lawful.{verdict_line, IsOneVerdict};
ghost use Rattle.wtf_checker.specs.Checked.{VerdictTaken, WroteVerdict, HaveRead, IsChecked, streams, verdict_status};

use crate::judge::judge;
use crate::output::read_all;
use crate::script::{Reader, skip};
use crate::stop::{LAWFUL, OUT_OF_MEMORY, REFUSED, Stop, WRITING_FAILED};
use crate::verdict::Verdict;
use itoa::Buffer;
use std::alloc::Global;
use wtf_base::OutOfMemory;
use wtf_dev::{Failed, Sink, Source};
use wtf_script::Lines;

/// Judges the output, and reads both sources to their end.
fn verdict_on<I: Source, T: Source>(
    alloc: Global,
    script: &mut I,
    output: &mut T,
) -> Result<Verdict, Stop>
    ensures { HaveRead (I.view script.old) (I.view script.new)
        (T.view output.old) (T.view output.new) result }
{
    let bytes = match read_all(alloc, output) {
        Ok(bytes) => bytes,
        Err(stop) => return Err(stop),
    };
    let Ok(lines) = Lines::new(alloc) else {
        return Err(Stop::Memory);
    };
    let mut reader = Reader { alloc, lines };
    let verdict = match judge(&mut reader, script, bytes.as_slice()) {
        Ok(verdict) => verdict,
        Err(stop) => return Err(stop),
    };
    match skip(&mut reader, script) {
        Ok(()) => Ok(verdict),
        Err(stop) => Err(stop),
    }
}

/// A word, a number and a line feed.
fn line_with(alloc: Global, word: &[u8], number: u64) -> Result<Vec<u8>, OutOfMemory>
    ensures { IfOk result (λ line.
        line.items ≡ word.now ++ decimal number ++ line_feed ∷ []) }
{
    let mut buffer = Buffer::new();
    let mut line = Vec::new(alloc);
    line.extend_from_slice(word)?;
    line.extend_from_slice(buffer.format(number).as_bytes())?;
    line.push(b'\n')?;
    Ok(line)
}

/// The line of a verdict.
fn verdict_line(alloc: Global, verdict: Verdict) -> Result<Vec<u8>, OutOfMemory>
    ensures { IfOk result (λ line. line.items ≡ verdict_line verdict) }
{
    match verdict {
        Verdict::Lawful(lines) => line_with(alloc, b"yes ", lines),
        Verdict::Refused(line) => line_with(alloc, b"no ", line),
    }
}

/// Writes all of a text.
fn write_all<O: Sink>(out: &mut O, text: &[u8]) -> Result<(), Failed>
    ensures told { (old : List ℕ) → (O.view out.old).taken ≡ Some old →
        VerdictTaken old text.now (O.view out.new).taken result }
    ensures faults { (O.view out.old).faults ≤ (O.view out.new).faults }
    ensures cause { OnErr result (Rose (O.view out.old).faults (O.view out.new).faults) }
{
    let mut at = 0;
    while at < text.len() {
        let (_, part) = text.split_at(at);
        match out.write(part) {
            Ok(n) => at += n,
            Err(e) => return Err(e),
        }
    }
    Ok(())
}

/// The status of a verdict.
fn status_of(verdict: Verdict) -> u8
    ensures { result ≡ verdict_status verdict }
{
    match verdict {
        Verdict::Lawful(_) => LAWFUL,
        Verdict::Refused(_) => REFUSED,
    }
}

/// Writes the line of a verdict, and answers the status.
fn tell<O: Sink>(alloc: Global, verdict: Verdict, out: &mut O) -> u8
    ensures { WroteVerdict verdict (O.view out.old) (O.view out.new) result }
{
    let Ok(line) = verdict_line(alloc, verdict) else {
        return OUT_OF_MEMORY;
    };
    match write_all(out, line.as_slice()) {
        Ok(()) => status_of(verdict),
        Err(_) => WRITING_FAILED,
    }
}

/// Says on `out` whether `output` is what a run may answer to `script`: `yes N` for a script of N lines, else `no K` with the first
/// refused line, 0 for that of the settings. It ends with status 0 and 1 then. Both sources are read to their end.
pub fn wtf_check<I: Source, T: Source, O: Sink>(
    alloc: Global,
    script: &mut I,
    output: &mut T,
    out: &mut O,
) -> u8
    ensures checked { IsChecked result
        (streams (I.view script.old) (T.view output.old) (O.view out.old))
        (streams (I.view script.new) (T.view output.new) (O.view out.new)) }
    ensures one { (script output : List ℕ) → IsOneVerdict script output }
{
    match verdict_on(alloc, script, output) {
        Ok(verdict) => tell(alloc, verdict, out),
        Err(stop) => stop.status(),
    }
}
