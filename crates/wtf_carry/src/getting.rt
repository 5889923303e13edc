//! The bytes in the answers to the lines that read a file.

ghost use Rattle.std.specs.Prelude.{◌≡◌, ◌≢◌, ◌≤◌, ◌<◌, ℕ, List, Some, Ok, Err, length, take, OnOk, IfOk};
ghost use Rattle.wtf_dev.specs.Counts.{Rose};
ghost use Rattle.wtf_script.specs.ScriptLines.{lines_of};
ghost use Rattle.wtf_script.specs.Reading.{work};
ghost use Rattle.wtf_script.specs.declared.limits.TheConstants.{SCRIPT_BYTES};
ghost use Rattle.wtf_carry.specs.Gets.{Gets, NoneGets, Takes, NoneTakes, Comes, NoneBehindEnd, is_first};

use crate::Stop;
use crate::stream::write_all;
use std::alloc::Global;
use wtf_base::Bytes;
use wtf_dev::{Sink, Source};
use wtf_lex::is_word;
use wtf_model::Answer;
use wtf_print::{TextError, parse_answer};
use wtf_script::{Line, Lines, ReadError};

/// Turns what a run answered to the lines that read a file of `len` bytes into its bytes. Other answers than `begun`, `ok`
/// and `data`, or other than so many bytes, are `Wrong`, as is a line of more than 65,536 bytes; more answers than a script
/// may have bytes are `TooLong`. What was written by then is to be thrown away.
pub fn get<I: Source, O: Sink>(
    alloc: Global,
    len: u64,
    from: &mut I,
    out: &mut O,
) -> Result<(), Stop>
    ensures gets { OnOk result ((script old : List ℕ) → (I.view from.old).rest ≡ Some script →
        (O.view out.old).taken ≡ Some old →
        Gets len (lines_of script) old (O.view out.new).taken) }
    ensures unread { result ≡ Err Stop.Unread →
        Rose (I.view from.old).faults (I.view from.new).faults }
    ensures unwritten { result ≡ Err Stop.Unwritten →
        Rose (O.view out.old).faults (O.view out.new).faults }
    ensures wrong { result ≡ Err Stop.Wrong → (script : List ℕ) →
        (I.view from.old).rest ≡ Some script → NoneGets len (lines_of script) }
    ensures too_long { result ≡ Err Stop.TooLong → (script : List ℕ) →
        (I.view from.old).rest ≡ Some script → SCRIPT_BYTES < length script }
{
    let mut lines = Lines::new(alloc)?;
    let Some(first) = next_line(&mut lines, from)? else {
        return Err(Stop::Wrong);
    };
    if !is_first(first.as_slice()) {
        return Err(Stop::Wrong);
    }
    let mut left = len;
    while let Some(line) = next_line(&mut lines, from)? {
        left -= take_line(alloc, line.as_slice(), left, out)?;
    }
    if left > 0 {
        return Err(Stop::Wrong);
    }
    Ok(())
}

/// The next line.
fn next_line<I: Source>(lines: &mut Lines, from: &mut I) -> Result<Option<Bytes>, Stop>
    ensures came { (rest : List ℕ) → (I.view from.old).rest ≡ Some rest →
        NoneBehindEnd lines.old rest →
        Comes lines.old rest lines.new (I.view from.new).rest result }
    ensures progress { (line : List ℕ) → result ≡ Ok (Some line) → work lines.new < work lines.old }
    ensures faults { (I.view from.old).faults ≤ (I.view from.new).faults }
    ensures unread { result ≡ Err Stop.Unread →
        Rose (I.view from.old).faults (I.view from.new).faults }
    ensures unwritten { result ≢ Err Stop.Unwritten }
{
    match lines.next(from) {
        Ok(Some(Line::Whole(bytes))) => Ok(Some(bytes)),
        Ok(Some(Line::Long)) => Err(Stop::Wrong),
        Ok(None) => Ok(None),
        Err(ReadError::Failed) => Err(Stop::Unread),
        Err(ReadError::TooMuch) => Err(Stop::TooLong),
        Err(ReadError::Memory) => Err(Stop::Memory),
    }
}

/// Whether answers begin with this line.
fn is_first(line: &[u8]) -> bool
    ensures { result ≡ is_first line.now }
{
    is_word(front(line), b"wtf servers ")
}

/// The first 12 bytes.
fn front(line: &[u8]) -> &[u8]
    ensures { result.now ≡ take 12 line.now }
{
    let (front, _) = line.split_at(line.len().min(12));
    front
}

/// Writes the bytes that an answer shows, at most `left`, and answers how many.
fn take_line<O: Sink>(alloc: Global, line: &[u8], left: u64, out: &mut O) -> Result<u64, Stop>
    ensures takes { IfOk result (λ n.
        Takes line.now n (O.view out.old).taken (O.view out.new).taken) }
    ensures wrong { result ≡ Err Stop.Wrong → NoneTakes line.now left }
    ensures within { IfOk result (λ n. n ≤ left) }
    ensures faults { (O.view out.old).faults ≤ (O.view out.new).faults }
    ensures unwritten { result ≡ Err Stop.Unwritten →
        Rose (O.view out.old).faults (O.view out.new).faults }
    ensures unread { result ≢ Err Stop.Unread }
    ensures too_long { result ≢ Err Stop.TooLong }
{
    let answer = match parse_answer(alloc, line) {
        Ok(answer) => answer,
        Err(TextError::NotAnAnswer) => return Err(Stop::Wrong),
        Err(TextError::Memory) => return Err(Stop::Memory),
    };
    match answer {
        Answer::Begun(_) => Ok(0),
        Answer::Okay => Ok(0),
        Answer::Shown(bytes) => {
            let n = bytes.as_slice().len() as u64;
            if n > left {
                return Err(Stop::Wrong);
            }
            match write_all(out, bytes.as_slice()) {
                Ok(()) => Ok(n),
                Err(_) => Err(Stop::Unwritten),
            }
        }
        _ => Err(Stop::Wrong),
    }
}
