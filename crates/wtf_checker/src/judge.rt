//! Whether an output is lawful, line by line, by the machine of the definitions.

ghost use Rattle.std.specs.Prelude.{◌≡◌, ◌↔◌, ◌+◌, ◌<◌, ◌≤◌, ◌^◌, ℕ, List, [], IsTrue, IfOk, MatchOption, length};
ghost use Rattle.wtf_base.specs.declared.settings.Settings.{Settings};
ghost use Rattle.wtf_dev.specs.Streams.{SourceView};
ghost use Rattle.wtf_script.specs.declared.limits.TheConstants.{SCRIPT_BYTES};
ghost use Rattle.wtf_script.specs.Reading.{work};
ghost use Rattle.wtf_model.specs.declared.answer.Answer.{Answer};
ghost use Rattle.wtf_model.specs.declared.answer.Answer.TheVariants as an_answer;
ghost use Rattle.wtf_model.specs.Lines.{MayLine, after_line};
ghost use Rattle.wtf_machine.specs.Kept.{Decides};
ghost use Rattle.wtf_machine.specs.Machines.{machine_in};
ghost use Rattle.wtf_print.specs.Texts.{text_of};
ghost use Rattle.wtf_print.specs.Forms.{IsWritable};
ghost use Rattle.wtf_model.specs.Same.{AreSame};
ghost use Rattle.wtf_checker.specs.Lawful.{BeginsWith, RefusesAnswer, first, first_text, event_or_bad};
ghost use Rattle.wtf_checker.specs.Reading.{IsReading, IsFormAsked, ReadOn};
ghost use Rattle.wtf_checker.specs.Judging.{IsAnswered, IsWithin, IsAnswerOf, Judges, end_of};

use crate::output::split_line;
use crate::script::{Reader, read_line};
use crate::settings::read_settings;
use crate::stop::Stop;
use crate::verdict::Verdict;
use std::alloc::Global;
use wtf_base::OutOfMemory;
use wtf_dev::Source;
use wtf_machine::Machine;
use wtf_model::{Answer, Event, Kind};
use wtf_print::{TextError, parse_answer};

/// Whether an answer tells that this is wrong with a line.
fn is_bad(kind: Kind, answer: &Answer) -> bool
    ensures { IsTrue result ↔ (answer.now ≡ an_answer.Bad kind) }
{
    match answer {
        Answer::Bad(told) => *told == kind,
        _ => false,
    }
}

/// Whether the machine may answer a line so; then it is the machine behind it, and else as before.
fn may(
    machine: &mut Machine,
    asked: &Result<Event, Kind>,
    answer: &Answer,
) -> Result<bool, OutOfMemory>
    requires form { IsFormAsked asked.now }
    requires number { (machine_in machine.old).number < 2 ^ 63 }
    requires stamps { (machine_in machine.old).next_stamp < 2 ^ 63 }
    requires scans { (machine_in machine.old).scans < 2 ^ 63 }
    ensures { IfOk result (Decides
        (MayLine (machine_in machine.old) (event_or_bad asked.now) answer.now)
        (machine_in machine.old)
        (after_line (machine_in machine.old) (event_or_bad asked.now) answer.now)
        (machine_in machine.new)) }
{
    match asked {
        Ok(event) => machine.step(event, answer),
        Err(kind) => Ok(is_bad(*kind, answer)),
    }
}

/// The answer that a line tells, if it tells one.
fn told(alloc: Global, text: &[u8]) -> Result<Option<Answer>, OutOfMemory>
    ensures { IfOk result (IsAnswerOf text.now) }
{
    match parse_answer(alloc, text) {
        Ok(answer) => Ok(Some(answer)),
        Err(TextError::NotAnAnswer) => Ok(None),
        Err(TextError::Memory) => Err(OutOfMemory),
    }
}

/// What stands behind the first line of the output, where that line tells an answer which the machine may give; then it is the
/// machine behind it.
fn answered<'a>(
    alloc: Global,
    machine: &mut Machine,
    asked: &Result<Event, Kind>,
    output: &'a [u8],
) -> Result<Option<&'a [u8]>, OutOfMemory>
    requires form { IsFormAsked asked.now }
    requires number { (machine_in machine.old).number < 2 ^ 63 }
    requires stamps { (machine_in machine.old).next_stamp < 2 ^ 63 }
    requires scans { (machine_in machine.old).scans < 2 ^ 63 }
    ensures { IfOk result (λ found. MatchOption found
        (RefusesAnswer (machine_in machine.old) (event_or_bad asked.now) output.now)
        (λ rest. IsAnswered (machine_in machine.old) (event_or_bad asked.now) output.now rest.now
        (machine_in machine.new))) }
{
    let Some((text, behind)) = split_line(output) else {
        return Ok(None);
    };
    let answer = match told(alloc, text) {
        Ok(Some(answer)) => answer,
        Ok(None) => return Ok(None),
        Err(e) => return Err(e),
    };
    match may(machine, asked, &answer) {
        Ok(true) => Ok(Some(behind)),
        Ok(false) => Ok(None),
        Err(e) => Err(e),
    }
}

/// The verdict behind the last of so many lines, which were answered lawfully.
fn ended(lines: u64, left: &[u8]) -> Verdict
    requires { lines < 2 ^ 63 }
    ensures { result ≡ end_of lines left.now }
{
    if left.is_empty() {
        Verdict::Lawful(lines)
    } else {
        Verdict::Refused(lines + 1)
    }
}

/// Judges the answers to the lines of a script, up to the first refused line.
fn judge_lines<I: Source>(
    reader: &mut Reader,
    script: &mut I,
    machine: &mut Machine,
    answers: &[u8],
) -> Result<Verdict, Stop>
    requires room { work reader.old.lines ≤ SCRIPT_BYTES + 1 }
    requires within { IsWithin 0 (machine_in machine.old) }
    ensures read { (start : SourceView) →
        IsReading start (I.view script.old) reader.old.lines [] →
        ReadOn start (I.view script.new) reader.new.lines result }
    ensures judged { (start : SourceView) (settings : Settings) (output : List ℕ) →
        IsReading start (I.view script.old) reader.old.lines [] →
        machine_in machine.old ≡ first settings →
        BeginsWith (first_text settings) answers.now output → Judges start output result }
{
    let mut lines = 0;
    let mut left = answers;
    loop {
        let asked = match read_line(reader, script) {
            Ok(Some(asked)) => asked,
            Ok(None) => return Ok(ended(lines, left)),
            Err(stop) => return Err(stop),
        };
        lines += 1;
        let found = answered(reader.alloc, machine, &asked, left);
        drop(asked);
        match found {
            Ok(Some(behind)) => left = behind,
            Ok(None) => return Ok(Verdict::Refused(lines)),
            Err(_) => return Err(Stop::Memory),
        }
    }
}

/// Judges an output, and reads the script up to the first refused line.
pub(crate) fn judge<I: Source>(
    reader: &mut Reader,
    script: &mut I,
    output: &[u8],
) -> Result<Verdict, Stop>
    requires room { work reader.old.lines ≤ SCRIPT_BYTES + 1 }
    ensures read { (start : SourceView) →
        IsReading start (I.view script.old) reader.old.lines [] →
        ReadOn start (I.view script.new) reader.new.lines result }
    ensures judged { (start : SourceView) →
        IsReading start (I.view script.old) reader.old.lines [] →
        Judges start output.now result }
{
    let Some((text, answers)) = split_line(output) else {
        return Ok(Verdict::Refused(0));
    };
    let settings = match read_settings(reader.alloc, text) {
        Ok(Some(settings)) => settings,
        Ok(None) => return Ok(Verdict::Refused(0)),
        Err(_) => return Err(Stop::Memory),
    };
    let Ok(mut machine) = Machine::new(reader.alloc, settings, 0) else {
        return Err(Stop::Memory);
    };
    let verdict = judge_lines(reader, script, &mut machine, answers);
    verdict
}
