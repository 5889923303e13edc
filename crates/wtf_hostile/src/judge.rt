//! What every run must keep, whatever failed in it.

use crate::devices::{Ended, run};
use crate::fault::{Device, Fault, How, NONE};
use crate::odd::OddStore;
use crate::report::Wrong;
use crate::scripts::Script;
use crate::statuses::{due_status, may_end};
use crate::streams::{Drip, Sip, texts};
use crate::tally::{Tally, last_save, tally_of};
use crate::texts::{behind_lines, feed_behind, feeds, first_bytes, first_lines, lines_in, text_of};
use std::alloc::Global;
use std::io;
use wtf_checker::{LAWFUL, wtf_check};
use wtf_dev::Shelf;
use wtf_serve::{BAD_LINES, FINISHED, SAVING_FAILED, WRITING_FAILED};

/// The status of the checker.
fn verdict(alloc: Global, script: &mut Drip, output: &mut Drip, out: &mut Sip) -> u8 {
    wtf_check(alloc, script, output, out)
}

/// Whether the definitions allow an output to these lines. Both are texts, one behind another.
pub fn is_lawful(alloc: Global, lines: [&[u8]; 3], output: [&[u8]; 3]) -> bool {
    let mut lines = Drip::new(lines, NONE);
    let mut output = Drip::new(output, NONE);
    let mut out = Sip::new(alloc, NONE);
    verdict(alloc, &mut lines, &mut output, &mut out) == LAWFUL
}

/// The line of the settings that a script begins with.
fn settings_line(alloc: Global, script: &Script) -> io::Result<String> {
    let (servers, replicas, region) = (script.servers, script.replicas, script.region);
    Ok(format!(in alloc; "wtf servers {servers} replicas {replicas} region {region} number 0\n")?)
}

/// Whether a status says that the script was read to its end.
fn is_end(status: u8) -> bool {
    status == FINISHED || status == BAD_LINES || status == SAVING_FAILED
}

/// How many lines an output answers.
fn answered(output: &[u8]) -> usize {
    feeds(output).saturating_sub(1)
}

/// Whether an output is a front of the settings and of so many lines as the status says.
fn has_form(script: &Script, settings: &[u8], ended: &Ended) -> bool {
    let output = ended.output();
    if !output.starts_with(settings) && !settings.starts_with(output) {
        return false;
    }
    if is_end(ended.status) && answered(output) != lines_in(script.lines) {
        return false;
    }
    ended.status == WRITING_FAILED || output.is_empty() || output.ends_with(b"\n")
}

/// Whether a run ended as it may.
fn has_status(fault: &Fault, ended: &Ended, tally: &Tally) -> bool {
    let due = due_status(tally.bad, tally.down);
    may_end(fault.device, fault.at, ended.rose > 0, due, ended.status)
}

/// How many calls failed at least, as the answers and the end say.
fn blames(ended: &Ended, tally: &Tally) -> u64 {
    let unsaved = ended.status == SAVING_FAILED && !tally.down;
    tally.faults.saturating_add(u64::from(unsaved))
}

/// What is wrong with a run of a script on an empty store, and with what it left. The same run with no fault wrote `whole`.
pub fn wrong_in(
    alloc: Global,
    script: &Script,
    whole: &[u8],
    fault: &Fault,
    ended: &Ended,
    shelf: &mut Shelf<OddStore>,
) -> io::Result<Option<Wrong>> {
    let settings = settings_line(alloc, script)?;
    let found = wrong_in_run(alloc, script, whole, fault, settings.as_bytes(), ended);
    if found.is_some() {
        return Ok(found);
    }
    wrong_in_rest(alloc, script, settings.as_bytes(), ended, shelf)
}

/// What is wrong with a run.
fn wrong_in_run(
    alloc: Global,
    script: &Script,
    whole: &[u8],
    fault: &Fault,
    settings: &[u8],
    ended: &Ended,
) -> Option<Wrong> {
    let output = ended.output();
    if !has_form(script, settings, ended) || !is_front(script, whole, fault, output) {
        return Some(Wrong::Text);
    }
    let said = tally_of(script, text_of(output));
    if !has_status(fault, ended, &said) {
        return Some(Wrong::Status);
    }
    if blames(ended, &said) > ended.rose {
        return Some(Wrong::Blame);
    }
    if !are_lawful(alloc, script, output) {
        return Some(Wrong::Unlawful);
    }
    None
}

/// A source and a sink that fail change no answer: what is written is a front of what is without a fault.
fn is_front(script: &Script, whole: &[u8], fault: &Fault, output: &[u8]) -> bool {
    match fault.device {
        Device::Source => whole.starts_with(output) && answers_given(script, fault, output),
        Device::Sink => whole.starts_with(output) && is_all_taken(whole, fault, output),
        _ => true,
    }
}

/// Where the source breaks off at a byte, each line that a line feed ended by then is answered, and no other one.
fn answers_given(script: &Script, fault: &Fault, output: &[u8]) -> bool {
    match fault.how {
        How::Bytes => {
            let lines = feeds(first_bytes(script.lines, fault.at));
            feeds(output) == lines.saturating_add(1)
        }
        _ => true,
    }
}

/// Where the sink breaks off at a byte, it took all up to there.
fn is_all_taken(whole: &[u8], fault: &Fault, output: &[u8]) -> bool {
    match fault.how {
        How::Bytes => output.len() == first_bytes(whole, fault.at).len(),
        _ => true,
    }
}

/// Whether the definitions allow the answers that were written whole.
fn are_lawful(alloc: Global, script: &Script, output: &[u8]) -> bool {
    let count = feeds(output);
    if count == 0 {
        return true;
    }
    let lines = first_lines(script.lines, count.saturating_sub(1));
    is_lawful(
        alloc,
        [lines, &[], &[]],
        [first_lines(output, count), &[], &[]],
    )
}

/// What is wrong with what a run left: another run opens it, reads all its bytes, and shows a tree that may have been saved.
fn wrong_in_rest(
    alloc: Global,
    script: &Script,
    settings: &[u8],
    ended: &Ended,
    shelf: &mut Shelf<OddStore>,
) -> io::Result<Option<Wrong>> {
    let look = script.with_lines(script.looks);
    let looked = run(alloc, &look, &NONE, shelf, ended.kept())?;
    Ok(wrong_in_look(alloc, script, settings, ended, &looked))
}

/// What is wrong with the run that looks at what another left.
fn wrong_in_look(
    alloc: Global,
    script: &Script,
    settings: &[u8],
    ended: &Ended,
    looked: &Ended,
) -> Option<Wrong> {
    let shown = looked.output();
    let front = first_bytes(settings, settings.len().saturating_sub(2) as u64);
    if looked.status != FINISHED || !shown.starts_with(front) || !is_read(text_of(shown)) {
        return Some(Wrong::Refused);
    }
    if !may_stand(alloc, script, settings, ended, shown) {
        return Some(Wrong::Tree);
    }
    None
}

/// Whether no answer says that something could not be read.
fn is_read(output: &str) -> bool {
    let mut read = true;
    for answer in output.split('\n') {
        read = read && !answer.starts_with("fault") && !answer.starts_with("damaged");
    }
    read
}

/// Whether the line that was not answered is a save.
fn saves_next(script: &Script, count: usize) -> bool {
    let rest = behind_lines(script.lines, count);
    first_lines(rest, 1) == b"sys save\n".as_slice() || rest == b"sys save".as_slice()
}

/// Whether a run may leave what is shown: the tree behind its lines where these ended or a save may have come next, and, where it
/// was broken off, one that a save may have left.
fn may_stand(alloc: Global, script: &Script, settings: &[u8], ended: &Ended, shown: &[u8]) -> bool {
    let output = ended.output();
    let count = answered(output);
    let is_point = is_end(ended.status) || saves_next(script, count);
    if is_point && is_shown(alloc, script, settings, output, count, shown) {
        return true;
    }
    if ended.status == FINISHED || ended.status == BAD_LINES {
        return false;
    }
    may_be_saved(alloc, script, settings, output, shown)
}

/// Whether what is shown is the tree of the last save that was answered, or of one behind it that failed.
fn may_be_saved(
    alloc: Global,
    script: &Script,
    settings: &[u8],
    output: &[u8],
    shown: &[u8],
) -> bool {
    let answers = text_of(first_lines(output, feeds(output)));
    let last = last_save(answers);
    let mut at = 0usize;
    for answer in answers.split('\n') {
        let is_point = at == last || (at > last && answer == "fault save");
        if is_point && is_shown(alloc, script, settings, output, at, shown) {
            return true;
        }
        at = at.saturating_add(1);
    }
    false
}

/// Whether the definitions allow the answers to the looks behind the first lines, so many of them, and these settings.
fn is_shown(
    alloc: Global,
    script: &Script,
    settings: &[u8],
    output: &[u8],
    count: usize,
    shown: &[u8],
) -> bool {
    let lines = first_lines(script.lines, count);
    let answers = first_lines(behind_lines(output, 1), count);
    let lines = texts(lines, feed_behind(lines), script.looks);
    is_lawful(
        alloc,
        lines,
        texts(settings, answers, behind_lines(shown, 1)),
    )
}
