//! Runs over stores that give zeros in place of what they hold: a list that is spilled there is damaged.

use crate::devices::{Ended, run, stores};
use crate::fault::{Device, EACH, Fault, How, NONE};
use crate::judge::is_lawful;
use crate::report::{Counts, Wrong, told};
use crate::scripts::{SCRIPTS, SPILLED, Script};
use crate::statuses::is_named;
use crate::texts::{behind_lines, feeds, lines_in, number_behind, text_of};
use std::alloc::Global;
use std::io;
use wtf_print::parse_answer;

/// How many lines of the script that spills a list read it, and how many of those that look at what it leaves.
const SPILLS: usize = 3;

const LOOKS: usize = 1;

/// How many answers say that a list of this server is damaged. No answer says so of another.
#[derive(Clone, Copy)]
struct Damage {
    server: u8,
    answers: usize,
}

/// The store of a server gives zeros, or that of each.
fn zeros_on(k: u8) -> Fault {
    Fault {
        device: Device::Store(k),
        how: How::Zeros,
        ..NONE
    }
}

/// Each script runs over stores that give zeros: one of them, and all.
pub fn zeros(rt: &HostRuntime, counts: &mut Counts) -> io::Result<()> {
    for script in SCRIPTS.iter() {
        try_zeros(rt, script, EACH, None, counts)?;
        for k in 0..script.servers {
            try_zeros(rt, script, k, None, counts)?;
        }
    }
    Ok(())
}

/// A list is spilled over such stores. Where the store that is read gives zeros, the list is damaged, and all else is answered as
/// it should be.
pub fn lists(rt: &HostRuntime, counts: &mut Counts) -> io::Result<()> {
    let read = read_from(rt.alloc())?;
    try_zeros(rt, &SPILLED, EACH, Some(read), counts)?;
    for k in 0..SPILLED.servers {
        try_zeros(rt, &SPILLED, k, Some(read), counts)?;
    }
    Ok(())
}

/// The server whose copy of the list is the one that is read: the first answer of a damaged list names it.
fn read_from(alloc: Global) -> io::Result<u8> {
    let fault = zeros_on(EACH);
    let mut shelf = stores(alloc, &fault)?;
    let ended = run(alloc, &SPILLED, &NONE, &mut shelf, &[])?;
    Ok(blamed_in(text_of(ended.output())))
}

/// The server that the first answer of a damaged list names.
fn blamed_in(output: &str) -> u8 {
    for line in output.split('\n') {
        if line.starts_with("damaged ") {
            return number_behind(line, "damaged ").unwrap_or(EACH);
        }
    }
    EACH
}

/// Runs a script over stores that give zeros, then looks at the tree, and counts whether both have the form of runs. Where a list
/// is spilled of which this server's copy is read, it says whether that is damaged.
fn try_zeros(
    rt: &HostRuntime,
    script: &Script,
    k: u8,
    read: Option<u8>,
    counts: &mut Counts,
) -> io::Result<()> {
    let alloc = rt.alloc();
    let fault = zeros_on(k);
    let look = script.with_lines(script.looks);
    let mut shelf = stores(alloc, &fault)?;
    let ended = run(alloc, script, &NONE, &mut shelf, &[])?;
    let looked = run(alloc, &look, &NONE, &mut shelf, ended.kept())?;
    let found = wrong_spills(alloc, script, k, read, &ended);
    told(rt, script, &fault, found, &ended, counts)?;
    let found = wrong_zeros(alloc, &look, damage_due(k, read, LOOKS), &looked);
    told(rt, &look, &fault, found, &looked, counts)
}

/// So many answers say that the list is damaged, where zeros are read.
fn damage_due(k: u8, read: Option<u8>, answers: usize) -> Option<Damage> {
    let Some(server) = read else {
        return None;
    };
    let answers = if k == EACH || k == server { answers } else { 0 };
    Some(Damage { server, answers })
}

/// What is wrong with a run that spills a list, if it does.
fn wrong_spills(
    alloc: Global,
    script: &Script,
    k: u8,
    read: Option<u8>,
    ended: &Ended,
) -> Option<Wrong> {
    let lines = [script.lines, &[], &[]];
    if read.is_some() && !is_lawful(alloc, lines, [ended.output(), &[], &[]]) {
        return Some(Wrong::Unlawful);
    }
    wrong_zeros(alloc, script, damage_due(k, read, SPILLS), ended)
}

/// What is wrong with a run over stores of which nothing is known, but which list is damaged.
fn wrong_zeros(
    alloc: Global,
    script: &Script,
    damage: Option<Damage>,
    ended: &Ended,
) -> Option<Wrong> {
    if !is_named(ended.status) {
        return Some(Wrong::Status);
    }
    if !are_answers(alloc, script, ended.output()) {
        return Some(Wrong::Text);
    }
    if let Some(damage) = damage {
        if !is_damaged(text_of(ended.output()), &damage) {
            return Some(Wrong::Damage);
        }
    }
    None
}

/// Whether so many answers, and no other ones, say that a list is damaged.
fn is_damaged(output: &str, damage: &Damage) -> bool {
    let (mut answers, mut others) = (0usize, 0usize);
    for line in output.split('\n') {
        if number_behind(line, "damaged ") == Some(damage.server) {
            answers = answers.saturating_add(1);
        } else if line.starts_with("damaged ") {
            others = others.saturating_add(1);
        }
    }
    answers == damage.answers && others == 0
}

/// Whether a line is an answer.
fn is_answer(alloc: Global, line: &[u8]) -> bool {
    parse_answer(alloc, line).is_ok()
}

/// Whether each line of an output behind the settings is an answer, and there is one for each line of the script.
pub fn are_answers(alloc: Global, script: &Script, output: &[u8]) -> bool {
    if feeds(output) != lines_in(script.lines).saturating_add(1) || !output.ends_with(b"\n") {
        return false;
    }
    let answers = text_of(behind_lines(output, 1));
    let mut all = true;
    for answer in answers.split('\n') {
        all = all && (answer.is_empty() || is_answer(alloc, answer.as_bytes()));
    }
    all
}
