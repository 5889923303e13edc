//! Runs the program over devices that fail, are full or answer zeros, on scripts that are cut and on images that are damaged,
//! and judges what it answers and what it leaves by the definitions alone.
#![tactic(auto)]

mod cuts;
mod damage;
mod devices;
mod fault;
mod faults;
mod generated;
mod journals;
mod judge;
mod odd;
mod rebuilt;
mod report;
mod scripts;
mod statuses;
mod streams;
mod tally;
mod texts;
mod zeros;

use crate::faults::{Row, each_script};
use crate::report::{Counts, show};
use std::{env, io};

/// What a table tries.
#[derive(Clone, Copy)]
enum Tries {
    /// Each script, over devices of which one is odd in turn.
    Scripts(Row),
    /// Scripts that are made from a number.
    Numbers,
    /// The same, over devices of which one is odd in turn.
    Faulted,
    TwoCalls,
    CutScripts,
    SpoiledScripts,
    CutImages,
    SpoiledImages,
    Zeros,
    Lists,
}

/// The tables, by name.
const TABLES: [(&str, Tries); 15] = [
    ("one call fails: faults", Tries::Scripts(faults::ONE_CALL)),
    ("two calls fail: faults", Tries::TwoCalls),
    (
        "all calls fail from one on: faults",
        Tries::Scripts(faults::ALL_CALLS),
    ),
    ("stores are full: faults", Tries::Scripts(faults::FULL)),
    (
        "a disk fails, with a journal: faults",
        Tries::Scripts(faults::STOPS),
    ),
    ("scripts are cut: bytes", Tries::CutScripts),
    ("scripts are spoiled: bytes", Tries::SpoiledScripts),
    ("sources break off: bytes", Tries::Scripts(faults::SOURCES)),
    ("sinks break off: bytes", Tries::Scripts(faults::SINKS)),
    ("images are cut: bytes", Tries::CutImages),
    ("images are spoiled: bytes", Tries::SpoiledImages),
    ("stores answer zeros: runs", Tries::Zeros),
    ("spilled lists are zeros: runs", Tries::Lists),
    ("generated scripts: runs", Tries::Numbers),
    (
        "one call fails of generated scripts: faults",
        Tries::Faulted,
    ),
];

/// How much is tried of what has no end.
#[derive(Clone, Copy)]
struct Pace {
    /// Whether a byte is made each other value, and not a few.
    values: bool,
    /// How many generated scripts there are, and how many lines each has.
    numbers: u64,
    lines: u64,
    /// How many there are of which calls fail, and how many lines each of these has.
    faulted: u64,
    faulted_lines: u64,
}

/// What the gate tries.
const SOME: Pace = Pace {
    values: false,
    numbers: 1,
    lines: 20_000,
    faulted: 1,
    faulted_lines: 4_000,
};

/// What `make hostile` tries.
const MORE: Pace = Pace {
    values: true,
    numbers: 100,
    lines: 20_000,
    faulted: 10,
    faulted_lines: 4_000,
};

const HELP: &str =
    "wtf_hostile runs the program over devices in memory, and prints how many faults and bytes it tried and how many runs were
wrong. It makes each call of a device fail, and cuts and spoils each byte; with the word `more` it makes a byte each other
value, and runs more scripts that are made from a number, in minutes.
A line that begins with WRONG tells of a run that is not as it should be, and the program ends with status 1.
";

/// Prints the tables.
fn main(rt: HostRuntime) -> io::Result<()> {
    let Some(word) = env::args(&rt)?.nth(1) else {
        return print(&rt, &SOME);
    };
    if word.as_str() == "more" {
        return print(&rt, &MORE);
    }
    rt.print(HELP)
}

/// Tries all tables, and prints a line for each. Where a run was wrong that is an error.
fn print(rt: &HostRuntime, pace: &Pace) -> io::Result<()> {
    let mut wrong = false;
    for (name, tries) in TABLES.iter() {
        let mut counts = Counts::new(*name);
        try_table(rt, tries, pace, &mut counts)?;
        show(rt, &counts)?;
        wrong = wrong || counts.wrong > 0;
    }
    if wrong {
        return Err(io::Error::from(io::ErrorKind::InvalidData));
    }
    Ok(())
}

/// Tries a table.
fn try_table(rt: &HostRuntime, tries: &Tries, pace: &Pace, counts: &mut Counts) -> io::Result<()> {
    match tries {
        Tries::Scripts(row) => each_script(rt, row, counts),
        Tries::Numbers => {
            generated::each_number(rt, pace.numbers, pace.lines, &faults::SOUND, counts)
        }
        Tries::Faulted => {
            let (numbers, lines) = (pace.faulted, pace.faulted_lines);
            generated::each_number(rt, numbers, lines, &faults::ONE_KEPT, counts)
        }
        Tries::TwoCalls => faults::two_calls(rt, counts),
        Tries::CutScripts => cuts::cut_scripts(rt, counts),
        Tries::SpoiledScripts => cuts::spoiled_scripts(rt, pace.values, counts),
        Tries::CutImages => damage::cut_images(rt, counts),
        Tries::SpoiledImages => damage::spoiled_images(rt, pace.values, counts),
        Tries::Zeros => zeros::zeros(rt, counts),
        Tries::Lists => zeros::lists(rt, counts),
    }
}
