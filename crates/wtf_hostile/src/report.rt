//! What is counted of a table, and what is told of a run that is wrong.

ghost use Rattle.std.specs.Prelude.{◌≡◌, ◌+◌, ◌-◌, ◌^◌, min, if◌then◌else◌};

use crate::devices::Ended;
use crate::fault::Fault;
use crate::scripts::Script;
use crate::texts::text_of;
use std::io;

/// What is wrong with a run.
#[derive(Clone, Copy, Debug)]
pub enum Wrong {
    /// No such status is due.
    Status,
    /// What was written is no front of the settings and one answer a line, or an answer is in no form.
    Text,
    /// The answers are not those that the definitions allow.
    Unlawful,
    /// The answers say that more calls of devices failed than did.
    Blame,
    /// What is left is not opened, or its bytes are not read.
    Refused,
    /// What is left is no tree that may have been saved.
    Tree,
    /// The keeper's bytes are others than they were.
    Kept,
    /// A list is damaged and no answer says so, or it is sound and one does.
    Damage,
}

/// How many runs of a table were tried, and how many of these were wrong.
#[derive(Clone, Copy)]
pub struct Counts {
    /// The name of the table.
    name: &'static str,
    pub tried: u64,
    pub wrong: u64,
}

impl Counts {
    /// No run yet.
    pub fn new(name: &'static str) -> Counts
        ensures tried { result.tried ≡ 0 }
        ensures wrong { result.wrong ≡ 0 }
    {
        Counts {
            name,
            tried: 0,
            wrong: 0,
        }
    }

    /// Counts a run. The counts stand still at the greatest number.
    pub fn add(&mut self, wrong: bool)
        ensures tried { self.new.tried ≡ min (self.old.tried + 1) (2 ^ 64 - 1) }
        ensures wrong { self.new.wrong ≡
            (if wrong then min (self.old.wrong + 1) (2 ^ 64 - 1) else self.old.wrong) }
    {
        self.tried = self.tried.saturating_add(1);
        if wrong {
            self.wrong = self.wrong.saturating_add(1);
        }
    }
}

/// Counts a run of a script, and tells of one that is wrong: what it is, which run, and what it came to.
pub fn told(
    rt: &HostRuntime,
    script: &Script,
    fault: &Fault,
    found: Option<Wrong>,
    ended: &Ended,
    counts: &mut Counts,
) -> io::Result<()> {
    counts.add(found.is_some());
    let Some(wrong) = found else {
        return Ok(());
    };
    let (table, name, status) = (counts.name, script.name, ended.status);
    let (device, k) = (fault.device.name(), fault.device.number());
    let (at, server, with) = (fault.at, fault.server, fault.with);
    let output = text_of(ended.output());
    println!(rt;
        "WRONG {wrong:?} in {table}: '{name}', {device} {k} at {at}, {server} at {with}: status {status}, output\n{output}"
    )
}

/// Prints the line of a table.
pub fn show(rt: &HostRuntime, counts: &Counts) -> io::Result<()> {
    let (name, tried, wrong) = (counts.name, counts.tried, counts.wrong);
    println!(rt; "{name} tried {tried} wrong {wrong}")
}
