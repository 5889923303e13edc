//! A machine that is asked one line after another.

ghost use Rattle.std.specs.Prelude.{◌≤◌};
ghost use Rattle.wtf_model.specs.Form.{IsFormEvent};
ghost use Rattle.wtf_machine.specs.Machines.{machine_in};

use std::alloc::Global;
use std::test::Fail;
use wtf_base::Settings;
use wtf_machine::Machine;
use wtf_model::{Answer, Event};
use wtf_print::parse_answer;
use wtf_rows::row::{Row, Start};
use wtf_script::parse_line;

/// A machine counts installs, stamps and scans to this at most.
const MOST: u64 = 4_294_967_296;

/// A machine, with a bound of all that it counts, which is one more with each line.
#[derive(Drop)]
pub(crate) struct Asked {
    alloc: Global,
    machine: Machine,
    most: u64,
    ghost number: { (machine_in machine).number ≤ most },
    ghost stamps: { (machine_in machine).next_stamp ≤ most },
    ghost scans: { (machine_in machine).scans ≤ most },
}

impl Asked {
    /// The machine before the first line.
    pub(crate) fn new(alloc: Global, start: Start) -> Result<Asked, Fail> {
        let settings = Settings::new(start.servers, start.replicas, start.region).ok_or(
            "settings",
        )?;
        let machine = Machine::new(alloc, settings, start.number)?;
        Ok(Asked {
            alloc,
            machine,
            most: start.number,
        })
    }

    /// Whether an event may be answered so.
    fn step(&mut self, event: &Event, answer: &Answer) -> Result<bool, Fail>
        requires { IsFormEvent event.now }
    {
        if self.most >= MOST {
            return Err(Fail::from("too many lines"));
        }
        let lawful = self.machine.step(event, answer)?;
        self.most += 1;
        Ok(lawful)
    }

    /// Whether a line may be answered so.
    pub(crate) fn may(&mut self, asked: &str, answer: &str) -> Result<bool, Fail> {
        let event = parse_line(self.alloc, asked.as_bytes())?;
        let answer = parse_answer(self.alloc, answer.as_bytes())?;
        self.step(&event, &answer)
    }

    /// Whether a line of a row may be answered so exactly where the row says so.
    fn is_as_said(&mut self, line: &str) -> Result<bool, Fail> {
        if let Some((asked, answer)) = line.split_once(" => ") {
            return self.may(asked, answer);
        }
        let Some((asked, answer)) = line.split_once(" =/> ") else {
            return Err(Fail::from("a line without an answer"));
        };
        let lawful = self.may(asked, answer)?;
        Ok(!lawful)
    }

    /// The number, from 1, of the first of the lines that is not as it says; 0 where there is none.
    pub(crate) fn first_wrong(&mut self, lines: &str) -> Result<usize, Fail> {
        for (i, line) in lines.lines().enumerate() {
            if !self.is_as_said(line)? {
                return Ok(i.saturating_add(1));
            }
        }
        Ok(0)
    }

    /// The same of the transaction that makes `/a` with this text.
    fn file(&mut self, text: &str) -> Result<usize, Fail> {
        let write = format!(in self.alloc; "c0 write f0 t:{text} => ok\nc0 try => committed 1\n")?;
        let made = self.first_wrong(
            "c0 begin => begun 0\nc0 create /a => ok\nc0 open f0 /a => ok\n",
        )?;
        let written = self.first_wrong(write.as_str())?;
        Ok(made.max(written))
    }
}

/// The number of the first line of a row that is not as the row says; 0 where there is none.
pub(crate) fn first_wrong(alloc: Global, row: &Row) -> Result<usize, Fail> {
    let mut asked = Asked::new(alloc, row.start)?;
    if !row.text.is_empty() && asked.file(row.text)? != 0 {
        return Err(Fail::from("the file"));
    }
    asked.first_wrong(row.lines)
}
