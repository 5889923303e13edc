//! Scripts with the outputs that are wanted of them.

use std::alloc::Global;
use std::test::Fail;

/// A script with the output that is wanted of it.
#[derive(Drop)]
pub struct Wanted {
    pub script: Vec<u8>,
    pub output: Vec<u8>,
}

impl Wanted {
    /// The empty script, and the line of the settings.
    pub fn new(alloc: Global, settings: &str) -> Result<Wanted, Fail> {
        let mut output = Vec::new(alloc);
        output.extend_from_slice(settings.as_bytes())?;
        Ok(Wanted {
            script: Vec::new(alloc),
            output,
        })
    }

    /// Adds a line and its answer.
    pub fn add_line(&mut self, asked: &str, answer: &str) -> Result<(), Fail> {
        self.script.extend_from_slice(asked.as_bytes())?;
        self.script.push(b'\n')?;
        self.output.extend_from_slice(answer.as_bytes())?;
        self.output.push(b'\n')?;
        Ok(())
    }

    /// Adds a line as it stands in a row. One that the machine refuses is not asked; one without an answer is a fault of the row.
    fn add_as_said(&mut self, line: &str) -> Result<(), Fail> {
        if line.is_empty() || line.contains(" =/> ") {
            return Ok(());
        }
        let (asked, answer) = line.split_once(" => ").ok_or("a line without an answer")?;
        self.add_line(asked, answer)
    }

    /// Adds lines as they stand in rows.
    pub fn add(&mut self, lines: &str) -> Result<(), Fail> {
        for line in lines.split('\n') {
            self.add_as_said(line)?;
        }
        Ok(())
    }
}
