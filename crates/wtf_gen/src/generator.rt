//! The lines of a script, one after another.

ghost use Rattle.std.specs.Prelude.{◌≡◌, IfOk, OnErr};
ghost use Rattle.wtf_gen.specs.Lines.{Draws};

use crate::line::line_of;
use std::alloc::Global;
use std::marker::Model;
use wtf_base::{Bytes, OutOfMemory};

/// Gives the lines that a number makes.
#[derive(Drop)]
pub struct Gen {
    state: u64,
    left: u64,
}

impl Model for Gen {
    ghost use Rattle.wtf_gen.specs.Lines.{Drawing};

    ghost Value = { Drawing };

    ghost view = { λ g. record { state = g.state; left = g.left } };
}

impl Gen {
    /// As many lines as are asked for, from a number on. It takes no memory.
    pub fn new(number: u64, lines: u64) -> Gen
        ensures { result ≡ record { state = number; left = lines } }
    {
        Gen {
            state: number,
            left: lines,
        }
    }

    /// The next line, without a line feed, or `None` where no line is left, and then it stays as it is.
    /// After want of memory it is as it was, and gives that line at the next call.
    pub fn next(&mut self, alloc: Global) -> Result<Option<Bytes>, OutOfMemory>
        ensures draws { IfOk result (λ line. Draws line self.old self.new) }
        ensures same { OnErr result (self.new ≡ self.old) }
    {
        if self.left == 0 {
            return Ok(None);
        }
        let pen = line_of(self.state);
        let line = Vec::from_slice(alloc, pen.text())?;
        self.state = pen.state();
        self.left -= 1;
        Ok(Some(Bytes::of(line)))
    }
}
