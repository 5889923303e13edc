//! A script from a number, as a source of bytes.

ghost use Rattle.std.specs.Prelude.{◌≡◌, ℕ, ◌<◌, ◌≤◌, List, [], Some, length, IfOk, OnErr, IsOk};
ghost use Rattle.wtf_dev.specs.Counts.{Rose};
ghost use Rattle.wtf_dev.specs.Streams.{given_after, Gives};
ghost use Rattle.wtf_gen.specs.Lines.{generated_script};
ghost use Rattle.wtf_gen.specs.Scripts.{script_view, script_rest};

use crate::line::line_of;
use crate::pen::ROOM;
use arrayvec::ArrayVec;
use std::marker::Model;
use wtf_dev::{Failed, Source};

/// A source of the script that a number makes. It never fails, and takes no memory.
#[derive(Drop)]
pub struct GeneratedScript {
    line: ArrayVec<u8, ROOM>,
    at: usize,
    state: u64,
    left: u64,
    given: u64,
}

impl Model for GeneratedScript {
    ghost use Rattle.std.specs.Prelude.{◌≤◌, length, drop};
    ghost use Rattle.wtf_gen.specs.Scripts.{ScriptState};

    ghost Value = { ScriptState };

    ghost view = { λ s. record {
      begun = drop s.at s.line.items;
      lines = record { state = s.state; left = s.left };
      given = s.given;
    } };

    ghost invariant = { λ s. s.at ≤ length s.line.items };
}

impl GeneratedScript {
    /// As many lines as are asked for, from a number on, each with its line feed.
    pub fn new(number: u64, lines: u64) -> GeneratedScript
        ensures { script_view result ≡ record {
          faults = 0;
          given = 0;
          rest = Some (generated_script number lines);
        } }
    {
        GeneratedScript {
            line: ArrayVec::new(),
            at: 0,
            state: number,
            left: lines,
            given: 0,
        }
    }

    /// Makes the next line, where the last one was given whole and a line is left.
    fn make_line(&mut self)
        ensures rest { script_rest self.new ≡ script_rest self.old }
        ensures given { self.new.given ≡ self.old.given }
        ensures some { self.new.begun ≡ [] → script_rest self.new ≡ [] }
    {
        if self.at < self.line.len() {
            return;
        }
        if self.left == 0 {
            return;
        }
        let pen = line_of(self.state);
        self.state = pen.state();
        self.left -= 1;
        self.line = pen.into_fed();
        self.at = 0;
    }
}

impl Source for GeneratedScript {
    ghost view = { script_view };

    /// Gives as much of one line as there is room for.
    fn read(&mut self, out: &mut [u8]) -> Result<usize, Failed>
        ensures count { IfOk result (λ n. n ≤ length out.old) }
        ensures told { (all : List ℕ) → (script_view self.old).rest ≡ Some all →
            Gives result (length out.old) out.new all (script_view self.new).rest }
        ensures given { (script_view self.new).given ≡
            given_after result (script_view self.old).given }
        ensures faults { (script_view self.old).faults ≤ (script_view self.new).faults }
        ensures cause { OnErr result
            (Rose (script_view self.old).faults (script_view self.new).faults) }

        // It never fails.
        ensures whole { IsOk result }
    {
        self.make_line();
        let left = &self.line.as_slice()[self.at..];
        let n = left.len().min(out.len());
        out[..n].copy_from_slice(&left[..n]);
        self.at += n;
        self.given = self.given.saturating_add(n as u64);
        Ok(n)
    }
}
