//! A source in memory, whose calls fail where it is told to.

ghost use Rattle.std.specs.Prelude.{◌≡◌, ℕ, ◌<◌, ◌≤◌, List, Some, length, take, drop, min, IfOk, OnErr};
ghost use Rattle.std.specs.Result.{is_err};
ghost use Rattle.wtf_dev.specs.Counts.{Rose};
ghost use Rattle.wtf_dev.specs.Calls.{uncalled, IsCall};
ghost use Rattle.wtf_dev.specs.Streams.{given_after, Gives};
ghost use Rattle.wtf_dev.specs.Memory.{source_view};

use crate::turns::Turns;
use crate::{Failed, Source};
use std::alloc::Global;
use std::marker::Model;

/// Bytes in memory, which are given in order.
#[derive(Drop)]
pub struct MemSource {
    bytes: Vec<u8>,
    at: usize,
    turns: Turns,
    given: u64,
}

impl Model for MemSource {
    ghost use Rattle.std.specs.Prelude.{◌≤◌, length, drop};
    ghost use Rattle.wtf_dev.specs.Memory.{SourceState};

    ghost Value = { SourceState };

    ghost view = { λ m. record { rest = drop m.at m.bytes.items; calls = m.turns; given = m.given } };

    ghost invariant = { λ m. m.at ≤ length m.bytes.items };
}

impl MemSource {
    /// A source of these bytes, whose calls with the numbers `fails` fail, counted from 0.
    pub fn new(_alloc: Global, bytes: Vec<u8>, fails: Vec<u64>) -> MemSource
        ensures value { result ≡ record {
          rest = bytes.items;
          calls = uncalled fails.items;
          given = 0;
        } }
        ensures rest { (source_view result).rest ≡ Some bytes.items }
    {
        MemSource {
            bytes,
            at: 0,
            turns: Turns::new(fails),
            given: 0,
        }
    }
}

impl Source for MemSource {
    ghost view = { source_view };

    fn read(&mut self, out: &mut [u8]) -> Result<usize, Failed>
        ensures count { IfOk result (λ n. n ≤ length out.old) }
        ensures told { (all : List ℕ) → (source_view self.old).rest ≡ Some all →
            Gives result (length out.old) out.new all (source_view self.new).rest }
        ensures given { (source_view self.new).given ≡
            given_after result (source_view self.old).given }
        ensures faults { (source_view self.old).faults ≤ (source_view self.new).faults }
        ensures cause { OnErr result
            (Rose (source_view self.old).faults (source_view self.new).faults) }

        // It gives as many of the bytes that are left as there is room for, and then has the others left.
        ensures whole { IfOk result (λ n. n ≡ min (length self.old.rest) (length out.old)) }
        ensures gives { IfOk result (λ n. take n out.new ≡ take n self.old.rest) }
        ensures leaves { IfOk result (λ n. self.new.rest ≡ drop n self.old.rest) }
        ensures same { OnErr result (self.new.rest ≡ self.old.rest) }
        ensures call { IsCall (is_err result) self.old.calls self.new.calls }
    {
        self.turns.next()?;
        let left = &self.bytes[self.at..];
        let n = left.len().min(out.len());
        out[..n].copy_from_slice(&left[..n]);
        self.at += n;
        self.given = self.given.saturating_add(n as u64);
        Ok(n)
    }
}
