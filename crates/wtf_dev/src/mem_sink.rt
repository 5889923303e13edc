//! A sink in memory, whose calls fail where it is told to.

ghost use Rattle.std.specs.Prelude.{◌≡◌, ℕ, ◌<◌, ◌≤◌, ◌++◌, List, [], Some, length, IfOk, OnOk, OnErr};
ghost use Rattle.std.specs.Result.{is_err};
ghost use Rattle.wtf_dev.specs.Counts.{Rose};
ghost use Rattle.wtf_dev.specs.Calls.{uncalled, IsGrowth};
ghost use Rattle.wtf_dev.specs.Streams.{Takes};
ghost use Rattle.wtf_dev.specs.Memory.{sink_view};

use crate::turns::Turns;
use crate::{Failed, Sink};
use std::alloc::Global;
use std::marker::Model;

/// A sink in memory, which takes every byte that it is given.
#[derive(Drop)]
pub struct MemSink {
    bytes: Vec<u8>,
    turns: Turns,
}

impl Model for MemSink {
    ghost use Rattle.wtf_dev.specs.Memory.{SinkState};

    ghost Value = { SinkState };

    ghost view = { λ m. record { taken = m.bytes.items; calls = m.turns } };
}

impl MemSink {
    /// An empty sink, whose calls with the numbers `fails` fail, counted from 0.
    pub fn new(alloc: Global, fails: Vec<u64>) -> MemSink
        ensures value { result ≡ record { taken = []; calls = uncalled fails.items } }
        ensures taken { (sink_view result).taken ≡ Some [] }
    {
        MemSink {
            bytes: Vec::new(alloc),
            turns: Turns::new(fails),
        }
    }

    /// All bytes taken so far, in order.
    pub fn taken(&self) -> &[u8]
        ensures { result.now ≡ self.now.taken }
    {
        &self.bytes
    }

    /// How often a growth found no memory.
    pub fn short(&self) -> u64
        ensures { result ≡ self.now.calls.short }
    {
        self.turns.short()
    }
}

impl Sink for MemSink {
    ghost view = { sink_view };

    fn write(&mut self, bytes: &[u8]) -> Result<usize, Failed>
        ensures count { IfOk result (λ n. n ≤ length bytes.now) }
        ensures some { IfOk result (λ n. 0 < length bytes.now → 0 < n) }
        ensures told { (old : List ℕ) → (sink_view self.old).taken ≡ Some old →
            Takes result bytes.now old (sink_view self.new).taken }
        ensures faults { (sink_view self.old).faults ≤ (sink_view self.new).faults }
        ensures steady { OnOk result
            ((sink_view self.new).faults ≡ (sink_view self.old).faults) }
        ensures cause { OnErr result
            (Rose (sink_view self.old).faults (sink_view self.new).faults) }

        // It takes all bytes, or none.
        ensures whole { OnOk result (self.new.taken ≡ self.old.taken ++ bytes.now) }
        ensures same { OnErr result (self.new.taken ≡ self.old.taken) }
        ensures call { IsGrowth (is_err result) self.old.calls self.new.calls }
    {
        self.turns.next()?;
        match self.bytes.extend_from_slice(bytes) {
            Ok(()) => Ok(bytes.len()),
            Err(_) => Err(self.turns.lack()),
        }
    }
}
