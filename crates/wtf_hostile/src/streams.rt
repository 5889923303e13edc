//! A source and a sink of which calls fail, or which break off at a byte.

ghost use Rattle.std.specs.Prelude.{None};

use crate::fault::Fault;
use std::alloc::Global;
use wtf_dev::{Failed, Sink, Source};

/// A source of three texts, one behind another, which lends them.
#[derive(Clone, Copy)]
pub struct Drip<'a> {
    texts: [&'a [u8]; 3],
    fault: Fault,
    calls: u64,
    given: u64,
    faults: u64,
}

impl<'a> Drip<'a> {
    /// A source of these texts, of which calls fail where the fault says so.
    pub fn new(texts: [&'a [u8]; 3], fault: Fault) -> Drip<'a> {
        Drip {
            texts,
            fault,
            calls: 0,
            given: 0,
            faults: 0,
        }
    }

    /// How often it failed.
    pub fn faults(&self) -> u64 {
        self.faults
    }
}

/// Three texts, one behind another.
pub fn texts<'a>(first: &'a [u8], second: &'a [u8], third: &'a [u8]) -> [&'a [u8]; 3] {
    [first, second, third]
}

/// The same texts, of which the first has bytes where one of them has.
fn from_bytes<'a>(texts: [&'a [u8]; 3]) -> [&'a [u8]; 3] {
    let [first, second, third] = texts;
    if !first.is_empty() {
        return texts;
    }
    if !second.is_empty() {
        return [second, third, first];
    }
    [third, first, second]
}

impl<'a> Source for Drip<'a> {
    ghost view = { λ d. record { faults = d.faults; given = d.given; rest = None } };

    fn read(&mut self, out: &mut [u8]) -> Result<usize, Failed> {
        let [first, second, third] = from_bytes(self.texts);
        let n = self.fault.most(out.len().min(first.len()));
        let due = self
            .fault
            .is_due(self.calls, self.given.saturating_add(n as u64));
        self.calls = self.calls.saturating_add(1);
        if due {
            self.faults = self.faults.saturating_add(1);
            return Err(Failed);
        }
        out[..n].copy_from_slice(&first[..n]);
        self.texts = [&first[n..], second, third];
        self.given = self.given.saturating_add(n as u64);
        Ok(n)
    }
}

/// A sink that keeps what it is given.
#[derive(Drop)]
pub struct Sip {
    bytes: Vec<u8>,
    fault: Fault,
    calls: u64,
    faults: u64,
}

impl Sip {
    /// A sink of which calls fail where the fault says so.
    pub fn new(alloc: Global, fault: Fault) -> Sip {
        Sip {
            bytes: Vec::new(alloc),
            fault,
            calls: 0,
            faults: 0,
        }
    }

    /// All bytes taken so far.
    pub fn taken(&self) -> &[u8] {
        &self.bytes
    }

    /// How often it failed.
    pub fn faults(&self) -> u64 {
        self.faults
    }
}

impl Sink for Sip {
    ghost view = { λ s. record { faults = s.faults; taken = None } };

    fn write(&mut self, bytes: &[u8]) -> Result<usize, Failed> {
        let n = self.fault.most(bytes.len());
        let sum = self.bytes.len().saturating_add(n);
        let due = self.fault.is_due(self.calls, sum as u64);
        self.calls = self.calls.saturating_add(1);
        if due || self.bytes.extend_from_slice(&bytes[..n]).is_err() {
            self.faults = self.faults.saturating_add(1);
            return Err(Failed);
        }
        Ok(n)
    }
}
