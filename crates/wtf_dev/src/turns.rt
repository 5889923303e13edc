//! Which calls of a device in memory fail, and how often it has failed.

ghost use Rattle.std.specs.Prelude.{◌≡◌, ◌↔◌, true};
ghost use Rattle.std.specs.Result.{is_err};
ghost use Rattle.wtf_dev.specs.Counts.{risen};
ghost use Rattle.wtf_dev.specs.Calls.{uncalled, IsCall};
ghost use Rattle.wtf_dev.specs.DiskTape.{IsCountedSo, IsDueToFail};

use crate::Failed;
use std::marker::Model;

/// The calls of a device so far, and its counts. A count stands still at the greatest u64.
#[derive(Drop)]
pub(crate) struct Turns {
    /// The numbers of the calls that fail.
    fails: Vec<u64>,
    /// The number of the next call, from 0.
    calls: u64,
    faults: u64,
    /// How often a growth found no memory.
    short: u64,
}

impl Model for Turns {
    ghost use Rattle.wtf_dev.specs.Calls.{CallCounts};

    ghost Value = { CallCounts };

    ghost view = { λ t. record { fails = t.fails.items; calls = t.calls; faults = t.faults; short = t.short } };
}

impl Turns {
    pub(crate) fn new(fails: Vec<u64>) -> Turns
        ensures { result ≡ uncalled fails.items }
    {
        Turns {
            fails,
            calls: 0,
            faults: 0,
            short: 0,
        }
    }

    /// Counts a call. It fails where its number says so, and that is counted too.
    pub(crate) fn next(&mut self) -> Result<(), Failed>
        ensures { IsCall (is_err result) self.old self.new }
    {
        let due = self.fails.contains(&self.calls);
        self.counted(due, true)
    }

    /// Whether the next call is due to fail: its number says so, or is not below the fuse.
    pub(crate) fn is_due(&self, fuse: u64) -> bool
        ensures { (result ≡ true) ↔ IsDueToFail fuse self.now }
    {
        self.fails.contains(&self.calls) || fuse <= self.calls
    }

    /// Counts a call. It fails where it was due to, or found no room for what it notes.
    pub(crate) fn counted(&mut self, due: bool, room: bool) -> Result<(), Failed>
        ensures { IsCountedSo due room (is_err result) self.old self.new }
    {
        self.calls = self.calls.saturating_add(1);
        if !room {
            return Err(self.lack());
        }
        if due {
            self.faults = self.faults.saturating_add(1);
            return Err(Failed);
        }
        Ok(())
    }

    /// Counts a growth that found no memory, which is a fault too.
    pub(crate) fn lack(&mut self) -> Failed
        ensures { self.new ≡ record self.old {
          faults = risen self.old.faults;
          short = risen
              self.old.short;
        } }
    {
        self.short = self.short.saturating_add(1);
        self.faults = self.faults.saturating_add(1);
        Failed
    }

    /// How often a growth found no memory.
    pub(crate) fn short(&self) -> u64
        ensures { result ≡ self.now.short }
    {
        self.short
    }
}
