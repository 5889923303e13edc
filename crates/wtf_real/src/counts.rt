//! The count of errors.

ghost use Rattle.std.specs.Prelude.{◌≡◌};
ghost use Rattle.wtf_dev.specs.Counts.{risen};

use std::marker::Model;
use wtf_dev::Failed;

/// How many errors there were. The count stands still at the greatest u64.
#[derive(Drop)]
pub(crate) struct Faults {
    count: u64,
}

impl Model for Faults {
    ghost use Rattle.std.specs.Prelude.{ℕ};

    ghost Value = { ℕ };

    ghost view = { λ f. f.count };
}

impl Faults {
    pub(crate) fn new() -> Faults
        ensures { result ≡ 0 }
    {
        Faults { count: 0 }
    }

    /// Counts one error, and gives what a call answers then.
    pub(crate) fn raise(&mut self) -> Failed
        ensures { self.new ≡ risen self.old }
    {
        self.count = self.count.saturating_add(1);
        Failed
    }
}
