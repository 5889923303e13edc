//! Where bytes come from, and where they go.

ghost use Rattle.std.specs.Prelude.{◌≡◌, ℕ, ◌<◌, ◌≤◌, List, Some, length, IfOk, OnOk, OnErr};
ghost use Rattle.wtf_dev.specs.Counts.{Rose};
ghost use Rattle.wtf_dev.specs.Streams.{SourceView, SinkView, given_after, Gives, Takes};

use crate::Failed;

/// Where bytes come from, in pieces of any size.
pub trait Source {
    /// The counts, and the bytes that are left, where it tells them.
    ghost view: { Self → SourceView };

    /// Puts the next bytes at the front of `out`, and answers how many. No bytes for an `out` that has room
    /// mean the end. A read that answers `Failed` takes no byte; what `out` holds then is not known.
    fn read(&mut self, out: &mut [u8]) -> Result<usize, Failed>
        ensures count { IfOk result (λ n. n ≤ length out.old) }
        ensures told { (all : List ℕ) → (view self.old).rest ≡ Some all →
            Gives result (length out.old) out.new all (view self.new).rest }
        ensures given { (view self.new).given ≡ given_after result (view self.old).given }
        ensures faults { (view self.old).faults ≤ (view self.new).faults }
        ensures cause { OnErr result (Rose (view self.old).faults (view self.new).faults) };
}

/// Where bytes go, in pieces of any size.
pub trait Sink {
    /// The count of faults, and the bytes taken so far, where it tells them.
    ghost view: { Self → SinkView };

    /// Takes the first of these bytes, at least one where there are any, and answers how many. A write that
    /// answers `Failed` takes none; a device that would take none of some bytes answers it too. A sink counts
    /// its failed writes and nothing else. A write of no byte brings out what the sink holds back, where it
    /// holds any: one over standard output does.
    fn write(&mut self, bytes: &[u8]) -> Result<usize, Failed>
        ensures count { IfOk result (λ n. n ≤ length bytes.now) }
        ensures some { IfOk result (λ n. 0 < length bytes.now → 0 < n) }
        ensures told { (old : List ℕ) → (view self.old).taken ≡ Some old →
            Takes result bytes.now old (view self.new).taken }
        ensures faults { (view self.old).faults ≤ (view self.new).faults }
        ensures steady { OnOk result ((view self.new).faults ≡ (view self.old).faults) }
        ensures cause { OnErr result (Rose (view self.old).faults (view self.new).faults) };
}
