//! The range of bytes that a call finds at a handle.

ghost use Rattle.std.specs.Prelude.{◌≡◌, ◌<◌};
ghost use Rattle.wtf_steps.specs.Recorded.{found};

/// How many of `n` bytes a file of `len` bytes has from an offset on, where none is longer than
/// `cap`.
pub fn found_len(off: u64, n: u64, len: u64, cap: u64) -> u64
    ensures { result ≡ found cap len off n }
{
    n.min(len.min(cap).saturating_sub(off))
}

/// Where a range of `n` bytes at an offset begins; one of no byte at 0, so that it passes no file's
/// end.
pub fn range_start(off: u64, n: u64) -> u64
    ensures some { 0 < n → result ≡ off }
    ensures none { n ≡ 0 → result ≡ 0 }
{
    if n == 0 {
        return 0;
    }
    off
}
