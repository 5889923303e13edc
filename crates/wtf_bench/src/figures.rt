//! The sizes of the rows, which keys are taken, and how costs are shown.

ghost use Rattle.std.specs.Prelude.{◌≡◌, ◌*◌, ◌/◌, ◌^◌, ◌<◌, ◌≤◌};

use std::alloc::AllocError;
use std::io;
use std::time::Instant;
use wtf_base::{OutOfMemory, Settings};

/// How many rounds a row has.
pub const ROUNDS: u64 = 20;

/// The size of a region, in bytes: the longest slice fits.
const REGION: u32 = 16_384;

/// How many keys the rows of a size have: 100, 1,000 or 10,000.
pub fn keys_of(size: u64) -> u64 {
    match size {
        0 => 100,
        1 => 1_000,
        _ => 10_000,
    }
}

/// How many numbers are pinned: 1 or 100.
pub fn pins_of(column: u64) -> u64 {
    if column == 0 { 1 } else { 100 }
}

/// The key of step `i`. The prime divides no size, so each key comes before one comes again.
pub fn key_at(i: u64, keys: u64) -> u64 {
    i.wrapping_mul(7_919) % keys.max(1)
}

/// How many hundredths of `base` a cost is, rounded down; a base of 0 is taken for 1.
pub fn ratio(cost: u64, base: u64) -> u64
    requires { cost < 2 ^ 56 }
    ensures zero { base ≡ 0 → result ≡ cost * 100 }
    ensures ratio { 0 < base → result ≡ (cost * 100) / base }
{
    cost * 100 / base.max(1)
}

/// The settings that the rows of a size have: 1, 4 or 16 servers, with 1, 2 or 3 copies of each slice.
pub fn settings_at(size: u64) -> Settings {
    let settings = match size {
        0 => Settings::new(1, 1, REGION),
        1 => Settings::new(4, 2, REGION),
        _ => Settings::new(16, 3, REGION),
    };
    settings.unwrap()
}

/// How many bytes a slice has: 64 or 16,384.
pub fn len_at(column: u64) -> usize
    ensures some { 0 < result }
    ensures few { result ≤ 16_384 }
{
    if column == 0 { 64 } else { 16_384 }
}

/// A clock that tells the nanoseconds since it was last asked.
#[derive(Clone, Copy)]
pub struct Laps {
    last: Instant,
}

impl Laps {
    /// A clock that starts now.
    pub fn start(rt: &HostRuntime) -> io::Result<Laps> {
        let last = Instant::now(rt)?;
        Ok(Laps { last })
    }

    /// The nanoseconds since the start, or since the last lap.
    pub fn lap(&mut self, rt: &HostRuntime) -> io::Result<u64> {
        let now = Instant::now(rt)?;
        let took = u64::try_from(now.duration_since(self.last).as_nanos());
        self.last = now;
        Ok(took.unwrap_or(u64::MAX))
    }
}

/// The cheaper of two rounds, column by column.
pub fn least(a: [u64; 4], b: [u64; 4]) -> [u64; 4] {
    [
        a[0].min(b[0]),
        a[1].min(b[1]),
        a[2].min(b[2]),
        a[3].min(b[3]),
    ]
}

/// Memory could not be had.
pub fn memory(_why: OutOfMemory) -> io::Error {
    io::Error::from(AllocError)
}

/// Prints the nanoseconds of one of the calls, and the ratio to the first row.
pub fn show(rt: &impl Print, nanos: u64, base: u64, calls: u64) -> io::Result<()> {
    let hundredths = ratio(nanos.min(1 << 55), base);
    let (each, whole, part) = (nanos / calls.max(1), hundredths / 100, hundredths % 100);
    print!(rt; "{each:>9}{whole:>4}.{part:02}")
}
