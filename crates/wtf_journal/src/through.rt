//! Writes that are brought to where they last.

ghost use Rattle.std.specs.Prelude.{◌≡◌, ◌<◌, ◌≤◌, ◌+◌, ◌^◌, ℕ, true, Some, max, length, slice_get, OnOk, OnErr};
ghost use Rattle.wtf_dev.specs.Counts.{Rose};
ghost use Rattle.wtf_dev.specs.Disk.{DiskWrites, IsSettled, overwritten};
ghost use Rattle.wtf_journal.specs.Through.{zero_piece, WritesWithin};

use wtf_dev::{Disk, Failed};

// The most bytes that are written at once.
const PIECE: u64 = 4096;

/// Writes bytes and brings them to where they last.
pub(crate) fn write_through<D: Disk>(
    disk: &mut D,
    file: u8,
    at: u64,
    bytes: &[u8],
) -> Result<(), Failed>
    requires file { file < 8 }
    requires inside { at ≤ (D.kind.view disk.old).size file }
    ensures kept { WritesWithin D.kind file at (length bytes.now) disk.old disk.new }
    ensures length { OnOk result ((D.kind.view disk.new).size file ≡
        max ((D.kind.view disk.old).size file) (at + length bytes.now)) }
    ensures fits { OnOk result (at + length bytes.now < 2 ^ 61) }
    ensures lasts { OnOk result ((D.kind.view disk.old).tells ≡ true →
        IsSettled (overwritten ((D.kind.view disk.old).file file).seen at bytes.now)
        ((D.kind.view disk.new).file file)) }
    ensures cause { OnErr result
        (Rose (D.kind.view disk.old).faults (D.kind.view disk.new).faults) }
{
    disk.write(file, at, bytes)?;
    disk.sync(file)
}

/// Writes zeros over a range, in pieces.
pub(crate) fn write_zeros<D: Disk>(disk: &mut D, file: u8, at: u64, len: u64) -> Result<(), Failed>
    requires file { file < 8 }
    requires inside { at + len ≤ (D.kind.view disk.old).size file }
    ensures kept { WritesWithin D.kind file at len disk.old disk.new }
    ensures zeros { OnOk result ((D.kind.view disk.old).tells ≡ true → (i : ℕ) → at ≤ i →
        i < at + len →
        slice_get ((D.kind.view disk.new).file file).seen i ≡ Some 0) }
    ensures cause { OnErr result
        (Rose (D.kind.view disk.old).faults (D.kind.view disk.new).faults) }
{
    let _length = disk.length(file);
    let mut done = 0;
    while done < len {
        let n = (len - done).min(PIECE);
        write_piece(disk, file, at + done, n)?;
        done += n;
    }
    Ok(())
}

// Writes so many zeros.
fn write_piece<D: Disk>(disk: &mut D, file: u8, at: u64, n: u64) -> Result<(), Failed>
    requires file { file < 8 }
    requires inside { at ≤ (D.kind.view disk.old).size file }
    requires few { n ≤ 4096 }
    ensures written { OnOk result ((D.kind.view disk.old).tells ≡ true →
        ((D.kind.view disk.new).file file).seen ≡
        overwritten ((D.kind.view disk.old).file file).seen at (zero_piece n)) }
    ensures kept { DiskWrites D.kind file at (length (zero_piece n)) disk.old disk.new }
    ensures cause { OnErr result
        (Rose (D.kind.view disk.old).faults (D.kind.view disk.new).faults) }
{
    let zeros = [0u8; PIECE as usize];
    disk.write(file, at, &zeros[..n as usize])
}
