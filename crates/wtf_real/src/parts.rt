//! Parts of one file: what a call of a store or of a keeper does to it.

ghost use Rattle.std.specs.Prelude.{◌≡◌, ◌≤◌, ◌-◌, OnOk, IfOk, IfSome, replicate};
ghost use Rattle.std.specs.Io.KnownBytes.{Appends};
ghost use Rattle.wtf_real.specs.Files.{IsReadAt, IsWrittenAt, IsSoughtTo};

use std::alloc::Global;
use std::io::{self, Read, Seek, SeekFrom, Write};

/// How many zeros are written at a time.
const ZEROS: usize = 8_192;

/// Goes to a place of a file.
pub(crate) fn seek_to<F: Seek>(file: &mut F, at: u64) -> io::Result<()>
    ensures { OnOk result (IsSoughtTo F.stream_position at file.old file.new) }
{
    file.seek(SeekFrom::Start(at))?;
    Ok(())
}

/// Fills `out` from a place of a file on.
pub(crate) fn read_at<F: Read + Seek>(file: &mut F, at: u64, out: &mut [u8]) -> io::Result<()>
    ensures { OnOk result
        (IsReadAt F.stream_position F.remaining at out.new file.old file.new) }
{
    seek_to(file, at)?;
    file.read_exact(out)
}

/// Writes all of the bytes from a place of a file on.
pub(crate) fn write_at<F: Write + Seek>(file: &mut F, at: u64, bytes: &[u8]) -> io::Result<()>
    ensures { OnOk result
        (IsWrittenAt F.stream_position F.contents at bytes.now file.old file.new) }
{
    seek_to(file, at)?;
    file.write_all(bytes)
}

/// Writes zeros from a place of a file on.
pub(crate) fn zero_at<F: Write + Seek>(file: &mut F, at: u64, len: u64) -> io::Result<()>
    ensures { OnOk result
        (IsWrittenAt F.stream_position F.contents at (replicate len 0) file.old file.new) }
{
    seek_to(file, at)?;
    write_zeros(file, len)
}

/// Writes so many zeros.
fn write_zeros<W: Write>(to: &mut W, len: u64) -> io::Result<()>
    ensures { OnOk result (Appends (W.contents to.old) (W.contents to.new) (replicate len 0)) }
{
    let mut left = len;
    while left > 0 {
        left -= write_some_zeros(to, left)?;
    }
    Ok(())
}

/// Writes some zeros, at most so many, and answers how many.
fn write_some_zeros<W: Write>(to: &mut W, most: u64) -> io::Result<u64>
    ensures some { IfOk result (λ n. 1 ≤ most → 1 ≤ n) }
    ensures few { IfOk result (λ n. n ≤ most) }
    ensures written { IfOk result (λ n.
        Appends (W.contents to.old) (W.contents to.new) (replicate n 0)) }
{
    let zeros = [0u8; ZEROS];
    let n = most.min(ZEROS as u64);
    to.write_all(&zeros[..n as usize])?;
    Ok(n)
}

/// Writes all of the bytes.
pub(crate) fn write_whole<W: Write>(to: &mut W, bytes: &[u8]) -> io::Result<()>
    ensures { OnOk result (Appends (W.contents to.old) (W.contents to.new) bytes.now) }
{
    to.write_all(bytes)?;
    to.flush()
}

/// The bytes that a reader has left.
pub(crate) fn read_whole<F: Read + Drop>(alloc: Global, mut file: F) -> io::Result<Vec<u8>>
    ensures { IfOk result (λ bytes. IfSome (F.remaining file) (λ all. bytes.items ≡ all)) }
{
    let mut bytes = Vec::new(alloc);
    file.read_to_end(&mut bytes)?;
    Ok(bytes)
}
