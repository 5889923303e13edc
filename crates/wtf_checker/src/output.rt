//! The output of a run, read whole, and cut into lines.

ghost use Rattle.std.specs.Prelude.{◌≡◌, ◌↔◌, ◌+◌, ◌++◌, ◌<◌, ◌≤◌, IsTrue, OnOk, ℕ, List, [], Some, IfOk, length, take, slice_index, MatchOption};
ghost use Rattle.wtf_checker.specs.Lawful.{BeginsWith};
ghost use Rattle.wtf_checker.specs.Sources.{HasTaken};
ghost use Rattle.wtf_script.specs.ScriptLines.{line_feed, HasNoFeed};
ghost use Rattle.wtf_script.specs.declared.limits.TheConstants.{SCRIPT_BYTES};
ghost use Rattle.wtf_checker.specs.declared.output.TheConstants.{CHUNK_BYTES};

use crate::stop::Stop;
use std::alloc::Global;
use wtf_base::OutOfMemory;
use wtf_dev::Source;
use wtf_script::SCRIPT_BYTES;

/// The most bytes that are asked of a source at once.
const CHUNK_BYTES: usize = 65_536;

/// Whether so many bytes more are more than an output may have.
fn is_too_much(have: usize, more: usize) -> bool
    requires have { have ≤ SCRIPT_BYTES }
    requires more { more ≤ CHUNK_BYTES }
    ensures { IsTrue result ↔ (SCRIPT_BYTES < have + more) }
{
    (have + more) as u64 > SCRIPT_BYTES
}

/// Appends bytes.
fn push_all(all: &mut Vec<u8>, part: &[u8]) -> Result<(), OutOfMemory>
    ensures { OnOk result (all.new.items ≡ all.old.items ++ part.now) }
{
    all.extend_from_slice(part)?;
    Ok(())
}

/// Reads a source to its end.
pub(crate) fn read_all<T: Source>(alloc: Global, source: &mut T) -> Result<Vec<u8>, Stop>
    ensures taken { HasTaken (T.view source.old) (T.view source.new) result }
    ensures told { IfOk result (λ bytes. (all : List ℕ) →
        (T.view source.old).rest ≡ Some all →
        (bytes.items ≡ all) × ((T.view source.new).rest ≡ Some [])) }
{
    let mut all = Vec::new(alloc);
    let mut chunk = vec![in alloc; 0; CHUNK_BYTES]?;
    loop {
        let Ok(n) = source.read(&mut chunk) else {
            return Err(Stop::Unanswered);
        };
        if n == 0 {
            return Ok(all);
        }
        if is_too_much(all.len(), n) {
            return Err(Stop::TooMuch);
        }
        let Ok(()) = push_all(&mut all, &chunk[..n]) else {
            return Err(Stop::Memory);
        };
    }
}

/// Where the first line feed is.
fn find_feed(bytes: &[u8]) -> Option<usize>
    ensures { MatchOption result (HasNoFeed bytes.now) (λ n. (n < length bytes.now) ×
        (slice_index bytes.now n ≡ line_feed) × HasNoFeed (take n bytes.now)) }
{
    bytes.iter().position(|byte| *byte == b'\n')
}

/// The first line, without its line feed, and what stands behind it; `None` where no line feed stands.
pub(crate) fn split_line(bytes: &[u8]) -> Option<(&[u8], &[u8])>
    ensures { MatchOption result (HasNoFeed bytes.now)
        (λ p. BeginsWith p.0.now p.1.now bytes.now) }
{
    let at = find_feed(bytes)?;
    let (line, behind) = bytes.split_at(at);
    Some((line, &behind[1..]))
}
