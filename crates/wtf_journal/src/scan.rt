//! Reading a journal.

ghost use Rattle.std.specs.Prelude.{◌≡◌, ◌<◌, ◌^◌, ◌++◌, ℕ, List, Some, None, if◌then◌else◌, length, IfOk, OnOk, IsErrOf, MatchOption};
ghost use Rattle.wtf_journal.specs.Records.{framed};
ghost use Rattle.wtf_journal.specs.Scan.{BodyMakes, EndsInside, IsBadAt, ReadsTo};

use crate::JournalFault;
use wtf_base::OutOfMemory;

/// What the bodies of a journal's records mean, one after the other.
pub trait Meaning {
    /// What a body makes of what the records before it gave; None where it is not in the format.
    ghost makes: { BodyMakes Self };

    /// Takes the next body; false where it is not in the format. After that or an error nothing is known of what is held.
    fn take(&mut self, body: &[u8]) -> Result<bool, OutOfMemory>
        ensures { IfOk result (λ fits. makes self.old body.now ≡ (if fits then Some self.new else None)) };
}

// The body at the front, and what is behind it, where there is something.
fn record_at(bytes: &[u8]) -> Option<(&[u8], &[u8])>
    ensures { MatchOption result (EndsInside bytes.now)
        (λ x. (bytes.now ≡ framed x.0.now ++ x.1.now) × ((0 < length x.1.now) ×
        (length x.0.now < 2 ^ 64))) }
{
    if bytes.len() < 8 {
        return None;
    }
    let (front, rest) = bytes.split_at(8);
    let len = u64::from_be_bytes([
        front[0], front[1], front[2], front[3], front[4], front[5], front[6], front[7],
    ]);
    if len >= rest.len() as u64 {
        return None;
    }
    Some(rest.split_at(len as usize))
}

/// Reads the records of a journal up to its closed gate, and answers the offset of that.
pub(crate) fn scan<M: Meaning>(meaning: &mut M, bytes: &[u8]) -> Result<u64, JournalFault>
    requires { 1 < length bytes.now }
    ensures read { IfOk result (λ end.
        ReadsTo M.makes meaning.old bytes.now end meaning.new) }
    ensures refused { (n : ℕ) → IsErrOf result (JournalFault.NotAJournal n) →
        IsBadAt M.makes meaning.old bytes.now n }
    ensures no_fault { IsErrOf result JournalFault.Failed → ⊥ }
{
    let mut rest = bytes;
    while let [1, behind @ ..] = rest {
        let at = (bytes.len() - rest.len()) as u64;
        let Some((body, after)) = record_at(behind) else {
            return Err(JournalFault::NotAJournal(at));
        };
        let fits = meaning.take(body)?;
        if !fits {
            return Err(JournalFault::NotAJournal(at));
        }
        rest = after;
    }
    Ok((bytes.len() - rest.len()) as u64)
}
