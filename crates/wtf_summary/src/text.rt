//! The text of a summary.

ghost use Rattle.std.specs.Prelude.{◌≡◌, ℕ, ◌+◌, ◌≤◌, ◌++◌, List, length, codes, decimal};
ghost use Rattle.hex.specs.Hex.{encode_lower};
ghost use Rattle.sha2.specs.Hashers.{Holds256};
ghost use Rattle.sha2.specs.Sha256.{sha256};
ghost use Rattle.wtf_summary.specs.Summaries.{entry, summary};
ghost use Rattle.wtf_summary.specs.Tallies.{Tallies};

use crate::tally::Tally;
use arrayvec::ArrayVec;
use hex::encode_to_slice;
use itoa::Buffer;
use sha2::{Digest, Sha256};

/// The text of a summary, or its front.
pub(crate) type Text = ArrayVec<u8, 288>;

/// Adds bytes.
fn extend(text: &mut Text, bytes: &[u8])
    requires { length text.old.items + length bytes.now ≤ 288 }
    ensures { text.new.items ≡ text.old.items ++ bytes.now }
{
    if text.try_extend_from_slice(bytes).is_err() {
        unreachable!();
    }
}

/// Adds a line.
fn add(text: &mut Text, name: &[u8], value: &[u8])
    requires { length text.old.items + length name.now + length value.now + 2 ≤ 288 }
    ensures { text.new.items ≡ text.old.items ++ entry name.now value.now }
{
    extend(text, name);
    extend(text, b" ");
    extend(text, value);
    extend(text, b"\n");
}

/// Adds the line of a count.
fn add_count(text: &mut Text, name: &[u8], count: u64)
    requires { length text.old.items + length name.now + 22 ≤ 288 }
    ensures items { text.new.items ≡ text.old.items ++ entry name.now (decimal count) }
    ensures long { length text.new.items ≤ length text.old.items + length name.now + 22 }
{
    let mut digits = Buffer::new();
    add(text, name, digits.format(count).as_bytes());
}

/// The digest of the bytes that a hasher holds.
fn digest(hasher: &Sha256) -> [u8; 32]
    ensures { (bytes : List ℕ) → Holds256 hasher.now bytes → result ≡ sha256 bytes }
{
    match hasher.clone() {
        Ok(hasher) => hasher.finalize(),
        Err(_) => unreachable!(),
    }
}

/// Adds the line of the digest.
fn add_digest(text: &mut Text, hasher: &Sha256)
    requires { length text.old.items ≤ 210 }
    ensures { (bytes : List ℕ) → Holds256 hasher.now bytes →
        text.new.items ≡ text.old.items ++ entry (codes "sha256") (encode_lower (sha256 bytes)) }
{
    let mut digits = [0; 64];
    if encode_to_slice(digest(hasher).as_slice(), &mut digits).is_err() {
        unreachable!();
    }
    add(text, b"sha256", &digits);
}

/// The summary of the lines that were tallied.
pub(crate) fn summary(tally: &Tally) -> Text
    ensures { (text : List ℕ) → Tallies tally.now text → result.items ≡ summary text }
{
    let counts = tally.counts;
    let mut text = ArrayVec::new();
    add_count(&mut text, b"lines", counts.lines);
    add_count(&mut text, b"committed", counts.committed);
    add_count(&mut text, b"retry", counts.retry);
    add_count(&mut text, b"aborted", counts.aborted);
    add_count(&mut text, b"installed", counts.installed);
    add_count(&mut text, b"refused", counts.refused);
    add_count(&mut text, b"other", counts.other);
    add_digest(&mut text, &tally.digest);
    text
}
