//! The eight files of a store in memory.

ghost use Rattle.std.specs.Prelude.{◌≡◌, ◌<◌, ◌≤◌, ◌+◌, ◌^◌, ◌++◌, ℕ, List, [], true, false, length, replicate, slice_set, slice_index_or};
ghost use Rattle.wtf_dev.specs.Disk.{overwritten};
ghost use Rattle.wtf_dev.specs.Memory.{Zeroed};

use std::alloc::Global;
use std::marker::Model;

// Every file is shorter than this, in bytes.
const LIMIT: usize = 1 << 61;

/// Eight files, seen by contracts as the list of their bytes. Each is shorter than 2^61 bytes.
#[derive(Drop)]
pub(crate) struct Files {
    held: [Vec<u8>; 8],
}

impl Model for Files {
    ghost use Rattle.std.specs.Prelude.{List, ℕ, ◌<◌, ◌^◌, length};
    ghost use Rattle.std.specs.List.{All};
    ghost use Rattle.wtf_dev.specs.Memory.{file_lists};

    ghost Value = { List (List ℕ) };

    ghost view = { λ a. file_lists a.held };

    ghost invariant = { λ a. All (λ (bytes : List ℕ). length bytes < 2 ^ 61) (file_lists a.held) };
}

impl Files {
    /// Eight empty files.
    pub(crate) fn new(alloc: Global) -> Files
        ensures { result ≡ replicate 8 [] }
    {
        Files {
            held: [
                Vec::new(alloc),
                Vec::new(alloc),
                Vec::new(alloc),
                Vec::new(alloc),
                Vec::new(alloc),
                Vec::new(alloc),
                Vec::new(alloc),
                Vec::new(alloc),
            ],
        }
    }

    /// The bytes of a file.
    pub(crate) fn bytes(&self, file: u8) -> &[u8]
        requires { file < 8 }
        ensures value { result.now ≡ slice_index_or self.now file [] }
        ensures fits { length result.now < 2 ^ 61 }
        ensures count { length self.now ≡ 8 }
    {
        &self.held[file as usize]
    }

    /// Adds bytes at the end of a file; false where there is no room for them, and then nothing changes.
    pub(crate) fn grow(&mut self, file: u8, bytes: &[u8]) -> bool
        requires { file < 8 }
        ensures grown { result ≡ true → self.new ≡
            slice_set self.old file (slice_index_or self.old file [] ++ bytes.now) }
        ensures room { result ≡ true →
            length (slice_index_or self.old file []) + length bytes.now < 2 ^ 61 }
        ensures same { result ≡ false → self.new ≡ self.old }
        ensures within { file < length self.old }
    {
        if bytes.len() >= LIMIT - self.bytes(file).len() {
            return false;
        }
        self.held[file as usize].extend_from_slice(bytes).is_ok()
    }

    /// Writes bytes into a file, over those from a place on and past its end; false where there is no room for them, and
    /// then nothing changes.
    pub(crate) fn over(&mut self, file: u8, at: usize, bytes: &[u8]) -> bool
        requires file { file < 8 }
        requires inside { at ≤ length (slice_index_or self.old file []) }
        ensures over { result ≡ true → self.new ≡
            slice_set self.old file (overwritten (slice_index_or self.old file []) at bytes.now) }
        ensures room { result ≡ true → at + length bytes.now < 2 ^ 61 }
        ensures same { result ≡ false → self.new ≡ self.old }
        ensures within { file < length self.old }
    {
        // The length of the file shows that the place is below the limit.
        let _held = self.bytes(file);
        if bytes.len() >= LIMIT - at {
            return false;
        }
        over(&mut self.held[file as usize], at, bytes)
    }

    /// Writes zeros into a file, from one place to another.
    pub(crate) fn zero(&mut self, file: u8, from: usize, to: usize)
        requires file { file < 8 }
        requires order { from ≤ to }
        requires within { to ≤ length (slice_index_or self.old file []) }
        ensures within { file < length self.old }
        ensures zeroed { (v : List ℕ) × (self.new ≡ slice_set self.old file v) ×
            Zeroed (slice_index_or self.old file []) v from to }
    {
        zero(&mut self.held[file as usize], from, to);
    }
}

/// Writes bytes over those from a place on, and past the end; false where there is no room for them, and then nothing
/// changes.
pub(crate) fn over(held: &mut Vec<u8>, at: usize, bytes: &[u8]) -> bool
    ensures over { result ≡ true → held.new.items ≡ overwritten held.old.items at bytes.now }
    ensures same { result ≡ false → held.new.items ≡ held.old.items }
{
    let from = at.min(held.len());
    let inside = bytes.len().min(held.len() - from);
    if held.extend_from_slice(&bytes[inside..]).is_err() {
        return false;
    }
    held[from..from + inside].copy_from_slice(&bytes[..inside]);
    true
}

// Writes zeros from one place to another.
fn zero(bytes: &mut Vec<u8>, from: usize, to: usize)
    requires order { from ≤ to }
    requires within { to ≤ length bytes.old.items }
    ensures { Zeroed bytes.old.items bytes.new.items from to }
{
    bytes[from..to].fill(0);
}
