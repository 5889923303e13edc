//! A quick test that most lines pass, many bytes at a time. It says nothing of a line that fails.

ghost use Rattle.std.specs.Prelude.{◌≡◌, ◌<◌, ◌≤◌, ◌+◌, ◌-◌, ℕ, max, true, false, length, slice_index, IsTrue};
ghost use Rattle.std.specs.List.{list_all, list_any};
ghost use Rattle.wtf_lex.specs.Words.{words_of};
ghost use Rattle.wtf_script.specs.Grammar.{is_printable, is_empty_word};
ghost use Rattle.wtf_script.specs.Plain.{ArePlain};

use std::simd::prelude::*;

/// Whether a quick look finds each byte shown, and no space at an end or beside another.
pub(crate) fn is_plain(line: &[u8]) -> bool
    requires { 0 < length line.now }
    ensures { IsTrue result → (list_all is_printable line.now ≡ true)
        × (list_any is_empty_word (words_of line.now) ≡ false) }
{
    if !line[0].is_ascii_graphic() {
        return false;
    }
    if !line[line.len() - 1].is_ascii_graphic() {
        return false;
    }
    is_plain_before_last(line)
}

/// The bytes but the last, each with the one behind it.
fn is_plain_before_last(line: &[u8]) -> bool
    requires { 0 < length line.now }
    ensures { IsTrue result → ArePlain line.now 0 (length line.now - 1) }
{
    if line.len() < 33 {
        return is_plain_by_one(line);
    }
    let last = line.len() - 33;
    let mut at = 0;
    while at < last {
        if !is_plain_run(line, at) {
            return false;
        }
        at += 32;
    }
    is_plain_run(line, last)
}

/// The same, one byte at a time.
fn is_plain_by_one(line: &[u8]) -> bool
    requires { 0 < length line.now }
    ensures { IsTrue result → ArePlain line.now 0 (length line.now - 1) }
{
    for i in 1..line.len() {
        if !is_plain_pair(line[i - 1], line[i]) {
            return false;
        }
    }
    true
}

/// Whether a byte can be shown, and it and the next are not two spaces.
fn is_plain_pair(byte: u8, next: u8) -> bool
    ensures { IsTrue result → (32 ≤ byte) × (byte ≤ 126) × (33 ≤ max byte next) }
{
    b' ' <= byte && byte <= b'~' && byte.max(next) > b' '
}

/// 32 bytes from a place on, each with the one behind it.
fn is_plain_run(line: &[u8], at: usize) -> bool
    requires { at + 33 ≤ length line.now }
    ensures { IsTrue result → ArePlain line.now at (at + 32) }
{
    let here = u8x32::from_slice(&line[at..]);
    let next = u8x32::from_slice(&line[at + 1..]);
    none_below(here, b' ') & none_above(here, b'~') & none_below(here.simd_max(next), b'!')
}

/// Whether each lane is at least so much.
#[inline(always)]
fn none_below(lanes: u8x32, least: u8) -> bool
    ensures { IsTrue result → (k : ℕ) → k < 32 → least ≤ slice_index lanes k }
{
    lanes.simd_lt(u8x32::splat(least)).to_bitmask() == 0
}

/// Whether each lane is at most so much.
#[inline(always)]
fn none_above(lanes: u8x32, most: u8) -> bool
    ensures { IsTrue result → (k : ℕ) → k < 32 → slice_index lanes k ≤ most }
{
    lanes.simd_gt(u8x32::splat(most)).to_bitmask() == 0
}
