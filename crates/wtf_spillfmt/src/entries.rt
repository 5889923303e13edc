//! Pointers, slices and entries at the front of bytes, each with the bytes behind it.

ghost use Rattle.std.specs.Prelude.{◌≡◌, ◌≤◌, ◌+◌, IfOk};
ghost use Rattle.wtf_base.specs.Slices.{pointers_of, len_of};
ghost use Rattle.wtf_overlay.specs.Clips.{Within};
ghost use Rattle.wtf_overlay.specs.Lengths.{HasLength};
ghost use Rattle.wtf_overlay.specs.Rows.{part_row, entry_row, entry_rows};
ghost use Rattle.wtf_overlay.specs.Reading.{pointer_at, slice_at, part_at, entry_at, many_at};
ghost use Rattle.wtf_spillfmt.specs.Parses.{Parses};

use crate::ListError;
use crate::numbers::{u8_at, u32_at, u64_at};
use std::alloc::Global;
use wtf_base::{Pointer, ServerId, Slice};
use wtf_overlay::{Entry, Part};

/// A pointer to `len` bytes.
#[tactic(auto, unfolding(wtf_overlay::specs::Reading::pointer_at))]
fn pointer_of(len: u32, bytes: &[u8]) -> Result<(Pointer, &[u8]), ListError>
    ensures value { Parses (λ x. (x.0, x.1.now)) result (pointer_at len bytes.now) }
    ensures len { IfOk result (λ x. x.0.len ≡ len) }
{
    let (server, rest) = u8_at(bytes)?;
    let (file, rest) = u8_at(rest)?;
    let (at, rest) = u64_at(rest)?;
    let pointer = Pointer {
        server: ServerId(server),
        file,
        at,
        len,
    };
    Ok((pointer, rest))
}

/// The slice of `len` bytes at the front of bytes, and the bytes behind it.
#[tactic(auto, unfolding(wtf_overlay::specs::Reading::slice_at))]
pub fn slice_of(len: u32, bytes: &[u8]) -> Result<(Slice, &[u8]), ListError>
    ensures value { Parses (λ x. (pointers_of x.0, x.1.now)) result (slice_at len bytes.now) }
    ensures len { IfOk result (λ x. len_of x.0 ≡ len) }
{
    let (width, rest) = u8_at(bytes)?;
    match width {
        1 => {
            let (a, rest) = pointer_of(len, rest)?;
            let slice = Slice::of(&[a]).ok_or(ListError::NotAList)?;
            Ok((slice, rest))
        }
        2 => {
            let (a, rest) = pointer_of(len, rest)?;
            let (b, rest) = pointer_of(len, rest)?;
            let slice = Slice::of(&[a, b]).ok_or(ListError::NotAList)?;
            Ok((slice, rest))
        }
        3 => {
            let (a, rest) = pointer_of(len, rest)?;
            let (b, rest) = pointer_of(len, rest)?;
            let (c, rest) = pointer_of(len, rest)?;
            let slice = Slice::of(&[a, b, c]).ok_or(ListError::NotAList)?;
            Ok((slice, rest))
        }
        _ => Err(ListError::NotAList),
    }
}

/// What an entry of `len` bytes holds.
#[tactic(auto, unfolding(wtf_overlay::specs::Reading::part_at))]
fn part_of(len: u32, bytes: &[u8]) -> Result<(Part, &[u8]), ListError>
    ensures value { Parses (λ x. (part_row x.0, x.1.now)) result (part_at len bytes.now) }
    ensures len { IfOk result (λ x. HasLength len x.0) }
{
    let (kind, rest) = u8_at(bytes)?;
    match kind {
        0 => Ok((Part::Zero, rest)),
        1 => {
            let (slice, rest) = slice_of(len, rest)?;
            Ok((Part::Held(slice), rest))
        }
        _ => Err(ListError::NotAList),
    }
}

/// The entry at the front of bytes, of a region that ends at `end`, and the bytes behind it.
#[tactic(auto, unfolding(wtf_overlay::specs::Reading::entry_at))]
pub fn entry_of(end: u32, bytes: &[u8]) -> Result<(Entry, &[u8]), ListError>
    ensures value { Parses (λ x. (entry_row x.0, x.1.now)) result (entry_at end bytes.now) }
    ensures within { IfOk result (λ x. x.0.off + x.0.len ≤ end) }
{
    let (off, rest) = u32_at(bytes)?;
    let (len, rest) = u32_at(rest)?;
    let (part, rest) = part_of(len, rest)?;
    if len == 0 || off as u64 + len as u64 > end as u64 {
        return Err(ListError::NotAList);
    }
    Ok((Entry { off, len, part }, rest))
}

/// So many entries of a region that ends at `end`. No memory is set aside for a count that the bytes only
/// claim.
pub fn entries_of(
    alloc: Global,
    end: u32,
    count: u32,
    bytes: &[u8],
) -> Result<(Vec<Entry>, &[u8]), ListError>
    ensures value { Parses (λ x. (entry_rows x.0.items, x.1.now)) result
        (many_at (entry_at end) count bytes.now) }
    ensures within { IfOk result (λ x. Within end x.0.items) }
{
    let mut list = Vec::new(alloc);
    let mut rest = bytes;
    for _ in 0..count {
        let (entry, after) = entry_of(end, rest)?;
        list.push(entry)?;
        rest = after;
    }
    Ok((list, rest))
}
