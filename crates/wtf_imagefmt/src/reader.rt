//! Numbers of two bytes and lists at the front of bytes, each with the bytes behind it.

ghost use Rattle.std.specs.Prelude.{◌≡◌, IfOk};
ghost use Rattle.std.specs.Int.{w16};
ghost use Rattle.wtf_overlay.specs.Clips.{Within};
ghost use Rattle.wtf_overlay.specs.Reading.{number_at, entry_at, many_at};
ghost use Rattle.wtf_spillfmt.specs.Parses.{Parses};
ghost use Rattle.wtf_imagefmt.specs.Rows.{entry_rows};

use std::alloc::Global;
use wtf_base::OutOfMemory;
use wtf_overlay::{Entry, Overlay};
use wtf_spillfmt::{ListError, entries_of};

/// A number of two bytes.
#[tactic(auto, unfolding(wtf_overlay::specs::Reading::number_at))]
pub fn u16_at(bytes: &[u8]) -> Result<(u16, &[u8]), ListError>
    ensures { Parses (λ x. (x.0, x.1.now)) result (number_at w16 bytes.now) }
{
    if bytes.len() < 2 {
        return Err(ListError::NotAList);
    }
    let (front, rest) = bytes.split_at(2);
    Ok((u16::from_be_bytes([front[0], front[1]]), rest))
}

/// So many entries of a region that ends at `end`, as a list.
pub fn list_of(
    alloc: Global,
    end: u32,
    count: u32,
    bytes: &[u8],
) -> Result<(Overlay, &[u8]), ListError>
    ensures value { Parses (λ x. (entry_rows x.0, x.1.now)) result
        (many_at (entry_at end) count bytes.now) }
    ensures within { IfOk result (λ x. Within end x.0) }
{
    let (entries, rest) = entries_of(alloc, end, count, bytes)?;
    let list = listed(alloc, entries.as_slice())?;
    Ok((list, rest))
}

/// The list of these entries, the earliest first.
fn listed(alloc: Global, entries: &[Entry]) -> Result<Overlay, OutOfMemory>
    ensures { IfOk result (λ o. o ≡ entries.now) }
{
    let mut list = Overlay::new(alloc)?;
    for e in entries {
        list.push(*e)?;
    }
    Ok(list)
}
