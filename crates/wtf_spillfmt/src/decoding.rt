//! The list that bytes are of.

ghost use Rattle.std.specs.Prelude.{◌≡◌, Some, IfOk, IfErr};
ghost use Rattle.wtf_overlay.specs.Clips.{Within};
ghost use Rattle.wtf_overlay.specs.Rows.{entry_rows};
ghost use Rattle.wtf_overlay.specs.Reading.{only_at, text_at};
ghost use Rattle.wtf_overlay.specs.Spilled.{list_magic, is_list_magic, rows_in, only_compact, decoded};
ghost use Rattle.wtf_spillfmt.specs.Parses.{Parses, IsNoneOr, no_list_by};

use crate::ListError;
use crate::entries::entries_of;
use crate::numbers::u32_at;
use std::alloc::Global;
use wtf_overlay::{Entry, NotCompact, Overlay};

/// The list whose encoding the bytes are, for a region of so many bytes. `NotAList` comes exactly where
/// they are none, or `Memory` in its place.
pub fn decode(alloc: Global, bytes: &[u8], region: u32) -> Result<Overlay, ListError>
    ensures list { IfOk result (λ o. decoded region bytes.now ≡ Some o) }
    ensures cause { IfErr result (IsNoneOr (decoded region bytes.now)) }
{
    let entries = rows_of(alloc, bytes, region)?;
    let list = list_of(alloc, entries, region)?;
    Ok(list)
}

/// The entries of a region of so many bytes, as they stand in the bytes.
#[tactic(auto, unfolding(wtf_overlay::specs::Spilled::rows_in, wtf_overlay::specs::Spilled::rows_at))]
fn rows_of(alloc: Global, bytes: &[u8], region: u32) -> Result<Vec<Entry>, ListError>
    ensures rows { Parses (λ v. entry_rows v.items) result (rows_in region bytes.now) }
    ensures within { IfOk result (λ v. Within region v.items) }
{
    let rest = after_magic(bytes)?;
    let (count, rest) = u32_at(rest)?;
    let (entries, rest) = entries_of(alloc, region, count, rest)?;
    if !rest.is_empty() {
        return Err(ListError::NotAList);
    }
    Ok(entries)
}

/// The first four bytes, and those behind them.
#[tactic(auto, unfolding(wtf_overlay::specs::Reading::text_at))]
fn front_of(bytes: &[u8]) -> Result<(&[u8], &[u8]), ListError>
    ensures { Parses (λ x. (x.0.now, x.1.now)) result (text_at 4 bytes.now) }
{
    if bytes.len() < 4 {
        return Err(ListError::NotAList);
    }
    Ok(bytes.split_at(4))
}

/// What comes after the first bytes of a list.
fn after_magic(bytes: &[u8]) -> Result<&[u8], ListError>
    ensures { Parses (λ x. (list_magic, x.now)) result (only_at is_list_magic (text_at 4) bytes.now) }
{
    let (front, rest) = front_of(bytes)?;
    if front != b"WTFL".as_slice() {
        return Err(ListError::NotAList);
    }
    Ok(rest)
}

/// The list of these entries, if it is compact.
fn list_of(alloc: Global, entries: Vec<Entry>, region: u32) -> Result<Overlay, ListError>
    requires { Within region entries.items }
    ensures { Parses (λ o. o) result (only_compact entries.items) }
{
    match Overlay::of_compact(alloc, entries, region) {
        Ok(list) => Ok(list),
        Err(why) => Err(no_list(why)),
    }
}

/// Why entries give no list.
fn no_list(why: NotCompact) -> ListError
    ensures { result ≡ no_list_by why }
{
    match why {
        NotCompact::Memory => ListError::Memory,
        _ => ListError::NotAList,
    }
}
