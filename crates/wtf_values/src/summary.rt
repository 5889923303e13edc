//! What is told of a value without its parts.

ghost use Rattle.std.specs.Prelude.{◌≡◌, ◌+◌, ◌<◌, ◌≤◌, ◌^◌, Option, None, Some, IfSome};
ghost use Rattle.wtf_kv.specs.Edits.{value_made};
ghost use Rattle.wtf_overlay.specs.Origin.{pieces_len};
ghost use Rattle.wtf_values.specs.declared.region.RegionValue.{RegionValue};
ghost use Rattle.wtf_values.specs.declared.value.Value.{Value};
ghost use Rattle.wtf_values.specs.declared.value.Value.TheVariants as values;
ghost use Rattle.wtf_values.specs.Outcomes.{outcome_of, outcome_kind, outcome_none, outcome_region, outcome_last, outcome_count};
ghost use Rattle.wtf_values.specs.Summaries.{summary_of};

use crate::{Delta, Pieces, Value};

/// What is told of a value, or of none, without its parts: how long a file is needs no more.
#[derive(Clone, Copy, Debug, PartialEq, Eq)]
pub enum Summary {
    /// There is no value.
    Missing,
    /// The number of a file's last region.
    Last(u16),
    /// Where a region ends.
    Region(u32),
    /// The number of a file's paths.
    Count(u64),
    /// There is a value of another kind.
    Other,
}

/// The summary of a value.
pub(crate) fn summarize(value: &Value) -> Summary
    ensures { result ≡ summary_of (Some value.now) }
{
    match value {
        Value::Last(n) => Summary::Last(*n),
        Value::Region(v) => Summary::Region(v.end),
        Value::Count(n) => Summary::Count(*n),
        Value::Names(_) => Summary::Other,
        Value::Node(_) => Summary::Other,
    }
}

/// The summary after a delta of a value with this one.
pub(crate) fn summary_after(before: Summary, delta: &Delta) -> Summary
    ensures { (now : Option Value) → before ≡ summary_of now →
        result ≡ summary_of (value_made (outcome_of now delta.now) now) }
{
    match delta {
        Delta::Put(value) => summarize(value),
        Delta::Remove => Summary::Missing,
        _ => kind_after(before, delta),
    }
}

/// The summary after a delta that neither sets nor takes out.
fn kind_after(before: Summary, delta: &Delta) -> Summary
    ensures { (now : Option Value) → before ≡ summary_of now →
        result ≡ summary_of (value_made (outcome_kind now delta.now) now) }
{
    match before {
        Summary::Missing => missing_after(delta),
        Summary::Last(n) => last_after(n, delta),
        Summary::Region(end) => Summary::Region(end_after(end, delta)),
        Summary::Count(n) => count_after(n, delta),
        Summary::Other => Summary::Other,
    }
}

/// The summary after a delta of a missing value.
fn missing_after(delta: &Delta) -> Summary
    ensures { result ≡ summary_of (value_made (outcome_none delta.now) None) }
{
    match delta {
        Delta::LinkAdd => Summary::Count(2),
        Delta::Push(e) => Summary::Region(e.end()),
        Delta::PushRel(pieces, size) => match end_with(0, pieces, *size) {
            Some(end) => Summary::Region(end),
            None => Summary::Missing,
        },
        Delta::Clip(end) => Summary::Region(*end),
        _ => Summary::Missing,
    }
}

/// The number of a last region after a delta of it.
fn last_after(n: u16, delta: &Delta) -> Summary
    ensures { result ≡ summary_of (value_made (outcome_last n delta.now) (Some (values.Last n))) }
{
    match delta {
        Delta::RaiseLast(r) => Summary::Last(n.max(*r)),
        Delta::SetLast(r) => Summary::Last(*r),
        _ => Summary::Last(n),
    }
}

/// The number of a file's paths after a delta of it.
fn count_after(n: u64, delta: &Delta) -> Summary
    ensures { result ≡ summary_of (value_made (outcome_count n delta.now) (Some (values.Count n))) }
{
    match delta {
        Delta::LinkAdd => Summary::Count(n.saturating_add(1)),
        Delta::LinkSub if n <= 2 => Summary::Missing,
        Delta::LinkSub => Summary::Count(n - 1),
        _ => Summary::Count(n),
    }
}

/// Where a region that ended at `end` ends after a delta of it.
fn end_after(end: u32, delta: &Delta) -> u32
    ensures { (v : RegionValue) → v.end ≡ end → Summary.Region result ≡ summary_of
        (value_made (outcome_region (Some v) delta.now) (Some (values.Region v))) }
{
    match delta {
        Delta::Push(e) => end.max(e.end()),
        Delta::PushRel(pieces, size) => match end_with(end, pieces, *size) {
            Some(n) => n,
            None => end,
        },
        Delta::Clip(n) => *n,
        _ => end,
    }
}

/// Where a region ends with pieces added at its end `end`; `None` where they do not fit.
fn end_with(end: u32, pieces: &Pieces, size: u32) -> Option<u32>
    ensures room { IfSome result (λ n. (n ≡ end + pieces_len pieces.now) × (n ≤ size)) }
    ensures small { IfSome result (λ n. n < 2 ^ 32) }
    ensures full { result ≡ None → size < end + pieces_len pieces.now }
{
    if end <= size && pieces.bytes() <= (size - end) as u64 {
        Some(end + pieces.bytes() as u32)
    } else {
        None
    }
}
