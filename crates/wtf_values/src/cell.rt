//! A change of a value.

ghost use Rattle.std.specs.Prelude.{◌≡◌, IfOk, IfSome, OnOk, Option, None, Some, true};
ghost use Rattle.std.specs.Option.{option_copied};
ghost use Rattle.wtf_kv.specs.Edits.{value_made, fits};
ghost use Rattle.wtf_kv.specs.Staging.{run_made, run_fits};
ghost use Rattle.wtf_kv.specs.declared.cell.Applied.TheVariants.{Is};
ghost use Rattle.wtf_values.specs.declared.value.Value.TheVariants.{Names, Last, Region, Count};
ghost use Rattle.wtf_values.specs.Outcomes.{makes_region, adds_link, outcome_kind, outcome_none, outcome_region, outcome_last, outcome_names, outcome_count, outcome_of};
ghost use Rattle.wtf_values.specs.Pushes.{are_pushes, entries_of, laid_all};

use crate::summary::{summarize, summary_after};
use crate::{Delta, NameSet, RegionValue, Summary, Value};
use std::alloc::Global;
use wtf_base::OutOfMemory;
use wtf_kv::{Cell, Change, Summarized};
use wtf_overlay::Entry;

/// How many entries are worth being laid at once.
const MANY: usize = 8;

impl Cell for Value {
    type Delta = Delta;

    ghost use Rattle.wtf_values.specs.Outcomes.{outcome_of};

    ghost outcome = { outcome_of };

    fn apply(alloc: Global, now: &mut Option<Value>, delta: &Delta) -> Result<bool, OutOfMemory> {
        match delta {
            Delta::Put(value) => *now = Some(copy_of(value)?),
            Delta::Remove => *now = None,
            Delta::Push(e) => lay_over(alloc, now, e)?,
            _ => return change_kind(alloc, now, delta),
        }
        Ok(true)
    }

    /// Many entries are laid over a region at once.
    fn apply_all<K>(
        alloc: Global,
        now: &mut Option<Value>,
        run: &[Change<K, Delta>],
    ) -> Result<bool, OutOfMemory> {
        if run.len() < MANY {
            return apply_each(alloc, now, run);
        }
        let Some(entries) = entries_of(alloc, run)? else {
            return apply_each(alloc, now, run);
        };
        lay_all(alloc, now, entries.as_slice())?;
        Ok(true)
    }

    fn copy(&self, _alloc: Global) -> Result<Value, OutOfMemory> {
        copy_of(self)
    }

    fn is_same(&self, other: &Value, looks: usize) -> bool {
        match (self, other) {
            (Value::Node(a), Value::Node(b)) => a == b,
            (Value::Names(a), Value::Names(b)) => a.is_same(b, looks),
            (Value::Last(a), Value::Last(b)) => a == b,
            (Value::Region(a), Value::Region(b)) => a.is_same(b, looks),
            (Value::Count(a), Value::Count(b)) => a == b,
            _ => false,
        }
    }
}

impl Summarized for Value {
    type Summary = Summary;

    ghost use Rattle.wtf_values.specs.Summaries.{summary_of};

    ghost summary_of = { summary_of };

    fn summary(&self) -> Summary {
        summarize(self)
    }

    fn no_summary() -> Summary {
        Summary::Missing
    }

    fn summary_after(before: Summary, delta: &Delta) -> Summary {
        summary_after(before, delta)
    }

    fn same_summary(a: Summary, b: Summary) -> bool {
        a == b
    }
}

/// The same value for another holder.
fn copy_of(value: &Value) -> Result<Value, OutOfMemory>
    ensures { IfOk result (λ made. made ≡ value.now) }
{
    match value {
        Value::Node(node) => Ok(Value::Node(*node)),
        Value::Names(names) => Ok(Value::Names(names.copy()?)),
        Value::Last(n) => Ok(Value::Last(*n)),
        Value::Region(region) => Ok(Value::Region(region.copy()?)),
        Value::Count(n) => Ok(Value::Count(*n)),
    }
}

/// Lays an entry over a region, which stays where it is. A missing one is made.
fn lay_over(alloc: Global, now: &mut Option<Value>, e: &Entry) -> Result<(), OutOfMemory>
    ensures { OnOk result
        (now.new ≡ value_made (outcome_kind now.old (Delta.Push e.now)) now.old) }
{
    match now {
        None => {
            let mut region = RegionValue::empty(alloc)?;
            region.lay(*e)?;
            *now = Some(Value::Region(region));
            Ok(())
        }
        Some(Value::Region(region)) => region.lay(*e),
        Some(Value::Node(_)) => Ok(()),
        Some(Value::Names(_)) => Ok(()),
        Some(Value::Last(_)) => Ok(()),
        Some(Value::Count(_)) => Ok(()),
    }
}

/// Applies the deltas of a run one by one, up to the first that does not fit. Answers whether all do.
fn apply_each<K>(
    alloc: Global,
    now: &mut Option<Value>,
    run: &[Change<K, Delta>],
) -> Result<bool, OutOfMemory>
    ensures fit { IfOk result (λ fit. fit ≡ run_fits outcome_of run.now now.old) }
    ensures value { OnOk result (now.new ≡ run_made outcome_of run.now now.old) }
{
    for change in run {
        let Change::Delta(_, delta) = change else {
            continue;
        };
        let fit = Value::apply(alloc, now, delta)?;
        if !fit {
            return Ok(false);
        }
    }
    Ok(true)
}

/// The entries that a run lays, where each of its changes lays one.
fn entries_of<K>(alloc: Global, run: &[Change<K, Delta>]) -> Result<Option<Vec<Entry>>, OutOfMemory>
    ensures pushes { IfOk result (λ found. IfSome found (λ _v. are_pushes run.now ≡ true)) }
    ensures entries { IfOk result (λ found. IfSome found (λ v. v.items ≡ entries_of run.now)) }
{
    let mut entries = Vec::with_capacity(alloc, run.len())?;
    for change in run {
        let Change::Delta(_, Delta::Push(e)) = change else {
            return Ok(None);
        };
        entries.push(*e)?;
    }
    Ok(Some(entries))
}

/// Lays entries over a region, which stays where it is, in order. A missing one is made.
fn lay_all(alloc: Global, now: &mut Option<Value>, entries: &[Entry]) -> Result<(), OutOfMemory>
    ensures { OnOk result (now.new ≡ laid_all now.old entries.now) }
{
    match now {
        None => {
            let mut region = RegionValue::empty(alloc)?;
            region.lay_all(entries)?;
            *now = Some(Value::Region(region));
            Ok(())
        }
        Some(Value::Region(region)) => region.lay_all(entries),
        Some(Value::Node(_)) => Ok(()),
        Some(Value::Names(_)) => Ok(()),
        Some(Value::Last(_)) => Ok(()),
        Some(Value::Count(_)) => Ok(()),
    }
}

/// Makes a change that neither sets nor takes out, where it fits.
fn change_kind(alloc: Global, now: &mut Option<Value>, delta: &Delta) -> Result<bool, OutOfMemory>
    ensures fit { IfOk result (λ fit. fit ≡ fits (outcome_kind now.old delta.now)) }
    ensures value { OnOk result
        (now.new ≡ value_made (outcome_kind now.old delta.now) now.old) }
{
    if !fits(now.as_ref(), delta) {
        return Ok(false);
    }
    *now = kind_after(alloc, now.take(), delta)?;
    Ok(true)
}

/// Whether a change that neither sets nor takes out fits.
fn fits(now: Option<&Value>, delta: &Delta) -> bool
    ensures { result ≡ fits (outcome_kind (option_copied now.entry) delta.now) }
{
    let Delta::PushRel(pieces, size) = delta else {
        return true;
    };
    match now {
        None => pieces.bytes() <= *size as u64,
        Some(Value::Region(region)) => region.has_room(pieces, *size),
        Some(_) => true,
    }
}

/// What a change that neither sets nor takes out makes of a value.
fn kind_after(
    alloc: Global,
    now: Option<Value>,
    delta: &Delta,
) -> Result<Option<Value>, OutOfMemory>
    requires { fits (outcome_kind now delta.now) ≡ true }
    ensures { IfOk result (λ made. made ≡ value_made (outcome_kind now delta.now) now) }
{
    match now {
        None => none_after(alloc, delta),
        Some(Value::Node(node)) => Ok(Some(Value::Node(node))),
        Some(Value::Names(names)) => Ok(Some(Value::Names(names_after(names, delta)?))),
        Some(Value::Last(n)) => Ok(Some(Value::Last(last_after(n, delta)))),
        Some(Value::Region(region)) => Ok(Some(Value::Region(region_after(region, delta)?))),
        Some(Value::Count(n)) => Ok(count_after(n, delta)),
    }
}

/// What a change makes of a missing value.
fn none_after(alloc: Global, delta: &Delta) -> Result<Option<Value>, OutOfMemory>
    requires { fits (outcome_none delta.now) ≡ true }
    ensures { IfOk result (λ made. made ≡ value_made (outcome_none delta.now) None) }
{
    if adds_link(delta) {
        return Ok(Some(Value::Count(2)));
    }
    Ok(region_made(alloc, delta)?)
}

/// Whether a change adds a path.
fn adds_link(delta: &Delta) -> bool
    ensures { result ≡ adds_link delta.now }
{
    match delta {
        Delta::LinkAdd => true,
        _ => false,
    }
}

/// What a change makes of a missing region.
fn region_made(alloc: Global, delta: &Delta) -> Result<Option<Value>, OutOfMemory>
    requires { fits (outcome_region None delta.now) ≡ true }
    ensures { IfOk result (λ made. made ≡ value_made (outcome_region None delta.now) None) }
{
    if makes_region(delta) {
        let empty = RegionValue::empty(alloc)?;
        return Ok(Some(Value::Region(region_after(empty, delta)?)));
    }
    Ok(None)
}

/// Whether a change makes a missing region.
fn makes_region(delta: &Delta) -> bool
    ensures { result ≡ makes_region delta.now }
{
    match delta {
        Delta::Push(_) => true,
        Delta::PushRel(_, _) => true,
        Delta::Clip(_) => true,
        _ => false,
    }
}

/// What a change makes of a region.
fn region_after(region: RegionValue, delta: &Delta) -> Result<RegionValue, OutOfMemory>
    requires { fits (outcome_region (Some region) delta.now) ≡ true }
    ensures { IfOk result (λ made. outcome_region (Some region) delta.now ≡ Is (Region made)) }
{
    match delta {
        Delta::Push(e) => region.push(*e),
        Delta::PushRel(pieces, size) => {
            // Read, so that its range is known.
            let _size = *size;
            region.add_all(pieces.as_slice())
        }
        Delta::Clip(end) => region.clip(*end),
        Delta::ZeroWithin(from, upto) => region.zero_within(*from, *upto),
        _ => Ok(region),
    }
}

/// What a change makes of the number of a last region.
fn last_after(n: u16, delta: &Delta) -> u16
    ensures { outcome_last n delta.now ≡ Is (Last result) }
{
    match delta {
        Delta::RaiseLast(r) => n.max(*r),
        Delta::SetLast(r) => *r,
        _ => n,
    }
}

/// What a change makes of the number of a file's paths.
fn count_after(n: u64, delta: &Delta) -> Option<Value>
    ensures { result ≡ value_made (outcome_count n delta.now) (Some (Count n)) }
{
    match delta {
        Delta::LinkAdd => Some(Value::Count(n.saturating_add(1))),
        Delta::LinkSub if n <= 2 => None,
        Delta::LinkSub => Some(Value::Count(n - 1)),
        _ => Some(Value::Count(n)),
    }
}

/// What a change makes of the names in a directory.
fn names_after(names: NameSet, delta: &Delta) -> Result<NameSet, OutOfMemory>
    ensures { IfOk result (λ made. outcome_names names delta.now ≡ Is (Names made)) }
{
    let mut names = names;
    match delta {
        Delta::DirAdd(name) => names.add(name.share()?)?,
        Delta::DirDel(name) => names.remove(name.as_bytes())?,
        _ => {}
    }
    Ok(names)
}
