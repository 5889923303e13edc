//! Compact lists: what a list shows, as slices alone, with neighbours joined where they could be one.

ghost use Rattle.std.specs.Prelude.{◌≡◌, ℕ, ◌*◌, ◌+◌, ◌≤◌, length, Bool, List, IfOk, OnOk};
ghost use Rattle.wtf_overlay.specs.Clips.{Within};
ghost use Rattle.wtf_overlay.specs.Named.{EachByte};
ghost use Rattle.wtf_overlay.specs.Origin.{Place, origin};
ghost use Rattle.wtf_overlay.specs.Compact.{IsCompact};
ghost use Rattle.wtf_overlay.specs.Runs.{IsRun};
ghost use Rattle.wtf_overlay.specs.Joins.{IsJoined, IsPut};

use crate::{Entry, Overlay, Part};
use std::alloc::Global;
use wtf_base::OutOfMemory;

impl Overlay {
    /// The compact list of the same bytes at the same places: slices alone, sorted and disjoint, and no two
    /// neighbours that could be one. It passes no end that the list keeps, and names no bytes that the list
    /// does not name. It costs one pass over the entries of the runs and of the tail.
    pub fn compact(&self) -> Result<Overlay, OutOfMemory>
        ensures compact { IfOk result (λ o. IsCompact o) }
        ensures origins { IfOk result (λ o. (x : ℕ) → origin o x ≡ origin self.now x) }
        ensures count { IfOk result (λ o. length o ≤ 2 * length self.now + 1) }
        ensures within { (end : ℕ) → Within end self.now → IfOk result (Within end) }
        ensures places { (P : List Place → Bool) → EachByte P self.now → IfOk result (EachByte P) }
    {
        let all = self.whole()?;
        let run = compacted(self.alloc(), all.as_slice())?;
        let list = Overlay::of_run(self.alloc(), run)?;
        Ok(list)
    }
}

impl Entry {
    /// This entry and `next` as one, exactly where they could be one.
    pub(crate) fn joined(&self, next: &Entry) -> Option<Entry>
        ensures { IsJoined self.now next.now result }
    {
        let (Part::Held(slice), Part::Held(after)) = (self.part, next.part) else {
            return None;
        };
        if self.end() != next.off {
            return None;
        }
        match slice.join(&after) {
            None => None,
            Some(both) => Some(Entry::of(self.off, self.len + next.len, Part::Held(both))),
        }
    }
}

/// Puts `e` after the list, joined with its last entry where they could be one. Zeros are left out.
fn put(out: &mut Vec<Entry>, e: Entry) -> Result<(), OutOfMemory>
    ensures { OnOk result (IsPut e out.old.items out.new.items) }
{
    if e.part == Part::Zero {
        return Ok(());
    }
    let Some(last) = out.pop() else {
        out.push(e)?;
        return Ok(());
    };
    let Some(both) = last.joined(&e) else {
        out.push(last)?;
        out.push(e)?;
        return Ok(());
    };
    out.push(both)?;
    Ok(())
}

/// The run as a compact list.
fn compacted(alloc: Global, run: &[Entry]) -> Result<Vec<Entry>, OutOfMemory>
    requires run { IsRun run.now }
    ensures compact { IfOk result (λ v. IsCompact v.items) }
    ensures run { IfOk result (λ v. IsRun v.items) }
    ensures origins { IfOk result (λ v. (x : ℕ) → origin v.items x ≡ origin run.now x) }
    ensures count { IfOk result (λ v. length v.items ≤ length run.now) }
{
    let mut out = Vec::with_capacity(alloc, run.len())?;
    let mut rest = run;
    while let Some((e, after)) = rest.split_first() {
        put(&mut out, *e)?;
        rest = after;
    }
    Ok(out)
}
