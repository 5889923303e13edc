//! Entries that are taken for a compact list as they stand.

ghost use Rattle.std.specs.Prelude.{◌≡◌, OnOk, IfOk, IfErr};
ghost use Rattle.wtf_overlay.specs.Causes.{IsCause, IsCauseAt, MayStand};
ghost use Rattle.wtf_overlay.specs.Clips.{Within};
ghost use Rattle.wtf_overlay.specs.Compact.{IsCompact, could_be_one};

use crate::{Entry, NotCompact, Overlay, Part};
use std::alloc::Global;

impl Overlay {
    /// The list of these entries, where it is compact and none of them passes `end`. Else the answer names
    /// what is not so. It costs one pass over the entries.
    pub fn of_compact(alloc: Global, entries: Vec<Entry>, end: u32) -> Result<Overlay, NotCompact>
        ensures list { IfOk result (λ o. o ≡ entries.items) }
        ensures compact { IfOk result (λ o. IsCompact o) }
        ensures within { IfOk result (λ o. Within end o) }
        ensures cause { IfErr result (IsCause end entries.items) }
    {
        look(entries.as_slice(), end)?;
        let list = Overlay::of_run(alloc, entries)?;
        Ok(list)
    }
}

impl Entry {
    /// Whether this entry and `next` could be one.
    fn could_join(&self, next: &Entry) -> bool
        ensures { result ≡ could_be_one self.now next.now }
    {
        match self.joined(next) {
            None => false,
            Some(_) => true,
        }
    }

    /// Whether the entry may stand before these in a compact list that ends at `end`, else why not.
    fn stands_before(&self, after: &[Entry], end: u32) -> Result<(), NotCompact>
        ensures stands { OnOk result (MayStand end self.now after.now) }
        ensures cause { IfErr result (IsCauseAt end self.now after.now) }
    {
        if self.part == Part::Zero {
            return Err(NotCompact::Zeros);
        }
        if self.end() > end {
            return Err(NotCompact::Past);
        }
        let Some(next) = after.first() else {
            return Ok(());
        };
        if next.off < self.end() {
            return Err(NotCompact::Order);
        }
        if self.could_join(next) {
            return Err(NotCompact::Joins);
        }
        Ok(())
    }
}

/// Whether the entries are a compact list, none of which passes `end`, else why not.
fn look(entries: &[Entry], end: u32) -> Result<(), NotCompact>
    ensures compact { OnOk result (IsCompact entries.now) }
    ensures within { OnOk result (Within end entries.now) }
    ensures cause { IfErr result (IsCause end entries.now) }
{
    let mut rest = entries;
    while let Some((e, after)) = rest.split_first() {
        e.stands_before(after, end)?;
        rest = after;
    }
    Ok(())
}
