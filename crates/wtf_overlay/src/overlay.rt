//! The list of entries, which holders share.

ghost use Rattle.std.specs.Prelude.{◌≡◌, ℕ, ◌*◌, ◌+◌, ◌<◌, ◌≤◌, ◌++◌, [], ◌∷◌, length, Some, OnOk, OnErr, IfOk, IsTrue, slice_get};
ghost use Rattle.std.specs.Bool.{OnFalse};
ghost use Rattle.wtf_overlay.specs.Clips.{Within};
ghost use Rattle.wtf_overlay.specs.Origin.{origin, Plans};
ghost use Rattle.wtf_overlay.specs.Runs.{IsRun};
ghost use Rattle.wtf_overlay.specs.Edges.{EdgesIn, is_edge};

use crate::layers::Layers;
use crate::laying::LIMIT;
use crate::planning::pieces;
use crate::tails::is_run;
use crate::{Entry, Piece};
use std::alloc::Global;
use std::marker::Model;
use std::rc::Rc;
use wtf_base::OutOfMemory;

/// A list of entries, each of which hides what earlier ones hold at its place. A place that no entry
/// covers is a hole, which reads as zeros (NSDI 2016, section 2.1).
///
/// Beside its entries a list keeps runs, sorted and disjoint lists that lie over one another, and over them a
/// short tail of the newest entries. Together they show the same. A range is found in the runs by search,
/// however many entries there are. Holders share all of it, until one of them pushes: it takes the tail and
/// what is open of the entries for itself then, and goes on sharing the rest.
///
/// A list is one word, so that what holds it is cheap to move.
#[derive(Debug, Drop)]
pub struct Overlay {
    layers: Rc<Layers>,
}

impl Model for Overlay {
    ghost use Rattle.std.specs.Prelude.{List};
    ghost use Rattle.wtf_overlay.specs.declared.part.Entry.{Entry};

    ghost Value = { List Entry };

    ghost use Rattle.wtf_overlay.specs.contracts.part.Entry as entry;
    ghost use Rattle.std.specs.Coded.{coded_list};

    ghost coded = { coded_list entry.the_row.coded };

    ghost view = { λ o. o.layers.value };
}

impl Overlay {
    /// A list with no entry. It takes one small block of memory.
    pub fn new(alloc: Global) -> Result<Overlay, OutOfMemory>
        ensures { IfOk result (λ o. o ≡ []) }
    {
        let layers = Layers::new(alloc)?;
        Ok(Overlay {
            layers: Rc::new(alloc, layers)?,
        })
    }

    /// The number of entries.
    pub fn len(&self) -> usize
        ensures { result ≡ length self.now }
    {
        self.layers.len()
    }

    /// The entry at `i`, counted from 0, the earliest first.
    pub fn get(&self, i: usize) -> Entry
        requires { i < length self.now }
        ensures { slice_get self.now i ≡ Some result }
    {
        self.layers.get(i)
    }

    /// Lays `e` over the list. After an error the list is as before. Most pushes cost a copy of `e`. Over
    /// many pushes each entry is merged about log n times, where n is the number of entries. The first push
    /// after a share costs a step for each sealed chunk of entries and for each run, about log n of both,
    /// and a copy of the tail.
    pub fn push(&mut self, e: Entry) -> Result<(), OutOfMemory>
        ensures ok { OnOk result (self.new ≡ self.old ++ e ∷ []) }
        ensures err { OnErr result (self.new ≡ self.old) }
    {
        let layers = Rc::make_mut(&mut self.layers)?;
        layers.push(e)
    }

    /// Lays entries over the list, the earliest first. After an error the list is as before. Where each of
    /// them begins at the end of the one before it or later, they are merged at once, and most of them are
    /// copied a few times alone. A few entries are better pushed one by one.
    pub fn push_many(&mut self, entries: &[Entry]) -> Result<(), OutOfMemory>
        ensures ok { OnOk result (self.new ≡ self.old ++ entries.now) }
        ensures err { OnErr result (self.new ≡ self.old) }
    {
        if is_run(entries) {
            let layers = Rc::make_mut(&mut self.layers)?;
            return layers.push_run(entries);
        }
        *self = self.with_each(entries)?;
        Ok(())
    }

    /// The list with each of the entries pushed, for another holder.
    fn with_each(&self, entries: &[Entry]) -> Result<Overlay, OutOfMemory>
        ensures { IfOk result (λ o. o ≡ self.now ++ entries.now) }
    {
        let mut list = self.share()?;
        for e in entries {
            list.push(*e)?;
        }
        Ok(list)
    }

    /// The same list for a second holder. What is pushed to one leaves the other as it is. It costs one
    /// step.
    pub fn share(&self) -> Result<Overlay, OutOfMemory>
        ensures { IfOk result (λ o. o ≡ self.now) }
    {
        Ok(Overlay {
            layers: self.layers.clone()?,
        })
    }

    /// Whether two lists are sure to be of the same entries. It costs a look at each entry. `false` says
    /// nothing.
    pub fn is_same(&self, other: &Overlay) -> bool
        ensures { IsTrue result → self.now ≡ other.now }
    {
        self.layers.is_same(&other.layers)
    }

    /// The `len` bytes from `off` on as consecutive pieces, each of one entry or of a hole. Where `len` is
    /// 0 there is none. Holes reach past every entry, and past 2^32 too. It costs a search in each run,
    /// a look at each entry of the tail, and a merge of what they show in the range.
    pub fn plan(&self, off: u32, len: u32) -> Result<Vec<Piece>, OutOfMemory>
        ensures origins { IfOk result (λ v. Plans v.items len (λ i. origin self.now (off + i))) }
        ensures count { IfOk result (λ v. length v.items ≤ 2 * length self.now + 1) }
    {
        self.plan_with(&[], off, len)
    }

    /// What `plan` gives of the list with `more` laid over it, the earliest first. That list is not made: it
    /// costs as much as `plan`, a look at each entry of `more`, and a merge of each that shows something in
    /// the range.
    pub fn plan_with(&self, more: &[Entry], off: u32, len: u32) -> Result<Vec<Piece>, OutOfMemory>
        ensures origins { IfOk result (λ v.
            Plans v.items len (λ i. origin (self.now ++ more.now) (off + i))) }
        ensures count { IfOk result (λ v. length v.items ≤ 2 * length (self.now ++ more.now) + 1) }
    {
        let from = off as u64;
        let all = self.layers.shown_in(more, from, from + len as u64)?;
        let out = pieces(self.alloc(), all.as_slice(), off, len)?;
        Ok(out)
    }

    /// The allocator that the list keeps.
    pub(crate) fn alloc(&self) -> Global {
        self.layers.alloc()
    }

    /// Whether an entry may end past `end`.
    pub(crate) fn passes(&self, end: u32) -> bool
        ensures { OnFalse result (Within end self.now) }
    {
        self.layers.passes(end)
    }

    /// What the list shows, as one run.
    pub(crate) fn whole(&self) -> Result<Vec<Entry>, OutOfMemory>
        ensures run { IfOk result (λ v. IsRun v.items) }
        ensures origins { IfOk result (λ v. (x : ℕ) → origin v.items x ≡ origin self.now x) }
        ensures edges { IfOk result (λ v. EdgesIn (is_edge self.now) v.items) }
    {
        let all = self.layers.shown_in(&[], 0, LIMIT)?;
        Ok(all)
    }

    /// The list of the entries of a run.
    pub(crate) fn of_run(alloc: Global, run: Vec<Entry>) -> Result<Overlay, OutOfMemory>
        requires { IsRun run.items }
        ensures { IfOk result (λ o. o ≡ run.items) }
    {
        let layers = Layers::of_run(alloc, run)?;
        Ok(Overlay {
            layers: Rc::new(alloc, layers)?,
        })
    }
}
