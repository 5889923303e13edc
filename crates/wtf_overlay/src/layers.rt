//! What a list keeps: its entries, and the runs that show what they show.

ghost use Rattle.std.specs.Prelude.{◌≡◌, ℕ, ◌<◌, ◌≤◌, ◌++◌, [], ◌∷◌, length, vec_len, Some, OnOk, OnErr, IfOk, IsTrue, slice_get};
ghost use Rattle.std.specs.Bool.{OnFalse};
ghost use Rattle.std.specs.Vec.{vec_capacity};
ghost use Rattle.wtf_overlay.specs.Clips.{Within};
ghost use Rattle.wtf_overlay.specs.Runs.{IsRun, SameWithin};
ghost use Rattle.wtf_overlay.specs.Edges.{EdgesIn, is_edge};

use crate::Entry;
use crate::stacks::{Run, replace_top, shown, top_with};
use crate::tails::{FULL, laid, laid_under, whole_tail, with_above};
use std::alloc::{AllocError, Global};
use std::marker::Model;
use std::rc::RcSlice;
use wtf_base::OutOfMemory;
use wtf_chunks::Chunks;

/// The entries of a list, its runs, the tail over them, and an end that no entry passes.
#[derive(Debug, Drop)]
pub(crate) struct Layers {
    entries: Chunks<Entry>,
    runs: Vec<Run>,
    tail: Vec<Entry>,
    reach: u32,
}

impl Model for Layers {
    ghost use Rattle.std.specs.Prelude.{List};
    ghost use Rattle.wtf_overlay.specs.declared.part.Entry.{Entry};
    ghost use Rattle.wtf_overlay.specs.Stacks.{StandFor};
    ghost use Rattle.wtf_overlay.specs.Clips.{Within};

    ghost Value = { List Entry };

    ghost use Rattle.wtf_overlay.specs.contracts.part.Entry as entry;
    ghost use Rattle.std.specs.Coded.{coded_list};

    ghost coded = { coded_list entry.the_row.coded };

    ghost view = { λ l. l.entries };

    ghost invariant = { λ l. StandFor l.entries l.runs.items l.tail.items × Within l.reach l.entries };
}

impl Clone for Layers {
    ghost use Rattle.std.specs.Prelude.{◌≡◌};

    ghost is_clone = { λ x y. y ≡ x };

    ghost is_infallible = { λ _. ⊥ };

    fn clone(&self) -> Result<Layers, AllocError> {
        let alloc = self.alloc();
        Ok(Layers {
            entries: self.entries.share()?,
            runs: self.runs.clone()?,
            tail: self.tail.to_vec(alloc)?,
            reach: self.reach,
        })
    }
}

impl Layers {
    /// Those of a list with no entry.
    pub(crate) fn new(alloc: Global) -> Result<Layers, AllocError>
        ensures { IfOk result (λ l. l ≡ []) }
    {
        Ok(Layers {
            entries: Chunks::new(alloc)?,
            runs: Vec::new(alloc),
            tail: Vec::new(alloc),
            reach: 0,
        })
    }

    /// Those of the list of the entries of a run.
    pub(crate) fn of_run(alloc: Global, run: Vec<Entry>) -> Result<Layers, OutOfMemory>
        requires { IsRun run.items }
        ensures { IfOk result (λ l. l ≡ run.items) }
    {
        let entries = chunks_of(alloc, run.as_slice())?;
        let reach = reach_of(run.as_slice());
        let mut runs = Vec::new(alloc);
        runs.push(RcSlice::from_vec(run)?)?;
        Ok(Layers {
            entries,
            runs,
            tail: Vec::new(alloc),
            reach,
        })
    }

    /// The number of entries.
    pub(crate) fn len(&self) -> usize
        ensures { result ≡ length self.now }
    {
        self.entries.len()
    }

    /// The entry at `i`, counted from 0, the earliest first.
    pub(crate) fn get(&self, i: usize) -> Entry
        requires { i < length self.now }
        ensures { slice_get self.now i ≡ Some result }
    {
        self.entries.get(i)
    }

    /// Lays `e` over the list. After an error the list is as before.
    pub(crate) fn push(&mut self, e: Entry) -> Result<(), OutOfMemory>
        ensures ok { OnOk result (self.new ≡ self.old ++ e ∷ []) }
        ensures err { OnErr result (self.new ≡ self.old) }
    {
        self.make_room()?;
        room_for_one(&mut self.tail)?;
        self.entries.push(e)?;
        let _room = self.tail.push(e);
        self.reach = self.reach.max(e.end());
        Ok(())
    }

    /// Merges the tail into the runs where it is full.
    fn make_room(&mut self) -> Result<(), OutOfMemory>
        ensures { self.new ≡ self.old }
    {
        if self.tail.len() >= FULL {
            self.push_run(&[])?;
        }
        Ok(())
    }

    /// Lays a run over the list, and merges it and the tail into the runs. After an error the list is as
    /// before.
    pub(crate) fn push_run(&mut self, run: &[Entry]) -> Result<(), OutOfMemory>
        requires { IsRun run.now }
        ensures ok { OnOk result (self.new ≡ self.old ++ run.now) }
        ensures err { OnErr result (self.new ≡ self.old) }
    {
        let below = whole_tail(self.alloc(), self.tail.as_slice())?;
        let newest = with_above(below, run)?;
        let top = top_with(newest, self.runs.as_slice())?;
        let shared = RcSlice::from_vec(top.run)?;
        self.runs.reserve(1)?;
        self.entries.extend(run)?;
        replace_top(&mut self.runs, top.below, shared);
        self.tail.clear();
        self.reach = self.reach.max(reach_of(run));
        Ok(())
    }

    /// Whether two lists are sure to be of the same entries.
    pub(crate) fn is_same(&self, other: &Layers) -> bool
        ensures { IsTrue result → self.now ≡ other.now }
    {
        self.entries.is_same(&other.entries)
    }

    /// The allocator that the list keeps.
    pub(crate) fn alloc(&self) -> Global {
        *self.runs.allocator()
    }

    /// Whether an entry may end past `end`.
    pub(crate) fn passes(&self, end: u32) -> bool
        ensures { OnFalse result (Within end self.now) }
    {
        end < self.reach
    }

    /// What the list with `more` over it shows from `from` up to `to`, as one run.
    pub(crate) fn shown_in(
        &self,
        more: &[Entry],
        from: u64,
        to: u64,
    ) -> Result<Vec<Entry>, OutOfMemory>
        ensures run { IfOk result (λ v. IsRun v.items) }
        ensures shows { IfOk result (λ v. SameWithin from to (self.now ++ more.now) v.items) }
        ensures edges { IfOk result (λ v. EdgesIn (is_edge (self.now ++ more.now)) v.items) }
    {
        let over = laid(self.alloc(), more, from, to)?;
        let newest = laid_under(over, self.tail.as_slice(), from, to)?;
        let all = shown(newest, self.runs.as_slice(), from, to)?;
        Ok(all)
    }
}

/// Makes room for a further entry of a tail: for that one alone at first, since many lists keep one.
fn room_for_one(tail: &mut Vec<Entry>) -> Result<(), OutOfMemory>
    ensures same { tail.new.items ≡ tail.old.items }
    ensures room { OnOk result (vec_len tail.new < vec_capacity tail.new) }
{
    if tail.is_empty() {
        tail.reserve_exact(1)?;
    } else {
        tail.reserve(1)?;
    }
    Ok(())
}

/// The entries in chunks.
fn chunks_of(alloc: Global, run: &[Entry]) -> Result<Chunks<Entry>, OutOfMemory>
    ensures { IfOk result (λ c. c ≡ run.now) }
{
    let mut list = Chunks::new(alloc)?;
    list.extend(run)?;
    Ok(list)
}

/// An end that no entry of the run passes.
fn reach_of(run: &[Entry]) -> u32
    requires { IsRun run.now }
    ensures { Within result run.now }
{
    match run.split_last() {
        None => 0,
        Some((last, _)) => last.end(),
    }
}
