//! Scans of what is in use, and the collection of what is not.

ghost use Rattle.std.specs.Prelude.{◌≡◌, ◌≤◌, ◌<◌, ◌-◌, ◌||◌, ℕ, None, Some, true, [], is_some, IsTrue, IfOk, IfErr, OnOk, OnErr};
ghost use Rattle.wtf_base.specs.Places.{Place};
ghost use Rattle.wtf_gc.specs.Extents.{extents_cover};
ghost use Rattle.wtf_kv.specs.Stores.{is_live};
ghost use Rattle.wtf_replica.specs.Inside.{size_in};
ghost use Rattle.wtf_meta.specs.Maps.{metadata_at};
ghost use Rattle.wtf_region.specs.Inside.{IsStoredInside};
ghost use Rattle.wtf_region.specs.Devs.{IsSoundDev, GoesOn, between, stores, remembered};
ghost use Rattle.wtf_region.specs.Showing.{OnlyRead};
ghost use Rattle.wtf_gc.specs.Pinning.{IsPinnedFor};
ghost use Rattle.wtf_replica.specs.Outs.{IsLeftDown, SameLengths, SameSyncs};
ghost use Rattle.wtf_gc.specs.Views.{RunView, new_gc, mark_of, run_view};
ghost use Rattle.wtf_gc.specs.Scans.{StartsScan, AreHeld, IsPrunedFrom, DoesParts, IsPieceFault, Advances};
ghost use Rattle.wtf_gc.specs.Frees.{FreesAll, IsCollectFault};

use crate::extent::Extent;
use crate::extents::Extents;
use crate::garbage::{unused_of, used_on};
use crate::listing::found_in;
use crate::marks::lengths;
use crate::parts::{PARTS, Parts};
use crate::pinning::{live_numbers, pin_each, unpin_each};
use crate::punching::free_each;
use std::alloc::Global;
use std::marker::Model;
use wtf_base::{Fault, OutOfMemory};
use wtf_dev::{Shelf, SliceStore};
use wtf_kv::Kv;
use wtf_meta::{Key, Value};
use wtf_region::Dev;

/// A scan: the lengths of the files at its start, and what it found.
#[derive(Debug, Drop)]
pub(crate) struct Scan {
    pub(crate) marks: Vec<u64>,
    pub(crate) found: Extents,
}

/// A scan that runs: the numbers that it has pinned, and the parts that are left.
#[derive(Debug, Drop)]
pub(crate) struct Running {
    pub(crate) scan: Scan,
    pub(crate) seen: Vec<u64>,
    pub(crate) left: u8,
}

/// The scans of what is in use: the one that runs, the last two that have finished, and what was freed.
/// A byte is garbage where it lies below the mark of the first of the two, neither found it, and it was
/// not freed yet. A scan has 64 parts: that of a file is its inode's transaction number modulo 64.
#[derive(Debug, Drop)]
pub struct Gc {
    running: Option<Running>,
    finished: u64,
    older: Scan,
    newer: Scan,
    freed: Extents,
    alloc: Global,
}

impl Model for Gc {
    ghost use Rattle.std.specs.Prelude.{option_map};
    ghost use Rattle.wtf_gc.specs.Views.{GcView, scan_view, run_view, HasPartsLeft};

    ghost Value = { GcView };

    ghost use Rattle.std.specs.Coded.{codes};
    ghost use Rattle.wtf_gc.specs.contracts.extent.Extent as extent;

    ghost coded = { Prim.hlevel (codes, extent.the_row.coded) };

    ghost view = { λ g. record {
      running = option_map run_view g.running;
      finished = g.finished;
      older = scan_view g.older;
      newer = scan_view g.newer;
      freed = g.freed;
    } };

    ghost invariant = { λ g. HasPartsLeft g.running };
}

/// A scan that has found nothing, of files of no length.
fn no_scan(alloc: Global) -> Scan
    ensures marks { result.marks.items ≡ [] }
    ensures found { result.found ≡ [] }
{
    Scan {
        marks: Vec::new(alloc),
        found: Extents::new(alloc),
    }
}

impl Running {
    /// Takes what parts have found that are done. Where memory is short the scan is as it was.
    fn grow(&mut self, alloc: Global, done: u8, found: &[Extent]) -> Result<(), OutOfMemory>
        requires { done ≤ self.old.left }
        ensures same { OnErr result (run_view self.new ≡ run_view self.old) }
        ensures left { OnOk result (self.new.left ≡ self.old.left - done) }
        ensures seen { self.new.seen.items ≡ self.old.seen.items }
        ensures marks { self.new.scan.marks.items ≡ self.old.scan.marks.items }
        ensures adds { OnOk result ((p : Place) →
            extents_cover self.new.scan.found p ≡ (extents_cover self.old.scan.found p || extents_cover found.now p)) }
    {
        self.scan.found.append(found)?;
        // merging saves memory alone: where none can be had for it, the list stays long
        let _merged = self.scan.found.merge_when_due(alloc);
        self.left -= done;
        Ok(())
    }
}

impl Gc {
    /// No scan runs, none has finished, and nothing was freed.
    pub fn new(alloc: Global) -> Result<Gc, OutOfMemory>
        ensures { IfOk result (λ g. g ≡ new_gc) }
    {
        Ok(Gc {
            running: None,
            finished: 0,
            older: no_scan(alloc),
            newer: no_scan(alloc),
            freed: Extents::new(alloc),
            alloc,
        })
    }

    /// Whether a scan runs.
    pub fn running(&self) -> bool
        ensures { result ≡ is_some self.now.running }
    {
        self.running.is_some()
    }

    /// How many scans have finished; 2^64 - 1 where there are more.
    pub fn finished(&self) -> u64
        ensures { result ≡ self.now.finished }
    {
        self.finished
    }

    /// Starts a scan, where none runs. It notes the length of each backing file, its mark, and pins once
    /// more the number and each pinned number, until it is done. Where memory is short nothing is
    /// started.
    pub fn scan_begin<S: SliceStore>(
        &mut self,
        kv: &mut Kv<Key, Value>,
        shelf: &Shelf<S>,
    ) -> Result<(), OutOfMemory>
        requires { self.old.running ≡ None }
        ensures starts { OnOk result (StartsScan S.kind shelf.now kv.old kv.new self.old self.new) }
        ensures same { OnErr result (self.new ≡ self.old) }
        ensures pins { OnErr result (IsPinnedFor [] kv.old kv.new) }
    {
        let seen = live_numbers(self.alloc, &*kv)?;
        let marks = lengths(self.alloc, shelf)?;
        pin_each(kv, seen.as_slice())?;
        self.running = Some(Running {
            scan: Scan {
                marks,
                found: Extents::new(self.alloc),
            },
            seen,
            left: PARTS,
        });
        Ok(())
    }

    /// Does the next `parts` parts of the scan that runs, or all where fewer are left, and answers how
    /// many are left then. With none left the scan has finished, and undoes its pins. A part finds what
    /// the versions of its regions name that are kept, through the lists of their bases too. It drops
    /// the versions that are not kept. The faults are those of the lists. After one the scan is as it
    /// was; lists that were read are remembered.
    pub fn scan_piece<S: SliceStore>(
        &mut self,
        dev: &mut Dev<'_, S>,
        kv: &mut Kv<Key, Value>,
        parts: u8,
    ) -> Result<u8, Fault>
        requires runs { is_some self.old.running ≡ true }
        requires held { AreHeld self.old.running kv.old }
        requires sound { IsSoundDev S.kind dev.old }
        requires inside { (n : ℕ) → IsTrue (is_live kv.old n) → IsStoredInside S.kind
            (stores dev.old) dev.old.settings (metadata_at kv.old n) }
        ensures does { IfOk result
            (DoesParts S.kind dev.old dev.new kv.old kv.new self.old self.new parts) }
        ensures same { OnErr result (self.new ≡ self.old) }
        ensures pins { OnErr result (kv.new.pins ≡ kv.old.pins) }
        ensures fault { IfErr result
            (IsPieceFault S.kind dev.old dev.new kv.new self.old.running parts) }
        ensures prunes { IsPrunedFrom kv.old kv.new }
        ensures reads { OnlyRead S.kind (between dev.old dev.new) }
        ensures dev { GoesOn S.kind dev.old dev.new [] }
    {
        kv.prune();
        let Some(run) = &self.running else {
            unreachable!()
        };
        let first = PARTS - run.left;
        let done = run.left.min(parts);
        let end = first + done;
        let found = found_in(self.alloc, dev, &*kv, Parts { first, end })?;
        match self.advance(kv, done, found.as_slice()) {
            Ok(left) => Ok(left),
            Err(_) => Err(Fault::Memory),
        }
    }

    /// Takes what parts have found. With none left the scan has finished.
    fn advance(
        &mut self,
        kv: &mut Kv<Key, Value>,
        done: u8,
        found: &[Extent],
    ) -> Result<u8, OutOfMemory>
        requires runs { is_some self.old.running ≡ true }
        requires held { AreHeld self.old.running kv.old }
        requires done { (r : RunView) → self.old.running ≡ Some r → done ≤ r.left }
        ensures ok { IfOk result
            (λ left. Advances kv.old kv.new self.old self.new done left found.now) }
        ensures same { OnErr result (self.new ≡ self.old) }
        ensures kv { OnErr result (kv.new ≡ kv.old) }
    {
        let Some(mut run) = self.running.take() else {
            unreachable!()
        };
        if let Err(why) = run.grow(self.alloc, done, found) {
            self.running = Some(run);
            return Err(why);
        }
        let left = run.left;
        if left > 0 {
            self.running = Some(run);
            return Ok(left);
        }
        unpin_each(kv, run.seen.as_slice());
        self.older = std::mem::replace(&mut self.newer, run.scan);
        self.finished = self.finished.saturating_add(1);
        Ok(0)
    }

    /// Frees the garbage of server `k`, one of the settings, and answers how many bytes those are. Asks
    /// that no mark of the first scan passes its file's length on `k`. All memory is taken first: where it
    /// is short nothing is freed. `Punch` where the server is down or its store failed; what was freed
    /// before counts as freed. Before two scans have finished there is no garbage.
    pub fn collect<S: SliceStore>(&mut self, dev: &mut Dev<'_, S>, k: u8) -> Result<u64, Fault>
        requires server { k < dev.old.settings.servers }
        requires sound { IsSoundDev S.kind dev.old }
        requires marks { (f : ℕ) → mark_of self.old.older k f ≤ size_in S.kind (stores dev.old) k f }
        ensures frees { IfOk result (FreesAll S.kind k dev.old dev.new self.old self.new) }
        ensures fault { IfErr result (IsCollectFault S.kind k dev.old dev.new self.old self.new) }
        ensures down { IsLeftDown (between dev.old dev.new) }
        ensures lists { remembered dev.new ≡ remembered dev.old }
        ensures lengths { SameLengths S.kind (stores dev.old) (stores dev.new) }
        ensures syncs { SameSyncs S.kind (stores dev.old) (stores dev.new) }
    {
        let used = match used_on(
            self.alloc,
            self.older.found.as_slice(),
            self.newer.found.as_slice(),
            self.freed.as_slice(),
            k,
        ) {
            Ok(used) => used,
            Err(_) => return Err(Fault::Memory),
        };
        let garbage = match unused_of(self.alloc, self.older.marks.as_slice(), used.as_slice(), k) {
            Ok(garbage) => garbage,
            Err(_) => return Err(Fault::Memory),
        };
        let before = self.freed.len();
        if let Err(_) = self.freed.append(garbage.extents.as_slice()) {
            return Err(Fault::Memory);
        }
        if let Err(stopped) = free_each(dev, garbage.extents.as_slice()) {
            self.freed.shorten(before + stopped.done);
            return Err(stopped.why);
        }
        // merging saves memory alone: where none can be had for it, the list stays long
        let _merged = self.freed.merge_when_due(self.alloc);
        Ok(garbage.bytes)
    }
}
