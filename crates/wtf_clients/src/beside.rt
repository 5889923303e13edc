//! What stands beside the store and the clients: images, jobs and scans.

ghost use Rattle.std.specs.Prelude.{◌≡◌, ◌≢◌, ◌<◌, ◌≤◌, ◌-◌, ℕ, [], None, Some, false, true, take, length, is_some, slice_set, slice_index_or, IfOk, IfErr, OnOk, OnErr, IsTrue, MatchOption};
ghost use Rattle.wtf_kv.specs.Stores.{is_live};
ghost use Rattle.wtf_meta.specs.Maps.{metadata_at};
ghost use Rattle.wtf_replica.specs.Inside.{size_in};
ghost use Rattle.wtf_replica.specs.Outs.{IsLeftDown, SameLengths, SameSyncs};
ghost use Rattle.wtf_region.specs.Devs.{IsSoundDev, GoesOn, between, remembered, stores};
ghost use Rattle.wtf_region.specs.Inside.{IsStoredInside};
ghost use Rattle.wtf_region.specs.Showing.{OnlyRead};
ghost use Rattle.wtf_gc.specs.Frees.{FreesAll, IsCollectFault};
ghost use Rattle.wtf_gc.specs.Pinning.{IsPinnedFor};
ghost use Rattle.wtf_gc.specs.Scans.{StartsScan, AreHeld, DoesParts, IsPieceFault, IsPrunedFrom};
ghost use Rattle.wtf_gc.specs.Views.{mark_of};
ghost use Rattle.wtf_model.specs.declared.limits.TheConstants.{MAX_JOBS};
ghost use Rattle.wtf_clients.specs.Views.{of_label, unsaved, watching, with_jobs, with_labels, with_gc, was_job};
ghost use Rattle.wtf_clients.specs.ScanTurns.{NoOldJob, IsLowestOld};
ghost use Rattle.wtf_clients.specs.Sounds.{SetsJob};
ghost use Rattle.wtf_clients.specs.Saves.{with_image, only_image};

use std::alloc::Global;
use std::marker::Model;
use wtf_base::{Fault, OutOfMemory};
use wtf_compact::Job;
use wtf_dev::{Shelf, SliceStore};
use wtf_gc::Gc;
use wtf_kv::Kv;
use wtf_model::limits::MAX_JOBS;
use wtf_region::Dev;
use wtf_values::{Key, Value};

/// The numbers of the images that may be on the keeper, in the order in which they were handed over,
/// and whether it may still hold nothing; the number that is watched; the jobs by label; and the scans.
/// A keeper that holds nothing stands for the root alone, which needs no version of any key: so nothing is
/// pinned for it, and no removal is kept for it. Of what was open when the last scan began these are told: the transactions by
/// the number of the one that was to begin next, the jobs by their labels.
#[derive(Drop)]
pub(crate) struct Beside {
    images: Vec<u64>,
    none: bool,
    watched: Option<u64>,
    jobs: [Option<Job>; 8],
    gc: Gc,
    scan_tx: u64,
    scan_jobs: [bool; 8],
}

impl Model for Beside {
    ghost use Rattle.wtf_clients.specs.Views.{BesideView, AreLabelled};

    ghost Value = { BesideView };

    ghost use Rattle.std.specs.Coded.{codes};
    ghost use Rattle.wtf_compact.specs.contracts.job.Job as job;
    ghost use Rattle.wtf_gc.specs.contracts.extent.Extent as extent;

    ghost coded = { Prim.hlevel (codes, job.the_row.coded, extent.the_row.coded) };

    ghost view = { λ b. record {
      images = b.images.items;
      none = b.none;
      watched = b.watched;
      jobs = b.jobs;
      gc = b.gc;
      scan_tx = b.scan_tx;
      scan_jobs = b.scan_jobs;
    } };

    ghost invariant = { λ b. AreLabelled b.jobs × AreLabelled b.scan_jobs };
}

impl Beside {
    /// No image was handed to the keeper, nothing is watched, there is no job, and no scan has begun.
    pub(crate) fn new(alloc: Global) -> Result<Beside, OutOfMemory>
        ensures { IfOk result (λ b. b ≡ unsaved) }
    {
        let gc = Gc::new(alloc)?;
        Ok(Beside {
            images: Vec::new(alloc),
            none: true,
            watched: None,
            jobs: [None, None, None, None, None, None, None, None],
            gc,
            scan_tx: 0,
            scan_jobs: [false; 8],
        })
    }

    /// The image of this number alone is on the keeper, nothing is watched, there is no job, and no scan has
    /// begun.
    pub(crate) fn of(alloc: Global, number: u64) -> Result<Beside, OutOfMemory>
        ensures { IfOk result (λ b. b ≡ only_image unsaved number) }
    {
        let mut beside = Beside::new(alloc)?;
        match beside.images.push(number) {
            Ok(()) => {
                beside.none = false;
                return Ok(beside);
            }
            Err(_) => return Err(OutOfMemory),
        }
    }

    /// One image more may be on the keeper.
    pub(crate) fn add(&mut self, n: u64) -> Result<(), OutOfMemory>
        ensures ok { OnOk result (self.new ≡ with_image self.old n) }
        ensures err { OnErr result (self.new ≡ self.old) }
    {
        match self.images.push(n) {
            Ok(()) => Ok(()),
            Err(_) => Err(OutOfMemory),
        }
    }

    /// The images but for the one that was added last.
    pub(crate) fn others(&self) -> &[u64]
        requires { 0 < length self.now.images }
        ensures { result.now ≡ take (length self.now.images - 1) self.now.images }
    {
        let count = self.images.len() - 1;
        &self.images[..count]
    }

    /// The image that was added last goes.
    pub(crate) fn drop_last(&mut self)
        requires { 0 < length self.old.images }
        ensures { self.new ≡ record self.old {
          images = take (length self.old.images - 1) self.old.images;
        } }
    {
        let count = self.images.len() - 1;
        self.images.truncate(count);
    }

    /// Of the images this one alone is on the keeper.
    pub(crate) fn settle(&mut self, n: u64)
        requires { 0 < length self.old.images }
        ensures { self.new ≡ only_image self.old n }
    {
        self.images.truncate(1);
        self.images[0] = n;
        self.none = false;
    }

    /// The number that is watched, if there is one.
    pub(crate) fn watched(&self) -> Option<u64>
        ensures { result ≡ self.now.watched }
    {
        self.watched
    }

    /// This number is watched in place of the one before, which is answered.
    pub(crate) fn watch(&mut self, n: u64) -> Option<u64>
        ensures before { result ≡ self.old.watched }
        ensures is { self.new ≡ watching self.old n }
    {
        let before = self.watched;
        self.watched = Some(n);
        before
    }

    /// Whether a label has a job.
    pub(crate) fn has_job(&self, j: u8) -> bool
        requires { j < MAX_JOBS }
        ensures { result ≡ is_some (of_label self.now.jobs j) }
    {
        self.jobs[j as usize].is_some()
    }

    /// A label that has none gets a job.
    pub(crate) fn set_job(&mut self, j: u8, job: Job)
        requires { j < MAX_JOBS }
        ensures is { self.new ≡ with_jobs self.old (slice_set self.old.jobs j (Some job)) }
        ensures sets { SetsJob j (Some job) self.old.jobs self.new.jobs }
    {
        self.jobs[j as usize] = Some(job);
    }

    /// The job of a label, if there is one, which then has none.
    pub(crate) fn take_job(&mut self, j: u8) -> Option<Job>
        requires { j < MAX_JOBS }
        ensures job { result ≡ of_label self.old.jobs j }
        ensures is { self.new ≡ with_jobs self.old (slice_set self.old.jobs j None) }
        ensures sets { SetsJob j None self.old.jobs self.new.jobs }
    {
        self.jobs[j as usize].take()
    }

    /// A label that has none gets a job, which began after the last scan did.
    pub(crate) fn plan_job(&mut self, j: u8, job: Job)
        requires { j < MAX_JOBS }
        ensures sets { SetsJob j (Some job) self.old.jobs self.new.jobs }
        ensures is { self.new ≡ with_labels self.old self.new.jobs self.new.scan_jobs }
        ensures unmarked { was_job self.new j ≡ false }
        ensures others { (l : ℕ) → l ≢ j → was_job self.new l ≡ was_job self.old l }
    {
        self.scan_jobs[j as usize] = false;
        self.set_job(j, job);
    }

    /// Whether a scan runs.
    pub(crate) fn scans(&self) -> bool
        ensures { result ≡ is_some self.now.gc.running }
    {
        self.gc.running()
    }

    /// How many scans have finished; 2^64 - 1 where there are more.
    pub(crate) fn finished(&self) -> u64
        ensures { result ≡ self.now.gc.finished }
    {
        self.gc.finished()
    }

    /// The number of the transaction that was to begin next when the last scan began.
    pub(crate) fn scan_tx(&self) -> u64
        ensures { result ≡ self.now.scan_tx }
    {
        self.scan_tx
    }

    /// The lowest label whose job was open when the last scan began.
    pub(crate) fn lowest_old(&self) -> Option<u8>
        ensures { MatchOption result (NoOldJob self.now) (IsLowestOld self.now) }
    {
        // reads a field, so that the proof knows before the loop that each label has a place
        let _labelled = &self.images;
        for j in 0..MAX_JOBS {
            if self.has_job(j) && self.scan_jobs[j as usize] {
                return Some(j);
            }
        }
        None
    }

    /// Which labels have a job.
    fn labels(&self) -> [bool; 8]
        ensures are { (j : ℕ) →
            slice_index_or result j false ≡ is_some (of_label self.now.jobs j) }
        ensures all { length result ≡ MAX_JOBS }
    {
        // reads a field, so that the proof knows before the loop that each label has a place
        let _labelled = &self.images;
        let mut labels = [false; 8];
        for j in 0..MAX_JOBS {
            labels[j as usize] = self.has_job(j);
        }
        labels
    }

    /// A scan begins, where none runs. What is open now is noted. Want of memory starts nothing.
    pub(crate) fn begin_scan<S: SliceStore>(
        &mut self,
        kv: &mut Kv<Key, Value>,
        shelf: &Shelf<S>,
        next_tx: u64,
    ) -> Result<(), OutOfMemory>
        requires free { self.old.gc.running ≡ None }
        ensures starts { OnOk result
            (StartsScan S.kind shelf.now kv.old kv.new self.old.gc self.new.gc) }
        ensures scan_tx { OnOk result (self.new.scan_tx ≡ next_tx) }
        ensures scan_jobs { OnOk result ((j : ℕ) →
            was_job self.new j ≡ is_some (of_label self.old.jobs j)) }
        ensures rest { OnOk result (self.new ≡ record self.old {
          gc = self.new.gc;
          scan_tx = self.new.scan_tx;
          scan_jobs = self.new.scan_jobs;
        }) }
        ensures same { OnErr result (self.new ≡ self.old) }
        ensures pins { OnErr result (IsPinnedFor [] kv.old kv.new) }
    {
        self.gc.scan_begin(kv, shelf)?;
        self.scan_jobs = self.labels();
        self.scan_tx = next_tx;
        Ok(())
    }

    /// Does the next parts of the scan that runs, and answers how many are left then.
    pub(crate) fn do_parts<S: SliceStore>(
        &mut self,
        dev: &mut Dev<'_, S>,
        kv: &mut Kv<Key, Value>,
        parts: u8,
    ) -> Result<u8, Fault>
        requires runs { is_some self.old.gc.running ≡ true }
        requires held { AreHeld self.old.gc.running kv.old }
        requires sound { IsSoundDev S.kind dev.old }
        requires inside { (n : ℕ) → IsTrue (is_live kv.old n) → IsStoredInside S.kind
            (stores dev.old) dev.old.settings (metadata_at kv.old n) }
        ensures does { IfOk result
            (DoesParts S.kind dev.old dev.new kv.old kv.new self.old.gc self.new.gc parts) }
        ensures rest { self.new ≡ with_gc self.old self.new.gc }
        ensures same { OnErr result (self.new ≡ self.old) }
        ensures pins { OnErr result (kv.new.pins ≡ kv.old.pins) }
        ensures fault { IfErr result
            (IsPieceFault S.kind dev.old dev.new kv.new self.old.gc.running parts) }
        ensures prunes { IsPrunedFrom kv.old kv.new }
        ensures reads { OnlyRead S.kind (between dev.old dev.new) }
        ensures dev { GoesOn S.kind dev.old dev.new [] }
    {
        self.gc.scan_piece(dev, kv, parts)
    }

    /// Frees what is garbage of server `k`, and answers how many bytes that are.
    pub(crate) fn free<S: SliceStore>(&mut self, dev: &mut Dev<'_, S>, k: u8) -> Result<u64, Fault>
        requires server { k < dev.old.settings.servers }
        requires sound { IsSoundDev S.kind dev.old }
        requires marks { (f : ℕ) →
            mark_of self.old.gc.older k f ≤ size_in S.kind (stores dev.old) k f }
        ensures frees { IfOk result
            (FreesAll S.kind k dev.old dev.new self.old.gc self.new.gc) }
        ensures fault { IfErr result
            (IsCollectFault S.kind k dev.old dev.new self.old.gc self.new.gc) }
        ensures rest { self.new ≡ with_gc self.old self.new.gc }
        ensures down { IsLeftDown (between dev.old dev.new) }
        ensures lists { remembered dev.new ≡ remembered dev.old }
        ensures lengths { SameLengths S.kind (stores dev.old) (stores dev.new) }
        ensures syncs { SameSyncs S.kind (stores dev.old) (stores dev.new) }
    {
        self.gc.collect(dev, k)
    }
}
