//! Open jobs by their labels.

ghost use Rattle.std.specs.Prelude.{◌≡◌, ◌≤◌, ◌+◌, ◌==◌, ◌++◌, map, filter, length, drop, IfSome, OnOk, OnErr, option_copied, vec_len};
ghost use Rattle.std.specs.Vec.{vec_capacity};
ghost use Rattle.std.specs.Option.{option_map};
ghost use Rattle.std.specs.List.{list_any};
ghost use Rattle.std.specs.FinMap.{get, insert, remove, empty, entries, values};
ghost use Rattle.wtf_model.specs.declared.event.Holder.TheVariants as holder;
ghost use Rattle.wtf_model.specs.Scans.{lowest};
ghost use Rattle.wtf_model.specs.Steps.{touch_job, with_each};
ghost use Rattle.wtf_machine.specs.Caps.{PlannedWithin, PlannedWithin_prop};

use std::alloc::Global;
use std::collections::BTreeMap;
use wtf_base::OutOfMemory;
use wtf_model::{Item, JobKind};
use wtf_path::Path;

/// An open job: its stamp, the region that it is for, the number of installs that it began with, and how many items had been
/// changed then.
#[derive(Drop)]
pub(crate) struct PlannedJob {
    pub(crate) stamp: u64,
    pub(crate) path: Path,
    pub(crate) region: u64,
    pub(crate) kind: JobKind,
    pub(crate) base: u64,
    pub(crate) since: usize,
}

/// Open jobs by their labels. `changed` is what installs have changed, one item after another; a job sees of it what came since it was
/// planned.
#[derive(Drop)]
pub(crate) struct Jobs {
    pub(crate) changed: Vec<Item>,
    pub(crate) items: BTreeMap<u8, PlannedJob>,
    ghost within: { PlannedWithin (length changed.items) items.entries } by { PlannedWithin_prop (length changed.items) items.entries },
}

impl Jobs {
    ghost use Rattle.wtf_machine.specs.Kept.{job_in, planned_in, jobs_in};

    /// No job is open.
    pub(crate) fn new(alloc: Global) -> Jobs
        ensures { jobs_in result ≡ empty }
    {
        Jobs {
            changed: Vec::new(alloc),
            items: BTreeMap::new(alloc),
        }
    }

    /// The job of a label.
    pub(crate) fn at(&self, j: u8) -> Option<&PlannedJob>
        ensures value { option_map (planned_in self.now.changed.items) (option_copied result) ≡
            get (jobs_in self.now) j }
        ensures within { IfSome result (λ job. job.now.since ≤ length self.now.changed.items) }
    {
        self.items.get(&j)
    }

    /// How many items have been changed.
    pub(crate) fn count(&self) -> usize
        ensures { result ≡ length self.now.changed.items }
    {
        self.changed.as_slice().len()
    }

    /// What others have changed since a job was planned.
    pub(crate) fn touched(&self, job: &PlannedJob) -> &[Item]
        requires { job.now.since ≤ length self.now.changed.items }
        ensures { result.now ≡ drop job.now.since self.now.changed.items }
    {
        let changed = self.changed.as_slice();
        &changed[job.since..]
    }

    /// Room for so many items more that others change. All is as before.
    pub(crate) fn make_room(&mut self, more: usize) -> Result<(), OutOfMemory>
        ensures room { OnOk result (vec_len self.new.changed + more ≤ vec_capacity self.new.changed) }
        ensures stays { jobs_in self.new ≡ jobs_in self.old }
    {
        self.changed.reserve(more)?;
        Ok(())
    }

    /// These items have been changed: each open job sees it. No memory is taken.
    pub(crate) fn touch(&mut self, items: Vec<Item>)
        requires room { vec_len self.old.changed + vec_len items ≤ vec_capacity self.old.changed }
        ensures { jobs_in self.new ≡ with_each (touch_job items.items) (jobs_in self.old) }
    {
        let mut more = items;
        let _room = self.changed.append(&mut more);
    }

    /// A job begins. After an error all is as before.
    pub(crate) fn add(&mut self, j: u8, job: PlannedJob) -> Result<(), OutOfMemory>
        requires since { job.since ≡ length self.old.changed.items }
        ensures ok { OnOk result (jobs_in self.new ≡ insert (jobs_in self.old) j (job_in job)) }
        ensures err { OnErr result (jobs_in self.new ≡ jobs_in self.old) }
    {
        match self.items.insert(j, job) {
            Ok(_) => Ok(()),
            Err(_) => Err(OutOfMemory),
        }
    }

    /// The job of a label has ended. No memory is taken.
    pub(crate) fn end(&mut self, j: u8)
        ensures gone { jobs_in self.new ≡ remove (jobs_in self.old) j }
        ensures changed { self.new.changed ≡ self.old.changed }
    {
        let _ = self.items.remove(&j);
    }

    /// Adds the stamps of all open jobs to a list, in the order of their labels.
    pub(crate) fn stamps(&self, into: &mut Vec<u64>) -> Result<(), OutOfMemory>
        ensures { OnOk result (into.new.items ≡
            into.old.items ++ map (λ j. j.stamp) (values (jobs_in self.now))) }
    {
        let mut rest = self.items.iter();
        while let Some((_, job)) = rest.next() {
            into.push(job.stamp)?;
        }
        Ok(())
    }

    /// The lowest label of a job whose stamp is among these.
    pub(crate) fn lowest(&self, noted: &[u64]) -> Option<u8>
        ensures { option_map (λ j. holder.Job j) result ≡ lowest
            (filter (λ j. list_any (λ s. s == j.1.stamp) noted.now) (entries (jobs_in self.now))) }
    {
        let mut rest = self.items.iter();
        while let Some((j, job)) = rest.next() {
            if noted.contains(&job.stamp) {
                return Some(*j);
            }
        }
        None
    }
}
