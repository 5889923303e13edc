//! Lines of jobs.

ghost use Rattle.std.specs.Prelude.{◌≡◌, ◌⊎◌, ◌↔◌, ◌<◌, ◌≤◌, ◌^◌, length, true, Some, MatchOption, IsTrue, IfOk, OnErr};
ghost use Rattle.std.specs.FinMap.{get};
ghost use Rattle.wtf_model.specs.declared.answer.Answer.TheVariants as says;
ghost use Rattle.wtf_model.specs.Faults.{IsReadFault};
ghost use Rattle.wtf_model.specs.Jobs.{last_region, plan_answer, IsSpillFault, MayFailPlan};
ghost use Rattle.wtf_model.specs.Jobs.{MayPut, job_changes, drop_answer};
ghost use Rattle.wtf_model.specs.Steps.{with_job, put_in_place, dropped};
ghost use Rattle.wtf_machine.specs.Kept.{planned_in, Decides};
ghost use Rattle.wtf_machine.specs.Machines.{machine_in};

use crate::answers::{is_okay, is_refused};
use crate::faults::is_read_fault;
use crate::items::{copy_items, meets};
use crate::jobs::PlannedJob;
use crate::machine::Machine;
use crate::path_map::PathNode;
use crate::reads::source_reads;
use wtf_base::OutOfMemory;
use wtf_model::{Answer, Item, JobKind, Word};
use wtf_path::Path;

/// The last region of a file of so many bytes. An empty file has region 0 alone.
fn last_region(region: u64, len: u64) -> u64
    requires { 0 < region }
    ensures { result ≡ last_region region len }
{
    len.saturating_sub(1) / region
}

/// Whether an answer tells that a plan could not be made: the region's list could not be read, or
/// the list that a spill makes could not be stored.
fn is_plan_fault(servers: u8, kind: JobKind, answer: &Answer) -> bool
    ensures { IsTrue result ↔ (IsReadFault servers answer.now ⊎ IsSpillFault kind answer.now) }
{
    match (kind, answer) {
        (JobKind::Spill, Answer::FaultWrite) => true,
        _ => is_read_fault(servers, answer),
    }
}

impl Machine {
    /// Why a plan for a region of a file is refused: its label is taken, there is no such file, or
    /// the file has no such region.
    fn plan_refusal(&self, j: u8, path: &Path, region: u64) -> Option<Word>
        ensures { MatchOption result
            (plan_answer (machine_in self.now) j path.now region ≡ says.Planned)
            (λ why. plan_answer (machine_in self.now) j path.now region ≡ says.Refused why) }
    {
        if self.jobs.at(j).is_some() {
            return Some(Word::JobInUse);
        }
        let Some(node) = self.tree.node(path) else {
            return Some(Word::NoEnt);
        };
        let PathNode::Content(file) = node else {
            return Some(Word::IsDir);
        };
        if region > last_region(self.settings.region as u64, file.bytes.len() as u64) {
            return Some(Word::NoRegion);
        }
        None
    }

    /// A plan for a region of a file.
    pub(crate) fn plan(
        &mut self,
        j: u8,
        kind: JobKind,
        path: &Path,
        region: u64,
        answer: &Answer,
    ) -> Result<bool, OutOfMemory>
        requires stamps { self.old.next_stamp < 2 ^ 63 }
        ensures decides { IfOk result (Decides
            ((answer.now ≡ plan_answer (machine_in self.old) j path.now region)
            ⊎ MayFailPlan self.old.settings.servers kind (plan_answer (machine_in self.old) j path.now region) answer.now)
            (machine_in self.old) (with_job (machine_in self.old) j kind path.now region answer.now) (machine_in self.new)) }
        ensures err { OnErr result (machine_in self.new ≡ machine_in self.old) }
    {
        if let Some(why) = self.plan_refusal(j, path, region) {
            return Ok(is_refused(answer, why));
        }
        let Answer::Planned = answer else {
            return Ok(is_plan_fault(self.settings.servers, kind, answer));
        };
        let path = path.copy(self.alloc)?;
        let job = PlannedJob {
            stamp: self.next_stamp,
            path,
            region,
            kind,
            base: self.number,
            since: self.jobs.count(),
        };
        self.jobs.add(j, job)?;
        self.next_stamp += 1;
        Ok(true)
    }

    /// Whether a job is stale, as these numbers say: others have installed since it was planned, and have changed its file.
    fn is_stale(&self, job: &PlannedJob, base: u64, now: u64) -> Result<bool, OutOfMemory>
        requires within { job.now.since ≤ length self.now.jobs.changed.items }
        ensures { IfOk result (λ yes. IsTrue yes ↔ MayPut (machine_in self.now)
            (Some (planned_in self.now.jobs.changed.items job.now)) (says.Stale base now)) }
    {
        if base != job.base || now != self.number || base >= now {
            return Ok(false);
        }
        let read = source_reads(self.alloc, &job.path)?;
        Ok(meets(self.jobs.touched(job), read.as_slice()))
    }

    /// Whether what a job made may be put in place so.
    fn may_put(&self, j: u8, answer: &Answer) -> Result<bool, OutOfMemory>
        requires number { self.now.number < 2 ^ 63 }
        ensures { IfOk result (λ yes. IsTrue yes ↔
            MayPut (machine_in self.now) (get (machine_in self.now).jobs j) answer.now) }
    {
        let Some(job) = self.jobs.at(j) else {
            return Ok(is_refused(answer, Word::NoJob));
        };
        match answer {
            Answer::Installed(number) => Ok(*number == self.number + 1),
            Answer::Stale { base, now } => self.is_stale(job, *base, *now),
            _ => Ok(false),
        }
    }

    /// What an install of a job's list changes: the bytes of its file stand elsewhere.
    fn job_changes(&self, j: u8) -> Result<Vec<Item>, OutOfMemory>
        ensures { IfOk result (λ v. v.items ≡
            job_changes (machine_in self.now).now (get (machine_in self.now).jobs j)) }
    {
        let Some(job) = self.jobs.at(j) else {
            return Ok(Vec::new(self.alloc));
        };
        Ok(self.tree.bodies_at(&job.path)?)
    }

    /// What a job made is put in place under a number. The job has ended, and others see what has changed.
    fn put_in_place(&mut self, j: u8, number: u64) -> Result<bool, OutOfMemory>
        ensures lawful { IfOk result (λ yes. yes ≡ true) }
        ensures put { IfOk result (λ yes. machine_in self.new ≡
            put_in_place (machine_in self.old) j (says.Installed number)) }
        ensures err { OnErr result (machine_in self.new ≡ machine_in self.old) }
    {
        let items = self.job_changes(j)?;
        let copy = copy_items(self.alloc, items.as_slice())?;
        self.clients.make_room(items.len())?;
        self.jobs.make_room(copy.len())?;
        self.number = number;
        self.jobs.end(j);
        self.clients.touch(items);
        self.jobs.touch(copy);
        Ok(true)
    }

    /// What a job made is put in place, or is stale.
    pub(crate) fn put(&mut self, j: u8, answer: &Answer) -> Result<bool, OutOfMemory>
        requires number { self.old.number < 2 ^ 63 }
        ensures decides { IfOk result (Decides
            (MayPut (machine_in self.old) (get (machine_in self.old).jobs j) answer.now)
            (machine_in self.old) (put_in_place (machine_in self.old) j answer.now) (machine_in self.new)) }
        ensures err { OnErr result (machine_in self.new ≡ machine_in self.old) }
    {
        let lawful = self.may_put(j, answer)?;
        if !lawful {
            return Ok(false);
        }
        match answer {
            Answer::Installed(number) => return self.put_in_place(j, *number),
            Answer::Stale { .. } => self.jobs.end(j),
            _ => {}
        }
        Ok(true)
    }

    /// A job is dropped.
    pub(crate) fn drop_job(&mut self, j: u8, answer: &Answer) -> bool
        ensures { Decides (answer.now ≡ drop_answer (get (machine_in self.old).jobs j))
            (machine_in self.old) (dropped (machine_in self.old) j answer.now) (machine_in self.new) result }
    {
        if self.jobs.at(j).is_none() {
            return is_refused(answer, Word::NoJob);
        }
        if !is_okay(answer) {
            return false;
        }
        self.jobs.end(j);
        true
    }
}
