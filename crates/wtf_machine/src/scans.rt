//! Lines of scans and collections.

ghost use Rattle.std.specs.Prelude.{◌≡◌, ◌⊎◌, ◌↔◌, ◌<◌, ◌^◌, MatchOption, IsTrue, IfOk, OnErr};
ghost use Rattle.wtf_model.specs.declared.answer.Answer.TheVariants as says;
ghost use Rattle.wtf_model.specs.Faults.{IsReadFault};
ghost use Rattle.wtf_model.specs.Scans.{open_stamps, held_by, scan_answer};
ghost use Rattle.wtf_model.specs.Scans.{piece_answer, MayFailPiece, collect_refusal, MayCollect};
ghost use Rattle.wtf_model.specs.Steps.{scanning, scanned};
ghost use Rattle.wtf_machine.specs.Kept.{Decides};
ghost use Rattle.wtf_machine.specs.Machines.{machine_in};

use crate::answers::is_refused;
use crate::faults::is_read_fault;
use crate::machine::Machine;
use wtf_base::OutOfMemory;
use wtf_model::limits::SCAN_PARTS;
use wtf_model::{Answer, Holder, Word};

/// Whether an answer tells that a scan is held back by this.
fn is_held(answer: &Answer, holder: Holder) -> bool
    ensures { IsTrue result ↔ (answer.now ≡ says.Held holder) }
{
    match answer {
        Answer::Held(it) => *it == holder,
        _ => false,
    }
}

impl Machine {
    /// What holds a scan back: of all that was open when the last one began and still is, the
    /// client whose transaction began first; where only jobs are left, the lowest label.
    fn held_by(&self) -> Option<Holder>
        ensures { result ≡ held_by (machine_in self.now) }
    {
        if let Some(c) = self.clients.first_begun(self.scan_list.as_slice()) {
            return Some(Holder::Client(c));
        }
        let j = self.jobs.lowest(self.scan_list.as_slice())?;
        Some(Holder::Job(j))
    }

    /// The stamps of all transactions and jobs that are open.
    fn open_stamps(&self) -> Result<Vec<u64>, OutOfMemory>
        ensures { IfOk result (λ stamps. stamps.items ≡ open_stamps (machine_in self.now)) }
    {
        let mut stamps = Vec::new(self.alloc);
        self.clients.stamps(&mut stamps)?;
        self.jobs.stamps(&mut stamps)?;
        Ok(stamps)
    }

    /// A scan begins, or is held back.
    pub(crate) fn scan(&mut self, answer: &Answer) -> Result<bool, OutOfMemory>
        ensures decides { IfOk result (Decides (answer.now ≡ scan_answer (machine_in self.old))
            (machine_in self.old) (scanning (machine_in self.old) answer.now) (machine_in self.new)) }
        ensures err { OnErr result (machine_in self.new ≡ machine_in self.old) }
    {
        if self.parts_left.is_some() {
            return Ok(is_refused(answer, Word::ScanBusy));
        }
        if let Some(holder) = self.held_by() {
            return Ok(is_held(answer, holder));
        }
        let Answer::Scanning = answer else {
            return Ok(false);
        };
        let open = self.open_stamps()?;
        self.scan_list = open;
        self.parts_left = Some(SCAN_PARTS);
        Ok(true)
    }

    /// So many parts of a scan are left.
    fn go_on(&mut self, left: u8, answer: &Answer) -> bool
        ensures { Decides
            ((answer.now ≡ says.More left) ⊎ IsReadFault self.old.settings.servers answer.now)
            (machine_in self.old) (scanned (machine_in self.old) answer.now) (machine_in self.new) result }
    {
        let Answer::More(told) = answer else {
            return is_read_fault(self.settings.servers, answer);
        };
        if *told != left {
            return false;
        }
        self.parts_left = Some(left);
        true
    }

    /// All parts of a scan are done.
    fn finish(&mut self, answer: &Answer) -> bool
        requires scans { self.old.scans < 2 ^ 63 }
        ensures { Decides
            ((answer.now ≡ says.Done) ⊎ IsReadFault self.old.settings.servers answer.now)
            (machine_in self.old) (scanned (machine_in self.old) answer.now) (machine_in self.new) result }
    {
        let Answer::Done = answer else {
            return is_read_fault(self.settings.servers, answer);
        };
        self.parts_left = None;
        self.scans += 1;
        true
    }

    /// The next parts of a scan.
    pub(crate) fn piece(&mut self, k: u8, answer: &Answer) -> bool
        requires scans { self.old.scans < 2 ^ 63 }
        ensures { Decides
            ((answer.now ≡ piece_answer k (machine_in self.old).parts_left)
            ⊎ MayFailPiece self.old.settings.servers (piece_answer k (machine_in self.old).parts_left) answer.now)
            (machine_in self.old) (scanned (machine_in self.old) answer.now) (machine_in self.new) result }
    {
        let Some(left) = self.parts_left else {
            return is_refused(answer, Word::NoScan);
        };
        if k < left {
            return self.go_on(left - k, answer);
        }
        self.finish(answer)
    }

    /// Whether an answer to a collection on a server is lawful.
    pub(crate) fn may_collect(&self, k: u64, answer: &Answer) -> bool
        ensures { IsTrue result ↔ MatchOption (collect_refusal (machine_in self.now) k)
            (MayCollect k answer.now) (λ w. answer.now ≡ says.Refused w) }
    {
        if k >= self.settings.servers as u64 {
            return is_refused(answer, Word::NoServer);
        }
        if self.scans < 2 {
            return is_refused(answer, Word::NoScan);
        }
        match answer {
            Answer::Collected(_) => true,
            Answer::FaultPunch(server) => *server as u64 == k,
            _ => false,
        }
    }
}
