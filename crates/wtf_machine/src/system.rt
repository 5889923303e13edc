//! Lines of the system: servers, saves, and what is shown of the tree now.

ghost use Rattle.std.specs.Prelude.{◌≡◌, ◌⊎◌, ◌↔◌, ◌<◌, ℕ, false, IsTrue, IfOk, OnErr};
ghost use Rattle.std.specs.FinSet as set;
ghost use Rattle.wtf_model.specs.declared.answer.Answer.TheVariants as says;
ghost use Rattle.wtf_model.specs.Lawful.{server_answer, MaySave, MayFailRead, dump_answer};
ghost use Rattle.wtf_model.specs.Machines.{is_down};
ghost use Rattle.wtf_model.specs.Steps.{with_down, saved};
ghost use Rattle.wtf_model.specs.Tree.{rows_of};
ghost use Rattle.wtf_machine.specs.Kept.{Decides};
ghost use Rattle.wtf_machine.specs.Machines.{machine_in};

use crate::answers::{is_okay, is_refused};
use crate::faults::is_read_fault;
use crate::machine::Machine;
use crate::path_map::PathNode;
use wtf_base::OutOfMemory;
use wtf_model::limits::MAX_DUMPED;
use wtf_model::{Answer, Word};
use wtf_path::Path;

impl Machine {
    /// Whether an answer to a line that takes a server down or up is lawful.
    fn may_set(&self, k: u64, answer: &Answer) -> bool
        ensures { IsTrue result ↔ (answer.now ≡ server_answer (machine_in self.now) k) }
    {
        if k < self.settings.servers as u64 {
            return is_okay(answer);
        }
        is_refused(answer, Word::NoServer)
    }

    /// A server is taken down.
    pub(crate) fn take_down(&mut self, k: u64, answer: &Answer) -> Result<bool, OutOfMemory>
        ensures decides { IfOk result (Decides (answer.now ≡ server_answer (machine_in self.old) k)
            (machine_in self.old)
            (with_down (machine_in self.old) (set.insert (machine_in self.old).down k) answer.now)
            (machine_in self.new)) }
        ensures err { OnErr result (machine_in self.new ≡ machine_in self.old) }
    {
        if !self.may_set(k, answer) {
            return Ok(false);
        }
        if is_okay(answer) {
            self.down.add(k)?;
        }
        Ok(true)
    }

    /// A server is brought up.
    pub(crate) fn bring_up(&mut self, k: u64, answer: &Answer) -> bool
        ensures { Decides (answer.now ≡ server_answer (machine_in self.old) k)
            (machine_in self.old)
            (with_down (machine_in self.old) (set.remove (machine_in self.old).down k) answer.now)
            (machine_in self.new) result }
    {
        if !self.may_set(k, answer) {
            return false;
        }
        if is_okay(answer) {
            self.down.take(k);
        }
        true
    }

    /// Whether no server is down.
    fn is_up(&self) -> bool
        ensures { IsTrue result ↔
            ((k : ℕ) → k < self.now.settings.servers → is_down (machine_in self.now) k ≡ false) }
    {
        let mut k = 0;
        while k < self.settings.servers as u64 {
            if self.down.has(k) {
                return false;
            }
            k += 1;
        }
        true
    }

    /// A save.
    pub(crate) fn save(&mut self, answer: &Answer) -> Result<bool, OutOfMemory>
        ensures decides { IfOk result (Decides (MaySave (machine_in self.old) answer.now)
            (machine_in self.old) (saved (machine_in self.old) answer.now) (machine_in self.new)) }
        ensures err { OnErr result (machine_in self.new ≡ machine_in self.old) }
    {
        match answer {
            Answer::Saved(number) => {
                if *number != self.number || !self.is_up() {
                    return Ok(false);
                }
                let now = self.tree.share()?;
                let mut only = Vec::new(self.alloc);
                only.push(now)?;
                self.may_be_saved = only;
                Ok(true)
            }
            Answer::FaultSave => {
                let now = self.tree.share()?;
                self.may_be_saved.push(now)?;
                Ok(true)
            }
            _ => Ok(false),
        }
    }

    /// Whether an answer to a line that shows a file whole is lawful.
    pub(crate) fn may_dump(&self, path: &Path, answer: &Answer) -> bool
        ensures { IsTrue result ↔ ((answer.now ≡ dump_answer (machine_in self.now) path.now)
            ⊎ MayFailRead self.now.settings.servers (dump_answer (machine_in self.now) path.now) answer.now) }
    {
        let Some(node) = self.tree.node(path) else {
            return is_refused(answer, Word::NoEnt);
        };
        let PathNode::Content(file) = node else {
            return is_refused(answer, Word::IsDir);
        };
        let bytes = file.bytes.as_slice();
        if bytes.len() as u64 > MAX_DUMPED {
            return is_refused(answer, Word::Long);
        }
        if let Answer::Shown(shown) = answer {
            return shown.as_slice() == bytes;
        }
        !bytes.is_empty() && is_read_fault(self.settings.servers, answer)
    }

    /// Whether an answer to a line that shows the tree is lawful.
    pub(crate) fn may_show(&self, answer: &Answer) -> Result<bool, OutOfMemory>
        ensures { IfOk result (λ yes. IsTrue yes ↔
            (answer.now ≡ says.Tree (rows_of (machine_in self.now).now))) }
    {
        let Answer::Tree(shown) = answer else {
            return Ok(false);
        };
        let rows = self.tree.rows()?;
        Ok(*shown == rows)
    }
}
