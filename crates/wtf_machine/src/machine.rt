//! The machine.

ghost use Rattle.std.specs.Prelude.{◌≡◌, ◌↔◌, ◌<◌, ◌*◌, ◌^◌, false, IsTrue, IfOk, OnErr, Some};
ghost use Rattle.std.specs.FinMap.{get};
ghost use Rattle.wtf_model.specs.Form.{IsFormEvent};
ghost use Rattle.wtf_model.specs.Tree.{root_alone};
ghost use Rattle.wtf_model.specs.Lawful.{MayClient, client_refusal};
ghost use Rattle.wtf_model.specs.Steps.{May, start, after, after_client};
ghost use Rattle.wtf_model.specs.Transaction.{Transaction};

use crate::answers::is_refused;
use crate::clients::Clients;
use crate::downs::Downs;
use crate::jobs::Jobs;
use crate::path_map::PathMap;
use std::alloc::Global;
use wtf_base::{OutOfMemory, Settings};
use wtf_model::{Answer, Event, Verb, Word};

/// A machine that says which answers are lawful, and goes on with those. Contracts see it as the machine of the definitions.
#[derive(Drop)]
pub struct Machine {
    pub(crate) alloc: Global,
    pub(crate) settings: Settings,
    pub(crate) number: u64,
    pub(crate) tree: PathMap,
    pub(crate) next_stamp: u64,
    pub(crate) clients: Clients,
    pub(crate) jobs: Jobs,
    pub(crate) scan_list: Vec<u64>,
    pub(crate) parts_left: Option<u8>,
    pub(crate) scans: u64,
    pub(crate) down: Downs,
    pub(crate) may_be_saved: Vec<PathMap>,
    ghost cap_is: { clients.cap ≡ 4096 * settings.region },
}

impl Machine {
    ghost use Rattle.wtf_machine.specs.Kept.{Decides};
    ghost use Rattle.wtf_machine.specs.Machines.{machine_in};

    /// The machine before the first event, with the root alone, after so many installs.
    pub fn new(alloc: Global, settings: Settings, number: u64) -> Result<Machine, OutOfMemory>
        ensures { IfOk result (λ m. machine_in m ≡ start settings number root_alone) }
    {
        let tree = PathMap::with_root(alloc)?;
        let saved = tree.share()?;
        let mut may_be_saved = Vec::new(alloc);
        may_be_saved.push(saved)?;
        Ok(Machine {
            alloc,
            settings,
            number,
            tree,
            next_stamp: 0,
            clients: Clients::new(alloc, settings.cap()),
            jobs: Jobs::new(alloc),
            scan_list: Vec::new(alloc),
            parts_left: None,
            scans: 0,
            down: Downs::new(alloc),
            may_be_saved,
        })
    }

    /// Why the machine itself refuses a client's line.
    fn client_refusal(&self, c: u8, verb: &Verb) -> Option<Word>
        ensures { result ≡ client_refusal (get (machine_in self.now).transactions c) verb.now }
    {
        let Some(t) = self.clients.at(c) else {
            return match verb {
                Verb::Begin => None,
                _ => Some(Word::NoTx),
            };
        };
        let live = t.is_live();
        match verb {
            Verb::Begin => Some(Word::InTx),
            Verb::Try => { if live { None } else { Some(Word::Replaying) } }
            Verb::Step => { if live { Some(Word::Live) } else { None } }
            Verb::Commit => None,
            Verb::Abort => None,
            Verb::Call(_) => {
                if !live {
                    return Some(Word::Replaying);
                }
                if t.is_full() {
                    return Some(Word::Full);
                }
                None
            }
        }
    }

    /// Whether an answer to a client's line is lawful.
    fn client(&mut self, c: u8, verb: &Verb, answer: &Answer) -> Result<bool, OutOfMemory>
        requires number { self.old.number < 2 ^ 63 }
        requires stamps { self.old.next_stamp < 2 ^ 63 }
        ensures decides { IfOk result (Decides
            (MayClient (machine_in self.old) (get (machine_in self.old).transactions c) verb.now answer.now)
            (machine_in self.old)
            (after_client (machine_in self.old) c (get (machine_in self.old).transactions c) verb.now answer.now)
            (machine_in self.new)) }
        ensures err { OnErr result (machine_in self.new ≡ machine_in self.old) }
    {
        if let Some(why) = self.client_refusal(c, verb) {
            return Ok(is_refused(answer, why));
        }
        match verb {
            Verb::Begin => self.begin(c, answer),
            Verb::Try => self.attempt(c, answer),
            Verb::Step => self.replay(c, answer),
            Verb::Commit => self.commit(c, answer),
            Verb::Abort => Ok(self.abort(c, answer)),
            Verb::Call(op) => self.call(c, op, answer),
        }
    }

    /// Whether an answer to an event is lawful.
    fn line(&mut self, event: &Event, answer: &Answer) -> Result<bool, OutOfMemory>
        requires number { self.old.number < 2 ^ 63 }
        requires stamps { self.old.next_stamp < 2 ^ 63 }
        requires scans { self.old.scans < 2 ^ 63 }
        ensures decides { IfOk result (Decides (May (machine_in self.old) event.now answer.now)
            (machine_in self.old) (after (machine_in self.old) event.now answer.now) (machine_in self.new)) }
        ensures err { OnErr result (machine_in self.new ≡ machine_in self.old) }
    {
        match event {
            Event::Client(c, verb) => self.client(*c, verb, answer),
            Event::Down(k) => self.take_down(*k, answer),
            Event::Up(k) => Ok(self.bring_up(*k, answer)),
            Event::Save => self.save(answer),
            Event::Dump(path) => Ok(self.may_dump(path, answer)),
            Event::Tree => self.may_show(answer),
            Event::Plan {
                job,
                kind,
                path,
                region,
            } => self.plan(*job, *kind, path, *region, answer),
            Event::Put(job) => self.put(*job, answer),
            Event::DropJob(job) => Ok(self.drop_job(*job, answer)),
            Event::Scan => self.scan(answer),
            Event::Piece(parts) => Ok(self.piece(*parts, answer)),
            Event::Collect(k) => Ok(self.may_collect(*k, answer)),
        }
    }

    /// Whether the answer is one that the machine may give to the event; then it is the machine behind it, and else, and where
    /// memory could not be had, it is as before.
    pub fn step(&mut self, event: &Event, answer: &Answer) -> Result<bool, OutOfMemory>
        requires form { IsFormEvent event.now }
        requires number { (machine_in self.old).number < 2 ^ 63 }
        requires stamps { (machine_in self.old).next_stamp < 2 ^ 63 }
        requires scans { (machine_in self.old).scans < 2 ^ 63 }
        ensures lawful { IfOk result (λ yes. IsTrue yes ↔ May (machine_in self.old) event.now answer.now) }
        ensures next { IfOk result (λ yes. IsTrue yes →
            machine_in self.new ≡ after (machine_in self.old) event.now answer.now) }
        ensures stays { IfOk result (λ yes. yes ≡ false → machine_in self.new ≡ machine_in self.old) }
        ensures err { OnErr result (machine_in self.new ≡ machine_in self.old) }
    {
        self.line(event, answer)
    }
}
