//! The lines of a client that the machine itself does not refuse.

ghost use Rattle.std.specs.Prelude.{◌≡◌, ◌<◌, ◌+◌, ◌^◌, Some, true, false, IfOk, OnErr};
ghost use Rattle.std.specs.FinMap.{get, remove};
ghost use Rattle.wtf_model.specs.declared.answer.Answer.TheVariants as says;
ghost use Rattle.wtf_model.specs.Lawful.{MayTry, MayStep, MayCommit, MayCall};
ghost use Rattle.wtf_model.specs.Machines.{is_live, is_full};
ghost use Rattle.wtf_model.specs.Steps.{begun, tried, stepped, committed, aborted, called, touching};
ghost use Rattle.wtf_model.specs.Transaction.{Transaction};
ghost use Rattle.wtf_machine.specs.Verdicts.{IsFate};
ghost use Rattle.wtf_machine.specs.Kept.{Decides};
ghost use Rattle.wtf_machine.specs.Machines.{machine_in, is_lawful, settled};

use crate::answers::is_okay;
use crate::begun::{Begun, Fate};
use crate::items::copy_items;
use crate::machine::Machine;
use crate::path_map::PathMap;
use wtf_base::{Bytes, OutOfMemory};
use wtf_model::{Answer, Item, Op};

impl Machine {
    /// A client without a transaction begins one.
    pub(crate) fn begin(&mut self, c: u8, answer: &Answer) -> Result<bool, OutOfMemory>
        requires stamps { self.old.next_stamp < 2 ^ 63 }
        ensures decides { IfOk result (Decides (answer.now ≡ says.Begun self.old.number)
            (machine_in self.old) (begun (machine_in self.old) c answer.now) (machine_in self.new)) }
        ensures err { OnErr result (machine_in self.new ≡ machine_in self.old) }
    {
        let Answer::Begun(number) = answer else {
            return Ok(false);
        };
        if *number != self.number {
            return Ok(false);
        }
        let tree = self.tree.share()?;
        let t = Begun::new(
            self.alloc,
            self.clients.cap,
            self.next_stamp,
            self.number,
            self.clients.count(),
            tree,
        );
        self.clients.add(c, t)?;
        self.next_stamp += 1;
        Ok(true)
    }

    /// The calls of a client's transaction are installed: this is the tree from now on, and the transaction has ended. Others see
    /// that these items have changed.
    fn install(&mut self, c: u8, tree: PathMap, items: Vec<Item>) -> Result<bool, OutOfMemory>
        requires number { self.old.number < 2 ^ 63 }
        ensures lawful { IfOk result (λ yes. yes ≡ true) }
        ensures installed { IfOk result (λ yes. machine_in self.new ≡
            touching (record (machine_in self.old) {
              number = (machine_in self.old).number + 1;
              now = tree;
              transactions = remove (machine_in self.old).transactions c;
            }) items.items) }
        ensures err { OnErr result (machine_in self.new ≡ machine_in self.old) }
    {
        let copy = copy_items(self.alloc, items.as_slice())?;
        self.clients.make_room(items.len())?;
        self.jobs.make_room(copy.len())?;
        self.number += 1;
        self.tree = tree;
        self.clients.end(c);
        self.clients.touch(items);
        self.jobs.touch(copy);
        Ok(true)
    }

    /// What an attempt to commit came to is done.
    fn settle(&mut self, c: u8, fate: Fate) -> Result<bool, OutOfMemory>
        requires number { self.old.number < 2 ^ 63 }
        ensures lawful { IfOk result (λ yes. yes ≡ is_lawful fate) }
        ensures settled { (t : Transaction) → get (machine_in self.old).transactions c ≡ Some t →
            IfOk result (λ yes. machine_in self.new ≡ settled (machine_in self.old) c t fate) }
        ensures err { OnErr result (machine_in self.new ≡ machine_in self.old) }
    {
        match fate {
            Fate::Unlawful => return Ok(false),
            Fate::Stays => return Ok(true),
            Fate::Ends => self.clients.end(c),
            Fate::Rebases => {
                let now = self.tree.share()?;
                self.clients.rebase(c, self.number, now);
            }
            Fate::Installs(tree, items) => return self.install(c, tree, items),
        }
        Ok(true)
    }

    /// What a client's attempt to commit comes to.
    fn fate(&self, c: u8, answer: &Answer) -> Result<Fate, OutOfMemory>
        ensures { (t : Transaction) → get (machine_in self.now).transactions c ≡ Some t →
            IfOk result (IsFate (MayTry (machine_in self.now) t answer.now) (machine_in self.now) t answer.now) }
    {
        let Some(t) = self.clients.at(c) else {
            return Ok(Fate::Unlawful);
        };
        let seen = self.clients.touched(t);
        t.attempt(self.number, &self.tree, seen, answer)
    }

    /// A client's attempt to commit.
    pub(crate) fn attempt(&mut self, c: u8, answer: &Answer) -> Result<bool, OutOfMemory>
        requires number { self.old.number < 2 ^ 63 }
        ensures decides { (t : Transaction) → get (machine_in self.old).transactions c ≡ Some t →
            IfOk result (Decides (MayTry (machine_in self.old) t answer.now)
            (machine_in self.old) (tried (machine_in self.old) c t answer.now) (machine_in self.new)) }
        ensures err { OnErr result (machine_in self.new ≡ machine_in self.old) }
    {
        let fate = self.fate(c, answer)?;
        self.settle(c, fate)
    }

    /// What a client's commit by a replay of all calls comes to.
    fn replayed_fate(&self, c: u8, answer: &Answer) -> Result<Fate, OutOfMemory>
        ensures { (t : Transaction) → get (machine_in self.now).transactions c ≡ Some t →
            IfOk result (IsFate (MayCommit (machine_in self.now) t answer.now) (machine_in self.now) t answer.now) }
    {
        let Some(t) = self.clients.at(c) else {
            return Ok(Fate::Unlawful);
        };
        t.commit(self.settings.servers, self.number, &self.tree, answer)
    }

    /// A client's commit by a replay of all calls.
    pub(crate) fn commit(&mut self, c: u8, answer: &Answer) -> Result<bool, OutOfMemory>
        requires number { self.old.number < 2 ^ 63 }
        ensures decides { (t : Transaction) → get (machine_in self.old).transactions c ≡ Some t →
            IfOk result (Decides (MayCommit (machine_in self.old) t answer.now)
            (machine_in self.old) (committed (machine_in self.old) c t answer.now) (machine_in self.new)) }
        ensures err { OnErr result (machine_in self.new ≡ machine_in self.old) }
    {
        let fate = self.replayed_fate(c, answer)?;
        self.settle(c, fate)
    }

    /// A step of a replay that has not come to its end.
    pub(crate) fn replay(&mut self, c: u8, answer: &Answer) -> Result<bool, OutOfMemory>
        requires { (t : Transaction) → get (machine_in self.old).transactions c ≡ Some t → is_live t ≡ false }
        ensures decides { (t : Transaction) → get (machine_in self.old).transactions c ≡ Some t →
            IfOk result (Decides (MayStep (machine_in self.old) t answer.now)
            (machine_in self.old) (stepped (machine_in self.old) c t answer.now) (machine_in self.new)) }
        ensures err { OnErr result (machine_in self.new ≡ machine_in self.old) }
    {
        self.clients.step(c, self.settings.servers, answer)
    }

    /// A client gives its transaction up.
    pub(crate) fn abort(&mut self, c: u8, answer: &Answer) -> bool
        ensures { Decides (answer.now ≡ says.Okay)
            (machine_in self.old) (aborted (machine_in self.old) c answer.now) (machine_in self.new) result }
    {
        if !is_okay(answer) {
            return false;
        }
        self.clients.end(c);
        true
    }

    /// A call of a transaction that is live, whose log has room.
    pub(crate) fn call(
        &mut self,
        c: u8,
        op: &Op<Bytes>,
        answer: &Answer,
    ) -> Result<bool, OutOfMemory>
        requires { (t : Transaction) → get (machine_in self.old).transactions c ≡ Some t →
            (is_live t ≡ true) × (is_full t ≡ false) }
        ensures decides { (t : Transaction) → get (machine_in self.old).transactions c ≡ Some t →
            IfOk result (Decides (MayCall (machine_in self.old) t op.now answer.now)
            (machine_in self.old) (called (machine_in self.old) c t op.now answer.now) (machine_in self.new)) }
        ensures err { OnErr result (machine_in self.new ≡ machine_in self.old) }
    {
        self.clients.call(c, self.settings.servers, op, answer)
    }
}
