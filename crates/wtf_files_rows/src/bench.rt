//! A transaction on a store whose tree is the root alone at first, over two servers in memory.

ghost use Rattle.std.specs.Prelude.{◌≡◌, [], IfOk, OnOk, List};
ghost use Rattle.wtf_dev.specs.Memory.{StoreState};
ghost use Rattle.wtf_base.specs.declared.settings.Settings.{Settings};
ghost use Rattle.wtf_meta.specs.Maps.{metadata_at};
ghost use Rattle.wtf_replay.specs.Fits.{IsFit};
ghost use Rattle.wtf_files_rows.specs.Benches.{IsBareMap, IsTxnHeld};

use crate::ops::{Step, form_op};
use crate::store::{Parts, made_parts, path};
use crate::texts::is_text;
use std::alloc::Global;
use std::marker::Model;
use std::mem;
use std::test::Fail;
use wtf_base::{Fault, TxId};
use wtf_kv::Kv;
use wtf_model::Answer;
use wtf_region::Dev;
use wtf_replay::Txn;
use wtf_values::{Key, NameSet, Node, Value};

/// What is done with a transaction.
#[derive(Clone, Copy)]
pub(crate) enum Verb {
    Call(Step),
    Step,
    Commit,
    Try,
    /// Drops it, and begins another one of this number.
    Next(u64),
    /// Begins another one of this number, then commits and drops the one that runs; the other one
    /// goes on in its place, at the number before that commit.
    Overtake(u64),
}

/// A transaction, with the store of versions and the servers that it is lent. What its calls ask of
/// these holds at every moment, so no call on a bench asks for it.
#[derive(Drop)]
pub(crate) struct Bench {
    alloc: Global,
    parts: Parts,
    kv: Kv<Key, Value>,
    txn: Txn,
}

impl Model for Bench {
    ghost use Rattle.std.specs.Prelude.{ℕ};
    ghost use Rattle.wtf_files_rows.specs.Benches.{IsTxnLent, IsTxnHeld};

    ghost Value = { ℕ };

    ghost view = { λ b. b.kv.number };

    ghost invariant = { λ b.
        IsTxnLent b.parts.shelf b.parts.replicas b.parts.ring b.parts.cache b.parts.settings ×
        IsTxnHeld b.parts.shelf b.parts.settings b.kv b.txn };
}

/// Puts the root alone into a store with nothing in it.
fn root_seeded(alloc: Global, kv: &mut Kv<Key, Value>) -> Result<(), Fail>
    requires { kv.old ≡ record { number = 0; pins = []; cells = [] } }
    ensures { OnOk result (IsBareMap (metadata_at kv.new kv.new.number)) }
{
    let root = path(alloc, "/")?;
    kv.seed(Key::Path(root), Value::Node(Node::Folder))?;
    let root = path(alloc, "/")?;
    kv.seed(Key::Dir(root), Value::Names(NameSet::new(alloc)))?;
    Ok(())
}

/// The root alone, at number 0.
fn root_alone(alloc: Global) -> Result<Kv<Key, Value>, Fail>
    ensures { IfOk result (λ kv. IsBareMap (metadata_at kv kv.number)) }
{
    let mut kv: Kv<Key, Value> = Kv::new(alloc)?;
    root_seeded(alloc, &mut kv)?;
    Ok(kv)
}

/// The transaction 1 on the root alone.
fn begun(alloc: Global) -> Result<(Kv<Key, Value>, Txn), Fail>
    ensures fit { IfOk result (λ r. IsFit r.0 r.1) }
    ensures held { IfOk result (λ r.
        (shelf : List StoreState) (settings : Settings) → IsTxnHeld shelf settings r.0 r.1) }
{
    let mut kv = root_alone(alloc)?;
    let txn = Txn::begin(alloc, &mut kv, TxId(1))?;
    Ok((kv, txn))
}

/// Whether the base of a transaction is pinned once it is dropped.
pub(crate) fn is_pinned_after(alloc: Global) -> Result<bool, Fail> {
    let (mut kv, txn) = begun(alloc)?;
    let number = kv.number();
    txn.drop_all(&mut kv);
    Ok(kv.is_pinned(number))
}

impl Bench {
    /// The transaction 1 on the root alone. Each store fails in the call with the number `fails`.
    pub(crate) fn new(alloc: Global, fails: u64) -> Result<Bench, Fail> {
        let parts = made_parts(alloc, fails, 2)?;
        let (kv, txn) = begun(alloc)?;
        Ok(Bench {
            alloc,
            parts,
            kv,
            txn,
        })
    }

    fn call(&mut self, step: Step) -> Result<Result<Answer, Fault>, Fail> {
        if self.txn.ended() {
            return Err(Fail::from("it has ended"));
        }
        let op = form_op(self.alloc, step)?;
        let mut dev = Dev {
            shelf: &mut self.parts.shelf,
            replicas: &self.parts.replicas,
            ring: &self.parts.ring,
            cache: &mut self.parts.cache,
            settings: self.parts.settings,
        };
        let came = self.txn.call(&mut dev, &self.kv, op);
        Ok(came)
    }

    fn step(&mut self) -> Result<Result<Answer, Fault>, Fail> {
        if self.txn.ended() {
            return Err(Fail::from("it has ended"));
        }
        let mut dev = Dev {
            shelf: &mut self.parts.shelf,
            replicas: &self.parts.replicas,
            ring: &self.parts.ring,
            cache: &mut self.parts.cache,
            settings: self.parts.settings,
        };
        let came = self.txn.step(&mut dev, &self.kv);
        Ok(came)
    }

    fn commit(&mut self) -> Result<Result<Answer, Fault>, Fail> {
        if self.txn.ended() || self.kv.number() > 1000 {
            return Err(Fail::from("it has ended, or there are too many installs"));
        }
        let mut dev = Dev {
            shelf: &mut self.parts.shelf,
            replicas: &self.parts.replicas,
            ring: &self.parts.ring,
            cache: &mut self.parts.cache,
            settings: self.parts.settings,
        };
        let came = self.txn.commit(&mut dev, &mut self.kv);
        Ok(came)
    }

    fn attempt(&mut self) -> Result<Result<Answer, Fault>, Fail> {
        if self.txn.ended() || self.kv.number() > 1000 {
            return Err(Fail::from("it has ended, or there are too many installs"));
        }
        let answer = self.txn.attempt(&mut self.kv)?;
        Ok(Ok(answer))
    }

    fn next(&mut self, tx: u64) -> Result<Result<Answer, Fault>, Fail> {
        let next = Txn::begin(self.alloc, &mut self.kv, TxId(tx))?;
        let last = mem::replace(&mut self.txn, next);
        last.drop_all(&mut self.kv);
        Ok(Ok(Answer::Okay))
    }

    fn overtake(&mut self, tx: u64) -> Result<Result<Answer, Fault>, Fail> {
        if self.txn.ended() || self.kv.number() > 1000 {
            return Err(Fail::from("it has ended, or there are too many installs"));
        }
        let next = Txn::begin(self.alloc, &mut self.kv, TxId(tx))?;
        let mut dev = Dev {
            shelf: &mut self.parts.shelf,
            replicas: &self.parts.replicas,
            ring: &self.parts.ring,
            cache: &mut self.parts.cache,
            settings: self.parts.settings,
        };
        let came = self.txn.commit(&mut dev, &mut self.kv);
        let last = mem::replace(&mut self.txn, next);
        last.drop_all(&mut self.kv);
        Ok(came)
    }

    /// What comes of a verb.
    fn came(&mut self, verb: Verb) -> Result<Result<Answer, Fault>, Fail> {
        match verb {
            Verb::Call(step) => self.call(step),
            Verb::Step => self.step(),
            Verb::Commit => self.commit(),
            Verb::Try => self.attempt(),
            Verb::Next(tx) => self.next(tx),
            Verb::Overtake(tx) => self.overtake(tx),
        }
    }

    /// How many verbs come as they should, before the first that does not.
    pub(crate) fn come(&mut self, rows: &[(Verb, &str)]) -> Result<usize, Fail> {
        let mut same = 0usize;
        for (verb, want) in rows {
            let came = self.came(*verb)?;
            if !is_text(self.alloc, came, *want)? {
                return Ok(same);
            }
            same = same.saturating_add(1);
        }
        Ok(same)
    }
}
