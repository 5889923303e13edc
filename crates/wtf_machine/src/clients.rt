//! Open transactions by their clients.

ghost use Rattle.std.specs.Prelude.{◌≡◌, ◌≤◌, ◌+◌, [], List, length, drop, Some, true, false, IfSome, IfOk, OnOk, OnErr, option_copied, vec_len};
ghost use Rattle.std.specs.Vec.{vec_capacity};
ghost use Rattle.std.specs.Prelude.{◌==◌, ◌++◌, map, filter};
ghost use Rattle.std.specs.Option.{option_map};
ghost use Rattle.std.specs.List.{list_any};
ghost use Rattle.std.specs.FinMap.{get, insert, remove, empty, entries, values};
ghost use Rattle.wtf_model.specs.Lawful.{MayCall, MayStep};
ghost use Rattle.wtf_model.specs.Machines.{Machine, is_live, is_full};
ghost use Rattle.wtf_model.specs.Scans.{earlier, first_begun};
ghost use Rattle.wtf_model.specs.declared.item.Item.{Item};
ghost use Rattle.wtf_model.specs.Steps.{touch, with_each};
ghost use Rattle.wtf_model.specs.Transaction.{Transaction};
ghost use Rattle.wtf_machine.specs.Caps.{HaveCap, HaveCap_prop, BeganWithin, BeganWithin_prop};

use crate::begun::{Begun, Verdict};
use crate::path_map::PathMap;
use std::alloc::Global;
use std::collections::BTreeMap;
use wtf_base::{Bytes, OutOfMemory};
use wtf_model::{Answer, Item, Op};

/// Open transactions by their clients. In all of them a file may be as long as `cap`, in bytes. `changed` is what installs have changed,
/// one item after another; a transaction sees of it what came since it began.
#[derive(Drop)]
pub(crate) struct Clients {
    pub(crate) cap: u64,
    pub(crate) changed: Vec<Item>,
    pub(crate) items: BTreeMap<u8, Begun>,
    ghost caps: { HaveCap cap items.entries } by { HaveCap_prop cap items.entries },
    ghost within: { BeganWithin (length changed.items) items.entries } by { BeganWithin_prop (length changed.items) items.entries },
}

impl Clients {
    ghost use Rattle.wtf_machine.specs.Verdicts.{transaction_in, open_in, RunsWith};
    ghost use Rattle.wtf_machine.specs.Kept.{clients_in, Decides, called_in, stepped_in};

    /// No client has a transaction.
    pub(crate) fn new(alloc: Global, cap: u64) -> Clients
        ensures none { clients_in result ≡ empty }
        ensures cap { result.cap ≡ cap }
    {
        Clients {
            cap,
            changed: Vec::new(alloc),
            items: BTreeMap::new(alloc),
        }
    }

    /// The transaction of a client.
    pub(crate) fn at(&self, c: u8) -> Option<&Begun>
        ensures value { option_map (open_in self.now.changed.items) (option_copied result) ≡
            get (clients_in self.now) c }
        ensures cap { IfSome result (λ t. t.now.cap ≡ self.now.cap) }
        ensures within { IfSome result (λ t. t.now.since ≤ length self.now.changed.items) }
    {
        self.items.get(&c)
    }

    /// How many items have been changed.
    pub(crate) fn count(&self) -> usize
        ensures { result ≡ length self.now.changed.items }
    {
        self.changed.as_slice().len()
    }

    /// What others have changed since a transaction began.
    pub(crate) fn touched(&self, t: &Begun) -> &[Item]
        requires { t.now.since ≤ length self.now.changed.items }
        ensures { result.now ≡ drop t.now.since self.now.changed.items }
    {
        let changed = self.changed.as_slice();
        &changed[t.since..]
    }

    /// Room for so many items more that others change. All is as before.
    pub(crate) fn make_room(&mut self, more: usize) -> Result<(), OutOfMemory>
        ensures room { OnOk result (vec_len self.new.changed + more ≤ vec_capacity self.new.changed) }
        ensures stays { clients_in self.new ≡ clients_in self.old }
        ensures cap { self.new.cap ≡ self.old.cap }
    {
        self.changed.reserve(more)?;
        Ok(())
    }

    /// These items have been changed: each open transaction sees it. No memory is taken.
    pub(crate) fn touch(&mut self, items: Vec<Item>)
        requires room { vec_len self.old.changed + vec_len items ≤ vec_capacity self.old.changed }
        ensures is { clients_in self.new ≡ with_each (touch items.items) (clients_in self.old) }
        ensures cap { self.new.cap ≡ self.old.cap }
    {
        let mut more = items;
        let _room = self.changed.append(&mut more);
    }

    /// A client begins a transaction. After an error all is as before.
    pub(crate) fn add(&mut self, c: u8, t: Begun) -> Result<(), OutOfMemory>
        requires cap { t.cap ≡ self.old.cap }
        requires since { t.since ≡ length self.old.changed.items }
        ensures ok { OnOk result (clients_in self.new ≡ insert (clients_in self.old) c (transaction_in t)) }
        ensures err { OnErr result (clients_in self.new ≡ clients_in self.old) }
        ensures cap { self.new.cap ≡ self.old.cap }
    {
        match self.items.insert(c, t) {
            Ok(_) => Ok(()),
            Err(_) => Err(OutOfMemory),
        }
    }

    /// The transaction of a client has ended.
    pub(crate) fn end(&mut self, c: u8)
        ensures gone { clients_in self.new ≡ remove (clients_in self.old) c }
        ensures changed { self.new.changed ≡ self.old.changed }
        ensures cap { self.new.cap ≡ self.old.cap }
    {
        let _ = self.items.remove(&c);
    }

    /// The transaction of a client begins anew on the tree now, after so many installs.
    pub(crate) fn rebase(&mut self, c: u8, number: u64, now: PathMap)
        ensures is { (t : Transaction) → get (clients_in self.old) c ≡ Some t → clients_in self.new ≡
            insert (clients_in self.old) c (record t { base = number; tree = now; replayed = 0; touched = [] }) }
        ensures cap { self.new.cap ≡ self.old.cap }
    {
        let since = self.count();
        let Some(t) = self.items.get_mut(&c) else {
            return;
        };
        t.rebase(number, since, now);
    }

    /// Whether an answer to a call of a client is lawful, whose transaction is live with room in its log.
    pub(crate) fn call(
        &mut self,
        c: u8,
        servers: u8,
        op: &Op<Bytes>,
        answer: &Answer,
    ) -> Result<bool, OutOfMemory>
        requires { (t : Transaction) → get (clients_in self.old) c ≡ Some t →
            (is_live t ≡ true) × (is_full t ≡ false) }
        ensures decides { (t : Transaction) → get (clients_in self.old) c ≡ Some t →
            IfOk result (λ yes. (m : Machine) → RunsWith self.old.cap servers m →
            Decides (MayCall m t op.now answer.now) (clients_in self.old)
            (called_in (clients_in self.old) c t op.now answer.now) (clients_in self.new) yes) }
        ensures err { OnErr result (clients_in self.new ≡ clients_in self.old) }
        ensures cap { self.new.cap ≡ self.old.cap }
    {
        let Some(t) = self.items.get_mut(&c) else {
            return Ok(false);
        };
        t.call(servers, op, answer)
    }

    /// Whether an answer to a step of a client's replay is lawful, which has not come to its end.
    pub(crate) fn step(&mut self, c: u8, servers: u8, answer: &Answer) -> Result<bool, OutOfMemory>
        requires { (t : Transaction) → get (clients_in self.old) c ≡ Some t → is_live t ≡ false }
        ensures decides { (t : Transaction) → get (clients_in self.old) c ≡ Some t →
            IfOk result (λ yes. (m : Machine) → RunsWith self.old.cap servers m →
            Decides (MayStep m t answer.now) (clients_in self.old)
            (stepped_in (clients_in self.old) c t answer.now) (clients_in self.new) yes) }
        ensures err { OnErr result (clients_in self.new ≡ clients_in self.old) }
        ensures cap { self.new.cap ≡ self.old.cap }
    {
        let Some(t) = self.items.get_mut(&c) else {
            return Ok(false);
        };
        let verdict = t.step(servers, answer)?;
        match verdict {
            Verdict::Unlawful => return Ok(false),
            Verdict::Goes => return Ok(true),
            Verdict::Ends => self.end(c),
        }
        Ok(true)
    }

    /// Adds the stamps of all open transactions to a list, in the order of their clients.
    pub(crate) fn stamps(&self, into: &mut Vec<u64>) -> Result<(), OutOfMemory>
        ensures { OnOk result (into.new.items ≡
            into.old.items ++ map (λ t. t.stamp) (values (clients_in self.now))) }
    {
        let mut rest = self.items.iter();
        while let Some((_, t)) = rest.next() {
            into.push(t.stamp)?;
        }
        Ok(())
    }

    /// Of two clients the one whose transaction began first.
    fn earlier<'a>(c: u8, t: &'a Begun, other: Option<(u8, &'a Begun)>) -> (u8, &'a Begun)
        ensures { (changed : List Item) → (result.0, open_in changed result.1.now) ≡
            earlier (c, open_in changed t.now)
            (option_map (λ p. (p.0, open_in changed p.1.now)) other.entry) }
    {
        match other {
            Some((d, u)) if u.stamp < t.stamp => (d, u),
            _ => (c, t),
        }
    }

    /// Of the clients whose transactions have a stamp among these, the one that began first.
    pub(crate) fn first_begun(&self, noted: &[u64]) -> Option<u8>
        ensures { result ≡ option_map (λ t. t.0) (first_begun
            (filter (λ t. list_any (λ s. s == t.1.stamp) noted.now) (entries (clients_in self.now)))) }
    {
        let mut first = None;
        let mut rest = self.items.iter();
        while let Some((c, t)) = rest.next_back() {
            if noted.contains(&t.stamp) {
                first = Some(Clients::earlier(*c, t, first));
            }
        }
        let (c, _) = first?;
        Some(c)
    }
}
