//! A keeper in memory, whose calls fail where it is told to.

ghost use Rattle.std.specs.Prelude.{◌≡◌, ◌<◌, ℕ, List, [], ◌∷◌, true, Some, IfOk, OnOk, OnErr, IsErrOf};
ghost use Rattle.std.specs.Result.{is_err};
ghost use Rattle.wtf_dev.specs.Counts.{Rose};
ghost use Rattle.wtf_dev.specs.Calls.{uncalled, IsCall, IsGrowth, has_failed};
ghost use Rattle.wtf_dev.specs.Memory.{keeper_view, KeeperFollows};
ghost use Rattle.wtf_dev.specs.MemoryLaws.{keeper_same, keeper_on};

use crate::turns::Turns;
use crate::{Failed, Keeper, LoadFault};
use std::alloc::Global;
use std::marker::Model;

/// A keeper in memory. It tells its content.
#[derive(Drop)]
pub struct MemKeeper {
    alloc: Global,
    bytes: Vec<u8>,
    turns: Turns,
}

impl Model for MemKeeper {
    ghost use Rattle.wtf_dev.specs.Memory.{KeeperState};

    ghost Value = { KeeperState };

    ghost view = { λ m. record { bytes = m.bytes.items; calls = m.turns } };
}

impl MemKeeper {
    /// A keeper that holds these bytes, whose calls with the numbers `fails` fail, counted from 0.
    pub fn new(alloc: Global, bytes: Vec<u8>, fails: Vec<u64>) -> MemKeeper
        ensures value { result ≡ record { bytes = bytes.items; calls = uncalled fails.items } }
        ensures held { (keeper_view result).held ≡ Some bytes.items }
        ensures tells { (keeper_view result).tells ≡ true }
    {
        MemKeeper {
            alloc,
            bytes,
            turns: Turns::new(fails),
        }
    }

    /// The bytes held.
    pub fn held(&self) -> &[u8]
        ensures { result.now ≡ self.now.bytes }
    {
        &self.bytes
    }

    /// How often a growth found no memory.
    pub fn short(&self) -> u64
        ensures { result ≡ self.now.calls.short }
    {
        self.turns.short()
    }
}

impl Keeper for MemKeeper {
    ghost view = { keeper_view };

    ghost follows = { KeeperFollows };

    ghost follows_itself = { keeper_same };

    ghost follows_on = { keeper_on };

    ghost keeps = { λ a b xs f. f.kept };

    fn load(&mut self, alloc: Global) -> Result<Vec<u8>, LoadFault>
        ensures bytes { IfOk result (λ v. (b : List ℕ) → (keeper_view self.old).held ≡ Some b →
            v.items ≡ b) }
        ensures held { (b : List ℕ) → (keeper_view self.old).held ≡ Some b →
            (keeper_view self.new).held ≡ Some b }
        ensures follows { KeeperFollows self.old self.new [] }
        ensures cause { IsErrOf result LoadFault.Failed →
            Rose (keeper_view self.old).faults (keeper_view self.new).faults }

        // It gives what it holds, and keeps it.
        ensures gives { IfOk result (λ v. v.items ≡ self.old.bytes) }
        ensures same { self.new.bytes ≡ self.old.bytes }
        ensures call { IsCall (has_failed result) self.old.calls self.new.calls }
    {
        if let Err(Failed) = self.turns.next() {
            return Err(LoadFault::Failed);
        }
        match self.bytes.to_vec(alloc) {
            Ok(bytes) => Ok(bytes),
            Err(_) => Err(LoadFault::Memory),
        }
    }

    fn replace(&mut self, bytes: &[u8]) -> Result<(), Failed>
        ensures replaced { OnOk result ((keeper_view self.old).tells ≡ true →
            (keeper_view self.new).held ≡ Some bytes.now) }
        ensures follows { KeeperFollows self.old self.new (bytes.now ∷ []) }
        ensures cause { OnErr result
            (Rose (keeper_view self.old).faults (keeper_view self.new).faults) }

        // It then holds these bytes, and after a failure what it held.
        ensures holds { OnOk result (self.new.bytes ≡ bytes.now) }
        ensures same { OnErr result (self.new.bytes ≡ self.old.bytes) }
        ensures call { IsGrowth (is_err result) self.old.calls self.new.calls }
    {
        self.turns.next()?;
        match bytes.to_vec(self.alloc) {
            Ok(next) => {
                self.bytes = next;
                Ok(())
            }
            Err(_) => Err(self.turns.lack()),
        }
    }
}
