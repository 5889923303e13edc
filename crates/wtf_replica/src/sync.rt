//! Bringing all stores' bytes to where they last.

ghost use Rattle.std.specs.Prelude.{◌≡◌, ◌≢◌, ◌<◌, ◌≤◌, ℕ, true, false, [], length, slice_index_or, OnOk, OnErr};
ghost use Rattle.wtf_dev.specs.Each.{EachFollows};
ghost use Rattle.wtf_replica.specs.Downs.{settings_of, is_down, during};
ghost use Rattle.wtf_replica.specs.Outs.{HasRisen, IsLeftDown, IsOut, HasSynced, SameFrom, SameLengths};

use crate::Replicas;
use wtf_dev::{Failed, Shelf, SliceStore};

impl Replicas {
    /// Brings the bytes of all servers' stores to where they last. `Failed` where a server is down or its store failed;
    /// some of the stores may then be synced. Nothing is done to a server that is down, or that the settings do not have.
    pub fn sync_all<S: SliceStore>(&self, shelf: &mut Shelf<S>) -> Result<(), Failed>
        requires shelf { (settings_of self.now).servers ≤ length shelf.old }
        ensures up { OnOk result ((k : ℕ) → k < (settings_of self.now).servers →
            is_down self.now k ≡ false) }
        ensures synced { OnOk result ((k : ℕ) → k < (settings_of self.now).servers →
            HasSynced S.kind shelf.old shelf.new k) }
        ensures cause { OnErr result ((k : ℕ) × (k < (settings_of self.now).servers) ×
            IsOut S.kind (during self.now shelf.old shelf.new) k) }
        ensures down { IsLeftDown (during self.now shelf.old shelf.new) }
        ensures past { SameFrom (settings_of self.now).servers shelf.old shelf.new }
        ensures lengths { SameLengths S.kind shelf.old shelf.new }
        ensures follows { EachFollows S.kind shelf.old shelf.new [] }
    {
        for k in 0..self.settings.servers {
            if !self.try_sync(shelf, k) {
                return Err(Failed);
            }
        }
        Ok(())
    }

    /// Brings the bytes of the stores of all servers that are up to where they last. `Failed` where one of these stores
    /// failed; some of them may then be synced. Nothing is done to a server that is down, or that the settings do not have.
    pub fn sync_up<S: SliceStore>(&self, shelf: &mut Shelf<S>) -> Result<(), Failed>
        requires shelf { (settings_of self.now).servers ≤ length shelf.old }
        ensures synced { OnOk result ((k : ℕ) → k < (settings_of self.now).servers →
            is_down self.now k ≡ false → HasSynced S.kind shelf.old shelf.new k) }
        ensures cause { OnErr result ((k : ℕ) × (k < (settings_of self.now).servers) ×
            (is_down self.now k ≡ false) × HasRisen S.kind shelf.old shelf.new k) }
        ensures down { IsLeftDown (during self.now shelf.old shelf.new) }
        ensures past { SameFrom (settings_of self.now).servers shelf.old shelf.new }
        ensures lengths { SameLengths S.kind shelf.old shelf.new }
        ensures follows { EachFollows S.kind shelf.old shelf.new [] }
    {
        for k in 0..self.settings.servers {
            if !self.sync_if_up(shelf, k) {
                return Err(Failed);
            }
        }
        Ok(())
    }

    /// Syncs the store of one server, unless it is down. False where the store failed.
    fn sync_if_up<S: SliceStore>(&self, shelf: &mut Shelf<S>, k: u8) -> bool
        requires server { k < length shelf.old }
        ensures synced { result ≡ true → is_down self.now k ≡ false →
            HasSynced S.kind shelf.old shelf.new k }
        ensures up { result ≡ false → is_down self.now k ≡ false }
        ensures failed { result ≡ false → HasRisen S.kind shelf.old shelf.new k }
        ensures down { is_down self.now k ≡ true → shelf.new ≡ shelf.old }
        ensures elsewhere { (j : ℕ) (d : S) → j ≢ k →
            slice_index_or shelf.new j d ≡ slice_index_or shelf.old j d }
        ensures lengths { SameLengths S.kind shelf.old shelf.new }
        ensures follows { EachFollows S.kind shelf.old shelf.new [] }
    {
        if self.is_down(k) {
            return true;
        }
        self.try_sync(shelf, k)
    }

    /// Syncs the store of one server. False where it is out.
    fn try_sync<S: SliceStore>(&self, shelf: &mut Shelf<S>, k: u8) -> bool
        requires server { k < length shelf.old }
        ensures up { result ≡ true → is_down self.now k ≡ false }
        ensures synced { result ≡ true → HasSynced S.kind shelf.old shelf.new k }
        ensures out { result ≡ false → IsOut S.kind (during self.now shelf.old shelf.new) k }
        ensures down { is_down self.now k ≡ true → shelf.new ≡ shelf.old }
        ensures elsewhere { (j : ℕ) (d : S) → j ≢ k →
            slice_index_or shelf.new j d ≡ slice_index_or shelf.old j d }
        ensures lengths { SameLengths S.kind shelf.old shelf.new }
        ensures follows { EachFollows S.kind shelf.old shelf.new [] }
    {
        if self.is_down(k) {
            return false;
        }
        shelf.store(k).sync().is_ok()
    }
}
