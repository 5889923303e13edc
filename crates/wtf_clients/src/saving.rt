//! Saving: the bytes of all stores are brought to where they last, and then the image of the
//! metadata is handed to the keeper.

ghost use Rattle.std.specs.Prelude.{◌≡◌, ◌≤◌, [], length, IfOk, OnErr};
ghost use Rattle.wtf_dev.specs.Counts.{Rose};
ghost use Rattle.wtf_dev.specs.Each.{EachFollows};
ghost use Rattle.wtf_replica.specs.Downs.{settings_of, during};
ghost use Rattle.wtf_model.specs.declared.event.Event.TheVariants as event;
ghost use Rattle.wtf_meta.specs.Bytes.{any_slice};
ghost use Rattle.wtf_region.specs.Cached.{Remembered};
ghost use Rattle.wtf_region.specs.Inside.{is_inside};
ghost use Rattle.wtf_clients.specs.Named.{TablesBytes};
ghost use Rattle.wtf_clients.specs.Asked.{lending};
ghost use Rattle.wtf_clients.specs.Leaving.{LeavesAlone};
ghost use Rattle.wtf_clients.specs.Serves.{ServesEvent};
ghost use Rattle.wtf_clients.specs.Saves.{AreUp, SaveTurn};
ghost use Rattle.wtf_clients.specs.Keeping.{KeeperTurn, keeper_span};

use crate::tables::Tables;
use wtf_base::{OutOfMemory, Settings};
use wtf_dev::{Keeper, Shelf, SliceStore};
use wtf_model::Answer;
use wtf_replica::Replicas;

impl Tables {
    /// Saves the tree as it stands. All memory is taken before the first sync. Where a sync fails
    /// nothing is handed to the keeper. Where the keeper fails it may hold the new image, or what
    /// it held: so the new one is kept beside the others.
    pub fn save<S: SliceStore, K: Keeper>(
        &mut self,
        replicas: &Replicas,
        settings: Settings,
        shelf: &mut Shelf<S>,
        keeper: &mut K,
    ) -> Result<Answer, OutOfMemory>
        requires settings { settings_of replicas.now ≡ settings }
        requires shelf { settings.servers ≤ length shelf.old }
        requires inside { TablesBytes (is_inside S.kind shelf.old settings) any_slice self.old }
        ensures turn { IfOk result (SaveTurn (AreUp replicas.now settings.servers)
            self.old self.new) }
        ensures serves { IfOk result (λ a. (lists : Remembered) → ServesEvent S.kind
            (during replicas.now shelf.old shelf.new) (lending settings lists lists)
            (Rose (K.view keeper.old).faults (K.view keeper.new).faults)
            (self.old, self.new) event.Save a) }
        ensures keeper { IfOk result (KeeperTurn S.kind
            (during replicas.now shelf.old shelf.new)
            (keeper_span K.view K.follows K.refused keeper.old keeper.new) settings
            self.old self.new event.Save) }
        ensures leaves { (lists : Remembered) → LeavesAlone S.kind
            (during replicas.now shelf.old shelf.new) (lending settings lists lists)
            self.old event.Save }
        ensures untouched { OnErr result (keeper.new ≡ keeper.old) }
        ensures unsynced { OnErr result (shelf.new ≡ shelf.old) }
        ensures err { OnErr result (self.new ≡ self.old) }
        ensures shelf { EachFollows S.kind shelf.old shelf.new [] }
    {
        let number = self.number();
        let bytes = match self.image(settings) {
            Ok(bytes) => bytes,
            Err(why) => return Err(why),
        };
        if let Err(why) = self.keep_image() {
            return Err(why);
        }
        if let Err(_) = replicas.sync_all(shelf) {
            self.forget_image();
            return Ok(Answer::FaultSave);
        }
        if let Err(_) = keeper.replace(bytes.as_slice()) {
            return Ok(Answer::FaultSave);
        }
        self.settle_image();
        Ok(Answer::Saved(number))
    }
}
