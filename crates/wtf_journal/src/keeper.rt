//! A journal as a keeper of one image.

ghost use Rattle.std.specs.Prelude.{◌≡◌, ◌<◌, true, false};
ghost use Rattle.wtf_changes.specs.Applying.{IsSomeImage};
ghost use Rattle.wtf_journal.specs.Keeper.{journal_keeper_view, JournalFollows, JournalRefuses, journal_itself, journal_on};

use crate::{Journal, JournalFault, Record};
use std::alloc::Global;
use wtf_dev::{Disk, Failed, Keeper, LoadFault};

/// A journal on a disk as a keeper of one image, which it adds as a record. It holds the image of the last such record.
#[derive(Drop)]
pub struct JournalKeeper<'a, D> {
    /// The journal.
    pub journal: &'a mut Journal,
    /// The disk that it is on.
    pub disk: &'a mut D,
    /// How often a call failed for want of memory, or since the image or the journal could not be used.
    pub short: u64,
}

impl<'a, D: Disk> Keeper for JournalKeeper<'a, D> {
    ghost view = { journal_keeper_view D.kind };

    ghost follows = { JournalFollows D.kind };

    ghost refused = { JournalRefuses };

    ghost follows_itself = { journal_itself D.kind };

    ghost follows_on = { journal_on D.kind D.laws };

    ghost keeps = { λ a b xs f. f.kept };

    fn load(&mut self, alloc: Global) -> Result<Vec<u8>, LoadFault> {
        if !self.journal.is_on(self.disk) {
            self.short = self.short.saturating_add(1);
            return Err(LoadFault::Failed);
        }
        self.journal.image(alloc, self.disk)
    }

    fn replace(&mut self, bytes: &[u8]) -> Result<(), Failed> {
        if !self.journal.takes(self.disk, bytes) {
            self.short = self.short.saturating_add(1);
            return Err(Failed);
        }
        match self.journal.append(self.disk, Record::Image(bytes)) {
            Ok(()) => Ok(()),
            Err(JournalFault::Failed) => Err(Failed),
            Err(_) => {
                self.short = self.short.saturating_add(1);
                Err(Failed)
            }
        }
    }
}
