//! Opening a journal of an image and changes.

ghost use Rattle.std.specs.Prelude.{◌≡◌, ◌⊎◌, ◌<◌, ◌∷◌, ◌++◌, ℕ, List, None, true, false, length, IfOk, OnOk, IsErrOf};
ghost use Rattle.wtf_dev.specs.Counts.{Rose};
ghost use Rattle.wtf_dev.specs.Disk.{DiskGoesOn, DiskLeaves, IsSettled, SameElsewhere};
ghost use Rattle.wtf_journal.specs.Held.{IsJournalOpened, held_by, renewal};
ghost use Rattle.wtf_journal.specs.Records.{HasBodies, RestsAt};
ghost use Rattle.wtf_journal.specs.Scan.{IsBadAt, KeepsMeaning};
ghost use Rattle.wtf_journal.specs.Views.{noted};

use crate::held::Held;
use crate::{Journal, JournalFault, Record};
use std::alloc::Global;
use wtf_dev::Disk;

/// A journal that was opened, and the image that it stands for: no byte where it has no record.
#[derive(Drop)]
pub struct Opened {
    pub journal: Journal,
    pub image: Vec<u8>,
}

impl Journal {
    /// Opens the journal on a disk. A record is 0 and an image, or 1 and changes. Where the last one is of changes, the image
    /// that they give is added as a record. A stop at any moment of it leaves a journal that stands for what it could stand
    /// for before, and for nothing else. One that is refused keeps its bytes.
    pub fn open<D: Disk>(alloc: Global, disk: &mut D) -> Result<Opened, JournalFault>
        ensures opened { IfOk result (λ o. (D.kind.view disk.old).tells ≡ true →
            IsJournalOpened D.kind disk.old disk.new o.journal.end o.image.items) }

        // The image lies at the end of the last record.
        ensures image { IfOk result (λ o. o.journal ≡ noted o.journal (length o.image.items)) }

        // It is refused exactly where a record is not in the format.
        ensures refused { (n : ℕ) → IsErrOf result (JournalFault.NotAJournal n) →
            (D.kind.view disk.old).tells ≡ true →
            IsBadAt held_by None ((D.kind.view disk.old).file 0).seen n }
        ensures exact { OnOk result ((D.kind.view disk.old).tells ≡ true → (n : ℕ) →
            IsBadAt held_by None ((D.kind.view disk.old).file 0).seen n → ⊥) }

        // Then it has the bytes that it had, and nothing of it is pending.
        ensures untouched { (n : ℕ) → IsErrOf result (JournalFault.NotAJournal n) →
            (D.kind.view disk.old).tells ≡ true →
            IsSettled ((D.kind.view disk.old).file 0).seen ((D.kind.view disk.new).file 0) }
        ensures any_moment { (D.kind.view disk.old).tells ≡ true → DiskLeaves D.kind disk.old disk.new
            (KeepsMeaning held_by None (D.kind.view disk.old)) }
        ensures elsewhere { (D.kind.view disk.old).tells ≡ true →
            SameElsewhere 0 (D.kind.view disk.old) (D.kind.view disk.new) }
        ensures reach { IfOk result (λ o. (o.journal.failed ≡ false) ×
            (o.journal.end < (D.kind.view disk.new).size 0)) }
        ensures goes_on { DiskGoesOn D.kind disk.old disk.new }
        ensures cause { IsErrOf result JournalFault.Failed →
            Rose (D.kind.view disk.old).faults (D.kind.view disk.new).faults }
    {
        let mut held = Held::none(alloc);
        let mut journal = match Journal::open_with(alloc, &mut held, disk) {
            Ok(journal) => journal,
            Err(why) => return Err(why),
        };
        let behind = held.is_behind();
        let image = held.into_image()?;
        match renew(&mut journal, disk, behind, &image) {
            Ok(()) => {}
            Err(why) => return Err(why),
        }
        journal.note_image(image.len() as u64);
        Ok(Opened { journal, image })
    }
}

// Adds a record of an image where changes came behind the last one.
fn renew<D: Disk>(
    journal: &mut Journal,
    disk: &mut D,
    behind: bool,
    image: &[u8],
) -> Result<(), JournalFault>
    requires whole { journal.old.failed ≡ false }
    requires reach { journal.old.end < (D.kind.view disk.old).size 0 }
    ensures rests { OnOk result ((bodies : List (List ℕ)) →
        (D.kind.view disk.old).tells ≡ true →
        RestsAt D.kind disk.old journal.old.end bodies →
        RestsAt D.kind disk.new journal.new.end (bodies ++ renewal behind image.now)) }
    ensures any_moment { (bodies : List (List ℕ)) →
        (D.kind.view disk.old).tells ≡ true →
        RestsAt D.kind disk.old journal.old.end bodies →
        DiskLeaves D.kind disk.old disk.new
        (λ c. HasBodies bodies (c 0) ⊎ HasBodies (bodies ++ renewal behind image.now) (c 0)) }
    ensures elsewhere { (D.kind.view disk.old).tells ≡ true →
        SameElsewhere 0 (D.kind.view disk.old) (D.kind.view disk.new) }
    ensures reach { OnOk result ((journal.new.failed ≡ false) ×
        (journal.new.end < (D.kind.view disk.new).size 0)) }
    ensures goes_on { DiskGoesOn D.kind disk.old disk.new }
    ensures cause { IsErrOf result JournalFault.Failed →
        Rose (D.kind.view disk.old).faults (D.kind.view disk.new).faults }
    ensures not_refused { (n : ℕ) → IsErrOf result (JournalFault.NotAJournal n) → ⊥ }
{
    if !behind {
        return Ok(());
    }
    journal.append(disk, Record::Image(image))
}
