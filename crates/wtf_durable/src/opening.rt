//! What the journal on a disk opens: a core with the settings of its image, or with those that are asked for.

ghost use Rattle.std.specs.Prelude.{◌≡◌, ℕ, true, None, IfOk, IfErr, OnOk};
ghost use Rattle.wtf_dev.specs.Disk.{DiskGoesOn, DiskLeaves, SameElsewhere};
ghost use Rattle.wtf_journal.specs.Held.{held_by};
ghost use Rattle.wtf_journal.specs.Scan.{IsBadAt, KeepsMeaning};
ghost use Rattle.wtf_durable.specs.Found.{IsFoundBy, unopened_by};
ghost use Rattle.wtf_durable.specs.Opened.{UnopenedFor};

use crate::Unopened;
use std::alloc::Global;
use wtf_base::Settings;
use wtf_core::Core;
use wtf_dev::{Disk, Shelf};
use wtf_image::LoadError;
use wtf_journal::{Journal, Synced};
use wtf_serve::{NotOpened, core_of};

/// A core and its journal, and whether the journal had no record.
#[derive(Drop)]
pub(crate) struct Opened {
    pub core: Core,
    pub journal: Journal,
    pub fresh: bool,
}

/// Opens the journal, and the core of its image.
pub(crate) fn found<S: Disk, D: Disk>(
    alloc: Global,
    settings: Settings,
    shelf: &Shelf<Synced<S>>,
    disk: &mut D,
) -> Result<Opened, Unopened>
    ensures found { IfOk result (λ f. IsFoundBy S.kind D.kind settings shelf.now (disk.old, disk.new)
        (record { core = f.core; journal = f.journal }) f.fresh) }
    ensures unfound { IfErr result
        (UnopenedFor S.kind D.kind settings shelf.now shelf.now disk.old disk.new) }
    ensures exact { OnOk result ((D.kind.view disk.old).tells ≡ true → (n : ℕ) →
        IsBadAt held_by None ((D.kind.view disk.old).file 0).seen n → ⊥) }
    ensures any_moment { (D.kind.view disk.old).tells ≡ true → DiskLeaves D.kind disk.old disk.new
        (KeepsMeaning held_by None (D.kind.view disk.old)) }
    ensures goes_on { DiskGoesOn D.kind disk.old disk.new }
    ensures elsewhere { (D.kind.view disk.old).tells ≡ true →
        SameElsewhere 0 (D.kind.view disk.old) (D.kind.view disk.new) }
{
    let opened = match Journal::open(alloc, disk) {
        Ok(opened) => opened,
        Err(why) => return Err(Unopened::Journal(why)),
    };
    let fresh = opened.image.is_empty();
    match core_of(alloc, settings, opened.image.as_slice(), shelf) {
        Ok(core) => Ok(Opened {
            core,
            journal: opened.journal,
            fresh,
        }),
        Err(why) => Err(why_of(why)),
    }
}

// Why an image opens no store.
fn why_of(why: NotOpened) -> Unopened
    ensures { result ≡ unopened_by why }
{
    match why {
        NotOpened::Few => Unopened::Small,
        NotOpened::Image(LoadError::Memory) => Unopened::Memory,
        NotOpened::Image(why) => Unopened::Image(why),
    }
}
