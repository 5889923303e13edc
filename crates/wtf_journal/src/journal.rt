//! Records behind gates. A closed gate stands behind the last record, on the disk before anything is written behind it,
//! and is opened by a write of its own once the record is there. A record is its gate, a byte that is 1 where it is open,
//! the length of its body in 8 bytes, the highest first, and the body. The format is this project's own.

ghost use Rattle.std.specs.Prelude.{◌≡◌, ◌⊎◌, ◌<◌, ◌+◌, ◌^◌, ◌++◌, ◌∷◌, [], ℕ, List, true, false, max, length, take, IfOk, OnOk, OnErr, IsErrOf};
ghost use Rattle.wtf_dev.specs.Counts.{Rose};
ghost use Rattle.wtf_dev.specs.Disk.{DiskGoesOn, DiskLeaves, DiskReads, IsSettled, SameElsewhere};
ghost use Rattle.wtf_journal.specs.Views.{appended, body_of, image_at_by, image_in, image_len_by, noted};
ghost use Rattle.wtf_changes.specs.Applying.{IsSomeImage};
ghost use Rattle.wtf_journal.specs.Records.{framed, gated, BeforeOrAfter, IsGated, IsShut, RestsAt};

use crate::body::record_of;
use crate::through::write_through;
use crate::{JournalFault, Record};
use std::alloc::Global;
use std::marker::Model;
use wtf_dev::{Disk, Failed, LoadFault};
use wtf_imagefmt::image_of;

// A range of file 0, in bytes.
#[derive(Clone, Copy)]
struct Place {
    at: u64,
    len: u64,
}

/// A journal in file 0 of a disk. It knows the offset of the closed gate, in bytes, whether a call on it failed, and where
/// the image of its last record of one lies.
#[derive(Drop)]
pub struct Journal {
    alloc: Global,
    end: u64,
    failed: bool,
    image: Place,
}

impl Model for Journal {
    ghost use Rattle.std.specs.Prelude.{◌≤◌, ◌+◌};
    ghost use Rattle.wtf_journal.specs.Views.{JournalView};

    ghost Value = { JournalView };

    ghost view = { λ j. record { end = j.end; failed = j.failed; image_at = j.image.at; image_len = j.image.len } };

    ghost invariant = { λ j. j.image.at + j.image.len ≤ j.end };
}

impl Journal {
    // A journal whose closed gate is there.
    pub(crate) fn at(alloc: Global, end: u64) -> Journal
        ensures { result ≡ record { end = end; failed = false; image_at = 0; image_len = 0 } }
    {
        Journal {
            alloc,
            end,
            failed: false,
            image: Place { at: 0, len: 0 },
        }
    }

    // The last record is an image of so many bytes, or there is none.
    pub(crate) fn note_image(&mut self, len: u64)
        ensures { self.new ≡ noted self.old len }
    {
        let len = len.min(self.end);
        self.image = Place {
            at: self.end - len,
            len,
        };
    }

    /// Whether a call on this journal failed. Then open it again.
    pub fn failed(&self) -> bool
        ensures { result ≡ self.now.failed }
    {
        self.failed
    }

    // Whether file 0 reaches behind the closed gate.
    pub(crate) fn is_on<D: Disk>(&self, disk: &D) -> bool
        ensures { result ≡ true → self.now.end < (D.kind.view disk.now).size 0 }
    {
        self.end < disk.length(0)
    }

    // Whether these bytes can be added as an image: no call failed, file 0 is long enough, and they are one.
    pub(crate) fn takes<D: Disk>(&self, disk: &D, bytes: &[u8]) -> bool
        ensures whole { result ≡ true → self.now.failed ≡ false }
        ensures reach { result ≡ true → self.now.end < (D.kind.view disk.now).size 0 }
        ensures image { result ≡ true → IsSomeImage bytes.now }
    {
        !self.failed && self.is_on(disk) && is_image(self.alloc, bytes)
    }

    // The image of the last record of one, empty where there is none.
    pub(crate) fn image<D: Disk>(&self, alloc: Global, disk: &mut D) -> Result<Vec<u8>, LoadFault>
        requires { self.now.end < (D.kind.view disk.old).size 0 }
        ensures bytes { IfOk result (λ v. (D.kind.view disk.old).tells ≡ true →
            v.items ≡ image_in self.now ((D.kind.view disk.old).file 0).seen) }
        ensures kept { DiskReads D.kind disk.old disk.new }
        ensures cause { IsErrOf result LoadFault.Failed →
            Rose (D.kind.view disk.old).faults (D.kind.view disk.new).faults }
    {
        let _length = disk.length(0);
        let Ok(mut bytes) = vec![in alloc; 0u8; self.image.len as usize] else {
            return Err(LoadFault::Memory);
        };
        match disk.read(0, self.image.at, &mut bytes) {
            Ok(()) => Ok(bytes),
            Err(Failed) => Err(LoadFault::Failed),
        }
    }

    /// Adds a record with this body. At `Ok` it is there at every later stop, by two writes and two syncs.
    pub fn append<D: Disk>(&mut self, disk: &mut D, body: Record<'_>) -> Result<(), JournalFault>
        requires whole { self.old.failed ≡ false }
        requires reach { self.old.end < (D.kind.view disk.old).size 0 }
        ensures acknowledged { OnOk result ((bodies : List (List ℕ)) →
            (D.kind.view disk.old).tells ≡ true →
            RestsAt D.kind disk.old self.old.end bodies →
            RestsAt D.kind disk.new self.new.end (bodies ++ body_of body.entry ∷ [])) }

        // Whatever file 0 held before, it has the record now, and nothing of it is pending.
        ensures settled { OnOk result ((D.kind.view disk.old).tells ≡ true →
            IsSettled (gated ((D.kind.view disk.old).file 0).seen self.old.end
            (framed (body_of body.entry) ++ 0 ∷ []) 1) ((D.kind.view disk.new).file 0)) }

        // A stop at any moment of it leaves the records from before it, or with the new one.
        ensures any_moment { (bodies : List (List ℕ)) →
            (D.kind.view disk.old).tells ≡ true →
            RestsAt D.kind disk.old self.old.end bodies →
            DiskLeaves D.kind disk.old disk.new (λ c. BeforeOrAfter bodies (body_of body.entry) (c 0)) }
        ensures elsewhere { (D.kind.view disk.old).tells ≡ true →
            SameElsewhere 0 (D.kind.view disk.old) (D.kind.view disk.new) }

        // What a read gave in front of the gate stays, done or failed.
        ensures front { (D.kind.view disk.old).tells ≡ true →
            take self.old.end ((D.kind.view disk.new).file 0).seen ≡
            take self.old.end ((D.kind.view disk.old).file 0).seen }
        ensures reach { OnOk result (self.new.end < (D.kind.view disk.new).size 0) }
        ensures added { OnOk result (self.new ≡ appended self.old body.entry) }
        ensures stays { OnErr result (self.new ≡ record self.old { failed = true }) }
        ensures goes_on { DiskGoesOn D.kind disk.old disk.new }
        ensures cause { IsErrOf result JournalFault.Failed →
            Rose (D.kind.view disk.old).faults (D.kind.view disk.new).faults }
        ensures not_refused { (n : ℕ) → IsErrOf result (JournalFault.NotAJournal n) → ⊥ }

        // It takes its memory first.
        ensures memory { IsErrOf result JournalFault.Memory → disk.new ≡ disk.old }
    {
        self.failed = true;
        let bytes = record_of(self.alloc, body)?;
        add(disk, self.end, &bytes)?;
        self.image = image_behind(self.image, self.end, body);
        self.end += bytes.len() as u64;
        self.failed = false;
        Ok(())
    }
}

// Whether bytes are an image, as far as memory could be had.
fn is_image(alloc: Global, bytes: &[u8]) -> bool
    ensures { result ≡ true → IsSomeImage bytes.now }
{
    image_of(alloc, bytes).is_ok()
}

// Where the last image lies behind a record that is added at `end`.
fn image_behind(before: Place, end: u64, body: Record<'_>) -> Place
    requires { end + 10 < 2 ^ 64 }
    ensures at { result.at ≡ image_at_by end before.at body.entry }
    ensures len { result.len ≡ image_len_by before.len body.entry }
{
    match body {
        Record::Image(image) => Place {
            at: end + 10,
            len: image.len() as u64,
        },
        Record::Changes(_) => before,
    }
}

// Writes bytes behind the gate at `at`, and then opens it.
fn add<D: Disk>(disk: &mut D, at: u64, bytes: &[u8]) -> Result<(), Failed>
    requires reach { at < (D.kind.view disk.old).size 0 }
    ensures front { (D.kind.view disk.old).tells ≡ true →
        take at ((D.kind.view disk.new).file 0).seen ≡
        take at ((D.kind.view disk.old).file 0).seen }
    ensures done { OnOk result ((D.kind.view disk.old).tells ≡ true →
        IsSettled (gated ((D.kind.view disk.old).file 0).seen at bytes.now 1)
        ((D.kind.view disk.new).file 0)) }
    ensures any_moment { (s : List ℕ) → (D.kind.view disk.old).tells ≡ true →
        IsSettled s ((D.kind.view disk.old).file 0) →
        DiskLeaves D.kind disk.old disk.new
        (λ c. IsShut s at (c 0) ⊎ IsGated s at bytes.now (c 0)) }
    ensures elsewhere { (D.kind.view disk.old).tells ≡ true →
        SameElsewhere 0 (D.kind.view disk.old) (D.kind.view disk.new) }
    ensures length { OnOk result ((D.kind.view disk.new).size 0 ≡
        max ((D.kind.view disk.old).size 0) (at + 1 + length bytes.now)) }
    ensures fits { OnOk result (at + 1 + length bytes.now < 2 ^ 61) }
    ensures goes_on { DiskGoesOn D.kind disk.old disk.new }
    ensures cause { OnErr result
        (Rose (D.kind.view disk.old).faults (D.kind.view disk.new).faults) }
{
    let _size = disk.length(0);
    write_through(disk, 0, at + 1, bytes)?;
    write_through(disk, 0, at, &[1])
}
