//! Opening a journal, which a stop may have left at any moment.

ghost use Rattle.std.specs.Prelude.{◌≡◌, ◌<◌, ◌≤◌, ℕ, true, false, List, [], ◌∷◌, length, IfOk, OnOk, OnErr, IsErrOf};
ghost use Rattle.wtf_dev.specs.Counts.{Rose};
ghost use Rattle.wtf_dev.specs.Disk.{DiskGoesOn, DiskLeaves, DiskReads, IsSettled, SameElsewhere};
ghost use Rattle.wtf_journal.specs.Scan.{IsBadAt, KeepsJournal, KeepsMeaning, OpensTo, ReadsTo};

use crate::scan::scan;
use crate::through::write_through;
use crate::{Journal, JournalFault, Meaning};
use std::alloc::Global;
use wtf_dev::{Disk, Failed};

impl Journal {
    /// Opens the journal on a disk, and gives the bodies of its records to what they mean. A stop at any moment of it leaves a
    /// journal that stands for what it could stand for before, and for nothing else. One that is refused keeps its bytes.
    pub fn open_with<D: Disk, M: Meaning>(
        alloc: Global,
        meaning: &mut M,
        disk: &mut D,
    ) -> Result<Journal, JournalFault>
        ensures opened { IfOk result (λ j. (D.kind.view disk.old).tells ≡ true →
            OpensTo M.makes D.kind disk.old disk.new j.end meaning.old meaning.new) }

        // It is refused exactly where a record is not in the format.
        ensures refused { (n : ℕ) → IsErrOf result (JournalFault.NotAJournal n) →
            (D.kind.view disk.old).tells ≡ true →
            IsBadAt M.makes meaning.old ((D.kind.view disk.old).file 0).seen n }
        ensures exact { OnOk result ((D.kind.view disk.old).tells ≡ true → (n : ℕ) →
            IsBadAt M.makes meaning.old ((D.kind.view disk.old).file 0).seen n → ⊥) }

        // Then it has the bytes that it had, and nothing of it is pending.
        ensures untouched { (n : ℕ) → IsErrOf result (JournalFault.NotAJournal n) →
            (D.kind.view disk.old).tells ≡ true →
            IsSettled ((D.kind.view disk.old).file 0).seen ((D.kind.view disk.new).file 0) }
        ensures any_moment { (D.kind.view disk.old).tells ≡ true → DiskLeaves D.kind disk.old disk.new
            (KeepsMeaning M.makes meaning.old (D.kind.view disk.old)) }
        ensures elsewhere { (D.kind.view disk.old).tells ≡ true →
            SameElsewhere 0 (D.kind.view disk.old) (D.kind.view disk.new) }
        ensures reach { IfOk result (λ j. (j.failed ≡ false) ×
            (j.end < (D.kind.view disk.new).size 0)) }

        // It has taken no image yet.
        ensures image { IfOk result (λ j. j.image_len ≡ 0) }
        ensures goes_on { DiskGoesOn D.kind disk.old disk.new }
        ensures cause { IsErrOf result JournalFault.Failed →
            Rose (D.kind.view disk.old).faults (D.kind.view disk.new).faults }
    {
        let size = match settle(disk) {
            Ok(size) => size,
            Err(_) => return Err(JournalFault::Failed),
        };
        if size <= 1 {
            return Ok(Journal::at(alloc, 0));
        }
        let end = match read(alloc, meaning, disk, size) {
            Ok(end) => end,
            Err(why) => return Err(why),
        };
        Ok(Journal::at(alloc, end))
    }
}

// Brings the journal to where it lasts, and closes the gate of one of at most one byte. Answers its length before.
fn settle<D: Disk>(disk: &mut D) -> Result<u64, Failed>
    ensures size { IfOk result (λ size. size ≡ (D.kind.view disk.old).size 0) }
    ensures closed { IfOk result (λ size. (D.kind.view disk.old).tells ≡ true → size ≤ 1 →
        IsSettled (0 ∷ []) ((D.kind.view disk.new).file 0)) }
    ensures settled { IfOk result (λ size. (D.kind.view disk.old).tells ≡ true → 1 < size →
        IsSettled ((D.kind.view disk.old).file 0).seen ((D.kind.view disk.new).file 0)) }
    ensures reach { OnOk result (0 < (D.kind.view disk.new).size 0) }
    ensures same { IfOk result (λ size. 1 < size → size ≡ (D.kind.view disk.new).size 0) }
    ensures any_moment { (D.kind.view disk.old).tells ≡ true →
        DiskLeaves D.kind disk.old disk.new (KeepsJournal (D.kind.view disk.old)) }
    ensures elsewhere { (D.kind.view disk.old).tells ≡ true →
        SameElsewhere 0 (D.kind.view disk.old) (D.kind.view disk.new) }
    ensures goes_on { DiskGoesOn D.kind disk.old disk.new }
    ensures cause { OnErr result
        (Rose (D.kind.view disk.old).faults (D.kind.view disk.new).faults) }
{
    disk.sync(0)?;
    let size = disk.length(0);
    if size > 1 {
        return Ok(size);
    }
    write_through(disk, 0, 0, &[0])?;
    Ok(size)
}

// Reads the records of a journal of that length, and answers the offset of its closed gate.
fn read<D: Disk, M: Meaning>(
    alloc: Global,
    meaning: &mut M,
    disk: &mut D,
    size: u64,
) -> Result<u64, JournalFault>
    requires size { size ≡ (D.kind.view disk.old).size 0 }
    requires long { 1 < size }
    ensures read { IfOk result (λ end. (D.kind.view disk.old).tells ≡ true →
        ReadsTo M.makes meaning.old ((D.kind.view disk.old).file 0).seen end meaning.new) }
    ensures inside { IfOk result (λ end. end < size) }
    ensures refused { (n : ℕ) → IsErrOf result (JournalFault.NotAJournal n) →
        (D.kind.view disk.old).tells ≡ true →
        IsBadAt M.makes meaning.old ((D.kind.view disk.old).file 0).seen n }
    ensures kept { DiskReads D.kind disk.old disk.new }
    ensures cause { IsErrOf result JournalFault.Failed →
        Rose (D.kind.view disk.old).faults (D.kind.view disk.new).faults }
{
    let _length = disk.length(0);
    let mut bytes = vec![in alloc; 0u8; size as usize]?;
    disk.read(0, 0, &mut bytes)?;
    scan(meaning, &bytes)
}
