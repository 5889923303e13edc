//! The lengths of backing files.

ghost use Rattle.std.specs.Prelude.{◌≡◌, ◌<◌, ◌*◌, ◌+◌, ◌≤◌, ℕ, length, IfOk, OnOk};
ghost use Rattle.wtf_gc.specs.Views.{mark_in, length_in, MarksUpto};

use std::alloc::Global;
use wtf_base::OutOfMemory;
use wtf_dev::{Shelf, SliceStore};

/// How many backing files a server has.
pub(crate) const FILES: u8 = 8;

/// Adds the lengths of the files of a server, which come behind those of the servers before it.
fn add_lengths<S: SliceStore>(
    shelf: &Shelf<S>,
    k: u8,
    marks: &mut Vec<u64>,
) -> Result<(), OutOfMemory>
    requires server { k < length shelf.now }
    requires before { MarksUpto S.kind shelf.now (k * 8) marks.old.items }
    ensures { OnOk result (MarksUpto S.kind shelf.now (k * 8 + 8) marks.new.items) }
{
    for file in 0..FILES {
        marks.push(shelf.length(k, file))?;
    }
    Ok(())
}

/// The length of each file of each server, a server's after those of the one before it.
pub(crate) fn lengths<S: SliceStore>(
    alloc: Global,
    shelf: &Shelf<S>,
) -> Result<Vec<u64>, OutOfMemory>
    ensures { IfOk result (λ v. (k f : ℕ) → mark_in v.items k f ≡ length_in S.kind shelf.now k f) }
{
    let mut marks = Vec::new(alloc);
    for k in 0..shelf.len() {
        add_lengths(shelf, k, &mut marks)?;
    }
    Ok(marks)
}

/// The mark of a file of a server, 0 where none was noted.
pub(crate) fn mark_of(marks: &[u64], k: u8, file: u8) -> u64
    requires { file < 8 }
    ensures { result ≡ mark_in marks.now k file }
{
    let i = k as usize * FILES as usize + file as usize;
    match marks.get(i) {
        Some(mark) => *mark,
        None => 0,
    }
}
