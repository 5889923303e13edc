//! Where files end.

ghost use Rattle.std.specs.Prelude.{◌≡◌, [], ◌∷◌, OnOk, IsTrue, Option};
ghost use Rattle.wtf_kv.specs.Stores.{is_pinned};
ghost use Rattle.wtf_occ.specs.Attempts.{Grows};
ghost use Rattle.wtf_values.specs.Summaries.{summary_of};
ghost use Rattle.wtf_meta.specs.Maps.{seen};
ghost use Rattle.wtf_meta.specs.Files.{FileView, end_of};
ghost use Rattle.wtf_meta.specs.FileEdits.{file_of, last_of, region_of};
ghost use Rattle.wtf_meta.specs.Appends.{OfLast, OfRegion, length_keys};
ghost use Rattle.wtf_region.specs.Edited.{Recorded, IsFileEnd};

use wtf_base::{InodeId, OutOfMemory};
use wtf_kv::Kv;
use wtf_meta::{Key, Summary, Value};
use wtf_occ::Attempt;

/// Where a file ends: in which region, and how many bytes from that region's begin.
#[derive(Clone, Copy, Debug, PartialEq, Eq)]
pub struct FileEnd {
    /// The number of its last region.
    pub region: u16,
    /// Where that region ends.
    pub off: u32,
}

/// The last region that a value with this summary tells, 0 where it tells none.
fn last_told(summary: Summary) -> u16
    ensures { (now : Option Value) → summary ≡ summary_of now → result ≡ last_of now }
{
    match summary {
        Summary::Last(n) => n,
        _ => 0,
    }
}

/// Where the region of a value with this summary ends, 0 where it is none.
fn end_told(summary: Summary) -> u32
    ensures { (now : Option Value) → summary ≡ summary_of now → result ≡ end_of (region_of now) }
{
    match summary {
        Summary::Region(end) => end,
        _ => 0,
    }
}

/// The number of a file's last region, 0 where it is missing. Nothing is recorded. Later looks walk
/// no changes of this number then.
fn settled_last(kv: &Kv<Key, Value>, at: &mut Attempt<Key, Value>, inode: InodeId) -> u16
    requires { IsTrue (is_pinned kv.now at.old.base) }
    ensures value { result ≡ (file_of inode (seen kv.now at.old)).last }
    ensures same { at.new ≡ at.old }
{
    last_told(at.settled_summary(kv, &Key::Inode(inode)))
}

/// Where a region of a file ends, 0 where it is missing. Nothing is recorded. Later looks walk no
/// changes of the region then.
fn settled_end(kv: &Kv<Key, Value>, at: &mut Attempt<Key, Value>, inode: InodeId, r: u16) -> u32
    requires { IsTrue (is_pinned kv.now at.old.base) }
    ensures value { result ≡ end_of ((file_of inode (seen kv.now at.old)).region r) }
    ensures same { at.new ≡ at.old }
{
    end_told(at.settled_summary(kv, &Key::Region(inode, r)))
}

/// Where a file ends; a missing one ends at 0. Nothing is recorded. Later looks walk no changes of
/// its last region's number nor of its last region then.
pub fn file_end(kv: &Kv<Key, Value>, at: &mut Attempt<Key, Value>, inode: InodeId) -> FileEnd
    requires { IsTrue (is_pinned kv.now at.old.base) }
    ensures end { IsFileEnd (file_of inode (seen kv.now at.old)) result }
    ensures same { at.new ≡ at.old }
{
    let region = settled_last(kv, at, inode);
    let off = settled_end(kv, at, inode, region);
    FileEnd { region, off }
}

/// Records the number of a file's last region.
pub(crate) fn record_last(at: &mut Attempt<Key, Value>, inode: InodeId) -> Result<(), OutOfMemory>
    ensures recorded { OnOk result (Recorded inode (OfLast ∷ []) at.old at.new) }
    ensures grows { Grows at.old at.new }
{
    at.record(&Key::Inode(inode))
}

/// Records a region of a file.
pub(crate) fn record_region(
    at: &mut Attempt<Key, Value>,
    inode: InodeId,
    r: u16,
) -> Result<(), OutOfMemory>
    ensures recorded { OnOk result (Recorded inode (OfRegion r ∷ []) at.old at.new) }
    ensures grows { Grows at.old at.new }
{
    at.record(&Key::Region(inode, r))
}

/// Records what tells the length of a file that ends there. After an error the last region's number
/// may be recorded.
pub(crate) fn record_length(
    at: &mut Attempt<Key, Value>,
    inode: InodeId,
    end: FileEnd,
) -> Result<(), OutOfMemory>
    ensures recorded { (v : FileView) → IsFileEnd v end →
        OnOk result (Recorded inode (length_keys v) at.old at.new) }
    ensures grows { Grows at.old at.new }
{
    record_last(at, inode)?;
    record_region(at, inode, end.region)?;
    Ok(())
}
