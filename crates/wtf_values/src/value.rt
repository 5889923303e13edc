//! Values of the store, and their changes.

use crate::{Name, NameSet, Pieces, RegionValue};
use wtf_base::InodeId;
use wtf_overlay::Entry;

/// What stands at a path.
#[derive(Clone, Copy, Debug, PartialEq, Eq)]
pub enum Node {
    /// A directory.
    Folder,
    /// The file of this inode.
    File(InodeId),
}

/// What a key has.
#[derive(Debug, Drop)]
pub enum Value {
    /// What stands at a path.
    Node(Node),
    /// The names in a directory.
    Names(NameSet),
    /// The number of a file's last region.
    Last(u16),
    /// The bytes of a region.
    Region(RegionValue),
    /// The number of a file's paths, where it has two or more.
    Count(u64),
}

/// A change of what a key has. One on a value of another kind changes nothing, and on a missing
/// value it changes nothing but where it says that it makes one.
#[derive(Debug, Drop)]
pub enum Delta {
    /// Lays an entry over a region, which reaches to the entry's end at least. A missing region is
    /// made.
    Push(Entry),
    /// Adds pieces one after another at the end of a region, which a missing one has at 0. It does
    /// not fit where the new end would pass this number, the size of a region.
    PushRel(Pieces, u32),
    /// Takes off the bytes of a region from this end on. It is the region's end then. A missing
    /// region is made.
    Clip(u32),
    /// Zeros from the first offset up to the second, as far as a region goes.
    ZeroWithin(u32, u32),
    /// The number of the last region becomes this one, where it is smaller.
    RaiseLast(u16),
    /// The number of the last region becomes this one.
    SetLast(u16),
    /// Adds a name to a directory's.
    DirAdd(Name),
    /// Takes a name out of a directory's.
    DirDel(Name),
    /// One path more: a missing number of paths becomes 2, and the greatest number stays.
    LinkAdd,
    /// One path less: a number of paths that is 2 at most goes.
    LinkSub,
    /// Sets the value, whatever it was.
    Put(Value),
    /// Takes the value out, whatever it was.
    Remove,
}
