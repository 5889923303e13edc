//! Keys of the store.

ghost use Rattle.wtf_values.specs.KeyOrder.{key_order, agrees};

use std::cmp::Ordering;
use wtf_base::InodeId;
use wtf_path::Path;

/// What the store is asked for. Keys are ordered by their kind, as the variants stand here, then
/// paths by their bytes, inodes by transaction and then by index, and regions of an inode by their
/// number.
#[derive(Debug, PartialEq, Eq, PartialOrd, Drop)]
pub enum Key {
    /// What stands at a path.
    Path(Path),
    /// The names in a directory.
    Dir(Path),
    /// The last region of a file.
    Inode(InodeId),
    /// A region of a file, by its number.
    Region(InodeId, u16),
    /// The number of a file's paths, where it has two or more.
    Links(InodeId),
}

impl Ord for Key {
    ghost use Rattle.std.specs.Cmp.{total, ties};
    ghost use Rattle.wtf_values.specs.contracts.key.KeyPartialOrd.TheImpl.Laws.{laws-law};

    ghost cmp = { key_order };

    ghost total = { total laws-law agrees };

    ghost matches_partial_cmp = { agrees };

    ghost matches_eq = { ties laws-law agrees };

    fn cmp(&self, other: &Key) -> Ordering {
        match self {
            Key::Path(p) => match other {
                Key::Path(q) => p.cmp(q),
                _ => Ordering::Less,
            },
            Key::Dir(p) => match other {
                Key::Path(_) => Ordering::Greater,
                Key::Dir(q) => p.cmp(q),
                _ => Ordering::Less,
            },
            Key::Inode(i) => match other {
                Key::Region(..) | Key::Links(_) => Ordering::Less,
                Key::Inode(j) => i.cmp(j),
                _ => Ordering::Greater,
            },
            Key::Region(i, r) => match other {
                Key::Region(j, s) => match i.cmp(j) {
                    Ordering::Equal => r.cmp(s),
                    order => order,
                },
                Key::Links(_) => Ordering::Less,
                _ => Ordering::Greater,
            },
            Key::Links(i) => match other {
                Key::Links(j) => i.cmp(j),
                _ => Ordering::Greater,
            },
        }
    }
}
