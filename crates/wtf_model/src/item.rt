//! What calls read and change of a tree.

ghost use Rattle.std.specs.Prelude.{◌≡◌, IfOk};

use std::alloc::Global;
use wtf_base::OutOfMemory;
use wtf_path::Path;

/// A part of a tree that a call reads or changes.
#[derive(Debug, Drop)]
pub enum Item {
    /// What stands at a path.
    NodeOf(Path),
    /// The names in a directory.
    NamesOf(Path),
    /// The bytes of a file.
    BodyOf(Path),
    /// How many paths a file has.
    LinksOf(Path),
}

impl Item {
    /// The same item in memory of its own.
    pub fn copy(&self, alloc: Global) -> Result<Item, OutOfMemory>
        ensures { IfOk result (λ made. made ≡ self.now) }
    {
        match self {
            Item::NodeOf(p) => Ok(Item::NodeOf(p.copy(alloc)?)),
            Item::NamesOf(p) => Ok(Item::NamesOf(p.copy(alloc)?)),
            Item::BodyOf(p) => Ok(Item::BodyOf(p.copy(alloc)?)),
            Item::LinksOf(p) => Ok(Item::LinksOf(p.copy(alloc)?)),
        }
    }
}
