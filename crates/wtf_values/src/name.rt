//! Names of entries of directories.

ghost use Rattle.std.specs.Prelude.{◌≡◌, IfOk};
ghost use Rattle.wtf_path.specs.Parts.{name_of};
ghost use Rattle.wtf_values.specs.Names.{name_cmp};

use std::alloc::Global;
use std::cmp::Ordering;
use std::marker::Model;
use std::rc::RcSlice;
use wtf_base::OutOfMemory;
use wtf_path::Path;

/// The name of an entry of a directory, seen as its bytes. Holders share them.
#[derive(Debug, Drop)]
pub struct Name {
    text: RcSlice<u8, Global>,
}

impl Model for Name {
    ghost use Rattle.std.specs.Prelude.{List, ℕ};
    ghost use Rattle.std.specs.Rc.{rc_slice_items};

    ghost Value = { List ℕ };

    ghost view = { λ n. rc_slice_items n.text };
}

impl Name {
    /// The last name of a path; no byte for the root.
    pub fn of(alloc: Global, path: &Path) -> Result<Name, OutOfMemory>
        ensures { IfOk result (λ name. name ≡ name_of path.now) }
    {
        Ok(Name {
            text: RcSlice::from_slice(alloc, path.name())?,
        })
    }

    /// The bytes of the name.
    pub fn as_bytes(&self) -> &[u8]
        ensures { result.now ≡ self.now }
    {
        self.text.as_slice()
    }

    /// How the name compares with these bytes.
    pub fn compare(&self, bytes: &[u8]) -> Ordering
        ensures { result ≡ name_cmp self.now bytes.now }
    {
        self.as_bytes().cmp(bytes)
    }

    /// The same name for another holder. No byte is copied.
    pub fn share(&self) -> Result<Name, OutOfMemory>
        ensures { IfOk result (λ name. name ≡ self.now) }
    {
        Ok(Name {
            text: self.text.clone()?,
        })
    }
}
