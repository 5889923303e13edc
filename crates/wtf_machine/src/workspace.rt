//! What one transaction sees, as the machine keeps it: a tree, open handles, and slices as bytes.

ghost use Rattle.std.specs.Prelude.{◌≡◌, IfOk};
ghost use Rattle.wtf_model.specs.Session.{fresh};
ghost use Rattle.wtf_machine.specs.Sessions.{session_in};

use crate::labels::{Handles, Slices};
use crate::path_map::PathMap;
use std::alloc::Global;
use wtf_base::OutOfMemory;

/// The session of a transaction.
#[derive(Drop)]
pub(crate) struct Workspace {
    pub(crate) alloc: Global,
    pub(crate) tree: PathMap,
    pub(crate) handles: Handles,
    pub(crate) slices: Slices,
}

impl Workspace {
    /// The session of a tree, without handles and slices. It takes no memory yet.
    pub(crate) fn on(alloc: Global, tree: PathMap) -> Workspace
        ensures { session_in result ≡ fresh tree }
    {
        Workspace {
            alloc,
            tree,
            handles: Handles::new(alloc),
            slices: Slices::new(alloc),
        }
    }

    /// The same session for a second holder. Paths are copied, and no byte of a file or of a slice.
    pub(crate) fn share(&self) -> Result<Workspace, OutOfMemory>
        ensures { IfOk result (λ w. session_in w ≡ session_in self.now) }
    {
        let tree = self.tree.share()?;
        let handles = self.handles.share(self.alloc)?;
        let slices = self.slices.share(self.alloc)?;
        Ok(Workspace {
            alloc: self.alloc,
            tree,
            handles,
            slices,
        })
    }
}
