//! Open handles and slices, by their labels.

ghost use Rattle.std.specs.Prelude.{◌≡◌, IfOk, OnOk, OnErr, option_copied};
ghost use Rattle.std.specs.Option.{option_map};
ghost use Rattle.std.specs.List.{list_any};
ghost use Rattle.std.specs.Rc.{rc_slice_items};
ghost use Rattle.std.specs.FinMap.{get, insert, remove, empty, values};
ghost use Rattle.wtf_model.specs.Done.{is_on};
ghost use Rattle.wtf_machine.specs.Maps.{handle_of};

use std::alloc::Global;
use std::collections::BTreeMap;
use std::marker::Model;
use std::rc::RcSlice;
use wtf_base::OutOfMemory;
use wtf_path::Path;

/// An open file, and the offset in it, in bytes.
#[derive(Drop)]
pub(crate) struct Cursor {
    pub(crate) path: Path,
    pub(crate) off: u64,
}

impl Cursor {
    /// The same for a second holder.
    fn share(&self, alloc: Global) -> Result<Cursor, OutOfMemory>
        ensures { IfOk result (λ handle. handle_of handle ≡ handle_of self.now) }
    {
        let path = self.path.copy(alloc)?;
        Ok(Cursor {
            path,
            off: self.off,
        })
    }
}

/// Open handles by their labels.
#[derive(Drop)]
pub(crate) struct Handles {
    items: BTreeMap<u8, Cursor>,
}

impl Model for Handles {
    ghost use Rattle.std.specs.FinMap.{FinMap};
    ghost use Rattle.std.specs.Ordering.{nat_cmp};
    ghost use Rattle.wtf_model.specs.Session.{Handle};
    ghost use Rattle.wtf_machine.specs.Coded.{handles_code};

    ghost Value = { FinMap nat_cmp Handle };

    ghost coded = { handles_code };

    ghost use Rattle.wtf_machine.specs.Maps.{map_of, handle_of};

    ghost view = { λ a. map_of nat_cmp handle_of a.items.entries };
}

impl Handles {
    /// No handle is open.
    pub(crate) fn new(alloc: Global) -> Handles
        ensures { result ≡ empty }
    {
        Handles {
            items: BTreeMap::new(alloc),
        }
    }

    /// The handle of a label.
    pub(crate) fn at(&self, f: u8) -> Option<&Cursor>
        ensures { option_map handle_of (option_copied result) ≡ get self.now f }
    {
        self.items.get(&f)
    }

    /// A label becomes that of a handle, in place of the one that it had. After an error all is as before.
    pub(crate) fn set(&mut self, f: u8, handle: Cursor) -> Result<(), OutOfMemory>
        ensures ok { OnOk result (self.new ≡ insert self.old f (handle_of handle)) }
        ensures err { OnErr result (self.new ≡ self.old) }
    {
        match self.items.insert(f, handle) {
            Ok(_) => Ok(()),
            Err(_) => Err(OutOfMemory),
        }
    }

    /// A label is closed.
    pub(crate) fn close(&mut self, f: u8)
        ensures { self.new ≡ remove self.old f }
    {
        let _ = self.items.remove(&f);
    }

    /// The same handles for a second holder.
    pub(crate) fn share(&self, alloc: Global) -> Result<Handles, OutOfMemory>
        ensures { IfOk result (λ handles. handles ≡ self.now) }
    {
        let mut shared = Handles::new(alloc);
        let mut rest = self.items.iter();
        while let Some((f, handle)) = rest.next_back() {
            let handle = handle.share(alloc)?;
            shared.set(*f, handle)?;
        }
        Ok(shared)
    }

    /// Whether a handle is open on a path.
    pub(crate) fn has_on(&self, path: &Path) -> bool
        ensures { result ≡ list_any (is_on path.now) (values self.now) }
    {
        let mut rest = self.items.iter();
        while let Some((_, handle)) = rest.next() {
            if handle.path == *path {
                return true;
            }
        }
        false
    }
}

/// Slices by their labels. Their bytes stand behind shared pointers.
#[derive(Drop)]
pub(crate) struct Slices {
    items: BTreeMap<u8, RcSlice<u8, Global>>,
}

impl Model for Slices {
    ghost use Rattle.std.specs.Prelude.{ℕ, List};
    ghost use Rattle.std.specs.FinMap.{FinMap};
    ghost use Rattle.std.specs.Ordering.{nat_cmp};
    ghost use Rattle.std.specs.Rc.{rc_slice_items};
    ghost use Rattle.wtf_machine.specs.Coded.{slices_code};

    ghost Value = { FinMap nat_cmp (List ℕ) };

    ghost coded = { slices_code };

    ghost use Rattle.wtf_machine.specs.Maps.{map_of};

    ghost view = { λ a. map_of nat_cmp rc_slice_items a.items.entries };
}

impl Slices {
    /// No slice is set.
    pub(crate) fn new(alloc: Global) -> Slices
        ensures { result ≡ empty }
    {
        Slices {
            items: BTreeMap::new(alloc),
        }
    }

    /// The bytes of a label.
    pub(crate) fn at(&self, label: u8) -> Option<&RcSlice<u8, Global>>
        ensures { option_map rc_slice_items (option_copied result) ≡ get self.now label }
    {
        self.items.get(&label)
    }

    /// A label becomes that of these bytes, in place of those that it had. After an error all is as before.
    pub(crate) fn set(&mut self, label: u8, bytes: RcSlice<u8, Global>) -> Result<(), OutOfMemory>
        ensures ok { OnOk result (self.new ≡ insert self.old label (rc_slice_items bytes)) }
        ensures err { OnErr result (self.new ≡ self.old) }
    {
        match self.items.insert(label, bytes) {
            Ok(_) => Ok(()),
            Err(_) => Err(OutOfMemory),
        }
    }

    /// The same slices for a second holder. No byte is copied.
    pub(crate) fn share(&self, alloc: Global) -> Result<Slices, OutOfMemory>
        ensures { IfOk result (λ slices. slices ≡ self.now) }
    {
        let mut shared = Slices::new(alloc);
        let mut rest = self.items.iter();
        while let Some((label, bytes)) = rest.next_back() {
            let bytes = bytes.clone()?;
            shared.set(*label, bytes)?;
        }
        Ok(shared)
    }
}
