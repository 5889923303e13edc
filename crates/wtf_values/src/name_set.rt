//! The names in a directory.

ghost use Rattle.std.specs.Prelude.{◌≡◌, ℕ, List, ◌<◌, length, slice_get, Some, IfOk, IfErr, OnOk, OnErr, IsTrue};
ghost use Rattle.wtf_values.specs.Names.{no_names, names_in, has_name, with_name, without_name, IsAt, IsGap};

use crate::Name;
use crate::name_tree::{Tree, are_same, count, name_at, place, share, with, without};
use std::alloc::Global;
use std::marker::Model;
use wtf_base::OutOfMemory;

/// A set of names, in the order of their bytes. Contracts see the finite set. Sets share what they
/// have in common: a copy takes a step and no memory, and a change about log n steps and memory for
/// about log n nodes, where n is the number of names.
#[derive(Debug, Drop)]
pub struct NameSet {
    alloc: Global,
    names: Tree,
}

impl Model for NameSet {
    ghost use Rattle.std.specs.FinSet.{FinSet, code};
    ghost use Rattle.std.specs.Ordering.{nat_cmp};
    ghost use Rattle.std.specs.Cmp.Lexicographic.{slice_cmp};
    ghost use Rattle.std.specs.Coded.{coded_ℕ, coded_list};

    ghost Value = { FinSet (slice_cmp nat_cmp) };

    ghost coded = { code (coded_list coded_ℕ) };

    ghost use Rattle.wtf_values.specs.Names.{set_of, Rise};
    ghost use Rattle.wtf_values.specs.Trees.{listed};

    ghost view = { λ s. set_of (listed s.names) };

    ghost invariant = { λ s. Rise (listed s.names) };
}

impl NameSet {
    /// The set with no name. It takes no memory yet.
    pub fn new(alloc: Global) -> NameSet
        ensures { result ≡ no_names }
    {
        NameSet { alloc, names: None }
    }

    /// The number of names.
    pub fn count(&self) -> usize
        ensures { result ≡ length (names_in self.now) }
    {
        count(&self.names)
    }

    /// The name at `i`, counted from 0 in the order of bytes. It costs about log n steps.
    pub fn name(&self, i: usize) -> &[u8]
        requires { i < length (names_in self.now) }
        ensures { slice_get (names_in self.now) i ≡ Some result.now }
    {
        name_at(&self.names, i)
    }

    /// Whether the set has a name. It costs about log n comparisons, where n is the number of
    /// names.
    pub fn contains(&self, name: &[u8]) -> bool
        ensures { result ≡ has_name self.now name.now }
    {
        self.place(name).is_ok()
    }

    /// The same set for another holder. It costs a step, and no memory.
    pub fn copy(&self) -> Result<NameSet, OutOfMemory>
        ensures { IfOk result (λ s. s ≡ self.now) }
    {
        Ok(NameSet {
            alloc: self.alloc,
            names: share(&self.names)?,
        })
    }

    /// Whether two sets are sure to be the same, told where they have `looks` names at most. `false`
    /// says nothing.
    pub(crate) fn is_same(&self, other: &NameSet, looks: usize) -> bool
        ensures { IsTrue result → self.now ≡ other.now }
    {
        count(&self.names) <= looks && are_same(&self.names, &other.names)
    }

    /// Adds a name, which may be there already. It costs about log n comparisons and steps. Want of
    /// memory leaves the set as it was.
    pub fn add(&mut self, name: Name) -> Result<(), OutOfMemory>
        ensures ok { OnOk result (self.new ≡ with_name self.old name) }
        ensures err { OnErr result (self.new ≡ self.old) }
    {
        match self.place(name.as_bytes()) {
            Ok(_) => Ok(()),
            Err(at) => self.add_at(at, name),
        }
    }

    /// Takes a name out, which need not be there. It costs about log n comparisons and steps. Want
    /// of memory leaves the set as it was.
    pub fn remove(&mut self, name: &[u8]) -> Result<(), OutOfMemory>
        ensures ok { OnOk result (self.new ≡ without_name self.old name.now) }
        ensures err { OnErr result (self.new ≡ self.old) }
    {
        match self.place(name) {
            Ok(at) => self.remove_at(at),
            Err(_) => Ok(()),
        }
    }

    /// Where the name is, or where it would go.
    fn place(&self, name: &[u8]) -> Result<usize, usize>
        ensures found { IfOk result (IsAt (names_in self.now) name.now) }
        ensures absent { IfErr result (IsGap (names_in self.now) name.now) }
    {
        place(&self.names, name)
    }

    /// Adds a name at the place where it would go. Want of memory leaves the set as it was.
    fn add_at(&mut self, at: usize, name: Name) -> Result<(), OutOfMemory>
        requires { IsGap (names_in self.old) name at }
        ensures ok { OnOk result (self.new ≡ with_name self.old name) }
        ensures err { OnErr result (self.new ≡ self.old) }
    {
        let names = with(self.alloc, &self.names, at, name)?;
        self.names = names;
        Ok(())
    }

    /// Takes out the name at `at`. Want of memory leaves the set as it was.
    fn remove_at(&mut self, at: usize) -> Result<(), OutOfMemory>
        requires { at < length (names_in self.old) }
        ensures ok { (name : List ℕ) → IsAt (names_in self.old) name at →
            OnOk result (self.new ≡ without_name self.old name) }
        ensures err { OnErr result (self.new ≡ self.old) }
    {
        let names = without(self.alloc, &self.names, at)?;
        self.names = names;
        Ok(())
    }
}
