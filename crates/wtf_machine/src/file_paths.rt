//! The paths of a file, as the machine keeps them: a set in the order of their bytes.

ghost use Rattle.std.specs.Prelude.{◌≡◌, map, IfOk, OnOk};
ghost use Rattle.wtf_model.specs.declared.item.Item.TheVariants as item;
ghost use Rattle.wtf_model.specs.Tree.{only_path, with_path, without_path, path_list, path_count};
ghost use Rattle.wtf_model.specs.Items.{links_of};

use std::alloc::Global;
use std::collections::BTreeMap;
use std::marker::Model;
use wtf_base::OutOfMemory;
use wtf_model::Item;
use wtf_path::Path;

/// All paths of a file. Contracts see the finite set. It keeps its allocator.
#[derive(Drop)]
pub(crate) struct FilePaths {
    alloc: Global,
    pub(crate) paths: BTreeMap<Path, ()>,
}

impl Model for FilePaths {
    ghost use Rattle.wtf_model.specs.Tree.{PathSet};
    ghost use Rattle.wtf_machine.specs.Coded.{paths_code};

    ghost Value = { PathSet };

    ghost coded = { paths_code };

    ghost use Rattle.wtf_machine.specs.Entries.{set_of};

    ghost view = { λ a. set_of a.paths.entries };
}

impl FilePaths {
    /// The set of one path alone.
    pub(crate) fn only(alloc: Global, path: Path) -> Result<FilePaths, OutOfMemory>
        ensures { IfOk result (λ paths. paths ≡ only_path path) }
    {
        let mut made = FilePaths {
            alloc,
            paths: BTreeMap::new(alloc),
        };
        made.add(path)?;
        Ok(made)
    }

    /// Adds a path.
    fn add(&mut self, path: Path) -> Result<(), OutOfMemory>
        ensures { OnOk result (self.new ≡ with_path self.old path) }
    {
        let _ = self.paths.insert(path, ())?;
        Ok(())
    }

    /// Takes a path out. No memory is taken.
    fn take(&mut self, path: &Path)
        ensures { self.new ≡ without_path self.old path.now }
    {
        let _ = self.paths.remove(path);
    }

    /// The same set in memory of its own.
    fn copy(&self) -> Result<FilePaths, OutOfMemory>
        ensures { IfOk result (λ paths. paths ≡ self.now) }
    {
        let mut copied = FilePaths {
            alloc: self.alloc,
            paths: BTreeMap::new(self.alloc),
        };
        let mut rest = self.paths.iter();
        while let Some((path, _)) = rest.next_back() {
            let path = path.copy(self.alloc)?;
            copied.add(path)?;
        }
        Ok(copied)
    }

    /// The set without a path.
    pub(crate) fn without(&self, path: &Path) -> Result<FilePaths, OutOfMemory>
        ensures { IfOk result (λ paths. paths ≡ without_path self.now path.now) }
    {
        let mut left = self.copy()?;
        left.take(path);
        Ok(left)
    }

    /// The set with one path in place of another.
    pub(crate) fn moved(&self, from: &Path, to: Path) -> Result<FilePaths, OutOfMemory>
        ensures { IfOk result (λ paths. paths ≡ with_path (without_path self.now from.now) to) }
    {
        let mut moved = self.without(from)?;
        moved.add(to)?;
        Ok(moved)
    }

    /// The set with one path more.
    pub(crate) fn with(&self, path: Path) -> Result<FilePaths, OutOfMemory>
        ensures { IfOk result (λ paths. paths ≡ with_path self.now path) }
    {
        let mut more = self.copy()?;
        more.add(path)?;
        Ok(more)
    }

    /// How many paths there are.
    pub(crate) fn count(&self) -> u64
        ensures { result ≡ path_count self.now }
    {
        self.paths.len() as u64
    }

    /// How many paths the file has, by each of them.
    pub(crate) fn links(&self) -> Result<Vec<Item>, OutOfMemory>
        ensures { IfOk result (λ items. items.items ≡ links_of self.now) }
    {
        let mut links = Vec::new(self.alloc);
        let mut rest = self.paths.iter();
        while let Some((path, _)) = rest.next() {
            let path = path.copy(self.alloc)?;
            links.push(Item::LinksOf(path))?;
        }
        Ok(links)
    }

    /// The bytes of the file, by each of its paths.
    pub(crate) fn bodies(&self) -> Result<Vec<Item>, OutOfMemory>
        ensures { IfOk result (λ items. items.items ≡ map (λ q. item.BodyOf q) (path_list self.now)) }
    {
        let mut bodies = Vec::new(self.alloc);
        let mut rest = self.paths.iter();
        while let Some((path, _)) = rest.next() {
            let path = path.copy(self.alloc)?;
            bodies.push(Item::BodyOf(path))?;
        }
        Ok(bodies)
    }
}
