//! A tree as the machine keeps it: a map from paths to directories and files. The paths and the bytes of a file stand behind shared
//! pointers, so that neither its other paths nor a second holder of the tree copies a path or a byte of it.

ghost use Rattle.std.specs.Prelude.{◌≡◌, ◌↔◌, [], Some, IsTrue, IfSome, IfNone, IfOk, OnOk, OnErr, option_copied};
ghost use Rattle.std.specs.Option.{option_map};
ghost use Rattle.std.specs.FinMap.{get, insert, remove};
ghost use Rattle.std.specs.Rc.{rc_slice_items};
ghost use Rattle.wtf_path.specs.Parts.{name_of};
ghost use Rattle.wtf_model.specs.Tree.{no_paths, with_path, path_list, paths_at, Dir, root_alone, shown_len, shown_row, rows_of};
ghost use Rattle.wtf_model.specs.Tree.{is_in, paths_in, names_in};
ghost use Rattle.wtf_model.specs.Done.{take_all, put_all, refiled};
ghost use Rattle.wtf_model.specs.Items.{bodies_at, links_of};
ghost use Rattle.wtf_machine.specs.Maps.{node_of, content_node};

use crate::file_paths::FilePaths;
use std::alloc::Global;
use std::collections::BTreeMap;
use std::marker::Model;
use std::rc::{Rc, RcSlice};
use wtf_base::{Bytes, OutOfMemory};
use wtf_model::{Item, Names, Row, Rows};
use wtf_path::Path;

/// A file: all its paths, and its bytes. Its holders share both.
#[derive(Drop)]
pub(crate) struct FileContent {
    pub(crate) paths: Rc<FilePaths>,
    pub(crate) bytes: RcSlice<u8, Global>,
}

impl FileContent {
    /// The same for a second holder. No path and no byte is copied.
    pub(crate) fn share(&self) -> Result<FileContent, OutOfMemory>
        ensures { IfOk result (λ file. content_node file ≡ content_node self.now) }
    {
        let paths = self.paths.clone()?;
        let bytes = self.bytes.clone()?;
        Ok(FileContent { paths, bytes })
    }
}

/// What stands at a path: a directory, or a file.
#[derive(Drop)]
pub(crate) enum PathNode {
    Folder,
    Content(FileContent),
}

impl PathNode {
    /// The same for a second holder. No path and no byte is copied.
    pub(crate) fn share(&self) -> Result<PathNode, OutOfMemory>
        ensures { IfOk result (λ node. node_of node ≡ node_of self.now) }
    {
        match self {
            PathNode::Folder => Ok(PathNode::Folder),
            PathNode::Content(file) => {
                let file = file.share()?;
                Ok(PathNode::Content(file))
            }
        }
    }

    /// The length of a file in bytes; a directory has none.
    fn len(&self) -> Option<u64>
        ensures { result ≡ shown_len (node_of self.now) }
    {
        match self {
            PathNode::Folder => None,
            PathNode::Content(file) => Some(file.bytes.len() as u64),
        }
    }

    /// Whether it is a directory.
    fn is_folder(&self) -> bool
        ensures { IsTrue result ↔ (node_of self.now ≡ Dir) }
    {
        match self {
            PathNode::Folder => true,
            PathNode::Content(_) => false,
        }
    }
}

/// Whether a path stands in a directory, right below it.
fn stands_in(path: &Path, dir: &Path) -> bool
    ensures { result ≡ is_in dir.now path.now }
{
    match path.parent() {
        Some(parent) => parent == dir.as_bytes(),
        None => false,
    }
}

/// A copy of a path's last name.
fn copied_name(alloc: Global, path: &Path) -> Result<Bytes, OutOfMemory>
    ensures { IfOk result (λ name. name ≡ name_of path.now) }
{
    Ok(Bytes::of(Vec::from_slice(alloc, path.name())?))
}

/// How a path and what stands there are shown.
fn shown(alloc: Global, path: &Path, node: &PathNode) -> Result<Row, OutOfMemory>
    ensures { IfOk result (λ row. row ≡ shown_row (path.now, node_of node.now)) }
{
    Ok(Row {
        path: path.copy(alloc)?,
        len: node.len(),
    })
}

/// A tree, which contracts see as the tree of the definitions. It keeps its allocator.
#[derive(Drop)]
pub(crate) struct PathMap {
    alloc: Global,
    nodes: BTreeMap<Path, PathNode>,
}

impl Model for PathMap {
    ghost use Rattle.wtf_model.specs.Tree.{Tree};
    ghost use Rattle.wtf_machine.specs.Coded.{tree_code};

    ghost Value = { Tree };

    ghost coded = { tree_code };

    ghost use Rattle.wtf_machine.specs.Maps.{tree_of};

    ghost view = { λ a. tree_of a.nodes.entries };
}

impl PathMap {
    /// The tree with the root alone.
    pub(crate) fn with_root(alloc: Global) -> Result<PathMap, OutOfMemory>
        ensures { IfOk result (λ tree. tree ≡ root_alone) }
    {
        let root = match Path::parse(alloc, b"/") {
            Ok(root) => root,
            Err(_) => return Err(OutOfMemory),
        };
        let mut nodes = BTreeMap::new(alloc);
        let _ = nodes.insert(root, PathNode::Folder)?;
        Ok(PathMap { alloc, nodes })
    }

    /// What stands at a path.
    pub(crate) fn node(&self, path: &Path) -> Option<&PathNode>
        ensures { option_map node_of (option_copied result) ≡ get self.now path.now }
    {
        self.nodes.get(path)
    }

    /// Puts something at a path, in place of what stood there. After an error the tree is as before.
    pub(crate) fn put(&mut self, path: Path, node: PathNode) -> Result<(), OutOfMemory>
        ensures ok { OnOk result (self.new ≡ insert self.old path (node_of node)) }
        ensures err { OnErr result (self.new ≡ self.old) }
    {
        match self.nodes.insert(path, node) {
            Ok(_) => Ok(()),
            Err(_) => Err(OutOfMemory),
        }
    }

    /// Takes out what stands at a path. No memory is taken.
    pub(crate) fn take(&mut self, path: &Path)
        ensures { self.new ≡ remove self.old path.now }
    {
        let _ = self.nodes.remove(path);
    }

    /// Takes out what stands at each of these paths. No memory is taken.
    fn take_each(&mut self, paths: &FilePaths)
        ensures { self.new ≡ take_all self.old (path_list paths.now) }
    {
        let mut rest = paths.paths.iter();
        while let Some((path, _)) = rest.next_back() {
            self.take(path);
        }
    }

    /// Puts a file at each of these paths. After an error the tree is of no use.
    fn put_each(&mut self, paths: &FilePaths, file: &FileContent) -> Result<(), OutOfMemory>
        ensures { OnOk result (self.new ≡ put_all (content_node file.now) self.old (path_list paths.now)) }
    {
        let mut rest = paths.paths.iter();
        while let Some((path, _)) = rest.next_back() {
            let path = path.copy(self.alloc)?;
            let file = file.share()?;
            self.put(path, PathNode::Content(file))?;
        }
        Ok(())
    }

    /// The file with these paths has other paths or other bytes now. After an error the tree is of no use.
    pub(crate) fn refile(&mut self, old: &FilePaths, file: &FileContent) -> Result<(), OutOfMemory>
        ensures { OnOk result
            (self.new ≡ refiled self.old old.now file.now.paths.value (rc_slice_items file.now.bytes)) }
    {
        self.take_each(old);
        self.put_each(&file.paths, file)?;
        Ok(())
    }

    /// The file at a path.
    fn file(&self, path: &Path) -> Option<&FileContent>
        ensures some { IfSome result (λ file. get self.now path.now ≡ Some (content_node file.now)) }
        ensures none { IfNone result (paths_at self.now path.now ≡ no_paths) }
    {
        match self.node(path) {
            Some(PathNode::Content(file)) => Some(file),
            Some(PathNode::Folder) => None,
            None => None,
        }
    }

    /// The bytes of the file at a path, by each of its paths.
    pub(crate) fn bodies_at(&self, path: &Path) -> Result<Vec<Item>, OutOfMemory>
        ensures { IfOk result (λ items. items.items ≡ bodies_at self.now path.now) }
    {
        match self.file(path) {
            Some(file) => Ok(file.paths.bodies()?),
            None => Ok(Vec::new(self.alloc)),
        }
    }

    /// How many paths the file at a path has, by each of them.
    pub(crate) fn links_at(&self, path: &Path) -> Result<Vec<Item>, OutOfMemory>
        ensures { IfOk result (λ items. items.items ≡ links_of (paths_at self.now path.now)) }
    {
        match self.file(path) {
            Some(file) => Ok(file.paths.links()?),
            None => Ok(Vec::new(self.alloc)),
        }
    }

    /// How many paths the file at a path has with one more, by each of them.
    pub(crate) fn links_with(&self, path: &Path, more: &Path) -> Result<Vec<Item>, OutOfMemory>
        ensures { IfOk result (λ items. items.items ≡ links_of (with_path (paths_at self.now path.now) more.now)) }
    {
        let more = more.copy(self.alloc)?;
        match self.file(path) {
            Some(file) => {
                let paths = file.paths.with(more)?;
                Ok(paths.links()?)
            }
            None => {
                let paths = FilePaths::only(self.alloc, more)?;
                Ok(paths.links()?)
            }
        }
    }

    /// The same tree for a second holder: its paths are copied, and nothing of a file.
    pub(crate) fn share(&self) -> Result<PathMap, OutOfMemory>
        ensures { IfOk result (λ tree. tree ≡ self.now) }
    {
        let mut shared = PathMap {
            alloc: self.alloc,
            nodes: BTreeMap::new(self.alloc),
        };
        let mut rest = self.nodes.iter();
        while let Some((path, node)) = rest.next_back() {
            let path = path.copy(self.alloc)?;
            let node = node.share()?;
            shared.put(path, node)?;
        }
        Ok(shared)
    }

    /// Whether a directory stands at the path of these bytes. No memory is taken.
    pub(crate) fn has_folder(&self, path: &[u8]) -> bool
        ensures { IsTrue result ↔ (get self.now path.now ≡ Some Dir) }
    {
        let mut rest = self.nodes.iter();
        while let Some((at, node)) = rest.next() {
            if at.as_bytes() == path {
                return node.is_folder();
            }
        }
        false
    }

    /// Whether nothing stands in a directory.
    pub(crate) fn is_empty_in(&self, dir: &Path) -> bool
        ensures { IsTrue result ↔ (paths_in self.now dir.now ≡ []) }
    {
        let mut rest = self.nodes.iter();
        while let Some((path, _)) = rest.next() {
            if stands_in(path, dir) {
                return false;
            }
        }
        true
    }

    /// The names in a directory, in the order of their bytes.
    pub(crate) fn names_in(&self, dir: &Path) -> Result<Names, OutOfMemory>
        ensures { IfOk result (λ names. names ≡ names_in self.now dir.now) }
    {
        let mut names = Vec::new(self.alloc);
        let mut rest = self.nodes.iter();
        while let Some((path, _)) = rest.next() {
            if stands_in(path, dir) {
                let name = copied_name(self.alloc, path)?;
                names.push(name)?;
            }
        }
        Ok(Names::of(names))
    }

    /// The tree as it is shown: each path, in the order of its bytes, and the length of each file.
    pub(crate) fn rows(&self) -> Result<Rows, OutOfMemory>
        ensures { IfOk result (λ rows. rows ≡ rows_of self.now) }
    {
        let mut rows = Vec::new(self.alloc);
        let mut rest = self.nodes.iter();
        while let Some((path, node)) = rest.next() {
            let row = shown(self.alloc, path, node)?;
            rows.push(row)?;
        }
        Ok(Rows::of(rows))
    }
}
