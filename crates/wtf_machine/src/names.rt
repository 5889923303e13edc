//! The calls on names, and what they have in common with calls that make files.

ghost use Rattle.std.specs.Prelude.{◌≡◌, ℕ, Some, Ok, Err, IfOk, IfErr, OnOk, bytes_eq};
ghost use Rattle.std.specs.FinMap.{get};
ghost use Rattle.std.specs.Rc.{rc_slice_items};
ghost use Rattle.wtf_model.specs.declared.op.Op.TheVariants as op;
ghost use Rattle.wtf_model.specs.Tree.{with_path, without_path, root, target, source, is_directory};
ghost use Rattle.wtf_model.specs.Done.{refiled, add_file};
ghost use Rattle.wtf_model.specs.NameCalls.{shown_node};
ghost use Rattle.wtf_machine.specs.Maps.{node_of, content_node};
ghost use Rattle.wtf_machine.specs.Sessions.{session_in, IsCalled};

use crate::file_paths::FilePaths;
use crate::path_map::{FileContent, PathNode};
use crate::workspace::Workspace;
use std::rc::{Rc, RcSlice};
use wtf_base::OutOfMemory;
use wtf_model::{Answer, Word};
use wtf_path::Path;

/// Whether a path is that of the root.
fn is_root(p: &Path) -> bool
    ensures { result ≡ bytes_eq p.now root }
{
    p.as_bytes() == b"/".as_slice()
}

/// What is shown of a directory or a file.
fn shown_node(node: &PathNode) -> Answer
    ensures { shown_node (Some (node_of node.now)) ≡ Ok result }
{
    match node {
        PathNode::Folder => Answer::Dir,
        PathNode::Content(file) => Answer::File {
            len: file.bytes.len() as u64,
            links: file.paths.count(),
        },
    }
}

impl Workspace {
    /// Whether a new file or directory may be put at a path: its parent is a directory, and
    /// nothing stands there yet. The root is always there.
    pub(crate) fn target(&self, p: &Path) -> Result<(), Word>
        ensures { result ≡ target self.now.tree p.now }
    {
        let Some(dir) = p.parent() else {
            return Err(Word::Exists);
        };
        if !self.tree.has_folder(dir) {
            return Err(Word::NoParent);
        }
        if self.tree.node(p).is_some() {
            return Err(Word::Exists);
        }
        Ok(())
    }

    /// The file at a path.
    pub(crate) fn file(&self, p: &Path) -> Result<&FileContent, Word>
        ensures ok { IfOk result (λ f. get self.now.tree p.now ≡ Some (content_node f.now)) }
        ensures bytes { IfOk result (λ f. source self.now.tree p.now ≡ Ok (rc_slice_items f.now.bytes)) }
        ensures err { IfErr result (λ w. source self.now.tree p.now ≡ Err w) }
    {
        match self.tree.node(p) {
            Some(PathNode::Content(file)) => Ok(file),
            Some(PathNode::Folder) => Err(Word::IsDir),
            None => Err(Word::NoEnt),
        }
    }

    /// The bytes of the file at a path.
    pub(crate) fn source(&self, p: &Path) -> Result<&[u8], Word>
        ensures ok { IfOk result (λ b. source self.now.tree p.now ≡ Ok b.now) }
        ensures err { IfErr result (λ w. source self.now.tree p.now ≡ Err w) }
    {
        match self.file(p) {
            Ok(file) => Ok(file.bytes.as_slice()),
            Err(word) => Err(word),
        }
    }

    /// Whether a directory stands at a path.
    fn directory(&self, p: &Path) -> Result<(), Word>
        ensures { result ≡ is_directory (get self.now.tree p.now) }
    {
        match self.tree.node(p) {
            Some(PathNode::Folder) => Ok(()),
            Some(PathNode::Content(_)) => Err(Word::NotDir),
            None => Err(Word::NoEnt),
        }
    }

    /// Puts a file with these bytes, and this path alone, in place of what stood there.
    pub(crate) fn put_file(&mut self, p: Path, bytes: Vec<u8>) -> Result<(), OutOfMemory>
        ensures { OnOk result (session_in self.new ≡ add_file (session_in self.old) p bytes.items) }
    {
        let own = p.copy(self.alloc)?;
        let paths = FilePaths::only(self.alloc, own)?;
        let paths = Rc::new(self.alloc, paths)?;
        let bytes = RcSlice::from_vec(bytes)?;
        let file = FileContent { paths, bytes };
        self.tree.put(p, PathNode::Content(file))
    }

    /// Makes an empty directory.
    pub(crate) fn mkdir(&mut self, p: &Path) -> Result<Answer, OutOfMemory>
        ensures { IfOk result (λ a. (cap : ℕ) → IsCalled cap (op.Mkdir p.now) self.old self.new a) }
    {
        if let Err(word) = self.target(p) {
            return Ok(Answer::Refused(word));
        }
        let p = p.copy(self.alloc)?;
        self.tree.put(p, PathNode::Folder)?;
        Ok(Answer::Okay)
    }

    /// Makes an empty file.
    pub(crate) fn create(&mut self, p: &Path) -> Result<Answer, OutOfMemory>
        ensures { IfOk result (λ a.
            (cap : ℕ) → IsCalled cap (op.Create p.now) self.old self.new a) }
    {
        if let Err(word) = self.target(p) {
            return Ok(Answer::Refused(word));
        }
        let p = p.copy(self.alloc)?;
        self.put_file(p, Vec::new(self.alloc))?;
        Ok(Answer::Okay)
    }

    /// Takes out an empty directory. The root stays.
    pub(crate) fn rmdir(&mut self, p: &Path) -> Result<Answer, OutOfMemory>
        ensures { IfOk result (λ a. (cap : ℕ) → IsCalled cap (op.Rmdir p.now) self.old self.new a) }
    {
        if is_root(p) {
            return Ok(Answer::Refused(Word::Root));
        }
        if let Err(word) = self.directory(p) {
            return Ok(Answer::Refused(word));
        }
        if !self.tree.is_empty_in(p) {
            return Ok(Answer::Refused(Word::NotEmpty));
        }
        self.tree.take(p);
        Ok(Answer::Okay)
    }

    /// The file at a path loses this path. Without any it is gone.
    fn drop_path(&mut self, p: &Path, file: &FileContent) -> Result<(), OutOfMemory>
        ensures { OnOk result (session_in self.new ≡ record (session_in self.old) {
          tree = refiled self.old.tree file.now.paths.value (without_path file.now.paths.value p.now)
              (rc_slice_items file.now.bytes);
        }) }
    {
        let left = file.paths.without(p)?;
        let paths = Rc::new(self.alloc, left)?;
        let bytes = file.bytes.clone()?;
        let made = FileContent { paths, bytes };
        self.tree.refile(&file.paths, &made)
    }

    /// A path of the file there becomes another one.
    fn move_path(&mut self, p: &Path, q: &Path, file: &FileContent) -> Result<(), OutOfMemory>
        ensures { OnOk result (session_in self.new ≡ record (session_in self.old) {
          tree = refiled self.old.tree file.now.paths.value
              (with_path (without_path file.now.paths.value p.now) q.now) (rc_slice_items file.now.bytes);
        }) }
    {
        let to = q.copy(self.alloc)?;
        let moved = file.paths.moved(p, to)?;
        let paths = Rc::new(self.alloc, moved)?;
        let bytes = file.bytes.clone()?;
        let made = FileContent { paths, bytes };
        self.tree.refile(&file.paths, &made)
    }

    /// The file there gets one path more.
    fn add_path(&mut self, q: &Path, file: &FileContent) -> Result<(), OutOfMemory>
        ensures { OnOk result (session_in self.new ≡ record (session_in self.old) {
          tree = refiled self.old.tree file.now.paths.value (with_path file.now.paths.value q.now)
              (rc_slice_items file.now.bytes);
        }) }
    {
        let own = q.copy(self.alloc)?;
        let more = file.paths.with(own)?;
        let paths = Rc::new(self.alloc, more)?;
        let bytes = file.bytes.clone()?;
        let made = FileContent { paths, bytes };
        self.tree.refile(&file.paths, &made)
    }

    /// Takes out a path of a file, which no handle is open on.
    pub(crate) fn unlink(&mut self, p: &Path) -> Result<Answer, OutOfMemory>
        ensures { IfOk result (λ a.
            (cap : ℕ) → IsCalled cap (op.Unlink p.now) self.old self.new a) }
    {
        let file = match self.file(p) {
            Ok(file) => file.share()?,
            Err(word) => return Ok(Answer::Refused(word)),
        };
        if self.handles.has_on(p) {
            return Ok(Answer::Refused(Word::Busy));
        }
        self.drop_path(p, &file)?;
        Ok(Answer::Okay)
    }

    /// Moves a path of a file, which no handle is open on, to where nothing stands.
    pub(crate) fn rename(&mut self, p: &Path, q: &Path) -> Result<Answer, OutOfMemory>
        ensures { IfOk result (λ a.
            (cap : ℕ) → IsCalled cap (op.Rename p.now q.now) self.old self.new a) }
    {
        let file = match self.file(p) {
            Ok(file) => file.share()?,
            Err(word) => return Ok(Answer::Refused(word)),
        };
        if self.handles.has_on(p) {
            return Ok(Answer::Refused(Word::Busy));
        }
        if let Err(word) = self.target(q) {
            return Ok(Answer::Refused(word));
        }
        self.move_path(p, q, &file)?;
        Ok(Answer::Okay)
    }

    /// Gives a file one path more, where nothing stands.
    pub(crate) fn link(&mut self, p: &Path, q: &Path) -> Result<Answer, OutOfMemory>
        ensures { IfOk result (λ a.
            (cap : ℕ) → IsCalled cap (op.Link p.now q.now) self.old self.new a) }
    {
        let file = match self.file(p) {
            Ok(file) => file.share()?,
            Err(word) => return Ok(Answer::Refused(word)),
        };
        if let Err(word) = self.target(q) {
            return Ok(Answer::Refused(word));
        }
        self.add_path(q, &file)?;
        Ok(Answer::Okay)
    }

    /// The names in a directory.
    pub(crate) fn list(&self, p: &Path) -> Result<Answer, OutOfMemory>
        ensures { IfOk result (λ a. (cap : ℕ) → IsCalled cap (op.List p.now) self.now self.now a) }
    {
        if let Err(word) = self.directory(p) {
            return Ok(Answer::Refused(word));
        }
        Ok(Answer::Names(self.tree.names_in(p)?))
    }

    /// What stands at a path, and the length of a file and how many paths it has.
    pub(crate) fn stat(&self, p: &Path) -> Result<Answer, OutOfMemory>
        ensures { IfOk result (λ a. (cap : ℕ) → IsCalled cap (op.Stat p.now) self.now self.now a) }
    {
        let Some(node) = self.tree.node(p) else {
            return Ok(Answer::Refused(Word::NoEnt));
        };
        Ok(shown_node(node))
    }
}
