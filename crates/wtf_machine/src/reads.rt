//! What a call reads, and what it changes, item by item.

ghost use Rattle.std.specs.Prelude.{◌≡◌, ◌++◌, ◌∷◌, [], IfOk, OnOk};
ghost use Rattle.wtf_path.specs.Parts.{parent_of};
ghost use Rattle.wtf_model.specs.declared.item.Item.TheVariants as item;
ghost use Rattle.wtf_model.specs.Call.{call};
ghost use Rattle.wtf_model.specs.Items as what;
ghost use Rattle.wtf_model.specs.Items.{node_above, names_above, handle_reads, links_of, handle_changes, seek_reads};
ghost use Rattle.wtf_model.specs.Tree.{with_path, paths_at};
ghost use Rattle.wtf_machine.specs.Sessions.{session_in};

use crate::items::{both, joined_items, only};
use crate::workspace::Workspace;
use std::alloc::Global;
use wtf_base::{Bytes, OutOfMemory};
use wtf_model::{Answer, Item, Op, Paths, Seek};
use wtf_path::Path;

/// What stands at the directory that a path stands in. The root stands in none.
fn node_above(alloc: Global, p: &Path) -> Result<Vec<Item>, OutOfMemory>
    ensures { IfOk result (λ v. v.items ≡ node_above (parent_of p.now)) }
{
    let Some(dir) = p.parent() else {
        return Ok(Vec::new(alloc));
    };
    let dir = match Path::parse(alloc, dir) {
        Ok(dir) => dir,
        Err(_) => return Err(OutOfMemory),
    };
    Ok(only(alloc, Item::NodeOf(dir))?)
}

/// The names in the directory that a path stands in. The root stands in none.
fn names_above(alloc: Global, p: &Path) -> Result<Vec<Item>, OutOfMemory>
    ensures { IfOk result (λ v. v.items ≡ names_above (parent_of p.now)) }
{
    let Some(dir) = p.parent() else {
        return Ok(Vec::new(alloc));
    };
    let dir = match Path::parse(alloc, dir) {
        Ok(dir) => dir,
        Err(_) => return Err(OutOfMemory),
    };
    Ok(only(alloc, Item::NamesOf(dir))?)
}

/// What stands at a path.
fn node_read(alloc: Global, p: &Path) -> Result<Vec<Item>, OutOfMemory>
    ensures { IfOk result (λ v. v.items ≡ item.NodeOf p.now ∷ []) }
{
    let p = p.copy(alloc)?;
    Ok(only(alloc, Item::NodeOf(p))?)
}

/// What stands at a path, and the names in the directory.
fn folder_reads(alloc: Global, p: &Path) -> Result<Vec<Item>, OutOfMemory>
    ensures { IfOk result (λ v. v.items ≡ what.folder_reads p.now) }
{
    let node = p.copy(alloc)?;
    let names = p.copy(alloc)?;
    Ok(both(alloc, Item::NodeOf(node), Item::NamesOf(names))?)
}

/// What stands at a path, and the bytes of the file.
pub(crate) fn source_reads(alloc: Global, p: &Path) -> Result<Vec<Item>, OutOfMemory>
    ensures { IfOk result (λ v. v.items ≡ what.source_reads p.now) }
{
    let node = p.copy(alloc)?;
    let body = p.copy(alloc)?;
    Ok(both(alloc, Item::NodeOf(node), Item::BodyOf(body))?)
}

/// What stands at a path, and how many paths the file has.
fn unlink_reads(alloc: Global, p: &Path) -> Result<Vec<Item>, OutOfMemory>
    ensures { IfOk result (λ v. v.items ≡ item.NodeOf p.now ∷ item.LinksOf p.now ∷ []) }
{
    let node = p.copy(alloc)?;
    let links = p.copy(alloc)?;
    Ok(both(alloc, Item::NodeOf(node), Item::LinksOf(links))?)
}

/// What stands at a path, the bytes of the file, and how many paths it has.
fn file_reads(alloc: Global, p: &Path) -> Result<Vec<Item>, OutOfMemory>
    ensures { IfOk result (λ v. v.items ≡ what.file_reads p.now) }
{
    let source = source_reads(alloc, p)?;
    let links = p.copy(alloc)?;
    let links = only(alloc, Item::LinksOf(links))?;
    joined_items(source, links)
}

/// What a new path needs.
fn target_reads(alloc: Global, p: &Path) -> Result<Vec<Item>, OutOfMemory>
    ensures { IfOk result (λ v. v.items ≡ what.target_reads p.now) }
{
    let here = node_read(alloc, p)?;
    let above = node_above(alloc, p)?;
    joined_items(here, above)
}

/// Adds what files need that are named one after another.
fn add_sources(alloc: Global, paths: &[Path], into: &mut Vec<Item>) -> Result<(), OutOfMemory>
    ensures { OnOk result (into.new.items ≡ into.old.items ++ what.sources_reads paths.now) }
{
    for path in paths {
        let mut more = source_reads(alloc, path)?;
        into.append(&mut more)?;
    }
    Ok(())
}

/// What a call needs that makes a file of others.
fn target_and_sources(alloc: Global, q: &Path, paths: &Paths) -> Result<Vec<Item>, OutOfMemory>
    ensures { IfOk result (λ v. v.items ≡ what.target_reads q.now ++ what.sources_reads paths.now) }
{
    let mut read = target_reads(alloc, q)?;
    add_sources(alloc, paths.as_slice(), &mut read)?;
    Ok(read)
}

/// What a call needs that makes a file at one path of the file at another.
fn source_and_target(alloc: Global, p: &Path, q: &Path) -> Result<Vec<Item>, OutOfMemory>
    ensures { IfOk result (λ v. v.items ≡ what.source_reads p.now ++ what.target_reads q.now) }
{
    let source = source_reads(alloc, p)?;
    let target = target_reads(alloc, q)?;
    joined_items(source, target)
}

/// What a call needs that moves a file from one path to another.
fn file_and_target(alloc: Global, p: &Path, q: &Path) -> Result<Vec<Item>, OutOfMemory>
    ensures { IfOk result (λ v. v.items ≡ what.file_reads p.now ++ what.target_reads q.now) }
{
    let file = file_reads(alloc, p)?;
    let target = target_reads(alloc, q)?;
    joined_items(file, target)
}

/// What changes where a directory comes or goes.
fn folder_changes(alloc: Global, p: &Path) -> Result<Vec<Item>, OutOfMemory>
    ensures { IfOk result (λ v. v.items ≡ what.folder_changes p.now) }
{
    let here = folder_reads(alloc, p)?;
    let above = names_above(alloc, p)?;
    joined_items(here, above)
}

/// What changes where a file comes or goes.
fn file_changes(alloc: Global, p: &Path) -> Result<Vec<Item>, OutOfMemory>
    ensures { IfOk result (λ v. v.items ≡ what.file_changes p.now) }
{
    let here = source_reads(alloc, p)?;
    let above = names_above(alloc, p)?;
    joined_items(here, above)
}

/// What changes where a file goes from one path to another.
fn move_changes(alloc: Global, p: &Path, q: &Path) -> Result<Vec<Item>, OutOfMemory>
    ensures { IfOk result (λ v. v.items ≡ what.file_changes p.now ++ what.file_changes q.now) }
{
    let from = file_changes(alloc, p)?;
    let to = file_changes(alloc, q)?;
    joined_items(from, to)
}

/// These items, or none where a call was refused.
fn unless_refused(due: &Answer, changes: Vec<Item>) -> Vec<Item>
    ensures { result.items ≡ what.unless_refused due.now changes.items }
{
    match due {
        Answer::Refused(_) => Vec::new(*changes.allocator()),
        _ => changes,
    }
}

impl Workspace {
    /// The bytes of the file that a handle is open on. A label that is not open has none.
    fn body(&self, f: u8) -> Result<Vec<Item>, OutOfMemory>
        ensures { IfOk result (λ v. v.items ≡ handle_reads (session_in self.now) f) }
    {
        let Some(handle) = self.handles.at(f) else {
            return Ok(Vec::new(self.alloc));
        };
        let path = handle.path.copy(self.alloc)?;
        Ok(only(self.alloc, Item::BodyOf(path))?)
    }

    /// The same, by each path of the file.
    fn bodies(&self, f: u8) -> Result<Vec<Item>, OutOfMemory>
        ensures { IfOk result (λ v. v.items ≡ handle_changes (session_in self.now) f) }
    {
        let Some(handle) = self.handles.at(f) else {
            return Ok(Vec::new(self.alloc));
        };
        Ok(self.tree.bodies_at(&handle.path)?)
    }

    /// What changes where a file loses a path: how many it has, by each of them.
    fn unlink_changes(&self, p: &Path) -> Result<Vec<Item>, OutOfMemory>
        ensures { IfOk result (λ v. v.items ≡ what.file_changes p.now ++ links_of (paths_at self.now.tree p.now)) }
    {
        let file = file_changes(self.alloc, p)?;
        let links = self.tree.links_at(p)?;
        joined_items(file, links)
    }

    /// What changes where a file gets a path more: how many it has, by each of them.
    fn link_changes(&self, p: &Path, q: &Path) -> Result<Vec<Item>, OutOfMemory>
        ensures { IfOk result (λ v. v.items ≡
            what.file_changes q.now ++ links_of (with_path (paths_at self.now.tree p.now) q.now)) }
    {
        let file = file_changes(self.alloc, q)?;
        let links = self.tree.links_with(p, q)?;
        joined_items(file, links)
    }

    /// What a seek reads: nothing, but where it leads to the end of the file.
    fn seek_reads(&self, f: u8, place: Seek) -> Result<Vec<Item>, OutOfMemory>
        ensures { IfOk result (λ v. v.items ≡ seek_reads (session_in self.now) f place) }
    {
        match place {
            Seek::Set(_) => Ok(Vec::new(self.alloc)),
            Seek::Fwd(_) => Ok(Vec::new(self.alloc)),
            Seek::Back(_) => Ok(Vec::new(self.alloc)),
            Seek::End => self.body(f),
        }
    }

    /// What a call reads, whatever it answers.
    pub(crate) fn reads(&self, op: &Op<Bytes>) -> Result<Vec<Item>, OutOfMemory>
        ensures { IfOk result (λ v. v.items ≡ what.reads (session_in self.now) op.now) }
    {
        let alloc = self.alloc;
        match op {
            Op::Mkdir(p) => target_reads(alloc, p),
            Op::Rmdir(p) => folder_reads(alloc, p),
            Op::Create(p) => target_reads(alloc, p),
            Op::Unlink(p) => unlink_reads(alloc, p),
            Op::Rename(p, q) => file_and_target(alloc, p, q),
            Op::Link(p, q) => file_and_target(alloc, p, q),
            Op::List(p) => folder_reads(alloc, p),
            Op::Stat(p) => file_reads(alloc, p),
            Op::Open(_, p) => node_read(alloc, p),
            Op::Close(_) => Ok(Vec::new(alloc)),
            Op::Seek(f, place) => self.seek_reads(*f, *place),
            Op::Tell(_) => Ok(Vec::new(alloc)),
            Op::Read(f, _) => self.body(*f),
            Op::Write(_, _) => Ok(Vec::new(alloc)),
            Op::Append(f, _) => self.body(*f),
            Op::Truncate(_, _) => Ok(Vec::new(alloc)),
            Op::Punch(_, _) => Ok(Vec::new(alloc)),
            Op::Yank(f, _, _) => self.body(*f),
            Op::Peek { .. } => Ok(Vec::new(alloc)),
            Op::Cut { .. } => Ok(Vec::new(alloc)),
            Op::Paste(_, _) => Ok(Vec::new(alloc)),
            Op::Glue(f, _) => self.body(*f),
            Op::Concat(q, paths) => target_and_sources(alloc, q, paths),
            Op::Copy(p, q) => source_and_target(alloc, p, q),
        }
    }

    /// What a call changes that is not refused.
    fn changes(&self, op: &Op<Bytes>) -> Result<Vec<Item>, OutOfMemory>
        ensures { IfOk result (λ v. v.items ≡ what.changes (session_in self.now) op.now) }
    {
        let alloc = self.alloc;
        match op {
            Op::Mkdir(p) => folder_changes(alloc, p),
            Op::Rmdir(p) => folder_changes(alloc, p),
            Op::Create(p) => file_changes(alloc, p),
            Op::Unlink(p) => self.unlink_changes(p),
            Op::Rename(p, q) => move_changes(alloc, p, q),
            Op::Link(p, q) => self.link_changes(p, q),
            Op::List(_) => Ok(Vec::new(alloc)),
            Op::Stat(_) => Ok(Vec::new(alloc)),
            Op::Open(_, _) => Ok(Vec::new(alloc)),
            Op::Close(_) => Ok(Vec::new(alloc)),
            Op::Seek(_, _) => Ok(Vec::new(alloc)),
            Op::Tell(_) => Ok(Vec::new(alloc)),
            Op::Read(_, _) => Ok(Vec::new(alloc)),
            Op::Write(f, _) => self.bodies(*f),
            Op::Append(f, _) => self.bodies(*f),
            Op::Truncate(f, _) => self.bodies(*f),
            Op::Punch(f, _) => self.bodies(*f),
            Op::Yank(_, _, _) => Ok(Vec::new(alloc)),
            Op::Peek { .. } => Ok(Vec::new(alloc)),
            Op::Cut { .. } => Ok(Vec::new(alloc)),
            Op::Paste(f, _) => self.bodies(*f),
            Op::Glue(f, _) => self.bodies(*f),
            Op::Concat(q, _) => file_changes(alloc, q),
            Op::Copy(_, q) => file_changes(alloc, q),
        }
    }

    /// Makes a call, and tells what it has changed. After an error the session is of no use.
    pub(crate) fn change(&mut self, cap: u64, op: &Op<Bytes>) -> Result<Vec<Item>, OutOfMemory>
        ensures left { IfOk result (λ v. session_in self.new ≡ (call cap (session_in self.old) op.now).session) }
        ensures changed { IfOk result (λ v. v.items ≡ what.writes cap (session_in self.old) op.now) }
    {
        let changes = self.changes(op)?;
        let due = self.call(cap, op)?;
        Ok(unless_refused(&due, changes))
    }
}
