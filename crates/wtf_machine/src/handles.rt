//! Calls on handles, and the bytes of the files that they are open on.

ghost use Rattle.std.specs.Prelude.{◌≡◌, ℕ, nat_le, if◌then◌else◌, IfOk, IfSome, IfNone, Some, None, Ok, Err};
ghost use Rattle.wtf_model.specs.declared.op.Op.TheVariants as op;
ghost use Rattle.wtf_model.specs.Tree.{source};
ghost use Rattle.wtf_model.specs.HandleCalls.{lands};
ghost use Rattle.wtf_model.specs.Done.{bytes_at, bytes_of_handle};
ghost use Rattle.wtf_machine.specs.Maps.{handle_of};
ghost use Rattle.wtf_machine.specs.Sessions.{session_in, IsCalled};

use crate::labels::Cursor;
use crate::path_map::PathNode;
use crate::workspace::Workspace;
use wtf_base::OutOfMemory;
use wtf_model::{Answer, Seek, Word};
use wtf_path::Path;

/// An offset or a length that passes no limit.
fn up_to(cap: u64, n: u64) -> Option<u64>
    ensures { result ≡ (if nat_le n cap then Some n else None) }
{
    if n <= cap { Some(n) } else { None }
}

/// Where a seek leads from an offset in a file of so many bytes; nowhere where that is below 0 or
/// above the greatest length of a file.
fn landing(cap: u64, len: u64, off: u64, place: Seek) -> Option<u64>
    ensures { result ≡ lands cap len off place }
{
    match place {
        Seek::Set(n) => up_to(cap, n),
        Seek::Fwd(n) => up_to(cap, off.checked_add(n)?),
        Seek::Back(n) => off.checked_sub(n),
        Seek::End => Some(len),
    }
}

impl Workspace {
    /// The bytes of a handle's file, and none where its path is no file.
    pub(crate) fn bytes_on(&self, handle: &Cursor) -> &[u8]
        ensures { result.now ≡ bytes_of_handle (session_in self.now) (handle_of handle.now) }
    {
        self.bytes_at(&handle.path)
    }

    /// The bytes of the file at a path, and none where no file stands there.
    pub(crate) fn bytes_at(&self, path: &Path) -> &[u8]
        ensures { result.now ≡ bytes_at self.now.tree path.now }
    {
        match self.tree.node(path) {
            Some(PathNode::Content(file)) => file.bytes.as_slice(),
            _ => &[],
        }
    }

    /// Why a call that wants a file at a path is refused; `None` where a file stands there.
    fn not_a_file(&self, path: &Path) -> Option<Word>
        ensures none { IfNone result (source self.now.tree path.now ≡ Ok (bytes_at self.now.tree path.now)) }
        ensures some { IfSome result (λ why. source self.now.tree path.now ≡ Err why) }
    {
        match self.tree.node(path) {
            Some(PathNode::Content(_)) => None,
            Some(PathNode::Folder) => Some(Word::IsDir),
            None => Some(Word::NoEnt),
        }
    }

    /// Opens a file at offset 0, under a label that is not taken.
    pub(crate) fn open(&mut self, f: u8, p: &Path) -> Result<Answer, OutOfMemory>
        ensures { IfOk result (λ a. (cap : ℕ) → IsCalled cap (op.Open f p.now) self.old self.new a) }
    {
        if self.handles.at(f).is_some() {
            return Ok(Answer::Refused(Word::InUse));
        }
        if let Some(why) = self.not_a_file(p) {
            return Ok(Answer::Refused(why));
        }
        let path = p.copy(self.alloc)?;
        self.handles.set(f, Cursor { path, off: 0 })?;
        Ok(Answer::Okay)
    }

    /// Closes a handle. No memory is taken.
    pub(crate) fn close(&mut self, f: u8) -> Answer
        ensures { (cap : ℕ) → IsCalled cap (op.Close f) self.old self.new result }
    {
        let Some(_) = self.handles.at(f) else {
            return Answer::Refused(Word::NoHandle);
        };
        self.handles.close(f);
        Answer::Okay
    }

    /// Moves a handle, where no file may be longer than cap.
    pub(crate) fn seek(&mut self, cap: u64, f: u8, place: Seek) -> Result<Answer, OutOfMemory>
        ensures { IfOk result (λ a. IsCalled cap (op.Seek f place) self.old self.new a) }
    {
        let Some(handle) = self.handles.at(f) else {
            return Ok(Answer::Refused(Word::NoHandle));
        };
        let len = self.bytes_on(handle).len() as u64;
        let Some(off) = landing(cap, len, handle.off, place) else {
            return Ok(Answer::Refused(Word::Range));
        };
        let path = handle.path.copy(self.alloc)?;
        self.handles.set(f, Cursor { path, off })?;
        Ok(Answer::Okay)
    }

    /// Where a handle stands.
    pub(crate) fn tell(&self, f: u8) -> Answer
        ensures { (cap : ℕ) → IsCalled cap (op.Tell f) self.now self.now result }
    {
        match self.handles.at(f) {
            Some(handle) => Answer::At(handle.off),
            None => Answer::Refused(Word::NoHandle),
        }
    }
}
