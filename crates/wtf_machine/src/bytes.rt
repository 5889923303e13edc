//! Calls on the bytes of files, and the new contents that they make.

ghost use Rattle.std.specs.Prelude.{◌≡◌, ◌+◌, ◌++◌, ◌≤◌, ◌<◌, ℕ, length, take, drop, IfOk, OnOk, IfSome, IfNone};
ghost use Rattle.wtf_model.specs.declared.op.Op.TheVariants as op;
ghost use Rattle.wtf_model.specs.Done.{set_bytes};
ghost use Rattle.wtf_model.specs.Done as done;
ghost use Rattle.wtf_model.specs.ByteCalls as calls;
ghost use Rattle.wtf_machine.specs.Sessions.{session_in, IsCalled};

use crate::labels::Cursor;
use crate::path_map::FileContent;
use crate::workspace::Workspace;
use std::alloc::Global;
use std::rc::RcSlice;
use wtf_base::{Bytes, OutOfMemory};
use wtf_model::{Answer, Word};
use wtf_path::Path;

/// The end of so many bytes from an offset on, where it passes no limit.
pub(crate) fn end_within(cap: u64, off: u64, len: usize) -> Option<u64>
    ensures none { IfNone result (cap < off + len) }
    ensures some { IfSome result (λ end. (end ≡ off + len) × (end ≤ cap)) }
{
    let end = off.checked_add(len as u64)?;
    if end <= cap { Some(end) } else { None }
}

/// The first n bytes, or all where there are fewer.
fn head(n: u64, bytes: &[u8]) -> &[u8]
    ensures { result.now ≡ take n bytes.now }
{
    if n < bytes.len() as u64 {
        &bytes[..n as usize]
    } else {
        bytes
    }
}

/// The bytes from an offset on; none where they end before it.
fn tail(off: u64, bytes: &[u8]) -> &[u8]
    ensures { result.now ≡ drop off bytes.now }
{
    if off < bytes.len() as u64 {
        &bytes[off as usize..]
    } else {
        &[]
    }
}

/// The n bytes from an offset on, or those that are left.
pub(crate) fn part(off: u64, n: u64, bytes: &[u8]) -> &[u8]
    ensures { result.now ≡ done.part off n bytes.now }
{
    head(n, tail(off, bytes))
}

/// The offset behind that part.
pub(crate) fn part_end(off: u64, n: u64, bytes: &[u8]) -> u64
    ensures { result ≡ off + length (done.part off n bytes.now) }
{
    off + part(off, n, bytes).len() as u64
}

/// The first n bytes, with zeros behind them where there are fewer.
pub(crate) fn resized(alloc: Global, old: &[u8], n: u64) -> Result<Vec<u8>, OutOfMemory>
    ensures { IfOk result (λ v. v.items ≡ calls.resized old.now n) }
{
    let mut made = Vec::from_slice(alloc, old)?;
    made.resize(n as usize, 0)?;
    Ok(made)
}

/// The bytes with new ones in their place at an offset, after zeros where the old ones end before
/// it.
pub(crate) fn written(
    alloc: Global,
    old: &[u8],
    off: u64,
    new: &[u8],
) -> Result<Vec<u8>, OutOfMemory>
    ensures { IfOk result (λ v. v.items ≡ calls.written old.now off new.now) }
{
    let mut made = resized(alloc, old, off)?;
    made.extend_from_slice(new)?;
    made.extend_from_slice(tail(new.len() as u64, tail(off, old)))?;
    Ok(made)
}

/// The bytes with zeros in place of n of them from an offset on, as far as they go.
pub(crate) fn zeroed(alloc: Global, old: &[u8], off: u64, n: u64) -> Result<Vec<u8>, OutOfMemory>
    ensures { IfOk result (λ v. v.items ≡ calls.zeroed old.now off n) }
{
    let mut made = Vec::from_slice(alloc, head(off, old))?;
    let zeros = vec![in alloc; 0; part(off, n, old).len()]?;
    made.extend_from_slice(&zeros)?;
    made.extend_from_slice(tail(n, tail(off, old)))?;
    Ok(made)
}

/// Bytes, and others behind them.
pub(crate) fn joined(alloc: Global, front: &[u8], back: &[u8]) -> Result<Vec<u8>, OutOfMemory>
    ensures { IfOk result (λ v. v.items ≡ front.now ++ back.now) }
{
    let mut made = Vec::from_slice(alloc, front)?;
    made.extend_from_slice(back)?;
    Ok(made)
}

impl Workspace {
    /// The file at a path becomes one of these bytes, at each of its paths. Where none stands there, nothing changes.
    pub(crate) fn put_bytes(&mut self, path: &Path, bytes: Vec<u8>) -> Result<(), OutOfMemory>
        ensures { OnOk result (session_in self.new ≡ set_bytes (session_in self.old) path.now bytes.items) }
    {
        let paths = match self.file(path) {
            Ok(file) => file.paths.clone()?,
            Err(_) => return Ok(()),
        };
        let bytes = RcSlice::from_vec(bytes)?;
        let file = FileContent { paths, bytes };
        self.tree.refile(&file.paths, &file)?;
        Ok(())
    }

    /// Shows the next n bytes of a handle's file, or those that are left. The handle moves on by
    /// their number.
    pub(crate) fn read(&mut self, f: u8, n: u64) -> Result<Answer, OutOfMemory>
        ensures { IfOk result (λ a. (cap : ℕ) → IsCalled cap (op.Read f n) self.old self.new a) }
    {
        let Some(handle) = self.handles.at(f) else {
            return Ok(Answer::Refused(Word::NoHandle));
        };
        let bytes = self.bytes_on(handle);
        let shown = Vec::from_slice(self.alloc, part(handle.off, n, bytes))?;
        let off = part_end(handle.off, n, bytes);
        let path = handle.path.copy(self.alloc)?;
        self.handles.set(f, Cursor { path, off })?;
        Ok(Answer::Shown(Bytes::of(shown)))
    }

    /// Puts bytes in place of those at a handle's offset, where no file may be longer than cap. The
    /// handle moves on by their number; no byte changes nothing.
    pub(crate) fn write(&mut self, cap: u64, f: u8, bytes: &[u8]) -> Result<Answer, OutOfMemory>
        ensures { IfOk result (λ a. IsCalled cap (op.Write f bytes.now) self.old self.new a) }
    {
        let Some(handle) = self.handles.at(f) else {
            return Ok(Answer::Refused(Word::NoHandle));
        };
        if bytes.is_empty() {
            return Ok(Answer::Okay);
        }
        let Some(off) = end_within(cap, handle.off, bytes.len()) else {
            return Ok(Answer::Refused(Word::TooBig));
        };
        let made = written(self.alloc, self.bytes_on(handle), handle.off, bytes)?;
        let file = handle.path.copy(self.alloc)?;
        let path = handle.path.copy(self.alloc)?;
        self.handles.set(f, Cursor { path, off })?;
        self.put_bytes(&file, made)?;
        Ok(Answer::Okay)
    }

    /// Adds bytes at the end of a handle's file, where no file may be longer than cap. The handle
    /// stays.
    pub(crate) fn append(&mut self, cap: u64, f: u8, bytes: &[u8]) -> Result<Answer, OutOfMemory>
        ensures { IfOk result (λ a. IsCalled cap (op.Append f bytes.now) self.old self.new a) }
    {
        let Some(handle) = self.handles.at(f) else {
            return Ok(Answer::Refused(Word::NoHandle));
        };
        let old = self.bytes_on(handle);
        let Some(_) = end_within(cap, old.len() as u64, bytes.len()) else {
            return Ok(Answer::Refused(Word::TooBig));
        };
        let made = joined(self.alloc, old, bytes)?;
        let path = handle.path.copy(self.alloc)?;
        self.put_bytes(&path, made)?;
        Ok(Answer::Okay)
    }

    /// Cuts a handle's file to n bytes, or pads it with zeros up to n, where no file may be longer
    /// than cap. The handle stays.
    pub(crate) fn truncate(&mut self, cap: u64, f: u8, n: u64) -> Result<Answer, OutOfMemory>
        ensures { IfOk result (λ a. IsCalled cap (op.Truncate f n) self.old self.new a) }
    {
        let Some(handle) = self.handles.at(f) else {
            return Ok(Answer::Refused(Word::NoHandle));
        };
        if n > cap {
            return Ok(Answer::Refused(Word::TooBig));
        }
        let made = resized(self.alloc, self.bytes_on(handle), n)?;
        let path = handle.path.copy(self.alloc)?;
        self.put_bytes(&path, made)?;
        Ok(Answer::Okay)
    }

    /// Puts zeros in place of n bytes from a handle's offset on, as far as its file goes. The
    /// handle stays.
    pub(crate) fn punch(&mut self, f: u8, n: u64) -> Result<Answer, OutOfMemory>
        ensures { IfOk result (λ a. (cap : ℕ) → IsCalled cap (op.Punch f n) self.old self.new a) }
    {
        let Some(handle) = self.handles.at(f) else {
            return Ok(Answer::Refused(Word::NoHandle));
        };
        let made = zeroed(self.alloc, self.bytes_on(handle), handle.off, n)?;
        let path = handle.path.copy(self.alloc)?;
        self.put_bytes(&path, made)?;
        Ok(Answer::Okay)
    }
}
