//! The calls on slices: a slice is taken out of a file, shown and cut, and laid over a file or
//! added at its end.

ghost use Rattle.std.specs.Prelude.{◌↔◌, ◌+◌, ◌≤◌, ℕ, length, IsTrue, IfOk};
ghost use Rattle.wtf_model.specs.declared.op.Op.TheVariants as op;
ghost use Rattle.wtf_machine.specs.Sessions.{IsCalled};

use crate::bytes::part;
use crate::labels::Cursor;
use crate::workspace::Workspace;
use std::rc::RcSlice;
use wtf_base::{Bytes, OutOfMemory};
use wtf_model::{Answer, Word};

/// Whether n bytes from an offset on lie within these bytes.
fn is_within(off: u64, n: u64, bytes: &[u8]) -> bool
    ensures { IsTrue result ↔ (off + n ≤ length bytes.now) }
{
    match off.checked_add(n) {
        Some(end) => end <= bytes.len() as u64,
        None => false,
    }
}

impl Workspace {
    /// Makes a slice of the next n bytes of an open file, or of those that are left. The offset
    /// grows by their number.
    pub(crate) fn yank(&mut self, f: u8, n: u64, label: u8) -> Result<Answer, OutOfMemory>
        ensures { IfOk result (λ a. (cap : ℕ) →
            IsCalled cap (op.Yank f n label) self.old self.new a) }
    {
        let Some(handle) = self.handles.at(f) else {
            return Ok(Answer::Refused(Word::NoHandle));
        };
        let bytes = part(handle.off, n, self.bytes_on(handle));
        let len = bytes.len() as u64;
        let slice = RcSlice::from_slice(self.alloc, bytes)?;
        let moved = Cursor {
            path: handle.path.copy(self.alloc)?,
            off: handle.off + len,
        };
        self.handles.set(f, moved)?;
        self.slices.set(label, slice)?;
        Ok(Answer::Len(len))
    }

    /// Shows a part of a slice. A part that passes its end is refused.
    pub(crate) fn peek(&self, from: u8, off: u64, len: u64) -> Result<Answer, OutOfMemory>
        ensures { IfOk result (λ a. (cap : ℕ) →
            IsCalled cap (op.Peek from off len) self.now self.now a) }
    {
        let Some(slice) = self.slices.at(from) else {
            return Ok(Answer::Refused(Word::NoSlice));
        };
        let bytes = slice.as_slice();
        if !is_within(off, len, bytes) {
            return Ok(Answer::Refused(Word::Range));
        }
        let shown = Vec::from_slice(self.alloc, part(off, len, bytes))?;
        Ok(Answer::Shown(Bytes::of(shown)))
    }

    /// Makes a slice of a part of another. A part that passes its end is refused.
    pub(crate) fn cut(
        &mut self,
        from: u8,
        off: u64,
        len: u64,
        to: u8,
    ) -> Result<Answer, OutOfMemory>
        ensures { IfOk result (λ a. (cap : ℕ) →
            IsCalled cap (op.Cut from off len to) self.old self.new a) }
    {
        let Some(slice) = self.slices.at(from) else {
            return Ok(Answer::Refused(Word::NoSlice));
        };
        let bytes = slice.as_slice();
        if !is_within(off, len, bytes) {
            return Ok(Answer::Refused(Word::Range));
        }
        let made = RcSlice::from_slice(self.alloc, part(off, len, bytes))?;
        self.slices.set(to, made)?;
        Ok(Answer::Okay)
    }

    /// Writes the bytes of a slice into an open file, at its offset.
    pub(crate) fn paste(&mut self, cap: u64, f: u8, label: u8) -> Result<Answer, OutOfMemory>
        ensures { IfOk result (λ a. IsCalled cap (op.Paste f label) self.old self.new a) }
    {
        let Some(_) = self.handles.at(f) else {
            return Ok(Answer::Refused(Word::NoHandle));
        };
        let Some(slice) = self.slices.at(label) else {
            return Ok(Answer::Refused(Word::NoSlice));
        };
        let slice = RcSlice::clone(slice)?;
        self.write(cap, f, slice.as_slice())
    }

    /// Adds the bytes of a slice at the end of an open file.
    pub(crate) fn glue(&mut self, cap: u64, f: u8, label: u8) -> Result<Answer, OutOfMemory>
        ensures { IfOk result (λ a. IsCalled cap (op.Glue f label) self.old self.new a) }
    {
        let Some(_) = self.handles.at(f) else {
            return Ok(Answer::Refused(Word::NoHandle));
        };
        let Some(slice) = self.slices.at(label) else {
            return Ok(Answer::Refused(Word::NoSlice));
        };
        let slice = RcSlice::clone(slice)?;
        self.append(cap, f, slice.as_slice())
    }
}
