//! The handles and slices of a transaction.

ghost use Rattle.std.specs.Prelude.{◌≡◌, ◌<◌, ◌≤◌, ◌-◌, ◌^◌, ℕ, IfOk, IfSome, IsSome, IsSomeAnd, IsTrue, ◌↔◌, Some, None, false};
ghost use Rattle.std.specs.Option.{option_copied, option_map};
ghost use Rattle.wtf_overlay.specs.declared.part.Piece as Piece;
ghost use Rattle.wtf_overlay.specs.Origin.{pieces_len};
ghost use Rattle.wtf_model.specs.declared.limits.TheConstants.{MAX_HANDLES, MAX_SLICES};
ghost use Rattle.wtf_meta.specs.Slices.{bytes_in, HoldsByte};
ghost use Rattle.wtf_meta.specs.Sessions.{nothing_open, items_of, handle_in, slice_in, SetsHandle, SetsSlice, moved_to, IsOff};

use crate::kept::{ByteAt, Kept};
use std::alloc::Global;
use std::marker::Model;
use wtf_base::{InodeId, OutOfMemory};
use wtf_overlay::Piece;
use wtf_path::Path;

/// An open file: the path by which it was opened, its inode, and the offset in bytes.
#[derive(Debug, Drop)]
pub struct Handle {
    /// The path.
    pub path: Path,
    /// The file to which the path leads.
    pub inode: InodeId,
    /// The offset, in bytes.
    pub off: u64,
}

/// What a transaction has in hand: open handles and slices, by labels below 16. Contracts see both as
/// lists by label. A session is one word, so that what holds it is cheap to move. Only `new`, `copy` and
/// `index` take memory.
#[derive(Debug, Drop)]
pub struct Session {
    held: Box<Held>,
}

/// Handles and slices by label.
#[derive(Debug, Drop)]
struct Held {
    handles: [Option<Handle>; 16],
    slices: [Option<Kept>; 16],
}

impl Model for Session {
    ghost use Rattle.wtf_meta.specs.Sessions.{SessionView, session_view};

    ghost Value = { SessionView };

    ghost use Rattle.wtf_overlay.specs.contracts.part.Piece as piece;
    ghost use Rattle.std.specs.Coded.{codes};

    ghost coded = { Prim.hlevel (codes, piece.the_row.coded) };

    ghost view = { λ s. session_view s.held.value.handles s.held.value.slices };

    ghost use Rattle.wtf_meta.specs.Sessions.{AreLabels};

    ghost invariant = { λ s. AreLabels s.held.value.handles s.held.value.slices };
}

impl Session {
    /// Nothing is open.
    pub fn new(alloc: Global) -> Result<Session, OutOfMemory>
        ensures { IfOk result (λ s. s ≡ nothing_open) }
    {
        Ok(Session {
            held: Box::new(
                alloc,
                Held {
                    handles: [
                        None, None, None, None, None, None, None, None, None, None, None, None,
                        None, None, None, None,
                    ],
                    slices: [
                        None, None, None, None, None, None, None, None, None, None, None, None,
                        None, None, None, None,
                    ],
                },
            )?,
        })
    }

    /// The same handles and slices, in memory of their own.
    pub fn copy(&self, alloc: Global) -> Result<Session, OutOfMemory>
        ensures { IfOk result (λ s. s ≡ self.now) }
    {
        let mut handles = [
            None, None, None, None, None, None, None, None, None, None, None, None, None, None,
            None, None,
        ];
        let mut slices = [
            None, None, None, None, None, None, None, None, None, None, None, None, None, None,
            None, None,
        ];
        for label in 0..16usize {
            handles[label] = copy_handle(alloc, &self.held.handles[label])?;
            slices[label] = copy_slice(alloc, &self.held.slices[label])?;
        }
        Ok(Session {
            held: Box::new(alloc, Held { handles, slices })?,
        })
    }

    /// The handle of a label.
    pub fn handle(&self, f: u8) -> Option<&Handle>
        requires { f < MAX_HANDLES }
        ensures { option_copied result ≡ handle_in self.now f }
    {
        self.held.handles[f as usize].as_ref()
    }

    /// Opens a handle under a label, in place of the one that was there.
    pub fn put_handle(&mut self, f: u8, h: Handle)
        requires { f < MAX_HANDLES }
        ensures { SetsHandle f (Some h) self.old self.new }
    {
        self.held.handles[f as usize] = Some(h);
    }

    /// Ends the handle of a label, if there is one.
    pub fn end_handle(&mut self, f: u8)
        requires { f < MAX_HANDLES }
        ensures { SetsHandle f None self.old self.new }
    {
        self.held.handles[f as usize] = None;
    }

    /// Moves a handle that is there to an offset.
    pub fn move_handle(&mut self, f: u8, off: u64)
        requires label { f < MAX_HANDLES }
        requires open { IsSome (handle_in self.old f) }
        ensures { SetsHandle f (option_map (moved_to off) (handle_in self.old f)) self.old self.new }
    {
        if let Some(h) = &mut self.held.handles[f as usize] {
            h.off = off;
        }
    }

    /// The pieces of the slice of a label.
    pub fn slice(&self, s: u8) -> Option<&[Piece]>
        requires { s < MAX_SLICES }
        ensures { option_copied result ≡ slice_in self.now s }
    {
        match &self.held.slices[s as usize] {
            Some(kept) => Some(kept.pieces.as_slice()),
            None => None,
        }
    }

    /// Keeps pieces under a label, in place of those that were there.
    pub fn put_slice(&mut self, s: u8, pieces: Vec<Piece>)
        requires { s < MAX_SLICES }
        ensures { SetsSlice s (Some pieces.items) self.old self.new }
    {
        self.held.slices[s as usize] = Some(Kept::of(pieces));
    }

    /// Finds where the pieces of a slice end, if that is not known, so that `slice_len` and `find` are
    /// quick. Nothing changes that is seen.
    pub fn index(&mut self, alloc: Global, s: u8) -> Result<(), OutOfMemory>
        requires { s < MAX_SLICES }
        ensures { self.new ≡ self.old }
    {
        let Some(kept) = &mut self.held.slices[s as usize] else {
            return Ok(());
        };
        return kept.index(alloc);
    }

    /// The number of bytes of the slice of a label; 2^64 - 1 where there are more.
    pub fn slice_len(&self, s: u8) -> Option<u64>
        requires { s < MAX_SLICES }
        ensures { result ≡ option_map bytes_in (slice_in self.now s) }
    {
        let Some(kept) = &self.held.slices[s as usize] else {
            return None;
        };
        Some(kept.len())
    }

    /// Where the slice of a label holds a byte, if it has so many.
    pub fn find(&self, s: u8, off: u64) -> Option<ByteAt>
        requires label { s < MAX_SLICES }
        requires off { off < 2 ^ 64 - 1 }
        ensures found { IfSome result (λ at. IsSomeAnd (slice_in self.now s)
            (λ ps. HoldsByte ps off at.piece at.skip)) }
        ensures past { result ≡ None → IfSome (slice_in self.now s) (λ ps. pieces_len ps ≤ off) }
    {
        let Some(kept) = &self.held.slices[s as usize] else {
            return None;
        };
        kept.find(off)
    }

    /// Whether a handle was opened by the path.
    pub fn holds(&self, p: &Path) -> bool
        ensures held { IsTrue result → (f : ℕ) ×
            IsSomeAnd (handle_in self.now f) (λ h. h.path ≡ p.now) }
        ensures off { result ≡ false → IsOff p.now self.now }
    {
        let handles = self.held.handles.as_slice();
        for handle in handles {
            if is_by(handle, p) {
                return true;
            }
        }
        false
    }
}

/// Whether a handle was opened by the path.
fn is_by(handle: &Option<Handle>, p: &Path) -> bool
    ensures { IsTrue result ↔ IsSomeAnd handle.now (λ h. h.path ≡ p.now) }
{
    let Some(h) = handle else {
        return false;
    };
    h.path.as_bytes() == p.as_bytes()
}

/// A copy of a handle, if there is one.
fn copy_handle(alloc: Global, from: &Option<Handle>) -> Result<Option<Handle>, OutOfMemory>
    ensures { IfOk result (λ h. h ≡ from.now) }
{
    let Some(h) = from else {
        return Ok(None);
    };
    let path = h.path.copy(alloc)?;
    Ok(Some(Handle {
        path,
        inode: h.inode,
        off: h.off,
    }))
}

/// A copy of a slice, if there is one.
fn copy_slice(alloc: Global, from: &Option<Kept>) -> Result<Option<Kept>, OutOfMemory>
    ensures { IfOk result (λ kept. option_map items_of kept ≡ option_map items_of from.now) }
{
    let Some(kept) = from else {
        return Ok(None);
    };
    let copy = kept.copy(alloc)?;
    Ok(Some(copy))
}
