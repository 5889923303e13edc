//! What a change makes of a region.

ghost use Rattle.std.specs.Prelude.{◌≡◌, ◌+◌, ◌<◌, ◌^◌, [], IfOk, OnOk, IsTrue, None, Some};
ghost use Rattle.wtf_overlay.specs.Clips.{Within};
ghost use Rattle.wtf_overlay.specs.Origin.{pieces_len};
ghost use Rattle.wtf_values.specs.Bases.{base_below};
ghost use Rattle.wtf_values.specs.Regions.{emptied, pushed, pushed_all, end_over, clipped, zeroed_in, with_piece, with_pieces, fits_at_end};

use crate::{Pieces, RegionValue, Spill};
use std::alloc::Global;
use wtf_base::{OutOfMemory, Slice};
use wtf_overlay::{Entry, Overlay, Part, Piece};

impl Spill {
    /// What is left of the base below an end; `None` where that is no byte.
    fn cut(self, end: u32) -> Option<Spill>
        ensures { result ≡ base_below end (Some self) }
    {
        let visible = self.visible.min(end);
        if visible == 0 {
            return None;
        }
        Some(Spill {
            slice: self.slice,
            visible,
        })
    }
}

impl RegionValue {
    /// A region with no byte.
    pub fn empty(alloc: Global) -> Result<RegionValue, OutOfMemory>
        ensures { IfOk result (λ v. v ≡ emptied) }
    {
        let list = Overlay::new(alloc)?;
        Ok(RegionValue {
            end: 0,
            base: None,
            list,
        })
    }

    /// The region of these entries, up to this end.
    pub fn of_list(list: Overlay, end: u32) -> RegionValue
        requires { Within end list }
        ensures end { result.end ≡ end }
        ensures base { result.base ≡ None }
        ensures list { result.list ≡ list }
    {
        RegionValue {
            end,
            base: None,
            list,
        }
    }

    /// The region of the list in a slice, which is seen up to its end, with no entry over it.
    pub fn of_slice(alloc: Global, slice: Slice, end: u32) -> Result<RegionValue, OutOfMemory>
        requires { 0 < end }
        ensures end { IfOk result (λ v. v.end ≡ end) }
        ensures base { IfOk result (λ v. v.base ≡ Some (record { slice = slice; visible = end })) }
        ensures list { IfOk result (λ v. v.list ≡ []) }
    {
        let list = Overlay::new(alloc)?;
        let base = Some(Spill {
            slice,
            visible: end,
        });
        Ok(RegionValue { end, base, list })
    }

    /// The same region for another holder.
    pub fn copy(&self) -> Result<RegionValue, OutOfMemory>
        ensures { IfOk result (λ v. v ≡ self.now) }
    {
        let list = self.list.share()?;
        Ok(RegionValue {
            end: self.end,
            base: self.base,
            list,
        })
    }

    /// Whether two regions are sure to be the same, told where the list has `looks` entries at most.
    /// `false` says nothing.
    pub(crate) fn is_same(&self, other: &RegionValue, looks: usize) -> bool
        ensures { IsTrue result → self.now ≡ other.now }
    {
        self.list.len() <= looks
            && self.end == other.end
            && self.base == other.base
            && self.list.is_same(&other.list)
    }

    /// Lays an entry over the region, in place. Want of memory leaves it as it was.
    pub(crate) fn lay(&mut self, e: Entry) -> Result<(), OutOfMemory>
        ensures { OnOk result (self.new ≡ pushed (Some self.old) e) }
    {
        self.list.push(e)?;
        self.end = self.end.max(e.end());
        Ok(())
    }

    /// Lays entries over the region, in place and in order.
    pub(crate) fn lay_all(&mut self, entries: &[Entry]) -> Result<(), OutOfMemory>
        ensures { OnOk result (self.new ≡ pushed_all self.old entries.now) }
    {
        let end = last_end(self.end, entries);
        self.list.push_many(entries)?;
        self.end = end;
        Ok(())
    }

    /// The region with an entry laid over it.
    pub(crate) fn push(self, e: Entry) -> Result<RegionValue, OutOfMemory>
        ensures { IfOk result (λ v. v ≡ pushed (Some self) e) }
    {
        let mut region = self;
        region.lay(e)?;
        Ok(region)
    }

    /// The region with all at an end and above taken off.
    pub(crate) fn clip(self, end: u32) -> Result<RegionValue, OutOfMemory>
        ensures { IfOk result (λ v. v ≡ clipped end (Some self)) }
    {
        let RegionValue { base, mut list, .. } = self;
        list.clip(end)?;
        Ok(RegionValue {
            end,
            base: base_cut(base, end),
            list,
        })
    }

    /// The region with zeros on the part of a range below its end.
    pub(crate) fn zero_within(self, from: u32, upto: u32) -> Result<RegionValue, OutOfMemory>
        ensures { IfOk result (λ v. v ≡ zeroed_in from upto self) }
    {
        let upto = upto.min(self.end);
        if from >= upto {
            return Ok(self);
        }
        self.push(Entry::of(from, upto - from, Part::Zero))
    }

    /// Whether pieces fit at the end of a region of `size` bytes.
    pub(crate) fn has_room(&self, pieces: &Pieces, size: u32) -> bool
        ensures { result ≡ fits_at_end (Some self.now) pieces.now size }
    {
        self.end <= size && pieces.bytes() <= (size - self.end) as u64
    }

    /// The region with a piece added at its end.
    fn add(self, piece: &Piece) -> Result<RegionValue, OutOfMemory>
        requires { self.end + piece.now.len < 2 ^ 32 }
        ensures value { IfOk result (λ v. v ≡ with_piece self piece.now) }
        ensures end { IfOk result (λ v. v.end ≡ self.end + piece.now.len) }
    {
        let e = Entry::of(self.end, piece.len as u32, piece.part);
        self.push(e)
    }

    /// The region with pieces added at its end.
    pub(crate) fn add_all(self, pieces: &[Piece]) -> Result<RegionValue, OutOfMemory>
        requires { self.end + pieces_len pieces.now < 2 ^ 32 }
        ensures { IfOk result (λ v. v ≡ with_pieces self pieces.now) }
    {
        let mut region = self;
        for piece in pieces {
            region = region.add(piece)?;
        }
        Ok(region)
    }
}

/// The greatest of an end and the ends of entries.
fn last_end(end: u32, entries: &[Entry]) -> u32
    ensures { result ≡ end_over end entries.now }
{
    let mut last = end;
    for e in entries {
        last = last.max(e.end());
    }
    last
}

/// What is left of a base below an end.
fn base_cut(base: Option<Spill>, end: u32) -> Option<Spill>
    ensures { result ≡ base_below end base }
{
    match base {
        None => None,
        Some(spill) => spill.cut(end),
    }
}
