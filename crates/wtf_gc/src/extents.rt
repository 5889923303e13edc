//! Sets of bytes of backing files, as lists of extents.

ghost use Rattle.std.specs.Prelude.{◌≡◌, ◌||◌, ◌++◌, [], take, length, IfOk, OnOk, OnErr, MatchOption, ⊤};
ghost use Rattle.wtf_base.specs.Places.{Place};
ghost use Rattle.wtf_gc.specs.Extents.{has, extents_cover};

use crate::extent::Extent;
use std::alloc::Global;
use std::marker::Model;
use wtf_base::OutOfMemory;

// A list is merged first once it is this long.
const SHORT: usize = 64;

/// Extents that may share bytes. They are sorted and merged once there are twice as many as the last
/// merge left, and at least 64. Merging saves memory alone. Contracts see their list.
#[derive(Debug, Drop)]
pub(crate) struct Extents {
    list: Vec<Extent>,
    due: usize,
}

impl Model for Extents {
    ghost use Rattle.std.specs.Prelude.{List};
    ghost use Rattle.wtf_gc.specs.declared.extent.Extent.{Extent};

    ghost Value = { List Extent };

    ghost view = { λ s. s.list.items };
}

impl Extent {
    /// Both as one, where this one begins no later than the other and reaches it.
    fn joined(&self, next: &Extent) -> Option<Extent>
        ensures { MatchOption result ⊤ (λ both. (p : Place) →
            has both p ≡ (has self.now p || has next.now p)) }
    {
        if self.server != next.server || self.file != next.file {
            return None;
        }
        if next.from < self.from || self.to < next.from {
            return None;
        }
        Some(Extent {
            server: self.server,
            file: self.file,
            from: self.from,
            to: self.to.max(next.to),
        })
    }
}

impl Extents {
    /// No bytes.
    pub(crate) fn new(alloc: Global) -> Extents
        ensures { result ≡ [] }
    {
        Extents {
            list: Vec::new(alloc),
            due: SHORT,
        }
    }

    /// The extents.
    pub(crate) fn as_slice(&self) -> &[Extent]
        ensures { result.now ≡ self.now }
    {
        self.list.as_slice()
    }

    /// The number of extents.
    pub(crate) fn len(&self) -> usize
        ensures { result ≡ length self.now }
    {
        self.list.len()
    }

    /// Adds an extent. After an error the bytes are as before.
    pub(crate) fn add(&mut self, alloc: Global, e: Extent) -> Result<(), OutOfMemory>
        ensures ok { OnOk result ((p : Place) →
            extents_cover self.new p ≡ (extents_cover self.old p || has e p)) }
        ensures err { OnErr result ((p : Place) → extents_cover self.new p ≡ extents_cover self.old p) }
    {
        self.merge_when_due(alloc)?;
        self.list.push(e)?;
        Ok(())
    }

    /// Puts extents behind those that there are. After an error there are as many as before.
    pub(crate) fn append(&mut self, more: &[Extent]) -> Result<(), OutOfMemory>
        ensures ok { OnOk result (self.new ≡ self.old ++ more.now) }
        ensures err { OnErr result (self.new ≡ self.old) }
    {
        self.list.extend_from_slice(more)?;
        Ok(())
    }

    /// Keeps the first `n` extents.
    pub(crate) fn shorten(&mut self, n: usize)
        ensures { self.new ≡ take n self.old }
    {
        self.list.truncate(n);
    }

    /// Merges the extents, where there are twice as many as the last merge left, and at least 64.
    pub(crate) fn merge_when_due(&mut self, alloc: Global) -> Result<(), OutOfMemory>
        ensures { (p : Place) → extents_cover self.new p ≡ extents_cover self.old p }
    {
        if self.list.len() < self.due {
            return Ok(());
        }
        self.list.sort_by_key(|e| (e.server, e.file, e.from))?;
        let list = merged(alloc, self.list.as_slice())?;
        self.due = list.len().saturating_mul(2).max(SHORT);
        self.list = list;
        Ok(())
    }
}

/// The bytes of sorted extents, of which those are one that share bytes or touch.
fn merged(alloc: Global, extents: &[Extent]) -> Result<Vec<Extent>, OutOfMemory>
    ensures { IfOk result (λ v. (p : Place) → extents_cover v.items p ≡ extents_cover extents.now p) }
{
    let mut out = Vec::new(alloc);
    for e in extents {
        put(&mut out, *e)?;
    }
    Ok(out)
}

/// Puts an extent behind the others, as one with the last where they can be one.
fn put(out: &mut Vec<Extent>, e: Extent) -> Result<(), OutOfMemory>
    ensures { OnOk result ((p : Place) →
        extents_cover out.new.items p ≡ (extents_cover out.old.items p || has e p)) }
{
    let Some(last) = out.pop() else {
        out.push(e)?;
        return Ok(());
    };
    let Some(both) = last.joined(&e) else {
        out.push(last)?;
        out.push(e)?;
        return Ok(());
    };
    out.push(both)?;
    Ok(())
}
