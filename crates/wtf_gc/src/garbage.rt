//! What lies below the marks of a server and is not in use.

ghost use Rattle.std.specs.Prelude.{◌≡◌, ◌+◌, ◌≤◌, ◌<◌, ◌^◌, ◌||◌, ◌++◌, ℕ, map, IfOk, OnOk};
ghost use Rattle.wtf_base.specs.Places.{Place};
ghost use Rattle.wtf_gc.specs.Extents.{extents_cover};
ghost use Rattle.std.specs.List.{All};
ghost use Rattle.wtf_gc.specs.Frees.{ranges_of};
ghost use Rattle.wtf_gc.specs.Spans.{spans_cover};
ghost use Rattle.wtf_gc.specs.Views.{mark_in};
ghost use Rattle.wtf_gc.specs.Unused.{place_at, range_at, used_by, IsUnused};

use crate::extent::{Extent, Span};
use crate::marks::{FILES, mark_of};
use crate::spans::{gaps, total};
use std::alloc::Global;
use wtf_base::OutOfMemory;

/// The garbage of a server, and how many bytes it has.
#[derive(Debug, Drop)]
pub(crate) struct Garbage {
    pub(crate) extents: Vec<Extent>,
    pub(crate) bytes: u64,
}

/// Adds the extents in a file of server `k` as spans.
fn add_spans(extents: &[Extent], k: u8, file: u8, to: &mut Vec<Span>) -> Result<(), OutOfMemory>
    requires { All (λ s. s.from ≤ s.to) to.old.items }
    ensures order { All (λ s. s.from ≤ s.to) to.new.items }
    ensures adds { OnOk result ((x : ℕ) → spans_cover to.new.items x ≡
        (spans_cover to.old.items x || extents_cover extents.now (place_at k file x))) }
{
    for e in extents {
        if e.server == k && e.file == file {
            to.push(Span {
                from: e.from,
                to: e.to,
            })?;
        }
    }
    Ok(())
}

/// Adds the extents on server `k`.
fn add_on(extents: &[Extent], k: u8, to: &mut Vec<Extent>) -> Result<(), OutOfMemory>
    ensures { OnOk result ((p : Place) → p.server ≡ k →
        extents_cover to.new.items p ≡ (extents_cover to.old.items p || extents_cover extents.now p)) }
{
    for e in extents {
        if e.server == k {
            to.push(*e)?;
        }
    }
    Ok(())
}

/// What is in use on server `k`: what two scans found, and what was freed.
pub(crate) fn used_on(
    alloc: Global,
    older: &[Extent],
    newer: &[Extent],
    freed: &[Extent],
    k: u8,
) -> Result<Vec<Extent>, OutOfMemory>
    ensures { IfOk result (λ v. (p : Place) → p.server ≡ k →
        extents_cover v.items p ≡ used_by older.now newer.now freed.now p) }
{
    let mut used = Vec::new(alloc);
    add_on(older, k, &mut used)?;
    add_on(newer, k, &mut used)?;
    add_on(freed, k, &mut used)?;
    Ok(used)
}

/// What is in use of a file of server `k`, as spans in any order.
fn used_spans(alloc: Global, used: &[Extent], k: u8, file: u8) -> Result<Vec<Span>, OutOfMemory>
    ensures order { IfOk result (λ v. All (λ s. s.from ≤ s.to) v.items) }
    ensures used { IfOk result (λ v. (x : ℕ) →
        spans_cover v.items x ≡ extents_cover used.now (place_at k file x)) }
{
    let mut spans = Vec::new(alloc);
    add_spans(used, k, file, &mut spans)?;
    Ok(spans)
}

/// Puts spans of a file of server `k` behind extents.
fn put_spans(spans: &[Span], k: u8, file: u8, to: &mut Vec<Extent>) -> Result<(), OutOfMemory>
    requires { All (λ s. s.from ≤ s.to) spans.now }
    ensures { OnOk result (ranges_of to.new.items ≡
        ranges_of to.old.items ++ map (range_at k file) spans.now) }
{
    for s in spans {
        to.push(Extent {
            server: k,
            file,
            from: s.from,
            to: s.to,
        })?;
    }
    Ok(())
}

/// Adds what is not in use of a file of server `k` below its mark.
fn add_file(
    alloc: Global,
    marks: &[u64],
    used: &[Extent],
    k: u8,
    file: u8,
    to: &mut Garbage,
) -> Result<(), OutOfMemory>
    requires file { file < 8 }
    requires fits { mark_in marks.now k file < 2 ^ 61 }
    requires upto { IsUnused k (mark_in marks.now) (extents_cover used.now) file (ranges_of to.old.extents.items) to.old.bytes }
    ensures { OnOk result (IsUnused k (mark_in marks.now) (extents_cover used.now) (file + 1) (ranges_of to.new.extents.items) to.new.bytes) }
{
    let mark = mark_of(marks, k, file);
    let spans = gaps(alloc, used_spans(alloc, used, k, file)?, mark)?;
    put_spans(spans.as_slice(), k, file, &mut to.extents)?;
    to.bytes += total(spans.as_slice(), mark);
    Ok(())
}

/// What is not in use of server `k` below its marks.
pub(crate) fn unused_of(
    alloc: Global,
    marks: &[u64],
    used: &[Extent],
    k: u8,
) -> Result<Garbage, OutOfMemory>
    requires { (f : ℕ) → mark_in marks.now k f < 2 ^ 61 }
    ensures { IfOk result (λ g. IsUnused k (mark_in marks.now) (extents_cover used.now) 8 (ranges_of g.extents.items) g.bytes) }
{
    let mut all = Garbage {
        extents: Vec::new(alloc),
        bytes: 0,
    };
    for file in 0..FILES {
        add_file(alloc, marks, used, k, file, &mut all)?;
    }
    Ok(all)
}
