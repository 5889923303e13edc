//! Calls in rows, and what they are as calls of the crates.

ghost use Rattle.std.specs.Prelude.{◌≡◌, ◌≤◌, true, List, Bool, IfOk};
ghost use Rattle.wtf_overlay.specs.Origin.{Place};
ghost use Rattle.wtf_model.specs.declared.limits.TheConstants.{MAX_WRITTEN};
ghost use Rattle.wtf_path.specs.Grammar.{IsPath};
ghost use Rattle.wtf_model.specs.Form.{IsFormOp, IsData};
ghost use Rattle.wtf_rw.specs.Ops.{IsFormRw, IsWhole, RwBytes, HasSlice, GivenBytes, size_of};
ghost use Rattle.wtf_slicing.specs.Ops.{IsFormSlice};

use crate::store::path;
use std::alloc::Global;
use std::test::Fail;
use wtf_base::Bytes;
use wtf_model::limits::{MAX_HANDLES, MAX_NUMBER, MAX_SHOWN, MAX_SLICES, MAX_WRITTEN};
use wtf_model::{Op, Paths, Seek};
use wtf_path::Path;
use wtf_rw::{Given, RwOp};
use wtf_slicing::SliceOp;

/// A call.
#[derive(Clone, Copy)]
pub(crate) enum Step {
    Mkdir(&'static str),
    Create(&'static str),
    Open(u8, &'static str),
    Close(u8),
    Seek(u8, Seek),
    /// The handle 0 to an offset.
    Set(u64),
    Tell(u8),
    Read(u8, u64),
    Write(u8, &'static str),
    Append(u8, &'static str),
    Truncate(u8, u64),
    Punch(u8, u64),
    Stat(&'static str),
    Yank(u8, u64, u8),
    Peek(u8, u64, u64),
    Cut(u8, u64, u64, u8),
    Paste(u8, u8),
    Glue(u8, u8),
    Concat(&'static str, &'static [&'static str]),
    Copy(&'static str, &'static str),
}

fn add_paths(alloc: Global, all: &mut Vec<Path>, texts: &[&str]) -> Result<(), Fail> {
    for text in texts {
        let p = path(alloc, *text)?;
        all.push(p)?;
    }
    Ok(())
}

fn paths(alloc: Global, texts: &[&str]) -> Result<Paths, Fail> {
    let mut all = Vec::new(alloc);
    add_paths(alloc, &mut all, texts)?;
    Ok(Paths::of(all))
}

fn bytes(alloc: Global, text: &str) -> Result<Bytes, Fail> {
    Ok(Bytes::of(text.as_bytes().to_vec(alloc)?))
}

/// A call that takes no path and no bytes.
fn plain_op(step: Step) -> Option<Op<Bytes>> {
    match step {
        Step::Close(f) => return Some(Op::Close(f)),
        Step::Seek(f, to) => return Some(Op::Seek(f, to)),
        Step::Set(off) => return Some(Op::Seek(0, Seek::Set(off))),
        Step::Tell(f) => return Some(Op::Tell(f)),
        Step::Read(f, n) => return Some(Op::Read(f, n)),
        Step::Truncate(f, n) => return Some(Op::Truncate(f, n)),
        Step::Punch(f, n) => return Some(Op::Punch(f, n)),
        Step::Yank(f, n, to) => return Some(Op::Yank(f, n, to)),
        Step::Peek(from, off, len) => return Some(Op::Peek { from, off, len }),
        Step::Cut(from, off, len, to) => return Some(Op::Cut { from, off, len, to }),
        Step::Paste(f, from) => return Some(Op::Paste(f, from)),
        Step::Glue(f, from) => return Some(Op::Glue(f, from)),
        _ => return None,
    }
}

/// A call that takes one path.
fn path_op(alloc: Global, step: Step) -> Result<Option<Op<Bytes>>, Fail> {
    match step {
        Step::Mkdir(p) => return Ok(Some(Op::Mkdir(path(alloc, p)?))),
        Step::Create(p) => return Ok(Some(Op::Create(path(alloc, p)?))),
        Step::Open(f, p) => return Ok(Some(Op::Open(f, path(alloc, p)?))),
        Step::Stat(p) => return Ok(Some(Op::Stat(path(alloc, p)?))),
        _ => return Ok(None),
    }
}

fn concat_op(alloc: Global, q: &str, sources: &[&str]) -> Result<Op<Bytes>, Fail> {
    let sources = paths(alloc, sources)?;
    let q = path(alloc, q)?;
    Ok(Op::Concat(q, sources))
}

fn copy_op(alloc: Global, p: &str, q: &str) -> Result<Op<Bytes>, Fail> {
    let p = path(alloc, p)?;
    let q = path(alloc, q)?;
    Ok(Op::Copy(p, q))
}

/// A call that takes bytes, or more than one path.
fn long_op(alloc: Global, step: Step) -> Result<Op<Bytes>, Fail> {
    match step {
        Step::Write(f, text) => return Ok(Op::Write(f, bytes(alloc, text)?)),
        Step::Append(f, text) => return Ok(Op::Append(f, bytes(alloc, text)?)),
        Step::Concat(q, sources) => concat_op(alloc, q, sources),
        Step::Copy(p, q) => copy_op(alloc, p, q),
        _ => return Err(Fail::from("no call")),
    }
}

/// A call as a transaction takes it.
pub(crate) fn op(alloc: Global, step: Step) -> Result<Op<Bytes>, Fail> {
    if let Some(op) = plain_op(step) {
        return Ok(op);
    }
    if let Some(op) = path_op(alloc, step)? {
        return Ok(op);
    }
    long_op(alloc, step)
}

/// The call on handles or bytes, if it is one.
pub(crate) fn rw_op(op: &Op<Bytes>) -> Option<RwOp<'_>> {
    match op {
        Op::Open(f, p) => Some(RwOp::Open(*f, p)),
        Op::Close(f) => Some(RwOp::Close(*f)),
        Op::Seek(f, to) => Some(RwOp::Seek(*f, *to)),
        Op::Tell(f) => Some(RwOp::Tell(*f)),
        Op::Read(f, n) => Some(RwOp::Read(*f, *n)),
        Op::Write(f, bytes) => Some(RwOp::Write(*f, Given::Fresh(bytes.as_slice()))),
        Op::Append(f, bytes) => Some(RwOp::Append(*f, Given::Fresh(bytes.as_slice()))),
        Op::Truncate(f, n) => Some(RwOp::Truncate(*f, *n)),
        Op::Punch(f, n) => Some(RwOp::Punch(*f, *n)),
        Op::Stat(p) => Some(RwOp::Stat(p)),
        _ => None,
    }
}

/// The call on slices, if it is one.
pub(crate) fn slice_op(op: &Op<Bytes>) -> Option<SliceOp<'_>> {
    match op {
        Op::Yank(f, n, to) => Some(SliceOp::Yank(*f, *n, *to)),
        Op::Peek { from, off, len } => Some(SliceOp::Peek {
            from: *from,
            off: *off,
            len: *len,
        }),
        Op::Cut { from, off, len, to } => Some(SliceOp::Cut {
            from: *from,
            off: *off,
            len: *len,
            to: *to,
        }),
        Op::Paste(f, from) => Some(SliceOp::Paste(*f, *from)),
        Op::Glue(f, from) => Some(SliceOp::Glue(*f, *from)),
        Op::Concat(q, sources) => Some(SliceOp::Concat(q, sources)),
        Op::Copy(p, q) => Some(SliceOp::Copy(p, q)),
        _ => None,
    }
}

/// Whether there is not too much of some data.
fn is_short(given: &Given<'_>) -> bool
    ensures { result ≡ true → size_of given.now ≤ MAX_WRITTEN }
{
    match given {
        Given::Fresh(bytes) => bytes.len() as u64 <= MAX_WRITTEN,
        Given::Stored(kept) => kept.len as u64 <= MAX_WRITTEN,
    }
}

/// Whether a call on handles or bytes is in form.
pub(crate) fn is_rw_form(op: &RwOp<'_>) -> bool
    ensures { result ≡ true → IsFormRw op.now }
{
    match op {
        RwOp::Open(f, _) => *f < MAX_HANDLES,
        RwOp::Close(f) => *f < MAX_HANDLES,
        RwOp::Seek(f, _) => *f < MAX_HANDLES,
        RwOp::Tell(f) => *f < MAX_HANDLES,
        RwOp::Read(f, n) => *f < MAX_HANDLES && *n <= MAX_SHOWN,
        RwOp::Write(f, given) => *f < MAX_HANDLES && is_short(given),
        RwOp::Append(f, given) => *f < MAX_HANDLES && is_short(given),
        RwOp::Truncate(f, _) => *f < MAX_HANDLES,
        RwOp::Punch(f, _) => *f < MAX_HANDLES,
        RwOp::Stat(_) => true,
    }
}

/// Whether data is the call's own.
fn is_own(given: &Given<'_>) -> bool
    ensures whole { result ≡ true → HasSlice given.now }
    ensures bytes { result ≡ true → (P : List Place → Bool) → GivenBytes P given.now }
{
    match given {
        Given::Fresh(_) => true,
        Given::Stored(_) => false,
    }
}

/// Whether the data of a call, if it has some, is its own.
pub(crate) fn is_fresh(op: &RwOp<'_>) -> bool
    ensures whole { result ≡ true → IsWhole op.now }
    ensures bytes { result ≡ true → (P : List Place → Bool) → RwBytes P op.now }
{
    match op {
        RwOp::Write(_, given) => is_own(given),
        RwOp::Append(_, given) => is_own(given),
        _ => true,
    }
}

fn is_path(p: &Path) -> bool
    ensures { result ≡ true → IsPath p.now }
{
    let _text = p.as_bytes();
    true
}

fn is_small(bytes: &Bytes) -> bool
    ensures { result ≡ true → IsData bytes.now }
{
    bytes.as_slice().len() as u64 <= MAX_WRITTEN
}

/// Whether a call of a transaction is in form; not so of those that no row of transactions makes.
pub(crate) fn is_form(op: &Op<Bytes>) -> bool
    ensures { result ≡ true → IsFormOp IsData op.now }
{
    match op {
        Op::Mkdir(p) => is_path(p),
        Op::Create(p) => is_path(p),
        Op::Stat(p) => is_path(p),
        Op::Open(f, p) => *f < MAX_HANDLES && is_path(p),
        Op::Seek(f, Seek::Set(n)) => *f < MAX_HANDLES && *n <= MAX_NUMBER,
        Op::Read(f, n) => *f < MAX_HANDLES && *n <= MAX_SHOWN,
        Op::Yank(f, n, to) => *f < MAX_HANDLES && *n <= MAX_NUMBER && *to < MAX_SLICES,
        Op::Paste(f, from) => *f < MAX_HANDLES && *from < MAX_SLICES,
        Op::Write(f, bytes) => *f < MAX_HANDLES && is_small(bytes),
        Op::Append(f, bytes) => *f < MAX_HANDLES && is_small(bytes),
        _ => false,
    }
}

/// A call as a transaction takes it, in form.
pub(crate) fn form_op(alloc: Global, step: Step) -> Result<Op<Bytes>, Fail>
    ensures { IfOk result (IsFormOp IsData) }
{
    let op = op(alloc, step)?;
    if is_form(&op) {
        return Ok(op);
    }
    Err(Fail::from("a call out of form"))
}

/// Whether a call on slices is in form.
pub(crate) fn is_slice_form(op: &SliceOp<'_>) -> bool
    ensures { result ≡ true → IsFormSlice op.now }
{
    match op {
        SliceOp::Yank(f, _, to) => *f < MAX_HANDLES && *to < MAX_SLICES,
        SliceOp::Peek { from, off, len } => {
            *from < MAX_SLICES && *off <= MAX_NUMBER && *len <= MAX_SHOWN
        }
        SliceOp::Cut { from, off, len, to } => {
            *from < MAX_SLICES && *off <= MAX_NUMBER && *len <= MAX_NUMBER && *to < MAX_SLICES
        }
        SliceOp::Paste(f, from) => *f < MAX_HANDLES && *from < MAX_SLICES,
        SliceOp::Glue(f, from) => *f < MAX_HANDLES && *from < MAX_SLICES,
        SliceOp::Concat(_, _) => true,
        SliceOp::Copy(_, _) => true,
    }
}
