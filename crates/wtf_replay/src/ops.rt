//! Calls as they are given, as they are made, and as a log keeps them.

ghost use Rattle.std.specs.Prelude.{◌≡◌, List, false, IfSome, MatchOption, length};
ghost use Rattle.wtf_base.specs.Slices.{len_of};
ghost use Rattle.wtf_model.specs.Form.{IsFormOp, IsData, IsKeptData};
ghost use Rattle.wtf_replay.specs.Built.{is_rw_op, is_slice_op, IsOpOf, IsSliceOpOf, IsFresh, IsStored, call_data, with_data};
ghost use Rattle.wtf_replay.specs.Keeps.{IsKeptOf};

use wtf_base::{Bytes, Kept, Slice};
use wtf_model::Op;
use wtf_rw::{Given, RwOp};
use wtf_slicing::SliceOp;

/// A call that is made for the first time, on its own bytes; none where it is no call on handles
/// or bytes.
pub(crate) fn fresh_of(op: &Op<Bytes>) -> Option<RwOp<'_>>
    ensures { MatchOption result (is_rw_op op.now ≡ false) (λ r. IsOpOf IsFresh r op.now) }
{
    match op {
        Op::Open(f, p) => Some(RwOp::Open(*f, p)),
        Op::Close(f) => Some(RwOp::Close(*f)),
        Op::Seek(f, place) => Some(RwOp::Seek(*f, *place)),
        Op::Tell(f) => Some(RwOp::Tell(*f)),
        Op::Read(f, n) => Some(RwOp::Read(*f, *n)),
        Op::Write(f, bytes) => Some(RwOp::Write(*f, Given::Fresh(bytes.as_slice()))),
        Op::Append(f, bytes) => Some(RwOp::Append(*f, Given::Fresh(bytes.as_slice()))),
        Op::Truncate(f, n) => Some(RwOp::Truncate(*f, *n)),
        Op::Punch(f, n) => Some(RwOp::Punch(*f, *n)),
        Op::Stat(p) => Some(RwOp::Stat(p)),
        _ => None,
    }
}

/// A call of a log that is made once more, on what the log kept of its bytes; none where it is no
/// call on handles or bytes.
pub(crate) fn stored_of(op: &Op<Kept>) -> Option<RwOp<'_>>
    ensures { MatchOption result (is_rw_op op.now ≡ false) (λ r. IsOpOf IsStored r op.now) }
{
    match op {
        Op::Open(f, p) => Some(RwOp::Open(*f, p)),
        Op::Close(f) => Some(RwOp::Close(*f)),
        Op::Seek(f, place) => Some(RwOp::Seek(*f, *place)),
        Op::Tell(f) => Some(RwOp::Tell(*f)),
        Op::Read(f, n) => Some(RwOp::Read(*f, *n)),
        Op::Write(f, kept) => Some(RwOp::Write(*f, Given::Stored(*kept))),
        Op::Append(f, kept) => Some(RwOp::Append(*f, Given::Stored(*kept))),
        Op::Truncate(f, n) => Some(RwOp::Truncate(*f, *n)),
        Op::Punch(f, n) => Some(RwOp::Punch(*f, *n)),
        Op::Stat(p) => Some(RwOp::Stat(p)),
        _ => None,
    }
}

/// A call on slices, or one that makes a file of others; none where it is another.
pub(crate) fn slice_of<D>(op: &Op<D>) -> Option<SliceOp<'_>>
    ensures { MatchOption result (is_slice_op op.now ≡ false) (λ r. IsSliceOpOf r op.now) }
{
    match op {
        Op::Yank(f, n, s) => Some(SliceOp::Yank(*f, *n, *s)),
        Op::Peek { from, off, len } => Some(SliceOp::Peek {
            from: *from,
            off: *off,
            len: *len,
        }),
        Op::Cut { from, off, len, to } => Some(SliceOp::Cut {
            from: *from,
            off: *off,
            len: *len,
            to: *to,
        }),
        Op::Paste(f, s) => Some(SliceOp::Paste(*f, *s)),
        Op::Glue(f, s) => Some(SliceOp::Glue(*f, *s)),
        Op::Concat(q, paths) => Some(SliceOp::Concat(q, paths)),
        Op::Copy(p, q) => Some(SliceOp::Copy(p, q)),
        _ => None,
    }
}

/// The number of bytes of a call's data.
fn data_len(op: &Op<Bytes>) -> u32
    requires { IsFormOp IsData op.now }
    ensures { result ≡ length (call_data op.now) }
{
    match op {
        Op::Write(_, bytes) => bytes.as_slice().len() as u32,
        Op::Append(_, bytes) => bytes.as_slice().len() as u32,
        _ => 0,
    }
}

/// What a log keeps of a call's data: the slice that was stored of it, and the number of its bytes.
fn kept_for(op: &Op<Bytes>, own: Option<Slice>) -> Kept
    requires form { IsFormOp IsData op.now }
    requires own { IfSome own (λ s. len_of s ≡ length (call_data op.now)) }
    ensures len { result.len ≡ length (call_data op.now) }
    ensures slice { result.slice ≡ own }
{
    match own {
        Some(slice) => Kept {
            len: slice.len(),
            slice: Some(slice),
        },
        None => Kept {
            len: data_len(op),
            slice: None,
        },
    }
}

/// The call with this in place of its data.
fn keeping(op: Op<Bytes>, kept: Kept) -> Op<Kept>
    ensures { result ≡ with_data kept op }
{
    match op {
        Op::Mkdir(p) => Op::Mkdir(p),
        Op::Rmdir(p) => Op::Rmdir(p),
        Op::Create(p) => Op::Create(p),
        Op::Unlink(p) => Op::Unlink(p),
        Op::Rename(p, q) => Op::Rename(p, q),
        Op::Link(p, q) => Op::Link(p, q),
        Op::List(p) => Op::List(p),
        Op::Stat(p) => Op::Stat(p),
        Op::Open(f, p) => Op::Open(f, p),
        Op::Close(f) => Op::Close(f),
        Op::Seek(f, place) => Op::Seek(f, place),
        Op::Tell(f) => Op::Tell(f),
        Op::Read(f, n) => Op::Read(f, n),
        Op::Write(f, _) => Op::Write(f, kept),
        Op::Append(f, _) => Op::Append(f, kept),
        Op::Truncate(f, n) => Op::Truncate(f, n),
        Op::Punch(f, n) => Op::Punch(f, n),
        Op::Yank(f, n, s) => Op::Yank(f, n, s),
        Op::Peek { from, off, len } => Op::Peek { from, off, len },
        Op::Cut { from, off, len, to } => Op::Cut { from, off, len, to },
        Op::Paste(f, s) => Op::Paste(f, s),
        Op::Glue(f, s) => Op::Glue(f, s),
        Op::Concat(q, paths) => Op::Concat(q, paths),
        Op::Copy(p, q) => Op::Copy(p, q),
    }
}

/// The call as a log keeps it, with the slice that was stored of its data.
pub(crate) fn kept_of(op: Op<Bytes>, own: Option<Slice>) -> Op<Kept>
    requires form { IsFormOp IsData op }
    requires own { IfSome own (λ s. len_of s ≡ length (call_data op)) }
    ensures kept { IsKeptOf op own result }
    ensures form { IsFormOp IsKeptData result }
{
    let kept = kept_for(&op, own);
    keeping(op, kept)
}
