//! Copies of calls.

ghost use Rattle.std.specs.Prelude.{◌≡◌, IfOk};

use crate::same::copy_bytes;
use crate::{Op, Paths};
use std::alloc::Global;
use wtf_base::{Bytes, OutOfMemory};
use wtf_path::Path;

/// The same paths in memory of their own.
fn copy_paths(alloc: Global, paths: &Paths) -> Result<Paths, OutOfMemory>
    ensures { IfOk result (λ made. made ≡ paths.now) }
{
    let mut copied: Vec<Path> = Vec::new(alloc);
    let paths = paths.as_slice();
    for path in paths {
        let path = path.copy(alloc)?;
        copied.push(path)?;
    }
    Ok(Paths::of(copied))
}

/// The same call in memory of its own.
pub fn copy_op(alloc: Global, op: &Op<Bytes>) -> Result<Op<Bytes>, OutOfMemory>
    ensures { IfOk result (λ made. made ≡ op.now) }
{
    match op {
        Op::Mkdir(p) => Ok(Op::Mkdir(p.copy(alloc)?)),
        Op::Rmdir(p) => Ok(Op::Rmdir(p.copy(alloc)?)),
        Op::Create(p) => Ok(Op::Create(p.copy(alloc)?)),
        Op::Unlink(p) => Ok(Op::Unlink(p.copy(alloc)?)),
        Op::Rename(p, q) => Ok(Op::Rename(p.copy(alloc)?, q.copy(alloc)?)),
        Op::Link(p, q) => Ok(Op::Link(p.copy(alloc)?, q.copy(alloc)?)),
        Op::List(p) => Ok(Op::List(p.copy(alloc)?)),
        Op::Stat(p) => Ok(Op::Stat(p.copy(alloc)?)),
        Op::Open(f, p) => Ok(Op::Open(*f, p.copy(alloc)?)),
        Op::Close(f) => Ok(Op::Close(*f)),
        Op::Seek(f, place) => Ok(Op::Seek(*f, *place)),
        Op::Tell(f) => Ok(Op::Tell(*f)),
        Op::Read(f, n) => Ok(Op::Read(*f, *n)),
        Op::Write(f, bytes) => Ok(Op::Write(*f, copy_bytes(alloc, bytes)?)),
        Op::Append(f, bytes) => Ok(Op::Append(*f, copy_bytes(alloc, bytes)?)),
        Op::Truncate(f, n) => Ok(Op::Truncate(*f, *n)),
        Op::Punch(f, n) => Ok(Op::Punch(*f, *n)),
        Op::Yank(f, n, s) => Ok(Op::Yank(*f, *n, *s)),
        Op::Peek { from, off, len } => Ok(Op::Peek {
            from: *from,
            off: *off,
            len: *len,
        }),
        Op::Cut { from, off, len, to } => Ok(Op::Cut {
            from: *from,
            off: *off,
            len: *len,
            to: *to,
        }),
        Op::Paste(f, s) => Ok(Op::Paste(*f, *s)),
        Op::Glue(f, s) => Ok(Op::Glue(*f, *s)),
        Op::Concat(q, paths) => Ok(Op::Concat(q.copy(alloc)?, copy_paths(alloc, paths)?)),
        Op::Copy(p, q) => Ok(Op::Copy(p.copy(alloc)?, q.copy(alloc)?)),
    }
}
