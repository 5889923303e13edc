//! The calls on names.

ghost use Rattle.std.specs.Prelude.{◌≡◌, ◌<◌, ◌^◌, List, false, IsTrue, IfOk};
ghost use Rattle.wtf_kv.specs.Stores.{is_pinned};
ghost use Rattle.wtf_occ.specs.Attempts.{Grows, GrowsBy};
ghost use Rattle.wtf_model.specs.Steps.{IsLogged};
ghost use Rattle.wtf_meta.specs.Maps.{seen};
ghost use Rattle.wtf_meta.specs.Calls.{Caller};
ghost use Rattle.wtf_replay.specs.Built.{is_rw_op, is_slice_op};
ghost use Rattle.wtf_index.specs.Recorded.{unlink_keys, rename_keys};
ghost use Rattle.wtf_index.specs.Changed.{unlink_changes, rename_changes};
ghost use Rattle.wtf_replay.specs.Looked.{IsLooked, IsNameCall, IsNamed};
ghost use Rattle.wtf_replay.specs.Effects.{taken_keys, taken_changes};

use std::alloc::Global;
use wtf_base::{InodeId, OutOfMemory};
use wtf_index::{create, link, list, mkdir, rename, rmdir, unlink};
use wtf_kv::Kv;
use wtf_meta::Session;
use wtf_model::{Answer, Op, Word};
use wtf_occ::Attempt;
use wtf_path::Path;
use wtf_values::{Key, Node, Value};

/// Makes a call on names. Want of memory may leave the attempt grown.
pub(crate) fn name_call<D>(
    alloc: Global,
    kv: &Kv<Key, Value>,
    at: &mut Attempt<Key, Value>,
    session: &Session,
    new: InodeId,
    op: &Op<D>,
) -> Result<Answer, OutOfMemory>
    requires pinned { IsTrue (is_pinned kv.now at.old.base) }
    requires plain { is_rw_op op.now ≡ false }
    requires names { is_slice_op op.now ≡ false }
    ensures named { IfOk result
        (λ a. IsNamed (seen kv.now at.old) session.now new op.now at.old at.new a) }
    ensures grows { Grows at.old at.new }
{
    match op {
        Op::Mkdir(p) => return mkdir(alloc, kv, at, p),
        Op::Rmdir(p) => return rmdir(alloc, kv, at, p),
        Op::Create(p) => return create(alloc, kv, at, p, new),
        Op::Unlink(p) => return unlink_closed(alloc, kv, at, session, p),
        Op::Rename(p, q) => return rename_closed(alloc, kv, at, session, p, q),
        Op::Link(p, q) => {
            number_fits(new);
            return link(alloc, kv, at, p, q);
        }
        Op::List(p) => return list(alloc, kv, at, p),
        _ => unreachable!(),
    }
}

/// The number of a call fits its type.
fn number_fits(new: InodeId)
    ensures { new.index < 2 ^ 32 }
{}

/// Takes out a file, unless a handle is on it.
fn unlink_closed(
    alloc: Global,
    kv: &Kv<Key, Value>,
    at: &mut Attempt<Key, Value>,
    session: &Session,
    p: &Path,
) -> Result<Answer, OutOfMemory>
    requires { IsTrue (is_pinned kv.now at.old.base) }
    ensures taken { IfOk result (λ a. ((x : Caller) →
        IsNameCall x (seen kv.now at.old) session.now at.old at.new (Op.Unlink p.now) a) ×
        GrowsBy at.old at.new
        (taken_keys (seen kv.now at.old) session.now p.now
        (unlink_keys (seen kv.now at.old) p.now))
        (taken_changes (seen kv.now at.old) session.now p.now
        (unlink_changes (seen kv.now at.old) p.now)) × IsLogged a) }
    ensures grows { Grows at.old at.new }
{
    let busy = is_busy(alloc, kv, at, session, p)?;
    if busy {
        return Ok(Answer::Refused(Word::Busy));
    }
    unlink(alloc, kv, at, p)
}

/// Moves a file, unless a handle is on it.
fn rename_closed(
    alloc: Global,
    kv: &Kv<Key, Value>,
    at: &mut Attempt<Key, Value>,
    session: &Session,
    p: &Path,
    q: &Path,
) -> Result<Answer, OutOfMemory>
    requires { IsTrue (is_pinned kv.now at.old.base) }
    ensures taken { IfOk result (λ a. ((x : Caller) →
        IsNameCall x (seen kv.now at.old) session.now at.old at.new (Op.Rename p.now q.now) a) ×
        GrowsBy at.old at.new
        (taken_keys (seen kv.now at.old) session.now p.now
        (rename_keys (seen kv.now at.old) p.now q.now))
        (taken_changes (seen kv.now at.old) session.now p.now
        (rename_changes (seen kv.now at.old) p.now q.now)) × IsLogged a) }
    ensures grows { Grows at.old at.new }
{
    let busy = is_busy(alloc, kv, at, session, p)?;
    if busy {
        return Ok(Answer::Refused(Word::Busy));
    }
    rename(alloc, kv, at, p, q)
}

/// Whether a handle is on the file at a path. Then the path is recorded, else no key is.
fn is_busy(
    alloc: Global,
    kv: &Kv<Key, Value>,
    at: &mut Attempt<Key, Value>,
    session: &Session,
    p: &Path,
) -> Result<bool, OutOfMemory>
    requires { IsTrue (is_pinned kv.now at.old.base) }
    ensures looked { IfOk result
        (λ busy. IsLooked (seen kv.now at.old) session.now p.now at.old at.new busy) }
    ensures grows { Grows at.old at.new }
{
    if !session.holds(p) {
        return Ok(false);
    }
    let path = Key::Path(p.copy(alloc)?);
    let Some(Value::Node(Node::File(_))) = at.peek(kv, &path)? else {
        return Ok(false);
    };
    at.record(&path)?;
    Ok(true)
}
