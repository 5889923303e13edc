//! The calls that open and close a handle, and tell where it stands.

ghost use Rattle.std.specs.Prelude.{◌≡◌, ◌<◌, ℕ, None, IsTrue, IfOk};
ghost use Rattle.wtf_kv.specs.Stores.{is_pinned};
ghost use Rattle.wtf_model.specs.declared.limits.TheConstants.{MAX_HANDLES};
ghost use Rattle.wtf_model.specs.Steps.{IsLogged};
ghost use Rattle.wtf_meta.specs.Maps.{Map, seen};
ghost use Rattle.wtf_meta.specs.Sessions.{handle_in, SetsHandle};
ghost use Rattle.wtf_meta.specs.Calls.{Caller, InHand};
ghost use Rattle.wtf_steps.specs.Holding.{LeavesHand};
ghost use Rattle.wtf_steps.specs.Steps.{in_hand, IsStepWith, NeedsNoBytes};
ghost use Rattle.wtf_rw.specs.Called.{Looks};
ghost use Rattle.wtf_rw.specs.Held.{OpensFile};
ghost use Rattle.wtf_rw.specs.Ops.{IsPlainStep};
ghost use Rattle.wtf_rw.specs.Recorded.{open_keys};

use crate::RwOp;
use std::alloc::Global;
use wtf_base::OutOfMemory;
use wtf_index::look_up;
use wtf_kv::Kv;
use wtf_meta::{Handle, Session};
use wtf_model::{Answer, Op, Word};
use wtf_occ::Attempt;
use wtf_path::Path;
use wtf_steps::handle_of;
use wtf_values::{Key, Node, Value};

/// Opens a handle on the file `p`, at its begin. It is refused for a handle that is open, for what
/// is not there, and for a directory; then nothing changes. Want of memory may leave the attempt
/// grown.
pub(crate) fn open(
    alloc: Global,
    kv: &Kv<Key, Value>,
    at: &mut Attempt<Key, Value>,
    s: &mut Session,
    f: u8,
    p: &Path,
) -> Result<Answer, OutOfMemory>
    requires pinned { IsTrue (is_pinned kv.now at.old.base) }
    requires label { f < MAX_HANDLES }
    ensures step { (b : ℕ) → IfOk result (λ a. IsPlainStep b (seen kv.now at.old)
        (in_hand at.old s.old) (in_hand at.new s.new) (RwOp.Open f p.entry) a) }
    ensures holds { IfOk result (λ a. LeavesHand a
        (OpensFile (seen kv.now at.old) f p.now) s.old s.new) }
    ensures looks { Looks (open_keys (handle_in s.old f) p.now) (in_hand at.old s.old)
        (in_hand at.new s.new) result }
{
    let None = handle_of(s, f) else {
        return Ok(Answer::Refused(Word::InUse));
    };
    let inode = match look_up(alloc, kv, at, p)? {
        Some(Node::File(inode)) => inode,
        Some(Node::Folder) => return Ok(Answer::Refused(Word::IsDir)),
        None => return Ok(Answer::Refused(Word::NoEnt)),
    };
    let path = p.copy(alloc)?;
    s.put_handle(
        f,
        Handle {
            path,
            inode,
            off: 0,
        },
    );
    Ok(Answer::Okay)
}

/// Closes a handle. It is refused for one that is not open.
pub(crate) fn close(s: &mut Session, f: u8) -> Answer
    requires label { f < MAX_HANDLES }
    ensures step { (x : Caller) (b : Map) (now : InHand) → now.session ≡ s.old →
        IsStepWith NeedsNoBytes x b now (in_hand now.at s.new) (Op.Close f) result }
    ensures holds { LeavesHand result (SetsHandle f None) s.old s.new }
    ensures logged { IsLogged result }
{
    let Some(_) = handle_of(s, f) else {
        return Answer::Refused(Word::NoHandle);
    };
    s.end_handle(f);
    Answer::Okay
}

/// Tells the offset of a handle. It is refused for one that is not open.
pub(crate) fn tell(s: &Session, f: u8) -> Answer
    requires label { f < MAX_HANDLES }
    ensures step { (x : Caller) (b : Map) (now : InHand) → now.session ≡ s.now →
        IsStepWith NeedsNoBytes x b now now (Op.Tell f) result }
    ensures logged { IsLogged result }
{
    let Some(spot) = handle_of(s, f) else {
        return Answer::Refused(Word::NoHandle);
    };
    Answer::At(spot.off)
}
