//! The calls that move a handle, and show what stands at a path.

ghost use Rattle.std.specs.Prelude.{◌≡◌, ◌<◌, [], IsTrue, IfOk, OnOk, IsSome};
ghost use Rattle.wtf_kv.specs.Stores.{is_pinned};
ghost use Rattle.wtf_occ.specs.Attempts.{Grows, GrowsBy};
ghost use Rattle.wtf_model.specs.declared.limits.TheConstants.{MAX_HANDLES};
ghost use Rattle.wtf_model.specs.Steps.{IsLogged};
ghost use Rattle.wtf_meta.specs.Maps.{seen};
ghost use Rattle.wtf_meta.specs.Files.{file_len as file_length};
ghost use Rattle.wtf_meta.specs.FileEdits.{file_of};
ghost use Rattle.wtf_meta.specs.Sessions.{SessionView, handle_in};
ghost use Rattle.wtf_steps.specs.Holding.{LeavesHand};
ghost use Rattle.wtf_steps.specs.Steps.{in_hand, IsRefusal};
ghost use Rattle.wtf_rw.specs.Called.{Looks};
ghost use Rattle.wtf_rw.specs.Held.{SeeksTo};
ghost use Rattle.wtf_rw.specs.Ops.{IsPlainStep};
ghost use Rattle.wtf_rw.specs.Recorded.{seek_keys, place_keys, stat_keys};
ghost use Rattle.wtf_rw.specs.Seeks.{lands, IsSought};

use crate::RwOp;
use std::alloc::Global;
use wtf_base::{InodeId, OutOfMemory, Settings};
use wtf_index::{links_at, look_up};
use wtf_kv::Kv;
use wtf_meta::Session;
use wtf_model::{Answer, Seek, Word};
use wtf_occ::Attempt;
use wtf_path::Path;
use wtf_region::file_len;
use wtf_steps::handle_of;
use wtf_values::{Key, Node, Value};

/// The length of a file that a seek to its end looks at; another one looks at nothing.
fn len_for(
    kv: &Kv<Key, Value>,
    at: &mut Attempt<Key, Value>,
    inode: InodeId,
    place: Seek,
    settings: Settings,
) -> Result<u64, OutOfMemory>
    requires { IsTrue (is_pinned kv.now at.old.base) }
    ensures value { IfOk result (λ n. place ≡ Seek.End →
        n ≡ file_length settings.region (file_of inode (seen kv.now at.old))) }
    ensures went { OnOk result
        (GrowsBy at.old at.new (place_keys (seen kv.now at.old) inode place) []) }
    ensures grows { Grows at.old at.new }
{
    match place {
        Seek::End => {
            let len = file_len(kv, at, inode, settings)?;
            return Ok(len);
        }
        Seek::Set(_) => return Ok(0),
        Seek::Fwd(_) => return Ok(0),
        Seek::Back(_) => return Ok(0),
    }
}

/// Where a seek leads, if anywhere.
fn landing(place: Seek, off: u64, len: u64, cap: u64) -> Option<u64>
    ensures { result ≡ lands cap len off place }
{
    match place {
        Seek::Set(n) => {
            if n <= cap {
                return Some(n);
            }
            return None;
        }
        Seek::Fwd(n) => {
            if off <= cap && n <= cap - off {
                return Some(off + n);
            }
            return None;
        }
        Seek::Back(n) => {
            if n <= off {
                return Some(off - n);
            }
            return None;
        }
        Seek::End => return Some(len),
    }
}

/// Moves an open handle, if that leads anywhere.
fn move_to(s: &mut Session, f: u8, to: Option<u64>) -> Answer
    requires label { f < MAX_HANDLES }
    requires open { IsSome (handle_in s.old f) }
    ensures sought { IsSought f to s.old s.new result }
    ensures logged { IsLogged result }
    ensures refused { IsRefusal result → s.new ≡ s.old }
{
    let Some(to) = to else {
        return Answer::Refused(Word::Range);
    };
    s.move_handle(f, to);
    Answer::Okay
}

/// Moves a handle. It is refused for one that is not open, and where that leads below 0 or past the
/// greatest length of a file; then nothing changes. Want of memory may leave the attempt grown.
pub(crate) fn seek(
    kv: &Kv<Key, Value>,
    at: &mut Attempt<Key, Value>,
    s: &mut Session,
    f: u8,
    place: Seek,
    settings: Settings,
) -> Result<Answer, OutOfMemory>
    requires pinned { IsTrue (is_pinned kv.now at.old.base) }
    requires label { f < MAX_HANDLES }
    ensures step { IfOk result (λ a. IsPlainStep settings.region (seen kv.now at.old)
        (in_hand at.old s.old) (in_hand at.new s.new) (RwOp.Seek f place) a) }
    ensures holds { IfOk result (λ a. LeavesHand a
        (SeeksTo settings.region (seen kv.now at.old) f place) s.old s.new) }
    ensures looks { Looks (seek_keys (seen kv.now at.old) (handle_in s.old f) place)
        (in_hand at.old s.old) (in_hand at.new s.new) result }
{
    let Some(spot) = handle_of(s, f) else {
        return Ok(Answer::Refused(Word::NoHandle));
    };
    let len = len_for(kv, at, spot.inode, place, settings)?;
    let to = landing(place, spot.off, len, settings.cap());
    let answer = move_to(s, f, to);
    Ok(answer)
}

/// Tells what stands at a path, and a file's length and how many paths it has. It is refused where
/// nothing stands. Nothing changes. Want of memory may leave the attempt grown.
pub(crate) fn stat(
    alloc: Global,
    kv: &Kv<Key, Value>,
    at: &mut Attempt<Key, Value>,
    p: &Path,
    settings: Settings,
) -> Result<Answer, OutOfMemory>
    requires { IsTrue (is_pinned kv.now at.old.base) }
    ensures step { (s : SessionView) → IfOk result (λ a. IsPlainStep settings.region
        (seen kv.now at.old) (in_hand at.old s) (in_hand at.new s) (RwOp.Stat p.entry) a) }
    ensures looks { (s : SessionView) → Looks (stat_keys (seen kv.now at.old) p.now)
        (in_hand at.old s) (in_hand at.new s) result }
{
    let inode = match look_up(alloc, kv, at, p)? {
        Some(Node::File(inode)) => inode,
        Some(Node::Folder) => return Ok(Answer::Dir),
        None => return Ok(Answer::Refused(Word::NoEnt)),
    };
    let len = file_len(kv, at, inode, settings)?;
    let links = links_at(kv, at, inode)?;
    Ok(Answer::File { len, links })
}
