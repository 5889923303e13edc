//! The calls that cut a file and make holes in it.

ghost use Rattle.std.specs.Prelude.{◌≡◌, ◌<◌, ◌≤◌, ◌*◌, [], IfOk, OnOk};
ghost use Rattle.wtf_occ.specs.Attempts.{Grows};
ghost use Rattle.wtf_model.specs.declared.limits.TheConstants.{MAX_HANDLES, MAX_REGIONS};
ghost use Rattle.wtf_meta.specs.Maps.{Map};
ghost use Rattle.wtf_meta.specs.Sessions.{handle_in};
ghost use Rattle.wtf_region.specs.Edited.{Edited};
ghost use Rattle.wtf_steps.specs.Steps.{in_hand};
ghost use Rattle.wtf_steps.specs.Made.{Makes};
ghost use Rattle.wtf_rw.specs.Called.{Alters};
ghost use Rattle.wtf_rw.specs.Ops.{IsPlainStep};
ghost use Rattle.wtf_rw.specs.Sizes.{CutsTo, Zeroes};
ghost use Rattle.wtf_rw.specs.Changed.{CutsAt, PunchesAt};

use crate::RwOp;
use wtf_base::{InodeId, OutOfMemory, Settings};
use wtf_meta::Session;
use wtf_model::{Answer, Word};
use wtf_occ::Attempt;
use wtf_steps::handle_of;
use wtf_values::{Delta, Key, Value};

/// Makes every file of the inode `n` bytes long.
fn cut(
    at: &mut Attempt<Key, Value>,
    inode: InodeId,
    n: u64,
    settings: Settings,
) -> Result<(), OutOfMemory>
    requires { n ≤ MAX_REGIONS * settings.region }
    ensures ok { OnOk result (Edited inode [] (CutsTo settings.region inode n) at.old at.new) }
    ensures grows { Grows at.old at.new }
{
    let size = settings.region as u64;
    let last = n.saturating_sub(1) / size;
    let end = n - last * size;
    at.delta(Key::Inode(inode), Delta::SetLast(last as u16))?;
    at.delta(Key::Region(inode, last as u16), Delta::Clip(end as u32))?;
    at.cut_range(
        Key::Region(inode, last as u16 + 1),
        Key::Region(inode, u16::MAX),
    )?;
    Ok(())
}

/// Cuts the file of a handle to `n` bytes, or pads it up to `n` with zeros. It is refused for a
/// handle that is not open, and where the file would pass the greatest length; then nothing
/// changes. Want of memory may leave the attempt grown.
pub(crate) fn truncate(
    at: &mut Attempt<Key, Value>,
    s: &Session,
    f: u8,
    n: u64,
    settings: Settings,
) -> Result<Answer, OutOfMemory>
    requires label { f < MAX_HANDLES }
    ensures keys { OnOk result (at.new.reads ≡ at.old.reads) }
    ensures step { (w : Map) → IfOk result (λ a. IsPlainStep settings.region w
        (in_hand at.old s.now) (in_hand at.new s.now) (RwOp.Truncate f n) a) }
    ensures made { IfOk result (λ a.
        Makes a (CutsAt settings.region (handle_in s.now f) n) at.old at.new) }
    ensures alters { Alters (in_hand at.old s.now) (in_hand at.new s.now) result }
{
    let Some(spot) = handle_of(s, f) else {
        return Ok(Answer::Refused(Word::NoHandle));
    };
    if n > settings.cap() {
        return Ok(Answer::Refused(Word::TooBig));
    }
    cut(at, spot.inode, n, settings)?;
    Ok(Answer::Okay)
}

/// Makes a hole of `n` bytes from an offset on in every file of the inode, as far as it goes.
fn zero(
    at: &mut Attempt<Key, Value>,
    inode: InodeId,
    off: u64,
    n: u64,
    settings: Settings,
) -> Result<(), OutOfMemory>
    ensures ok { OnOk result (Edited inode [] (Zeroes settings.region inode off n) at.old at.new) }
    ensures grows { Grows at.old at.new }
{
    let size = settings.region as u64;
    let cap = settings.cap();
    if off >= cap {
        return Ok(());
    }
    let len = n.min(cap - off);
    let mut done = 0;
    while done < len {
        let region = (off + done) / size;
        let from = (off + done) % size;
        let upto = size.min(from + (len - done));
        let zeros = Delta::ZeroWithin(from as u32, upto as u32);
        at.delta(Key::Region(inode, region as u16), zeros)?;
        done += upto - from;
    }
    Ok(())
}

/// Makes a hole of `n` bytes in the file of a handle, from the handle's offset on, as far as the
/// file goes. It is refused for a handle that is not open; then nothing changes. Want of memory may
/// leave the attempt grown.
pub(crate) fn punch(
    at: &mut Attempt<Key, Value>,
    s: &Session,
    f: u8,
    n: u64,
    settings: Settings,
) -> Result<Answer, OutOfMemory>
    requires label { f < MAX_HANDLES }
    ensures keys { OnOk result (at.new.reads ≡ at.old.reads) }
    ensures step { (w : Map) → IfOk result (λ a. IsPlainStep settings.region w
        (in_hand at.old s.now) (in_hand at.new s.now) (RwOp.Punch f n) a) }
    ensures made { IfOk result (λ a.
        Makes a (PunchesAt settings.region (handle_in s.now f) n) at.old at.new) }
    ensures alters { Alters (in_hand at.old s.now) (in_hand at.new s.now) result }
{
    let Some(spot) = handle_of(s, f) else {
        return Ok(Answer::Refused(Word::NoHandle));
    };
    zero(at, spot.inode, spot.off, n, settings)?;
    Ok(Answer::Okay)
}
