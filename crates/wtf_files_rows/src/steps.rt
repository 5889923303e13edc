//! Calls on names, bytes and slices one by one, on an attempt that has made a file.

ghost use Rattle.std.specs.Prelude.{◌≡◌, [], List, Bool, true, OnOk};
ghost use Rattle.wtf_base.specs.declared.slice.Slice.{Slice};
ghost use Rattle.wtf_overlay.specs.Origin.{Place};
ghost use Rattle.wtf_meta.specs.Bytes.{MapBytes};
ghost use Rattle.wtf_dev.specs.Memory.{mem_store};
ghost use Rattle.wtf_meta.specs.Maps.{seen};
ghost use Rattle.wtf_region.specs.Devs.{IsSoundDev, stores};
ghost use Rattle.wtf_meta.specs.Sessions.{nothing_open};
ghost use Rattle.wtf_rw.specs.Ops.{AreInside};
ghost use Rattle.wtf_files_rows.specs.Benches.{IsBareMap};

use crate::ops::{Step, is_fresh, is_rw_form, is_slice_form, op, rw_op, slice_op};
use crate::store::{Parts, begun, made_parts};
use crate::texts::is_text;
use std::alloc::Global;
use std::process::Abort;
use std::test::Fail;
use wtf_base::{Bytes, Fault, InodeId, TxId};
use wtf_dev::MemStore;
use wtf_index::{create, mkdir};
use wtf_kv::Kv;
use wtf_meta::Session;
use wtf_model::{Answer, Op};
use wtf_occ::Attempt;
use wtf_path::Path;
use wtf_region::Dev;
use wtf_rw::{Done, RwOp};
use wtf_slicing::SliceOp;
use wtf_values::{Key, Value};

/// Makes a file.
fn create_made(
    alloc: Global,
    kv: &Kv<Key, Value>,
    at: &mut Attempt<Key, Value>,
    new: InodeId,
    p: &Path,
) -> Result<Result<Answer, Fault>, Fail>
    ensures { OnOk result ((P : List Place → Bool) (Q : Slice → Bool) → P [] ≡ true →
        MapBytes P Q (seen kv.now at.old) → MapBytes P Q (seen kv.now at.new)) }
{
    if new.index < 1 || !kv.is_pinned(at.base()) {
        return Err(Fail::from("a call out of form"));
    }
    let answer = create(alloc, kv, at, p, new)?;
    Ok(Ok(answer))
}

/// Makes a directory.
fn mkdir_made(
    alloc: Global,
    kv: &Kv<Key, Value>,
    at: &mut Attempt<Key, Value>,
    p: &Path,
) -> Result<Result<Answer, Fault>, Fail>
    ensures { OnOk result ((P : List Place → Bool) (Q : Slice → Bool) → P [] ≡ true →
        MapBytes P Q (seen kv.now at.old) → MapBytes P Q (seen kv.now at.new)) }
{
    if !kv.is_pinned(at.base()) {
        return Err(Fail::from("a call out of form"));
    }
    let answer = mkdir(alloc, kv, at, p)?;
    Ok(Ok(answer))
}

/// Makes a call on names, whose file, if it makes one, is `new`.
fn name_came(
    alloc: Global,
    dev: &Dev<'_, MemStore>,
    kv: &Kv<Key, Value>,
    at: &mut Attempt<Key, Value>,
    s: &Session,
    new: InodeId,
    op: &Op<Bytes>,
) -> Result<Result<Answer, Fault>, Fail>
    requires { AreInside mem_store (stores dev.now) dev.now.settings (seen kv.now at.old) s.now }
    ensures { OnOk result (AreInside mem_store (stores dev.now) dev.now.settings
        (seen kv.now at.new) s.now) }
{
    match op {
        Op::Create(p) => {
            let came = create_made(alloc, kv, at, new, p)?;
            return Ok(came);
        }
        Op::Mkdir(p) => {
            let came = mkdir_made(alloc, kv, at, p)?;
            return Ok(came);
        }
        _ => return Err(Fail::from("no call")),
    }
}

fn answer_of(came: Result<Done, Fault>) -> Result<Answer, Fault> {
    match came {
        Ok(done) => Ok(done.answer),
        Err(why) => Err(why),
    }
}

/// Makes a call on handles or bytes.
fn rw_came(
    alloc: Global,
    dev: &mut Dev<'_, MemStore>,
    kv: &Kv<Key, Value>,
    at: &mut Attempt<Key, Value>,
    s: &mut Session,
    op: &RwOp<'_>,
) -> Result<Result<Answer, Fault>, Fail>
    requires sound { IsSoundDev mem_store dev.old }
    requires inside { AreInside mem_store (stores dev.old) dev.old.settings
        (seen kv.now at.old) s.old }
    ensures sound { OnOk result (IsSoundDev mem_store dev.new) }
    ensures inside { OnOk result (AreInside mem_store (stores dev.new) dev.new.settings
        (seen kv.now at.new) s.new) }
{
    if !is_rw_form(op) || !is_fresh(op) || !kv.is_pinned(at.base()) {
        return Err(Fail::from("a call out of form"));
    }
    let came = wtf_rw::call(alloc, dev, kv, at, s, op);
    Ok(answer_of(came))
}

/// Makes a call on slices, whose file, if it makes one, is `new`.
fn slice_came(
    alloc: Global,
    dev: &mut Dev<'_, MemStore>,
    kv: &Kv<Key, Value>,
    at: &mut Attempt<Key, Value>,
    s: &mut Session,
    new: InodeId,
    op: &SliceOp<'_>,
) -> Result<Result<Answer, Fault>, Fail>
    requires sound { IsSoundDev mem_store dev.old }
    requires inside { AreInside mem_store (stores dev.old) dev.old.settings
        (seen kv.now at.old) s.old }
    ensures sound { OnOk result (IsSoundDev mem_store dev.new) }
    ensures inside { OnOk result (AreInside mem_store (stores dev.new) dev.new.settings
        (seen kv.now at.new) s.new) }
{
    if !is_slice_form(op) || new.index < 1 || !kv.is_pinned(at.base()) {
        return Err(Fail::from("a call out of form"));
    }
    let came = wtf_slicing::call(alloc, dev, kv, at, s, new, op);
    Ok(came)
}

/// Makes a call, whose file, if it makes one, is `new`.
fn op_came(
    alloc: Global,
    dev: &mut Dev<'_, MemStore>,
    kv: &Kv<Key, Value>,
    at: &mut Attempt<Key, Value>,
    s: &mut Session,
    new: InodeId,
    op: &Op<Bytes>,
) -> Result<Result<Answer, Fault>, Fail>
    requires sound { IsSoundDev mem_store dev.old }
    requires inside { AreInside mem_store (stores dev.old) dev.old.settings
        (seen kv.now at.old) s.old }
    ensures sound { OnOk result (IsSoundDev mem_store dev.new) }
    ensures inside { OnOk result (AreInside mem_store (stores dev.new) dev.new.settings
        (seen kv.now at.new) s.new) }
{
    if let Some(op) = rw_op(op) {
        return rw_came(alloc, dev, kv, at, s, &op);
    }
    if let Some(op) = slice_op(op) {
        return slice_came(alloc, dev, kv, at, s, new, &op);
    }
    let came = name_came(alloc, dev, kv, at, s, new, op)?;
    Ok(came)
}

/// Makes the call of this number.
fn step_came(
    alloc: Global,
    dev: &mut Dev<'_, MemStore>,
    kv: &Kv<Key, Value>,
    at: &mut Attempt<Key, Value>,
    s: &mut Session,
    step_at: (Step, u32),
) -> Result<Result<Answer, Fault>, Fail>
    requires sound { IsSoundDev mem_store dev.old }
    requires inside { AreInside mem_store (stores dev.old) dev.old.settings
        (seen kv.now at.old) s.old }
    ensures sound { OnOk result (IsSoundDev mem_store dev.new) }
    ensures inside { OnOk result (AreInside mem_store (stores dev.new) dev.new.settings
        (seen kv.now at.new) s.new) }
{
    let op = op(alloc, step_at.0)?;
    let new = InodeId {
        tx: TxId(2),
        index: step_at.1,
    };
    op_came(alloc, dev, kv, at, s, new, &op)
}

/// Makes the calls one after another: the number of the first of which not that comes which
/// should, from 1 on, or 0.
pub(crate) fn first_wrong(
    alloc: Global,
    dev: &mut Dev<'_, MemStore>,
    kv: &Kv<Key, Value>,
    at: &mut Attempt<Key, Value>,
    s: &mut Session,
    rows: &[(Step, &str)],
) -> Result<u32, Fail>
    requires sound { IsSoundDev mem_store dev.old }
    requires inside { AreInside mem_store (stores dev.old) dev.old.settings
        (seen kv.now at.old) s.old }
    ensures sound { OnOk result (IsSoundDev mem_store dev.new) }
    ensures inside { OnOk result (AreInside mem_store (stores dev.new) dev.new.settings
        (seen kv.now at.new) s.new) }
{
    let mut number = 0u32;
    for (step, want) in rows {
        number = number.saturating_add(1);
        let came = step_came(alloc, dev, kv, at, s, (*step, number))?;
        if !is_text(alloc, came, *want)? {
            return Ok(number);
        }
    }
    Ok(0)
}

/// The same on servers of which those from `up` on are down, with stores that each fail in the call
/// with the number `fails`.
fn first_wrong_on(
    alloc: Global,
    run: (u64, u8),
    kv: &Kv<Key, Value>,
    at: &mut Attempt<Key, Value>,
    s: &mut Session,
    rows: &[(Step, &str)],
) -> Result<u32, Fail>
    requires bare { IsBareMap (seen kv.now at.old) }
    requires session { s.old ≡ nothing_open }
{
    let Parts {
        mut shelf,
        replicas,
        ring,
        mut cache,
        settings,
    } = made_parts(alloc, run.0, run.1)?;
    let mut dev = Dev {
        shelf: &mut shelf,
        replicas: &replicas,
        ring: &ring,
        cache: &mut cache,
        settings,
    };
    first_wrong(alloc, &mut dev, kv, at, s, rows)
}

/// The same of an attempt that has made a file.
fn first_wrong_of(alloc: Global, fails: u64, up: u8, rows: &[(Step, &str)]) -> Result<u32, Fail> {
    let (kv, mut at) = begun(alloc)?;
    let mut s = Session::new(alloc)?;
    first_wrong_on(alloc, (fails, up), &kv, &mut at, &mut s, rows)
}

/// Makes the calls of the rows, and stops where one of them does not come as it should.
pub(crate) fn all_come(
    rt: &impl Abort,
    alloc: Global,
    fails: u64,
    up: u8,
    rows: &[(Step, &str)],
) -> Result<(), Fail> {
    let wrong = first_wrong_of(alloc, fails, up, rows)?;
    assert_eq!(rt; wrong, 0, "the first row that comes otherwise");
    Ok(())
}
