//! The calls on handles and bytes, on a file of regions of 64 bytes over stores in memory.

ghost use Rattle.std.specs.Prelude.{◌≡◌};
ghost use Rattle.wtf_dev.specs.Memory.{mem_store};
ghost use Rattle.wtf_meta.specs.Maps.{seen};
ghost use Rattle.wtf_region.specs.Devs.{IsSoundDev, stores};
ghost use Rattle.wtf_meta.specs.Sessions.{nothing_open};
ghost use Rattle.wtf_rw.specs.Ops.{AreInside};
ghost use Rattle.wtf_files_rows.specs.Benches.{IsBareMap};

use crate::ops::{Step, is_rw_form};
use crate::steps::{all_come, first_wrong};
use crate::store::{FILE, NEVER, Parts, begun, made_parts};
use std::alloc::Global;
use std::test::Fail;
use wtf_base::{Kept, Pointer, ServerId, Settings, Slice};
use wtf_dev::MemStore;
use wtf_kv::Kv;
use wtf_meta::Session;
use wtf_model::{Answer, Seek};
use wtf_occ::Attempt;
use wtf_region::{Dev, file_len};
use wtf_rw::{Given, RwOp, call, handle_of};
use wtf_values::{Key, Value};

#[test]
fn bytes_are_written_over_others_and_read(rt: HostRuntime) -> Result<(), Fail> {
    static ROWS: [(Step, &str); 10] = [
        (Step::Open(0, "/a"), "ok"),
        (Step::Write(0, "abcdef"), "ok"),
        (Step::Set(0), "ok"),
        (Step::Read(0, 9), "data abcdef"),
        (Step::Set(2), "ok"),
        (Step::Write(0, "XY"), "ok"),
        (Step::Set(0), "ok"),
        (Step::Read(0, 9), "data abXYef"),
        (Step::Write(0, ""), "ok"),
        (Step::Tell(0), "at 6"),
    ];
    all_come(&rt, rt.alloc(), NEVER, 2, &ROWS)
}

#[test]
fn bytes_go_over_the_border_of_a_region(rt: HostRuntime) -> Result<(), Fail> {
    static ROWS: [(Step, &str); 11] = [
        (Step::Open(0, "/a"), "ok"),
        (Step::Set(60), "ok"),
        (Step::Write(0, "0123456789"), "ok"),
        (Step::Stat("/a"), "file 70"),
        (Step::Set(58), "ok"),
        (Step::Read(0, 20), "data ..0123456789"),
        (Step::Truncate(0, 60), "ok"),
        (Step::Append(0, "1234"), "ok"),
        (Step::Append(0, "5678"), "ok"),
        (Step::Seek(0, Seek::Back(10)), "ok"),
        (Step::Read(0, 9), "data 12345678"),
    ];
    all_come(&rt, rt.alloc(), NEVER, 2, &ROWS)
}

#[test]
fn the_largest_file_takes_no_byte_more(rt: HostRuntime) -> Result<(), Fail> {
    static ROWS: [(Step, &str); 11] = [
        (Step::Open(0, "/a"), "ok"),
        (Step::Set(262_145), "refused range"),
        (Step::Set(262_144), "ok"),
        (Step::Write(0, "x"), "refused toobig"),
        (Step::Seek(0, Seek::Back(1)), "ok"),
        (Step::Write(0, "x"), "ok"),
        (Step::Tell(0), "at 262144"),
        (Step::Stat("/a"), "file 262144"),
        (Step::Append(0, "y"), "refused toobig"),
        (Step::Truncate(0, 262_145), "refused toobig"),
        (Step::Stat("/a"), "file 262144"),
    ];
    all_come(&rt, rt.alloc(), NEVER, 2, &ROWS)
}

#[test]
fn a_seek_stays_inside_the_limits(rt: HostRuntime) -> Result<(), Fail> {
    static ROWS: [(Step, &str); 10] = [
        (Step::Open(0, "/a"), "ok"),
        (Step::Seek(0, Seek::Back(1)), "refused range"),
        (Step::Truncate(0, 262_144), "ok"),
        (Step::Seek(0, Seek::End), "ok"),
        (Step::Seek(0, Seek::Fwd(1)), "refused range"),
        (Step::Tell(0), "at 262144"),
        (Step::Seek(0, Seek::Back(1)), "ok"),
        (Step::Write(0, "x"), "ok"),
        (Step::Seek(0, Seek::Back(2)), "ok"),
        (Step::Read(0, 4), "data .x"),
    ];
    all_come(&rt, rt.alloc(), NEVER, 2, &ROWS)
}

#[test]
fn a_hole_and_a_cut(rt: HostRuntime) -> Result<(), Fail> {
    static ROWS: [(Step, &str); 11] = [
        (Step::Open(0, "/a"), "ok"),
        (Step::Append(0, "abcdef"), "ok"),
        (Step::Set(4), "ok"),
        (Step::Punch(0, 10), "ok"),
        (Step::Tell(0), "at 4"),
        (Step::Stat("/a"), "file 6"),
        (Step::Truncate(0, 2), "ok"),
        (Step::Truncate(0, 8), "ok"),
        (Step::Set(0), "ok"),
        (Step::Read(0, 9), "data ab......"),
        (Step::Read(0, 9), "data "),
    ];
    all_come(&rt, rt.alloc(), NEVER, 2, &ROWS)
}

#[test]
fn handles_and_refusals(rt: HostRuntime) -> Result<(), Fail> {
    static ROWS: [(Step, &str); 11] = [
        (Step::Tell(0), "refused nohandle"),
        (Step::Open(0, "/q"), "refused noent"),
        (Step::Open(0, "/d"), "refused isdir"),
        (Step::Open(0, "/a"), "ok"),
        (Step::Open(0, "/a"), "refused inuse"),
        (Step::Close(0), "ok"),
        (Step::Close(0), "refused nohandle"),
        (Step::Append(0, "x"), "refused nohandle"),
        (Step::Stat("/d"), "dir"),
        (Step::Stat("/q"), "refused noent"),
        (Step::Stat("/a"), "file 0"),
    ];
    all_come(&rt, rt.alloc(), NEVER, 2, &ROWS)
}

#[test]
fn a_read_that_fails_leaves_the_offset(rt: HostRuntime) -> Result<(), Fail> {
    static ROWS: [(Step, &str); 6] = [
        (Step::Open(0, "/a"), "ok"),
        (Step::Write(0, "ab"), "ok"),
        (Step::Set(0), "ok"),
        (Step::Read(0, 2), "fault read 1"),
        (Step::Tell(0), "at 0"),
        (Step::Read(0, 2), "data ab"),
    ];
    all_come(&rt, rt.alloc(), 1, 2, &ROWS)
}

#[test]
fn too_few_servers_take_no_bytes(rt: HostRuntime) -> Result<(), Fail> {
    static ROWS: [(Step, &str); 6] = [
        (Step::Open(0, "/a"), "ok"),
        (Step::Write(0, "ab"), "fault write"),
        (Step::Append(0, "ab"), "fault write"),
        (Step::Write(0, ""), "ok"),
        (Step::Tell(0), "at 0"),
        (Step::Stat("/a"), "file 0"),
    ];
    all_come(&rt, rt.alloc(), NEVER, 1, &ROWS)
}

/// What a log keeps of four bytes, with their slice or without.
fn four_bytes(has_slice: bool) -> Result<Kept, Fail> {
    let pointer = Pointer {
        server: ServerId(1),
        file: 0,
        at: 10,
        len: 4,
    };
    let slice = Slice::of(&[pointer]).ok_or("slice")?;
    if has_slice {
        return Ok(Kept {
            len: slice.len(),
            slice: Some(slice),
        });
    }
    Ok(Kept {
        len: 4,
        slice: None,
    })
}

/// Makes a call on data that was stored before: whether it is done.
fn is_done(
    alloc: Global,
    dev: &mut Dev<'_, MemStore>,
    kv: &Kv<Key, Value>,
    at: &mut Attempt<Key, Value>,
    s: &mut Session,
    op: &RwOp<'_>,
) -> Result<bool, Fail>
    requires sound { IsSoundDev mem_store dev.old }
    requires inside { AreInside mem_store (stores dev.old) dev.old.settings
        (seen kv.now at.old) s.old }
{
    if !is_rw_form(op) || !kv.is_pinned(at.base()) {
        return Err(Fail::from("a call out of form"));
    }
    let done = call(alloc, dev, kv, at, s, op)?;
    Ok(matches!(done.answer, Answer::Okay))
}

/// Whether the file has such a length, and the handle 0 stands there.
fn is_at(
    kv: &Kv<Key, Value>,
    at: &mut Attempt<Key, Value>,
    s: &Session,
    settings: Settings,
    (len, off): (u64, u64),
) -> Result<bool, Fail> {
    if !kv.is_pinned(at.base()) {
        return Err(Fail::from("no pin"));
    }
    let found = file_len(kv, at, FILE, settings)?;
    let spot = handle_of(s, 0).ok_or("handle")?;
    Ok(found == len && spot.off == off)
}

/// Whether a call is done behind those of the rows, and leaves the file and the handle so.
fn last_comes_over(
    alloc: Global,
    dev: &mut Dev<'_, MemStore>,
    kv: &Kv<Key, Value>,
    at: &mut Attempt<Key, Value>,
    s: &mut Session,
    last: (&[(Step, &str)], &RwOp<'_>, (u64, u64)),
) -> Result<bool, Fail>
    requires sound { IsSoundDev mem_store dev.old }
    requires inside { AreInside mem_store (stores dev.old) dev.old.settings
        (seen kv.now at.old) s.old }
{
    let (rows, op, left) = last;
    let wrong = first_wrong(alloc, dev, kv, at, s, rows)?;
    let done = is_done(alloc, dev, kv, at, s, op)?;
    let stands = is_at(kv, at, s, dev.settings, left)?;
    Ok(wrong == 0 && done && stands)
}

fn last_comes_on(
    alloc: Global,
    kv: &Kv<Key, Value>,
    at: &mut Attempt<Key, Value>,
    s: &mut Session,
    last: (&[(Step, &str)], &RwOp<'_>, (u64, u64)),
) -> Result<bool, Fail>
    requires bare { IsBareMap (seen kv.now at.old) }
    requires session { s.old ≡ nothing_open }
{
    let Parts {
        mut shelf,
        replicas,
        ring,
        mut cache,
        settings,
    } = made_parts(alloc, NEVER, 2)?;
    let mut dev = Dev {
        shelf: &mut shelf,
        replicas: &replicas,
        ring: &ring,
        cache: &mut cache,
        settings,
    };
    last_comes_over(alloc, &mut dev, kv, at, s, last)
}

fn last_comes(
    alloc: Global,
    rows: &[(Step, &str)],
    op: &RwOp<'_>,
    left: (u64, u64),
) -> Result<bool, Fail> {
    let (kv, mut at) = begun(alloc)?;
    let mut s = Session::new(alloc)?;
    last_comes_on(alloc, &kv, &mut at, &mut s, (rows, op, left))
}

/// The file, open, before its bytes are written twice.
static ROWS: [(Step, &str); 3] = [
    (Step::Open(0, "/a"), "ok"),
    (Step::Write(0, "abcd"), "ok"),
    (Step::Write(0, "abcd"), "ok"),
];

#[test]
fn data_that_was_stored_before_is_laid_and_added(rt: HostRuntime) -> Result<(), Fail> {
    let kept = Given::Stored(four_bytes(true)?);
    let bare = Given::Stored(four_bytes(false)?);
    let laid = last_comes(rt.alloc(), &ROWS[..1], &RwOp::Write(0, kept), (4, 4))?;
    let added = last_comes(rt.alloc(), &ROWS[..2], &RwOp::Append(0, kept), (8, 4))?;
    // Without a slice the answer alone is due.
    let told = last_comes(rt.alloc(), &ROWS, &RwOp::Append(0, bare), (8, 8))?;
    assert_eq!(rt; (laid, added, told), (true, true, true));
    Ok(())
}
