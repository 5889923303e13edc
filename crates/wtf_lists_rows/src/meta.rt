//! What a transaction has in hand, from outside.

use crate::parts::{inode, pieces};
use std::alloc::Global;
use std::test::Fail;
use wtf_base::OutOfMemory;
use wtf_meta::{Handle, Session};
use wtf_model::limits::{MAX_HANDLES, MAX_SLICES};
use wtf_path::Path;

/// Bytes of a slice of pieces of 4, 2 and 3 bytes: the piece that holds each, and its place there. There is no byte 9.
const PLACES: [(u64, Option<(usize, u64)>); 5] = [
    (0, Some((0, 0))),
    (4, Some((1, 0))),
    (5, Some((1, 1))),
    (8, Some((2, 2))),
    (9, None),
];

/// The offset of the handle of a label.
fn offset(session: &Session, label: u8) -> Option<u64> {
    if label >= MAX_HANDLES {
        return None;
    }
    Some(session.handle(label)?.off)
}

/// The number of pieces of the slice of a label.
fn count(session: &Session, label: u8) -> Option<usize> {
    if label >= MAX_SLICES {
        return None;
    }
    Some(session.slice(label)?.len())
}

/// Whether a label has a handle at this offset, and a slice of so many pieces.
fn shows(session: &Session, label: u8, off: Option<u64>, pieces: Option<usize>) -> bool {
    offset(session, label) == off && count(session, label) == pieces
}

fn holds(alloc: Global, session: &Session, path: &[u8]) -> Result<bool, Fail> {
    Ok(session.holds(&Path::parse(alloc, path)?))
}

/// Whether a new session holds a path.
fn holds_new(alloc: Global, path: &[u8]) -> Result<bool, Fail> {
    holds(alloc, &Session::new(alloc)?, path)
}

/// Opens a handle at 0, and moves it.
fn open(
    alloc: Global,
    session: &mut Session,
    label: u8,
    path: &[u8],
    off: u64,
) -> Result<(), Fail> {
    if label >= MAX_HANDLES {
        return Err("no label".into());
    }
    let path = Path::parse(alloc, path)?;
    let inode = inode();
    session.put_handle(
        label,
        Handle {
            path,
            inode,
            off: 0,
        },
    );
    session.move_handle(label, off);
    Ok(())
}

fn end(session: &mut Session, label: u8) {
    if label < MAX_HANDLES {
        session.end_handle(label);
    }
}

/// Keeps pieces of zeros, of so many bytes each.
fn keep(alloc: Global, session: &mut Session, label: u8, lens: &[u64]) -> Result<(), Fail> {
    if label >= MAX_SLICES {
        return Err("no label".into());
    }
    session.put_slice(label, pieces(alloc, lens)?);
    Ok(())
}

/// Puts a handle of /a at 7 under 15, and a slice of one piece under 3.
fn fill(alloc: Global, session: &mut Session) -> Result<(), Fail> {
    open(alloc, session, 15, b"/a", 7)?;
    keep(alloc, session, 3, &[4])
}

/// A session with that handle and that slice.
fn filled(alloc: Global) -> Result<Session, Fail> {
    let mut session = Session::new(alloc)?;
    fill(alloc, &mut session)?;
    Ok(session)
}

/// Whether the handle and the slice stand under their labels.
fn is_filled(session: &Session) -> bool {
    shows(session, 15, Some(7), None) && shows(session, 3, None, Some(1))
}

#[test]
fn each_label_stands_alone(rt: HostRuntime) -> Result<(), Fail> {
    let session = filled(rt.alloc())?;
    assert!(rt; is_filled(&session) && shows(&session, 0, None, None));
    Ok(())
}

/// Whether a session that is filled holds /a and not /b, and a new one no /a.
fn holds_its_own(alloc: Global, session: &Session) -> Result<bool, Fail> {
    Ok(holds(alloc, session, b"/a")? && !holds(alloc, session, b"/b")? && !holds_new(alloc, b"/a")?)
}

#[test]
fn a_path_is_held_by_its_handle(rt: HostRuntime) -> Result<(), Fail> {
    let session = filled(rt.alloc())?;
    assert!(rt; holds_its_own(rt.alloc(), &session)?);
    Ok(())
}

/// Whether a copy stays filled where the handle of the session ends.
fn copy_stays(alloc: Global, session: &mut Session) -> Result<bool, OutOfMemory> {
    let copy = session.copy(alloc)?;
    end(session, 15);
    Ok(is_filled(&copy) && shows(session, 15, None, None))
}

#[test]
fn a_copy_stays_as_it_was(rt: HostRuntime) -> Result<(), Fail> {
    let mut session = filled(rt.alloc())?;
    assert!(rt; copy_stays(rt.alloc(), &mut session)?);
    Ok(())
}

/// A session with a slice of three pieces under 3.
fn sliced(alloc: Global) -> Result<Session, Fail> {
    let mut session = Session::new(alloc)?;
    keep(alloc, &mut session, 3, &[4, 2, 3])?;
    Ok(session)
}

fn index(alloc: Global, session: &mut Session, label: u8) -> Result<(), OutOfMemory> {
    if label >= MAX_SLICES {
        return Ok(());
    }
    session.index(alloc, label)
}

/// The number of bytes of the slice of a label.
fn length(session: &Session, label: u8) -> Option<u64> {
    if label >= MAX_SLICES {
        return None;
    }
    session.slice_len(label)
}

/// The piece that holds a byte of the slice of a label, and the byte's place there.
fn place(session: &Session, label: u8, off: u64) -> Option<(usize, u64)> {
    if label >= MAX_SLICES || off >= 1000 {
        return None;
    }
    let at = session.find(label, off)?;
    Some((at.piece, at.skip))
}

/// Whether the bytes of the slice under 3 are where they lie, and no other label has one.
fn finds(session: &Session) -> bool {
    for (off, want) in &PLACES {
        if place(session, 3, *off) != *want {
            return false;
        }
    }
    length(session, 3) == Some(9) && length(session, 4).is_none() && place(session, 4, 0).is_none()
}

/// Whether bytes are found before it is known where the pieces end, and after.
fn finds_again(alloc: Global, session: &mut Session) -> Result<bool, OutOfMemory> {
    let first = finds(session);
    index(alloc, session, 3)?;
    index(alloc, session, 4)?;
    Ok(first && finds(session))
}

#[test]
fn bytes_of_a_slice_are_found(rt: HostRuntime) -> Result<(), Fail> {
    let mut session = sliced(rt.alloc())?;
    assert!(rt; finds_again(rt.alloc(), &mut session)?);
    Ok(())
}
