//! A log of worked calls, row by row, and its limit.

use crate::texts::shown;
use std::alloc::Global;
use wtf_base::{Kept, Pointer, ServerId, Slice};
use wtf_log::{Log, LogError};
use wtf_model::limits::MAX_LOGGED;
use wtf_model::{Answer, Op, Word};

/// Six bytes in file 0 of server 0.
fn six_bytes() -> Option<Slice> {
    let pointer = Pointer {
        server: ServerId(0),
        file: 0,
        at: 0,
        len: 6,
    };
    Slice::of(&[pointer])
}

/// What a log keeps of the bytes of a slice.
fn kept(slice: Slice) -> Kept {
    Kept {
        len: slice.len(),
        slice: Some(slice),
    }
}

fn pushes(log: &mut Log, op: Op<Kept>, answer: Answer) -> bool {
    log.push(op, answer) == Ok(())
}

/// Whether a write that stored is pushed, and an append that stored nothing.
fn pushes_bytes(log: &mut Log, slice: Slice) -> bool {
    let nothing = Kept {
        len: 0,
        slice: None,
    };
    pushes(log, Op::Write(1, kept(slice)), Answer::Okay)
        && pushes(log, Op::Append(1, nothing), Answer::Refused(Word::NoHandle))
}

/// Whether a read that showed two bytes is pushed.
fn pushes_read(alloc: Global, log: &mut Log) -> bool {
    let Ok(read) = shown(alloc, b"ab") else {
        return false;
    };
    pushes(log, Op::Read(0, 2), read)
}

/// Whether a `tell`, a write that stored, an append that stored nothing, and a read are pushed, with what they showed.
fn works(alloc: Global, log: &mut Log, slice: Slice) -> bool {
    pushes(log, Op::Tell(0), Answer::At(0)) && pushes_bytes(log, slice) && pushes_read(alloc, log)
}

/// Whether this is the slice that a call of the log has stored.
fn has_own(log: &Log, i: u32, want: Option<Slice>) -> bool {
    i >= 1 && i <= log.len() && log.own(i) == want
}

/// Whether the first call is a `tell` of handle 0 that showed offset 0.
fn begins_with_tell(log: &Log) -> bool {
    log.len() >= 1 && log.op(1) == &Op::Tell(0) && matches!(log.shown(1), Answer::At(0))
}

/// Whether a call showed these bytes.
fn has_shown(log: &Log, i: u32, bytes: &[u8]) -> bool {
    if i < 1 || i > log.len() {
        return false;
    }
    match log.shown(i) {
        Answer::Shown(shown) => shown.as_slice() == bytes,
        _ => false,
    }
}

/// Whether the calls that carry bytes were answered `ok`, and refused since the handle was not open.
fn has_answers_of_bytes(log: &Log) -> bool {
    log.len() >= 3
        && matches!(log.shown(2), Answer::Okay)
        && matches!(log.shown(3), Answer::Refused(Word::NoHandle))
}

/// Whether of four calls the second alone stored, and this slice.
fn has_one_slice(log: &Log, slice: Slice) -> bool {
    log.len() == 4
        && has_own(log, 1, None)
        && has_own(log, 2, Some(slice))
        && has_own(log, 3, None)
        && has_own(log, 4, None)
}

/// Whether that holds of what was worked.
fn slices_are_kept(alloc: Global) -> bool {
    let Some(slice) = six_bytes() else {
        return false;
    };
    let Ok(mut log) = Log::new(alloc) else {
        return false;
    };
    works(alloc, &mut log, slice) && has_one_slice(&log, slice)
}

#[test]
fn a_log_has_the_slices_that_were_stored(rt: HostRuntime) {
    assert!(rt; slices_are_kept(rt.alloc()));
}

/// Whether a log shows what was pushed, and nothing else.
fn shows_all(log: &Log) -> bool {
    begins_with_tell(log)
        && has_answers_of_bytes(log)
        && has_shown(log, 4, b"ab")
        && !has_shown(log, 4, b"abc")
        && !has_shown(log, 1, b"")
}

/// Whether that holds of what was worked.
fn all_is_shown(alloc: Global) -> bool {
    let Some(slice) = six_bytes() else {
        return false;
    };
    let Ok(mut log) = Log::new(alloc) else {
        return false;
    };
    works(alloc, &mut log, slice) && shows_all(&log)
}

#[test]
fn a_log_shows_what_was_pushed(rt: HostRuntime) {
    assert!(rt; all_is_shown(rt.alloc()));
}

/// Whether a log takes a call; it is not full before.
fn takes_a_call(log: &mut Log) -> bool {
    !log.is_full() && pushes(log, Op::Tell(0), Answer::Refused(Word::NoHandle))
}

/// Whether a log takes as many calls as it may.
fn fills(log: &mut Log) -> bool {
    for _ in 0..MAX_LOGGED {
        if !takes_a_call(log) {
            return false;
        }
    }
    log.len() == 4096 && log.is_full()
}

/// Whether a log refuses a call since it is full, and stays as it is.
fn refuses(log: &mut Log) -> bool {
    log.push(Op::Tell(0), Answer::At(0)) == Err(LogError::Full) && log.len() == 4096
}

/// Whether a log is full where it took as many calls as it may.
fn is_full_at_its_limit(alloc: Global) -> bool {
    let Ok(mut log) = Log::new(alloc) else {
        return false;
    };
    fills(&mut log) && refuses(&mut log)
}

#[test]
fn a_log_is_full_at_its_limit(rt: HostRuntime) {
    assert!(rt; is_full_at_its_limit(rt.alloc()));
}
