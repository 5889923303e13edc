//! Answers of stores that fail, in place of those that are due.

ghost use Rattle.std.specs.Prelude.{◌↔◌, ◌<◌, length, IsTrue};
ghost use Rattle.wtf_model.specs.Examples.{IsStoreFault};
ghost use Rattle.wtf_model.specs.Faults.{IsReadFault};
ghost use Rattle.wtf_model.specs.Lawful.{MayFail, MayFailRead, MayFailYank, MayFailPeek};
ghost use Rattle.wtf_model.specs.Lawful.{MayFailConcat, MayFailWrite};

use wtf_base::Bytes;
use wtf_model::{Answer, Op};

/// Whether an answer tells that a store failed.
pub(crate) fn is_store_fault(answer: &Answer) -> bool
    ensures { IsTrue result ↔ IsStoreFault answer.now }
{
    match answer {
        Answer::FaultRead(_) => true,
        Answer::FaultWrite => true,
        Answer::Damaged(_) => true,
        _ => false,
    }
}

/// Whether an answer tells of a read that failed on one of so many servers.
pub(crate) fn is_read_fault(servers: u8, answer: &Answer) -> bool
    ensures { IsTrue result ↔ IsReadFault servers answer.now }
{
    match answer {
        Answer::FaultRead(k) => *k < servers,
        Answer::Damaged(k) => *k < servers,
        _ => false,
    }
}

/// Whether a read that is due one answer may fail with the other. A read that shows no byte asks
/// no server.
fn may_fail_read(servers: u8, due: &Answer, answer: &Answer) -> bool
    ensures { IsTrue result ↔ MayFailRead servers due.now answer.now }
{
    match due {
        Answer::Shown(bytes) => !bytes.as_slice().is_empty() && is_read_fault(servers, answer),
        _ => false,
    }
}

/// Whether a yank that is due one answer may fail with the other. A yank of no byte asks no server.
fn may_fail_yank(servers: u8, due: &Answer, answer: &Answer) -> bool
    ensures { IsTrue result ↔ MayFailYank servers due.now answer.now }
{
    match due {
        Answer::Len(n) => *n > 0 && is_read_fault(servers, answer),
        _ => false,
    }
}

/// Whether a peek that is due one answer may fail with the other. The lists of a slice were read
/// when it was yanked, so none is found damaged.
fn may_fail_peek(servers: u8, due: &Answer, answer: &Answer) -> bool
    ensures { IsTrue result ↔ MayFailPeek servers due.now answer.now }
{
    match (due, answer) {
        (Answer::Shown(bytes), Answer::FaultRead(k)) => {
            !bytes.as_slice().is_empty() && *k < servers
        }
        _ => false,
    }
}

/// Whether a concat that is due one answer may fail with the other.
fn may_fail_concat(servers: u8, due: &Answer, answer: &Answer) -> bool
    ensures { IsTrue result ↔ MayFailConcat servers due.now answer.now }
{
    match due {
        Answer::Okay => is_read_fault(servers, answer),
        _ => false,
    }
}

/// Whether a write or an append of these bytes that is due one answer may fail with the other.
/// Where there is no byte, nothing is stored.
fn may_fail_write(bytes: &Bytes, due: &Answer, answer: &Answer) -> bool
    ensures { IsTrue result ↔ ((0 < length bytes.now) × MayFailWrite due.now answer.now) }
{
    match (due, answer) {
        (Answer::Okay, Answer::FaultWrite) => !bytes.as_slice().is_empty(),
        _ => false,
    }
}

/// Whether a call that is due one answer may be answered by the other, a fault of the stores.
pub(crate) fn may_fail(servers: u8, op: &Op<Bytes>, due: &Answer, answer: &Answer) -> bool
    ensures { IsTrue result ↔ MayFail servers op.now due.now answer.now }
{
    match op {
        Op::Read(_, _) => may_fail_read(servers, due, answer),
        Op::Yank(_, _, _) => may_fail_yank(servers, due, answer),
        Op::Peek { .. } => may_fail_peek(servers, due, answer),
        Op::Concat(_, _) => may_fail_concat(servers, due, answer),
        Op::Write(_, bytes) => may_fail_write(bytes, due, answer),
        Op::Append(_, bytes) => may_fail_write(bytes, due, answer),
        _ => false,
    }
}
