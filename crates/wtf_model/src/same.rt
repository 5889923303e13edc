//! Copies of answers and of what they hold, and a test whether a call answers as it did before.

ghost use Rattle.std.specs.Prelude.{◌≡◌, ◌↔◌, IfOk, IsTrue};
ghost use Rattle.wtf_model.specs.Same.{AreSame, IsAbortedAt};
ghost use Rattle.wtf_model.specs.Steps.{IsLogged};

use crate::{Answer, Names, Row, Rows};
use std::alloc::Global;
use wtf_base::{Bytes, OutOfMemory};

/// The same bytes in memory of their own.
pub(crate) fn copy_bytes(alloc: Global, bytes: &Bytes) -> Result<Bytes, OutOfMemory>
    ensures { IfOk result (λ made. made ≡ bytes.now) }
{
    let copied = Vec::from_slice(alloc, bytes.as_slice())?;
    Ok(Bytes::of(copied))
}

impl Names {
    /// The same names in memory of their own.
    pub fn copy(&self, alloc: Global) -> Result<Names, OutOfMemory>
        ensures { IfOk result (λ made. made ≡ self.now) }
    {
        let mut copied: Vec<Bytes> = Vec::new(alloc);
        let names = self.as_slice();
        for name in names {
            let name = copy_bytes(alloc, name)?;
            copied.push(name)?;
        }
        Ok(Names::of(copied))
    }
}

/// The same row in memory of its own.
fn copy_row(alloc: Global, row: &Row) -> Result<Row, OutOfMemory>
    ensures { IfOk result (λ made. made ≡ row.now) }
{
    let path = row.path.copy(alloc)?;
    Ok(Row { path, len: row.len })
}

impl Rows {
    /// The same rows in memory of their own.
    pub fn copy(&self, alloc: Global) -> Result<Rows, OutOfMemory>
        ensures { IfOk result (λ made. made ≡ self.now) }
    {
        let mut copied: Vec<Row> = Vec::new(alloc);
        let rows = self.as_slice();
        for row in rows {
            let row = copy_row(alloc, row)?;
            copied.push(row)?;
        }
        Ok(Rows::of(copied))
    }
}

/// An answer as it was, with the number of the call that it ended at.
fn aborted(alloc: Global, call: u32, answer: Answer) -> Result<Answer, OutOfMemory>
    ensures { IfOk result (λ made. IsAbortedAt made call answer) }
{
    match Box::new(alloc, answer) {
        Ok(held) => Ok(Answer::Aborted(call, held)),
        Err(_) => Err(OutOfMemory),
    }
}

impl Answer {
    /// The same answer in memory of its own. What a call answers is copied to an equal answer.
    pub fn copy(&self, alloc: Global) -> Result<Answer, OutOfMemory>
        ensures same { IfOk result (λ made. AreSame made self.now) }
        ensures of_a_call { IsLogged self.now → IfOk result (λ made. made ≡ self.now) }
    {
        match self {
            Answer::Okay => Ok(Answer::Okay),
            Answer::Begun(n) => Ok(Answer::Begun(*n)),
            Answer::Shown(bytes) => Ok(Answer::Shown(copy_bytes(alloc, bytes)?)),
            Answer::At(off) => Ok(Answer::At(*off)),
            Answer::Len(len) => Ok(Answer::Len(*len)),
            Answer::Dir => Ok(Answer::Dir),
            Answer::File { len, links } => Ok(Answer::File {
                len: *len,
                links: *links,
            }),
            Answer::Names(names) => Ok(Answer::Names(names.copy(alloc)?)),
            Answer::Committed(n) => Ok(Answer::Committed(*n)),
            Answer::Retry { base, now } => Ok(Answer::Retry {
                base: *base,
                now: *now,
            }),
            Answer::Replayed(i) => Ok(Answer::Replayed(*i)),
            Answer::Aborted(call, answer) => {
                let answer = answer.copy(alloc)?;
                aborted(alloc, *call, answer)
            }
            Answer::Planned => Ok(Answer::Planned),
            Answer::Installed(n) => Ok(Answer::Installed(*n)),
            Answer::Stale { base, now } => Ok(Answer::Stale {
                base: *base,
                now: *now,
            }),
            Answer::Scanning => Ok(Answer::Scanning),
            Answer::Held(holder) => Ok(Answer::Held(*holder)),
            Answer::More(parts) => Ok(Answer::More(*parts)),
            Answer::Done => Ok(Answer::Done),
            Answer::Collected(n) => Ok(Answer::Collected(*n)),
            Answer::Saved(n) => Ok(Answer::Saved(*n)),
            Answer::Tree(rows) => Ok(Answer::Tree(rows.copy(alloc)?)),
            Answer::Refused(word) => Ok(Answer::Refused(*word)),
            Answer::FaultRead(k) => Ok(Answer::FaultRead(*k)),
            Answer::FaultWrite => Ok(Answer::FaultWrite),
            Answer::FaultPunch(k) => Ok(Answer::FaultPunch(*k)),
            Answer::FaultSave => Ok(Answer::FaultSave),
            Answer::Damaged(k) => Ok(Answer::Damaged(*k)),
            Answer::Bad(kind) => Ok(Answer::Bad(*kind)),
        }
    }
}

/// Whether two answers are the same, where the first is one of a call.
pub fn is_same_answer(shown: &Answer, now: &Answer) -> bool
    requires { IsLogged shown.now }
    ensures { IsTrue result ↔ (shown.now ≡ now.now) }
{
    match (shown, now) {
        (Answer::Okay, Answer::Okay) => true,
        (Answer::Shown(x), Answer::Shown(y)) => x == y,
        (Answer::At(x), Answer::At(y)) => x == y,
        (Answer::Len(x), Answer::Len(y)) => x == y,
        (Answer::Dir, Answer::Dir) => true,
        (Answer::File { len: x, links: a }, Answer::File { len: y, links: b }) => x == y && a == b,
        (Answer::Names(x), Answer::Names(y)) => x == y,
        (Answer::Refused(x), Answer::Refused(y)) => x == y,
        _ => false,
    }
}
