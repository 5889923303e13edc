//! Each call of a transaction, as the machine makes it.

use crate::workspace::Workspace;
use wtf_base::{Bytes, OutOfMemory};
use wtf_model::{Answer, Op};

impl Workspace {
    ghost use Rattle.std.specs.Prelude.{◌≡◌, IfOk};
    ghost use Rattle.wtf_model.specs.Call.{call};
    ghost use Rattle.wtf_machine.specs.Sessions.{session_in, IsCalled};

    /// A call, where no file may be longer than cap. After an error the session is of no use.
    pub(crate) fn call(&mut self, cap: u64, op: &Op<Bytes>) -> Result<Answer, OutOfMemory>
        ensures { IfOk result (λ a. IsCalled cap op.now self.old self.new a) }
    {
        match op {
            Op::Mkdir(p) => self.mkdir(p),
            Op::Rmdir(p) => self.rmdir(p),
            Op::Create(p) => self.create(p),
            Op::Unlink(p) => self.unlink(p),
            Op::Rename(p, q) => self.rename(p, q),
            Op::Link(p, q) => self.link(p, q),
            Op::List(p) => self.list(p),
            Op::Stat(p) => self.stat(p),
            Op::Open(f, p) => self.open(*f, p),
            Op::Close(f) => Ok(self.close(*f)),
            Op::Seek(f, place) => self.seek(cap, *f, *place),
            Op::Tell(f) => Ok(self.tell(*f)),
            Op::Read(f, n) => self.read(*f, *n),
            Op::Write(f, bytes) => self.write(cap, *f, bytes.as_slice()),
            Op::Append(f, bytes) => self.append(cap, *f, bytes.as_slice()),
            Op::Truncate(f, n) => self.truncate(cap, *f, *n),
            Op::Punch(f, n) => self.punch(*f, *n),
            Op::Yank(f, n, label) => self.yank(*f, *n, *label),
            Op::Peek { from, off, len } => self.peek(*from, *off, *len),
            Op::Cut { from, off, len, to } => self.cut(*from, *off, *len, *to),
            Op::Paste(f, label) => self.paste(cap, *f, *label),
            Op::Glue(f, label) => self.glue(cap, *f, *label),
            Op::Concat(q, paths) => self.concat(cap, q, paths),
            Op::Copy(p, q) => self.copy(p, q),
        }
    }

    /// What a call is due. It is made on a second copy of the session, which stays.
    pub(crate) fn due(&self, cap: u64, op: &Op<Bytes>) -> Result<Answer, OutOfMemory>
        ensures { IfOk result (λ a. a ≡ (call cap (session_in self.now) op.now).answer) }
    {
        let mut tried = self.share()?;
        tried.call(cap, op)
    }
}
