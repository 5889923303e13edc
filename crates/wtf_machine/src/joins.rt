//! The calls that make a file of others: many put together, and one copied.

ghost use Rattle.std.specs.Prelude.{◌≡◌, ℕ, IfOk, IfErr, Ok, Err};
ghost use Rattle.wtf_model.specs.declared.op.Op.TheVariants as op;
ghost use Rattle.wtf_model.specs.Tree.{sources};
ghost use Rattle.wtf_machine.specs.Sessions.{IsCalled};

use crate::workspace::Workspace;
use wtf_base::OutOfMemory;
use wtf_model::{Answer, Paths, Word};
use wtf_path::Path;

impl Workspace {
    /// The bytes of files, one file behind the other; or why the first one that is no file is
    /// refused.
    fn gather(&self, paths: &[Path]) -> Result<Result<Vec<u8>, Word>, OutOfMemory>
        ensures ok { IfOk result (λ r. IfOk r (λ b. sources self.now.tree paths.now ≡ Ok b.items)) }
        ensures err { IfOk result (λ r. IfErr r (λ w. sources self.now.tree paths.now ≡ Err w)) }
    {
        let mut joined = Vec::new(self.alloc);
        for path in paths {
            match self.source(path) {
                Ok(bytes) => joined.extend_from_slice(bytes)?,
                Err(word) => return Ok(Err(word)),
            }
        }
        Ok(Ok(joined))
    }

    /// Makes a file of the bytes of others, one file behind the other.
    pub(crate) fn concat(
        &mut self,
        cap: u64,
        q: &Path,
        paths: &Paths,
    ) -> Result<Answer, OutOfMemory>
        ensures { IfOk result (λ a. IsCalled cap (op.Concat q.now paths.now) self.old self.new a) }
    {
        if let Err(word) = self.target(q) {
            return Ok(Answer::Refused(word));
        }
        let bytes = match self.gather(paths.as_slice())? {
            Ok(bytes) => bytes,
            Err(word) => return Ok(Answer::Refused(word)),
        };
        if bytes.len() as u64 > cap {
            return Ok(Answer::Refused(Word::TooBig));
        }
        let q = q.copy(self.alloc)?;
        self.put_file(q, bytes)?;
        Ok(Answer::Okay)
    }

    /// Makes a file of the bytes of another.
    pub(crate) fn copy(&mut self, p: &Path, q: &Path) -> Result<Answer, OutOfMemory>
        ensures { IfOk result (λ a. (cap : ℕ) →
            IsCalled cap (op.Copy p.now q.now) self.old self.new a) }
    {
        let bytes = match self.source(p) {
            Ok(bytes) => bytes,
            Err(word) => return Ok(Answer::Refused(word)),
        };
        if let Err(word) = self.target(q) {
            return Ok(Answer::Refused(word));
        }
        let bytes = Vec::from_slice(self.alloc, bytes)?;
        let q = q.copy(self.alloc)?;
        self.put_file(q, bytes)?;
        Ok(Answer::Okay)
    }
}
