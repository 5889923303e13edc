//! Paths that keep the rules.

ghost use Rattle.std.specs.Prelude.{◌≡◌, ◌≢◌, ◌↔◌, ◌<◌, ◌++◌, length, codes, IfOk, IfErr, IfSome, IsNone, option_copied, List, ℕ, []};
ghost use Rattle.wtf_path.specs.Grammar.{IsPath, IsName};
ghost use Rattle.wtf_path.specs.Parts.{name_of, parent_of, entry_prefix};
ghost use Rattle.wtf_path.specs.Refusals.{refusal};

use crate::PathError;
use crate::rules::first_refusal;
use crate::slashes::around_last_slash;
use std::alloc::Global;
use std::marker::Model;
use wtf_base::OutOfMemory;

/// The path of a file or a directory: `/` alone is the root, and else each name stands behind a slash.
/// A path has at most 1,023 bytes and 32 names, of the bytes `!` to `~` without `/`; no name is empty, `.`
/// or `..`. Contracts see a path as its bytes, and paths are ordered by them.
#[derive(Debug, Drop)]
pub struct Path {
    text: Vec<u8>,
}

impl Model for Path {
    ghost use Rattle.std.specs.Prelude.{List, ℕ};
    ghost use Rattle.wtf_path.specs.Grammar.{IsPath};

    ghost Value = { List ℕ };

    ghost view = { λ path. path.text.items };

    ghost invariant = { λ path. IsPath path.text.items };
}

impl Path {
    /// The path that a text spells. A text that is none is refused by the first rule that it breaks, in the
    /// order of `PathError`, and this takes no memory. `Memory` comes only for a text that is a path.
    pub fn parse(alloc: Global, text: &[u8]) -> Result<Path, PathError>
        ensures value { IfOk result (λ path. path ≡ text.now) }
        ensures well_formed { IfOk result (λ path. IsPath path) }
        ensures taken { IsPath text.now → IfErr result (λ why. why ≡ PathError.Memory) }
        ensures refused { IfSome (refusal text.now) (λ why. result ≡ Err why) }
        ensures grammar { IsNone (refusal text.now) ↔ IsPath text.now }
    {
        if let Some(why) = first_refusal(text) {
            return Err(why);
        }
        match Vec::from_slice(alloc, text) {
            Ok(text) => Ok(Path { text }),
            Err(_) => Err(PathError::Memory),
        }
    }

    /// The bytes of the path.
    pub fn as_bytes(&self) -> &[u8]
        ensures value { result.now ≡ self.now }
        ensures well_formed { IsPath self.now }
    {
        self.text.as_slice()
    }

    /// The last name; no byte for the root. No memory is taken.
    pub fn name(&self) -> &[u8]
        ensures value { result.now ≡ name_of self.now }
        ensures root { self.now ≡ codes "/" → result.now ≡ [] }
        ensures well_formed { self.now ≢ codes "/" → IsName result.now }
    {
        let (_, name) = around_last_slash(self.text.as_slice());
        name
    }

    /// The path of the directory that this path stands in; `None` exactly for the root. Each parent is
    /// shorter than its path, so parents end at the root. No memory is taken.
    pub fn parent(&self) -> Option<&[u8]>
        ensures value { option_copied result ≡ parent_of self.now }
        ensures root { IsNone result ↔ (self.now ≡ codes "/") }
        ensures well_formed { IfSome result (λ parent. IsPath parent.now) }
        ensures shorter { IfSome result (λ parent. length parent.now < length self.now) }
        ensures prefix { IfSome result (λ parent. (rest : List ℕ) × (self.now ≡ parent.now ++ rest)) }
        ensures joined { IfSome result (λ parent. self.now ≡ entry_prefix parent.now ++ name_of self.now) }
    {
        let text = self.text.as_slice();
        if text.len() == 1 {
            return None;
        }
        let (directory, _) = around_last_slash(text);
        if directory.is_empty() {
            Some(&text[..1])
        } else {
            Some(directory)
        }
    }

    /// The same path in memory of its own.
    pub fn copy(&self, alloc: Global) -> Result<Path, OutOfMemory>
        ensures { IfOk result (λ path. path ≡ self.now) }
    {
        let text = Vec::from_slice(alloc, self.text.as_slice())?;
        Ok(Path { text })
    }
}
