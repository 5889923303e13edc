//! The keeper of one image.

ghost use Rattle.std.specs.Prelude.{◌≡◌, ℕ, List, [], ◌∷◌, ◌++◌, ⊤, true, Some, IfOk, OnOk, OnErr, IsErrOf};
ghost use Rattle.wtf_dev.specs.Counts.{Rose};
ghost use Rattle.wtf_dev.specs.Keep.{KeeperView, KeeperKept};

use crate::{Failed, LoadFault};
use std::alloc::Global;

/// A keeper of one image, which is empty where nothing was saved.
pub trait Keeper {
    /// The count of faults, and the bytes held, where they are told.
    ghost view: { Self → KeeperView };

    /// A later state after an earlier one, between which these images were handed to `replace`. An
    /// implementation may say more in it.
    ghost follows: { Self → Self → List (List ℕ) → Type 0 };

    /// What an implementation says more of a state after a `replace` that failed.
    ghost refused: { Self → Self → Type 0 } = { λ old new. ⊤ };

    /// The bytes held. They stay, whatever this answers.
    fn load(&mut self, alloc: Global) -> Result<Vec<u8>, LoadFault>
        ensures bytes { IfOk result (λ v. (b : List ℕ) → (view self.old).held ≡ Some b →
            v.items ≡ b) }
        ensures held { (b : List ℕ) → (view self.old).held ≡ Some b →
            (view self.new).held ≡ Some b }
        ensures follows { follows self.old self.new [] }
        ensures cause { IsErrOf result LoadFault.Failed →
            Rose (view self.old).faults (view self.new).faults };

    /// Holds these bytes from now on. After `Failed` it holds them, or what it held.
    fn replace(&mut self, bytes: &[u8]) -> Result<(), Failed>
        ensures replaced { OnOk result ((view self.old).tells ≡ true →
            (view self.new).held ≡ Some bytes.now) }
        ensures follows { follows self.old self.new (bytes.now ∷ []) }
        ensures refused { OnErr result (refused self.old self.new) }
        ensures cause { OnErr result (Rose (view self.old).faults (view self.new).faults) };

    /// A state follows itself, and nothing was handed over.
    ghost follows_itself: { (s : Self) → follows s s [] };

    /// Two spans join.
    ghost follows_on: { (a b c : Self) (xs ys : List (List ℕ)) → follows a b xs → follows b c ys → follows a c (xs ++ ys) };

    /// The count does not fall, and told bytes stay or are those of one of the images.
    ghost keeps: { (a b : Self) (xs : List (List ℕ)) → follows a b xs → KeeperKept (view a) (view b) xs };
}
