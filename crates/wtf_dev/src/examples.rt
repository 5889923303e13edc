//! Worked examples of the definitions, each proved.

ghost use Rattle.std.specs.Prelude.{◌≡◌, ◌≤◌, ◌⊎◌, ℕ, List, [], ◌∷◌, Some};
ghost use Rattle.wtf_dev.specs.Keep.{KeeperView, KeeperKept};

/// A keeper that was handed nothing holds what it held, and one that was handed an image holds that, or what it held. Its
/// count of faults does not fall, and it goes on to tell or not.
pub fn a_keeper_holds_what_it_was_handed()
    ensures nothing { (old new : KeeperView) (b : List ℕ) → KeeperKept old new [] →
        old.held ≡ Some b → new.held ≡ Some b }
    ensures one { (old new : KeeperView) (b image : List ℕ) → KeeperKept old new (image ∷ []) →
        old.held ≡ Some b → (new.held ≡ Some b) ⊎ (new.held ≡ Some image) }
    ensures faults { (old new : KeeperView) (images : List (List ℕ)) → KeeperKept old new images →
        old.faults ≤ new.faults }
    ensures tells { (old new : KeeperView) (images : List (List ℕ)) → KeeperKept old new images →
        new.tells ≡ old.tells }
{}
