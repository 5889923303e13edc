//! What the definitions say, as contracts of functions that do nothing.

ghost use Rattle.std.specs.Prelude.{◌≡◌, ◌<◌, ℕ, List, Some};
ghost use Rattle.wtf_base.specs.Places.{Place};
ghost use Rattle.wtf_image.specs.Pictured.{IsImageOfTree};
ghost use Rattle.wtf_image.specs.Rules.{none_lost};
ghost use Rattle.wtf_model.specs.Tree.{Tree};
ghost use Rattle.wtf_meta.specs.Contents.{Told};
ghost use Rattle.wtf_healer.specs.Live.{IsLiveTree};

/// Where no server is lost the tree that is left of an image is the image's tree.
pub fn nothing_is_lost()
    ensures { (told : Told) (bytes : List ℕ) (t : Tree) →
        IsLiveTree told none_lost bytes t → IsImageOfTree told bytes t }
{}

/// And the image's tree is left of it, where the stores tell no byte that lies outside of their eight files.
pub fn all_is_left()
    ensures { (told : Told) (bytes : List ℕ) (t : Tree) →
        ((p : Place) (byte : ℕ) → told p ≡ Some byte → p.file < 8) →
        IsImageOfTree told bytes t → IsLiveTree told none_lost bytes t }
{}
