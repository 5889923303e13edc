//! What the definitions say, as contracts of functions that do nothing.

ghost use Rattle.std.specs.Prelude.{◌≡◌, ◌++◌, ℕ, List, [], Some};
ghost use Rattle.wtf_base.specs.declared.settings.Settings.{Settings};
ghost use Rattle.wtf_kv.specs.Stores.{Store};
ghost use Rattle.wtf_values.specs.declared.key.Key.{Key};
ghost use Rattle.wtf_values.specs.declared.value.Value.{Value};
ghost use Rattle.wtf_imagefmt.specs.Rows.{ImageRows};
ghost use Rattle.wtf_changes.specs.Rows.{ChangeRows};
ghost use Rattle.wtf_changes.specs.Shapes.{AreChanges, HasChanges};
ghost use Rattle.wtf_changes.specs.Drafts.{applied};
ghost use Rattle.wtf_changes.specs.Since.{AreChangesOf};
ghost use Rattle.wtf_changes.specs.Law.{AreImagesSince};

/// Bytes are one list of changes at most, and no changes are a proper front of others.
pub fn changes_are_apart()
    ensures { (x y : ChangeRows) (a rest : List ℕ) → HasChanges x a → HasChanges y (a ++ rest) →
        (x ≡ y) × (rest ≡ []) }
{}

/// The image of a store at a pinned number, with the changes since then made in it, is the image of the
/// second version at the number of the store, where both can be saved.
pub fn changes_make_the_image()
    ensures { (kv : Store Key Value) (since : ℕ) (s : Settings) (next : ℕ) (x z : ImageRows)
        (ch : ChangeRows) → AreImagesSince kv since s next x z → AreChanges ch →
        AreChangesOf kv since next ch → applied x ch ≡ Some z }
{}
