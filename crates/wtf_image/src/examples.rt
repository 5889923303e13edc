//! What the definitions say, as contracts of functions that do nothing.

ghost use Rattle.std.specs.Prelude.{◌≡◌, ◌<◌, ◌^◌, ◌++◌, ℕ, Bool, false, List, []};
ghost use Rattle.std.specs.FinMap.{len};
ghost use Rattle.wtf_base.specs.declared.pointer.Pointer.{Pointer};
ghost use Rattle.wtf_base.specs.declared.settings.Settings.{Settings};
ghost use Rattle.wtf_kv.specs.Stores.{Store};
ghost use Rattle.wtf_values.specs.declared.key.Key.{Key};
ghost use Rattle.wtf_values.specs.declared.value.Value.{Value};
ghost use Rattle.wtf_image.specs.declared.error.LoadError.{LoadError};
ghost use Rattle.wtf_image.specs.declared.loads.Loaded.{Loaded};
ghost use Rattle.wtf_model.specs.Tree.{Tree};
ghost use Rattle.wtf_meta.specs.Maps.{metadata_at};
ghost use Rattle.wtf_meta.specs.Contents.{Told};
ghost use Rattle.wtf_meta.specs.Trees.{Stands};
ghost use Rattle.wtf_image.specs.Tables.{shown};
ghost use Rattle.wtf_image.specs.Savable.{AreBefore, IsSavable};
ghost use Rattle.wtf_imagefmt.specs.declared.records.Version.TheVariants.{Two};
ghost use Rattle.wtf_imagefmt.specs.Rows.{ImageRows};
ghost use Rattle.wtf_imagefmt.specs.Texts.{image_text};
ghost use Rattle.wtf_image.specs.Images.{HasText};
ghost use Rattle.wtf_image.specs.Rules.{is_lost, none_lost, lies_inside, lies_inside_without};
ghost use Rattle.wtf_image.specs.Loading.{IsLoadRefusal, IsTaken, IsTakenWithout};
ghost use Rattle.wtf_image.specs.Outcome.{IsLoadOf};
ghost use Rattle.wtf_image.specs.Pictured.{IsImageOfTree};
ghost use Rattle.wtf_imagefmt.specs.Saving.{IsSaveOf, as_second};
ghost use Rattle.wtf_image.specs.Kept.{IsKept, IsSameAs, IsPointerOrMemory};

/// Bytes are one image at most, and no image is a proper front of another.
pub fn images_are_apart()
    ensures { (x y : ImageRows) (a rest : List ℕ) → HasText x a → HasText y (a ++ rest) →
        (x ≡ y) × (rest ≡ []) }
{}

/// What was saved is loaded again: the same map at the same number, with the same settings and the
/// same next transaction; a refusal names a pointer outside the stores, unless memory ran out.
pub fn what_was_saved_is_loaded()
    ensures same { (kv : Store Key Value) (s : Settings) (n : ℕ) (bytes : List ℕ) →
        IsKept kv s n bytes → (size : ℕ → ℕ → ℕ) (l : Loaded) → IsLoadOf size bytes l →
        IsSameAs kv s n l }
    ensures taken { (kv : Store Key Value) (s : Settings) (n : ℕ) (bytes : List ℕ) →
        IsKept kv s n bytes → (size : ℕ → ℕ → ℕ) (why : LoadError) → IsLoadRefusal size bytes why →
        IsPointerOrMemory why }
{}

/// What was loaded of an image has the same rows for its image, in the second version, and the bytes
/// themselves where they are of that. Each of its inodes is of a transaction before the next one.
pub fn what_was_loaded_is_its_image()
    ensures image { (size : ℕ → ℕ → ℕ) (bytes : List ℕ) (l : Loaded) (load : IsLoadOf size bytes l) →
        IsSaveOf l.kv l.settings l.next_tx (image_text (as_second load.rows)) }
    ensures same { (size : ℕ → ℕ → ℕ) (bytes : List ℕ) (l : Loaded) (load : IsLoadOf size bytes l) →
        load.rows.version ≡ Two → IsSaveOf l.kv l.settings l.next_tx bytes }
    ensures before { (size : ℕ → ℕ → ℕ) (bytes : List ℕ) (l : Loaded) →
        IsLoadOf size bytes l → AreBefore l.next_tx (metadata_at l.kv l.kv.number) }
{}

/// Metadata that stand for a tree of files can be saved, where the next transaction is after that of
/// each inode.
pub fn what_stands_can_be_saved()
    ensures { (b : ℕ) (told : Told) (tx calls n : ℕ) (kv : Store Key Value) (t : Tree) →
        Stands b told tx calls (metadata_at kv kv.number) t → 0 < n →
        AreBefore n (metadata_at kv kv.number) → IsSavable b n (shown kv) }
{}

/// The tree that an image stands for has less than 2^32 paths: an image counts them.
pub fn image_is_small()
    ensures { (told : Told) (bytes : List ℕ) (t : Tree) → IsImageOfTree told bytes t → len t < 2 ^ 32 }
{}

/// A mask without a bit names no server, and where none is lost each extent is tried whole. What is taken
/// with all servers is taken without some of them.
pub fn what_is_lost_is_not_tried()
    ensures none { (k : ℕ) → is_lost 0 k ≡ false }
    ensures whole { (servers : ℕ) (size : ℕ → ℕ → ℕ) (p : Pointer) →
        lies_inside_without none_lost servers size p ≡ lies_inside servers size p }
    ensures more { (lost : ℕ → Bool) (size : ℕ → ℕ → ℕ) (bytes : List ℕ) (x : ImageRows) →
        IsTaken size bytes x → IsTakenWithout lost size bytes x }
{}
