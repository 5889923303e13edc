//! What the definitions say, as contracts of functions that do nothing.

ghost use Rattle.std.specs.Prelude.{◌≡◌, ◌<◌, ◌++◌, ℕ, List, [], length, Some};
ghost use Rattle.wtf_overlay.specs.declared.part.Entry.{Entry};
ghost use Rattle.wtf_overlay.specs.Clips.{Within};
ghost use Rattle.wtf_overlay.specs.Compact.{IsCompact};
ghost use Rattle.wtf_overlay.specs.Shapes.{HaveWidths};
ghost use Rattle.wtf_overlay.specs.Spilled.{encoded, decoded};
ghost use Rattle.wtf_spillfmt.specs.Lists.{AreBytes};

/// A compact list is read again of its bytes, for each region that it lies inside.
pub fn what_was_encoded_is_decoded()
    ensures { (region : ℕ) (es : List Entry) → HaveWidths es → IsCompact es → Within region es →
        decoded region (encoded es) ≡ Some es }
{}

/// Bytes are read as the list that has them for its encoding, and that list is compact and lies inside
/// the region.
pub fn what_was_decoded_is_encoded()
    ensures bytes { (region : ℕ) (bytes : List ℕ) (es : List Entry) → AreBytes bytes →
        decoded region bytes ≡ Some es → bytes ≡ encoded es }
    ensures compact { (region : ℕ) (bytes : List ℕ) (es : List Entry) →
        decoded region bytes ≡ Some es → IsCompact es }
    ensures within { (region : ℕ) (bytes : List ℕ) (es : List Entry) → AreBytes bytes →
        decoded region bytes ≡ Some es → Within region es }
{}

/// The bytes of a list are some.
pub fn encoded_lists_have_bytes()
    ensures { (es : List Entry) → 0 < length (encoded es) }
{}

/// No list's bytes are a proper front of another's.
pub fn encoded_lists_are_apart()
    ensures { (es fs : List Entry) (rest : List ℕ) → HaveWidths es → HaveWidths fs →
        IsCompact es → IsCompact fs → encoded fs ≡ encoded es ++ rest → (es ≡ fs) × (rest ≡ []) }
{}
