//! What the definitions say, as contracts of functions that do nothing.

ghost use Rattle.std.specs.Prelude.{ℕ, ◌≤◌, List, length};
ghost use Rattle.wtf_overlay.specs.declared.part.Entry.{Entry};
ghost use Rattle.wtf_overlay.specs.Clips.{Within};
ghost use Rattle.wtf_overlay.specs.Compact.{IsCompact};

/// A compact list has no more entries than there are bytes below its end.
pub fn compact_lists_are_short()
    ensures { (end : ℕ) (es : List Entry) → IsCompact es → Within end es → length es ≤ end }
{}
