//! Worked examples of the calls on handles and on bytes, each proved.

ghost use Rattle.std.specs.Prelude.{◌≡◌, ℕ, ◌+◌, ◌≤◌, List, [], ◌∷◌, ◌++◌, Some, None, codes};
ghost use Rattle.std.specs.FinMap.{get, remove};
ghost use Rattle.wtf_model.specs.declared.answer.Answer.TheVariants as answer;
ghost use Rattle.wtf_model.specs.declared.answer.Word.TheVariants as word;
ghost use Rattle.wtf_model.specs.declared.op.Op.TheVariants as op;
ghost use Rattle.wtf_model.specs.declared.op.Seek.TheVariants as to;
ghost use Rattle.wtf_model.specs.Session.{Session, Handle};
ghost use Rattle.wtf_model.specs.Done.{moved, set_bytes};
ghost use Rattle.wtf_model.specs.Call.{call};
ghost use Rattle.wtf_model.specs.Examples.{HasOpen, answering, unchanged};

/// A read shows what is left from the offset, and moves it; at the end nothing is left.
pub fn reads()
    ensures all { (cap f : ℕ) (s : Session) (h : Handle) → HasOpen s f h (codes "abcdef") →
        h.off ≡ 0 →
        call cap s (op.Read f 9) ≡ answering (moved s f h 6) (answer.Shown (codes "abcdef")) }
    ensures some { (cap f : ℕ) (s : Session) (h : Handle) → HasOpen s f h (codes "abcdef") →
        h.off ≡ 2 →
        call cap s (op.Read f 3) ≡ answering (moved s f h 5) (answer.Shown (codes "cde")) }
    ensures past { (cap f : ℕ) (s : Session) (h : Handle) → HasOpen s f h (codes "ab") → h.off ≡ 8 →
        call cap s (op.Read f 4) ≡ answering (moved s f h 8) (answer.Shown []) }
{}

/// A write replaces bytes in their place, with zeros where the file ended before it, and moves the offset. It may end at
/// the greatest length, and not past it.
pub fn writes()
    ensures over { (cap f : ℕ) (s : Session) (h : Handle) → HasOpen s f h (codes "abcdef") →
        h.off ≡ 2 → 4 ≤ cap →
        call cap s (op.Write f (codes "XY")) ≡
        answering (moved (set_bytes s h.path (codes "abXYef")) f h 4) answer.Okay }
    ensures gap { (cap f : ℕ) (s : Session) (h : Handle) → HasOpen s f h (codes "a") →
        h.off ≡ 3 → 4 ≤ cap →
        call cap s (op.Write f (codes "d")) ≡
        answering (moved (set_bytes s h.path (codes "a" ++ (0 ∷ 0 ∷ codes "d"))) f h 4) answer.Okay }
    ensures to_the_end { (f : ℕ) (s : Session) (h : Handle) → HasOpen s f h (codes "abc") →
        h.off ≡ 3 →
        call 4 s (op.Write f (codes "x")) ≡
        answering (moved (set_bytes s h.path (codes "abcx")) f h 4) answer.Okay }
    ensures too_big { (f : ℕ) (s : Session) (h : Handle) → HasOpen s f h (codes "abc") → h.off ≡ 4 →
        call 4 s (op.Write f (codes "x")) ≡ unchanged s (answer.Refused word.TooBig) }
    ensures nothing { (cap f : ℕ) (s : Session) (h : Handle) (bytes : List ℕ) →
        HasOpen s f h bytes →
        call cap s (op.Write f []) ≡ unchanged s answer.Okay }
    ensures closed { (cap : ℕ) (s : Session) (f : ℕ) (bytes : List ℕ) → get s.handles f ≡ None →
        call cap s (op.Write f bytes) ≡ unchanged s (answer.Refused word.NoHandle) }
{}

/// An append adds bytes at the end, wherever the offset stands, and leaves it there.
pub fn appends()
    ensures at_end { (cap f : ℕ) (s : Session) (h : Handle) → HasOpen s f h (codes "cd") → 4 ≤ cap →
        call cap s (op.Append f (codes "ab")) ≡
        answering (set_bytes s h.path (codes "cdab")) answer.Okay }
    ensures to_the_end { (f : ℕ) (s : Session) (h : Handle) → HasOpen s f h (codes "abc") →
        call 4 s (op.Append f (codes "x")) ≡
        answering (set_bytes s h.path (codes "abcx")) answer.Okay }
    ensures too_big { (f : ℕ) (s : Session) (h : Handle) → HasOpen s f h (codes "abcd") →
        call 4 s (op.Append f (codes "y")) ≡ unchanged s (answer.Refused word.TooBig) }
    ensures closed { (cap f : ℕ) (s : Session) (bytes : List ℕ) → get s.handles f ≡ None →
        call cap s (op.Append f bytes) ≡ unchanged s (answer.Refused word.NoHandle) }
{}

/// A truncation cuts the tail off, or pads with zeros, up to the greatest length. The offset stays.
pub fn truncations()
    ensures cuts { (cap f : ℕ) (s : Session) (h : Handle) → HasOpen s f h (codes "abcd") → 2 ≤ cap →
        call cap s (op.Truncate f 2) ≡ answering (set_bytes s h.path (codes "ab")) answer.Okay }
    ensures pads { (cap f : ℕ) (s : Session) (h : Handle) → HasOpen s f h (codes "ab") → 5 ≤ cap →
        call cap s (op.Truncate f 5) ≡
        answering (set_bytes s h.path (codes "ab" ++ (0 ∷ 0 ∷ 0 ∷ []))) answer.Okay }
    ensures to_nothing { (cap f : ℕ) (s : Session) (h : Handle) → HasOpen s f h (codes "ab") →
        call cap s (op.Truncate f 0) ≡ answering (set_bytes s h.path []) answer.Okay }
    ensures too_big { (f : ℕ) (s : Session) (h : Handle) (bytes : List ℕ) → HasOpen s f h bytes →
        call 262144 s (op.Truncate f 262145) ≡ unchanged s (answer.Refused word.TooBig) }
    ensures closed { (cap f n : ℕ) (s : Session) → get s.handles f ≡ None →
        call cap s (op.Truncate f n) ≡ unchanged s (answer.Refused word.NoHandle) }
{}

/// A punch puts zeros in place of bytes as far as the file goes: it never grows a file. The offset stays.
pub fn punches()
    ensures to_end { (cap f : ℕ) (s : Session) (h : Handle) → HasOpen s f h (codes "abcdef") →
        h.off ≡ 4 →
        call cap s (op.Punch f 10) ≡
        answering (set_bytes s h.path (codes "abcd" ++ (0 ∷ 0 ∷ []))) answer.Okay }
    ensures inside { (cap f : ℕ) (s : Session) (h : Handle) → HasOpen s f h (codes "abcdef") →
        h.off ≡ 1 →
        call cap s (op.Punch f 2) ≡
        answering (set_bytes s h.path (codes "a" ++ (0 ∷ 0 ∷ codes "def"))) answer.Okay }
    ensures past { (cap f : ℕ) (s : Session) (h : Handle) → HasOpen s f h (codes "ab") → h.off ≡ 4 →
        call cap s (op.Punch f 10) ≡ answering (set_bytes s h.path (codes "ab")) answer.Okay }
    ensures closed { (cap f n : ℕ) (s : Session) → get s.handles f ≡ None →
        call cap s (op.Punch f n) ≡ unchanged s (answer.Refused word.NoHandle) }
{}

/// A seek leads from 0 to the greatest length of a file, and no farther.
pub fn seeks()
    ensures set { (f : ℕ) (s : Session) (h : Handle) (bytes : List ℕ) → HasOpen s f h bytes →
        call 262144 s (op.Seek f (to.Set 262144)) ≡ answering (moved s f h 262144) answer.Okay }
    ensures set_past { (f : ℕ) (s : Session) (h : Handle) (bytes : List ℕ) → HasOpen s f h bytes →
        call 262144 s (op.Seek f (to.Set 262145)) ≡ unchanged s (answer.Refused word.Range) }
    ensures fwd { (f : ℕ) (s : Session) (h : Handle) (bytes : List ℕ) → HasOpen s f h bytes →
        h.off ≡ 3 →
        call 262144 s (op.Seek f (to.Fwd 2)) ≡ answering (moved s f h 5) answer.Okay }
    ensures fwd_past { (f : ℕ) (s : Session) (h : Handle) (bytes : List ℕ) →
        HasOpen s f h bytes → h.off ≡ 262144 →
        call 262144 s (op.Seek f (to.Fwd 1)) ≡ unchanged s (answer.Refused word.Range) }
    ensures back { (f : ℕ) (s : Session) (h : Handle) (bytes : List ℕ) → HasOpen s f h bytes →
        h.off ≡ 262144 →
        call 262144 s (op.Seek f (to.Back 1)) ≡ answering (moved s f h 262143) answer.Okay }
    ensures back_to_start { (cap f : ℕ) (s : Session) (h : Handle) (bytes : List ℕ) →
        HasOpen s f h bytes → h.off ≡ 2 →
        call cap s (op.Seek f (to.Back 2)) ≡ answering (moved s f h 0) answer.Okay }
    ensures back_past { (cap f : ℕ) (s : Session) (h : Handle) (bytes : List ℕ) →
        HasOpen s f h bytes → h.off ≡ 2 →
        call cap s (op.Seek f (to.Back 3)) ≡ unchanged s (answer.Refused word.Range) }
    ensures end { (cap f : ℕ) (s : Session) (h : Handle) → HasOpen s f h (codes "abcdef") →
        call cap s (op.Seek f to.End) ≡ answering (moved s f h 6) answer.Okay }
    ensures closed { (cap f n : ℕ) (s : Session) → get s.handles f ≡ None →
        call cap s (op.Seek f to.End) ≡ unchanged s (answer.Refused word.NoHandle) }
{}

/// A label that is open tells its offset, and can be closed once.
pub fn handles()
    ensures tell { (cap f : ℕ) (s : Session) (h : Handle) → get s.handles f ≡ Some h →
        call cap s (op.Tell f) ≡ unchanged s (answer.At h.off) }
    ensures tell_closed { (cap f : ℕ) (s : Session) → get s.handles f ≡ None →
        call cap s (op.Tell f) ≡ unchanged s (answer.Refused word.NoHandle) }
    ensures close { (cap f : ℕ) (s : Session) (h : Handle) → get s.handles f ≡ Some h →
        call cap s (op.Close f) ≡
        answering (record s { handles = remove s.handles f }) answer.Okay }
    ensures close_closed { (cap f : ℕ) (s : Session) → get s.handles f ≡ None →
        call cap s (op.Close f) ≡ unchanged s (answer.Refused word.NoHandle) }
    ensures open_taken { (cap f : ℕ) (p : List ℕ) (s : Session) (h : Handle) →
        get s.handles f ≡ Some h →
        call cap s (op.Open f p) ≡ unchanged s (answer.Refused word.InUse) }
{}
