//! Worked examples of the calls on slices, each proved.

ghost use Rattle.std.specs.Prelude.{◌≡◌, ℕ, ◌≤◌, List, [], ◌∷◌, Some, None, codes};
ghost use Rattle.std.specs.FinMap.{get};
ghost use Rattle.wtf_model.specs.declared.answer.Answer.TheVariants as answer;
ghost use Rattle.wtf_model.specs.declared.answer.Word.TheVariants as word;
ghost use Rattle.wtf_model.specs.declared.op.Op.TheVariants as op;
ghost use Rattle.wtf_model.specs.Tree.{PathSet};
ghost use Rattle.wtf_model.specs.Tree as node;
ghost use Rattle.wtf_model.specs.Session.{Session, Handle};
ghost use Rattle.wtf_model.specs.Done.{moved, set_bytes, add_file, put_slice};
ghost use Rattle.wtf_model.specs.Call.{call};
ghost use Rattle.wtf_model.specs.Examples.{HasOpen, IsFreeIn, answering, unchanged};

/// A yank takes the bytes that a read would show, and moves the offset as a read does.
pub fn yanks()
    ensures all { (cap f label : ℕ) (s : Session) (h : Handle) → HasOpen s f h (codes "abcd") →
        h.off ≡ 0 →
        call cap s (op.Yank f 4 label) ≡
        answering (put_slice (moved s f h 4) label (codes "abcd")) (answer.Len 4) }
    ensures left { (cap f label : ℕ) (s : Session) (h : Handle) → HasOpen s f h (codes "abcd") →
        h.off ≡ 3 →
        call cap s (op.Yank f 4 label) ≡
        answering (put_slice (moved s f h 4) label (codes "d")) (answer.Len 1) }
    ensures none { (cap f label : ℕ) (s : Session) (h : Handle) → HasOpen s f h (codes "ab") →
        h.off ≡ 2 →
        call cap s (op.Yank f 4 label) ≡
        answering (put_slice (moved s f h 2) label []) (answer.Len 0) }
    ensures closed { (cap f n label : ℕ) (s : Session) → get s.handles f ≡ None →
        call cap s (op.Yank f n label) ≡ unchanged s (answer.Refused word.NoHandle) }
{}

/// A peek shows just the part of a slice that is asked for, which must lie in it.
pub fn peeks()
    ensures part { (cap label : ℕ) (s : Session) → get s.slices label ≡ Some (codes "m1m2") →
        call cap s (op.Peek label 1 2) ≡ unchanged s (answer.Shown (codes "1m")) }
    ensures whole { (cap label : ℕ) (s : Session) → get s.slices label ≡ Some (codes "m1") →
        call cap s (op.Peek label 0 2) ≡ unchanged s (answer.Shown (codes "m1")) }
    ensures past { (cap label : ℕ) (s : Session) → get s.slices label ≡ Some (codes "m1") →
        call cap s (op.Peek label 1 2) ≡ unchanged s (answer.Refused word.Range) }
    ensures nothing { (cap label : ℕ) (s : Session) → get s.slices label ≡ Some [] →
        call cap s (op.Peek label 0 1) ≡ unchanged s (answer.Refused word.Range) }
    ensures unset { (cap label off n : ℕ) (s : Session) → get s.slices label ≡ None →
        call cap s (op.Peek label off n) ≡ unchanged s (answer.Refused word.NoSlice) }
{}

/// A cut is the part of a slice, which may go by the slice's own label.
pub fn cuts()
    ensures part { (cap label made : ℕ) (s : Session) → get s.slices label ≡ Some (codes "m1") →
        call cap s (op.Cut label 1 1 made) ≡ answering (put_slice s made (codes "1")) answer.Okay }
    ensures itself { (cap label : ℕ) (s : Session) → get s.slices label ≡ Some (codes "abc") →
        call cap s (op.Cut label 0 2 label) ≡
        answering (put_slice s label (codes "ab")) answer.Okay }
    ensures past { (cap label made : ℕ) (s : Session) → get s.slices label ≡ Some (codes "m1") →
        call cap s (op.Cut label 1 2 made) ≡ unchanged s (answer.Refused word.Range) }
    ensures unset { (cap label off n made : ℕ) (s : Session) → get s.slices label ≡ None →
        call cap s (op.Cut label off n made) ≡ unchanged s (answer.Refused word.NoSlice) }
{}

/// A paste writes the bytes of a slice at the offset, and a glue adds them at the end.
pub fn pastes_and_glues()
    ensures paste { (cap f label : ℕ) (s : Session) (h : Handle) →
        HasOpen s f h (codes "abcdef") → h.off ≡ 2 → get s.slices label ≡ Some (codes "XY") →
        4 ≤ cap →
        call cap s (op.Paste f label) ≡
        answering (moved (set_bytes s h.path (codes "abXYef")) f h 4) answer.Okay }
    ensures paste_nothing { (cap f label : ℕ) (s : Session) (h : Handle) →
        get s.handles f ≡ Some h → get s.slices label ≡ Some [] →
        call cap s (op.Paste f label) ≡ unchanged s answer.Okay }
    ensures paste_unset { (cap f label : ℕ) (s : Session) (h : Handle) →
        get s.handles f ≡ Some h → get s.slices label ≡ None →
        call cap s (op.Paste f label) ≡ unchanged s (answer.Refused word.NoSlice) }
    ensures paste_closed { (cap f label : ℕ) (s : Session) → get s.handles f ≡ None →
        call cap s (op.Paste f label) ≡ unchanged s (answer.Refused word.NoHandle) }
    ensures paste_too_big { (f label : ℕ) (s : Session) (h : Handle) →
        HasOpen s f h (codes "abc") → h.off ≡ 3 → get s.slices label ≡ Some (codes "XY") →
        call 4 s (op.Paste f label) ≡ unchanged s (answer.Refused word.TooBig) }
    ensures glue { (cap f label : ℕ) (s : Session) (h : Handle) →
        HasOpen s f h (codes "m1m2t1") → get s.slices label ≡ Some (codes "m1") → 8 ≤ cap →
        call cap s (op.Glue f label) ≡
        answering (set_bytes s h.path (codes "m1m2t1m1")) answer.Okay }
    ensures glue_unset { (cap f label : ℕ) (s : Session) (h : Handle) →
        get s.handles f ≡ Some h → get s.slices label ≡ None →
        call cap s (op.Glue f label) ≡ unchanged s (answer.Refused word.NoSlice) }
    ensures glue_closed { (cap f label : ℕ) (s : Session) → get s.handles f ≡ None →
        call cap s (op.Glue f label) ≡ unchanged s (answer.Refused word.NoHandle) }
    ensures glue_too_big { (f label : ℕ) (s : Session) (h : Handle) →
        HasOpen s f h (codes "abc") → get s.slices label ≡ Some (codes "XY") →
        call 4 s (op.Glue f label) ≡ unchanged s (answer.Refused word.TooBig) }
{}

/// Files are put together in the order of the line. The target is looked at first, then the files in turn, then the length.
pub fn concatenations()
    ensures in_order { (cap : ℕ) (s : Session) (q dir a b : List ℕ) (ones others : PathSet) →
        IsFreeIn s.tree q dir → get s.tree a ≡ Some (node.File ones (codes "m1m2")) →
        get s.tree b ≡ Some (node.File others (codes "t1")) → 6 ≤ cap →
        call cap s (op.Concat q (a ∷ b ∷ [])) ≡
        answering (add_file s q (codes "m1m2t1")) answer.Okay }
    ensures twice { (cap : ℕ) (s : Session) (q dir a : List ℕ) (paths : PathSet) →
        IsFreeIn s.tree q dir → get s.tree a ≡ Some (node.File paths (codes "ab")) → 4 ≤ cap →
        call cap s (op.Concat q (a ∷ a ∷ [])) ≡
        answering (add_file s q (codes "abab")) answer.Okay }
    ensures missing { (cap : ℕ) (s : Session) (q dir a b : List ℕ) (paths : PathSet) →
        IsFreeIn s.tree q dir → get s.tree a ≡ Some (node.File paths (codes "ab")) → get s.tree b ≡ None →
        call cap s (op.Concat q (a ∷ b ∷ [])) ≡ unchanged s (answer.Refused word.NoEnt) }
    ensures directory { (cap : ℕ) (s : Session) (q dir a : List ℕ) → IsFreeIn s.tree q dir →
        get s.tree a ≡ Some node.Dir →
        call cap s (op.Concat q (a ∷ [])) ≡ unchanged s (answer.Refused word.IsDir) }
    ensures too_big { (s : Session) (q dir a : List ℕ) (paths : PathSet) →
        IsFreeIn s.tree q dir → get s.tree a ≡ Some (node.File paths (codes "abc")) →
        call 5 s (op.Concat q (a ∷ a ∷ [])) ≡ unchanged s (answer.Refused word.TooBig) }
    ensures root { (cap : ℕ) (s : Session) (paths : List (List ℕ)) →
        call cap s (op.Concat (codes "/") paths) ≡ unchanged s (answer.Refused word.Exists) }
{}
