//! Worked examples of files of several paths, each proved. A file is one, whichever of its paths a call names.

ghost use Rattle.std.specs.Prelude.{◌≡◌, ◌≢◌, List, ℕ, Some, None, true, false};
ghost use Rattle.std.specs.FinMap.{get};
ghost use Rattle.wtf_model.specs.Tree.{PathSet, has_path, with_path, without_path, IsTree};
ghost use Rattle.wtf_model.specs.Tree as node;
ghost use Rattle.wtf_model.specs.Session.{Session};
ghost use Rattle.wtf_model.specs.Done.{set_bytes, drop_path, move_file, add_path};

/// Bytes that are changed by one path of a file are changed by all of its paths, and by no other.
pub fn bytes_are_shared()
    ensures seen { (s : Session) (p q : List ℕ) (paths : PathSet) (old bytes : List ℕ) →
        get s.tree p ≡ Some (node.File paths old) → has_path paths q ≡ true →
        get (set_bytes s p bytes).tree q ≡ Some (node.File paths bytes) }
    ensures others { (s : Session) (p q : List ℕ) (paths : PathSet) (old bytes : List ℕ) →
        get s.tree p ≡ Some (node.File paths old) → has_path paths q ≡ false →
        get (set_bytes s p bytes).tree q ≡ get s.tree q }
{}

/// A path that is taken out is gone, and the file knows it no more. It stands at its other paths, and nothing else changes.
pub fn paths_are_dropped()
    ensures gone { (s : Session) (p : List ℕ) (paths : PathSet) (bytes : List ℕ) →
        IsTree s.tree → get s.tree p ≡ Some (node.File paths bytes) →
        get (drop_path s p bytes).tree p ≡ None }
    ensures left { (s : Session) (p q : List ℕ) (paths : PathSet) (bytes : List ℕ) →
        get s.tree p ≡ Some (node.File paths bytes) → has_path paths q ≡ true → q ≢ p →
        get (drop_path s p bytes).tree q ≡ Some (node.File (without_path paths p) bytes) }
    ensures others { (s : Session) (p q : List ℕ) (paths : PathSet) (bytes : List ℕ) →
        get s.tree p ≡ Some (node.File paths bytes) → has_path paths q ≡ false →
        get (drop_path s p bytes).tree q ≡ get s.tree q }
{}

/// A path that becomes another one is gone, and the file stands at the other one and at all that it keeps.
pub fn paths_are_moved()
    ensures gone { (s : Session) (p q : List ℕ) (paths : PathSet) (bytes : List ℕ) →
        IsTree s.tree → get s.tree p ≡ Some (node.File paths bytes) → p ≢ q →
        get (move_file s p q bytes).tree p ≡ None }
    ensures there { (s : Session) (p q : List ℕ) (paths : PathSet) (bytes : List ℕ) →
        get s.tree p ≡ Some (node.File paths bytes) →
        get (move_file s p q bytes).tree q ≡
        Some (node.File (with_path (without_path paths p) q) bytes) }
    ensures kept { (s : Session) (p q other : List ℕ) (paths : PathSet) (bytes : List ℕ) →
        get s.tree p ≡ Some (node.File paths bytes) → has_path paths other ≡ true → other ≢ p →
        get (move_file s p q bytes).tree other ≡
        Some (node.File (with_path (without_path paths p) q) bytes) }
{}

/// A file with one path more stands there, and at all that it had.
pub fn paths_are_added()
    ensures there { (s : Session) (p q : List ℕ) (paths : PathSet) (bytes : List ℕ) →
        get s.tree p ≡ Some (node.File paths bytes) →
        get (add_path s p q bytes).tree q ≡ Some (node.File (with_path paths q) bytes) }
    ensures kept { (s : Session) (p q other : List ℕ) (paths : PathSet) (bytes : List ℕ) →
        get s.tree p ≡ Some (node.File paths bytes) → has_path paths other ≡ true →
        get (add_path s p q bytes).tree other ≡ Some (node.File (with_path paths q) bytes) }
{}
