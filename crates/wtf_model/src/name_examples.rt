//! Worked examples of the calls on names, each proved.

ghost use Rattle.std.specs.Prelude.{◌≡◌, ℕ, List, [], ◌∷◌, Some, None, codes};
ghost use Rattle.std.specs.FinMap.{get};
ghost use Rattle.wtf_model.specs.declared.answer.Answer.TheVariants as answer;
ghost use Rattle.wtf_model.specs.declared.answer.Word.TheVariants as word;
ghost use Rattle.wtf_model.specs.declared.op.Op.TheVariants as op;
ghost use Rattle.wtf_model.specs.Tree.{PathSet, only_path, path_count, TreeNode, root, names_in, rows_of, paths_in};
ghost use Rattle.wtf_model.specs.Tree as node;
ghost use Rattle.wtf_model.specs.Session.{Session};
ghost use Rattle.wtf_model.specs.Done.{put_node, add_file, take_out, drop_path, move_file, add_path};
ghost use Rattle.wtf_model.specs.Call.{call};
ghost use Rattle.wtf_model.specs.Examples.{IsFreeIn, IsClosed, IsBusy, answering, unchanged, logs_tree};

/// A directory comes at a free path below a directory.
pub fn makes_directories()
    ensures made { (cap : ℕ) (s : Session) (p dir : List ℕ) → IsFreeIn s.tree p dir →
        call cap s (op.Mkdir p) ≡ answering (put_node s p node.Dir) answer.Okay }
    ensures root { (cap : ℕ) (s : Session) →
        call cap s (op.Mkdir root) ≡ unchanged s (answer.Refused word.Exists) }
    ensures exists { (cap : ℕ) (s : Session) (n : TreeNode) → get s.tree root ≡ Some node.Dir →
        get s.tree (codes "/d") ≡ Some n →
        call cap s (op.Mkdir (codes "/d")) ≡ unchanged s (answer.Refused word.Exists) }
    ensures no_parent { (cap : ℕ) (s : Session) → get s.tree (codes "/x") ≡ None →
        call cap s (op.Mkdir (codes "/x/y")) ≡ unchanged s (answer.Refused word.NoParent) }
{}

/// An empty directory that is not the root can be taken out.
pub fn removes_directories()
    ensures taken { (cap : ℕ) (s : Session) → get s.tree (codes "/d") ≡ Some node.Dir →
        paths_in s.tree (codes "/d") ≡ [] →
        call cap s (op.Rmdir (codes "/d")) ≡ answering (take_out s (codes "/d")) answer.Okay }
    ensures root { (cap : ℕ) (s : Session) →
        call cap s (op.Rmdir root) ≡ unchanged s (answer.Refused word.Root) }
    ensures missing { (cap : ℕ) (s : Session) → get s.tree (codes "/d") ≡ None →
        call cap s (op.Rmdir (codes "/d")) ≡ unchanged s (answer.Refused word.NoEnt) }
    ensures file { (cap : ℕ) (s : Session) (paths : PathSet) (bytes : List ℕ) →
        get s.tree (codes "/a") ≡ Some (node.File paths bytes) →
        call cap s (op.Rmdir (codes "/a")) ≡ unchanged s (answer.Refused word.NotDir) }
    ensures not_empty { (cap : ℕ) (s : Session) (p : List ℕ) (ps : List (List ℕ)) →
        get s.tree (codes "/logs") ≡ Some node.Dir →
        paths_in s.tree (codes "/logs") ≡ p ∷ ps →
        call cap s (op.Rmdir (codes "/logs")) ≡ unchanged s (answer.Refused word.NotEmpty) }
{}

/// A path of a file without an open handle can be taken out; where it is the file's only one, the file is.
pub fn unlinks_files()
    ensures dropped { (cap : ℕ) (s : Session) (p : List ℕ) (paths : PathSet) (bytes : List ℕ) →
        get s.tree p ≡ Some (node.File paths bytes) → IsClosed s p →
        call cap s (op.Unlink p) ≡ answering (drop_path s p bytes) answer.Okay }
    ensures taken { (cap : ℕ) (s : Session) (p bytes : List ℕ) →
        get s.tree p ≡ Some (node.File (only_path p) bytes) → IsClosed s p →
        call cap s (op.Unlink p) ≡ answering (take_out s p) answer.Okay }
    ensures busy { (cap : ℕ) (s : Session) (p : List ℕ) (paths : PathSet) (bytes : List ℕ) →
        get s.tree p ≡ Some (node.File paths bytes) → IsBusy s p →
        call cap s (op.Unlink p) ≡ unchanged s (answer.Refused word.Busy) }
    ensures directory { (cap : ℕ) (s : Session) (p : List ℕ) → get s.tree p ≡ Some node.Dir →
        call cap s (op.Unlink p) ≡ unchanged s (answer.Refused word.IsDir) }
    ensures missing { (cap : ℕ) (s : Session) (p : List ℕ) → get s.tree p ≡ None →
        call cap s (op.Unlink p) ≡ unchanged s (answer.Refused word.NoEnt) }
{}

/// A path of a file becomes another one, which is free. It replaces nothing, and moves away from no open handle.
pub fn renames_files()
    ensures moved { (cap : ℕ) (s : Session) (p q dir : List ℕ) (paths : PathSet) (bytes : List ℕ) →
        get s.tree p ≡ Some (node.File paths bytes) → IsClosed s p → IsFreeIn s.tree q dir →
        call cap s (op.Rename p q) ≡ answering (move_file s p q bytes) answer.Okay }
    ensures replaces_nothing { (cap : ℕ) (s : Session) (paths : PathSet) (bytes : List ℕ) (other : TreeNode) →
        get s.tree (codes "/a") ≡ Some (node.File paths bytes) → IsClosed s (codes "/a") →
        get s.tree root ≡ Some node.Dir → get s.tree (codes "/b") ≡ Some other →
        call cap s (op.Rename (codes "/a") (codes "/b")) ≡
        unchanged s (answer.Refused word.Exists) }
    ensures busy { (cap : ℕ) (s : Session) (p q : List ℕ) (paths : PathSet) (bytes : List ℕ) →
        get s.tree p ≡ Some (node.File paths bytes) → IsBusy s p →
        call cap s (op.Rename p q) ≡ unchanged s (answer.Refused word.Busy) }
    ensures directory { (cap : ℕ) (s : Session) (p q : List ℕ) → get s.tree p ≡ Some node.Dir →
        call cap s (op.Rename p q) ≡ unchanged s (answer.Refused word.IsDir) }
    ensures no_parent { (cap : ℕ) (s : Session) (p : List ℕ) (paths : PathSet) (bytes : List ℕ) →
        get s.tree p ≡ Some (node.File paths bytes) → IsClosed s p → get s.tree (codes "/x") ≡ None →
        call cap s (op.Rename p (codes "/x/y")) ≡ unchanged s (answer.Refused word.NoParent) }
{}

/// A path more of a file is free, below a directory. It is refused for what is no file.
pub fn links_files()
    ensures linked { (cap : ℕ) (s : Session) (p q dir : List ℕ) (paths : PathSet) (bytes : List ℕ) →
        get s.tree p ≡ Some (node.File paths bytes) → IsFreeIn s.tree q dir →
        call cap s (op.Link p q) ≡ answering (add_path s p q bytes) answer.Okay }
    ensures onto_itself { (cap : ℕ) (s : Session) (paths : PathSet) (bytes : List ℕ) →
        get s.tree root ≡ Some node.Dir → get s.tree (codes "/a") ≡ Some (node.File paths bytes) →
        call cap s (op.Link (codes "/a") (codes "/a")) ≡ unchanged s (answer.Refused word.Exists) }
    ensures directory { (cap : ℕ) (s : Session) (p q : List ℕ) → get s.tree p ≡ Some node.Dir →
        call cap s (op.Link p q) ≡ unchanged s (answer.Refused word.IsDir) }
    ensures missing { (cap : ℕ) (s : Session) (p q : List ℕ) → get s.tree p ≡ None →
        call cap s (op.Link p q) ≡ unchanged s (answer.Refused word.NoEnt) }
    ensures no_parent { (cap : ℕ) (s : Session) (p : List ℕ) (paths : PathSet) (bytes : List ℕ) →
        get s.tree p ≡ Some (node.File paths bytes) → get s.tree (codes "/x") ≡ None →
        call cap s (op.Link p (codes "/x/y")) ≡ unchanged s (answer.Refused word.NoParent) }
{}

/// A copy is a file of its own with the same bytes. A directory is not copied.
pub fn copies_files()
    ensures copied { (cap : ℕ) (s : Session) (p q dir : List ℕ) (paths : PathSet) (bytes : List ℕ) →
        get s.tree p ≡ Some (node.File paths bytes) → IsFreeIn s.tree q dir →
        call cap s (op.Copy p q) ≡ answering (add_file s q bytes) answer.Okay }
    ensures onto_itself { (cap : ℕ) (s : Session) (paths : PathSet) (bytes : List ℕ) →
        get s.tree root ≡ Some node.Dir → get s.tree (codes "/a") ≡ Some (node.File paths bytes) →
        call cap s (op.Copy (codes "/a") (codes "/a")) ≡ unchanged s (answer.Refused word.Exists) }
    ensures directory { (cap : ℕ) (s : Session) (p q : List ℕ) → get s.tree p ≡ Some node.Dir →
        call cap s (op.Copy p q) ≡ unchanged s (answer.Refused word.IsDir) }
    ensures missing { (cap : ℕ) (s : Session) (p q : List ℕ) → get s.tree p ≡ None →
        call cap s (op.Copy p q) ≡ unchanged s (answer.Refused word.NoEnt) }
{}

/// A path tells what stands there, and a file its length and how many paths it has.
pub fn tells_nodes()
    ensures file { (cap : ℕ) (s : Session) (p : List ℕ) (paths : PathSet) →
        get s.tree p ≡ Some (node.File paths (codes "xyz")) →
        call cap s (op.Stat p) ≡ unchanged s (answer.File 3 (path_count paths)) }
    ensures alone { (cap : ℕ) (s : Session) (p : List ℕ) →
        get s.tree p ≡ Some (node.File (only_path p) (codes "xyz")) →
        call cap s (op.Stat p) ≡ unchanged s (answer.File 3 1) }
    ensures directory { (cap : ℕ) (s : Session) (p : List ℕ) → get s.tree p ≡ Some node.Dir →
        call cap s (op.Stat p) ≡ unchanged s answer.Dir }
    ensures missing { (cap : ℕ) (s : Session) (p : List ℕ) → get s.tree p ≡ None →
        call cap s (op.Stat p) ≡ unchanged s (answer.Refused word.NoEnt) }
{}

/// A directory lists the last names of what stands in it, in byte order, and not what stands deeper. A tree is shown path
/// by path.
pub fn lists_names()
    ensures root { names_in logs_tree root ≡ codes "a" ∷ codes "logs" ∷ [] }
    ensures deeper { names_in logs_tree (codes "/logs") ≡ codes "mon" ∷ codes "tue" ∷ [] }
    ensures shown { rows_of logs_tree ≡
        record { path = codes "/"; len = None } ∷ record { path = codes "/a"; len = Some 2 } ∷ record { path = codes "/logs"; len = None }
        ∷ record { path = codes "/logs/mon"; len = Some 4 } ∷ record { path = codes "/logs/tue"; len = Some 2 } ∷ [] }
    ensures listed { (cap : ℕ) (s : Session) → s.tree ≡ logs_tree →
        get s.tree root ≡ Some node.Dir →
        call cap s (op.List root) ≡ unchanged s (answer.Names (codes "a" ∷ codes "logs" ∷ [])) }
    ensures file { (cap : ℕ) (s : Session) (p : List ℕ) (paths : PathSet) (bytes : List ℕ) →
        get s.tree p ≡ Some (node.File paths bytes) →
        call cap s (op.List p) ≡ unchanged s (answer.Refused word.NotDir) }
    ensures missing { (cap : ℕ) (s : Session) (p : List ℕ) → get s.tree p ≡ None →
        call cap s (op.List p) ≡ unchanged s (answer.Refused word.NoEnt) }
{}
