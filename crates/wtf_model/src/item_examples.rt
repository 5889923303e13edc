//! Worked examples of what calls read and change, and of retries and stale jobs that have a cause, each proved.

ghost use Rattle.std.specs.Prelude.{◌≡◌, ◌≢◌, ℕ, ◌<◌, true, false, List, [], ◌∷◌, ◌++◌, map, Some, None, codes};
ghost use Rattle.std.specs.FinMap.{get};
ghost use Rattle.wtf_model.specs.declared.answer.Answer.TheVariants as answer;
ghost use Rattle.wtf_model.specs.declared.answer.Word.{Word};
ghost use Rattle.wtf_model.specs.declared.item.Item.{Item};
ghost use Rattle.wtf_model.specs.declared.item.Item.TheVariants.{NodeOf, NamesOf, BodyOf, LinksOf};
ghost use Rattle.wtf_model.specs.declared.op.Op.{Op};
ghost use Rattle.wtf_model.specs.declared.op.Op.TheVariants as op;
ghost use Rattle.wtf_model.specs.declared.op.Seek.TheVariants as to;
ghost use Rattle.wtf_model.specs.declared.event.Verb.TheVariants as verb;
ghost use Rattle.wtf_model.specs.declared.event.Event.TheVariants as event;
ghost use Rattle.wtf_model.specs.Tree.{only_path, with_path, path_list, File, Tree, root, root_alone, paths_at};
ghost use Rattle.wtf_model.specs.Session.{Session, Handle};
ghost use Rattle.wtf_model.specs.Call.{call};
ghost use Rattle.wtf_model.specs.Items.{is_among, meets, reads, writes, reads_of, writes_of, file_changes, folder_changes};
ghost use Rattle.wtf_model.specs.Transaction.{Transaction, Job};
ghost use Rattle.wtf_model.specs.Steps.{Machine, May, after, cap_of, is_live};
ghost use Rattle.wtf_model.specs.Examples.{a};

/// A call by a handle reads the bytes of the path that the handle has, and changes them by each path of the file; with a label
/// that is not open it reads and changes none. A write reads nothing, and a read, a tell, and a seek that does not lead to the end change nothing.
pub fn calls_by_handles()
    ensures appended { (s : Session) (f : ℕ) (h : Handle) (bytes : List ℕ) → get s.handles f ≡ Some h →
        reads s (op.Append f bytes) ≡ BodyOf h.path ∷ [] }
    ensures written { (s : Session) (f : ℕ) (bytes : List ℕ) → reads s (op.Write f bytes) ≡ [] }
    ensures changed { (cap : ℕ) (s : Session) (f : ℕ) (h : Handle) (bytes : List ℕ) →
        get s.handles f ≡ Some h → (call cap s (op.Write f bytes)).answer ≡ answer.Okay →
        writes cap s (op.Write f bytes) ≡ map (λ q. BodyOf q) (path_list (paths_at s.tree h.path)) }
    ensures changed_alone { (cap : ℕ) (s : Session) (f : ℕ) (h : Handle) (bytes old : List ℕ) →
        get s.handles f ≡ Some h → get s.tree h.path ≡ Some (File (only_path h.path) old) →
        (call cap s (op.Write f bytes)).answer ≡ answer.Okay →
        writes cap s (op.Write f bytes) ≡ BodyOf h.path ∷ [] }
    ensures sought { (s : Session) (f n : ℕ) → reads s (op.Seek f (to.Set n)) ≡ [] }
    ensures sought_end { (s : Session) (f : ℕ) (h : Handle) → get s.handles f ≡ Some h →
        reads s (op.Seek f to.End) ≡ BodyOf h.path ∷ [] }
    ensures not_open { (cap : ℕ) (s : Session) (f : ℕ) (bytes : List ℕ) → get s.handles f ≡ None →
        (reads s (op.Append f bytes) ≡ []) × (writes cap s (op.Append f bytes) ≡ []) }
{}

/// A call on names reads what stands at its paths and at the parents of new ones, and changes that and the names there. The root
/// has no parent. A file that loses a path has another number of them, by each of them.
pub fn calls_on_names()
    ensures made { (s : Session) → reads s (op.Mkdir (codes "/d/e")) ≡
        NodeOf (codes "/d/e") ∷ NodeOf (codes "/d") ∷ [] }
    ensures root_made { (s : Session) → reads s (op.Mkdir root) ≡ NodeOf root ∷ [] }
    ensures moved { (s : Session) → reads s (op.Rename (codes "/a") (codes "/d/b")) ≡
        NodeOf (codes "/a") ∷ BodyOf (codes "/a") ∷ LinksOf (codes "/a") ∷ NodeOf (codes "/d/b") ∷ NodeOf (codes "/d") ∷ [] }
    ensures moves { (cap : ℕ) (s : Session) →
        (call cap s (op.Rename (codes "/a") (codes "/d/b"))).answer ≡ answer.Okay →
        writes cap s (op.Rename (codes "/a") (codes "/d/b")) ≡
        NodeOf (codes "/a") ∷ BodyOf (codes "/a") ∷ NamesOf root ∷
        NodeOf (codes "/d/b") ∷ BodyOf (codes "/d/b") ∷ NamesOf (codes "/d") ∷ [] }
    ensures linked { (s : Session) → reads s (op.Link (codes "/a") (codes "/d/b")) ≡
        NodeOf (codes "/a") ∷ BodyOf (codes "/a") ∷ LinksOf (codes "/a") ∷ NodeOf (codes "/d/b") ∷ NodeOf (codes "/d") ∷ [] }
    ensures links { (cap : ℕ) (s : Session) →
        (call cap s (op.Link (codes "/a") (codes "/d/b"))).answer ≡ answer.Okay →
        writes cap s (op.Link (codes "/a") (codes "/d/b")) ≡
        NodeOf (codes "/d/b") ∷ BodyOf (codes "/d/b") ∷ NamesOf (codes "/d") ∷
        map (λ q. LinksOf q) (path_list (with_path (paths_at s.tree (codes "/a")) (codes "/d/b"))) }
    ensures told { (s : Session) → reads s (op.Stat (codes "/a")) ≡
        NodeOf (codes "/a") ∷ BodyOf (codes "/a") ∷ LinksOf (codes "/a") ∷ [] }
    ensures dropped { (cap : ℕ) (s : Session) →
        (call cap s (op.Unlink (codes "/a"))).answer ≡ answer.Okay →
        writes cap s (op.Unlink (codes "/a")) ≡
        NodeOf (codes "/a") ∷ BodyOf (codes "/a") ∷ NamesOf root ∷
        map (λ q. LinksOf q) (path_list (paths_at s.tree (codes "/a"))) }
    ensures joined { (s : Session) →
        reads s (op.Concat (codes "/c") (codes "/a" ∷ codes "/b" ∷ [])) ≡
        NodeOf (codes "/c") ∷ NodeOf root ∷ NodeOf (codes "/a") ∷ BodyOf (codes "/a") ∷
        NodeOf (codes "/b") ∷ BodyOf (codes "/b") ∷ [] }
{}

/// A call that is refused reads what it would have read, and changes nothing.
pub fn refused_calls()
    ensures changes_nothing { (cap : ℕ) (s : Session) (o : Op (List ℕ)) (w : Word) →
        (call cap s o).answer ≡ answer.Refused w → writes cap s o ≡ [] }
    ensures run_of_one { (cap : ℕ) (t : Tree) (p : List ℕ) → reads_of cap t (op.Unlink p ∷ []) ≡ NodeOf p ∷ LinksOf p ∷ [] }
{}

/// What a commit changes, each other open transaction and each job sees as changed by others.
pub fn commits_are_seen()
    ensures transactions { (m : Machine) (c d n : ℕ) (t u : Transaction) →
        get m.transactions c ≡ Some t → d ≢ c → get m.transactions d ≡ Some u →
        get (after m (event.Client c verb.Commit) (answer.Committed n)).transactions d ≡
        Some (record u { touched = u.touched ++ writes_of (cap_of m) m.now t.ops }) }
    ensures jobs { (m : Machine) (c j n : ℕ) (t : Transaction) (job : Job) →
        get m.transactions c ≡ Some t → get m.jobs j ≡ Some job →
        get (after m (event.Client c verb.Commit) (answer.Committed n)).jobs j ≡
        Some (record job { touched = job.touched ++ writes_of (cap_of m) m.now t.ops }) }
{}

/// A retry comes only where others have changed an item that the calls read. Without such an item it is refused, however many
/// have installed.
pub fn retries_have_a_cause()
    ensures untouched { (m : Machine) (c base now : ℕ) (t : Transaction) →
        get m.transactions c ≡ Some t → is_live t ≡ true → t.touched ≡ [] →
        ¬ (May m (event.Client c verb.Try) (answer.Retry base now)) }
    ensures needless { (m : Machine) (c base now : ℕ) (t : Transaction) →
        get m.transactions c ≡ Some t → is_live t ≡ true →
        meets t.touched (reads_of (cap_of m) t.tree t.ops) ≡ false →
        ¬ (May m (event.Client c verb.Try) (answer.Retry base now)) }
    ensures lawful { (m : Machine) (c : ℕ) (t : Transaction) (i : Item) →
        get m.transactions c ≡ Some t → is_live t ≡ true → t.base < m.number →
        is_among t.touched i ≡ true → is_among (reads_of (cap_of m) t.tree t.ops) i ≡ true →
        May m (event.Client c verb.Try) (answer.Retry t.base m.number) }
{}

/// Two write over one file and make a directory each, below a root whose names nobody asked for: what the first one changed the
/// second one has not read.
pub fn writes_beside_writes()
    ensures { (cap : ℕ) (t : Tree) → meets (BodyOf a ∷ folder_changes (codes "/d"))
        (reads_of cap t (op.Open 0 a ∷ op.Write 0 (codes "cd") ∷ op.Mkdir (codes "/e") ∷ [])) ≡ false }
{}

/// A file is moved, or taken out, while another transaction has a handle on it: that one has read what stood at the path.
pub fn moves_under_handles()
    ensures moved { (cap : ℕ) (t : Tree) → meets (file_changes a ++ file_changes (codes "/b"))
        (reads_of cap t (op.Open 0 a ∷ op.Write 0 (codes "cd") ∷ [])) ≡ true }
    ensures unlinked { (cap : ℕ) (t : Tree) → meets (file_changes a)
        (reads_of cap t (op.Open 0 a ∷ op.Write 0 (codes "cd") ∷ [])) ≡ true }
{}

/// What a transaction made itself it has read as well; but no other file beside it.
pub fn own_files()
    ensures read { (cap : ℕ) → reads_of cap root_alone (op.Create a ∷ op.Open 0 a ∷ op.Read 0 9 ∷ []) ≡
        NodeOf a ∷ NodeOf root ∷ NodeOf a ∷ BodyOf a ∷ [] }
    ensures beside { (cap : ℕ) → meets (file_changes (codes "/b"))
        (reads_of cap root_alone (op.Create a ∷ op.Open 0 a ∷ op.Read 0 9 ∷ [])) ≡ false }
    ensures same { (cap : ℕ) → meets (file_changes a)
        (reads_of cap root_alone (op.Create a ∷ op.Open 0 a ∷ op.Read 0 9 ∷ [])) ≡ true }
{}

/// An append has read the length of its file, so that another append to it may be the cause of a retry; it is where the bytes
/// do not fit any more.
pub fn appends_beside_appends()
    ensures read { (s : Session) (h : Handle) (bytes : List ℕ) →
        get s.handles 0 ≡ Some h → h.path ≡ a →
        meets (BodyOf a ∷ []) (reads s (op.Append 0 bytes)) ≡ true }
    ensures another_file { (s : Session) (h : Handle) (bytes : List ℕ) →
        get s.handles 0 ≡ Some h → h.path ≡ a →
        meets (BodyOf (codes "/b") ∷ []) (reads s (op.Append 0 bytes)) ≡ false }
{}

/// A job is stale only where its file was changed, or moved, by others since it was planned.
pub fn stale_jobs_have_a_cause()
    ensures another_file { (m : Machine) (j base now : ℕ) (job : Job) → get m.jobs j ≡ Some job →
        job.path ≡ a → job.touched ≡ file_changes (codes "/b") →
        ¬ (May m (event.Put j) (answer.Stale base now)) }
    ensures untouched { (m : Machine) (j base now : ℕ) (job : Job) → get m.jobs j ≡ Some job →
        job.touched ≡ [] → ¬ (May m (event.Put j) (answer.Stale base now)) }
    ensures changed { (m : Machine) (j : ℕ) (job : Job) → get m.jobs j ≡ Some job →
        job.base < m.number → is_among job.touched (BodyOf job.path) ≡ true →
        May m (event.Put j) (answer.Stale job.base m.number) }
    ensures moved { (m : Machine) (j : ℕ) (job : Job) → get m.jobs j ≡ Some job →
        job.base < m.number → is_among job.touched (NodeOf job.path) ≡ true →
        May m (event.Put j) (answer.Stale job.base m.number) }
{}
