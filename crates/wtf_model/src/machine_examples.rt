//! Worked examples of the machine's steps, each proved. They say of each line what may answer it, and what it leaves.

ghost use Rattle.std.specs.Prelude.{◌≡◌, ◌≢◌, ◌↔◌, ℕ, ◌+◌, ◌≤◌, ◌<◌, true, false, List, [], ◌∷◌, ◌++◌, length, slice_get, Some, None};
ghost use Rattle.std.specs.Option.{option_map};
ghost use Rattle.std.specs.FinMap.{get};
ghost use Rattle.wtf_base.specs.declared.settings.Settings.{Settings};
ghost use Rattle.wtf_model.specs.declared.answer.Answer.{Answer};
ghost use Rattle.wtf_model.specs.declared.answer.Answer.TheVariants as answer;
ghost use Rattle.wtf_model.specs.declared.answer.Word.TheVariants as word;
ghost use Rattle.wtf_model.specs.declared.op.Op.{Op};
ghost use Rattle.wtf_model.specs.declared.op.Op.TheVariants as op;
ghost use Rattle.wtf_model.specs.declared.op.Seek.TheVariants as to;
ghost use Rattle.wtf_model.specs.declared.event.Verb.TheVariants as verb;
ghost use Rattle.wtf_model.specs.declared.event.Event.{Event};
ghost use Rattle.wtf_model.specs.declared.event.Event.TheVariants as event;
ghost use Rattle.wtf_model.specs.Tree.{PathSet, Tree, rows_of};
ghost use Rattle.wtf_model.specs.Tree as node;
ghost use Rattle.wtf_model.specs.Session.{Session, Handle};
ghost use Rattle.wtf_model.specs.Items.{writes_of};
ghost use Rattle.wtf_model.specs.Transaction.{Transaction, session_after, answers_of};
ghost use Rattle.wtf_model.specs.Machines.{IsBehind};
ghost use Rattle.wtf_model.specs.Lawful.{Deviates, is_touched};
ghost use Rattle.wtf_model.specs.Steps.{Machine, May, Accepts, start, after, cap_of, due, touch, is_down, is_live, is_full};
ghost use Rattle.wtf_model.specs.Examples.{Only, IsAborted, first_transaction};

/// A transaction begins on the tree now, with the next stamp, which is then another. A client has one at a time.
pub fn begins()
    ensures only { (m : Machine) (c : ℕ) → get m.transactions c ≡ None →
        Only m (event.Client c verb.Begin) (answer.Begun m.number) }
    ensures opened { (m : Machine) (c : ℕ) → get m.transactions c ≡ None →
        get (after m (event.Client c verb.Begin) (answer.Begun m.number)).transactions c ≡
        Some (first_transaction m) }
    ensures stamp { (m : Machine) (c : ℕ) → get m.transactions c ≡ None →
        (after m (event.Client c verb.Begin) (answer.Begun m.number)).next_stamp ≡
        m.next_stamp + 1 }
    ensures others { (m : Machine) (c d : ℕ) → get m.transactions c ≡ None → d ≢ c →
        get (after m (event.Client c verb.Begin) (answer.Begun m.number)).transactions d ≡
        get m.transactions d }
    ensures second { (m : Machine) (c : ℕ) (t : Transaction) → get m.transactions c ≡ Some t →
        Only m (event.Client c verb.Begin) (answer.Refused word.InTx) }
{}

/// Without a transaction a client can only begin one.
pub fn needs_a_transaction()
    ensures a_try { (m : Machine) (c : ℕ) → get m.transactions c ≡ None →
        Only m (event.Client c verb.Try) (answer.Refused word.NoTx) }
    ensures a_step { (m : Machine) (c : ℕ) → get m.transactions c ≡ None →
        Only m (event.Client c verb.Step) (answer.Refused word.NoTx) }
    ensures a_commit { (m : Machine) (c : ℕ) → get m.transactions c ≡ None →
        Only m (event.Client c verb.Commit) (answer.Refused word.NoTx) }
    ensures an_abort { (m : Machine) (c : ℕ) → get m.transactions c ≡ None →
        Only m (event.Client c verb.Abort) (answer.Refused word.NoTx) }
    ensures a_call { (m : Machine) (c : ℕ) (o : Op (List ℕ)) → get m.transactions c ≡ None →
        Only m (event.Client c (verb.Call o)) (answer.Refused word.NoTx) }
{}

/// A live transaction's call answers what is due on the tree that it began with, and its log holds 4,096 calls. While a
/// replay runs no call is taken.
pub fn takes_calls()
    ensures due { (m : Machine) (c : ℕ) (t : Transaction) (o : Op (List ℕ)) →
        get m.transactions c ≡ Some t → is_live t ≡ true → is_full t ≡ false →
        May m (event.Client c (verb.Call o)) (due m t o) }
    ensures full { (m : Machine) (c : ℕ) (t : Transaction) (o : Op (List ℕ)) →
        get m.transactions c ≡ Some t → is_live t ≡ true → 4096 ≤ length t.ops →
        Only m (event.Client c (verb.Call o)) (answer.Refused word.Full) }
    ensures replaying { (m : Machine) (c : ℕ) (t : Transaction) (o : Op (List ℕ)) →
        get m.transactions c ≡ Some t → is_live t ≡ false →
        Only m (event.Client c (verb.Call o)) (answer.Refused word.Replaying) }
{}

/// An attempt takes the next number, where the calls run on the tree now answer what was shown; it leaves the tree that
/// they leave, ends the transaction, and others see what it has changed. A retry comes only where others have installed since the
/// base and changed what the calls read; the transaction then stands on the tree now, with its calls and what was shown, none
/// of them replayed.
pub fn attempts()
    ensures committed { (m : Machine) (c n : ℕ) (t : Transaction) →
        get m.transactions c ≡ Some t → is_live t ≡ true →
        May m (event.Client c verb.Try) (answer.Committed n) ↔
        ((n ≡ m.number + 1) × (answers_of (cap_of m) m.now t.ops ≡ t.shown)) }
    ensures retry { (m : Machine) (c base now : ℕ) (t : Transaction) →
        get m.transactions c ≡ Some t → is_live t ≡ true →
        May m (event.Client c verb.Try) (answer.Retry base now) ↔
        (IsBehind m.number t.base base now × (is_touched (cap_of m) t ≡ true)) }
    ensures number { (m : Machine) (c n : ℕ) (t : Transaction) → get m.transactions c ≡ Some t →
        (after m (event.Client c verb.Try) (answer.Committed n)).number ≡ n }
    ensures tree { (m : Machine) (c n : ℕ) (t : Transaction) → get m.transactions c ≡ Some t →
        (after m (event.Client c verb.Try) (answer.Committed n)).now ≡
        (session_after (cap_of m) m.now t.ops).tree }
    ensures gone { (m : Machine) (c n : ℕ) (t : Transaction) → get m.transactions c ≡ Some t →
        get (after m (event.Client c verb.Try) (answer.Committed n)).transactions c ≡ None }
    ensures others { (m : Machine) (c d n : ℕ) (t : Transaction) →
        get m.transactions c ≡ Some t → d ≢ c →
        get (after m (event.Client c verb.Try) (answer.Committed n)).transactions d ≡
        option_map (touch (writes_of (cap_of m) m.now t.ops)) (get m.transactions d) }
    ensures rebased { (m : Machine) (c base now : ℕ) (t : Transaction) →
        get m.transactions c ≡ Some t →
        get (after m (event.Client c verb.Try) (answer.Retry base now)).transactions c ≡
        Some (record t { base = m.number; tree = m.now; replayed = 0; touched = [] }) }
    ensures replaying { (m : Machine) (c : ℕ) (t : Transaction) →
        get m.transactions c ≡ Some t → is_live t ≡ false →
        Only m (event.Client c verb.Try) (answer.Refused word.Replaying) }
{}

/// A step replays the next call, which answers on the base what was shown, or ends the transaction. Only while a replay
/// runs.
pub fn replays()
    ensures live { (m : Machine) (c : ℕ) (t : Transaction) → get m.transactions c ≡ Some t →
        is_live t ≡ true →
        Only m (event.Client c verb.Step) (answer.Refused word.Live) }
    ensures same { (m : Machine) (c i : ℕ) (t : Transaction) → get m.transactions c ≡ Some t →
        is_live t ≡ false →
        May m (event.Client c verb.Step) (answer.Replayed i)
        ↔ ((i ≡ t.replayed + 1) × (slice_get (answers_of (cap_of m) t.tree t.ops) t.replayed ≡
        slice_get t.shown t.replayed)) }
    ensures other { (m : Machine) (c : ℕ) (t : Transaction) (a r : Answer) →
        get m.transactions c ≡ Some t → is_live t ≡ false →
        slice_get (answers_of (cap_of m) t.tree t.ops) t.replayed ≡ Some a →
        slice_get t.shown t.replayed ≢ Some a → IsAborted (t.replayed + 1) a r →
        May m (event.Client c verb.Step) r }
    ensures one_more { (m : Machine) (c i : ℕ) (t : Transaction) → get m.transactions c ≡ Some t →
        get (after m (event.Client c verb.Step) (answer.Replayed i)).transactions c ≡
        Some (record t { replayed = i }) }
{}

/// A commit ends with an install where the calls on the tree now answer what was shown, whether a replay runs or not; else
/// at the first call that does not, with what it answers now.
pub fn commits()
    ensures same { (m : Machine) (c : ℕ) (t : Transaction) → get m.transactions c ≡ Some t →
        answers_of (cap_of m) m.now t.ops ≡ t.shown →
        May m (event.Client c verb.Commit) (answer.Committed (m.number + 1)) }
    ensures only_same { (m : Machine) (c n : ℕ) (t : Transaction) → get m.transactions c ≡ Some t →
        May m (event.Client c verb.Commit) (answer.Committed n) →
        (n ≡ m.number + 1) × (answers_of (cap_of m) m.now t.ops ≡ t.shown) }
    ensures a_file_grew { (m : Machine) (c : ℕ) (t : Transaction) (r : Answer) →
        get m.transactions c ≡ Some t →
        answers_of (cap_of m) m.now t.ops ≡ answer.File 3 1 ∷ [] → t.shown ≡ answer.File 0 1 ∷ [] →
        IsAborted 1 (answer.File 3 1) r →
        May m (event.Client c verb.Commit) r }
    ensures never_without_cause { (shown : List Answer) (i : ℕ) (a : Answer) →
        Deviates shown shown i a → ⊥ }
    ensures at_the_first { (i : ℕ) (a : Answer) →
        Deviates (answer.Okay ∷ answer.File 3 1 ∷ []) (answer.File 1 1 ∷ answer.File 0 1 ∷ []) i a →
        i ≡ 1 }
    ensures ended { (m : Machine) (c i : ℕ) (t : Transaction) (a r : Answer) →
        get m.transactions c ≡ Some t → IsAborted i a r →
        get (after m (event.Client c verb.Commit) r).transactions c ≡ None }
    ensures keeps_the_tree { (m : Machine) (c i : ℕ) (t : Transaction) (a r : Answer) →
        get m.transactions c ≡ Some t → IsAborted i a r →
        (after m (event.Client c verb.Commit) r).now ≡ m.now }
{}

/// An abort ends the transaction in any phase.
pub fn aborts()
    ensures only { (m : Machine) (c : ℕ) (t : Transaction) → get m.transactions c ≡ Some t →
        Only m (event.Client c verb.Abort) answer.Okay }
    ensures ended { (m : Machine) (c : ℕ) (t : Transaction) → get m.transactions c ≡ Some t →
        get (after m (event.Client c verb.Abort) answer.Okay).transactions c ≡ None }
    ensures keeps_the_tree { (m : Machine) (c : ℕ) (t : Transaction) →
        get m.transactions c ≡ Some t →
        (after m (event.Client c verb.Abort) answer.Okay).now ≡ m.now }
{}

/// A file is shown whole up to 1,048,576 bytes, and a tree path by path, as they stand now.
pub fn shows_the_tree()
    ensures file { (m : Machine) (p : List ℕ) (paths : PathSet) (bytes : List ℕ) →
        get m.now p ≡ Some (node.File paths bytes) →
        length bytes ≤ 1048576 →
        May m (event.Dump p) (answer.Shown bytes) }
    ensures long { (m : Machine) (p : List ℕ) (paths : PathSet) (bytes : List ℕ) →
        get m.now p ≡ Some (node.File paths bytes) →
        1048576 < length bytes →
        Only m (event.Dump p) (answer.Refused word.Long) }
    ensures directory { (m : Machine) (p : List ℕ) → get m.now p ≡ Some node.Dir →
        Only m (event.Dump p) (answer.Refused word.IsDir) }
    ensures missing { (m : Machine) (p : List ℕ) → get m.now p ≡ None →
        Only m (event.Dump p) (answer.Refused word.NoEnt) }
    ensures tree { (m : Machine) → Only m event.Tree (answer.Tree (rows_of m.now)) }
    ensures leaves { (m : Machine) (p : List ℕ) (a : Answer) → after m (event.Dump p) a ≡ m }
{}

/// A save answers the number, and only where no server is down; its image is then that of the tree now. A fault may come
/// at any time; the image is then one of those that it may have been, or that of the tree now.
pub fn saves()
    ensures saved { (m : Machine) (n : ℕ) → May m event.Save (answer.Saved n) ↔
        ((n ≡ m.number) × ((k : ℕ) → k < m.settings.servers → is_down m k ≡ false)) }
    ensures fault { (m : Machine) → May m event.Save answer.FaultSave }
    ensures image { (m : Machine) (n : ℕ) →
        after m event.Save (answer.Saved n) ≡ record m { may_be_saved = m.now ∷ [] } }
    ensures either { (m : Machine) → after m event.Save answer.FaultSave ≡
        record m { may_be_saved = m.may_be_saved ++ m.now ∷ [] } }
{}

/// A run has as many answers as events, and the first saved image may stand for the first tree alone.
pub fn runs_are_whole()
    ensures too_few { (m : Machine) (e : Event) (es : List Event) → ¬ (Accepts m (e ∷ es) []) }
    ensures too_many { (m : Machine) (a : Answer) (answers : List Answer) →
        ¬ (Accepts m [] (a ∷ answers)) }
    ensures saved { (settings : Settings) (number : ℕ) (tree : Tree) →
        (start settings number tree).may_be_saved ≡ tree ∷ [] }
    ensures base { (settings : Settings) (number : ℕ) (tree : Tree) →
        (start settings number tree).number ≡ number }
{}
