//! Worked examples of the definitions, each proved.

ghost use Rattle.std.specs.Prelude.{◌≡◌, ◌≢◌, ◌↔◌, ℕ, ◌+◌, ◌-◌, ◌*◌, ◌≤◌, ◌<◌, List, [], ◌∷◌, length, get_or, max, Some, None, true, false, codes, All};
ghost use Rattle.std.specs.FinMap.{get};
ghost use Rattle.wtf_path.specs.Parts.{parent_of};
ghost use Rattle.wtf_base.specs.declared.settings.Settings.{Settings};
ghost use Rattle.wtf_model.specs.declared.answer.Answer.{Answer};
ghost use Rattle.wtf_model.specs.declared.answer.Answer.TheVariants as answer;
ghost use Rattle.wtf_model.specs.declared.answer.Word.{Word};
ghost use Rattle.wtf_model.specs.declared.answer.Word.TheVariants as word;
ghost use Rattle.wtf_model.specs.declared.op.Op.{Op};
ghost use Rattle.wtf_model.specs.declared.op.Op.TheVariants as op;
ghost use Rattle.wtf_model.specs.declared.op.Seek.TheVariants as to;
ghost use Rattle.wtf_model.specs.declared.event.Verb.TheVariants as verb;
ghost use Rattle.wtf_model.specs.declared.event.Event.{Event};
ghost use Rattle.wtf_model.specs.declared.event.Event.TheVariants as event;
ghost use Rattle.wtf_model.specs.Tree.{PathSet, TreeNode};
ghost use Rattle.wtf_model.specs.Tree as node;
ghost use Rattle.wtf_model.specs.Form.{IsData, IsFormOp, IsFormEvent};
ghost use Rattle.wtf_model.specs.Sound.{IsSoundMachine};
ghost use Rattle.wtf_model.specs.Tree.{Tree, root, root_alone, IsTree};
ghost use Rattle.wtf_model.specs.Session.{Session, Handle};
ghost use Rattle.wtf_model.specs.Call.{call, bytes_at, written};
ghost use Rattle.wtf_model.specs.Transaction.{Transaction, session_after, answers_of};
ghost use Rattle.wtf_model.specs.Lawful.{MayFail};
ghost use Rattle.wtf_model.specs.Steps.{Machine, Accepts, May, start, after, session_of, due, is_down, is_call_refusal, logged, with_transaction};
ghost use Rattle.wtf_model.specs.Lines.{Line, MayLine, after_line, Along, machine_after, events_of, answers_to};
ghost use Rattle.wtf_model.specs.Servers.{none_down, downs_after};
ghost use Rattle.wtf_model.specs.Examples.{first_file_events, first_file_answers, overwrite_events, overwrite_answers, gap_calls, gap_answers, fault_events, fault_answers, OnlyServer, unchanged, IsStoreFault};

/// A first file: create, open, write, seek, read past the end, and commit. The read can show no other bytes, and the
/// commit can have no other number.
pub fn first_file_is_accepted()
    ensures accepted { (settings : Settings) →
        Accepts (start settings 0 root_alone) first_file_events (first_file_answers (answer.Shown (codes "abcdef")) (answer.Committed 1)) }
    ensures bytes { (settings : Settings) (bytes : List ℕ) →
        Accepts (start settings 0 root_alone) first_file_events (first_file_answers (answer.Shown bytes) (answer.Committed 1)) → bytes ≡ codes "abcdef" }
    ensures number { (settings : Settings) (number : ℕ) →
        Accepts (start settings 0 root_alone) first_file_events (first_file_answers (answer.Shown (codes "abcdef")) (answer.Committed number)) → number ≡ 1 }
{}

/// Two bytes in the middle of a file are written over, and a later transaction reads them.
pub fn overwrite_is_accepted()
    ensures { (settings : Settings) →
        Accepts (start settings 0 root_alone) overwrite_events overwrite_answers }
{}

/// A write past the end of a file puts zeros in the gap.
pub fn gap_is_zeros()
    ensures { answers_of (4096 * 64) root_alone gap_calls ≡ gap_answers }
{}

/// What a write leaves of a file, byte by byte: the new bytes from its offset on, and the old ones before and behind
/// them, with zeros where there were none.
pub fn written_bytes_are_in_place()
    ensures length { (old : List ℕ) (off : ℕ) (new : List ℕ) →
        length (written old off new) ≡ max (length old) (off + length new) }
    ensures before { (old : List ℕ) (off : ℕ) (new : List ℕ) (x : ℕ) → x < off →
        get_or (written old off new) x 0 ≡ get_or old x 0 }
    ensures within { (old : List ℕ) (off : ℕ) (new : List ℕ) (x : ℕ) → off ≤ x →
        x < off + length new → get_or (written old off new) x 0 ≡ get_or new (x - off) 0 }
    ensures behind { (old : List ℕ) (off : ℕ) (new : List ℕ) (x : ℕ) → off + length new ≤ x →
        get_or (written old off new) x 0 ≡ get_or old x 0 }
{}

/// A `create` at the root, at a path that is there, or without a directory above is refused.
pub fn create_is_refused()
    ensures root { (cap : ℕ) (s : Session) →
        call cap s (op.Create root) ≡ unchanged s (answer.Refused word.Exists) }
    ensures exists { (cap : ℕ) (s : Session) (p dir : List ℕ) (n : TreeNode) →
        parent_of p ≡ Some dir → get s.tree dir ≡ Some node.Dir → get s.tree p ≡ Some n →
        call cap s (op.Create p) ≡ unchanged s (answer.Refused word.Exists) }
    ensures no_parent { (cap : ℕ) (s : Session) (p dir : List ℕ) → parent_of p ≡ Some dir →
        get s.tree dir ≡ None →
        call cap s (op.Create p) ≡ unchanged s (answer.Refused word.NoParent) }
    ensures file_parent { (cap : ℕ) (s : Session) (p dir : List ℕ) (paths : PathSet) (bytes : List ℕ) →
        parent_of p ≡ Some dir → get s.tree dir ≡ Some (node.File paths bytes) →
        call cap s (op.Create p) ≡ unchanged s (answer.Refused word.NoParent) }
{}

/// An `open` of a path that is not there, or of a directory, is refused.
pub fn open_is_refused()
    ensures no_entry { (cap : ℕ) (s : Session) (f : ℕ) (p : List ℕ) → get s.handles f ≡ None →
        get s.tree p ≡ None →
        call cap s (op.Open f p) ≡ unchanged s (answer.Refused word.NoEnt) }
    ensures directory { (cap : ℕ) (s : Session) (f : ℕ) (p : List ℕ) → get s.handles f ≡ None →
        get s.tree p ≡ Some node.Dir →
        call cap s (op.Open f p) ≡ unchanged s (answer.Refused word.IsDir) }
{}

/// A `read`, `write` or `seek` on a label that is not open is refused.
pub fn closed_label_is_refused()
    ensures read { (cap : ℕ) (s : Session) (f n : ℕ) → get s.handles f ≡ None →
        call cap s (op.Read f n) ≡ unchanged s (answer.Refused word.NoHandle) }
    ensures write { (cap : ℕ) (s : Session) (f : ℕ) (bytes : List ℕ) → get s.handles f ≡ None →
        call cap s (op.Write f bytes) ≡ unchanged s (answer.Refused word.NoHandle) }
    ensures seek { (cap : ℕ) (s : Session) (f n : ℕ) → get s.handles f ≡ None →
        call cap s (op.Seek f (to.Set n)) ≡ unchanged s (answer.Refused word.NoHandle) }
{}

/// A read at the end of a file or past it shows no bytes and leaves the session, and so does a write of no byte.
pub fn nothing_is_moved()
    ensures read { (cap : ℕ) (s : Session) (f n : ℕ) (h : Handle) → get s.handles f ≡ Some h →
        length (bytes_at s.tree h.path) ≤ h.off →
        call cap s (op.Read f n) ≡ unchanged s (answer.Shown []) }
    ensures write { (cap : ℕ) (s : Session) (f : ℕ) (h : Handle) → get s.handles f ≡ Some h →
        call cap s (op.Write f []) ≡ unchanged s answer.Okay }
{}

/// A fault leaves the machine. It comes from a read, a yank or a peek in place of bytes that are due, from files that are
/// put together, each time from a server that is there; from a write or an append of at least one byte that is due to
/// answer `ok`; and from no other call. What a list says of a slice was read when it was yanked, so a peek is not damaged.
pub fn faults_are_accepted()
    ensures accepted { (settings : Settings) →
        Accepts (start settings 0 root_alone) fault_events fault_answers }
    ensures read_leaves { (m : Machine) (e : Event) (k : ℕ) → after m e (answer.FaultRead k) ≡ m }
    ensures write_leaves { (m : Machine) (e : Event) → after m e answer.FaultWrite ≡ m }
    ensures damage_leaves { (m : Machine) (e : Event) (k : ℕ) → after m e (answer.Damaged k) ≡ m }
    ensures only { (m : Machine) (c : ℕ) (t : Transaction) (o : Op (List ℕ)) (a : Answer) →
        IsStoreFault a → get m.transactions c ≡ Some t →
        May m (event.Client c (verb.Call o)) a → MayFail m.settings.servers o (due m t o) a }
    ensures read { (n f k count b : ℕ) (bs : List ℕ) → k < n →
        MayFail n (op.Read f count) (answer.Shown (b ∷ bs)) (answer.FaultRead k) }
    ensures damaged { (n f k count b : ℕ) (bs : List ℕ) → k < n →
        MayFail n (op.Read f count) (answer.Shown (b ∷ bs)) (answer.Damaged k) }
    ensures yank { (n f k count label : ℕ) → k < n →
        MayFail n (op.Yank f count label) (answer.Len 1) (answer.Damaged k) }
    ensures peek { (n label off k count b : ℕ) (bs : List ℕ) → k < n →
        MayFail n (op.Peek label off count) (answer.Shown (b ∷ bs)) (answer.FaultRead k) }
    ensures concat { (n k : ℕ) (q : List ℕ) (paths : List (List ℕ)) → k < n →
        MayFail n (op.Concat q paths) answer.Okay (answer.FaultRead k) }
    ensures write { (n f b : ℕ) (bs : List ℕ) →
        MayFail n (op.Write f (b ∷ bs)) answer.Okay answer.FaultWrite }
    ensures append { (n f b : ℕ) (bs : List ℕ) →
        MayFail n (op.Append f (b ∷ bs)) answer.Okay answer.FaultWrite }
    ensures nothing_to_read { (n f count : ℕ) (a : Answer) →
        ¬ (MayFail n (op.Read f count) (answer.Shown []) a) }
    ensures nothing_to_write { (n f : ℕ) (d a : Answer) → ¬ (MayFail n (op.Write f []) d a) }
    ensures peek_undamaged { (n label off k count b : ℕ) (bs : List ℕ) →
        ¬ (MayFail n (op.Peek label off count) (answer.Shown (b ∷ bs)) (answer.Damaged k)) }
    ensures copy { (n : ℕ) (p q : List ℕ) (d a : Answer) → ¬ (MayFail n (op.Copy p q) d a) }
{}

/// A line that takes a server down or up is answered `ok`, or `noserver` where there is none of that number. It changes
/// that server alone, and no tree and no transaction.
pub fn servers_go_down_and_up()
    ensures known { (m : Machine) (k : ℕ) → k < m.settings.servers → OnlyServer m k answer.Okay }
    ensures unknown { (m : Machine) (k : ℕ) → m.settings.servers ≤ k →
        OnlyServer m k (answer.Refused word.NoServer) }
    ensures first { (settings : Settings) (number : ℕ) (tree : Tree) (k : ℕ) →
        is_down (start settings number tree) k ≡ false }
    ensures down { (m : Machine) (k : ℕ) → is_down (after m (event.Down k) answer.Okay) k ≡ true }
    ensures up { (m : Machine) (k : ℕ) → is_down (after m (event.Up k) answer.Okay) k ≡ false }
    ensures down_alone { (m : Machine) (j k : ℕ) → j ≢ k →
        is_down (after m (event.Down k) answer.Okay) j ≡ is_down m j }
    ensures up_alone { (m : Machine) (j k : ℕ) → j ≢ k →
        is_down (after m (event.Up k) answer.Okay) j ≡ is_down m j }
    ensures unknown_down { (m : Machine) (k : ℕ) →
        after m (event.Down k) (answer.Refused word.NoServer) ≡ m }
    ensures unknown_up { (m : Machine) (k : ℕ) →
        after m (event.Up k) (answer.Refused word.NoServer) ≡ m }
    ensures rest_down { (m : Machine) (k : ℕ) →
        record (after m (event.Down k) answer.Okay) { down = m.down } ≡ m }
    ensures rest_up { (m : Machine) (k : ℕ) →
        record (after m (event.Up k) answer.Okay) { down = m.down } ≡ m }
{}

/// The root alone is a tree, and each run of calls in form leaves a tree a tree. Each machine that events in form have
/// led to has trees alone, and logs calls in form.
pub fn trees_stay_trees()
    ensures first { IsTree root_alone }
    ensures run { (cap : ℕ) (tree : Tree) (ops : List (Op (List ℕ))) →
        All (IsFormOp IsData) ops → IsTree tree → IsTree (session_after cap tree ops).tree }
    ensures start { (settings : Settings) (number : ℕ) (tree : Tree) → IsTree tree →
        IsSoundMachine (start settings number tree) }
    ensures step { (m : Machine) (e : Event) (a : Answer) → IsFormEvent e → IsSoundMachine m →
        IsSoundMachine (after m e a) }
{}

/// A refusal that is no call's own is not logged: it leaves the machine, whatever the line.
pub fn refusals_of_the_machine_are_not_logged()
    ensures leaves { (m : Machine) (e : Event) (w : Word) → is_call_refusal w ≡ false →
        after m e (answer.Refused w) ≡ m }
    ensures logged { (m : Machine) (c : ℕ) (t : Transaction) (o : Op (List ℕ)) (w : Word) →
        is_call_refusal w ≡ true → get m.transactions c ≡ Some t →
        after m (event.Client c (verb.Call o)) (answer.Refused w) ≡
        with_transaction m c (logged t o (answer.Refused w)) }
{}

/// The lines of a run and their answers tell which servers are down: those of the machine. A line that asks nothing
/// gets its own answer, and leaves the machine.
pub fn lines_tell_the_servers()
    ensures first { (settings : Settings) (number : ℕ) (tree : Tree) →
        is_down (start settings number tree) ≡ none_down }
    ensures all { (m : Machine) (lines : List Line) (answers : List Answer) →
        is_down (machine_after m lines answers) ≡ downs_after (is_down m) lines answers }
    ensures bad { (m : Machine) (bad a : Answer) → MayLine m (Err bad) a ↔ (a ≡ bad) }
    ensures bad_leaves { (m : Machine) (bad a : Answer) → after_line m (Err bad) a ≡ m }
    ensures accepted { (m : Machine) (lines : List Line) (answers : List Answer) →
        Along MayLine m lines answers → Accepts m (events_of lines) (answers_to lines answers) }
{}
