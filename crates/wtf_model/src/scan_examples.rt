//! Worked examples of the lines of scans and collections, each proved. They say of each line what may answer it, and what
//! it leaves.

ghost use Rattle.std.specs.Prelude.{◌≡◌, ◌≢◌, ◌↔◌, ◌⊎◌, ℕ, ◌+◌, ◌-◌, ◌≤◌, ◌<◌, List, [], ◌∷◌, Some, None, true, false};
ghost use Rattle.std.specs.FinMap.{get, empty, insert};
ghost use Rattle.wtf_base.specs.declared.settings.Settings.{Settings};
ghost use Rattle.wtf_model.specs.declared.answer.Answer.{Answer};
ghost use Rattle.wtf_model.specs.declared.answer.Answer.TheVariants as answer;
ghost use Rattle.wtf_model.specs.declared.answer.Word.TheVariants as word;
ghost use Rattle.wtf_model.specs.declared.event.Verb.{Verb};
ghost use Rattle.wtf_model.specs.declared.event.Event.TheVariants as event;
ghost use Rattle.wtf_model.specs.declared.event.Holder.TheVariants as holder;
ghost use Rattle.wtf_model.specs.Tree.{Tree};
ghost use Rattle.wtf_model.specs.Transaction.{Transaction, Job};
ghost use Rattle.wtf_model.specs.Scans.{open_stamps, was_open};
ghost use Rattle.wtf_model.specs.Steps.{Machine, May, start, after, is_down};
ghost use Rattle.wtf_model.specs.Examples.{Only, Runs, stamped, stamped_job, IsAtRest, IsAlone, quiet_events, held_events, pieces_events};

/// One scan runs at a time. It notes what is open, and has 64 parts; the first one waits for nothing.
pub fn scans()
    ensures first { (settings : Settings) (number : ℕ) (tree : Tree) →
        Only (start settings number tree) event.Scan answer.Scanning }
    ensures busy { (m : Machine) (left : ℕ) → m.parts_left ≡ Some left →
        Only m event.Scan (answer.Refused word.ScanBusy) }
    ensures parts { (m : Machine) → (after m event.Scan answer.Scanning).parts_left ≡ Some 64 }
    ensures noted { (m : Machine) →
        (after m event.Scan answer.Scanning).scan_list ≡ open_stamps m }
    ensures rest { (m : Machine) (a : Answer) → record (after m event.Scan a) {
      scan_list = m.scan_list;
      parts_left = m.parts_left;
    } ≡ m }
{}

/// A scan waits for what was open when the last one began. It is held by the client whose transaction began first of these,
/// whatever its label, and by a job only where no client is left; what began after that scan does not hold it.
pub fn held_scans()
    ensures first_begun { (m : Machine) (t u : Transaction) → m.parts_left ≡ None →
        m.transactions ≡ insert (insert empty 2 (stamped 4 t)) 5 (stamped 3 u) →
        m.scan_list ≡ 4 ∷ 3 ∷ [] → Only m event.Scan (answer.Held (holder.Client 5)) }
    ensures before_a_job { (m : Machine) (t : Transaction) (job : Job) → m.parts_left ≡ None →
        m.transactions ≡ insert empty 5 (stamped 4 t) →
        m.jobs ≡ insert empty 0 (stamped_job 3 job) → m.scan_list ≡ 4 ∷ 3 ∷ [] →
        Only m event.Scan (answer.Held (holder.Client 5)) }
    ensures lowest_label { (m : Machine) (i j : Job) → m.parts_left ≡ None →
        m.transactions ≡ empty →
        m.jobs ≡ insert (insert empty 7 (stamped_job 3 i)) 6 (stamped_job 4 j) →
        m.scan_list ≡ 3 ∷ 4 ∷ [] → Only m event.Scan (answer.Held (holder.Job 6)) }
    ensures begun_later { (m : Machine) (t : Transaction) → m.parts_left ≡ None →
        m.transactions ≡ insert empty 5 (stamped 4 t) → m.jobs ≡ empty → m.scan_list ≡ 3 ∷ [] →
        Only m event.Scan answer.Scanning }
    ensures leaves { (m : Machine) (by : ℕ) →
        after m event.Scan (answer.Held (holder.Client by)) ≡ m }
{}

/// A line does the next parts of a scan, and tells how many are left; the last one says that all are done. Only while a scan
/// runs. A part may have a list to read.
pub fn pieces()
    ensures none { (m : Machine) (k : ℕ) → m.parts_left ≡ None →
        Only m (event.Piece k) (answer.Refused word.NoScan) }
    ensures more { (m : Machine) (k left n : ℕ) → m.parts_left ≡ Some left → k < left →
        May m (event.Piece k) (answer.More n) ↔ (n ≡ left - k) }
    ensures not_done { (m : Machine) (k left : ℕ) → m.parts_left ≡ Some left → k < left →
        ¬ (May m (event.Piece k) answer.Done) }
    ensures done { (m : Machine) (k left : ℕ) → m.parts_left ≡ Some left → left ≤ k →
        May m (event.Piece k) answer.Done }
    ensures no_more { (m : Machine) (k left n : ℕ) → m.parts_left ≡ Some left → left ≤ k →
        ¬ (May m (event.Piece k) (answer.More n)) }
    ensures fault { (m : Machine) (k left server : ℕ) → m.parts_left ≡ Some left →
        server < m.settings.servers → May m (event.Piece k) (answer.FaultRead server) }
    ensures left { (m : Machine) (k n : ℕ) →
        (after m (event.Piece k) (answer.More n)).parts_left ≡ Some n }
    ensures finished { (m : Machine) (k : ℕ) →
        after m (event.Piece k) answer.Done ≡
        record m { parts_left = None; scans = m.scans + 1 } }
    ensures failed { (m : Machine) (k server : ℕ) →
        after m (event.Piece k) (answer.FaultRead server) ≡ m }
    ensures beside { (m : Machine) (c : ℕ) (v : Verb) (a : Answer) →
        (after m (event.Client c v) a).parts_left ≡ m.parts_left }
{}

/// A collection names a server that is there, and needs two finished scans. How many bytes it frees is left to the stores; it
/// changes nothing that the machine knows.
pub fn collections()
    ensures no_server { (m : Machine) (k : ℕ) → m.settings.servers ≤ k →
        Only m (event.Collect k) (answer.Refused word.NoServer) }
    ensures too_early { (m : Machine) (k : ℕ) → k < m.settings.servers → m.scans < 2 →
        Only m (event.Collect k) (answer.Refused word.NoScan) }
    ensures freed { (m : Machine) (k n : ℕ) → k < m.settings.servers → 2 ≤ m.scans →
        May m (event.Collect k) (answer.Collected n) }
    ensures fault { (m : Machine) (k j : ℕ) → k < m.settings.servers → 2 ≤ m.scans →
        May m (event.Collect k) (answer.FaultPunch j) ↔ (j ≡ k) }
    ensures leaves { (m : Machine) (k : ℕ) (a : Answer) → after m (event.Collect k) a ≡ m }
{}

/// Runs of scans. A quiet one: nothing is open, two scans run whole after a save, also after one that failed, and a collection
/// frees what it finds, and nothing when it is asked again. One that is held: a transaction is open from before the first scan
/// on, and the second waits until it has ended. And one in pieces, between which a transaction begins and commits.
pub fn runs_of_scans()
    ensures quiet { (m : Machine) (n : ℕ) → IsAtRest m →
        ((k : ℕ) → k < m.settings.servers → is_down m k ≡ false) →
        Runs m (quiet_events m.number n) }
    ensures held { (m : Machine) (t : Transaction) → IsAlone m t → Runs m held_events }
    ensures in_pieces { (m : Machine) → IsAtRest m → Runs m (pieces_events m.number) }
{}
