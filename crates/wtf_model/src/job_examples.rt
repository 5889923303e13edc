//! Worked examples of the lines of jobs, each proved. They say of each line what may answer it, and what it leaves.

ghost use Rattle.std.specs.Prelude.{◌≡◌, ◌≢◌, ◌↔◌, ◌⊎◌, ℕ, ◌+◌, ◌-◌, ◌/◌, ◌≤◌, ◌<◌, true, List, [], ◌∷◌, map, length, Some, None, codes};
ghost use Rattle.std.specs.Option.{option_map};
ghost use Rattle.std.specs.FinMap.{get};
ghost use Rattle.wtf_model.specs.declared.answer.Answer.{Answer};
ghost use Rattle.wtf_model.specs.declared.answer.Answer.TheVariants as answer;
ghost use Rattle.wtf_model.specs.declared.answer.Word.TheVariants as word;
ghost use Rattle.wtf_model.specs.declared.op.JobKind.{JobKind};
ghost use Rattle.wtf_model.specs.declared.op.JobKind.TheVariants.{Compact, Spill};
ghost use Rattle.wtf_model.specs.declared.event.Verb.TheVariants as verb;
ghost use Rattle.wtf_model.specs.declared.event.Event.TheVariants as event;
ghost use Rattle.wtf_model.specs.Tree.{path_list};
ghost use Rattle.wtf_model.specs.Tree as node;
ghost use Rattle.wtf_model.specs.declared.item.Item.TheVariants.{BodyOf};
ghost use Rattle.wtf_model.specs.Items.{is_among, reads_of};
ghost use Rattle.wtf_model.specs.Transaction.{Transaction, Job};
ghost use Rattle.wtf_model.specs.Machines.{IsBehind};
ghost use Rattle.wtf_model.specs.Jobs.{is_job_touched, job_changes};
ghost use Rattle.wtf_model.specs.Steps.{Machine, May, after, cap_of, touch, touch_job};
ghost use Rattle.wtf_model.specs.Examples.{Only, IsPlannable, Runs, HasTwoCalls, first_job, moved_events, stale_events};

/// A plan is for a region that the file has: up to its last byte, and region 0 of an empty file. It is refused where its
/// label has a job, where the path is not there or a directory, and past the last region, in this order.
pub fn plans()
    ensures planned { (m : Machine) (j r : ℕ) (kind : JobKind) (p bytes : List ℕ) →
        IsPlannable m j p bytes → r ≤ (length bytes - 1) / m.settings.region →
        May m (event.Plan j kind p r) answer.Planned }
    ensures empty_file { (m : Machine) (j : ℕ) (kind : JobKind) (p : List ℕ) →
        IsPlannable m j p [] → May m (event.Plan j kind p 0) answer.Planned }
    ensures label_taken { (m : Machine) (j r : ℕ) (kind : JobKind) (p : List ℕ) (job : Job) →
        get m.jobs j ≡ Some job → Only m (event.Plan j kind p r) (answer.Refused word.JobInUse) }
    ensures missing { (m : Machine) (j r : ℕ) (kind : JobKind) (p : List ℕ) →
        get m.jobs j ≡ None → get m.now p ≡ None →
        Only m (event.Plan j kind p r) (answer.Refused word.NoEnt) }
    ensures directory { (m : Machine) (j r : ℕ) (kind : JobKind) (p : List ℕ) →
        get m.jobs j ≡ None → get m.now p ≡ Some node.Dir →
        Only m (event.Plan j kind p r) (answer.Refused word.IsDir) }
    ensures no_region { (m : Machine) (j r : ℕ) (kind : JobKind) (p bytes : List ℕ) →
        IsPlannable m j p bytes → (length bytes - 1) / m.settings.region < r →
        Only m (event.Plan j kind p r) (answer.Refused word.NoRegion) }
{}

/// Where a plan is due a store may fail: a read of the region's list, on a server that is there, and for a spill alone the
/// write of its list. A refused plan reads nothing.
pub fn plans_that_fail()
    ensures read { (m : Machine) (j k : ℕ) (kind : JobKind) (p bytes : List ℕ) →
        IsPlannable m j p bytes → k < m.settings.servers →
        May m (event.Plan j kind p 0) (answer.FaultRead k) }
    ensures damaged { (m : Machine) (j k : ℕ) (kind : JobKind) (p bytes : List ℕ) →
        IsPlannable m j p bytes → k < m.settings.servers →
        May m (event.Plan j kind p 0) (answer.Damaged k) }
    ensures spill { (m : Machine) (j : ℕ) (p bytes : List ℕ) → IsPlannable m j p bytes →
        May m (event.Plan j Spill p 0) answer.FaultWrite }
    ensures compact { (m : Machine) (j r : ℕ) (p : List ℕ) →
        ¬ (May m (event.Plan j Compact p r) answer.FaultWrite) }
    ensures no_server { (m : Machine) (j r k : ℕ) (kind : JobKind) (p : List ℕ) →
        m.settings.servers ≤ k →
        ¬ (May m (event.Plan j kind p r) (answer.FaultRead k)) }
    ensures leaves { (m : Machine) (j r k : ℕ) (kind : JobKind) (p : List ℕ) →
        after m (event.Plan j kind p r) (answer.FaultRead k) ≡ m }
{}

/// A job takes the next stamp, as a transaction does, and has the number of installs that it was planned at. The tree stays.
pub fn planned_jobs()
    ensures job { (m : Machine) (j r : ℕ) (kind : JobKind) (p : List ℕ) →
        get (after m (event.Plan j kind p r) answer.Planned).jobs j ≡
        Some (first_job m kind p r) }
    ensures others { (m : Machine) (i j r : ℕ) (kind : JobKind) (p : List ℕ) → i ≢ j →
        get (after m (event.Plan j kind p r) answer.Planned).jobs i ≡ get m.jobs i }
    ensures stamp { (m : Machine) (j r : ℕ) (kind : JobKind) (p : List ℕ) →
        (after m (event.Plan j kind p r) answer.Planned).next_stamp ≡ m.next_stamp + 1 }
    ensures rest { (m : Machine) (j r : ℕ) (kind : JobKind) (p : List ℕ) (a : Answer) →
        record (after m (event.Plan j kind p r) a) { jobs = m.jobs; next_stamp = m.next_stamp }
        ≡ m }
{}

/// What a job made is put in place under the next number, or is stale, which comes only where others have installed since it
/// was planned and changed its file. Either ends the job. The tree stays; others see that the file's bytes stand elsewhere.
pub fn puts()
    ensures installed { (m : Machine) (j n : ℕ) (job : Job) → get m.jobs j ≡ Some job →
        May m (event.Put j) (answer.Installed n) ↔ (n ≡ m.number + 1) }
    ensures stale { (m : Machine) (j base now : ℕ) (job : Job) → get m.jobs j ≡ Some job →
        May m (event.Put j) (answer.Stale base now) ↔
        (IsBehind m.number job.base base now × (is_job_touched job ≡ true)) }
    ensures no_stale_at_its_base { (m : Machine) (j base now : ℕ) (job : Job) →
        get m.jobs j ≡ Some job → job.base ≡ m.number →
        ¬ (May m (event.Put j) (answer.Stale base now)) }
    ensures no_job { (m : Machine) (j : ℕ) → get m.jobs j ≡ None →
        Only m (event.Put j) (answer.Refused word.NoJob) }
    ensures number { (m : Machine) (j n : ℕ) →
        (after m (event.Put j) (answer.Installed n)).number ≡ n }
    ensures gone { (m : Machine) (j n : ℕ) →
        get (after m (event.Put j) (answer.Installed n)).jobs j ≡ None }
    ensures stale_gone { (m : Machine) (j base now : ℕ) →
        get (after m (event.Put j) (answer.Stale base now)).jobs j ≡ None }
    ensures others { (m : Machine) (i j n : ℕ) → i ≢ j →
        get (after m (event.Put j) (answer.Installed n)).jobs i ≡
        option_map (touch_job (job_changes m.now (get m.jobs j))) (get m.jobs i) }
    ensures clients { (m : Machine) (c j n : ℕ) →
        get (after m (event.Put j) (answer.Installed n)).transactions c ≡
        option_map (touch (job_changes m.now (get m.jobs j))) (get m.transactions c) }
    ensures body { (m : Machine) (job : Job) → job_changes m.now (Some job) ≡
        map (λ q. BodyOf q) (path_list (node.paths_at m.now job.path)) }
    ensures rest { (m : Machine) (j : ℕ) (a : Answer) →
        record (after m (event.Put j) a) { transactions = m.transactions; jobs = m.jobs; number = m.number }
        ≡ m }
{}

/// A job is dropped without a trace.
pub fn drops()
    ensures only { (m : Machine) (j : ℕ) (job : Job) → get m.jobs j ≡ Some job →
        Only m (event.DropJob j) answer.Okay }
    ensures no_job { (m : Machine) (j : ℕ) → get m.jobs j ≡ None →
        Only m (event.DropJob j) (answer.Refused word.NoJob) }
    ensures gone { (m : Machine) (j : ℕ) →
        get (after m (event.DropJob j) answer.Okay).jobs j ≡ None }
    ensures rest { (m : Machine) (j : ℕ) (a : Answer) →
        record (after m (event.DropJob j) a) { jobs = m.jobs } ≡ m }
{}

/// Two jobs are planned at one number, and the first is put in place: the second may be stale, and then names the number that
/// it was planned at. An install that changes no byte may send a transaction that has read the file to replay, which answers as
/// before; it is committed under the number after that.
pub fn installs_are_numbered()
    ensures two_jobs { (m : Machine) (p bytes : List ℕ) → IsPlannable m 0 p bytes →
        get m.jobs 1 ≡ None → Runs m (stale_events p m.number) }
    ensures replayed { (m : Machine) (t : Transaction) (p bytes : List ℕ) →
        IsPlannable m 0 p bytes → HasTwoCalls m t →
        is_among (reads_of (cap_of m) t.tree t.ops) (BodyOf p) ≡ true →
        Runs m (moved_events p m.number) }
{}
