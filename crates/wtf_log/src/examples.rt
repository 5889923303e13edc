//! Worked examples of the definitions, each proved. What a slice holds is told by any test.

ghost use Rattle.std.specs.Prelude.{◌≡◌, ℕ, List, [], ◌∷◌, ◌++◌, Bool, IsTrue, length, slice_get, Some, None};
ghost use Rattle.wtf_base.specs.declared.kept.Kept.{Kept};
ghost use Rattle.wtf_base.specs.declared.slice.Slice.{Slice};
ghost use Rattle.wtf_model.specs.declared.op.Op.{Op};
ghost use Rattle.wtf_model.specs.declared.op.Op.TheVariants as op;
ghost use Rattle.wtf_log.specs.Calls.{own_of};
ghost use Rattle.wtf_log.specs.Examples.{told_by};
ghost use Rattle.wtf_log.specs.Standing.{KeptStandsFor, OpStandsFor, OpsStandFor};

/// What is kept stands for bytes: they are so many, and a slice that is kept holds them.
pub fn kept_counts_the_bytes()
    ensures none { (test : Slice → List ℕ → Bool) (kept : Kept) (bytes : List ℕ) →
        kept.slice ≡ None → kept.len ≡ length bytes → KeptStandsFor (told_by test) kept bytes }
    ensures stored { (test : Slice → List ℕ → Bool) (kept : Kept) (s : Slice) (bytes : List ℕ) →
        kept.slice ≡ Some s → kept.len ≡ length bytes → IsTrue (test s bytes) →
        KeptStandsFor (told_by test) kept bytes }
    ensures holds { (test : Slice → List ℕ → Bool) (kept : Kept) (s : Slice) (bytes : List ℕ) →
        kept.slice ≡ Some s → KeptStandsFor (told_by test) kept bytes → IsTrue (test s bytes) }
    ensures len { (test : Slice → List ℕ → Bool) (kept : Kept) (bytes : List ℕ) →
        KeptStandsFor (told_by test) kept bytes → kept.len ≡ length bytes }
{}

/// A logged write stands for the write to the same handle of bytes that what is kept stands for,
/// and for no append.
pub fn a_write_stands_for_a_write()
    ensures write { (test : Slice → List ℕ → Bool) (h : ℕ) (kept : Kept) (bytes : List ℕ) →
        KeptStandsFor (told_by test) kept bytes →
        OpStandsFor (told_by test) (op.Write h kept) (op.Write h bytes) }
    ensures kept { (test : Slice → List ℕ → Bool) (h g : ℕ) (kept : Kept) (bytes : List ℕ) →
        OpStandsFor (told_by test) (op.Write h kept) (op.Write g bytes) →
        KeptStandsFor (told_by test) kept bytes }
    ensures handle { (test : Slice → List ℕ → Bool) (h g : ℕ) (kept : Kept) (bytes : List ℕ) →
        OpStandsFor (told_by test) (op.Write h kept) (op.Write g bytes) → h ≡ g }
    ensures verb { (test : Slice → List ℕ → Bool) (h g : ℕ) (kept : Kept) (bytes : List ℕ) →
        ¬ OpStandsFor (told_by test) (op.Write h kept) (op.Append g bytes) }
{}

/// A logged append stands for the append to the same handle of bytes that what is kept stands for,
/// and for no write.
pub fn an_append_stands_for_an_append()
    ensures append { (test : Slice → List ℕ → Bool) (h : ℕ) (kept : Kept) (bytes : List ℕ) →
        KeptStandsFor (told_by test) kept bytes →
        OpStandsFor (told_by test) (op.Append h kept) (op.Append h bytes) }
    ensures kept { (test : Slice → List ℕ → Bool) (h g : ℕ) (kept : Kept) (bytes : List ℕ) →
        OpStandsFor (told_by test) (op.Append h kept) (op.Append g bytes) →
        KeptStandsFor (told_by test) kept bytes }
    ensures handle { (test : Slice → List ℕ → Bool) (h g : ℕ) (kept : Kept) (bytes : List ℕ) →
        OpStandsFor (told_by test) (op.Append h kept) (op.Append g bytes) → h ≡ g }
    ensures verb { (test : Slice → List ℕ → Bool) (h g : ℕ) (kept : Kept) (bytes : List ℕ) →
        ¬ OpStandsFor (told_by test) (op.Append h kept) (op.Write g bytes) }
{}

/// A call with no data stands for itself alone.
pub fn a_call_without_bytes_stands_for_itself()
    ensures tell { (test : Slice → List ℕ → Bool) (h : ℕ) →
        OpStandsFor (told_by test) (op.Tell h) (op.Tell h) }
    ensures handle { (test : Slice → List ℕ → Bool) (h g : ℕ) →
        OpStandsFor (told_by test) (op.Tell h) (op.Tell g) → h ≡ g }
    ensures verb { (test : Slice → List ℕ → Bool) (h : ℕ) →
        ¬ OpStandsFor (told_by test) (op.Tell h) (op.Close h) }
{}

/// Logged calls stand for as many calls, one for one.
pub fn logged_calls_stand_one_for_one()
    ensures length { (test : Slice → List ℕ → Bool)
        (logged : List (Op Kept)) (ops : List (Op (List ℕ))) →
        OpsStandFor (told_by test) logged ops → length logged ≡ length ops }
    ensures each { (test : Slice → List ℕ → Bool)
        (logged : List (Op Kept)) (ops : List (Op (List ℕ))) (k : ℕ) (o : Op Kept)
        (p : Op (List ℕ)) → OpsStandFor (told_by test) logged ops →
        slice_get logged k ≡ Some o → slice_get ops k ≡ Some p → OpStandsFor (told_by test) o p }
    ensures push { (test : Slice → List ℕ → Bool)
        (logged : List (Op Kept)) (ops : List (Op (List ℕ))) (o : Op Kept)
        (p : Op (List ℕ)) → OpsStandFor (told_by test) logged ops →
        OpStandsFor (told_by test) o p →
        OpsStandFor (told_by test) (logged ++ o ∷ []) (ops ++ p ∷ []) }
{}

/// The slice of a call is the one that its write or append keeps. A read has none.
pub fn own_is_what_a_write_keeps()
    ensures write { (h : ℕ) (kept : Kept) → own_of (op.Write h kept) ≡ kept.slice }
    ensures append { (h : ℕ) (kept : Kept) → own_of (op.Append h kept) ≡ kept.slice }
    ensures read { (h n : ℕ) → own_of (op.Read h n) ≡ None }
    ensures yank { (h n label : ℕ) → own_of (op.Yank h n label) ≡ None }
{}
