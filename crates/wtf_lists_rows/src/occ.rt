//! Attempts on a store of numbers under small keys: the one that read what moved conflicts, the one
//! that only peeked does not.

ghost use Rattle.std.specs.Prelude.{◌≡◌, [], ◌∷◌, IfOk, OnOk};
ghost use Rattle.std.specs.Option.{option_copied};
ghost use Rattle.wtf_kv.specs.Edits.{fits};

use crate::counts::{Count, Counts, Name, number};
use crate::kv::store;
use std::alloc::Global;
use std::test::Fail;
use wtf_base::OutOfMemory;
use wtf_kv::{Cell, Change};
use wtf_occ::{Attempt, Mark, Tried};

type Counting = Attempt<Name, Count>;

/// What became of an attempt: the number of its install, or the key of a conflict, with the version that was
/// seen and the one that is there now.
type Ended = Result<u64, (u64, u64, u64)>;

/// The key that is read and changed.
const SEVEN: Name = Name { id: 7 };

fn outcome_of(tried: Tried<Name>) -> Ended {
    match tried {
        Tried::Installed(n) => Ok(n),
        Tried::Conflict { key, seen, now } => Err((key.id, seen, now)),
    }
}

/// Reads key 7, behind another one that is recorded twice, or only peeks.
fn look(attempt: &mut Counting, kv: &Counts, reads: bool) -> Result<(), Fail>
    ensures { OnOk result ((attempt.new.base ≡ attempt.old.base) ×
        (attempt.new.changes ≡ attempt.old.changes)) }
{
    if !kv.is_pinned(attempt.base()) {
        return Err("the base is not pinned".into());
    }
    if reads {
        attempt.record(&Name { id: 3 })?;
        attempt.record(&Name { id: 3 })?;
        attempt.read(kv, &SEVEN)?;
    } else {
        attempt.peek(kv, &SEVEN)?;
    }
    Ok(())
}

/// An attempt from base 1 that reads key 7, or only peeks, and pushes to it. What its install has to know of
/// it is a clause.
fn pushing(alloc: Global, kv: &Counts, reads: bool) -> Result<Counting, Fail>
    ensures { IfOk result (λ a. (a.base ≡ 1) ×
        (a.changes ≡ Change.Delta (record { id = 7 }) 3 ∷ [])) }
{
    let mut attempt = Attempt::new(alloc, 1)?;
    look(&mut attempt, kv, reads)?;
    attempt.delta(Name { id: 7 }, 3)?;
    Ok(attempt)
}

/// Whether a push of 3 fits.
fn fits_three(value: Option<&Count>) -> bool
    ensures { result ≡ fits (⟦<Count as Cell>⟧.outcome (option_copied value.entry) 3) }
{
    match value {
        Some(count) => count.n <= 61,
        None => true,
    }
}

/// Installs a push of 3 to key 7: whether it ends so.
fn ends(kv: &mut Counts, attempt: &mut Counting, want: Ended) -> bool
    requires base { attempt.old.base ≡ 1 }
    requires changes { attempt.old.changes ≡ Change.Delta (record { id = 7 }) 3 ∷ [] }
{
    if kv.number() >= 1000 || !kv.is_pinned(1) {
        return false;
    }
    if !fits_three(kv.read_at(1, &Name { id: 7 })) {
        return false;
    }
    match attempt.install(kv) {
        Ok(tried) => outcome_of(tried) == want,
        Err(_) => false,
    }
}

/// Whether two attempts from base 1 that push 3 to key 7, one after the other, install at 2 and end so.
fn two(alloc: Global, kv: &mut Counts, reads: bool, want: Ended) -> Result<bool, Fail> {
    let mut first = pushing(alloc, kv, reads)?;
    let mut second = pushing(alloc, kv, reads)?;
    Ok(ends(kv, &mut first, Ok(2)) && ends(kv, &mut second, want))
}

/// Pins the number, and installs an attempt from it that removes the keys 1 to 9.
fn cut_all(alloc: Global, kv: &mut Counts) -> Result<Ended, Fail> {
    let base = kv.number();
    if base >= 1000 {
        return Err("no number is left".into());
    }
    kv.pin(base)?;
    if !kv.is_pinned(base) {
        return Err("nothing was pinned".into());
    }
    let mut cut: Counting = Attempt::new(alloc, base)?;
    cut.cut_range(Name { id: 1 }, Name { id: 9 })?;
    Ok(outcome_of(cut.install(kv)?))
}

/// Whether the store is at a number, with this value of key 7; 0 stands for none.
fn is_at(kv: &Counts, n: u64, value: u64) -> bool {
    kv.number() == n && number(kv.read_at(kv.number(), &SEVEN)) == value
}

/// Whether the second of two attempts on a store conflicts where the first moved the key.
fn conflicts(alloc: Global, n: u64, reads: bool) -> Result<bool, Fail> {
    let mut kv = store(alloc, n)?;
    two(alloc, &mut kv, reads, Err((7, 1, 2)))
}

#[test]
fn conflicts_where_a_key_moved(rt: HostRuntime) -> Result<(), Fail> {
    // The second read a key that moved, or its push fits no longer.
    assert!(rt; conflicts(rt.alloc(), 50, true)? && conflicts(rt.alloc(), 60, false)?);
    Ok(())
}

/// Whether two pushes to the 50 of a store are installed, and then a removal.
fn installs(alloc: Global, kv: &mut Counts) -> Result<bool, Fail> {
    let pushed = two(alloc, kv, false, Ok(3))? && is_at(kv, 3, 56);
    Ok(pushed && cut_all(alloc, kv)? == Ok(4) && is_at(kv, 4, 0))
}

#[test]
fn installs_what_no_read_forbids(rt: HostRuntime) -> Result<(), Fail> {
    let mut kv = store(rt.alloc(), 50)?;
    assert!(rt; installs(rt.alloc(), &mut kv)?);
    Ok(())
}

/// Whether an attempt reads this at key 7; 0 stands for no value.
fn reads(attempt: &mut Counting, kv: &Counts, value: u64) -> Result<bool, OutOfMemory> {
    if !kv.is_pinned(attempt.base()) {
        return Ok(false);
    }
    let read = attempt.read(kv, &SEVEN)?;
    Ok(number(read.as_ref()) == value)
}

/// Whether an attempt shows this at key 7, before and after it is settled.
fn shows(attempt: &mut Counting, kv: &Counts, value: u64) -> Result<bool, OutOfMemory> {
    if !kv.is_pinned(attempt.base()) {
        return Ok(false);
    }
    let before = attempt.peek(kv, &SEVEN)?;
    attempt.settle(kv, &SEVEN)?;
    let after = attempt.peek(kv, &SEVEN)?;
    Ok(number(before.as_ref()) == value && number(after.as_ref()) == value)
}

/// Removes key 7.
fn cut(attempt: &mut Counting) -> Result<(), OutOfMemory> {
    attempt.cut_range(SEVEN, Name { id: 8 })
}

/// Pushes to key 7, removes it, and pushes 5 to it.
fn change(attempt: &mut Counting) -> Result<(), OutOfMemory> {
    attempt.delta(SEVEN, 4)?;
    cut(attempt)?;
    attempt.delta(SEVEN, 5)
}

/// Goes back to a mark.
fn go_back(attempt: &mut Counting, mark: Mark) -> bool {
    let now = attempt.mark();
    if mark.reads > now.reads || mark.changes > now.changes {
        return false;
    }
    attempt.rewind(mark);
    true
}

/// Whether an attempt that pushed 3 to 50 shows a change, and goes back to where it was.
fn is_back(attempt: &mut Counting, kv: &Counts) -> Result<bool, OutOfMemory> {
    let mark = attempt.mark();
    change(attempt)?;
    let changed = mark.reads == 3 && mark.changes == 1 && shows(attempt, kv, 5)?;
    Ok(changed && go_back(attempt, mark) && shows(attempt, kv, 53)?)
}

fn goes_back(alloc: Global, kv: &Counts) -> Result<bool, Fail> {
    let mut attempt = pushing(alloc, kv, true)?;
    Ok(is_back(&mut attempt, kv)?)
}

#[test]
fn goes_back_to_a_mark(rt: HostRuntime) -> Result<(), Fail> {
    let kv = store(rt.alloc(), 50)?;
    assert!(rt; goes_back(rt.alloc(), &kv)?);
    Ok(())
}

/// Whether a push of 4 shows and goes again, and a push of 1 makes `n` of the key.
fn steps(attempt: &mut Counting, kv: &Counts, n: u64) -> Result<bool, OutOfMemory> {
    let mark = attempt.mark();
    attempt.delta(SEVEN, 4)?;
    let far = reads(attempt, kv, n.saturating_add(3))? && go_back(attempt, mark);
    attempt.delta(SEVEN, 1)?;
    Ok(far && reads(attempt, kv, n)?)
}

fn step_all(attempt: &mut Counting, kv: &Counts) -> Result<bool, OutOfMemory> {
    for n in 21..30 {
        if !steps(attempt, kv, n)? {
            return Ok(false);
        }
    }
    Ok(true)
}

/// Whether an attempt with nine pushes of 1 reads 59 from a store that has 50.
fn reads_other(alloc: Global, attempt: &mut Counting) -> Result<bool, Fail> {
    let kv = store(alloc, 50)?;
    Ok(reads(attempt, &kv, 59)?)
}

/// Whether an attempt on a store that has 20 reads each of its pushes, and its removal.
fn reads_all(alloc: Global, attempt: &mut Counting, kv: &Counts) -> Result<bool, Fail> {
    let pushed = step_all(attempt, kv)? && reads_other(alloc, attempt)?;
    cut(attempt)?;
    Ok(pushed && reads(attempt, kv, 0)?)
}

fn reads_changes(alloc: Global, kv: &Counts) -> Result<bool, Fail> {
    let mut attempt = Attempt::new(alloc, 1)?;
    reads_all(alloc, &mut attempt, kv)
}

#[test]
fn a_read_sees_each_change(rt: HostRuntime) -> Result<(), Fail> {
    let kv = store(rt.alloc(), 20)?;
    assert!(rt; reads_changes(rt.alloc(), &kv)?);
    Ok(())
}

/// Whether an attempt finds this where key 7 stands; 0 stands for no value.
fn looks(attempt: &Counting, kv: &Counts, value: u64) -> bool {
    if !kv.is_pinned(attempt.base()) {
        return false;
    }
    match attempt.look(kv, &SEVEN) {
        Some(found) => number(found) == value,
        None => false,
    }
}

/// Pushes 1 to key 7 and settles it.
fn settle_one(attempt: &mut Counting, kv: &Counts) -> Result<bool, OutOfMemory> {
    attempt.delta(SEVEN, 1)?;
    if !kv.is_pinned(attempt.base()) {
        return Ok(false);
    }
    attempt.settle(kv, &SEVEN)?;
    Ok(true)
}

/// Whether an attempt on a store that has 20 finds that, and a push that is settled.
fn looks_all(attempt: &mut Counting, kv: &Counts) -> Result<bool, OutOfMemory> {
    let first = looks(attempt, kv, 20);
    Ok(first && settle_one(attempt, kv)? && looks(attempt, kv, 21))
}

/// Whether an attempt that removes the key finds nothing there.
fn looks_gone(attempt: &mut Counting, kv: &Counts) -> Result<bool, OutOfMemory> {
    cut(attempt)?;
    Ok(looks(attempt, kv, 0))
}

#[test]
fn a_look_finds_what_stands_somewhere(rt: HostRuntime) -> Result<(), Fail> {
    let kv = store(rt.alloc(), 20)?;
    let mut attempt = Attempt::new(rt.alloc(), 1)?;
    assert!(rt; looks_all(&mut attempt, &kv)?);
    Ok(())
}

#[test]
fn a_look_finds_nothing_where_a_key_was_removed(rt: HostRuntime) -> Result<(), Fail> {
    let kv = store(rt.alloc(), 20)?;
    let mut attempt = Attempt::new(rt.alloc(), 1)?;
    assert!(rt; looks_gone(&mut attempt, &kv)?);
    Ok(())
}
