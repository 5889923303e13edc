//! Transactions from begin to end, alone and where another one came between.

use crate::bench::{Bench, Verb, is_pinned_after};
use crate::ops::Step;
use crate::store::NEVER;
use std::alloc::Global;
use std::test::Fail;

/// How many rows come as they should of the first transaction, before one that does not.
fn alone(alloc: Global, fails: u64, rows: &[(Verb, &str)]) -> Result<usize, Fail> {
    let mut bench = Bench::new(alloc, fails)?;
    bench.come(rows)
}

/// One has made `/a` with sixty bytes, and a third one that appends four others commits once the
/// next one has begun.
static SIXTY: [(Verb, &str); 8] = [
    (Verb::Call(Step::Create("/a")), "ok"),
    (Verb::Call(Step::Open(0, "/a")), "ok"),
    (
        Verb::Call(Step::Write(
            0,
            "aaaaaaaaaaaaaaaaaaaaaaaaaaaaaaaaaaaaaaaaaaaaaaaaaaaaaaaaaaaa",
        )),
        "ok",
    ),
    (Verb::Commit, "committed 1"),
    (Verb::Next(3), "ok"),
    (Verb::Call(Step::Open(0, "/a")), "ok"),
    (Verb::Call(Step::Append(0, "1234")), "ok"),
    (Verb::Overtake(2), "committed 2"),
];

/// The same with two bytes, and three others.
static TWO: [(Verb, &str); 8] = [
    (Verb::Call(Step::Create("/a")), "ok"),
    (Verb::Call(Step::Open(0, "/a")), "ok"),
    (Verb::Call(Step::Write(0, "ab")), "ok"),
    (Verb::Commit, "committed 1"),
    (Verb::Next(3), "ok"),
    (Verb::Call(Step::Open(0, "/a")), "ok"),
    (Verb::Call(Step::Append(0, "xyz")), "ok"),
    (Verb::Overtake(2), "committed 2"),
];

/// How many rows come as they should behind those before, before one that does not.
fn come_after(
    bench: &mut Bench,
    before: &[(Verb, &str)],
    rows: &[(Verb, &str)],
) -> Result<usize, Fail> {
    if bench.come(before)? < before.len() {
        return Err(Fail::from("the transactions before"));
    }
    bench.come(rows)
}

/// The same on a bench of their own.
fn between(alloc: Global, before: &[(Verb, &str)], rows: &[(Verb, &str)]) -> Result<usize, Fail> {
    let mut bench = Bench::new(alloc, NEVER)?;
    come_after(&mut bench, before, rows)
}

#[test]
fn a_transaction_alone_commits(rt: HostRuntime) -> Result<(), Fail> {
    static ROWS: [(Verb, &str); 11] = [
        (Verb::Call(Step::Mkdir("/d")), "ok"),
        (Verb::Call(Step::Create("/d/a")), "ok"),
        (Verb::Call(Step::Open(0, "/d/a")), "ok"),
        (Verb::Call(Step::Append(0, "abc")), "ok"),
        (Verb::Call(Step::Yank(0, 2, 0)), "len 2"),
        (Verb::Call(Step::Paste(0, 0)), "ok"),
        (Verb::Try, "committed 1"),
        (Verb::Next(2), "ok"),
        (Verb::Call(Step::Stat("/d/a")), "file 4"),
        (Verb::Step, "refused live"),
        (Verb::Commit, "committed 2"),
    ];
    let came = alone(rt.alloc(), NEVER, &ROWS)?;
    assert_eq!(rt; came, 11);
    Ok(())
}

#[test]
fn a_dropped_transaction_pins_nothing(rt: HostRuntime) -> Result<(), Fail> {
    let pinned = is_pinned_after(rt.alloc())?;
    assert!(rt; !pinned);
    Ok(())
}

#[test]
fn a_fault_leaves_the_transaction(rt: HostRuntime) -> Result<(), Fail> {
    static ROWS: [(Verb, &str); 7] = [
        (Verb::Call(Step::Create("/a")), "ok"),
        (Verb::Call(Step::Open(0, "/a")), "ok"),
        (Verb::Call(Step::Write(0, "ab")), "ok"),
        (Verb::Call(Step::Set(0)), "ok"),
        (Verb::Call(Step::Read(0, 2)), "fault read 1"),
        (Verb::Call(Step::Read(0, 2)), "data ab"),
        (Verb::Try, "committed 1"),
    ];
    let came = alone(rt.alloc(), 1, &ROWS)?;
    assert_eq!(rt; came, 7);
    Ok(())
}

#[test]
fn an_append_that_no_longer_fits_is_replayed(rt: HostRuntime) -> Result<(), Fail> {
    static ROWS: [(Verb, &str); 10] = [
        (Verb::Call(Step::Open(0, "/a")), "ok"),
        (Verb::Call(Step::Append(0, "5678")), "ok"),
        (Verb::Try, "retry 1 2"),
        (Verb::Call(Step::Stat("/a")), "refused replaying"),
        (Verb::Step, "replayed 1"),
        (Verb::Step, "replayed 2"),
        (Verb::Step, "refused live"),
        (Verb::Try, "committed 3"),
        (Verb::Next(4), "ok"),
        (Verb::Call(Step::Stat("/a")), "file 68"),
    ];
    let came = between(rt.alloc(), &SIXTY, &ROWS)?;
    assert_eq!(rt; came, 10);
    Ok(())
}

#[test]
fn appends_that_fit_do_not_meet(rt: HostRuntime) -> Result<(), Fail> {
    static ROWS: [(Verb, &str); 6] = [
        (Verb::Call(Step::Open(0, "/a")), "ok"),
        (Verb::Call(Step::Append(0, "cd")), "ok"),
        (Verb::Try, "committed 3"),
        (Verb::Next(4), "ok"),
        (Verb::Call(Step::Open(0, "/a")), "ok"),
        (Verb::Call(Step::Read(0, 9)), "data abxyzcd"),
    ];
    let came = between(rt.alloc(), &TWO, &ROWS)?;
    assert_eq!(rt; came, 6);
    Ok(())
}

#[test]
fn a_writer_and_one_that_appends_do_not_meet(rt: HostRuntime) -> Result<(), Fail> {
    static ROWS: [(Verb, &str); 6] = [
        (Verb::Call(Step::Open(0, "/a")), "ok"),
        (Verb::Call(Step::Write(0, "cd")), "ok"),
        (Verb::Try, "committed 3"),
        (Verb::Next(4), "ok"),
        (Verb::Call(Step::Open(0, "/a")), "ok"),
        (Verb::Call(Step::Read(0, 9)), "data cdxyz"),
    ];
    let came = between(rt.alloc(), &TWO, &ROWS)?;
    assert_eq!(rt; came, 6);
    Ok(())
}

#[test]
fn one_that_read_what_has_changed_is_stopped(rt: HostRuntime) -> Result<(), Fail> {
    static ROWS: [(Verb, &str); 7] = [
        (Verb::Call(Step::Open(0, "/a")), "ok"),
        (Verb::Call(Step::Read(0, 9)), "data ab"),
        (Verb::Try, "retry 1 2"),
        (Verb::Step, "replayed 1"),
        (Verb::Step, "aborted 2 data abxyz"),
        (Verb::Next(4), "ok"),
        (Verb::Commit, "committed 3"),
    ];
    let came = between(rt.alloc(), &TWO, &ROWS)?;
    assert_eq!(rt; came, 7);
    Ok(())
}

#[test]
fn one_that_read_the_same_commits(rt: HostRuntime) -> Result<(), Fail> {
    static ROWS: [(Verb, &str); 11] = [
        (Verb::Call(Step::Open(0, "/a")), "ok"),
        (Verb::Call(Step::Read(0, 2)), "data ab"),
        (Verb::Call(Step::Set(0)), "ok"),
        (Verb::Call(Step::Yank(0, 2, 0)), "len 2"),
        (Verb::Call(Step::Paste(0, 0)), "ok"),
        (Verb::Call(Step::Create("/b")), "ok"),
        (Verb::Commit, "committed 3"),
        (Verb::Next(4), "ok"),
        (Verb::Call(Step::Open(0, "/a")), "ok"),
        (Verb::Call(Step::Read(0, 9)), "data ababz"),
        (Verb::Call(Step::Stat("/b")), "file 0"),
    ];
    let came = between(rt.alloc(), &TWO, &ROWS)?;
    assert_eq!(rt; came, 11);
    Ok(())
}

#[test]
fn a_commit_tells_what_has_changed(rt: HostRuntime) -> Result<(), Fail> {
    static ROWS: [(Verb, &str); 4] = [
        (Verb::Call(Step::Stat("/a")), "file 2"),
        (Verb::Commit, "aborted 1 file 5"),
        (Verb::Next(4), "ok"),
        (Verb::Commit, "committed 3"),
    ];
    let came = between(rt.alloc(), &TWO, &ROWS)?;
    assert_eq!(rt; came, 4);
    Ok(())
}
