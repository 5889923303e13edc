//! How many attempts of clients that do not disturb each other ask for a replay: none.

use std::alloc::Global;
use std::test::Fail;
use wtf_trial::devices::{NONE, run_script};

const FILE: &str =
    "c0 begin\nc0 mkdir /d\nc0 create /d/a\nc0 open f0 /d/a\nc0 write f0 t:abc\nc0 try\n";

/// Two clients append to one file at once; the bytes of all rounds fit into one region.
const APPENDS: &str =
    "c0 begin\nc1 begin\nc0 open f0 /d/a\nc1 open f0 /d/a\nc0 append f0 t:x\nc1 append f0 t:y\nc0 try\nc1 try\n";

/// One client reads while another lists, shows and tells, and commits first.
const LOOKS: &str =
    "c0 begin\nc1 begin\nc0 open f0 /d/a\nc0 read f0 3\nc1 list /d\nc1 stat /d/a\nc1 open f0 /d/a\nc1 tell f0\nc1 try\nc0 try\n";

/// Adds so many rounds of this.
fn add_rounds(script: &mut Vec<u8>, round: &str, count: u64) -> Result<(), Fail> {
    for _ in 0..count {
        script.extend_from_slice(round.as_bytes())?;
    }
    Ok(())
}

/// How many attempts ask for a replay, and how many commit, where a file is made and then there are so many rounds of this.
fn attempts(alloc: Global, round: &str, count: u64) -> Result<(u64, u64), Fail> {
    let mut script = FILE.as_bytes().to_vec(alloc)?;
    add_rounds(&mut script, round, count)?;
    attempts_of(alloc, script.as_slice())
}

fn lines_with(output: &str, front: &str) -> u64 {
    output
        .split('\n')
        .filter(|line| line.starts_with(front))
        .count() as u64
}

/// How many attempts of a script ask for a replay, and how many commit.
fn attempts_of(alloc: Global, script: &[u8]) -> Result<(u64, u64), Fail> {
    let ended = run_script(alloc, "", script, NONE)?;
    let output = str::from_utf8(ended.output.as_slice()).unwrap_or("");
    Ok((
        lines_with(output, "retry "),
        lines_with(output, "committed "),
    ))
}

#[test]
fn appends_that_fit_need_no_retry(rt: HostRuntime) -> Result<(), Fail> {
    assert_eq!(rt; attempts(rt.alloc(), APPENDS, 100)?, (0, 201));
    Ok(())
}

#[test]
fn looks_of_others_cost_no_retry(rt: HostRuntime) -> Result<(), Fail> {
    assert_eq!(rt; attempts(rt.alloc(), LOOKS, 50)?, (0, 101));
    Ok(())
}
