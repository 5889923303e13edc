//! Runs over devices of which one call fails.

use crate::told::answers;
use std::alloc::Global;
use std::test::Fail;
use wtf_dev::{MemStore, Shelf, SliceStore};
use wtf_trial::devices::{Failing, NONE, run, run_on, stores};
use wtf_trial::texts::*;

/// The read that fails, the status, and the output. The whole script comes with the first read, and its end with the
/// second.
const READS: [(u64, u8, &[u8]); 3] = [(0, 3, FIRST_LINE), (1, 3, OUTPUT), (2, 0, OUTPUT)];

/// The call of the keeper that fails, the status, and the output: the load, and the replace at the end.
const KEEPS: [(u64, u8, &[u8]); 3] = [(0, 8, b""), (1, 5, FIRST_LINE), (2, 0, FIRST_LINE)];

/// Whether a run of the first script whose source fails at a call comes to what it should.
fn is_unread(alloc: Global, row: &(u64, u8, &[u8])) -> Result<bool, Fail> {
    let source = Some(row.0);
    let ended = run(alloc, "", Failing { source, ..NONE })?;
    Ok(ended.has(row.1, row.2))
}

/// Whether a run of the first script whose sink fails at a call has written the lines before. There are nine calls: each line
/// is one write, and the call behind them brings out what is held back. Where one fails nothing is saved.
fn is_unwritten(alloc: Global, call: u64) -> Result<bool, Fail> {
    let sink = Some(call);
    let ended = run(alloc, "", Failing { sink, ..NONE })?;
    let status = if call < 9 { 4 } else { 0 };
    let written = ended.lines() == call.min(8) && OUTPUT.starts_with(ended.output.as_slice());
    Ok(ended.status == status && written && ended.kept.is_empty() == (call < 9))
}

/// Whether a run with an empty script on the image of an empty store, whose keeper fails at a call, comes to what it should, and
/// the keeper then holds what it held.
fn is_unkept(alloc: Global, row: &(u64, u8, &[u8])) -> Result<bool, Fail> {
    let mut shelf = stores(alloc, 16, 0, None)?;
    let keeper = Some(row.0);
    let failing = Failing { keeper, ..NONE };
    let ended = run_on(alloc, "", &[], failing, &mut shelf, EMPTY_IMAGE)?;
    Ok(ended.has(row.1, row.2) && ended.kept.as_slice() == EMPTY_IMAGE)
}

/// Makes one more call on the store of a server, and says whether it answered.
fn answered(shelf: &mut Shelf<MemStore>, server: u8) -> bool {
    server < shelf.len() && shelf.store(server).sync().is_ok()
}

/// Whether a run made the call of this number on the store of this server: else one of as many more calls is it, and
/// fails.
fn was_made(shelf: &mut Shelf<MemStore>, server: u8, call: u64) -> bool {
    for _ in 0..=call {
        if !answered(shelf, server) {
            return false;
        }
    }
    true
}

/// The status of a script over so many servers, which has to have this output. A failure is another output.
fn status_of(
    alloc: Global,
    servers: u8,
    script: &[u8],
    output: &[u8],
    shelf: &mut Shelf<MemStore>,
) -> Result<u8, Fail> {
    let ended = answers(alloc, servers, script, shelf)?;
    if ended.output.as_slice() == output {
        return Ok(ended.status);
    }
    Err(Fail::from("another output"))
}

/// The status of the first script on four servers, where the store of one fails at one call; `None` where that call was not
/// made.
fn status_of_four(alloc: Global, server: u8, call: u64) -> Result<Option<u8>, Fail> {
    let mut shelf = stores(alloc, 16, server, Some(call))?;
    let status = status_of(alloc, 4, SCRIPT, OUTPUT, &mut shelf)?;
    Ok(if was_made(&mut shelf, server, call) {
        Some(status)
    } else {
        None
    })
}

/// Runs the first script on four servers, with one store failing in each of its calls: how many there are, and the sum
/// of the statuses.
fn fail_in_turn(alloc: Global, server: u8) -> Result<(u64, u64), Fail> {
    let mut statuses = 0u64;
    for call in 0..9u64 {
        let Some(status) = status_of_four(alloc, server, call)? else {
            return Ok((call, statuses));
        };
        statuses = statuses.saturating_add(status as u64);
    }
    Ok((9, statuses))
}

/// The output of the script of three servers, where the store of one fails at one call. Servers 1 and 2 are up in the
/// first write, and an append is the first call of their stores.
fn three_output(server: u8, call: u64) -> &'static [u8] {
    if call == 0 && server != 0 {
        return THREE_UNWRITTEN;
    }
    THREE_OUTPUT
}

/// Runs the script of three servers, where the store of one fails at one call, and answers whether that call was made.
fn fails_in_three(alloc: Global, server: u8, call: u64) -> Result<bool, Fail> {
    let mut shelf = stores(alloc, 16, server, Some(call))?;
    let output = three_output(server, call);
    status_of(alloc, 3, THREE_SCRIPT, output, &mut shelf)?;
    Ok(was_made(&mut shelf, server, call))
}

/// Runs that script with the store of a server failing in each of its calls.
fn fail_all_in_three(alloc: Global, server: u8) -> Result<(), Fail> {
    for call in 0..9u64 {
        if !fails_in_three(alloc, server, call)? {
            return Ok(());
        }
    }
    Ok(())
}

#[test]
fn each_read_of_the_script_fails_once(rt: HostRuntime) -> Result<(), Fail> {
    for row in READS.iter() {
        assert!(rt; is_unread(rt.alloc(), row)?, "read {}", row.0);
    }
    Ok(())
}

#[test]
fn each_write_of_an_answer_fails_once(rt: HostRuntime) -> Result<(), Fail> {
    for call in 0..10u64 {
        assert!(rt; is_unwritten(rt.alloc(), call)?, "write {call}");
    }
    Ok(())
}

#[test]
fn each_call_of_the_keeper_fails_once(rt: HostRuntime) -> Result<(), Fail> {
    for row in KEEPS.iter() {
        assert!(rt; is_unkept(rt.alloc(), row)?, "call {}", row.0);
    }
    Ok(())
}

/// With four servers one store that fails leaves enough for two copies, and the other copy is read in its place. The last
/// call of each store is that of the closing save, and ends the run with status 5; the others are two appends and a read.
#[test]
fn each_call_of_a_store_of_four_fails_once(rt: HostRuntime) -> Result<(), Fail> {
    let mut sum = (0u64, 0u64);
    for server in 0..4u8 {
        let (made, statuses) = fail_in_turn(rt.alloc(), server)?;
        sum = (sum.0.saturating_add(made), sum.1.saturating_add(statuses));
    }
    assert_eq!(rt; sum, (7, 20));
    Ok(())
}

/// With one of three servers down both others are needed for a write, and either one for a read.
#[test]
fn each_call_of_a_store_of_three_fails_once(rt: HostRuntime) -> Result<(), Fail> {
    for server in 0..3u8 {
        fail_all_in_three(rt.alloc(), server)?;
    }
    Ok(())
}
