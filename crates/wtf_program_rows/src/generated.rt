//! Runs over scripts that are made from a number.

use std::alloc::Global;
use std::test::Fail;
use wtf_trial::devices::{Ended, Failing, NONE, run};

const WORDS: &str = "--gen 7 --lines 20000";

/// What the output of such a run begins with.
const START: &[u8] = b"wtf servers 4 replicas 2 region 65536 number 0\nlines 20000\n";

/// The words of the lines behind that which count answers, in order.
const COUNTED: [&str; 6] = [
    "committed",
    "retry",
    "aborted",
    "installed",
    "refused",
    "other",
];

/// The run, over devices that never fail but for the script that is handed in: any read of it would.
fn whole_run(alloc: Global) -> Result<Ended, Fail> {
    let source = Some(0);
    run(alloc, WORDS, Failing { source, ..NONE })
}

/// The run, where the image cannot be replaced at the end.
fn unsaved_run(alloc: Global) -> Result<Ended, Fail> {
    let keeper = Some(1);
    run(alloc, WORDS, Failing { keeper, ..NONE })
}

/// The run, where the sink fails at one call.
fn unwritten_run(alloc: Global, call: u64) -> Result<Ended, Fail> {
    let sink = Some(call);
    run(alloc, WORDS, Failing { sink, ..NONE })
}

/// The number on a line that has this word; 0 where it is another line.
fn count_on(line: &str, word: &str) -> u64 {
    let Some((first, number)) = line.split_once(' ') else {
        return 0;
    };
    if first != word {
        return 0;
    }
    number.parse().unwrap_or(0)
}

/// What the counts of an output add up to.
fn sum_of(output: &str) -> u64 {
    let mut sum = 0u64;
    for (word, line) in COUNTED.iter().zip(output.split('\n').skip(2)) {
        sum = sum.saturating_add(count_on(line, word));
    }
    sum
}

/// Whether a run wrote the first lines and a summary of all that it was asked.
fn is_summed_up(ended: &Ended) -> bool {
    let output = ended.output.as_slice();
    let sum = str::from_utf8(output).map(sum_of).unwrap_or(0);
    ended.status == 0 && ended.lines() == 9 && output.starts_with(START) && sum == 20_000
}

/// Whether the run comes to the same once more.
fn is_the_same_again(alloc: Global, first: &Ended) -> Result<bool, Fail> {
    let second = whole_run(alloc)?;
    Ok(first.output == second.output && first.kept == second.kept)
}

/// Whether the run has written the same and left no image where the image cannot be replaced.
fn is_written_unsaved(alloc: Global, whole: &Ended) -> Result<bool, Fail> {
    let unsaved = unsaved_run(alloc)?;
    Ok(unsaved.has(5, whole.output.as_slice()) && unsaved.kept.is_empty())
}

/// Whether the run has written so many lines and left no image where the sink fails at a call.
fn is_unwritten(alloc: Global, call: u64, lines: u64) -> Result<bool, Fail> {
    let ended = unwritten_run(alloc, call)?;
    Ok(ended.status == 4 && ended.lines() == lines && ended.kept.is_empty())
}

#[test]
fn a_generated_script_is_summed_up(rt: HostRuntime) -> Result<(), Fail> {
    let ended = whole_run(rt.alloc())?;
    assert!(rt; is_summed_up(&ended));
    Ok(())
}

#[test]
fn the_same_words_give_the_same_summary(rt: HostRuntime) -> Result<(), Fail> {
    let first = whole_run(rt.alloc())?;
    assert!(rt; is_the_same_again(rt.alloc(), &first)?);
    Ok(())
}

/// The summary is written before the tree is saved.
#[test]
fn a_summary_comes_before_the_closing_save(rt: HostRuntime) -> Result<(), Fail> {
    let whole = whole_run(rt.alloc())?;
    assert!(rt; is_written_unsaved(rt.alloc(), &whole)?);
    Ok(())
}

/// Each byte of the first line is a write of its own, the summary is the one behind them, and then what is held back is
/// brought out, before the tree is saved.
#[test]
fn a_summary_is_not_written_where_the_sink_fails(rt: HostRuntime) -> Result<(), Fail> {
    for (call, lines) in [(0, 0), (47, 1), (48, 9)] {
        assert!(rt; is_unwritten(rt.alloc(), call, lines)?, "call {call}");
    }
    Ok(())
}
