//! Runs that collect: a save whose keeper failed, a quiet ending, and quiet endings behind lines that come by chance.

use crate::chance::{ENDING, script_of};
use crate::named::{Span, bytes_on, file_of, held, names_of};
use std::alloc::Global;
use std::test::Fail;
use wtf_dev::{MemStore, Shelf};
use wtf_rows::row::Row;
use wtf_rows::scans::{FAILED_SAVE, WRITTEN_OVER};
use wtf_trial::devices::{Ended, Failing, NONE, run_on, stores};
use wtf_trial::rows::wanted_of;

/// Runs a row, and answers what the keeper then holds.
fn kept_behind(
    alloc: Global,
    row: &Row,
    failing: Failing,
    shelf: &mut Shelf<MemStore>,
) -> Result<Vec<u8>, Fail> {
    let wanted = wanted_of(alloc, row)?;
    let script = wanted.script.as_slice();
    let ended = run_on(alloc, row.start.words, script, failing, shelf, &[])?;
    ended.kept_behind(wanted.output.as_slice())
}

/// The one slice that an image names.
fn only_name(alloc: Global, image: &[u8], shelf: &mut Shelf<MemStore>) -> Result<Span, Fail> {
    let named = names_of(alloc, image, shelf)?;
    if named.len() == 1 {
        return Ok(named.as_slice().get(0).copied().ok_or("no name")?);
    }
    Err(Fail::from("other names"))
}

/// Whether an image names the last four of the eight bytes of one file alone, and the others read as zeros.
fn is_last_half(alloc: Global, image: &[u8], shelf: &mut Shelf<MemStore>) -> Result<bool, Fail> {
    let only = only_name(alloc, image, shelf)?;
    let whole = file_of(alloc, shelf, 0, only.file)?;
    let is = (only.from, only.to, held(shelf, 0)) == (4, 8, 8);
    Ok(is && whole.as_slice() == b"\x00\x00\x00\x00WXYZ".as_slice())
}

/// The keeper fails at its call 2, so either image may be on it.
#[test]
fn a_replace_that_failed_keeps_both_images(rt: HostRuntime) -> Result<(), Fail> {
    let keeper = Some(2);
    let mut shelf = stores(rt.alloc(), 16, 0, None)?;
    kept_behind(
        rt.alloc(),
        &FAILED_SAVE,
        Failing { keeper, ..NONE },
        &mut shelf,
    )?;
    Ok(())
}

/// The bytes that the image does not name read as zeros, and the others stand.
#[test]
fn a_quiet_ending_leaves_what_the_image_names(rt: HostRuntime) -> Result<(), Fail> {
    let mut shelf = stores(rt.alloc(), 16, 0, None)?;
    let image = kept_behind(rt.alloc(), &WRITTEN_OVER.row, NONE, &mut shelf)?;
    assert!(rt; is_last_half(rt.alloc(), image.as_slice(), &mut shelf)?);
    Ok(())
}

// ---- what was freed, and what is left

/// The bytes that an answer says were freed.
fn collected(answer: &str) -> u64 {
    match answer.strip_prefix("collected ") {
        Some(n) => n.parse().unwrap_or(0),
        None => 0,
    }
}

/// The sum of what a line was answered to have freed, wherever it stands. The output has the settings before the answers.
fn freed_by(script: &str, output: &str, asked: &str) -> u64 {
    let mut sum = 0u64;
    for (line, answer) in script.split('\n').zip(output.split('\n').skip(1)) {
        if line == asked {
            sum = sum.saturating_add(collected(answer));
        }
    }
    sum
}

/// The sums of both servers.
fn freed(script: &str, output: &str) -> (u64, u64) {
    (
        freed_by(script, output, "sys collect 0"),
        freed_by(script, output, "sys collect 1"),
    )
}

/// What the tree and the files were shown to be. Only the last lines ask for the tree.
fn shown(output: &str) -> &str {
    match output.split_once("\ntree ") {
        Some((_, rest)) => rest,
        None => "",
    }
}

fn text(bytes: &[u8]) -> &str {
    str::from_utf8(bytes).unwrap_or("")
}

/// How many bytes of each of the two servers an image does not name.
fn unnamed(alloc: Global, image: &[u8], shelf: &mut Shelf<MemStore>) -> Result<(u64, u64), Fail> {
    let named = names_of(alloc, image, shelf)?;
    let (first, second) = (bytes_on(named.as_slice(), 0), bytes_on(named.as_slice(), 1));
    Ok((
        held(shelf, 0).saturating_sub(first),
        held(shelf, 1).saturating_sub(second),
    ))
}

/// Whether both runs end well, and show the same tree and bytes.
fn show_the_same(first: &Ended, later: &Ended) -> bool {
    let once = shown(text(first.output.as_slice()));
    let again = shown(text(later.output.as_slice()));
    first.status == 0 && later.status == 0 && !once.is_empty() && once == again
}

/// Whether a quiet ending alone, from the image that a run of this script left, frees again all that the image does not name, as
/// the run did once.
fn is_freed_again(
    alloc: Global,
    script: &[u8],
    first: &Ended,
    shelf: &mut Shelf<MemStore>,
) -> Result<bool, Fail> {
    let image = first.kept.as_slice();
    let later = run_on(alloc, "", ENDING.as_bytes(), NONE, shelf, image)?;
    let unnamed = unnamed(alloc, image, shelf)?;
    let once = freed(text(script), text(first.output.as_slice()));
    let again = freed(ENDING, text(later.output.as_slice()));
    Ok(show_the_same(first, &later) && once == unnamed && again == unnamed)
}

/// The same of the script of a number, over these two stores.
fn is_quiet_on(alloc: Global, number: u64, shelf: &mut Shelf<MemStore>) -> Result<bool, Fail> {
    let script = script_of(alloc, number)?;
    let first = run_on(alloc, "--servers 2", script.as_slice(), NONE, shelf, &[])?;
    is_freed_again(alloc, script.as_slice(), &first, shelf)
}

fn is_quiet(alloc: Global, number: u64) -> Result<bool, Fail> {
    let mut shelf = stores(alloc, 2, 0, None)?;
    is_quiet_on(alloc, number, &mut shelf)
}

/// Two hundred scripts of writes, unlinks, jobs, scans and collections over two servers. All that the image does not name was
/// freed once by the first run, and all of it again by the other, which begins with nothing freed.
#[test]
fn a_quiet_ending_frees_what_no_image_names(rt: HostRuntime) -> Result<(), Fail> {
    for number in 0..200u64 {
        assert!(rt; is_quiet(rt.alloc(), number)?, "{number}");
    }
    Ok(())
}
