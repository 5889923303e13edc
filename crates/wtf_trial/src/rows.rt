//! Runs of rows over devices in memory.

use crate::devices::{NONE, run_on, run_script, stored, stores};
use crate::wanted::Wanted;
use std::alloc::Global;
use std::test::Fail;
use wtf_dev::{MemStore, Shelf};
use wtf_rows::row::{Row, Run};

/// Adds a transaction that makes `/a` with this text.
fn add_file(wanted: &mut Wanted, alloc: Global, text: &str) -> Result<(), Fail> {
    wanted.add("c0 begin => begun 0\nc0 create /a => ok\nc0 open f0 /a => ok\n")?;
    let write = format!(in alloc; "c0 write f0 t:{text} => ok\nc0 try => committed 1\n")?;
    wanted.add(write.as_str())
}

/// Adds the lines of a row.
fn add_row(wanted: &mut Wanted, alloc: Global, row: &Row) -> Result<(), Fail> {
    if !row.text.is_empty() {
        add_file(wanted, alloc, row.text)?;
    }
    wanted.add(row.lines)
}

/// The script and the output of a row.
pub fn wanted_of(alloc: Global, row: &Row) -> Result<Wanted, Fail> {
    let mut wanted = Wanted::new(alloc, row.start.line)?;
    add_row(&mut wanted, alloc, row)?;
    Ok(wanted)
}

/// Whether a row comes to what it says over these stores.
fn is_as_said(alloc: Global, run: &Run, shelf: &mut Shelf<MemStore>) -> Result<bool, Fail> {
    let wanted = wanted_of(alloc, &run.row)?;
    let script = wanted.script.as_slice();
    let ended = run_on(alloc, run.row.start.words, script, NONE, shelf, &[])?;
    Ok(ended.has(run.status, wanted.output.as_slice()) && stored(shelf) == run.stored)
}

/// Runs a row on empty stores which never fail. Where it comes to something else the failure has its name.
fn check_row(alloc: Global, run: &Run) -> Result<(), Fail> {
    let mut shelf = stores(alloc, 16, 0, None)?;
    if is_as_said(alloc, run, &mut shelf)? {
        return Ok(());
    }
    Err(Fail::from(run.row.name))
}

/// Runs each of these rows.
pub fn check_rows(alloc: Global, rows: &[Run]) -> Result<(), Fail> {
    for run in rows {
        check_row(alloc, run)?;
    }
    Ok(())
}

/// Whether a run over empty stores which never fail ends well with the output that is wanted.
pub fn is_answered(alloc: Global, words: &str, wanted: &Wanted) -> Result<bool, Fail> {
    let ended = run_script(alloc, words, wanted.script.as_slice(), NONE)?;
    Ok(ended.has(0, wanted.output.as_slice()))
}
