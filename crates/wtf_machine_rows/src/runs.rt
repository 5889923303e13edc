//! Whole runs of a machine.

use crate::asked::{Asked, first_wrong};
use crate::refused::{CALLS, COMMITS, JOBS_AND_SCANS};
use std::alloc::Global;
use std::test::Fail;
use wtf_rows::clients::CLIENTS;
use wtf_rows::examples::EXAMPLES;
use wtf_rows::files::FILES;
use wtf_rows::jobs::{JOBS, MORE_JOBS};
use wtf_rows::links::LINKS;
use wtf_rows::row::{DEFAULTS, Row, Run, Start};
use wtf_rows::scans::{FAILED_SAVE, SCANS};
use wtf_rows::slices::SLICES;

/// No row, and no line of one.
const NONE: (&str, usize) = ("", 0);

/// A machine that begins with the number of installs of an image.
const LATER: [Row; 1] = [Row {
    name: "after seven installs",
    start: Start {
        words: "",
        line: "wtf servers 4 replicas 2 region 65536 number 7\n",
        servers: 4,
        replicas: 2,
        region: 65_536,
        number: 7,
    },
    text: "",
    lines: "c0 begin => begun 7
c0 create /a => ok
c0 try => committed 8
sys save => saved 8
",
}];

/// The first of these rows that is not as it says, and the number of its line; no name and 0 where there is none.
fn first_failed(alloc: Global, rows: &[Row]) -> Result<(&'static str, usize), Fail> {
    for row in rows {
        let line = first_wrong(alloc, row)?;
        if line != 0 {
            return Ok((row.name, line));
        }
    }
    Ok(("", 0))
}

/// The same of rows that are run too.
fn first_failed_run(alloc: Global, runs: &[Run]) -> Result<(&'static str, usize), Fail> {
    for run in runs {
        let line = first_wrong(alloc, &run.row)?;
        if line != 0 {
            return Ok((run.row.name, line));
        }
    }
    Ok(("", 0))
}

/// Whether a log has room for 4,096 calls, refused ones counted, and for no more.
fn is_full_in_time(alloc: Global) -> Result<bool, Fail> {
    let mut asked = Asked::new(alloc, DEFAULTS)?;
    let mut right = asked.may("c0 begin", "begun 0")?;
    for _ in 0..4_096u16 {
        right = right && asked.may("c0 tell f0", "refused nohandle")?;
    }
    let full =
        "c0 tell f0 =/> refused nohandle\nc0 tell f0 => refused full\nc0 try => committed 1\n";
    Ok(right && asked.first_wrong(full)? == 0)
}

#[test]
fn files_are_as_the_rows_say(rt: HostRuntime) -> Result<(), Fail> {
    assert_eq!(rt; first_failed_run(rt.alloc(), &FILES)?, NONE);
    assert_eq!(rt; first_failed(rt.alloc(), &LATER)?, NONE);
    Ok(())
}

#[test]
fn clients_are_as_the_rows_say(rt: HostRuntime) -> Result<(), Fail> {
    assert_eq!(rt; first_failed_run(rt.alloc(), &CLIENTS)?, NONE);
    Ok(())
}

#[test]
fn slices_are_as_the_rows_say(rt: HostRuntime) -> Result<(), Fail> {
    assert_eq!(rt; first_failed_run(rt.alloc(), &SLICES)?, NONE);
    Ok(())
}

#[test]
fn links_are_as_the_rows_say(rt: HostRuntime) -> Result<(), Fail> {
    assert_eq!(rt; first_failed_run(rt.alloc(), &LINKS)?, NONE);
    Ok(())
}

#[test]
fn examples_are_as_the_rows_say(rt: HostRuntime) -> Result<(), Fail> {
    assert_eq!(rt; first_failed_run(rt.alloc(), &EXAMPLES)?, NONE);
    Ok(())
}

#[test]
fn jobs_are_as_the_rows_say(rt: HostRuntime) -> Result<(), Fail> {
    assert_eq!(rt; first_failed_run(rt.alloc(), &JOBS)?, NONE);
    assert_eq!(rt; first_failed_run(rt.alloc(), &MORE_JOBS)?, NONE);
    Ok(())
}

#[test]
fn scans_are_as_the_rows_say(rt: HostRuntime) -> Result<(), Fail> {
    assert_eq!(rt; first_failed_run(rt.alloc(), &SCANS)?, NONE);
    assert_eq!(rt; first_failed(rt.alloc(), &[FAILED_SAVE])?, NONE);
    Ok(())
}

#[test]
fn commits_that_are_not_due_are_refused(rt: HostRuntime) -> Result<(), Fail> {
    assert_eq!(rt; first_failed(rt.alloc(), &COMMITS)?, NONE);
    Ok(())
}

#[test]
fn answers_that_are_not_due_are_refused(rt: HostRuntime) -> Result<(), Fail> {
    assert_eq!(rt; first_failed(rt.alloc(), &CALLS)?, NONE);
    Ok(())
}

#[test]
fn jobs_and_scans_that_are_not_due_are_refused(rt: HostRuntime) -> Result<(), Fail> {
    assert_eq!(rt; first_failed(rt.alloc(), &JOBS_AND_SCANS)?, NONE);
    Ok(())
}

#[test]
fn a_log_is_full_in_time(rt: HostRuntime) -> Result<(), Fail> {
    assert!(rt; is_full_in_time(rt.alloc())?);
    Ok(())
}
