//! The calls on slices and those that make a file of others, on files of regions of 64 bytes over
//! stores in memory, with the calls of other crates between them.

use crate::ops::Step;
use crate::steps::all_come;
use crate::store::NEVER;
use std::test::Fail;
use wtf_model::Seek;

#[test]
fn a_slice_is_laid_and_shown(rt: HostRuntime) -> Result<(), Fail> {
    static ROWS: [(Step, &str); 9] = [
        (Step::Open(0, "/a"), "ok"),
        (Step::Write(0, "abcd"), "ok"),
        (Step::Set(0), "ok"),
        (Step::Yank(0, 4, 0), "len 4"),
        (Step::Create("/b"), "ok"),
        (Step::Open(1, "/b"), "ok"),
        (Step::Paste(1, 0), "ok"),
        (Step::Peek(0, 0, 4), "data abcd"),
        (Step::Stat("/b"), "file 4"),
    ];
    all_come(&rt, rt.alloc(), NEVER, 2, &ROWS)
}

#[test]
fn a_slice_keeps_what_it_took(rt: HostRuntime) -> Result<(), Fail> {
    static ROWS: [(Step, &str); 10] = [
        (Step::Open(0, "/a"), "ok"),
        (Step::Write(0, "abcd"), "ok"),
        (Step::Set(0), "ok"),
        (Step::Yank(0, 4, 0), "len 4"),
        (Step::Set(0), "ok"),
        (Step::Write(0, "WXYZ"), "ok"),
        (Step::Peek(0, 1, 2), "data bc"),
        (Step::Set(0), "ok"),
        (Step::Yank(0, 9, 1), "len 4"),
        (Step::Peek(1, 0, 4), "data WXYZ"),
    ];
    all_come(&rt, rt.alloc(), NEVER, 2, &ROWS)
}

#[test]
fn refusals_and_empty_parts(rt: HostRuntime) -> Result<(), Fail> {
    static ROWS: [(Step, &str); 10] = [
        (Step::Open(0, "/a"), "ok"),
        (Step::Write(0, "ab"), "ok"),
        (Step::Copy("/a", "/a"), "refused exists"),
        (Step::Yank(0, 0, 0), "len 0"),
        (Step::Paste(0, 1), "refused noslice"),
        (Step::Peek(0, 0, 1), "refused range"),
        (Step::Close(0), "ok"),
        (Step::Paste(0, 1), "refused nohandle"),
        (Step::Concat("/c", &["/a", "/a", "/a", "/a"]), "ok"),
        (Step::Stat("/c"), "file 8"),
    ];
    all_come(&rt, rt.alloc(), NEVER, 2, &ROWS)
}

#[test]
fn the_first_refusal_is_the_answer(rt: HostRuntime) -> Result<(), Fail> {
    static ROWS: [(Step, &str); 7] = [
        (Step::Concat("/a", &["/q"]), "refused exists"),
        (Step::Concat("/e", &["/a", "/e"]), "refused noent"),
        (Step::Concat("/e", &["/", "/q"]), "refused isdir"),
        (Step::Copy("/q", "/x/y"), "refused noent"),
        (Step::Copy("/a", "/x/y"), "refused noparent"),
        (Step::Glue(0, 1), "refused nohandle"),
        (Step::Cut(1, 0, 0, 2), "refused noslice"),
    ];
    all_come(&rt, rt.alloc(), NEVER, 2, &ROWS)
}

#[test]
fn a_log_of_two_days(rt: HostRuntime) -> Result<(), Fail> {
    static ROWS: [(Step, &str); 14] = [
        (Step::Mkdir("/logs"), "ok"),
        (Step::Create("/logs/mon"), "ok"),
        (Step::Create("/logs/tue"), "ok"),
        (Step::Open(2, "/logs/mon"), "ok"),
        (Step::Write(2, "m1m2"), "ok"),
        (Step::Open(1, "/logs/tue"), "ok"),
        (Step::Write(1, "t1"), "ok"),
        (
            Step::Concat("/logs/week", &["/logs/mon", "/logs/tue"]),
            "ok",
        ),
        (Step::Open(0, "/logs/week"), "ok"),
        (Step::Yank(0, 2, 0), "len 2"),
        (Step::Glue(0, 0), "ok"),
        (Step::Cut(0, 1, 1, 1), "ok"),
        (Step::Peek(1, 0, 1), "data 1"),
        (Step::Read(0, 9), "data m2t1m1"),
    ];
    all_come(&rt, rt.alloc(), NEVER, 2, &ROWS)
}

#[test]
fn a_copy_of_many_regions(rt: HostRuntime) -> Result<(), Fail> {
    static ROWS: [(Step, &str); 9] = [
        (Step::Open(0, "/a"), "ok"),
        (Step::Set(130), "ok"),
        (Step::Write(0, "abcdef"), "ok"),
        (Step::Copy("/a", "/b"), "ok"),
        (Step::Set(130), "ok"),
        (Step::Write(0, "XYZ"), "ok"),
        (Step::Open(1, "/b"), "ok"),
        (Step::Seek(1, Seek::Set(128)), "ok"),
        (Step::Read(1, 9), "data ..abcdef"),
    ];
    all_come(&rt, rt.alloc(), NEVER, 2, &ROWS)
}

#[test]
fn parts_of_many_regions(rt: HostRuntime) -> Result<(), Fail> {
    static ROWS: [(Step, &str); 10] = [
        (Step::Open(0, "/a"), "ok"),
        (Step::Set(130), "ok"),
        (Step::Write(0, "abcdef"), "ok"),
        (Step::Concat("/c", &["/a", "/a"]), "ok"),
        (Step::Open(2, "/c"), "ok"),
        (Step::Seek(2, Seek::Set(130)), "ok"),
        (Step::Yank(2, 900, 3), "len 142"),
        (Step::Cut(3, 3, 137, 3), "ok"),
        (Step::Peek(3, 0, 5), "data def.."),
        (Step::Peek(3, 133, 5), "refused range"),
    ];
    all_come(&rt, rt.alloc(), NEVER, 2, &ROWS)
}

#[test]
fn the_largest_file_takes_no_slice(rt: HostRuntime) -> Result<(), Fail> {
    static ROWS: [(Step, &str); 10] = [
        (Step::Open(0, "/a"), "ok"),
        (Step::Write(0, "x"), "ok"),
        (Step::Set(0), "ok"),
        (Step::Yank(0, 1, 3), "len 1"),
        (Step::Truncate(0, 262_144), "ok"),
        (Step::Concat("/e", &["/a", "/a"]), "refused toobig"),
        (Step::Concat("/e", &["/a", "/a", "/q"]), "refused noent"),
        (Step::Glue(0, 3), "refused toobig"),
        (Step::Set(262_144), "ok"),
        (Step::Paste(0, 3), "refused toobig"),
    ];
    all_come(&rt, rt.alloc(), NEVER, 2, &ROWS)
}

#[test]
fn a_part_that_cannot_be_read(rt: HostRuntime) -> Result<(), Fail> {
    static ROWS: [(Step, &str); 6] = [
        (Step::Open(0, "/a"), "ok"),
        (Step::Write(0, "ab"), "ok"),
        (Step::Set(0), "ok"),
        (Step::Yank(0, 2, 0), "len 2"),
        (Step::Peek(0, 0, 1), "fault read 1"),
        (Step::Peek(0, 0, 1), "data a"),
    ];
    all_come(&rt, rt.alloc(), 1, 2, &ROWS)
}
