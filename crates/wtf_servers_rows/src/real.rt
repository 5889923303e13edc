//! Each device over real files, and over readers and writers that fail.

use std::alloc::Global;
use std::cell::RefCell;
use std::fs::{self, File, OpenOptions};
use std::io::{self, Read, Write};
use std::os::unix::fs::symlink;
use std::{env, process};
use wtf_dev::{Failed, Keeper, LoadFault, Sink, SliceStore, Source};
use wtf_real::{
    DirStore, FileKeeper, FileSource, FolderLock, ImageFiles, ImageKeeper, InSource, OpenFault,
    OutSink, SliceFile, StandIns, streams,
};

/// What was written and when it was read, in order.
pub(crate) type Log = RefCell<Vec<u8>>;

pub(crate) fn new_log(alloc: Global) -> Log {
    RefCell::new(Vec::new(alloc))
}

pub(crate) fn other() -> io::Error {
    io::Error::from(io::ErrorKind::Other)
}

pub(crate) fn note(log: &Log, bytes: &[u8]) -> io::Result<()> {
    match log.try_borrow_mut() {
        Ok(mut all) => Ok(all.extend_from_slice(bytes)?),
        Err(_) => Err(other()),
    }
}

pub(crate) fn is_noted(log: &Log, wanted: &[u8]) -> bool {
    match log.try_borrow() {
        Ok(all) => all.as_slice() == wanted,
        Err(_) => false,
    }
}

/// Gives one byte a call, so many of them, and then fails or is at its end.
#[derive(Drop)]
struct Slow<'a> {
    log: &'a Log,
    left: u8,
    fails: bool,
}

impl<'a> Read for Slow<'a> {
    fn read(&mut self, buf: &mut [u8]) -> io::Result<usize> {
        note(self.log, b"|")?;
        if self.left == 0 && self.fails {
            return Err(other());
        }
        if self.left == 0 || buf.is_empty() {
            return Ok(0);
        }
        self.left -= 1;
        Ok(1)
    }
}

/// Takes at most so many bytes a call.
#[derive(Drop)]
struct Short<'a> {
    log: &'a Log,
    most: usize,
}

impl<'a> Write for Short<'a> {
    fn write(&mut self, buf: &[u8]) -> io::Result<usize> {
        let n = buf.len().min(self.most);
        note(self.log, &buf[..n])?;
        Ok(n)
    }

    fn flush(&mut self) -> io::Result<()> {
        Ok(())
    }
}

/// A source of so many bytes beside a sink that takes at most so many a call.
fn short_streams<'a>(
    alloc: Global,
    from: Slow<'a>,
    most: usize,
) -> Result<(InSource<Slow<'a>, Short<'a>>, OutSink<Short<'a>>), OpenFault> {
    let log = from.log;
    streams(alloc, from, Short { log, most })
}

/// A sink on a full disk, whose source notes when it is asked.
fn full(rt: &HostRuntime, log: &Log) -> Option<OutSink<File>> {
    let to = OpenOptions::new().write(true).open(rt, "/dev/full").ok()?;
    let from = Slow {
        log,
        left: 1,
        fails: false,
    };
    let (_, sink) = streams(rt.alloc(), from, to).ok()?;
    Some(sink)
}

/// Whether a sink takes so many of these bytes, or fails.
fn says<W: Write + Drop>(sink: &mut OutSink<W>, bytes: &[u8], want: Result<usize, Failed>) -> bool {
    sink.write(bytes) == want
}

/// Whether a source that is asked for four bytes gives so many, or fails.
fn hears(source: &mut InSource<Slow<'_>, Short<'_>>, want: Result<usize, Failed>) -> bool {
    source.read(&mut [0u8; 4]) == want
}

fn ends<W: Write + Drop>(sink: &mut OutSink<W>, want: Result<(), Failed>) -> bool {
    sink.finish() == want
}

/// Whether bytes are said, two are heard, and one more is said.
fn begins(source: &mut InSource<Slow<'_>, Short<'_>>, sink: &mut OutSink<Short<'_>>) -> bool {
    says(sink, b"abcd", Ok(4))
        && says(sink, b"e", Ok(1))
        && hears(source, Ok(1))
        && hears(source, Ok(1))
        && says(sink, b"f", Ok(1))
}

/// Whether this is heard last, one more byte is said, and the sink ends twice.
fn closes(
    source: &mut InSource<Slow<'_>, Short<'_>>,
    sink: &mut OutSink<Short<'_>>,
    last: Result<usize, Failed>,
) -> bool {
    hears(source, last) && says(sink, b"g", Ok(1)) && ends(sink, Ok(())) && ends(sink, Ok(()))
}

/// Whether answers are out before the next read where this is heard last.
fn are_in_order(alloc: Global, log: &Log, fails: bool, last: Result<usize, Failed>) -> bool {
    let from = Slow {
        log,
        left: 2,
        fails,
    };
    let Ok((mut source, mut sink)) = short_streams(alloc, from, 3) else {
        return false;
    };
    begins(&mut source, &mut sink)
        && closes(&mut source, &mut sink, last)
        && is_noted(log, b"abcde||f|g")
}

/// Whether answers are out before the next read, be there an end or a failure.
fn are_out(alloc: Global) -> bool {
    are_in_order(alloc, &new_log(alloc), false, Ok(0))
        && are_in_order(alloc, &new_log(alloc), true, Err(Failed))
}

/// What is written is held back until the next read, and the end.
#[test]
fn answers_are_out_before_the_next_read(rt: HostRuntime) {
    assert!(rt; are_out(rt.alloc()));
}

/// Whether what is not out is told, by a read and by what follows it.
fn tells_each_failure(
    source: &mut InSource<Slow<'_>, Short<'_>>,
    sink: &mut OutSink<Short<'_>>,
) -> bool {
    says(sink, b"ab", Ok(2))
        && hears(source, Err(Failed))
        && says(sink, b"cd", Err(Failed))
        && ends(sink, Err(Failed))
}

/// Whether a writer that takes nothing is told, and nothing is read.
fn is_told(alloc: Global, log: &Log) -> bool {
    let from = Slow {
        log,
        left: 1,
        fails: false,
    };
    let Ok((mut source, mut sink)) = short_streams(alloc, from, 0) else {
        return false;
    };
    tells_each_failure(&mut source, &mut sink) && is_noted(log, b"")
}

/// A writer that takes nothing: what is not out is a failure of the sink, also where a read comes first, and nothing is read.
#[test]
fn a_write_that_fails_is_told(rt: HostRuntime) {
    assert!(rt; is_told(rt.alloc(), &new_log(rt.alloc())));
}

/// Whether so many bytes are held back, one more is not, and nothing is read.
fn overflows(rt: &HostRuntime, log: &Log, much: &[u8]) -> bool {
    let Some(mut sink) = full(rt, log) else {
        return false;
    };
    says(&mut sink, much, Ok(65_536))
        && says(&mut sink, b"a", Err(Failed))
        && ends(&mut sink, Err(Failed))
        && is_noted(log, b"")
}

/// Whether more bytes than a sink on a full disk holds back are told.
fn full_disk_is_told(rt: &HostRuntime) -> bool {
    let Ok(much) = vec![in rt.alloc(); b'a'; 65_537] else {
        return false;
    };
    overflows(rt, &new_log(rt.alloc()), much.as_slice())
}

#[test]
fn a_full_disk_is_told(rt: HostRuntime) {
    assert!(rt; full_disk_is_told(&rt));
}

/// The path of a folder of the test's own, where nothing stands.
pub(crate) fn fresh(rt: &HostRuntime, name: &str) -> io::Result<String> {
    let top = env::temp_dir(rt)?;
    let id = process::id(rt.process());
    let path = format!(in rt.alloc(); "{}/wtf_real_{id}_{name}", top.as_str())?;
    let _ = fs::remove_dir_all(rt, path.as_str());
    Ok(path)
}

/// Whether the folder of a test is taken away.
pub(crate) fn clears(rt: &HostRuntime, path: &str) -> bool {
    fs::remove_dir_all(rt, path).is_ok()
}

/// What lies at a path behind that of a folder.
fn below(rt: &HostRuntime, folder: &str, path: &str) -> Result<String, OpenFault> {
    match format!(in rt.alloc(); "{folder}/{path}") {
        Ok(path) => Ok(path),
        Err(_) => Err(OpenFault::Memory),
    }
}

/// Whether a folder behind that of a path is made.
fn makes(rt: &HostRuntime, folder: &str, path: &str) -> bool {
    let Ok(path) = below(rt, folder, path) else {
        return false;
    };
    fs::create_dir_all(rt, path.as_str()).is_ok()
}

/// Whether a file of this text behind the folder of a path is written.
fn writes(rt: &HostRuntime, folder: &str, path: &str, text: &str) -> bool {
    let Ok(path) = below(rt, folder, path) else {
        return false;
    };
    fs::write(rt, path.as_str(), text).is_ok()
}

/// Whether a link to a full disk behind the folder of a path is made.
fn fills(rt: &HostRuntime, folder: &str, path: &str) -> bool {
    let Ok(path) = below(rt, folder, path) else {
        return false;
    };
    symlink(rt, "/dev/full", path.as_str()).is_ok()
}

pub(crate) fn hold(rt: &HostRuntime, folder: &str) -> Result<FolderLock<File>, OpenFault> {
    let standing = StandIns::open(rt)?;
    FolderLock::open(rt, &standing, folder)
}

/// Whether a folder could be held, and is let go again.
fn is_free(rt: &HostRuntime, folder: &str) -> bool {
    hold(rt, folder).is_ok()
}

/// Whether a folder could not be held.
fn is_refused(rt: &HostRuntime, folder: &str) -> bool {
    matches!(hold(rt, folder), Err(OpenFault::Failed))
}

/// Whether what lies behind the folder of a path could not be held.
fn is_refused_below(rt: &HostRuntime, folder: &str, path: &str) -> bool {
    let Ok(path) = below(rt, folder, path) else {
        return false;
    };
    is_refused(rt, path.as_str())
}

/// A folder that is held, and the store of a server in it.
fn store(
    rt: &HostRuntime,
    folder: &str,
    server: u8,
) -> Result<(FolderLock<File>, DirStore<File>), OpenFault> {
    let lock = hold(rt, folder)?;
    let store = DirStore::open(rt, &lock, server)?;
    Ok((lock, store))
}

/// Whether the store of a server could not be opened.
fn is_no_store(rt: &HostRuntime, lock: &FolderLock<File>, server: u8) -> bool {
    matches!(DirStore::open(rt, lock, server), Err(OpenFault::Failed))
}

/// Whether bytes are put behind a file from this place on, or fail to be.
pub(crate) fn appends<F: SliceFile + Drop>(
    store: &mut DirStore<F>,
    file: u8,
    bytes: &[u8],
    want: Result<u64, Failed>,
) -> bool {
    file < 8 && store.append(file, bytes) == want
}

fn has_length(store: &DirStore<File>, file: u8, want: u64) -> bool {
    file < 8 && store.length(file) == want
}

/// Whether bytes of a file, from a place on, are read into `out`.
fn reads(store: &mut DirStore<File>, file: u8, at: u64, out: &mut [u8]) -> bool {
    if file >= 8 {
        return false;
    }
    let all = store.length(file);
    let len = out.len() as u64;
    if len > all || at > all - len {
        return false;
    }
    store.read(file, at, out) == Ok(())
}

/// Whether these four bytes stand in a file from a place on.
fn shows(store: &mut DirStore<File>, file: u8, at: u64, want: &[u8; 4]) -> bool {
    let mut out = [0u8; 4];
    reads(store, file, at, &mut out) && out == *want
}

fn punches(store: &mut DirStore<File>, file: u8, at: u64, len: u64) -> bool {
    if file >= 8 {
        return false;
    }
    let all = store.length(file);
    if len > all || at > all - len {
        return false;
    }
    store.punch(file, at, len) == Ok(())
}

pub(crate) fn syncs<F: SliceFile + Drop>(
    store: &mut DirStore<F>,
    want: Result<(), Failed>,
) -> bool {
    store.sync() == want
}

/// Whether a folder is held once at a time, and is free again when it was let go.
fn is_held_once(rt: &HostRuntime, path: &str) -> bool {
    let Ok(first) = hold(rt, path) else {
        return false;
    };
    let refused = is_refused(rt, path);
    drop(first);
    refused && is_free(rt, path)
}

/// Whether a store takes what is appended, and frees a part of it.
fn takes_all(store: &mut DirStore<File>) -> bool {
    appends(store, 3, b"abcd", Ok(0))
        && appends(store, 3, b"ef", Ok(4))
        && appends(store, 7, b"x", Ok(0))
        && shows(store, 3, 2, b"cdef")
        && punches(store, 3, 1, 2)
        && syncs(store, Ok(()))
}

/// Whether another store of a folder finds what one appended, and appends to it.
fn finds_all(rt: &HostRuntime, lock: &FolderLock<File>) -> bool {
    let Ok(mut store) = DirStore::open(rt, lock, 0) else {
        return false;
    };
    has_length(&store, 0, 0)
        && has_length(&store, 7, 1)
        && has_length(&store, 3, 6)
        && shows(&mut store, 3, 0, b"a\0\0d")
        && appends(&mut store, 3, b"g", Ok(6))
}

/// Whether a folder holds what was appended.
fn holds_all(rt: &HostRuntime, folder: &str) -> bool {
    let Ok((lock, mut store)) = store(rt, folder, 0) else {
        return false;
    };
    takes_all(&mut store) && finds_all(rt, &lock)
}

/// Whether the folder `a/b` below a path holds what was appended.
fn holds_all_below(rt: &HostRuntime, path: &str) -> bool {
    let Ok(folder) = below(rt, path, "a/b") else {
        return false;
    };
    holds_all(rt, folder.as_str())
}

fn are_zeros(bytes: &[u8]) -> bool {
    for b in bytes {
        if *b != 0 {
            return false;
        }
    }
    true
}

/// Whether there are so many bytes, a kept one at each end, and zeros between them.
fn is_hollow(bytes: &[u8], len: usize) -> bool {
    len >= 2
        && bytes.len() == len
        && bytes[0] == b'a'
        && bytes[len - 1] == b'a'
        && are_zeros(&bytes[1..len - 1])
}

/// Whether a long range of zeros is punched into a file of these bytes, and read back.
fn hollows(rt: &HostRuntime, path: &str, all: &mut [u8]) -> bool {
    let Ok((_lock, mut store)) = store(rt, path, 0) else {
        return false;
    };
    appends(&mut store, 5, all, Ok(0))
        && punches(&mut store, 5, 1, 39_998)
        && reads(&mut store, 5, 0, all)
        && is_hollow(all, 40_000)
}

/// Whether a long range of zeros is punched; it is written in parts.
fn long_range_is_punched(rt: &HostRuntime, path: &str) -> bool {
    let Ok(mut all) = vec![in rt.alloc(); b'a'; 40_000] else {
        return false;
    };
    hollows(rt, path, &mut all)
}

/// Whether a folder below a file, a file in the place of a folder, and a folder in the place of a file are told.
fn tells_what_is_in_the_way(rt: &HostRuntime, path: &str) -> bool {
    let Ok(lock) = hold(rt, path) else {
        return false;
    };
    writes(rt, path, "s0", "a")
        && is_refused_below(rt, path, "s0")
        && is_refused_below(rt, path, "s0/a")
        && makes(rt, path, "s1/4")
        && is_no_store(rt, &lock, 0)
        && is_no_store(rt, &lock, 1)
}

/// Whether file 5 of server 2, on a full disk, takes nothing, and file 4 does.
fn tells_a_full_file(rt: &HostRuntime, path: &str) -> bool {
    let Ok((_lock, mut store)) = store(rt, path, 2) else {
        return false;
    };
    appends(&mut store, 5, b"ab", Err(Failed))
        && has_length(&store, 5, 0)
        && has_length(&store, 4, 0)
        && appends(&mut store, 4, b"ab", Ok(0))
}

/// Whether an append to a file on a full disk is told.
fn full_file_is_told(rt: &HostRuntime, path: &str) -> bool {
    makes(rt, path, "s2") && fills(rt, path, "s2/5") && tells_a_full_file(rt, path)
}

/// Whether the keeper of a folder could not be opened.
fn is_no_keeper(rt: &HostRuntime, lock: &FolderLock<File>) -> bool {
    matches!(FileKeeper::open(rt, lock), Err(OpenFault::Failed))
}

/// Whether these bytes are what a keeper has.
fn has(rt: &HostRuntime, keeper: &mut FileKeeper<HostRuntime>, wanted: &[u8]) -> bool {
    match keeper.load(rt.alloc()) {
        Ok(bytes) => bytes.as_slice() == wanted,
        Err(_) => false,
    }
}

/// Whether a keeper could not load its image.
fn is_unread(rt: &HostRuntime, keeper: &mut FileKeeper<HostRuntime>) -> bool {
    matches!(keeper.load(rt.alloc()), Err(LoadFault::Failed))
}

pub(crate) fn replaces<D: ImageFiles>(
    keeper: &mut ImageKeeper<D>,
    bytes: &[u8],
    want: Result<(), Failed>,
) -> bool {
    keeper.replace(bytes) == want
}

/// A folder that is held, and its keeper.
fn keeper(
    rt: &HostRuntime,
    folder: &str,
) -> Result<(FolderLock<File>, FileKeeper<HostRuntime>), OpenFault> {
    let lock = hold(rt, folder)?;
    let keeper = FileKeeper::open(rt, &lock)?;
    Ok((lock, keeper))
}

/// Whether another keeper of a folder has the image, and keeps it when the disk is full.
fn keeps_image(rt: &HostRuntime, path: &str, lock: &FolderLock<File>) -> bool {
    let Ok(mut keeper) = FileKeeper::open(rt, lock) else {
        return false;
    };
    has(rt, &mut keeper, b"image")
        && fills(rt, path, "image.new")
        && replaces(&mut keeper, b"lost", Err(Failed))
}

/// Whether an image takes the place of another, and stays when a third one fails to.
fn is_replaced(rt: &HostRuntime, path: &str) -> bool {
    let Ok((lock, mut first)) = keeper(rt, path) else {
        return false;
    };
    has(rt, &mut first, b"")
        && replaces(&mut first, b"old", Ok(()))
        && replaces(&mut first, b"image", Ok(()))
        && keeps_image(rt, path, &lock)
        && has(rt, &mut first, b"image")
}

/// Whether a folder in the place of an image is told, and that the folder of an image is missing; that one is made again.
fn tells_no_image(rt: &HostRuntime, path: &str) -> bool {
    let Ok((lock, mut first)) = keeper(rt, path) else {
        return false;
    };
    makes(rt, path, "image")
        && is_unread(rt, &mut first)
        && is_no_keeper(rt, &lock)
        && clears(rt, path)
        && is_no_keeper(rt, &lock)
        && makes(rt, path, "image")
}

/// The source of a file behind the folder of a path.
fn source(rt: &HostRuntime, folder: &str, path: &str) -> Result<FileSource<File>, OpenFault> {
    let path = below(rt, folder, path)?;
    FileSource::open(rt, path.as_str())
}

/// Whether there is no source behind the folder of a path.
fn is_no_source(rt: &HostRuntime, folder: &str, path: &str) -> bool {
    matches!(source(rt, folder, path), Err(OpenFault::Failed))
}

/// Whether a source that is asked for four bytes gives these.
fn gives(source: &mut FileSource<File>, want: &[u8]) -> bool {
    let mut out = [0u8; 4];
    match source.read(&mut out) {
        Ok(n) => &out[..n] == want,
        Err(_) => false,
    }
}

/// Whether a file gives its six bytes, and then nothing.
fn gives_six(rt: &HostRuntime, path: &str) -> bool {
    let Ok(mut six) = source(rt, path, "six") else {
        return false;
    };
    gives(&mut six, b"abcd") && gives(&mut six, b"ef") && gives(&mut six, b"")
}

/// Whether a folder is not read.
fn is_not_read(rt: &HostRuntime, path: &str) -> bool {
    let Ok(mut folder) = source(rt, path, "folder") else {
        return false;
    };
    folder.read(&mut [0u8; 4]) == Err(Failed)
}

/// Whether what was written to a file is read back whole, and then nothing; a file that is missing is no source, and one that
/// is a folder is not read.
fn files_are_read(rt: &HostRuntime, path: &str) -> bool {
    makes(rt, path, "folder")
        && writes(rt, path, "six", "abcdef")
        && gives_six(rt, path)
        && is_no_source(rt, path, "none")
        && is_not_read(rt, path)
}

/// What is tried in a folder of the test's own.
#[derive(Clone, Copy)]
enum Case {
    Lock,
    Store,
    Long,
    Bad,
    Full,
    Image,
    NoImage,
    File,
}

/// Whether a case holds in a folder.
fn holds_in(rt: &HostRuntime, path: &str, case: Case) -> bool {
    match case {
        Case::Lock => is_held_once(rt, path),
        Case::Store => holds_all_below(rt, path),
        Case::Long => long_range_is_punched(rt, path),
        Case::Bad => tells_what_is_in_the_way(rt, path),
        Case::Full => full_file_is_told(rt, path),
        Case::Image => is_replaced(rt, path),
        Case::NoImage => tells_no_image(rt, path),
        Case::File => files_are_read(rt, path),
    }
}

/// Whether a case holds in a folder of this name, which is then taken away.
fn holds(rt: &HostRuntime, name: &str, case: Case) -> bool {
    let Ok(path) = fresh(rt, name) else {
        return false;
    };
    holds_in(rt, path.as_str(), case) && clears(rt, path.as_str())
}

/// One folder is held once at a time, and is free again when it was let go.
#[test]
fn a_folder_is_held_once(rt: HostRuntime) {
    assert!(rt; holds(&rt, "lock", Case::Lock));
}

#[test]
fn a_folder_holds_what_was_appended(rt: HostRuntime) {
    assert!(rt; holds(&rt, "folder", Case::Store));
}

#[test]
fn a_long_range_is_punched(rt: HostRuntime) {
    assert!(rt; holds(&rt, "long", Case::Long));
}

#[test]
fn a_folder_that_fails_is_told(rt: HostRuntime) {
    assert!(rt; holds(&rt, "bad", Case::Bad));
}

#[test]
fn an_append_that_fails_is_told(rt: HostRuntime) {
    assert!(rt; holds(&rt, "full", Case::Full));
}

#[test]
fn an_image_is_replaced_whole(rt: HostRuntime) {
    assert!(rt; holds(&rt, "image", Case::Image));
}

#[test]
fn an_image_that_fails_is_told(rt: HostRuntime) {
    assert!(rt; holds(&rt, "none", Case::NoImage));
}

#[test]
fn a_file_gives_what_was_written(rt: HostRuntime) {
    assert!(rt; holds(&rt, "file", Case::File));
}
