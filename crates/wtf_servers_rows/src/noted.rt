//! Stores and the keeper over files that note what they are asked.

use crate::real::{Log, appends, is_noted, new_log, note, other, replaces, syncs};
use std::alloc::Global;
use std::io;
use wtf_dev::Failed;
use wtf_real::{DirStore, ImageFiles, ImageKeeper, ImageName, SliceFile};

/// A file that notes what it is asked behind its number, and may fail to sync.
#[derive(Drop)]
pub(crate) struct Noted<'a> {
    log: &'a Log,
    file: u8,
    fails: bool,
}

impl<'a> Noted<'a> {
    /// Notes a call of this letter at a place below 10.
    fn call(&self, letter: u8, at: u64) -> io::Result<()> {
        note(
            self.log,
            &[b'0' + self.file % 8, letter, b'0' + (at % 10) as u8],
        )
    }
}

impl<'a> SliceFile for Noted<'a> {
    fn read_at(&mut self, at: u64, _out: &mut [u8]) -> io::Result<()> {
        self.call(b'r', at)
    }

    fn write_at(&mut self, at: u64, bytes: &[u8]) -> io::Result<()> {
        self.call(b'w', at)?;
        note(self.log, bytes)
    }

    fn zero_at(&mut self, at: u64, _len: u64) -> io::Result<()> {
        self.call(b'z', at)
    }

    fn sync(&mut self) -> io::Result<()> {
        self.call(b's', 0)?;
        if self.fails {
            return Err(other());
        }
        Ok(())
    }
}

/// An empty file, which fails to sync where it has the number `bad`.
pub(crate) fn noted_file(log: &Log, file: u8, bad: u8) -> Noted<'_> {
    Noted {
        log,
        file,
        fails: file == bad,
    }
}

/// A store over files that note, of which the one with the number `bad` fails to sync.
fn noted_store(log: &Log, bad: u8) -> DirStore<Noted<'_>> {
    DirStore::of_empty([
        noted_file(log, 0, bad),
        noted_file(log, 1, bad),
        noted_file(log, 2, bad),
        noted_file(log, 3, bad),
        noted_file(log, 4, bad),
        noted_file(log, 5, bad),
        noted_file(log, 6, bad),
        noted_file(log, 7, bad),
    ])
}

/// Whether an append reaches its own file alone, where that ends.
fn appends_to_its_file(log: &Log) -> bool {
    let mut store = noted_store(log, 8);
    appends(&mut store, 3, b"abcd", Ok(0))
        && appends(&mut store, 3, b"ef", Ok(4))
        && appends(&mut store, 7, b"x", Ok(0))
        && is_noted(log, b"3w0abcd3w4ef7w0x")
}

#[test]
fn an_append_goes_to_its_file(rt: HostRuntime) {
    assert!(rt; appends_to_its_file(&new_log(rt.alloc())));
}

/// Whether a sync gives this, and asks this.
fn syncs_each(log: &Log, bad: u8, want: Result<(), Failed>, wanted: &[u8]) -> bool {
    syncs(&mut noted_store(log, bad), want) && is_noted(log, wanted)
}

fn all_are_synced(alloc: Global) -> bool {
    syncs_each(&new_log(alloc), 8, Ok(()), b"0s01s02s03s04s05s06s07s0")
}

/// Whether a sync ends at file 2, where that fails.
fn two_are_synced(alloc: Global) -> bool {
    syncs_each(&new_log(alloc), 2, Err(Failed), b"0s01s02s0")
}

/// A sync reaches each file, up to one that fails.
#[test]
fn a_sync_reaches_each_file(rt: HostRuntime) {
    assert!(rt; all_are_synced(rt.alloc()) && two_are_synced(rt.alloc()));
}

/// The folder of an image, which notes what it is asked, and fails behind so many calls.
#[derive(Drop)]
struct NotedImage<'a> {
    log: &'a Log,
    left: u8,
}

impl<'a> NotedImage<'a> {
    fn call(&mut self, what: &[u8]) -> io::Result<()> {
        if self.left == 0 {
            return Err(other());
        }
        self.left -= 1;
        note(self.log, what)
    }
}

impl<'a> ImageFiles for NotedImage<'a> {
    fn take(&mut self, alloc: Global) -> io::Result<Vec<u8>> {
        self.call(b"take|")?;
        Ok(Vec::new(alloc))
    }

    fn write(&mut self, name: ImageName, bytes: &[u8]) -> io::Result<()> {
        match name {
            ImageName::Image => self.call(b"image:")?,
            ImageName::Beside => self.call(b"beside:")?,
        }
        note(self.log, bytes)
    }

    fn sync_written(&mut self) -> io::Result<()> {
        self.call(b"|sync")
    }

    fn rename(&mut self) -> io::Result<()> {
        self.call(b"|rename")
    }

    fn sync_names(&mut self) -> io::Result<()> {
        self.call(b"|names")
    }
}

/// Whether an image that is put in the place of another asks for this, where so many calls do not fail.
fn asks(alloc: Global, calls: u8, want: Result<(), Failed>, wanted: &[u8]) -> bool {
    let log = new_log(alloc);
    let files = NotedImage {
        log: &log,
        left: calls,
    };
    replaces(&mut ImageKeeper::over(files), b"new", want) && is_noted(&log, wanted)
}

/// Whether each failure ends what is asked.
fn asks_in_order(alloc: Global) -> bool {
    asks(alloc, 9, Ok(()), b"beside:new|sync|rename|names")
        && asks(alloc, 3, Err(Failed), b"beside:new|sync|rename")
        && asks(alloc, 2, Err(Failed), b"beside:new|sync")
        && asks(alloc, 1, Err(Failed), b"beside:new")
        && asks(alloc, 0, Err(Failed), b"")
}

/// An image takes the place of another once it lasts beside it, and nothing follows a failure.
#[test]
fn an_image_is_written_beside(rt: HostRuntime) {
    assert!(rt; asks_in_order(rt.alloc()));
}
