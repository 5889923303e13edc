//! The eight files of a store.

ghost use Rattle.std.specs.Prelude.{◌≡◌, ◌<◌, List, Option, None, length, map};
ghost use Rattle.wtf_real.specs.Asked.{FileOp, Call, ReadAt, WriteAt, ZeroAt, Sync, IsAsked, IsAskedOf, AreSynced};

use crate::parts;
use std::fs::{File, OpenFile};
use std::io;
use std::marker::Model;

/// A file of a store, open for reading and writing. A place in it is counted in bytes from its front.
pub trait SliceFile {
    /// What was asked of it so far, in order, where the file tells it.
    ghost told: { Self → Option (List (Call FileOp)) } = { λ _. None };

    /// Fills `out` from a place on.
    fn read_at(&mut self, at: u64, out: &mut [u8]) -> io::Result<()>
        ensures { IsAsked result (ReadAt at out.new) (told self.old) (told self.new) };

    /// Writes all of the bytes from a place on.
    fn write_at(&mut self, at: u64, bytes: &[u8]) -> io::Result<()>
        ensures { IsAsked result (WriteAt at bytes.now) (told self.old) (told self.new) };

    /// Writes so many zeros from a place on.
    fn zero_at(&mut self, at: u64, len: u64) -> io::Result<()>
        ensures { IsAsked result (ZeroAt at len) (told self.old) (told self.new) };

    /// Brings all that was written to where it lasts.
    fn sync(&mut self) -> io::Result<()>
        ensures { IsAsked result Sync (told self.old) (told self.new) };
}

impl SliceFile for File {
    fn read_at(&mut self, at: u64, out: &mut [u8]) -> io::Result<()> {
        parts::read_at(self, at, out)
    }

    fn write_at(&mut self, at: u64, bytes: &[u8]) -> io::Result<()> {
        parts::write_at(self, at, bytes)
    }

    fn zero_at(&mut self, at: u64, len: u64) -> io::Result<()> {
        parts::zero_at(self, at, len)
    }

    fn sync(&mut self) -> io::Result<()> {
        // No clause can say that this is done, as a file of the system tells nothing, and no test can see it: what was
        // written is read back without it, and only a machine that stops would show the difference.
        self.sync_all()
    }
}

/// Eight files, seen by contracts as what each tells of what was asked of it.
#[derive(Drop)]
pub(crate) struct EightFiles<F: SliceFile> {
    held: [F; 8],
}

impl<F: SliceFile> Model for EightFiles<F> {
    ghost use Rattle.std.specs.Prelude.{List, Option, map};
    ghost use Rattle.wtf_real.specs.Asked.{FileOp, Call};

    ghost Value = { List (Option (List (Call FileOp))) };

    ghost view = { λ e. map F.told e.held };
}

impl<F: SliceFile> EightFiles<F> {
    pub(crate) fn new(held: [F; 8]) -> EightFiles<F>
        ensures { result ≡ map F.told held }
    {
        EightFiles { held }
    }

    /// Fills `out` from a place of a file on.
    pub(crate) fn read_at(&mut self, file: u8, at: u64, out: &mut [u8]) -> io::Result<()>
        requires { file < 8 }
        ensures { IsAskedOf result file (ReadAt at out.new) self.old self.new }
    {
        self.held[file as usize].read_at(at, out)
    }

    /// Writes all of the bytes from a place of a file on.
    pub(crate) fn write_at(&mut self, file: u8, at: u64, bytes: &[u8]) -> io::Result<()>
        requires { file < 8 }
        ensures { IsAskedOf result file (WriteAt at bytes.now) self.old self.new }
    {
        self.held[file as usize].write_at(at, bytes)
    }

    /// Writes so many zeros from a place of a file on.
    pub(crate) fn zero_at(&mut self, file: u8, at: u64, len: u64) -> io::Result<()>
        requires { file < 8 }
        ensures { IsAskedOf result file (ZeroAt at len) self.old self.new }
    {
        self.held[file as usize].zero_at(at, len)
    }

    /// Brings one file to where it lasts.
    pub(crate) fn sync_one(&mut self, file: u8) -> io::Result<()>
        requires { file < 8 }
        ensures count { length self.old ≡ 8 }
        ensures synced { IsAskedOf result file Sync self.old self.new }
    {
        self.held[file as usize].sync()
    }

    /// Brings all of the files to where they last.
    pub(crate) fn sync_all(&mut self) -> io::Result<()>
        ensures { AreSynced result self.old self.new }
    {
        for file in 0..8 {
            self.sync_one(file)?;
        }
        Ok(())
    }
}
