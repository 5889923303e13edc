//! A disk over the files of a folder.

ghost use Rattle.std.specs.Prelude.{◌≡◌, ◌<◌, ◌≤◌, ◌+◌, ◌-◌, ◌^◌, true, [], length, map, max, replicate, codes, ◌++◌, take, drop, IfOk, OnOk, OnErr, ◌⊎◌, if◌then◌else◌};
ghost use Rattle.std.specs.Result.{is_err};
ghost use Rattle.wtf_dev.specs.Counts.{Rose, risen};
ghost use Rattle.wtf_dev.specs.Disk.{DiskReads, DiskSyncs, DiskWrites, IsSettled, Remains, overwritten};
ghost use Rattle.wtf_real.specs.Asked.{ReadAt, WriteAt, Sync, IsAskedOf};
ghost use Rattle.wtf_real.specs.Disks.{dir_disk, dir_disk_view, dir_disk_laws};

use crate::counts::Faults;
use crate::files::EightFiles;
use crate::folder::{PathBytes, open_files};
use crate::{FolderLock, Lockable, OpenFault, SliceFile};
use boxcar::tag::Tag;
use std::fs::OpenFile;
use std::marker::Model;
use std::os::fd::AsRawFd;
use std::rt::Files;
use wtf_dev::{Disk, Failed};

// Every file is shorter than this, in bytes.
const LIMIT: u64 = 1 << 61;

/// A disk of eight files, which stay open and are written in place. How long each is is the disk's own number, read once
/// when the file was opened. It tells nothing of what they hold, but what was asked of each, where the file tells it, and
/// which folder they are in.
#[derive(Drop)]
pub struct DirDisk<F: SliceFile> {
    /// The folder's path, which only proofs read.
    folder: Tag,
    files: EightFiles<F>,
    lengths: [u64; 8],
    faults: Faults,
}

impl<F: SliceFile> Model for DirDisk<F> {
    ghost use Rattle.std.specs.Prelude.{ℕ, ◌<◌, ◌^◌};
    ghost use Rattle.std.specs.List.{All};
    ghost use Rattle.wtf_real.specs.Disks.{DiskFolder};

    ghost Value = { DiskFolder };

    ghost view = { λ d. record {
      faults = d.faults;
      lengths = d.lengths;
      asked = d.files;
      folder = d.folder.numbers;
    } };

    ghost invariant = { λ d. All (λ (n : ℕ). n < 2 ^ 61) d.lengths };
}

impl<F: SliceFile + OpenFile + AsRawFd + Lockable + Drop> DirDisk<F> {
    /// The disk in a folder of this name in a folder that is held. It holds the files `0` to `7`. These and the folder are
    /// made where they are missing.
    pub fn open<R: Files<File = F> + AllocGlobal>(
        rt: &R,
        lock: &FolderLock<F>,
        folder: &str,
    ) -> Result<DirDisk<F>, OpenFault>
        ensures faults { IfOk result (λ d. d.faults ≡ 0) }
        ensures folder { IfOk result (λ d. d.folder ≡ lock.now.dir ++ codes "/" ++ folder.now) }
    {
        let Ok(path) = format!(in rt.alloc(); "{}/{folder}", lock.dir()) else {
            return Err(OpenFault::Memory);
        };
        let folder = Tag::of::<String, PathBytes>(&path);
        let (files, lengths) = open_files(rt, path.as_str())?;
        Ok(DirDisk {
            folder,
            files: EightFiles::new(files),
            lengths,
            faults: Faults::new(),
        })
    }
}

impl<F: SliceFile> DirDisk<F> {
    /// A disk over eight files, each taken as empty: what one holds is overwritten.
    pub fn of_empty(files: [F; 8]) -> DirDisk<F>
        ensures { result ≡ record {
          faults = 0;
          lengths = replicate 8 0;
          asked = map F.told files;
          folder = [];
        } }
    {
        DirDisk {
            folder: Tag::empty(),
            files: EightFiles::new(files),
            lengths: [0; 8],
            faults: Faults::new(),
        }
    }
}

impl<F: SliceFile + Drop> Disk for DirDisk<F> {
    ghost kind = { dir_disk };

    ghost laws = { dir_disk_laws };

    fn length(&self, file: u8) -> u64 {
        self.lengths[file as usize]
    }

    fn read(&mut self, file: u8, at: u64, out: &mut [u8]) -> Result<(), Failed>
        requires file { file < 8 }
        requires inside { at + length out.old ≤ (dir_disk_view self.old).size file }
        ensures bytes { OnOk result ((dir_disk_view self.old).tells ≡ true →
            out.new ≡ take (length out.old) (drop at ((dir_disk_view self.old).file file).seen)) }
        ensures kept { DiskReads dir_disk self.old self.new }
        ensures cause { OnErr result
            (Rose (dir_disk_view self.old).faults (dir_disk_view self.new).faults) }

        // It reads that part of that file and nothing else.
        ensures asked { IsAskedOf result file (ReadAt at out.new) self.old.asked self.new.asked }

        // It counts each error, and nothing else.
        ensures same { self.new.lengths ≡ self.old.lengths }
        ensures counted { self.new.faults ≡
            (if is_err result then risen self.old.faults else self.old.faults) }
    {
        if self.files.read_at(file, at, out).is_err() {
            return Err(self.faults.raise());
        }
        Ok(())
    }

    fn write(&mut self, file: u8, at: u64, bytes: &[u8]) -> Result<(), Failed>
        requires file { file < 8 }
        requires inside { at ≤ (dir_disk_view self.old).size file }
        ensures length { OnOk result ((dir_disk_view self.new).size file ≡
            max ((dir_disk_view self.old).size file) (at + length bytes.now)) }
        ensures fits { OnOk result (at + length bytes.now < 2 ^ 61) }
        ensures written { OnOk result ((dir_disk_view self.old).tells ≡ true →
            ((dir_disk_view self.new).file file).seen ≡
            overwritten ((dir_disk_view self.old).file file).seen at bytes.now) }
        ensures kept { DiskWrites dir_disk file at (length bytes.now) self.old self.new }
        ensures cause { OnErr result
            (Rose (dir_disk_view self.old).faults (dir_disk_view self.new).faults) }

        // It writes these bytes at that place of that file and nothing else.
        ensures asked { OnOk result
            (IsAskedOf result file (WriteAt at bytes.now) self.old.asked self.new.asked) }
        ensures unwritten { OnErr result ((self.new.asked ≡ self.old.asked) ⊎
            IsAskedOf result file (WriteAt at bytes.now) self.old.asked self.new.asked) }

        // It counts each error, and nothing else; after one no length changes.
        ensures same { OnErr result (self.new.lengths ≡ self.old.lengths) }
        ensures counted { self.new.faults ≡
            (if is_err result then risen self.old.faults else self.old.faults) }
    {
        let len = bytes.len() as u64;
        let held = self.lengths[file as usize];
        if len >= LIMIT - at || self.files.write_at(file, at, bytes).is_err() {
            return Err(self.faults.raise());
        }
        self.lengths[file as usize] = held.max(at + len);
        Ok(())
    }

    fn sync(&mut self, file: u8) -> Result<(), Failed>
        requires { file < 8 }
        ensures settled { OnOk result ((dir_disk_view self.old).tells ≡ true →
            IsSettled ((dir_disk_view self.old).file file).seen ((dir_disk_view self.new).file file)) }
        ensures remains { OnErr result ((dir_disk_view self.old).tells ≡ true →
            Remains ((dir_disk_view self.old).file file) ((dir_disk_view self.new).file file)) }
        ensures kept { DiskSyncs dir_disk file self.old self.new }
        ensures cause { OnErr result
            (Rose (dir_disk_view self.old).faults (dir_disk_view self.new).faults) }

        // It brings that file to where it lasts and asks nothing else.
        ensures asked { IsAskedOf result file Sync self.old.asked self.new.asked }

        // It counts each error, and nothing else.
        ensures same { self.new.lengths ≡ self.old.lengths }
        ensures counted { self.new.faults ≡
            (if is_err result then risen self.old.faults else self.old.faults) }
    {
        if self.files.sync_one(file).is_err() {
            return Err(self.faults.raise());
        }
        Ok(())
    }
}
