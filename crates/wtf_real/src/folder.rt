//! The files of one server, in a folder of their own.

ghost use Rattle.std.specs.Prelude.{◌≡◌, ◌≢◌, ◌<◌, ◌≤◌, ◌+◌, ◌-◌, ◌^◌, ℕ, true, Some, [], ◌∷◌, length, map, replicate, slice_index_or, string_bytes, IfOk, OnOk, OnErr, ◌⊎◌, if◌then◌else◌};
ghost use Rattle.std.specs.List.{All};
ghost use Rattle.std.specs.Result.{is_err};
ghost use Rattle.wtf_dev.specs.Counts.{Rose, risen};
ghost use Rattle.wtf_dev.specs.Store.{Appended, Agrees, SameSizes, Kept};
ghost use Rattle.wtf_real.specs.Asked.{ReadAt, WriteAt, ZeroAt, IsAskedOf, AreSynced};
ghost use Rattle.wtf_real.specs.Folders.{folder_view, folder_store, folder_laws, folder_of};
ghost use Rattle.wtf_real.specs.Numbers.{IsNoStream};

use crate::counts::Faults;
use crate::files::EightFiles;
use crate::standing::no_stream;
use crate::{FolderLock, Lockable, OpenFault, SliceFile};
use boxcar::tag::{Names, Tag};
use std::fs::{self, OpenFile, OpenOptions};
use std::marker::Model;
use std::os::fd::AsRawFd;
use std::rt::Files;
use wtf_dev::{Failed, SliceStore};

// Every file is shorter than this, in bytes.
const LIMIT: u64 = 1 << 61;

/// A store of slices in eight files, which stay open. How long each is is the store's own number, read once when the file
/// was opened: what an append that failed left behind it is overwritten by the next. It tells nothing of what they hold, but
/// what was asked of each, where the file tells it, and which folder they are in.
#[derive(Drop)]
pub struct DirStore<F: SliceFile> {
    /// The folder's path, which only proofs read.
    folder: Tag,
    files: EightFiles<F>,
    lengths: [u64; 8],
    faults: Faults,
    syncs: u64,
}

impl<F: SliceFile> Model for DirStore<F> {
    ghost use Rattle.std.specs.Prelude.{ℕ, ◌<◌, ◌^◌};
    ghost use Rattle.std.specs.List.{All};
    ghost use Rattle.wtf_real.specs.Folders.{FolderState};

    ghost Value = { FolderState };

    ghost view = { λ d. record {
      faults = d.faults;
      syncs = d.syncs;
      lengths = d.lengths;
      asked = d.files;
      folder = d.folder.numbers;
    } };

    ghost invariant = { λ d. All (λ (n : ℕ). n < 2 ^ 61) d.lengths };
}

/// The bytes of a path.
pub(crate) struct PathBytes;

impl Names<String> for PathBytes {
    ghost numbers = { λ path. string_bytes path };
}

/// A file of a folder, made where it is missing, and its length.
fn open_file<F: OpenFile + AsRawFd + Drop, R: Files<File = F> + AllocGlobal>(
    rt: &R,
    path: &str,
    file: u8,
) -> Result<(F, u64), OpenFault>
    ensures number { IfOk result (λ opened. IsNoStream F.raw_fd opened.0) }
    ensures length { IfOk result (λ opened. opened.1 < 2 ^ 61) }
{
    let Ok(name) = format!(in rt.alloc(); "{path}/{file}") else {
        return Err(OpenFault::Memory);
    };
    let opened = OpenOptions::new()
        .read(true)
        .write(true)
        .create(true)
        .open(rt, name.as_str())?;
    let opened = no_stream(opened)?;
    let len = opened.metadata()?.len();
    if len >= LIMIT {
        return Err(OpenFault::Failed);
    }
    Ok((opened, len))
}

/// The files `0` to `7` of a folder, and their lengths. These and the folder are made where they are missing.
pub(crate) fn open_files<F: OpenFile + AsRawFd + Drop, R: Files<File = F> + AllocGlobal>(
    rt: &R,
    path: &str,
) -> Result<([F; 8], [u64; 8]), OpenFault>
    ensures { IfOk result (λ opened. All (λ (n : ℕ). n < 2 ^ 61) opened.1) }
{
    fs::create_dir_all(rt, path)?;
    let f0 = open_file(rt, path, 0)?;
    let f1 = open_file(rt, path, 1)?;
    let f2 = open_file(rt, path, 2)?;
    let f3 = open_file(rt, path, 3)?;
    let f4 = open_file(rt, path, 4)?;
    let f5 = open_file(rt, path, 5)?;
    let f6 = open_file(rt, path, 6)?;
    let f7 = open_file(rt, path, 7)?;
    Ok((
        [f0.0, f1.0, f2.0, f3.0, f4.0, f5.0, f6.0, f7.0],
        [f0.1, f1.1, f2.1, f3.1, f4.1, f5.1, f6.1, f7.1],
    ))
}

impl<F: SliceFile + OpenFile + AsRawFd + Lockable + Drop> DirStore<F> {
    /// The store of server K in a folder that is held: in the folder `sK` in it, which holds the files `0` to `7`. These and
    /// the folder are made where they are missing.
    pub fn open<R: Files<File = F> + AllocGlobal>(
        rt: &R,
        lock: &FolderLock<F>,
        server: u8,
    ) -> Result<DirStore<F>, OpenFault>
        ensures faults { IfOk result (λ d. d.faults ≡ 0) }
        ensures syncs { IfOk result (λ d. d.syncs ≡ 0) }
        ensures folder { IfOk result (λ d. d.folder ≡ folder_of lock.now.dir server) }
    {
        let Ok(path) = format!(in rt.alloc(); "{}/s{server}", lock.dir()) else {
            return Err(OpenFault::Memory);
        };
        let folder = Tag::of::<String, PathBytes>(&path);
        let (files, lengths) = open_files(rt, path.as_str())?;
        Ok(DirStore {
            folder,
            lengths,
            files: EightFiles::new(files),
            faults: Faults::new(),
            syncs: 0,
        })
    }
}

impl<F: SliceFile> DirStore<F> {
    /// A store over eight files, each taken as empty: what one holds is overwritten.
    pub fn of_empty(files: [F; 8]) -> DirStore<F>
        ensures { result ≡ record {
          faults = 0;
          syncs = 0;
          lengths = replicate 8 0;
          asked = map F.told files;
          folder = [];
        } }
    {
        DirStore {
            folder: Tag::empty(),
            files: EightFiles::new(files),
            lengths: [0; 8],
            faults: Faults::new(),
            syncs: 0,
        }
    }
}

impl<F: SliceFile + Drop> SliceStore for DirStore<F> {
    ghost kind = { folder_store };

    ghost laws = { folder_laws };

    fn length(&self, file: u8) -> u64 {
        self.lengths[file as usize]
    }

    fn append(&mut self, file: u8, bytes: &[u8]) -> Result<u64, Failed>
        requires { file < 8 }
        ensures done { IfOk result
            (Appended (folder_view self.old) (folder_view self.new) file bytes.now) }
        ensures fits { IfOk result (λ at. at + length bytes.now < 2 ^ 61) }
        ensures others { (f : ℕ) → f ≢ file →
            (folder_view self.new).size f ≡ (folder_view self.old).size f }
        ensures syncs { (folder_view self.new).syncs ≡ (folder_view self.old).syncs }
        ensures follows { Kept (folder_view self.old) (folder_view self.new) [] }
        ensures cause { OnErr result
            (Rose (folder_view self.old).faults (folder_view self.new).faults) }

        // It writes these bytes at the end of that file and nothing else.
        ensures written { IfOk result (λ at.
            IsAskedOf result file (WriteAt at bytes.now) self.old.asked self.new.asked) }
        ensures unwritten { OnErr result ((self.new.asked ≡ self.old.asked) ⊎
            IsAskedOf result file (WriteAt (slice_index_or self.old.lengths file 0) bytes.now)
            self.old.asked self.new.asked) }

        // It counts each error, and nothing else; after one no length changes.
        ensures same { OnErr result (self.new.lengths ≡ self.old.lengths) }
        ensures counted { self.new.faults ≡
            (if is_err result then risen self.old.faults else self.old.faults) }
    {
        let at = self.lengths[file as usize];
        let len = bytes.len() as u64;
        if len >= LIMIT - at || self.files.write_at(file, at, bytes).is_err() {
            return Err(self.faults.raise());
        }
        self.lengths[file as usize] = at + len;
        Ok(at)
    }

    fn read(&mut self, file: u8, at: u64, out: &mut [u8]) -> Result<(), Failed>
        requires file { file < 8 }
        requires inside { at + length out.old ≤ (folder_view self.old).size file }
        ensures bytes { OnOk result (Agrees (folder_view self.old) file at out.new) }
        ensures sizes { SameSizes (folder_view self.old) (folder_view self.new) }
        ensures syncs { (folder_view self.new).syncs ≡ (folder_view self.old).syncs }
        ensures follows { Kept (folder_view self.old) (folder_view self.new) [] }
        ensures cause { OnErr result
            (Rose (folder_view self.old).faults (folder_view self.new).faults) }

        // It reads that part of that file and nothing else.
        ensures asked { IsAskedOf result file (ReadAt at out.new) self.old.asked self.new.asked }

        // It counts each error, and nothing else.
        ensures same { self.new.lengths ≡ self.old.lengths }
        ensures counted { self.new.faults ≡
            (if is_err result then risen self.old.faults else self.old.faults) }
    {
        if self.files.read_at(file, at, out).is_err() {
            return Err(self.faults.raise());
        }
        Ok(())
    }

    fn punch(&mut self, file: u8, at: u64, len: u64) -> Result<(), Failed>
        requires file { file < 8 }
        requires inside { at + len ≤ (folder_view self.old).size file }
        ensures zeros { OnOk result ((folder_view self.old).tells ≡ true → (i : ℕ) → at ≤ i →
            i < at + len →
            (folder_view self.new).told file i ≡ Some 0) }
        ensures elsewhere { (f i b : ℕ) → f ≢ file → (folder_view self.old).told f i ≡ Some b →
            (folder_view self.new).told f i ≡ Some b }
        ensures before { (i b : ℕ) → i < at → (folder_view self.old).told file i ≡ Some b →
            (folder_view self.new).told file i ≡ Some b }
        ensures behind { (i b : ℕ) → at + len ≤ i → (folder_view self.old).told file i ≡ Some b →
            (folder_view self.new).told file i ≡ Some b }
        ensures sizes { SameSizes (folder_view self.old) (folder_view self.new) }
        ensures syncs { (folder_view self.new).syncs ≡ (folder_view self.old).syncs }
        ensures follows { Kept (folder_view self.old) (folder_view self.new)
            (record { file = file; at = at; len = len } ∷ []) }
        ensures cause { OnErr result
            (Rose (folder_view self.old).faults (folder_view self.new).faults) }

        // It writes zeros over that part of that file and nothing else.
        ensures asked { IsAskedOf result file (ZeroAt at len) self.old.asked self.new.asked }

        // It counts each error, and nothing else.
        ensures same { self.new.lengths ≡ self.old.lengths }
        ensures counted { self.new.faults ≡
            (if is_err result then risen self.old.faults else self.old.faults) }
    {
        if self.files.zero_at(file, at, len).is_err() {
            return Err(self.faults.raise());
        }
        Ok(())
    }

    fn sync(&mut self) -> Result<(), Failed>
        ensures synced { OnOk result
            (Rose (folder_view self.old).syncs (folder_view self.new).syncs) }
        ensures unsynced { OnErr result ((folder_view self.new).syncs ≡
            (folder_view self.old).syncs) }
        ensures sizes { SameSizes (folder_view self.old) (folder_view self.new) }
        ensures follows { Kept (folder_view self.old) (folder_view self.new) [] }
        ensures cause { OnErr result
            (Rose (folder_view self.old).faults (folder_view self.new).faults) }

        // Each of the eight files lasts.
        ensures asked { AreSynced result self.old.asked self.new.asked }

        // It counts each error, and nothing else, and where there is none one sync.
        ensures same { self.new.lengths ≡ self.old.lengths }
        ensures counted { self.new.faults ≡
            (if is_err result then risen self.old.faults else self.old.faults) }
        ensures counts { OnOk result (self.new.syncs ≡ risen self.old.syncs) }
    {
        if self.files.sync_all().is_err() {
            return Err(self.faults.raise());
        }
        self.syncs = self.syncs.saturating_add(1);
        Ok(())
    }
}
