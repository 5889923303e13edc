//! The files that the keeper of an image needs.

ghost use Rattle.std.specs.Prelude.{[], List, Option, None, IfOk, OnErr};
ghost use Rattle.wtf_real.specs.Asked.{ImageOp, Call, Take, Write, SyncWritten, Rename, SyncNames, IsAsked};

use crate::parts::{read_whole, write_whole};
use std::alloc::Global;
use std::fs::{self, File, OpenFile};
use std::io::{self, ErrorKind};
use std::rt::Files;

/// The two files of an image's folder.
#[derive(Clone, Copy, Debug)]
pub enum ImageName {
    /// The image.
    Image,
    /// Beside it, what is to take its place.
    Beside,
}

/// The folder of an image.
pub trait ImageFiles {
    /// What was asked of it so far, in order, where it tells that.
    ghost told: { Self → Option (List (Call ImageOp)) } = { λ _. None };

    /// The bytes of the image, none where it is missing.
    fn take(&mut self, alloc: Global) -> io::Result<Vec<u8>>
        ensures taken { IfOk result (λ image.
            IsAsked result (Take image.items) (told self.old) (told self.new)) }
        ensures failed { OnErr result (IsAsked result (Take []) (told self.old) (told self.new)) };

    /// Makes a file anew, with these bytes.
    fn write(&mut self, name: ImageName, bytes: &[u8]) -> io::Result<()>
        ensures { IsAsked result (Write name bytes.now) (told self.old) (told self.new) };

    /// Brings the file that was written last to where it lasts.
    fn sync_written(&mut self) -> io::Result<()>
        ensures { IsAsked result SyncWritten (told self.old) (told self.new) };

    /// Puts the file beside the image in its place.
    fn rename(&mut self) -> io::Result<()>
        ensures { IsAsked result Rename (told self.old) (told self.new) };

    /// Brings the names of the folder to where they last.
    fn sync_names(&mut self) -> io::Result<()>
        ensures { IsAsked result SyncNames (told self.old) (told self.new) };
}

/// The folder of an image in the system. It tells nothing.
#[derive(Drop)]
pub struct SystemImage<R: Files> {
    rt: R,
    /// The folder that holds the files.
    folder: R::File,
    path: String,
    beside: String,
    /// What was written last, until it lasts.
    written: Option<R::File>,
}

impl<R: Files> SystemImage<R> {
    /// The files of these paths in a folder that is open.
    pub(crate) fn new(rt: R, folder: R::File, path: String, beside: String) -> SystemImage<R> {
        SystemImage {
            rt,
            folder,
            path,
            beside,
            written: None,
        }
    }

    fn path_of(&self, name: ImageName) -> &str {
        match name {
            ImageName::Image => self.path.as_str(),
            ImageName::Beside => self.beside.as_str(),
        }
    }
}

impl<R: Files> ImageFiles for SystemImage<R> {
    fn take(&mut self, alloc: Global) -> io::Result<Vec<u8>> {
        match File::open(&self.rt, self.path.as_str()) {
            Ok(file) => read_whole(alloc, file),
            Err(e) if e.kind() == ErrorKind::NotFound => Ok(Vec::new(alloc)),
            Err(e) => Err(e),
        }
    }

    fn write(&mut self, name: ImageName, bytes: &[u8]) -> io::Result<()> {
        let mut file = File::create(&self.rt, self.path_of(name))?;
        write_whole(&mut file, bytes)?;
        self.written = Some(file);
        Ok(())
    }

    fn sync_written(&mut self) -> io::Result<()> {
        match self.written.take() {
            // As in `SliceFile for File`: only a machine that stops would show that this was left out.
            Some(file) => file.sync_all(),
            None => Err(io::Error::from(ErrorKind::Other)),
        }
    }

    fn rename(&mut self) -> io::Result<()> {
        fs::rename(&self.rt, self.beside.as_str(), self.path.as_str())
    }

    fn sync_names(&mut self) -> io::Result<()> {
        // And here: then the rename may be lost.
        self.folder.sync_all()
    }
}
