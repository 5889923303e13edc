//! The file of an image.

ghost use Rattle.std.specs.Prelude.{◌≡◌, ℕ, List, [], ◌∷◌, true, Some, IfOk, OnOk, OnErr, IsErrOf, if◌then◌else◌};
ghost use Rattle.std.specs.Result.{is_err};
ghost use Rattle.wtf_dev.specs.Counts.{Rose, risen};
ghost use Rattle.wtf_dev.specs.Calls.{has_failed};
ghost use Rattle.wtf_real.specs.Asked.{Take, IsAsked, AreAsked, replacing};
ghost use Rattle.wtf_real.specs.Images.{image_view, ImageFollows, image_same, image_on};

use crate::counts::Faults;
use crate::standing::no_stream;
use crate::{FolderLock, ImageFiles, ImageName, Lockable, OpenFault, SystemImage};
use std::alloc::Global;
use std::fs::{self, File};
use std::io::{self, ErrorKind};
use std::marker::Model;
use std::os::fd::AsRawFd;
use std::rt::Files;
use wtf_dev::{Failed, Keeper, LoadFault};

/// A keeper of one image in a file. A new image is written beside it and takes the place of the file once all of it is where
/// it lasts: whatever goes wrong, and also where the machine stops, the file holds one image or the other. It tells nothing
/// of what the file holds, but what was asked of its folder, where the folder tells it.
#[derive(Drop)]
pub struct ImageKeeper<D: ImageFiles> {
    files: D,
    faults: Faults,
}

/// The keeper over the files of the system.
pub type FileKeeper<R> = ImageKeeper<SystemImage<R>>;

impl<D: ImageFiles> Model for ImageKeeper<D> {
    ghost use Rattle.wtf_real.specs.Images.{ImageState};

    ghost Value = { ImageState };

    ghost view = { λ k. record { faults = k.faults; asked = D.told k.files } };
}

/// Whether a path names a file, or nothing.
fn may_be_image<R: Files>(rt: &R, path: &str) -> io::Result<bool> {
    match fs::metadata(rt, path) {
        Ok(found) => Ok(found.is_file()),
        Err(e) if e.kind() == ErrorKind::NotFound => Ok(true),
        Err(e) => Err(e),
    }
}

impl<R: Files + AllocGlobal + Copy> ImageKeeper<SystemImage<R>>
where
    R::File: AsRawFd + Lockable,
{
    /// The keeper of the image in a folder that is held: in the file `image` in it, which may be missing. A new one is
    /// written to `image.new`.
    pub fn open(rt: &R, lock: &FolderLock<R::File>) -> Result<FileKeeper<R>, OpenFault>
        ensures { IfOk result (λ k. k.faults ≡ 0) }
    {
        let folder = no_stream(File::open(rt, lock.dir())?)?;
        let Ok(path) = format!(in rt.alloc(); "{}/image", lock.dir()) else {
            return Err(OpenFault::Memory);
        };
        let Ok(beside) = format!(in rt.alloc(); "{path}.new") else {
            return Err(OpenFault::Memory);
        };
        if !may_be_image(rt, path.as_str())? {
            return Err(OpenFault::Failed);
        }
        Ok(ImageKeeper::over(SystemImage::new(*rt, folder, path, beside)))
    }
}

impl<D: ImageFiles> ImageKeeper<D> {
    /// The keeper of the image in these files.
    pub fn over(files: D) -> ImageKeeper<D>
        ensures { result ≡ record { faults = 0; asked = D.told files } }
    {
        ImageKeeper {
            files,
            faults: Faults::new(),
        }
    }
}

/// Puts these bytes in the place of the image.
fn put<D: ImageFiles>(files: &mut D, bytes: &[u8]) -> io::Result<()>
    ensures { AreAsked result (replacing bytes.now) (D.told files.old) (D.told files.new) }
{
    files.write(ImageName::Beside, bytes)?;
    files.sync_written()?;
    files.rename()?;
    files.sync_names()
}

impl<D: ImageFiles> Keeper for ImageKeeper<D> {
    ghost view = { image_view };

    ghost follows = { ImageFollows };

    ghost follows_itself = { image_same };

    ghost follows_on = { image_on };

    ghost keeps = { λ a b xs f. f };

    fn load(&mut self, alloc: Global) -> Result<Vec<u8>, LoadFault>
        ensures bytes { IfOk result (λ v. (b : List ℕ) → (image_view self.old).held ≡ Some b →
            v.items ≡ b) }
        ensures held { (b : List ℕ) → (image_view self.old).held ≡ Some b →
            (image_view self.new).held ≡ Some b }
        ensures follows { ImageFollows self.old self.new [] }
        ensures cause { IsErrOf result LoadFault.Failed →
            Rose (image_view self.old).faults (image_view self.new).faults }

        // It answers what the file gave, and asks for nothing else.
        ensures taken { IfOk result (λ image.
            IsAsked result (Take image.items) self.old.asked self.new.asked) }
        ensures failed { OnErr result (IsAsked result (Take []) self.old.asked self.new.asked) }

        // It counts each error, and nothing else: want of memory is none.
        ensures counted { self.new.faults ≡
            (if has_failed result then risen self.old.faults else self.old.faults) }
    {
        match self.files.take(alloc) {
            Ok(bytes) => Ok(bytes),
            Err(e) if e.kind() == ErrorKind::OutOfMemory => Err(LoadFault::Memory),
            Err(_) => {
                self.faults.raise();
                Err(LoadFault::Failed)
            }
        }
    }

    fn replace(&mut self, bytes: &[u8]) -> Result<(), Failed>
        ensures replaced { OnOk result ((image_view self.old).tells ≡ true →
            (image_view self.new).held ≡ Some bytes.now) }
        ensures follows { ImageFollows self.old self.new (bytes.now ∷ []) }
        ensures cause { OnErr result
            (Rose (image_view self.old).faults (image_view self.new).faults) }

        // All of it is written beside the image and lasts there before it takes its place; the image is not written to.
        ensures asked { AreAsked result (replacing bytes.now) self.old.asked self.new.asked }

        // It counts each error, and nothing else.
        ensures counted { self.new.faults ≡
            (if is_err result then risen self.old.faults else self.old.faults) }
    {
        if put(&mut self.files, bytes).is_err() {
            return Err(self.faults.raise());
        }
        Ok(())
    }
}
