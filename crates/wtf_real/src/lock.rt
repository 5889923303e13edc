//! The lock on the folder of a store.

ghost use Rattle.std.specs.Prelude.{◌≡◌, Bool, Option, None, IfOk, IfSome, is_ok};
ghost use Rattle.wtf_real.specs.Locks.{WasFree};
ghost use Rattle.wtf_real.specs.Numbers.{IsNoStream};

use crate::standing::no_stream;
use crate::{OpenFault, StandIns};
use std::fs::{self, File, OpenOptions, TryLockError};
use std::marker::Model;
use std::os::fd::AsRawFd;
use std::rt::Files;

/// A file that one open of it at a time can lock.
pub trait Lockable {
    /// Whether it is not locked elsewhere, where the file tells it.
    ghost is_free: { Self → Option Bool } = { λ _. None };

    /// Locks it until it is closed, and does not wait.
    fn lock_now(&self) -> Result<(), TryLockError>
        ensures { IfSome (is_free self.now) (λ free. is_ok result ≡ free) };
}

impl Lockable for File {
    fn lock_now(&self) -> Result<(), TryLockError> {
        self.try_lock()
    }
}

/// The folder of a store, which no other holds as long as this value lasts: the file `lock` in it is locked. The lock ends
/// with the process, however that ends.
#[derive(Drop)]
pub struct FolderLock<F: Lockable> {
    file: F,
    dir: String,
}

impl<F: Lockable> Model for FolderLock<F> {
    ghost use Rattle.std.specs.Prelude.{string_bytes};
    ghost use Rattle.wtf_real.specs.Locks.{Locked, WasFree};

    ghost Value = { Locked F };

    ghost view = { λ l. record { file = l.file; dir = string_bytes l.dir } };

    ghost invariant = { λ l. WasFree F.is_free l.file };
}

impl<F: Lockable + AsRawFd + Drop> FolderLock<F> {
    /// Takes the folder of this path. It, the folders above it and its file `lock` are made where they are missing. `Failed`
    /// also where another holds it.
    pub fn open<R: Files<File = F> + AllocGlobal>(
        rt: &R,
        _standing: &StandIns<F>,
        dir: &str,
    ) -> Result<FolderLock<F>, OpenFault>
        ensures free { IfOk result (λ l. WasFree F.is_free l.file) }
        ensures number { IfOk result (λ l. IsNoStream F.raw_fd l.file) }
        ensures dir { IfOk result (λ l. l.dir ≡ dir.now) }
    {
        fs::create_dir_all(rt, dir)?;
        let Ok(name) = format!(in rt.alloc(); "{dir}/lock") else {
            return Err(OpenFault::Memory);
        };
        let Ok(dir) = dir.to_string(rt.alloc()) else {
            return Err(OpenFault::Memory);
        };
        let opened = OpenOptions::new()
            .write(true)
            .create(true)
            .open(rt, name.as_str())?;
        let file = no_stream(opened)?;
        match file.lock_now() {
            Ok(()) => Ok(FolderLock { file, dir }),
            Err(_) => Err(OpenFault::Failed),
        }
    }

    /// The folder's path.
    pub(crate) fn dir(&self) -> &str
        ensures { result.now ≡ self.now.dir }
    {
        self.dir.as_str()
    }
}
