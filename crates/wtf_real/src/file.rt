//! A file as a source.

ghost use Rattle.std.specs.Prelude.{◌≡◌, ◌≤◌, ℕ, List, Some, length, IfOk, OnErr, if◌then◌else◌};
ghost use Rattle.std.specs.Result.{is_err};
ghost use Rattle.wtf_dev.specs.Counts.{Rose, risen};
ghost use Rattle.wtf_dev.specs.Streams.{given_after, Gives};

use crate::OpenFault;
use crate::counts::Faults;
use crate::standing::no_stream;
use std::fs::File;
use std::io::Read;
use std::marker::Model;
use std::os::fd::AsRawFd;
use std::rt::Files;
use wtf_dev::{Failed, Source};

/// A file that is read from its front, and counts. It tells the bytes that its reader tells: a file of the system none. The
/// count of bytes stands still at the greatest u64.
#[derive(Drop)]
pub struct FileSource<F: Read> {
    from: F,
    given: u64,
    faults: Faults,
}

impl<F: Read> Model for FileSource<F> {
    ghost use Rattle.wtf_dev.specs.Streams.{SourceView};

    ghost Value = { SourceView };

    ghost view = { λ s. record { faults = s.faults; given = s.given; rest = F.remaining s.from } };
}

impl<F: Read + AsRawFd + Drop> FileSource<F> {
    /// The source of the file of this path, which is opened for reading alone. `Failed` also where there is none, and where
    /// it got the number of a standard stream that is closed.
    pub fn open<R: Files<File = F>>(rt: &R, path: &str) -> Result<FileSource<F>, OpenFault>
        ensures faults { IfOk result (λ s. s.faults ≡ 0) }
        ensures given { IfOk result (λ s. s.given ≡ 0) }
    {
        let from = no_stream(File::open(rt, path)?)?;
        Ok(FileSource {
            from,
            given: 0,
            faults: Faults::new(),
        })
    }
}

impl<F: Read + Drop> Source for FileSource<F> {
    ghost view = { λ s. s };

    fn read(&mut self, out: &mut [u8]) -> Result<usize, Failed>
        ensures count { IfOk result (λ n. n ≤ length out.old) }
        ensures told { (all : List ℕ) → self.old.rest ≡ Some all →
            Gives result (length out.old) out.new all self.new.rest }
        ensures given { self.new.given ≡ given_after result self.old.given }
        ensures faults { self.old.faults ≤ self.new.faults }
        ensures cause { OnErr result (Rose self.old.faults self.new.faults) }

        // It counts each error, and nothing else.
        ensures counted { self.new.faults ≡
            (if is_err result then risen self.old.faults else self.old.faults) }
    {
        match self.from.read(out) {
            Ok(n) => {
                self.given = self.given.saturating_add(n as u64);
                Ok(n)
            }
            Err(_) => Err(self.faults.raise()),
        }
    }
}
