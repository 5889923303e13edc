//! What stands in for the standard streams that are closed.

ghost use Rattle.std.specs.Prelude.{IfOk, IfSome};
ghost use Rattle.wtf_real.specs.Numbers.{AreTaken, HasNumber, IsNoStream};

use crate::OpenFault;
use std::fs::OpenOptions;
use std::marker::Model;
use std::os::fd::AsRawFd;
use std::rt::Files;

/// The greatest number of a standard stream.
const LAST_STREAM: i32 = 2;

/// What keeps the numbers 0, 1 and 2 taken. The system gives a file the least number that is free: one that is opened while
/// a standard stream is closed would be that stream.
#[derive(Drop)]
pub struct StandIns<F: AsRawFd> {
    input: Option<F>,
    output: Option<F>,
    errors: Option<F>,
    behind: F,
}

impl<F: AsRawFd> Model for StandIns<F> {
    ghost use Rattle.wtf_real.specs.Numbers.{AreTaken, Standing};

    ghost Value = { Standing F };

    ghost view = { λ s. record {
      input = s.input;
      output = s.output;
      errors = s.errors;
      behind = s.behind;
    } };

    ghost invariant = { λ s. AreTaken F.raw_fd (record {
      input = s.input;
      output = s.output;
      errors = s.errors;
      behind = s.behind;
    }) };
}

impl<F: AsRawFd + Drop> StandIns<F> {
    /// Opens a file in the place of each standard stream that is closed. A read of the input and a write to the others fail
    /// on it, as on what is closed.
    pub fn open<R: Files<File = F>>(rt: &R) -> Result<StandIns<F>, OpenFault>
        ensures { IfOk result (λ s. AreTaken F.raw_fd s) }
    {
        let input = stand_in(rt, OpenOptions::new().write(true), 0)?;
        let output = stand_in(rt, OpenOptions::new().read(true), 1)?;
        let errors = stand_in(rt, OpenOptions::new().read(true), 2)?;
        let behind = no_stream(open_null(rt, OpenOptions::new().read(true))?)?;
        Ok(StandIns {
            input,
            output,
            errors,
            behind,
        })
    }
}

/// The file that takes everything and gives nothing.
fn open_null<R: Files>(rt: &R, how: &OpenOptions) -> Result<R::File, OpenFault> {
    Ok(how.open(rt, "/dev/null")?)
}

/// A file of this number, where it was the least that was free.
fn stand_in<R: Files>(rt: &R, how: &OpenOptions, number: i32) -> Result<Option<R::File>, OpenFault>
where
    R::File: AsRawFd,
    ensures { IfOk result (λ kept. IfSome kept (HasNumber R.File.raw_fd number)) }
{
    let file = open_null(rt, how)?;
    if file.as_raw_fd() == number {
        Ok(Some(file))
    } else {
        Ok(None)
    }
}

/// The file, where it is no standard stream.
pub(crate) fn no_stream<F: AsRawFd + Drop>(file: F) -> Result<F, OpenFault>
    ensures { IfOk result (λ f. IsNoStream F.raw_fd f) }
{
    if file.as_raw_fd() > LAST_STREAM {
        Ok(file)
    } else {
        Err(OpenFault::Failed)
    }
}
