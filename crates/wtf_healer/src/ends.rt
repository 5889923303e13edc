//! How a run ends, and what is said of it.

ghost use Rattle.std.specs.Prelude.{◌≡◌, ◌≢◌, IfOk, IfErr};
ghost use Rattle.wtf_base.specs.declared.fault.Fault.TheVariants as fault;
ghost use Rattle.wtf_image.specs.declared.error.LoadError.TheVariants as error;
ghost use Rattle.wtf_healer.specs.Ends.{sink_span, IsToldStop};
ghost use Rattle.wtf_healer.specs.Lines.{fault_line, refusal_line};
ghost use Rattle.wtf_healer.specs.Runs.{SaysText};
ghost use Rattle.wtf_healer.specs.Steps.{SaysOrNot};
ghost use Rattle.wtf_healer.specs.declared.ends.Stop.TheVariants as stop;

use crate::lines::{fault_line, refusal_line, write_all};
use std::alloc::Global;
use wtf_base::Fault;
use wtf_dev::Sink;
use wtf_image::LoadError;

/// All that is sparse was stored anew, and the image of that is kept.
pub const HEALED: u8 = 0;

/// The words name no servers that the store can do without.
pub const WORDS_REFUSED: u8 = 2;

pub const WRITING_FAILED: u8 = 4;

/// A store could not be brought to where it lasts, or the keeper did not take the image.
pub const SAVING_FAILED: u8 = 5;

/// What the keeper holds is no image that can be healed.
pub const IMAGE_REFUSED: u8 = 6;

pub const OUT_OF_MEMORY: u8 = 7;

/// The keeper did not give what it holds.
pub const LOADING_FAILED: u8 = 8;

/// Bytes could not be read or stored.
pub const NOT_HEALED: u8 = 11;

/// Why no image was kept.
#[derive(Clone, Copy, Debug)]
pub(crate) enum Stop {
    /// The words name no servers that the store can do without.
    Words,
    /// The keeper did not give what it holds.
    Load,
    /// What it holds is no image that can be healed.
    Refused(LoadError),
    /// Bytes could not be read or stored.
    Unhealed(Fault),
    /// A store could not be brought to where it lasts, or the keeper did not take the image.
    Save,
    Memory,
}

/// Writes a text, and answers this status.
fn say<O: Sink>(out: &mut O, text: &[u8], status: u8) -> u8
    requires { status ≢ 4 }
    ensures { SaysText text.now status result (O.view out.old) (O.view out.new) }
{
    match write_all(out, text) {
        Ok(()) => status,
        Err(_) => WRITING_FAILED,
    }
}

/// Writes why an image is refused, and answers the status.
fn tell_refusal<O: Sink>(out: &mut O, why: LoadError) -> u8
    requires { why ≢ error.Memory }
    ensures { SaysText (refusal_line why) 6 result (O.view out.old) (O.view out.new) }
{
    let line = refusal_line(why);
    say(out, line, IMAGE_REFUSED)
}

/// Writes a fault, and answers the status.
fn tell_fault<O: Sink>(alloc: Global, out: &mut O, why: Fault) -> u8
    ensures { SaysOrNot O.view (fault_line why) 11 result out.old out.new }
{
    match fault_line(alloc, why) {
        Ok(line) => say(out, line.as_slice(), NOT_HEALED),
        Err(_) => OUT_OF_MEMORY,
    }
}

/// Writes why no image was kept, where there is a line for it, and answers the status.
fn tell_stop<O: Sink>(alloc: Global, out: &mut O, why: Stop) -> u8
    requires { why ≢ stop.Refused error.Memory }
    ensures { IsToldStop (sink_span O.view out.old out.new) result why }
{
    match why {
        Stop::Words => return WORDS_REFUSED,
        Stop::Load => return LOADING_FAILED,
        Stop::Refused(why) => {
            let status = tell_refusal(out, why);
            return status;
        }
        Stop::Unhealed(why) => {
            let status = tell_fault(alloc, out, why);
            return status;
        }
        Stop::Save => return SAVING_FAILED,
        Stop::Memory => return OUT_OF_MEMORY,
    }
}

/// Writes how a run ended, and answers the status.
pub(crate) fn tell<O: Sink>(alloc: Global, out: &mut O, ended: Result<Vec<u8>, Stop>) -> u8
    requires { IfErr ended (λ why. why ≢ stop.Refused error.Memory) }
    ensures done { IfOk ended (λ lines. SaysText lines.items 0 result (O.view out.old) (O.view out.new)) }
    ensures stopped { IfErr ended (IsToldStop (sink_span O.view out.old out.new) result) }
{
    match ended {
        Ok(lines) => {
            let status = say(out, lines.as_slice(), HEALED);
            return status;
        }
        Err(why) => {
            let status = tell_stop(alloc, out, why);
            return status;
        }
    }
}

impl Stop {
    /// An image is refused.
    pub(crate) fn refused(why: LoadError) -> Stop
        ensures memory { why ≡ error.Memory → result ≡ stop.Memory }
        ensures other { why ≢ error.Memory → result ≡ stop.Refused why }
    {
        match why {
            LoadError::Memory => Stop::Memory,
            _ => Stop::Refused(why),
        }
    }

    /// A pass was not whole.
    pub(crate) fn unhealed(why: Fault) -> Stop
        ensures memory { why ≡ fault.Memory → result ≡ stop.Memory }
        ensures other { why ≢ fault.Memory → result ≡ stop.Unhealed why }
    {
        match why {
            Fault::Memory => Stop::Memory,
            _ => Stop::Unhealed(why),
        }
    }
}
