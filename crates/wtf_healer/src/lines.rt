//! The lines that the healer writes.

ghost use Rattle.std.specs.Prelude.{◌≡◌, ◌≢◌, ◌≤◌, ◌++◌, ℕ, List, Some, IfOk, OnOk, OnErr};
ghost use Rattle.wtf_base.specs.declared.fault.Fault.TheVariants as fault;
ghost use Rattle.wtf_dev.specs.Counts.{Rose};
ghost use Rattle.wtf_image.specs.declared.error.LoadError.TheVariants as error;
ghost use Rattle.wtf_healer.specs.Lines.{ReportTaken, numbered, done_lines, fault_line, refusal_line};

use itoa::Buffer;
use std::alloc::Global;
use wtf_base::{Fault, OutOfMemory, ServerId};
use wtf_dev::{Failed, Sink};
use wtf_image::LoadError;

/// Writes all of a text.
pub(crate) fn write_all<O: Sink>(out: &mut O, text: &[u8]) -> Result<(), Failed>
    ensures told { (old : List ℕ) → (O.view out.old).taken ≡ Some old →
        ReportTaken old text.now (O.view out.new).taken result }
    ensures faults { (O.view out.old).faults ≤ (O.view out.new).faults }
    ensures steady { OnOk result ((O.view out.new).faults ≡ (O.view out.old).faults) }
    ensures cause { OnErr result (Rose (O.view out.old).faults (O.view out.new).faults) }
{
    let mut at = 0;
    while at < text.len() {
        let (_, part) = text.split_at(at);
        match out.write(part) {
            Ok(n) => at += n,
            Err(e) => return Err(e),
        }
    }
    Ok(())
}

/// Adds a line of a word and a number.
fn push_line(out: &mut Vec<u8>, word: &[u8], number: u64) -> Result<(), OutOfMemory>
    ensures { OnOk result (out.new.items ≡ out.old.items ++ numbered word.now number) }
{
    let mut buffer = Buffer::new();
    out.extend_from_slice(word)?;
    out.extend_from_slice(buffer.format(number).as_bytes())?;
    out.push(b'\n')?;
    Ok(())
}

/// The two lines of a pass that was whole.
pub(crate) fn done(alloc: Global, regions: u64, bytes: u64) -> Result<Vec<u8>, OutOfMemory>
    ensures { IfOk result (λ v. v.items ≡ done_lines regions bytes) }
{
    let mut out = Vec::new(alloc);
    push_line(&mut out, b"regions ", regions)?;
    push_line(&mut out, b"bytes ", bytes)?;
    Ok(out)
}

/// A line of a word and a server.
fn server_line(alloc: Global, word: &[u8], server: ServerId) -> Result<Vec<u8>, OutOfMemory>
    ensures { IfOk result (λ v. v.items ≡ numbered word.now server.0) }
{
    let mut out = Vec::new(alloc);
    push_line(&mut out, word, server.0 as u64)?;
    Ok(out)
}

/// The line of a fault; there is none for want of memory.
pub(crate) fn fault_line(alloc: Global, why: Fault) -> Result<Vec<u8>, OutOfMemory>
    ensures text { IfOk result (λ v. v.items ≡ fault_line why) }
    ensures known { OnOk result (why ≢ fault.Memory) }
{
    match why {
        Fault::Read(server) => server_line(alloc, b"fault read ", server),
        Fault::Damaged(server) => server_line(alloc, b"damaged ", server),
        Fault::Write => Ok(b"fault write\n".to_vec(alloc)?),
        Fault::Punch(_) => Err(OutOfMemory),
        Fault::Memory => Err(OutOfMemory),
    }
}

/// The line of a refused image.
pub(crate) fn refusal_line(why: LoadError) -> &'static [u8]
    requires { why ≢ error.Memory }
    ensures { result.now ≡ refusal_line why }
{
    match why {
        LoadError::NotAnImage => b"image refused 1 notanimage\n",
        LoadError::BadTree => b"image refused 2 badtree\n",
        LoadError::PointerOutside => b"image refused 3 pointeroutside\n",
        LoadError::BadSettings => b"image refused 4 badsettings\n",
        LoadError::Memory => b"",
    }
}
