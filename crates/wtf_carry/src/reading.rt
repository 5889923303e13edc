//! The lines that read a file.

ghost use Rattle.std.specs.Prelude.{◌≡◌, ◌≢◌, ◌≤◌, ◌⊎◌, ◌++◌, ◌∷◌, ℕ, List, [], Some, Err, OnOk, IfErr};
ghost use Rattle.wtf_dev.specs.Counts.{Rose};
ghost use Rattle.wtf_carry.specs.Asked.{asked_text, turn, abort_line, read_line};
ghost use Rattle.wtf_carry.specs.Reads.{ReadsWholeFile, IsShare};

use crate::Stop;
use crate::lines::{push_line, push_number, push_turn};
use crate::stream::write_all;
use std::alloc::Global;
use wtf_base::OutOfMemory;
use wtf_dev::Sink;
use wtf_model::limits::{MAX_NUMBER, MAX_SHOWN};
use wtf_path::Path;

/// Writes the lines that read a file of `len` bytes: it is opened, and read by up to 8,192 bytes a line, up to 4,000 of them
/// in a transaction, each of which ends by `abort`.
pub fn reads<O: Sink>(alloc: Global, path: &Path, len: u64, out: &mut O) -> Result<(), Stop>
    requires { len ≤ MAX_NUMBER }
    ensures reads { OnOk result ((old : List ℕ) → (O.view out.old).taken ≡ Some old →
        ReadsWholeFile path.now len old (O.view out.new).taken) }
    ensures unwritten { result ≡ Err Stop.Unwritten →
        Rose (O.view out.old).faults (O.view out.new).faults }
    ensures cause { IfErr result (λ why. (why ≡ Stop.Unwritten) ⊎ (why ≡ Stop.Memory)) }
{
    let mut text = Vec::new(alloc);
    push_line(&mut text, b"c0 begin", b"")?;
    push_line(&mut text, b"c0 open f0 ", path.as_bytes())?;
    let Ok(()) = write_all(out, text.as_slice()) else {
        return Err(Stop::Unwritten);
    };
    let mut i = 0;
    let mut at = 0;
    while at < len {
        let n = (len - at).min(MAX_SHOWN);
        text.clear();
        push_share(&mut text, path, i, at, n)?;
        let Ok(()) = write_all(out, text.as_slice()) else {
            return Err(Stop::Unwritten);
        };
        i += 1;
        at += n;
    }
    match write_all(out, b"c0 abort\n") {
        Ok(()) => Ok(()),
        Err(_) => Err(Stop::Unwritten),
    }
}

/// Appends the lines of a read of `n` bytes, the read `i` of a file, which begins at byte `at`.
fn push_share(text: &mut Vec<u8>, path: &Path, i: u64, at: u64, n: u64) -> Result<(), OutOfMemory>
    ensures { OnOk result (text.new.items ≡ text.old.items ++
        asked_text (turn abort_line path.now i at ++ read_line n ∷ [])) }
{
    push_turn(text, b"c0 abort", path, i, at)?;
    push_number(text, b"c0 read f0 ", n)?;
    Ok(())
}
