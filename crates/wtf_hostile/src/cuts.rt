//! Runs of scripts that are cut, or of which a byte is another.

use crate::fault::{Fault, NONE};
use crate::faults::try_fault;
use crate::report::Counts;
use crate::scripts::{SCRIPTS, Script};
use crate::texts::{first_bytes, spoil};
use std::io;

/// What a byte of a script is made in turn, where not all values are tried.
const SPOILS: [u8; 4] = [0x00, b'\n', b' ', b'1'];

/// Each script is cut after its bytes in turn.
pub fn cut_scripts(rt: &HostRuntime, counts: &mut Counts) -> io::Result<()> {
    for script in SCRIPTS.iter() {
        for at in 0..script.lines.len() as u64 {
            let cut = script.with_lines(first_bytes(script.lines, at));
            try_fault(rt, &cut, &[], &Fault { at, ..NONE }, counts)?;
        }
    }
    Ok(())
}

/// Each byte of each script is another, in turn: one of some values, or of all.
pub fn spoiled_scripts(rt: &HostRuntime, all: bool, counts: &mut Counts) -> io::Result<()> {
    for script in SCRIPTS.iter() {
        for at in 0..script.lines.len() {
            for byte in 0..=255u8 {
                if all || SPOILS.contains(&byte) {
                    try_spoiled(rt, script, at, byte, counts)?;
                }
            }
        }
    }
    Ok(())
}

/// Runs a script with another byte at one place.
fn try_spoiled(
    rt: &HostRuntime,
    script: &Script,
    at: usize,
    byte: u8,
    counts: &mut Counts,
) -> io::Result<()> {
    let lines = spoil(rt.alloc(), script.lines, at, byte)?;
    let fault = Fault {
        at: at as u64,
        with: u64::from(byte),
        ..NONE
    };
    try_fault(
        rt,
        &script.with_lines(lines.as_slice()),
        &[],
        &fault,
        counts,
    )?;
    Ok(())
}
