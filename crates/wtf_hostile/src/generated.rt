//! Runs of scripts that are made from a number.

use crate::faults::{Row, each_device};
use crate::report::Counts;
use crate::scripts::{GENERATED_LOOKS, Script};
use std::alloc::Global;
use std::io;
use wtf_base::{Bytes, OutOfMemory};
use wtf_gen::Gen;

/// The script of a number.
fn script_of(lines: &[u8]) -> Script {
    Script {
        name: "a script from a number",
        servers: 4,
        replicas: 2,
        region: 256,
        lines,
        looks: GENERATED_LOOKS,
    }
}

/// The next line of a script, where there is one.
fn next_line(alloc: Global, lines: &mut Gen) -> Result<Option<Bytes>, OutOfMemory> {
    lines.next(alloc)
}

/// The lines that a number makes.
fn lines_of(alloc: Global, number: u64, count: u64) -> io::Result<Vec<u8>> {
    let mut lines = Gen::new(number, count);
    let mut text = Vec::new(alloc);
    for _ in 0..count {
        let Ok(Some(line)) = next_line(alloc, &mut lines) else {
            return Err(io::Error::from(io::ErrorKind::InvalidData));
        };
        text.extend_from_slice(line.as_slice())?;
        text.push(b'\n')?;
    }
    Ok(text)
}

/// Tries the scripts of so many lines from the numbers 1 to this one.
pub fn each_number(
    rt: &HostRuntime,
    numbers: u64,
    count: u64,
    row: &Row,
    counts: &mut Counts,
) -> io::Result<()> {
    for number in 1..=numbers {
        let lines = lines_of(rt.alloc(), number, count)?;
        each_device(rt, &script_of(lines.as_slice()), row, counts)?;
    }
    Ok(())
}
