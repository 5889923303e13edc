//! Runs over devices of which one is odd, or two are: of each script, each device, and of it each call or byte in turn.

use crate::devices::{Ended, run, settled, stores};
use crate::fault::{Device, EACH, Fault, How, NONE};
use crate::journals;
use crate::judge::wrong_in;
use crate::report::{Counts, told};
use crate::scripts::{SCRIPTS, Script};
use std::alloc::Global;
use std::io;

/// No script makes so many calls of a device, or stores so many bytes.
const MOST: u64 = 1_000_000;

/// How many calls fail of a device that fails for good.
const FOR_GOOD: u64 = 60;

/// Which devices are odd in turn, and how.
#[derive(Clone, Copy)]
pub struct Row {
    devices: &'static [Device],
    /// Whether the store of each server is, too.
    stores: bool,
    how: How,
    least: u64,
}

/// One call alone fails.
pub const ONE_CALL: Row = Row {
    devices: &[Device::Source, Device::Sink, Device::Keeper],
    stores: true,
    how: How::Calls(1),
    least: 1,
};

/// One call of what keeps bytes alone fails.
pub const ONE_KEPT: Row = Row {
    devices: &[Device::Keeper],
    ..ONE_CALL
};

/// The keeper, or a store, fails for good.
pub const ALL_CALLS: Row = Row {
    how: How::Calls(FOR_GOOD),
    ..ONE_KEPT
};

/// All stores, or one, take only so many bytes.
pub const FULL: Row = Row {
    devices: &[Device::Store(EACH)],
    stores: true,
    how: How::Bytes,
    least: 1,
};

/// The disk of the journal, or of a store, fails for good, and then all are stopped.
pub const STOPS: Row = Row {
    how: How::Stops,
    ..ONE_KEPT
};

/// The source, which gives one byte a call, fails for good, as where a run is killed.
pub const SOURCES: Row = Row {
    devices: &[Device::Source],
    stores: false,
    how: How::Bytes,
    least: 1,
};

/// The sink, which takes one byte a call, fails for good.
pub const SINKS: Row = Row {
    devices: &[Device::Sink],
    ..SOURCES
};

/// Nothing is odd: one run of each script.
pub const SOUND: Row = Row {
    devices: &[Device::Keeper],
    stores: false,
    how: How::Calls(0),
    least: 0,
};

/// Tries each script.
pub fn each_script(rt: &HostRuntime, row: &Row, counts: &mut Counts) -> io::Result<()> {
    for script in SCRIPTS.iter() {
        each_device(rt, script, row, counts)?;
    }
    Ok(())
}

/// Tries each device of a script.
pub fn each_device(
    rt: &HostRuntime,
    script: &Script,
    row: &Row,
    counts: &mut Counts,
) -> io::Result<()> {
    let whole = whole_run(rt.alloc(), script, row.how)?;
    for device in row.devices.iter() {
        each_call(rt, script, whole.output(), row, *device, counts)?;
    }
    if row.stores {
        for k in 0..script.servers {
            each_call(rt, script, whole.output(), row, Device::Store(k), counts)?;
        }
    }
    Ok(())
}

/// The run in which nothing fails.
fn whole_run(alloc: Global, script: &Script, how: How) -> io::Result<Ended> {
    if let How::Stops = how {
        return journals::whole_run(alloc, script);
    }
    let mut shelf = stores(alloc, &NONE)?;
    run(alloc, script, &NONE, &mut shelf, &[])
}

/// Tries the calls or bytes of a device in turn, until none fails any more.
fn each_call(
    rt: &HostRuntime,
    script: &Script,
    whole: &[u8],
    row: &Row,
    device: Device,
    counts: &mut Counts,
) -> io::Result<()> {
    for at in 0..MOST {
        let fault = Fault {
            device,
            how: row.how,
            at,
            least: row.least,
            ..NONE
        };
        if !try_device(rt, script, whole, &fault, counts)? {
            return Ok(());
        }
    }
    Ok(())
}

/// Runs a script over a device that is odd, and says whether a call failed.
fn try_device(
    rt: &HostRuntime,
    script: &Script,
    whole: &[u8],
    fault: &Fault,
    counts: &mut Counts,
) -> io::Result<bool> {
    if let How::Stops = fault.how {
        return journals::try_fault(rt, script, whole, fault, counts);
    }
    let (first, _) = try_fault(rt, script, whole, fault, counts)?;
    Ok(first)
}

/// Runs a script over devices that are odd, and says whether a call failed, but those of the second server, and whether one of
/// these did.
pub fn try_fault(
    rt: &HostRuntime,
    script: &Script,
    whole: &[u8],
    fault: &Fault,
    counts: &mut Counts,
) -> io::Result<(bool, bool)> {
    let alloc = rt.alloc();
    let mut shelf = stores(alloc, fault)?;
    let ended = run(alloc, script, fault, &mut shelf, &[])?;
    let second = settled(&mut shelf, fault.server);
    let found = wrong_in(alloc, script, whole, fault, &ended, &mut shelf)?;
    if ended.rose >= fault.least || found.is_some() {
        told(rt, script, fault, found, &ended, counts)?;
    }
    Ok((ended.rose > second, second > 0))
}

/// The stores of two servers fail, at a call each, in turn.
pub fn two_calls(rt: &HostRuntime, counts: &mut Counts) -> io::Result<()> {
    for script in SCRIPTS.iter() {
        for b in 0..script.servers {
            for a in 0..b {
                each_pair(rt, script, a, b, counts)?;
            }
        }
    }
    Ok(())
}

/// Tries the calls of two stores in turn.
fn each_pair(
    rt: &HostRuntime,
    script: &Script,
    a: u8,
    b: u8,
    counts: &mut Counts,
) -> io::Result<()> {
    for at in 0..MOST {
        let fault = Fault {
            device: Device::Store(a),
            how: How::Calls(1),
            at,
            server: b,
            with: 0,
            least: 2,
        };
        if !each_second(rt, script, &fault, counts)? {
            return Ok(());
        }
    }
    Ok(())
}

/// Tries the calls of the second store in turn, and says whether the call of the first was made in the last run.
fn each_second(
    rt: &HostRuntime,
    script: &Script,
    fault: &Fault,
    counts: &mut Counts,
) -> io::Result<bool> {
    for with in 0..MOST {
        let (first, second) = try_fault(rt, script, &[], &Fault { with, ..*fault }, counts)?;
        if !second {
            return Ok(first);
        }
    }
    Ok(false)
}
