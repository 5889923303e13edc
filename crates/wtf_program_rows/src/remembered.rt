//! Which spilled lists are remembered: the 64 that were used last.

use std::alloc::Global;
use std::test::Fail;
use wtf_rows::row::ONE_SMALL;
use wtf_trial::rows::is_answered;
use wtf_trial::wanted::Wanted;

/// How many regions the file has, each with a spilled list: two more than are remembered.
const REGIONS: u64 = 66;

/// How many bytes it has.
const LENGTH: usize = 4_224;

/// With all lists read in order the first two are forgotten. One that is used again is forgotten later than the next.
const LOOKS: &str = "sys down 0 => ok
c0 yank f0 1 s0 => fault read 0
c0 seek f0 set 64 => ok
c0 yank f0 1 s0 => fault read 0
c0 seek f0 set 4160 => ok
c0 yank f0 1 s0 => len 1
c0 seek f0 set 128 => ok
c0 yank f0 1 s0 => len 1
sys up 0 => ok
c0 seek f0 set 0 => ok
c0 yank f0 1 s0 => len 1
sys down 0 => ok
c0 seek f0 set 192 => ok
c0 yank f0 1 s0 => fault read 0
c0 seek f0 set 128 => ok
c0 yank f0 1 s0 => len 1
c0 seek f0 set 0 => ok
c0 yank f0 1 s0 => len 1
sys up 0 => ok
c0 try => committed 68
";

/// The digits of so many bytes `a`.
fn digits(alloc: Global) -> Result<String, Fail> {
    let mut text = String::new(alloc);
    for _ in 0..LENGTH {
        text.push_str("61")?;
    }
    Ok(text)
}

/// Adds a file with these bytes.
fn add_file(wanted: &mut Wanted, alloc: Global, digits: &str) -> Result<(), Fail> {
    wanted.add("c0 begin => begun 0\nc0 create /a => ok\nc0 open f0 /a => ok\n")?;
    let write = format!(in alloc; "c0 write f0 x:{digits} => ok\nc0 try => committed 1\n")?;
    wanted.add(write.as_str())
}

/// Adds the job that spills the list of a region.
fn add_spill(wanted: &mut Wanted, alloc: Global, region: u64) -> Result<(), Fail> {
    let number = region.saturating_add(2);
    let job = format!(in alloc;
        "sys plan j0 spill /a {region} => planned\nsys put j0 => installed {number}\n"
    )?;
    wanted.add(job.as_str())
}

/// The same of each region.
fn add_spills(wanted: &mut Wanted, alloc: Global) -> Result<(), Fail> {
    for region in 0..REGIONS {
        add_spill(wanted, alloc, region)?;
    }
    Ok(())
}

/// The file is shown, which reads all lists in order.
fn add_dump(wanted: &mut Wanted, alloc: Global, digits: &str) -> Result<(), Fail> {
    let dump = format!(in alloc; "sys dump /a => data x:{digits}\n")?;
    wanted.add(dump.as_str())
}

/// A file of which each region has a spilled list is shown, and then looked at.
fn add_all(wanted: &mut Wanted, alloc: Global, digits: &str) -> Result<(), Fail> {
    add_file(wanted, alloc, digits)?;
    add_spills(wanted, alloc)?;
    add_dump(wanted, alloc, digits)?;
    wanted.add("c0 begin => begun 67\nc0 open f0 /a => ok\n")?;
    wanted.add(LOOKS)
}

fn are_remembered(alloc: Global) -> Result<bool, Fail> {
    let mut wanted = Wanted::new(alloc, ONE_SMALL.line)?;
    let digits = digits(alloc)?;
    add_all(&mut wanted, alloc, digits.as_str())?;
    is_answered(alloc, ONE_SMALL.words, &wanted)
}

#[test]
fn lists_that_were_used_last_are_remembered(rt: HostRuntime) -> Result<(), Fail> {
    assert!(rt; are_remembered(rt.alloc())?);
    Ok(())
}
