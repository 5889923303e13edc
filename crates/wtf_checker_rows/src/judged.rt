//! Runs of scripts that are made from a number, judged by the definitions.

use std::alloc::Global;
use std::test::Fail;
use wtf_base::Settings;
use wtf_checker::wtf_check;
use wtf_dev::{MemKeeper, MemSink, MemSource, MemStore, Shelf};
use wtf_gen::GeneratedScript;
use wtf_serve::serve;

/// The number of the script, and how many lines it has.
const NUMBER: u64 = 7;

const LINES: u64 = 20_000;

/// Sixteen empty stores.
fn stores(alloc: Global) -> Result<Shelf<MemStore>, Fail> {
    let mut stores = Vec::new(alloc);
    for _ in 0..16u8 {
        stores.push(MemStore::new(alloc, Vec::new(alloc)))?;
    }
    if stores.len() != 16 {
        return Err(Fail::from("stores"));
    }
    Ok(Shelf::new(alloc, stores))
}

/// Runs the script over these stores.
fn answer(
    alloc: Global,
    settings: Settings,
    out: &mut MemSink,
    shelf: &mut Shelf<MemStore>,
    keeper: &mut MemKeeper,
) -> u8 {
    let mut script = GeneratedScript::new(NUMBER, LINES);
    serve(alloc, settings, &mut script, out, shelf, keeper)
}

/// What the program writes of the script, over empty stores.
fn output_of(alloc: Global, settings: Settings) -> Result<Vec<u8>, Fail> {
    let mut out = MemSink::new(alloc, Vec::new(alloc));
    let mut keeper = MemKeeper::new(alloc, Vec::new(alloc), Vec::new(alloc));
    let mut shelf = stores(alloc)?;
    answer(alloc, settings, &mut out, &mut shelf, &mut keeper);
    Ok(out.taken().to_vec(alloc)?)
}

/// What the checker writes of the script and an output.
fn verdict_on(alloc: Global, output: Vec<u8>) -> Result<Vec<u8>, Fail> {
    let mut script = GeneratedScript::new(NUMBER, LINES);
    let mut output = MemSource::new(alloc, output, Vec::new(alloc));
    let mut out = MemSink::new(alloc, Vec::new(alloc));
    wtf_check(alloc, &mut script, &mut output, &mut out);
    Ok(out.taken().to_vec(alloc)?)
}

#[test]
fn a_generated_run_is_lawful(rt: HostRuntime) -> Result<(), Fail> {
    let settings = Settings::new(4, 2, 65_536).ok_or("settings")?;
    let output = output_of(rt.alloc(), settings)?;
    let verdict = verdict_on(rt.alloc(), output)?;
    assert!(rt; verdict.as_slice() == b"yes 20000\n".as_slice());
    Ok(())
}
