//! Runs over folders, and over the file of an image.

use std::alloc::Global;
use std::fs::{self, File};
use std::test::Fail;
use std::{env, process};
use wtf_base::Settings;
use wtf_dev::{Keeper, MemSink, MemSource, Shelf, SliceStore};
use wtf_real::{DirStore, FileKeeper, FolderLock, StandIns};
use wtf_serve::serve;
use wtf_trial::devices::shelf_of;
use wtf_trial::texts::{LATER_OUTPUT, LATER_SCRIPT, THREE_OUTPUT, THREE_SCRIPT};

/// A script that writes, one that goes on with what it left, and their outputs.
const SCRIPTS: [(&[u8], &[u8]); 2] = [(THREE_SCRIPT, THREE_OUTPUT), (LATER_SCRIPT, LATER_OUTPUT)];

/// The path of a folder of the test's own, where nothing stands.
fn fresh(rt: &HostRuntime) -> Result<String, Fail> {
    let top = env::temp_dir(rt)?;
    let id = process::id(rt.process());
    let path = format!(in rt.alloc(); "{}/wtf_program_rows_{id}", top.as_str())?;
    let _ = fs::remove_dir_all(rt, path.as_str());
    fs::create_dir(rt, path.as_str())?;
    Ok(path)
}

/// The folder of a store, held.
fn hold(rt: &HostRuntime, dir: &str) -> Result<FolderLock<File>, Fail> {
    let standing = StandIns::open(rt)?;
    Ok(FolderLock::open(rt, &standing, dir)?)
}

/// Adds the store of a server in a folder that is held.
fn add_store(
    rt: &HostRuntime,
    lock: &FolderLock<File>,
    server: u8,
    stores: &mut Vec<DirStore<File>>,
) -> Result<(), Fail> {
    let store = DirStore::open(rt, lock, server)?;
    stores.push(store)?;
    Ok(())
}

/// The stores of all servers in a folder that is held.
fn stores_in(rt: &HostRuntime, lock: &FolderLock<File>) -> Result<Shelf<DirStore<File>>, Fail> {
    let mut stores = Vec::new(rt.alloc());
    for k in 0..16u8 {
        add_store(rt, lock, k, &mut stores)?;
    }
    shelf_of(rt.alloc(), stores)
}

/// Whether a run from a source over three servers with two copies of each slice ends well with this output.
fn is_answered_from<S: SliceStore, K: Keeper>(
    alloc: Global,
    script: &mut MemSource,
    want: &[u8],
    shelf: &mut Shelf<S>,
    keeper: &mut K,
) -> Result<bool, Fail> {
    let settings = Settings::new(3, 2, 65_536).ok_or("settings")?;
    let mut out = MemSink::new(alloc, Vec::new(alloc));
    let status = serve(alloc, settings, script, &mut out, shelf, keeper);
    Ok(status == 0 && out.taken() == want)
}

/// The same over the stores of a folder and the keeper of its image.
fn is_answered_by<K: Keeper>(
    rt: &HostRuntime,
    lock: &FolderLock<File>,
    run: &(&[u8], &[u8]),
    keeper: &mut K,
) -> Result<bool, Fail> {
    let alloc = rt.alloc();
    let mut script = MemSource::new(alloc, run.0.to_vec(alloc)?, Vec::new(alloc));
    let mut shelf = stores_in(rt, lock)?;
    is_answered_from(alloc, &mut script, run.1, &mut shelf, keeper)
}

/// The same in a folder that is held.
fn is_answered_held(
    rt: &HostRuntime,
    lock: &FolderLock<File>,
    run: &(&[u8], &[u8]),
) -> Result<bool, Fail> {
    let mut keeper = FileKeeper::open(rt, lock)?;
    is_answered_by(rt, lock, run, &mut keeper)
}

/// Whether a script is answered as it should over what stands in a folder.
fn is_answered_in(rt: &HostRuntime, dir: &str, run: &(&[u8], &[u8])) -> Result<bool, Fail> {
    let lock = hold(rt, dir)?;
    is_answered_held(rt, &lock, run)
}

/// Whether all scripts are, one run after another.
fn are_answered_in(rt: &HostRuntime, dir: &str) -> Result<bool, Fail> {
    let mut right = true;
    for run in SCRIPTS.iter() {
        right = is_answered_in(rt, dir, run)? && right;
    }
    Ok(right)
}

/// A run after another one goes on with what it left.
#[test]
fn scripts_are_answered_over_folders(rt: HostRuntime) -> Result<(), Fail> {
    let dir = fresh(&rt)?;
    assert!(rt; are_answered_in(&rt, dir.as_str())?);
    fs::remove_dir_all(&rt, dir.as_str())?;
    Ok(())
}
