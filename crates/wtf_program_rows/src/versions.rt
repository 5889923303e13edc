//! Images of both versions: what is loaded of each, and what is saved.

use crate::damage::spoiled;
use crate::images::{FILE_IMAGE, LOADED, Loads, is_saved_as, joined, loaded, numbers_of, refusal};
use std::alloc::Global;
use std::test::Fail;
use wtf_base::{InodeId, TxId};
use wtf_image::{LoadError, Loaded};
use wtf_trial::devices::{NONE, run_on, stores};
use wtf_trial::texts::LOG_SCRIPT;
use wtf_values::{Key, Value};

/// The place of the byte that tells the version.
const VERSION: usize = 7;

/// Paths `/`, `/a` and `/b`, the last two of one file: what may stand in place of the two paths of an
/// image.
const SHARED: [u8; 42] = [
    0, 0, 0, 3, 0, 1, 0x2f, 0, 0, 2, 0x2f, 0x61, 1, 0, 0, 0, 0, 0, 0, 0, 1, 0, 0, 0, 2, 0, 2, 0x2f,
    0x62, 1, 0, 0, 0, 0, 0, 0, 0, 1, 0, 0, 0, 2,
];

/// The root alone.
const UNNAMED: [u8; 8] = [0, 0, 0, 1, 0, 1, 0x2f, 0];

/// An image, made one of the first version.
fn aged(alloc: Global, image: &[u8]) -> Result<Vec<u8>, Fail> {
    spoiled(alloc, image, VERSION, b'1')
}

/// The image of the root and a file with other paths.
fn with_paths(alloc: Global, paths: &[u8]) -> Result<Vec<u8>, Fail> {
    let front = joined(alloc, &FILE_IMAGE[..30], paths)?;
    joined(alloc, front.as_slice(), &FILE_IMAGE[55..])
}

/// How many paths of the file are told, 0 where none are.
fn paths_told(loaded: &Loaded) -> u64 {
    let inode = InodeId {
        tx: TxId(1),
        index: 2,
    };
    match loaded.kv.read_at(loaded.kv.number(), &Key::Links(inode)) {
        Some(Value::Count(count)) => *count,
        _ => 0,
    }
}

/// Whether an image of the first version is loaded as the one of the second, and saved as that.
fn is_renewed(alloc: Global, row: &Loads) -> Result<bool, Fail> {
    let old = aged(alloc, row.image)?;
    let loaded = loaded(alloc, old.as_slice(), row.stored)?;
    Ok(
        numbers_of(&loaded) == row.numbers
            && paths_told(&loaded) == 0
            && is_saved_as(alloc, &loaded, row.image)?,
    )
}

#[test]
fn an_old_image_is_saved_as_a_new_one(rt: HostRuntime) -> Result<(), Fail> {
    for row in &LOADED {
        assert!(rt; is_renewed(rt.alloc(), row)?);
    }
    Ok(())
}

/// Whether a file of two paths is loaded with their number, and saved again.
fn is_shared(alloc: Global, image: &[u8]) -> Result<bool, Fail> {
    let loaded = loaded(alloc, image, b"abcdef")?;
    Ok(paths_told(&loaded) == 2 && is_saved_as(alloc, &loaded, image)?)
}

/// Whether an image of a file with other paths is no tree.
fn is_no_tree(alloc: Global, image: &[u8]) -> Result<bool, Fail> {
    Ok(refusal(alloc, image, b"abcdef")? == Some(LoadError::BadTree))
}

#[test]
fn several_paths_name_a_file_in_a_new_image_alone(rt: HostRuntime) -> Result<(), Fail> {
    let shared = with_paths(rt.alloc(), &SHARED)?;
    assert!(rt; is_shared(rt.alloc(), shared.as_slice())?);
    let old = aged(rt.alloc(), shared.as_slice())?;
    assert!(rt; is_no_tree(rt.alloc(), old.as_slice())?);
    Ok(())
}

#[test]
fn a_file_is_named_in_both_versions(rt: HostRuntime) -> Result<(), Fail> {
    let unnamed = with_paths(rt.alloc(), &UNNAMED)?;
    assert!(rt; is_no_tree(rt.alloc(), unnamed.as_slice())?);
    let old = aged(rt.alloc(), unnamed.as_slice())?;
    assert!(rt; is_no_tree(rt.alloc(), old.as_slice())?);
    Ok(())
}

/// Whether a run that begins with an image of the first version shows the tree that one of the second
/// shows, and saves the same.
fn goes_on(alloc: Global) -> Result<bool, Fail> {
    let mut shelf = stores(alloc, 16, 0, None)?;
    let first = run_on(alloc, "", LOG_SCRIPT, NONE, &mut shelf, &[])?.kept;
    let old = aged(alloc, first.as_slice())?;
    let new = run_on(alloc, "", b"sys tree\n", NONE, &mut shelf, first.as_slice())?;
    let ended = run_on(alloc, "", b"sys tree\n", NONE, &mut shelf, old.as_slice())?;
    Ok(
        ended.status == 0
            && ended.output.as_slice() == new.output.as_slice()
            && ended.kept.as_slice() == new.kept.as_slice()
            && ended.kept.as_slice().starts_with(b"WTFIMG02"),
    )
}

#[test]
fn a_run_goes_on_from_an_old_image(rt: HostRuntime) -> Result<(), Fail> {
    assert!(rt; goes_on(rt.alloc())?);
    Ok(())
}
