//! What an install changed, as bytes, and the same bytes made in an image.

use std::alloc::Global;
use std::test::Fail;
use wtf_base::{InodeId, OutOfMemory, TxId};
use wtf_changes::{ApplyError, apply, changes};
use wtf_imagefmt::image_of;
use wtf_kv::{Changes, Kv};
use wtf_path::Path;
use wtf_values::{Delta, Key, Node, Value};

type Store = Kv<Key, Value>;

/// The root alone: 4 servers, 2 replicas, regions of 65,536 bytes; no install, next transaction 1.
const EMPTY_IMAGE: [u8; 42] = [
    87, 84, 70, 73, 77, 71, 48, 50, 4, 2, 0, 1, 0, 0, 0, 0, 0, 0, 0, 0, 0, 0, 0, 0, 0, 0, 0, 0, 0,
    1, 0, 0, 0, 1, 0, 1, 47, 0, 0, 0, 0, 0,
];

/// A byte 1, and behind it: 1 install, next transaction 2; `/a`, a file; its inode, with the last region
/// 0; no region.
const BODY: [u8; 61] = [
    1, 0, 0, 0, 0, 0, 0, 0, 1, 0, 0, 0, 0, 0, 0, 0, 2, 0, 0, 0, 1, 0, 2, 47, 97, 1, 0, 0, 0, 0, 0,
    0, 0, 1, 0, 0, 0, 1, 0, 0, 0, 1, 0, 0, 0, 0, 0, 0, 0, 1, 0, 0, 0, 1, 1, 0, 0, 0, 0, 0, 0,
];

/// The image behind them.
const FILE_IMAGE: [u8; 75] = [
    87, 84, 70, 73, 77, 71, 48, 50, 4, 2, 0, 1, 0, 0, 0, 0, 0, 0, 0, 0, 0, 1, 0, 0, 0, 0, 0, 0, 0,
    2, 0, 0, 0, 2, 0, 1, 47, 0, 0, 2, 47, 97, 1, 0, 0, 0, 0, 0, 0, 0, 1, 0, 0, 0, 1, 0, 0, 0, 1, 0,
    0, 0, 0, 0, 0, 0, 1, 0, 0, 0, 1, 0, 0, 0, 0,
];

/// 2 installs, next transaction 3: the path, the file and a region 7 are gone.
const GONE: [u8; 61] = [
    0, 0, 0, 0, 0, 0, 0, 2, 0, 0, 0, 0, 0, 0, 0, 3, 0, 0, 0, 1, 0, 2, 47, 97, 2, 0, 0, 0, 1, 0, 0,
    0, 0, 0, 0, 0, 1, 0, 0, 0, 1, 0, 0, 0, 0, 1, 0, 0, 0, 0, 0, 0, 0, 1, 0, 0, 0, 1, 0, 7, 0,
];

/// The root alone again, behind those.
const EMPTY_AGAIN: [u8; 42] = [
    87, 84, 70, 73, 77, 71, 48, 50, 4, 2, 0, 1, 0, 0, 0, 0, 0, 0, 0, 0, 0, 2, 0, 0, 0, 0, 0, 0, 0,
    3, 0, 0, 0, 1, 0, 1, 47, 0, 0, 0, 0, 0,
];

/// A region of the file, and no file.
const ORPHAN: [u8; 52] = [
    0, 0, 0, 0, 0, 0, 0, 1, 0, 0, 0, 0, 0, 0, 0, 2, 0, 0, 0, 0, 0, 0, 0, 0, 0, 0, 0, 1, 0, 0, 0, 0,
    0, 0, 0, 1, 0, 0, 0, 1, 0, 0, 1, 0, 0, 0, 0, 0, 0, 0, 0, 0,
];

/// An image with changes made in it; that it is an image is looked at first.
fn applied(alloc: Global, image: &[u8], changes: &[u8]) -> Result<Vec<u8>, ApplyError> {
    match image_of(alloc, image) {
        Ok(_) => return apply(alloc, image, changes),
        Err(_) => return Err(ApplyError::Memory),
    }
}

fn refusal(alloc: Global, image: &[u8], changes: &[u8]) -> Option<ApplyError> {
    applied(alloc, image, changes).err()
}

/// The file `/a` is made, as call 1 of transaction 1 does.
fn made(alloc: Global) -> Result<Changes<Key, Value>, Fail> {
    let inode = InodeId {
        tx: TxId(1),
        index: 1,
    };
    let path = Path::parse(alloc, b"/a")?;
    let mut edits = Changes::new(alloc);
    edits.delta(Key::Inode(inode), Delta::Put(Value::Last(0)))?;
    edits.delta(Key::Path(path), Delta::Put(Value::Node(Node::File(inode))))?;
    Ok(edits)
}

/// Installs changes, behind a pin of the number before them.
fn install(kv: &mut Store, edits: &Changes<Key, Value>) -> Result<(), Fail> {
    if kv.number() >= 1 << 63 {
        return Err("no number is left".into());
    }
    let number = kv.number();
    kv.pin(number)?;
    let Ok(ready) = kv.reserve_install(edits) else {
        return Err("not installed".into());
    };
    kv.install(ready);
    Ok(())
}

/// The changes of a store since a number that is pinned, behind a byte 1.
fn body_since(
    alloc: Global,
    kv: &Store,
    number: u64,
    next_tx: u64,
) -> Result<Vec<u8>, OutOfMemory> {
    if !kv.is_pinned(number) {
        return Err(OutOfMemory);
    }
    let told = changes(alloc, kv, number, next_tx)?;
    let mut body = Vec::new(alloc);
    body.push(1)?;
    body.extend_from_slice(told.as_slice())?;
    Ok(body)
}

#[test]
fn an_install_is_told(rt: HostRuntime) -> Result<(), Fail> {
    let mut kv: Store = Kv::new(rt.alloc())?;
    install(&mut kv, &made(rt.alloc())?)?;
    let body = body_since(rt.alloc(), &kv, 0, 2)?;
    assert_eq!(rt; body.as_slice(), BODY.as_slice());
    Ok(())
}

#[test]
fn changes_are_made_in_an_image(rt: HostRuntime) -> Result<(), Fail> {
    let file = applied(rt.alloc(), &EMPTY_IMAGE, &BODY[1..])?;
    assert_eq!(rt; file.as_slice(), FILE_IMAGE.as_slice());
    let empty = applied(rt.alloc(), &FILE_IMAGE, &GONE)?;
    assert_eq!(rt; empty.as_slice(), EMPTY_AGAIN.as_slice());
    Ok(())
}

/// What comes of an image of the first version is one of the second.
#[test]
fn changes_are_made_in_an_old_image(rt: HostRuntime) -> Result<(), Fail> {
    let mut old = EMPTY_IMAGE.to_vec(rt.alloc())?;
    if let Some(version) = old.get_mut(7) {
        *version = b'1';
    }
    let file = applied(rt.alloc(), old.as_slice(), &BODY[1..])?;
    assert_eq!(rt; file.as_slice(), FILE_IMAGE.as_slice());
    Ok(())
}

#[test]
fn a_region_needs_its_file(rt: HostRuntime) -> Result<(), Fail> {
    assert_eq!(rt;
        refusal(rt.alloc(), &EMPTY_IMAGE, &ORPHAN),
        Some(ApplyError::NotChanges)
    );
    assert_eq!(rt; refusal(rt.alloc(), &FILE_IMAGE, &ORPHAN), None);
    Ok(())
}
