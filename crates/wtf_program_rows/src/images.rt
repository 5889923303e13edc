//! Images both ways, and those that are refused.

use crate::damage::spoiled;
use std::alloc::Global;
use std::test::Fail;
use wtf_base::{InodeId, TxId};
use wtf_dev::{MemStore, Shelf, SliceStore};
use wtf_image::{LoadError, Loaded, check, load, load_without, save};
use wtf_path::Path;
use wtf_trial::devices::stores;
use wtf_trial::texts::EMPTY_IMAGE;
use wtf_values::{Key, RegionValue, Value};

/// The image of the root and a file in it.
pub(crate) const FILE_IMAGE: [u8; 106] = [
    // The magic; 1 server, 1 replica, regions of 64 bytes; 3 installs, and the next transaction is 2.
    0x57, 0x54, 0x46, 0x49, 0x4d, 0x47, 0x30, 0x32, 1, 1, 0, 0, 0, 64, 0, 0, 0, 0, 0, 0, 0, 3, 0,
    0, 0, 0, 0, 0, 0, 2,
    // Two paths: `/`, and `/a`, a file whose inode follows: that of call 2 in transaction 1.
    0, 0, 0, 2, 0, 1, 0x2f, 0, 0, 2, 0x2f, 0x61, 1, 0, 0, 0, 0, 0, 0, 0, 1, 0, 0, 0, 2,
    // One file, whose inode follows.
    0, 0, 0, 1, 0, 0, 0, 0, 0, 0, 0, 1, 0, 0, 0, 2,
    // Its last region, 0, and one region, 0, up to 6: 6 bytes of server 0, file 0, from offset 0 on.
    0, 0, 0, 1, 0, 0, 0, 0, 0, 6, 0, 0, 0, 0, 1, 0, 0, 0, 0, 0, 0, 0, 6, 1, 1, 0, 0, 0, 0, 0, 0, 0,
    0, 0, 0,
];

/// The same file where there are two servers, and each of them has a copy of its 6 bytes.
const COPIED_IMAGE: [u8; 116] = [
    // Two servers and two replicas.
    0x57, 0x54, 0x46, 0x49, 0x4d, 0x47, 0x30, 0x32, 2, 2, 0, 0, 0, 64, 0, 0, 0, 0, 0, 0, 0, 3, 0,
    0, 0, 0, 0, 0, 0, 2, 0, 0, 0, 2, 0, 1, 0x2f, 0, 0, 2, 0x2f, 0x61, 1, 0, 0, 0, 0, 0, 0, 0, 1, 0,
    0, 0, 2, 0, 0, 0, 1, 0, 0, 0, 0, 0, 0, 0, 1, 0, 0, 0, 2,
    // Two pointers: to server 0, file 0, and to server 1, file 0, both from offset 0 on.
    0, 0, 0, 1, 0, 0, 0, 0, 0, 6, 0, 0, 0, 0, 1, 0, 0, 0, 0, 0, 0, 0, 6, 1, 2, 0, 0, 0, 0, 0, 0, 0,
    0, 0, 0, 1, 0, 0, 0, 0, 0, 0, 0, 0, 0,
];

/// The first with another region 0: up to 8, over the first 5 bytes of a list that lies in a slice, one entry.
pub(crate) const SPILLED_IMAGE: [u8; 125] = [
    0x57, 0x54, 0x46, 0x49, 0x4d, 0x47, 0x30, 0x32, 1, 1, 0, 0, 0, 64, 0, 0, 0, 0, 0, 0, 0, 3, 0,
    0, 0, 0, 0, 0, 0, 2, 0, 0, 0, 2, 0, 1, 0x2f, 0, 0, 2, 0x2f, 0x61, 1, 0, 0, 0, 0, 0, 0, 0, 1, 0,
    0, 0, 2, 0, 0, 0, 1, 0, 0, 0, 0, 0, 0, 0, 1, 0, 0, 0, 2,
    // Its last region, one region, its number, and its end.
    0, 0, 0, 1, 0, 0, 0, 0, 0, 8,
    // The base: 5 bytes of it are visible, and it lies in 28 bytes of server 0, file 0, from offset 6 on.
    1, 0, 0, 0, 5, 0, 0, 0, 28, 1, 0, 0, 0, 0, 0, 0, 0, 0, 0, 6,
    // One entry at 0, of one byte of server 0, file 0, at offset 5.
    0, 0, 0, 1, 0, 0, 0, 0, 0, 0, 0, 1, 1, 1, 0, 0, 0, 0, 0, 0, 0, 0, 0, 5,
];

/// What file 0 of server 0 then holds: six bytes, and a list of one entry at 2, of the first four of them.
pub(crate) const SPILLED_STORE: &[u8] =
    b"abcdefWTFL\x00\x00\x00\x01\x00\x00\x00\x02\x00\x00\x00\x04\x01\x01\x00\x00\x00\x00\x00\x00\x00\x00\x00\x00";

/// Paths `/` and `/a/b`, both directories, and no file: what may stand behind the first 30 bytes.
const NO_PARENT: [u8; 19] = [
    0, 0, 0, 2, 0, 1, 0x2f, 0, 0, 4, 0x2f, 0x61, 0x2f, 0x62, 0, 0, 0, 0, 0,
];

/// An image, what the store of server 0 holds, and what is loaded: the servers, the replicas, the size of a region, the
/// next transaction, and the number of installs.
pub(crate) struct Loads {
    pub(crate) image: &'static [u8],
    pub(crate) stored: &'static [u8],
    pub(crate) numbers: (u8, u8, u32, u64, u64),
}

pub(crate) const LOADED: [Loads; 3] = [
    Loads {
        image: EMPTY_IMAGE,
        stored: b"",
        numbers: (4, 2, 65_536, 1, 0),
    },
    Loads {
        image: &FILE_IMAGE,
        stored: b"abcdef",
        numbers: (1, 1, 64, 2, 3),
    },
    Loads {
        image: &SPILLED_IMAGE,
        stored: SPILLED_STORE,
        numbers: (1, 1, 64, 2, 3),
    },
];

/// What is refused of the image with a spilled list, where the byte at a place is this one.
const SPOILED: [(usize, u8, Option<LoadError>); 12] = [
    // How far the list is seen: to the end, not at all, and past the end.
    (85, 8, None),
    (85, 0, Some(LoadError::NotAnImage)),
    (85, 9, Some(LoadError::NotAnImage)),
    // Neither no list nor one.
    (81, 2, Some(LoadError::NotAnImage)),
    // The length of its slice: none, and past the store.
    (89, 0, Some(LoadError::NotAnImage)),
    (89, 29, Some(LoadError::PointerOutside)),
    // Its offset: past 2^63 - 1, and past the store.
    (93, 128, Some(LoadError::NotAnImage)),
    (100, 7, Some(LoadError::PointerOutside)),
    // A server and a file that are not there.
    (91, 1, Some(LoadError::PointerOutside)),
    (92, 8, Some(LoadError::PointerOutside)),
    // The region ends past 64 bytes; and there is no server.
    (80, 65, Some(LoadError::BadTree)),
    (8, 0, Some(LoadError::BadSettings)),
];

pub(crate) fn joined(alloc: Global, front: &[u8], back: &[u8]) -> Result<Vec<u8>, Fail> {
    let mut out = front.to_vec(alloc)?;
    out.extend_from_slice(back)?;
    Ok(out)
}

/// 16 stores; file 0 of the first has these bytes.
pub(crate) fn holding(alloc: Global, bytes: &[u8]) -> Result<Shelf<MemStore>, Fail> {
    let mut shelf = stores(alloc, 16, 0, None)?;
    if shelf.len() > 0 {
        shelf.store(0).append(0, bytes).ok().ok_or("stored")?;
    }
    Ok(shelf)
}

/// What is loaded of an image over 16 stores.
fn load_over(alloc: Global, image: &[u8], shelf: &Shelf<MemStore>) -> Result<Loaded, LoadError> {
    if shelf.len() != 16 {
        return Err(LoadError::Memory);
    }
    load(alloc, image, shelf)
}

pub(crate) fn loaded(alloc: Global, image: &[u8], stored: &[u8]) -> Result<Loaded, Fail> {
    let shelf = holding(alloc, stored)?;
    Ok(load_over(alloc, image, &shelf)?)
}

/// Why an image is not loaded.
pub(crate) fn refusal(
    alloc: Global,
    image: &[u8],
    stored: &[u8],
) -> Result<Option<LoadError>, Fail> {
    let shelf = holding(alloc, stored)?;
    Ok(load_over(alloc, image, &shelf).err())
}

/// Why an image is refused with no look at its tree and its pointers.
fn early_refusal(alloc: Global, image: &[u8]) -> Option<LoadError> {
    check(alloc, image).err()
}

/// Whether what was loaded is saved as this image.
pub(crate) fn is_saved_as(alloc: Global, loaded: &Loaded, image: &[u8]) -> Result<bool, Fail> {
    let saved = save(alloc, &loaded.kv, loaded.settings, loaded.next_tx)?;
    Ok(saved.as_slice() == image)
}

/// The settings and the numbers that were loaded.
pub(crate) fn numbers_of(loaded: &Loaded) -> (u8, u8, u32, u64, u64) {
    let settings = loaded.settings;
    (
        settings.servers,
        settings.replicas,
        settings.region,
        loaded.next_tx,
        loaded.kv.number(),
    )
}

/// How far the spilled list of a region is seen, and the length of its slice; zeros where it has none.
fn spilled(region: &RegionValue) -> (u32, u32) {
    match region.base {
        Some(spill) => (spill.visible, spill.slice.len()),
        None => (0, 0),
    }
}

/// Whether region 0 of the file ends there, and has so many entries and this spilled list.
fn is_region(loaded: &Loaded, end: u32, entries: usize, list: (u32, u32)) -> bool {
    let inode = InodeId {
        tx: TxId(1),
        index: 2,
    };
    match loaded
        .kv
        .read_at(loaded.kv.number(), &Key::Region(inode, 0))
    {
        Some(Value::Region(region)) => {
            region.end == end && region.list.len() == entries && spilled(region) == list
        }
        _ => false,
    }
}

/// Whether the root has this name.
fn has_name(alloc: Global, loaded: &Loaded, name: &[u8]) -> Result<bool, Fail> {
    let key = Key::Dir(Path::parse(alloc, b"/")?);
    match loaded.kv.read_at(loaded.kv.number(), &key) {
        Some(Value::Names(names)) => Ok(names.contains(name)),
        _ => Ok(false),
    }
}

/// Whether an image is loaded with these numbers, and saved again as it was.
fn is_loaded(alloc: Global, row: &Loads) -> Result<bool, Fail> {
    let loaded = loaded(alloc, row.image, row.stored)?;
    let numbers = numbers_of(&loaded) == row.numbers;
    Ok(
        is_saved_as(alloc, &loaded, row.image)?
            && numbers
            && early_refusal(alloc, row.image).is_none(),
    )
}

/// Whether the file of an image is read as it should be.
fn is_file_read(alloc: Global) -> Result<bool, Fail> {
    let loaded = loaded(alloc, &FILE_IMAGE, b"abcdef")?;
    Ok(has_name(alloc, &loaded, b"a")? && is_region(&loaded, 6, 1, (0, 0)))
}

fn is_list_read(alloc: Global) -> Result<bool, Fail> {
    let loaded = loaded(alloc, &SPILLED_IMAGE, SPILLED_STORE)?;
    Ok(is_region(&loaded, 8, 1, (5, 28)))
}

/// Whether an image is refused like this, over what server 0 holds.
fn is_refused(
    alloc: Global,
    image: &[u8],
    stored: &[u8],
    want: Option<LoadError>,
) -> Result<bool, Fail> {
    Ok(refusal(alloc, image, stored)? == want)
}

fn is_orphan_refused(alloc: Global) -> Result<bool, Fail> {
    let orphan = joined(alloc, &FILE_IMAGE[..30], &NO_PARENT)?;
    is_refused(alloc, orphan.as_slice(), b"", Some(LoadError::BadTree))
}

/// Whether the image of an empty store is refused where it has no server, with and without a look at the rest.
fn is_no_server_refused(alloc: Global) -> Result<bool, Fail> {
    let image = spoiled(alloc, EMPTY_IMAGE, 8, 0)?;
    let early = early_refusal(alloc, image.as_slice()) == Some(LoadError::BadSettings);
    Ok(is_refused(alloc, image.as_slice(), b"", Some(LoadError::BadSettings))? && early)
}

/// Whether a byte behind an image makes it none.
fn is_longer_refused(alloc: Global) -> Result<bool, Fail> {
    let longer = joined(alloc, &FILE_IMAGE, b"!")?;
    Ok(early_refusal(alloc, longer.as_slice()) == Some(LoadError::NotAnImage))
}

/// The length of the first front of an image that is one, or of the whole.
fn first_front(alloc: Global) -> usize {
    for n in 0..FILE_IMAGE.len() {
        if early_refusal(alloc, &FILE_IMAGE[..n]) != Some(LoadError::NotAnImage) {
            return n;
        }
    }
    FILE_IMAGE.len()
}

/// Whether the image with a spilled list is refused like this where the byte at a place is this one.
fn is_list_refused(alloc: Global, row: &(usize, u8, Option<LoadError>)) -> Result<bool, Fail> {
    let image = spoiled(alloc, &SPILLED_IMAGE, row.0, row.1)?;
    is_refused(alloc, image.as_slice(), SPILLED_STORE, row.2)
}

/// The number of installs of an image that is loaded where server 1 is lost, over 16 stores.
fn load_without_one(
    alloc: Global,
    image: &[u8],
    shelf: &Shelf<MemStore>,
) -> Result<u64, LoadError> {
    if shelf.len() != 16 {
        return Err(LoadError::Memory);
    }
    let loaded = load_without(alloc, image, shelf, 2)?;
    Ok(loaded.kv.number())
}

/// The same, where file 0 of server 0 holds six bytes, and no other server does.
fn number_without_one(alloc: Global, image: &[u8]) -> Result<u64, Fail> {
    let shelf = holding(alloc, b"abcdef")?;
    Ok(load_without_one(alloc, image, &shelf)?)
}

#[test]
fn images_are_loaded_and_saved_again(rt: HostRuntime) -> Result<(), Fail> {
    for row in LOADED.iter() {
        assert!(rt; is_loaded(rt.alloc(), row)?);
    }
    Ok(())
}

#[test]
fn a_file_is_read(rt: HostRuntime) -> Result<(), Fail> {
    assert!(rt; is_file_read(rt.alloc())?);
    Ok(())
}

#[test]
fn a_spilled_list_is_read(rt: HostRuntime) -> Result<(), Fail> {
    assert!(rt; is_list_read(rt.alloc())?);
    Ok(())
}

#[test]
fn refuses_in_order(rt: HostRuntime) -> Result<(), Fail> {
    let outside = Some(LoadError::PointerOutside);
    assert!(rt; is_refused(rt.alloc(), &FILE_IMAGE, b"abcdef", None)?);
    assert!(rt; is_refused(rt.alloc(), &FILE_IMAGE, b"abcde", outside)?);
    assert!(rt; is_orphan_refused(rt.alloc())?);
    assert!(rt; is_no_server_refused(rt.alloc())?);
    Ok(())
}

#[test]
fn other_shapes_are_no_image(rt: HostRuntime) -> Result<(), Fail> {
    assert!(rt; is_no_server_refused(rt.alloc())?);
    assert!(rt; is_longer_refused(rt.alloc())?);
    assert_eq!(rt; first_front(rt.alloc()), FILE_IMAGE.len());
    Ok(())
}

#[test]
fn spilled_lists_are_refused(rt: HostRuntime) -> Result<(), Fail> {
    for row in SPOILED.iter() {
        assert!(rt; is_list_refused(rt.alloc(), row)?, "byte {}", row.0);
    }
    Ok(())
}

#[test]
fn the_store_of_a_lost_server_is_not_tried(rt: HostRuntime) -> Result<(), Fail> {
    let outside = Some(LoadError::PointerOutside);
    assert!(rt; is_refused(rt.alloc(), &COPIED_IMAGE, b"abcdef", outside)?);
    assert!(rt; is_refused(rt.alloc(), &FILE_IMAGE, b"abcdef", None)?);
    assert_eq!(rt; number_without_one(rt.alloc(), &COPIED_IMAGE)?, 3);
    assert_eq!(rt; number_without_one(rt.alloc(), &FILE_IMAGE)?, 3);
    Ok(())
}
