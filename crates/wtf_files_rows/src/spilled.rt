//! Lists of regions that lie in slices, over stores in memory.

ghost use Rattle.std.specs.Prelude.{◌≡◌, [], IfOk, OnOk};
ghost use Rattle.wtf_dev.specs.Memory.{mem_store};
ghost use Rattle.wtf_meta.specs.Bytes.{SliceBytes};
ghost use Rattle.wtf_region.specs.Devs.{IsSoundDev, GoesOn, inside_of};
ghost use Rattle.wtf_replica.specs.Downs.{settings_of};

use crate::store::{NEVER, Parts, made_parts, stored};
use crate::texts::{put_fault, put_number};
use std::alloc::Global;
use std::test::Fail;
use wtf_base::{Fault, Settings, Slice};
use wtf_dev::MemStore;
use wtf_overlay::Overlay;
use wtf_region::{Dev, region_list};
use wtf_replica::Replicas;
use wtf_values::RegionValue;

/// A list of one entry, at 2, of four bytes: those of file 3 from offset 0 on, on both servers. That is where the list
/// itself is stored, since region 0 of the file goes to file 3.
const LIST: &[u8] =
    b"WTFL\x00\x00\x00\x01\x00\x00\x00\x02\x00\x00\x00\x04\x01\x02\x00\x03\x00\x00\x00\x00\x00\x00\x00\x00\x01\x03\x00\x00\x00\x00\x00\x00\x00\x00";

/// A place of the list and the byte that stands there, how far a region sees the list, whether it was read before, which
/// of the servers are down, and what comes: where each entry begins, and how long it is.
type Row = ((usize, u8), u32, bool, (bool, bool), &'static str);

static ROWS: [Row; 14] = [
    ((0, b'W'), 64, false, (false, false), "2+4"),
    ((0, b'W'), 5, false, (false, false), "2+3"),
    ((0, b'W'), 2, false, (false, false), ""),
    // A copy on either server serves, and a list that is remembered wants none.
    ((0, b'W'), 64, false, (true, false), "2+4"),
    ((0, b'W'), 64, false, (false, true), "2+4"),
    ((0, b'W'), 64, false, (true, true), "fault read 1"),
    ((0, b'W'), 2, false, (true, true), "fault read 1"),
    ((0, b'W'), 5, true, (true, true), "2+3"),
    // No list: another first byte, and an entry past the region. It is not remembered.
    ((0, b'V'), 64, false, (false, false), "damaged 0"),
    ((0, b'V'), 64, false, (true, false), "damaged 1"),
    ((11, 61), 64, false, (false, false), "damaged 0"),
    ((0, b'V'), 64, true, (true, true), "fault read 1"),
    // A list of bytes past the end of a store, and one that reaches it.
    ((37, 35), 64, false, (false, true), "damaged 0"),
    ((37, 34), 64, false, (false, false), "2+4"),
];

/// The list with another byte at a place.
fn list_with(alloc: Global, place: (usize, u8)) -> Result<Vec<u8>, Fail> {
    let mut list = LIST.to_vec(alloc)?;
    if let Some(byte) = list.get_mut(place.0) {
        *byte = place.1;
    }
    Ok(list)
}

fn put_entries(shown: &mut String, list: &Overlay) -> Result<(), Fail> {
    for i in 0..list.len() {
        let entry = list.get(i);
        let between = if i > 0 { " " } else { "" };
        put_number(shown, between, entry.off as u64)?;
        put_number(shown, "+", entry.len as u64)?;
    }
    Ok(())
}

fn put_list(shown: &mut String, list: &Result<Overlay, Fault>) -> Result<(), Fail> {
    match list {
        Ok(list) => put_entries(shown, list),
        Err(why) => put_fault(shown, *why),
    }
}

/// Whether what came of a list is written so.
fn is_list(alloc: Global, list: &Result<Overlay, Fault>, want: &str) -> Result<bool, Fail> {
    let mut shown = String::new(alloc);
    put_list(&mut shown, list)?;
    Ok(shown.as_str() == want)
}

/// What comes of the list of a region that sees so much of the one in a slice.
fn list_came(
    alloc: Global,
    dev: &mut Dev<'_, MemStore>,
    slice: Slice,
    visible: u32,
) -> Result<Result<Overlay, Fault>, Fail>
    requires sound { IsSoundDev mem_store dev.old }
    requires bytes { SliceBytes (inside_of mem_store dev.old) slice }
    ensures { OnOk result (GoesOn mem_store dev.old dev.new []) }
{
    if visible < 1 {
        return Err(Fail::from("nothing to be seen"));
    }
    let value = RegionValue::of_slice(alloc, slice, visible)?;
    let list = region_list(alloc, dev, &value);
    Ok(list)
}

/// Stores a list, and reads it where it is to be read before.
fn list_stored(
    alloc: Global,
    dev: &mut Dev<'_, MemStore>,
    bytes: &[u8],
    before: bool,
) -> Result<Slice, Fail>
    requires { IsSoundDev mem_store dev.old }
    ensures sound { OnOk result (IsSoundDev mem_store dev.new) }
    ensures settings { OnOk result (dev.new.settings ≡ dev.old.settings) }
    ensures bytes { IfOk result (SliceBytes (inside_of mem_store dev.new)) }
{
    let slice = stored(dev, 0, bytes)?;
    if before {
        let _list = list_came(alloc, dev, slice, 64)?;
        return Ok(slice);
    }
    Ok(slice)
}

/// The servers, some of which are down.
fn servers_left(settings: Settings, down: (bool, bool)) -> Replicas
    requires { settings.servers ≡ 2 }
    ensures { settings_of result ≡ settings }
{
    let mut replicas = Replicas::new(settings);
    if down.0 {
        replicas.down(0);
    }
    if down.1 {
        replicas.down(1);
    }
    replicas
}

/// What comes of a row with this list.
fn row_came(alloc: Global, bytes: &[u8], row: &Row) -> Result<Result<Overlay, Fault>, Fail> {
    let Parts {
        mut shelf,
        replicas,
        ring,
        mut cache,
        settings,
    } = made_parts(alloc, NEVER, 2)?;
    let left = servers_left(settings, row.3);
    let mut dev = Dev {
        shelf: &mut shelf,
        replicas: &replicas,
        ring: &ring,
        cache: &mut cache,
        settings,
    };
    let slice = list_stored(alloc, &mut dev, bytes, row.2)?;
    dev.replicas = &left;
    list_came(alloc, &mut dev, slice, row.1)
}

/// Whether it is what should come.
fn row_comes_of(alloc: Global, bytes: &[u8], row: &Row) -> Result<bool, Fail> {
    let came = row_came(alloc, bytes, row)?;
    is_list(alloc, &came, row.4)
}

fn row_comes(alloc: Global, row: &Row) -> Result<bool, Fail> {
    let bytes = list_with(alloc, row.0)?;
    row_comes_of(alloc, bytes.as_slice(), row)
}

/// How many rows come as they should, before the first that does not.
fn rows_come(alloc: Global) -> Result<usize, Fail> {
    let mut same = 0usize;
    for row in &ROWS {
        if !row_comes(alloc, row)? {
            return Ok(same);
        }
        same = same.saturating_add(1);
    }
    Ok(same)
}

#[test]
fn lists_in_slices_are_read(rt: HostRuntime) -> Result<(), Fail> {
    let came = rows_come(rt.alloc())?;
    assert_eq!(rt; came, ROWS.len());
    Ok(())
}
