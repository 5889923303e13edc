//! Files of regions of 64 bytes, over stores in memory.

ghost use Rattle.std.specs.Prelude.{IfOk, OnOk};
ghost use Rattle.wtf_dev.specs.Memory.{mem_store};
ghost use Rattle.wtf_meta.specs.Maps.{seen};
ghost use Rattle.wtf_region.specs.Devs.{IsSoundDev, stores};
ghost use Rattle.wtf_region.specs.Inside.{IsStoredInside};
ghost use Rattle.wtf_files_rows.specs.Benches.{IsBareMap};

use crate::store::{FILE, NEVER, made_parts, pinned, settings, stored};
use std::alloc::Global;
use std::test::Fail;
use wtf_dev::MemStore;
use wtf_kv::Kv;
use wtf_meta::{Delta, Key, Value};
use wtf_occ::Attempt;
use wtf_overlay::{Overlay, Part, Piece};
use wtf_region::{
    Added, Dev, FileEnd, add_at, add_pieces, file_end, file_len, pieces, put_pieces, region_list,
    show,
};
use wtf_values::RegionValue;

/// Stores ten digits, and lays them over the file at an offset.
fn laid(
    dev: &mut Dev<'_, MemStore>,
    kv: &Kv<Key, Value>,
    at: &mut Attempt<Key, Value>,
    off: u64,
) -> Result<(), Fail>
    requires sound { IsSoundDev mem_store dev.old }
    requires bare { IsBareMap (seen kv.now at.old) }
    ensures sound { OnOk result (IsSoundDev mem_store dev.new) }
    ensures inside { OnOk result (IsStoredInside mem_store (stores dev.new) dev.new.settings
        (seen kv.now at.new)) }
{
    let slice = stored(dev, off, b"0123456789")?;
    let len = slice.len() as u64;
    if off > 1000 || len > 1000 {
        return Err(Fail::from("a range that is too long"));
    }
    put_pieces(
        at,
        FILE,
        off,
        &[Piece::of(len, Part::Held(slice))],
        dev.settings,
    )?;
    Ok(())
}

fn have_lens(found: &[Piece], want: &[u64]) -> bool {
    let mut same = found.len() == want.len();
    for (piece, len) in found.iter().zip(want) {
        same = same && piece.len == *len;
    }
    same
}

/// Whether the pieces of a range of the file have these lengths.
fn are_pieces(
    alloc: Global,
    dev: &mut Dev<'_, MemStore>,
    kv: &Kv<Key, Value>,
    at: &mut Attempt<Key, Value>,
    range: (u64, u64),
    want: &[u64],
) -> Result<bool, Fail>
    requires sound { IsSoundDev mem_store dev.old }
    requires inside { IsStoredInside mem_store (stores dev.old) dev.old.settings
        (seen kv.now at.old) }
    ensures { OnOk result (IsSoundDev mem_store dev.new) }
{
    let (off, len) = range;
    let cap = dev.settings.cap();
    if off > cap || len > cap - off || !kv.is_pinned(at.base()) {
        return Err(Fail::from("a range past the greatest length"));
    }
    let found = pieces(alloc, dev, kv, at, FILE, off, len)?;
    Ok(have_lens(found.as_slice(), want))
}

/// A region of the file.
fn region_of(
    kv: &Kv<Key, Value>,
    at: &mut Attempt<Key, Value>,
    region: u16,
) -> Result<RegionValue, Fail> {
    if !kv.is_pinned(at.base()) {
        return Err(Fail::from("no pin"));
    }
    match at.read(kv, &Key::Region(FILE, region))? {
        Some(Value::Region(value)) => Ok(value),
        _ => Err(Fail::from("no region")),
    }
}

/// Whether a list has one entry, that begins there and is so long.
fn is_one(list: &Overlay, off: u32, len: u32) -> bool {
    if list.len() != 1 {
        return false;
    }
    let entry = list.get(0);
    entry.off == off && entry.len == len
}

/// Whether the list of a region of the file has one entry, that begins there and is so long.
fn is_one_of(
    alloc: Global,
    dev: &mut Dev<'_, MemStore>,
    value: &RegionValue,
    want: (u32, u32),
) -> Result<bool, Fail>
    requires { IsSoundDev mem_store dev.old }
{
    if value.base.is_some() {
        return Err(Fail::from("a list in a slice"));
    }
    let list = region_list(alloc, dev, value)?;
    Ok(is_one(&list, want.0, want.1))
}

fn len(kv: &Kv<Key, Value>, at: &mut Attempt<Key, Value>) -> Result<u64, Fail> {
    if !kv.is_pinned(at.base()) {
        return Err(Fail::from("no pin"));
    }
    Ok(file_len(kv, at, FILE, settings()?)?)
}

fn end(kv: &Kv<Key, Value>, at: &mut Attempt<Key, Value>) -> Result<FileEnd, Fail> {
    if !kv.is_pinned(at.base()) {
        return Err(Fail::from("no pin"));
    }
    Ok(file_end(kv, at, FILE))
}

/// Adds so many zeros at the end of the file.
fn zeros_added(
    alloc: Global,
    kv: &Kv<Key, Value>,
    at: &mut Attempt<Key, Value>,
    len: u64,
) -> Result<Added, Fail> {
    if len < 1 || !kv.is_pinned(at.base()) {
        return Err(Fail::from("no zeros, or no pin"));
    }
    let piece = Piece::of(len, Part::Zero);
    Ok(add_pieces(alloc, kv, at, FILE, &[piece], settings()?)?)
}

/// Adds so many zeros where the file ends.
fn zeros_added_at(
    alloc: Global,
    at: &mut Attempt<Key, Value>,
    end: FileEnd,
    len: u64,
) -> Result<Added, Fail> {
    if len < 1 {
        return Err(Fail::from("no zeros"));
    }
    let piece = Piece::of(len, Part::Zero);
    Ok(add_at(alloc, at, FILE, end, &[piece], settings()?)?)
}

/// A store that is pinned, and an attempt that has made the file.
fn begun(alloc: Global) -> Result<(Kv<Key, Value>, Attempt<Key, Value>), Fail>
    ensures bare { IfOk result (λ r. IsBareMap (seen r.0 r.1)) }
{
    let mut at = Attempt::new(alloc, 0)?;
    at.delta(Key::Inode(FILE), Delta::Put(Value::Last(0)))?;
    let kv = pinned(alloc)?;
    Ok((kv, at))
}

/// Writes ten digits at offset 60: whether they lie in two pieces, and in one entry of the second
/// region.
fn are_laid_over(
    alloc: Global,
    dev: &mut Dev<'_, MemStore>,
    kv: &Kv<Key, Value>,
    at: &mut Attempt<Key, Value>,
) -> Result<bool, Fail>
    requires sound { IsSoundDev mem_store dev.old }
    requires bare { IsBareMap (seen kv.now at.old) }
{
    laid(dev, kv, at, 60)?;
    let cut = are_pieces(alloc, dev, kv, at, (60, 10), &[4, 6])?;
    let value = region_of(kv, at, 1)?;
    let listed = is_one_of(alloc, dev, &value, (0, 6))?;
    Ok(cut && listed)
}

fn are_laid(alloc: Global, kv: &Kv<Key, Value>, at: &mut Attempt<Key, Value>) -> Result<bool, Fail>
    requires { IsBareMap (seen kv.now at.old) }
{
    let mut parts = made_parts(alloc, NEVER, 2)?;
    let mut dev = Dev {
        shelf: &mut parts.shelf,
        replicas: &parts.replicas,
        ring: &parts.ring,
        cache: &mut parts.cache,
        settings: parts.settings,
    };
    are_laid_over(alloc, &mut dev, kv, at)
}

/// Whether an addition of so many zeros comes so, and leaves the file with this length.
fn comes(
    alloc: Global,
    kv: &Kv<Key, Value>,
    at: &mut Attempt<Key, Value>,
    row: (u64, Added, u64),
) -> Result<bool, Fail> {
    let came = zeros_added(alloc, kv, at, row.0)?;
    let whole = len(kv, at)?;
    Ok(came == row.1 && whole == row.2)
}

/// The digits, the length, too many zeros, as many as are left, and the end.
fn steps_over_a_border(
    alloc: Global,
    kv: &Kv<Key, Value>,
    at: &mut Attempt<Key, Value>,
) -> Result<bool, Fail>
    requires { IsBareMap (seen kv.now at.old) }
{
    let digits = are_laid(alloc, kv, at)?;
    let whole = len(kv, at)?;
    // Of 262,144 bytes at most 262,074 are left.
    let more = comes(alloc, kv, at, (262_075, Added::TooBig, 70))?;
    let most = comes(alloc, kv, at, (262_074, Added::Done, 262_144))?;
    let FileEnd { region, off } = end(kv, at)?;
    Ok(digits && whole == 70 && more && most && region == 4095 && off == 64)
}

fn over_a_border(alloc: Global) -> Result<bool, Fail> {
    let (kv, mut at) = begun(alloc)?;
    steps_over_a_border(alloc, &kv, &mut at)
}

#[test]
fn a_write_over_a_border_and_an_append_past_the_end(rt: HostRuntime) -> Result<(), Fail> {
    let came = over_a_border(rt.alloc())?;
    assert!(rt; came);
    Ok(())
}

/// Adds zeros where the file ends: whether what came of that, the file's length and its end are right.
fn steps_at_the_end(
    alloc: Global,
    kv: &Kv<Key, Value>,
    at: &mut Attempt<Key, Value>,
) -> Result<bool, Fail> {
    let from = end(kv, at)?;
    let came = zeros_added_at(alloc, at, from, 70)?;
    let whole = len(kv, at)?;
    let FileEnd { region, off } = end(kv, at)?;
    Ok(came == Added::Done && whole == 70 && region == 1 && off == 6)
}

fn at_the_end(alloc: Global) -> Result<bool, Fail> {
    let (kv, mut at) = begun(alloc)?;
    steps_at_the_end(alloc, &kv, &mut at)
}

#[test]
fn zeros_are_added_where_the_file_ends(rt: HostRuntime) -> Result<(), Fail> {
    let came = at_the_end(rt.alloc())?;
    assert!(rt; came);
    Ok(())
}

/// Stores ten digits, and shows the middle of two zeros with the digits behind them.
fn show_middle(dev: &mut Dev<'_, MemStore>, out: &mut Vec<u8>) -> Result<(), Fail>
    requires { IsSoundDev mem_store dev.old }
{
    let slice = stored(dev, 64, b"0123456789")?;
    let len = slice.len() as u64;
    if len < 10 {
        return Err(Fail::from("too few digits"));
    }
    let zeros = Piece::of(2, Part::Zero);
    let digits = Piece::of(len, Part::Held(slice));
    show(dev, &[zeros, digits], 1, 5, out)?;
    Ok(())
}

/// Shows them behind what stands there.
fn add_middle(alloc: Global, out: &mut Vec<u8>) -> Result<(), Fail> {
    let mut parts = made_parts(alloc, NEVER, 2)?;
    let mut dev = Dev {
        shelf: &mut parts.shelf,
        replicas: &parts.replicas,
        ring: &parts.ring,
        cache: &mut parts.cache,
        settings: parts.settings,
    };
    show_middle(&mut dev, out)
}

/// Whether they are shown behind a byte.
fn is_middle_shown(alloc: Global) -> Result<bool, Fail> {
    let mut out = b"x".to_vec(alloc)?;
    add_middle(alloc, &mut out)?;
    Ok(out.as_slice() == b"x\x000123".as_slice())
}

#[test]
fn what_is_stored_is_shown(rt: HostRuntime) -> Result<(), Fail> {
    let shown = is_middle_shown(rt.alloc())?;
    assert!(rt; shown);
    Ok(())
}
