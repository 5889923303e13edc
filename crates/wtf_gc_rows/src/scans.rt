//! A collector over two servers in memory, with two copies of each slice.

ghost use Rattle.std.specs.Prelude.{◌≡◌, List, Bool, length, IfOk, OnOk};
ghost use Rattle.std.specs.List.{All};
ghost use Rattle.wtf_overlay.specs.Clips.{Within};
ghost use Rattle.wtf_overlay.specs.Origin.{Place};
ghost use Rattle.wtf_meta.specs.Bytes.{SliceBytes, EntryBytes, RegionBytes, EditsBytes, any_slice};
ghost use Rattle.wtf_dev.specs.Memory.{mem_store};
ghost use Rattle.wtf_region.specs.Devs.{IsSoundDev, inside_of};
ghost use Rattle.wtf_gc_rows.specs.Ready.{IsGcReady, IsSameLent};

use std::alloc::Global;
use std::test::Fail;
use wtf_base::{Fault, InodeId, Settings, Slice, TxId};
use wtf_dev::{MemStore, Shelf};
use wtf_gc::Gc;
use wtf_kv::{Changes, Kv};
use wtf_meta::{Delta, Key, RegionValue, Value};
use wtf_overlay::{Entry, Overlay, Part};
use wtf_region::{Dev, RegionCache, store_bytes};
use wtf_replica::Replicas;
use wtf_ring::Ring;
use wtf_spillfmt::encode;

/// A file with one region.
const FILE: InodeId = InodeId {
    tx: TxId(1),
    index: 1,
};

/// What is added to the server of a collection that failed.
const FAILED: u64 = 900;

/// What is done with a collector.
#[derive(Clone, Copy)]
enum Step {
    /// Stores ten bytes that nothing names.
    Stray,
    /// Gives the file four bytes that are stored, in place of what it had.
    Write,
    /// Gives the file a list that is stored, and names four bytes.
    Spill,
    /// Removes the region of the file.
    Remove,
    /// Pins the number.
    Pin,
    Unpin(u64),
    /// How often a number is pinned.
    Pins(u64),
    Begin,
    Piece(u8),
    /// Begins a scan and does all of its parts.
    Scan,
    Running,
    Finished,
    Collect(u8),
    /// Collects while the server is down.
    CollectDown(u8),
}

/// Bytes that were written over are garbage once two scans have not found them, and are freed once.
const OVER: [(Step, u64); 14] = [
    (Step::Stray, 0),
    (Step::Write, 1),
    (Step::Write, 2),
    (Step::Finished, 0),
    (Step::Running, 0),
    (Step::Collect(0), 0),
    (Step::Scan, 0),
    (Step::Collect(0), 0),
    (Step::Scan, 0),
    (Step::Finished, 2),
    (Step::Collect(0), 14),
    (Step::Collect(1), 14),
    (Step::Collect(0), 0),
    (Step::Collect(1), 0),
];

/// What a pinned number sees is in use until its pin is undone, and garbage once two scans began after that.
const PINNED: [(Step, u64); 13] = [
    (Step::Write, 1),
    (Step::Pin, 0),
    (Step::Pins(1), 1),
    (Step::Remove, 2),
    (Step::Scan, 0),
    (Step::Unpin(1), 0),
    (Step::Pins(1), 0),
    (Step::Scan, 0),
    (Step::Collect(0), 0),
    (Step::Scan, 0),
    (Step::Collect(0), 4),
    (Step::Collect(1), 4),
    (Step::Finished, 3),
];

/// A scan goes on behind installs: what was there when it began is found in its later parts too, and by the next scan no
/// more. It pins what it sees until it is done.
const BETWEEN: [(Step, u64); 15] = [
    (Step::Write, 1),
    (Step::Begin, 0),
    (Step::Running, 1),
    (Step::Pins(1), 1),
    (Step::Piece(1), 63),
    (Step::Write, 2),
    (Step::Piece(59), 4),
    (Step::Piece(10), 0),
    (Step::Running, 0),
    (Step::Pins(1), 0),
    (Step::Finished, 1),
    (Step::Scan, 0),
    (Step::Collect(0), 0),
    (Step::Scan, 0),
    (Step::Collect(0), 4),
];

/// A list that is stored has 38 bytes. It is in use, and so are the four bytes that it names alone, until it is not named.
const SPILLED: [(Step, u64); 11] = [
    (Step::Stray, 0),
    (Step::Spill, 1),
    (Step::Scan, 0),
    (Step::Scan, 0),
    (Step::Collect(0), 10),
    (Step::Collect(0), 0),
    (Step::Remove, 2),
    (Step::Scan, 0),
    (Step::Scan, 0),
    (Step::Collect(0), 42),
    (Step::Collect(1), 52),
];

/// The fifth call of the store of server 0 fails, which is to free the second range: the first one is freed, the second by
/// the next collection.
const FAILING: [(Step, u64); 9] = [
    (Step::Stray, 0),
    (Step::Write, 1),
    (Step::Stray, 0),
    (Step::Scan, 0),
    (Step::Scan, 0),
    (Step::Collect(0), FAILED),
    (Step::Collect(0), 10),
    (Step::Collect(0), 0),
    (Step::Collect(1), 20),
];

/// A server that is down frees nothing, and what it has of garbage stays to be freed.
const DOWN: [(Step, u64); 7] = [
    (Step::Stray, 0),
    (Step::Scan, 0),
    (Step::Scan, 0),
    (Step::CollectDown(1), FAILED + 1),
    (Step::CollectDown(0), FAILED),
    (Step::Collect(0), 10),
    (Step::Collect(1), 10),
];

fn begin(dev: &mut Dev<'_, MemStore>, kv: &mut Kv<Key, Value>, gc: &mut Gc) -> Result<u64, Fail>
    requires { IsGcReady dev.old kv.old gc.old }
    ensures { OnOk result (IsGcReady dev.new kv.new gc.new) }
{
    if gc.running() {
        return Err(Fail::from("a scan runs"));
    }
    gc.scan_begin(kv, &*dev.shelf)?;
    Ok(0)
}

fn piece(
    dev: &mut Dev<'_, MemStore>,
    kv: &mut Kv<Key, Value>,
    gc: &mut Gc,
    parts: u8,
) -> Result<u64, Fail>
    requires { IsGcReady dev.old kv.old gc.old }
    ensures { OnOk result (IsGcReady dev.new kv.new gc.new) }
{
    if !gc.running() {
        return Err(Fail::from("no scan runs"));
    }
    let left = gc.scan_piece(dev, kv, parts)?;
    Ok(left as u64)
}

fn scan(dev: &mut Dev<'_, MemStore>, kv: &mut Kv<Key, Value>, gc: &mut Gc) -> Result<u64, Fail>
    requires { IsGcReady dev.old kv.old gc.old }
    ensures { OnOk result (IsGcReady dev.new kv.new gc.new) }
{
    let _begun = begin(dev, kv, gc)?;
    piece(dev, kv, gc, 64)
}

fn collect(
    dev: &mut Dev<'_, MemStore>,
    kv: &Kv<Key, Value>,
    gc: &mut Gc,
    k: u8,
) -> Result<u64, Fail>
    requires { IsGcReady dev.old kv.now gc.old }
    ensures ready { OnOk result (IsGcReady dev.new kv.now gc.new) }
    ensures lent { IsSameLent dev.old dev.new }
{
    if k >= dev.settings.servers {
        return Err(Fail::from("no such server"));
    }
    match gc.collect(dev, k) {
        Ok(bytes) => return Ok(bytes),
        Err(Fault::Punch(server)) => return Ok(FAILED + server.0 as u64),
        Err(why) => return Err(Fail::from(why)),
    }
}

fn collect_down(
    dev: &mut Dev<'_, MemStore>,
    kv: &Kv<Key, Value>,
    gc: &mut Gc,
    k: u8,
) -> Result<u64, Fail>
    requires { IsGcReady dev.old kv.now gc.old }
    ensures { OnOk result (IsGcReady dev.new kv.now gc.new) }
{
    if k >= dev.settings.servers {
        return Err(Fail::from("no such server"));
    }
    let mut replicas = *dev.replicas;
    replicas.down(k);
    let mut fewer = Dev {
        shelf: &mut *dev.shelf,
        replicas: &replicas,
        ring: dev.ring,
        cache: &mut *dev.cache,
        settings: dev.settings,
    };
    collect(&mut fewer, kv, gc, k)
}

fn pin(dev: &Dev<'_, MemStore>, kv: &mut Kv<Key, Value>, gc: &Gc) -> Result<u64, Fail>
    requires { IsGcReady dev.now kv.old gc.now }
    ensures { OnOk result (IsGcReady dev.now kv.new gc.now) }
{
    let n = kv.number();
    kv.pin(n)?;
    Ok(0)
}

fn unpin(dev: &Dev<'_, MemStore>, kv: &mut Kv<Key, Value>, gc: &Gc, n: u64) -> Result<u64, Fail>
    requires { IsGcReady dev.now kv.old gc.now }
    ensures { OnOk result (IsGcReady dev.now kv.new gc.now) }
{
    if gc.running() {
        return Err(Fail::from("a scan runs"));
    }
    if !kv.is_pinned(n) {
        return Err(Fail::from("no pin"));
    }
    kv.unpin(n);
    Ok(0)
}

/// Installs changes, and answers the number.
fn install(
    dev: &Dev<'_, MemStore>,
    kv: &mut Kv<Key, Value>,
    gc: &Gc,
    changes: &Changes<Key, Value>,
) -> Result<u64, Fail>
    requires ready { IsGcReady dev.now kv.old gc.now }
    requires lie { EditsBytes (inside_of mem_store dev.now) any_slice changes.now }
    ensures { OnOk result (IsGcReady dev.now kv.new gc.now) }
{
    if kv.number() > 1000 {
        return Err(Fail::from("too many installs"));
    }
    let Ok(ready) = kv.reserve_install(changes) else {
        return Err(Fail::from("a change that does not fit"));
    };
    Ok(kv.install(ready))
}

fn remove(
    alloc: Global,
    dev: &Dev<'_, MemStore>,
    kv: &mut Kv<Key, Value>,
    gc: &Gc,
) -> Result<u64, Fail>
    requires { IsGcReady dev.now kv.old gc.now }
    ensures { OnOk result (IsGcReady dev.now kv.new gc.now) }
{
    let mut changes = Changes::new(alloc);
    changes.cut_range(Key::Region(FILE, 0), Key::Region(FILE, 0))?;
    install(dev, kv, gc, &changes)
}

/// Installs what the region of the file is.
fn put(
    alloc: Global,
    dev: &Dev<'_, MemStore>,
    kv: &mut Kv<Key, Value>,
    gc: &Gc,
    value: RegionValue,
) -> Result<u64, Fail>
    requires ready { IsGcReady dev.now kv.old gc.now }
    requires lies { RegionBytes (inside_of mem_store dev.now) any_slice value }
    ensures { OnOk result (IsGcReady dev.now kv.new gc.now) }
{
    let mut changes = Changes::new(alloc);
    changes.delta(Key::Region(FILE, 0), Delta::Put(Value::Region(value)))?;
    install(dev, kv, gc, &changes)
}

/// Stores bytes at the place of the file's region.
fn stored(
    dev: &mut Dev<'_, MemStore>,
    kv: &Kv<Key, Value>,
    gc: &Gc,
    bytes: &[u8],
) -> Result<Slice, Fail>
    requires { IsGcReady dev.old kv.now gc.now }
    ensures ready { OnOk result (IsGcReady dev.new kv.now gc.now) }
    ensures lies { IfOk result (SliceBytes (inside_of mem_store dev.new)) }
{
    if bytes.len() < 1 || bytes.len() > 64 {
        return Err(Fail::from("too many bytes"));
    }
    let slice = store_bytes(dev, FILE, 0, bytes)?;
    Ok(slice)
}

/// The list of one entry, which holds a slice.
fn list_of(alloc: Global, slice: Slice) -> Result<Overlay, Fail>
    ensures within { IfOk result (Within 64) }
    ensures lies { IfOk result (λ list. (P : List Place → Bool) → SliceBytes P slice →
        All (EntryBytes P) list) }
{
    let len = slice.len();
    if len > 64 {
        return Err(Fail::from("a slice that is too long"));
    }
    let mut list = Overlay::new(alloc)?;
    list.push(Entry::of(0, len, Part::Held(slice)))?;
    Ok(list)
}

fn stray(dev: &mut Dev<'_, MemStore>, kv: &Kv<Key, Value>, gc: &Gc) -> Result<u64, Fail>
    requires { IsGcReady dev.old kv.now gc.now }
    ensures { OnOk result (IsGcReady dev.new kv.now gc.now) }
{
    let _slice = stored(dev, kv, gc, b"0123456789")?;
    Ok(0)
}

fn write(
    alloc: Global,
    dev: &mut Dev<'_, MemStore>,
    kv: &mut Kv<Key, Value>,
    gc: &Gc,
) -> Result<u64, Fail>
    requires { IsGcReady dev.old kv.old gc.now }
    ensures { OnOk result (IsGcReady dev.new kv.new gc.now) }
{
    let slice = stored(dev, &*kv, gc, b"abcd")?;
    let value = RegionValue::of_list(list_of(alloc, slice)?, 64);
    put(alloc, &*dev, kv, gc, value)
}

fn spill(
    alloc: Global,
    dev: &mut Dev<'_, MemStore>,
    kv: &mut Kv<Key, Value>,
    gc: &Gc,
) -> Result<u64, Fail>
    requires { IsGcReady dev.old kv.old gc.now }
    ensures { OnOk result (IsGcReady dev.new kv.new gc.now) }
{
    let named = stored(dev, &*kv, gc, b"wxyz")?;
    let list = list_of(alloc, named)?.compact()?;
    let bytes = encode(alloc, &list)?;
    let slice = stored(dev, &*kv, gc, bytes.as_slice())?;
    let value = RegionValue::of_slice(alloc, slice, 64)?;
    put(alloc, &*dev, kv, gc, value)
}

fn came(
    alloc: Global,
    dev: &mut Dev<'_, MemStore>,
    kv: &mut Kv<Key, Value>,
    gc: &mut Gc,
    step: Step,
) -> Result<u64, Fail>
    requires { IsGcReady dev.old kv.old gc.old }
    ensures { OnOk result (IsGcReady dev.new kv.new gc.new) }
{
    match step {
        Step::Stray => return stray(dev, &*kv, &*gc),
        Step::Write => return write(alloc, dev, kv, &*gc),
        Step::Spill => return spill(alloc, dev, kv, &*gc),
        Step::Remove => return remove(alloc, &*dev, kv, &*gc),
        Step::Pin => return pin(&*dev, kv, &*gc),
        Step::Unpin(n) => return unpin(&*dev, kv, &*gc, n),
        Step::Pins(n) => return Ok(kv.times_pinned(n) as u64),
        Step::Begin => return begin(dev, kv, gc),
        Step::Piece(parts) => return piece(dev, kv, gc, parts),
        Step::Scan => return scan(dev, kv, gc),
        Step::Running => return Ok(gc.running() as u64),
        Step::Finished => return Ok(gc.finished()),
        Step::Collect(k) => return collect(dev, &*kv, gc, k),
        Step::CollectDown(k) => return collect_down(dev, &*kv, gc, k),
    }
}

/// How many steps come as they should, before the first that does not.
fn steps_come(
    alloc: Global,
    dev: &mut Dev<'_, MemStore>,
    kv: &mut Kv<Key, Value>,
    gc: &mut Gc,
    steps: &[(Step, u64)],
) -> Result<usize, Fail>
    requires { IsGcReady dev.old kv.old gc.old }
{
    let mut same = 0usize;
    for (step, want) in steps {
        let found = came(alloc, dev, kv, gc, *step)?;
        if found != *want {
            return Ok(same);
        }
        same = same.saturating_add(1);
    }
    Ok(same)
}

/// The same with a new collector over no files.
fn new_come(
    alloc: Global,
    dev: &mut Dev<'_, MemStore>,
    steps: &[(Step, u64)],
) -> Result<usize, Fail>
    requires { IsSoundDev mem_store dev.old }
{
    let mut kv: Kv<Key, Value> = Kv::new(alloc)?;
    let mut gc = Gc::new(alloc)?;
    steps_come(alloc, dev, &mut kv, &mut gc, steps)
}

/// Two stores, of which the first one fails at these calls.
fn two_stores(alloc: Global, fails: &[u64]) -> Result<Shelf<MemStore>, Fail>
    ensures { IfOk result (λ shelf. length shelf ≡ 2) }
{
    let mut stores = Vec::new(alloc);
    stores.push(MemStore::new(alloc, fails.to_vec(alloc)?))?;
    stores.push(MemStore::new(alloc, Vec::new(alloc)))?;
    Ok(Shelf::new(alloc, stores))
}

/// How many of the steps come as they should.
fn all_come(alloc: Global, fails: &[u64], steps: &[(Step, u64)]) -> Result<usize, Fail> {
    let settings = Settings::new(2, 2, 64).ok_or("settings")?;
    let mut shelf = two_stores(alloc, fails)?;
    let replicas = Replicas::new(settings);
    let ring = Ring::new(alloc, settings.servers)?;
    let mut cache = RegionCache::new(alloc)?;
    let mut dev = Dev {
        shelf: &mut shelf,
        replicas: &replicas,
        ring: &ring,
        cache: &mut cache,
        settings,
    };
    new_come(alloc, &mut dev, steps)
}

#[test]
fn what_two_scans_do_not_find_is_freed_once(rt: HostRuntime) -> Result<(), Fail> {
    let came = all_come(rt.alloc(), &[], &OVER)?;
    assert_eq!(rt; came, OVER.len());
    Ok(())
}

#[test]
fn what_a_pinned_number_sees_stays(rt: HostRuntime) -> Result<(), Fail> {
    let came = all_come(rt.alloc(), &[], &PINNED)?;
    assert_eq!(rt; came, PINNED.len());
    Ok(())
}

#[test]
fn a_scan_goes_on_behind_installs(rt: HostRuntime) -> Result<(), Fail> {
    let came = all_come(rt.alloc(), &[], &BETWEEN)?;
    assert_eq!(rt; came, BETWEEN.len());
    Ok(())
}

#[test]
fn lists_that_are_stored_are_found(rt: HostRuntime) -> Result<(), Fail> {
    let came = all_come(rt.alloc(), &[], &SPILLED)?;
    assert_eq!(rt; came, SPILLED.len());
    Ok(())
}

#[test]
fn what_was_freed_before_a_failure_counts(rt: HostRuntime) -> Result<(), Fail> {
    let came = all_come(rt.alloc(), &[4], &FAILING)?;
    assert_eq!(rt; came, FAILING.len());
    Ok(())
}

#[test]
fn a_server_that_is_down_frees_nothing(rt: HostRuntime) -> Result<(), Fail> {
    let came = all_come(rt.alloc(), &[], &DOWN)?;
    assert_eq!(rt; came, DOWN.len());
    Ok(())
}
