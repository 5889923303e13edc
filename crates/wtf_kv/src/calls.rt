//! Lists of calls on a store: what is pinned stays, whatever comes.

ghost use Rattle.std.specs.Prelude.{◌≡◌, ◌^◌, nat_lt, IsTrue, OnOk, OnErr};
ghost use Rattle.wtf_kv.specs.Stores.{is_pinned, is_live};
ghost use Rattle.wtf_kv.specs.Calls.{KeepsMap, Step, Stop, Steps, StopsIn, IsMadeWhere, IsLeftWhere, may_unpin};

use crate::{Cell, Changes, Kv, NotReady, StoreKey};
use wtf_base::OutOfMemory;

/// A call that changes a store.
#[derive(Drop)]
pub enum Call<K: StoreKey, C: Cell> {
    Pin(u64),
    Unpin(u64),
    Prune,
    /// Makes changes ready, and lets them go.
    Reserve(Changes<K, C>),
    /// Makes changes ready, and installs them.
    Install(Changes<K, C>),
}

/// Makes the calls in order, each where it is allowed, but never takes the last pin of `m` away. The map at
/// `m` stays. An install is made where its changes fit. It ends with the first call that finds no memory,
/// which leaves what the store shows.
pub fn run<K: StoreKey, C: Cell>(
    kv: &mut Kv<K, C>,
    calls: &[Call<K, C>],
    m: u64,
) -> Result<(), OutOfMemory>
    requires { IsTrue (is_pinned kv.old m) }
    ensures steps { OnOk result (Steps K.cmp C.outcome m calls.now kv.old kv.new) }
    ensures stops { OnErr result (StopsIn K.cmp C.outcome m calls.now kv.old kv.new) }
    ensures keeps { KeepsMap K.cmp m kv.old kv.new }
{
    let _reached = kv.number();
    for call in calls {
        make(kv, call, m)?;
    }
    Ok(())
}

/// Makes one call, where it is allowed.
fn make<K: StoreKey, C: Cell>(
    kv: &mut Kv<K, C>,
    call: &Call<K, C>,
    m: u64,
) -> Result<(), OutOfMemory>
    ensures step { OnOk result (Step K.cmp C.outcome m call.now kv.old kv.new) }
    ensures stop { OnErr result (Stop K.cmp C.outcome m call.now kv.old kv.new) }
{
    match call {
        Call::Pin(n) => pin(kv, *n),
        Call::Unpin(n) => {
            unpin(kv, *n, m);
            Ok(())
        }
        Call::Prune => {
            kv.prune();
            Ok(())
        }
        Call::Reserve(changes) => reserve(kv, changes),
        Call::Install(changes) => install(kv, changes),
    }
}

fn is_live<K: StoreKey, C: Cell>(kv: &Kv<K, C>, n: u64) -> bool
    ensures { result ≡ is_live kv.now n }
{
    n == kv.number() || kv.is_pinned(n)
}

fn pin<K: StoreKey, C: Cell>(kv: &mut Kv<K, C>, n: u64) -> Result<(), OutOfMemory>
    ensures step { OnOk result (IsMadeWhere K.cmp C.outcome (is_live kv.old n)
        (Call.Pin n) kv.old kv.new) }
    ensures stop { OnErr result (IsLeftWhere K.cmp C.outcome (is_live kv.old n)
        (Call.Pin n) kv.old kv.new) }
{
    if !is_live(kv, n) {
        return Ok(());
    }
    kv.pin(n)
}

/// Whether a pin of `n` may be undone, where the last one of `m` may not.
fn may_unpin<K: StoreKey, C: Cell>(kv: &Kv<K, C>, n: u64, m: u64) -> bool
    ensures { result ≡ may_unpin m n kv.now }
{
    kv.is_pinned(n) && (n != m || kv.times_pinned(n) > 1)
}

fn unpin<K: StoreKey, C: Cell>(kv: &mut Kv<K, C>, n: u64, m: u64)
    ensures { Step K.cmp C.outcome m (Call.Unpin n) kv.old kv.new }
{
    if !may_unpin(kv, n, m) {
        return;
    }
    kv.unpin(n);
}

/// Whether a further install has a number.
fn has_room<K: StoreKey, C: Cell>(kv: &Kv<K, C>) -> bool
    ensures { result ≡ nat_lt kv.now.number (2 ^ 63) }
{
    kv.number() < 1 << 63
}

fn reserve<K: StoreKey, C: Cell>(
    kv: &mut Kv<K, C>,
    changes: &Changes<K, C>,
) -> Result<(), OutOfMemory>
    ensures step { OnOk result (IsMadeWhere K.cmp C.outcome (nat_lt kv.old.number (2 ^ 63))
        (Call.Reserve changes.now) kv.old kv.new) }
    ensures stop { OnErr result (IsLeftWhere K.cmp C.outcome (nat_lt kv.old.number (2 ^ 63))
        (Call.Reserve changes.now) kv.old kv.new) }
{
    if !has_room(kv) {
        return Ok(());
    }
    match kv.reserve_install(changes) {
        Err(NotReady::Memory) => Err(OutOfMemory),
        _ => Ok(()),
    }
}

fn install<K: StoreKey, C: Cell>(
    kv: &mut Kv<K, C>,
    changes: &Changes<K, C>,
) -> Result<(), OutOfMemory>
    ensures step { OnOk result (IsMadeWhere K.cmp C.outcome (nat_lt kv.old.number (2 ^ 63))
        (Call.Install changes.now) kv.old kv.new) }
    ensures stop { OnErr result (IsLeftWhere K.cmp C.outcome (nat_lt kv.old.number (2 ^ 63))
        (Call.Install changes.now) kv.old kv.new) }
{
    if !has_room(kv) {
        return Ok(());
    }
    match kv.reserve_install(changes) {
        Ok(ready) => {
            kv.install(ready);
            Ok(())
        }
        Err(NotReady::Unfit(_)) => Ok(()),
        Err(NotReady::Memory) => Err(OutOfMemory),
    }
}
