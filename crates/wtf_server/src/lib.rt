//! The slices of one server: bytes are created at the end of a backing file, retrieved by their pointer, and
//! freed in place. A server knows nothing of files, of their offsets or of other servers (NSDI 2016, section
//! 2.1). No call takes memory.
//!
//! `create` appends bytes to one of the eight files of a store and answers the pointer to them: where the file
//! ended, and how many they are. `retrieve` puts the bytes that a pointer names into a buffer of its length.
//! `free` makes a range read as zeros, and leaves every byte outside it.
//!
//! Each says what it leaves of the store: which files may be longer, that nothing that lasted is lost but in a
//! range that was freed (`follows`), and that nothing was synced. `Failed` comes only where the store's count
//! rose (`cause`); after it a file may be longer, and what it held it still holds.
//!
//! What a store is, and what it tells, is said by its trait in `wtf_dev`; slices of several copies are those of
//! `wtf_replica`.
#![tactic(auto)]

ghost use Rattle.std.specs.Prelude.{◌≡◌, ◌≢◌, ◌<◌, ◌≤◌, ◌+◌, ◌^◌, ℕ, true, Some, [], ◌∷◌, length, IfOk, OnOk, OnErr};
ghost use Rattle.wtf_dev.specs.Counts.{Rose};
ghost use Rattle.wtf_dev.specs.Store.{Appended, Agrees, SameSizes};

use wtf_base::{Pointer, ServerId};
use wtf_dev::{Failed, SliceStore};

/// Stores bytes, at least one, at the end of a backing file of server `id`, and answers the pointer to them. After
/// `Failed` the file may be longer, and what it held it still holds.
pub fn create<S: SliceStore>(
    store: &mut S,
    id: ServerId,
    file: u8,
    bytes: &[u8],
) -> Result<Pointer, Failed>
    requires file { file < 8 }
    requires some { 0 < length bytes.now }
    requires few { length bytes.now < 2 ^ 32 }
    ensures pointer { IfOk result (λ p. p ≡
        record {
          server = id;
          file = file;
          at = (S.kind.view store.old).size file;
          len = length bytes.now;
        }) }
    ensures done { IfOk result
        (λ p. Appended (S.kind.view store.old) (S.kind.view store.new) file bytes.now p.at) }
    ensures fits { IfOk result (λ p. p.at + p.len < 2 ^ 61) }
    ensures others { (f : ℕ) → f ≢ file →
        (S.kind.view store.new).size f ≡ (S.kind.view store.old).size f }
    ensures syncs { (S.kind.view store.new).syncs ≡ (S.kind.view store.old).syncs }
    ensures follows { S.kind.follows store.old store.new [] }
    ensures cause { OnErr result
        (Rose (S.kind.view store.old).faults (S.kind.view store.new).faults) }
{
    let at = match store.append(file, bytes) {
        Ok(at) => at,
        Err(e) => return Err(e),
    };
    Ok(Pointer {
        server: id,
        file,
        at,
        len: bytes.len() as u32,
    })
}

/// Puts the bytes that a pointer names into `out`, which has its length. After `Failed` nothing is known of `out`.
pub fn retrieve<S: SliceStore>(store: &mut S, p: Pointer, out: &mut [u8]) -> Result<(), Failed>
    requires len { length out.old ≡ p.len }
    requires file { p.file < 8 }
    requires inside { p.at + p.len ≤ (S.kind.view store.old).size p.file }
    ensures bytes { OnOk result (Agrees (S.kind.view store.old) p.file p.at out.new) }
    ensures sizes { SameSizes (S.kind.view store.old) (S.kind.view store.new) }
    ensures syncs { (S.kind.view store.new).syncs ≡ (S.kind.view store.old).syncs }
    ensures follows { S.kind.follows store.old store.new [] }
    ensures cause { OnErr result
        (Rose (S.kind.view store.old).faults (S.kind.view store.new).faults) }
{
    store.read(p.file, p.at, out)
}

/// Frees `len` bytes of a backing file from offset `at` on, which then read as zeros. After `Failed` these bytes are not
/// known, and all others are as they were.
pub fn free<S: SliceStore>(store: &mut S, file: u8, at: u64, len: u64) -> Result<(), Failed>
    requires file { file < 8 }
    requires inside { at + len ≤ (S.kind.view store.old).size file }
    ensures zeros { OnOk result ((S.kind.view store.old).tells ≡ true → (i : ℕ) → at ≤ i →
        i < at + len →
        (S.kind.view store.new).told file i ≡ Some 0) }
    ensures elsewhere { (f i b : ℕ) → f ≢ file → (S.kind.view store.old).told f i ≡ Some b →
        (S.kind.view store.new).told f i ≡ Some b }
    ensures before { (i b : ℕ) → i < at → (S.kind.view store.old).told file i ≡ Some b →
        (S.kind.view store.new).told file i ≡ Some b }
    ensures behind { (i b : ℕ) → at + len ≤ i → (S.kind.view store.old).told file i ≡ Some b →
        (S.kind.view store.new).told file i ≡ Some b }
    ensures sizes { SameSizes (S.kind.view store.old) (S.kind.view store.new) }
    ensures syncs { (S.kind.view store.new).syncs ≡ (S.kind.view store.old).syncs }
    ensures follows { S.kind.follows store.old store.new
        (record { file = file; at = at; len = len } ∷ []) }
    ensures cause { OnErr result
        (Rose (S.kind.view store.old).faults (S.kind.view store.new).faults) }
{
    store.punch(file, at, len)
}
