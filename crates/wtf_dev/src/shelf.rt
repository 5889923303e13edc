//! The stores of the servers.

ghost use Rattle.std.specs.Prelude.{◌≡◌, ◌<◌, ◌≤◌, ◌^◌, length, slice_index_or, slice_set};
ghost use Rattle.std.specs.Borrow.{Lends, sem};
ghost use Rattle.wtf_dev.specs.contracts.shelf.Shelf.{the_row};

use crate::SliceStore;
use std::alloc::Global;
use std::marker::Model;

/// The stores of servers 0, 1 and so on, 1 to 16 of them. Contracts see their list.
#[derive(Drop)]
pub struct Shelf<S> {
    stores: Vec<S>,
}

impl<S> Model for Shelf<S> {
    ghost use Rattle.std.specs.Prelude.{List, ◌≤◌, length};

    ghost Value = { List S };

    ghost view = { λ a. a.stores.items };

    ghost invariant = { λ a. (1 ≤ length a.stores.items) × (length a.stores.items ≤ 16) };
}

impl<S> Shelf<S> {
    /// A shelf of 1 to 16 stores.
    pub fn new(_alloc: Global, stores: Vec<S>) -> Shelf<S>
        requires some { 1 ≤ length stores.items }
        requires few { length stores.items ≤ 16 }
        ensures { result ≡ stores.items }
    {
        Shelf { stores }
    }

    /// The number of stores.
    pub fn len(&self) -> u8
        ensures value { result ≡ length self.now }
        ensures some { 1 ≤ result }
        ensures few { result ≤ 16 }
    {
        self.stores.len() as u8
    }

    /// The store of server `k`.
    pub fn store(&mut self, k: u8) -> &mut S
        requires { k < length self.old }
        ensures* writes_back { sem 𝓛 (Lends (the_row S.row) S.row self.entry result
            (λ w. slice_set self.entry.now k w)) }
        ensures value { result.now ≡ slice_index_or self.old k result.now }
    {
        &mut self.stores[k as usize]
    }
}

impl<S: SliceStore> Shelf<S> {
    /// The length of a file of server `k`, in bytes.
    pub fn length(&self, k: u8, file: u8) -> u64
        requires k { k < length self.now }
        requires file { file < 8 }
        ensures value { (d : S) → result ≡ (S.kind.view (slice_index_or self.now k d)).size file }
        ensures fits { result < 2 ^ 61 }
    {
        self.stores[k as usize].length(file)
    }
}
