//! An install that was made ready, and why none was.

use crate::{Cell, Changes, StoreKey};
use std::marker::Model;
use thiserror::Error;

/// An install of changes that a store made ready: it holds what they make of its map, and takes no
/// more memory. Contracts see the number that it will have, and the changes.
#[derive(Drop)]
pub struct Ready<'a, K: StoreKey, C: Cell> {
    pub(crate) number: u64,
    pub(crate) changes: &'a Changes<K, C>,
}

impl<'a, K: StoreKey, C: Cell> Model for Ready<'a, K, C> {
    ghost use Rattle.wtf_kv.specs.Installs.{Planned};

    ghost Value = { Planned K C.Delta };

    ghost view = { λ r. record { number = r.number; changes = r.changes.now } };
}

/// Why no install was made ready.
#[derive(Debug, Drop, Error)]
pub enum NotReady<K> {
    /// The first key whose delta does not fit its value.
    #[error("a delta does not fit the value of its key")]
    Unfit(K),
    /// Memory could not be had.
    #[error("out of memory")]
    Memory,
}
