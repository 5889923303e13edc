//! Numbers with a meaning of their own.

ghost use Rattle.std.proofs.Common.{rules};
ghost use Rattle.std.specs.Cmp.Rules.{comparing};
ghost use Rattle.std.specs.Ordering.{nat_cmp, on, then_cmp};

use std::cmp::Ordering;

/// A storage server, counted from 0.
#[derive(Clone, Copy, Debug, PartialEq, Eq, PartialOrd, Ord, Hash)]
pub struct ServerId(pub u8);

/// A transaction, counted from 1 in the order of their begin.
#[derive(Clone, Copy, Debug, PartialEq, Eq, PartialOrd, Ord, Hash)]
pub struct TxId(pub u64);

/// A file: the transaction that made it, and the number, from 1, of the call in it that did.
/// Inodes are ordered by transaction, then by index.
#[derive(Clone, Copy, Debug, PartialEq, Eq, PartialOrd, Hash)]
pub struct InodeId {
    pub tx: TxId,
    pub index: u32,
}

impl Ord for InodeId {
    ghost cmp = { then_cmp (on (λ i. i.tx.0) nat_cmp) (on (λ i. i.index) nat_cmp) };

    ghost total = { Prim.search (comparing, rules) };

    ghost matches_partial_cmp = { Prim.search (comparing, rules) };

    ghost matches_eq = { Prim.search (comparing, rules) };

    fn cmp(&self, other: &InodeId) -> Ordering {
        let (a, b) = (*self, *other);
        if a.tx.0 != b.tx.0 {
            return a.tx.0.cmp(&b.tx.0);
        }
        if a.index != b.index {
            return a.index.cmp(&b.index);
        }
        Ordering::Equal
    }
}
