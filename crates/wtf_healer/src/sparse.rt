//! Which slices have too few copies on servers that are left.

ghost use Rattle.std.specs.Prelude.{◌≡◌};
ghost use Rattle.wtf_replica.specs.Downs.{is_down};
ghost use Rattle.wtf_healer.specs.Sparse.{is_sparse, is_sparse_part, has_sparse, is_sparse_base, is_to_heal};

use wtf_base::Slice;
use wtf_overlay::{Overlay, Part};
use wtf_replica::Replicas;
use wtf_values::{RegionValue, Spill};

/// Whether a slice has a copy on a server that is down, or fewer copies than these.
fn is_sparse(replicas: &Replicas, copies: u8, slice: &Slice) -> bool
    ensures { result ≡ is_sparse (is_down replicas.now) copies slice.now }
{
    if slice.width() < copies {
        return true;
    }
    for i in 0..slice.width() {
        if replicas.is_down(slice.pointer(i).server.0) {
            return true;
        }
    }
    false
}

/// Whether a part is that of a sparse slice.
pub(crate) fn is_sparse_part(replicas: &Replicas, copies: u8, part: &Part) -> bool
    ensures { result ≡ is_sparse_part (is_down replicas.now) copies part.now }
{
    match part {
        Part::Zero => false,
        Part::Held(slice) => is_sparse(replicas, copies, slice),
    }
}

/// Whether an entry of a list is, also one that later entries hide.
fn has_sparse(replicas: &Replicas, copies: u8, list: &Overlay) -> bool
    ensures { result ≡ has_sparse (is_down replicas.now) copies list.now }
{
    for i in 0..list.len() {
        let e = list.get(i);
        if is_sparse_part(replicas, copies, &e.part) {
            return true;
        }
    }
    false
}

/// Whether the slice of a base is.
fn is_sparse_base(replicas: &Replicas, copies: u8, base: Option<Spill>) -> bool
    ensures { result ≡ is_sparse_base (is_down replicas.now) copies base }
{
    match base {
        None => false,
        Some(spill) => is_sparse(replicas, copies, &spill.slice),
    }
}

/// Whether a region is to be healed: one of its slices is sparse, that of its base, one of the list in it, which is `under`, or
/// one of its entries.
pub(crate) fn is_to_heal(
    replicas: &Replicas,
    copies: u8,
    value: &RegionValue,
    under: &Overlay,
) -> bool
    ensures { result ≡ is_to_heal (is_down replicas.now) copies under.now value.now }
{
    is_sparse_base(replicas, copies, value.base)
        || has_sparse(replicas, copies, under)
        || has_sparse(replicas, copies, &value.list)
}
