//! Paths are ordered by their bytes.

ghost use Rattle.std.specs.Prelude.{◌≡◌, ◌+◌, ◌≤◌, length, take, drop};
ghost use Rattle.std.specs.Ordering.{nat_cmp};
ghost use Rattle.std.specs.Cmp.Lexicographic.{slice_cmp};
ghost use Rattle.std.specs.Slice.Scan.{big_endian};

use crate::Path;
use std::cmp::Ordering;

impl PartialEq for Path {
    ghost use Rattle.std.specs.Prelude.{bytes_eq};
    ghost use Rattle.std.specs.Cmp.{partial_equiv_from_equiv};
    ghost use Rattle.std.specs.Cmp.Lexicographic.{nat_list_eq_equiv};

    ghost eq = { bytes_eq };

    ghost laws = { partial_equiv_from_equiv nat_list_eq_equiv };

    fn eq(&self, other: &Path) -> bool {
        self.as_bytes() == other.as_bytes()
    }
}

impl Eq for Path {
    ghost use Rattle.std.specs.Cmp.Lexicographic.{nat_list_eq_equiv};

    ghost laws = { nat_list_eq_equiv };
}

impl PartialOrd for Path {
    ghost use Rattle.std.specs.Prelude.{Some};
    ghost use Rattle.std.specs.Ordering.{nat_cmp};
    ghost use Rattle.std.specs.Cmp.Lexicographic.{slice_cmp, texts_po};

    ghost partial_cmp = { λ x y. Some (slice_cmp nat_cmp x y) };

    ghost laws = { texts_po };

    fn partial_cmp(&self, other: &Path) -> Option<Ordering> {
        Some(self.cmp(other))
    }
}

impl Ord for Path {
    ghost use Rattle.std.specs.Prelude.{refl};
    ghost use Rattle.std.specs.Ordering.{nat_cmp};
    ghost use Rattle.std.specs.Cmp.Lexicographic.{slice_cmp, nat_list_cmp_total, texts_ties};

    ghost cmp = { slice_cmp nat_cmp };

    ghost total = { nat_list_cmp_total };

    ghost matches_partial_cmp = { λ x y. refl };

    ghost matches_eq = { texts_ties };

    fn cmp(&self, other: &Path) -> Ordering {
        compare(self.as_bytes(), other.as_bytes())
    }
}

/// The order of two texts by their bytes, eight at a time. The last eight may overlap those before them.
fn compare(first: &[u8], second: &[u8]) -> Ordering
    ensures { result ≡ slice_cmp nat_cmp first.now second.now }
{
    let both = first.len().min(second.len());
    if both < 8 {
        return compare_each(first, second);
    }
    let last = both - 8;
    let mut at = 0;
    while at < last {
        let order = compare_eight(first, second, at);
        if order.is_ne() {
            return order;
        }
        at += 8;
    }
    compare_eight(first, second, last).then(first.len().cmp(&second.len()))
}

/// The same, one byte at a time, which is quick for short texts.
fn compare_each(first: &[u8], second: &[u8]) -> Ordering
    ensures { result ≡ slice_cmp nat_cmp first.now second.now }
{
    let both = first.len().min(second.len());
    let mut at = 0;
    while at < both {
        if first[at] != second[at] {
            return first[at].cmp(&second[at]);
        }
        at += 1;
    }
    first.len().cmp(&second.len())
}

/// The order of the eight bytes of two texts from one place on.
fn compare_eight(first: &[u8], second: &[u8], at: usize) -> Ordering
    requires { (at + 8 ≤ length first.now) × (at + 8 ≤ length second.now) }
    ensures { result ≡ slice_cmp nat_cmp (take 8 (drop at first.now)) (take 8 (drop at second.now)) }
{
    eight(first, at).cmp(&eight(second, at))
}

/// Eight bytes of a text from a place on, as a number that orders as they do.
fn eight(text: &[u8], at: usize) -> u64
    requires { at + 8 ≤ length text.now }
    ensures { result ≡ big_endian 0 (take 8 (drop at text.now)) }
{
    match text[at..].first_chunk::<8>() {
        Some(bytes) => u64::from_be_bytes(*bytes),
        None => 0,
    }
}
