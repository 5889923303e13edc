//! Slices made, cut and joined by arithmetic on their pointers.

ghost use Rattle.std.specs.Prelude.{◌≡◌, ◌+◌, ◌<◌, ◌≤◌, ◌^◌, map, length, slice_get, Some, IsTrue, IsSome, IfSome, ◌↔◌};
ghost use Rattle.wtf_base.specs.Pointers.{is_slice, part_of, follows_on, all_follow_on, lengthened};
ghost use Rattle.wtf_base.specs.Slices.{len_of, pointers_of};
ghost use Rattle.wtf_base.specs.Extents.{extent_of, pointer_to};

use crate::slice::{Extent, Extents};
use crate::{Pointer, Slice};

impl Slice {
    /// The slice of these pointers; `None` exactly where they are not one to three pointers of one length
    /// that is not 0, with their servers ascending, or one of them ends past 2^63 - 1.
    pub fn of(pointers: &[Pointer]) -> Option<Slice>
        ensures found { IsSome result ↔ IsTrue (is_slice pointers.now) }
        ensures value { IfSome result (λ s. pointers_of s ≡ pointers.now) }
    {
        match pointers {
            [a] if a.is_sound() => Some(Slice {
                len: a.len,
                extents: Extents::One(a.extent()),
            }),
            [a, b] if a.is_sound() && b.is_sound() && a.is_before(b) => Some(Slice {
                len: a.len,
                extents: Extents::Two(a.extent(), b.extent()),
            }),
            [a, b, c]
                if a.is_sound()
                    && b.is_sound()
                    && c.is_sound()
                    && a.is_before(b)
                    && b.is_before(c) => {
                Some(Slice {
                    len: a.len,
                    extents: Extents::Three(a.extent(), b.extent(), c.extent()),
                })
            }
            _ => None,
        }
    }

    /// The number of bytes.
    pub fn len(&self) -> u32
        ensures value { result ≡ len_of self.now }
        ensures positive { 0 < result }
    {
        self.len
    }

    /// The number of copies, 1 to 3.
    pub fn width(&self) -> u8
        ensures value { result ≡ length (pointers_of self.now) }
        ensures sound { IsTrue (is_slice (pointers_of self.now)) }
    {
        match self.extents {
            Extents::One(_) => 1,
            Extents::Two(_, _) => 2,
            Extents::Three(_, _, _) => 3,
        }
    }

    /// The pointer of copy `i`, counted from 0 in the order of servers.
    pub fn pointer(&self, i: u8) -> Pointer
        requires { i < length (pointers_of self.now) }
        ensures value { slice_get (pointers_of self.now) i ≡ Some result }
        ensures len { result.len ≡ len_of self.now }
        ensures within { result.at + result.len < 2 ^ 63 }
    {
        let extent = match self.extents {
            Extents::One(a) => a,
            Extents::Two(a, b) => if i == 0 { a } else { b },
            Extents::Three(a, b, c) => if i == 0 {
                a
            } else if i == 1 {
                b
            } else {
                c
            },
        };
        Pointer {
            server: extent.server,
            file: extent.file,
            at: extent.at,
            len: self.len,
        }
    }

    /// The part of `len` bytes from byte `off` on. No server is asked.
    pub fn cut(&self, off: u32, len: u32) -> Slice
        requires some { 0 < len }
        requires within { off + len ≤ len_of self.now }
        ensures value { pointers_of result ≡ map (part_of off len) (pointers_of self.now) }
    {
        let extents = match self.extents {
            Extents::One(a) => Extents::One(a.later(off)),
            Extents::Two(a, b) => Extents::Two(a.later(off), b.later(off)),
            Extents::Three(a, b, c) => Extents::Three(a.later(off), b.later(off), c.later(off)),
        };
        Slice { len, extents }
    }

    /// This slice and `next` as one; `Some` exactly where both have the same servers and files in order,
    /// `next` begins in each copy where this one ends, and the sum of the lengths is below 2^32.
    pub fn join(&self, next: &Slice) -> Option<Slice>
        ensures found { IsSome result ↔
            (IsTrue (all_follow_on (pointers_of self.now) (pointers_of next.now)) × (len_of self.now + len_of next.now < 2 ^ 32)) }
        ensures value { IfSome result (λ s. pointers_of s ≡
            map (lengthened (len_of self.now + len_of next.now)) (pointers_of self.now)) }
    {
        let len = self.len.checked_add(next.len)?;
        let n = self.len;
        let follows = match (self.extents, next.extents) {
            (Extents::One(a), Extents::One(d)) => a.ends_at(n, &d),
            (Extents::Two(a, b), Extents::Two(d, e)) => a.ends_at(n, &d) && b.ends_at(n, &e),
            (Extents::Three(a, b, c), Extents::Three(d, e, f)) => {
                a.ends_at(n, &d) && b.ends_at(n, &e) && c.ends_at(n, &f)
            }
            _ => false,
        };
        if follows {
            Some(Slice {
                len,
                extents: self.extents,
            })
        } else {
            None
        }
    }
}

impl Pointer {
    fn extent(&self) -> Extent
        ensures { result ≡ extent_of self.now }
    {
        Extent {
            server: self.server,
            file: self.file,
            at: self.at,
        }
    }
}

impl Extent {
    fn ends_at(&self, len: u32, next: &Extent) -> bool
        requires { self.now.at + len < 2 ^ 63 }
        ensures { result ≡ follows_on (pointer_to len self.now) (pointer_to len next.now) }
    {
        self.server == next.server && self.file == next.file && self.at + len as u64 == next.at
    }

    fn later(&self, off: u32) -> Extent
        requires { self.now.at + off < 2 ^ 63 }
        ensures { result ≡ record self.now { at = self.now.at + off } }
    {
        Extent {
            server: self.server,
            file: self.file,
            at: self.at + off as u64,
        }
    }
}
