//! What a slice is made of.
ghost use Rattle.wtf_base.specs.Extents.{IsSound, IsSound_prop};

use crate::ServerId;

/// A place in a backing file of a server.
#[derive(Clone, Copy, Debug, PartialEq, Eq, Hash)]
pub(crate) struct Extent {
    pub(crate) server: ServerId,
    pub(crate) file: u8,
    pub(crate) at: u64,
}

/// Where the copies of a slice begin, their servers ascending.
#[derive(Clone, Copy, Debug, PartialEq, Eq, Hash)]
pub(crate) enum Extents {
    One(Extent),
    Two(Extent, Extent),
    Three(Extent, Extent, Extent),
}

/// An immutable sequence of bytes, by one to three pointers of one length that is not 0, their servers
/// ascending. No extent ends past 2^63 - 1 (NSDI 2016, section 2.1).
#[derive(Clone, Copy, Debug, PartialEq, Eq, Hash)]
pub struct Slice {
    pub(crate) len: u32,
    pub(crate) extents: Extents,
    ghost sound: { IsSound len extents } by { IsSound_prop len extents },
}
