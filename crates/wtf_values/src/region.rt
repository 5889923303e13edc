//! The value of a region.
ghost use Rattle.wtf_overlay.specs.Clips.{Within};
ghost use Rattle.wtf_values.specs.Bases.{IsBelow, IsBelow_prop};

use wtf_base::Slice;
use wtf_overlay::Overlay;

/// A list of entries that lies in a slice, under the entries of a region. Its bytes below `visible`
/// are the region's where no entry covers them, and those from there on are none of it.
#[derive(Clone, Copy, Debug, PartialEq, Eq)]
pub struct Spill {
    /// The slice with the list.
    pub slice: Slice,
    /// How far the list is seen, in bytes of the region.
    pub visible: u32,
}

/// The bytes of a region of a file: how far they reach, and what holds them. Where neither an entry
/// nor the base has a byte below the end, it is 0. No entry passes the end, and a base is seen up
/// to 1 at least and to the end at most.
#[derive(Debug, Drop)]
pub struct RegionValue {
    /// The number of bytes.
    pub end: u32,
    /// The list under the entries.
    pub base: Option<Spill>,
    /// The entries.
    pub list: Overlay,
    pub ghost within: { Within end list },
    pub ghost below: { IsBelow end base } by { IsBelow_prop end base },
}
