//! The ring.

ghost use Rattle.std.specs.Prelude.{◌≡◌, ◌≤◌, length, IfOk};
ghost use Rattle.wtf_ring.specs.Points.{IsRing, below, place_of};
ghost use Rattle.wtf_ring.specs.Orders.{IsOrder};

use crate::meet::round;
use crate::point::{Point, all_points};
use crate::{Place, digest};
use std::alloc::Global;
use std::marker::Model;
use wtf_base::{InodeId, OutOfMemory};

/// The ring of 1 to 16 servers. The points of their virtual nodes are computed once.
#[derive(Debug, Drop)]
pub struct Ring {
    servers: u8,
    points: Vec<Point>,
}

impl Model for Ring {
    ghost use Rattle.std.specs.Prelude.{◌≤◌};
    ghost use Rattle.wtf_ring.specs.Points.{RingView, IsRing};

    ghost Value = { RingView };

    ghost view = { λ r. record { servers = r.servers; points = r.points.items } };

    ghost invariant = { λ r. IsRing r.servers r.points.items × (1 ≤ r.servers) × (r.servers ≤ 16) };
}

impl Ring {
    /// The ring of so many servers, 1 to 16. It fails only where memory cannot be had.
    pub fn new(alloc: Global, servers: u8) -> Result<Ring, OutOfMemory>
        requires some { 1 ≤ servers }
        requires few { servers ≤ 16 }
        ensures servers { IfOk result (λ r. r.servers ≡ servers) }
        ensures points { IfOk result (λ r. IsRing servers r.points) }
    {
        let mut points = all_points(alloc, servers)?;
        points.sort_unstable();
        Ok(Ring { servers, points })
    }

    /// The index of the first point at the position or above it, or the number of points where there is none.
    fn start(&self, position: u64) -> usize
        ensures value { result ≡ below position self.now.points }
        ensures within { result ≤ length self.now.points }
    {
        self.points.partition_point(|p| p.at < position)
    }

    /// The place of the slices of a region of a file. It takes no memory.
    pub fn order(&self, inode: InodeId, region: u16) -> Place
        ensures value { result ≡ place_of self.now.points inode region }
        ensures order { IsOrder self.now.servers result.servers }
    {
        let digest = digest::of_region(inode, region);
        let start = self.start(digest::head(digest));
        Place {
            servers: round(&self.points, start),
            file: digest[8] % 8,
        }
    }
}
