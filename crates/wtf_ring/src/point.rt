//! The points of a ring.

ghost use Rattle.std.specs.Prelude.{◌≡◌, ◌++◌, OnOk, IfOk, map};
ghost use Rattle.std.specs.List.{range_with_len};
ghost use Rattle.wtf_ring.specs.Points.{point_of, points_of};

use crate::digest;
use std::alloc::Global;
use wtf_base::OutOfMemory;

/// The point of a virtual node. Points are ordered by their number, then by server, then by node.
#[derive(Clone, Copy, Debug, PartialEq, Eq, PartialOrd, Ord)]
pub(crate) struct Point {
    pub(crate) at: u64,
    pub(crate) server: u8,
    pub(crate) node: u8,
}

impl Point {
    /// The point of virtual node `node` of a server.
    fn of(server: u8, node: u8) -> Point
        ensures { result ≡ point_of server node }
    {
        Point {
            at: digest::head(digest::of_node(server, node)),
            server,
            node,
        }
    }
}

/// Adds the 16 points of a server.
fn add_points(points: &mut Vec<Point>, server: u8) -> Result<(), OutOfMemory>
    ensures { OnOk result (points.new.items ≡
        points.old.items ++ map (point_of server) (range_with_len 0 16)) }
{
    for node in 0..16 {
        points.push(Point::of(server, node))?;
    }
    Ok(())
}

/// The points of so many servers, unsorted.
pub(crate) fn all_points(alloc: Global, servers: u8) -> Result<Vec<Point>, OutOfMemory>
    ensures { IfOk result (λ v. v.items ≡ points_of servers) }
{
    let mut points = Vec::with_capacity(alloc, 16 * servers as usize)?;
    for server in 0..servers {
        add_points(&mut points, server)?;
    }
    Ok(points)
}
