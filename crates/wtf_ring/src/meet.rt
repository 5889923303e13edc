//! Servers in the order in which they are met.

ghost use Rattle.std.specs.Prelude.{◌≡◌, ◌<◌, ◌≤◌, ◌++◌, length, take, drop, ◌==◌, [], ◌∷◌, map, nat_eq, if◌then◌else◌};
ghost use Rattle.std.specs.List.{All, IsDistinct, list_any};
ghost use Rattle.wtf_ring.specs.Points.{met_after};
ghost use Rattle.wtf_ring.specs.declared.point.Point.{Point};

use crate::point::Point;
use arrayvec::ArrayVec;

/// Adds a server, unless it was met before.
fn meet_one(met: &mut ArrayVec<u8, 16>, server: u8)
    requires once { IsDistinct nat_eq met.old.items }
    requires known { All (λ k. k < 16) met.old.items }
    requires server { server < 16 }
    ensures value { met.new.items ≡
        (if list_any (λ j. j == server) met.old.items then met.old.items else met.old.items ++ server ∷ []) }
    ensures once { IsDistinct nat_eq met.new.items }
    ensures known { All (λ k. k < 16) met.new.items }
{
    if !met.contains(&server) {
        met.push(server);
    }
}

/// Adds the servers of these points, each where it is first met, unless it was met before.
fn meet(met: &mut ArrayVec<u8, 16>, points: &[Point])
    requires once { IsDistinct nat_eq met.old.items }
    requires known { All (λ k. k < 16) met.old.items }
    requires points { All (λ (p : Point). p.server < 16) points.now }
    ensures value { met.new.items ≡
        met_after met.old.items (map (λ (p : Point). p.server) points.now) }
    ensures once { IsDistinct nat_eq met.new.items }
    ensures known { All (λ k. k < 16) met.new.items }
{
    for point in points {
        meet_one(met, point.server);
    }
}

/// The servers round the ring from the point at `start`, each where it is first met.
pub(crate) fn round(points: &[Point], start: usize) -> ArrayVec<u8, 16>
    requires start { start ≤ length points.now }
    requires points { All (λ (p : Point). p.server < 16) points.now }
    ensures { result.items ≡ met_after [] (map (λ (p : Point). p.server)
        (drop start points.now ++ take start points.now)) }
{
    let (front, back) = points.split_at(start);
    let mut met = ArrayVec::new();
    meet(&mut met, back);
    meet(&mut met, front);
    met
}
