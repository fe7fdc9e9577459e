//! Boxes of polygons. No call takes memory.

ghost use Rattle.std.specs.Prelude.{◌≡◌, ◌++◌};
ghost use Rattle.std.specs.Int.{int_max, int_min};
ghost use Rattle.lpis_edge_sums.specs.Making.{points_of_rings};
ghost use Rattle.lpis_country.specs.Polygons.{box_of_members, box_with, box_with_all};

use lpis_points::{Box4, LIMIT, Point};
use lpis_rings::{Member, Polygon, Ring};

fn lesser(a: i64, b: i64) -> i64
    ensures { result ≡ int_min a b }
{
    a.min(b)
}

fn greater(a: i64, b: i64) -> i64
    ensures { result ≡ int_max a b }
{
    a.max(b)
}

/// The box with one point more in it.
fn with_point(b: Box4, p: Point) -> Box4
    ensures { result ≡ box_with b p }
{
    Box4 {
        x0: lesser(b.x0, p.x),
        y0: lesser(b.y0, p.y),
        x1: greater(b.x1, p.x),
        y1: greater(b.y1, p.y),
    }
}

/// The box with these points in it too.
fn with_points(b: Box4, points: &[Point]) -> Box4
    ensures { result ≡ box_with_all b points.now }
{
    let mut grown = b;
    for p in points {
        grown = with_point(grown, *p);
    }
    grown
}

/// The box with the points of a ring in it too.
fn with_ring(b: Box4, ring: &Ring) -> Box4
    ensures { result ≡ box_with_all b ring.now }
{
    with_points(b, ring.points())
}

/// The box with the points of these rings in it too.
fn with_rings(b: Box4, rings: &[Ring]) -> Box4
    ensures { result ≡ box_with_all b (points_of_rings rings.now) }
{
    let mut grown = b;
    for ring in rings {
        grown = with_ring(grown, ring);
    }
    grown
}

/// The box with the points of a member in it too.
fn with_member(b: Box4, member: &Member) -> Box4
    ensures { result
        ≡ box_with_all b (member.now.shell ++ points_of_rings member.now.holes) }
{
    let shell = with_ring(b, &member.shell);
    with_rings(shell, member.holes.as_slice())
}

/// The box of a polygon: the least and the greatest coordinates of its points.
pub fn box_of_polygon(polygon: &Polygon) -> Box4
    ensures { result ≡ box_of_members polygon.now }
{
    let mut grown = Box4 {
        x0: LIMIT,
        y0: LIMIT,
        x1: -LIMIT,
        y1: -LIMIT,
    };
    for member in polygon.members() {
        grown = with_member(grown, member);
    }
    grown
}
