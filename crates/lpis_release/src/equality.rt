//! Whether rows of two releases are equal. No call takes memory.

ghost use Rattle.std.specs.Prelude.{◌≡◌, IsTrue, ◌↔◌};
ghost use Rattle.lpis_release.specs.Release.{pieces_named};
ghost use Rattle.lpis_release.specs.Equality.{same_class, same_pieces, same_polygon};

use crate::laws::tests_find_equal_rows;
use crate::{Release, pieces_of};
use lpis_points::Point;
use lpis_points::laws::points_with_equal_coordinates_are_equal;
use lpis_rings::{Member, Polygon, Ring};
use lpis_tables::{Class, Id, Piece};

/// Whether two points are equal.
fn is_same_point(a: Point, b: Point) -> bool
    ensures { IsTrue result ↔ (a ≡ b) }
{
    points_with_equal_coordinates_are_equal();
    a.x == b.x && a.y == b.y
}

/// Whether two lists of points are equal.
fn are_same_points(a: &[Point], b: &[Point]) -> bool
    ensures { IsTrue result ↔ (a.now ≡ b.now) }
{
    if a.len() != b.len() {
        return false;
    }
    for k in 0..a.len() {
        if !is_same_point(a[k], b[k]) {
            return false;
        }
    }
    true
}

/// Whether two rings have the same points in the same order.
fn is_same_ring(a: &Ring, b: &Ring) -> bool
    ensures { IsTrue result ↔ (a.now ≡ b.now) }
{
    are_same_points(a.points(), b.points())
}

/// Whether two lists of rings are equal.
fn are_same_rings(a: &[Ring], b: &[Ring]) -> bool
    ensures { IsTrue result ↔ (a.now ≡ b.now) }
{
    if a.len() != b.len() {
        return false;
    }
    for k in 0..a.len() {
        if !is_same_ring(&a[k], &b[k]) {
            return false;
        }
    }
    true
}

/// Whether two members have equal shells and equal holes.
fn is_same_member(a: &Member, b: &Member) -> bool
    ensures { IsTrue result ↔ (a.now ≡ b.now) }
{
    is_same_ring(&a.shell, &b.shell) && are_same_rings(a.holes.as_slice(), b.holes.as_slice())
}

/// Whether two lists of members are equal.
fn are_same_members(a: &[Member], b: &[Member]) -> bool
    ensures { IsTrue result ↔ (a.now ≡ b.now) }
{
    if a.len() != b.len() {
        return false;
    }
    for k in 0..a.len() {
        if !is_same_member(&a[k], &b[k]) {
            return false;
        }
    }
    true
}

/// Whether two polygons have equal members in the same order.
pub fn is_same_polygon(a: &Polygon, b: &Polygon) -> bool
    ensures { result ≡ same_polygon a.now b.now }
{
    tests_find_equal_rows();
    are_same_members(a.members(), b.members())
}

/// Whether two identifiers are equal.
fn is_same_id(a: &Id, b: &Id) -> bool
    ensures { IsTrue result ↔ (a.now ≡ b.now) }
{
    *a == *b
}

/// Whether two pieces are equal.
fn is_same_piece(a: &Piece, b: &Piece) -> bool
    ensures { IsTrue result ↔ (a.now ≡ b.now) }
{
    is_same_id(&a.id, &b.id)
        && is_same_id(&a.parcel, &b.parcel)
        && is_same_id(&a.class, &b.class)
        && are_same_members(a.polygon.members(), b.polygon.members())
}

/// Whether these are the pieces of a parcel, in the order of their table.
fn are_those_of(pieces: &[Piece], release: &Release, parcel: &Id) -> bool
    ensures { IsTrue result ↔ (pieces.now ≡ pieces_named release.now parcel.now) }
{
    let mut rest = pieces;
    for piece in pieces_of(release, parcel) {
        let Some((own, others)) = rest.split_first() else {
            return false;
        };
        if !is_same_piece(own, piece) {
            return false;
        }
        rest = others;
    }
    rest.is_empty()
}

/// Whether pieces are equal to those of a parcel, in the order of their table.
pub fn are_pieces_of(pieces: &[Piece], release: &Release, parcel: &Id) -> bool
    ensures { result ≡ same_pieces pieces.now (pieces_named release.now parcel.now) }
{
    tests_find_equal_rows();
    are_those_of(pieces, release, parcel)
}

/// Whether two classes have equal codes and percentages.
fn are_same_classes(a: &Class, b: &Class) -> bool
    ensures { IsTrue result ↔ (a.now ≡ b.now) }
{
    is_same_id(&a.code, &b.code) && a.percent == b.percent
}

/// Whether two classes are equal.
pub fn is_same_class(a: &Class, b: &Class) -> bool
    ensures { result ≡ same_class a.now b.now }
{
    tests_find_equal_rows();
    are_same_classes(a, b)
}
