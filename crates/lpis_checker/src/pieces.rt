//! The conditions on a piece and its part.

ghost use Rattle.std.specs.Prelude.{◌≡◌, ◌↔◌, ◌<◌, ⊤, All, IsTrue, length};
ghost use Rattle.lpis_points.specs.Triangles.{IsCounterClockwise};
ghost use Rattle.lpis_checker.specs.GoodCertificate.{OnPiece};

use crate::condition::PieceCondition;
use crate::places::Places;
use lpis_cert::PiecePart;
use lpis_edge_sums::{EdgeSum, are_flat, has_corners};
use lpis_points::{Triangle, is_ccw};
use lpis_tables::{Id, Piece};
use std::alloc::{AllocError, Global};

/// Whether two identifiers are equal.
pub(crate) fn is_same(part: &Id, own: &Id) -> bool
    ensures { IsTrue result ↔ (part.now ≡ own.now) }
{
    part == own
}

/// Whether there is a triangle.
fn has_triangle(triangles: &[Triangle]) -> bool
    ensures { IsTrue result ↔ (0 < length triangles.now) }
{
    !triangles.is_empty()
}

/// Whether each triangle is counter-clockwise.
fn are_counter_clockwise(triangles: &[Triangle]) -> bool
    ensures { IsTrue result ↔ All IsCounterClockwise triangles.now }
{
    triangles.iter().all(|t| is_ccw(t))
}

impl Places for PieceCondition {
    type Item = Piece;

    type Part = PiecePart;

    ghost holds = { λ q x t. OnPiece q x t };

    ghost stands = { λ q k x. ⊤ };

    fn holds_of(
        &self,
        alloc: Global,
        sum: &mut EdgeSum,
        _index: usize,
        piece: &Piece,
        part: &PiecePart,
    ) -> Result<bool, AllocError> {
        let triangles = part.triangles.as_slice();
        let flats = part.flats.as_slice();
        match self {
            PieceCondition::Names => Ok(is_same(&part.id, &piece.id)),
            PieceCondition::Triangles => Ok(has_triangle(triangles)),
            PieceCondition::CounterClockwise => Ok(are_counter_clockwise(triangles)),
            PieceCondition::Flats => Ok(are_flat(flats)),
            PieceCondition::Corners => has_corners(alloc, &piece.polygon, triangles, flats),
            PieceCondition::Edges => sum.is_cut(&piece.polygon, triangles, flats),
        }
    }
}
