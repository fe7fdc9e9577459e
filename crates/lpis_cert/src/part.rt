//! The parts of a certificate.

ghost use Rattle.std.specs.Prelude.{◌≡◌, ◌≤◌, true};
ghost use Rattle.lpis_tables.specs.Ids.{is_id};
ghost use Rattle.lpis_cert.specs.Limits.{greatest_count, last_edge};

use lpis_memory::Sequence;
use lpis_points::Triangle;
use lpis_tables::Id;

/// A piece as its triangles, with flats that add points on its edges.
#[derive(Debug, Drop)]
pub struct PiecePart {
    pub id: Id,
    pub triangles: Sequence<Triangle>,
    pub flats: Sequence<Triangle>,
    pub ghost named: { is_id id ≡ true },
}

/// The flats that a parcel's edges need beside its pieces.
#[derive(Debug, Drop)]
pub struct ParcelPart {
    pub id: Id,
    pub flats: Sequence<Triangle>,
    pub ghost named: { is_id id ≡ true },
}

/// The flats that an exact split or an exact merge needs beside the old and the new shapes: of the
/// parcel that was split, or of the one that others were merged into.
#[derive(Debug, Drop)]
pub struct ExactBlock {
    pub merge: bool,
    pub id: Id,
    pub flats: Sequence<Triangle>,
    pub ghost named: { is_id id ≡ true },
}

/// A pair of triangles by their numbers, and an edge that separates them: 0 to 2 of triangle `i`, 3
/// to 5 of triangle `j`.
#[derive(Clone, Copy, Debug, PartialEq, Eq)]
pub struct PairLine {
    pub i: u32,
    pub j: u32,
    pub k: u8,
    pub ghost i_fits: { i ≤ greatest_count },
    pub ghost j_fits: { j ≤ greatest_count },
    pub ghost k_fits: { k ≤ last_edge },
}
