//! Examples of releases that are sound maps, and of releases that are not.

ghost use Rattle.lpis_checker.specs.SoundMap.{IsSoundMap};
ghost use Rattle.lpis_examples.specs.Releases.{between_millimetres, cancelling_parcel};
ghost use Rattle.lpis_examples.specs.Releases.{cancelling_piece, elsewhere, exchanged};
ghost use Rattle.lpis_examples.specs.Releases.{hole_outside, listed_twice, nothing, outside_twice};
ghost use Rattle.lpis_examples.specs.Releases.{overlapping};
ghost use Rattle.lpis_examples.specs.Releases.{pieces_overlapping, reaching_out, same_parcel_twice};
ghost use Rattle.lpis_examples.specs.Releases.{thin_cancelling_parcel, thin_cancelling_piece};
ghost use Rattle.lpis_examples.specs.Releases.{thin_outside_twice, thin_overlap, thin_parcel_twice};
ghost use Rattle.lpis_examples.specs.Releases.{two_parcels, with_gap, with_island, with_strip};
ghost use Rattle.lpis_examples.specs.Releases.{without_width};

/// `farm` with `meadow` and `wood`, and `field` with `crop`: a sound map.
pub fn two_parcels_side_by_side()
    ensures { IsSoundMap two_parcels }
{}

/// `farm` with `pasture`, and a parcel from (5, 0) to (8, 4) with a piece of the same shape. The
/// strip between x = 4 and x = 5 is in neither. The map need not cover the country: it is sound.
pub fn two_parcels_with_a_strip_between()
    ensures { IsSoundMap with_strip }
{}

/// A parcel has two parts: the square with a hole from (1, 1) to (3, 3), and the square from (8, 0)
/// to (12, 4). A second parcel fills the hole; its ring is written clockwise. A third, from (4, 4)
/// to (8, 8), meets each part only at one corner. Each part, and each other parcel, is one piece. A
/// sound map.
pub fn an_island_two_parts_and_corners()
    ensures { IsSoundMap with_island }
{}

/// A map without any rows is sound: so read the count of parcels in the answer.
pub fn a_map_of_nothing()
    ensures { IsSoundMap nothing }
{}

/// `farm`, `orchard` and a parcel from (3, 0) to (8, 4), each with a piece of the same shape. (3,
/// 2) is in the first and in the third. Broken: `one_parcel`, `one_piece`.
pub fn two_parcels_that_overlap()
    ensures { IsSoundMap overlapping → ⊥ }
{}

/// `farm` with `meadow` alone: (3, 2) is in the parcel and in no piece. Broken: `filled`,
/// `areas.parcels`.
pub fn a_parcel_with_a_gap()
    ensures { IsSoundMap with_gap → ⊥ }
{}

/// `farm` with `meadow` and a piece from (2, 0) to (5, 4): (4.5, 2) is in that piece and not in the
/// parcel. Broken: `filled`, `areas.parcels`.
pub fn a_piece_that_reaches_out()
    ensures { IsSoundMap reaching_out → ⊥ }
{}

/// `farm` with a piece from (0, 0) to (3, 4) and `wood`: (2, 2) is in both pieces. Broken:
/// `one_piece`, `filled`, `areas.parcels`.
pub fn two_pieces_that_overlap()
    ensures { IsSoundMap pieces_overlapping → ⊥ }
{}

/// `field`, `farm` and `orchard`. The piece of `farm` lies from (8, 0) to (12, 4), and has the same
/// area: (2, 2) is in the parcel and in no piece. Broken: only `filled`.
pub fn a_piece_that_lies_elsewhere()
    ensures { IsSoundMap elsewhere → ⊥ }
{}

/// `farm` and `field`, but `meadow` and `wood` name `field`, and `crop` names `farm`. (2, 2) is in
/// `farm`, and not in the piece that names `farm`. Broken: only `filled`.
pub fn pieces_that_name_the_neighbour()
    ensures { IsSoundMap exchanged → ⊥ }
{}

/// A parcel is the triangle (0, 0), (1, 1), (1, 2), and its piece the triangle (5, 0), (6, 1), (6,
/// 2). Neither contains a point with whole-millimetre coordinates, not even its corners. But (3/4,
/// 1) is in the parcel and in no piece. Broken: only `filled`.
pub fn a_map_that_is_wrong_between_millimetres()
    ensures { IsSoundMap between_millimetres → ⊥ }
{}

/// Two parcels, and a piece of each, are all the first of these triangles: (3/4, 1) is in all of
/// them. Broken: `one_parcel`, `one_piece`.
pub fn two_thin_parcels_that_are_the_same()
    ensures { IsSoundMap thin_overlap → ⊥ }
{}

/// A parcel is listed in two rows, and is this triangle, as is its piece: (3/4, 1) is in both rows.
/// Broken: only `one_parcel`.
pub fn a_thin_parcel_in_two_rows()
    ensures { IsSoundMap thin_parcel_twice → ⊥ }
{}

/// Two pieces of a parcel that is not listed are the triangle (8, 0), (9, 1), (9, 2): (35/4, 1) is
/// in both. Broken: only `one_piece`.
pub fn two_thin_pieces_outside_all_parcels()
    ensures { IsSoundMap thin_outside_twice → ⊥ }
{}

/// A piece fills its parcel. Besides, it lists the triangle (8, 0), (9, 1), (9, 2) twice, and as a
/// hole the triangle (12, 0), (13, 1), (13, 2) twice. Round (35/4, 1) it turns twice. Broken: only
/// `turns.pieces`.
pub fn a_piece_with_thin_land_twice()
    ensures { IsSoundMap thin_cancelling_piece → ⊥ }
{}

/// The parcel has this shape, and its piece is the square. Broken: only `turns.parcels`.
pub fn a_parcel_with_thin_land_twice()
    ensures { IsSoundMap thin_cancelling_parcel → ⊥ }
{}

/// `farm` is listed in two rows, with `pasture`: (2, 2) is in both rows. Broken: only `one_parcel`.
pub fn a_parcel_in_two_rows()
    ensures { IsSoundMap same_parcel_twice → ⊥ }
{}

/// `farm` with `meadow` and `wood`. Two further pieces lie from (8, 0) to (12, 4), and name a
/// parcel that is not listed: (10, 2) is in both. Broken: only `one_piece`.
pub fn two_pieces_outside_all_parcels()
    ensures { IsSoundMap outside_twice → ⊥ }
{}

/// A parcel and its piece each have the square listed twice. They contain no point, and their area
/// is 32. Round (2, 2) they turn twice. Broken: only `turns`, for both.
pub fn a_parcel_that_is_listed_twice()
    ensures { IsSoundMap listed_twice → ⊥ }
{}

/// A parcel and its piece are the square with a hole from (8, 0) to (10, 2), outside of it. They
/// contain 16 + 4, but their area is 16 - 4. Round (9, 1) they turn -1 times. Broken: only `turns`,
/// for both.
pub fn a_hole_outside_the_shell_of_a_parcel()
    ensures { IsSoundMap hole_outside → ⊥ }
{}

/// `field`, `farm` and `orchard`. The piece of `farm` is the square. Besides, it lists the square
/// from (8, 0) to (12, 4) twice, and a hole from (12, 0) to (16, 4) twice. It contains no point of
/// these, as two is even, and their areas cancel. But it turns 2 times round (10, 2), and -2 times
/// round (14, 2). Broken: only `turns.pieces`.
pub fn a_piece_with_land_twice()
    ensures { IsSoundMap cancelling_piece → ⊥ }
{}

/// The same, but `farm` has this shape, and its piece is the square. Broken: only `turns.parcels`.
pub fn a_parcel_with_land_twice()
    ensures { IsSoundMap cancelling_parcel → ⊥ }
{}

/// `meadow` and `wood` fill `farm`. Between their two rows is a piece which is a line from (0, 0)
/// to (4, 0) and back: it contains no point and has no area. Broken: only `areas.pieces`.
pub fn a_piece_without_width()
    ensures { IsSoundMap without_width → ⊥ }
{}
