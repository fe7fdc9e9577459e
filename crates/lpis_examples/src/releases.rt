//! Examples of pieces, classes and eligible areas.

ghost use Rattle.std.specs.Prelude.{[], ◌∷◌, ◌≡◌, codes, pos};
ghost use Rattle.lpis_release.specs.Release.{pieces_named};
ghost use Rattle.lpis_release.specs.Weighted.{areas2, piece_percent, weighted2};
ghost use Rattle.lpis_examples.specs.Releases.{classes, crop, house, meadow, rocks, scrub};
ghost use Rattle.lpis_examples.specs.Releases.{two_parcels, with_house, wood};

/// The pieces of `farm` are the meadow and the wood. The one piece of `field` is the crop.
pub fn the_pieces_of_a_parcel()
    ensures farm { pieces_named two_parcels (codes "farm") ≡ meadow ∷ wood ∷ [] }
    ensures field { pieces_named two_parcels (codes "field") ≡ crop ∷ [] }
{}

/// Of the meadow 100 percent are eligible, of the wood 50.
pub fn the_percentage_of_a_piece()
    ensures meadow { piece_percent classes meadow ≡ 100 }
    ensures wood { piece_percent classes wood ≡ 50 }
{}

/// `meadow` and `wood` name `farm`. The identifiers `farm2`, `far` and `Farm` are others, and have
/// no piece.
pub fn an_identifier_is_the_whole_of_it()
    ensures longer { pieces_named two_parcels (codes "farm2") ≡ [] }
    ensures shorter { pieces_named two_parcels (codes "far") ≡ [] }
    ensures capital { pieces_named two_parcels (codes "Farm") ≡ [] }
{}

/// A class that is not listed counts 0 percent. (A release with such a piece is refused as it is
/// read.)
pub fn a_piece_of_an_unknown_class()
    ensures { piece_percent classes rocks ≡ 0 }
{}

/// The meadow and the wood have 8 each. Doubled and added that is 32.
pub fn the_area_of_pieces()
    ensures { areas2 (meadow ∷ wood ∷ []) ≡ pos 32 }
{}

/// Of `farm` the 8 of `meadow` are eligible and half of the 8 of `wood`: 12 together. Doubled, and
/// times 100 because of the percent, that is 2400. Of `field` all 16 are eligible: 3200.
pub fn the_eligible_area_of_a_parcel()
    ensures farm { weighted2 two_parcels (codes "farm") ≡ pos 2400 }
    ensures field { weighted2 two_parcels (codes "field") ≡ pos 3200 }
{}

/// `farm` in three strips, 4 of a house, 4 of scrub, 8 of heath, with 0, 33 and 67 percent: 4 x 33
/// + 8 x 67 = 668, doubled 1336.
pub fn a_class_of_nothing_and_one_of_a_third()
    ensures house { piece_percent classes house ≡ 0 }
    ensures scrub { piece_percent classes scrub ≡ 33 }
    ensures farm { weighted2 with_house (codes "farm") ≡ pos 1336 }
{}
