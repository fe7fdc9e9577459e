//! The pieces of a parcel.

ghost use Rattle.std.specs.Prelude.{◌≡◌, ◌<◌, Some, length, slice_get};
ghost use Rattle.std.specs.Iterator.{YieldsFirstRef, item_count};
ghost use Rattle.lpis_release.specs.Release.{pieces_named};
ghost use Rattle.lpis_release.specs.declared.parcel.Parcel.{Parcel};

use crate::groups::Join;
use crate::release::Release;
use lpis_tables::{Id, Piece};
use std::marker::Model;

/// The pieces of one parcel in the order of their table. It takes no memory. Contracts see the list
/// of those that are left.
#[derive(Drop)]
pub struct PiecesOf<'a> {
    pieces: &'a [Piece],
    joins: &'a [Join],
}

impl<'a> Model for PiecesOf<'a> {
    ghost use Rattle.std.specs.Prelude.{◌<◌, All, List, length};
    ghost use Rattle.lpis_tables.specs.declared.piece.Piece.{Piece};
    ghost use Rattle.lpis_release.specs.private.Groups.{at_indices, joined_pieces};

    ghost Value = { List Piece };

    ghost view = { λ it. at_indices it.pieces.now (joined_pieces it.joins.now) };

    ghost invariant = { λ it. All (λ i. i < length it.pieces.now) (joined_pieces it.joins.now) };
}

/// The piece at an index.
fn piece_at(pieces: &[Piece], index: u32) -> &Piece
    requires { index < length pieces.now }
    ensures { slice_get pieces.now index ≡ Some result.now }
{
    &pieces[index as usize]
}

impl<'a> Iterator for PiecesOf<'a> {
    type Item = &'a Piece;

    ghost next_gives = { YieldsFirstRef (λ it. it) };

    ghost remaining = { item_count (λ it. it) };

    fn next(&mut self) -> Option<&'a Piece> {
        let (first, others) = self.joins.split_first()?;
        let piece = piece_at(self.pieces, first.piece);
        self.joins = others;
        Some(piece)
    }
}

/// The pieces of the parcel at an index in the order of their table. The time of going over them is
/// that of their number.
pub fn pieces_at(release: &Release, index: usize) -> PiecesOf<'_>
    requires { index < length release.now.parcels }
    ensures { (parcel : Parcel) → slice_get release.now.parcels index ≡ Some parcel
        → result ≡ pieces_named release.now parcel.id }
{
    PiecesOf {
        pieces: release.pieces(),
        joins: release.joins_at(index),
    }
}

/// The pieces of this parcel in the order of their table; none for an identifier that is no
/// parcel's. The time of going over them is that of their number.
pub fn pieces_of<'a>(release: &'a Release, parcel: &Id) -> PiecesOf<'a>
    ensures { result ≡ pieces_named release.now parcel.now }
{
    PiecesOf {
        pieces: release.pieces(),
        joins: release.joins_of(parcel),
    }
}
