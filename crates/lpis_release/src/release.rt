//! Releases.

ghost use Rattle.std.specs.Prelude.{◌≡◌, ◌≤◌, ◌<◌, ℕ, List, [], All, Some, length, slice_get};
ghost use Rattle.std.specs.List.{IsDistinct};
ghost use Rattle.std.specs.Option.{option_copied};
ghost use Rattle.lpis_tables.specs.Ids.{same_id};
ghost use Rattle.lpis_tables.specs.Table.{Answers, most_rows};
ghost use Rattle.lpis_release.specs.Release.{class_codes, join_faults, joined_release};
ghost use Rattle.lpis_release.specs.Release.{names_parcel, parcel_ids};
ghost use Rattle.lpis_release.specs.Release.{parcel_named, piece_ids};

use crate::groups::Join;
use crate::joins::{Joins, join};
use crate::parcel::{Parcel, Parcels};
use lpis_tables::{Class, Classes, Id, Piece, Pieces, TableFault};
use std::alloc::Global;
use std::marker::Model;

/// Parcels, pieces of land cover and classes, each in the order of its table and without two of one
/// identifier. Each piece's parcel and class are there, and each parcel has a piece. Contracts see
/// the three lists.
#[derive(Drop)]
pub struct Release {
    parcels: Parcels,
    pieces: Vec<Piece>,
    classes: Classes,
    joins: Joins,
}

impl Model for Release {
    ghost use Rattle.lpis_release.specs.Release.{Contents};
    ghost use Rattle.lpis_release.specs.private.Joined.{IsJoinedRelease};

    ghost Value = { Contents };

    ghost view = { λ r. record
        { parcels = r.parcels; pieces = r.pieces.items; classes = r.classes } };

    ghost invariant = { λ r. IsJoinedRelease
        (record { parcels = r.parcels; pieces = r.pieces.items; classes = r.classes })
        r.joins.groups r.joins.classes.items };
}

impl Release {
    ghost use Rattle.lpis_tables.specs.declared.piece.Piece.{Piece};
    ghost use Rattle.lpis_tables.specs.Percentages.{most_percent};
    ghost use Rattle.lpis_release.specs.Weighted.{piece_percent};
    ghost use Rattle.lpis_release.specs.private.Groups.{indices_where, joined_pieces};

    /// The release of these rows, or the first fault of their joins.
    pub(crate) fn of(
        alloc: Global,
        parcels: Parcels,
        pieces: Pieces,
        classes: Classes,
    ) -> Result<Release, TableFault>
        ensures { Answers result
            (joined_release (record { parcels = parcels; pieces = pieces; classes = classes })) }
    {
        let pieces = pieces.into_rows();
        let joins = join(alloc, &parcels, &pieces, &classes)?;
        Ok(Release {
            parcels,
            pieces,
            classes,
            joins,
        })
    }

    /// The parcels in the order of their table.
    pub fn parcels(&self) -> &[Parcel]
        ensures parcels { result.now ≡ self.now.parcels }
        ensures distinct { IsDistinct same_id (parcel_ids self.now.parcels) }
        ensures few { length self.now.parcels ≤ most_rows }
        ensures joined { join_faults self.now ≡ [] }
    {
        self.parcels.as_slice()
    }

    /// The parcel of this identifier, where there is one. It is found in constant time.
    pub fn parcel(&self, id: &Id) -> Option<&Parcel>
        ensures { option_copied result ≡ parcel_named self.now id.now }
    {
        match self.parcels.position(id) {
            Some(index) => self.parcels.as_slice().get(index),
            None => None,
        }
    }

    /// The pieces in the order of their table.
    pub fn pieces(&self) -> &[Piece]
        ensures pieces { result.now ≡ self.now.pieces }
        ensures distinct { IsDistinct same_id (piece_ids self.now.pieces) }
        ensures few { length self.now.pieces ≤ most_rows }
        ensures joined { join_faults self.now ≡ [] }
    {
        self.pieces.as_slice()
    }

    /// The classes in the order of their table.
    pub fn classes(&self) -> &[Class]
        ensures classes { result.now ≡ self.now.classes }
        ensures distinct { IsDistinct same_id (class_codes self.now.classes) }
        ensures few { length self.now.classes ≤ most_rows }
        ensures joined { join_faults self.now ≡ [] }
    {
        self.classes.as_slice()
    }

    /// The joins of the parcel at an index.
    pub(crate) fn joins_at(&self, index: usize) -> &[Join]
        requires { index < length self.now.parcels }
        ensures pieces { (id : List ℕ) → slice_get (parcel_ids self.now.parcels) index ≡ Some id
            → joined_pieces result.now ≡ indices_where (names_parcel id) 0 self.now.pieces }
        ensures within { All (λ i. i < length self.now.pieces) (joined_pieces result.now) }
        ensures few { length result.now ≤ length self.now.pieces }
    {
        self.joins.groups.get(index)
    }

    /// The joins of the parcel of an identifier.
    pub(crate) fn joins_of(&self, parcel: &Id) -> &[Join]
        ensures pieces { joined_pieces result.now
            ≡ indices_where (names_parcel parcel.now) 0 self.now.pieces }
        ensures within { All (λ i. i < length self.now.pieces) (joined_pieces result.now) }
        ensures few { length result.now ≤ length self.now.pieces }
    {
        match self.parcels.position(parcel) {
            Some(index) => self.joins_at(index),
            None => &[],
        }
    }

    /// The percentage of the class of the piece at an index.
    pub(crate) fn percent(&self, index: usize) -> u8
        requires { index < length self.now.pieces }
        ensures value { (piece : Piece) → slice_get self.now.pieces index ≡ Some piece
            → result ≡ piece_percent self.now.classes piece }
        ensures most { result ≤ most_percent }
    {
        let class = self.joins.classes[index];
        match self.classes.as_slice().get(class) {
            Some(class) => class.percent,
            None => 0,
        }
    }
}
