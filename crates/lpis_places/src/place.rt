//! The place of a point.

ghost use Rattle.std.specs.Prelude.{◌≡◌, All, IfOk, None, Option, length};
ghost use Rattle.lpis_places.specs.declared.place.Place.{Place};

use lpis_tables::{Id, Piece};
use std::alloc::{AllocError, Global};

/// The parcel and the piece that contain a point, by their identifiers, and the piece's class.
#[derive(Debug, Drop)]
pub struct Place {
    pub parcel: Id,
    pub piece: Id,
    pub class: Id,
}

impl Place {
    /// That of a piece.
    pub(crate) fn of(piece: &Piece) -> Result<Place, AllocError>
        ensures { IfOk result (λ a. (a.parcel ≡ piece.now.parcel) × (a.piece ≡ piece.now.id)
            × (a.class ≡ piece.now.class)) }
    {
        let parcel = piece.parcel.copy()?;
        let class = piece.class.copy()?;
        let piece = piece.id.copy()?;
        Ok(Place {
            parcel,
            piece,
            class,
        })
    }
}

/// No place yet for each of so many points.
pub fn no_places(alloc: Global, count: usize) -> Result<Vec<Option<Place>>, AllocError>
    ensures count { IfOk result (λ v. length v.items ≡ count) }
    ensures none { IfOk result (λ v. All (λ (f : Option Place). f ≡ None) v.items) }
{
    let mut found = Vec::with_capacity(alloc, count)?;
    for _ in 0..count {
        found.push(None)?;
    }
    Ok(found)
}
