//! Copies of rows.

ghost use Rattle.std.specs.Prelude.{◌≡◌, IfOk};
ghost use Rattle.lpis_release.specs.Release.{pieces_named};

use crate::{Parcel, Release, pieces_of};
use lpis_tables::{Id, Piece};
use std::alloc::{AllocError, Global};

/// An equal parcel.
pub fn copy_parcel(alloc: Global, parcel: &Parcel) -> Result<Parcel, AllocError>
    ensures { IfOk result (λ k. k ≡ parcel.now) }
{
    let id = parcel.id.copy()?;
    let polygon = parcel.polygon.copy(alloc)?;
    Ok(Parcel { id, polygon })
}

/// An equal piece.
fn copy_piece(alloc: Global, piece: &Piece) -> Result<Piece, AllocError>
    ensures { IfOk result (λ x. x ≡ piece.now) }
{
    let id = piece.id.copy()?;
    let parcel = piece.parcel.copy()?;
    let class = piece.class.copy()?;
    let polygon = piece.polygon.copy(alloc)?;
    Ok(Piece {
        id,
        parcel,
        class,
        polygon,
    })
}

/// Copies of the pieces of a parcel, in the order of their table.
pub fn copy_pieces_of(
    alloc: Global,
    release: &Release,
    parcel: &Id,
) -> Result<Vec<Piece>, AllocError>
    ensures { IfOk result (λ v. v.items ≡ pieces_named release.now parcel.now) }
{
    let mut copies = Vec::new(alloc);
    for piece in pieces_of(release, parcel) {
        let copy = copy_piece(alloc, piece)?;
        copies.push(copy)?;
    }
    Ok(copies)
}
