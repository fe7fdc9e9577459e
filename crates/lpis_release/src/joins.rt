//! The joins of a release's tables.

ghost use Rattle.std.specs.Prelude.{◌≡◌, ◌≤◌, [], Some, IfOk, IfErr, length, slice_get};
ghost use Rattle.std.specs.List.{IsDistinct};
ghost use Rattle.lpis_tables.specs.Faults.{unless_faulty};
ghost use Rattle.lpis_tables.specs.Ids.{same_id};
ghost use Rattle.lpis_tables.specs.Table.{Answers, fault_at, most_rows};
ghost use Rattle.lpis_release.specs.Release.{class_codes, join_faults, parcel_ids};
ghost use Rattle.lpis_release.specs.Release.{reference_faults};
ghost use Rattle.lpis_release.specs.Release.{unknown_faults};
ghost use Rattle.lpis_release.specs.private.Groups.{Refuses, empty_faults};
ghost use Rattle.lpis_release.specs.private.Joined.{AreJoins};

use crate::groups::{Groups, Join};
use crate::parcel::Parcels;
use lpis_tables::{Classes, Piece, Table, TableCode, TableFault};
use std::alloc::Global;

/// The pieces of each parcel, and the index of each piece's class.
#[derive(Drop)]
pub(crate) struct Joins {
    pub groups: Groups,
    pub classes: Vec<usize>,
}

/// The same while the pieces are gone over.
#[derive(Drop)]
struct Gathered {
    joins: Vec<Join>,
    classes: Vec<usize>,
}

/// A fault in a row of a table.
fn fault(code: TableCode, table: Table, row: u32) -> TableFault
    ensures { result ≡ fault_at code table row }
{
    TableFault::At {
        code,
        table,
        row,
        wkt: None,
    }
}

/// The indices of the parcel and the class of a piece in this row.
fn joined_indices(
    parcels: &Parcels,
    classes: &Classes,
    piece: &Piece,
    row: u32,
) -> Result<(u32, usize), TableFault>
    ensures none { IfOk result (λ _. unknown_faults parcels.now classes.now row piece.now ≡ []) }
    ensures parcel { IfOk result (λ r. slice_get (parcel_ids parcels.now) r.0 ≡ Some
        piece.now.parcel) }
    ensures class { IfOk result (λ r. slice_get (class_codes classes.now) r.1 ≡ Some
        piece.now.class) }
    ensures err { IfErr result (Refuses (unknown_faults parcels.now classes.now row piece.now)) }
{
    let Some(parcel) = parcels.position(&piece.parcel) else {
        return Err(fault(TableCode::UnknownParcel, Table::Covers, row));
    };
    let Some(class) = classes.position(&piece.class) else {
        return Err(fault(TableCode::UnknownClass, Table::Covers, row));
    };
    // The parcels are not too many.
    let _ = parcels.as_slice();
    Ok((parcel as u32, class))
}

/// Joins the pieces to the parcels and classes.
fn join_pieces(
    alloc: Global,
    parcels: &Parcels,
    pieces: &[Piece],
    classes: &Classes,
) -> Result<Gathered, TableFault>
    requires distinct { IsDistinct same_id (class_codes classes.now) }
    requires few { length pieces.now ≤ most_rows }
    ensures none { IfOk result (λ _. reference_faults parcels.now classes.now 1 pieces.now ≡ []) }
    ensures joins { IfOk result
        (λ j. AreJoins parcels.now pieces.now classes.now j.joins.items j.classes.items) }
    ensures err { IfErr result (Refuses (reference_faults parcels.now classes.now 1 pieces.now)) }
{
    // No two parcels have one identifier.
    let _ = parcels.as_slice();
    let mut joins = Vec::with_capacity(alloc, pieces.len())?;
    let mut class_indices = Vec::with_capacity(alloc, pieces.len())?;
    for (i, piece) in pieces.iter().enumerate() {
        let (parcel, class) = joined_indices(parcels, classes, piece, i as u32 + 1)?;
        joins.push(Join {
            parcel,
            piece: i as u32,
        })?;
        class_indices.push(class)?;
    }
    Ok(Gathered {
        joins,
        classes: class_indices,
    })
}

/// Looks for a parcel without pieces among so many.
fn check_groups(groups: &Groups, count: usize) -> Result<(), TableFault>
    requires { count ≤ most_rows }
    ensures { Answers result (unless_faulty (empty_faults groups.now 0 count) tt) }
{
    for k in 0..count {
        if groups.get(k).is_empty() {
            return Err(fault(TableCode::ParcelWithoutPieces, Table::Parcels, k as u32 + 1));
        }
    }
    Ok(())
}

/// Joins the rows of a release's tables, or reports the first fault of the joins.
pub(crate) fn join(
    alloc: Global,
    parcels: &Parcels,
    pieces: &[Piece],
    classes: &Classes,
) -> Result<Joins, TableFault>
    requires { length pieces.now ≤ most_rows }
    ensures joins { IfOk result
        (λ j. AreJoins parcels.now pieces.now classes.now j.groups j.classes.items) }
    ensures none { IfOk result
        (λ _. join_faults
        (record { parcels = parcels.now; pieces = pieces.now; classes = classes.now }) ≡ []) }
    ensures err { IfErr result
        (Refuses
        (join_faults
        (record { parcels = parcels.now; pieces = pieces.now; classes = classes.now }))) }
{
    // No two classes have one code.
    let _ = classes.as_slice();
    let Gathered { joins, classes } = join_pieces(alloc, parcels, pieces, classes)?;
    let groups = Groups::of(joins)?;
    check_groups(&groups, parcels.as_slice().len())?;
    Ok(Joins { groups, classes })
}
