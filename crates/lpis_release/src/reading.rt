//! Reading a release.

ghost use Rattle.lpis_tables.specs.Table.{Answers};
ghost use Rattle.lpis_release.specs.Release.{release_of};

use crate::parcel::read_parcels;
use crate::release::Release;
use lpis_tables::{TableFault, read_classes, read_pieces};
use std::alloc::Global;

/// The release of the texts of its three tables, or its first fault: of the whole parcels table, of
/// the covers, of the classes, and then of the joins. These are, for each piece in order, that its
/// parcel and then its class is not there, and then, for each parcel in order, that no piece names
/// it. The bytes of each text are let go when its table is read.
pub fn read_release(
    alloc: Global,
    parcels: Vec<u8>,
    covers: Vec<u8>,
    classes: Vec<u8>,
) -> Result<Release, TableFault>
    ensures { Answers result (release_of parcels.items covers.items classes.items) }
{
    let parcel_rows = read_parcels(alloc, &parcels)?;
    drop(parcels);
    let piece_rows = read_pieces(alloc, &covers)?;
    drop(covers);
    let class_rows = read_classes(alloc, &classes)?;
    drop(classes);
    Release::of(alloc, parcel_rows, piece_rows, class_rows)
}
