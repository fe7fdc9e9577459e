//! Pieces of land cover.

ghost use Rattle.lpis_tables.specs.Covers.{covers_table};
ghost use Rattle.lpis_tables.specs.Faults.{rows_of};
ghost use Rattle.lpis_tables.specs.Table.{Answers};

use crate::fault::{Table, TableFault};
use crate::id::Id;
use crate::keyed::{Identified, Keyed};
use crate::reader::TableReader;
use crate::typed::{TableRow, read_rows};
use lpis_rings::Polygon;
use std::alloc::Global;

/// A piece of land cover.
#[derive(Debug, Drop)]
pub struct Piece {
    /// Its own identifier.
    pub id: Id,
    /// The parcel that it covers.
    pub parcel: Id,
    /// The code of its class.
    pub class: Id,
    /// Its land.
    pub polygon: Polygon,
}

/// The pieces of a release by their identifiers, in the order of their table.
pub type Pieces = Keyed<Piece>;

impl Identified for Piece {
    ghost identifier = { λ piece. piece.id };

    fn id(&self) -> &Id {
        &self.id
    }
}

impl TableRow for Piece {
    ghost use Rattle.std.specs.Prelude.{refl};
    ghost use Rattle.lpis_tables.specs.declared.fault.Table.TheVariants as table;
    ghost use Rattle.lpis_tables.specs.Covers.{covers_table, more_piece_faults};

    ghost kind = { covers_table };

    ghost others = { more_piece_faults };

    fn table() -> Table {
        Table::Covers
    }

    fn columns() -> &'static [&'static [u8]] {
        &[b"piece", b"parcel", b"class", b"wkt"]
    }

    fn further() -> &'static [&'static [u8]] {
        &[]
    }

    fn is_enough(_reader: &TableReader<'_>) -> bool {
        true
    }

    fn read(alloc: Global, reader: &TableReader<'_>, id: Id) -> Result<Piece, TableFault> {
        let parcel = reader.id(alloc, 1)?;
        let class = reader.id(alloc, 2)?;
        let polygon = reader.polygon(alloc, 3)?;
        Ok(Piece {
            id,
            parcel,
            class,
            polygon,
        })
    }

    ghost key_is_first = { λ row. refl };

    ghost key_is_tested_first = { λ keys n row. refl };
}

/// The pieces of the table `covers`, with the columns `piece`, `parcel`, `class` and `wkt`, or its
/// first fault.
pub fn read_pieces(alloc: Global, bytes: &[u8]) -> Result<Pieces, TableFault>
    ensures { Answers result (rows_of covers_table bytes.now) }
{
    read_rows(alloc, bytes)
}
