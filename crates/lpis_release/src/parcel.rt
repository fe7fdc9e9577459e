//! Reference parcels.

ghost use Rattle.lpis_tables.specs.Faults.{rows_of};
ghost use Rattle.lpis_tables.specs.Table.{Answers};
ghost use Rattle.lpis_release.specs.Parcels.{parcels_table};

use lpis_rings::Polygon;
use lpis_tables::{Id, Identified, Keyed, Table, TableFault, TableReader, TableRow, read_rows};
use std::alloc::Global;

/// A reference parcel.
#[derive(Debug, Drop)]
pub struct Parcel {
    /// Its own identifier.
    pub id: Id,
    /// Its land.
    pub polygon: Polygon,
}

/// The parcels of a release by their identifiers, in the order of their table.
pub type Parcels = Keyed<Parcel>;

impl Identified for Parcel {
    ghost identifier = { λ parcel. parcel.id };

    fn id(&self) -> &Id {
        &self.id
    }
}

impl TableRow for Parcel {
    ghost use Rattle.std.specs.Prelude.{refl};
    ghost use Rattle.lpis_tables.specs.declared.fault.Table.TheVariants as table;
    ghost use Rattle.lpis_tables.specs.Faults.{polygon_faults};
    ghost use Rattle.lpis_tables.specs.Table.{field_of};
    ghost use Rattle.lpis_release.specs.Parcels.{parcels_table};

    ghost kind = { parcels_table };

    ghost others = { λ n row. polygon_faults table.Parcels n (field_of row 1) };

    fn table() -> Table {
        Table::Parcels
    }

    fn columns() -> &'static [&'static [u8]] {
        &[b"parcel", b"wkt"]
    }

    fn further() -> &'static [&'static [u8]] {
        &[]
    }

    fn is_enough(_reader: &TableReader<'_>) -> bool {
        true
    }

    fn read(alloc: Global, reader: &TableReader<'_>, id: Id) -> Result<Parcel, TableFault> {
        let polygon = reader.polygon(alloc, 1)?;
        Ok(Parcel { id, polygon })
    }

    ghost key_is_first = { λ row. refl };

    ghost key_is_tested_first = { λ keys n row. refl };
}

/// The parcels of the table `parcels`, with the columns `parcel` and `wkt`, or its first fault.
pub(crate) fn read_parcels(alloc: Global, bytes: &[u8]) -> Result<Parcels, TableFault>
    ensures { Answers result (rows_of parcels_table bytes.now) }
{
    read_rows(alloc, bytes)
}
