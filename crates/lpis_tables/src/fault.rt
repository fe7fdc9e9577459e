//! Tables, and why one is refused.

ghost use Rattle.std.specs.Prelude.{◌≡◌};
ghost use Rattle.lpis_tables.specs.Codes.{table_code_text, table_text};
ghost use Rattle.lpis_tables.specs.declared.fault.TableFault.TheVariants.{Memory};

use lpis_wkt::WktFault;
use std::alloc::{AllocError, AllocFailed};
use thiserror::Error;

/// A table by its name.
#[derive(Clone, Copy, Debug, PartialEq, Eq)]
pub enum Table {
    /// Polygons alone.
    Area,
    /// Parcels.
    Parcels,
    /// Pieces of land cover.
    Covers,
    /// Classes of land cover.
    Classes,
    /// Successors of parcels.
    Lineage,
}

impl Table {
    /// The table's name in a refusal.
    pub fn as_str(self) -> &'static str
        ensures { result.now ≡ table_text self }
    {
        match self {
            Table::Area => "area",
            Table::Parcels => "parcels",
            Table::Covers => "covers",
            Table::Classes => "classes",
            Table::Lineage => "lineage",
        }
    }
}

/// What is wrong with a row of a table.
#[derive(Clone, Copy, Debug, PartialEq, Eq)]
pub enum TableCode {
    /// A record whose length is not the header's, a second byte order mark, or a polygon's text
    /// that is not UTF-8.
    NotCsv,
    /// No field of the header has the column's name.
    MissingColumn,
    /// Two fields of the header have the column's name.
    DoubledColumn,
    /// A field that is no identifier.
    BadIdentifier,
    /// An identifier that is the key of an earlier row.
    DoubledIdentifier,
    /// A piece of a parcel that is not in the parcels table.
    UnknownParcel,
    /// A piece of a class that is not in the classes table.
    UnknownClass,
    /// A parcel that no piece names.
    ParcelWithoutPieces,
    /// A text that is no polygon.
    BadGeometry,
    /// A mark of eligibility other than `0` and `1`.
    BadEligible,
    /// A row past the most rows of a table.
    TooManyRows,
    /// A percentage other than `0` to `100`.
    BadPercent,
    /// A mark of exact lineage other than none, `0` and `1`.
    BadMark,
}

impl TableCode {
    /// The two characters that stand for the code in a refusal: `30` to `39` and `3a` to `3c`.
    pub fn as_str(self) -> &'static str
        ensures { result.now ≡ table_code_text self }
    {
        match self {
            TableCode::NotCsv => "30",
            TableCode::MissingColumn => "31",
            TableCode::DoubledColumn => "32",
            TableCode::BadIdentifier => "33",
            TableCode::DoubledIdentifier => "34",
            TableCode::UnknownParcel => "35",
            TableCode::UnknownClass => "36",
            TableCode::ParcelWithoutPieces => "37",
            TableCode::BadGeometry => "38",
            TableCode::BadEligible => "39",
            TableCode::TooManyRows => "3a",
            TableCode::BadPercent => "3b",
            TableCode::BadMark => "3c",
        }
    }
}

/// Why tables are refused.
#[derive(Debug, Drop, Error)]
pub enum TableFault {
    /// Memory ran out.
    #[error("out of memory")]
    Memory,
    /// The first fault: its table, its row (0 is the header, 1 the first record after it), and, for
    /// a text that is no polygon, where in that text.
    #[error("{} {} row {row}", .code.as_str(), .table.as_str())]
    At {
        code: TableCode,
        table: Table,
        row: u32,
        wkt: Option<WktFault>,
    },
}

impl From<AllocError> for TableFault {
    ghost from_gives = { λ _ e. e ≡ Memory };

    fn from(_e: AllocError) -> TableFault {
        TableFault::Memory
    }
}

impl<T: Drop> From<AllocFailed<T>> for TableFault {
    ghost from_gives = { λ _ e. e ≡ Memory };

    fn from(_e: AllocFailed<T>) -> TableFault {
        TableFault::Memory
    }
}
