//! Why a table of points is refused.

ghost use Rattle.std.specs.Prelude.{◌≡◌};
ghost use Rattle.lpis_places.specs.Codes.{axis_text, of_table};
ghost use Rattle.lpis_places.specs.declared.fault.PointsFault.TheVariants.{Memory};

use lpis_tables::{TableCode, TableFault};
use lpis_wkt::WktCode;
use std::alloc::{AllocError, AllocFailed};
use thiserror::Error;

/// The code of a coordinate that is none, which the number's own code follows in a refusal.
pub const BAD_NUMBER: &str = "3d";

/// A coordinate of a point.
#[derive(Clone, Copy, Debug, PartialEq, Eq)]
pub enum Axis {
    /// To the east.
    X,
    /// To the north.
    Y,
}

impl Axis {
    /// The name of its column.
    pub fn as_str(self) -> &'static str
        ensures { result.now ≡ axis_text self }
    {
        match self {
            Axis::X => "x",
            Axis::Y => "y",
        }
    }
}

/// Why a table of points is refused.
#[derive(Clone, Copy, Debug, PartialEq, Eq, Drop, Error)]
pub enum PointsFault {
    /// Memory ran out.
    #[error("out of memory")]
    Memory,
    /// A fault that any table may have, and its row (0 is the header, 1 the first record after it).
    #[error("{} row {row}", .code.as_str())]
    Table { code: TableCode, row: u32 },
    /// A coordinate of a row that is none: no number, too many decimals, or out of range.
    #[error("{} {}", .axis.as_str(), .code.as_str())]
    Number { row: u32, axis: Axis, code: WktCode },
}

impl From<AllocError> for PointsFault {
    ghost from_gives = { λ _ e. e ≡ Memory };

    fn from(_e: AllocError) -> PointsFault {
        PointsFault::Memory
    }
}

impl<T: Drop> From<AllocFailed<T>> for PointsFault {
    ghost from_gives = { λ _ e. e ≡ Memory };

    fn from(_e: AllocFailed<T>) -> PointsFault {
        PointsFault::Memory
    }
}

impl From<TableFault> for PointsFault {
    ghost from_gives = { λ fault e. e ≡ of_table fault };

    fn from(fault: TableFault) -> PointsFault {
        match fault {
            TableFault::Memory => PointsFault::Memory,
            TableFault::At {
                code,
                row,
                table: _table,
                wkt: _wkt,
            } => PointsFault::Table { code, row },
        }
    }
}
