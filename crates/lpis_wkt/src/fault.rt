//! Why a text is no polygon.

ghost use Rattle.std.specs.Prelude.{◌≡◌};
ghost use Rattle.lpis_wkt.specs.Codes.{wkt_code_text};
ghost use Rattle.lpis_wkt.specs.declared.fault.WktFault.TheVariants.{Memory};

use std::alloc::{AllocError, AllocFailed};
use thiserror::Error;

/// Why a token cannot stand where it stands.
#[derive(Clone, Copy, Debug, PartialEq, Eq)]
pub enum WktCode {
    /// The first word is neither `POLYGON` nor `MULTIPOLYGON`.
    Keyword,
    /// The word `EMPTY` in place of a `(`.
    Empty,
    /// A third number of a point, a mark of such points (`Z`, `M`, `ZM`) or a prefix `SRID=`.
    Dimension,
    /// A coordinate that is no number; one with an exponent too.
    NotANumber,
    /// A number with more decimals than a coordinate has.
    TooFine,
    /// A number past the range of a coordinate.
    OutOfRange,
    /// A ring of fewer than four points.
    TooFewPoints,
    /// A ring whose last point differs from its first.
    NotClosed,
    /// Any other token that cannot stand where it stands.
    Syntax,
    /// A polygon of more than 100,000 points.
    TooManyPoints,
}

impl WktCode {
    /// The two characters that stand for the code in a refusal: `10` to `19`.
    pub fn as_str(self) -> &'static str
        ensures { result.now ≡ wkt_code_text self }
    {
        match self {
            WktCode::Keyword => "10",
            WktCode::Empty => "11",
            WktCode::Dimension => "12",
            WktCode::NotANumber => "13",
            WktCode::TooFine => "14",
            WktCode::OutOfRange => "15",
            WktCode::TooFewPoints => "16",
            WktCode::NotClosed => "17",
            WktCode::Syntax => "18",
            WktCode::TooManyPoints => "19",
        }
    }
}

/// Why `read` answers no polygon.
#[derive(Debug, Drop, Error)]
pub enum WktFault {
    /// Memory ran out.
    #[error("out of memory")]
    Memory,
    /// The text is no polygon: its first token that cannot stand where it stands begins at this
    /// byte.
    #[error("{} at {offset}", .code.as_str())]
    At { code: WktCode, offset: usize },
}

impl From<AllocError> for WktFault {
    ghost from_gives = { λ _ e. e ≡ Memory };

    fn from(_e: AllocError) -> WktFault {
        WktFault::Memory
    }
}

impl<T: Drop> From<AllocFailed<T>> for WktFault {
    ghost from_gives = { λ _ e. e ≡ Memory };

    fn from(_e: AllocFailed<T>) -> WktFault {
        WktFault::Memory
    }
}
