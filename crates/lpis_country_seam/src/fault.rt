//! What is wrong between regions.

ghost use Rattle.std.specs.Prelude.{◌≡◌};
ghost use Rattle.lpis_country_seam.specs.Codes.{classes_code_text, seam_code_text};
ghost use Rattle.lpis_country_seam.specs.declared.fault.SeamFault.TheVariants.{Memory};

use lpis_tables::Id;
use std::alloc::{AllocError, AllocFailed};
use thiserror::Error;

/// What is wrong with a parcel between regions.
#[derive(Clone, Copy, Debug, PartialEq, Eq)]
pub enum SeamCode {
    /// Its box does not meet the region's own tile.
    Elsewhere,
    /// Its identifier is that of an earlier parcel whose box meets no tile from this one on.
    Reused,
    /// It stands in an earlier region with another polygon or other pieces.
    Differs,
    /// Its box meets the region's tile, and it is not there.
    Lacks,
}

impl SeamCode {
    /// The two characters that stand for the code in a refusal: `92` to `95`.
    pub fn as_str(self) -> &'static str
        ensures { result.now ≡ seam_code_text self }
    {
        match self {
            SeamCode::Elsewhere => "92",
            SeamCode::Reused => "93",
            SeamCode::Differs => "94",
            SeamCode::Lacks => "95",
        }
    }
}

/// The two characters that stand in a refusal for classes that differ.
pub fn classes_code() -> &'static str
    ensures { result.now ≡ classes_code_text }
{
    "96"
}

/// Why a region does not fit to those before it.
#[derive(Debug, Drop, Error)]
pub enum SeamFault {
    /// Memory ran out.
    #[error("out of memory")]
    Memory,
    /// The first row, from 1, at which its classes differ from those of the country.
    #[error("96 classes row {row}")]
    Classes {
        row: usize,
    },
    /// A parcel, and the region that is at fault by its number, from 0.
    #[error("{} parcel {}", .code.as_str(), .id.as_str())]
    At {
        code: SeamCode,
        id: Id,
        region: usize,
    },
}

impl From<AllocError> for SeamFault {
    ghost from_gives = { λ _ e. e ≡ Memory };

    fn from(_e: AllocError) -> SeamFault {
        SeamFault::Memory
    }
}

impl<T: Drop> From<AllocFailed<T>> for SeamFault {
    ghost from_gives = { λ _ e. e ≡ Memory };

    fn from(_e: AllocFailed<T>) -> SeamFault {
        SeamFault::Memory
    }
}
