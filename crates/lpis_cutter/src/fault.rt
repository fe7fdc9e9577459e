//! Why a release gets no certificate.

ghost use Rattle.std.specs.Prelude.{◌≡◌};
ghost use Rattle.lpis_cutter.specs.Codes.{cut_code_text};
ghost use Rattle.lpis_cutter.specs.declared.fault.CutFault.TheVariants.{Memory};

use lpis_points::RatPoint;
use lpis_tables::Id;
use std::alloc::{AllocError, AllocFailed};
use thiserror::Error;

/// What a release is refused for. Each names pieces or parcels of the release by their identifiers.
#[derive(Debug, Drop)]
pub enum Refusal {
    /// This is the first piece of which no cut was found, or whose cut would make more triangles or
    /// flats than a certificate has.
    NoCut { piece: Id },
    /// Two different parcels contain the point.
    ParcelsOverlap { first: Id, second: Id, at: RatPoint },
    /// Two different pieces contain the point.
    PiecesOverlap { first: Id, second: Id, at: RatPoint },
    /// A triangle of the first piece and one of the second have no separating edge, in parts that
    /// are right, and no point of both was found; or they are near, and their pair stands behind as
    /// many as a certificate has.
    NoSeparator { first: Id, second: Id },
    /// The parcel contains the point and none of its pieces does, or one of its pieces does and the
    /// parcel does not.
    Disagreement { parcel: Id, at: RatPoint },
    /// This is the first parcel whose edges have other net counts than its pieces' edges, and for
    /// which no flats were found that make up the difference, or more than a certificate has.
    NoFlats { parcel: Id },
}

impl Refusal {
    /// The two characters that stand for it in a text: `40` to `44`.
    pub fn as_str(&self) -> &'static str
        ensures { result.now ≡ cut_code_text self.now }
    {
        match self {
            Refusal::NoCut { .. } => "40",
            Refusal::ParcelsOverlap { .. } => "41",
            Refusal::PiecesOverlap { .. } => "41",
            Refusal::NoSeparator { .. } => "42",
            Refusal::Disagreement { .. } => "43",
            Refusal::NoFlats { .. } => "44",
        }
    }
}

/// Why `cut` answers no certificate.
#[derive(Debug, Drop, Error)]
pub enum CutFault {
    /// Memory ran out.
    #[error("out of memory")]
    Memory,
    /// The release is refused.
    #[error("the release is refused with {}", .0.as_str())]
    Refused(Refusal),
}

impl From<AllocError> for CutFault {
    ghost from_gives = { λ _ e. e ≡ Memory };

    fn from(_e: AllocError) -> CutFault {
        CutFault::Memory
    }
}

impl<T: Drop> From<AllocFailed<T>> for CutFault {
    ghost from_gives = { λ _ e. e ≡ Memory };

    fn from(_e: AllocFailed<T>) -> CutFault {
        CutFault::Memory
    }
}
