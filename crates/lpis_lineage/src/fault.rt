//! Why a release's lineage is refused.

ghost use Rattle.std.specs.Prelude.{◌≡◌};
ghost use Rattle.lpis_lineage.specs.Codes.{lineage_code_text};
ghost use Rattle.lpis_lineage.specs.declared.fault.LineageFault.TheVariants.{Memory};

use lpis_tables::Id;
use std::alloc::{AllocError, AllocFailed};
use thiserror::Error;

/// What is wrong with a release's lineage.
#[derive(Clone, Copy, Debug, PartialEq, Eq)]
pub enum LineageCode {
    /// A row's old identifier is not live in the last release.
    OldNotLive,
    /// A row's old identifier is still in the release.
    OldStillLive,
    /// A row's successor is not in the release.
    SuccessorMissing,
    /// An equal row stands above.
    DoubledRow,
    /// An ending beside a successor of the same identifier.
    EndingBesideSuccessor,
    /// A dropped identifier has no row.
    NoRow,
    /// An identifier that is not live in the last release, and was in an earlier one.
    UsedBefore,
    /// A marked row that belongs to no split and no merge all of whose rows are marked.
    MarkedOutside,
}

impl LineageCode {
    /// The two characters that stand for the code in a refusal: `70` to `76`, and `78`.
    pub fn as_str(self) -> &'static str
        ensures { result.now ≡ lineage_code_text self }
    {
        match self {
            LineageCode::OldNotLive => "70",
            LineageCode::OldStillLive => "71",
            LineageCode::SuccessorMissing => "72",
            LineageCode::DoubledRow => "73",
            LineageCode::EndingBesideSuccessor => "74",
            LineageCode::NoRow => "75",
            LineageCode::UsedBefore => "76",
            LineageCode::MarkedOutside => "78",
        }
    }
}

/// The first fault of a release's lineage.
#[derive(Debug, Drop, Error)]
pub enum LineageFault {
    /// Memory ran out.
    #[error("out of memory")]
    Memory,
    /// One with this code, of the row of this number. Rows count from 1.
    #[error("lineage {} row {}", .0.as_str(), .1)]
    OfRow(LineageCode, usize),
    /// A dropped identifier has no row.
    #[error("lineage {} {}", LineageCode::NoRow.as_str(), .id.as_str())]
    NoRow { id: Id },
    /// The identifier is not live in the last release, and was in an earlier one, the last time in
    /// this year.
    #[error("lineage {} {} {year}", LineageCode::UsedBefore.as_str(), .id.as_str())]
    UsedBefore { id: Id, year: u16 },
}

impl From<AllocError> for LineageFault {
    ghost from_gives = { λ _ e. e ≡ Memory };

    fn from(_e: AllocError) -> LineageFault {
        LineageFault::Memory
    }
}

impl<T: Drop> From<AllocFailed<T>> for LineageFault {
    ghost from_gives = { λ _ e. e ≡ Memory };

    fn from(_e: AllocFailed<T>) -> LineageFault {
        LineageFault::Memory
    }
}

/// Why a release is not added to a history.
#[derive(Debug, Drop, Error)]
pub enum AddFault {
    /// Memory ran out.
    #[error("out of memory")]
    Memory,
    /// The release's year is not above the year of the last one, which is reported.
    #[error("last {last}")]
    Year { last: u16 },
    /// Its lineage is refused.
    #[error("{0}")]
    Lineage(LineageFault),
}
