//! What is reported of a certificate that is not good.

ghost use Rattle.std.specs.Prelude.{◌≡◌};
ghost use Rattle.lpis_checker.specs.declared.fault.CheckFault.TheVariants.{Memory};

use crate::condition::Condition;
use lpis_tables::Id;
use std::alloc::{AllocError, AllocFailed};
use thiserror::Error;

/// The piece, the parcel or the two triangles, by their numbers, at which a condition fails.
#[derive(Debug, Drop)]
pub enum Location {
    Piece(Id),
    Parcel(Id),
    Pair(u32, u32),
}

/// Why `check` gives no yes.
#[derive(Debug, Drop, Error)]
pub enum CheckFault {
    /// Memory ran out.
    #[error("out of memory")]
    Memory,
    /// The condition of the lowest code that fails, and the first place at which it does.
    #[error("condition {} fails", .code.as_str())]
    At { code: Condition, place: Location },
}

impl From<AllocError> for CheckFault {
    ghost from_gives = { λ _ e. e ≡ Memory };

    fn from(_e: AllocError) -> CheckFault {
        CheckFault::Memory
    }
}

impl<T: Drop> From<AllocFailed<T>> for CheckFault {
    ghost from_gives = { λ _ e. e ≡ Memory };

    fn from(_e: AllocFailed<T>) -> CheckFault {
        CheckFault::Memory
    }
}
