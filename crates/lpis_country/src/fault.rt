//! Why a text is no plan.

ghost use Rattle.std.specs.Prelude.{◌≡◌};
ghost use Rattle.lpis_country.specs.declared.fault.PlanFault.TheVariants.{Memory};

use std::alloc::{AllocError, AllocFailed};
use thiserror::Error;

/// Why `read_plan` answers no plan.
#[derive(Debug, Drop, Error)]
pub enum PlanFault {
    /// Memory ran out.
    #[error("out of memory")]
    Memory,
    /// The first line at which the text is none of a country, counted from 1.
    #[error("no plan from line {line} on")]
    At { line: u64 },
}

impl From<AllocError> for PlanFault {
    ghost from_gives = { λ _ e. e ≡ Memory };

    fn from(_e: AllocError) -> PlanFault {
        PlanFault::Memory
    }
}

impl<T: Drop> From<AllocFailed<T>> for PlanFault {
    ghost from_gives = { λ _ e. e ≡ Memory };

    fn from(_e: AllocFailed<T>) -> PlanFault {
        PlanFault::Memory
    }
}
