//! Why rows say no history.

ghost use Rattle.std.specs.Prelude.{◌≡◌};
ghost use Rattle.lpis_register_rows.specs.declared.fault.RowsFault.TheVariants.{Memory};

use std::alloc::{AllocError, AllocFailed};
use thiserror::Error;

/// Why rows of the register's tables are not read as a history.
#[derive(Debug, Drop, Error)]
pub enum RowsFault {
    /// Memory ran out.
    #[error("out of memory")]
    Memory,
    /// 84: the rows say no lawful history of a known version.
    #[error("84")]
    Unlawful,
}

impl From<AllocError> for RowsFault {
    ghost from_gives = { λ _ e. e ≡ Memory };

    fn from(_e: AllocError) -> RowsFault {
        RowsFault::Memory
    }
}

impl<T: Drop> From<AllocFailed<T>> for RowsFault {
    ghost from_gives = { λ _ e. e ≡ Memory };

    fn from(_e: AllocFailed<T>) -> RowsFault {
        RowsFault::Memory
    }
}
