//! Why a step of the sweep goes no further.

use std::alloc::{AllocError, AllocFailed};

/// Why a step goes no further.
#[derive(Clone, Copy, Debug)]
pub(crate) enum Halt {
    /// Memory ran out.
    Memory,
    /// These edges have no cut that the sweep finds.
    NoCut,
}

impl From<AllocError> for Halt {
    fn from(_e: AllocError) -> Halt {
        Halt::Memory
    }
}

impl<T: Drop> From<AllocFailed<T>> for Halt {
    fn from(_e: AllocFailed<T>) -> Halt {
        Halt::Memory
    }
}

/// The number of a new item behind so many.
pub(crate) fn number_of(count: usize) -> Result<u32, Halt> {
    u32::try_from(count).map_err(|_| Halt::NoCut)
}
