//! The statuses that the program ends with.

ghost use Rattle.std.specs.Prelude.{◌≡◌};
ghost use Rattle.lpis_run.specs.Status.{status_told};

use crate::failure::Failure;

/// A yes, or done.
pub const DONE: u8 = 0;

/// Refused by the gate.
pub const REFUSED: u8 = 1;

/// An input that cannot be read as what it should be, or a command line that is none.
pub const UNREADABLE: u8 = 2;

/// Memory, a file or the store failed.
pub const FAILED: u8 = 3;

/// The status that the program ends with, of what a run answered.
pub fn status_of(run: &Result<u8, Failure>) -> u8
    ensures { result ≡ status_told run.now }
{
    match run {
        Ok(status) => *status,
        Err(_) => FAILED,
    }
}
