//! What a command line that asks for no command ends in.

ghost use Rattle.std.specs.Prelude.{◌≡◌};
ghost use Rattle.lpis_command_line.specs.Usage.{usage_told};

use clap::error::ErrorKind;
use lpis_run::{DONE, Failure, Name, UNREADABLE};

/// What a command line that asks for no command ends in, where its text was printed or could not
/// be.
///
/// Help that was asked for is printed on standard output. Everything else is a fault of the command
/// line, reported on standard error: where that is closed, the status alone says so.
pub fn usage_ends(kind: ErrorKind, is_printed: bool) -> Result<u8, Failure>
    ensures { result ≡ usage_told kind is_printed }
{
    match kind {
        ErrorKind::OutOfMemory => Err(Failure::Memory),
        ErrorKind::DisplayHelp | ErrorKind::DisplayVersion => {
            if is_printed {
                Ok(DONE)
            } else {
                Err(Failure::Write(Name::Out))
            }
        }
        _ => Ok(UNREADABLE),
    }
}
