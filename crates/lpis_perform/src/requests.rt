//! What a request asks for, on a machine.

ghost use Rattle.lpis_command_line.specs.declared.commands.Request.{Request};
ghost use Rattle.lpis_perform.specs.Performance.{Performs};

use crate::countries::{check_country, locate_in_country};
use crate::machine::{Machine, Registers};
use crate::releases::{check, cut, locate, measure};
use lpis_command_line::Request;
use lpis_run::Failure;
use std::alloc::Global;
use std::io::Write;

/// Performs a request. Its files are opened first, in their order.
///
/// Where one is not opened, the failure names it and nothing is written. Else the run that is asked
/// for ends as its own contract says, of the bytes at the paths of these files; what it prints goes
/// to `out`, and a certificate that it writes to the file that is created at its path. A job with a
/// register is handed on as it is, with the path of the register: `work` does it. Ok is the status.
pub fn perform<M: Machine + Registers, W: Write>(
    alloc: Global,
    machine: &M,
    request: &Request<'_>,
    out: &mut W,
) -> Result<u8, Failure>
    ensures { Performs (M.standing machine.now) (M.creates machine.now) M.Created.contents
        (M.works machine.now) request.now
        (W.contents out.old) (W.contents out.new) result }
{
    match request {
        Request::Area { table } => measure(alloc, machine, table, out),
        Request::Cut { tables, cert } => cut(alloc, machine, tables, cert, out),
        Request::Check { release } => check(alloc, machine, release, out),
        Request::Country { country, detail } => {
            check_country(alloc, machine, country, *detail, out)
        }
        Request::Locate { release, points } => locate(alloc, machine, release, points, out),
        Request::LocateCountry { country, points } => {
            locate_in_country(alloc, machine, country, points, out)
        }
        Request::InRegister { db, job } => machine.in_register(db, job),
    }
}
