//! The commands over the files of one release.

ghost use Rattle.lpis_command_line.specs.declared.commands.Request.{Request};
ghost use Rattle.lpis_perform.specs.Performance.{Performs};

use crate::machine::{Machine, Registers};
use crate::opening::{open, open_folder, open_tables};
use lpis_command_line::NamedFile;
use lpis_run::{Failure, Folder, Tables};
use lpis_run_check::{run_area, run_check, run_cut};
use lpis_run_locate::{PointsIn, run_locate};
use std::alloc::Global;
use std::io::Write;

/// Prints the areas of a table.
pub(crate) fn measure<M: Machine + Registers, W: Write>(
    alloc: Global,
    machine: &M,
    table: &NamedFile<'_>,
    out: &mut W,
) -> Result<u8, Failure>
    ensures { Performs (M.standing machine.now) (M.creates machine.now) M.Created.contents
        (M.works machine.now) (Request.Area table.now)
        (W.contents out.old) (W.contents out.new) result }
{
    let table = open(alloc, machine, table)?;
    run_area(alloc, table, out)
}

/// Cuts the release of these tables, and writes its certificate to the file at this path. Where the
/// release is refused, a file that stands there stays as it is.
pub(crate) fn cut<M: Machine + Registers, W: Write>(
    alloc: Global,
    machine: &M,
    tables: &Tables<NamedFile<'_>>,
    cert: &str,
    out: &mut W,
) -> Result<u8, Failure>
    ensures { Performs (M.standing machine.now) (M.creates machine.now) M.Created.contents
        (M.works machine.now) (Request.Cut tables.now cert.entry)
        (W.contents out.old) (W.contents out.new) result }
{
    let mut tables = open_tables(alloc, machine, tables)?;
    let mut cert = machine.create(cert)?;
    run_cut(alloc, &mut tables, &mut cert, out)
}

/// Checks a release against its certificate, or against one that is made of it.
pub(crate) fn check<M: Machine + Registers, W: Write>(
    alloc: Global,
    machine: &M,
    release: &Folder<NamedFile<'_>>,
    out: &mut W,
) -> Result<u8, Failure>
    ensures { Performs (M.standing machine.now) (M.creates machine.now) M.Created.contents
        (M.works machine.now) (Request.Check release.now)
        (W.contents out.old) (W.contents out.new) result }
{
    let mut folder = open_folder(alloc, machine, release)?;
    run_check(alloc, &mut folder, out)
}

/// Finds the points of this table in a release, which is checked first.
pub(crate) fn locate<M: Machine + Registers, W: Write>(
    alloc: Global,
    machine: &M,
    release: &Folder<NamedFile<'_>>,
    points: &NamedFile<'_>,
    out: &mut W,
) -> Result<u8, Failure>
    ensures { Performs (M.standing machine.now) (M.creates machine.now) M.Created.contents
        (M.works machine.now) (Request.Locate release.now points.now)
        (W.contents out.old) (W.contents out.new) result }
{
    let files = open_folder(alloc, machine, release)?;
    let points = open(alloc, machine, points)?;
    let mut asked = PointsIn { files, points };
    run_locate(alloc, &mut asked, out)
}
