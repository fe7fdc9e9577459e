//! The commands over the folder of a country. Of its regions at one time the files of one are open.

ghost use Rattle.lpis_command_line.specs.declared.commands.Request.{Request};
ghost use Rattle.lpis_perform.specs.Performance.{Performs};

use crate::folders::Folders;
use crate::machine::{Machine, Registers};
use crate::opening::{open, open_top};
use lpis_command_line::{CountryFolder, NamedFile};
use lpis_run::{Detail, Failure};
use lpis_run_country::run_country;
use lpis_run_locate::{PointsIn, run_locate_country};
use std::alloc::Global;
use std::io::Write;

/// Checks a country, region by region.
pub(crate) fn check_country<M: Machine + Registers, W: Write>(
    alloc: Global,
    machine: &M,
    country: &CountryFolder<'_>,
    detail: Detail,
    out: &mut W,
) -> Result<u8, Failure>
    ensures { Performs (M.standing machine.now) (M.creates machine.now) M.Created.contents
        (M.works machine.now) (Request.Country country.now detail)
        (W.contents out.old) (W.contents out.new) result }
{
    let mut top = open_top(alloc, machine, &country.top)?;
    let folders = Folders {
        alloc,
        machine,
        path: country.path,
    };
    run_country(alloc, &mut top, &folders, detail, out)
}

/// Finds the points of this table in a country, which is checked first.
pub(crate) fn locate_in_country<M: Machine + Registers, W: Write>(
    alloc: Global,
    machine: &M,
    country: &CountryFolder<'_>,
    points: &NamedFile<'_>,
    out: &mut W,
) -> Result<u8, Failure>
    ensures { Performs (M.standing machine.now) (M.creates machine.now) M.Created.contents
        (M.works machine.now) (Request.LocateCountry country.now points.now)
        (W.contents out.old) (W.contents out.new) result }
{
    let files = open_top(alloc, machine, &country.top)?;
    let points = open(alloc, machine, points)?;
    let mut asked = PointsIn { files, points };
    let folders = Folders {
        alloc,
        machine,
        path: country.path,
    };
    run_locate_country(alloc, &mut asked, &folders, out)
}
