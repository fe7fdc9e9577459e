//! The commands over a register, each of which opens its files behind it.

ghost use Rattle.lpis_command_line.specs.declared.commands.Job.{Job};
ghost use Rattle.lpis_perform.specs.Performance.{PerformsJob};

use crate::folders::Folders;
use crate::machine::Machine;
use crate::opening::{open_if_named, open_submission, open_top};
use lpis_command_line::{CountryFolder, Job, NamedFile};
use lpis_register::Register;
use lpis_run::{Detail, Failure, Submission};
use lpis_run_publish::{run_exact, run_publish, run_trace};
use lpis_run_publish_country::{run_exact_country, run_publish_country};
use sqlite::Alter;
use std::alloc::Global;
use std::io::Write;

/// Gives the certificate of these files the blocks that the marks of their lineage ask for after a
/// register, and writes it to the file at this path. Where there are no such blocks, a file that
/// stands there stays as it is.
fn fill<M: Machine, S: Alter, W: Write>(
    alloc: Global,
    machine: &M,
    register: &Register<S>,
    submission: &Submission<NamedFile<'_>>,
    path: &str,
    out: &mut W,
) -> Result<u8, Failure>
    ensures { PerformsJob (M.standing machine.now) (M.creates machine.now) M.Created.contents
        S.Store (Job.Exact submission.now path.entry)
        register.now register.now (W.contents out.old) (W.contents out.new) result }
{
    let mut submission = open_submission(alloc, machine, submission)?;
    let mut filled = machine.create(path)?;
    run_exact(alloc, register, &mut submission, &mut filled, out)
}

/// Writes the blocks that the marks of a country's lineage ask for after a register to the file at
/// this path. Where there are no such blocks, a file that stands there stays as it is.
fn fill_country<M: Machine, S: Alter, W: Write>(
    alloc: Global,
    machine: &M,
    register: &Register<S>,
    country: &CountryFolder<'_>,
    path: &str,
    out: &mut W,
) -> Result<u8, Failure>
    ensures { PerformsJob (M.standing machine.now) (M.creates machine.now) M.Created.contents
        S.Store (Job.ExactCountry country.now path.entry)
        register.now register.now (W.contents out.old) (W.contents out.new) result }
{
    let mut top = open_top(alloc, machine, &country.top)?;
    let mut filled = machine.create(path)?;
    let folders = Folders {
        alloc,
        machine,
        path: country.path,
    };
    run_exact_country(
        alloc,
        register,
        &mut top,
        &folders,
        &folders,
        &mut filled,
        out,
    )
}

/// Publishes the release of these files in a register.
fn publish<M: Machine, S: Alter, W: Write>(
    alloc: Global,
    machine: &M,
    register: &mut Register<S>,
    year: u16,
    submission: &Submission<NamedFile<'_>>,
    out: &mut W,
) -> Result<u8, Failure>
    ensures { PerformsJob (M.standing machine.now) (M.creates machine.now) M.Created.contents
        S.Store (Job.Publish year submission.now)
        register.old register.new (W.contents out.old) (W.contents out.new) result }
{
    let mut submission = open_submission(alloc, machine, submission)?;
    run_publish(alloc, register, year, &mut submission, out)
}

/// Publishes a country in a register.
fn publish_country<M: Machine, S: Alter, W: Write>(
    alloc: Global,
    machine: &M,
    register: &mut Register<S>,
    year: u16,
    country: &CountryFolder<'_>,
    exact: &Option<NamedFile<'_>>,
    detail: Detail,
    out: &mut W,
) -> Result<u8, Failure>
    ensures { PerformsJob (M.standing machine.now) (M.creates machine.now) M.Created.contents
        S.Store
        (Job.PublishCountry year country.now exact.now detail)
        register.old register.new (W.contents out.old) (W.contents out.new) result }
{
    let mut top = open_top(alloc, machine, &country.top)?;
    let mut exact = open_if_named(alloc, machine, exact)?;
    let folders = Folders {
        alloc,
        machine,
        path: country.path,
    };
    run_publish_country(
        alloc, register, year, &mut top, &mut exact, &folders, &folders, detail, out,
    )
}

/// Does a job with a register.
pub fn work<M: Machine, S: Alter, W: Write>(
    alloc: Global,
    machine: &M,
    register: &mut Register<S>,
    job: &Job<'_>,
    out: &mut W,
) -> Result<u8, Failure>
    ensures { PerformsJob (M.standing machine.now) (M.creates machine.now) M.Created.contents
        S.Store job.now register.old register.new
        (W.contents out.old) (W.contents out.new) result }
{
    match job {
        Job::Exact {
            submission,
            out: path,
        } => fill(alloc, machine, register, submission, path, out),
        Job::ExactCountry { country, file } => {
            fill_country(alloc, machine, register, country, file, out)
        }
        Job::Publish { year, submission } => {
            publish(alloc, machine, register, *year, submission, out)
        }
        Job::PublishCountry {
            year,
            country,
            exact,
            detail,
        } => publish_country(
            alloc, machine, register, *year, country, exact, *detail, out,
        ),
        Job::Trace { ids } => run_trace(alloc, register, ids, out),
    }
}
