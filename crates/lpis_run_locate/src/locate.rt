//! The run of `locate`, over any readers and writer.

ghost use Rattle.std.specs.Prelude.{◌≡◌, All, IfErr, IfOk, None, Ok, Option, is_some, length};
ghost use Rattle.lpis_checker.specs.SoundMap.{IsSoundMap};
ghost use Rattle.lpis_run.specs.CheckAnswer.{AreRead};
ghost use Rattle.lpis_run.specs.Failures.{AreUnread, AreUntouched};
ghost use Rattle.lpis_run.specs.Folders.{folder_by, folder_named};
ghost use Rattle.lpis_places.specs.Points.{points_of};
ghost use Rattle.lpis_places.specs.declared.place.Place.{Place};
ghost use Rattle.lpis_run_locate.specs.LocateAnswer.{ArePointsRead, IsLocateAnswer};
ghost use Rattle.lpis_run_locate.specs.LocateAnswer.{IsPointsAnswer, RunsLocate};
ghost use Rattle.lpis_run_locate.specs.LocateAnswer.{points_by, points_named};
ghost use Rattle.lpis_run_locate.specs.private.LocateRuns.{locate_inputs_of};

use crate::points_in::PointsIn;
use crate::printing::{refuse_points, report_points};
use lpis_places::{Place, Points, PointsFault, locate_in, no_places, read_points};
use lpis_release::Release;
use lpis_run::{Answer, Failure, Folder, Name, checked_release, read_folder, read_lent};
use std::alloc::{AllocError, Global};
use std::io::{Read, Write};

/// The line of each point in a release that is a sound map, and the yes. Nothing was found of them
/// yet.
fn found_lines(
    alloc: Global,
    release: &Release,
    points: &Points,
    found: &mut [Option<Place>],
) -> Result<Answer, AllocError>
    requires sound { IsSoundMap release.now }
    requires as_many { length found.old ≡ length points.now }
    requires none { All (λ (f : Option Place). f ≡ None) found.old }
    ensures { IfOk result (λ a. IsPointsAnswer release.now (Ok points.now)
        (a.text.items, a.status)) }
{
    locate_in(release, points, found)?;
    report_points(alloc, points.as_slice(), found)
}

/// The same, with room for what is found.
fn located(alloc: Global, release: &Release, points: &Points) -> Result<Answer, AllocError>
    requires { IsSoundMap release.now }
    ensures { IfOk result (λ a. IsPointsAnswer release.now (Ok points.now)
        (a.text.items, a.status)) }
{
    let mut found = no_places(alloc, points.as_slice().len())?;
    found_lines(alloc, release, points, &mut found)
}

/// The answer to a table of points in a release that is a sound map.
fn answer_in(alloc: Global, release: &Release, points: &[u8]) -> Result<Answer, AllocError>
    requires { IsSoundMap release.now }
    ensures { IfOk result (λ a. IsPointsAnswer release.now (points_of points.now)
        (a.text.items, a.status)) }
{
    match read_points(alloc, points) {
        Ok(points) => located(alloc, release, &points),
        Err(PointsFault::Memory) => Err(AllocError),
        Err(fault) => refuse_points(alloc, fault),
    }
}

/// The answer to a release and a table of points.
fn answer_to(
    alloc: Global,
    inputs: PointsIn<Folder<Vec<u8>>, Vec<u8>>,
) -> Result<Answer, AllocError>
    ensures { IfOk result (λ a. IsLocateAnswer (locate_inputs_of inputs)
        (a.text.items, a.status)) }
{
    let PointsIn { files, points } = inputs;
    match checked_release(alloc, files) {
        Ok(release) => answer_in(alloc, &release, points.as_slice()),
        Err(stop) => stop.into_answer(),
    }
}

/// All bytes of the inputs: those of the folder, and then the points. Where one is not read, those
/// behind it are as they were.
fn read_all_inputs<R: Read + Drop>(
    alloc: Global,
    asked: &mut PointsIn<Folder<R>, R>,
) -> Result<PointsIn<Folder<Vec<u8>>, Vec<u8>>, Failure>
    ensures read { IfOk result (λ i. ArePointsRead AreRead (locate_inputs_of i)
        (points_by (folder_by R.remaining) R.remaining asked.old)) }
    ensures failure { IfErr result (AreUnread (points_named folder_named
        (points_by (folder_by R.remaining) R.remaining asked.old))) }
    ensures untouched { IfErr result (AreUntouched (points_named folder_named asked.old)
        (points_named folder_named asked.new)) }
    ensures named { is_some asked.new.files.cert ≡ is_some asked.old.files.cert }
{
    let files = read_folder(alloc, &mut asked.files)?;
    let points = read_lent(alloc, &mut asked.points, Name::Points)?;
    Ok(PointsIn { files, points })
}

/// Checks the release of three tables against a certificate, and prints for each point of a table
/// the one parcel and the one piece that contain it, or that none does; or the line of the first
/// fault: those of `run_check` first, then that of the table of points.
///
/// All inputs are read to their ends, those of the folder in the order in which they stand there
/// and then the points, before anything is decided, and everything is decided before anything is
/// written. Ok is the status: `DONE`, `REFUSED` or `UNREADABLE`. A failed read names the input that
/// failed; the readers behind it are as they were.
pub fn run_locate<R: Read + Drop, W: Write>(
    alloc: Global,
    asked: &mut PointsIn<Folder<R>, R>,
    out: &mut W,
) -> Result<u8, Failure>
    ensures runs { RunsLocate (points_by (folder_by R.remaining) R.remaining asked.old)
        (W.contents out.old) (W.contents out.new) result }
    ensures untouched { IfErr result (AreUntouched (points_named folder_named asked.old)
        (points_named folder_named asked.new)) }
{
    let inputs = read_all_inputs(alloc, asked)?;
    let answer = answer_to(alloc, inputs)?;
    answer.write_to(out)
}
