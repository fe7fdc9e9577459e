//! The points that are looked for, and what was found of them in the regions so far.

ghost use Rattle.std.specs.Prelude.{◌≡◌, ◌++◌, ◌∷◌, [], IfErr, IfOk, List, OnOk, length, ℕ};
ghost use Rattle.lpis_checker.specs.SoundMap.{IsSoundMap};
ghost use Rattle.lpis_country.specs.Union.{IsUnion};
ghost use Rattle.lpis_run_locate.specs.LocateAnswer.{IsPointsAnswer};
ghost use Rattle.lpis_places.specs.Points.{points_of};
ghost use Rattle.lpis_release.specs.Release.{Contents};
ghost use Rattle.lpis_run_locate.specs.declared.search.Sought.{Sought};
ghost use Rattle.lpis_run_locate.specs.private.Found.{IsSearched};

use crate::{refuse_points, report_points};
use lpis_places::{Place, Points, PointsFault, locate_in, no_places, read_points};
use lpis_release::Release;
use lpis_run::Answer;
use std::alloc::{AllocError, Global};

/// The points of a table, and what was found of them so far.
#[derive(Drop)]
pub(crate) struct Search {
    pub(crate) points: Points,
    pub(crate) found: Vec<Option<Place>>,
}

/// What is looked for.
#[derive(Drop)]
pub(crate) enum Sought {
    /// The points of a table.
    Points(Search),
    /// Nothing: the table has this first fault.
    Nothing(PointsFault),
}

/// The points, of which nothing was found yet.
fn search_of(alloc: Global, points: Points) -> Result<Search, AllocError>
    ensures { (table : List ℕ) → points_of table ≡ Ok points
        → IfOk result (λ search. IsSearched table [] (Sought.Points search)) }
{
    let found = no_places(alloc, points.as_slice().len())?;
    Ok(Search { points, found })
}

/// The points of a table, of which nothing was found yet, or the table's first fault.
pub(crate) fn begin_search(alloc: Global, table: Vec<u8>) -> Result<Sought, AllocError>
    ensures { IfOk result (IsSearched table.items []) }
{
    match read_points(alloc, table.as_slice()) {
        Ok(points) => Ok(Sought::Points(search_of(alloc, points)?)),
        Err(PointsFault::Memory) => Err(AllocError),
        Err(fault) => Ok(Sought::Nothing(fault)),
    }
}

/// Looks for the points in one region more, which is a sound map.
pub(crate) fn search_in(release: &Release, sought: &mut Sought) -> Result<(), AllocError>
    requires sound { IsSoundMap release.now }
    requires searched { (table : List ℕ) × (before : List Contents)
        × IsSearched table before sought.old }
    ensures { (table : List ℕ) (before : List Contents) → IsSearched table before sought.old
        → OnOk result (IsSearched table (before ++ release.now ∷ []) sought.new) }
{
    match sought {
        Sought::Points(search) => locate_in(release, &search.points, &mut search.found),
        Sought::Nothing(_) => Ok(()),
    }
}

/// What is said of the points in the union of all regions: where each is, or that their table is
/// refused.
pub(crate) fn report_search(alloc: Global, sought: &Sought) -> Result<Answer, AllocError>
    requires { (table : List ℕ) × (all : List Contents) × IsSearched table all sought.now }
    ensures { (table : List ℕ) (all : List Contents) (union : Contents)
        → IsSearched table all sought.now → IsUnion all union → IfOk result
        (λ a. IsPointsAnswer union (points_of table) (a.text.items, a.status)) }
{
    match sought {
        Sought::Points(search) => report_points(alloc, search.points.as_slice(), &search.found),
        Sought::Nothing(fault) => refuse_points(alloc, *fault),
    }
}
