//! Searches for points that show a fault.

ghost use Rattle.std.specs.Prelude.{IfOk};
ghost use Rattle.lpis_cutter.specs.private.Cutting.{ReportsIfAny};

use crate::fault::Refusal;
use crate::telling::{disagreement, parcels_overlap, pieces_overlap};
use lpis_cutter_mesh::Mesher;
use lpis_cutter_residue::{Net, points_in_both};
use lpis_points::{RatPoint, Triangle};
use lpis_release::Release;
use lpis_rings::Polygon;
use lpis_tables::Id;
use std::alloc::{AllocError, Global};

/// How many edges the searches of one cut may look at, so that no release makes them slower than a
/// cut of a large one.
const MOST_EDGES: usize = 400_000_000;

/// How many pairs of triangles, and how many parcels, points are looked for at.
pub(crate) const MOST_SEARCHES: usize = 64;

/// What is left to search with.
#[derive(Clone, Copy, Debug)]
pub(crate) struct Budget {
    /// Edges that may yet be looked at.
    edges: usize,
    /// Pairs and parcels at which points may yet be looked for.
    searches: usize,
}

impl Budget {
    pub(crate) fn new() -> Budget {
        Budget {
            edges: MOST_EDGES,
            searches: MOST_SEARCHES,
        }
    }

    /// The same edges, and as many searches as at first.
    pub(crate) fn renewed(self) -> Budget {
        Budget {
            edges: self.edges,
            searches: MOST_SEARCHES,
        }
    }

    /// Takes one search, where there is one.
    pub(crate) fn search(&mut self) -> bool {
        let is_left = self.searches > 0;
        self.searches = self.searches.saturating_sub(1);
        is_left
    }

    /// Takes so many edges, where there is one.
    fn look(&mut self, edges: usize) -> bool {
        let is_left = self.edges > 0;
        self.edges = self.edges.saturating_sub(edges);
        is_left
    }
}

/// The points of a polygon's rings.
fn size_of(polygon: &Polygon) -> usize {
    let mut size: usize = 0;
    for member in polygon.members() {
        size = size.saturating_add(member.shell.points().len());
        for hole in member.holes.as_slice() {
            size = size.saturating_add(hole.points().len());
        }
    }
    size
}

/// The first of these points at which the parcel at an index and its pieces disagree; each costs so
/// many edges.
fn first_disagreement(
    budget: &mut Budget,
    release: &Release,
    index: usize,
    size: usize,
    points: &[RatPoint],
) -> Result<Option<Refusal>, AllocError>
    ensures { IfOk result (ReportsIfAny release.now) }
{
    for p in points {
        if !budget.look(size) {
            return Ok(None);
        }
        let found = disagreement(release, index, p)?;
        if found.is_some() {
            return Ok(found);
        }
    }
    Ok(None)
}

/// A point at which the parcel at an index and its pieces disagree, looked for where residual edges
/// leave rooms between them.
pub(crate) fn find_disagreement(
    mesher: &mut Mesher,
    budget: &mut Budget,
    release: &Release,
    index: usize,
    net: &Net,
) -> Result<Option<Refusal>, AllocError>
    ensures { IfOk result (ReportsIfAny release.now) }
{
    let size = net.size();
    let points = net.middles(mesher)?;
    let found = first_disagreement(budget, release, index, size, &points)?;
    if found.is_some() {
        return Ok(found);
    }
    let mut corners = net.corners()?;
    for _ in 0..corners.length() {
        let Some(points) = corners.next_points()? else {
            return Ok(None);
        };
        let found = first_disagreement(budget, release, index, size, &points)?;
        if found.is_some() {
            return Ok(found);
        }
    }
    Ok(None)
}

/// The index of the parcel of an identifier.
fn index_of(release: &Release, id: &Id) -> usize {
    let parcels = release.parcels();
    for index in 0..parcels.len() {
        if let Some(parcel) = parcels.get(index)
            && parcel.id == *id
        {
            return index;
        }
    }
    parcels.len()
}

/// That a point shows an overlap of two pieces or of their parcels, where it does; the parcels come
/// first.
fn overlap_at(
    release: &Release,
    pieces: (usize, usize),
    parcels: (usize, usize),
    p: &RatPoint,
) -> Result<Option<Refusal>, AllocError>
    ensures { IfOk result (ReportsIfAny release.now) }
{
    let found = parcels_overlap(release, parcels.0, parcels.1, p)?;
    if found.is_some() {
        return Ok(found);
    }
    pieces_overlap(release, pieces.0, pieces.1, p)
}

/// A point that shows an overlap of the pieces at two indices or of their parcels, looked for where
/// two of their triangles overlap.
pub(crate) fn find_overlap(
    alloc: Global,
    budget: &mut Budget,
    release: &Release,
    pieces: (usize, usize),
    s: &Triangle,
    t: &Triangle,
) -> Result<Option<Refusal>, AllocError>
    ensures { IfOk result (ReportsIfAny release.now) }
{
    let (Some(x), Some(y)) = (
        release.pieces().get(pieces.0),
        release.pieces().get(pieces.1),
    ) else {
        return Ok(None);
    };
    let parcels = (index_of(release, &x.parcel), index_of(release, &y.parcel));
    let size = size_of(&x.polygon)
        .saturating_add(size_of(&y.polygon))
        .saturating_mul(2);
    let points = points_in_both(alloc, s, t)?;
    for p in &points {
        if !budget.look(size) {
            return Ok(None);
        }
        let found = overlap_at(release, pieces, parcels, p)?;
        if found.is_some() {
            return Ok(found);
        }
    }
    Ok(None)
}
