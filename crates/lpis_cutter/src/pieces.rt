//! The cut of a piece.

ghost use Rattle.std.specs.Prelude.{◌≤◌, IfOk, MatchOption, IsTrue, ◌↔◌, length};
ghost use Rattle.lpis_rings.specs.Edges.{edges_of};
ghost use Rattle.lpis_rings.specs.Polygon.{points_of};
ghost use Rattle.lpis_cutter.specs.Fans.{IsFan};

use crate::fans::fan_of;
use lpis_cert::MOST_FLATS;
use lpis_cutter_mesh::{Cut, Mesher};
use lpis_rings::{Polygon, edges};
use std::alloc::{AllocError, Global};

/// What cuts pieces. One value serves many, so that they share its memory.
#[derive(Drop)]
pub(crate) struct Cutter {
    alloc: Global,
    pub(crate) mesher: Mesher,
}

impl Cutter {
    pub(crate) fn new(alloc: Global) -> Cutter {
        Cutter {
            alloc,
            mesher: Mesher::new(alloc, MOST_FLATS as usize),
        }
    }
}

/// Takes the edges of a polygon in place of those of the one before, and counts them.
fn load(cutter: &mut Cutter, polygon: &Polygon) -> Result<usize, AllocError>
    ensures { IfOk result (λ count. count ≤ length (edges_of polygon.now)) }
{
    cutter.mesher.clear();
    let mut count: usize = 0;
    for edge in edges(polygon) {
        let (a, b) = edge;
        cutter.mesher.add(a, b)?;
        count = count.saturating_add(1);
    }
    Ok(count)
}

/// Whether a cut has no more triangles, and no more flats, than this.
fn is_small(cut: &Cut, most: usize) -> bool
    ensures { IsTrue result
        ↔ ((length cut.now.triangles.items ≤ most) × (length cut.now.flats.items ≤ most)) }
{
    cut.triangles.len() <= most && cut.flats.len() <= most
}

/// The cut of a polygon; `None` where none is found. A fan has one of no more triangles and flats
/// than points: its own, where the sweep finds none so small.
#[tactic(auto, using(lpis_rings::proofs::Shared::edges_few))]
pub(crate) fn cut_of(cutter: &mut Cutter, polygon: &Polygon) -> Result<Option<Cut>, AllocError>
    ensures triangles { IfOk result (λ o. IsFan polygon.now
        → MatchOption o ⊥ (λ cut. length cut.triangles.items ≤ points_of polygon.now)) }
    ensures flats { IfOk result (λ o. IsFan polygon.now
        → MatchOption o ⊥ (λ cut. length cut.flats.items ≤ points_of polygon.now)) }
{
    let alloc = cutter.alloc;
    let count = load(cutter, polygon)?;
    let swept = cutter.mesher.cut()?;
    if let Some(cut) = &swept
        && is_small(cut, count)
    {
        return Ok(swept);
    }
    match fan_of(alloc, polygon)? {
        Some(triangles) => Ok(Some(Cut {
            triangles,
            flats: Vec::new(alloc),
        })),
        None => Ok(swept),
    }
}
