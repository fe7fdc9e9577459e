//! Edges that separate near triangles, and overlaps where none does.

ghost use Rattle.std.specs.Prelude.{IfOk};
ghost use Rattle.lpis_cutter.specs.private.Cutting.{ReportsIfAny};

use crate::fault::Refusal;
use crate::numbered::Numbered;
use crate::searching::{Budget, find_overlap};
use crate::separator::separator;
use lpis_cert::PairLine;
use lpis_points::{Triangle, apart, box_of};
use lpis_release::Release;
use std::alloc::{AllocError, Global};

/// How many triangles behind the first of a piece it is compared with before near pairs are listed.
const NEXT: usize = 8;

/// The overlap of two triangles that no edge separates, where a point is found.
fn overlap_of(
    alloc: Global,
    budget: &mut Budget,
    release: &Release,
    numbered: &Numbered<'_>,
    i: u32,
    j: u32,
) -> Result<Option<Refusal>, AllocError>
    ensures { IfOk result (ReportsIfAny release.now) }
{
    let Some((pieces, s, t)) = numbered.pair(i, j) else {
        return Ok(None);
    };
    if pieces.0 == pieces.1 {
        return Ok(None);
    }
    find_overlap(alloc, budget, release, pieces, s, t)
}

/// A triangle by the least corner of its box.
#[derive(Clone, Copy, Debug, PartialEq, Eq, PartialOrd, Ord)]
struct Placed {
    x: i64,
    y: i64,
    number: u32,
    /// Where its box ends in the east.
    end: i64,
}

/// The first triangle of each piece, from west to east.
fn firsts_in_order(alloc: Global, numbered: &Numbered<'_>) -> Result<Vec<Placed>, AllocError> {
    let mut placed = Vec::new(alloc);
    for number in &numbered.firsts {
        if let Some(triangle) = numbered.triangle(*number) {
            let sides = box_of(triangle);
            placed.push(Placed {
                x: sides.x0,
                y: sides.y0,
                number: *number,
                end: sides.x1,
            })?;
        }
    }
    placed.sort_unstable();
    Ok(placed)
}

/// Whether two triangles overlap.
fn do_overlap(numbered: &Numbered<'_>, i: u32, j: u32) -> bool {
    match (numbered.triangle(i), numbered.triangle(j)) {
        (Some(s), Some(t)) => !apart(s, t) && separator(s, t).is_none(),
        _ => false,
    }
}

/// The overlap of a triangle with one of the next, where a point is found.
fn overlap_with_next(
    alloc: Global,
    budget: &mut Budget,
    release: &Release,
    numbered: &Numbered<'_>,
    own: &Placed,
    others: &[Placed],
) -> Result<Option<Refusal>, AllocError>
    ensures { IfOk result (ReportsIfAny release.now) }
{
    for other in others.iter().take(NEXT) {
        if own.end <= other.x {
            return Ok(None);
        }
        let (i, j) = (own.number.min(other.number), own.number.max(other.number));
        if do_overlap(numbered, i, j) && budget.search() {
            let found = overlap_of(alloc, budget, release, numbered, i, j)?;
            if found.is_some() {
                return Ok(found);
            }
        }
    }
    Ok(None)
}

/// An overlap among the first triangles of pieces and the next few of these. A release with very
/// many overlaps shows one here, before all near pairs are listed.
pub(crate) fn early_overlap(
    alloc: Global,
    budget: &mut Budget,
    release: &Release,
    numbered: &Numbered<'_>,
) -> Result<Option<Refusal>, AllocError>
    ensures { IfOk result (ReportsIfAny release.now) }
{
    let placed = firsts_in_order(alloc, numbered)?;
    for (index, own) in placed.iter().enumerate() {
        let others = &placed[index + 1..];
        let found = overlap_with_next(alloc, budget, release, numbered, own, others)?;
        if found.is_some() {
            return Ok(found);
        }
    }
    Ok(None)
}

/// The separators of near pairs; an overlap that was found; and the first pair without a separator.
#[derive(Drop)]
pub(crate) struct Separated {
    pub(crate) lines: Vec<PairLine>,
    pub(crate) found: Option<Refusal>,
    pub(crate) unseparated: Option<(u32, u32)>,
}

/// The separator of a near pair.
fn line_of(numbered: &Numbered<'_>, i: u32, j: u32) -> Option<PairLine> {
    let k = separator(numbered.triangle(i)?, numbered.triangle(j)?)?;
    Some(PairLine { i, j, k })
}

/// The separators of near pairs. Where there is none a point is looked for; without a point the
/// first such pair is kept.
pub(crate) fn separate(
    alloc: Global,
    budget: &mut Budget,
    release: &Release,
    numbered: &Numbered<'_>,
    near: &[(u32, u32)],
) -> Result<Separated, AllocError>
    ensures { IfOk result (λ s. ReportsIfAny release.now s.found) }
{
    let mut lines = Vec::with_capacity(alloc, near.len())?;
    let mut unseparated = None;
    for (i, j) in near {
        if let Some(line) = line_of(numbered, *i, *j) {
            lines.push(line)?;
            continue;
        }
        unseparated = unseparated.or(Some((*i, *j)));
        if !budget.search() {
            break;
        }
        let found = overlap_of(alloc, budget, release, numbered, *i, *j)?;
        if found.is_some() {
            return Ok(Separated {
                lines,
                found,
                unseparated,
            });
        }
    }
    Ok(Separated {
        lines,
        found: None,
        unseparated,
    })
}
