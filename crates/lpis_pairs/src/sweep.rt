//! A sweep over strips.

ghost use Rattle.std.specs.Prelude.{◌≡◌, ℕ, ◌≤◌, [], IfOk, IsTrue, List, OnOk, length, map};
ghost use Rattle.lpis_points.specs.Triangles.{most_triangles};
ghost use Rattle.lpis_pairs.specs.NearPairs.{HasNearPairs};
ghost use Rattle.lpis_pairs.specs.private.Strips.{extent_of};
ghost use Rattle.lpis_pairs.specs.private.Sweeping.{FindsNear, Takes};

use crate::events::{events_of, in_key_order};
use crate::extents::{Extent, extents_of, strip_height};
use crate::halving::sweep_levels;
use crate::joining::join;
use crate::order::in_order;
use crate::source::PairSource;
use crate::taking::{PairCount, PairList, Taker};
use crate::triangle_at::HasTriangle;
use lpis_points::Triangle;
use std::alloc::{AllocError, Global};

/// Sweeps over the boxes strip by strip: horizontal strips a little higher than the mean box, and
/// in each strip the boxes that meet it by their least x. A box is compared only with those that
/// begin in its x range, in a strip that both meet. With N triangles there are fewer than 3 N
/// events; the time is of sorting these and the pairs, and of the boxes compared. Where boxes that
/// are not near fill the strips these are given up, and each stretch of y is halved instead.
#[derive(Clone, Copy, Debug)]
pub struct Sweep;

/// How many steps an event may take, on the whole, before the strips are given up.
const STEPS: usize = 64;

/// Hands on the near pairs of triangles by strips of one height, in no order, and maybe more than
/// once. It gives up, and says so by false, where boxes that are not near fill the strips.
fn sweep_strips<T: HasTriangle, S: Taker>(
    alloc: Global,
    triangles: &[T],
    extents: &[Extent],
    taker: &mut S,
) -> Result<bool, AllocError>
    requires few { length extents.now ≤ most_triangles }
    requires extents { extents.now ≡ map extent_of (map T.triangle triangles.now) }
    ensures { IfOk result (λ done. IsTrue done → Takes (S.is_of taker.old) (S.is_of taker.new)
        (map T.triangle triangles.now) (FindsNear (map T.triangle triangles.now))) }
{
    let height = strip_height(extents);
    let found = events_of(alloc, extents, height)?;
    let events = in_key_order(found);
    let most = events.len().saturating_mul(STEPS);
    let is_done = join(triangles, extents, &events, most, taker)?;
    Ok(is_done)
}

/// Hands on the near pairs of triangles, in no order, and maybe more than once.
fn sweep_boxes<T: HasTriangle, S: Taker>(
    alloc: Global,
    triangles: &[T],
    taker: &mut S,
) -> Result<(), AllocError>
    requires { length triangles.now ≤ most_triangles }
    ensures { OnOk result (S.is_of taker.old [] → (ps : List (ℕ × ℕ)) × S.is_of taker.new ps
        × HasNearPairs (map T.triangle triangles.now) ps) }
{
    let extents = extents_of(alloc, triangles)?;
    let is_done = sweep_strips(alloc, triangles, &extents, taker)?;
    if is_done {
        return Ok(());
    }
    taker.clear();
    sweep_levels(alloc, triangles, &extents, taker)?;
    Ok(())
}

impl PairSource for Sweep {
    fn pairs(&self, alloc: Global, triangles: &[Triangle]) -> Result<Vec<(u32, u32)>, AllocError> {
        let mut list = PairList {
            pairs: Vec::new(alloc),
        };
        sweep_boxes(alloc, triangles, &mut list)?;
        Ok(in_order(list.pairs))
    }

    fn count(
        &self,
        alloc: Global,
        triangles: &[&Triangle],
        most: usize,
    ) -> Result<Option<usize>, AllocError> {
        let mut number = PairCount {
            count: Some(0),
            most,
        };
        match sweep_boxes(alloc, triangles, &mut number) {
            Ok(()) => Ok(number.count),
            Err(AllocError) if number.count.is_none() => Ok(None),
            Err(AllocError) => Err(AllocError),
        }
    }
}
