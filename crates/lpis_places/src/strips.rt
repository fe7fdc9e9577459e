//! Strips of the map, from left to right.

ghost use Rattle.std.specs.Prelude.{◌≤◌, ◌<◌, ◌^◌, IfOk, length};
ghost use Rattle.lpis_tables.specs.Table.{most_rows};
ghost use Rattle.lpis_places.specs.private.Starts.{AreRising, IsStripIn};
ghost use Rattle.lpis_places.specs.private.Strips.{IsStripOf};

use crate::given::GivenPoint;
use crate::grid::Grid;
use crate::reach::Reach;
use crate::spot::Spot;
use std::alloc::{AllocError, Global};

/// The most strips.
const MOST_STRIPS: usize = 65_536;

/// How many strips begin at an x or left of it. It is found by halving.
fn strip_in(starts: &[i64], x: i128) -> usize
    requires { AreRising starts.now }
    ensures { IsStripIn starts.now x result }
{
    starts.partition_point(|start| (*start as i128) <= x)
}

/// The strip of an x.
fn strip_of(grid: &Grid, x: i128) -> u32
    ensures { IsStripOf grid.now x result }
{
    strip_in(&grid.starts, x) as u32
}

/// The strip of a point.
pub(crate) fn strip_at(grid: &Grid, spot: Spot) -> u32
    ensures { IsStripOf grid.now spot.x result }
{
    strip_of(grid, spot.x as i128)
}

/// The strip of the left side of a box.
pub(crate) fn first_met(grid: &Grid, reach: &Reach) -> u64
    ensures { IsStripOf grid.now reach.now.left result }
{
    u64::from(strip_of(grid, reach.left))
}

/// The strip of the right side of a box.
pub(crate) fn last_met(grid: &Grid, reach: &Reach) -> u64
    ensures is { IsStripOf grid.now reach.now.right result }
    ensures small { result < 2 ^ 32 }
{
    u64::from(strip_of(grid, reach.right))
}

/// The x of each point, in order.
fn sorted_x(alloc: Global, given: &[GivenPoint]) -> Result<Vec<i64>, AllocError> {
    let mut all = Vec::with_capacity(alloc, given.len())?;
    for point in given {
        all.push(point.spot().x)?;
    }
    all.sort_unstable();
    Ok(all)
}

/// Where so many strips begin, if each has so many of these numbers.
fn starts_of(alloc: Global, all: &[i64], count: usize, each: usize) -> Result<Vec<i64>, AllocError>
    ensures { IfOk result (λ v. length v.items ≤ count) }
{
    let mut starts = Vec::new(alloc);
    for k in 0..count {
        if let Some(x) = all.get(each.saturating_mul(k).saturating_add(each)) {
            starts.push(*x)?;
        }
    }
    Ok(starts)
}

/// The strips that begin there.
fn grid_from(mut starts: Vec<i64>) -> Grid
    requires { length starts.items < 2 ^ 32 }
{
    starts.sort_unstable_by_key(|start| *start);
    Grid { starts }
}

/// Strips of about as many points each. They are few and long: to halve in a strip more takes as
/// long as to look at a dozen points.
pub(crate) fn grid_of(alloc: Global, given: &[GivenPoint]) -> Result<Grid, AllocError>
    requires { length given.now ≤ most_rows }
{
    let count = (given.len().isqrt() / 4).min(MOST_STRIPS);
    let all = sorted_x(alloc, given)?;
    Ok(grid_from(starts_of(alloc, &all, count, given.len() / (count + 1) + 1)?))
}
