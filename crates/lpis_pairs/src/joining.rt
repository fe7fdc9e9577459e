//! The near pairs of sorted events.

ghost use Rattle.std.specs.Prelude.{◌≡◌, ℕ, ◌<◌, ◌≤◌, ◌||◌, IfOk, IsTrue, OnOk, Some};
ghost use Rattle.std.specs.Prelude.{length, map, slice_get};
ghost use Rattle.lpis_pairs.specs.private.Strips.{extent_of};
ghost use Rattle.lpis_pairs.specs.private.Sweeping.{AreBehind, AreSwept, Joins, JoinsAll, Takes};
ghost use Rattle.lpis_pairs.specs.private.Sweeping.{IsTaken};

use crate::events::Event;
use crate::extents::{Extent, width};
use crate::near::is_near_by_extents;
use crate::taking::Taker;
use crate::triangle_at::HasTriangle;
use std::alloc::AllocError;

/// Hands on the pair of two triangles, the lesser number first, where they are not apart.
fn take_near<T: HasTriangle, S: Taker>(
    triangles: &[T],
    extents: &[Extent],
    i: u32,
    j: u32,
    taker: &mut S,
) -> Result<(), AllocError>
    requires extents { extents.now ≡ map extent_of (map T.triangle triangles.now) }
    requires first { i < length triangles.now }
    requires second { j < length triangles.now }
    ensures { OnOk result (Takes (S.is_of taker.old) (S.is_of taker.new)
        (map T.triangle triangles.now) (λ qs. IsTaken (map T.triangle triangles.now) qs i j)) }
{
    if is_near_by_extents(triangles, extents, i, j) {
        taker.take(i, j)?;
    } else if is_near_by_extents(triangles, extents, j, i) {
        taker.take(j, i)?;
    }
    Ok(())
}

/// Whether the box of one of two events starts in their strip: of the strips that both meet only
/// the lowest.
fn one_starts(first: &Event, second: &Event) -> bool
    ensures { result ≡ (first.now.starts || second.now.starts) }
{
    first.starts || second.starts
}

/// Hands on the near pairs of an event and those of a list from a place on, up to the first that
/// begins where its box has ended. It tells how many it went past.
pub fn join_ahead<T: HasTriangle, S: Taker>(
    triangles: &[T],
    extents: &[Extent],
    first: &Event,
    events: &[Event],
    from: usize,
    taker: &mut S,
) -> Result<usize, AllocError>
    requires extents { extents.now ≡ map extent_of (map T.triangle triangles.now) }
    requires within { first.now.index < length triangles.now }
    requires swept { AreSwept (map T.triangle triangles.now) events.now }
    requires behind { AreBehind first.now.key events.now from }
    ensures { OnOk result (Takes (S.is_of taker.old) (S.is_of taker.new)
        (map T.triangle triangles.now) (λ qs. (m : ℕ) → from ≤ m
        → Joins (map T.triangle triangles.now) first.now events.now qs m)) }
{
    let wide = width(&extents[first.index as usize]);
    for m in from..events.len() {
        let second = &events[m];
        if second.key - first.key >= wide {
            return Ok(m.saturating_sub(from));
        }
        if one_starts(first, second) {
            take_near(triangles, extents, first.index, second.index, taker)?;
        }
    }
    Ok(events.len().saturating_sub(from))
}

/// Whether so many steps are more than were given, with sixteen for each pair that was taken.
fn is_over<S: Taker>(walked: usize, most: usize, taker: &S) -> bool
    ensures { IsTrue result → most < walked }
{
    walked > most.saturating_add(taker.taken().saturating_mul(16))
}

/// Hands on the near pairs of events that stand in order, in no order, and maybe more than once.
/// It gives up, and says so by false, after so many steps, with sixteen for each pair.
pub fn join<T: HasTriangle, S: Taker>(
    triangles: &[T],
    extents: &[Extent],
    events: &[Event],
    most: usize,
    taker: &mut S,
) -> Result<bool, AllocError>
    requires extents { extents.now ≡ map extent_of (map T.triangle triangles.now) }
    requires swept { AreSwept (map T.triangle triangles.now) events.now }
    ensures joined { IfOk result (λ done. IsTrue done → Takes (S.is_of taker.old)
        (S.is_of taker.new) (map T.triangle triangles.now)
        (JoinsAll (map T.triangle triangles.now) events.now)) }
    ensures done { IfOk result (λ done. 18446744073709551615 ≤ most → IsTrue done) }
{
    let mut walked: usize = 0;
    for at in 0..events.len() {
        let steps = join_ahead(triangles, extents, &events[at], events, at + 1, taker)?;
        walked = walked.saturating_add(steps);
        if is_over(walked, most, taker) {
            return Ok(false);
        }
    }
    Ok(true)
}
