//! A sweep that takes no longer where boxes lie badly.
//!
//! The range in y is a stretch that is halved, and its halves again, down to a centimetre. Of two
//! boxes that overlap in y, one begins in the other, maybe both at one height. A box that reaches
//! from above its own beginning to its top is cut into the fewest stretches, two of each height at
//! most, and whatever box begins in one of these overlaps it in y. So in each stretch those that
//! hold it are compared with those that begin in it, and with nothing else.

ghost use Rattle.std.specs.Prelude.{◌≡◌, ◌+◌, ◌≤◌, OnOk, length, map};
ghost use Rattle.lpis_points.specs.Triangles.{most_triangles};
ghost use Rattle.lpis_pairs.specs.private.Strips.{extent_of};
ghost use Rattle.lpis_pairs.specs.private.Sweeping.{AreInOrder, AreSwept, JoinsAcross};
ghost use Rattle.lpis_pairs.specs.private.Sweeping.{JoinsBoth, Takes};
ghost use Rattle.lpis_pairs.specs.private.Sweeping.{FindsNear, StartsAt};
ghost use Rattle.lpis_pairs.specs.private.Holding.{AreBoxes, FindsAt, FindsHeld, FindsLevel};

use crate::events::{Event, in_key_order};
use crate::extents::{Extent, extents_of};
use crate::holding::{halved, holders_of, places_of};
use crate::joining::{join, join_ahead};
use crate::taking::Taker;
use crate::triangle_at::HasTriangle;
use std::alloc::{AllocError, Global};

/// How many of these events stand before a key. It is found by halving.
fn first_from(events: &[Event], key: u64) -> usize
    requires { AreInOrder events.now }
    ensures { StartsAt events.now key result }
{
    events.partition_point(|event| event.key < key)
}

/// The key that is so far behind an event, or the greatest.
fn key_behind(event: &Event, gap: u64) -> u64
    ensures behind { event.now.key ≤ result }
    ensures near { result ≤ event.now.key + gap }
{
    event.key.saturating_add(gap)
}

/// Hands on the near pairs of each event of one list and those of the other that begin so far
/// behind it or farther, and before its box ends.
fn join_across<T: HasTriangle, S: Taker>(
    triangles: &[T],
    extents: &[Extent],
    events: &[Event],
    others: &[Event],
    gap: u64,
    taker: &mut S,
) -> Result<(), AllocError>
    requires extents { extents.now ≡ map extent_of (map T.triangle triangles.now) }
    requires swept { AreSwept (map T.triangle triangles.now) events.now }
    requires others { AreSwept (map T.triangle triangles.now) others.now }
    ensures { OnOk result (Takes (S.is_of taker.old) (S.is_of taker.new)
        (map T.triangle triangles.now)
        (JoinsAcross (map T.triangle triangles.now) events.now others.now gap)) }
{
    for at in 0..events.len() {
        let event = &events[at];
        let from = first_from(others, key_behind(event, gap));
        join_ahead(triangles, extents, event, others, from, taker)?;
    }
    Ok(())
}

/// Hands on the near pairs of boxes that begin at one height, each once.
fn join_starts<T: HasTriangle, S: Taker>(
    alloc: Global,
    triangles: &[T],
    extents: &[Extent],
    taker: &mut S,
) -> Result<(), AllocError>
    requires few { length extents.now ≤ most_triangles }
    requires extents { extents.now ≡ map extent_of (map T.triangle triangles.now) }
    ensures { OnOk result (Takes (S.is_of taker.old) (S.is_of taker.new)
        (map T.triangle triangles.now) (FindsAt (map T.triangle triangles.now))) }
{
    let found = places_of(alloc, extents)?;
    let places = in_key_order(found);
    join(triangles, extents, &places, usize::MAX, taker)?;
    Ok(())
}

/// Hands on the near pairs of the events of two lists.
fn join_both<T: HasTriangle, S: Taker>(
    triangles: &[T],
    extents: &[Extent],
    holders: &[Event],
    places: &[Event],
    taker: &mut S,
) -> Result<(), AllocError>
    requires extents { extents.now ≡ map extent_of (map T.triangle triangles.now) }
    requires holders { AreSwept (map T.triangle triangles.now) holders.now }
    requires places { AreSwept (map T.triangle triangles.now) places.now }
    ensures { OnOk result (Takes (S.is_of taker.old) (S.is_of taker.new)
        (map T.triangle triangles.now)
        (JoinsBoth (map T.triangle triangles.now) holders.now places.now)) }
{
    join_across(triangles, extents, holders, places, 0, taker)?;
    join_across(triangles, extents, places, holders, 1, taker)?;
    Ok(())
}

/// Hands on the near pairs of a box that holds a stretch and one that begins in it, where it does
/// not hold the pair that the stretch is of.
fn join_level<T: HasTriangle, S: Taker>(
    alloc: Global,
    triangles: &[T],
    extents: &[Extent],
    boxes: &[Extent],
    taker: &mut S,
) -> Result<(), AllocError>
    requires few { length boxes.now ≤ most_triangles }
    requires extents { extents.now ≡ map extent_of (map T.triangle triangles.now) }
    requires boxes { AreBoxes extents.now boxes.now }
    ensures { OnOk result (Takes (S.is_of taker.old) (S.is_of taker.new)
        (map T.triangle triangles.now) (FindsLevel (map T.triangle triangles.now) boxes.now)) }
{
    let holding = holders_of(alloc, boxes)?;
    let holders = in_key_order(holding);
    let beginning = places_of(alloc, boxes)?;
    let places = in_key_order(beginning);
    join_both(triangles, extents, &holders, &places, taker)?;
    Ok(())
}

/// Hands on the near pairs of a box and one that begins in it, above its own beginning.
fn join_levels<T: HasTriangle, S: Taker>(
    alloc: Global,
    triangles: &[T],
    extents: &[Extent],
    taker: &mut S,
) -> Result<(), AllocError>
    requires few { length extents.now ≤ most_triangles }
    requires extents { extents.now ≡ map extent_of (map T.triangle triangles.now) }
    ensures { OnOk result (Takes (S.is_of taker.old) (S.is_of taker.new)
        (map T.triangle triangles.now) (FindsHeld (map T.triangle triangles.now) extents.now)) }
{
    let mut boxes = extents_of(alloc, triangles)?;
    let mut highest = u32::MAX;
    while highest > 0 {
        join_level(alloc, triangles, extents, &boxes, taker)?;
        let halves = halved(alloc, &boxes)?;
        boxes = halves;
        highest /= 2;
    }
    Ok(())
}

/// Hands on the near pairs of triangles, in no order. The time is of sorting the events of 32
/// heights, and of the pairs of boxes that overlap.
pub fn sweep_levels<T: HasTriangle, S: Taker>(
    alloc: Global,
    triangles: &[T],
    extents: &[Extent],
    taker: &mut S,
) -> Result<(), AllocError>
    requires few { length extents.now ≤ most_triangles }
    requires extents { extents.now ≡ map extent_of (map T.triangle triangles.now) }
    ensures { OnOk result (Takes (S.is_of taker.old) (S.is_of taker.new)
        (map T.triangle triangles.now) (FindsNear (map T.triangle triangles.now))) }
{
    join_starts(alloc, triangles, extents, taker)?;
    join_levels(alloc, triangles, extents, taker)?;
    Ok(())
}
