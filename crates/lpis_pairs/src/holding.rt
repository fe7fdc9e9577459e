//! Boxes that hold a stretch, and boxes that begin in it.

ghost use Rattle.std.specs.Prelude.{◌≡◌, ◌+◌, ◌-◌, ◌≤◌, IfOk, OnOk, length, map, true};
ghost use Rattle.lpis_points.specs.Triangles.{most_triangles};
ghost use Rattle.lpis_pairs.specs.private.Holding.{HasHolders, HasPlaces, Pushes};
ghost use Rattle.lpis_pairs.specs.private.Holding.{half as half_spec, mark as mark_spec};
ghost use Rattle.lpis_pairs.specs.private.Holding.{holds_first as holds_first_spec};
ghost use Rattle.lpis_pairs.specs.private.Holding.{holds_last as holds_last_spec};

use crate::events::Event;
use crate::extents::Extent;
use std::alloc::{AllocError, Global};

/// The event of a box in a stretch.
fn mark(extent: &Extent, index: u32, stretch: u32) -> Event
    ensures { result ≡ mark_spec extent.now index stretch }
{
    Event {
        key: stretch as u64 * (1 << 32) + extent.left as u64,
        index,
        starts: true,
    }
}

/// Whether a box holds the stretch above the one that it begins in, and not the pair of stretches
/// that this one is of.
fn holds_first(extent: &Extent) -> bool
    ensures { result ≡ holds_first_spec extent.now }
{
    extent.bottom as u64 + 1 < extent.top as u64 && extent.bottom % 2 == 0
}

/// Whether a box holds the stretch below the one that it ends in, and not the pair of stretches
/// that this one is of.
fn holds_last(extent: &Extent) -> bool
    ensures { result ≡ holds_last_spec extent.now }
{
    extent.bottom as u64 + 1 < extent.top as u64 && extent.top % 2 == 1
}

/// The stretch above the one that a box begins in.
fn stretch_above(extent: &Extent) -> u32
    ensures { holds_first_spec extent.now ≡ true → result ≡ extent.now.bottom + 1 }
{
    extent.bottom.saturating_add(1)
}

/// The stretch below the one that a box ends in.
fn stretch_below(extent: &Extent) -> u32
    ensures { result ≡ extent.now.top - 1 }
{
    extent.top.saturating_sub(1)
}

/// Adds an event where it is wanted.
fn push_if(wanted: bool, event: Event, events: &mut Vec<Event>) -> Result<(), AllocError>
    ensures { OnOk result (Pushes wanted event events.old.items events.new.items) }
{
    if wanted {
        events.push(event)?;
    }
    Ok(())
}

/// How many events `holders_of` makes, so that there is room for them at once.
fn holder_count(boxes: &[Extent]) -> usize {
    let mut count: usize = 0;
    for extent in boxes {
        count = count
            .saturating_add(holds_first(extent) as usize)
            .saturating_add(holds_last(extent) as usize);
    }
    count
}

/// An event for each stretch that a box holds, where it does not hold the pair that this is of.
pub fn holders_of(alloc: Global, boxes: &[Extent]) -> Result<Vec<Event>, AllocError>
    requires few { length boxes.now ≤ most_triangles }
    ensures { IfOk result (λ events. HasHolders boxes.now events.items) }
{
    let mut events = Vec::with_capacity(alloc, holder_count(boxes))?;
    for (i, extent) in boxes.iter().enumerate() {
        let first = mark(extent, i as u32, stretch_above(extent));
        push_if(holds_first(extent), first, &mut events)?;
        let last = mark(extent, i as u32, stretch_below(extent));
        push_if(holds_last(extent), last, &mut events)?;
    }
    Ok(events)
}

/// An event for each box, in the stretch that it begins in.
pub fn places_of(alloc: Global, boxes: &[Extent]) -> Result<Vec<Event>, AllocError>
    requires few { length boxes.now ≤ most_triangles }
    ensures { IfOk result (λ events. HasPlaces boxes.now events.items) }
{
    let mut events = Vec::with_capacity(alloc, boxes.len())?;
    for (i, extent) in boxes.iter().enumerate() {
        events.push(mark(extent, i as u32, extent.bottom))?;
    }
    Ok(events)
}

/// A box in stretches that are twice as high.
fn half(extent: &Extent) -> Extent
    ensures { result ≡ half_spec extent.now }
{
    Extent {
        left: extent.left,
        bottom: extent.bottom / 2,
        right: extent.right,
        top: extent.top / 2,
    }
}

/// The boxes in stretches that are twice as high.
pub fn halved(alloc: Global, boxes: &[Extent]) -> Result<Vec<Extent>, AllocError>
    ensures { IfOk result (λ halves. halves.items ≡ map half_spec boxes.now) }
{
    let mut halves = Vec::with_capacity(alloc, boxes.len())?;
    for extent in boxes {
        halves.push(half(extent))?;
    }
    Ok(halves)
}
