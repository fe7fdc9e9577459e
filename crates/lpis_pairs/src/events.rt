//! The strips that a box meets.

ghost use Rattle.std.specs.Prelude.{◌≡◌, ◌≤◌, ◌<◌, ◌/◌, length, IfOk, IsPermutation};
ghost use Rattle.lpis_points.specs.Triangles.{most_triangles};
ghost use Rattle.lpis_pairs.specs.private.Sweeping.{AreInOrder, HasEvents, event};

use crate::extents::Extent;
use std::alloc::{AllocError, Global};

/// A box in a strip. Sorted, events run strip by strip, and in a strip by where boxes begin.
#[derive(Clone, Copy, Debug, PartialEq, Eq, PartialOrd, Ord)]
pub struct Event {
    /// The strip, and behind it where the box begins, as one number: so two are compared at once.
    pub key: u64,
    /// The number of the triangle.
    pub index: u32,
    /// Whether this is the lowest strip that the box meets.
    pub starts: bool,
}

/// The box of a triangle in a strip.
fn event_in(extent: &Extent, height: u32, strip: u64, index: u32) -> Event
    requires strips { 0 < height }
    requires within { strip ≤ extent.now.top / height }
    ensures { result ≡ event extent.now height index strip }
{
    Event {
        key: strip * (1 << 32) + extent.left as u64,
        index,
        starts: strip == (extent.bottom / height) as u64,
    }
}

/// How many events there are, so that there is room for them at once.
fn event_count(extents: &[Extent], height: u32) -> usize
    requires { 0 < height }
{
    let mut count: usize = 0;
    for extent in extents {
        let strips = (extent.top / height).saturating_sub(extent.bottom / height);
        count = count.saturating_add(strips as usize).saturating_add(1);
    }
    count
}

/// An event for each box in each strip that it meets.
pub fn events_of(alloc: Global, extents: &[Extent], height: u32) -> Result<Vec<Event>, AllocError>
    requires few { length extents.now ≤ most_triangles }
    requires strips { 0 < height }
    ensures { IfOk result (λ events. HasEvents extents.now height events.items) }
{
    let mut events = Vec::with_capacity(alloc, event_count(extents, height))?;
    for (i, extent) in extents.iter().enumerate() {
        let end = (extent.top / height) as u64 + 1;
        for strip in (extent.bottom / height) as u64..end {
            events.push(event_in(extent, height, strip, i as u32))?;
        }
    }
    Ok(events)
}

/// The same events, by their keys.
pub fn in_key_order(events: Vec<Event>) -> Vec<Event>
    ensures order { AreInOrder result.items }
    ensures same { IsPermutation events.items result.items }
{
    let mut events = events;
    events.sort_unstable_by_key(|event| event.key);
    events
}
