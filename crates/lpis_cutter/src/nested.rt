//! The near pairs of a strip in which boxes of very different heights lie one above the other.
//!
//! Of two boxes that overlap one has the lower end of the other between its own ends. A room is a
//! range of heights with the boxes whose lower ends are in it, and those that may have such an end
//! between theirs. Each of these that is as high as the room has all of them between its ends, so
//! that one walk from west to east finds overlaps alone. The others go into the two halves of the
//! room.

use crate::crowding::are_too_many;
use crate::near::Extent;
use lpis_points::{Triangle, box_of};
use std::alloc::{AllocError, Global};

/// Rooms with so few boxes of a kind are not parted.
const FEW: usize = 8;

/// How often a room may be parted, at most: a range of heights is no longer than 2 to the 36.
const MOST_DEPTH: usize = 40;

/// A box, and the number of its triangle. Boxes are in order of their western ends.
#[derive(Clone, Copy, Debug, PartialEq, Eq, PartialOrd, Ord)]
struct Boxed {
    left: i64,
    number: u32,
    right: i64,
    bottom: i64,
    top: i64,
}

/// A range of heights; indices of boxes that may have a lower end in it between theirs, and of
/// those whose lower ends are in it.
#[derive(Drop)]
struct Room {
    low: i64,
    high: i64,
    around: Vec<u32>,
    begun: Vec<u32>,
}

/// The boxes of a strip.
#[derive(Drop)]
struct Nest {
    alloc: Global,
    boxes: Vec<Boxed>,
}

impl Nest {
    /// The boxes of the triangles of these events.
    fn of(alloc: Global, triangles: &[Triangle], row: &[(u32, u32)]) -> Result<Nest, AllocError> {
        let mut boxes = Vec::with_capacity(alloc, row.len())?;
        for (_, number) in row {
            if let Some(triangle) = triangles.get(*number as usize) {
                let sides = box_of(triangle);
                boxes.push(Boxed {
                    left: sides.x0,
                    number: *number,
                    right: sides.x1,
                    bottom: sides.y0,
                    top: sides.y1,
                })?;
            }
        }
        boxes.sort_unstable();
        Ok(Nest { alloc, boxes })
    }

    /// The box at an index.
    fn at(&self, index: u32) -> Option<&Boxed> {
        self.boxes.get(index as usize)
    }

    /// All boxes, and those of them that begin in the strip.
    fn whole(&self, extents: &[Extent], floor: u64) -> Result<Room, AllocError> {
        let mut around = Vec::with_capacity(self.alloc, self.boxes.len())?;
        let mut begun = Vec::new(self.alloc);
        let (mut low, mut high) = (i64::MAX, i64::MIN);
        for (index, own) in self.boxes.iter().enumerate() {
            let at = u32::try_from(index).unwrap_or(u32::MAX);
            around.push(at)?;
            if let Some(extent) = extents.get(own.number as usize)
                && u64::from(extent.bottom) >= floor
            {
                low = low.min(own.bottom);
                high = high.max(own.bottom.saturating_add(1));
                begun.push(at)?;
            }
        }
        Ok(Room {
            low,
            high,
            around,
            begun,
        })
    }

    /// Adds the pair of two boxes if the first has the lower end of the second between its ends. Of
    /// two with equal ends the one of the lower number has. None is added to too many.
    fn try_pair(
        &self,
        outer: &Boxed,
        inner: &Boxed,
        pairs: &mut Vec<(u32, u32)>,
    ) -> Result<(), AllocError> {
        let is_first = (outer.bottom, outer.number) < (inner.bottom, inner.number);
        if is_first && inner.bottom < outer.top && !are_too_many(pairs) {
            let (i, j) = (outer.number, inner.number);
            pairs.push((i.min(j), i.max(j)))?;
        }
        Ok(())
    }

    /// Adds the pairs of boxes of two lists, both from west to east.
    fn join(
        &self,
        around: &[u32],
        begun: &[u32],
        pairs: &mut Vec<(u32, u32)>,
    ) -> Result<(), AllocError> {
        let (mut outers, mut inners) = (around, begun);
        for _ in 0..around.len().saturating_add(begun.len()) {
            let (Some((i, later_outers)), Some((j, later_inners))) = (
                outers.split_first(),
                inners.split_first(),
            ) else {
                return Ok(());
            };
            if are_too_many(pairs) {
                return Ok(());
            }
            if *i <= *j {
                self.join_outer(*i, inners, pairs)?;
                outers = later_outers;
            } else {
                self.join_inner(*j, outers, pairs)?;
                inners = later_inners;
            }
        }
        Ok(())
    }

    /// Adds the pairs of a box and those that begin east of its western end.
    fn join_outer(
        &self,
        index: u32,
        inners: &[u32],
        pairs: &mut Vec<(u32, u32)>,
    ) -> Result<(), AllocError> {
        let Some(outer) = self.at(index) else {
            return Ok(());
        };
        for other in inners {
            match self.at(*other) {
                Some(inner) if inner.left < outer.right => self.try_pair(outer, inner, pairs)?,
                _ => break,
            }
        }
        Ok(())
    }

    /// The same of a box whose lower end is in the room.
    fn join_inner(
        &self,
        index: u32,
        outers: &[u32],
        pairs: &mut Vec<(u32, u32)>,
    ) -> Result<(), AllocError> {
        let Some(inner) = self.at(index) else {
            return Ok(());
        };
        for other in outers {
            match self.at(*other) {
                Some(outer) if outer.left < inner.right => self.try_pair(outer, inner, pairs)?,
                _ => break,
            }
        }
        Ok(())
    }

    /// The boxes of a list that are as high as a room, and the others.
    fn parted(&self, room: &Room) -> Result<(Vec<u32>, Vec<u32>), AllocError> {
        let mut high = Vec::new(self.alloc);
        let mut others = Vec::new(self.alloc);
        for index in &room.around {
            if let Some(own) = self.at(*index) {
                if own.bottom <= room.low && own.top >= room.high {
                    high.push(*index)?;
                } else {
                    others.push(*index)?;
                }
            }
        }
        Ok((high, others))
    }

    /// The half of a room between two heights.
    fn half(&self, low: i64, high: i64, around: &[u32], begun: &[u32]) -> Result<Room, AllocError> {
        let mut half = Room {
            low,
            high,
            around: Vec::new(self.alloc),
            begun: Vec::new(self.alloc),
        };
        for index in begun {
            if let Some(own) = self.at(*index)
                && low <= own.bottom
                && own.bottom < high
            {
                half.begun.push(*index)?;
            }
        }
        if half.begun.is_empty() {
            return Ok(half);
        }
        for index in around {
            if let Some(own) = self.at(*index)
                && own.bottom < high
                && low < own.top
            {
                half.around.push(*index)?;
            }
        }
        Ok(half)
    }

    /// Adds the pairs of a room. What is left are its halves, with the boxes lower than it.
    fn join_room(
        &self,
        room: Room,
        rooms: &mut Vec<Room>,
        pairs: &mut Vec<(u32, u32)>,
    ) -> Result<(), AllocError> {
        let (high, others) = self.parted(&room)?;
        self.join(&high, &room.begun, pairs)?;
        let middle = room
            .low
            .saturating_add(room.high.saturating_sub(room.low) >> 1);
        if others.len() <= FEW || room.begun.len() <= FEW || middle <= room.low {
            return self.join(&others, &room.begun, pairs);
        }
        let lower = self.half(room.low, middle, &others, &room.begun)?;
        let upper = self.half(middle, room.high, &others, &room.begun)?;
        if !lower.begun.is_empty() {
            rooms.push(lower)?;
        }
        if !upper.begun.is_empty() {
            rooms.push(upper)?;
        }
        Ok(())
    }
}

/// Adds the near pairs of a strip from its floor up: of its events, which name triangles, those of
/// which one begins in it.
pub(crate) fn join_nested(
    alloc: Global,
    triangles: &[Triangle],
    row: &[(u32, u32)],
    extents: &[Extent],
    floor: u64,
    pairs: &mut Vec<(u32, u32)>,
) -> Result<(), AllocError> {
    let nest = Nest::of(alloc, triangles, row)?;
    let whole = nest.whole(extents, floor)?;
    let most = whole
        .begun
        .len()
        .saturating_mul(MOST_DEPTH)
        .saturating_add(1);
    let mut rooms = Vec::new(alloc);
    rooms.push(whole)?;
    for _ in 0..most {
        let Some(room) = rooms.pop() else {
            return Ok(());
        };
        if are_too_many(pairs) {
            return Ok(());
        }
        nest.join_room(room, &mut rooms, pairs)?;
    }
    Ok(())
}
