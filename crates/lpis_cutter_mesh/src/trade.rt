//! What the exchange of a diagonal does to the overlaps of boxes.

use crate::boxes::{box_round_both, meet};
use lpis_points::Box4;

/// The boxes of a quad's triangles beside one diagonal and beside the other. Each lacks one corner
/// of the quad, and each corner is lacked by one. So on each side of the quad's box no more than
/// one of the four ends before it: the one that lacks the only corner there.
#[derive(Clone, Copy)]
pub(crate) struct Trade {
    /// The box of the quad.
    room: Box4,
    /// The side of the box that ends before it, else that of the quad's box.
    inner: Box4,
    /// Which box that is.
    west: Lacking,
    south: Lacking,
    east: Lacking,
    north: Lacking,
    /// By how much the overlaps of the boxes with each other fall.
    own_gain: i32,
}

/// One of the four boxes by its bit: 1 and 2 are the old ones, 4 and 8 the new ones. 0 is none.
type Lacking = u8;

/// The one of four ends that is not the outer one, and whose it is.
fn inner_of(outer: i64, ends: [i64; 4]) -> (i64, Lacking) {
    let [a, b, c, d] = ends;
    if a != outer {
        (a, 1)
    } else if b != outer {
        (b, 2)
    } else if c != outer {
        (c, 4)
    } else if d != outer {
        (d, 8)
    } else {
        (outer, 0)
    }
}

/// How many of these boxes are new ones, less those that are old, by their bits.
const BALANCES: [i32; 16] = [0, -1, -1, -2, 1, 0, 0, -1, 1, 0, 0, -1, 2, 1, 1, 0];

fn balance(boxes: Lacking) -> i32 {
    BALANCES.get(boxes as usize).copied().unwrap_or(0)
}

/// 1 where two boxes meet.
fn overlap(first: &Box4, second: &Box4) -> i32 {
    if meet(first, second) { 1 } else { 0 }
}

impl Trade {
    /// The trade of two boxes for two others that together fill the same one.
    pub(crate) fn of(old: &[Box4; 2], new: &[Box4; 2]) -> Trade {
        let ([p, q], [r, s]) = (old, new);
        let room = box_round_both(p, q);
        let (x0, west) = inner_of(room.x0, [p.x0, q.x0, r.x0, s.x0]);
        let (y0, south) = inner_of(room.y0, [p.y0, q.y0, r.y0, s.y0]);
        let (x1, east) = inner_of(room.x1, [p.x1, q.x1, r.x1, s.x1]);
        let (y1, north) = inner_of(room.y1, [p.y1, q.y1, r.y1, s.y1]);
        Trade {
            room,
            inner: Box4 { x0, y0, x1, y1 },
            west,
            south,
            east,
            north,
            own_gain: overlap(p, q).wrapping_sub(overlap(r, s)),
        }
    }

    /// By how much the overlaps of the boxes with each other fall.
    pub(crate) fn own_gain(&self) -> i32 {
        self.own_gain
    }

    /// Whether a box meets that of the quad.
    pub(crate) fn is_near(&self, other: &Box4) -> bool {
        meet(&self.room, other)
    }

    /// By how much the overlaps with a box fall that meets that of the quad.
    pub(crate) fn gain_near(&self, other: &Box4) -> i32 {
        let mut missed: Lacking = 0;
        if other.x1 <= self.inner.x0 {
            missed |= self.west;
        }
        if other.y1 <= self.inner.y0 {
            missed |= self.south;
        }
        if self.inner.x1 <= other.x0 {
            missed |= self.east;
        }
        if self.inner.y1 <= other.y0 {
            missed |= self.north;
        }
        balance(missed)
    }

    /// By how much the overlaps with a box fall.
    pub(crate) fn gain(&self, other: &Box4) -> i32 {
        if self.is_near(other) {
            self.gain_near(other)
        } else {
            0
        }
    }
}
