//! Convex rooms of four corners.

use crate::boxes::{box_of_edge, box_round, boxes_beside, size_of};
use crate::trade::Trade;
use lpis_points::{Point, Triangle, orient};

/// Four points in their order round a convex room, counter-clockwise. The first is the least.
#[derive(Clone, Copy)]
pub(crate) struct ConvexQuad {
    corners: [Point; 4],
}

/// Whether a walk turns left at a point.
fn turns_left(a: Point, b: Point, c: Point) -> bool {
    orient(a, b, c) > 0
}

/// Whether a walk turns left at each of four points. Then it goes round once.
fn is_convex(a: Point, b: Point, c: Point, d: Point) -> bool {
    turns_left(a, b, c) && turns_left(b, c, d) && turns_left(c, d, a) && turns_left(d, a, b)
}

/// Four points that begin with the least.
fn from_least(a: Point, b: Point, c: Point, d: Point) -> [Point; 4] {
    if a < b {
        if a < c {
            if a < d { [a, b, c, d] } else { [d, a, b, c] }
        } else if c < d {
            [c, d, a, b]
        } else {
            [d, a, b, c]
        }
    } else if b < c {
        if b < d { [b, c, d, a] } else { [d, a, b, c] }
    } else if c < d {
        [c, d, a, b]
    } else {
        [d, a, b, c]
    }
}

impl ConvexQuad {
    /// The quad that four edges walk along, if they do.
    pub(crate) fn of(walk: &[(Point, Point)]) -> Option<ConvexQuad> {
        let [(a, a_to), (b, b_to), (c, c_to), (d, d_to)] = walk else {
            return None;
        };
        let is_closed = a_to == b && b_to == c && c_to == d && d_to == a;
        if is_closed && is_convex(*a, *b, *c, *d) {
            Some(ConvexQuad {
                corners: from_least(*a, *b, *c, *d),
            })
        } else {
            None
        }
    }

    /// The two triangles as the sweep cuts them off, from a and b, the ends of their diagonal, and
    /// c and d: (a, b, c) and (b, a, d).
    fn swept(&self) -> ([Triangle; 2], [Point; 4]) {
        let [r, s, t, u] = self.corners;
        if t < s {
            let cut = [Triangle { a: r, b: t, c: u }, Triangle { a: r, b: s, c: t }];
            (cut, [r, t, u, s])
        } else if t < u {
            let cut = [Triangle { a: s, b: t, c: r }, Triangle { a: t, b: u, c: r }];
            (cut, [t, r, s, u])
        } else if s < u {
            let cut = [Triangle { a: s, b: u, c: r }, Triangle { a: s, b: t, c: u }];
            (cut, [s, u, r, t])
        } else {
            let cut = [Triangle { a: r, b: s, c: u }, Triangle { a: s, b: t, c: u }];
            (cut, [s, u, r, t])
        }
    }

    /// The two triangles beside the diagonal with fewer overlaps of boxes, as the sweep and the
    /// exchange of diagonals make them.
    pub(crate) fn cut(&self) -> [Triangle; 2] {
        let (cut, [a, b, c, d]) = self.swept();
        let old = [box_round(a, b, c), box_round(b, a, d)];
        let new = boxes_beside(c, d, a, b);
        let trade = Trade::of(&old, &new);
        let mut gain = trade.own_gain();
        for (from, to) in [(a, d), (d, b), (b, c), (c, a)] {
            gain = gain.wrapping_add(trade.gain(&box_of_edge(from, to)));
        }
        if gain > 0 || gain == 0 && size_of(&new, 0) < size_of(&old, 0) {
            [Triangle { a, b: d, c }, Triangle { a: d, b, c }]
        } else {
            cut
        }
    }
}
