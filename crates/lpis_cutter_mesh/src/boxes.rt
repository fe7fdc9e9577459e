//! Boxes, compared by size and by overlap.

use lpis_points::{Box4, Point, Triangle, box_of};

/// Width times height.
fn area(sides: &Box4) -> i128 {
    let width = sides.x1.wrapping_sub(sides.x0);
    let height = sides.y1.wrapping_sub(sides.y0);
    (width as i128).wrapping_mul(height as i128)
}

/// Width and height together.
pub(crate) fn girth(sides: &Box4) -> i128 {
    let width = sides.x1.wrapping_sub(sides.x0);
    let height = sides.y1.wrapping_sub(sides.y0);
    (width as i128).wrapping_add(height as i128)
}

/// Whether two boxes share more than their borders.
pub(crate) fn meet(first: &Box4, second: &Box4) -> bool {
    first.x0 < second.x1 && second.x0 < first.x1 && first.y0 < second.y1 && second.y0 < first.y1
}

/// The square of the distance of two points.
pub(crate) fn length2(a: Point, b: Point) -> i128 {
    let x = a.x.wrapping_sub(b.x) as i128;
    let y = a.y.wrapping_sub(b.y) as i128;
    x.wrapping_mul(x).wrapping_add(y.wrapping_mul(y))
}

/// The box of three points.
pub(crate) fn box_round(a: Point, b: Point, c: Point) -> Box4 {
    box_of(&Triangle { a, b, c })
}

/// The box of two points.
pub(crate) fn box_of_edge(a: Point, b: Point) -> Box4 {
    Box4 {
        x0: a.x.min(b.x),
        y0: a.y.min(b.y),
        x1: a.x.max(b.x),
        y1: a.y.max(b.y),
    }
}

/// The least box around a box and a point.
fn box_with(sides: &Box4, p: Point) -> Box4 {
    Box4 {
        x0: sides.x0.min(p.x),
        y0: sides.y0.min(p.y),
        x1: sides.x1.max(p.x),
        y1: sides.y1.max(p.y),
    }
}

/// The boxes of the triangles that an edge makes with each of two points.
pub(crate) fn boxes_beside(a: Point, b: Point, first: Point, second: Point) -> [Box4; 2] {
    let edge = box_of_edge(a, b);
    [box_with(&edge, first), box_with(&edge, second)]
}

/// The least box around two.
pub(crate) fn box_round_both(first: &Box4, second: &Box4) -> Box4 {
    Box4 {
        x0: first.x0.min(second.x0),
        y0: first.y0.min(second.y0),
        x1: first.x1.max(second.x1),
        y1: first.y1.max(second.y1),
    }
}

/// The sum of two boxes' sizes, a size being w*h + s*(w + h) for this s.
pub(crate) fn size_of(boxes: &[Box4; 2], scale: i128) -> i128 {
    let [first, second] = boxes;
    let areas = area(first).wrapping_add(area(second));
    let girths = girth(first).wrapping_add(girth(second));
    areas.wrapping_add(scale.wrapping_mul(girths))
}
