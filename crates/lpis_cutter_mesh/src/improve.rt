//! Diagonals exchanged, so that fewer boxes overlap.

use crate::boxes::{box_of_edge, box_round, boxes_beside, girth, length2, size_of};
use crate::halt::{Halt, number_of};
use crate::mesh::{BORDER, Mesh, Side};
use crate::trade::Trade;
use lpis_points::{Box4, Point, orient};
use std::alloc::Global;

/// What an exchange is to lower.
#[derive(Clone, Copy, Debug)]
enum Goal {
    /// The sum of the sizes of the two boxes, a size being w*h + s*(w + h) for this s.
    Size(i128),
    /// The overlaps among the boxes of the two triangles and of what lies across their sides; where
    /// these are equal, the area.
    Overlaps,
    /// The overlaps of the boxes of the two triangles with each other and with all others.
    AllOverlaps,
}

/// The most triangles of a mesh whose boxes are all looked at for each exchange.
const FEW: usize = 64;

/// Millimetres.
const CENTIMETRE: i128 = 10;

/// Two triangles on either side of a diagonal from a to b: (a, b, c) and (b, a, d).
#[derive(Clone, Copy)]
struct Quad {
    /// The two triangles.
    first: u32,
    second: u32,
    a: u32,
    b: u32,
    c: u32,
    d: u32,
    /// What lies across the sides from a to d, d to b, b to c and c to a.
    around: [Side; 4],
}

/// The corners of a quad.
#[derive(Clone, Copy)]
struct Corners {
    a: Point,
    b: Point,
    c: Point,
    d: Point,
}

/// Exchanges the diagonals of triangles. No exchange can spoil a cut; they only decide how many
/// boxes overlap.
#[derive(Drop)]
pub(crate) struct Improver {
    waiting: Vec<Side>,
    /// Whether each side waits.
    waits: Vec<bool>,
    /// The boxes of the triangles in their order; for `AllOverlaps` then those of the edges on the
    /// border, whose neighbour is at least as wide.
    boxes: Vec<Box4>,
}

fn corners_of(points: &[Point], corners: [u32; 3]) -> Option<(Point, Point, Point)> {
    let [a, b, c] = corners;
    Some((
        *points.get(a as usize)?,
        *points.get(b as usize)?,
        *points.get(c as usize)?,
    ))
}

/// The two triangles on either side of a side, if it is a diagonal.
fn quad_at(mesh: &Mesh, side: Side) -> Option<Quad> {
    let ab = mesh.flank(side)?;
    let ba = ab.across;
    if ba == BORDER {
        return None;
    }
    let bc = mesh.flank(side.next())?;
    let ca = mesh.flank(side.before())?;
    let ad = mesh.flank(ba.next())?;
    let db = mesh.flank(ba.before())?;
    Some(Quad {
        first: side.triangle(),
        second: ba.triangle(),
        a: ab.corner,
        b: bc.corner,
        c: ca.corner,
        d: db.corner,
        around: [ad.across, db.across, bc.across, ca.across],
    })
}

/// The corners of a quad, if the other diagonal lies inside it.
fn convex_corners(points: &[Point], quad: &Quad) -> Option<Corners> {
    let a = *points.get(quad.a as usize)?;
    let b = *points.get(quad.b as usize)?;
    let c = *points.get(quad.c as usize)?;
    let d = *points.get(quad.d as usize)?;
    if orient(a, d, c) <= 0 || orient(d, b, c) <= 0 {
        return None;
    }
    Some(Corners { a, b, c, d })
}

/// Puts the other diagonal: the triangles become (a, d, c) and (d, b, c).
fn exchange(mesh: &mut Mesh, quad: &Quad) {
    let (t, u) = (quad.first, quad.second);
    let [from_a_to_d, from_d_to_b, from_b_to_c, from_c_to_a] = quad.around;
    mesh.set_corner(Side::of(t, 0), quad.a);
    mesh.set_corner(Side::of(t, 1), quad.d);
    mesh.set_corner(Side::of(t, 2), quad.c);
    mesh.set_corner(Side::of(u, 0), quad.d);
    mesh.set_corner(Side::of(u, 1), quad.b);
    mesh.set_corner(Side::of(u, 2), quad.c);
    mesh.glue(Side::of(t, 0), from_a_to_d);
    mesh.glue(Side::of(t, 1), Side::of(u, 2));
    mesh.glue(Side::of(t, 2), from_c_to_a);
    mesh.glue(Side::of(u, 0), from_d_to_b);
    mesh.glue(Side::of(u, 1), from_b_to_c);
}

/// An eighth of the mean of w + h over boxes, rounded down to whole centimetres.
fn mean_girth(boxes: &[Box4]) -> i128 {
    let mut sum: i128 = 0;
    for sides in boxes {
        sum = sum.wrapping_add(girth(sides));
    }
    let count = boxes.len().max(1) as i128;
    let eighths = count.wrapping_mul(8).wrapping_mul(CENTIMETRE);
    let centimetres = sum.checked_div(eighths).unwrap_or(0);
    centimetres.wrapping_mul(CENTIMETRE)
}

impl Improver {
    pub(crate) fn new(alloc: Global) -> Improver {
        Improver {
            waiting: Vec::new(alloc),
            waits: Vec::new(alloc),
            boxes: Vec::new(alloc),
        }
    }

    /// Two rounds over the diagonals: of few triangles, for overlaps nearby and then for all
    /// overlaps; of more, where that would take long, for size and then for overlaps nearby.
    pub(crate) fn improve(&mut self, points: &[Point], mesh: &mut Mesh) -> Result<(), Halt> {
        let count = mesh.count();
        let looks = count.saturating_mul(12);
        if count < 2 {
            return Ok(());
        }
        self.fill_boxes(points, mesh)?;
        if count <= FEW {
            self.round(points, mesh, Goal::Overlaps, looks)?;
            self.add_borders(points, mesh)?;
            return self.round(points, mesh, Goal::AllOverlaps, looks);
        }
        let scale = mean_girth(&self.boxes);
        self.round(points, mesh, Goal::Size(scale), count.saturating_mul(60))?;
        self.round(points, mesh, Goal::Overlaps, looks)
    }

    /// Looks at each diagonal, and again where a triangle beside it has changed, up to so many
    /// times and a thousand.
    fn round(
        &mut self,
        points: &[Point],
        mesh: &mut Mesh,
        goal: Goal,
        looks: usize,
    ) -> Result<(), Halt> {
        self.fill(mesh)?;
        for _ in 0..looks.saturating_add(1000) {
            let Some(side) = self.waiting.pop() else {
                return Ok(());
            };
            self.set_waits(side, false);
            if let Some(quad) = quad_at(mesh, side)
                && let Some(corners) = convex_corners(points, &quad)
                && let Some(new) = self.better(&quad, &corners, goal)
            {
                exchange(mesh, &quad);
                let [first, second] = new;
                self.set_box(quad.first, first);
                self.set_box(quad.second, second);
                self.wait_around(mesh, &quad)?;
            }
        }
        Ok(())
    }

    /// The boxes of the triangles on either side of the other diagonal, if that is better.
    fn better(&self, quad: &Quad, corners: &Corners, goal: Goal) -> Option<[Box4; 2]> {
        let old = [
            *self.boxes.get(quad.first as usize)?,
            *self.boxes.get(quad.second as usize)?,
        ];
        let Corners { a, b, c, d } = *corners;
        let new = boxes_beside(c, d, a, b);
        let is_better = match goal {
            Goal::Size(scale) => {
                let less = size_of(&old, scale).wrapping_sub(size_of(&new, scale));
                less > 0 || less == 0 && length2(c, d) < length2(a, b)
            }
            Goal::Overlaps => {
                let gain = self.gain_nearby(quad, corners, &Trade::of(&old, &new));
                gain > 0 || gain == 0 && size_of(&new, 0) < size_of(&old, 0)
            }
            Goal::AllOverlaps => self.gain_in_all(quad, &Trade::of(&old, &new)) > 0,
        };
        if is_better { Some(new) } else { None }
    }

    /// By how much the overlaps among the boxes of two triangles and of what lies across their
    /// sides fall.
    fn gain_nearby(&self, quad: &Quad, corners: &Corners, trade: &Trade) -> i32 {
        let Corners { a, b, c, d } = *corners;
        let [over_ad, over_db, over_bc, over_ca] = quad.around;
        let mut gain = trade.own_gain();
        for (across, from, to) in [
            (over_ad, a, d),
            (over_db, d, b),
            (over_bc, b, c),
            (over_ca, c, a),
        ] {
            let beside = self.boxes.get(across.triangle() as usize).copied();
            let sides = beside.unwrap_or(box_of_edge(from, to));
            gain = gain.wrapping_add(trade.gain(&sides));
        }
        gain
    }

    /// By how much the overlaps of the boxes of two triangles with each other and with all others
    /// fall.
    fn gain_in_all(&self, quad: &Quad, trade: &Trade) -> i32 {
        let mut gain = trade.own_gain();
        for (index, other) in self.boxes.iter().enumerate() {
            if trade.is_near(other)
                && index != quad.first as usize
                && index != quad.second as usize
            {
                gain = gain.wrapping_add(trade.gain_near(other));
            }
        }
        gain
    }

    /// Makes the list of the triangles' boxes.
    fn fill_boxes(&mut self, points: &[Point], mesh: &Mesh) -> Result<(), Halt> {
        self.boxes.clear();
        for number in 0..mesh.count() {
            if let Some(corners) = mesh.corners(number)
                && let Some((a, b, c)) = corners_of(points, corners)
            {
                self.boxes.push(box_round(a, b, c))?;
            }
        }
        Ok(())
    }

    /// Lists the boxes of the edges on the border behind those of the triangles.
    fn add_borders(&mut self, points: &[Point], mesh: &Mesh) -> Result<(), Halt> {
        for (index, flank) in mesh.flanks.iter().enumerate() {
            let side = Side {
                number: number_of(index)?,
            };
            if index & 3 != 3
                && flank.across == BORDER
                && let Some(next) = mesh.flank(side.next())
                && let Some(from) = points.get(flank.corner as usize)
                && let Some(to) = points.get(next.corner as usize)
            {
                self.boxes.push(box_of_edge(*from, *to))?;
            }
        }
        Ok(())
    }

    /// Sets a triangle's box.
    fn set_box(&mut self, number: u32, new: Box4) {
        if let Some(sides) = self.boxes.get_mut(number as usize) {
            *sides = new;
        }
    }

    fn set_waits(&mut self, side: Side, value: bool) {
        if let Some(waits) = self.waits.get_mut(side.number as usize) {
            *waits = value;
        }
    }

    fn is_waiting(&self, side: Side) -> bool {
        self.waits.get(side.number as usize) == Some(&true)
    }

    /// Lets each diagonal wait, as the side of its lesser triangle.
    fn fill(&mut self, mesh: &Mesh) -> Result<(), Halt> {
        self.waiting.clear();
        self.waits.clear();
        self.waits.resize(mesh.flanks.len(), false)?;
        for (index, flank) in mesh.flanks.iter().enumerate() {
            let number = number_of(index)?;
            // Where nothing is across, the number across is the greatest.
            let other = flank.across.number;
            if other > number | 3 && other < BORDER.number {
                let side = Side { number };
                self.waiting.push(side)?;
                self.set_waits(side, true);
            }
        }
        Ok(())
    }

    /// Lets the four sides of an exchanged pair wait.
    fn wait_around(&mut self, mesh: &Mesh, quad: &Quad) -> Result<(), Halt> {
        let (t, u) = (quad.first, quad.second);
        for side in [
            Side::of(t, 0),
            Side::of(t, 2),
            Side::of(u, 0),
            Side::of(u, 1),
        ] {
            if let Some(flank) = mesh.flank(side)
                && flank.across != BORDER
                && !self.is_waiting(side)
                && !self.is_waiting(flank.across)
            {
                self.waiting.push(side)?;
                self.set_waits(side, true);
            }
        }
        Ok(())
    }
}
