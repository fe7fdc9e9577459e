//! The box of some points, and the edges that not all of them cross alike.

ghost use Rattle.std.specs.Prelude.{◌≡◌, ◌≤ℤ◌, ◌++◌, ◌∷◌, [], ◌&&◌, ◌||◌, ⊤, All, IfOk, List};
ghost use Rattle.std.specs.Prelude.{MatchOption, false, int_le, int_lt, true};
ghost use Rattle.lpis_places.specs.declared.edges.Edge.{Edge as OfEdge};
ghost use Rattle.lpis_places.specs.Points.{point_at, rational_at};
ghost use Rattle.lpis_places.specs.private.Insides.{flipped, is_crossed as crosses};
ghost use Rattle.lpis_places.specs.private.Reaches.{up};
ghost use Rattle.lpis_places.specs.private.Spans.{CrossAlike, IsInSpan, IsThrough};

use crate::edges::{Edge, is_crossed, turned};
use crate::index::Slot;
use crate::reach::scaled;
use crate::spot::Spot;
use lpis_points::Point;
use std::alloc::{AllocError, Global};

/// A box of points. All its sides belong to it.
#[derive(Clone, Copy, Debug)]
pub(crate) struct Span {
    /// The least x and the least y.
    pub low: Spot,
    /// The greatest x and the greatest y.
    pub high: Spot,
}

/// The point of the x of one point and the y of another.
fn mixed(x: Spot, y: Spot) -> Spot
    ensures at { rational_at result ≡ point_at x.x y.y }
    ensures x { result.x ≡ x.x }
    ensures y { result.y ≡ y.y }
{
    Spot { x: x.x, y: y.y }
}

/// The one of two points that is more to the left.
fn lefter(a: Spot, b: Spot) -> Spot
    ensures { (result.x ≤ℤ a.x) × (result.x ≤ℤ b.x) }
{
    if b.x < a.x { b } else { a }
}

/// The lower one.
fn lower(a: Spot, b: Spot) -> Spot
    ensures { (result.y ≤ℤ a.y) × (result.y ≤ℤ b.y) }
{
    if b.y < a.y { b } else { a }
}

/// The one more to the right.
fn righter(a: Spot, b: Spot) -> Spot
    ensures { (a.x ≤ℤ result.x) × (b.x ≤ℤ result.x) }
{
    if a.x < b.x { b } else { a }
}

/// The higher one.
fn higher(a: Spot, b: Spot) -> Spot
    ensures { (a.y ≤ℤ result.y) × (b.y ≤ℤ result.y) }
{
    if a.y < b.y { b } else { a }
}

impl Span {
    /// That of a point.
    fn at(spot: Spot) -> Span
        ensures { IsInSpan result spot }
    {
        Span {
            low: spot,
            high: spot,
        }
    }

    /// That with a point more.
    fn with(self, spot: Spot) -> Span
        ensures has { IsInSpan result spot }
        ensures keeps { (s : Spot) → IsInSpan self s → IsInSpan result s }
    {
        Span {
            low: mixed(lefter(self.low, spot), lower(self.low, spot)),
            high: mixed(righter(self.high, spot), higher(self.high, spot)),
        }
    }

    /// That of the points of these slots.
    pub(crate) fn of(slots: &[Slot]) -> Option<Span>
        ensures { MatchOption result (slots.now ≡ [])
            (λ b. All (λ (s : Slot). IsInSpan b s.spot) slots.now) }
    {
        let first = slots.first()?;
        let mut span = Span::at(first.spot);
        for slot in slots {
            span = span.with(slot.spot);
        }
        Some(span)
    }
}

/// Whether a corner is above all points of a box.
fn is_above_all(corner: Point, span: &Span) -> bool
    ensures { result ≡ int_lt span.now.high.y (up corner.y) }
{
    (span.high.y as i128) < scaled(corner.y)
}

/// Whether a corner is above no point of a box.
fn is_above_none(corner: Point, span: &Span) -> bool
    ensures { result ≡ int_le (up corner.y) span.now.low.y }
{
    scaled(corner.y) <= span.low.y as i128
}

/// Whether a corner is right of no point of a box.
fn is_right_of_none(corner: Point, span: &Span) -> bool
    ensures { result ≡ int_le (up corner.x) span.now.low.x }
{
    scaled(corner.x) <= span.low.x as i128
}

/// Whether both ends of an edge are above a box, below it or left of it. No point crosses it then.
fn is_beyond(edge: Edge, span: &Span) -> bool
    ensures { result ≡ true → CrossAlike span.now edge false }
{
    if is_above_all(edge.from, span) {
        return is_above_all(edge.to, span);
    }
    if is_above_none(edge.from, span) && is_above_none(edge.to, span) {
        return true;
    }
    is_right_of_none(edge.from, span) && is_right_of_none(edge.to, span)
}

/// Whether an edge has one end above all points of a box and one above none.
fn is_through(edge: Edge, span: &Span) -> bool
    ensures { result ≡ true → IsThrough span.now edge }
{
    if is_above_all(edge.from, span) {
        return is_above_none(edge.to, span);
    }
    is_above_none(edge.from, span) && is_above_all(edge.to, span)
}

/// Whether the point of an x and a y crosses an edge.
fn is_crossed_at(edge: Edge, x: Spot, y: Spot) -> bool
    ensures { result ≡ crosses (point_at x.x y.y) edge.from edge.to }
{
    is_crossed(edge, &mixed(x, y).as_fraction())
}

/// Whether both points at the right side of a box cross an edge.
fn is_crossed_right(edge: Edge, span: &Span) -> bool
    ensures { result ≡ crosses (point_at span.now.high.x span.now.low.y) edge.from edge.to
        && crosses (point_at span.now.high.x span.now.high.y) edge.from edge.to }
{
    is_crossed_at(edge, span.high, span.low) && is_crossed_at(edge, span.high, span.high)
}

/// Whether one at its left side does.
fn is_crossed_left(edge: Edge, span: &Span) -> bool
    ensures { result ≡ crosses (point_at span.now.low.x span.now.low.y) edge.from edge.to
        || crosses (point_at span.now.low.x span.now.high.y) edge.from edge.to }
{
    is_crossed_at(edge, span.low, span.low) || is_crossed_at(edge, span.low, span.high)
}

/// Whether all points of a box cross an edge, or none does, where that is known.
fn crossed_alike(edge: Edge, span: &Span) -> Option<bool>
    ensures { MatchOption result ⊤ (CrossAlike span.now edge) }
{
    if is_beyond(edge, span) {
        return Some(false);
    }
    if !is_through(edge, span) {
        return None;
    }
    if is_crossed_right(edge, span) {
        return Some(true);
    }
    if !is_crossed_left(edge, span) {
        return Some(false);
    }
    None
}

/// Looks at an edge: it is put with those that the points of a box may not cross alike, or what was
/// said of them is turned round where they cross it.
fn look_at(edge: Edge, span: &Span, inside: bool, left: &mut Vec<Edge>) -> Result<bool, AllocError>
    ensures { IfOk result (λ b. (s : Spot) → IsInSpan span.now s → (es : List OfEdge)
        → flipped b (rational_at s) (left.new.items ++ es)
        ≡ flipped inside (rational_at s) (left.old.items ++ edge ∷ es)) }
{
    match crossed_alike(edge, span) {
        Some(crossed) => Ok(turned(inside, crossed)),
        None => {
            left.push(edge)?;
            Ok(inside)
        }
    }
}

/// The edges that the points of a box may not cross alike, and what the others say.
pub(crate) fn undecided(
    alloc: Global,
    edges: &[Edge],
    odd: bool,
    span: &Span,
) -> Result<(Vec<Edge>, bool), AllocError>
    ensures { IfOk result (λ r. (s : Spot) → IsInSpan span.now s
        → flipped r.1 (rational_at s) r.0.items ≡ flipped odd (rational_at s) edges.now) }
{
    let mut left = Vec::new(alloc);
    let mut inside = odd;
    for edge in edges {
        inside = look_at(*edge, span, inside, &mut left)?;
    }
    Ok((left, inside))
}
