//! Boxes of triangles.

ghost use Rattle.std.specs.Prelude.{◌≡◌};
ghost use Rattle.lpis_points.specs.Triangles.{are_apart, box_of as box_of_spec, ends_before};
ghost use Rattle.lpis_points.specs.Triangles.{greatest, least};

use crate::triangle::Triangle;

/// The least and the greatest coordinates of a triangle's corners, in millimetres.
#[derive(Clone, Copy, Debug, PartialEq, Eq)]
pub struct Box4 {
    pub x0: i64,
    pub y0: i64,
    pub x1: i64,
    pub y1: i64,
}

fn least_of(a: i64, b: i64, c: i64) -> i64
    ensures { result ≡ least a b c }
{
    a.min(b).min(c)
}

fn greatest_of(a: i64, b: i64, c: i64) -> i64
    ensures { result ≡ greatest a b c }
{
    a.max(b).max(c)
}

/// The box of a triangle: the least and greatest x and y of its corners.
pub fn box_of(triangle: &Triangle) -> Box4
    ensures { result ≡ box_of_spec triangle.now }
{
    let Triangle { a, b, c } = *triangle;
    Box4 {
        x0: least_of(a.x, b.x, c.x),
        y0: least_of(a.y, b.y, c.y),
        x1: greatest_of(a.x, b.x, c.x),
        y1: greatest_of(a.y, b.y, c.y),
    }
}

/// Whether the first box ends where the second begins or before, in x or in y.
fn is_before(first: &Box4, second: &Box4) -> bool
    ensures { result ≡ ends_before first.now second.now }
{
    first.x1 <= second.x0 || first.y1 <= second.y0
}

/// Whether the boxes of two triangles are apart: the greatest x of one is at most the least x of
/// the other, or the same in y. Boxes that only touch are apart.
#[tactic(auto, unfolding(crate::specs::Triangles::are_apart))]
pub fn apart(first: &Triangle, second: &Triangle) -> bool
    ensures { result ≡ are_apart first.now second.now }
{
    let first = box_of(first);
    let second = box_of(second);
    is_before(&first, &second) || is_before(&second, &first)
}
