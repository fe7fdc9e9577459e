//! The pair lines: their order, and the triangles that they name.

ghost use Rattle.std.specs.Prelude.{◌≡◌, ◌↔◌, ◌<◌, ℕ, All, IsTrue, length};
ghost use Rattle.lpis_points.specs.Triangles.{IsCounterClockwise};
ghost use Rattle.lpis_pairs.specs.NearPairs.{IsBelow, seen};
ghost use Rattle.lpis_checker.specs.GoodCertificate.{EdgeSeparates, IsInOrder, LineSeparates};
ghost use Rattle.lpis_checker.specs.GoodCertificate.{OfLine, OfTriangles, OnLine, triangles_of};
ghost use Rattle.lpis_checker.specs.private.Naming.{IsGoodLine};
ghost use Rattle.lpis_checker.specs.private.Searches.{FindsPlace};

use crate::condition::LineCondition;
use lpis_cert::{Cert, PairLine};
use lpis_points::{Triangle, apart, edge, is_right};

/// Whether a line names a pair that stands before (i, j).
pub(crate) fn is_before(line: &PairLine, i: u32, j: u32) -> bool
    ensures { IsTrue result ↔ IsBelow line.now.i line.now.j i j }
{
    line.i < i || line.i == i && line.j < j
}

/// The number of a certificate's triangles. `Cert` keeps it small.
pub(crate) fn triangle_count(cert: &Cert) -> usize
    ensures { result ≡ length (triangles_of cert.now.pieces) }
{
    let mut count = 0;
    for part in cert.pieces.as_slice() {
        count += part.triangles.as_slice().len();
    }
    count
}

/// Whether a pair line names two of so many triangles, the lower one first.
fn names_two(line: &PairLine, count: usize) -> bool
    ensures { IsTrue result ↔ ((line.now.i < line.now.j) × (line.now.j < count)) }
{
    line.i < line.j && (line.j as usize) < count
}

/// Whether the pair line at an index names two triangles and a later pair than the line before it.
fn is_in_order(cert: &Cert, count: usize, index: usize) -> bool
    requires count { count ≡ length (triangles_of cert.now.pieces) }
    requires within { index < length cert.now.pairs }
    ensures { IsTrue result ↔ OfLine cert.now index (IsInOrder cert.now index) }
{
    let lines = cert.pairs.as_slice();
    let line = &lines[index];
    if !names_two(line, count) {
        return false;
    }
    if index == 0 {
        return true;
    }
    is_before(&lines[index - 1], line.i, line.j)
}

/// The first pair line that is out of order.
pub(crate) fn disordered_line(cert: &Cert) -> Option<usize>
    ensures { FindsPlace (λ k. OfLine cert.now k (IsInOrder cert.now k)) result }
{
    let count = triangle_count(cert);
    for index in 0..cert.pairs.as_slice().len() {
        if !is_in_order(cert, count, index) {
            return Some(index);
        }
    }
    None
}

/// Whether edge `k` of a counter-clockwise triangle, which has it on its left, has another on its
/// right.
fn edge_separates(k: u8, left: &Triangle, right: &Triangle) -> bool
    requires { IsCounterClockwise left.now }
    ensures { IsTrue result ↔ EdgeSeparates k left.now right.now }
{
    match edge(left, k) {
        Some((start, end)) => is_right(start, end, right),
        None => false,
    }
}

/// Whether edge `k` of two triangles, 0 to 2 of the first and 3 to 5 of the second, separates them.
fn separates_by(k: u8, first: &Triangle, second: &Triangle) -> bool
    requires first_turned { IsCounterClockwise first.now }
    requires second_turned { IsCounterClockwise second.now }
    ensures { IsTrue result ↔ LineSeparates k first.now second.now }
{
    if k < 3 {
        edge_separates(k, first, second)
    } else {
        edge_separates(k - 3, second, first)
    }
}

/// Whether a condition holds of the two triangles of a line.
fn holds_of_two(
    condition: LineCondition,
    line: &PairLine,
    first: &Triangle,
    second: &Triangle,
) -> bool
    requires first_turned { IsCounterClockwise first.now }
    requires second_turned { IsCounterClockwise second.now }
    ensures { IsTrue result ↔ OnLine condition line.now first.now second.now }
{
    match condition {
        LineCondition::NotApart => !apart(first, second),
        LineCondition::Separating => separates_by(line.k, first, second),
    }
}

/// Whether a line names two triangles of which a condition holds.
fn holds_of_line(triangles: &[Triangle], condition: LineCondition, line: &PairLine) -> bool
    requires { All IsCounterClockwise triangles.now }
    ensures { IsTrue result ↔ OfTriangles triangles.now line.now (OnLine condition line.now) }
{
    match (
        triangles.get(line.i as usize),
        triangles.get(line.j as usize),
    ) {
        (Some(first), Some(second)) => holds_of_two(condition, line, first, second),
        _ => false,
    }
}

/// The first pair line at which a condition on its triangles fails.
pub(crate) fn first_line(
    cert: &Cert,
    triangles: &[Triangle],
    condition: LineCondition,
) -> Option<usize>
    requires { All IsCounterClockwise triangles.now }
    ensures { FindsPlace (λ k. OfLine cert.now k (λ l. OfTriangles triangles.now l
        (OnLine condition l))) result }
{
    let lines = cert.pairs.as_slice();
    for index in 0..lines.len() {
        if !holds_of_line(triangles, condition, &lines[index]) {
            return Some(index);
        }
    }
    None
}

/// Whether a line names two triangles that are not apart and that its edge separates.
fn is_good_line(triangles: &[&Triangle], line: &PairLine) -> bool
    requires { All IsCounterClockwise (seen triangles.now) }
    ensures { IsTrue result → IsGoodLine (seen triangles.now) line.now }
{
    match (
        triangles.get(line.i as usize),
        triangles.get(line.j as usize),
    ) {
        (Some(first), Some(second)) => {
            holds_of_two(LineCondition::NotApart, line, first, second)
                && holds_of_two(LineCondition::Separating, line, first, second)
        }
        _ => false,
    }
}

/// Whether each line names two triangles that are not apart and that its edge separates.
pub(crate) fn are_lines_good(cert: &Cert, triangles: &[&Triangle]) -> bool
    requires { All IsCounterClockwise (seen triangles.now) }
    ensures { IsTrue result → All (IsGoodLine (seen triangles.now)) cert.now.pairs }
{
    cert.pairs
        .as_slice()
        .iter()
        .all(|line| is_good_line(triangles, line))
}
