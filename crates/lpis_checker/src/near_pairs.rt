//! Near pairs that no pair line names.

ghost use Rattle.std.specs.Prelude.{◌≡◌, ◌↔◌, ◌<◌, ◌≤◌, ℕ, IsTrue, Some, length, slice_get};
ghost use Rattle.lpis_cert.specs.declared.part.PairLine.{PairLine};
ghost use Rattle.lpis_pairs.specs.NearPairs.{IsBelow, IsNearList};
ghost use Rattle.lpis_checker.specs.GoodCertificate.{triangles_of};
ghost use Rattle.lpis_checker.specs.private.Naming.{NamesAt};
ghost use Rattle.lpis_checker.specs.private.Searches.{AreLinesInOrder, FindsPair};

use crate::lines::is_before;
use lpis_cert::{Cert, PairLine};
use lpis_points::Triangle;
use lpis_release::Release;

/// The first line from an index on that names (i, j) or a later pair.
fn skip_to(lines: &[PairLine], from: usize, i: u32, j: u32) -> usize
    requires { from ≤ length lines.now }
    ensures low { from ≤ result }
    ensures high { result ≤ length lines.now }
    ensures before { (m : ℕ) (l : PairLine) → from ≤ m → m < result → slice_get lines.now m ≡ Some l
        → IsBelow l.i l.j i j }
    ensures stop { (l : PairLine) → slice_get lines.now result ≡ Some l → IsBelow l.i l.j i j → ⊥ }
{
    for index in from..lines.len() {
        if !is_before(&lines[index], i, j) {
            return index;
        }
    }
    lines.len()
}

/// Whether a line names (i, j).
fn names_pair(line: &PairLine, i: u32, j: u32) -> bool
    ensures { IsTrue result ↔ ((line.now.i ≡ i) × (line.now.j ≡ j)) }
{
    line.i == i && line.j == j
}

/// Whether there is a line at an index, and it names (i, j).
pub(crate) fn names_at(lines: &[PairLine], index: usize, i: u32, j: u32) -> bool
    ensures { IsTrue result ↔ NamesAt lines.now index i j }
{
    match lines.get(index) {
        Some(line) => names_pair(line, i, j),
        None => false,
    }
}

/// The first of the near pairs that no line names. Both lists ascend, so each is walked once.
pub(crate) fn unnamed_pair(
    release: &Release,
    cert: &Cert,
    triangles: &[Triangle],
    near: &[(u32, u32)],
) -> Option<(u32, u32)>
    requires ordered { AreLinesInOrder cert.now }
    requires numbered { triangles.now ≡ triangles_of cert.now.pieces }
    requires near { IsNearList triangles.now near.now }
    ensures { FindsPair release.now cert.now result }
{
    let lines = cert.pairs.as_slice();
    let mut at = 0;
    for (i, j) in near {
        at = skip_to(lines, at, *i, *j);
        if !names_at(lines, at, *i, *j) {
            return Some((*i, *j));
        }
    }
    None
}
