//! Whether equal edges cancel, by one walk over them in order.

ghost use Rattle.std.specs.Prelude.{◌≡◌, ◌↔◌, ◌<◌, ◌≤◌, ◌^◌, IsTrue, length, unsigned_abs};
ghost use Rattle.lpis_edge_sums.specs.private.SignedEdges.{same_ends as same_ends_spec};
ghost use Rattle.lpis_edge_sums.specs.private.SignedEdges.{edge_sign as weight_spec, IsGrouped};
ghost use Rattle.lpis_edge_sums.specs.private.SignedEdges.{SumsAreZero, EndsRun};

use crate::signed::SignedEdge;

/// Whether two edges lie between the same points.
fn same_ends(x: &SignedEdge, y: &SignedEdge) -> bool
    ensures { result ≡ same_ends_spec x.now y.now }
{
    x.low == y.low && x.high == y.high
}

/// The sign of an edge.
fn weight(x: &SignedEdge) -> i64
    ensures is { result ≡ weight_spec x.now }
    ensures small { unsigned_abs result ≤ 1 }
{
    if x.forward { 1 } else { -1 }
}

/// Whether an edge is the last, or the next one lies between other points.
fn ends_run(edges: &[SignedEdge], k: usize) -> bool
    requires { k < length edges.now }
    ensures { IsTrue result ↔ EndsRun edges.now k }
{
    if k + 1 == edges.len() {
        return true;
    }
    !same_ends(&edges[k], &edges[k + 1])
}

/// Whether the signs between any two points add up to 0, of edges that stand in order.
fn runs_cancel(edges: &[SignedEdge]) -> bool
    requires few { length edges.now < 2 ^ 63 }
    requires grouped { IsGrouped edges.now }
    ensures { IsTrue result ↔ SumsAreZero edges.now }
{
    let mut sum: i64 = 0;
    for k in 0..edges.len() {
        sum += weight(&edges[k]);
        if sum != 0 {
            if ends_run(edges, k) {
                return false;
            }
        }
    }
    true
}

/// Whether the signs of the edges between any two points add up to 0. It sorts the edges.
pub(crate) fn cancels(edges: &mut Vec<SignedEdge>) -> bool
    ensures { IsTrue result ↔ SumsAreZero edges.old.items }
{
    edges.sort_unstable();
    runs_cancel(edges)
}
