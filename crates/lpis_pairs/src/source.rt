//! Where near pairs come from.

ghost use Rattle.std.specs.Prelude.{◌≡◌, ◌≤◌, ℕ, List, length, IfOk, IfSome};
ghost use Rattle.lpis_pairs.specs.NearPairs.{HasNearPairs, IsNearList, seen};
ghost use Rattle.lpis_points.specs.Triangles.{most_triangles};

use lpis_points::Triangle;
use std::alloc::{AllocError, Global};

/// The greatest number of triangles that a source is asked about.
pub const MOST_TRIANGLES: usize = 2_000_000;

/// Finds the pairs of triangles that are not apart.
pub trait PairSource {
    /// All (i, j) with `i < j` whose triangles are not apart, and nothing else, ascending by i and
    /// then by j. Triangles are numbered from
    /// 0. There may be none. The only error is out of memory.
    fn pairs(&self, alloc: Global, triangles: &[Triangle]) -> Result<Vec<(u32, u32)>, AllocError>
        requires { length triangles.now ≤ most_triangles }
        ensures { IfOk result (λ pairs. IsNearList triangles.now pairs.items) };

    /// How many pairs a list has of all of these, and of nothing else, in whatever order and maybe
    /// one of them more than once. `None` says nothing: a source may give up where they are more
    /// than `most`. The only error is out of memory.
    fn count(
        &self,
        alloc: Global,
        triangles: &[&Triangle],
        most: usize,
    ) -> Result<Option<usize>, AllocError>
        requires { length triangles.now ≤ most_triangles }
        ensures { IfOk result (λ o. IfSome o (λ n. (ps : List (ℕ × ℕ))
            × HasNearPairs (seen triangles.now) ps × (length ps ≡ n))) }
    {
        let _ = most;
        let copies = copied(alloc, triangles)?;
        let pairs = self.pairs(alloc, copies.as_slice())?;
        Ok(Some(pairs.len()))
    }
}

/// The triangles that stand elsewhere.
fn copied(alloc: Global, triangles: &[&Triangle]) -> Result<Vec<Triangle>, AllocError>
    ensures { IfOk result (λ v. v.items ≡ seen triangles.now) }
{
    let mut copies = Vec::with_capacity(alloc, triangles.len())?;
    for triangle in triangles {
        copies.push(**triangle)?;
    }
    Ok(copies)
}
