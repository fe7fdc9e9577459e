//! Every two triangles compared.

ghost use Rattle.std.specs.Prelude.{◌≡◌, ◌<◌, ◌⊎◌, ◌++◌, ◌∷◌, [], OnOk, length};
ghost use Rattle.lpis_pairs.specs.NearPairs.{IsNear};

use crate::near::is_near;
use crate::source::PairSource;
use lpis_points::Triangle;
use std::alloc::{AllocError, Global};

/// Compares every two triangles: the definition, as a program. Its time grows as the square of the
/// number of triangles.
#[derive(Clone, Copy, Debug)]
pub struct AllPairs;

/// Adds (i, j) where it is a near pair.
fn push_if_near(
    triangles: &[Triangle],
    i: u32,
    j: u32,
    pairs: &mut Vec<(u32, u32)>,
) -> Result<(), AllocError>
    requires first { i < length triangles.now }
    requires second { j < length triangles.now }
    ensures { OnOk result
        ((IsNear triangles.now i j × (pairs.new.items ≡ pairs.old.items ++ (i, j) ∷ []))
        ⊎ ((IsNear triangles.now i j → ⊥) × (pairs.new.items ≡ pairs.old.items))) }
{
    if is_near(triangles, i, j) {
        pairs.push((i, j))?;
    }
    Ok(())
}

impl PairSource for AllPairs {
    fn pairs(&self, alloc: Global, triangles: &[Triangle]) -> Result<Vec<(u32, u32)>, AllocError> {
        let mut pairs = Vec::new(alloc);
        for i in 0..triangles.len() {
            for j in i + 1..triangles.len() {
                push_if_near(triangles, i as u32, j as u32, &mut pairs)?;
            }
        }
        Ok(pairs)
    }
}
