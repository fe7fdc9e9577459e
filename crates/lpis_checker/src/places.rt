//! The first place of two lists at which a condition fails.

ghost use Rattle.std.specs.Prelude.{◌≡◌, ◌↔◌, ℕ, IsTrue, IfOk, Some, slice_get};
ghost use Rattle.lpis_checker.specs.GoodCertificate.{SideBySide};
ghost use Rattle.lpis_checker.specs.private.Searches.{FindsPlace};

use lpis_edge_sums::EdgeSum;
use std::alloc::{AllocError, Global};

/// A condition on items and their parts, which stand at the same indices of two lists.
pub(crate) trait Places {
    type Item;

    type Part;

    ghost holds: { Self → Self.Item → Self.Part → Type 0 };

    ghost stands: { Self → ℕ → Self.Item → Type 0 };

    /// Whether it holds of an item, which stands at this index, and its part. The sum is for edges:
    /// its room is used again.
    fn holds_of(
        &self,
        alloc: Global,
        sum: &mut EdgeSum,
        index: usize,
        item: &Self::Item,
        part: &Self::Part,
    ) -> Result<bool, AllocError>
        requires { stands self.now index item.now }
        ensures { IfOk result (λ b. IsTrue b ↔ holds self.now item.now part.now) };
}

/// Whether a condition holds at an index, where both lists go on or both have ended.
fn holds_at<P: Places>(
    alloc: Global,
    sum: &mut EdgeSum,
    places: &P,
    items: &[P::Item],
    parts: &[P::Part],
    index: usize,
) -> Result<bool, AllocError>
    requires { (k : ℕ) (item : P.Item) → slice_get items.now k ≡ Some item
        → P.stands places.now k item }
    ensures { IfOk result (λ b. IsTrue b ↔ SideBySide (P.holds places.now)
        (slice_get items.now index) (slice_get parts.now index)) }
{
    match (items.get(index), parts.get(index)) {
        (Some(item), Some(part)) => places.holds_of(alloc, sum, index, item, part),
        (None, None) => Ok(true),
        _ => Ok(false),
    }
}

/// The first index at which a condition fails.
pub(crate) fn first_place<P: Places>(
    alloc: Global,
    places: &P,
    items: &[P::Item],
    parts: &[P::Part],
) -> Result<Option<usize>, AllocError>
    requires { (k : ℕ) (item : P.Item) → slice_get items.now k ≡ Some item
        → P.stands places.now k item }
    ensures { IfOk result (FindsPlace (λ k. SideBySide (P.holds places.now)
        (slice_get items.now k) (slice_get parts.now k))) }
{
    let mut sum = EdgeSum::new(alloc);
    for index in 0..items.len().max(parts.len()) {
        if !holds_at(alloc, &mut sum, places, items, parts, index)? {
            return Ok(Some(index));
        }
    }
    Ok(None)
}
