//! Rows in the order of the identifiers that they bear.

ghost use Rattle.std.specs.Prelude.{◌↔◌, map, IsPermutation, IsTrue};
ghost use Rattle.std.specs.Cmp.Lexicographic.{slice_cmp};
ghost use Rattle.std.specs.List.Sorted.{IsSortedByKey};
ghost use Rattle.std.specs.Ordering.{nat_cmp};
ghost use Rattle.lpis_lineage.specs.Order.{IsAscending};

use crate::kept_shape::KeptShape;
use lpis_tables::Id;

/// What bears an identifier.
pub(crate) trait Named: Drop {
    ghost use Rattle.std.specs.Prelude.{◌≡◌, List, ℕ};

    ghost id_of: { Self → List ℕ };

    /// Its identifier.
    fn id(&self) -> &Id
        ensures { result.now ≡ id_of self.now };
}

impl Named for KeptShape {
    ghost use Rattle.lpis_register_rows.specs.Shapes.{Shape};

    ghost id_of = { λ (shape : Shape). shape.0 };

    fn id(&self) -> &Id {
        KeptShape::id(self)
    }
}

/// Puts rows in the order of their identifiers.
pub(crate) fn sort<T: Named>(rows: &mut Vec<T>)
    ensures same { IsPermutation rows.old.items rows.new.items }
    ensures sorted { IsSortedByKey T.id_of (slice_cmp nat_cmp) rows.new.items }
{
    rows.sort_unstable_by(|first, second| first.id().cmp(second.id()));
}

/// Whether rows ascend by identifier, each once.
pub(crate) fn ascend<T: Named>(rows: &[T]) -> bool
    ensures { IsTrue result ↔ IsAscending (map T.id_of rows.now) }
{
    let mut next = 1;
    while next < rows.len() {
        let first = rows[next - 1].id();
        let second = rows[next].id();
        if first >= second {
            return false;
        }
        next += 1;
    }
    true
}
