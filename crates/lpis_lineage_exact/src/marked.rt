//! The exact groups of a change.

ghost use Rattle.std.specs.Prelude.{◌≡◌, ℕ, List, IfOk};
ghost use Rattle.std.specs.List.{list_any};
ghost use Rattle.lpis_lineage.specs.Changes.{IsChange, kind_at};
ghost use Rattle.lpis_lineage.specs.ExactGroups.{AreExactGroups};

use lpis_lineage::{Change, Group, Row, exact_groups};
use std::alloc::{AllocError, Global};

/// Whether a row is marked.
fn has_marks(rows: &[Row]) -> bool
    ensures { result ≡ list_any (λ r. r.exact) rows.now }
{
    rows.iter().any(|row| row.exact)
}

/// The exact groups of a change, in their order. Where no row is marked nothing is built.
pub(crate) fn marked_groups(alloc: Global, change: &Change) -> Result<Vec<Group>, AllocError>
    ensures { (last live : List (List ℕ)) → IsChange last live change.now.rows change.now
        → IfOk result (λ v. AreExactGroups (kind_at change.now) change.now.rows v.items) }
{
    if !has_marks(change.rows()) {
        return Ok(Vec::new(alloc));
    }
    exact_groups(alloc, change)
}
