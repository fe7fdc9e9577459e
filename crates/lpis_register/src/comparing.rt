//! Whether two histories, and two lists of shapes, are equal. No call takes memory.

ghost use Rattle.std.specs.Prelude.{◌≡◌, ◌↔◌, ℕ, IsTrue, List};
ghost use Rattle.lpis_tables.specs.Ids.{has_id};
ghost use Rattle.lpis_register_rows.specs.Histories.{IsSameHistory};
ghost use Rattle.lpis_register.specs.private.Alike.{AreAlike, IsAlike};

use lpis_lineage::{Entry, History, IdSet, Row};
use lpis_register_rows::KeptShape;
use lpis_release::is_same_polygon;
use lpis_release::laws::tests_find_equal_rows;

/// Whether two sets have the same identifiers.
fn are_same_ids(a: &IdSet, b: &IdSet) -> bool
    ensures equal { IsTrue result ↔ (a.now ≡ b.now) }
    ensures alike { ((q : List ℕ) → has_id a.now q ≡ has_id b.now q) → IsTrue result }
{
    let mut rest = b.iter();
    for id in a.iter() {
        if rest.next() != Some(id) {
            return false;
        }
    }
    rest.next().is_none()
}

/// Whether two rows of lineage are equal.
fn is_same_row(a: &Row, b: &Row) -> bool
    ensures { IsTrue result ↔ (a.now ≡ b.now) }
{
    a.old == b.old && a.new == b.new && a.exact == b.exact
}

/// Whether two lists of rows are equal.
fn are_same_rows(a: &[Row], b: &[Row]) -> bool
    ensures { IsTrue result ↔ (a.now ≡ b.now) }
{
    let mut rest = b.iter();
    for row in a {
        if !rest.next().is_some_and(|other| is_same_row(row, other)) {
            return false;
        }
    }
    rest.next().is_none()
}

/// Whether two releases have the same year, identifiers and rows.
fn is_same_entry(a: &Entry, b: &Entry) -> bool
    ensures equal { IsTrue result ↔ (a.now ≡ b.now) }
    ensures alike { IsAlike a.now b.now → IsTrue result }
{
    a.year == b.year
        && are_same_ids(&a.live, &b.live)
        && are_same_rows(a.rows.as_slice(), b.rows.as_slice())
}

/// Whether two lists of releases are equal.
fn are_same_entries(a: &[Entry], b: &[Entry]) -> bool
    ensures equal { IsTrue result ↔ (a.now ≡ b.now) }
    ensures alike { AreAlike a.now b.now → IsTrue result }
{
    let mut rest = b.iter();
    for entry in a {
        if !rest.next().is_some_and(|other| is_same_entry(entry, other)) {
            return false;
        }
    }
    rest.next().is_none()
}

/// Whether two histories have the same releases: years, identifiers and rows, in order.
pub(crate) fn is_same_history(a: &History, b: &History) -> bool
    ensures equal { IsTrue result ↔ (a.now ≡ b.now) }
    ensures alike { IsSameHistory a.now b.now → IsTrue result }
{
    are_same_entries(a.releases(), b.releases())
}

/// Whether two shapes have the same identifier, and the same polygon point by point.
fn is_same_shape(a: &KeptShape, b: &KeptShape) -> bool
    ensures { IsTrue result ↔ (a.now ≡ b.now) }
{
    tests_find_equal_rows();
    a.id() == b.id() && is_same_polygon(a.polygon(), b.polygon())
}

/// Whether two lists of shapes are equal: identifiers and polygons, point by point.
pub(crate) fn are_same_shapes(a: &[KeptShape], b: &[KeptShape]) -> bool
    ensures { IsTrue result ↔ (a.now ≡ b.now) }
{
    let mut rest = b.iter();
    for shape in a {
        if !rest.next().is_some_and(|other| is_same_shape(shape, other)) {
            return false;
        }
    }
    rest.next().is_none()
}
