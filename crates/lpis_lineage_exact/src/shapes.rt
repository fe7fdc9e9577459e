//! Shapes by their identifiers.

ghost use Rattle.std.specs.Prelude.{◌≡◌};
ghost use Rattle.std.specs.Option.{option_copied};
ghost use Rattle.lpis_lineage.specs.Order.{IsAscending};
ghost use Rattle.lpis_register_rows.specs.Shapes.{shape_ids};
ghost use Rattle.lpis_lineage_exact.specs.Shapes.{shape_named};

use lpis_register_rows::KeptShape;
use lpis_rings::Polygon;
use lpis_tables::Id;

/// The shape of an identifier, where one is there.
pub(crate) fn shape_of<'a>(shapes: &'a [KeptShape], id: &Id) -> Option<&'a Polygon>
    requires ascending { IsAscending (shape_ids shapes.now) }
    ensures { option_copied result ≡ shape_named shapes.now id.now }
{
    match shapes.binary_search_by(|shape| shape.id().cmp(id)) {
        Ok(index) => Some(shapes[index].polygon()),
        Err(_) => None,
    }
}
