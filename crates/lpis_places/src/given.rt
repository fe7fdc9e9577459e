//! A point of the table.

use crate::spot::Spot;
use lpis_tables::Id;
use std::marker::Model;

/// A point of the table: its identifier, and where it is. Contracts see both, the place as a
/// rational point.
#[derive(Debug, Drop)]
pub struct GivenPoint {
    id: Id,
    spot: Spot,
}

impl Model for GivenPoint {
    ghost use Rattle.lpis_places.specs.Points.{Given, rational_at};

    ghost Value = { Given };

    ghost view = { λ g. record { id = g.id; at = rational_at g.spot } };
}

impl GivenPoint {
    ghost use Rattle.std.specs.Prelude.{◌≡◌};
    ghost use Rattle.lpis_places.specs.Points.{rational_at};

    /// The point of this identifier at a place.
    pub(crate) fn new(id: Id, spot: Spot) -> GivenPoint
        ensures { result ≡ record { id = id; at = rational_at spot } }
    {
        GivenPoint { id, spot }
    }

    /// Its identifier.
    pub fn id(&self) -> &Id
        ensures { result.now ≡ self.now.id }
    {
        &self.id
    }

    /// Where it is.
    pub fn spot(&self) -> Spot
        ensures { rational_at result ≡ self.now.at }
    {
        self.spot
    }
}
