//! The regions of a country, and their tiles.

ghost use Rattle.std.specs.Prelude.{◌≡◌, ◌≤◌, ◌<◌, map, length};
ghost use Rattle.std.specs.String.{string_bytes};
ghost use Rattle.lpis_country.specs.Tiling.{rectangles, frame};
ghost use Rattle.lpis_country.specs.Tree.{Tree};
ghost use Rattle.lpis_country.specs.Limits.{most_regions};
ghost use Rattle.lpis_country.specs.Plans.{IsPlan};

use lpis_points::Box4;
use std::marker::Model;

/// The most regions of a country.
pub const MOST_REGIONS: usize = 10_000;

/// The names of a country's regions, and their tiles in the same order: those of one tree of cuts,
/// whose names are all different. Contracts see the two lists.
#[derive(Debug, Drop)]
pub struct Plan {
    names: Vec<String>,
    tiles: Vec<Box4>,
}

impl Model for Plan {
    ghost use Rattle.std.specs.Prelude.{map};
    ghost use Rattle.std.specs.String.{string_bytes};
    ghost use Rattle.lpis_country.specs.Plans.{PlanParts, IsPlan};

    ghost Value = { PlanParts };

    ghost view = { λ p. record { names = map string_bytes p.names.items; tiles = p.tiles.items } };

    ghost invariant = { λ p. IsPlan (record {
      names = map string_bytes p.names.items;
      tiles = p.tiles.items;
    }) };
}

impl Plan {
    /// The plan of these lists.
    pub(crate) fn new(names: Vec<String>, tiles: Vec<Box4>) -> Plan
        requires { IsPlan (record { names = map string_bytes names.items; tiles = tiles.items }) }
        ensures names { result.names ≡ map string_bytes names.items }
        ensures tiles { result.tiles ≡ tiles.items }
    {
        Plan { names, tiles }
    }

    /// The names of the regions, in the order of the text.
    pub fn names(&self) -> &[String]
        ensures names { map string_bytes result.now ≡ self.now.names }
        ensures some { 0 < length result.now }
        ensures few { length result.now ≤ most_regions }
        ensures plan { IsPlan self.now }
    {
        self.names.as_slice()
    }

    /// The tile of each region, in the same order.
    pub fn tiles(&self) -> &[Box4]
        ensures tiles { result.now ≡ self.now.tiles }
        ensures same { length result.now ≡ length self.now.names }
        ensures plan { IsPlan self.now }
    {
        self.tiles.as_slice()
    }

    /// Both lists.
    pub fn into_parts(self) -> (Vec<String>, Vec<Box4>)
        ensures names { map string_bytes result.0.items ≡ self.names }
        ensures tiles { result.1.items ≡ self.tiles }
        ensures same { length result.0.items ≡ length result.1.items }
        ensures cut { (tiling : Tree) × (result.1.items ≡ rectangles tiling frame) }
        ensures plan { IsPlan self }
    {
        (self.names, self.tiles)
    }
}
