//! Classes of land cover.

ghost use Rattle.std.specs.Prelude.{◌≤◌};
ghost use Rattle.lpis_tables.specs.Percentages.{most_percent};

use crate::id::Id;
use crate::keyed::{Identified, Keyed};

/// A class of land cover.
#[derive(Debug, Drop)]
pub struct Class {
    /// Its code.
    pub code: Id,
    /// How much of its land counts towards a parcel's eligible area, in percent: 0 to 100.
    pub percent: u8,
    pub ghost within: { percent ≤ most_percent },
}

/// The classes of a release by their codes, in the order of their table.
pub type Classes = Keyed<Class>;

impl Identified for Class {
    ghost identifier = { λ class. class.code };

    fn id(&self) -> &Id {
        &self.code
    }
}
