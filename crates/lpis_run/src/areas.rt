//! The areas of parcels, one by one and added.

ghost use Rattle.std.specs.Prelude.{◌≡◌, ◌≤◌, ◌<◌, ◌+◌, ◌∷◌, ◌++◌, [], Contains, List, OnOk};
ghost use Rattle.std.specs.Prelude.{Some, length, nat_abs, slice_get};
ghost use Rattle.std.specs.Io.KnownBytes.{Appends};
ghost use Rattle.lpis_checker.specs.SoundMap.{AreasAdd};
ghost use Rattle.lpis_release.specs.Release.{Contents};
ghost use Rattle.lpis_release.specs.declared.parcel.Parcel.{Parcel};
ghost use Rattle.lpis_run.specs.Area.{most_printed};
ghost use Rattle.lpis_run.specs.Areas.{AreasOf};
ghost use Rattle.lpis_run.specs.Report.{areas_text};

use crate::printing::{PrintFault, print_area, print_eligible};
use lpis_release::{Release, weighted2_at};
use lpis_rings::area2;
use std::io::Write;

/// An area and how much of it is eligible: doubled square millimetres, and these at one percent
/// each.
#[derive(Clone, Copy, Debug, PartialEq, Eq)]
pub struct Areas {
    /// The area.
    pub area: i128,
    /// How much of it is eligible.
    pub weighted: i128,
}

impl Areas {
    /// The areas of no parcel.
    pub fn none() -> Areas
        ensures { (r : Contents) → AreasOf r [] result }
    {
        Areas {
            area: 0,
            weighted: 0,
        }
    }

    /// Both areas added to others.
    pub fn plus(self, other: Areas) -> Areas
        requires area { nat_abs self.area + nat_abs other.area ≤ most_printed }
        requires weighted { nat_abs self.weighted + nat_abs other.weighted ≤ most_printed }
        ensures { (r : Contents) (ks ls : List Parcel) → AreasOf r ks self → AreasOf r ls other
            → AreasOf r (ks ++ ls) result }
    {
        Areas {
            area: self.area + other.area,
            weighted: self.weighted + other.weighted,
        }
    }
}

/// The areas of the parcel at an index.
pub fn areas_at(release: &Release, index: usize) -> Areas
    requires areas { AreasAdd release.now }
    requires within { index < length release.now.parcels }
    ensures { (parcel : Parcel) → slice_get release.now.parcels index ≡ Some parcel
        → AreasOf release.now (parcel ∷ []) result }
{
    Areas {
        area: area2(&release.parcels()[index].polygon),
        weighted: weighted2_at(release, index),
    }
}

/// Writes an area and how much of it is eligible, up to the end of the line.
#[tactic(auto, unfolding(crate::specs::Report::areas_text))]
pub fn print_areas<W: Write>(areas: Areas, out: &mut W) -> Result<(), PrintFault>
    requires area { nat_abs areas.area ≤ most_printed }
    requires weighted { nat_abs areas.weighted ≤ most_printed }
    ensures { OnOk result (Appends (W.contents out.old) (W.contents out.new)
        (areas_text areas.area areas.weighted)) }
{
    out.write_all(b" area ")?;
    print_area(areas.area, out)?;
    out.write_all(b" eligible ")?;
    print_eligible(areas.weighted, out)?;
    out.write_all(b"\n")?;
    Ok(())
}
