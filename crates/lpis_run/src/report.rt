//! The report of a release.

ghost use Rattle.std.specs.Prelude.{◌≡◌, ◌≤◌, ◌<◌, ◌++◌, ◌∷◌, [], IfOk, OnOk, Some, codes, length};
ghost use Rattle.std.specs.Prelude.{nat_abs, slice_get};
ghost use Rattle.std.specs.Io.KnownBytes.{Appends};
ghost use Rattle.std.specs.List.{flat_map};
ghost use Rattle.lpis_checker.specs.SoundMap.{AreasAdd, IsSoundMap};
ghost use Rattle.lpis_release.specs.Release.{Contents};
ghost use Rattle.lpis_release.specs.declared.parcel.Parcel.{Parcel};
ghost use Rattle.lpis_run.specs.Area.{most_printed};
ghost use Rattle.lpis_run.specs.Areas.{AreasOf};
ghost use Rattle.lpis_run.specs.Report.{areas_text, counts_line, parcel_line, report_text};

use crate::areas::{Areas, areas_at, print_areas};
use crate::printing::PrintFault;
use lpis_release::{Parcel, Release};
use std::alloc::{AllocError, Global};
use std::io::Write;

/// Writes the line that counts parcels and pieces.
fn print_counts<W: Write>(release: &Release, out: &mut W) -> Result<(), PrintFault>
    ensures { OnOk result (Appends (W.contents out.old) (W.contents out.new)
        (counts_line release.now)) }
{
    let parcels = release.parcels().len();
    let pieces = release.pieces().len();
    write!(out, "parcels {parcels} pieces {pieces}\n")?;
    Ok(())
}

/// Writes the line of a parcel that has these areas.
fn print_areas_of<W: Write>(parcel: &Parcel, areas: Areas, out: &mut W) -> Result<(), PrintFault>
    requires { (r : Contents) × AreasOf r (parcel.now ∷ []) areas }
    ensures { (r : Contents) → AreasOf r (parcel.now ∷ []) areas
        → OnOk result (Appends (W.contents out.old) (W.contents out.new)
        (parcel_line r parcel.now)) }
{
    out.write_all(b"parcel ")?;
    out.write_all(parcel.id.as_str().as_bytes())?;
    print_areas(areas, out)
}

/// Writes the line of the parcel at an index, and answers its areas.
pub fn print_parcel<W: Write>(
    release: &Release,
    index: usize,
    out: &mut W,
) -> Result<Areas, PrintFault>
    requires areas { AreasAdd release.now }
    requires within { index < length release.now.parcels }
    ensures areas { (parcel : Parcel) → slice_get release.now.parcels index ≡ Some parcel
        → IfOk result (AreasOf release.now (parcel ∷ [])) }
    ensures text { (parcel : Parcel) → slice_get release.now.parcels index ≡ Some parcel
        → OnOk result (Appends (W.contents out.old) (W.contents out.new)
        (parcel_line release.now parcel)) }
{
    let areas = areas_at(release, index);
    print_areas_of(&release.parcels()[index], areas, out)?;
    Ok(areas)
}

/// Writes the line of each parcel, and answers their areas, added.
fn print_parcels<W: Write>(release: &Release, out: &mut W) -> Result<Areas, PrintFault>
    requires { AreasAdd release.now }
    ensures areas { IfOk result (AreasOf release.now release.now.parcels) }
    ensures text { OnOk result (Appends (W.contents out.old) (W.contents out.new)
        (flat_map (parcel_line release.now) release.now.parcels)) }
{
    let mut sum = Areas::none();
    for (count, parcel) in release.parcels().iter().enumerate() {
        let areas = areas_at(release, count);
        print_areas_of(parcel, areas, out)?;
        sum = sum.plus(areas);
    }
    Ok(sum)
}

/// Writes the line of all parcels together, whose areas are these, and the yes.
fn print_total<W: Write>(sum: Areas, out: &mut W) -> Result<(), PrintFault>
    requires area { nat_abs sum.area ≤ most_printed }
    requires weighted { nat_abs sum.weighted ≤ most_printed }
    ensures { OnOk result (Appends (W.contents out.old) (W.contents out.new)
        (codes "total" ++ areas_text sum.area sum.weighted ++ codes "yes\n")) }
{
    out.write_all(b"total")?;
    print_areas(sum, out)?;
    out.write_all(b"yes\n")?;
    Ok(())
}

/// Writes the report of a release that is a sound map.
fn print_report<W: Write>(release: &Release, out: &mut W) -> Result<(), PrintFault>
    requires { IsSoundMap release.now }
    ensures { OnOk result (Appends (W.contents out.old) (W.contents out.new)
        (report_text release.now)) }
{
    // They are not too many for their sum.
    let _ = release.parcels();
    print_counts(release, out)?;
    let sum = print_parcels(release, out)?;
    print_total(sum, out)
}

/// The report of a release that is a sound map: how many parcels and pieces it has, the area and
/// the maximum eligible area of each parcel in the order of their table, the sums over all parcels,
/// and the yes.
pub fn report_of(alloc: Global, release: &Release) -> Result<Vec<u8>, AllocError>
    requires { IsSoundMap release.now }
    ensures { IfOk result (λ text. text.items ≡ report_text release.now) }
{
    let mut text = Vec::new(alloc);
    match print_report(release, &mut text) {
        Ok(()) => Ok(text),
        Err(_) => Err(AllocError),
    }
}
