//! The lines of regions that passed, and of the country.

ghost use Rattle.std.specs.Prelude.{◌≡◌, IfOk, List, OnOk};
ghost use Rattle.std.specs.Io.KnownBytes.{Appends};
ghost use Rattle.std.specs.List.{flat_map};
ghost use Rattle.lpis_checker.specs.SoundMap.{AreasAdd};
ghost use Rattle.lpis_release.specs.declared.parcel.Parcel.{Parcel};
ghost use Rattle.lpis_release.specs.Release.{Contents};
ghost use Rattle.lpis_run.specs.Report.{parcel_line};
ghost use Rattle.lpis_run.specs.Status.{done};
ghost use Rattle.lpis_country.specs.Country.{new_parcels};
ghost use Rattle.lpis_run_country.specs.CountryLines.{detail_lines, region_report};
ghost use Rattle.lpis_run_country.specs.CountryLines.{region_sums_line, sums_text};
ghost use Rattle.lpis_run_country.specs.private.Totals.{AreAt, ArePlaces, IsPrintable, count_text};
ghost use Rattle.lpis_run_country.specs.private.Totals.{last_lines, totals_text};

use crate::totals::{Totals, release_totals};
use lpis_country::is_region;
use lpis_release::Release;
use lpis_run::{Answer, DONE, Detail, PrintFault, print_areas, print_parcel};
use std::alloc::{AllocError, Global};
use std::io::Write;

/// Writes counts and areas, up to the end of the line.
#[tactic(auto, unfolding(crate::specs::private::Totals::totals_text))]
fn print_totals<W: Write>(totals: Totals, out: &mut W) -> Result<(), PrintFault>
    requires { IsPrintable totals }
    ensures { OnOk result (Appends (W.contents out.old) (W.contents out.new)
        (totals_text totals)) }
{
    let Totals {
        parcels,
        pieces,
        areas,
    } = totals;
    write!(out, " parcels {parcels} pieces {pieces}")?;
    print_areas(areas, out)
}

/// Writes the counts and areas of a release, up to the end of the line.
fn print_sums<W: Write>(release: &Release, out: &mut W) -> Result<(), PrintFault>
    requires { AreasAdd release.now }
    ensures { OnOk result (Appends (W.contents out.old) (W.contents out.new)
        (sums_text release.now)) }
{
    is_region(release);
    print_totals(release_totals(release), out)
}

/// Writes the line of a region.
fn print_region_sums<W: Write>(name: &str, release: &Release, out: &mut W) -> Result<(), PrintFault>
    requires { AreasAdd release.now }
    ensures { OnOk result (Appends (W.contents out.old) (W.contents out.new)
        (region_sums_line name.now release.now)) }
{
    out.write_all(b"region ")?;
    out.write_all(name.as_bytes())?;
    print_sums(release, out)
}

/// Writes the lines of the parcels at these places.
fn print_parcels<W: Write>(
    release: &Release,
    places: &[usize],
    out: &mut W,
) -> Result<(), PrintFault>
    requires areas { AreasAdd release.now }
    requires places { ArePlaces release.now places.now }
    ensures { (ks : List Parcel) → AreAt release.now places.now ks
        → OnOk result (Appends (W.contents out.old) (W.contents out.new)
        (flat_map (parcel_line release.now) ks)) }
{
    for (count, place) in places.iter().enumerate() {
        print_parcel(release, *place, out)?;
    }
    Ok(())
}

/// Writes the lines of the parcels at these places, if they are asked for.
fn print_detail<W: Write>(
    release: &Release,
    places: &[usize],
    detail: Detail,
    out: &mut W,
) -> Result<(), PrintFault>
    requires areas { AreasAdd release.now }
    requires places { ArePlaces release.now places.now }
    ensures { (u : Contents) → AreAt release.now places.now (new_parcels u release.now)
        → OnOk result (Appends (W.contents out.old) (W.contents out.new)
        (detail_lines detail u release.now)) }
{
    match detail {
        Detail::Regions => Ok(()),
        Detail::Parcels => print_parcels(release, places, out),
    }
}

/// What is printed of a region that passed, whose new parcels are at these places.
pub(crate) fn report_region(
    alloc: Global,
    name: &str,
    release: &Release,
    places: &[usize],
    detail: Detail,
) -> Result<Vec<u8>, AllocError>
    requires areas { AreasAdd release.now }
    requires places { ArePlaces release.now places.now }
    ensures { (u : Contents) → AreAt release.now places.now (new_parcels u release.now)
        → IfOk result (λ text. text.items ≡ region_report detail u name.now release.now) }
{
    let mut text = Vec::new(alloc);
    match print_region_sums(name, release, &mut text) {
        Ok(()) => {}
        Err(_) => return Err(AllocError),
    }
    match print_detail(release, places, detail, &mut text) {
        Ok(()) => Ok(text),
        Err(_) => Err(AllocError),
    }
}

/// Writes the beginning of the country's line.
#[tactic(auto, unfolding(crate::specs::private::Totals::count_text))]
fn print_count<W: Write>(count: usize, out: &mut W) -> Result<(), PrintFault>
    ensures { OnOk result (Appends (W.contents out.old) (W.contents out.new)
        (count_text count)) }
{
    write!(out, "country regions {count}")?;
    Ok(())
}

/// Writes the line of the country of so many regions, and the yes.
fn print_country<W: Write>(count: usize, totals: Totals, out: &mut W) -> Result<(), PrintFault>
    requires { IsPrintable totals }
    ensures { OnOk result (Appends (W.contents out.old) (W.contents out.new)
        (last_lines count totals)) }
{
    print_count(count, out)?;
    print_totals(totals, out)?;
    out.write_all(b"yes\n")?;
    Ok(())
}

/// What is printed of the country of so many regions, all of which passed.
pub(crate) fn report_country(
    alloc: Global,
    count: usize,
    totals: Totals,
) -> Result<Answer, AllocError>
    requires { IsPrintable totals }
    ensures { IfOk result (λ a. (a.text.items ≡ last_lines count totals) × (a.status ≡ done)) }
{
    let mut text = Vec::new(alloc);
    match print_country(count, totals, &mut text) {
        Ok(()) => Ok(Answer { text, status: DONE }),
        Err(_) => Err(AllocError),
    }
}
