//! The run over the regions of a country that is to be used in one piece.

ghost use Rattle.std.specs.Prelude.{◌≡◌, true, IfOk, length};
ghost use Rattle.lpis_country_seam.specs.Joined.{HasEnded};
ghost use Rattle.lpis_run_country.specs.Beginning.{setting_in};
ghost use Rattle.lpis_run_country.specs.RegionsOutcome.{JoinsRegions};
ghost use Rattle.lpis_run_country.specs.private.Progressing.{gathered_in, gathers};
ghost use Rattle.lpis_run_country.specs.private.Totals.{IsPrintable, last_lines};

use crate::beginning::Begun;
use crate::folder::Regions;
use crate::gathering::Gathered;
use crate::lines::report_country;
use crate::passing::{Passing, pass_begun};
use crate::progress::Progress;
use lpis_country_seam::Joined;
use lpis_country_seam::laws::a_country_of_joined_regions_is_sound;
use lpis_run::{Detail, Failure};
use std::alloc::{AllocError, Global};
use std::io::Write;

/// A country all of whose regions passed.
#[derive(Drop)]
pub struct JoinedCountry {
    /// The names of the folders of its regions, in the order of the plan.
    pub names: Vec<String>,
    /// The parcels.
    pub parcels: Joined,
    /// The line of the country and the yes, which were not written.
    pub text: Vec<u8>,
}

/// What a run over regions comes to.
#[derive(Drop)]
pub enum Joining {
    /// All passed.
    Joined(JoinedCountry),
    /// One was refused: its line was written, and this is its status.
    Refused(u8),
}

/// The country of all regions, which passed.
fn end(alloc: Global, passing: Passing) -> Result<JoinedCountry, AllocError>
    requires printable { IsPrintable passing.progress.totals }
    requires wanted { gathers passing.progress.gathered ≡ true }
    requires ended { HasEnded passing.progress.seam (gathered_in passing.progress.gathered) }
    ensures names { IfOk result (λ j. j.names ≡ passing.names) }
    ensures parcels { IfOk result (λ j. j.parcels ≡ gathered_in passing.progress.gathered) }
    ensures text { IfOk result (λ j. j.text.items
        ≡ last_lines (length passing.names.items) passing.progress.totals) }
{
    let Passing {
        names,
        progress,
        ..
    } = passing;
    let Progress {
        seam,
        totals,
        gathered,
    } = progress;
    let text = report_country(alloc, names.len(), totals)?.text;
    let parcels = seam.end(gathered.into_parcels());
    Ok(JoinedCountry {
        names,
        parcels,
        text,
    })
}

/// Checks the regions of a country one by one, as `run_country` does, writes what is printed of
/// each that passes, or the line of the first fault, and gathers the parcels of their union.
///
/// The country's line and the yes are not written: they are handed over.
pub fn join_regions<G: Regions, W: Write>(
    alloc: Global,
    regions: &G,
    begun: Begun,
    detail: Detail,
    out: &mut W,
) -> Result<Joining, Failure>
    ensures { JoinsRegions (setting_in (G.texts regions.now) detail begun) (W.contents out.old)
        (W.contents out.new) result }
{
    // The country of what all have passed is their union, and a sound map.
    a_country_of_joined_regions_is_sound();
    let wanted = Gathered::Parcels(Vec::new(alloc));
    let passing = pass_begun(alloc, regions, begun, wanted, detail, out)?;
    match passing.refused {
        Some(status) => Ok(Joining::Refused(status)),
        None => Ok(Joining::Joined(end(alloc, passing)?)),
    }
}
