//! The seam that is open.

ghost use Rattle.std.specs.Prelude.{◌≡◌, ◌≢◌, ◌++◌, ◌∷◌, [], List, filter, map, Some, IfErr, IfOk};
ghost use Rattle.std.specs.Prelude.{OnOk, slice_get};
ghost use Rattle.lpis_tables.specs.declared.class.Class.{Class};
ghost use Rattle.lpis_release.specs.Release.{Contents};
ghost use Rattle.lpis_country.specs.Country.{country_of, new_parcels};
ghost use Rattle.lpis_country_seam.specs.Faults.{ReportsSeam, seam_faults};
ghost use Rattle.lpis_country_seam.specs.declared.fault.SeamFault.TheVariants.{Memory};
ghost use Rattle.lpis_country_seam.specs.Open.{HasNext, IsSeamOf};
ghost use Rattle.lpis_country_seam.specs.private.Stepping.{IsKeptNext, tested};
ghost use Rattle.lpis_country_seam.specs.private.Testing.{is_fresh};

use crate::classes::check_classes;
use crate::fault::SeamFault;
use crate::identifiers::Identifiers;
use crate::keeping::{add_ids, thinned, with_new};
use crate::kept::KeptRows;
use crate::testing::{Known, check_parcels};
use lpis_country::is_region;
use lpis_points::Box4;
use lpis_release::Release;
use lpis_tables::Class;
use std::alloc::{AllocError, Global};
use std::mem;

/// What is kept of the regions of a country that were let go.
#[derive(Drop)]
pub struct OpenSeam {
    /// The tiles of the regions, in their order.
    tiles: Vec<Box4>,
    /// The classes, which all regions have.
    classes: Vec<Class>,
    /// The identifiers of the parcels so far.
    ids: Identifiers,
    /// The rows that later regions have to have too, and some that no later one has to have.
    kept: KeptRows,
    /// The number of the next region.
    next: usize,
}

impl OpenSeam {
    /// The seam before the first region of these tiles, which all have these classes.
    pub fn new(alloc: Global, tiles: Vec<Box4>, classes: Vec<Class>) -> OpenSeam
        ensures { IsSeamOf tiles.items classes.items [] result }
    {
        OpenSeam {
            tiles,
            classes,
            ids: Identifiers::new(alloc),
            kept: KeptRows::new(alloc),
            next: 0,
        }
    }

    /// The places of the new parcels of the next region among its parcels, or its first fault.
    fn check(&self, alloc: Global, release: &Release) -> Result<Vec<usize>, SeamFault>
        requires { HasNext self.now }
        ensures reports { ReportsSeam (tested self.now release.now) result }
        ensures places { IfOk result (λ places. map (slice_get release.now.parcels) places.items
            ≡ map Some (filter (is_fresh self.now.ids) release.now.parcels)) }
    {
        let known = Known {
            tiles: self.tiles.as_slice(),
            n: self.next,
            ids: &self.ids,
            kept: &self.kept,
        };
        match check_classes(release.classes(), self.classes.as_slice()) {
            Ok(()) => check_parcels(alloc, &known, release),
            Err(fault) => Err(fault),
        }
    }

    /// Keeps what later regions need of one more, whose new parcels have these places.
    fn keep(&mut self, alloc: Global, release: &Release, places: &[usize]) -> Result<(), AllocError>
        requires { HasNext self.old }
        ensures { OnOk result (IsKeptNext self.old self.new release.now places.now) }
    {
        let later = &self.tiles[self.next + 1..];
        let kept = mem::replace(&mut self.kept, KeptRows::new(alloc));
        let rows = thinned(alloc, later, kept)?;
        let rows = with_new(alloc, later, release, places, rows)?;
        add_ids(&mut self.ids, release.parcels())?;
        self.kept = rows;
        self.next += 1;
        Ok(())
    }

    /// Tests the next region against those before it, and keeps what later ones need. The places of
    /// its new parcels among its parcels, or the region's first fault, which leaves the seam as it
    /// was; after out of memory nothing is known of it.
    pub fn step(&mut self, alloc: Global, release: &Release) -> Result<Vec<usize>, SeamFault>
        requires { HasNext self.old }
        ensures reports { (tiles : List Box4) (classes : List Class) (done : List Contents)
            → IsSeamOf tiles classes done self.old
            → ReportsSeam (seam_faults tiles classes done release.now) result }
        ensures goes_on { (tiles : List Box4) (classes : List Class) (done : List Contents)
            → IsSeamOf tiles classes done self.old
            → OnOk result (IsSeamOf tiles classes (done ++ release.now ∷ []) self.new) }
        ensures new { (tiles : List Box4) (classes : List Class) (done : List Contents)
            → IsSeamOf tiles classes done self.old
            → IfOk result (λ places. map (slice_get release.now.parcels) places.items
            ≡ map Some (new_parcels (country_of classes done) release.now)) }
        ensures stays { IfErr result (λ fault. fault ≢ Memory → self.new ≡ self.old) }
    {
        is_region(release);
        match self.check(alloc, release) {
            Ok(places) => {
                self.keep(alloc, release, places.as_slice())?;
                Ok(places)
            }
            Err(fault) => Err(fault),
        }
    }
}
