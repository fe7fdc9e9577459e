//! The tiles that a parcel's box meets. No call takes memory.

ghost use Rattle.std.specs.Prelude.{◌≡◌, slice_get};
ghost use Rattle.std.specs.List.{list_any};
ghost use Rattle.lpis_country.specs.Tiling.{meets as meets_spec, reaches};
ghost use Rattle.lpis_country_seam.specs.Faults.{reached};

use lpis_country::{box_of_polygon, meets};
use lpis_points::Box4;
use lpis_release::Parcel;

/// Whether a box meets one of these tiles.
fn meets_any(tiles: &[Box4], b: &Box4) -> bool
    ensures { result ≡ list_any (λ tile. meets_spec tile b.now) tiles.now }
{
    tiles.iter().any(|tile| meets(tile, b))
}

/// Whether a parcel's box meets one of these tiles.
pub(crate) fn reaches_any(tiles: &[Box4], parcel: &Parcel) -> bool
    ensures { result ≡ list_any (reaches parcel.now) tiles.now }
{
    meets_any(tiles, &box_of_polygon(&parcel.polygon))
}

/// The first of these tiles that a parcel's box meets.
pub(crate) fn first_reached(tiles: &[Box4], parcel: &Parcel) -> Option<usize>
    ensures { result ≡ slice_get (reached 0 tiles.now parcel.now) 0 }
{
    let b = box_of_polygon(&parcel.polygon);
    for k in 0..tiles.len() {
        if meets(&tiles[k], &b) {
            return Some(k);
        }
    }
    None
}

/// Whether a parcel's box meets a tile.
pub(crate) fn reaches_tile(tile: &Box4, parcel: &Parcel) -> bool
    ensures { result ≡ reaches parcel.now tile.now }
{
    meets(tile, &box_of_polygon(&parcel.polygon))
}
