//! Flats with which parts make up a whole.

use lpis_cutter_residue::Net;
use lpis_points::Triangle;
use lpis_rings::{Polygon, edges};
use std::alloc::{AllocError, Global};

/// Adds each edge of a polygon so many times.
pub(crate) fn add_edges(net: &mut Net, polygon: &Polygon, count: i64) -> Result<(), AllocError> {
    for (a, b) in edges(polygon) {
        net.add(a, b, count)?;
    }
    Ok(())
}

/// Flats whose edges make up what is left of a whole's edges less those of its parts; None where
/// none are found. Nothing is promised of them, which are to be checked.
pub fn exact_flats(
    alloc: Global,
    whole: &Polygon,
    parts: &[Polygon],
) -> Result<Option<Vec<Triangle>>, AllocError> {
    let mut net = Net::new(alloc);
    add_edges(&mut net, whole, 1)?;
    for part in parts {
        add_edges(&mut net, part, -1)?;
    }
    net.settle()?;
    if net.is_flat() {
        Ok(Some(net.flats()?))
    } else {
        Ok(None)
    }
}
