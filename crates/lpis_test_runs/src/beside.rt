//! A grid of points, found by the run and one by one by `Yes::locate`.

use crate::releases::{CLASSES, PARCELS, PARCELS_CERT, PIECES, expect_run, halves};
use lpis_cert::read_cert;
use lpis_checker::{Yes, check};
use lpis_pairs::Sweep;
use lpis_points::RatPoint;
use lpis_release::{Release, read_release};
use lpis_tables::Id;
use std::test::Fail;

/// The coordinates of the grid in millimetres, in no order: it has the corners of the parcels, the
/// middles of their edges, and points outside.
static PLACES: [i64; 10] = [
    0, 8_750, 6_250, 3_750, 1_250, 10_000, 7_500, 5_000, 2_500, 11_250,
];

/// The release of the halves.
fn release(rt: &HostRuntime) -> Result<Release, Fail> {
    let parcels = Vec::from_slice(rt.alloc(), PARCELS.as_bytes())?;
    let pieces = Vec::from_slice(rt.alloc(), PIECES.as_bytes())?;
    let classes = Vec::from_slice(rt.alloc(), CLASSES.as_bytes())?;
    Ok(read_release(rt.alloc(), parcels, pieces, classes)?)
}

/// The class of a piece of a release.
fn class_of<'a>(release: &'a Release, piece: &Id) -> &'a str {
    for row in release.pieces() {
        if row.id == *piece {
            return row.class.as_str();
        }
    }
    "none"
}

/// Adds the row of a point in millimetres to a table, and its line to an answer.
fn add_point(
    rt: &HostRuntime,
    yes: &Yes<'_>,
    (x, y): (i64, i64),
    table: &mut String,
    answer: &mut String,
) -> Result<(), Fail> {
    let p = RatPoint::new(x, y, 1).ok_or("out of range")?;
    let (x_rest, y_rest) = (x % 1000, y % 1000);
    let row = format!(in rt.alloc(); "p,{}.{x_rest:03},{}.{y_rest:03}\n", x / 1000, y / 1000)?;
    table.push_str(row.as_str())?;
    let line = match yes.locate(&p) {
        Some((parcel, piece)) => format!(in rt.alloc();
            "point p parcel {} piece {} class {}\n",
            parcel.as_str(),
            piece.as_str(),
            class_of(yes.release(), piece)
        )?,
        None => format!(in rt.alloc(); "point p nowhere\n")?,
    };
    answer.push_str(line.as_str())?;
    Ok(())
}

/// Fails unless the run and `Yes::locate` find the same of a grid.
fn expect_grid(rt: &HostRuntime, yes: &Yes<'_>) -> Result<(), Fail> {
    let mut table = format!(in rt.alloc(); "point,x,y\n")?;
    let mut answer = String::new(rt.alloc());
    for y in PLACES.iter() {
        for x in PLACES.iter() {
            add_point(rt, yes, (*x, *y), &mut table, &mut answer)?;
        }
    }
    answer.push_str("yes\n")?;
    expect_run(rt, &halves(table.as_str()), answer.as_str(), 0)
}

#[test]
fn a_grid_is_found_as_one_by_one(rt: HostRuntime) -> Result<(), Fail> {
    let release = release(&rt)?;
    let cert = read_cert(rt.alloc(), PARCELS_CERT.as_bytes())?;
    match check(rt.alloc(), &release, &cert, &Sweep) {
        Ok(yes) => expect_grid(&rt, &yes),
        Err(_fault) => Err("no yes".into()),
    }
}
