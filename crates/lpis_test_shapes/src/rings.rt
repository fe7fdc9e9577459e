//! Worked polygons, in millimetres.

use lpis_memory::Sequence;
use lpis_points::{Point, RatPoint};
use lpis_rings::{Member, Polygon, Ring, contains, edges, turns};
use std::alloc::Global;
use std::process::Abort;
use std::test::Fail;

const SQUARE: [(i64, i64); 5] = [(0, 0), (10_000, 0), (10_000, 10_000), (0, 10_000), (0, 0)];

const LEFT_HALF: [(i64, i64); 5] = [(0, 0), (5000, 0), (5000, 10_000), (0, 10_000), (0, 0)];

const RIGHT_HALF: [(i64, i64); 5] = [
    (5000, 0),
    (10_000, 0),
    (10_000, 10_000),
    (5000, 10_000),
    (5000, 0),
];

const HOLE: [(i64, i64); 5] = [
    (4000, 4000),
    (6000, 4000),
    (6000, 6000),
    (4000, 6000),
    (4000, 4000),
];

fn ring(alloc: Global, corners: &[(i64, i64)]) -> Result<Ring, Fail> {
    let mut points = Vec::new(alloc);
    for (x, y) in corners {
        points.push(Point::new(*x, *y).ok_or("out of range")?)?;
    }
    Ok(Ring::new(points)?)
}

fn polygon(
    alloc: Global,
    shell: &[(i64, i64)],
    hole: Option<&[(i64, i64)]>,
) -> Result<Polygon, Fail> {
    let mut holes = Vec::new(alloc);
    if let Some(corners) = hole {
        holes.push(ring(alloc, corners)?)?;
    }
    let mut members = Vec::new(alloc);
    members.push(Member {
        shell: ring(alloc, shell)?,
        holes: Sequence::new(holes),
    })?;
    Ok(Polygon::new(members)?)
}

/// Fails unless a polygon winds so often about (x/d, y/d), and contains it where that is once.
fn expect_turns<R: Abort>(
    rt: &R,
    polygon: &Polygon,
    (x, y, d, wanted): (i64, i64, i64, i64),
) -> Result<(), Fail> {
    let p = RatPoint::new(x, y, d).ok_or("out of range")?;
    let found = (turns(polygon, &p), contains(polygon, &p));
    assert_eq!(rt; found, (wanted, wanted == 1), "({x}, {y}, {d})");
    Ok(())
}

/// Looks at points about the polygon with this shell and hole.
fn expect_points<R: Abort>(
    rt: &R,
    alloc: Global,
    shell: &[(i64, i64)],
    hole: Option<&[(i64, i64)]>,
    cases: &[(i64, i64, i64, i64)],
) -> Result<(), Fail> {
    let polygon = polygon(alloc, shell, hole)?;
    for case in cases {
        expect_turns(rt, &polygon, *case)?;
    }
    Ok(())
}

/// Each point of a square that is cut in two lies in one half.
#[test]
fn a_square_cut_in_two(rt: HostRuntime) -> Result<(), Fail> {
    for (x, y, d, in_left, in_right, in_square) in [
        (0, 0, 1, 1, 0, 1),
        (5000, 3000, 1, 0, 1, 1),
        (10_010, 10, 2, 0, 1, 1),
        (5000, 10_000, 1, 0, 0, 0),
        (10_000, 0, 1, 0, 0, 0),
    ] {
        for (shell, wanted) in [
            (&LEFT_HALF, in_left),
            (&RIGHT_HALF, in_right),
            (&SQUARE, in_square),
        ] {
            expect_points(&rt, rt.alloc(), shell, None, &[(x, y, d, wanted)])?;
        }
    }
    Ok(())
}

#[test]
fn a_hole_takes_its_lower_and_left_edges(rt: HostRuntime) -> Result<(), Fail> {
    let cases = [
        (5000, 5000, 1, 0),
        (4000, 5000, 1, 0),
        (5000, 4000, 1, 0),
        (6000, 5000, 1, 1),
        (5000, 6000, 1, 1),
        (3999, 5000, 1, 1),
    ];
    expect_points(&rt, rt.alloc(), &SQUARE, Some(&HOLE), &cases)
}

#[test]
fn edges_come_in_normal_orientation(rt: HostRuntime) -> Result<(), Fail> {
    let clockwise = [(0, 0), (0, 10_000), (10_000, 10_000), (0, 0)];
    let ringed = polygon(
        rt.alloc(),
        &clockwise,
        Some(&[(2, 4), (4, 6), (2, 6), (2, 4)]),
    )?;
    let mut walked = edges(&ringed);
    for (from, to) in [
        ((0, 0), (10_000, 10_000)),
        ((10_000, 10_000), (0, 10_000)),
        ((0, 10_000), (0, 0)),
        ((2, 4), (2, 6)),
        ((2, 6), (4, 6)),
        ((4, 6), (2, 4)),
    ] {
        let (a, b) = walked.next().ok_or("too few edges")?;
        assert_eq!(rt; (a.x, a.y), from);
        assert_eq!(rt; (b.x, b.y), to);
    }
    assert!(rt; walked.next().is_none());
    Ok(())
}
