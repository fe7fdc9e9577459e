//! Values at the bounds of what is taken.

use lpis_points::{
    LIMIT, Point, RatPoint, Triangle, apart, box_of, crossing, edge, is_ccw, is_flat, orient,
    orient_at, separates,
};
use std::process::Abort;
use std::test::Fail;

fn point(x: i64, y: i64) -> Result<Point, Fail> {
    Ok(Point::new(x, y).ok_or("out of range")?)
}

fn triangle(corners: [(i64, i64); 3]) -> Result<Triangle, Fail> {
    let [a, b, c] = corners;
    Ok(Triangle {
        a: point(a.0, a.1)?,
        b: point(b.0, b.1)?,
        c: point(c.0, c.1)?,
    })
}

#[test]
fn points_end_at_their_bounds(rt: HostRuntime) {
    for (x, y, is_taken) in [
        (20_000_000_000, -20_000_000_000, true),
        (20_000_000_001, 0, false),
        (0, -20_000_000_001, false),
    ] {
        assert_eq!(rt; Point::new(x, y).is_some(), is_taken, "({x}, {y})");
    }
}

#[test]
fn rational_points_end_at_their_bounds(rt: HostRuntime) {
    let (reach, greatest) = (20_000_000_000_000_000, 1_000_000);
    for (x, y, d, is_taken) in [
        (0, 0, 1, true),
        (0, 0, 0, false),
        (0, 0, -1, false),
        (LIMIT, -LIMIT, 1, true),
        (LIMIT + 1, 0, 1, false),
        (0, -LIMIT - 1, 1, false),
        (reach, -reach, greatest, true),
        (reach + 1, 0, greatest, false),
        (0, -reach - 1, greatest, false),
        (0, 0, greatest + 1, false),
    ] {
        assert_eq!(rt;
            RatPoint::new(x, y, d).is_some(),
            is_taken,
            "({x}, {y}, {d})"
        );
    }
}

#[test]
fn a_triangle_has_three_edges(rt: HostRuntime) -> Result<(), Fail> {
    let t = triangle([(0, 0), (10_000, 0), (0, 5000)])?;
    let edges = [Some((t.a, t.b)), Some((t.b, t.c)), Some((t.c, t.a)), None];
    for (k, wanted) in (0..).zip(edges.iter()) {
        assert_eq!(rt; edge(&t, k), *wanted);
    }
    Ok(())
}

#[test]
fn corners_tell_what_a_triangle_is(rt: HostRuntime) -> Result<(), Fail> {
    let t = triangle([(0, 0), (10_000, 0), (0, 5000)])?;
    let flat = triangle([(0, 0), (5000, 0), (10_000, 0)])?;
    assert_eq!(rt; orient(t.a, t.b, t.c), 50_000_000);
    assert!(rt; is_ccw(&t) && !is_ccw(&flat));
    assert!(rt; is_flat(&flat) && !is_flat(&t));
    assert!(rt; !is_flat(&triangle([(0, 0), (5000, 0), (0, 0)])?));
    Ok(())
}

#[test]
fn triangles_are_apart_or_separated(rt: HostRuntime) -> Result<(), Fail> {
    let left = triangle([(0, 0), (5000, 0), (5000, 10_000)])?;
    let right = triangle([(5000, 0), (10_000, 0), (5000, 10_000)])?;
    let across = triangle([(4000, 0), (15_000, 0), (4000, 5000)])?;
    let sides = box_of(&left);
    assert_eq!(rt;
        (sides.x0, sides.y0, sides.x1, sides.y1),
        (0, 0, 5000, 10_000)
    );
    assert!(rt; apart(&left, &right) && !apart(&left, &across));
    let upwards = (left.b, left.c);
    assert!(rt; separates(upwards, &left, &right) && !separates(upwards, &right, &left));
    assert!(rt; !separates((left.a, left.a), &left, &right));
    Ok(())
}

/// Fails unless the edge up from (5000, 0) to (5000, 10000), and the edge down, cross so often the
/// ray from (0, y).
fn expect_crossings<R: Abort>(rt: &R, y: i64, upwards: i8, downwards: i8) -> Result<(), Fail> {
    let (bottom, top) = (point(5000, 0)?, point(5000, 10_000)?);
    let p = RatPoint::new(0, y, 1).ok_or("out of range")?;
    let found = (crossing(bottom, top, &p), crossing(top, bottom, &p));
    assert_eq!(rt; found, (upwards, downwards), "at {y}");
    Ok(())
}

#[test]
fn edges_are_crossed_below_their_upper_end(rt: HostRuntime) -> Result<(), Fail> {
    for (y, upwards, downwards) in [(-1, 0, 0), (0, 1, -1), (9999, 1, -1), (10_000, 0, 0)] {
        expect_crossings(&rt, y, upwards, downwards)?;
    }
    let (bottom, top) = (point(5000, 0)?, point(5000, 10_000)?);
    let on_it = RatPoint::new(10_000, 1, 2).ok_or("out of range")?;
    let found = (
        orient_at(bottom, top, &on_it),
        crossing(bottom, top, &on_it),
    );
    assert_eq!(rt; found, (0, 0));
    Ok(())
}
