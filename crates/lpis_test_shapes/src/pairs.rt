//! Near pairs of triangles, by both sources.

use lpis_pairs::{AllPairs, MOST_TRIANGLES, PairSource, Sweep};
use lpis_points::{LIMIT, Point, Triangle};
use std::alloc::{AllocError, Global};
use std::process::Abort;
use std::test::Fail;

type Corner = (i64, i64);

fn triangle(a: Corner, b: Corner, c: Corner) -> Result<Triangle, Fail> {
    Ok(Triangle {
        a: Point::new(a.0, a.1).ok_or("a")?,
        b: Point::new(b.0, b.1).ok_or("b")?,
        c: Point::new(c.0, c.1).ok_or("c")?,
    })
}

/// What a source answers, through its bound.
fn answer<S: PairSource, R: Abort>(
    rt: &R,
    alloc: Global,
    source: &S,
    triangles: &[Triangle],
) -> Result<Vec<(u32, u32)>, AllocError> {
    assert!(rt; triangles.len() <= MOST_TRIANGLES);
    source.pairs(alloc, triangles)
}

/// Both sources answer the same, which is handed back.
fn agreed<R: Abort>(
    rt: &R,
    alloc: Global,
    triangles: &[Triangle],
) -> Result<Vec<(u32, u32)>, AllocError> {
    let all = answer(rt, alloc, &AllPairs, triangles)?;
    let swept = answer(rt, alloc, &Sweep, triangles)?;
    assert_eq!(rt; swept.as_slice(), all.as_slice());
    Ok(swept)
}

/// Triangles, and the pairs of them that are near.
struct Case {
    triangles: &'static [[Corner; 3]],
    pairs: &'static [(u32, u32)],
}

static CASES: [Case; 4] = [
    Case {
        triangles: &[],
        pairs: &[],
    },
    // The two triangles of each half of a square.
    Case {
        triangles: &[
            [(0, 0), (5000, 0), (5000, 10_000)],
            [(0, 0), (5000, 10_000), (0, 10_000)],
            [(5000, 0), (10_000, 0), (10_000, 10_000)],
            [(5000, 0), (10_000, 10_000), (5000, 10_000)],
        ],
        pairs: &[(0, 1), (2, 3)],
    },
    // One that meets two that are apart.
    Case {
        triangles: &[
            [(0, 0), (5000, 0), (0, 5000)],
            [(10_000, 0), (20_000, 0), (10_000, 10_000)],
            [(4000, 0), (15_000, 0), (4000, 5000)],
        ],
        pairs: &[(0, 2), (1, 2)],
    },
    // The widest.
    Case {
        triangles: &[
            [(-LIMIT, -LIMIT), (LIMIT, -LIMIT), (LIMIT, LIMIT)],
            [(0, 0), (1, 0), (0, 1)],
            [(-LIMIT, 0), (-LIMIT, 1), (-LIMIT, 2)],
            [(-LIMIT, LIMIT), (LIMIT, LIMIT), (0, LIMIT)],
            [(-1, 0), (1, 0), (0, 1)],
        ],
        pairs: &[(0, 1), (0, 4), (1, 4)],
    },
];

/// Fails unless both sources find these pairs of triangles with these corners.
fn expect_pairs<R: Abort>(rt: &R, alloc: Global, case: &Case) -> Result<(), Fail> {
    let mut triangles = Vec::new(alloc);
    for corners in case.triangles {
        let [a, b, c] = *corners;
        triangles.push(triangle(a, b, c)?)?;
    }
    let pairs = agreed(rt, alloc, triangles.as_slice())?;
    assert_eq!(rt; pairs.as_slice(), case.pairs);
    Ok(())
}

#[test]
fn both_sources_find_what_is_near(rt: HostRuntime) -> Result<(), Fail> {
    for case in &CASES {
        expect_pairs(&rt, rt.alloc(), case)?;
    }
    Ok(())
}

#[test]
fn equal_boxes_are_near_each_other(rt: HostRuntime) -> Result<(), Fail> {
    let mut triangles = Vec::new(rt.alloc());
    for _ in 0..100 {
        triangles.push(triangle((-7, -7), (13, -7), (0, 9))?)?;
    }
    let pairs = agreed(&rt, rt.alloc(), &triangles)?;
    assert_eq!(rt; pairs.len(), 4950);
    Ok(())
}

/// The next number of a fixed sequence, below a bound.
fn next(seed: &mut u64, bound: u64) -> i64 {
    *seed = seed
        .wrapping_mul(6_364_136_223_846_793_005)
        .wrapping_add(1_442_695_040_888_963_407);
    ((*seed >> 33) % bound.max(1)) as u32 as i64
}

fn somewhere(seed: &mut u64, spread: u64, size: u64) -> Result<Triangle, Fail> {
    let (x, y) = (next(seed, spread), next(seed, spread));
    let mut corner = || (
        x.saturating_add(next(seed, size)),
        y.saturating_add(next(seed, size)),
    );
    triangle(corner(), corner(), corner())
}

#[test]
fn the_sources_agree_on_generated_triangles(rt: HostRuntime) -> Result<(), Fail> {
    let mut seed = 20_261_122;
    let mut found = 0;
    for (spread, size) in [(30, 5), (30, 40), (300, 20), (1_000_000, 90_000), (12, 1)] {
        let mut triangles = Vec::new(rt.alloc());
        for _ in 0..150 {
            triangles.push(somewhere(&mut seed, spread, size)?)?;
        }
        found = found.max(agreed(&rt, rt.alloc(), &triangles)?.len());
    }
    assert!(rt; found > 1000);
    Ok(())
}

/// A triangle that begins low in x, and in y within a bound.
fn oblong(seed: &mut u64, spread: u64, width: u64, height: u64) -> Result<Triangle, Fail> {
    let (x, y) = (next(seed, 10), next(seed, spread));
    let mut corner = || (
        x.saturating_add(next(seed, width)),
        y.saturating_add(next(seed, height)),
    );
    triangle(corner(), corner(), corner())
}

/// One triangle is higher than all others together, which lie above each other: strips are given up.
#[test]
fn the_sources_agree_where_boxes_fill_a_strip(rt: HostRuntime) -> Result<(), Fail> {
    let mut seed = 20_261_201;
    let mut found = 0;
    for (spread, width, height) in [
        (3000, 900_000, 1),
        (30_000, 900_000, 300),
        (9, 900_000, 1),
        (3000, 40, 400),
    ] {
        let mut triangles = Vec::new(rt.alloc());
        triangles.push(triangle((-LIMIT, -LIMIT), (-LIMIT, LIMIT), (20, 0))?)?;
        for _ in 0..300 {
            triangles.push(oblong(&mut seed, spread, width, height)?)?;
        }
        found = found.max(agreed(&rt, rt.alloc(), &triangles)?.len());
    }
    assert!(rt; found > 1000);
    Ok(())
}

/// Boxes of several sizes, of which many are equal or touch.
#[test]
fn the_sources_agree_on_boxes_of_several_sizes(rt: HostRuntime) -> Result<(), Fail> {
    let mut seed = 20_261_202;
    let mut found = 0;
    for (wide, high) in [(5020, 5), (1020, 9), (9020, 1)] {
        let mut triangles = Vec::new(rt.alloc());
        for size in [1_u64, 128, 16_384, 2_097_152, 268_435_456] {
            let tall = size.saturating_mul(high).saturating_add(1);
            for _ in 0..60 {
                triangles.push(oblong(&mut seed, 4000, wide, tall)?)?;
            }
        }
        found = found.max(agreed(&rt, rt.alloc(), &triangles)?.len());
    }
    assert!(rt; found > 1000);
    Ok(())
}
