//! Texts of polygons, with the polygons that they spell or their faults.

use lpis_rings::Polygon;
use lpis_wkt::{WktFault, read};
use std::alloc::Global;
use std::process::Abort;
use std::test::Fail;

const SQUARE: &str = "POLYGON((0 0,10 0,10 10,0 10,0 0))";

/// What a text says: how many members its polygon has and the x of the second point, in
/// millimetres, or the code and the offset of its fault.
#[derive(Clone, Copy, Debug, PartialEq, Eq)]
enum Said {
    Members(usize, i64),
    Refused(&'static str, usize),
}

use Said::{Members, Refused};

fn second_x(polygon: &Polygon) -> Option<i64> {
    let second = polygon.members().first()?.shell.points().get(1)?;
    Some(second.x)
}

fn answer(alloc: Global, text: &str) -> Result<Said, WktFault> {
    match read(alloc, text) {
        Ok(polygon) => Ok(Members(polygon.members().len(), second_x(&polygon).unwrap_or(-1))),
        Err(WktFault::Memory) => Err(WktFault::Memory),
        Err(WktFault::At { code, offset }) => Ok(Refused(code.as_str(), offset)),
    }
}

fn repeated(
    alloc: Global,
    front: &str,
    piece: &str,
    count: usize,
    back: &str,
) -> Result<String, WktFault> {
    let mut text = String::new(alloc);
    text.push_str(front)?;
    for _ in 0..count {
        text.push_str(piece)?;
    }
    text.push_str(back)?;
    Ok(text)
}

static TEXTS: [(&str, Said); 26] = [
    (SQUARE, Members(1, 10_000)),
    // Any mix of cases, white space between tokens, zeros past the third decimal.
    (" Polygon ((0 0, 0.0100 0, 0 0.010, 0 0))\n", Members(1, 10)),
    ("Polygon ((0 0, 0.01 0, 0 0.010, 0 0))", Members(1, 10)),
    // One millimetre, and the greatest coordinate.
    ("POLYGON((0 0,0.001 0,0 0.001,0 0))", Members(1, 1)),
    (
        "POLYGON((0 0,20000000 0,0 1,0 0))",
        Members(1, 20_000_000_000),
    ),
    ("POLYGON((0 0,1.234 0,0 1,0 0))", Members(1, 1_234)),
    // A ring with equal neighbouring points.
    (
        "POLYGON((0 0,10 0,10 0,10 10,0 10,0 0))",
        Members(1, 10_000),
    ),
    // A hole, and one that is larger than its shell.
    (
        "POLYGON((0 0,10 0,10 10,0 10,0 0),(4 4,6 4,6 6,4 6,4 4))",
        Members(1, 10_000),
    ),
    (
        "POLYGON((0 0,1 0,1 1,0 1,0 0),(0 0,2 0,2 2,0 2,0 0))",
        Members(1, 1_000),
    ),
    // Two squares that touch in a corner.
    (
        "MULTIPOLYGON(((0 0,10 0,10 10,0 10,0 0)),((10 10,20 10,20 20,10 20,10 10)))",
        Members(2, 10_000),
    ),
    ("", Refused("10", 0)),
    ("POLYGON EMPTY", Refused("11", 8)),
    ("POLYGON(EMPTY)", Refused("11", 8)),
    ("POLYGON((0 0,1 0,1 1,0 0),empty)", Refused("11", 26)),
    ("MULTIPOLYGON(Empty)", Refused("11", 13)),
    ("SRID=4326;POLYGON((0 0,1 0,1 1,0 0))", Refused("12", 0)),
    ("MULTIPOLYGONZ(((0 0,1 0,1 1,0 0)))", Refused("12", 0)),
    ("POLYGON((0 0 5,1 0 5,1 1 5,0 0 5))", Refused("12", 13)),
    ("POLYGON((0 0,1e3 0,0 1,0 0))", Refused("13", 13)),
    ("POLYGON((0 0,1.2345 0,0 1,0 0))", Refused("14", 13)),
    ("POLYGON((0 0,20000000.001 0,0 1,0 0))", Refused("15", 13)),
    ("POLYGON((99999999999.999 0,1 0,1 1,0 0))", Refused("15", 9)),
    ("POLYGON((0 0,10 0,0 0))", Refused("16", 21)),
    ("POLYGON((0 0,10 0,10 10,0 10))", Refused("17", 28)),
    ("POLYGON((0 0,1 0", Refused("18", 16)),
    ("POLYGON((0 0,1 0,1 1,0 0)) x", Refused("18", 27)),
];

/// Fails unless this is said of a text.
fn expect_said<R: Abort>(rt: &R, alloc: Global, text: &str, said: Said) -> Result<(), WktFault> {
    let found = answer(alloc, text)?;
    assert_eq!(rt; found, said, "{text}");
    Ok(())
}

#[test]
fn texts(rt: HostRuntime) -> Result<(), Fail> {
    for (text, said) in &TEXTS {
        expect_said(&rt, rt.alloc(), text, *said)?;
    }
    Ok(())
}

/// Every prefix of the square that lacks its last `)` is refused where it ends or before.
#[test]
fn prefixes(rt: HostRuntime) -> Result<(), Fail> {
    let alloc = rt.alloc();
    let mut prefix = String::new(alloc);
    for c in SQUARE.chars() {
        match answer(alloc, prefix.as_str())? {
            Members(_, _) => assert!(rt; false),
            Refused(_, offset) => assert!(rt; offset <= prefix.len()),
        }
        prefix.push(c)?;
    }
    Ok(())
}

/// A text of a front, so many of a piece, and a back, and what is said of it.
type Repeated = (&'static str, &'static str, usize, &'static str, Said);

static LARGE_TEXTS: [Repeated; 4] = [
    ("POLYGON((", "0 0,", 99_999, "0 0))", Members(1, 0)),
    (
        "POLYGON((",
        "0 0,",
        100_000,
        "0 0))",
        Refused("19", 400_009),
    ),
    (
        "POLYGON((0 0,",
        "0",
        200,
        "10 0,10 10,0 10,0 0))",
        Members(1, 10_000),
    ),
    ("POLYGON((", "9", 44, " 0,1 0,1 1,0 0))", Refused("15", 9)),
];

#[test]
fn large_texts(rt: HostRuntime) -> Result<(), Fail> {
    for (front, piece, count, back, said) in &LARGE_TEXTS {
        let text = repeated(rt.alloc(), front, piece, *count, back)?;
        expect_said(&rt, rt.alloc(), text.as_str(), *said)?;
    }
    Ok(())
}
