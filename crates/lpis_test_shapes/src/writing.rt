//! The texts of polygons, written and read again.

use lpis_wkt::{WktFault, read};
use lpis_wkt_writer::write;
use std::alloc::Global;
use std::test::Fail;

/// The text of the polygon that a text spells.
fn rewritten(alloc: Global, text: &str) -> Result<String, WktFault> {
    let polygon = read(alloc, text)?;
    let written = write(alloc, &polygon)?;
    Ok(written)
}

const SQUARE: &str = "POLYGON((0.000 0.000,10.000 0.000,10.000 10.000,0.000 10.000,0.000 0.000))";

const EXTREMES: &str =
    "POLYGON((-0.001 0.010,20000000.000 0.100,1.234 -20000000.000,-0.001 0.010))";

const TWO: &str = "MULTIPOLYGON(\
    ((0.000 0.000,9.000 0.000,0.000 9.000,0.000 0.000),\
    (1.000 1.000,2.000 1.000,1.000 2.000,1.000 1.000),\
    (3.000 3.000,4.000 3.000,3.000 4.000,3.000 3.000)),\
    ((-9.999 -0.010,-1.000 -0.100,-1.000 -0.999,-9.999 -0.010)))";

/// Each text is written in the one form, and that form comes back as it was.
#[test]
fn texts(rt: HostRuntime) -> Result<(), Fail> {
    for (text, written) in [
        ("POLYGON((0 0,10 0,10 10,0 10,0 0))", SQUARE),
        (
            " polygon ( (-.001 +.01, 20000000 .1, 1.2340 -20000000.0, -0.001 0.0100) ) ",
            EXTREMES,
        ),
        ("MultiPolygon(((0 0,10 0,10 10,0 10,-0 -0)))", SQUARE),
        (SQUARE, SQUARE),
        (EXTREMES, EXTREMES),
        (TWO, TWO),
    ] {
        let found = rewritten(rt.alloc(), text)?;
        assert_eq!(rt; found.as_str(), written, "{text}");
    }
    Ok(())
}
