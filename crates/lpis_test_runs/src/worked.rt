//! Worked points, and tables of points that are refused.

use crate::releases::{Texts, expect_run, halves};
use std::test::Fail;

/// The x and the y of a point, and what is printed behind its identifier.
type Point = (&'static str, &'static str, &'static str);

const IN_B: &str = "parcel B piece b1 class G";

const IN_C: &str = "parcel C piece c1 class W";

const NOWHERE: &str = "nowhere";

/// Corners, middles of edges, and points a hair beside them.
static POINTS: [Point; 24] = [
    ("0", "0", IN_B),
    ("5", "0", IN_C),
    ("10", "0", NOWHERE),
    ("10", "10", NOWHERE),
    ("5", "10", NOWHERE),
    ("0", "10", NOWHERE),
    ("2.5", "0", IN_B),
    ("7.5", "0", IN_C),
    ("10", "5", NOWHERE),
    ("7.5", "10", NOWHERE),
    ("2.5", "10", NOWHERE),
    ("0", "5", IN_B),
    ("5", "5", IN_C),
    ("4.999999999", "5", IN_B),
    ("5.000000000000", "9.999999999", IN_C),
    ("-0.000000001", "5", NOWHERE),
    ("0", "-0.000000001", NOWHERE),
    ("9.999999999", "0.000000001", IN_C),
    ("10.000000001", "5", NOWHERE),
    ("-0", "+0", IN_B),
    ("+5.", ".5", IN_C),
    ("003", "04.50", IN_B),
    ("20000000", "-20000000", NOWHERE),
    ("-20000000.000000000", "20000000", NOWHERE),
];

/// The table of these points, all of one identifier, and the answer.
fn table_of(rt: &HostRuntime, points: &[Point]) -> Result<(String, String), Fail> {
    let mut table = format!(in rt.alloc(); "point,x,y\n")?;
    let mut answer = String::new(rt.alloc());
    for (x, y, place) in points {
        let row = format!(in rt.alloc(); "photo-1,{x},{y}\n")?;
        let line = format!(in rt.alloc(); "point photo-1 {place}\n")?;
        table.push_str(row.as_str())?;
        answer.push_str(line.as_str())?;
    }
    answer.push_str("yes\n")?;
    Ok((table, answer))
}

#[test]
fn points_of_two_parcels(rt: HostRuntime) -> Result<(), Fail> {
    let (table, answer) = table_of(&rt, &POINTS)?;
    expect_run(&rt, &halves(table.as_str()), answer.as_str(), 0)
}

/// Tables, and what is printed of them.
static TABLES: [(&str, &str, u8); 17] = [
    ("point,x,y\n", "yes\n", 0),
    (
        "Y,note,POINT,X\n1,n,a,6\n",
        "point a parcel C piece c1 class W\nyes\n",
        0,
    ),
    ("", "refused 31 points row 0\n", 2),
    ("point,x\n", "refused 31 points row 0\n", 2),
    ("point,x,y,Y\n", "refused 32 points row 0\n", 2),
    ("point,x,y\na,1\n", "refused 30 points row 1\n", 2),
    (
        "point,x,y\na,1,2\nphoto 1,1,2\n",
        "refused 33 points row 2\n",
        2,
    ),
    ("point,x,y\n,one,two\n", "refused 33 points row 1\n", 2),
    (
        "point,x,y\na,one,two\n",
        "refused 3d points row 1 x 13\n",
        2,
    ),
    ("point,x,y\na,1,\n", "refused 3d points row 1 y 13\n", 2),
    ("point,x,y\na,1,2e1\n", "refused 3d points row 1 y 13\n", 2),
    ("point,x,y\na,1, 2\n", "refused 3d points row 1 y 13\n", 2),
    (
        "point,x,y\na,1.0000000001,2\n",
        "refused 3d points row 1 x 14\n",
        2,
    ),
    (
        "point,x,y\na,99999999.0000000001,2\n",
        "refused 3d points row 1 x 14\n",
        2,
    ),
    (
        "point,x,y\na,20000000.000000001,2\n",
        "refused 3d points row 1 x 15\n",
        2,
    ),
    (
        "point,x,y\na,1,-20000000.000000001\n",
        "refused 3d points row 1 y 15\n",
        2,
    ),
    (
        "point,x,y\na,1,2\nb,9,9\nc,999999999999999999999,2\n",
        "refused 3d points row 3 x 15\n",
        2,
    ),
];

#[test]
fn tables_of_points(rt: HostRuntime) -> Result<(), Fail> {
    for (table, answer, status) in &TABLES {
        expect_run(&rt, &halves(table), answer, *status)?;
    }
    Ok(())
}

#[test]
fn a_refused_release_comes_first(rt: HostRuntime) -> Result<(), Fail> {
    let bad = halves("point,x,y\na,one,2\n");
    let uncut = Texts {
        cert: "lpis-cert 1\npairs 0\nend\n",
        ..bad
    };
    expect_run(&rt, &uncut, "refused 60 piece b1\n", 1)?;
    let unread = Texts {
        pieces: "piece\n",
        ..bad
    };
    expect_run(&rt, &unread, "refused 31 covers row 0\n", 2)
}
