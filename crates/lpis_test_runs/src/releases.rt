//! Runs of `locate` over texts.

use crate::expecting::expect_answer;
use crate::halting::Halting;
use lpis_run::{Failure, Folder, Tables};
use lpis_run_locate::{PointsIn, run_locate};
use std::test::Fail;

/// The halves of a square of ten metres as two parcels, of one piece each.
pub static PARCELS: &str = "parcel,wkt
B,\"POLYGON((0 0,5 0,5 10,0 10,0 0))\"
C,\"POLYGON((5 0,10 0,10 10,5 10,5 0))\"
";

pub static PIECES: &str = "piece,parcel,class,wkt
b1,B,G,\"POLYGON((0 0,5 0,5 10,0 10,0 0))\"
c1,C,W,\"POLYGON((5 0,10 0,10 10,5 10,5 0))\"
";

/// The table of two classes, the first of which is eligible.
pub static CLASSES: &str = "class,eligible\nG,1\nW,0\n";

/// The certificate of version 1, in centimetres.
pub static PARCELS_CERT: &str = "lpis-cert 1
piece b1 2 0
t 0 0 500 0 500 1000
t 0 0 500 1000 0 1000
piece c1 2 0
t 500 0 1000 0 1000 1000
t 500 0 1000 1000 500 1000
parcel B 0
parcel C 0
pairs 2
s 0 1 2
s 2 3 2
end
";

/// The texts of a run: of the release, of its certificate, and of the points.
#[derive(Clone, Copy)]
pub struct Texts<'a> {
    pub parcels: &'a str,
    pub pieces: &'a str,
    pub cert: &'a str,
    pub points: &'a str,
}

/// The halves as parcels, with these points.
pub fn halves(points: &str) -> Texts<'_> {
    Texts {
        parcels: PARCELS,
        pieces: PIECES,
        cert: PARCELS_CERT,
        points,
    }
}

/// Runs `locate`. The input at an index may fail after so many bytes.
pub fn run(
    rt: &HostRuntime,
    texts: &Texts<'_>,
    failing: Option<(usize, usize)>,
    out: &mut Vec<u8>,
) -> Result<u8, Failure> {
    let mut asked = PointsIn {
        files: Folder {
            tables: Tables {
                parcels: Halting::at(0, texts.parcels, failing),
                covers: Halting::at(1, texts.pieces, failing),
                classes: Halting::at(2, CLASSES, failing),
            },
            cert: Some(Halting::at(3, texts.cert, failing)),
        },
        points: Halting::at(4, texts.points, failing),
    };
    run_locate(rt.alloc(), &mut asked, out)
}

/// Fails unless `locate` writes this text and answers this status.
pub fn expect_run(rt: &HostRuntime, texts: &Texts<'_>, text: &str, status: u8) -> Result<(), Fail> {
    let mut out = Vec::new(rt.alloc());
    match run(rt, texts, None, &mut out) {
        Ok(answer) => expect_answer(out.as_slice(), answer, text, status),
        Err(_failure) => Err("a failure".into()),
    }
}
