//! Inputs that fail in mid-stream.

use crate::releases::{halves, run};
use lpis_run::{Failure, Name};
use std::test::Fail;

static POINTS: &str = "point,x,y\na,1,2\n";

/// Fails unless an input that fails after so many bytes is reported, and nothing is written.
fn expect_unread(rt: &HostRuntime, index: usize, bytes: usize, name: Name) -> Result<(), Fail> {
    let mut out = Vec::new(rt.alloc());
    let answer = run(rt, &halves(POINTS), Some((index, bytes)), &mut out);
    if answer == Err(Failure::Read(name)) && out.is_empty() {
        return Ok(());
    }
    Err(Fail::new(format_args!("input {index} after {bytes} bytes")))
}

#[test]
fn the_points_fail_at_each_read(rt: HostRuntime) -> Result<(), Fail> {
    for bytes in 0..=POINTS.len() {
        expect_unread(&rt, 4, bytes, Name::Points)?;
    }
    Ok(())
}

#[test]
fn what_comes_before_them_fails_first(rt: HostRuntime) -> Result<(), Fail> {
    expect_unread(&rt, 0, 1, Name::Parcels)?;
    expect_unread(&rt, 3, 1, Name::Cert)
}
