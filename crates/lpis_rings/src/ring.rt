//! Rings: closed lists of points.

ghost use Rattle.std.specs.Prelude.{◌≡◌, ◌<◌, ◌-◌, ◌↔◌, IfOk, IsTrue, MatchResult, length};
ghost use Rattle.std.specs.Prelude.{slice_get};
ghost use Rattle.lpis_rings.specs.Ring.{IsRing};

use lpis_points::Point;
use std::alloc::{AllocError, Global};
use std::marker::Model;
use thiserror::Error;

/// Four points or more, the last equal to the first. Contracts see the list of its points.
#[derive(Debug, Drop)]
pub struct Ring {
    points: Vec<Point>,
}

impl Model for Ring {
    ghost use Rattle.std.specs.Prelude.{List};
    ghost use Rattle.lpis_points.specs.declared.point.Point.{Point};
    ghost use Rattle.lpis_rings.specs.Ring.{IsRing};

    ghost Value = { List Point };

    ghost view = { λ r. r.points.items };

    ghost invariant = { λ r. IsRing r.points.items };
}

/// Why points are no ring.
#[derive(Clone, Copy, Debug, PartialEq, Eq, Error)]
pub enum RingFault {
    /// They are fewer than four.
    #[error("a ring has four points or more")]
    Short,
    /// They are four or more, and the last differs from the first.
    #[error("the last point of a ring equals its first")]
    Unclosed,
}

/// Points that are no ring, handed back.
#[derive(Debug, Drop, Error)]
#[error("{why}")]
pub struct BadRing {
    /// The points, as they were handed in.
    pub points: Vec<Point>,
    /// Why they are no ring.
    pub why: RingFault,
}

/// Whether the last point equals the first.
fn is_closed(points: &[Point]) -> bool
    ensures { IsTrue result ↔
        (slice_get points.now (length points.now - 1) ≡ slice_get points.now 0) }
{
    match (points.first(), points.last()) {
        (Some(first), Some(last)) => last == first,
        _ => true,
    }
}

impl Ring {
    ghost use Rattle.lpis_rings.specs.declared.ring.RingFault.TheVariants.{Short, Unclosed};

    /// The ring of these points. Where they are none they come back, with `Short` for fewer than
    /// four and else `Unclosed`.
    pub fn new(points: Vec<Point>) -> Result<Ring, BadRing>
        ensures same { MatchResult result (λ ring. ring ≡ points.items)
            (λ bad. bad.points ≡ points) }
        ensures ring { MatchResult result (λ _. IsRing points.items) (λ _. IsRing points.items
            → ⊥) }
        ensures why { MatchResult result (λ _. Unit {0}) (λ bad. bad.why ≡ Short
            ↔ (length points.items < 4)) }
    {
        if points.len() < 4 {
            let why = RingFault::Short;
            return Err(BadRing { points, why });
        }
        if !is_closed(&points) {
            let why = RingFault::Unclosed;
            return Err(BadRing { points, why });
        }
        Ok(Ring { points })
    }

    /// The points of the ring in order, the last equal to the first.
    pub fn points(&self) -> &[Point]
        ensures same { result.now ≡ self.now }
        ensures ring { IsRing self.now }
    {
        &self.points
    }

    /// An equal one, in a block of its length.
    pub fn copy(&self, alloc: Global) -> Result<Ring, AllocError>
        ensures { IfOk result (λ ring. ring ≡ self.now) }
    {
        let points = copied(alloc, &self.points)?;
        Ok(Ring { points })
    }
}

/// Equal points.
fn copied(alloc: Global, points: &[Point]) -> Result<Vec<Point>, AllocError>
    ensures { IfOk result (λ v. v.items ≡ points.now) }
{
    let mut copies = Vec::with_capacity(alloc, points.len())?;
    for point in points {
        copies.push(*point)?;
    }
    Ok(copies)
}
