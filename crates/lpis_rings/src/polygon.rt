//! Polygons: members, each a shell and its holes.

ghost use Rattle.std.specs.Prelude.{◌≡◌, ◌+◌, ◌<◌, ◌≤◌, ◌↔◌, [], IfOk, MatchOption, MatchResult};
ghost use Rattle.std.specs.Prelude.{length};
ghost use Rattle.lpis_rings.specs.Polygon.{IsPolygon, most_points, points_in};

use crate::ring::Ring;
use lpis_memory::Sequence;
use std::alloc::{AllocError, Global};
use std::marker::Model;
use thiserror::Error;

/// The most points of a polygon, closing points counted.
pub const MOST_POINTS: usize = 100_000;

/// A shell and the holes in it.
#[derive(Debug, Drop)]
pub struct Member {
    /// The outer ring.
    pub shell: Ring,
    /// The rings that are cut out of it.
    pub holes: Sequence<Ring>,
}

/// One member or more, with at most `MOST_POINTS` points. Contracts see the list of its members.
#[derive(Debug, Drop)]
pub struct Polygon {
    members: Vec<Member>,
}

impl Model for Polygon {
    ghost use Rattle.std.specs.Prelude.{List};
    ghost use Rattle.lpis_rings.specs.declared.polygon.Member.{Member};
    ghost use Rattle.lpis_rings.specs.Polygon.{IsPolygon};

    ghost Value = { List Member };

    ghost view = { λ p. p.members.items };

    ghost invariant = { λ p. IsPolygon p.members.items };
}

/// Why members are no polygon.
#[derive(Clone, Copy, Debug, PartialEq, Eq, Error)]
pub enum PolygonFault {
    /// There is none.
    #[error("a polygon has a member or more")]
    NoMember,
    /// They have more than `MOST_POINTS` points, closing points counted.
    #[error("a polygon has at most 100,000 points")]
    TooMany,
}

/// Members that are no polygon, handed back.
#[derive(Debug, Drop, Error)]
#[error("{why}")]
pub struct BadPolygon {
    /// The members, as they were handed in.
    pub members: Vec<Member>,
    /// Why they are no polygon.
    pub why: PolygonFault,
}

/// The count with the points of one more ring, if it is not past the most.
fn with_ring(count: usize, ring: &Ring) -> Option<usize>
    requires { count ≤ most_points }
    ensures { MatchOption result (most_points < count + length ring.now)
        (λ n. (n ≡ count + length ring.now) × (n ≤ most_points)) }
{
    let more = ring.points().len();
    if more > MOST_POINTS - count {
        None
    } else {
        Some(count + more)
    }
}

/// The count with the points of more rings, if it is not past the most.
fn with_rings(count: usize, rings: &[Ring]) -> Option<usize>
    requires { count ≤ most_points }
    ensures { MatchOption result (most_points < count + points_in rings.now)
        (λ n. (n ≡ count + points_in rings.now) × (n ≤ most_points)) }
{
    let mut total = count;
    for ring in rings {
        total = with_ring(total, ring)?;
    }
    Some(total)
}

/// Equal rings.
fn copied_rings(alloc: Global, rings: &[Ring]) -> Result<Vec<Ring>, AllocError>
    ensures { IfOk result (λ v. v.items ≡ rings.now) }
{
    let mut copies = Vec::with_capacity(alloc, rings.len())?;
    for ring in rings {
        copies.push(ring.copy(alloc)?)?;
    }
    Ok(copies)
}

/// Equal members.
fn copied_members(alloc: Global, members: &[Member]) -> Result<Vec<Member>, AllocError>
    ensures { IfOk result (λ v. v.items ≡ members.now) }
{
    let mut copies = Vec::with_capacity(alloc, members.len())?;
    for member in members {
        copies.push(member.copy(alloc)?)?;
    }
    Ok(copies)
}

impl Member {
    ghost use Rattle.lpis_rings.specs.Polygon.{member_points, points_of};

    /// An equal one.
    pub fn copy(&self, alloc: Global) -> Result<Member, AllocError>
        ensures { IfOk result (λ member. member ≡ self.now) }
    {
        let shell = self.shell.copy(alloc)?;
        let holes = copied_rings(alloc, self.holes.as_slice())?;
        Ok(Member {
            shell,
            holes: Sequence::new(holes),
        })
    }

    /// The count with the points of this member, if it is not past the most.
    fn added_to(&self, count: usize) -> Option<usize>
        requires { count ≤ most_points }
        ensures { MatchOption result (most_points < count + member_points self.now)
            (λ n. (n ≡ count + member_points self.now) × (n ≤ most_points)) }
    {
        let with_shell = with_ring(count, &self.shell)?;
        with_rings(with_shell, self.holes.as_slice())
    }

    /// The points of members, if they are not more than the most.
    fn counted(members: &[Member]) -> Option<usize>
        ensures { MatchOption result (most_points < points_of members.now)
            (λ n. (n ≡ points_of members.now) × (n ≤ most_points)) }
    {
        let mut total = 0;
        for member in members {
            total = member.added_to(total)?;
        }
        Some(total)
    }
}

impl Polygon {
    ghost use Rattle.lpis_rings.specs.declared.polygon.PolygonFault.TheVariants.{NoMember};

    /// The polygon of these members. Where they are none they come back, with `NoMember` for no
    /// member and else `TooMany`.
    pub fn new(members: Vec<Member>) -> Result<Polygon, BadPolygon>
        ensures same { MatchResult result (λ polygon. polygon ≡ members.items)
            (λ bad. bad.members ≡ members) }
        ensures polygon { MatchResult result (λ _. IsPolygon members.items)
            (λ _. IsPolygon members.items → ⊥) }
        ensures why { MatchResult result (λ _. Unit {0}) (λ bad. bad.why ≡ NoMember
            ↔ (members.items ≡ [])) }
    {
        if members.is_empty() {
            let why = PolygonFault::NoMember;
            return Err(BadPolygon { members, why });
        }
        if Member::counted(&members).is_none() {
            let why = PolygonFault::TooMany;
            return Err(BadPolygon { members, why });
        }
        Ok(Polygon { members })
    }

    /// Its members in order.
    pub fn members(&self) -> &[Member]
        ensures same { result.now ≡ self.now }
        ensures polygon { IsPolygon self.now }
    {
        &self.members
    }

    /// An equal one, in blocks of their lengths.
    pub fn copy(&self, alloc: Global) -> Result<Polygon, AllocError>
        ensures { IfOk result (λ polygon. polygon ≡ self.now) }
    {
        let members = copied_members(alloc, &self.members)?;
        Ok(Polygon { members })
    }
}
