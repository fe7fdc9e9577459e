//! Walks along the rings of a polygon, in normal orientation.

ghost use Rattle.std.specs.Prelude.{◌≡◌, ◌≤◌, length};
ghost use Rattle.std.specs.Iterator.{YieldsFirst, item_count};
ghost use Rattle.lpis_rings.specs.Edges.{edges_of, hole_edges, shell_edges};
ghost use Rattle.lpis_rings.specs.Polygon.{most_points, points_of};

use crate::area::shoelace;
use crate::polygon::Member;
use crate::ring::Ring;
use lpis_points::Point;
use std::marker::Model;

/// A walk along a ring. Contracts see the list of the edges that are left.
#[derive(Debug, Drop)]
struct Walk<'a> {
    points: &'a [Point],
    backwards: bool,
}

impl<'a> Model for Walk<'a> {
    ghost use Rattle.std.specs.Prelude.{List};
    ghost use Rattle.lpis_points.specs.declared.point.Point.{Point};
    ghost use Rattle.lpis_rings.specs.Area.{steps};
    ghost use Rattle.lpis_rings.specs.Edges.{walk};

    ghost Value = { List (Point × Point) };

    ghost view = { λ w. steps (walk w.backwards w.points.now) };
}

impl<'a> Walk<'a> {
    /// The walk round a shell, backwards where its shoelace sum is below 0.
    #[tactic(auto, unfolding(crate::specs::Edges::shell_edges))]
    fn of_shell(shell: &'a Ring) -> Walk<'a>
        requires { length shell.now ≤ most_points }
        ensures { result ≡ shell_edges shell.now }
    {
        Walk {
            points: shell.points(),
            backwards: shoelace(shell) < 0,
        }
    }

    /// The walk round a hole, backwards where its shoelace sum is above 0.
    #[tactic(auto, unfolding(crate::specs::Edges::hole_edges))]
    fn of_hole(hole: &'a Ring) -> Walk<'a>
        requires { length hole.now ≤ most_points }
        ensures { result ≡ hole_edges hole.now }
    {
        Walk {
            points: hole.points(),
            backwards: shoelace(hole) > 0,
        }
    }
}

impl<'a> Iterator for Walk<'a> {
    type Item = (Point, Point);

    ghost next_gives = { YieldsFirst (λ rest. rest) };

    ghost remaining = { item_count (λ rest. rest) };

    fn next(&mut self) -> Option<(Point, Point)> {
        if self.backwards {
            let (from, rest) = self.points.split_last()?;
            let to = rest.last()?;
            self.points = rest;
            Some((*from, *to))
        } else {
            let (from, rest) = self.points.split_first()?;
            let to = rest.first()?;
            self.points = rest;
            Some((*from, *to))
        }
    }
}

/// The walks round the rings of a polygon that are still to be made. Contracts see the list of
/// their edges, walk by walk.
#[derive(Debug, Drop)]
struct Walks<'a> {
    /// The holes left of the member whose shell was walked last.
    holes: &'a [Ring],
    /// The members after it.
    members: &'a [Member],
}

impl<'a> Model for Walks<'a> {
    ghost use Rattle.std.specs.Prelude.{List, ◌++◌, map, ◌+◌, ◌≤◌};
    ghost use Rattle.lpis_points.specs.declared.point.Point.{Point};
    ghost use Rattle.lpis_rings.specs.Edges.{hole_edges};
    ghost use Rattle.lpis_rings.specs.Polygon.{most_points, points_in, points_of};
    ghost use Rattle.lpis_rings.specs.private.RingWalks.{walks_of};

    ghost Value = { List (List (Point × Point)) };

    ghost view = { λ w. map hole_edges w.holes.now ++ walks_of w.members.now };

    ghost invariant = { λ w. points_in w.holes.now + points_of w.members.now ≤ most_points };
}

impl<'a> Iterator for Walks<'a> {
    type Item = Walk<'a>;

    ghost next_gives = { YieldsFirst (λ rest. rest) };

    ghost remaining = { item_count (λ rest. rest) };

    fn next(&mut self) -> Option<Walk<'a>> {
        if let Some((hole, holes)) = self.holes.split_first() {
            self.holes = holes;
            return Some(Walk::of_hole(hole));
        }
        let (member, members) = self.members.split_first()?;
        self.holes = member.holes.as_slice();
        self.members = members;
        Some(Walk::of_shell(&member.shell))
    }
}

/// The directed edges of a polygon in normal orientation, from `edges`. Contracts see the list of
/// the edges that are left.
#[derive(Debug, Drop)]
pub struct Edges<'a> {
    walk: Walk<'a>,
    later: Walks<'a>,
}

impl<'a> Model for Edges<'a> {
    ghost use Rattle.std.specs.Prelude.{List, ◌++◌};
    ghost use Rattle.lpis_rings.specs.private.RingWalks.{joined_walks};
    ghost use Rattle.lpis_points.specs.declared.point.Point.{Point};

    ghost Value = { List (Point × Point) };

    ghost view = { λ e. e.walk ++ joined_walks e.later };
}

impl<'a> Iterator for Edges<'a> {
    type Item = (Point, Point);

    ghost next_gives = { YieldsFirst (λ rest. rest) };

    ghost remaining = { item_count (λ rest. rest) };

    fn next(&mut self) -> Option<(Point, Point)> {
        loop {
            if let Some(edge) = self.walk.next() {
                return Some(edge);
            }
            self.walk = self.later.next()?;
        }
    }
}

impl<'a> Edges<'a> {
    /// The edges of these members.
    pub(crate) fn of_members(members: &'a [Member]) -> Edges<'a>
        requires { points_of members.now ≤ most_points }
        ensures { result ≡ edges_of members.now }
    {
        Edges {
            walk: Walk {
                points: &[],
                backwards: false,
            },
            later: Walks {
                holes: &[],
                members,
            },
        }
    }
}
