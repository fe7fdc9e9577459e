//! Chains: the borders of rooms that are not yet cut, as far as the sweep has come.

use crate::halt::{Halt, number_of};
use crate::mesh::{BORDER, Mesh, Side};
use lpis_points::{Point, orient};
use std::alloc::Global;

/// What lies across the link from a node of a chain to the next.
#[derive(Clone, Copy, Debug)]
pub(crate) enum Link {
    /// An edge that was handed in.
    Border,
    /// A side of a triangle.
    Side(Side),
    /// A diagonal of this number, drawn before there was a triangle on either side.
    Diagonal(u32),
}

/// A point of a chain.
#[derive(Clone, Copy, Debug)]
struct Node {
    point: u32,
    next: Option<u32>,
    previous: Option<u32>,
    link: Link,
}

/// A chain, from the left end of the lower edge of a room to that of its upper edge. It bends away
/// from the room at each node but its ends and the one that was swept last; so whatever a new point
/// sees of it is cut off at an end, by triangles of an area above 0.
#[derive(Clone, Copy, Debug)]
pub(crate) struct Chain {
    pub(crate) front: u32,
    pub(crate) back: u32,
    pub(crate) last: u32,
}

/// The nodes of all chains, and the triangles that were cut off.
#[derive(Drop)]
pub(crate) struct Chains {
    nodes: Vec<Node>,
    /// The side that waits on the other side of each diagonal: at first the border.
    diagonals: Vec<Side>,
    pub(crate) mesh: Mesh,
}

/// Whether the third of three points is left of the line from the first to the second; not where a
/// point is not there.
fn is_left(points: &[Point], a: u32, b: u32, c: u32) -> bool {
    match (
        points.get(a as usize),
        points.get(b as usize),
        points.get(c as usize),
    ) {
        (Some(a), Some(b), Some(c)) => orient(*a, *b, *c) > 0,
        _ => false,
    }
}

impl Chains {
    pub(crate) fn new(alloc: Global) -> Chains {
        Chains {
            nodes: Vec::new(alloc),
            diagonals: Vec::new(alloc),
            mesh: Mesh::new(alloc),
        }
    }

    pub(crate) fn clear(&mut self) {
        self.nodes.clear();
        self.diagonals.clear();
        self.mesh.flanks.clear();
    }

    fn node(&self, at: u32) -> Result<Node, Halt> {
        self.nodes.get(at as usize).copied().ok_or(Halt::NoCut)
    }

    fn add_node(&mut self, point: u32) -> Result<u32, Halt> {
        let number = number_of(self.nodes.len())?;
        self.nodes.push(Node {
            point,
            next: None,
            previous: None,
            link: Link::Border,
        })?;
        Ok(number)
    }

    fn set_next(&mut self, at: u32, next: Option<u32>, link: Link) {
        if let Some(node) = self.nodes.get_mut(at as usize) {
            node.next = next;
            node.link = link;
        }
    }

    fn set_previous(&mut self, at: u32, previous: Option<u32>) {
        if let Some(node) = self.nodes.get_mut(at as usize) {
            node.previous = previous;
        }
    }

    /// Puts a side of a new triangle against a link.
    fn glue(&mut self, link: Link, side: Side) {
        match link {
            Link::Border => {}
            Link::Side(other) => self.mesh.glue(side, other),
            Link::Diagonal(number) => self.glue_diagonal(number, side),
        }
    }

    fn glue_diagonal(&mut self, number: u32, side: Side) {
        if let Some(waiting) = self.diagonals.get_mut(number as usize) {
            if *waiting == BORDER {
                *waiting = side;
            } else {
                let other = *waiting;
                self.mesh.glue(side, other);
            }
        }
    }

    /// A chain of one point.
    pub(crate) fn start(&mut self, point: u32) -> Result<Chain, Halt> {
        let node = self.add_node(point)?;
        Ok(Chain {
            front: node,
            back: node,
            last: node,
        })
    }

    /// Cuts off what the front of a chain sees: while the next two nodes turn away from it, the
    /// triangle of the three.
    fn reduce_front(&mut self, points: &[Point], front: u32) -> Result<(), Halt> {
        for _ in 0..self.nodes.len() {
            let f = self.node(front)?;
            let Some(first) = f.next else { return Ok(()) };
            let c = self.node(first)?;
            let Some(second) = c.next else { return Ok(()) };
            let d = self.node(second)?;
            if !is_left(points, c.point, f.point, d.point) {
                return Ok(());
            }
            let triangle = self.mesh.add(c.point, f.point, d.point)?;
            self.glue(f.link, Side::of(triangle, 0));
            self.glue(c.link, Side::of(triangle, 2));
            self.set_next(front, Some(second), Link::Side(Side::of(triangle, 1)));
            self.set_previous(second, Some(front));
        }
        Ok(())
    }

    /// The same from the back.
    fn reduce_back(&mut self, points: &[Point], back: u32) -> Result<(), Halt> {
        for _ in 0..self.nodes.len() {
            let f = self.node(back)?;
            let Some(first) = f.previous else {
                return Ok(())
            };
            let c = self.node(first)?;
            let Some(second) = c.previous else {
                return Ok(())
            };
            let d = self.node(second)?;
            if !is_left(points, d.point, f.point, c.point) {
                return Ok(());
            }
            let triangle = self.mesh.add(d.point, f.point, c.point)?;
            self.glue(c.link, Side::of(triangle, 1));
            self.glue(d.link, Side::of(triangle, 2));
            self.set_next(second, Some(back), Link::Side(Side::of(triangle, 0)));
            self.set_previous(back, Some(second));
        }
        Ok(())
    }

    /// A point in front of a chain.
    pub(crate) fn push_front(
        &mut self,
        points: &[Point],
        chain: Chain,
        point: u32,
    ) -> Result<Chain, Halt> {
        let node = self.add_node(point)?;
        self.set_next(node, Some(chain.front), Link::Border);
        self.set_previous(chain.front, Some(node));
        self.reduce_front(points, node)?;
        Ok(Chain {
            front: node,
            back: chain.back,
            last: node,
        })
    }

    /// A point behind a chain.
    pub(crate) fn push_back(
        &mut self,
        points: &[Point],
        chain: Chain,
        point: u32,
    ) -> Result<Chain, Halt> {
        let node = self.add_node(point)?;
        self.set_previous(node, Some(chain.back));
        self.set_next(chain.back, Some(node), Link::Border);
        self.reduce_back(points, node)?;
        Ok(Chain {
            front: chain.front,
            back: node,
            last: node,
        })
    }

    /// The point at which both edges of a room end: all that is left of the room is cut off round
    /// it.
    pub(crate) fn close(&mut self, points: &[Point], chain: Chain, point: u32) -> Result<(), Halt> {
        let closed = self.push_front(points, chain, point)?;
        let front = self.node(closed.front)?;
        let end = self.node(front.next.ok_or(Halt::NoCut)?)?;
        match (end.next, front.link) {
            (None, Link::Side(_)) => Ok(()),
            _ => Err(Halt::NoCut),
        }
    }

    /// A point in the middle of a room, where edges begin: a diagonal to the node that was swept
    /// last, and a chain on either side.
    pub(crate) fn split(
        &mut self,
        points: &[Point],
        chain: Chain,
        point: u32,
    ) -> Result<(Chain, Chain), Halt> {
        let middle = chain.last;
        let seen = self.node(middle)?;
        let diagonal = Link::Diagonal(number_of(self.diagonals.len())?);
        self.diagonals.push(BORDER)?;
        let below = self.add_node(point)?;
        let above = self.add_node(point)?;
        let again = self.add_node(seen.point)?;
        self.set_next(middle, Some(below), diagonal);
        self.set_previous(below, Some(middle));
        self.set_next(above, Some(again), diagonal);
        self.set_previous(again, Some(above));
        self.set_next(again, seen.next, seen.link);
        let mut back = again;
        if let Some(rest) = seen.next {
            self.set_previous(rest, Some(again));
            back = chain.back;
        }
        self.reduce_back(points, below)?;
        self.reduce_front(points, above)?;
        let lower = Chain {
            front: chain.front,
            back: below,
            last: below,
        };
        let upper = Chain {
            front: above,
            back,
            last: above,
        };
        Ok((lower, upper))
    }

    /// Two chains as one, where the back of the first and the front of the second are nodes of one
    /// point.
    pub(crate) fn merge(&mut self, lower: Chain, upper: Chain) -> Result<Chain, Halt> {
        let front = self.node(upper.front)?;
        self.set_next(lower.back, front.next, front.link);
        let mut back = lower.back;
        if let Some(next) = front.next {
            self.set_previous(next, Some(lower.back));
            back = upper.back;
        }
        Ok(Chain {
            front: lower.front,
            back,
            last: lower.back,
        })
    }
}
