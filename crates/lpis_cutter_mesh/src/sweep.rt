//! The sweep over the edges of rooms.

use crate::chains::{Chain, Chains};
use crate::halt::{Halt, number_of};
use crate::plane::Plane;
use crate::replacing::replace;
use std::alloc::Global;
use std::cmp::Ordering;

/// Which rooms are cut into triangles.
#[derive(Clone, Copy, Debug, PartialEq, Eq)]
pub(crate) enum Rooms {
    /// Those round which the edges turn once. Edges that turn otherwise, but 0 times, have no cut.
    Once,
    /// Those round which they turn at all.
    Any,
}

/// Sweeps from west to east over net edges, and cuts the rooms between them into triangles on the
/// way. One value serves many sweeps, so that they share their memory.
#[derive(Drop)]
pub(crate) struct Sweep {
    pub(crate) plane: Plane,
    pub(crate) chains: Chains,
    rooms: Rooms,
    /// The most flats of one cut.
    most_flats: usize,
    /// The flats by the numbers of their corners.
    pub(crate) flats: Vec<[u32; 3]>,
    /// The edges that the sweep line crosses, from south to north.
    status: Vec<u32>,
    /// How many of these end at each point.
    ends: Vec<usize>,
    /// Of one point: the edges that end there, those that begin there as they are found, and those
    /// that go on.
    left: Vec<u32>,
    found: Vec<u32>,
    right: Vec<u32>,
    /// How many edges may yet be split or moved. Only thousands of edges nested on one line reach
    /// it.
    fuel: usize,
}

impl Sweep {
    pub(crate) fn new(alloc: Global, most_flats: usize) -> Sweep {
        Sweep {
            plane: Plane::new(alloc),
            chains: Chains::new(alloc),
            rooms: Rooms::Once,
            most_flats,
            flats: Vec::new(alloc),
            status: Vec::new(alloc),
            ends: Vec::new(alloc),
            left: Vec::new(alloc),
            found: Vec::new(alloc),
            right: Vec::new(alloc),
            fuel: 0,
        }
    }

    /// Takes all edges away.
    pub(crate) fn clear(&mut self) {
        self.plane.clear();
    }

    /// Sweeps over the edges that were added to the plane. Where it halts, the triangles so far are
    /// there.
    pub(crate) fn run(&mut self, rooms: Rooms) -> Result<(), Halt> {
        self.begin(rooms)?;
        for point in 0..self.plane.points.len() {
            self.pass(number_of(point)?)?;
        }
        if self.status.is_empty() {
            Ok(())
        } else {
            Err(Halt::NoCut)
        }
    }

    /// Numbers the edges, and lets what an earlier sweep left go.
    fn begin(&mut self, rooms: Rooms) -> Result<(), Halt> {
        self.rooms = rooms;
        self.chains.clear();
        self.flats.clear();
        self.status.clear();
        self.ends.clear();
        self.plane.load()?;
        for _ in 0..self.plane.points.len() {
            self.ends.push(0)?;
        }
        let splits = self.plane.edges.len().saturating_mul(64);
        self.fuel = splits.saturating_add(self.most_flats);
        Ok(())
    }

    fn is_room(&self, turns: i64) -> bool {
        match self.rooms {
            Rooms::Once => turns == 1,
            Rooms::Any => turns != 0,
        }
    }

    /// The sweep line passes a point.
    fn pass(&mut self, point: u32) -> Result<(), Halt> {
        let plane = &self.plane;
        let at = self
            .status
            .partition_point(|edge| plane.side_of(*edge, point) > 0);
        self.take_left(at, point)?;
        self.take_right(point)?;
        if self.left.is_empty() && self.right.is_empty() {
            return Ok(());
        }
        let below = match at.checked_sub(1) {
            Some(index) => self.status.get(index).copied(),
            None => None,
        };
        let under = self.turns_above(below)?;
        let over = match self.left.last().copied() {
            Some(edge) => self.plane.edge(edge)?.above,
            None => under,
        };
        self.count_turns(under, over)?;
        if self.left.is_empty() {
            self.open(point, below, under)?;
        } else {
            self.go_on(point, below, under, over)?;
        }
        self.start_rooms(point)?;
        self.replace(at)
    }

    fn turns_above(&self, edge: Option<u32>) -> Result<i64, Halt> {
        match edge {
            Some(edge) => Ok(self.plane.edge(edge)?.above),
            None => Ok(0),
        }
    }

    /// Takes fuel for one more edge.
    fn burn(&mut self) -> Result<(), Halt> {
        self.fuel = self.fuel.checked_sub(1).ok_or(Halt::NoCut)?;
        Ok(())
    }

    /// Adds so many flats a, b, c, or b, a, c where the count is below 0.
    fn add_flats(&mut self, a: u32, b: u32, c: u32, count: i64) -> Result<(), Halt> {
        let flat = if count > 0 { [a, b, c] } else { [b, a, c] };
        for _ in 0..count.unsigned_abs() {
            if self.flats.len() >= self.most_flats {
                return Err(Halt::NoCut);
            }
            self.flats.push(flat)?;
        }
        Ok(())
    }

    /// One edge more, or less, ends at a point.
    fn add_end(&mut self, point: u32) {
        if let Some(count) = self.ends.get_mut(point as usize) {
            *count = count.wrapping_add(1);
        }
    }

    fn drop_end(&mut self, point: u32) {
        if let Some(count) = self.ends.get_mut(point as usize) {
            *count = count.wrapping_sub(1);
        }
    }

    /// Ends an edge at a point on it, and lets the rest begin there.
    fn split(&mut self, number: u32, point: u32) -> Result<(), Halt> {
        let edge = self.plane.edge(number)?;
        self.burn()?;
        self.add_flats(edge.low, edge.high, point, edge.count)?;
        self.plane.add_edge(point, edge.high, edge.count)?;
        self.drop_end(edge.high);
        self.plane.set_end(number, point)?;
        self.add_end(point);
        Ok(())
    }

    /// The edges of the status through a point, from an index on. They stand together, unless edges
    /// cross.
    fn take_left(&mut self, at: usize, point: u32) -> Result<(), Halt> {
        self.left.clear();
        for index in at..self.status.len() {
            let Some(edge) = self.status.get(index).copied() else {
                break;
            };
            match self.plane.side_of(edge, point).cmp(&0) {
                Ordering::Greater => return Err(Halt::NoCut),
                Ordering::Less => break,
                Ordering::Equal => {}
            }
            if self.plane.edge(edge)?.high != point {
                self.split(edge, point)?;
            }
            self.left.push(edge)?;
        }
        if self.ends.get(point as usize) == Some(&self.left.len()) {
            Ok(())
        } else {
            Err(Halt::NoCut)
        }
    }

    /// The edges that begin at a point, from south to north, of each direction the nearest end
    /// first.
    fn find_right(&mut self, point: u32) -> Result<(), Halt> {
        self.found.clear();
        let mut next = self
            .plane
            .heads
            .get(point as usize)
            .copied()
            .ok_or(Halt::NoCut)?;
        for _ in 0..self.plane.edges.len() {
            let Some(number) = next else { break };
            let edge = self.plane.edge(number)?;
            if edge.count != 0 {
                self.found.push(number)?;
            }
            next = edge.next;
        }
        if self.found.len() > 1 {
            let plane = &self.plane;
            self.found
                .sort_unstable_by(|e, f| plane.by_direction(point, *e, *f));
        }
        Ok(())
    }

    /// The edges that go on from a point. Of those in one direction the nearest takes the counts of
    /// all, and the others begin at its end.
    fn take_right(&mut self, point: u32) -> Result<(), Halt> {
        self.find_right(point)?;
        self.right.clear();
        let mut nearest: Option<u32> = None;
        for index in 0..self.found.len() {
            let Some(edge) = self.found.get(index).copied() else {
                break;
            };
            match nearest {
                Some(near) if self.is_along(point, near, edge)? => self.shorten(point, near, edge)?,
                _ => {
                    self.keep(nearest)?;
                    nearest = Some(edge);
                }
            }
        }
        self.keep(nearest)
    }

    /// Whether an edge from a point has the direction of another.
    fn is_along(&self, point: u32, near: u32, edge: u32) -> Result<bool, Halt> {
        let end = self.plane.edge(near)?.high;
        let other = self.plane.edge(edge)?.high;
        Ok(self.plane.side(point, end, other) == 0)
    }

    fn shorten(&mut self, point: u32, near: u32, number: u32) -> Result<(), Halt> {
        let nearest = self.plane.edge(near)?;
        let edge = self.plane.edge(number)?;
        let count = nearest.count.checked_add(edge.count).ok_or(Halt::NoCut)?;
        self.plane.set_count(near, count);
        if edge.high == nearest.high {
            return Ok(());
        }
        self.burn()?;
        self.add_flats(point, edge.high, nearest.high, edge.count)?;
        self.plane.move_edge(number, nearest.high)
    }

    fn keep(&mut self, edge: Option<u32>) -> Result<(), Halt> {
        if let Some(edge) = edge
            && self.plane.edge(edge)?.count != 0
        {
            self.right.push(edge)?;
        }
        Ok(())
    }

    /// How often the edges turn round the rooms between those that go on: from what they do below
    /// the point to what they do above.
    fn count_turns(&mut self, under: i64, over: i64) -> Result<(), Halt> {
        let mut turns = under;
        for edge in &self.right {
            turns = turns.wrapping_add(self.plane.edge(*edge)?.count);
            self.plane.set_above(*edge, turns);
            if self.rooms == Rooms::Once && turns != 0 && turns != 1 {
                return Err(Halt::NoCut);
            }
        }
        if turns == over {
            Ok(())
        } else {
            Err(Halt::NoCut)
        }
    }

    fn chain_above(&self, edge: u32) -> Result<Chain, Halt> {
        self.plane.edge(edge)?.chain.ok_or(Halt::NoCut)
    }

    /// A point where edges begin and none ends: a room that it stands in is parted.
    fn open(&mut self, point: u32, below: Option<u32>, under: i64) -> Result<(), Halt> {
        if !self.is_room(under) {
            return Ok(());
        }
        let below = below.ok_or(Halt::NoCut)?;
        let highest = self.right.last().copied().ok_or(Halt::NoCut)?;
        let chain = self.chain_above(below)?;
        let (lower, upper) = self.chains.split(&self.plane.points, chain, point)?;
        self.plane.set_chain(below, Some(lower));
        self.plane.set_chain(highest, Some(upper));
        Ok(())
    }

    /// A point where edges end: the room below takes it, those between two of them are closed, and
    /// that above takes it.
    fn go_on(&mut self, point: u32, below: Option<u32>, under: i64, over: i64) -> Result<(), Halt> {
        if self.is_room(under) {
            let below = below.ok_or(Halt::NoCut)?;
            let chain = self.chain_above(below)?;
            let longer = self.chains.push_back(&self.plane.points, chain, point)?;
            self.plane.set_chain(below, Some(longer));
        }
        self.close_rooms(point)?;
        if !self.is_room(over) {
            return Ok(());
        }
        let last = self.left.last().copied().ok_or(Halt::NoCut)?;
        let chain = self.chain_above(last)?;
        let longer = self.chains.push_front(&self.plane.points, chain, point)?;
        match (self.right.last().copied(), below) {
            (Some(highest), _) => self.plane.set_chain(highest, Some(longer)),
            (None, Some(below)) => {
                let lower = self.chain_above(below)?;
                let merged = self.chains.merge(lower, longer)?;
                self.plane.set_chain(below, Some(merged));
            }
            (None, None) => return Err(Halt::NoCut),
        }
        Ok(())
    }

    /// Closes the rooms between two edges that end at a point.
    fn close_rooms(&mut self, point: u32) -> Result<(), Halt> {
        let between = self.left.len().saturating_sub(1);
        for index in 0..between {
            let edge = self.left.get(index).copied().ok_or(Halt::NoCut)?;
            if self.is_room(self.plane.edge(edge)?.above) {
                let chain = self.chain_above(edge)?;
                self.chains.close(&self.plane.points, chain, point)?;
            }
        }
        Ok(())
    }

    /// Starts the rooms between two edges that begin at a point.
    fn start_rooms(&mut self, point: u32) -> Result<(), Halt> {
        let between = self.right.len().saturating_sub(1);
        for index in 0..between {
            let edge = self.right.get(index).copied().ok_or(Halt::NoCut)?;
            if self.is_room(self.plane.edge(edge)?.above) {
                let chain = self.chains.start(point)?;
                self.plane.set_chain(edge, Some(chain));
            }
        }
        Ok(())
    }

    /// Puts the edges that go on into the status, in place of those that end.
    fn replace(&mut self, at: usize) -> Result<(), Halt> {
        for index in 0..self.right.len() {
            if let Some(edge) = self.right.get(index) {
                let end = self.plane.edge(*edge)?.high;
                self.add_end(end);
            }
        }
        replace(&mut self.status, at, self.left.len(), &self.right)
    }
}
