//! Edges handed in, and the rooms between them cut.

use crate::halt::Halt;
use crate::improve::Improver;
use crate::quads::ConvexQuad;
use crate::sweep::{Rooms, Sweep};
use lpis_points::{Point, Triangle};
use std::alloc::{AllocError, Global};

/// Triangles of a room, counter-clockwise, and flats for the points on its edges.
#[derive(Drop)]
pub struct Cut {
    pub triangles: Vec<Triangle>,
    pub flats: Vec<Triangle>,
}

/// Cuts rooms between edges into triangles. One value serves many rooms, which share its memory.
#[derive(Drop)]
pub struct Mesher {
    alloc: Global,
    sweep: Sweep,
    improver: Improver,
}

impl Mesher {
    /// A mesher without edges, which gives up where a room would get more flats than this.
    pub fn new(alloc: Global, most_flats: usize) -> Mesher {
        Mesher {
            alloc,
            sweep: Sweep::new(alloc, most_flats),
            improver: Improver::new(alloc),
        }
    }

    /// Takes all edges away.
    pub fn clear(&mut self) {
        self.sweep.clear();
    }

    /// Adds an edge, directed so that a room that it bounds is on its left.
    pub fn add(&mut self, a: Point, b: Point) -> Result<(), AllocError> {
        self.sweep.plane.add(a, b)
    }

    /// The triangles of the rooms round which the edges turn once, with few overlaps of their
    /// boxes. `None` where none is found: the edges turn round a room otherwise than once or not at
    /// all, cross off their ends or are no closed walks, or there is no room.
    pub fn cut(&mut self) -> Result<Option<Cut>, AllocError> {
        none_or_memory(self.try_cut())
    }

    /// The triangles of the rooms round which the edges turn at all, up to where they cross.
    pub fn rooms(&mut self) -> Result<Vec<Triangle>, AllocError> {
        if let Err(Halt::Memory) = self.sweep.run(Rooms::Any) {
            return Err(AllocError);
        }
        match none_or_memory(self.triangles())? {
            Some(triangles) => Ok(triangles),
            None => Ok(Vec::new(self.alloc)),
        }
    }

    fn try_cut(&mut self) -> Result<Cut, Halt> {
        if let Some(triangle) = self.sweep.plane.lone_triangle() {
            return self.cut_of(&[triangle]);
        }
        if let Some(quad) = ConvexQuad::of(self.sweep.plane.walk.as_slice()) {
            return self.cut_of(&quad.cut());
        }
        self.sweep.run(Rooms::Once)?;
        if self.sweep.chains.mesh.flanks.is_empty() {
            return Err(Halt::NoCut);
        }
        let points = &self.sweep.plane.points;
        self.improver.improve(points, &mut self.sweep.chains.mesh)?;
        Ok(Cut {
            triangles: self.triangles()?,
            flats: self.flats()?,
        })
    }

    /// A cut without flats.
    fn cut_of(&self, few: &[Triangle]) -> Result<Cut, Halt> {
        let mut triangles = Vec::with_capacity(self.alloc, few.len())?;
        triangles.extend_from_slice(few)?;
        Ok(Cut {
            triangles,
            flats: Vec::new(self.alloc),
        })
    }

    fn triangles(&self) -> Result<Vec<Triangle>, Halt> {
        let mesh = &self.sweep.chains.mesh;
        let mut triangles = Vec::with_capacity(self.alloc, mesh.count())?;
        for number in 0..mesh.count() {
            if let Some(corners) = mesh.corners(number) {
                triangles.push(self.triangle_of(corners)?)?;
            }
        }
        Ok(triangles)
    }

    fn flats(&self) -> Result<Vec<Triangle>, Halt> {
        let mut flats = Vec::with_capacity(self.alloc, self.sweep.flats.len())?;
        for corners in &self.sweep.flats {
            flats.push(self.triangle_of(*corners)?)?;
        }
        Ok(flats)
    }

    /// The triangle of three numbered points.
    fn triangle_of(&self, corners: [u32; 3]) -> Result<Triangle, Halt> {
        let [a, b, c] = corners;
        Ok(Triangle {
            a: self.sweep.plane.point(a)?,
            b: self.sweep.plane.point(b)?,
            c: self.sweep.plane.point(c)?,
        })
    }
}

/// What was found, if it was; out of memory is no answer.
fn none_or_memory<T>(found: Result<T, Halt>) -> Result<Option<T>, AllocError> {
    match found {
        Ok(found) => Ok(Some(found)),
        Err(Halt::NoCut) => Ok(None),
        Err(Halt::Memory) => Err(AllocError),
    }
}
