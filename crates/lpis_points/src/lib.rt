//! Points of the plane in whole millimetres, sides of lines, crossings of edges, and triangles. No
//! call takes memory.
//!
//! The layer above may cite: values are the formulas of sides, crossings and boxes.
//! Begin at `specs/Plane.antt`, then `src/side.rt`.
//!
//! | Call | Answer |
//! |---|---|
//! | `Point::new` | the point, or `None` exactly where a coordinate is out of range |
//! | `RatPoint::new` | the point (x/d, y/d), or `None` exactly where d is not 1 to 1,000,000 or a quotient is out of range |
//! | `orient` | above 0 where c is left of the directed line from a to b, 0 on it, below 0 right of it |
//! | `orient_at` | the same of a rational point, times its d |
//! | `crossing` | 1, -1 or 0: how a directed edge, without its upper end, passes the ray to the right of a point |
//! | `is_ccw`, `is_flat` | whether a triangle is counter-clockwise; whether it is three different points of one line |
//! | `edge` | from a to b for 0, b to c for 1, c to a for 2, `None` above |
//! | `box_of`, `apart` | the least and greatest x and y; whether two boxes share no inner point |
//! | `is_right` | whether each corner of a triangle is right of the directed line from u to v, or on it |
//! | `separates` | whether a line through two different points has one triangle on its left and the other on its right |
//!
//! Each answer is proved to be that of the definitions in `specs/Plane.antt` and
//! `specs/Triangles.antt`. What follows from these definitions at every rational point stands in
//! `laws`.
#![tactic(auto)]

mod boxes;
pub mod laws;
mod point;
mod rational;
mod separating;
mod side;
mod triangle;

pub use boxes::{Box4, apart, box_of};
pub use point::{LIMIT, Point};
pub use rational::RatPoint;
pub use separating::{is_right, separates};
pub use side::{crossing, orient, orient_at};
pub use triangle::{Triangle, edge, is_ccw, is_flat};
