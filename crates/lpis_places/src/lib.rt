//! Points, and the parcel and the piece of each: a table of points is read, its points are put in
//! strips, and releases pass by, one after the other.
//!
//! The layer above may cite: the points of a table, or its first fault; where each of them is in a
//! release, or that no parcel of it contains it.
//! Begin at `specs/Places.antt`, then `src/locating.rt`.
//!
//! | Call | Answer |
//! |---|---|
//! | `read_points` | the points of a table, or its first fault |
//! | `no_places` | nothing was found of them yet |
//! | `locate_in` | the same after one release more: its parcel and piece that contain the point |
#![tactic(auto)]

mod edges;
mod fault;
mod given;
mod grid;
mod index;
mod locating;
mod numbers;
mod place;
mod reach;
mod reading;
mod sifting;
mod spans;
mod spot;
mod strips;

pub use fault::{Axis, BAD_NUMBER, PointsFault};
pub use given::GivenPoint;
pub use index::Points;
pub use locating::locate_in;
pub use place::{Place, no_places};
pub use reading::read_points;
pub use spot::Spot;
